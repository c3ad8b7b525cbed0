//! The wires: what they carry, count, alter, note, and where they fail.

ghost use Rattle.std.specs.Prelude.{◌≡◌, ◌≤◌, IfOk};
ghost use Rattle.cx_wire.specs.Messages.{IsCounted};

use cx_grid::Side;
use cx_text::List;
use cx_wire::{AlteringWire, FailingWire, Head, Mail, MemoryWire, NotingWire, Wire};
use std::alloc::Global;
use std::test::Fail;
use test_cases::same;

/// What a mail of two values says of itself.
fn head(side: Side) -> Head
    ensures { result.count ≡ 2 }
{
    Head {
        op: 7,
        dir: 0,
        side,
        count: 2,
    }
}

/// A mail of two values, lying at a side.
fn mail(alloc: Global, side: Side, values: [i64; 2]) -> Result<Mail, Fail>
    ensures { IfOk result IsCounted }
{
    Ok(Mail {
        head: head(side),
        values: List::new(values.to_vec(alloc)?),
    })
}

/// What comes out of the wire from part 0 to part 1 after this mail was sent, or None where the wire failed.
fn through<W: Wire>(
    alloc: Global,
    wire: &mut W,
    side: Side,
    values: [i64; 2],
) -> Result<Option<[i64; 2]>, Fail>
    requires { 2 ≤ W.parts wire.old }
    ensures { W.parts wire.new ≡ W.parts wire.old }
{
    if wire.send(0, 1, mail(alloc, side, values)?).is_err() {
        return Ok(None);
    }
    match wire.receive(0, 1) {
        Ok(mail) => Ok(pair(mail.values.as_slice())),
        Err(_) => Ok(None),
    }
}

/// Two values, if they are two.
fn pair(values: &[i64]) -> Option<[i64; 2]> {
    match values {
        [a, b] => Some([*a, *b]),
        _ => None,
    }
}

#[test]
fn a_wire_counts_what_it_gives_out(rt: HostRuntime) -> Result<(), Fail> {
    let alloc = rt.alloc();
    let mut wire = MemoryWire::new(alloc, 2)?;
    let first = through(alloc, &mut wire, Side::Low, [-1, 3])?;
    let counted = (first, wire.received(), wire.received_sum());
    same(&"the first mail", &counted, &(Some([-1, 3]), 2, 2))?;
    let second = through(alloc, &mut wire, Side::High, [-4, 1])?;
    let counted = (second, wire.received(), wire.received_sum());
    same(&"the second mail", &counted, &(Some([-4, 1]), 4, u64::MAX))
}

#[test]
fn a_wire_alters_one_value(rt: HostRuntime) -> Result<(), Fail> {
    let alloc = rt.alloc();
    let mut wire = AlteringWire::new(MemoryWire::new(alloc, 2)?);
    let high = through(alloc, &mut wire, Side::High, [5, 6])?;
    let low = through(alloc, &mut wire, Side::Low, [5, 6])?;
    let next = through(alloc, &mut wire, Side::Low, [5, 6])?;
    let want = [Some([5, 6]), Some([6, 6]), Some([5, 6])];
    same(&"three mails", &[high, low, next], &want)
}

#[test]
fn a_wire_fails_at_some_calls(rt: HostRuntime) -> Result<(), Fail> {
    let alloc = rt.alloc();
    let fail = List::new(Vec::from_array(alloc, [0, 2])?);
    let mut wire = FailingWire::new(MemoryWire::new(alloc, 2)?, fail);
    let unsent = through(alloc, &mut wire, Side::Low, [1, 2])?;
    let kept = through(alloc, &mut wire, Side::Low, [3, 4])?;
    let found = (unsent, kept, wire.front(0, 1));
    let want = (None, None, Some(head(Side::Low)));
    same(&"calls that fail, and the mail that is kept", &found, &want)?;
    let got = through(alloc, &mut wire, Side::High, [5, 6])?;
    same(&"the kept mail comes first", &got, &Some([3, 4]))
}

#[test]
fn a_wire_notes_what_is_sent(rt: HostRuntime) -> Result<(), Fail> {
    let alloc = rt.alloc();
    let mut wire = NotingWire::new(alloc, MemoryWire::new(alloc, 2)?);
    through(alloc, &mut wire, Side::High, [1, 2])?;
    through(alloc, &mut wire, Side::Low, [1, 2])?;
    let want = [(0, 1, head(Side::High)), (0, 1, head(Side::Low))];
    same(&"two mails", &wire.notes().as_slice(), &want.as_slice())
}
