//! Works that were handed in and aren't done.
ghost use Rattle.std.specs.Prelude.{◌≡◌, ◌++◌, ◌∷◌, ◌<◌, [], length, take, drop, map, nat_lt, None, IfOk, OnOk, OnErr};
ghost use Rattle.std.specs.List.{list_all, list_any};
ghost use Rattle.cx_flat.specs.Flats.{is_halt};
ghost use Rattle.cx_core_events.specs.Events.{work_of, same_buffer, is_room, is_some_work};
ghost use Rattle.cx_core_events.specs.Steps.{handed_after, works_after, one_less};

use crate::standing::{Standing, Work};
use cx_flat::Op;
use cx_plan::VarId;
use cx_text::Memory;

/// Whether no operation is left.
pub(crate) fn is_halt(op: &Op) -> bool
    ensures { result ≡ is_halt op.now }
{
    match op {
        Op::Halt => true,
        _ => false,
    }
}

/// The work for which an operation hands in a piece.
pub(crate) fn work_of(op: &Op, iteration: u64) -> Option<Work>
    ensures { result ≡ work_of op.now iteration }
{
    match op {
        Op::Piece(variable) => Some(Work {
            var: Some(*variable),
            iteration,
        }),
        Op::Save => Some(Work {
            var: None,
            iteration,
        }),
        _ => None,
    }
}

/// Whether two works have one buffer.
fn same_buffer(first: Option<VarId>, second: Option<VarId>) -> bool
    ensures { result ≡ same_buffer first second }
{
    match first {
        None => match second {
            None => true,
            Some(_) => false,
        },
        Some(variable) => match second {
            None => false,
            Some(other) => variable.0 == other.0,
        },
    }
}

/// Whether one of the first works has this buffer.
pub(crate) fn has_buffer(works: &[Work], count: usize, buffer: Option<VarId>) -> bool
    ensures { result ≡ list_any (λ w. same_buffer w.var buffer) (take count works.now) }
{
    works
        .iter()
        .take(count)
        .any(|work| same_buffer(work.var, buffer))
}

/// Whether one of the works is a checkpoint.
pub(crate) fn some_checkpoint(works: &[Work]) -> bool
    ensures { result ≡ list_any (λ w. same_buffer w.var None) works.now }
{
    works.iter().any(|work| same_buffer(work.var, None))
}

/// Whether none of the first works has the buffer of a work.
pub(crate) fn is_room(work: Option<Work>, works: &[Work], count: usize) -> bool
    ensures { result ≡ is_room work (take count works.now) }
{
    match work {
        None => true,
        Some(work) => !has_buffer(works, count, work.var),
    }
}

/// Whether there is a work.
pub(crate) fn is_some_work(works: &[Work]) -> bool
    ensures { result ≡ is_some_work works.now }
{
    match works.split_first() {
        None => false,
        Some(_) => true,
    }
}

/// Whether all parts have handed in the first work.
pub(crate) fn all_handed(parts: &[Standing]) -> bool
    ensures { result ≡ list_all (λ s. nat_lt 0 s.handed) parts.now }
{
    parts.iter().all(|part| part.handed > 0)
}

/// Hands in a work: the foremost part adds it to the list. The number of works that are handed in behind it.
pub(crate) fn hand_in(
    works: &mut Vec<Work>,
    work: Option<Work>,
    handed: usize,
) -> Result<usize, Memory>
    ensures value { IfOk result (λ after. after
        ≡ handed_after work (length works.old.items) handed) }
    ensures works { OnOk result (works.new.items ≡ works_after work works.old.items handed) }
    ensures err { OnErr result (works.new.items ≡ works.old.items) }
{
    match work {
        None => Ok(handed),
        Some(work) => {
            if handed < works.len() {
                Ok(handed + 1)
            } else {
                works.push(work)?;
                Ok(works.len())
            }
        }
    }
}

/// The first work is done.
pub(crate) fn take_first(works: &mut Vec<Work>)
    requires { 0 < length works.old.items }
    ensures { works.new.items ≡ drop 1 works.old.items }
{
    works.remove(0);
}

/// Each part has handed in one work less.
pub(crate) fn one_less(parts: &mut Vec<Standing>)
    ensures { parts.new.items ≡ map one_less parts.old.items }
{
    'parts: for part in parts.iter_mut() {
        part.lessen();
    }
}
