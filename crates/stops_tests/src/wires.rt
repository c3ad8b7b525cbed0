//! A run over a wire that alters a message.
ghost use Rattle.std.specs.Prelude.{◌≤◌};
ghost use Rattle.cx_core.specs.Starts.{AreEmpty};

use crate::stops::RUN;
use cx_disk::MemoryDisk;
use cx_rule::Meter;
use cx_text::List;
use cx_turns::SeededTurns;
use cx_wire::Wire;
use sample_runs::samples::CA;
use sample_runs::{FIRST_OUTPUT, altering, shelf_with, sink, status_over};
use std::test::Fail;
use test_cases::same;

const TWO_PARTS: &str = "driver::parts_x = 2\n";

/// The automaton's output where part 1 is told in the first exchange that its right neighbour's cell lives.
const ALTERED: &[u8] = b"# ca::cell iteration 0 size 8\n\
    0 0 0 1 0 0 0 0\n\
    \n\
    # ca::cell iteration 1 size 8\n\
    0 0 1 0 1 0 0 0\n\
    \n\
    # ca::cell iteration 2 size 8\n\
    0 1 0 0 0 1 0 1\n\
    \n";

/// The status of the automaton's run in two parts over these devices.
fn status_with<W: Wire>(rt: &HostRuntime, disk: &mut MemoryDisk, wire: &mut W) -> Result<u8, Fail>
    requires parts { 512 ≤ W.parts wire.old }
    requires empty { AreEmpty (W.queue wire.old) }
{
    let mut shelf = shelf_with(rt.alloc(), CA, TWO_PARTS, &[])?;
    let mut out = sink(rt.alloc(), &[])?;
    let mut turns = SeededTurns::new();
    let mut meter = Meter::new(rt);
    status_over(
        rt, RUN, &mut shelf, disk, wire, &mut turns, &mut out, &mut meter,
    )
}

#[test]
fn a_value_that_is_altered(rt: HostRuntime) -> Result<(), Fail> {
    let mut disk = MemoryDisk::new(rt.alloc(), List::empty(rt.alloc()));
    let mut wire = altering(rt.alloc())?;
    let status = status_with(&rt, &mut disk, &mut wire)?;
    let found = (status, disk.bytes(FIRST_OUTPUT));
    same(&"the altered value is used", &found, &(0, ALTERED))
}
