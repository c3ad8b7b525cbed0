//! Tasks of different lengths take turns, and all of them end.

ghost use Rattle.std.specs.Prelude.{◌≡◌};

use crate::counter::{Counter, Tally};
use cx_batch::drive;
use std::alloc::Global;
use std::test::Fail;
use test_cases::same;

/// Three counters' turns, and whose turns come one after another.
type Row = ([u64; 3], &'static [usize]);

const ROWS: &[Row] = &[
    ([0, 0, 0], &[]),
    ([0, 2, 0], &[1, 1]),
    ([2, 2, 2], &[0, 1, 2, 0, 1, 2]),
    ([3, 1, 2], &[0, 1, 2, 0, 2, 0]),
    ([1, 0, 4], &[0, 2, 2, 2, 2]),
];

fn counter(place: usize, left: u64) -> Counter
    ensures { result ≡ record { place = place; left = left; counted = 0 } }
{
    Counter {
        place,
        left,
        counted: 0,
    }
}

/// Runs three counters to their end.
fn run(alloc: Global, [first, second, third]: [u64; 3]) -> Result<(Vec<Counter>, Tally), Fail> {
    let counters = [counter(0, first), counter(1, second), counter(2, third)];
    let mut counters = Vec::from_array(alloc, counters)?;
    let mut tally = Tally {
        turns: Vec::new(alloc),
        count: 0,
    };
    drive(&mut counters, &mut tally);
    Ok((counters, tally))
}

/// What is left of each counter, and what it has counted.
fn work_of(alloc: Global, counters: &[Counter]) -> Result<Vec<(u64, u64)>, Fail> {
    let mut work = Vec::new(alloc);
    for counter in counters {
        work.push((counter.left, counter.counted))?;
    }
    Ok(work)
}

/// Counters of a row's lengths take its turns, and count all.
fn take_turns(alloc: Global, row: &Row) -> Result<(), Fail> {
    let (lengths, turns) = *row;
    let (counters, tally) = run(alloc, lengths)?;
    same(&("turns of", lengths), &tally.turns.as_slice(), &turns)?;
    same(&("count of", lengths), &tally.count, &(turns.len() as u64))?;
    let work = work_of(alloc, &counters)?;
    let [first, second, third] = lengths;
    let want = [(0, first), (0, second), (0, third)];
    same(&("work of", lengths), &work.as_slice(), &want.as_slice())
}

#[test]
fn counters_take_turns_until_all_are_over(rt: HostRuntime) -> Result<(), Fail> {
    for row in ROWS {
        take_turns(rt.alloc(), row)?;
    }
    Ok(())
}
