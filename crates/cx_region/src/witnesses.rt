//! Witnesses that are led side by side while one flag is followed.

ghost use Rattle.std.specs.Prelude.{◌≡◌, ◌≤◌, length, map, IfOk, OnOk};
ghost use Rattle.cx_plan.specs.Whole.{IsWhole};
ghost use Rattle.cx_region.specs.Witnesses.{act_of, with_letter, is_cleared_on, covers_one, covers, Joins, AllTake};

use crate::witness::{Followed, Step, Witness, WitnessStop};
use cx_plan::Job;
use cx_text::Memory;
use std::alloc::Global;

/// No variable has more levels.
const MOST_LEVELS: u8 = 8;

/// Each way takes this step, or the first that can't stops them all.
pub(crate) fn take_all<'a>(
    alloc: Global,
    job: &'a Job,
    ways: Vec<Witness>,
    step: Step<'a>,
) -> Result<Vec<Witness>, WitnessStop<'a>>
    requires whole { IsWhole job.now }
    requires some { 1 ≤ length ways.items }
    ensures goes { AllTake job.now (act_of step.entry) ways.items result }
    ensures some { IfOk result (λ new. 1 ≤ length new.items) }
{
    let mut taken = Vec::new(alloc);
    'ways: for way in ways {
        taken.push(way.take(job, step)?)?;
    }
    Ok(taken)
}

/// Each way notes one more letter.
pub(crate) fn with_letter(mut ways: Vec<Witness>, letter: u8) -> Result<Vec<Witness>, Memory>
    ensures { IfOk result (λ new. new.items ≡ map (with_letter letter) ways.items) }
{
    for number in 0..ways.len() {
        ways[number].add_letter(letter)?;
    }
    Ok(ways)
}

/// Copies of ways in their order, with their flags.
pub(crate) fn copies(alloc: Global, ways: &[Witness]) -> Result<Vec<Witness>, Memory>
    ensures { IfOk result (λ new. new.items ≡ ways.now) }
{
    let mut copies = Vec::new(alloc);
    'ways: for way in ways {
        copies.push(way.copy(alloc)?)?;
    }
    Ok(copies)
}

/// Whether the flag is cleared at a level on one of the ways.
fn is_cleared_on(followed: Followed, ways: &[Witness], level: u8) -> bool
    ensures { result ≡ is_cleared_on followed ways.now level }
{
    ways.iter().any(|way| way.is_cleared(followed, level))
}

/// Whether the flag is cleared on one of the ways at each level at which it is on this one.
fn covers_one(followed: Followed, ways: &[Witness], way: &Witness) -> bool
    ensures { result ≡ covers_one followed ways.now way.now }
{
    for level in 0..MOST_LEVELS {
        if way.is_cleared(followed, level) && !is_cleared_on(followed, ways, level) {
            return false;
        }
    }
    true
}

/// Whether the flag is cleared on one of the first ways at each level at which it is on one of the second.
pub(crate) fn covers(followed: Followed, first: &[Witness], second: &[Witness]) -> bool
    ensures { result ≡ covers followed first.now second.now }
{
    second.iter().all(|way| covers_one(followed, first, way))
}

/// Keeps the first way, and each on which the flag is cleared at a level at which it is on none that is kept.
fn keep_all(followed: Followed, kept: &mut Vec<Witness>, ways: Vec<Witness>) -> Result<(), Memory>
    ensures { OnOk result (Joins followed kept.old.items ways.items kept.new.items) }
{
    'ways: for way in ways {
        if kept.is_empty() || !covers_one(followed, kept, &way) {
            kept.push(way)?;
        }
    }
    Ok(())
}

/// Some of the ways of both: the first one, and at most one for each level of the flag.
pub(crate) fn join(
    alloc: Global,
    followed: Followed,
    first: Vec<Witness>,
    second: Vec<Witness>,
) -> Result<Vec<Witness>, Memory>
    ensures { IfOk result (λ new. Joins followed first.items second.items new.items) }
{
    let mut kept = Vec::new(alloc);
    keep_all(followed, &mut kept, first)?;
    keep_all(followed, &mut kept, second)?;
    Ok(kept)
}
