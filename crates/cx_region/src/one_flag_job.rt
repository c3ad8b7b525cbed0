//! Ways through a job, while one flag is followed.

ghost use Rattle.std.specs.Prelude.{◌≡◌, ◌≤◌, ◌∷◌, [], length, map, IfOk};
ghost use Rattle.cx_plan.specs.Setups.{setup_of};
ghost use Rattle.cx_plan.specs.Bins.{bin_number};
ghost use Rattle.cx_plan.specs.Lookups.{is_empty};
ghost use Rattle.cx_plan.specs.Paths.{Meets, letter_i, Just, PathOfBins, PathOfAnalysis, PathOfCheckpoint, PathOfStart, PathOfIteration, PathOfJob};
ghost use Rattle.cx_plan.specs.Regions.{Rotates};
ghost use Rattle.cx_plan.specs.Whole.{IsWhole};
ghost use Rattle.cx_region_flags.specs.AllPaths.{tree_in, PathOfBin, PathOfOutput, PathOfAllIterations};
ghost use Rattle.cx_region.specs.Witnesses.{start_of, Goes};
ghost use Rattle.cx_region.specs.OneFlag.{Behind, Follows};

use crate::one_flag_tree::{Rounds, Search, copies_with_letter, follow_tree};
use crate::witness::{Followed, Step, Witness, WitnessStop};
use crate::witnesses::{covers, join, take_all, with_letter};
use cx_plan::{Bin, Job, Tree};
use cx_region_flags::tree_of;
use cx_text::Memory;
use std::alloc::Global;

/// Follows ways through one bin, if the job has items in it.
fn follow_bin<'a>(
    alloc: Global,
    job: &'a Job,
    followed: Followed,
    ways: Vec<Witness>,
    bin: Bin,
) -> Result<Vec<Witness>, WitnessStop<'a>>
    requires whole { IsWhole job.now }
    requires some { 1 ≤ length ways.items }
    ensures goes { Goes job.now followed (PathOfBin job.now (bin_number bin)) ways.items result }
    ensures some { IfOk result (λ new. 1 ≤ length new.items) }
{
    match tree_of(job, bin) {
        Some(tree) => follow_tree(
            alloc,
            job,
            Search {
                followed,
                rounds: Rounds::Settled,
            },
            ways,
            tree,
        ),
        None => Ok(ways),
    }
}

/// Follows ways through these bins, one after another.
fn follow_bins<'a>(
    alloc: Global,
    job: &'a Job,
    followed: Followed,
    ways: Vec<Witness>,
    bins: &[Bin],
) -> Result<Vec<Witness>, WitnessStop<'a>>
    requires whole { IsWhole job.now }
    requires some { 1 ≤ length ways.items }
    ensures goes { let Way = PathOfBins (setup_of job.now) (map bin_number bins.now) in
        Goes job.now followed Way ways.items result }
    ensures some { IfOk result (λ new. 1 ≤ length new.items) }
{
    let mut now = ways;
    'bins: for bin in bins {
        now = follow_bin(alloc, job, followed, now, *bin)?;
    }
    Ok(now)
}

/// Output, where there is any.
fn output_if_any<'a>(
    alloc: Global,
    job: &'a Job,
    ways: Vec<Witness>,
) -> Result<Vec<Witness>, WitnessStop<'a>>
    requires whole { IsWhole job.now }
    requires some { 1 ≤ length ways.items }
    ensures goes { (x : Followed) → Goes job.now x (PathOfOutput job.now) ways.items result }
    ensures some { IfOk result (λ new. 1 ≤ length new.items) }
{
    if job.out_every > 0 {
        return take_all(alloc, job, ways, Step::Output);
    }
    Ok(ways)
}

/// Follows ways through the ANALYSIS bin, and then through the output.
fn follow_analysis<'a>(
    alloc: Global,
    job: &'a Job,
    followed: Followed,
    ways: Vec<Witness>,
) -> Result<Vec<Witness>, WitnessStop<'a>>
    requires whole { IsWhole job.now }
    requires some { 1 ≤ length ways.items }
    ensures goes { Goes job.now followed (PathOfAnalysis (setup_of job.now)) ways.items result }
    ensures some { IfOk result (λ new. 1 ≤ length new.items) }
{
    let behind = follow_bin(alloc, job, followed, ways, Bin::Analysis)?;
    output_if_any(alloc, job, behind)
}

/// Whether nothing is in a bin.
fn is_empty(job: &Job, bin: Bin) -> bool
    ensures { result ≡ is_empty (tree_in job.now (bin_number bin)) }
{
    match tree_of(job, bin) {
        Some(Tree::Seq(trees)) => trees.is_empty(),
        Some(_) => false,
        None => true,
    }
}

/// Copies of ways, behind this letter and a bin.
fn follow_taken<'a>(
    alloc: Global,
    job: &'a Job,
    followed: Followed,
    ways: &[Witness],
    letter: u8,
    bin: Bin,
) -> Result<Vec<Witness>, WitnessStop<'a>>
    requires whole { IsWhole job.now }
    requires some { 1 ≤ length ways.now }
    ensures goes { Goes job.now followed
        (Behind letter (PathOfBin job.now (bin_number bin))) ways.now result }
    ensures some { IfOk result (λ new. 1 ≤ length new.items) }
{
    let taken = copies_with_letter(alloc, ways, letter)?;
    follow_bin(alloc, job, followed, taken, bin)
}

/// The CHECKPOINT bin either way, unless it is empty.
fn follow_checkpoint<'a>(
    alloc: Global,
    job: &'a Job,
    followed: Followed,
    ways: Vec<Witness>,
) -> Result<Vec<Witness>, WitnessStop<'a>>
    requires whole { IsWhole job.now }
    requires some { 1 ≤ length ways.items }
    ensures goes { Goes job.now followed (PathOfCheckpoint (setup_of job.now)) ways.items result }
    ensures some { IfOk result (λ new. 1 ≤ length new.items) }
{
    if is_empty(job, Bin::Checkpoint) {
        return Ok(ways);
    }
    let taken = follow_taken(alloc, job, followed, ways.as_slice(), b'y', Bin::Checkpoint)?;
    let passed = with_letter(ways, b'n')?;
    Ok(join(alloc, followed, passed, taken)?)
}

/// Follows ways through iteration 0.
fn follow_start<'a>(
    alloc: Global,
    job: &'a Job,
    followed: Followed,
    ways: Vec<Witness>,
) -> Result<Vec<Witness>, WitnessStop<'a>>
    requires whole { IsWhole job.now }
    requires some { 1 ≤ length ways.items }
    ensures goes { Goes job.now followed (PathOfStart (setup_of job.now)) ways.items result }
    ensures some { IfOk result (λ new. 1 ≤ length new.items) }
{
    let behind = follow_bins(alloc, job, followed, ways, Bin::START)?;
    follow_analysis(alloc, job, followed, behind)
}

/// Copies of ways, where an iteration begins.
fn begun<'a>(alloc: Global, job: &'a Job, ways: &[Witness]) -> Result<Vec<Witness>, WitnessStop<'a>>
    requires whole { IsWhole job.now }
    requires some { 1 ≤ length ways.now }
    ensures goes { (x : Followed)
        → Goes job.now x (Just (letter_i ∷ Meets Rotates ∷ [])) ways.now result }
    ensures some { IfOk result (λ new. 1 ≤ length new.items) }
{
    let inside = copies_with_letter(alloc, ways, b'i')?;
    take_all(alloc, job, inside, Step::Rotate)
}

/// Follows ways through one later iteration, from its rotation to its output.
fn follow_iteration<'a>(
    alloc: Global,
    job: &'a Job,
    followed: Followed,
    ways: &[Witness],
) -> Result<Vec<Witness>, WitnessStop<'a>>
    requires whole { IsWhole job.now }
    requires some { 1 ≤ length ways.now }
    ensures goes { Goes job.now followed (PathOfIteration (setup_of job.now)) ways.now result }
    ensures some { IfOk result (λ new. 1 ≤ length new.items) }
{
    let begun = begun(alloc, job, ways)?;
    let stepped = follow_bins(alloc, job, followed, begun, Bin::STEP)?;
    let behind = follow_checkpoint(alloc, job, followed, stepped)?;
    follow_analysis(alloc, job, followed, behind)
}

/// Iterations until the ways behind one show nothing new of the flag.
fn follow_iterations<'a>(
    alloc: Global,
    job: &'a Job,
    followed: Followed,
    ways: Vec<Witness>,
) -> Result<Vec<Witness>, WitnessStop<'a>>
    requires whole { IsWhole job.now }
    requires some { 1 ≤ length ways.items }
    ensures goes { Goes job.now followed
        (PathOfAllIterations (setup_of job.now)) ways.items result }
    ensures some { IfOk result (λ new. 1 ≤ length new.items) }
{
    let mut head = ways;
    'iterations: loop {
        let turned = follow_iteration(alloc, job, followed, head.as_slice())?;
        if covers(followed, head.as_slice(), turned.as_slice()) {
            return Ok(head);
        }
        head = join(alloc, followed, head, turned)?;
    }
}

/// Follows ways through the whole job: its start, its iterations and its end.
fn follow_all<'a>(
    alloc: Global,
    job: &'a Job,
    followed: Followed,
    ways: Vec<Witness>,
) -> Result<Vec<Witness>, WitnessStop<'a>>
    requires whole { IsWhole job.now }
    requires some { 1 ≤ length ways.items }
    ensures { Goes job.now followed (PathOfJob (setup_of job.now)) ways.items result }
{
    let started = follow_start(alloc, job, followed, ways)?;
    let behind = follow_iterations(alloc, job, followed, started)?;
    follow_bins(alloc, job, followed, behind, Bin::END)
}

/// The way that all ways begin with.
fn first_ways(alloc: Global, job: &Job) -> Result<Vec<Witness>, Memory>
    requires { length job.now.vars ≤ 256 }
    ensures { IfOk result (λ ways. ways.items ≡ start_of job.now ∷ []) }
{
    let mut ways = Vec::new(alloc);
    ways.push(Witness::start(alloc, job)?)?;
    Ok(ways)
}

/// Follows a flag along all ways through a job, up to a need of it or another one that isn't met on one of them.
pub(crate) fn follow_job<'a>(
    alloc: Global,
    job: &'a Job,
    followed: Followed,
) -> Result<(), WitnessStop<'a>>
    requires { IsWhole job.now }
    ensures { Follows (setup_of job.now) followed result }
{
    let first = first_ways(alloc, job)?;
    follow_all(alloc, job, followed, first)?;
    Ok(())
}
