//! Ways along a tree, while one flag is followed.

ghost use Rattle.std.specs.Prelude.{◌≡◌, ◌≤◌, length, map, IfOk, All};
ghost use Rattle.cx_plan.specs.Paths.{Path};
ghost use Rattle.cx_plan.specs.Whole.{IsWhole, IsTree};
ghost use Rattle.cx_region_flags.specs.Agreeing.{IsAct};
ghost use Rattle.cx_region_flags.specs.AllPaths.{Branch, Turning, PathOfTrees};
ghost use Rattle.cx_region.specs.Witnesses.{act_of, with_letter, AllTake, Joins};
ghost use Rattle.cx_region.specs.OneFlag.{Behind, GoesBy, GoesOnBy};
ghost use Rattle.cx_region.specs.declared.one_flag_tree.Rounds.TheVariants as kinds;

use crate::witness::{Followed, Step, Witness, WitnessStop};
use crate::witnesses::{copies, covers, join, take_all, with_letter};
use cx_plan::{Job, Tree};
use cx_text::Memory;
use std::alloc::Global;

/// How often a WHILE turns.
#[derive(Clone, Copy)]
pub(crate) enum Rounds {
    /// Once at most, to find in one pass what it may clear.
    Once,
    /// Until the ways behind a turn show nothing new of the flag.
    Settled,
}

/// What is followed, and how far.
#[derive(Clone, Copy)]
pub(crate) struct Search {
    pub(crate) followed: Followed,
    pub(crate) rounds: Rounds,
}

/// The letter of ways that leave a WHILE.
const LEAVES: u8 = b'x';

/// Copies of ways, with one more letter.
pub(crate) fn copies_with_letter(
    alloc: Global,
    ways: &[Witness],
    letter: u8,
) -> Result<Vec<Witness>, Memory>
    ensures { IfOk result (λ new. new.items ≡ map (with_letter letter) ways.now) }
{
    with_letter(copies(alloc, ways)?, letter)
}

/// Ways behind a test, once more.
fn tested<'a>(
    alloc: Global,
    job: &'a Job,
    ways: &[Witness],
    test: Step<'a>,
) -> Result<Vec<Witness>, WitnessStop<'a>>
    requires whole { IsWhole job.now }
    requires some { 1 ≤ length ways.now }
    ensures goes { AllTake job.now (act_of test.entry) ways.now result }
    ensures some { IfOk result (λ new. 1 ≤ length new.items) }
{
    let copied = copies(alloc, ways)?;
    take_all(alloc, job, copied, test)
}

/// Ways that leave a WHILE, without a turn and behind one.
fn left(
    alloc: Global,
    followed: Followed,
    tested: Vec<Witness>,
    again: Vec<Witness>,
) -> Result<Vec<Witness>, Memory>
    requires { 1 ≤ length tested.items }
    ensures left { let leave = map (with_letter LEAVES) in
        IfOk result (λ new. Joins followed (leave tested.items) (leave again.items) new.items) }
    ensures some { IfOk result (λ new. 1 ≤ length new.items) }
{
    let left = with_letter(tested, LEAVES)?;
    let behind = with_letter(again, LEAVES)?;
    join(alloc, followed, left, behind)
}

/// Follows a flag through a tree: the ways go on to its end, or one of them meets a need that isn't met.
#[cycle(tree)]
pub(crate) fn follow_tree<'a>(
    alloc: Global,
    job: &'a Job,
    search: Search,
    ways: Vec<Witness>,
    tree: &'a Tree,
) -> Result<Vec<Witness>, WitnessStop<'a>>
    requires whole { IsWhole job.now }
    requires some { 1 ≤ length ways.items }
    ensures goes { IsTree job.now tree.now
        → GoesOnBy job.now search (Path tree.now) ways.items result }
    ensures some { IfOk result (λ new. 1 ≤ length new.items) }
{
    match tree {
        Tree::Seq(trees) => follow_trees(alloc, job, search, ways, trees.as_slice()),
        Tree::Call(item) => take_all(alloc, job, ways, Step::Turn(*item)),
        Tree::Sync(variables, path) => {
            let step = Step::Exchange(variables.as_slice(), path.as_slice());
            take_all(alloc, job, ways, step)
        }
        Tree::If(variable, path, work) => {
            let test = Step::Test(*variable, path.as_slice());
            follow_if(alloc, job, search, ways, test, work.get())
        }
        Tree::While(variable, path, work) => {
            let test = Step::Test(*variable, path.as_slice());
            follow_while(alloc, job, search, ways, test, work.get())
        }
    }
}

/// Follows ways through trees, one after another.
#[cycle(tree)]
fn follow_trees<'a>(
    alloc: Global,
    job: &'a Job,
    search: Search,
    ways: Vec<Witness>,
    trees: &'a [Tree],
) -> Result<Vec<Witness>, WitnessStop<'a>>
    requires whole { IsWhole job.now }
    requires some { 1 ≤ length ways.items }
    ensures goes { All (IsTree job.now) trees.now
        → GoesOnBy job.now search (PathOfTrees trees.now) ways.items result }
    ensures some { IfOk result (λ new. 1 ≤ length new.items) }
{
    let mut now = ways;
    'trees: for tree in trees {
        now = follow_tree(alloc, job, search, now, tree)?;
    }
    Ok(now)
}

/// Copies of ways, behind this letter and the work.
#[cycle(tree)]
fn follow_work<'a>(
    alloc: Global,
    job: &'a Job,
    search: Search,
    ways: &[Witness],
    letter: u8,
    work: &'a Tree,
) -> Result<Vec<Witness>, WitnessStop<'a>>
    requires whole { IsWhole job.now }
    requires some { 1 ≤ length ways.now }
    ensures goes { IsTree job.now work.now
        → GoesOnBy job.now search (Behind letter (Path work.now)) ways.now result }
    ensures some { IfOk result (λ new. 1 ≤ length new.items) }
{
    let inside = copies_with_letter(alloc, ways, letter)?;
    follow_tree(alloc, job, search, inside, work)
}

/// Follows ways through an `IF`: those that take its work, and those that pass it by.
#[cycle(tree)]
fn follow_if<'a>(
    alloc: Global,
    job: &'a Job,
    search: Search,
    ways: Vec<Witness>,
    test: Step<'a>,
    work: &'a Tree,
) -> Result<Vec<Witness>, WitnessStop<'a>>
    requires whole { IsWhole job.now }
    requires some { 1 ≤ length ways.items }
    ensures goes { IsAct job.now (act_of test.entry)
        → IsTree job.now work.now
        → GoesOnBy job.now search (Branch (act_of test.entry) (Path work.now)) ways.items result }
    ensures some { IfOk result (λ new. 1 ≤ length new.items) }
{
    let tested = take_all(alloc, job, ways, test)?;
    let taken = follow_work(alloc, job, search, tested.as_slice(), b'y', work)?;
    let passed = with_letter(tested, b'n')?;
    Ok(join(alloc, search.followed, passed, taken)?)
}

/// Turns once at most, or until the ways behind a turn show nothing new of the flag.
#[cycle(tree)]
fn follow_while<'a>(
    alloc: Global,
    job: &'a Job,
    search: Search,
    ways: Vec<Witness>,
    test: Step<'a>,
    work: &'a Tree,
) -> Result<Vec<Witness>, WitnessStop<'a>>
    requires whole { IsWhole job.now }
    requires some { 1 ≤ length ways.items }
    ensures goes { IsAct job.now (act_of test.entry)
        → IsTree job.now work.now
        → GoesOnBy job.now search (Turning (act_of test.entry) (Path work.now)) ways.items result }
    ensures some { IfOk result (λ new. 1 ≤ length new.items) }
{
    match search.rounds {
        Rounds::Once => turn_once(alloc, job, search.followed, ways, test, work),
        Rounds::Settled => turn_until_settled(alloc, job, search.followed, ways, test, work),
    }
}

/// Follows ways through a `WHILE` that has no pass or one.
#[cycle(tree)]
fn turn_once<'a>(
    alloc: Global,
    job: &'a Job,
    followed: Followed,
    ways: Vec<Witness>,
    test: Step<'a>,
    work: &'a Tree,
) -> Result<Vec<Witness>, WitnessStop<'a>>
    requires whole { IsWhole job.now }
    requires some { 1 ≤ length ways.items }
    ensures goes { IsAct job.now (act_of test.entry)
        → IsTree job.now work.now
        → GoesBy job.now kinds.Once followed
        (Turning (act_of test.entry) (Path work.now)) ways.items result }
    ensures some { IfOk result (λ new. 1 ≤ length new.items) }
{
    let tested = take_all(alloc, job, ways, test)?;
    let turned = follow_work(
        alloc,
        job,
        Search {
            followed,
            rounds: Rounds::Once,
        },
        tested.as_slice(),
        b'w',
        work,
    )?;
    let again = take_all(alloc, job, turned, test)?;
    Ok(left(alloc, followed, tested, again)?)
}

/// Before the first turn, one pass finds what the work may clear; so the ways mostly settle in the first turn.
#[cycle(tree)]
fn turn_until_settled<'a>(
    alloc: Global,
    job: &'a Job,
    followed: Followed,
    ways: Vec<Witness>,
    test: Step<'a>,
    work: &'a Tree,
) -> Result<Vec<Witness>, WitnessStop<'a>>
    requires whole { IsWhole job.now }
    requires some { 1 ≤ length ways.items }
    ensures goes { IsAct job.now (act_of test.entry)
        → IsTree job.now work.now
        → GoesBy job.now kinds.Settled followed
        (Turning (act_of test.entry) (Path work.now)) ways.items result }
    ensures some { IfOk result (λ new. 1 ≤ length new.items) }
{
    let first = tested(alloc, job, ways.as_slice(), test)?;
    let once = follow_work(
        alloc,
        job,
        Search {
            followed,
            rounds: Rounds::Once,
        },
        first.as_slice(),
        b'w',
        work,
    )?;
    let mut head = join(alloc, followed, ways, once)?;
    'turns: loop {
        let tested = tested(alloc, job, head.as_slice(), test)?;
        let turned = follow_work(
            alloc,
            job,
            Search {
                followed,
                rounds: Rounds::Settled,
            },
            tested.as_slice(),
            b'w',
            work,
        )?;
        if covers(followed, head.as_slice(), turned.as_slice()) {
            return Ok(with_letter(tested, LEAVES)?);
        }
        head = join(alloc, followed, head, turned)?;
    }
}
