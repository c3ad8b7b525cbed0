//! The items that are run.

ghost use Rattle.std.specs.Prelude.{◌≡◌, ◌∷◌, [], length, IfOk};
ghost use Rattle.std.specs.List.{flat_map};
ghost use Rattle.cx_plan.specs.Setups.{setup_of};
ghost use Rattle.cx_plan.specs.Lookups.{bin, called};
ghost use Rattle.cx_plan.specs.Regions.{run_items};
ghost use Rattle.cx_region.specs.Marks.{Marks, AreRunItems};

use cx_plan::{Bin, Job, Tree};
use cx_text::Memory;
use std::alloc::Global;

/// Marks one item; nothing happens beyond the end of the marks.
fn mark(marks: &mut [bool], item: u32)
    ensures { Marks (item ∷ []) marks.old marks.new }
{
    let item = item as usize;
    if item < marks.len() {
        marks[item] = true;
    }
}

/// Marks the items that a tree calls.
#[cycle(tree)]
fn mark_tree(marks: &mut [bool], tree: &Tree)
    ensures { Marks (called tree.now) marks.old marks.new }
{
    match tree {
        Tree::Seq(trees) => mark_trees(marks, trees.as_slice()),
        Tree::Call(item) => mark(marks, *item),
        Tree::Sync(_, _) => {}
        Tree::If(_, _, work) => mark_tree(marks, work.get()),
        Tree::While(_, _, work) => mark_tree(marks, work.get()),
    }
}

/// Marks the items that trees call.
#[cycle(tree)]
fn mark_trees(marks: &mut [bool], trees: &[Tree])
    ensures { Marks (flat_map called trees.now) marks.old marks.new }
{
    'trees: for tree in trees {
        mark_tree(marks, tree);
    }
}

/// Marks the items that one bin calls.
fn mark_bin(marks: &mut [bool], job: &Job, number: usize)
    ensures { Marks (called (bin (setup_of job.now) number)) marks.old marks.new }
{
    if let Some(tree) = job.plan.bins.as_slice().get(number) {
        mark_tree(marks, tree);
    }
}

/// Marks the items that the bins of a run call.
fn mark_bins(marks: &mut [bool], job: &Job)
    ensures { Marks (run_items (setup_of job.now)) marks.old marks.new }
{
    for number in 0..Bin::RUN.len() {
        mark_bin(marks, job, number);
    }
}

/// Per item whether a bin that is run calls it.
pub(crate) fn called_items(alloc: Global, job: &Job) -> Result<Vec<bool>, Memory>
    ensures length { IfOk result (λ marks. length marks.items ≡ length job.now.items) }
    ensures marked { IfOk result (λ marks. AreRunItems job.now marks.items) }
{
    let mut marks = vec![in alloc; false; job.items.len()]?;
    mark_bins(&mut marks, job);
    Ok(marks)
}
