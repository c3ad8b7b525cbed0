//! What trees leave of flags, whatever they need.

ghost use Rattle.std.specs.Prelude.{◌≡◌, length, IfOk};

use crate::all_paths_step::write_item;
use crate::flag_table::FlagTable;
use cx_plan::{Job, Tree};
use cx_text::Memory;
use std::alloc::Global;

/// Keeps the flags that are set on each way through a tree, and sets those that it sets.
#[cycle(left)]
pub(crate) fn leave(
    alloc: Global,
    job: &Job,
    table: &mut FlagTable,
    tree: &Tree,
) -> Result<(), Memory>
    ensures { length table.new ≡ length table.old }
{
    match tree {
        Tree::Seq(trees) => leave_all(alloc, job, table, trees.as_slice())?,
        Tree::Call(item) => write_item(job, table, *item),
        Tree::Sync(variables, _) => table.exchange(variables.as_slice()),
        Tree::If(_, _, work) => leave_if_taken(alloc, job, table, work.get())?,
        Tree::While(_, _, work) => leave_if_taken(alloc, job, table, work.get())?,
    }
    Ok(())
}

/// What trees leave of the flags, one after another, whatever they need.
#[cycle(left)]
fn leave_all(alloc: Global, job: &Job, table: &mut FlagTable, trees: &[Tree]) -> Result<(), Memory>
    ensures { length table.new ≡ length table.old }
{
    'trees: for tree in trees {
        leave(alloc, job, table, tree)?;
    }
    Ok(())
}

/// What is done or not, once or several times: each step sets a flag, clears it or leaves it, and so does the whole.
#[cycle(left)]
pub(crate) fn leave_if_taken(
    alloc: Global,
    job: &Job,
    table: &mut FlagTable,
    work: &Tree,
) -> Result<(), Memory>
    ensures { length table.new ≡ length table.old }
{
    let mut behind = table.copy(alloc)?;
    leave(alloc, job, &mut behind, work)?;
    table.meet(&behind);
    Ok(())
}

/// The flags that a tree leaves where all were set.
pub(crate) fn left_of_all(
    alloc: Global,
    job: &Job,
    table: &FlagTable,
    tree: &Tree,
) -> Result<FlagTable, Memory>
    ensures { IfOk result (λ left. length left ≡ length table.now) }
{
    let mut left = table.all_set(alloc)?;
    leave(alloc, job, &mut left, tree)?;
    Ok(left)
}
