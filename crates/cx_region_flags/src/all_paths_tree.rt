//! The flags that are set on every way through a tree.

ghost use Rattle.std.specs.Prelude.{OnOk, IfOk, All};
ghost use Rattle.cx_plan.specs.Regions.{Tests};
ghost use Rattle.cx_plan.specs.Paths.{Path};
ghost use Rattle.cx_plan.specs.Whole.{IsWhole, IsTree, IsStoredScalar};
ghost use Rattle.cx_region_flags.specs.AllPaths.{Leads, Branch, Turning, PathOfTrees, PathOfWork};

use crate::all_paths_step::{Stop, exchange, test, turn};
use crate::flag_table::FlagTable;
use crate::left_by_loop::left_of_all;
use cx_plan::{Job, Tree, VarId};
use std::alloc::Global;

/// Walks a tree. The table goes from flags that are set on every way before it to those set after it.
#[cycle(tree)]
pub(crate) fn walk_tree<'a>(
    alloc: Global,
    job: &'a Job,
    table: &mut FlagTable,
    tree: &'a Tree,
) -> Result<(), Stop<'a>>
    requires { IsWhole job.now }
    ensures { IsTree job.now tree.now
        → OnOk result (Leads job.now (Path tree.now) table.old table.new) }
{
    match tree {
        Tree::Seq(trees) => walk_trees(alloc, job, table, trees.as_slice()),
        Tree::Call(item) => turn(job, table, *item),
        Tree::Sync(variables, path) => exchange(job, table, variables.as_slice(), path.as_slice()),
        Tree::If(variable, path, work) => {
            walk_if(alloc, job, table, *variable, path.as_slice(), work.get())
        }
        Tree::While(variable, path, work) => {
            walk_while(alloc, job, table, *variable, path.as_slice(), work.get())
        }
    }
}

/// Walks trees one after another.
#[cycle(tree)]
fn walk_trees<'a>(
    alloc: Global,
    job: &'a Job,
    table: &mut FlagTable,
    trees: &'a [Tree],
) -> Result<(), Stop<'a>>
    requires { IsWhole job.now }
    ensures { All (IsTree job.now) trees.now
        → OnOk result (Leads job.now (PathOfTrees trees.now) table.old table.new) }
{
    'trees: for tree in trees {
        walk_tree(alloc, job, table, tree)?;
    }
    Ok(())
}

/// The flags after a tree.
#[cycle(tree)]
fn flags_behind<'a>(
    alloc: Global,
    job: &'a Job,
    table: &FlagTable,
    tree: &'a Tree,
) -> Result<FlagTable, Stop<'a>>
    requires { IsWhole job.now }
    ensures { IsTree job.now tree.now
        → IfOk result (λ behind. Leads job.now (Path tree.now) table.now behind) }
{
    let mut behind = table.copy(alloc)?;
    walk_tree(alloc, job, &mut behind, tree)?;
    Ok(behind)
}

/// Walks the test of an `IF`, and then its work or nothing: only flags set either way stay set.
#[cycle(tree)]
fn walk_if<'a>(
    alloc: Global,
    job: &'a Job,
    table: &mut FlagTable,
    variable: VarId,
    path: &'a [u8],
    work: &'a Tree,
) -> Result<(), Stop<'a>>
    requires { IsWhole job.now }
    ensures { let Way = Branch (Tests variable path.now) (PathOfWork work.now) in
        IsStoredScalar job.now variable
        → IsTree job.now work.now
        → OnOk result (Leads job.now Way table.old table.new) }
{
    test(job, table, variable, path)?;
    let behind = flags_behind(alloc, job, table, work)?;
    table.meet(&behind);
    Ok(())
}

/// Walks passes until no flag falls. The flags that a pass leaves cleared fall at once, so the first pass is
/// the last one, also in nested WHILEs.
#[cycle(tree)]
fn walk_while<'a>(
    alloc: Global,
    job: &'a Job,
    table: &mut FlagTable,
    variable: VarId,
    path: &'a [u8],
    work: &'a Tree,
) -> Result<(), Stop<'a>>
    requires { IsWhole job.now }
    ensures { let Way = Turning (Tests variable path.now) (PathOfWork work.now) in
        IsStoredScalar job.now variable
        → IsTree job.now work.now
        → OnOk result (Leads job.now Way table.old table.new) }
{
    let left = left_of_all(alloc, job, table, work)?;
    table.meet(&left);
    'turns: loop {
        test(job, table, variable, path)?;
        let behind = flags_behind(alloc, job, table, work)?;
        if table.is_below(&behind) {
            return Ok(());
        }
        table.meet(&behind);
    }
}
