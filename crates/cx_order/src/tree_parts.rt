//! Trees of entries.

ghost use Rattle.std.specs.Prelude.{◌≡◌, ◌++◌, IfOk, OnOk};
ghost use Rattle.cx_plan.specs.declared.tree.Tree as trees;
ghost use Rattle.cx_order.specs.Plans.{sync_tree, call_tree, with_while, with_if, wrapped, group_tree};

use crate::meaning::Meaning;
use cx_plan::{Tree, VarId};
use cx_text::{Boxed, List, Memory, Text};
use std::alloc::Global;

/// A copy of variables in their order.
fn copy_variables(alloc: Global, variables: &List<VarId>) -> Result<List<VarId>, Memory>
    ensures { IfOk result (λ copy. copy ≡ variables.now) }
{
    let copy = Vec::from_slice(alloc, variables.as_slice())?;
    Ok(List::new(copy))
}

/// Adds a SYNC, unless it has no variable.
fn push_sync(
    trees: &mut Vec<Tree>,
    alloc: Global,
    path: &Text,
    sync: &List<VarId>,
) -> Result<(), Memory>
    ensures { OnOk result (trees.new.items ≡ trees.old.items ++ sync_tree path.now sync.now) }
{
    if sync.is_empty() {
        return Ok(());
    }
    let variables = copy_variables(alloc, sync)?;
    let path = path.copy(alloc)?;
    trees.push(Tree::Sync(variables, path))?;
    Ok(())
}

/// A group: its contents, and its SYNC behind them.
pub(crate) fn group_tree(
    alloc: Global,
    path: &Text,
    sync: &List<VarId>,
    mut contents: Vec<Tree>,
) -> Result<Tree, Memory>
    ensures { IfOk result (λ tree. tree ≡ group_tree path.now sync.now contents.items) }
{
    push_sync(&mut contents, alloc, path, sync)?;
    Ok(Tree::Seq(List::new(contents)))
}

/// A call, and its SYNC behind it.
pub(crate) fn call_tree(
    alloc: Global,
    path: &Text,
    sync: &List<VarId>,
    number: u32,
) -> Result<Tree, Memory>
    ensures { IfOk result (λ tree. tree ≡ call_tree path.now sync.now number) }
{
    if sync.is_empty() {
        return Ok(Tree::Call(number));
    }
    let mut parts = Vec::new(alloc);
    parts.push(Tree::Call(number))?;
    push_sync(&mut parts, alloc, path, sync)?;
    Ok(Tree::Seq(List::new(parts)))
}

/// The work in a `WHILE` loop over the scalar; without a scalar the work alone.
fn with_while(alloc: Global, path: &Text, turn: Option<VarId>, work: Tree) -> Result<Tree, Memory>
    ensures { IfOk result (λ tree. tree ≡ with_while path.now turn work) }
{
    match turn {
        Some(variable) => {
            let path = path.copy(alloc)?;
            let work = Boxed::new(alloc, work)?;
            Ok(Tree::While(variable, path, work))
        }
        None => Ok(work),
    }
}

/// The work in an `IF` on the scalar; without a scalar the work alone.
fn with_if(alloc: Global, path: &Text, test: Option<VarId>, work: Tree) -> Result<Tree, Memory>
    ensures { IfOk result (λ tree. tree ≡ with_if path.now test work) }
{
    match test {
        Some(variable) => {
            let path = path.copy(alloc)?;
            let work = Boxed::new(alloc, work)?;
            Ok(Tree::If(variable, path, work))
        }
        None => Ok(work),
    }
}

/// WHILE around an entry's work, and IF outside.
pub(crate) fn wrapped_tree(
    alloc: Global,
    meaning: &Meaning,
    path: &Text,
    work: Tree,
) -> Result<Tree, Memory>
    ensures { IfOk result (λ tree. tree ≡ wrapped meaning.now path.now work) }
{
    let turned = with_while(alloc, path, meaning.turn, work)?;
    with_if(alloc, path, meaning.test, turned)
}
