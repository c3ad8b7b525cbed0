//! From trees to operations.

ghost use Rattle.std.specs.Prelude.{◌≡◌, ◌++◌, ◌<◌, ◌^◌, ◌∷◌, [], length, IfOk, OnOk};
ghost use Rattle.cx_plan.specs.Lookups.{item};
ghost use Rattle.cx_plan.specs.Setups.{setup_of};
ghost use Rattle.cx_flat.specs.Code.{item_code, sync_code, if_code, while_code, tree_code, trees_code};

use crate::Op;
use crate::operations::count_behind;
use cx_plan::{ItemKind, Job, Tree, VarId};
use cx_text::{List, Memory, Text};
use std::alloc::Global;

/// The kind of an item.
fn kind_of(job: &Job, k: u32) -> ItemKind
    ensures { result ≡ (item (setup_of job.now) k).kind }
{
    match job.items.as_slice().get(k as usize) {
        Some(item) => item.kind,
        None => ItemKind::Cell,
    }
}

/// Adds the two operations of a reduction: parts give their results, and the results are joined.
fn push_reduction(ops: &mut Vec<Op>, k: u32) -> Result<(), Memory>
    ensures { OnOk result (ops.new.items ≡ ops.old.items ++ Op.Give k ∷ Op.Join k ∷ []) }
{
    ops.push(Op::Give(k))?;
    ops.push(Op::Join(k))?;
    Ok(())
}

/// Adds the operations of an item, by its kind.
fn push_item(ops: &mut Vec<Op>, kind: ItemKind, k: u32) -> Result<(), Memory>
    ensures { OnOk result (ops.new.items ≡ ops.old.items ++ item_code kind k) }
{
    match kind {
        ItemKind::Cell => Ok(ops.push(Op::Sweep(k))?),
        ItemKind::Scalar => Ok(ops.push(Op::Apply(k))?),
        ItemKind::Sum => push_reduction(ops, k),
        ItemKind::Least => push_reduction(ops, k),
        ItemKind::Greatest => push_reduction(ops, k),
        ItemKind::Count => push_reduction(ops, k),
    }
}

/// A copy of variables in their order.
fn copy_variables(alloc: Global, variables: &List<VarId>) -> Result<List<VarId>, Memory>
    ensures { IfOk result (λ copy. copy ≡ variables.now) }
{
    Ok(List::new(variables.as_slice().to_vec(alloc)?))
}

/// One direction of a SYNC.
fn push_direction(
    alloc: Global,
    ops: &mut Vec<Op>,
    direction: u8,
    variables: &List<VarId>,
    path: &Text,
) -> Result<(), Memory>
    ensures { OnOk result (ops.new.items
        ≡ ops.old.items ++ sync_code variables.now path.now direction 1) }
{
    ops.push(Op::Post(direction, copy_variables(alloc, variables)?))?;
    ops.push(Op::Take(
        direction,
        copy_variables(alloc, variables)?,
        path.copy(alloc)?,
    ))?;
    Ok(())
}

/// Adds the exchanges of variables, direction by direction.
fn push_sync(
    alloc: Global,
    ops: &mut Vec<Op>,
    directions: u8,
    variables: &List<VarId>,
    path: &Text,
) -> Result<(), Memory>
    ensures { OnOk result (ops.new.items
        ≡ ops.old.items ++ sync_code variables.now path.now 0 directions) }
{
    'directions: for direction in 0..directions {
        push_direction(alloc, ops, direction, variables, path)?;
    }
    Ok(())
}

/// Adds the operations of a tree that has fewer than 2^31 of them.
#[cycle(tree)]
pub(crate) fn push_tree(
    alloc: Global,
    job: &Job,
    ops: &mut Vec<Op>,
    tree: &Tree,
) -> Result<(), Memory>
    ensures { let these = tree_code (setup_of job.now) tree.now in
        length these < 2 ^ 31 → OnOk result (ops.new.items ≡ ops.old.items ++ these) }
{
    match tree {
        Tree::Seq(trees) => push_trees(alloc, job, ops, trees.as_slice()),
        Tree::Call(k) => push_item(ops, kind_of(job, *k), *k),
        Tree::Sync(variables, path) => push_sync(alloc, ops, job.shape.dims, variables, path),
        Tree::If(variable, path, work) => push_if(alloc, job, ops, *variable, path, work.get()),
        Tree::While(variable, path, work) => {
            push_while(alloc, job, ops, *variable, path, work.get())
        }
    }
}

/// Adds the operations of trees, one after another.
#[cycle(tree)]
fn push_trees(alloc: Global, job: &Job, ops: &mut Vec<Op>, trees: &[Tree]) -> Result<(), Memory>
    ensures { let these = trees_code (setup_of job.now) trees.now in
        length these < 2 ^ 31 → OnOk result (ops.new.items ≡ ops.old.items ++ these) }
{
    'trees: for tree in trees {
        push_tree(alloc, job, ops, tree)?;
    }
    Ok(())
}

/// The operations of one tree.
#[cycle(tree)]
fn operations_of(alloc: Global, job: &Job, tree: &Tree) -> Result<Vec<Op>, Memory>
    ensures { let these = tree_code (setup_of job.now) tree.now in
        length these < 2 ^ 31 → IfOk result (λ ops. ops.items ≡ these) }
{
    let mut ops = Vec::new(alloc);
    push_tree(alloc, job, &mut ops, tree)?;
    Ok(ops)
}

/// What is done where a scalar isn't 0.
#[cycle(tree)]
fn push_if(
    alloc: Global,
    job: &Job,
    ops: &mut Vec<Op>,
    variable: VarId,
    path: &Text,
    work: &Tree,
) -> Result<(), Memory>
    ensures { let these = tree_code (setup_of job.now) work.now in
        length these < 2 ^ 31
        → OnOk result (ops.new.items ≡ ops.old.items ++ if_code variable path.now these) }
{
    let body = operations_of(alloc, job, work)?;
    push_guarded(alloc, ops, variable, path, body)
}

/// Adds operations that an `IF` skips where its scalar is 0.
fn push_guarded(
    alloc: Global,
    ops: &mut Vec<Op>,
    variable: VarId,
    path: &Text,
    mut body: Vec<Op>,
) -> Result<(), Memory>
    ensures { length body.items < 2 ^ 31
        → OnOk result (ops.new.items ≡ ops.old.items ++ if_code variable path.now body.items) }
{
    ops.push(Op::Test(variable, path.copy(alloc)?, count_behind(&body)))?;
    ops.append(&mut body)?;
    Ok(())
}

/// What is done again and again, as long as a scalar isn't 0.
#[cycle(tree)]
fn push_while(
    alloc: Global,
    job: &Job,
    ops: &mut Vec<Op>,
    variable: VarId,
    path: &Text,
    work: &Tree,
) -> Result<(), Memory>
    ensures { let these = tree_code (setup_of job.now) work.now in
        length these < 2 ^ 31
        → OnOk result (ops.new.items ≡ ops.old.items ++ while_code variable path.now these) }
{
    let body = operations_of(alloc, job, work)?;
    push_repeated(alloc, ops, variable, path, body)
}

/// Adds operations that a `WHILE` repeats until its scalar is 0.
fn push_repeated(
    alloc: Global,
    ops: &mut Vec<Op>,
    variable: VarId,
    path: &Text,
    mut body: Vec<Op>,
) -> Result<(), Memory>
    ensures { length body.items < 2 ^ 31
        → OnOk result (ops.new.items
        ≡ ops.old.items ++ while_code variable path.now body.items) }
{
    let back = count_behind(&body);
    ops.push(Op::Open)?;
    ops.push(Op::Turn(variable, path.copy(alloc)?, back.saturating_add(1)))?;
    ops.append(&mut body)?;
    ops.push(Op::Again(back))?;
    Ok(())
}
