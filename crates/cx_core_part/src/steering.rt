//! Parameters by iteration.
ghost use Rattle.std.specs.Prelude.{◌≡◌, IfOk, IsTrue, Some, if◌then◌else◌, length, nat_lt, slice_set};
ghost use Rattle.cx_plan.specs.Steering.{set_by, steered};
ghost use Rattle.cx_core_part.specs.Copies.{is_steered, lesser, next_after};

use cx_plan::{Item, Steered, Touch};
use cx_text::{List, Memory};
use std::alloc::Global;
use std::mem;

/// Whether some steer is one of an item.
pub(crate) fn is_steered(steers: &[Steered], item: usize) -> bool
    ensures { result ≡ is_steered steers.now item }
{
    'steers: for steer in steers {
        if steer.item as usize == item {
            return true;
        }
    }
    false
}

/// The first iteration after this one at which a steer begins to count.
pub(crate) fn next_after(steers: &[Steered], iteration: u64) -> Option<u64>
    ensures { result ≡ next_after steers.now iteration }
{
    let mut next = None;
    'steers: for steer in steers {
        next = first_after(next, steer.at, iteration);
    }
    next
}

/// The first one after an iteration, of the one that was found and of this one.
fn first_after(next: Option<u64>, at: u64, iteration: u64) -> Option<u64>
    ensures { result ≡ (if nat_lt iteration at then Some (lesser at next) else next) }
{
    if at <= iteration {
        return next;
    }
    match next {
        None => Some(at),
        Some(other) => Some(at.min(other)),
    }
}

/// Sets a parameter of an item where a steer is one of it and counts in this iteration.
fn set_one(params: &mut [i64], steer: &Steered, item: usize, iteration: u64)
    ensures { params.new ≡ set_by item iteration steer.now params.old }
{
    if steer.item as usize == item && steer.at <= iteration {
        set_slot(params, steer.slot as usize, steer.value);
    }
}

/// Sets a number of a list, if it is there.
fn set_slot(params: &mut [i64], slot: usize, value: i64)
    ensures { params.new ≡ slice_set params.old slot value }
{
    if slot < params.len() {
        params[slot] = value;
    }
}

/// Sets the parameters of an item by all steers that count in this iteration, one after another.
fn set_all(params: &mut [i64], steers: &[Steered], item: usize, iteration: u64)
    ensures { params.new ≡ steered steers.now item iteration params.old }
{
    'steers: for steer in steers {
        set_one(params, steer, item, iteration);
    }
}

fn copy_touches(alloc: Global, touches: &List<Touch>) -> Result<List<Touch>, Memory>
    ensures { IfOk result (λ copy. copy ≡ touches.now) }
{
    Ok(List::new(touches.as_slice().to_vec(alloc)?))
}

/// An item's parameters in an iteration.
fn params_in(
    alloc: Global,
    of: &Item,
    steers: &[Steered],
    item: usize,
    iteration: u64,
) -> Result<List<i64>, Memory>
    ensures { IfOk result (λ params. params
        ≡ steered steers.now item iteration of.now.params) }
{
    let mut params = of.params.as_slice().to_vec(alloc)?;
    set_all(&mut params, steers, item, iteration);
    Ok(List::new(params))
}

/// A copy of an item, with its parameters in an iteration.
pub(crate) fn copy_in(
    alloc: Global,
    of: &Item,
    steers: &[Steered],
    item: usize,
    iteration: u64,
) -> Result<Item, Memory>
    ensures { IfOk result (λ copy. copy ≡ record of.now {
      params = steered steers.now item iteration of.now.params;
    }) }
{
    Ok(Item {
        thorn: of.thorn.copy(alloc)?,
        name: of.name.copy(alloc)?,
        path: of.path.copy(alloc)?,
        kind: of.kind,
        routine: of.routine,
        reads: copy_touches(alloc, &of.reads)?,
        writes: copy_touches(alloc, &of.writes)?,
        params: params_in(alloc, of, steers, item, iteration)?,
    })
}

/// Sets a copy of an item to the parameters of an iteration, whatever its own were.
pub(crate) fn set_copy(
    alloc: Global,
    copy: &mut Item,
    of: &Item,
    steers: &[Steered],
    item: usize,
    iteration: u64,
)
    requires same { copy.old ≡ record of.now { params = copy.old.params } }
    requires count { length copy.old.params ≡ length of.now.params }
    ensures { copy.new ≡ record of.now {
      params = steered steers.now item iteration of.now.params;
    } }
{
    let mut params = mem::replace(&mut copy.params, List::empty(alloc)).into_vec();
    params.copy_from_slice(of.params.as_slice());
    set_all(&mut params, steers, item, iteration);
    copy.params = List::new(params);
}
