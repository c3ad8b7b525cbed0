//! What counts of a thorn's schedule file.

ghost use Rattle.std.specs.Prelude.{◌≡◌, ◌⊎◌, IfOk};
ghost use Rattle.cx_order.specs.declared.fault.OrderFault.TheVariants as faults;
ghost use Rattle.cx_order_entries.specs.Counted.{counted_of};
ghost use Rattle.cx_order.specs.Blocks.{by_thorn, AddsOr};

use crate::copies::copy_fault;
use crate::fault::OrderFault;
use cx_expr::{ExprFault, Lookup};
use cx_order_entries::{Counted, Uncounted, push_nodes};
use cx_sched::ScheduleFile;
use cx_text::{Memory, Text};
use std::alloc::Global;

/// The fault of a thorn's `if`.
fn fault_of(alloc: Global, thorn: &Text, fault: &ExprFault) -> Result<OrderFault, Memory>
    ensures { IfOk result (λ e. e ≡ faults.Expr thorn.now fault.now) }
{
    let thorn = thorn.copy(alloc)?;
    let fault = copy_fault(alloc, fault)?;
    Ok(OrderFault::Expr(thorn, fault))
}

/// The fault of a thorn's `if`, or want of memory.
fn expr_fault(alloc: Global, thorn: &Text, fault: &ExprFault) -> OrderFault
    ensures { (result ≡ faults.Memory) ⊎ (result ≡ faults.Expr thorn.now fault.now) }
{
    match fault_of(alloc, thorn, fault) {
        Ok(fault) => fault,
        Err(_) => OrderFault::Memory,
    }
}

/// Adds what counts of the file of a thorn by its number and name, in whose expressions names have these values.
pub(crate) fn push_file<'a, L: Lookup>(
    counted: &mut Counted<'a>,
    alloc: Global,
    number: u32,
    thorn: &Text,
    names: &L,
    file: &'a ScheduleFile,
) -> Result<(), OrderFault>
    ensures { let counts = counted_of number (L.finds names.now) file.now.items in
        let told = by_thorn thorn.now counts in
        AddsOr told counted.old counted.new result }
{
    match push_nodes(counted, number, names, file.items.as_slice()) {
        Ok(()) => Ok(()),
        Err(Uncounted::Expr(fault)) => Err(expr_fault(alloc, thorn, fault)),
        Err(Uncounted::Memory) => Err(OrderFault::Memory),
    }
}
