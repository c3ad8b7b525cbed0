//! What is said of schedules and of names in them.

use crate::common::{says, text, texts};
use cx_expr::ExprFault;
use cx_order::OrderFault;
use cx_order_entries::{EntryFault, PlaceFault};
use cx_scope::ScopeFault;
use std::test::Fail;

#[test]
fn names_of_variables(rt: HostRuntime) -> Result<(), Fail> {
    let alloc = rt.alloc();
    let name = text(alloc, b"psi")?;
    says(&rt, ScopeFault::NotFound(name), "NotFound psi");
    let name = text(alloc, b"ca::cell")?;
    says(&rt, ScopeFault::Hidden(name), "Hidden ca::cell");
    let name = text(alloc, b"phi")?;
    says(&rt, ScopeFault::NoStorage(name), "NoStorage phi");
    let name = text(alloc, b"phi_p")?;
    says(&rt, ScopeFault::NoLevel(name), "NoLevel phi_p");
    let name = text(alloc, b"phi")?;
    says(&rt, ScopeFault::NotScalar(name), "NotScalar phi");
    let name = text(alloc, b"energy")?;
    says(&rt, ScopeFault::NotGrid(name), "NotGrid energy");
    says(&rt, ScopeFault::Memory, "Memory");
    Ok(())
}

#[test]
fn schedules(rt: HostRuntime) -> Result<(), Fail> {
    let alloc = rt.alloc();
    let first = text(alloc, b"WaveInt")?;
    let second = text(alloc, b"edge")?;
    let fault = OrderFault::Expr(first, ExprFault::UnknownName(second));
    says(&rt, fault, "WaveInt UnknownName edge");
    let first = text(alloc, b"EVOL/wave_step")?;
    let second = text(alloc, b"psi")?;
    let fault = OrderFault::Scope(first, ScopeFault::NotFound(second));
    says(&rt, fault, "EVOL/wave_step NotFound psi");
    let name = text(alloc, b"EVOLVE")?;
    says(&rt, OrderFault::UnknownBin(name), "UnknownBin EVOLVE");
    let name = text(alloc, b"EVOL/wave_step")?;
    says(&rt, OrderFault::TwoNames(name), "TwoNames EVOL/wave_step");
    let name = text(alloc, b"nodes")?;
    says(&rt, OrderFault::Limit(name, 4097), "Limit nodes 4097");
    says(&rt, OrderFault::Memory, "Memory");
    Ok(())
}

#[test]
fn entries(rt: HostRuntime) -> Result<(), Fail> {
    let alloc = rt.alloc();
    let name = text(alloc, b"EVOLVE")?;
    says(&rt, EntryFault::UnknownBin(name), "UnknownBin EVOLVE");
    let name = text(alloc, b"EVOL/wave_step")?;
    says(&rt, EntryFault::TwoNames(name), "TwoNames EVOL/wave_step");
    says(&rt, EntryFault::Memory, "Memory");
    Ok(())
}

#[test]
fn cycles(rt: HostRuntime) -> Result<(), Fail> {
    let alloc = rt.alloc();
    let groups = texts(alloc, &[b"P", b"Q"])?;
    says(&rt, OrderFault::GroupCycle(groups), "GroupCycle P,Q");
    let routines = texts(alloc, &[b"A", b"B", b"C"])?;
    says(&rt, OrderFault::Cycle(routines), "Cycle A,B,C");
    let groups = texts(alloc, &[b"P", b"Q"])?;
    says(&rt, PlaceFault::GroupCycle(groups), "GroupCycle P,Q");
    let routines = texts(alloc, &[b"A", b"B", b"C"])?;
    says(&rt, PlaceFault::Cycle(routines), "Cycle A,B,C");
    says(&rt, PlaceFault::Memory, "Memory");
    Ok(())
}
