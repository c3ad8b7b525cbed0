//! What is said of thorns and of parameters.

use crate::common::{says, text};
use cx_bind::BindFault;
use cx_values::ValueFault;
use std::test::Fail;

#[test]
fn thorns_that_do_not_fit(rt: HostRuntime) -> Result<(), Fail> {
    let alloc = rt.alloc();
    let name = text(alloc, b"Xyz")?;
    says(&rt, BindFault::UnknownThorn(name), "UnknownThorn Xyz");
    let name = text(alloc, b"WaveInt")?;
    says(&rt, BindFault::TwoThorns(name), "TwoThorns WaveInt");
    let first = text(alloc, b"ca")?;
    let second = text(alloc, b"ElemCA")?;
    let third = text(alloc, b"Other")?;
    let fault = BindFault::TwoProviders(first, second, third);
    says(&rt, fault, "TwoProviders ca ElemCA Other");
    let first = text(alloc, b"WaveInt")?;
    let second = text(alloc, b"grid")?;
    let fault = BindFault::MissingImplementation(first, second);
    says(&rt, fault, "MissingImplementation WaveInt grid");
    let first = text(alloc, b"WaveInt")?;
    let second = text(alloc, b"MPI")?;
    let fault = BindFault::MissingCapability(first, second);
    says(&rt, fault, "MissingCapability WaveInt MPI");
    let first = text(alloc, b"WaveInt")?;
    let second = text(alloc, b"Control")?;
    let fault = BindFault::MissingThorn(first, second);
    says(&rt, fault, "MissingThorn WaveInt Control");
    says(&rt, BindFault::Memory, "Memory");
    Ok(())
}

#[test]
fn what_thorns_declare(rt: HostRuntime) -> Result<(), Fail> {
    let alloc = rt.alloc();
    let first = text(alloc, b"WaveInt")?;
    let second = text(alloc, b"ca")?;
    let third = text(alloc, b"ruler")?;
    let fault = BindFault::NoParameter(first, second, third);
    says(&rt, fault, "NoParameter WaveInt ca ruler");
    let first = text(alloc, b"WaveInt")?;
    let second = text(alloc, b"rule")?;
    let fault = BindFault::WrongType(first, second);
    says(&rt, fault, "WrongType WaveInt rule");
    let name = text(alloc, b"wave::phi")?;
    says(&rt, BindFault::TwoVariables(name), "TwoVariables wave::phi");
    let name = text(alloc, b"wave::factor")?;
    let fault = BindFault::TwoParameters(name);
    says(&rt, fault, "TwoParameters wave::factor");
    let first = text(alloc, b"WaveInt")?;
    let second = text(alloc, b"field")?;
    let fault = BindFault::Unsupported(first, second);
    says(&rt, fault, "Unsupported WaveInt field");
    let first = text(alloc, b"ca::cells")?;
    let second = text(alloc, b"life::cells")?;
    let fault = BindFault::TwoDims(first, second);
    says(&rt, fault, "TwoDims ca::cells life::cells");
    let name = text(alloc, b"thorns")?;
    says(&rt, BindFault::Limit(name, 65), "Limit thorns 65");
    Ok(())
}

#[test]
fn values_of_parameters(rt: HostRuntime) -> Result<(), Fail> {
    let alloc = rt.alloc();
    let name = text(alloc, b"ca::rule")?;
    says(&rt, ValueFault::BadDefault(name), "BadDefault ca::rule");
    says(&rt, ValueFault::UnknownParam(3), "UnknownParam 3");
    says(&rt, ValueFault::Index(3), "Index 3");
    says(&rt, ValueFault::BadSpelling(3), "BadSpelling 3");
    says(&rt, ValueFault::OutOfRange(3), "OutOfRange 3");
    says(&rt, ValueFault::Twice(4), "Twice 4");
    says(&rt, ValueFault::NotSteerable(1), "NotSteerable 1");
    says(&rt, ValueFault::SteerOrder(2), "SteerOrder 2");
    says(&rt, ValueFault::Memory, "Memory");
    Ok(())
}
