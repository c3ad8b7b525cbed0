//! What is said of regions, of routines and of the grid's parts.

use crate::common::{says, text};
use cx_job_items::MatchFault;
use cx_plan::Flag;
use cx_region::RegionFault;
use cx_text::Memory;
use std::alloc::Global;
use std::test::Fail;

/// A read of what nobody has filled, by the flag that isn't set.
fn unset(alloc: Global, flag: Flag) -> Result<RegionFault, Memory> {
    let path = text(alloc, b"i")?;
    let item = text(alloc, b"EVOL/wave_step")?;
    let var = text(alloc, b"wave::phi")?;
    Ok(RegionFault::Unset {
        path,
        item,
        var,
        level: 2,
        flag,
    })
}

#[test]
fn regions(rt: HostRuntime) -> Result<(), Fail> {
    let alloc = rt.alloc();
    let fault = unset(alloc, Flag::I)?;
    says(&rt, fault, "Unset i EVOL/wave_step wave::phi 2 I");
    let fault = unset(alloc, Flag::B)?;
    says(&rt, fault, "Unset i EVOL/wave_step wave::phi 2 B");
    let fault = unset(alloc, Flag::G)?;
    says(&rt, fault, "Unset i EVOL/wave_step wave::phi 2 G");
    let fault = unset(alloc, Flag::S)?;
    says(&rt, fault, "Unset i EVOL/wave_step wave::phi 2 S");
    let path = text(alloc, b"EVOL/wave_step")?;
    let nothing = text(alloc, b"")?;
    let fault = RegionFault::Shape(path, nothing);
    says(&rt, fault, "Shape EVOL/wave_step -");
    says(&rt, RegionFault::Memory, "Memory");
    Ok(())
}

#[test]
fn routines(rt: HostRuntime) -> Result<(), Fail> {
    let alloc = rt.alloc();
    let path = text(alloc, b"EVOL/wave_step")?;
    let fault = MatchFault::UnknownRoutine(path);
    says(&rt, fault, "UnknownRoutine EVOL/wave_step");
    let path = text(alloc, b"EVOL/ca_step")?;
    let declared = text(alloc, b"(reads ca::cell(everywhere))")?;
    let offered = text(alloc, b"()")?;
    let fault = MatchFault::RoutineMismatch(path, declared, offered);
    let words = "RoutineMismatch EVOL/ca_step (reads ca::cell(everywhere)) ()";
    says(&rt, fault, words);
    says(&rt, MatchFault::Memory, "Memory");
    Ok(())
}
