//! What is said of files that make no job, and of devices.

use crate::common::{says, text};
use cx_bind::BindFault;
use cx_cut::CutFault;
use cx_disk::DiskFault;
use cx_job::JobFault;
use cx_job_files::{ConfigFault, ShelfFault};
use cx_order::OrderFault;
use cx_region::RegionFault;
use cx_text::{CclFault, TextFault};
use cx_values::ValueFault;
use cx_wire::WireFault;
use std::test::Fail;

#[test]
fn files_of_a_job(rt: HostRuntime) -> Result<(), Fail> {
    let alloc = rt.alloc();
    says(&rt, JobFault::Shelf, "Shelf");
    let name = text(alloc, b"none.par")?;
    says(&rt, JobFault::NoFile(name), "NoFile none.par");
    let name = text(alloc, b"a.par")?;
    let fault = JobFault::Text(name, TextFault::BadByte(2));
    says(&rt, fault, "a.par BadByte 2");
    let name = text(alloc, b"schedule.ccl")?;
    let fault = JobFault::Ccl(name, CclFault::Unexpected(1));
    says(&rt, fault, "schedule.ccl Unexpected 1");
    let name = text(alloc, b"s.txt")?;
    let fault = JobFault::Steer(name, ValueFault::NotSteerable(1));
    says(&rt, fault, "s.txt NotSteerable 1");
    says(&rt, JobFault::Memory, "Memory");
    Ok(())
}

#[test]
fn thorns_of_a_job(rt: HostRuntime) -> Result<(), Fail> {
    let alloc = rt.alloc();
    let name = text(alloc, b"Xyz")?;
    let fault = JobFault::Bind(BindFault::UnknownThorn(name));
    says(&rt, fault, "UnknownThorn Xyz");
    let name = text(alloc, b"ca::rule")?;
    let fault = JobFault::Value(ValueFault::BadDefault(name));
    says(&rt, fault, "BadDefault ca::rule");
    let name = text(alloc, b"EVOLVE")?;
    let fault = JobFault::Order(OrderFault::UnknownBin(name));
    says(&rt, fault, "UnknownBin EVOLVE");
    let fault = JobFault::Cut(CutFault::TooMany(513, 512));
    says(&rt, fault, "TooMany 513 512");
    let fault = JobFault::Region(RegionFault::Memory);
    says(&rt, fault, "Memory");
    Ok(())
}

#[test]
fn routines_of_a_job(rt: HostRuntime) -> Result<(), Fail> {
    let alloc = rt.alloc();
    let path = text(alloc, b"EVOL/a")?;
    says(&rt, JobFault::UnknownRoutine(path), "UnknownRoutine EVOL/a");
    let path = text(alloc, b"EVOL/ca_step")?;
    let declared = text(alloc, b"(reads ca::cell(everywhere))")?;
    let offered = text(alloc, b"()")?;
    let fault = JobFault::RoutineMismatch(path, declared, offered);
    let words = "RoutineMismatch EVOL/ca_step (reads ca::cell(everywhere)) ()";
    says(&rt, fault, words);
    let name = text(alloc, b"points")?;
    says(
        &rt,
        JobFault::Limit(name, 16777217),
        "Limit points 16777217",
    );
    let path = text(alloc, b"EVOL/ca_step")?;
    says(
        &rt,
        JobFault::TooLarge(path, 9, 8),
        "TooLarge EVOL/ca_step 9 8",
    );
    Ok(())
}

#[test]
fn configurations(rt: HostRuntime) -> Result<(), Fail> {
    let alloc = rt.alloc();
    says(&rt, ConfigFault::Shelf, "Shelf");
    let name = text(alloc, b"")?;
    says(&rt, ConfigFault::NoFile(name), "NoFile -");
    let name = text(alloc, b"ThornList")?;
    let fault = ConfigFault::Text(name, TextFault::OpenQuote(4));
    says(&rt, fault, "ThornList OpenQuote 4");
    let name = text(alloc, b"param.ccl")?;
    let fault = ConfigFault::Ccl(name, CclFault::BadNumber(2));
    says(&rt, fault, "param.ccl BadNumber 2");
    let name = text(alloc, b"WaveInt")?;
    let fault = ConfigFault::Bind(BindFault::TwoThorns(name));
    says(&rt, fault, "TwoThorns WaveInt");
    says(&rt, ConfigFault::Memory, "Memory");
    Ok(())
}

#[test]
fn devices(rt: HostRuntime) -> Result<(), Fail> {
    says(&rt, ShelfFault::Failed, "Failed");
    says(&rt, ShelfFault::Memory, "Memory");
    says(&rt, DiskFault::Failed, "Failed");
    says(&rt, DiskFault::Memory, "Memory");
    says(&rt, WireFault::Failed, "Failed");
    says(&rt, WireFault::Memory, "Memory");
    Ok(())
}
