//! A job of eight cells: its parameter file is read, the job is made, run over devices in memory, and its output read back.

ghost use Rattle.std.specs.Prelude.{◌≡◌, ◌≤◌, ◌^◌, length, map, IfOk, None};
ghost use Rattle.cx_cut.specs.Cuts.{part_count};
ghost use Rattle.cx_cut.specs.Faults.{cut_fault, parts_of};
ghost use Rattle.cx_rule.specs.Jobs.{FitJob};
ghost use Rattle.cx_wire.specs.Memory.{told_queue};
ghost use Rattle.cx_plan.specs.Setups.{setup_of};
ghost use Rattle.cx_outputs.specs.Names.{HasShortNames};
ghost use Rattle.cx_core.specs.Starts.{AreEmpty, IsReady};

use cx_ascii_read::{Record, read_output};
use cx_cut::cut;
use cx_disk::{MemoryDisk, named_output};
use cx_job::make_job;
use cx_job_files::MemoryShelf;
use cx_parfile::{Settings, read_parfile};
use cx_plan::Job;
use cx_rule::{Meter, Routine};
use cx_run_loop::drive;
use cx_text::{List, Memory, Style, Text, tokens};
use cx_thorn_ca::{CaCount, CaInit, CaStep, CaZero};
use cx_turns::SeededTurns;
use cx_wire::MemoryWire;
use sample_files::FILES;
use std::alloc::Global;
use std::test::Fail;

const ROW: &[u8] = b"ActiveThorns = \"ElemCA\"\n\
    Cactus::cctk_itlast = 2\n\
    driver::global_nx = 8\n\
    driver::periodic = yes\n\
    driver::parts_x = 2\n\
    ca::start = 3\n\
    IO::out_vars = \"ca::cell\"\n";

/// The cells at iterations 0, 1 and 2: a cell becomes 1 where one of its neighbours is 1 and the other one isn't.
const CELLS: &[&[i64]] = &[
    &[0, 0, 0, 1, 0, 0, 0, 0],
    &[0, 0, 1, 0, 1, 0, 0, 0],
    &[0, 1, 0, 0, 0, 1, 0, 0],
];

/// What the parameter file says.
fn settings(alloc: Global) -> Result<Settings, Fail> {
    let tokens = tokens(alloc, ROW, Style::Par)?;
    let base = Text::from_slice(alloc, b"row")?;
    Ok(read_parfile(alloc, &tokens, &base)?)
}

/// A shelf with the parameter file `row.par`, ThornList and the sample thorns' files.
fn shelf(alloc: Global) -> Result<MemoryShelf, Memory> {
    let mut files = Vec::new(alloc);
    files.push((
        Text::from_slice(alloc, b"row.par")?,
        Text::from_slice(alloc, ROW)?,
    ))?;
    for file in FILES {
        let name = Text::from_slice(alloc, file.name.as_bytes())?;
        files.push((name, Text::from_slice(alloc, file.bytes)?))?;
    }
    Ok(MemoryShelf::new(List::new(files)))
}

/// The job that the files make.
fn job(alloc: Global, routines: &[Box<dyn Routine>]) -> Result<Job, Fail>
    requires few { length routines.now ≤ 2 ^ 32 }
    ensures ready { IfOk result (λ job. IsReady job) }
    ensures fit { IfOk result (λ job. FitJob (map spec_of routines.now) job) }
    ensures cut { IfOk result (λ job. cut_fault (parts_of job.shape job.cut) ≡ None) }
    ensures names { IfOk result (λ job. HasShortNames (setup_of job)) }
{
    let mut shelf = shelf(alloc)?;
    let name = Text::from_slice(alloc, b"row.par")?;
    let job = make_job(alloc, &mut shelf, &name, routines)?;
    Ok(job)
}

/// A wire in memory between the parts of a job.
fn wire(alloc: Global, job: &Job) -> Result<MemoryWire, Fail>
    requires { IsReady job.now }
    ensures parts { IfOk result (λ wire.
        wire.parts ≡ part_count (parts_of job.now.shape job.now.cut)) }
    ensures empty { IfOk result (λ wire. AreEmpty (told_queue wire)) }
{
    let cut = cut(alloc, &job.shape, &job.cut)?;
    let wire = MemoryWire::new(alloc, cut.count())?;
    Ok(wire)
}

/// The bytes of the first variable's output after the run of a job on an empty disk.
fn output(rt: &HostRuntime, job: &mut Job, routines: &[Box<dyn Routine>]) -> Result<Vec<u8>, Fail>
    requires ready { IsReady job.old }
    requires fit { FitJob (map spec_of routines.now) job.old }
    requires cut { cut_fault (parts_of job.old.shape job.old.cut) ≡ None }
    requires names { HasShortNames (setup_of job.old) }
{
    let alloc = rt.alloc();
    let mut disk = MemoryDisk::new(alloc, List::empty(alloc));
    let mut wire = wire(alloc, job)?;
    let mut turns = SeededTurns::new();
    let mut meter = Meter::new(rt);
    drive(
        alloc, job, routines, &mut disk, &mut wire, &mut turns, &mut meter,
    )?;
    Ok(disk.bytes(named_output(0) as usize).to_vec(alloc)?)
}

/// The sections of the output of the row's run.
fn sections(rt: &HostRuntime, routines: &[Box<dyn Routine>]) -> Result<List<Record>, Fail>
    requires few { length routines.now ≤ 2 ^ 32 }
{
    let alloc = rt.alloc();
    let mut job = job(alloc, routines)?;
    let output = output(rt, &mut job, routines)?;
    match read_output(alloc, &output)? {
        Some(records) => Ok(records),
        None => Err(Fail::new("this is no output")),
    }
}

#[test]
fn eight_cells(rt: HostRuntime) -> Result<(), Fail> {
    let alloc = rt.alloc();
    assert_eq!(rt; settings(alloc)?.list.len(), 6, "settings");
    let mut routines: Vec<Box<dyn Routine>> = Vec::new(alloc);
    routines.push(Box::new(alloc, CaInit::new(alloc)?)?)?;
    routines.push(Box::new(alloc, CaStep::new(alloc)?)?)?;
    routines.push(Box::new(alloc, CaZero::new(alloc)?)?)?;
    routines.push(Box::new(alloc, CaCount::new(alloc)?)?)?;
    let sections = sections(&rt, &routines)?;
    assert_eq!(rt; sections.len(), CELLS.len(), "sections");
    for (section, cells) in sections.as_slice().iter().zip(CELLS) {
        assert_eq!(rt;
            section.values.as_slice(),
            *cells,
            "iteration {}",
            section.iteration
        );
    }
    Ok(())
}
