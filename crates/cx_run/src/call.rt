//! The top call.
ghost use Rattle.std.specs.Prelude.{◌≡◌, ◌≤◌, ◌^◌, None, Some, IfOk, length, map};
ghost use Rattle.cx_cut.specs.Faults.{parts_of, cut_fault};
ghost use Rattle.cx_grid.specs.Grid.{HasInterior};
ghost use Rattle.cx_plan.specs.Whole.{IsWhole};
ghost use Rattle.cx_core.specs.Starts.{AreEmpty};
ghost use Rattle.cx_run_loop.specs.Drives.{LendsScalars};
ghost use Rattle.cx_job.specs.Making.{IsReady};
ghost use Rattle.cx_run_made.specs.Files.{made_files};
ghost use Rattle.cx_run.specs.Answers.{AnswersRun, IsWayOf, answer_with, status_of};
ghost use Rattle.cx_run.specs.Calls.{Runs, SparesShelf, called_with, driven, lent_shelf, lent_sink, made_from, shelf_for, shelf_of, work_on};
ghost use Rattle.cx_run.specs.Causes.{ComesTo, Explains, MakesOn};
ghost use Rattle.cx_run.specs.Clauses.{Obeys};
ghost use Rattle.cx_run.specs.Turned.{FollowsTurns, HasTurned};
ghost use Rattle.cx_run.specs.Texts.{accepted_text};

use crate::cut_texts::parts_text;
use crate::reply::{
    Answer, answer_for, answer_of, answer_to_chunk, answer_to_core, answer_to_recombine, reply,
};
use crate::sink::Sink;
use crate::texts::{describe, schedule_text};
use crate::words::{Command, request_of};
use cx_core::Core;
use cx_disk::Disk;
use cx_job::{JobFault, MemoryShelf, Shelf, make_job};
use cx_plan::Job;
use cx_rule::{Meter, Routine};
use cx_run_chunks::{chunk, recombine};
use cx_run_loop::{DriveFault, drive};
use cx_run_made::made_files;
use cx_text::{List, Memory, Text};
use cx_turns::Turns;
use cx_wire::Wire;
use law_course::trails_begin;
use std::alloc::Global;

/// Does what the words of the command line ask, prints the answer on `out`, and gives the program's status.
///
/// | words | what is done | printed at status 0 |
/// |---|---|---|
/// | `run FILE` | makes the job of the parameter file FILE and runs it | `done: iteration N`, the last iteration |
/// | `check FILE` | makes the job | `accepted` |
/// | `schedule FILE` | makes the job | its schedule text |
/// | `describe FILE` | makes the job | its key, the other parameters' lines, and for each direction the widths of its parts |
/// | `parts FILE` | makes the job | the parts of its grid, a line for each |
/// | `chunk FILE` | makes the job and cuts its output into chunks, by `chunk` of cx_run_chunks | `chunked: parts P records R` |
/// | `recombine FILE` | makes the job and puts its output together again, by `recombine` of cx_run_chunks | `recombined: records R bytes B` |
/// | `make SEED SIZE` | makes a parameter file of Life, a list of thorns and the thorn's files, and runs their job | `done: iteration N`, and a line that sums the run up |
///
/// FILE isn't empty and doesn't begin with `-`. What makes a job is said at `make_job` of cx_job. `run` takes `--turns SEED` or
/// `--turns=SEED` before or after FILE, one to twenty digits below 2^64: the source of turns begins anew from SEED, or from 0.
///
/// `make` takes a SEED of one to twenty digits below 2^63 and a SIZE of one to four digits from 8 to 1024. Its files are those of
/// `made_files` of cx_run_made, which the shelf doesn't see: the shelf is left alone. It is done as `run made.par` does. Where the run is
/// done it tells how many points there are, how long the outputs are together, and how many cells live in the last state.
///
/// A run goes by `drive` of cx_run_loop: the grid is cut into parts, which exchange messages by the wire, in the order that `turns` picks;
/// what is written of a variable goes into a file of its own, from `named_output(0)` of cx_disk on, and checkpoints go into the slots of
/// the disk. By the job's `IO::recover` it begins afresh or resumes from the newest checkpoint; from one of version 1 the file `OLD_OUTPUT`
/// is split into the variables' files. Where the job is balanced, the grid is cut anew at each checkpoint, by the weights of its points.
/// Where the shelf, the disk and the wire tell what they hold, and each image of the disk is a trail of the job at the start, or old
/// checkpoints are given up, then at status 0 and 3 each output is that of the undivided run, also in what a crash may leave; and at any
/// status each image at each moment of the call is a trail of the job.
///
/// The wire serves 512 parts, and its queues are empty. After status 3, 4 or 5 of a run they may hold messages.
///
/// | status | what came of it | printed |
/// |---|---|---|
/// | 0 | the command is done | as above |
/// | 1 | the words are others | the usage text: a line for each command, and one for `batch`, which cx_several does |
/// | 2 | the file makes no job | `refused: ` and the words of the fault |
/// | 3 | its run ended earlier | `ended: `, the end's name, the iteration, and the path of the item or WHILE, if it has one |
/// | 4 | a device failed | `device: shelf`, `device: disk`, `device: wire`; after a failure of the sink nothing more |
/// | 5 | memory runs out | `memory` |
/// | 6 | its run can't begin on what the disk holds | `recovery: ` and the words of the fault |
/// | 7 | the files aren't such as `chunk` or `recombine` asks for | `chunks: ` and the words of the fault |
///
/// Each text ends with a line feed. The ends are `Overflow`, `WhileLimit` and `OutputLimit` (`End` of cx_model), the faults of status 6
/// `NoCheckpoint`, `Damaged`, `OtherJob`, `OutputShort` and `OldTooLong` (`BeginFault` of cx_keep). The faults of status 7 are those of
/// `ChunkFault` of cx_chunks. `chunk` and `recombine` change no file of the disk below `FIRST_CHUNK`, so that each trail stays, and neither
/// the wire nor the meter. The other commands but `run` and `make` touch neither the disk nor the wire nor the meter; at status 1, 2, 6 and
/// 7 no byte of the disk is changed, and neither the wire nor the meter. At status 0 of a run from such a disk the meter has risen by the
/// points that the parts compute after the newest checkpoint, and the wire has given out the values that they exchange there. Where the job
/// is balanced, what follows each checkpoint is counted by the cut that it chooses.
pub fn cactus<H: Shelf, D: Disk, W: Wire, T: Turns, O: Sink>(
    alloc: Global,
    words: &[Text],
    shelf: &mut H,
    disk: &mut D,
    wire: &mut W,
    turns: &mut T,
    out: &mut O,
    routines: &[Box<dyn Routine>],
    meter: &mut Meter,
) -> u8
    requires few { length routines.now ≤ 2 ^ 32 }
    requires parts { 512 ≤ W.parts wire.old }
    requires empty { AreEmpty (W.queue wire.old) }
    ensures obeys { Obeys (called_with (map rule routines.now) (map spec_of routines.now)
        H.Shelf D.Disk W.Wire words.now shelf.old shelf.new
        disk.old disk.new wire.old wire.new meter.old meter.new (T.begun turns.new))
        (lent_sink O.Sink out.old out.new) result }
    ensures turned { FollowsTurns T.Turns
        (called_with (map rule routines.now) (map spec_of routines.now)
        H.Shelf D.Disk W.Wire words.now shelf.old shelf.new
        disk.old disk.new wire.old wire.new meter.old meter.new (T.begun turns.new))
        turns.old turns.new result }
{
    let answer = answer_to(alloc, words, shelf, disk, wire, turns, routines, meter);
    reply(alloc, answer, out)
}

/// Does what the words ask.
fn answer_to<H: Shelf, D: Disk, W: Wire, T: Turns>(
    alloc: Global,
    words: &[Text],
    shelf: &mut H,
    disk: &mut D,
    wire: &mut W,
    turns: &mut T,
    routines: &[Box<dyn Routine>],
    meter: &mut Meter,
) -> Answer
    requires few { length routines.now ≤ 2 ^ 32 }
    requires parts { 512 ≤ W.parts wire.old }
    requires empty { AreEmpty (W.queue wire.old) }
    ensures explained { Explains (called_with (map rule routines.now) (map spec_of routines.now)
        H.Shelf D.Disk W.Wire words.now shelf.old shelf.new
        disk.old disk.new wire.old wire.new meter.old meter.new (T.begun turns.new)) result }
    ensures turned { FollowsTurns T.Turns
        (called_with (map rule routines.now) (map spec_of routines.now)
        H.Shelf D.Disk W.Wire words.now shelf.old shelf.new
        disk.old disk.new wire.old wire.new meter.old meter.new (T.begun turns.new))
        turns.old turns.new (status_of result) }
    ensures held { H.tells → H.held shelf.new ≡ H.held shelf.old }
    ensures shelf_count { H.faults shelf.old ≤ H.faults shelf.new }
    ensures disk_count { D.faults disk.old ≤ D.faults disk.new }
    ensures wire_count { W.faults wire.old ≤ W.faults wire.new }
    ensures points { meter.old ≤ meter.new }
    ensures values { W.received wire.old ≤ W.received wire.new }
{
    let Some((command, file, seed)) = request_of(words) else {
        return Answer::Usage;
    };
    match job_for(alloc, command, file, shelf, routines) {
        Ok(mut job) => done(
            alloc, command, seed, &mut job, disk, wire, turns, routines, meter,
        ),
        Err(fault) => answer_of(fault),
    }
}

/// The job that a command is for: of a file on the shelf, or of files that are made.
fn job_for<H: Shelf>(
    alloc: Global,
    command: Command,
    file: &[u8],
    shelf: &mut H,
    routines: &[Box<dyn Routine>],
) -> Result<Job, JobFault>
    requires few { length routines.now ≤ 2 ^ 32 }
    ensures made { MakesOn (shelf_for (lent_shelf H.Shelf shelf.old shelf.new) command) file.now
        (map spec_of routines.now) result }
    ensures spared { SparesShelf (lent_shelf H.Shelf shelf.old shelf.new) command }
    ensures held { H.tells → H.held shelf.new ≡ H.held shelf.old }
    ensures count { H.faults shelf.old ≤ H.faults shelf.new }
    ensures ready { IfOk result (IsReady (map spec_of routines.now)) }
    ensures interior { IfOk result (λ job. HasInterior job.shape) }
{
    let name = Text::from_slice(alloc, file)?;
    match made_from(command) {
        Some((seed, size)) => made_job(alloc, seed, size, &name, routines),
        None => make_job(alloc, shelf, &name, routines),
    }
}

/// The seed and the size that a command makes its files from, if it makes them.
fn made_from(command: Command) -> Option<(u64, u32)>
    ensures { result ≡ made_from command }
{
    match command {
        Command::Make { seed, size } => Some((seed, size)),
        _ => None,
    }
}

/// The job that made files make, by the name of the parameter file among them.
fn made_job(
    alloc: Global,
    seed: u64,
    size: u32,
    name: &Text,
    routines: &[Box<dyn Routine>],
) -> Result<Job, JobFault>
    requires few { length routines.now ≤ 2 ^ 32 }
    ensures made { MakesOn (shelf_of (made_files seed size)) name.now
        (map spec_of routines.now) result }
    ensures ready { IfOk result (IsReady (map spec_of routines.now)) }
    ensures interior { IfOk result (λ job. HasInterior job.shape) }
{
    let files = made_files(alloc, seed, size)?;
    job_among(alloc, files, name, routines)
}

/// The job that these files make, by the name of the parameter file among them.
fn job_among(
    alloc: Global,
    files: List<(Text, Text)>,
    name: &Text,
    routines: &[Box<dyn Routine>],
) -> Result<Job, JobFault>
    requires few { length routines.now ≤ 2 ^ 32 }
    ensures made { MakesOn (shelf_of files) name.now (map spec_of routines.now) result }
    ensures ready { IfOk result (IsReady (map spec_of routines.now)) }
    ensures interior { IfOk result (λ job. HasInterior job.shape) }
{
    let mut shelf = MemoryShelf::new(files);
    make_job(alloc, &mut shelf, name, routines)
}

/// How a command is done with the job of its file.
#[derive(Drop)]
enum Way {
    /// It has a text, if there is memory for it.
    Told(Result<Text, Memory>),
    /// It runs the job.
    Run,
    /// It cuts the job's output into chunks.
    Chunk,
    /// It puts the output together again.
    Recombine,
}

/// Does a command with the job of its file, which is as before after the call.
fn done<D: Disk, W: Wire, T: Turns>(
    alloc: Global,
    command: Command,
    seed: u64,
    job: &mut Job,
    disk: &mut D,
    wire: &mut W,
    turns: &mut T,
    routines: &[Box<dyn Routine>],
    meter: &mut Meter,
) -> Answer
    requires ready { IsReady (map spec_of routines.now) job.old }
    requires interior { HasInterior job.old.shape }
    requires parts { 512 ≤ W.parts wire.old }
    requires empty { AreEmpty (W.queue wire.old) }
    ensures job { job.new ≡ job.old }
    ensures comes { ComesTo (work_on (map rule routines.now) (map spec_of routines.now)
        D.Disk W.Wire disk.old disk.new wire.old wire.new meter.old meter.new) command job.old
        result }
    ensures begun { Runs command → T.begun turns.new ≡ Some seed }
    ensures turned { Runs command → HasTurned T.Turns
        (driven (work_on (map rule routines.now) (map spec_of routines.now) D.Disk W.Wire
        disk.old disk.new wire.old wire.new meter.old meter.new) job.old)
        seed turns.new (status_of result) }
    ensures spared { (Runs command → ⊥) → turns.new ≡ turns.old }
    ensures disk_count { D.faults disk.old ≤ D.faults disk.new }
    ensures wire_count { W.faults wire.old ≤ W.faults wire.new }
    ensures points { meter.old ≤ meter.new }
    ensures values { W.received wire.old ≤ W.received wire.new }
{
    match way_of(alloc, command, job) {
        Way::Told(text) => printed(text),
        Way::Run => {
            trails_begin(job);
            turns.start(seed);
            let came = drive(alloc, job, routines, disk, wire, turns, meter);
            answer_to_run(alloc, command, job, came)
        }
        Way::Chunk => answer_to_chunk(chunk(alloc, disk, job)),
        Way::Recombine => answer_to_recombine(recombine(alloc, disk, job)),
    }
}

/// How a command is done with the job of its file.
fn way_of(alloc: Global, command: Command, job: &Job) -> Way
    requires whole { IsWhole job.now }
    requires cut { cut_fault (parts_of job.now.shape job.now.cut) ≡ None }
    ensures { IsWayOf command job.now result }
{
    match command {
        Command::Run => Way::Run,
        Command::Make { .. } => Way::Run,
        Command::Chunk => Way::Chunk,
        Command::Recombine => Way::Recombine,
        Command::Check => Way::Told(accepted(alloc)),
        Command::Schedule => Way::Told(schedule_text(alloc, job)),
        Command::Describe => Way::Told(describe(alloc, job)),
        Command::Parts => Way::Told(parts_text(alloc, job)),
    }
}

/// What is printed of a job that was made.
fn accepted(alloc: Global) -> Result<Text, Memory>
    ensures { IfOk result (λ text. text ≡ accepted_text) }
{
    Text::from_slice(alloc, b"accepted\n")
}

/// A text as an answer, or want of memory.
fn printed(text: Result<Text, Memory>) -> Answer
    ensures { result ≡ answer_with text }
{
    match text {
        Ok(text) => Answer::Text(text),
        Err(Memory) => Answer::Memory,
    }
}

/// What came of a run as an answer.
fn answer_to_run(
    alloc: Global,
    command: Command,
    job: &Job,
    came: Result<Core, DriveFault>,
) -> Answer
    requires whole { IsWhole job.now }
    requires scalars { IfOk came (LendsScalars job.now) }
    ensures { AnswersRun command job.now came result }
{
    match came {
        Ok(core) => answer_to_core(alloc, command, job, &core),
        Err(fault) => answer_for(fault),
    }
}
