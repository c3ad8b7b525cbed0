//! What the top call prints and answers.
ghost use Rattle.std.specs.Prelude.{◌≡◌, ◌++◌, ◌≤◌, ◌⊎◌, ◌∷◌, [], codes, IfOk, OnOk};
ghost use Rattle.std.specs.Fmt.{decimal};
ghost use Rattle.cx_core.specs.Hands.{last_number};
ghost use Rattle.cx_run_loop.specs.Drives.{LendsScalars};
ghost use Rattle.cx_run_made.specs.Summaries.{live_variable};
ghost use Rattle.cx_keep.specs.Trails.{total};
ghost use Rattle.cx_plan.specs.Setups.{setup_of};
ghost use Rattle.cx_plan.specs.Whole.{IsWhole};
ghost use Rattle.cx_run.specs.Answers.{answer_at, answer_for, answer_of, answer_to_chunk, answer_to_fault, answer_to_recombine, answer_to_stop, done_by, end_in, summed, Says, IsCutOff, WasSaid};
ghost use Rattle.cx_run.specs.Calls.{lent_sink, live_by};
ghost use Rattle.cx_run.specs.FaultWords.{or_dash, spaced};
ghost use Rattle.cx_run.specs.Texts.{begin_words, done_text, made_text, end_words, ended_text, recovery_text};
ghost use Rattle.cx_run.specs.declared.reply.Answer.{Answer};

use crate::chunk_texts::{chunked_text, chunks_text, recombined_text};
use crate::fault_words::{push_name, push_number, refused_text};
use crate::sink::Sink;
use crate::words::Command;
use cx_chunks::ChunkFault;
use cx_core::{Core, Outcome};
use cx_job::JobFault;
use cx_keep::BeginFault;
use cx_model::End;
use cx_plan::Job;
use cx_run_chunks::{Chunked, ChunksFault, Recombined};
use cx_run_loop::DriveFault;
use cx_run_made::{live_variable, summary};
use cx_text::{Memory, Text};
use std::alloc::Global;

const USAGE: &[u8] =
    b"usage: cactus run FILE [--turns SEED]\n       cactus check FILE\n       cactus schedule FILE\n       cactus describe FILE\n       cactus parts FILE\n       cactus make SEED SIZE\n       cactus chunk FILE\n       cactus recombine FILE\n       cactus batch FILE FILE [FILE ...]\n";

/// What came of a call.
#[derive(Debug, Drop)]
pub enum Answer {
    /// A run of a file is done up to this iteration.
    Done(u64),
    /// A run that was made from a seed and a size is done up to this iteration: how long its outputs are together, and how many
    /// cells live.
    Made {
        iteration: u64,
        seed: u64,
        size: u32,
        output: u128,
        live: i64,
    },
    /// The file makes a job, and this is what was asked of it.
    Text(Text),
    /// The words ask for nothing that there is.
    Usage,
    /// The file makes no job, and neither the shelf nor memory is the reason.
    Refused(JobFault),
    /// A run came to this end, which isn't Done.
    Ended(End),
    /// The shelf failed.
    Shelf,
    /// The disk failed.
    Disk,
    /// The wire failed.
    Wire,
    /// There was no memory left.
    Memory,
    /// A run couldn't begin on what the disk holds.
    Recovery(BeginFault),
    /// Output was cut into chunks.
    Chunked(Chunked),
    /// Chunks were put together again.
    Recombined(Recombined),
    /// The files aren't such as a command on chunks asks for.
    Chunks(ChunkFault),
}

impl Answer {
    ghost use Rattle.cx_run.specs.Answers.{status_of, text_of};

    /// The status of the program.
    pub fn status(&self) -> u8
        ensures { result ≡ status_of self.now }
    {
        match self {
            Answer::Done(_) | Answer::Made { .. } | Answer::Text(_) => 0,
            Answer::Chunked(_) | Answer::Recombined(_) => 0,
            Answer::Usage => 1,
            Answer::Refused(_) => 2,
            Answer::Ended(_) => 3,
            Answer::Shelf | Answer::Disk | Answer::Wire => 4,
            Answer::Memory => 5,
            Answer::Recovery(_) => 6,
            Answer::Chunks(_) => 7,
        }
    }

    /// The text that is printed. It fails where memory runs out.
    pub fn text(self, alloc: Global) -> Result<Text, Memory>
        ensures { IfOk result (λ text. text ≡ text_of self) }
    {
        match self {
            Answer::Done(iteration) => done_text(alloc, iteration),
            Answer::Made {
                iteration,
                seed,
                size,
                output,
                live,
            } => made_text(alloc, iteration, seed, size, output, live),
            Answer::Text(text) => Ok(text),
            Answer::Usage => Text::from_slice(alloc, USAGE),
            Answer::Refused(fault) => refused_text(alloc, &fault),
            Answer::Ended(end) => ended_text(alloc, &end),
            Answer::Shelf => Text::from_slice(alloc, b"device: shelf\n"),
            Answer::Disk => Text::from_slice(alloc, b"device: disk\n"),
            Answer::Wire => Text::from_slice(alloc, b"device: wire\n"),
            Answer::Memory => Text::from_slice(alloc, b"memory\n"),
            Answer::Recovery(fault) => recovery_text(alloc, &fault),
            Answer::Chunked(done) => chunked_text(alloc, done),
            Answer::Recombined(done) => recombined_text(alloc, done),
            Answer::Chunks(fault) => chunks_text(alloc, &fault),
        }
    }
}

/// A job's fault as an answer.
pub(crate) fn answer_of(fault: JobFault) -> Answer
    ensures { result ≡ answer_of fault }
{
    match fault {
        JobFault::Shelf => Answer::Shelf,
        JobFault::Memory => Answer::Memory,
        fault => Answer::Refused(fault),
    }
}

/// Why a run stopped before its end, as an answer.
pub fn answer_for(fault: DriveFault) -> Answer
    ensures { result ≡ answer_for fault }
{
    match fault {
        DriveFault::Recovery(fault) => Answer::Recovery(fault),
        DriveFault::Disk => Answer::Disk,
        DriveFault::Wire => Answer::Wire,
        DriveFault::Memory => Answer::Memory,
    }
}

/// A fault of the files that a command on chunks reads, as an answer.
fn answer_to_fault(fault: ChunkFault) -> Answer
    ensures { result ≡ answer_to_fault fault }
{
    match fault {
        ChunkFault::Memory => Answer::Memory,
        fault => Answer::Chunks(fault),
    }
}

/// Why a command on chunks wasn't done, as an answer.
fn answer_to_stop(stop: ChunksFault) -> Answer
    ensures { result ≡ answer_to_stop stop }
{
    match stop {
        ChunksFault::Disk => Answer::Disk,
        ChunksFault::Chunks(fault) => answer_to_fault(fault),
    }
}

/// What came of cutting output into chunks, as an answer.
pub(crate) fn answer_to_chunk(came: Result<Chunked, ChunksFault>) -> Answer
    ensures { result ≡ answer_to_chunk came }
{
    match came {
        Ok(done) => Answer::Chunked(done),
        Err(stop) => answer_to_stop(stop),
    }
}

/// What came of putting chunks together again, as an answer.
pub(crate) fn answer_to_recombine(came: Result<Recombined, ChunksFault>) -> Answer
    ensures { result ≡ answer_to_recombine came }
{
    match came {
        Ok(done) => Answer::Recombined(done),
        Err(stop) => answer_to_stop(stop),
    }
}

/// The end of a run that is over. It fails where memory runs out, and for a run that goes on.
fn end_in(alloc: Global, outcome: &Outcome) -> Result<End, Memory>
    ensures { IfOk result (λ end. end ≡ end_in outcome.now) }
{
    match outcome {
        Outcome::Going => Err(Memory),
        Outcome::Done => Ok(End::Done),
        Outcome::Overflow(iteration, path) => {
            Ok(End::Overflow(*iteration, Text::from_slice(alloc, path.as_slice())?))
        }
        Outcome::WhileLimit(iteration, path) => {
            Ok(End::WhileLimit(*iteration, Text::from_slice(alloc, path.as_slice())?))
        }
        Outcome::OutputLimit(iteration) => Ok(End::OutputLimit(*iteration)),
    }
}

/// An end as an answer, by the last iteration of a run that is done.
fn answer_at(itlast: u64, end: End) -> Answer
    ensures { result ≡ answer_at itlast end }
{
    match end {
        End::Done => Answer::Done(itlast),
        end => Answer::Ended(end),
    }
}

/// The outcome of a run that is over, as an answer, by the last iteration of its job, or want of memory.
pub fn answer_to_outcome(alloc: Global, itlast: u64, outcome: &Outcome) -> Answer
    ensures { (result ≡ Answer.Memory) ⊎ (result ≡ answer_at itlast (end_in outcome.now)) }
{
    match end_in(alloc, outcome) {
        Ok(end) => answer_at(itlast, end),
        Err(Memory) => Answer::Memory,
    }
}

/// The answer to a run that is over, or want of memory.
pub(crate) fn answer_to_core(alloc: Global, command: Command, job: &Job, core: &Core) -> Answer
    requires whole { IsWhole job.now }
    requires scalars { LendsScalars job.now core.now }
    ensures { (result ≡ Answer.Memory) ⊎ (result
        ≡ summed command job.now core.now (answer_at job.now.itlast (end_in core.now.outcome))) }
{
    let answer = answer_to_outcome(alloc, job.itlast, core.outcome());
    summed(command, job, core, answer)
}

/// An answer, with what is told of a run where that was made and is done.
fn summed(command: Command, job: &Job, core: &Core, answer: Answer) -> Answer
    requires whole { IsWhole job.now }
    requires scalars { LendsScalars job.now core.now }
    ensures { result ≡ summed command job.now core.now answer }
{
    match answer {
        Answer::Done(iteration) => done_by(command, job, core, iteration),
        answer => answer,
    }
}

/// The answer to a run that is done up to this iteration.
fn done_by(command: Command, job: &Job, core: &Core, iteration: u64) -> Answer
    requires whole { IsWhole job.now }
    requires scalars { LendsScalars job.now core.now }
    ensures { result ≡ done_by command job.now core.now iteration }
{
    match command {
        Command::Make { seed, size } => Answer::Made {
            iteration,
            seed,
            size,
            output: total(core.lengths()),
            live: live_cells(job, core),
        },
        _ => Answer::Done(iteration),
    }
}

/// How long outputs of these lengths are together.
fn total(lengths: &[u64]) -> u128
    ensures { result ≡ total lengths.now }
{
    let mut sum = 0;
    'each: for length in lengths {
        sum += u128::from(*length);
    }
    sum
}

/// How many cells live at the end of a run, or 0 where no scalar says it.
fn live_cells(job: &Job, core: &Core) -> i64
    requires whole { IsWhole job.now }
    requires scalars { LendsScalars job.now core.now }
    ensures { result ≡ live_by (live_variable (setup_of job.now)) (last_number core.now) }
{
    match live_variable(job) {
        Some(v) => core.last(v),
        None => 0,
    }
}

/// The text of a run that is done up to this iteration.
fn done_text(alloc: Global, iteration: u64) -> Result<Text, Memory>
    ensures { IfOk result (λ text. text ≡ done_text iteration) }
{
    let text = format!(in alloc; "done: iteration {iteration}\n")?;
    Ok(Text::new(text.into_bytes()))
}

/// The text of a run that was made and is done up to this iteration.
fn made_text(
    alloc: Global,
    iteration: u64,
    seed: u64,
    size: u32,
    output: u128,
    live: i64,
) -> Result<Text, Memory>
    ensures { IfOk result (λ text. text ≡ made_text iteration seed size output live) }
{
    let mut text = done_text(alloc, iteration)?;
    let line = summary(alloc, seed, size, output, live)?;
    text.push_slice(line.as_slice())?;
    Ok(text)
}

/// Adds the name of an end, its iteration and its path.
fn push_stop(
    text: &mut Text,
    alloc: Global,
    name: &[u8],
    iteration: u64,
    path: &Text,
) -> Result<(), Memory>
    ensures { OnOk result
        (text.new ≡ text.old ++ spaced (name.now ∷ decimal iteration ∷ or_dash path.now ∷ [])) }
{
    text.push_slice(name)?;
    push_number(text, alloc, iteration)?;
    push_name(text, path.as_slice())
}

/// Adds a name and a number.
fn push_numbered(text: &mut Text, alloc: Global, name: &[u8], number: u64) -> Result<(), Memory>
    ensures { OnOk result (text.new ≡ text.old ++ spaced (name.now ∷ decimal number ∷ [])) }
{
    text.push_slice(name)?;
    push_number(text, alloc, number)
}

/// Adds the words of an end.
fn push_end(text: &mut Text, alloc: Global, end: &End) -> Result<(), Memory>
    ensures { OnOk result (text.new ≡ text.old ++ end_words end.now) }
{
    match end {
        End::Done => text.push_slice(b"Done"),
        End::Overflow(iteration, path) => push_stop(text, alloc, b"Overflow", *iteration, path),
        End::WhileLimit(iteration, path) => push_stop(text, alloc, b"WhileLimit", *iteration, path),
        End::OutputLimit(iteration) => push_numbered(text, alloc, b"OutputLimit", *iteration),
    }
}

/// The text of a run that came to another end than Done.
fn ended_text(alloc: Global, end: &End) -> Result<Text, Memory>
    ensures { IfOk result (λ text. text ≡ ended_text end.now) }
{
    let mut text = Text::from_slice(alloc, b"ended: ")?;
    push_end(&mut text, alloc, end)?;
    text.push_slice(b"\n")?;
    Ok(text)
}

/// Adds a name, and two texts after it on lines of their own.
fn push_lines(text: &mut Text, name: &[u8], a: &Text, b: &Text) -> Result<(), Memory>
    ensures { OnOk result (text.new ≡ text.old ++ (name.now ++ 10 ∷ a.now ++ 10 ∷ b.now)) }
{
    text.push_slice(name)?;
    text.push_slice(b"\n")?;
    text.push_slice(a.as_slice())?;
    text.push_slice(b"\n")?;
    text.push_slice(b.as_slice())
}

/// Adds a name and two numbers.
fn push_both(text: &mut Text, alloc: Global, name: &[u8], a: u64, b: u64) -> Result<(), Memory>
    ensures { OnOk result
        (text.new ≡ text.old ++ spaced (name.now ∷ decimal a ∷ decimal b ∷ [])) }
{
    text.push_slice(name)?;
    push_number(text, alloc, a)?;
    push_number(text, alloc, b)
}

/// Adds the words of a start that was refused.
fn push_begin(text: &mut Text, alloc: Global, fault: &BeginFault) -> Result<(), Memory>
    ensures { OnOk result (text.new ≡ text.old ++ begin_words fault.now) }
{
    match fault {
        BeginFault::Disk => text.push_slice(b"Disk"),
        BeginFault::NoCheckpoint => text.push_slice(b"NoCheckpoint"),
        BeginFault::OtherJob(kept, own) => push_lines(text, b"OtherJob", kept, own),
        BeginFault::Damaged(slot) => push_numbered(text, alloc, b"Damaged", u64::from(*slot)),
        BeginFault::OutputShort(has, recorded) => {
            push_both(text, alloc, b"OutputShort", *has, *recorded)
        }
        BeginFault::OldTooLong(recorded, most) => {
            push_both(text, alloc, b"OldTooLong", *recorded, *most)
        }
        BeginFault::Memory => text.push_slice(b"Memory"),
    }
}

/// The text of a start that was refused.
fn recovery_text(alloc: Global, fault: &BeginFault) -> Result<Text, Memory>
    ensures { IfOk result (λ text. text ≡ recovery_text fault.now) }
{
    let mut text = Text::from_slice(alloc, b"recovery: ")?;
    push_begin(&mut text, alloc, fault)?;
    text.push_slice(b"\n")?;
    Ok(text)
}

/// Prints an answer and gives its status; want of memory in its place; 4 where the sink fails.
pub(crate) fn reply<O: Sink>(alloc: Global, answer: Answer, out: &mut O) -> u8
    ensures said { WasSaid (lent_sink O.Sink out.old out.new) answer result }
    ensures later { O.faults out.old ≤ O.faults out.new }
{
    let status = answer.status();
    match answer.text(alloc) {
        Ok(text) => say(out, text.as_slice(), status),
        Err(Memory) => say(out, b"memory\n", 5),
    }
}

/// Prints a text. Where the sink fails the status is 4.
fn say<O: Sink>(out: &mut O, text: &[u8], status: u8) -> u8
    ensures printed { Says (lent_sink O.Sink out.old out.new) status text.now result
        ⊎ IsCutOff (lent_sink O.Sink out.old out.new) text.now result }
    ensures later { O.faults out.old ≤ O.faults out.new }
{
    match out.put(text) {
        Ok(()) => status,
        Err(_) => 4,
    }
}
