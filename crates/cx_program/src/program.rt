//! The program over the current folder and standard output.

ghost use Rattle.std.specs.Prelude.{◌≡◌, ◌≤◌, drop, length, map, IfOk, OnErr};
ghost use Rattle.std.specs.List.{AllByRecursion};
ghost use Rattle.std.specs.Process.{exit_status};
ghost use Rattle.std.specs.String.{string_bytes};
ghost use Rattle.std.specs.Vec.Iter.{into_iter_items};
ghost use Rattle.cx_core.specs.Starts.{AreEmpty};
ghost use Rattle.cx_wire.specs.Memory.{told_queue};
ghost use Rattle.cx_several.specs.Statuses.{IsStatusForAll};

use crate::late_wire::LateWire;
use crate::routines::answer;
use cx_folder::{FolderDisk, HostFolder};
use cx_rule::Meter;
use cx_run::{FolderShelf, StdoutSink};
use cx_text::{Memory, Text};
use cx_turns::SeededTurns;
use std::alloc::Global;
use std::env::{self, Args};
use std::io::{self, ErrorKind};
use std::process::ExitCode;

/// Does what these words ask in the current folder, prints the answer, and gives the program's exit code: the
/// status of the top call, or 5 where memory runs out, or where the host couldn't give its words.
pub fn run_words(rt: &HostRuntime, words: io::Result<Vec<Text>>) -> ExitCode
    ensures given { IfOk words (λ given. IsStatusForAll given.items (exit_status result)) }
    ensures wanting { OnErr words (exit_status result ≡ 5) }
{
    match words {
        Ok(words) => exit_code(rt, &words),
        Err(_) => wanting(rt),
    }
}

/// Does what the words ask, and gives the exit code.
#[tactic(auto, using(crate::proofs::Statuses::same_status, crate::proofs::Statuses::wanting_status))]
fn exit_code(rt: &HostRuntime, words: &[Text]) -> ExitCode
    ensures { IsStatusForAll words.now (exit_status result) }
{
    match in_folder(rt, words) {
        Ok(status) => ExitCode::from(status),
        Err(Memory) => wanting(rt),
    }
}

/// The exit code where memory runs out.
fn wanting(rt: &HostRuntime) -> ExitCode
    ensures { exit_status result ≡ 5 }
{
    let _ = rt.write_all(b"memory\n");
    ExitCode::from(5)
}

/// The greatest number of parts that a grid is cut into.
const MOST_PARTS: u32 = 512;

/// The most files of a batch, each of which has a disk and a wire of its own.
const MOST_FILES: u8 = 8;

/// What the top call answers over the current folder, wires in memory, turns from a seed and standard output.
fn in_folder(rt: &HostRuntime, words: &[Text]) -> Result<u8, Memory>
    ensures { IfOk result (IsStatusForAll words.now) }
{
    let alloc = rt.alloc();
    let mut shelf = FolderShelf::new(rt.clone()?);
    let mut disks = folder_disks(rt)?;
    let mut wires = late_wires(alloc)?;
    let mut turns = SeededTurns::new();
    let mut out = StdoutSink::new(rt.clone()?);
    let mut meter = Meter::new(rt);
    answer(
        alloc, words, &mut shelf, &mut disks, &mut wires, &mut turns, &mut out, &mut meter,
    )
}

/// Disks over the current folder, which touch it when they are mounted.
fn folder_disks(rt: &HostRuntime) -> Result<Vec<FolderDisk<HostFolder<HostRuntime>>>, Memory>
    ensures { IfOk result (λ disks. length disks.items ≡ 8) }
{
    let alloc = rt.alloc();
    let mut disks = Vec::new(alloc);
    'disks: for _ in 0..MOST_FILES {
        disks.push(FolderDisk::new(HostFolder::new(rt.clone()?, alloc), alloc))?;
    }
    Ok(disks)
}

/// Wires in memory, which take none before their first messages.
fn late_wires(alloc: Global) -> Result<Vec<LateWire>, Memory>
    ensures many { IfOk result (λ wires. length wires.items ≡ 8) }
    ensures empty { IfOk result (λ wires. AllByRecursion
        (λ wire. (512 ≤ wire.parts) × AreEmpty (told_queue wire)) wires.items) }
{
    let mut wires = Vec::new(alloc);
    'wires: for _ in 0..MOST_FILES {
        wires.push(LateWire::new(alloc, MOST_PARTS))?;
    }
    Ok(wires)
}

/// The words after the program's name. Words that aren't text are those of no command, as no words are.
///
/// # Errors
///
/// Those of the host that gives the words; that memory ran out is among them.
pub fn program_words(rt: &HostRuntime) -> io::Result<Vec<Text>> {
    match env::args(rt) {
        Ok(args) => words_of(rt.alloc(), args),
        Err(error) if error.kind() == ErrorKind::InvalidData => Ok(Vec::new(rt.alloc())),
        Err(error) => Err(error),
    }
}

/// All of the host's words but the first one, which is the program's name.
fn words_of(alloc: Global, args: Args) -> io::Result<Vec<Text>>
    ensures { IfOk result
        (λ words. words.items ≡ map string_bytes (drop 1 (into_iter_items args))) }
{
    let mut words = Vec::new(alloc);
    for word in args.skip(1) {
        words.push(Text::new(word.into_bytes()))?;
    }
    Ok(words)
}
