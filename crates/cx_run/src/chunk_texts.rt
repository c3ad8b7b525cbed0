//! What is printed of the commands on chunks.
ghost use Rattle.std.specs.Prelude.{◌≡◌, ◌++◌, IfOk, OnOk};
ghost use Rattle.cx_run.specs.Chunks.{chunk_fault_words, chunked_text, chunks_text, piece_words, recombined_text};

use crate::fault_words::{push_line, push_name, push_number, push_numbers, push_one};
use cx_chunks::ChunkFault;
use cx_run_chunks::{Chunked, Recombined};
use cx_text::{Memory, Text};
use std::alloc::Global;

/// The text of output that was cut into chunks.
pub(crate) fn chunked_text(alloc: Global, done: Chunked) -> Result<Text, Memory>
    ensures { IfOk result (λ text. text ≡ chunked_text done) }
{
    let (parts, records) = (done.parts, done.records);
    let text = format!(in alloc; "chunked: parts {parts} records {records}\n")?;
    Ok(Text::new(text.into_bytes()))
}

/// The text of chunks that were put together again.
pub(crate) fn recombined_text(alloc: Global, done: Recombined) -> Result<Text, Memory>
    ensures { IfOk result (λ text. text ≡ recombined_text done) }
{
    let (records, bytes) = (done.records, done.bytes);
    let text = format!(in alloc; "recombined: records {records} bytes {bytes}\n")?;
    Ok(Text::new(text.into_bytes()))
}

/// Adds the name of a fault, a part, a variable and an iteration.
fn push_piece(
    text: &mut Text,
    alloc: Global,
    name: &[u8],
    part: u32,
    full: &Text,
    iteration: u64,
) -> Result<(), Memory>
    ensures { OnOk result
        (text.new ≡ text.old ++ piece_words name.now part full.now iteration) }
{
    push_line(text, alloc, name, part)?;
    push_name(text, full.as_slice())?;
    push_number(text, alloc, iteration)
}

/// Adds the words of a fault.
fn push_chunk_fault(text: &mut Text, alloc: Global, fault: &ChunkFault) -> Result<(), Memory>
    ensures { OnOk result (text.new ≡ text.old ++ chunk_fault_words fault.now) }
{
    match fault {
        ChunkFault::NotOutput(name) => push_one(text, b"NotOutput", name),
        ChunkFault::TooLong(bytes, most) => push_numbers(text, alloc, b"TooLong", *bytes, *most),
        ChunkFault::Bad(part) => push_line(text, alloc, b"Bad", *part),
        ChunkFault::Stranger(part, full, n) => push_piece(
            text,
            alloc,
            b"Stranger",
            *part,
            full,
            *n,
        ),
        ChunkFault::Double(part, full, n) => push_piece(text, alloc, b"Double", *part, full, *n),
        ChunkFault::Missing(part, full, n) => push_piece(text, alloc, b"Missing", *part, full, *n),
        ChunkFault::Memory => text.push_slice(b"Memory"),
    }
}

/// The text of a fault of the files.
pub(crate) fn chunks_text(alloc: Global, fault: &ChunkFault) -> Result<Text, Memory>
    ensures { IfOk result (λ text. text ≡ chunks_text fault.now) }
{
    let mut text = Text::from_slice(alloc, b"chunks: ")?;
    push_chunk_fault(&mut text, alloc, fault)?;
    text.push_slice(b"\n")?;
    Ok(text)
}
