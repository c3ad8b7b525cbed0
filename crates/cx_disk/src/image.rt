//! One of the images that a crash may leave of a disk in memory.
ghost use Rattle.std.specs.Prelude.{◌≡◌, ◌≢◌, ◌≤◌, ◌<◌, ◌+◌, ◌-◌, ◌++◌, length, take, drop, min, vec_len, IsTrue, OnOk, IfOk, ◌↔◌, ◌^◌};
ghost use Rattle.cx_disk.specs.Disk.{Torn, CutShort};
ghost use Rattle.cx_disk.specs.Memory.{file_of, changed};
ghost use Rattle.cx_disk.specs.Image.{Leaves, whole, HasFile, Redoes, Tears, FollowsIn, IsLeft};
ghost use Rattle.cx_disk.specs.declared.image.Part.TheVariants.{Nothing, All};
ghost use Rattle.cx_disk.specs.declared.note.Change.TheVariants.{Synced};

use crate::memory_disk::{bytes_of, copied, fill};
use crate::{Change, Note};
use cx_text::Text;
use std::alloc::{AllocError, Global};

/// How much a crash leaves of a change that isn't settled: nothing, all, or a part by a seed.
#[derive(Clone, Copy)]
enum Part {
    Nothing,
    All,
    Torn(u64),
}

/// The next of a row of numbers that are spread over all bits.
fn next_seed(seed: u64) -> u64 {
    let sum = seed.wrapping_add(0x9E37_79B9_7F4A_7C15);
    let once = (sum ^ (sum >> 30)).wrapping_mul(0xBF58_476D_1CE4_E5B9);
    let twice = (once ^ (once >> 27)).wrapping_mul(0x94D0_49BB_1331_11EB);
    twice ^ (twice >> 31)
}

/// How much is left of a change: nothing by choice 0, all by choice 1, and by any other what the change's seed says.
fn part_by(choice: u64, seed: u64) -> Part
    ensures nothing { choice ≡ 0 → result ≡ Nothing }
    ensures all { choice ≡ 1 → result ≡ All }
{
    match choice {
        0 => Part::Nothing,
        1 => Part::All,
        _ => match seed % 4 {
            0 => Part::Nothing,
            1 => Part::All,
            _ => Part::Torn(seed),
        },
    }
}

/// A number between two.
fn between(seed: u64, low: usize, high: usize) -> usize
    requires { low ≤ high }
    ensures least { low ≤ result }
    ensures greatest { result ≤ high }
{
    if low == high || seed % 4 == 3 {
        return high;
    }
    low + (seed >> 8) as usize % (high - low)
}

/// A byte that a crash may leave in the range of a write: the old or the new one, a gate that is open or shut, or any.
fn torn_byte(seed: u64, old: Option<&u8>, new: Option<&u8>) -> u8 {
    match seed % 5 {
        0 => old.copied().unwrap_or(0),
        1 => new.copied().unwrap_or(0),
        2 => 0,
        3 => 1,
        _ => (seed / 256 % 256) as u8,
    }
}

/// So many bytes that a crash may leave where there are old ones and new ones.
fn torn_bytes(
    alloc: Global,
    old: &[u8],
    new: &[u8],
    count: usize,
    seed: u64,
) -> Result<Vec<u8>, AllocError>
    ensures { IfOk result (λ made. vec_len made ≡ count) }
{
    let mut made = Vec::new(alloc);
    let mut seed = seed;
    'places: for k in 0..count {
        seed = next_seed(seed);
        made.push(torn_byte(seed, old.get(k), new.get(k)))?;
    }
    Ok(made)
}

/// The bytes with others in place of those from one place to another.
fn spliced(
    alloc: Global,
    bytes: &[u8],
    start: usize,
    new: &[u8],
    end: usize,
) -> Result<Vec<u8>, AllocError>
    requires { start ≤ length bytes.now }
    ensures { IfOk result
        (λ all. all.items ≡ take start bytes.now ++ new.now ++ drop end bytes.now) }
{
    let mut all = bytes[..start].to_vec(alloc)?;
    all.extend_from_slice(new)?;
    if end < bytes.len() {
        all.extend_from_slice(&bytes[end..])?;
    }
    Ok(all)
}

/// The bytes of a file after a write.
pub(crate) fn written(alloc: Global, old: &[u8], at: u64, new: &[u8]) -> Result<Vec<u8>, AllocError>
    ensures { IfOk result
        (λ all. all.items ≡ take at old.now ++ new.now ++ drop (at + length new.now) old.now) }
{
    let at = at as usize;
    spliced(
        alloc,
        old,
        at.min(old.len()),
        new,
        at.saturating_add(new.len()),
    )
}

/// The bytes of a file that a crash may leave of a write.
fn torn_write(
    alloc: Global,
    old: &[u8],
    at: u64,
    new: &[u8],
    seed: u64,
) -> Result<Vec<u8>, AllocError>
    ensures { IfOk result (λ all. Torn at (length new.now) old.now all.items) }
{
    let at = at as usize;
    let end = at.saturating_add(new.len());
    let start = at.min(old.len());
    let reach = between(seed, old.len().min(end), end);
    let within = if at <= old.len() { new } else { &[] };
    let made = torn_bytes(alloc, &old[start..], within, reach - start, seed)?;
    spliced(alloc, old, start, &made, end)
}

/// The bytes of a file that a crash may leave of a cut.
fn torn_cut(alloc: Global, old: &[u8], to: u64, seed: u64) -> Result<Vec<u8>, AllocError>
    ensures { IfOk result (λ front. CutShort to old.now front.items) }
{
    let keep = between(seed, old.len().min(to as usize), old.len());
    old[..keep].to_vec(alloc)
}

/// The bytes of a file after a change.
fn next_bytes(alloc: Global, change: &Change, old: &[u8]) -> Result<Vec<u8>, AllocError>
    ensures { IfOk result (λ new. new.items ≡ changed change.now old.now) }
{
    match change {
        Change::Wrote { at, bytes } => written(alloc, old, *at, bytes.as_slice()),
        Change::Cut { to } => old[..old.len().min(*to as usize)].to_vec(alloc),
        Change::Synced | Change::StoppedWrite { .. } | Change::StoppedCut { .. } => old.to_vec(
            alloc,
        ),
    }
}

/// The bytes of a file after a change, though it was stopped.
fn whole_bytes(alloc: Global, change: &Change, old: &[u8]) -> Result<Vec<u8>, AllocError>
    ensures { IfOk result (λ new. new.items ≡ whole change.now old.now) }
{
    match change {
        Change::Wrote { at, bytes } => written(alloc, old, *at, bytes.as_slice()),
        Change::StoppedWrite { at, bytes } => written(alloc, old, *at, bytes.as_slice()),
        Change::Cut { to } => old[..old.len().min(*to as usize)].to_vec(alloc),
        Change::StoppedCut { to } => old[..old.len().min(*to as usize)].to_vec(alloc),
        Change::Synced => old.to_vec(alloc),
    }
}

/// The bytes of a file that a crash may leave of a change.
fn torn_change(alloc: Global, change: &Change, old: &[u8], seed: u64) -> Result<Vec<u8>, AllocError>
    ensures { IfOk result (λ new. Leaves change.now old.now new.items) }
{
    match change {
        Change::Wrote { at, bytes } => torn_write(alloc, old, *at, bytes.as_slice(), seed),
        Change::StoppedWrite { at, bytes } => torn_write(alloc, old, *at, bytes.as_slice(), seed),
        Change::Cut { to } => torn_cut(alloc, old, *to, seed),
        Change::StoppedCut { to } => torn_cut(alloc, old, *to, seed),
        Change::Synced => old.to_vec(alloc),
    }
}

/// The bytes of a file of which a part of a change is left.
fn left_bytes(alloc: Global, change: &Change, old: &[u8], part: Part) -> Result<Vec<u8>, AllocError>
    ensures nothing { part ≡ Nothing → IfOk result (λ new. new.items ≡ old.now) }
    ensures all { part ≡ All → IfOk result (λ new. new.items ≡ whole change.now old.now) }
    ensures some { IfOk result (λ new. Leaves change.now old.now new.items) }
{
    match part {
        Part::Nothing => old.to_vec(alloc),
        Part::All => whole_bytes(alloc, change, old),
        Part::Torn(seed) => torn_change(alloc, change, old, seed),
    }
}

/// Gives a file these bytes.
fn set_bytes(
    alloc: Global,
    files: &mut Vec<Text>,
    file: usize,
    bytes: Vec<u8>,
) -> Result<(), AllocError>
    requires { file < 2 ^ 32 }
    ensures { OnOk result
        (HasFile file bytes.items (file_of files.old.items) (file_of files.new.items)) }
{
    fill(alloc, files, file + 1)?;
    files[file] = Text::new(bytes);
    Ok(())
}

/// Makes a change.
fn redo(alloc: Global, files: &mut Vec<Text>, note: &Note) -> Result<(), AllocError>
    ensures { OnOk result (Redoes note.now (file_of files.old.items) (file_of files.new.items)) }
{
    let file = note.file as usize;
    let bytes = next_bytes(alloc, &note.change, bytes_of(files, file))?;
    set_bytes(alloc, files, file, bytes)
}

/// Makes a change in part.
fn tear(
    alloc: Global,
    files: &mut Vec<Text>,
    note: &Note,
    choice: u64,
    seed: u64,
) -> Result<(), AllocError>
    ensures { OnOk result
        (Tears choice note.now (file_of files.old.items) (file_of files.new.items)) }
{
    let file = note.file as usize;
    let part = part_by(choice, seed);
    let bytes = left_bytes(alloc, &note.change, bytes_of(files, file), part)?;
    set_bytes(alloc, files, file, bytes)
}

/// Makes one file of an image what it is among the files.
fn settle(alloc: Global, files: &[Text], image: &mut Vec<Text>, file: u32) -> Result<(), AllocError>
    ensures { OnOk result (HasFile file (file_of files.now file)
        (file_of image.old.items) (file_of image.new.items)) }
{
    let file = file as usize;
    let bytes = bytes_of(files, file).to_vec(alloc)?;
    set_bytes(alloc, image, file, bytes)
}

/// Whether a change is a sync.
fn is_sync(change: &Change) -> bool
    ensures { IsTrue result ↔ (change.now ≡ Synced) }
{
    match change {
        Change::Synced => true,
        _ => false,
    }
}

/// Makes a change in the files, and in part in their image; a sync makes its file whole there.
fn follow(
    alloc: Global,
    files: &mut Vec<Text>,
    image: &mut Vec<Text>,
    note: &Note,
    choice: u64,
    seed: u64,
) -> Result<(), AllocError>
    ensures { OnOk result
        (FollowsIn choice note.now files.old.items image.old.items
        files.new.items image.new.items) }
{
    redo(alloc, files, note)?;
    if is_sync(&note.change) {
        settle(alloc, files, image, note.file)
    } else {
        tear(alloc, image, note, choice, seed)
    }
}

/// Files that a crash may leave after these changes of others, by a choice.
pub(crate) fn image_of(
    alloc: Global,
    first: &[Text],
    notes: &[Note],
    choice: u64,
) -> Result<Vec<Text>, AllocError>
    ensures { IfOk result (λ image. IsLeft choice first.now notes.now image.items) }
{
    let mut files = copied(alloc, first)?;
    let mut image = copied(alloc, first)?;
    let mut seed = choice;
    'notes: for note in notes {
        seed = next_seed(seed);
        follow(alloc, &mut files, &mut image, note, choice, seed)?;
    }
    Ok(image)
}
