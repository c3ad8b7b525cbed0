//! The reader of files that are made of entries, one after another.

ghost use Rattle.std.specs.Prelude.{◌≡◌, ℕ, [], Some, None, IfOk, List as ListOf, Option as OptionOf};
ghost use Rattle.cx_ascii_read.specs.Spelling.{IsField, ReadsAll, SpellsAll};
ghost use Rattle.cx_ascii_read.specs.Reading.{Gives, GivesAll};

use crate::words::Stop;
use cx_text::{List, Memory};
use std::alloc::Global;

/// One of the entries that a file is made of. Its text shows where it ends.
pub trait Entry: Drop + Sized {
    /// Its text.
    ghost text: { Self → ListOf ℕ };

    /// It can stand in a file.
    ghost fits: { Self → Type 0 };

    /// The entry in front of some bytes, and the bytes after it.
    ghost entry_at: { ListOf ℕ → OptionOf (Self × ListOf ℕ) };

    /// The entry in front, and what comes after it.
    fn read(alloc: Global, bytes: &[u8]) -> Result<(Self, &[u8]), Stop>
        ensures { Gives (λ x. (x.0, x.1.now)) result (entry_at bytes.now) };
}

/// All entries of a file.
fn entries_of<E: Entry>(alloc: Global, bytes: &[u8]) -> Result<List<E>, Stop>
    requires field { IsField E.text E.entry_at E.fits }
    requires some { E.entry_at [] ≡ None }
    ensures { GivesAll E.text E.fits bytes.now result }
{
    let mut entries = List::empty(alloc);
    let mut rest = bytes;
    'each: while !rest.is_empty() {
        let (entry, after) = E::read(alloc, rest)?;
        entries.push(entry)?;
        rest = after;
    }
    Ok(entries)
}

/// Reads a file that is made of entries, one after another and with nothing else. None where the bytes aren't such a file.
///
/// A file's format is an impl of `Entry`. Its reader takes exactly what its printer writes (`IsField`), and takes nothing from
/// no bytes.
pub fn read_all<E: Entry>(alloc: Global, bytes: &[u8]) -> Result<Option<List<E>>, Memory>
    requires field { IsField E.text E.entry_at E.fits }
    requires some { E.entry_at [] ≡ None }
    ensures reads { IfOk result (λ found. ReadsAll E.text E.fits bytes.now found) }
    ensures only { IfOk result (λ found. (es : ListOf E) → SpellsAll E.text E.fits bytes.now es
        → found ≡ Some es) }
{
    match entries_of(alloc, bytes) {
        Ok(entries) => Ok(Some(entries)),
        Err(Stop::Other) => Ok(None),
        Err(Stop::Memory) => Err(Memory),
    }
}
