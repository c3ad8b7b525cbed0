//! A checkpoint as bytes.
ghost use Rattle.std.specs.Prelude.{◌≡◌, ◌<◌, ◌^◌, ◌++◌, length, OnOk, IfOk};
ghost use Rattle.std.specs.Int.{w32, w64};
ghost use Rattle.std.specs.List.{zip, AllByRecursion};
ghost use Rattle.cx_chk.specs.Encoding.{IsShort, IsVersion, counted, word, value, level, named_length, outputs, string, slot_bytes};

use crate::Checkpoint;
use cx_text::{List, Memory, Text};
use std::alloc::Global;

/// Adds a text with its length.
fn put_string(out: &mut Vec<u8>, text: &[u8]) -> Result<(), Memory>
    requires few { length text.now < 2 ^ 32 }
    ensures { OnOk result (out.new.items ≡ out.old.items ++ string text.now) }
{
    out.extend_from_slice(&(text.len() as u32).to_be_bytes())?;
    out.extend_from_slice(text)?;
    Ok(())
}

/// Adds numbers with how many they are.
fn put_words(out: &mut Vec<u8>, numbers: &[u64]) -> Result<(), Memory>
    requires few { length numbers.now < 2 ^ 32 }
    ensures { OnOk result (out.new.items ≡ out.old.items ++ counted w32 word numbers.now) }
{
    out.extend_from_slice(&(numbers.len() as u32).to_be_bytes())?;
    'each: for number in numbers {
        out.extend_from_slice(&number.to_be_bytes())?;
    }
    Ok(())
}

/// Adds a name and a length.
fn put_file(out: &mut Vec<u8>, name: &[u8], count: u64) -> Result<(), Memory>
    requires short { length name.now < 2 ^ 32 }
    ensures { OnOk result (out.new.items ≡ out.old.items ++ named_length (name.now, count)) }
{
    put_string(out, name)?;
    out.extend_from_slice(&count.to_be_bytes())?;
    Ok(())
}

/// Adds names and lengths with how many they are.
fn put_named(out: &mut Vec<u8>, names: &[Text], lengths: &[u64]) -> Result<(), Memory>
    requires few { length lengths.now < 2 ^ 32 }
    requires many { length names.now ≡ length lengths.now }
    requires short { AllByRecursion IsShort names.now }
    ensures { OnOk result
        (out.new.items ≡ out.old.items ++ counted w32 named_length (zip names.now lengths.now)) }
{
    out.extend_from_slice(&(names.len() as u32).to_be_bytes())?;
    'each: for k in 0..names.len() {
        put_file(out, names[k].as_slice(), lengths[k])?;
    }
    Ok(())
}

/// Adds the names and lengths of the output files, by the version.
fn put_outputs(
    out: &mut Vec<u8>,
    version: u8,
    names: &[Text],
    lengths: &[u64],
) -> Result<(), Memory>
    requires few { length lengths.now < 2 ^ 32 }
    requires version { IsVersion version names.now lengths.now }
    ensures { OnOk result
        (out.new.items ≡ out.old.items ++ outputs version names.now lengths.now) }
{
    if version == 1 {
        put_words(out, lengths)
    } else {
        put_named(out, names, lengths)
    }
}

/// Adds values with how many they are, in four bytes.
fn put_values(out: &mut Vec<u8>, values: &[i64]) -> Result<(), Memory>
    requires few { length values.now < 2 ^ 32 }
    ensures { OnOk result (out.new.items ≡ out.old.items ++ counted w32 value values.now) }
{
    out.extend_from_slice(&(values.len() as u32).to_be_bytes())?;
    'each: for number in values {
        out.extend_from_slice(&number.to_be_bytes())?;
    }
    Ok(())
}

/// Adds a level.
fn put_level(out: &mut Vec<u8>, values: &[i64]) -> Result<(), Memory>
    ensures { OnOk result (out.new.items ≡ out.old.items ++ level values.now) }
{
    out.extend_from_slice(&(values.len() as u64).to_be_bytes())?;
    'each: for number in values {
        out.extend_from_slice(&number.to_be_bytes())?;
    }
    Ok(())
}

/// Adds levels with how many they are.
fn put_levels(out: &mut Vec<u8>, levels: &[List<i64>]) -> Result<(), Memory>
    requires few { length levels.now < 2 ^ 32 }
    ensures { OnOk result (out.new.items ≡ out.old.items ++ counted w32 level levels.now) }
{
    out.extend_from_slice(&(levels.len() as u32).to_be_bytes())?;
    'each: for values in levels {
        put_level(out, values.as_slice())?;
    }
    Ok(())
}

/// Room for a checkpoint's slot, so that its list of bytes need not grow.
fn room(c: &Checkpoint) -> usize {
    let numbers = c.lengths.len().saturating_add(c.scalars.len());
    let mut room = numbers.saturating_mul(8).saturating_add(c.key.len());
    'each: for values in c.levels.as_slice() {
        room = room.saturating_add(values.len().saturating_mul(8).saturating_add(8));
    }
    'names: for name in c.names.as_slice() {
        room = room.saturating_add(name.as_slice().len().saturating_add(4));
    }
    room.saturating_add(64)
}

/// The bytes of a checkpoint's slot, with its gate open. The key and the lists have fewer than 2^32 items each. Version 1 has
/// no names, and version 2 as many as lengths, each of fewer than 2^32 bytes.
pub fn encode(alloc: Global, c: &Checkpoint) -> Result<Text, Memory>
    requires version { IsVersion c.now.version c.now.names c.now.lengths }
    requires key { length c.now.key < 2 ^ 32 }
    requires lengths { length c.now.lengths < 2 ^ 32 }
    requires scalars { length c.now.scalars < 2 ^ 32 }
    requires levels { length c.now.levels < 2 ^ 32 }
    ensures { IfOk result (λ bytes. bytes ≡ slot_bytes c.now) }
{
    let mut out = Vec::with_capacity(alloc, room(c))?;
    out.extend_from_slice(b"\x01CXCHKPT")?;
    out.push(c.version)?;
    out.extend_from_slice(&c.iteration.to_be_bytes())?;
    put_string(&mut out, c.key.as_slice())?;
    put_outputs(
        &mut out,
        c.version,
        c.names.as_slice(),
        c.lengths.as_slice(),
    )?;
    put_values(&mut out, c.scalars.as_slice())?;
    put_levels(&mut out, c.levels.as_slice())?;
    Ok(Text::new(out))
}
