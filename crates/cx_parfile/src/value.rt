//! Names and values.

ghost use Rattle.std.specs.Prelude.{◌≡◌, map, Some, None, MatchOption, position, filter, not, IfOk, OnOk, nat_eq, length};
ghost use Rattle.std.specs.List.{list_all, list_any, slice_split};
ghost use Rattle.cx_parfile.specs.Values.{is_name_byte, is_name, is_colon, is_empty, alone, owned, named_in, value_in, is_separator, thorns_in, activate, activate_all};
ghost use Rattle.cx_parfile.specs.ParFile.{is_long, name_with};

use crate::reader::Name;
use cx_text::{MAX_NAME, Memory, Text};
use cx_text_names::NameList;
use std::alloc::{AllocError, Global};

/// Whether all bytes are letters, digits or underscores.
fn has_name_bytes(text: &[u8]) -> bool
    ensures { result ≡ list_all is_name_byte text.now }
{
    text.iter()
        .all(|byte| byte.is_ascii_alphanumeric() || *byte == b'_')
}

/// Whether a text can be a name: not empty, of letters, digits and underscores.
fn is_name(text: &[u8]) -> bool
    ensures { result ≡ is_name text.now }
{
    !text.is_empty() && has_name_bytes(text)
}

/// The place of the first colon, where the owner ends.
fn colon_at(text: &[u8]) -> Option<usize>
    ensures { result ≡ position is_colon text.now }
{
    text.iter().position(|byte| *byte == b':')
}

/// A name without an owner, if the text is a name.
fn alone(alloc: Global, text: &[u8], line: u32) -> Result<Option<Name>, Memory>
    ensures { IfOk result (λ name. name ≡ name_with line (alone text.now)) }
{
    if !is_name(text) {
        return Ok(None);
    }
    Ok(Some(Name {
        owner: None,
        name: Text::from_slice(alloc, text)?,
        line,
    }))
}

/// A name with its owner; `rest` is what follows the first colon.
fn owned(alloc: Global, owner: &[u8], rest: &[u8], line: u32) -> Result<Option<Name>, Memory>
    ensures { IfOk result (λ name. name ≡ name_with line (owned owner.now rest.now)) }
{
    match rest {
        [b':', name @ ..] if is_name(owner) && is_name(name) => Ok(Some(Name {
            owner: Some(Text::from_slice(alloc, owner)?),
            name: Text::from_slice(alloc, name)?,
            line,
        })),
        _ => Ok(None),
    }
}

/// The name that a text is, with or without an owner.
pub fn name_in(alloc: Global, text: &[u8], line: u32) -> Result<Option<Name>, Memory>
    ensures { IfOk result (λ name. name ≡ name_with line (named_in text.now)) }
{
    match colon_at(text) {
        None => alone(alloc, text, line),
        Some(colon) => owned(
            alloc,
            text.split_at(colon).0,
            text.split_at(colon + 1).1,
            line,
        ),
    }
}

/// The value that a text stands for, in a file of this base name.
pub fn value_in<'a>(base: &'a [u8], text: &'a [u8]) -> &'a [u8]
    ensures { result.now ≡ value_in base.now text.now }
{
    if text == b"$parfile".as_slice() {
        base
    } else {
        text
    }
}

/// Whether a byte separates thorns: a blank, a tab, a line end or a comma.
fn is_separator(byte: u8) -> bool
    ensures { result ≡ is_separator byte }
{
    matches!(byte, b' ' | b'\t' | b'\r' | b'\n' | b',')
}

/// The parts of a value between separators, empty ones too.
fn parts_of(alloc: Global, text: &[u8]) -> Result<Vec<&[u8]>, AllocError>
    ensures { IfOk result (λ parts. map (λ x. x.now) parts.items
        ≡ slice_split is_separator text.now) }
{
    text.split(|byte| is_separator(*byte)).collect(alloc)
}

/// Whether one of the parts has more than 64 bytes.
fn any_long(parts: &[&[u8]]) -> bool
    ensures { result ≡ list_any is_long (map (λ x. x.now) parts.now) }
{
    for part in parts {
        if part.len() > MAX_NAME {
            return true;
        }
    }
    false
}

/// Whether a thorn's name is too long.
pub fn has_long_thorn(alloc: Global, text: &[u8]) -> Result<bool, Memory>
    ensures { IfOk result (λ long. long ≡ list_any is_long (thorns_in text.now)) }
{
    let parts = parts_of(alloc, text)?;
    Ok(any_long(&parts))
}

/// Adds a thorn to the active ones, unless it is one of them.
fn activate(alloc: Global, active: &mut NameList, thorn: &[u8]) -> Result<(), Memory>
    ensures { OnOk result (active.new ≡ activate active.old thorn.now) }
{
    if active.has(alloc, thorn)? {
        return Ok(());
    }
    active.push(alloc, Text::from_slice(alloc, thorn)?)
}

/// Activates the thorns that the parts name, empty parts left out.
fn activate_all(alloc: Global, active: &mut NameList, parts: &[&[u8]]) -> Result<(), Memory>
    ensures { let names = filter (λ n. not (is_empty n)) (map (λ x. x.now) parts.now) in
        OnOk result (active.new ≡ activate_all active.old names) }
{
    for part in parts {
        if !part.is_empty() {
            activate(alloc, active, part)?;
        }
    }
    Ok(())
}

/// Adds the thorns that a text names and that are not there.
pub fn activate_thorns(alloc: Global, active: &mut NameList, text: &[u8]) -> Result<(), Memory>
    ensures { OnOk result (active.new ≡ activate_all active.old (thorns_in text.now)) }
{
    let parts = parts_of(alloc, text)?;
    activate_all(alloc, active, &parts)
}
