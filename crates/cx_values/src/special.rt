//! The built-in parameters whose values have rules of their own.

ghost use Rattle.std.specs.Prelude.{◌≡◌, map, codes, IfOk};
ghost use Rattle.std.specs.List.{list_all};
ghost use Rattle.cx_text.specs.Lexemes.{same_name, among};
ghost use Rattle.cx_values.specs.Special.{widths_names, is_width, is_widths, is_misspelled, is_text, is_off, is_stated};

use cx_param::Value;
use cx_text::{Memory, natural_in, parts_between_blanks, same_name};
use std::alloc::Global;

/// The greatest width of a part.
const MAX_WIDTH: u64 = 16_777_216;

/// Whether a part of a text between blanks is a width, or nothing.
fn is_width(word: &[u8]) -> bool
    ensures { result ≡ is_width word.now }
{
    word.is_empty() || natural_in(MAX_WIDTH, word).is_some()
}

/// Whether each part of the text is a width.
fn are_widths(parts: &[&[u8]]) -> bool
    ensures { result ≡ list_all is_width (map (λ x. x.now) parts.now) }
{
    for part in parts {
        if !is_width(part) {
            return false;
        }
    }
    true
}

/// Whether a text is a list of widths with blanks between them.
fn is_widths(alloc: Global, text: &[u8]) -> Result<bool, Memory>
    ensures { IfOk result (λ widths. widths ≡ is_widths text.now) }
{
    let parts = parts_between_blanks(alloc, text)?;
    Ok(are_widths(&parts))
}

/// Whether the values of a parameter are lists of widths: those of the driver for each direction.
fn has_widths(full: &[u8]) -> bool
    ensures { result ≡ among widths_names full.now }
{
    same_name(full, b"driver::widths_x")
        || same_name(full, b"driver::widths_y")
        || same_name(full, b"driver::widths_z")
}

/// Whether the parameter of a full name is one of widths, and a text isn't numbers with blanks between.
pub(crate) fn is_misspelled(alloc: Global, full: &[u8], text: &[u8]) -> Result<bool, Memory>
    ensures { IfOk result (λ misspelled. misspelled ≡ is_misspelled full.now text.now) }
{
    if !has_widths(full) {
        return Ok(false);
    }
    Ok(!is_widths(alloc, text)?)
}

/// Whether a value is this text, byte for byte.
fn is_text(text: &[u8], value: &Value) -> bool
    ensures { result ≡ is_text text.now value.now }
{
    match value {
        Value::Text(other) => text == other.as_slice(),
        Value::Number(_) | Value::Flag(_) => false,
    }
}

/// Whether a value is the flag no.
fn is_off(value: &Value) -> bool
    ensures { result ≡ is_off value.now }
{
    match value {
        Value::Flag(flag) => !*flag,
        Value::Number(_) | Value::Text(_) => false,
    }
}

/// Whether a parameter is the folder of recovery.
pub(crate) fn is_recover_dir(full: &[u8]) -> bool
    ensures { result ≡ same_name full.now (codes "IO::recover_dir") }
{
    same_name(full, b"IO::recover_dir")
}

/// Whether the parameter of a full name may have a value, with `dir` for the folder of checkpoints: the folder of
/// recovery is that folder, and checkpoints have no ID.
pub(crate) fn is_stated(dir: &[u8], full: &[u8], value: &Value) -> bool
    ensures { result ≡ is_stated dir.now full.now value.now }
{
    if is_recover_dir(full) {
        is_text(dir, value)
    } else if same_name(full, b"IO::checkpoint_ID") {
        is_off(value)
    } else {
        true
    }
}
