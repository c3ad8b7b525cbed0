//! Parameter files as text.

ghost use Rattle.std.specs.Prelude.{◌≡◌, ◌++◌, ◌∷◌, [], IfOk, OnOk, ℕ, List as ListOf};
ghost use Rattle.std.specs.List.{flat_map};
ghost use Rattle.cx_text.specs.Printing.{printed};
ghost use Rattle.cx_text.specs.Written.{quoted, line_end, sign, word};
ghost use Rattle.cx_parfile.specs.Printed.{joined, value_tokens, thorns_line, active_line, full_name, index_tokens, setting_line, settings_tokens, SpelledUnder, SpellsAgain};

use crate::{Setting, Settings};
use cx_text::{List, Memory, Text, Token, write_tokens};
use std::alloc::Global;

/// The thorns, with a blank behind each: the value of `ActiveThorns`.
fn joined(alloc: Global, thorns: &[Text]) -> Result<Text, Memory>
    ensures { IfOk result (λ value. value ≡ joined thorns.now) }
{
    let mut value = Text::from_slice(alloc, b"")?;
    for thorn in thorns {
        value.push_slice(thorn.as_slice())?;
        value.push_slice(b" ")?;
    }
    Ok(value)
}

/// The end of each line: `=`, the value and the line's end.
fn value_tokens(alloc: Global, tokens: &mut List<Token>, value: &[u8]) -> Result<(), Memory>
    ensures { OnOk result (tokens.new ≡ tokens.old ++ value_tokens value.now) }
{
    tokens.push_sign(alloc, b'=')?;
    tokens.push_quoted_text(alloc, value)?;
    tokens.push_line_end(alloc)
}

/// Appends `ActiveThorns` and the thorns as one value.
fn thorns_line(alloc: Global, tokens: &mut List<Token>, thorns: &[Text]) -> Result<(), Memory>
    ensures { OnOk result (tokens.new ≡ tokens.old ++ thorns_line thorns.now) }
{
    let value = joined(alloc, thorns)?;
    tokens.push_word(alloc, b"ActiveThorns")?;
    value_tokens(alloc, tokens, value.as_slice())?;
    Ok(())
}

/// Appends the line of the active thorns; nothing if there are none.
fn active_line(alloc: Global, tokens: &mut List<Token>, thorns: &[Text]) -> Result<(), Memory>
    ensures { OnOk result (tokens.new ≡ tokens.old ++ active_line thorns.now) }
{
    if thorns.is_empty() {
        return Ok(());
    }
    thorns_line(alloc, tokens, thorns)
}

/// The name of a parameter with its owner and `::`, if it has an owner.
fn full_name(alloc: Global, owner: &Option<Text>, name: &[u8]) -> Result<Text, Memory>
    ensures { IfOk result (λ full. full ≡ full_name owner.now name.now) }
{
    match owner {
        Some(owner) => {
            let mut full = Text::from_slice(alloc, owner.as_slice())?;
            full.push_slice(b"::")?;
            full.push_slice(name)?;
            Ok(full)
        }
        None => Text::from_slice(alloc, name),
    }
}

/// Appends the index of an array's element in brackets, if there is one.
fn index_tokens(alloc: Global, tokens: &mut List<Token>, index: Option<u32>) -> Result<(), Memory>
    ensures { OnOk result (tokens.new ≡ tokens.old ++ index_tokens index) }
{
    let Some(index) = index else {
        return Ok(());
    };
    let digits = index.to_string(alloc)?;
    tokens.push_sign(alloc, b'[')?;
    tokens.push_word(alloc, digits.as_bytes())?;
    tokens.push_sign(alloc, b']')
}

/// Appends a setting: parameter, index, value and line end.
fn setting_line(alloc: Global, tokens: &mut List<Token>, setting: &Setting) -> Result<(), Memory>
    ensures { OnOk result (tokens.new ≡ tokens.old ++ setting_line setting.now) }
{
    let full = full_name(alloc, &setting.owner, setting.name.as_slice())?;
    tokens.push_word(alloc, full.as_slice())?;
    index_tokens(alloc, tokens, setting.index)?;
    value_tokens(alloc, tokens, setting.value.as_slice())
}

/// Appends the settings in their order.
fn setting_lines(
    alloc: Global,
    tokens: &mut List<Token>,
    settings: &[Setting],
) -> Result<(), Memory>
    ensures { OnOk result (tokens.new ≡ tokens.old ++ flat_map setting_line settings.now) }
{
    for setting in settings {
        setting_line(alloc, tokens, setting)?;
    }
    Ok(())
}

/// The tokens of this parameter file.
fn tokens_of(alloc: Global, settings: &Settings) -> Result<List<Token>, Memory>
    ensures { IfOk result (λ tokens. tokens ≡ settings_tokens settings.now) }
{
    let mut tokens = List::empty(alloc);
    active_line(alloc, &mut tokens, settings.active.as_slice())?;
    setting_lines(alloc, &mut tokens, settings.list.as_slice())?;
    Ok(tokens)
}

/// A text that spells settings, which are such as some text spells in a file of some base name: one line for all
/// active thorns, if there are any, and a line for each setting, with its value quoted. Read again in a file of that
/// base name, where it has at most 1,048,576 bytes, it spells the same settings, but for their lines.
///
/// # Errors
/// Want of memory alone.
pub fn print_parfile(alloc: Global, settings: &Settings) -> Result<Text, Memory>
    requires { (base : ListOf ℕ) × SpelledUnder base settings.now }
    ensures printed { IfOk result (λ text. text ≡ printed (settings_tokens settings.now)) }
    // Under each base name under which some text spells these settings, this text spells them, but for their lines.
    ensures again { IfOk result (λ text. SpellsAgain text settings.now) }
{
    let tokens = tokens_of(alloc, settings)?;
    let text = write_tokens(alloc, &tokens)?;
    Ok(text)
}
