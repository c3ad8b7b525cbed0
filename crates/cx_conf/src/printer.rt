//! Configurations as text.

ghost use Rattle.std.specs.Prelude.{◌≡◌, ◌++◌, ◌∷◌, [], IfOk, OnOk};
ghost use Rattle.std.specs.List.{flat_map};
ghost use Rattle.cx_text.specs.declared.token.Style.TheVariants as styles;
ghost use Rattle.cx_text.specs.Printing.{printed, HasSpelling, TextSpells};
ghost use Rattle.cx_conf.specs.Conf.{configuration};
ghost use Rattle.cx_conf.specs.Printed.{braced_line, capabilities_line, thorns_line, configuration_tokens};

use crate::Configuration;
use cx_text::{List, Memory, Text, Token, write_tokens};
use std::alloc::Global;

/// Appends a line with a keyword, a name and empty braces.
fn braced_line(
    alloc: Global,
    tokens: &mut List<Token>,
    keyword: &[u8],
    name: &[u8],
) -> Result<(), Memory>
    ensures { OnOk result (tokens.new ≡ tokens.old ++ braced_line keyword.now name.now) }
{
    tokens.push_word(alloc, keyword)?;
    tokens.push_word(alloc, name)?;
    tokens.push_sign(alloc, b'{')?;
    tokens.push_sign(alloc, b'}')?;
    tokens.push_line_end(alloc)
}

/// Appends such a line for each of the names.
fn braced_lines(
    alloc: Global,
    tokens: &mut List<Token>,
    keyword: &[u8],
    names: &[Text],
) -> Result<(), Memory>
    ensures { let lines = flat_map (braced_line keyword.now) names.now in
        OnOk result (tokens.new ≡ tokens.old ++ lines) }
{
    for name in names {
        braced_line(alloc, tokens, keyword, name.as_slice())?;
    }
    Ok(())
}

/// Appends the line of the required capabilities; nothing if there are none.
fn capabilities_line(alloc: Global, tokens: &mut List<Token>, names: &[Text]) -> Result<(), Memory>
    ensures { OnOk result (tokens.new ≡ tokens.old ++ capabilities_line names.now) }
{
    if names.is_empty() {
        return Ok(());
    }
    tokens.push_word(alloc, b"REQUIRES")?;
    tokens.push_words(alloc, names)?;
    tokens.push_line_end(alloc)
}

/// Appends the line of the required thorns; nothing if there are none.
fn thorns_line(alloc: Global, tokens: &mut List<Token>, names: &[Text]) -> Result<(), Memory>
    ensures { OnOk result (tokens.new ≡ tokens.old ++ thorns_line names.now) }
{
    if names.is_empty() {
        return Ok(());
    }
    tokens.push_word(alloc, b"REQUIRES")?;
    tokens.push_word(alloc, b"THORNS")?;
    tokens.push_sign(alloc, b':')?;
    tokens.push_words(alloc, names)?;
    tokens.push_line_end(alloc)
}

/// The tokens of this configuration file.
fn tokens_of(alloc: Global, tree: &Configuration) -> Result<List<Token>, Memory>
    ensures { IfOk result (λ tokens. tokens ≡ configuration_tokens tree.now) }
{
    let mut tokens = List::empty(alloc);
    braced_lines(alloc, &mut tokens, b"PROVIDES", tree.provides.as_slice())?;
    braced_lines(alloc, &mut tokens, b"OPTIONAL", tree.optional.as_slice())?;
    capabilities_line(alloc, &mut tokens, tree.requires_.as_slice())?;
    thorns_line(alloc, &mut tokens, tree.thorns.as_slice())?;
    Ok(tokens)
}

/// A text that spells a configuration, which is one that some text spells: a line for each capability that is
/// provided or optional, with empty braces, and one line for all that are required, and for all thorns. Read again,
/// where it has at most 1,048,576 bytes, it spells the same configuration.
pub fn print_configuration(alloc: Global, tree: &Configuration) -> Result<Text, Memory>
    requires { HasSpelling styles.Ccl configuration.derives tree.now }
    ensures printed { IfOk result (λ text. text ≡ printed (configuration_tokens tree.now)) }
    ensures again { IfOk result (λ text.
        TextSpells styles.Ccl configuration.derives text tree.now) }
{
    let tokens = tokens_of(alloc, tree)?;
    let text = write_tokens(alloc, &tokens)?;
    Ok(text)
}
