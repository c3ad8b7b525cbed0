//! Declarations as text.

ghost use Rattle.std.specs.Prelude.{◌≡◌, [], ◌∷◌, ◌++◌, IfOk};
ghost use Rattle.cx_text.specs.Written.{word, sign, line_end};
ghost use Rattle.cx_text.specs.declared.token.Style.TheVariants as styles;
ghost use Rattle.cx_text.specs.Printing.{printed, HasSpelling, TextSpells};
ghost use Rattle.cx_param.specs.declared.declarations.Scope.TheVariants.{Uses, Extends};
ghost use Rattle.cx_param.specs.Params.{params};
ghost use Rattle.cx_param.specs.Printed.{signed, bound, step, opening, closing, range, each_range, block, shared_block, type_name, length, alias, steer_name, steering, heading, access, default, body, decl, decls as decl_tokens};

use crate::{PType, ParamDecl, Range, Scope, Steer};
use cx_text::{List, Memory, Text, Token, write_tokens};
use std::alloc::Global;

/// Appends a number with its sign.
fn push_signed(tokens: &mut List<Token>, alloc: Global, n: i64) -> Result<(), Memory>
    ensures { IfOk result (λ x. tokens.new ≡ tokens.old ++ signed n) }
{
    if n < 0 {
        tokens.push_sign(alloc, b'-')?;
        tokens.push_number(alloc, n.unsigned_abs())
    } else {
        tokens.push_number(alloc, n.unsigned_abs())
    }
}

/// Appends an end of a range; `*` where there is no bound.
fn push_bound(tokens: &mut List<Token>, alloc: Global, end: Option<i64>) -> Result<(), Memory>
    ensures { IfOk result (λ x. tokens.new ≡ tokens.old ++ bound end) }
{
    match end {
        None => tokens.push_sign(alloc, b'*'),
        Some(n) => push_signed(tokens, alloc, n),
    }
}

/// Appends a colon and the step of a range; nothing for a step of 1.
fn push_step(tokens: &mut List<Token>, alloc: Global, n: u64) -> Result<(), Memory>
    ensures { IfOk result (λ x. tokens.new ≡ tokens.old ++ step n) }
{
    if n == 1 {
        return Ok(());
    }
    tokens.push_sign(alloc, b':')?;
    tokens.push_number(alloc, n)
}

/// Appends `[` before a low end that is in the range, else `(`.
fn push_opening(tokens: &mut List<Token>, alloc: Global, is_in: bool) -> Result<(), Memory>
    ensures { IfOk result (λ x. tokens.new ≡ tokens.old ++ opening is_in ∷ []) }
{
    if is_in {
        tokens.push_sign(alloc, b'[')
    } else {
        tokens.push_sign(alloc, b'(')
    }
}

/// Appends `]` after a high end that is in the range, else `)`.
fn push_closing(tokens: &mut List<Token>, alloc: Global, is_in: bool) -> Result<(), Memory>
    ensures { IfOk result (λ x. tokens.new ≡ tokens.old ++ closing is_in ∷ []) }
{
    if is_in {
        tokens.push_sign(alloc, b']')
    } else {
        tokens.push_sign(alloc, b')')
    }
}

/// Appends a range: both ends in brackets, a quoted text, or tokens that were kept.
fn push_range(tokens: &mut List<Token>, alloc: Global, item: &Range) -> Result<(), Memory>
    ensures { IfOk result (λ x. tokens.new ≡ tokens.old ++ range item.now) }
{
    match item {
        Range::Ints {
            low,
            low_in,
            high,
            high_in,
            step,
        } => {
            push_opening(tokens, alloc, *low_in)?;
            push_bound(tokens, alloc, *low)?;
            tokens.push_sign(alloc, b':')?;
            push_bound(tokens, alloc, *high)?;
            push_step(tokens, alloc, *step)?;
            push_closing(tokens, alloc, *high_in)
        }
        Range::Word(text) => tokens.push_quoted_text(alloc, text.as_slice()),
        Range::AnyText => tokens.push_quoted_text(alloc, b".*"),
        Range::SomeText => tokens.push_quoted_text(alloc, b".+"),
        Range::Other(others) => tokens.push_copies(alloc, others.as_slice()),
    }
}

/// Appends the ranges in order, with nothing between them.
fn push_ranges(tokens: &mut List<Token>, alloc: Global, items: &[Range]) -> Result<(), Memory>
    ensures { IfOk result (λ x. tokens.new ≡ tokens.old ++ each_range items.now) }
{
    for item in items {
        push_range(tokens, alloc, item)?;
    }
    Ok(())
}

/// Appends the ranges in braces.
fn push_block(tokens: &mut List<Token>, alloc: Global, items: &[Range]) -> Result<(), Memory>
    ensures { IfOk result (λ x. tokens.new ≡ tokens.old ++ block items.now) }
{
    tokens.push_sign(alloc, b'{')?;
    push_ranges(tokens, alloc, items)?;
    tokens.push_sign(alloc, b'}')
}

/// Appends the block of a use or an extension; nothing if it has no ranges.
fn push_shared_block(tokens: &mut List<Token>, alloc: Global, items: &[Range]) -> Result<(), Memory>
    ensures { IfOk result (λ x. tokens.new ≡ tokens.old ++ shared_block items.now) }
{
    match items {
        [] => Ok(()),
        [_, ..] => push_block(tokens, alloc, items),
    }
}

/// The word that names the type in a param file.
fn type_name(ptype: PType) -> &'static [u8]
    ensures { result.now ≡ type_name ptype }
{
    match ptype {
        PType::Boolean => b"BOOLEAN",
        PType::Int => b"INT",
        PType::Keyword => b"KEYWORD",
        PType::String => b"STRING",
        PType::Real => b"REAL",
    }
}

/// Appends an array length in square brackets; nothing if the parameter is no array.
fn push_length(tokens: &mut List<Token>, alloc: Global, count: Option<u32>) -> Result<(), Memory>
    ensures { IfOk result (λ x. tokens.new ≡ tokens.old ++ length count) }
{
    match count {
        None => Ok(()),
        Some(n) => {
            tokens.push_sign(alloc, b'[')?;
            tokens.push_number(alloc, u64::from(n))?;
            tokens.push_sign(alloc, b']')
        }
    }
}

/// Appends `AS` and the alias, if there is one.
fn push_alias(tokens: &mut List<Token>, alloc: Global, name: &Option<Text>) -> Result<(), Memory>
    ensures { IfOk result (λ x. tokens.new ≡ tokens.old ++ alias name.now) }
{
    match name {
        None => Ok(()),
        Some(name) => {
            tokens.push_word(alloc, b"AS")?;
            tokens.push_word(alloc, name.as_slice())
        }
    }
}

/// The word for when a parameter may be steered.
fn steer_name(steer: Steer) -> &'static [u8]
    ensures { result.now ≡ steer_name steer }
{
    match steer {
        Steer::Never => b"NEVER",
        Steer::Always => b"ALWAYS",
        Steer::Recover => b"RECOVER",
    }
}

/// A word, an equals sign and a word.
fn push_setting(
    tokens: &mut List<Token>,
    alloc: Global,
    name: &[u8],
    value: &[u8],
) -> Result<(), Memory>
    ensures { IfOk result (λ x. tokens.new ≡
        tokens.old ++ word name.now ∷ sign 61 ∷ word value.now ∷ []) }
{
    tokens.push_word(alloc, name)?;
    tokens.push_sign(alloc, b'=')?;
    tokens.push_word(alloc, value)
}

/// Appends the `STEERABLE` clause, with `NEVER` too.
fn push_steering(tokens: &mut List<Token>, alloc: Global, steer: Steer) -> Result<(), Memory>
    ensures { IfOk result (λ x. tokens.new ≡ tokens.old ++ steering steer) }
{
    push_setting(tokens, alloc, b"STEERABLE", steer_name(steer))
}

/// Appends type, name, array length, alias and steering, all that comes before the block.
fn push_heading(tokens: &mut List<Token>, alloc: Global, item: &ParamDecl) -> Result<(), Memory>
    ensures { IfOk result (λ x. tokens.new ≡ tokens.old ++ heading item.now) }
{
    tokens.push_word(alloc, type_name(item.ptype))?;
    tokens.push_word(alloc, item.name.as_slice())?;
    push_length(tokens, alloc, item.length)?;
    push_alias(tokens, alloc, &item.alias)?;
    push_steering(tokens, alloc, item.steer)
}

/// A line NAME, colon.
fn push_section(tokens: &mut List<Token>, alloc: Global, name: &[u8]) -> Result<(), Memory>
    ensures { IfOk result (λ x. tokens.new ≡
        tokens.old ++ word name.now ∷ sign 58 ∷ line_end ∷ []) }
{
    tokens.push_word(alloc, name)?;
    tokens.push_sign(alloc, b':')?;
    tokens.push_line_end(alloc)
}

/// A line that names an implementation, and then a word.
fn push_shared(
    tokens: &mut List<Token>,
    alloc: Global,
    line: &[u8],
    name: &[u8],
    kind: &[u8],
) -> Result<(), Memory>
    ensures { IfOk result (λ x. tokens.new ≡
        tokens.old ++ word line.now ∷ sign 58 ∷ word name.now ∷ line_end ∷ word kind.now ∷ []) }
{
    tokens.push_word(alloc, line)?;
    tokens.push_sign(alloc, b':')?;
    tokens.push_word(alloc, name)?;
    tokens.push_line_end(alloc)?;
    tokens.push_word(alloc, kind)
}

/// Appends `shares:`, the implementation, a line end and `EXTENDS`.
fn push_extends(tokens: &mut List<Token>, alloc: Global, name: &Text) -> Result<(), Memory>
    ensures { IfOk result (λ x. tokens.new ≡ tokens.old ++ access (Extends name.now)) }
{
    push_shared(tokens, alloc, b"shares", name.as_slice(), b"EXTENDS")
}

/// Appends `shares:`, the implementation, a line end and `USES`.
fn push_uses(tokens: &mut List<Token>, alloc: Global, name: &Text) -> Result<(), Memory>
    ensures { IfOk result (λ x. tokens.new ≡ tokens.old ++ access (Uses name.now)) }
{
    push_shared(tokens, alloc, b"shares", name.as_slice(), b"USES")
}

/// Appends the access line of one declaration.
fn push_access(tokens: &mut List<Token>, alloc: Global, scope: &Scope) -> Result<(), Memory>
    ensures { IfOk result (λ x. tokens.new ≡ tokens.old ++ access scope.now) }
{
    match scope {
        Scope::Private => push_section(tokens, alloc, b"private"),
        Scope::Restricted => push_section(tokens, alloc, b"restricted"),
        Scope::Global => push_section(tokens, alloc, b"global"),
        Scope::Uses(name) => push_uses(tokens, alloc, name),
        Scope::Extends(name) => push_extends(tokens, alloc, name),
    }
}

/// Appends a default in quotes, but that of a `REAL` parameter as it is.
fn push_default(
    tokens: &mut List<Token>,
    alloc: Global,
    ptype: PType,
    text: &Text,
) -> Result<(), Memory>
    ensures { IfOk result (λ x. tokens.new ≡ tokens.old ++ default ptype text.now ∷ []) }
{
    match ptype {
        PType::Real => tokens.push_word(alloc, text.as_slice()),
        PType::Boolean | PType::Int | PType::Keyword | PType::String => {
            tokens.push_quoted_text(alloc, text.as_slice())
        }
    }
}

/// Appends block and default. A use or an extension has no default and may have no block.
fn push_body(tokens: &mut List<Token>, alloc: Global, item: &ParamDecl) -> Result<(), Memory>
    ensures { IfOk result (λ x. tokens.new ≡
        tokens.old ++ body item.now.ptype item.now.ranges item.now.default) }
{
    match &item.default {
        None => push_shared_block(tokens, alloc, item.ranges.as_slice()),
        Some(text) => {
            push_block(tokens, alloc, item.ranges.as_slice())?;
            push_default(tokens, alloc, item.ptype, text)
        }
    }
}

/// Appends a declaration with its access line.
fn push_decl(tokens: &mut List<Token>, alloc: Global, item: &ParamDecl) -> Result<(), Memory>
    ensures { IfOk result (λ x. tokens.new ≡ tokens.old ++ decl item.now) }
{
    push_access(tokens, alloc, &item.scope)?;
    push_heading(tokens, alloc, item)?;
    push_body(tokens, alloc, item)?;
    tokens.push_line_end(alloc)
}

/// Appends the declarations in order, each with an access line of its own.
fn push_decls(tokens: &mut List<Token>, alloc: Global, items: &[ParamDecl]) -> Result<(), Memory>
    ensures { IfOk result (λ x. tokens.new ≡ tokens.old ++ decl_tokens items.now) }
{
    for item in items {
        push_decl(tokens, alloc, item)?;
    }
    Ok(())
}

/// The tokens of a param file that has these declarations.
fn tokens_of(alloc: Global, items: &[ParamDecl]) -> Result<List<Token>, Memory>
    ensures { IfOk result (λ tokens. tokens ≡ decl_tokens items.now) }
{
    let mut tokens = List::empty(alloc);
    push_decls(&mut tokens, alloc, items)?;
    Ok(tokens)
}

/// A text that spells declarations, which are such as some text spells: each behind its access line, on a line of its
/// own, with both ends of each range of numbers in brackets, and with its default in quotes, but that of a `REAL` as it
/// stands. Descriptions are lost. Read again, where it has at most 1,048,576 bytes, it spells the same declarations.
///
/// # Errors
/// Want of memory alone.
pub fn print_params(alloc: Global, decls: &List<ParamDecl>) -> Result<Text, Memory>
    requires { HasSpelling styles.Ccl params.derives decls.now }
    // The text is what printing gives of their tokens.
    ensures printed { IfOk result (λ text. text ≡ printed (decl_tokens decls.now)) }
    ensures again { IfOk result (λ text. TextSpells styles.Ccl params.derives text decls.now) }
{
    let tokens = tokens_of(alloc, decls.as_slice())?;
    let text = write_tokens(alloc, &tokens)?;
    Ok(text)
}
