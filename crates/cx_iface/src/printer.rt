//! Interface files as text.

ghost use Rattle.std.specs.Prelude.{◌≡◌, ◌++◌, IfOk, OnOk, map};
ghost use Rattle.std.specs.List.{flat_map};
ghost use Rattle.cx_text.specs.declared.token.Style.TheVariants as styles;
ghost use Rattle.cx_text.specs.Lexemes.{kept};
ghost use Rattle.cx_text.specs.Printing.{printed, HasSpelling, TextSpells};
ghost use Rattle.cx_iface.specs.File.{interface};
ghost use Rattle.cx_iface.specs.Printed.{access_word, ctype_word, gtype_word, header, name_line, headers, opening, copies, numbered, effects, block, group, line, interface_tokens};

use crate::{Access, GType, Group, Interface};
use cx_text::{CType, List, Memory, Text, Token, write_tokens};
use std::alloc::Global;

/// Appends tokens that were kept.
fn push_kept(tokens: &mut List<Token>, alloc: Global, others: &[Token]) -> Result<(), Memory>
    ensures { OnOk result (tokens.new ≡ tokens.old ++ map kept others.now) }
{
    for other in others {
        tokens.push(other.kept_copy(alloc)?)?;
    }
    Ok(())
}

/// The word of the access line for groups of this access.
fn access_word(access: Access) -> &'static [u8]
    ensures { result.now ≡ access_word access }
{
    match access {
        Access::Public => b"PUBLIC",
        Access::Protected => b"PROTECTED",
        Access::Private => b"PRIVATE",
    }
}

/// The word for a type of variables.
fn ctype_word(ctype: CType) -> &'static [u8]
    ensures { result.now ≡ ctype_word ctype }
{
    match ctype {
        CType::Char => b"CCTK_CHAR",
        CType::Byte => b"CCTK_BYTE",
        CType::Int => b"CCTK_INT",
        CType::Int2 => b"CCTK_INT2",
        CType::Int4 => b"CCTK_INT4",
        CType::Int8 => b"CCTK_INT8",
        CType::Real => b"CCTK_REAL",
        CType::Complex => b"CCTK_COMPLEX",
    }
}

/// The word for a kind of groups.
fn gtype_word(gtype: GType) -> &'static [u8]
    ensures { result.now ≡ gtype_word gtype }
{
    match gtype {
        GType::Gf => b"GF",
        GType::Array => b"ARRAY",
        GType::Scalar => b"SCALAR",
    }
}

/// A keyword, a colon and names on a line.
fn header(
    tokens: &mut List<Token>,
    alloc: Global,
    keyword: &[u8],
    names: &[Text],
) -> Result<(), Memory>
    ensures { OnOk result (tokens.new ≡ tokens.old ++ header keyword.now names.now) }
{
    tokens.push_word(alloc, keyword)?;
    tokens.push_sign(alloc, b':')?;
    tokens.push_words(alloc, names)?;
    tokens.push_line_end(alloc)
}

/// A keyword, a colon and one name on a line.
fn name_line(
    tokens: &mut List<Token>,
    alloc: Global,
    keyword: &[u8],
    name: &[u8],
) -> Result<(), Memory>
    ensures { OnOk result (tokens.new ≡ tokens.old ++ name_line keyword.now name.now) }
{
    tokens.push_word(alloc, keyword)?;
    tokens.push_sign(alloc, b':')?;
    tokens.push_word(alloc, name)?;
    tokens.push_line_end(alloc)
}

/// Appends the `IMPLEMENTS`, `INHERITS` and `FRIEND` lines.
fn headers(tokens: &mut List<Token>, alloc: Global, tree: &Interface) -> Result<(), Memory>
    ensures { OnOk result (tokens.new ≡ tokens.old ++ headers tree.now) }
{
    name_line(tokens, alloc, b"IMPLEMENTS", tree.implements.as_slice())?;
    header(tokens, alloc, b"INHERITS", tree.inherits.as_slice())?;
    header(tokens, alloc, b"FRIEND", tree.friends.as_slice())?;
    Ok(())
}

/// Appends the access line, the type and the name of a group.
fn opening(tokens: &mut List<Token>, alloc: Global, group: &Group) -> Result<(), Memory>
    ensures { OnOk result (tokens.new ≡ tokens.old ++ opening group.now) }
{
    tokens.push_word(alloc, access_word(group.access))?;
    tokens.push_sign(alloc, b':')?;
    tokens.push_word(alloc, ctype_word(group.ctype))?;
    tokens.push_word(alloc, group.name.as_slice())
}

/// Appends the number of copies in brackets, if the group is a vector group.
fn copies(tokens: &mut List<Token>, alloc: Global, count: Option<u32>) -> Result<(), Memory>
    ensures { OnOk result (tokens.new ≡ tokens.old ++ copies count) }
{
    match count {
        Some(count) => {
            tokens.push_sign(alloc, b'[')?;
            tokens.push_number(alloc, u64::from(count))?;
            tokens.push_sign(alloc, b']')
        }
        None => Ok(()),
    }
}

/// A keyword with a number.
fn numbered(
    tokens: &mut List<Token>,
    alloc: Global,
    keyword: &[u8],
    value: u8,
) -> Result<(), Memory>
    ensures { OnOk result (tokens.new ≡ tokens.old ++ numbered keyword.now value) }
{
    tokens.push_word(alloc, keyword)?;
    tokens.push_sign(alloc, b'=')?;
    tokens.push_number(alloc, u64::from(value))
}

/// Appends the attributes that have an effect: kind, dimension and time levels.
fn effects(tokens: &mut List<Token>, alloc: Global, group: &Group) -> Result<(), Memory>
    ensures { OnOk result (tokens.new ≡ tokens.old ++ effects group.now) }
{
    tokens.push_word(alloc, b"TYPE")?;
    tokens.push_sign(alloc, b'=')?;
    tokens.push_word(alloc, gtype_word(group.gtype))?;
    numbered(tokens, alloc, b"DIM", group.dim)?;
    numbered(tokens, alloc, b"TIMELEVELS", group.levels)
}

/// Appends the variables of a group in braces, and its description.
fn block(tokens: &mut List<Token>, alloc: Global, group: &Group) -> Result<(), Memory>
    ensures { OnOk result (tokens.new ≡ tokens.old ++ block group.now) }
{
    tokens.push_sign(alloc, b'{')?;
    tokens.push_words(alloc, group.variables.as_slice())?;
    tokens.push_sign(alloc, b'}')?;
    tokens.push_quoted_text(alloc, group.text.as_slice())?;
    tokens.push_line_end(alloc)
}

/// Appends a whole group with its own access line.
fn group(tokens: &mut List<Token>, alloc: Global, one: &Group) -> Result<(), Memory>
    ensures { OnOk result (tokens.new ≡ tokens.old ++ group one.now) }
{
    opening(tokens, alloc, one)?;
    copies(tokens, alloc, one.copies)?;
    effects(tokens, alloc, one)?;
    push_kept(tokens, alloc, one.rest.as_slice())?;
    block(tokens, alloc, one)
}

/// Appends all groups in their order.
fn groups(tokens: &mut List<Token>, alloc: Global, groups: &[Group]) -> Result<(), Memory>
    ensures { OnOk result (tokens.new ≡ tokens.old ++ flat_map group groups.now) }
{
    for one in groups {
        group(tokens, alloc, one)?;
    }
    Ok(())
}

/// Appends a line that was kept, and its line end.
fn line(tokens: &mut List<Token>, alloc: Global, others: &[Token]) -> Result<(), Memory>
    ensures { OnOk result (tokens.new ≡ tokens.old ++ line others.now) }
{
    push_kept(tokens, alloc, others)?;
    tokens.push_line_end(alloc)
}

/// Appends all lines that were kept, in their order.
fn lines(tokens: &mut List<Token>, alloc: Global, others: &[List<Token>]) -> Result<(), Memory>
    ensures { OnOk result (tokens.new ≡ tokens.old ++ flat_map line others.now) }
{
    for other in others {
        line(tokens, alloc, other.as_slice())?;
    }
    Ok(())
}

/// The tokens of this interface file: lines that were kept, headers and groups.
fn tokens_of(alloc: Global, tree: &Interface) -> Result<List<Token>, Memory>
    ensures { IfOk result (λ tokens. tokens ≡ interface_tokens tree.now) }
{
    let mut tokens = List::empty(alloc);
    lines(&mut tokens, alloc, tree.others.as_slice())?;
    headers(&mut tokens, alloc, tree)?;
    groups(&mut tokens, alloc, tree.groups.as_slice())?;
    Ok(tokens)
}

/// A text that spells an interface, which is one that some text spells: the lines that are kept, a line for each header,
/// and a line for each group, with its access before it and its variables in braces. Read again, where it has at most
/// 1,048,576 bytes, it spells the same interface.
///
/// # Errors
/// Want of memory alone.
pub fn print_interface(alloc: Global, tree: &Interface) -> Result<Text, Memory>
    requires { HasSpelling styles.Ccl interface tree.now }
    ensures printed { IfOk result (λ text. text ≡ printed (interface_tokens tree.now)) }
    ensures again { IfOk result (λ text. TextSpells styles.Ccl interface text tree.now) }
{
    let tokens = tokens_of(alloc, tree)?;
    let text = write_tokens(alloc, &tokens)?;
    Ok(text)
}
