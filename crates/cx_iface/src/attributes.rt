//! The attributes of a group.

ghost use Rattle.std.specs.Prelude.{◌≡◌, ◌||◌};
ghost use Rattle.cx_text.specs.Grammar.{passes, head};
ghost use Rattle.cx_text.specs.Rules.{Obeys, Builds, token, lexeme, loop, unmarked, is_sign, is_named};
ghost use Rattle.cx_text.specs.Lexemes.{first_mark, kept_if, number_in};
ghost use Rattle.cx_text.specs.declared.stop.Mark.TheVariants as marks;
ghost use Rattle.cx_iface.specs.Words.{gtype_of};
ghost use Rattle.cx_iface.specs.Attributes.{keep, keep_once, is_distribution, is_size, has_form, more_sizes, sizes, type_, dim, levels, distrib, size, ghostsize, tags, has_effect, has_none, is_attribute, effective, idle, attribute};

use crate::GType;
use crate::words::gtype_of;
use cx_text::{Kind, List, Mark, Reader, Stop, Token, Why};
use std::alloc::Global;

/// The attributes of a group that are read so far. Those without effect are in `rest`, token by token.
#[derive(Drop)]
pub struct Attributes {
    pub gtype: Option<GType>,
    pub dim: Option<u8>,
    pub levels: Option<u8>,
    pub distrib: bool,
    pub size: bool,
    pub ghostsize: bool,
    pub tags: bool,
    pub rest: List<Token>,
}

/// What a token must be that is kept.
#[derive(Clone, Copy, Drop)]
enum Kept {
    Sign(u8),
    Distribution,
    Size,
    Quoted,
}

/// Whether a token names a distribution: `DEFAULT` or `CONSTANT`.
fn is_distribution(token: &Token) -> bool
    ensures { result ≡ is_distribution token.now }
{
    token.is_named(b"DEFAULT") || token.is_named(b"CONSTANT")
}

/// Whether a token can be a size: a word or a number.
fn is_size(token: &Token) -> bool
    ensures { result ≡ is_size token.now }
{
    matches!(token.kind, Kind::Word | Kind::Number)
}

/// Whether a token is a quoted text.
fn is_quoted(token: &Token) -> bool
    ensures { result ≡ has_form Kept.Quoted token.now }
{
    matches!(token.kind, Kind::Quoted)
}

/// Whether a token is what an attribute without effect may have at this place.
fn has_form(form: Kept, token: &Token) -> bool
    ensures { result ≡ has_form form token.now }
{
    match form {
        Kept::Sign(byte) => token.is_sign(byte),
        Kept::Distribution => is_distribution(token),
        Kept::Size => is_size(token),
        Kept::Quoted => is_quoted(token),
    }
}

/// Reads a token of this form and keeps it, but no line end after it.
fn kept_here(reader: &mut Reader, alloc: Global, form: Kept) -> Result<Token, Stop>
    ensures { Obeys (token (kept_if (has_form form)) unmarked) result reader.old reader.new }
{
    match reader.rest {
        [token, rest @ ..] if has_form(form, token) => {
            let kept = token.kept_copy(alloc)?;
            reader.rest = rest;
            Ok(kept)
        }
        _ => Err(Stop::Fault(Why::Unexpected)),
    }
}

/// A token of a form, kept behind the others.
fn keep(
    reader: &mut Reader,
    alloc: Global,
    form: Kept,
    tokens: &mut List<Token>,
) -> Result<(), Stop>
    ensures { Builds (keep (has_form form) unmarked tokens.old) tokens.new
        result reader.old reader.new }
{
    let token = kept_here(reader, alloc, form)?;
    reader.skip_line_ends();
    tokens.push(token)?;
    Ok(())
}

/// Reads the name of an attribute and keeps it. It is a fault if the group has the attribute already.
fn once_here(reader: &mut Reader, alloc: Global, name: &[u8], seen: bool) -> Result<Token, Stop>
    ensures { Obeys (token (kept_if (is_named name.now)) (λ t. first_mark seen marks.Repeated None))
        result reader.old reader.new }
{
    match reader.rest {
        [token, rest @ ..] if token.is_named(name) => {
            if seen {
                return Err(Stop::Fault(Why::Marked(Mark::Repeated)));
            }
            let kept = token.kept_copy(alloc)?;
            reader.rest = rest;
            Ok(kept)
        }
        _ => Err(Stop::Fault(Why::Unexpected)),
    }
}

/// A keyword that may stand once, kept behind the others.
fn keep_once(
    reader: &mut Reader,
    alloc: Global,
    name: &[u8],
    seen: bool,
    tokens: &mut List<Token>,
) -> Result<(), Stop>
    ensures { Builds (keep_once name.now seen tokens.old) tokens.new result reader.old reader.new }
{
    let token = once_here(reader, alloc, name, seen)?;
    reader.skip_line_ends();
    tokens.push(token)?;
    Ok(())
}

/// Reads and keeps a comma and the size after it.
fn more_sizes(reader: &mut Reader, alloc: Global, tokens: &mut List<Token>) -> Result<(), Stop>
    ensures { Builds (more_sizes tokens.old) tokens.new result reader.old reader.new }
{
    keep(reader, alloc, Kept::Sign(b','), tokens)?;
    keep(reader, alloc, Kept::Size, tokens)
}

/// Reads and keeps further sizes, each after a comma.
fn sizes_after(reader: &mut Reader, alloc: Global, tokens: &mut List<Token>) -> Result<(), Stop>
    ensures { Builds (loop (is_sign 44) more_sizes tokens.old) tokens.new
        result reader.old reader.new }
{
    'sizes: while reader.at_sign(b',') {
        more_sizes(reader, alloc, tokens)?;
    }
    Ok(())
}

/// Words or numbers with commas between, kept behind the others.
fn sizes(reader: &mut Reader, alloc: Global, tokens: &mut List<Token>) -> Result<(), Stop>
    ensures { Builds (sizes tokens.old) tokens.new result reader.old reader.new }
{
    keep(reader, alloc, Kept::Size, tokens)?;
    sizes_after(reader, alloc, tokens)
}

/// Reads a kind of groups, but no line end after it.
fn gtype_here(reader: &mut Reader) -> Result<GType, Stop>
    ensures { Obeys (token gtype_of unmarked) result reader.old reader.new }
{
    match reader.rest {
        [token, rest @ ..] => match gtype_of(token) {
            Some(gtype) => {
                reader.rest = rest;
                Ok(gtype)
            }
            None => Err(Stop::Fault(Why::Unexpected)),
        },
        [] => Err(Stop::Fault(Why::Unexpected)),
    }
}

/// Reads a kind of groups: grid functions, arrays or scalars.
fn gtype(reader: &mut Reader) -> Result<GType, Stop>
    ensures { Obeys (lexeme gtype_of unmarked) result reader.old reader.new }
{
    let gtype = gtype_here(reader)?;
    reader.skip_line_ends();
    Ok(gtype)
}

/// A number from 1 to `high`.
pub fn small(reader: &mut Reader, high: u8) -> Result<u8, Stop>
    ensures { Obeys (number_in 1 high) result reader.old reader.new }
{
    let number = reader.number_in(1, u64::from(high))?;
    Ok(number as u8)
}

/// Reads `TYPE =` and a kind, which a group has at most once.
fn type_(reader: &mut Reader, attributes: &mut Attributes) -> Result<(), Stop>
    ensures { Builds (type_ attributes.old) attributes.new result reader.old reader.new }
{
    reader.once(b"TYPE", attributes.gtype.is_some())?;
    reader.sign(b'=')?;
    attributes.gtype = Some(gtype(reader)?);
    Ok(())
}

/// Reads `DIM =` and a number from 1 to 3, which a group has at most once.
fn dim(reader: &mut Reader, attributes: &mut Attributes) -> Result<(), Stop>
    ensures { Builds (dim attributes.old) attributes.new result reader.old reader.new }
{
    reader.once(b"DIM", attributes.dim.is_some())?;
    reader.sign(b'=')?;
    attributes.dim = Some(small(reader, 3)?);
    Ok(())
}

/// Reads `TIMELEVELS =` and a number from 1 to 8, which a group has at most once.
fn levels(reader: &mut Reader, attributes: &mut Attributes) -> Result<(), Stop>
    ensures { Builds (levels attributes.old) attributes.new result reader.old reader.new }
{
    reader.once(b"TIMELEVELS", attributes.levels.is_some())?;
    reader.sign(b'=')?;
    attributes.levels = Some(small(reader, 8)?);
    Ok(())
}

/// Reads and keeps `DISTRIB =` and a distribution, which has no effect.
fn distrib(reader: &mut Reader, alloc: Global, attributes: &mut Attributes) -> Result<(), Stop>
    ensures { Builds (distrib attributes.old) attributes.new result reader.old reader.new }
{
    keep_once(
        reader,
        alloc,
        b"DISTRIB",
        attributes.distrib,
        &mut attributes.rest,
    )?;
    keep(reader, alloc, Kept::Sign(b'='), &mut attributes.rest)?;
    keep(reader, alloc, Kept::Distribution, &mut attributes.rest)?;
    attributes.distrib = true;
    Ok(())
}

/// Reads and keeps `SIZE =` and sizes, which have no effect.
fn size(reader: &mut Reader, alloc: Global, attributes: &mut Attributes) -> Result<(), Stop>
    ensures { Builds (size attributes.old) attributes.new result reader.old reader.new }
{
    keep_once(
        reader,
        alloc,
        b"SIZE",
        attributes.size,
        &mut attributes.rest,
    )?;
    keep(reader, alloc, Kept::Sign(b'='), &mut attributes.rest)?;
    sizes(reader, alloc, &mut attributes.rest)?;
    attributes.size = true;
    Ok(())
}

/// Reads and keeps `GHOSTSIZE =` and sizes, which have no effect.
fn ghostsize(reader: &mut Reader, alloc: Global, attributes: &mut Attributes) -> Result<(), Stop>
    ensures { Builds (ghostsize attributes.old) attributes.new result reader.old reader.new }
{
    keep_once(
        reader,
        alloc,
        b"GHOSTSIZE",
        attributes.ghostsize,
        &mut attributes.rest,
    )?;
    keep(reader, alloc, Kept::Sign(b'='), &mut attributes.rest)?;
    sizes(reader, alloc, &mut attributes.rest)?;
    attributes.ghostsize = true;
    Ok(())
}

/// Reads and keeps `TAGS =` and a quoted text, which has no effect.
fn tags(reader: &mut Reader, alloc: Global, attributes: &mut Attributes) -> Result<(), Stop>
    ensures { Builds (tags attributes.old) attributes.new result reader.old reader.new }
{
    keep_once(
        reader,
        alloc,
        b"TAGS",
        attributes.tags,
        &mut attributes.rest,
    )?;
    keep(reader, alloc, Kept::Sign(b'='), &mut attributes.rest)?;
    keep(reader, alloc, Kept::Quoted, &mut attributes.rest)?;
    attributes.tags = true;
    Ok(())
}

/// Whether a token begins an attribute that has an effect: `TYPE`, `DIM` or `TIMELEVELS`.
fn has_effect(token: &Token) -> bool
    ensures { result ≡ has_effect token.now }
{
    token.is_named(b"TYPE") || token.is_named(b"DIM") || token.is_named(b"TIMELEVELS")
}

/// Whether a token begins an attribute that is read and has no effect.
fn has_none(token: &Token) -> bool
    ensures { result ≡ has_none token.now }
{
    token.is_named(b"DISTRIB")
        || token.is_named(b"SIZE")
        || token.is_named(b"GHOSTSIZE")
        || token.is_named(b"TAGS")
}

/// Whether an attribute that has an effect begins at the next token.
fn at_effective(reader: &Reader) -> bool
    ensures { result ≡ passes has_effect (head reader.now.rest.now) }
{
    match reader.rest {
        [token, ..] => has_effect(token),
        [] => false,
    }
}

/// Whether any attribute begins at the next token.
fn at_attribute(reader: &Reader) -> bool
    ensures { result ≡ passes is_attribute (head reader.now.rest.now) }
{
    match reader.rest {
        [token, ..] => has_effect(token) || has_none(token),
        [] => false,
    }
}

/// Reads an attribute that has an effect.
fn effective(reader: &mut Reader, attributes: &mut Attributes) -> Result<(), Stop>
    ensures { Builds (effective attributes.old) attributes.new result reader.old reader.new }
{
    if reader.at_keyword(b"TYPE") {
        type_(reader, attributes)
    } else if reader.at_keyword(b"DIM") {
        dim(reader, attributes)
    } else {
        levels(reader, attributes)
    }
}

/// Reads an attribute without effect and keeps its tokens.
fn idle(reader: &mut Reader, alloc: Global, attributes: &mut Attributes) -> Result<(), Stop>
    ensures { Builds (idle attributes.old) attributes.new result reader.old reader.new }
{
    if reader.at_keyword(b"DISTRIB") {
        distrib(reader, alloc, attributes)
    } else if reader.at_keyword(b"SIZE") {
        size(reader, alloc, attributes)
    } else if reader.at_keyword(b"GHOSTSIZE") {
        ghostsize(reader, alloc, attributes)
    } else {
        tags(reader, alloc, attributes)
    }
}

/// Reads one attribute of a group.
fn attribute(reader: &mut Reader, alloc: Global, attributes: &mut Attributes) -> Result<(), Stop>
    ensures { Builds (attribute attributes.old) attributes.new result reader.old reader.new }
{
    if at_effective(reader) {
        effective(reader, attributes)
    } else {
        idle(reader, alloc, attributes)
    }
}

/// The attributes that stand here, each of which may stand once.
pub fn read_attributes(
    reader: &mut Reader,
    alloc: Global,
    attributes: &mut Attributes,
) -> Result<(), Stop>
    ensures { Builds (loop is_attribute attribute attributes.old) attributes.new
        result reader.old reader.new }
{
    'attributes: while at_attribute(reader) {
        attribute(reader, alloc, attributes)?;
    }
    Ok(())
}
