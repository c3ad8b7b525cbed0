//! The param file.

ghost use Rattle.std.specs.Prelude.{◌≡◌};
ghost use Rattle.cx_text.specs.Grammar.{passes, head, ReadsBy, AnswersOnly};
ghost use Rattle.cx_text.specs.Rules.{Obeys, Builds, loop};
ghost use Rattle.cx_param.specs.Params.{decl, shared_scope, shared_block, shared_ranges, shared, declared, is_access, section, shares, access_line, is_entry, opening, declaring, entry, params};

use crate::blocks::block;
use crate::defaults::{default_of, unused_default};
use crate::headings::{counted_ptype, is_ptype, ptype, read_heading};
use crate::{PType, ParamDecl, Range, Scope};
use cx_text::{CclFault, List, Reader, Stop, Text, Token};
use std::alloc::Global;

/// The most declarations of a file.
const MAX_DECLS: usize = 4096;

/// Behind which access line a declaration stands.
#[derive(Drop)]
enum Access {
    Private,
    Restricted,
    Global,
    Shares(Text),
}

/// What is read so far, and how many declarations may still stand.
#[derive(Drop)]
struct Read {
    left: usize,
    access: Access,
    decls: List<ParamDecl>,
}

/// Reads the declaration of a parameter of this scope: type, heading, block and default.
fn decl(reader: &mut Reader, alloc: Global, scope: Scope, full: bool) -> Result<ParamDecl, Stop>
    ensures { Obeys (decl scope full) result reader.old reader.new }
{
    let ptype = counted_ptype(reader, full)?;
    let heading = read_heading(reader, alloc)?;
    let ranges = block(reader, alloc, ptype)?;
    let default = default_of(reader, alloc, ptype)?;
    Ok(ParamDecl {
        scope,
        ptype,
        name: heading.name,
        length: heading.length,
        alias: heading.alias,
        steer: heading.steer,
        ranges,
        default: Some(default),
    })
}

/// Reads `USES` or `EXTENDS`, which says how the thorn shares the implementation's parameter.
fn shared_scope(
    reader: &mut Reader,
    alloc: Global,
    implementation: &Text,
    full: bool,
) -> Result<Scope, Stop>
    ensures { Obeys (shared_scope implementation.now full) result reader.old reader.new }
{
    if reader.at_keyword(b"USES") {
        reader.counted_keyword(b"USES", full)?;
        let name = Text::from_slice(alloc, implementation.as_slice())?;
        Ok(Scope::Uses(name))
    } else {
        reader.counted_keyword(b"EXTENDS", full)?;
        let name = Text::from_slice(alloc, implementation.as_slice())?;
        Ok(Scope::Extends(name))
    }
}

/// Reads the block of a use or an extension, and skips an optional default after it.
fn shared_block(reader: &mut Reader, alloc: Global, ptype: PType) -> Result<List<Range>, Stop>
    ensures { Obeys (shared_block ptype) result reader.old reader.new }
{
    let ranges = block(reader, alloc, ptype)?;
    unused_default(reader, alloc)?;
    Ok(ranges)
}

/// Reads an optional block of a use or an extension; without one there are no ranges.
fn shared_ranges(reader: &mut Reader, alloc: Global, ptype: PType) -> Result<List<Range>, Stop>
    ensures { Obeys (shared_ranges ptype) result reader.old reader.new }
{
    if reader.at_sign(b'{') {
        shared_block(reader, alloc, ptype)
    } else {
        Ok(List::empty(alloc))
    }
}

/// Reads a use or an extension of a parameter that the implementation shares.
fn shared(
    reader: &mut Reader,
    alloc: Global,
    implementation: &Text,
    full: bool,
) -> Result<ParamDecl, Stop>
    ensures { Obeys (shared implementation.now full) result reader.old reader.new }
{
    let scope = shared_scope(reader, alloc, implementation, full)?;
    let ptype = ptype(reader)?;
    let heading = read_heading(reader, alloc)?;
    let ranges = shared_ranges(reader, alloc, ptype)?;
    Ok(ParamDecl {
        scope,
        ptype,
        name: heading.name,
        length: heading.length,
        alias: heading.alias,
        steer: heading.steer,
        ranges,
        default: None,
    })
}

/// Reads a use or an extension after `shares:`, and a declaration after another access line.
fn declared(
    reader: &mut Reader,
    alloc: Global,
    access: &Access,
    full: bool,
) -> Result<ParamDecl, Stop>
    ensures { Obeys (declared access.now full) result reader.old reader.new }
{
    match access {
        Access::Private => decl(reader, alloc, Scope::Private, full),
        Access::Restricted => decl(reader, alloc, Scope::Restricted, full),
        Access::Global => decl(reader, alloc, Scope::Global, full),
        Access::Shares(implementation) => shared(reader, alloc, implementation, full),
    }
}

/// Whether an access line begins with this token.
fn is_access(token: &Token) -> bool
    ensures { result ≡ is_access token.now }
{
    token.is_named(b"PRIVATE")
        || token.is_named(b"RESTRICTED")
        || token.is_named(b"GLOBAL")
        || token.is_named(b"SHARES")
}

/// Whether an access line begins at the next token.
fn at_access(reader: &Reader) -> bool
    ensures { result ≡ passes is_access (head reader.now.rest.now) }
{
    match reader.rest {
        [token, ..] => is_access(token),
        [] => false,
    }
}

/// Whether an access line, a declaration, a use or an extension begins at the next token.
fn at_entry(reader: &Reader) -> bool
    ensures { result ≡ passes is_entry (head reader.now.rest.now) }
{
    match reader.rest {
        [token, ..] => {
            is_access(token)
                || is_ptype(token)
                || token.is_named(b"USES")
                || token.is_named(b"EXTENDS")
        }
        [] => false,
    }
}

/// Reads an access line: its word and a colon.
fn section(reader: &mut Reader, name: &[u8], access: Access) -> Result<Access, Stop>
    ensures { Obeys (section name.now access) result reader.old reader.new }
{
    reader.keyword(name)?;
    reader.sign(b':')?;
    Ok(access)
}

/// Reads `shares:` and the name of the implementation.
fn shares(reader: &mut Reader, alloc: Global) -> Result<Access, Stop>
    ensures { Obeys shares result reader.old reader.new }
{
    reader.keyword(b"SHARES")?;
    reader.sign(b':')?;
    let name = reader.name(alloc)?;
    Ok(Access::Shares(name))
}

/// Reads any of the four access lines.
fn access_line(reader: &mut Reader, alloc: Global) -> Result<Access, Stop>
    ensures { Obeys access_line result reader.old reader.new }
{
    if reader.at_keyword(b"PRIVATE") {
        section(reader, b"PRIVATE", Access::Private)
    } else if reader.at_keyword(b"RESTRICTED") {
        section(reader, b"RESTRICTED", Access::Restricted)
    } else if reader.at_keyword(b"GLOBAL") {
        section(reader, b"GLOBAL", Access::Global)
    } else {
        shares(reader, alloc)
    }
}

/// Reads an access line, which holds for the declarations after it.
fn opening(reader: &mut Reader, alloc: Global, read: &mut Read) -> Result<(), Stop>
    ensures { Builds (opening read.old) read.new result reader.old reader.new }
{
    read.access = access_line(reader, alloc)?;
    Ok(())
}

/// Reads one declaration, use or extension, and adds it to the list.
fn declaring(reader: &mut Reader, alloc: Global, read: &mut Read) -> Result<(), Stop>
    ensures { Builds (declaring read.old) read.new result reader.old reader.new }
{
    let decl = declared(reader, alloc, &read.access, read.left == 0)?;
    read.decls.push(decl)?;
    read.left = read.left.saturating_sub(1);
    Ok(())
}

/// Reads one access line, declaration, use or extension.
fn entry(reader: &mut Reader, alloc: Global, read: &mut Read) -> Result<(), Stop>
    ensures { Builds (entry read.old) read.new result reader.old reader.new }
{
    if at_access(reader) {
        opening(reader, alloc, read)
    } else {
        declaring(reader, alloc, read)
    }
}

/// Reads the lines and declarations of a file up to the first token that begins none.
fn entries(reader: &mut Reader, alloc: Global, read: &mut Read) -> Result<(), Stop>
    ensures { Builds (loop is_entry entry read.old) read.new result reader.old reader.new }
{
    'turns: while at_entry(reader) {
        entry(reader, alloc, read)?;
    }
    Ok(())
}

/// Reads a param file; its declarations are private until an access line says otherwise.
fn whole(reader: &mut Reader, alloc: Global) -> Result<List<ParamDecl>, Stop>
    ensures { Obeys params result reader.old reader.new }
{
    let mut read = Read {
        left: MAX_DECLS,
        access: Access::Private,
        decls: List::empty(alloc),
    };
    reader.skip_line_ends();
    entries(reader, alloc, &mut read)?;
    Ok(read.decls)
}

/// What the tokens of a param file spell: its declarations, uses and extensions, in file order.
///
/// A declaration stands behind `private:`, `restricted:` or `global:`, and is private before the first of these. Behind
/// `shares: IMPLEMENTATION` uses and extensions stand, up to the next such line. Each text of a list with commas is a
/// range of its own. An optional part that can stand is taken, so `0: 5` is one range; `0:5:-3` is two, since a step
/// has no sign. See the Cactus 4 Users' Guide, appendix on param.ccl.
///
/// # Errors
/// `Unexpected` at the first token with which no param file goes on. `BadNumber` at a number that 64 signed bits don't
/// hold, at a step of 0, of more than 64 bits or without a low end, and at a length outside 1 to 1,024. `Limit` at a
/// name of more than 64 bytes and at the first token of the 4,097th declaration, use or extension. Whichever comes
/// first; each with the token's line.
pub fn read_params(alloc: Global, tokens: &List<Token>) -> Result<List<ParamDecl>, CclFault>
    // The answer is what the tokens spell, or the first fault.
    ensures answers { ReadsBy params.derives (λ x. x) tokens.now result }
    // What is spelled is answered, unless memory runs out.
    ensures only { AnswersOnly params.derives (λ x. x) tokens.now result }
{
    let tokens = tokens.as_slice();
    let mut reader = Reader::new(tokens);
    let answer = whole(&mut reader, alloc);
    reader.finish(tokens, answer)
}
