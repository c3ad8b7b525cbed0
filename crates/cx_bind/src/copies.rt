//! Copies of declarations.

ghost use Rattle.std.specs.Prelude.{◌≡◌, ◌++◌, IfOk, OnOk};

use cx_param::{ParamDecl, Range, Scope};
use cx_text::{List, Memory, Text, Token};
use std::alloc::Global;

/// A copy of tokens with their kinds and texts.
fn copy_tokens(alloc: Global, tokens: &[Token]) -> Result<List<Token>, Memory>
    ensures { IfOk result (λ copy. copy ≡ tokens.now) }
{
    let mut copy = List::empty(alloc);
    copy.push_copies(alloc, tokens)?;
    Ok(copy)
}

/// A copy of a range of any kind.
fn copy_range(alloc: Global, range: &Range) -> Result<Range, Memory>
    ensures { IfOk result (λ copy. copy ≡ range.now) }
{
    match range {
        Range::Ints {
            low,
            low_in,
            high,
            high_in,
            step,
        } => Ok(Range::Ints {
            low: *low,
            low_in: *low_in,
            high: *high,
            high_in: *high_in,
            step: *step,
        }),
        Range::Word(word) => Ok(Range::Word(word.copy(alloc)?)),
        Range::AnyText => Ok(Range::AnyText),
        Range::SomeText => Ok(Range::SomeText),
        Range::Other(tokens) => Ok(Range::Other(copy_tokens(alloc, tokens.as_slice())?)),
    }
}

/// Adds copies of these ranges at the end of others.
pub(crate) fn push_ranges(
    alloc: Global,
    ranges: &mut List<Range>,
    others: &[Range],
) -> Result<(), Memory>
    ensures { OnOk result (ranges.new ≡ ranges.old ++ others.now) }
{
    'others: for other in others {
        ranges.push(copy_range(alloc, other)?)?;
    }
    Ok(())
}

/// A copy of ranges in their order.
pub(crate) fn copy_ranges(alloc: Global, ranges: &[Range]) -> Result<List<Range>, Memory>
    ensures { IfOk result (λ copy. copy ≡ ranges.now) }
{
    let mut copy = List::empty(alloc);
    push_ranges(alloc, &mut copy, ranges)?;
    Ok(copy)
}

/// A copy of a scope; a use or an extension keeps its implementation.
fn copy_scope(alloc: Global, scope: &Scope) -> Result<Scope, Memory>
    ensures { IfOk result (λ copy. copy ≡ scope.now) }
{
    match scope {
        Scope::Private => Ok(Scope::Private),
        Scope::Restricted => Ok(Scope::Restricted),
        Scope::Global => Ok(Scope::Global),
        Scope::Uses(implementation) => Ok(Scope::Uses(implementation.copy(alloc)?)),
        Scope::Extends(implementation) => Ok(Scope::Extends(implementation.copy(alloc)?)),
    }
}

/// A copy of an optional text.
fn copy_if_any(alloc: Global, text: &Option<Text>) -> Result<Option<Text>, Memory>
    ensures { IfOk result (λ copy. copy ≡ text.now) }
{
    match text {
        None => Ok(None),
        Some(text) => Ok(Some(text.copy(alloc)?)),
    }
}

/// A copy of a whole declaration, use or extension.
pub(crate) fn copy_decl(alloc: Global, decl: &ParamDecl) -> Result<ParamDecl, Memory>
    ensures { IfOk result (λ copy. copy ≡ decl.now) }
{
    Ok(ParamDecl {
        scope: copy_scope(alloc, &decl.scope)?,
        ptype: decl.ptype,
        name: decl.name.copy(alloc)?,
        length: decl.length,
        alias: copy_if_any(alloc, &decl.alias)?,
        steer: decl.steer,
        ranges: copy_ranges(alloc, decl.ranges.as_slice())?,
        default: copy_if_any(alloc, &decl.default)?,
    })
}
