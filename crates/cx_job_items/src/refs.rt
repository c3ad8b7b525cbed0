//! Names with their owners and copies, from texts.

ghost use Rattle.std.specs.Prelude.{◌≡◌, ◌<◌, ◌+◌, ◌==◌, length, position, drop, IfOk, IfSome};
ghost use Rattle.cx_text.specs.Digits.{natural_in};
ghost use Rattle.cx_job_items.specs.Matching.{most_copies, byte_at, ref_of, in_brackets, copy_at, ref_by, with_copy, bracket, owned, with_owner, ref_in};

use cx_sched::Ref;
use cx_text::{Memory, Text, natural_in};
use std::alloc::Global;

/// The greatest number of a copy.
const MAX_COPY: u64 = 4_294_967_295;

/// A byte of a text, or 0 past its end.
fn byte_at(text: &[u8], place: usize) -> u8
    ensures { result ≡ byte_at text.now place }
{
    match text.get(place) {
        Some(byte) => *byte,
        None => 0,
    }
}

/// The place of the first `[`, where the number of a copy begins.
fn bracket(text: &[u8]) -> Option<usize>
    ensures place { result ≡ bracket text.now }
    ensures within { IfSome result (λ place. place < length text.now) }
{
    text.iter().position(|byte| *byte == b'[')
}

/// The place of the first `:`, where the owner ends.
fn colon(text: &[u8]) -> Option<usize>
    ensures place { result ≡ position (λ b. b == 58) text.now }
    ensures within { IfSome result (λ place. place < length text.now) }
{
    text.iter().position(|byte| *byte == b':')
}

/// The number that digits say.
fn number_in(text: &[u8]) -> Option<u32>
    ensures { result ≡ natural_in most_copies text.now }
{
    match natural_in(MAX_COPY, text) {
        Some(number) => Some(number as u32),
        None => None,
    }
}

/// The text between a bracket at this place and the one at the end.
fn in_brackets(text: &[u8], place: usize) -> &[u8]
    requires { place < length text.now }
    ensures { result.now ≡ in_brackets text.now place }
{
    let inside = &text[place + 1..];
    &inside[..inside.len().saturating_sub(1)]
}

/// The number of a copy, whose bracket begins at a place; none where the text doesn't end with a bracket.
fn copy_at(text: &[u8], place: usize) -> Option<u32>
    requires { place < length text.now }
    ensures { result ≡ copy_at text.now place }
{
    if byte_at(text, text.len() - 1) == b']' {
        number_in(in_brackets(text, place))
    } else {
        None
    }
}

/// A reference by its owner, its name and the number of its copy.
fn ref_of(alloc: Global, owner: Option<Text>, name: &[u8], copy: Option<u32>) -> Result<Ref, Memory>
    ensures { IfOk result (λ r. r ≡ ref_of owner name.now copy) }
{
    Ok(Ref {
        owner,
        name: Text::from_slice(alloc, name)?,
        copy,
    })
}

/// A name whose bracket begins at a place.
fn ref_at_bracket(
    alloc: Global,
    owner: Option<Text>,
    text: &[u8],
    place: usize,
) -> Result<Ref, Memory>
    requires { place < length text.now }
    ensures { IfOk result (λ r. r ≡ ref_by owner text.now place (copy_at text.now place)) }
{
    match copy_at(text, place) {
        Some(copy) => ref_of(alloc, owner, &text[..place], Some(copy)),
        None => ref_of(alloc, owner, text, None),
    }
}

/// The name after an owner, with the number of its copy.
fn ref_behind_owner(alloc: Global, owner: Option<Text>, text: &[u8]) -> Result<Ref, Memory>
    ensures { IfOk result (λ r. r ≡ owned owner text.now) }
{
    match bracket(text) {
        Some(place) => ref_at_bracket(alloc, owner, text, place),
        None => ref_of(alloc, owner, text, None),
    }
}

/// The text after two colons at this place.
fn behind_colons(text: &[u8], place: usize) -> &[u8]
    requires { place < length text.now }
    ensures { result.now ≡ drop (place + 2) text.now }
{
    if place + 2 < text.len() {
        &text[place + 2..]
    } else {
        &[]
    }
}

/// The reference that a text spells, whose first colon is at this place.
fn with_colon(alloc: Global, text: &[u8], place: usize) -> Result<Ref, Memory>
    requires { place < length text.now }
    ensures { IfOk result (λ r. r ≡ with_owner text.now (Some place)) }
{
    if byte_at(text, place + 1) != b':' {
        return ref_behind_owner(alloc, None, text);
    }
    let owner = Text::from_slice(alloc, &text[..place])?;
    ref_behind_owner(alloc, Some(owner), behind_colons(text, place))
}

/// The reference that a text spells: the owner before `::`, and at the end the number of a copy in brackets.
pub(crate) fn ref_in(alloc: Global, text: &[u8]) -> Result<Ref, Memory>
    ensures { IfOk result (λ r. r ≡ ref_in text.now) }
{
    match colon(text) {
        Some(place) => with_colon(alloc, text, place),
        None => ref_behind_owner(alloc, None, text),
    }
}
