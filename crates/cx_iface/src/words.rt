//! The words that parts of an interface file begin with.

ghost use Rattle.std.specs.Prelude.{◌≡◌, ◌||◌};
ghost use Rattle.cx_text.specs.Rules.{is_named};
ghost use Rattle.cx_iface.specs.Words.{is_line_word, ctype_of, begins_with, gtype_of};

use crate::{Access, GType};
use cx_text::{CType, Token};

/// What a part begins with, by its first word.
#[derive(Clone, Copy, Drop)]
pub enum First {
    Implements,
    Inherits,
    Friend,
    Access(Access),
    Group(CType),
    /// Any other word, which begins only a function's declaration.
    Other,
}

/// Whether it begins a line that is kept as it stands.
pub fn is_line_word(token: &Token) -> bool
    ensures { result ≡ is_line_word token.now }
{
    token.is_named(b"USES")
        || token.is_named(b"INCLUDE")
        || token.is_named(b"INCLUDES")
        || token.is_named(b"PROVIDES")
        || token.is_named(b"REQUIRES")
        || token.is_named(b"SUBROUTINE")
}

/// Whether it is one of two words.
fn is_either(token: &Token, short: &[u8], long: &[u8]) -> bool
    ensures { result ≡ (is_named short.now token.now || is_named long.now token.now) }
{
    token.is_named(short) || token.is_named(long)
}

/// The type that a word names, with or without `CCTK_`.
fn ctype_of(token: &Token) -> Option<CType>
    ensures { result ≡ ctype_of token.now }
{
    if is_either(token, b"CHAR", b"CCTK_CHAR") {
        Some(CType::Char)
    } else if is_either(token, b"BYTE", b"CCTK_BYTE") {
        Some(CType::Byte)
    } else if is_either(token, b"INT", b"CCTK_INT") {
        Some(CType::Int)
    } else if is_either(token, b"INT2", b"CCTK_INT2") {
        Some(CType::Int2)
    } else if is_either(token, b"INT4", b"CCTK_INT4") {
        Some(CType::Int4)
    } else if is_either(token, b"INT8", b"CCTK_INT8") {
        Some(CType::Int8)
    } else if is_either(token, b"REAL", b"CCTK_REAL") {
        Some(CType::Real)
    } else if is_either(token, b"COMPLEX", b"CCTK_COMPLEX") {
        Some(CType::Complex)
    } else {
        None
    }
}

/// What a part begins with, by its first word.
pub fn begins_with(word: &Token) -> First
    ensures { result ≡ begins_with word.now }
{
    if word.is_named(b"IMPLEMENTS") {
        First::Implements
    } else if word.is_named(b"INHERITS") {
        First::Inherits
    } else if word.is_named(b"FRIEND") {
        First::Friend
    } else if word.is_named(b"PUBLIC") {
        First::Access(Access::Public)
    } else if word.is_named(b"PROTECTED") {
        First::Access(Access::Protected)
    } else if word.is_named(b"PRIVATE") {
        First::Access(Access::Private)
    } else {
        match ctype_of(word) {
            Some(ctype) => First::Group(ctype),
            None => First::Other,
        }
    }
}

/// The kind of group that a word names.
pub fn gtype_of(word: &Token) -> Option<GType>
    ensures { result ≡ gtype_of word.now }
{
    if word.is_named(b"GF") {
        Some(GType::Gf)
    } else if word.is_named(b"ARRAY") {
        Some(GType::Array)
    } else if word.is_named(b"SCALAR") {
        Some(GType::Scalar)
    } else {
        None
    }
}
