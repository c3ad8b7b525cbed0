//! Declarations of parameters as plain data.

use crate::Range;
use cx_text::{List, Text};

/// The type of a parameter.
#[derive(Clone, Copy, Debug, Drop, PartialEq, Eq)]
pub enum PType {
    /// Yes or no.
    Boolean,
    /// A number of 64 signed bits.
    Int,
    /// One of some words, in any case.
    Keyword,
    /// A text.
    String,
    /// A number with a fraction, which is read and not worked with.
    Real,
}

/// When a parameter may be steered.
#[derive(Clone, Copy, Debug, Drop, PartialEq, Eq)]
pub enum Steer {
    Never,
    Always,
    Recover,
}

/// Who may name a parameter. A use or an extension keeps the implementation that shares it.
#[derive(Debug, Drop)]
pub enum Scope {
    Private,
    Restricted,
    Global,
    Uses(Text),
    Extends(Text),
}

/// A declaration, a use or an extension of a parameter.
#[derive(Debug, Drop)]
pub struct ParamDecl {
    /// Who may name it.
    pub scope: Scope,
    /// Its type.
    pub ptype: PType,
    /// Its name.
    pub name: Text,
    /// The number of its elements, if it is an array: 1 to 1,024.
    pub length: Option<u32>,
    /// Another name for it.
    pub alias: Option<Text>,
    /// When it may be steered, and never by default.
    pub steer: Steer,
    /// The values that it may have, as they stand in its block. A `STRING` block without texts is one `AnyText`.
    pub ranges: List<Range>,
    /// The text of its default. A use and an extension have none.
    pub default: Option<Text>,
}
