//! What an interface file says.

use cx_text::{CType, List, Text, Token};

/// Which thorns see a group: all that inherit its implementation, its friends, or its own thorn alone.
#[derive(Clone, Copy, Debug, Drop, PartialEq, Eq)]
pub enum Access {
    Public,
    Protected,
    Private,
}

/// What each variable of a group is: a grid function, an array with a size of its own, or one number.
#[derive(Clone, Copy, Debug, Drop, PartialEq, Eq)]
pub enum GType {
    Gf,
    Array,
    Scalar,
}

/// A group of variables of one type.
#[derive(Debug, Drop)]
pub struct Group {
    /// That of the last access line before it, and private before any.
    pub access: Access,
    /// The type of its variables.
    pub ctype: CType,
    /// Its name.
    pub name: Text,
    /// How many copies each variable has, from 1 to 64, where a number stands in brackets behind the name.
    pub copies: Option<u32>,
    /// By default a scalar.
    pub gtype: GType,
    /// The number of directions, from 1 to 3, and by default 3.
    pub dim: u8,
    /// The number of time levels, from 1 to 8, and by default 1.
    pub levels: u8,
    /// The tokens of the attributes that have no effect: SIZE, DISTRIB, GHOSTSIZE and TAGS.
    pub rest: List<Token>,
    /// The names of the variables. Without a block there is one, of the group's own name.
    pub variables: List<Text>,
    /// The description: the later one of two, and empty where none stands.
    pub text: Text,
}

/// What a thorn implements, inherits and declares.
#[derive(Debug, Drop)]
pub struct Interface {
    /// The implementation that the thorn provides.
    pub implements: Text,
    /// The implementations whose public groups it sees.
    pub inherits: List<Text>,
    /// The implementations with which it shares its protected groups.
    pub friends: List<Text>,
    /// The groups in file order.
    pub groups: List<Group>,
    /// The tokens of each line that is kept and has no effect: include files and function declarations.
    pub others: List<List<Token>>,
}
