//! Schedule files as trees.

use cx_expr::Expr;
use cx_plan::Region;
use cx_text::{List, Text, Token};

/// What a thorn says of its schedule.
#[derive(Debug, Drop)]
pub struct ScheduleFile {
    /// Its nodes, in file order.
    pub items: List<Node>,
}

/// A part of a schedule file.
#[derive(Debug, Drop)]
pub enum Node {
    /// A line of groups that have storage for the whole run, with so many levels where a number stands.
    Storage(List<(Ref, Option<u32>)>),
    /// What counts where an expression isn't 0, and what counts where it is.
    Cond {
        /// The expression.
        test: Expr,
        /// What counts where it isn't 0.
        yes: List<Node>,
        /// What counts where it is 0.
        no: List<Node>,
    },
    /// A routine or a group of routines.
    Block(Block),
}

/// The name of a variable or of a group of variables.
#[derive(Debug, Drop)]
pub struct Ref {
    /// What stands before `::`, if it stands.
    pub owner: Option<Text>,
    /// The name, with the suffixes of past levels.
    pub name: Text,
    /// The number in brackets behind a name of a READS or WRITES line, if one stands.
    pub copy: Option<u32>,
}

/// Where a routine or a group of routines runs.
#[derive(Debug, Drop)]
pub enum Spot {
    /// In this bin.
    At(Text),
    /// In this group.
    Inside(Text),
}

/// A routine or a group of routines.
#[derive(Debug, Drop)]
pub struct Block {
    /// Whether it is a group.
    pub group: bool,
    /// Its own name.
    pub name: Text,
    /// Where it runs.
    pub spot: Spot,
    /// The name that it has there in place of its own.
    pub alias: Option<Text>,
    /// It runs where this scalar isn't 0.
    pub test: Option<Ref>,
    /// It runs again and again while this scalar isn't 0.
    pub turn: Option<Ref>,
    /// Before which others it runs.
    pub before: List<Text>,
    /// After which others it runs.
    pub after: List<Text>,
    /// Groups that have storage for the whole run, with so many levels where a number stands.
    pub storage: List<(Ref, Option<u32>)>,
    /// What is synchronised after it.
    pub sync: List<Ref>,
    /// What it reads, and where.
    pub reads: List<(Ref, Region)>,
    /// What it writes, and where.
    pub writes: List<(Ref, Region)>,
    /// Its LANG, OPTIONS and TRIGGERS lines, token by token. They have no effect.
    pub rest: List<Token>,
    /// Its description.
    pub text: Text,
}
