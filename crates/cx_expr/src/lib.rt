//! Expressions of schedule files over numbers of 64 bits: read from tokens, evaluated and printed.
#![tactic(auto)]

mod evaluate;
mod part;
mod printer;
mod read;
mod tree;

pub use evaluate::{Found, Lookup, eval};
pub use part::{expression, read_expr};
pub use printer::{expr_tokens, print_expr};
pub use tree::{Expr, ExprFault, Name, Operator, Sign};
