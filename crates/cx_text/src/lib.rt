//! Texts, lists and boxes that contracts see as plain data; tokens, read from a text and printed; and the form of every
//! reader of tokens.
#![tactic(auto)]

mod boxed;
mod byte;
mod ctype;
mod digits;
mod fault;
mod lexemes;
mod lexer;
mod list;
mod memory;
mod printer;
mod reader;
mod scanner;
mod shown;
mod stop;
mod text;
mod token;
mod written;

pub use boxed::Boxed;
pub use byte::is_blank;
pub use ctype::CType;
pub use digits::{has_digits, is_digits, natural_in, negative, parts_between_blanks};
pub use fault::{CclFault, TextFault};
pub use lexemes::{among, decimal, same_name};
pub use lexer::tokens;
pub use list::List;
pub use memory::Memory;
pub use printer::{print_tokens, write_tokens};
pub use reader::{MAX_NAME, Reader};
pub use shown::{Listed, OrDash};
pub use stop::{Mark, Stop, Why};
pub use text::Text;
pub use token::{Kind, Style, Token};
