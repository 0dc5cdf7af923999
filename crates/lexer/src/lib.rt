// From the bytes of a Cairo-M text to its tokens, after lexer.rs.
#![tactic(auto)]

mod class;
mod entry;
mod lexing;
mod scan;

pub use entry::{LexError, LexedAlone, lex_alone};
pub use lexing::{Lexed, TextError, lex};
