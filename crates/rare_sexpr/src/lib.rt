//! S-expressions of a text that comes in pieces of any size.
//!
//! A text is blanks, comments and commands (SMT-LIB 2.6, sections on the lexicon and on
//! s-expressions). A command is an atom, that is a symbol, a keyword, a numeral, a decimal, a binary, a
//! hexadecimal or a string, or a list of atoms and lists in parentheses. A comment runs from `;` to the
//! next line feed or carriage return, or to the end of the text.
#![tactic(auto)]

mod bytes;
mod gaps;
mod grammar;
mod parser;
mod reader;
mod scan;
mod stack;
mod text;
mod tree;
mod word;
mod write;

pub use grammar::texts_are_spelled;
pub use reader::{Next, Reader};
pub use tree::{AtomKind, Expr, Kind, Sexpr, Sexprs};
pub use write::{write_string, write_symbol};

#[cfg(test)]
mod tests;
