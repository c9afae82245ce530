//! Terms, written over the names of a scope.
#![tactic(auto)]

mod operator;
mod term;
mod text;
mod words;

pub use term::write_term;
pub use text::{write_led, write_number};
pub use words::{indexed_word, operator_word};

#[cfg(test)]
mod tests;
