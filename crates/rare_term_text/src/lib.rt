//! Terms, read from expressions.
#![tactic(auto)]

mod name;
mod term;

pub use term::read_term;

#[cfg(test)]
mod tests;
