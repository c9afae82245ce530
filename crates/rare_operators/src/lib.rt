//! Operators, atoms and literals of terms, read from expressions: all of a term that holds no further term.
#![tactic(auto)]

mod application;
mod atom;
mod head;
mod indexed;
mod literal;
mod words;

pub use application::application_at;
pub use atom::read_atom;
pub use head::{IndexedHead, read_head, word_head};
pub use indexed::{operator_at, read_indexed_head, read_indices};
pub use literal::{
    is_below_power, numeral_of, read_decimal_literal, read_linear_literal, value_behind,
};
pub use words::{IndexedWord, WordUse, indexed_word, word_use};

#[cfg(test)]
mod tests;
