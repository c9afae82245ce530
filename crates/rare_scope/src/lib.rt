//! What the names of a problem stand for, and what is read and printed over names alone: numerals,
//! linear expressions, constraints and sorts.
#![tactic(auto)]

mod constraint;
mod faults;
mod linear;
mod meaning;
mod numbers;
mod pieces;
mod relation;
mod reserved;
mod scope;
mod sign;
mod sort;
mod widths;
mod write;
mod written;

pub use constraint::read_constraints_over;
pub use faults::{
    is_keyword, is_keyword_at, is_list, is_numeral, is_symbol, is_word_at, read_symbol, refusal_at,
};
pub use linear::{read_linear, read_linear_over};
pub use meaning::Meaning;
pub use numbers::{number_of_digits, small_numeral};
pub use pieces::Piece;
pub use reserved::{is_reserved_name, is_theory_word_name};
pub use scope::Scope;
pub use sign::entry_at;
pub use sort::read_sort;
pub use widths::WidthNames;
pub use write::{write_linear, write_linear_over, write_sort};
pub use written::WrittenNames;

#[cfg(test)]
mod tests;
