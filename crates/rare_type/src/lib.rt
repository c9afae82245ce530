//! Typing of rules: the constraints on widths and indices that a rule asks for, or why it doesn't
//! type. A rule is read and never changed.
#![tactic(auto)]

mod bare;
mod error;
mod indexed;
mod kept;
mod laws;
mod linears;
mod needs;
mod node;
mod occurrence;
mod place;
mod sides;
mod tree;
mod typing;

pub use error::TypeError;
pub use laws::{constraints_are_over_numbers, typing_is_exact};
pub use typing::type_rule;

#[cfg(test)]
mod rows;
#[cfg(test)]
mod tests;
