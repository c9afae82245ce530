//! Rules and their constraints, written as text.
#![tactic(auto)]

mod bounds;
mod constraint;
mod names;
mod operator;
mod params;
mod rule;
mod sort;
mod term;

pub use constraint::print_constraint;
pub use rule::print_rule;

#[cfg(test)]
mod tests;
