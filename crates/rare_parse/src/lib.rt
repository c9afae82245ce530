//! Rules, read from expressions.
#![tactic(auto)]

mod bounds;
mod literal;
mod measured;
mod names;
mod nodes;
mod operator;
mod order;
mod params;
mod reduced;
mod rule;
mod sort;
mod term;
mod whole;

pub use rule::read_rule;

#[cfg(test)]
mod tests;
