//! The names of a scope, and over them those that `let`s bind.
#![tactic(auto)]

mod bindings;
mod bound;

pub use bindings::Bindings;
pub use bound::{Binding, Bound};

#[cfg(test)]
mod tests;
