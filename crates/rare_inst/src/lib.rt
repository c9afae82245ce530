//! Instances of rules: their arguments, which of these a rule admits, what the sides and premises become, and
//! the laws of all this.
//!
//! The definitions stand in `specs/`.
#![tactic(auto)]

mod admission;
mod arg;
mod collapse;
mod elements;
mod entailed;
mod fault;
mod instance;
mod laws;
mod literals;
mod obeying;
mod part;
mod sorts;
mod substitution;
mod totals;
mod values;

pub use admission::admit;
pub use arg::{Arg, Args};
pub use fault::InstFault;
pub use instance::{left_instance, premise_instance, right_instance};
pub use laws::{
    instances_are_sorted, instances_mean_as_rules, instances_of_written_rules,
    rules_that_hold_apply,
};

#[cfg(test)]
mod tests;
