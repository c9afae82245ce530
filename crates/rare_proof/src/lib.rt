//! Proofs: steps that each conclude an equation of two terms from earlier steps by a rule, and the test whether a step is valid.
#![tactic(auto)]

mod compared;
mod fault;
mod laws;
mod proof;
mod rules;
mod sides;
mod step;

pub use compared::same_equation;
pub use fault::{AddError, StepFault};
pub use laws::valid_steps_are_true;
pub use proof::Proof;
pub use sides::{Sides, SidesList};
pub use step::{Step, StepRule, Steps};

#[cfg(test)]
mod tests;
