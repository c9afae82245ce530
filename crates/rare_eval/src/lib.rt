//! The values of terms without names.
#![tactic(auto)]

mod evaluation;
mod laws;
mod progress;
mod single;
mod slices;
mod truths;
mod value_terms;
mod values;
mod wholes;
mod words;

pub use evaluation::value;
pub use laws::{application_evaluation_law, evaluation_law, value_term_law};
pub use value_terms::value_term;
pub use values::Value;

#[cfg(test)]
mod tests;
