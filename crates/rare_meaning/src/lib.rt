//! What terms mean: values, settings, one row for each operator, and true rewrites.
//!
//! The definitions stand in `specs/`. No function here computes anything: each says by its contract
//! that some laws hold.
#![tactic(auto)]

mod laws;
mod rows;

pub use laws::{
    application_law, function_classes_law, int_division_law, laws_of_values, same_meaning_law,
    terms_fit_their_sorts, terms_ignore_parameters, truth_grows_with_declarations,
};
pub use rows::rows_hold;
