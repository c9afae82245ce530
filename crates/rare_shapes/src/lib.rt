//! What the laws of rules share: operators whose arguments may be lists. No function here computes anything.
#![tactic(auto)]

mod laws;

pub use laws::{applications_have_totals, operators_stand, shapes_hold};
