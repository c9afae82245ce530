//! The names of a problem that was read make a scope over which what is written is read back. No
//! function here computes anything.
#![tactic(auto)]

mod laws;

pub use laws::{read_declarations_have_names, read_names_are_readable, read_scopes_are_readable};
