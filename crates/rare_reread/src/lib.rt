//! What is written of linear expressions, sorts and terms is read back as the same. No function here
//! computes anything.
#![tactic(auto)]

mod laws;

pub use laws::{
    linear_texts_are_read_back, sort_texts_are_read_back, term_texts_are_read_back,
    texts_are_joined,
};

#[cfg(test)]
mod tests;
