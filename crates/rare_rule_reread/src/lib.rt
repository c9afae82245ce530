//! What is written of rules is read back as the same. No function here computes anything.
#![tactic(auto)]

mod laws;

pub use laws::{
    rule_linears_are_read_back, rule_params_are_read_back, rule_sorts_are_read_back,
    rule_terms_are_read_back, rules_are_read_back,
};
