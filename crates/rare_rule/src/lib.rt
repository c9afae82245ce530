//! Rewrite rules: what a rule is, when it is in form, its typing, what it is that it holds, and books of rules.
//!
//! The definitions stand in `specs/`. Nothing here reads or prints text.
#![tactic(auto)]

mod book;
mod laws;
mod param;
mod rule;
mod typed;

pub use book::{Book, BookError};
pub use laws::{forms_are_refused, rules_hold_for_each_class, rules_type, wrong_rules_fail};
pub use param::{Param, ParamKind, Params};
pub use rule::{Rule, RuleKind};
pub use typed::{Typed, TypedRules};

#[cfg(test)]
mod tests;
