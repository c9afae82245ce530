//! Problems, read from texts.
#![tactic(auto)]

mod assumptions;
mod command;
mod commands;
mod declarations;
mod declaring;
mod parts;
mod passing;
mod problem;
mod read;
mod reader;
mod sampling;
mod taking;
mod terms;

pub use commands::CommandWord;
pub use problem::{Problem, Rewrite, Rewrites};
pub use rare_scope::{Scope, read_linear, read_sort, write_linear, write_sort};
pub use rare_term_text::read_term;
pub use read::read_problem;

#[cfg(test)]
mod tests;
