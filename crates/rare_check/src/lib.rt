//! The verdict on a proof of a problem.
#![tactic(auto)]

mod checker;
mod checking;
mod judged;
mod judging;
mod report;
mod reporting;
mod rewrites;

pub use checker::Checker;
pub use report::{Report, Verdict, Verdicts};

#[cfg(test)]
mod tests;
