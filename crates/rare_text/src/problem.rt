//! Problems.
use rare_base::{Numbers, Text};
use rare_list::Sequence;
use rare_scope::Scope;
use rare_term::TermId;

/// A rewrite: its name, and its two sides, which have one sort.
#[derive(Debug, Drop)]
pub struct Rewrite {
    pub name: Text,
    pub left: TermId,
    pub right: TermId,
}

/// A list of rewrites.
pub type Rewrites = Sequence<Rewrite>;

/// A problem: its rewrites in order, what its names stand for, and the samples of its widths in the order
/// of their numbers.
#[derive(Drop)]
pub struct Problem {
    pub rewrites: Rewrites,
    pub scope: Scope,
    pub samples: Numbers,
}
