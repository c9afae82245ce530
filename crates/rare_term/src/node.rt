//! How a keeper holds a term.
use rare_linear::Linears;
use rare_sort::{Head, Ids};

/// A term by the ids of its arguments, with its nesting and its size.
#[derive(Debug, Drop)]
pub struct Node {
    pub head: Head,
    pub indices: Linears,
    pub args: Ids,
    pub nesting: usize,
    pub size: usize,
}
