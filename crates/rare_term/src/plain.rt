//! A keeper of terms that scans a list.
ghost use Rattle.rare_term.specs.inner.Kept.{IsKept};
ghost use Rattle.rare_term.specs.inner.KeptFacts.{kept_prop};

use crate::node::Node;
use rare_list::Sequence;
use rare_sort::{Declarations, Sorts};
use std::alloc::Global;

/// Terms in a list, found by going through it.
#[derive(Drop)]
pub struct Plain {
    pub(crate) alloc: Global,
    pub(crate) nodes: Sequence<Node>,
    /// The sort of each term, at the number of its id.
    pub(crate) sorts: Sorts,
    pub(crate) declared: Declarations,
    ghost kept: { IsKept nodes sorts declared } by { kept_prop nodes sorts declared },
}
