//! Terms by ids: the trait that keepers of terms implement, and a keeper that scans a list.
//! The names of `rare_sort` and `rare_meaning` that speak of terms are passed on.
#![tactic(auto)]

mod laws;
mod limits;
mod literals;
mod node;
mod plain;
mod plain_terms;
mod prepared;
mod scan;
mod terms;

pub use laws::kept_terms_are_terms;
pub use plain::Plain;
pub use rare_sort::{
    Declarations, Head, Ids, Signature, Signatures, Sort, Sorts, TermId, Tree, Trees, is_same_head,
    is_same_sort,
};
pub use terms::{TermError, Terms};

#[cfg(test)]
mod tests;
