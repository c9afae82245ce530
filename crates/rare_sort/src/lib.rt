//! Sorts, operators and terms as plain trees, and what the rule of sorts says of an application.
#![tactic(auto)]

mod arrays;
mod bare;
mod declarations;
mod family;
mod forming;
mod head;
mod joins;
mod laws;
mod ruling;
mod sort;
mod tree;
mod widths;

pub use declarations::Declarations;
pub use family::{Basic, Count, Family, Outcome, family_of};
pub use head::{Head, is_same_head};
pub use laws::{
    more_constraints_keep_sorts, nodes_are_sorted_by_rule, sameness_is_decided,
    terms_have_one_sort, terms_have_their_sort,
};
pub use ruling::{Ruling, ruling_of};
pub use sort::{Signature, Signatures, Sort, Sorts, is_same_sort};
pub use tree::{Ids, TermId, Tree, Trees, are_same_linears, copy_linears};
pub use widths::{follows_in, number_of};

#[cfg(test)]
mod tests;
