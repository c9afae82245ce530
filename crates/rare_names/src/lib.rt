//! Names in the order in which they were added, each found by its hash.
#![tactic(auto)]

mod table;

pub use table::NameTable;
