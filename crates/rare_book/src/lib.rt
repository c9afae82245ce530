//! Files of rules: each rule read, typed and added to a book.
#![tactic(auto)]

mod read;

pub use read::read_book;

#[cfg(test)]
mod tests;
