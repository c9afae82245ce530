//! Proofs, read from texts: one command at a time over the names of a problem.
#![tactic(auto)]

mod arguments;
mod command;
mod definition;
mod ending;
mod parts;
mod read;
mod sides;
mod step;
mod words;

pub use command::{ReadCommand, ReadStep};
pub use read::read_command;
pub use words::ProofWord;

#[cfg(test)]
mod tests;
