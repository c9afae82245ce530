//! Texts, places, faults and statuses, and the outside as two traits: a library that gives the
//! texts of files, and a sink that takes what is written.
#![tactic(auto)]

mod answers;
mod memory;
mod outside;
mod real;
#[cfg(test)]
mod tests;
mod text;

pub use answers::{Fault, Place, Reason, Status};
pub use memory::{MemoryLibrary, MemorySink, NamedText, NamedTexts};
pub use outside::{Failed, Library, ReadError, Sink, put_whole, read_whole};
/// The list behind the plural types, as `Texts` and `Numbers`.
pub use rare_list::Sequence;
pub use real::{FileLibrary, OutSink};
pub use text::{Text, Texts};

/// A list of numbers.
pub type Numbers = Sequence<usize>;
