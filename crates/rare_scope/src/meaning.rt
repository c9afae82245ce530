//! What a name stands for.
use rare_term::TermId;

/// What a name stands for: a declared sort, width or symbol by its number, or a term by its id.
#[derive(Clone, Copy, Debug, PartialEq, Eq)]
pub enum Meaning {
    Sort(u32),
    Width(u32),
    Symbol(u32),
    Term(TermId),
}
