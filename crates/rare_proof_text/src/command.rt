//! Commands of proofs, as they were read.
use rare_proof::{Sides, StepFault, StepRule};
use rare_term::TermId;

/// A step as it was read. Its ids are lent from its expression.
#[derive(Debug, Drop)]
pub struct ReadStep<'e, E> {
    pub id: &'e [u8],
    pub sides: Sides,
    /// Its rule with the arguments; or `NoSuchRule` where no rule of the book has the name, and
    /// `ArgCount` where it has another number of names than arguments are given.
    pub rule: Result<StepRule, StepFault>,
    /// The list of the ids of its premises, where the step gives one.
    pub premises: Option<&'e E>,
}

/// A command of a proof as it was read. Its words are lent from its expression.
#[derive(Debug, Drop)]
pub enum ReadCommand<'e, E> {
    /// A name that stands for a term from here on.
    Define { name: &'e [u8], term: TermId },
    Step(ReadStep<'e, E>),
    /// The name of a rewrite, and the id of the step that concludes it.
    Conclude { name: &'e [u8], id: &'e [u8] },
}
