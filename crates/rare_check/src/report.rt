//! The report on a proof.
use rare_base::{Numbers, Text};
use rare_list::Sequence;
use rare_proof::StepFault;

/// What a proof says of a rewrite.
#[derive(Clone, Copy, Debug, PartialEq, Eq)]
pub enum Verdict {
    /// Some conclusion names it.
    Valid,
    /// No conclusion names it.
    Missing,
}

/// A list of verdicts.
pub type Verdicts = Sequence<Verdict>;

/// What a proof that was read is worth.
#[derive(Debug, Drop)]
pub enum Report {
    /// Each command is valid: the verdicts on the rewrites, in order, and the numbers of the rules of
    /// the book, from 0, that are trusted: those that some step names, but for shipped ones, in order.
    Checked {
        verdicts: Verdicts,
        trusted: Numbers,
    },
    /// The first command that is not valid, a step by its id and a conclusion by the name of its
    /// rewrite, and the first of its conditions that fails.
    Invalid {
        name: Text,
        fault: StepFault,
    },
}
