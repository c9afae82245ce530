//! Steps of a proof, and their rules.
use rare_base::Numbers;
use rare_inst::Args;
use rare_list::Sequence;
use rare_term::TermId;

/// The rule of a step.
#[derive(Debug, Drop)]
pub enum StepRule {
    /// Both sides are one term.
    Refl,
    /// Both sides have one operator, and a premise equates each pair of arguments that differ.
    Cong,
    /// Two premises join in the middle.
    Trans,
    /// Both sides have one value, as terms without names.
    Evaluate,
    /// An instance of a rule of the book, by its number there, from 0: its arguments are one for each name
    /// of the rule, and a premise says of each of the rule's premises that it is true.
    Rewrite { rule: usize, args: Args },
}

/// A step: the two sides of the equation that it concludes, its rule, and the places of its premises
/// among the steps before it, counted from 0.
#[derive(Debug, Drop)]
pub struct Step {
    pub left: TermId,
    pub right: TermId,
    pub by: StepRule,
    pub premises: Numbers,
}

/// A list of steps.
pub type Steps = Sequence<Step>;
