//! The rules of steps: a file each, and the choice among them.
ghost use Rattle.std.specs.Prelude.{length, OnOk};
ghost use Rattle.rare_term.specs.State.{Grows};
ghost use Rattle.rare_proof.specs.Proofs.{HasArguments, IsRuleOf, Judges, stated_rule};
ghost use Rattle.rare_proof.specs.Sided.{AreSides, AllAreSides, equation_of, equations_of};
ghost use Rattle.rare_proof.specs.Steps.{first_failing, conditions};

mod cong;
mod evaluate;
mod refl;
mod rewrite;
mod trans;

use crate::fault::AddError;
use crate::sides::Sides;
use crate::step::StepRule;
use rare_rule::Book;
use rare_term::Terms;
use std::alloc::Global;

/// Whether the conditions of a rule hold for an equation and the equations of its premises.
///
/// Errors: `Invalid` of the first condition that fails; `Memory`.
pub(crate) fn test_by_rule<T: Terms>(
    alloc: Global,
    terms: &mut T,
    book: &Book,
    rule: &StepRule,
    sides: Sides,
    premises: &[Sides],
) -> Result<(), AddError>
    requires rule { IsRuleOf (T.state terms.old) rule.now }
    requires sides { AreSides (length (T.state terms.old).trees) sides }
    requires premises { AllAreSides (length (T.state terms.old).trees) premises.now }
    ensures judged { Judges (first_failing (conditions (T.state terms.old).declared book.now
        (stated_rule (T.state terms.old).trees rule.now)
        (equation_of (T.state terms.old).trees sides).left
        (equation_of (T.state terms.old).trees sides).right
        (equations_of (T.state terms.old).trees premises.now))) result }
    ensures arguments { OnOk result (HasArguments (T.state terms.old).declared
        (stated_rule (T.state terms.old).trees rule.now)) }
    ensures grows { Grows (T.state terms.old) (T.state terms.new) }
{
    match rule {
        StepRule::Refl => refl::test(alloc, terms, sides, premises),
        StepRule::Cong => cong::test(alloc, terms, sides, premises),
        StepRule::Trans => trans::test(alloc, terms, sides, premises),
        StepRule::Evaluate => evaluate::test(alloc, terms, sides, premises),
        StepRule::Rewrite { rule, args } => {
            rewrite::test(alloc, terms, book, *rule, args.items(), sides, premises)
        }
    }
}
