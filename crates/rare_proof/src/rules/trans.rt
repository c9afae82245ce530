//! Transitivity: two premises join in the middle.
ghost use Rattle.std.specs.Prelude.{List, length};
ghost use Rattle.rare_rule.specs.Books.{BookRule};
ghost use Rattle.rare_sort.specs.Ids.{tree_at};
ghost use Rattle.rare_sort.specs.declared.declarations.Declarations.{Declarations};
ghost use Rattle.rare_proof.specs.Sided.{AreSides, AllAreSides, equations_of};
ghost use Rattle.rare_proof.specs.Proofs.{Judges};
ghost use Rattle.rare_proof.specs.Steps as rule;
ghost use Rattle.rare_proof.specs.Steps.{first_failing, conditions};

use crate::compared::same_term;
use crate::fault::{AddError, StepFault};
use crate::sides::Sides;
use rare_term::Terms;
use std::alloc::Global;

/// Its conditions: two premises; they are a = b and b = c, and the step is a = c.
pub(crate) fn test<T: Terms>(
    _alloc: Global,
    terms: &T,
    sides: Sides,
    premises: &[Sides],
) -> Result<(), AddError>
    requires sides { AreSides (length (T.state terms.now).trees) sides }
    requires premises { AllAreSides (length (T.state terms.now).trees) premises.now }
    ensures { (d : Declarations) (book : List BookRule) →
        Judges (first_failing (conditions d book rule.Trans
        (tree_at (T.state terms.now).trees sides.left.0)
        (tree_at (T.state terms.now).trees sides.right.0)
        (equations_of (T.state terms.now).trees premises.now))) result }
{
    let [first, second] = premises else {
        return Err(AddError::Invalid(StepFault::PremiseCount));
    };
    if same_term(terms, first.left, sides.left)
        && same_term(terms, first.right, second.left)
        && same_term(terms, second.right, sides.right)
    {
        Ok(())
    } else {
        Err(AddError::Invalid(StepFault::OtherPremise))
    }
}
