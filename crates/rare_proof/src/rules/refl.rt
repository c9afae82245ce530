//! Reflexivity: both sides are one term.
ghost use Rattle.std.specs.Prelude.{List, length};
ghost use Rattle.rare_rule.specs.Books.{BookRule};
ghost use Rattle.rare_sort.specs.Ids.{tree_at};
ghost use Rattle.rare_sort.specs.declared.declarations.Declarations.{Declarations};
ghost use Rattle.rare_proof.specs.Sided.{AreSides, AllAreSides, equations_of};
ghost use Rattle.rare_proof.specs.Proofs.{Judges};
ghost use Rattle.rare_proof.specs.Steps as rule;
ghost use Rattle.rare_proof.specs.Steps.{first_failing, conditions};

use crate::compared::same_term;
use crate::fault::{AddError, StepFault};
use crate::sides::Sides;
use rare_term::Terms;
use std::alloc::Global;

/// Its conditions: no premises; both sides are one term.
pub(crate) fn test<T: Terms>(
    _alloc: Global,
    terms: &T,
    sides: Sides,
    premises: &[Sides],
) -> Result<(), AddError>
    requires sides { AreSides (length (T.state terms.now).trees) sides }
    requires premises { AllAreSides (length (T.state terms.now).trees) premises.now }
    ensures { (d : Declarations) (book : List BookRule) →
        Judges (first_failing (conditions d book rule.Refl
        (tree_at (T.state terms.now).trees sides.left.0)
        (tree_at (T.state terms.now).trees sides.right.0)
        (equations_of (T.state terms.now).trees premises.now))) result }
{
    if !premises.is_empty() {
        return Err(AddError::Invalid(StepFault::PremiseCount));
    }
    if !same_term(terms, sides.left, sides.right) {
        return Err(AddError::Invalid(StepFault::NotEqual));
    }
    Ok(())
}
