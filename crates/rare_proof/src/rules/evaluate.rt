//! Evaluation: both sides have one value.
ghost use Rattle.std.specs.Prelude.{◌≡◌, List, length};
ghost use Rattle.rare_rule.specs.Books.{BookRule};
ghost use Rattle.rare_sort.specs.Ids.{tree_at};
ghost use Rattle.rare_sort.specs.declared.declarations.Declarations.{Declarations};
ghost use Rattle.rare_eval.specs.ValueItems.{value_item};
ghost use Rattle.rare_proof.specs.Items.{item_eq};
ghost use Rattle.rare_proof.specs.Sided.{AreSides, AllAreSides, equations_of};
ghost use Rattle.rare_proof.specs.Proofs.{Judges};
ghost use Rattle.rare_proof.specs.Steps as rule;
ghost use Rattle.rare_proof.specs.Steps.{first_failing, conditions};

use crate::fault::{AddError, StepFault};
use crate::sides::Sides;
use rare_eval::{Value, value};
use rare_term::Terms;
use std::alloc::Global;

fn same_value(a: Value, b: Value) -> bool
    ensures { result ≡ item_eq (value_item a) (value_item b) }
{
    a == b
}

/// Its conditions: no premises; both sides have values; the values are equal.
pub(crate) fn test<T: Terms>(
    _alloc: Global,
    terms: &T,
    sides: Sides,
    premises: &[Sides],
) -> Result<(), AddError>
    requires sides { AreSides (length (T.state terms.now).trees) sides }
    requires premises { AllAreSides (length (T.state terms.now).trees) premises.now }
    ensures { (d : Declarations) (book : List BookRule) →
        Judges (first_failing (conditions d book rule.Evaluate
        (tree_at (T.state terms.now).trees sides.left.0)
        (tree_at (T.state terms.now).trees sides.right.0)
        (equations_of (T.state terms.now).trees premises.now))) result }
{
    if !premises.is_empty() {
        return Err(AddError::Invalid(StepFault::PremiseCount));
    }
    let Some(left) = value(terms, sides.left) else {
        return Err(AddError::Invalid(StepFault::NoValue));
    };
    let Some(right) = value(terms, sides.right) else {
        return Err(AddError::Invalid(StepFault::NoValue));
    };
    if !same_value(left, right) {
        return Err(AddError::Invalid(StepFault::OtherValue));
    }
    Ok(())
}
