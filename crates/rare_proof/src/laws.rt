//! Laws of proofs, as contracts.
ghost use Rattle.rare_meaning.specs.Interpretations.{FunctionClass};
ghost use Rattle.rare_sort.specs.declared.declarations.Declarations.{Declarations};
ghost use Rattle.rare_rule.specs.Books.{AreTyped, BookRule};
ghost use Rattle.std.specs.Prelude.{List};
ghost use Rattle.rare_proof.specs.StepLaws.{ValidStepsAreTrue};

use rare_inst::rules_that_hold_apply;

/// What a valid step concludes is true where its rule holds and the equations before it are true, and so
/// is each equation of a proof: whatever functions count, whatever is declared, and for each book whose
/// rules type.
pub fn valid_steps_are_true()
    ensures { (c : FunctionClass) (d : Declarations) (book : List BookRule) → AreTyped book →
        ValidStepsAreTrue c d book }
{
    rules_that_hold_apply();
}
