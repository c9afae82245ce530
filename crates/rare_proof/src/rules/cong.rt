//! Congruence: one operator, and a premise for each pair of arguments that differ.
ghost use Rattle.std.specs.Prelude.{◌≡◌, ◌++◌, List, length, IfOk, OnOk};
ghost use Rattle.rare_rule.specs.Books.{BookRule};
ghost use Rattle.rare_sort.specs.Ids.{tree_at};
ghost use Rattle.rare_sort.specs.declared.declarations.Declarations.{Declarations};
ghost use Rattle.rare_sort.specs.Trees.{args_of};
ghost use Rattle.rare_proof.specs.Sided.{AreSides, AllAreSides, equation_of, equations_of};
ghost use Rattle.rare_proof.specs.Proofs.{Judges};
ghost use Rattle.rare_proof.specs.Steps as rule;
ghost use Rattle.rare_proof.specs.Steps.{first_failing, conditions, differing};
ghost use Rattle.rare_proof.specs.inner.Compared.{unless_same};

use crate::compared::{same_equations, same_shape, same_term};
use crate::fault::{AddError, StepFault};
use crate::sides::{Sides, SidesList};
use rare_term::Terms;
use std::alloc::{AllocError, Global};

// Appends an equation, unless both its sides are one term.
fn push_differing<T: Terms>(
    terms: &T,
    equations: &mut SidesList,
    sides: Sides,
) -> Result<(), AllocError>
    requires ids { AllAreSides (length (T.state terms.now).trees) equations.old }
    requires sides { AreSides (length (T.state terms.now).trees) sides }
    ensures equations { OnOk result (equations_of (T.state terms.now).trees equations.new
        ≡ equations_of (T.state terms.now).trees equations.old
        ++ unless_same (equation_of (T.state terms.now).trees sides)) }
    ensures ids { OnOk result (AllAreSides (length (T.state terms.now).trees) equations.new) }
{
    if same_term(terms, sides.left, sides.right) {
        return Ok(());
    }
    equations.push(sides)
}

// The equations of the arguments that differ, in order, of two terms with as many arguments.
fn differing_arguments<T: Terms>(
    alloc: Global,
    terms: &T,
    sides: Sides,
) -> Result<SidesList, AllocError>
    requires ids { AreSides (length (T.state terms.now).trees) sides }
    requires same { length (args_of (tree_at (T.state terms.now).trees sides.left.0))
        ≡ length (args_of (tree_at (T.state terms.now).trees sides.right.0)) }
    ensures equations { IfOk result (λ ss. equations_of (T.state terms.now).trees ss
        ≡ differing (args_of (tree_at (T.state terms.now).trees sides.left.0))
        (args_of (tree_at (T.state terms.now).trees sides.right.0))) }
    ensures ids { IfOk result (λ ss. AllAreSides (length (T.state terms.now).trees) ss) }
{
    let mut equations = SidesList::new(alloc);
    for k in 0..terms.arg_count(sides.left) {
        let left = terms.arg(sides.left, k);
        let right = terms.arg(sides.right, k);
        push_differing(terms, &mut equations, Sides { left, right })?;
    }
    Ok(equations)
}

/// Its conditions: one operator with the same indices and as many arguments; a premise
/// for each pair of arguments that differ; the premises are these equations, in order.
pub(crate) fn test<T: Terms>(
    alloc: Global,
    terms: &T,
    sides: Sides,
    premises: &[Sides],
) -> Result<(), AddError>
    requires sides { AreSides (length (T.state terms.now).trees) sides }
    requires premises { AllAreSides (length (T.state terms.now).trees) premises.now }
    ensures { (d : Declarations) (book : List BookRule) →
        Judges (first_failing (conditions d book rule.Cong
        (tree_at (T.state terms.now).trees sides.left.0)
        (tree_at (T.state terms.now).trees sides.right.0)
        (equations_of (T.state terms.now).trees premises.now))) result }
{
    if !same_shape(terms, sides) {
        return Err(AddError::Invalid(StepFault::OtherHead));
    }
    let equations = differing_arguments(alloc, terms, sides)?;
    if premises.len() != equations.len() {
        return Err(AddError::Invalid(StepFault::PremiseCount));
    }
    if !same_equations(terms, premises, equations.items()) {
        return Err(AddError::Invalid(StepFault::OtherPremise));
    }
    Ok(())
}
