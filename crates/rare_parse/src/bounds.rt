//! The bounds of a rule, read from the constraints behind `:where`.
ghost use Rattle.std.specs.Prelude.{◌≡◌, ◌++◌, OnOk};
ghost use Rattle.rare_parse.specs.RuleText.{bounds_at, bounds_of};
ghost use Rattle.rare_scope.specs.Answers.{Answers};

use crate::names::RuleNames;
use rare_base::{Fault, Reason};
use rare_linear::{Constraint, Constraints, Linear};
use rare_scope::{is_list, read_constraints_over, refusal_at};
use rare_sexpr::Expr;
use std::alloc::{AllocError, Global};

// Keeps what is to be at least 0 behind the bounds.
fn keep(alloc: Global, bounds: &mut Constraints, floors: &[Linear]) -> Result<(), AllocError>
    ensures { OnOk result (bounds.new ≡ bounds.old ++ bounds_of floors.now) }
{
    for floor in floors {
        bounds.push(Constraint {
            floor: floor.copy(alloc)?,
        })?;
    }
    Ok(())
}

/// The bounds that a list of constraints spells, or the first fault.
///
/// Errors are `BadForm` at an atom, those of `read_constraints_over`, and want of memory.
#[tactic(auto, using(crate::proofs::BoundSteps::no_list, crate::proofs::BoundSteps::constraint_fails, crate::proofs::BoundSteps::constraint_kept, crate::proofs::BoundSteps::all_read))]
pub fn read_bounds<E: Expr>(alloc: Global, e: &E, names: &RuleNames) -> Result<Constraints, Fault>
    ensures { Answers result (bounds_at names.now (E.tree e.now)) }
{
    if !is_list(e) {
        return Err(refusal_at(e, Reason::BadForm));
    }
    let mut bounds = Constraints::new(alloc);
    for k in 0..e.len() {
        match read_constraints_over(alloc, e.item(k), names) {
            Ok(floors) => {
                let Ok(()) = keep(alloc, &mut bounds, floors.items()) else {
                    return Err(Fault::Memory);
                };
            }
            Err(fault) => return Err(fault),
        }
    }
    Ok(bounds)
}
