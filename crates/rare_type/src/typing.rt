//! Types a rule.
ghost use Rattle.rare_rule.specs.Rules.{IsInForm};
ghost use Rattle.rare_type.specs.FirstCase.{rule_typing};
ghost use Rattle.rare_type.specs.TypeAnswers.{AnswersTyping};
ghost use Rattle.rare_type.specs.inner.Answering.{Reports};

use crate::error::TypeError;
use crate::kept::constraints_of;
use crate::linears::has_false;
use crate::sides::{floors_of, needs_of_sides};
use rare_linear::Constraints;
use rare_rule::{Rule, Typed};
use std::alloc::Global;

/// The constraints that a rule's typing gives.
pub(crate) fn constraints_by_typing(alloc: Global, rule: &Rule) -> Result<Constraints, TypeError>
    ensures { Reports (rule_typing rule.now) result }
{
    let floors = floors_of(alloc, rule.bounds.items())?;
    if has_false(floors.items()) {
        return Err(TypeError::NeverHolds);
    }
    let needs = needs_of_sides(alloc, rule)?;
    Ok(constraints_of(alloc, rule.params.items(), needs.items())?)
}

/// The rule with the constraints that its typing gives.
///
/// Errors: the first case in which the rule doesn't type, or `Memory`.
pub fn type_rule(alloc: Global, rule: Rule) -> Result<Typed, TypeError>
    requires form { IsInForm rule }
    ensures { AnswersTyping rule result }
{
    let constraints = constraints_by_typing(alloc, &rule)?;
    Ok(Typed::from_parts(rule, constraints))
}
