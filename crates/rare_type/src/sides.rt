//! All that a rule asks to be at least 0.
ghost use Rattle.std.specs.Prelude.{◌≡◌, ◌++◌, true, IfOk, OnOk};
ghost use Rattle.rare_sort.specs.Rulings.{all_within};
ghost use Rattle.rare_type.specs.FirstCase.{context_typed, floors, premises_typed, rest_typed, sides_typed, typed_sort};
ghost use Rattle.rare_type.specs.inner.Answering.{Reports, spec_place};
ghost use Rattle.rare_type.specs.inner.Steps.{right_typed};

use crate::error::TypeError;
use crate::linears::{append, constant_of};
use crate::place::Place;
use crate::tree::type_tree;
use rare_linear::{Constraint, Linear, Linears};
use rare_rule::{Param, Rule};
use rare_sort::{Sort, Tree};
use std::alloc::{AllocError, Global};

/// What constraints ask to be at least 0.
pub(crate) fn floors_of(alloc: Global, bounds: &[Constraint]) -> Result<Linears, AllocError>
    ensures floors { IfOk result (λ es. es ≡ floors bounds.now) }
    ensures within { OnOk result (all_within (floors bounds.now) ≡ true) }
{
    let mut needs = Linears::new(alloc);
    for bound in bounds {
        let _constant = constant_of(&bound.floor);
        needs.push(bound.floor.copy(alloc)?)?;
    }
    Ok(needs)
}

/// What premises ask for.
fn premise_needs(alloc: Global, params: &[Param], premises: &[Tree]) -> Result<Linears, TypeError>
    ensures { Reports (premises_typed params.now premises.now) result }
{
    let mut needs = Linears::new(alloc);
    for premise in premises {
        let found = type_tree(alloc, params, None, premise, Some(&Sort::Bool))?;
        append(alloc, &mut needs, found.needs.items())?;
    }
    Ok(needs)
}

/// What the context asks for, if there is one, in a rule of this sort.
fn context_needs(
    alloc: Global,
    params: &[Param],
    sort: &Sort,
    context: &Option<Tree>,
) -> Result<Linears, TypeError>
    ensures { Reports (context_typed params.now sort.now context.now) result }
{
    match context {
        Some(tree) => Ok(type_tree(alloc, params, Some(sort), tree, Some(sort))?.needs),
        None => Ok(Linears::new(alloc)),
    }
}

/// What the right side asks for.
fn right_needs(
    alloc: Global,
    params: &[Param],
    sort: &Sort,
    right: &Tree,
) -> Result<Linears, TypeError>
    ensures { Reports (right_typed params.now sort.now right.now) result }
{
    Ok(type_tree(alloc, params, None, right, Some(sort))?.needs)
}

/// What the parts behind the left side ask for, in a rule of this sort.
fn rest_needs(alloc: Global, rule: &Rule, sort: &Sort) -> Result<Linears, TypeError>
    ensures { Reports (rest_typed rule.now sort.now) result }
{
    let params = rule.params.items();
    let mut needs = premise_needs(alloc, params, rule.premises.items())?;
    let right = right_needs(alloc, params, sort, &rule.right)?;
    let context = context_needs(alloc, params, sort, &rule.context)?;
    append(alloc, &mut needs, right.items())?;
    append(alloc, &mut needs, context.items())?;
    Ok(needs)
}

/// The sort of a side.
fn sort_of_side(place: Place) -> Result<Sort, TypeError>
    ensures { Reports (typed_sort (spec_place place)) result }
{
    match place {
        Place::One(sort) => Ok(sort),
        _ => Err(TypeError::Clash),
    }
}

/// The floors, what the left side asks for, and the rest.
fn in_order(
    alloc: Global,
    bounds: &[Constraint],
    left: &[Linear],
    rest: &[Linear],
) -> Result<Linears, AllocError>
    ensures { IfOk result (λ es. es ≡ floors bounds.now ++ (left.now ++ rest.now)) }
{
    let mut needs = floors_of(alloc, bounds)?;
    append(alloc, &mut needs, left)?;
    append(alloc, &mut needs, rest)?;
    Ok(needs)
}

/// All that a rule asks to be at least 0, in order.
pub(crate) fn needs_of_sides(alloc: Global, rule: &Rule) -> Result<Linears, TypeError>
    ensures { Reports (sides_typed rule.now) result }
{
    let left = type_tree(alloc, rule.params.items(), None, &rule.left, None)?;
    let sort = sort_of_side(left.place)?;
    let rest = rest_needs(alloc, rule, &sort)?;
    let bounds = rule.bounds.items();
    Ok(in_order(alloc, bounds, left.needs.items(), rest.items())?)
}
