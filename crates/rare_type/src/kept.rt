//! The constraints that are left of what a rule asks for.
ghost use Rattle.std.specs.Prelude.{◌≡◌, ◌≤◌, ◌-◌, ◌*◌, unsigned_abs, [], not, pos, Some, IfOk};
ghost use Rattle.std.specs.List.{list_any};
ghost use Rattle.rare_linear.specs.EntailmentTest.{is_entailed};
ghost use Rattle.rare_sort.specs.Sameness.{linear_eq};
ghost use Rattle.rare_rule.specs.Params.{low_of_kind, rule_lows};
ghost use Rattle.rare_rule.specs.RuleSorting.{constraints_after};
ghost use Rattle.rare_type.specs.FirstCase.{floors};
ghost use Rattle.rare_type.specs.inner.Steps.{Falls, is_known};

use crate::linears::constant_of;
use rare_linear::{Constraint, Constraints, Linear};
use rare_rule::{Param, ParamKind};
use std::alloc::{AllocError, Global};

/// The least value of the name `k`: 1 of a width, 0 of any other.
fn low(params: &[Param], k: u32) -> u8
    ensures value { pos result ≡ rule_lows params.now k }
    ensures most { result ≤ 1 }
{
    match params.get(k as usize) {
        Some(param) => low_of_kind(&param.kind),
        None => 0,
    }
}

fn low_of_kind(kind: &ParamKind) -> u8
    ensures value { pos result ≡ low_of_kind (Some kind.now) }
    ensures most { result ≤ 1 }
{
    match kind {
        ParamKind::Width => 1,
        _ => 0,
    }
}

/// How far a number is below 0.
fn shortfall(n: i128) -> u128
    ensures { Falls n result }
{
    if n < 0 { n.unsigned_abs() } else { 0 }
}

/// What is missing behind the product of a low and a coefficient.
fn without_product(missing: u128, low: u8, coefficient: i128) -> u128
    requires low { low ≤ 1 }
    ensures { result ≡ missing - unsigned_abs coefficient * low }
{
    missing.saturating_sub(coefficient.unsigned_abs() * u128::from(low))
}

/// Whether the expression is at least 0 wherever each name is at its low or above: no coefficient
/// is negative, and none is missing where each name is at its low.
fn follows(params: &[Param], need: &Linear) -> bool
    ensures { result ≡ is_entailed (rule_lows params.now) [] need.now }
{
    let mut missing = shortfall(constant_of(need));
    for (name, coefficient) in need.parts() {
        if *coefficient < 0 {
            return false;
        }
        missing = without_product(missing, low(params, *name), *coefficient);
    }
    missing == 0
}

fn are_one(a: &Linear, b: &Linear) -> bool
    ensures { result ≡ linear_eq a.now b.now }
{
    a.is_same(b)
}

fn is_kept(kept: &[Constraint], need: &Linear) -> bool
    ensures { result ≡ list_any (linear_eq need.now) (floors kept.now) }
{
    for constraint in kept {
        if are_one(need, &constraint.floor) {
            return true;
        }
    }
    false
}

/// Whether the expression doesn't follow by itself, and isn't among those kept.
fn is_new(params: &[Param], kept: &[Constraint], need: &Linear) -> bool
    ensures { result ≡ not (is_known (rule_lows params.now) kept.now need.now) }
{
    !follows(params, need) && !is_kept(kept, need)
}

/// The constraints in order, without those that follow by themselves and without repeats.
pub(crate) fn constraints_of(
    alloc: Global,
    params: &[Param],
    needs: &[Linear],
) -> Result<Constraints, AllocError>
    ensures { IfOk result (λ cs. cs ≡ constraints_after (rule_lows params.now) [] needs.now) }
{
    let mut kept = Constraints::new(alloc);
    for need in needs {
        if is_new(params, kept.items(), need) {
            let floor = need.copy(alloc)?;
            kept.push(Constraint { floor })?;
        }
    }
    Ok(kept)
}
