//! Literals of a left side whose value is the name of an argument.
ghost use Rattle.std.specs.Prelude.{◌≡◌, ◌∷◌, [], ℕ, ◌^◌, ◌&&◌, int_le, int_lt, nat_lt, pos, length, Some, Option, IfOk};
ghost use Rattle.std.specs.Ordering.{int_eq};
ghost use Rattle.rare_linear.specs.Linears.{NamesBelow};
ghost use Rattle.rare_sort.specs.Sameness.{linear_eq, parts_eq};
ghost use Rattle.rare_sort.specs.Sorting.{name};
ghost use Rattle.rare_sort.specs.DeclaredSorts.{AreNamed};
ghost use Rattle.rare_sort.specs.SortRules.{number_in};
ghost use Rattle.rare_sort.specs.declared.head.Head.{Head};
ghost use Rattle.rare_sort.specs.declared.head.Head.TheVariants as head;
ghost use Rattle.rare_rule.specs.Nodes.{walk};
ghost use Rattle.rare_inst.specs.Admission as spec;
ghost use Rattle.rare_inst.specs.Substituting.{Substitution};
ghost use Rattle.rare_inst.specs.inner.RuleTrees.{IsRuleTree};
ghost use Rattle.rare_inst.specs.inner.Standing.{StandsFor};

use crate::substitution::Numbers;
use rare_linear::Linear;
use rare_sort::{Head, Tree, number_of};
use std::alloc::AllocError;

fn is_zero(n: i128) -> bool
    ensures { result ≡ int_eq n (pos 0) }
{
    n == 0
}

/// Whether the parts are name `k` with coefficient 1 alone.
fn are_one(parts: &[(u32, i128)], k: usize) -> bool
    ensures { result ≡ parts_eq parts.now ((k, pos 1) ∷ []) }
{
    match parts {
        [(name, coefficient)] => *name as usize == k && *coefficient == 1,
        _ => false,
    }
}

/// Whether the expression is name `k` alone.
fn is_name(e: &Linear, k: usize) -> bool
    ensures { result ≡ linear_eq e.now (name k) }
{
    is_zero(e.offset()) && are_one(e.parts(), k)
}

/// Whether a number is below `2^width`.
fn is_below_power(n: u128, width: u128) -> bool
    ensures { result ≡ nat_lt n (2 ^ width) }
{
    if width >= 128 {
        return true;
    }
    n < (1u128 << (width as u32))
}

/// Whether the value lies from 0 to `2^width - 1`.
fn lies_below(value: i128, width: u128) -> bool
    ensures { result ≡ (int_le (pos 0) value && int_lt value (pos (2 ^ width))) }
{
    if value < 0 {
        return false;
    }
    is_below_power(value.unsigned_abs(), width)
}

/// Whether the value lies from 0 to `2^width - 1`, where the width is at least 1.
fn is_value_of_width(value: i128, width: i128) -> bool
    ensures { result ≡ spec.is_value_of (Some value) (Some width) }
{
    if width < 1 {
        return true;
    }
    lies_below(value, width.unsigned_abs())
}

/// The same, where both are numbers.
fn is_value_of(value: Option<i128>, width: Option<i128>) -> bool
    ensures { result ≡ spec.is_value_of value width }
{
    match (value, width) {
        (Some(value), Some(width)) => is_value_of_width(value, width),
        _ => true,
    }
}

/// The number that the expression is with what stands for its names.
fn number_put(numbers: &Numbers, e: &Linear) -> Result<Option<i128>, AllocError>
    requires { NamesBelow (length numbers.now.values) e.now.parts }
    ensures { (a : Substitution) → StandsFor a numbers.now →
        IfOk result (λ o. o ≡ spec.put_number a e.now) }
{
    match numbers.put(e)? {
        Some(sum) => Ok(number_of(&sum)),
        None => Ok(None),
    }
}

/// Whether the value fits the width, where the literal's own value is name `k` alone.
fn fits_width(
    numbers: &Numbers,
    k: usize,
    value: Option<i128>,
    own: &Linear,
    width: &Linear,
) -> Result<bool, AllocError>
    requires { NamesBelow (length numbers.now.values) width.now.parts }
    ensures { (a : Substitution) → StandsFor a numbers.now → number_in (a.number k) ≡ value →
        IfOk result (λ b. b ≡ spec.fits_literal a k head.Literal (own.now ∷ width.now ∷ [])) }
{
    if is_name(own, k) {
        Ok(is_value_of(value, number_put(numbers, width)?))
    } else {
        Ok(true)
    }
}

/// Whether the value fits the operator, if it is a literal whose own value is name `k` alone.
fn fits_literal(
    numbers: &Numbers,
    k: usize,
    value: Option<i128>,
    head: Head,
    indices: &[Linear],
) -> Result<bool, AllocError>
    requires { AreNamed (length numbers.now.values) indices.now }
    ensures { (a : Substitution) → StandsFor a numbers.now → number_in (a.number k) ≡ value →
        IfOk result (λ b. b ≡ spec.fits_literal a k head indices.now) }
{
    match (head, indices) {
        (Head::Literal, [own, width]) => fits_width(numbers, k, value, own, width),
        _ => Ok(true),
    }
}

/// Whether the value fits each literal of the tree whose own value is name `k` alone.
pub(crate) fn fits_literals(
    numbers: &Numbers,
    k: usize,
    value: Option<i128>,
    tree: &Tree,
) -> Result<bool, AllocError>
    requires { IsRuleTree (length numbers.now.values) tree.now }
    ensures { (a : Substitution) → StandsFor a numbers.now → number_in (a.number k) ≡ value →
        (parent : Option Head) →
        IfOk result (λ b. b ≡ spec.fits_literals a k ((walk tree.now).nodes parent)) }
{
    for arg in tree.args.items() {
        if !fits_literals(numbers, k, value, arg)? {
            return Ok(false);
        }
    }
    fits_literal(numbers, k, value, tree.head, tree.indices.items())
}
