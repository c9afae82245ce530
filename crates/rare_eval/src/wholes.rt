//! The operators of Ints on whole numbers.
ghost use Rattle.std.specs.Prelude.{◌≡◌, ℤ, ◌+ℤ◌, ◌-ℤ◌, ◌*ℤ◌, ◌≤◌, neg_ℤ, FitsSigned, SomeIff, IfSome, true, unsigned_abs, List, [], ◌∷◌, Some, None, if◌then◌else◌};
ghost use Rattle.std.specs.Int.{int_div_euclid, int_rem_euclid, w128};
ghost use Rattle.std.specs.Option.{option_map};
ghost use Rattle.rare_meaning.specs.Operators.{absolute_value, whole};
ghost use Rattle.rare_eval.specs.Evaluation.{evaluated, is_zero, GREATEST_WHOLE};
ghost use Rattle.rare_eval.specs.Limited.{IsLimited};
ghost use Rattle.rare_eval.specs.ValueItems.{value_item};
ghost use Rattle.rare_eval.specs.inner.Groups.{is_on_wholes};
ghost use Rattle.rare_eval.specs.inner.Cut.{limited};

use crate::values::{Value, number};
use rare_sort::Head;

/// The number, where it is within the limits.
fn in_limits(exact: Option<i128>) -> Option<i128>
    ensures value { (z : ℤ) → SomeIff exact (FitsSigned w128 z) z →
        option_map whole result ≡ limited (whole z) }
    ensures limited { IfSome result (λ n. unsigned_abs n ≤ GREATEST_WHOLE) }
{
    match exact {
        Some(n) if n > i128::MIN => Some(n),
        _ => None,
    }
}

fn sum(a: i128, b: i128) -> Option<i128>
    ensures value { option_map whole result ≡ limited (whole (a +ℤ b)) }
    ensures limited { IfSome result (λ n. unsigned_abs n ≤ GREATEST_WHOLE) }
{
    in_limits(a.checked_add(b))
}

fn difference(a: i128, b: i128) -> Option<i128>
    ensures value { option_map whole result ≡ limited (whole (a -ℤ b)) }
    ensures limited { IfSome result (λ n. unsigned_abs n ≤ GREATEST_WHOLE) }
{
    in_limits(a.checked_sub(b))
}

fn product(a: i128, b: i128) -> Option<i128>
    ensures value { option_map whole result ≡ limited (whole (a *ℤ b)) }
    ensures limited { IfSome result (λ n. unsigned_abs n ≤ GREATEST_WHOLE) }
{
    in_limits(a.checked_mul(b))
}

/// The quotient whose remainder is not negative; none by 0.
fn quotient(a: i128, b: i128) -> Option<i128>
    requires { unsigned_abs a ≤ GREATEST_WHOLE }
    ensures value { option_map whole result
        ≡ (if is_zero b then None else (limited (whole (int_div_euclid a b)))) }
    ensures limited { IfSome result (λ n. unsigned_abs n ≤ GREATEST_WHOLE) }
{
    if b == 0 {
        return None;
    }
    in_limits(Some(a.div_euclid(b)))
}

/// The remainder that is not negative; none by 0.
fn remainder(a: i128, b: i128) -> Option<i128>
    requires { unsigned_abs a ≤ GREATEST_WHOLE }
    ensures value { option_map whole result
        ≡ (if is_zero b then None else (limited (whole (int_rem_euclid a b)))) }
    ensures limited { IfSome result (λ n. unsigned_abs n ≤ GREATEST_WHOLE) }
{
    if b == 0 {
        return None;
    }
    in_limits(Some(a.rem_euclid(b)))
}

/// The value of an operator on two whole numbers.
#[tactic(auto, using(crate::proofs::StepLemmas::limited_in_limits))]
pub(crate) fn on_wholes(head: Head, a: Value, b: Value) -> Option<i128>
    requires first { IsLimited a }
    requires second { IsLimited b }
    ensures value { is_on_wholes head ≡ true → (ns : List ℤ) →
        option_map whole result ≡ evaluated head (Some ns)
        (Some (value_item a ∷ value_item b ∷ [])) }
    ensures limited { IfSome result (λ n. unsigned_abs n ≤ GREATEST_WHOLE) }
{
    match head {
        Head::Minus => difference(number(a), number(b)),
        Head::Add => sum(number(a), number(b)),
        Head::Mul => product(number(a), number(b)),
        Head::Div => quotient(number(a), number(b)),
        Head::Mod => remainder(number(a), number(b)),
        _ => None,
    }
}

/// The number with the other sign.
pub(crate) fn negative(a: i128) -> i128
    requires { unsigned_abs a ≤ GREATEST_WHOLE }
    ensures { result ≡ neg_ℤ a }
{
    -a
}

/// The number without its sign.
pub(crate) fn magnitude(a: i128) -> i128
    requires { unsigned_abs a ≤ GREATEST_WHOLE }
    ensures { result ≡ absolute_value a }
{
    if a < 0 { -a } else { a }
}
