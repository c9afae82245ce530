//! How far the arguments of an application are evaluated, one after another.
ghost use Rattle.std.specs.Prelude.{◌≡◌, ℤ, ◌&&◌, true, IfSome, List, [], ◌∷◌, ◌++◌, Some};
ghost use Rattle.std.specs.Option.{option_map};
ghost use Rattle.rare_sort.specs.Families.{family};
ghost use Rattle.rare_meaning.specs.ClosedSorts.{to_nat};
ghost use Rattle.rare_meaning.specs.Operators.{index};
ghost use Rattle.rare_meaning.specs.Settings.{Item};
ghost use Rattle.rare_eval.specs.Evaluation.{evaluated};
ghost use Rattle.rare_eval.specs.Limited.{IsLimited};
ghost use Rattle.rare_eval.specs.ValueItems.{value_item};
ghost use Rattle.rare_eval.specs.inner.Groups.{is_on_two};
ghost use Rattle.rare_eval.specs.inner.Suits.{Meet, Suits};
ghost use Rattle.rare_eval.specs.inner.Progress.{chain_truth, is_chain, link_test, neighbour_test, is_other, AreLimited, Continues, IsAfter, IsFull, IsLed};

use crate::single::{constant, on_one};
use crate::truths::on_truths;
use crate::values::{Value, is_same, number, truth};
use crate::wholes::on_wholes;
use crate::words::on_two_words;
use rare_sort::Head;

/// What is known after some arguments.
#[derive(Clone, Copy, Debug)]
pub(crate) enum Progress {
    /// No argument yet.
    Start,
    /// The only argument, or the value of the operator on those so far.
    One(Value),
    /// Condition and first branch of `ite`.
    Two(Value, Value),
    /// Condition and both branches.
    Three(Value, Value, Value),
    /// Whether all neighbours so far pass the test, and the last argument.
    Chain(bool, Value),
}

/// The value of an operator on two values.
fn on_two(head: Head, a: Value, b: Value) -> Option<Value>
    requires first { IsLimited a }
    requires second { IsLimited b }
    ensures value { is_on_two head ≡ true → Meet (family head) (value_item a) (value_item b) →
        (ns : List ℤ) →
        option_map value_item result ≡ evaluated head (Some ns)
        (Some (value_item a ∷ value_item b ∷ [])) }
    ensures limited { IfSome result IsLimited }
{
    match head {
        Head::And | Head::Or | Head::Xor => {
            Some(Value::Truth(on_truths(head, truth(a), truth(b))?))
        }
        Head::Minus | Head::Add | Head::Mul | Head::Div | Head::Mod => {
            Some(Value::Whole(on_wholes(head, a, b)?))
        }
        _ => on_two_words(head, a, b),
    }
}

/// Whether neighbours pass the test of a chain.
fn are_neighbours(head: Head, a: Value, b: Value) -> bool
    requires first { IsLimited a }
    requires second { IsLimited b }
    ensures { is_chain head ≡ true → result ≡ neighbour_test head (value_item a).value
        (value_item b).value }
{
    match head {
        Head::Implies => truth(a),
        Head::Equal => is_same(a, b),
        Head::Distinct => !is_same(a, b),
        Head::Le => number(a) <= number(b),
        Head::Lt => number(a) < number(b),
        Head::Ge => number(a) >= number(b),
        Head::Gt => number(a) > number(b),
        _ => false,
    }
}

/// Whether all neighbours pass the test with one argument more. No three truth values differ.
fn is_linked(head: Head, holds: bool, last: Value, v: Value) -> bool
    requires last { IsLimited last }
    requires value { IsLimited v }
    ensures { is_chain head ≡ true →
        result ≡ (holds && link_test head (value_item last).value (value_item v).value) }
{
    holds && head != Head::Distinct && are_neighbours(head, last, v)
}

/// What is known of an operator that is computed on two values at a time, after one argument more.
fn after_two(head: Head, a: Value, v: Value) -> Option<Progress>
    requires first { IsLimited a }
    requires second { IsLimited v }
    ensures step { (ns : List ℤ) (is : List Item) → is_other head ≡ true →
        IsLed head ns is (value_item a) →
        Suits head (is ++ value_item v ∷ []) → Continues head ns (is ++ value_item v ∷ []) result }
    ensures limited { IfSome result AreLimited }
{
    match on_two(head, a, v) {
        Some(x) => Some(Progress::One(x)),
        None => None,
    }
}

/// What is known after one argument more, or none where the application has no value then.
pub(crate) fn next(head: Head, progress: Progress, v: Value) -> Option<Progress>
    requires progress { AreLimited progress }
    requires value { IsLimited v }
    ensures step { (ns : List ℤ) (is : List Item) → IsAfter head ns is progress →
        Suits head (is ++ value_item v ∷ []) →
        Continues head ns (is ++ value_item v ∷ []) result }
    ensures limited { IfSome result AreLimited }
{
    match progress {
        Progress::Start => Some(Progress::One(v)),
        Progress::One(a) => match head {
            Head::Ite => Some(Progress::Two(a, v)),
            Head::Implies
            | Head::Equal
            | Head::Distinct
            | Head::Le
            | Head::Lt
            | Head::Ge
            | Head::Gt => Some(Progress::Chain(are_neighbours(head, a, v), v)),
            _ => after_two(head, a, v),
        },
        Progress::Two(a, b) => Some(Progress::Three(a, b, v)),
        Progress::Three(_, _, _) => None,
        Progress::Chain(holds, last) => Some(Progress::Chain(is_linked(head, holds, last, v), v)),
    }
}

/// What a chain comes to.
fn chain_truth(head: Head, holds: bool, last: Value) -> bool
    ensures { result ≡ chain_truth head holds (value_item last).value }
{
    match head {
        Head::Implies => !holds || truth(last),
        _ => holds,
    }
}

/// The value of an application after all its arguments, by the numbers of its indices, 0 where there is
/// none.
pub(crate) fn finish(head: Head, first: i128, second: i128, progress: Progress) -> Option<Value>
    requires { AreLimited progress }
    ensures value { (ns : List ℤ) (is : List Item) → index 0 ns ≡ to_nat first →
        index 1 ns ≡ to_nat second →
        IsAfter head ns is progress → IsFull head first second is →
        option_map value_item result ≡ evaluated head (Some ns) (Some is) }
    ensures limited { IfSome result IsLimited }
{
    match progress {
        Progress::Start => constant(head, first),
        Progress::One(a) => on_one(head, first, second, a),
        Progress::Two(_, _) => None,
        Progress::Three(condition, yes, no) => Some(if truth(condition) { yes } else { no }),
        Progress::Chain(holds, last) => Some(Value::Truth(chain_truth(head, holds, last))),
    }
}
