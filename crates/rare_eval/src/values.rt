//! Values within the limits of evaluation.
ghost use Rattle.std.specs.Prelude.{◌≡◌, ◌≤◌, unsigned_abs};
ghost use Rattle.rare_meaning.specs.Values.{truth_of, value_eq, whole_of};
ghost use Rattle.rare_eval.specs.Evaluation.{GREATEST_WHOLE};
ghost use Rattle.rare_eval.specs.Limited.{IsLimited};
ghost use Rattle.rare_eval.specs.ValueItems.{value_item};
ghost use Rattle.rare_eval.specs.inner.Ordinals.{value_ordinal};

/// A value that a term without names has: a truth value, a whole number, or a bit vector.
#[derive(Clone, Copy, Debug, PartialEq, Eq)]
pub enum Value {
    Truth(bool),
    Whole(i128),
    /// The number of a bit vector, which is below `2^width`.
    Bits { width: u32, value: u128 },
}

/// The truth value, and false where it is none.
pub(crate) fn truth(v: Value) -> bool
    ensures { result ≡ truth_of (value_item v).value }
{
    match v {
        Value::Truth(b) => b,
        _ => false,
    }
}

/// The whole number, and 0 where it is none.
pub(crate) fn number(v: Value) -> i128
    requires { IsLimited v }
    ensures number { result ≡ whole_of (value_item v).value }
    ensures limited { unsigned_abs result ≤ GREATEST_WHOLE }
{
    match v {
        Value::Whole(n) => n,
        _ => 0,
    }
}

/// Whether two values are one.
#[tactic(auto, using(rare_meaning::proofs::ValueLemmas::value_eq_refl))]
pub(crate) fn is_same(v: Value, w: Value) -> bool
    ensures { result ≡ value_eq (value_item v).value (value_item w).value }
{
    match (v, w) {
        (Value::Truth(a), Value::Truth(b)) => a == b,
        (Value::Whole(m), Value::Whole(n)) => m == n,
        (
            Value::Bits { width, value },
            Value::Bits {
                width: other,
                value: number,
            },
        ) => width == other && value == number,
        _ => false,
    }
}

/// The place of a value in a list of all values of its sort: false and true; 0, -1, 1, -2, 2 and so
/// on; bit vectors by their numbers. Values of one sort differ by it.
pub(crate) fn ordinal(v: Value) -> u128
    requires { IsLimited v }
    ensures { result ≡ value_ordinal (value_item v).value }
{
    match v {
        Value::Truth(b) => b as u128,
        Value::Whole(n) if n < 0 => 2 * n.unsigned_abs() - 1,
        Value::Whole(n) => 2 * n.unsigned_abs(),
        Value::Bits { width: _, value } => value,
    }
}
