//! The operators on two bit vectors of one width.
ghost use Rattle.std.specs.Prelude.{◌≡◌, ℤ, ◌<◌, ◌^◌, true, false, IfSome, List, [], ◌∷◌, Some, None};
ghost use Rattle.std.specs.Option.{option_map};
ghost use Rattle.rare_bits.specs.Bits.{bvcomp};
ghost use Rattle.rare_sort.specs.Families.{family};
ghost use Rattle.rare_meaning.specs.Operators.{bits, truth};
ghost use Rattle.rare_wide.specs.Widths.{IsBitVector};
ghost use Rattle.rare_eval.specs.Evaluation.{evaluated, operator_item};
ghost use Rattle.rare_eval.specs.Limited.{IsLimited};
ghost use Rattle.rare_eval.specs.ValueItems.{value_item};
ghost use Rattle.rare_eval.specs.inner.Groups.{is_on_bits, is_on_words, is_word_test};
ghost use Rattle.rare_eval.specs.inner.Suits.{Meet};

use crate::slices::join;
use crate::values::Value;
use rare_sort::Head;

/// The value of an operator on two bit vectors of this width.
fn on_words(head: Head, a: u128, b: u128, width: u32) -> Option<u128>
    requires first { IsBitVector width a }
    requires second { IsBitVector width b }
    ensures below { IfSome result (λ n. n < 2 ^ width) }
    ensures value { is_on_words head ≡ true → (ns : List ℤ) →
        option_map (bits width) result
        ≡ Some (operator_item head ns (bits width a ∷ bits width b ∷ [])) }
{
    match head {
        Head::BvAdd => Some(rare_wide::add(a, b, width)),
        Head::BvMul => Some(rare_wide::mul(a, b, width)),
        Head::BvAnd => Some(rare_wide::and(a, b, width)),
        Head::BvOr => Some(rare_wide::or(a, b, width)),
        Head::BvXor => Some(rare_wide::xor(a, b, width)),
        Head::BvSub => Some(rare_wide::sub(a, b, width)),
        Head::BvUdiv => Some(rare_wide::udiv(a, b, width)),
        Head::BvUrem => Some(rare_wide::urem(a, b, width)),
        Head::BvSdiv => Some(rare_wide::sdiv(a, b, width)),
        Head::BvSrem => Some(rare_wide::srem(a, b, width)),
        Head::BvSmod => Some(rare_wide::smod(a, b, width)),
        Head::BvShl => Some(rare_wide::shl(a, b, width)),
        Head::BvLshr => Some(rare_wide::lshr(a, b, width)),
        Head::BvAshr => Some(rare_wide::ashr(a, b, width)),
        Head::BvNand => Some(rare_wide::not(rare_wide::and(a, b, width), width)),
        Head::BvNor => Some(rare_wide::not(rare_wide::or(a, b, width), width)),
        Head::BvXnor => Some(rare_wide::not(rare_wide::xor(a, b, width), width)),
        _ => None,
    }
}

/// The truth of a comparison of two bit vectors of this width.
fn word_test(head: Head, a: u128, b: u128, width: u32) -> Option<bool>
    requires first { IsBitVector width a }
    requires second { IsBitVector width b }
    ensures only { is_word_test head ≡ false → result ≡ None }
    ensures value { is_word_test head ≡ true → (ns : List ℤ) →
        option_map truth result ≡ Some (operator_item head ns (bits width a ∷ bits width b ∷ [])) }
{
    match head {
        Head::BvUlt => Some(a < b),
        Head::BvUle => Some(a <= b),
        Head::BvUgt => Some(a > b),
        Head::BvUge => Some(a >= b),
        Head::BvSlt => Some(rare_wide::slt(a, b, width)),
        Head::BvSle => Some(!rare_wide::slt(b, a, width)),
        Head::BvSgt => Some(rare_wide::slt(b, a, width)),
        Head::BvSge => Some(!rare_wide::slt(a, b, width)),
        _ => None,
    }
}

/// `bvcomp`: one bit, which is 1 where the numbers are equal.
fn comparison(a: u128, b: u128) -> Value
    ensures value { value_item result ≡ bits 1 (bvcomp a b) }
    ensures limited { IsLimited result }
{
    Value::Bits {
        width: 1,
        value: if a == b { 1 } else { 0 },
    }
}

/// The value of an operator on two bit vectors, of one width but for `concat`.
pub(crate) fn on_two_words(head: Head, a: Value, b: Value) -> Option<Value>
    requires first { IsLimited a }
    requires second { IsLimited b }
    ensures value { is_on_bits head ≡ true → Meet (family head) (value_item a) (value_item b) →
        (ns : List ℤ) → option_map value_item result
        ≡ evaluated head (Some ns) (Some (value_item a ∷ value_item b ∷ [])) }
    ensures limited { IfSome result IsLimited }
{
    let Value::Bits { width, value: a } = a else {
        return None;
    };
    let Value::Bits {
        width: other,
        value: b,
    } = b
    else {
        return None;
    };
    match head {
        Head::Concat => join(a, width, b, other),
        _ if width != other => None,
        Head::BvComp => Some(comparison(a, b)),
        _ => match word_test(head, a, b, width) {
            Some(holds) => Some(Value::Truth(holds)),
            None => Some(Value::Bits {
                width,
                value: on_words(head, a, b, width)?,
            }),
        }
    }
}
