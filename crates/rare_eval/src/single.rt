//! Operators without arguments and with one.
ghost use Rattle.std.specs.Prelude.{◌≡◌, ℤ, ◌%◌, ◌^◌, true, IfSome, List, [], ◌∷◌, Some};
ghost use Rattle.std.specs.Option.{option_map};
ghost use Rattle.rare_meaning.specs.ClosedSorts.{to_nat};
ghost use Rattle.rare_meaning.specs.Operators.{bits, index};
ghost use Rattle.rare_meaning.specs.Values.{width_of};
ghost use Rattle.rare_wide.specs.Widths.{IsBitVector};
ghost use Rattle.rare_eval.specs.Evaluation.{evaluated};
ghost use Rattle.rare_eval.specs.Limited.{IsLimited};
ghost use Rattle.rare_eval.specs.ValueItems.{value_item};
ghost use Rattle.rare_eval.specs.inner.Groups.{is_constant, is_on_two, is_on_word, is_single};
ghost use Rattle.rare_eval.specs.inner.Cut.{limited};
ghost use Rattle.rare_eval.specs.inner.Suits.{AreMet, IsWordFor};

use crate::slices::{
    left_rotation, repetition, right_rotation, sign_extension, slice, zero_extension,
};
use crate::values::{Value, number, truth};
use crate::wholes::{magnitude, negative};
use rare_sort::Head;

/// A bit vector of this width, its value modulo `2^width`, where the width is from 1 to 128.
fn literal(value: u128, width: i128) -> Option<Value>
    ensures value { option_map value_item result
        ≡ limited (bits (to_nat width) (value % 2 ^ to_nat width)) }
    ensures limited { IfSome result IsLimited }
{
    if width < 1 || width > 128 {
        return None;
    }
    if width == 128 {
        return Some(Value::Bits { width: 128, value });
    }
    let width = width as u32;
    Some(Value::Bits {
        width,
        value: value % (1u128 << width),
    })
}

/// The value of an operator without arguments; `first` is the number of its index, if it has one.
pub(crate) fn constant(head: Head, first: i128) -> Option<Value>
    ensures value { is_constant head ≡ true → (ns : List ℤ) → index 0 ns ≡ to_nat first →
        option_map value_item result ≡ evaluated head (Some ns) (Some []) }
    ensures limited { IfSome result IsLimited }
{
    match head {
        Head::True => Some(Value::Truth(true)),
        Head::False => Some(Value::Truth(false)),
        Head::Numeral(n) if n <= i128::MAX.cast_unsigned() => Some(Value::Whole(n as i128)),
        Head::Bits(value) => literal(value, first),
        _ => None,
    }
}

/// The value of an operator on one bit vector, by the numbers of its indices, 0 where there is none.
fn on_word(head: Head, first: i128, second: i128, a: u128, width: u32) -> Option<Value>
    requires { IsBitVector width a }
    ensures value { is_on_word head ≡ true → AreMet head first second width → (ns : List ℤ) →
        index 0 ns ≡ to_nat first → index 1 ns ≡ to_nat second →
        option_map value_item result ≡ evaluated head (Some ns) (Some (bits width a ∷ [])) }
    ensures limited { IfSome result IsLimited }
{
    match head {
        Head::BvNot => Some(Value::Bits {
            width,
            value: rare_wide::not(a, width),
        }),
        Head::BvNeg => Some(Value::Bits {
            width,
            value: rare_wide::neg(a, width),
        }),
        Head::Extract => slice(a, width, first, second),
        Head::ZeroExtend => zero_extension(a, width, first),
        Head::SignExtend => sign_extension(a, width, first),
        Head::RotateLeft => left_rotation(a, width, first),
        Head::RotateRight => right_rotation(a, width, first),
        Head::Repeat => repetition(a, width, first),
        _ => None,
    }
}

/// The value of an operator on one value. Where the operator is computed on two at a time, it is the
/// value that it made of them.
pub(crate) fn on_one(head: Head, first: i128, second: i128, a: Value) -> Option<Value>
    requires { IsLimited a }
    ensures single { is_single head ≡ true → IsWordFor head (value_item a) → (ns : List ℤ) →
        index 0 ns ≡ to_nat first → index 1 ns ≡ to_nat second →
        AreMet head first second (width_of (value_item a).sort) →
        option_map value_item result ≡ evaluated head (Some ns) (Some (value_item a ∷ [])) }
    ensures made { is_on_two head ≡ true → result ≡ Some a }
    ensures limited { IfSome result IsLimited }
{
    match head {
        Head::Not => Some(Value::Truth(!truth(a))),
        Head::Neg => Some(Value::Whole(negative(number(a)))),
        Head::Abs => Some(Value::Whole(magnitude(number(a)))),
        Head::BvNot
        | Head::BvNeg
        | Head::Extract
        | Head::ZeroExtend
        | Head::SignExtend
        | Head::RotateLeft
        | Head::RotateRight
        | Head::Repeat => match a {
            Value::Bits { width, value } => on_word(head, first, second, value, width),
            _ => None,
        },
        _ => Some(a),
    }
}
