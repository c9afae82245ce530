//! The operators that join, cut, extend, rotate and repeat bit vectors.
ghost use Rattle.std.specs.Prelude.{◌≡◌, ℤ, ◌+◌, ◌-◌, ◌*◌, ◌%◌, ◌<◌, ◌≤◌, ◌≤ℤ◌, pos, IfSome, List, [], ◌∷◌, Some};
ghost use Rattle.std.specs.Option.{option_map};
ghost use Rattle.rare_bits.specs.Bits.{concat, extract, repeat, rotate_left, rotate_right, sign_extend};
ghost use Rattle.rare_meaning.specs.ClosedSorts.{to_nat};
ghost use Rattle.rare_meaning.specs.Operators.{bits};
ghost use Rattle.rare_wide.specs.Widths.{IsBitVector, most_bits};
ghost use Rattle.rare_eval.specs.Limited.{IsLimited};
ghost use Rattle.rare_eval.specs.ValueItems.{value_item};
ghost use Rattle.rare_eval.specs.inner.Cut.{limited};

use crate::values::Value;

/// The greatest width that is computed.
const MOST_BITS: u32 = 128;

/// `concat`, where the result has at most 128 bits.
pub(crate) fn join(a: u128, aw: u32, b: u128, bw: u32) -> Option<Value>
    requires above { IsBitVector aw a }
    requires below { IsBitVector bw b }
    ensures value { option_map value_item result ≡ limited (bits (aw + bw) (concat a bw b)) }
    ensures limited { IfSome result IsLimited }
{
    if aw + bw > MOST_BITS {
        return None;
    }
    Some(Value::Bits {
        width: aw + bw,
        value: rare_wide::join(a, aw, b, bw),
    })
}

/// `(_ extract high low)`.
#[tactic(auto, using(crate::proofs::SliceLemmas::slice_below))]
pub(crate) fn slice(a: u128, width: u32, high: i128, low: i128) -> Option<Value>
    requires word { IsBitVector width a }
    ensures value { pos 0 ≤ℤ low → low ≤ℤ high → to_nat high < width →
        option_map value_item result
        ≡ limited (bits (to_nat high - to_nat low + 1) (extract (to_nat high) (to_nat low) a)) }
    ensures limited { IfSome result IsLimited }
{
    if low < 0 || high < low || high >= width as i128 {
        return None;
    }
    Some(Value::Bits {
        width: (high - low) as u32 + 1,
        value: rare_wide::slice(a, high as u32, low as u32, width),
    })
}

/// `(_ zero_extend by)`, where the result has at most 128 bits.
#[tactic(auto, using(crate::proofs::SliceLemmas::wider_below))]
pub(crate) fn zero_extension(a: u128, width: u32, by: i128) -> Option<Value>
    requires word { IsBitVector width a }
    ensures value { pos 0 ≤ℤ by → option_map value_item result
        ≡ limited (bits (width + to_nat by) a) }
    ensures limited { IfSome result IsLimited }
{
    if by < 0 || by > (MOST_BITS - width) as i128 {
        return None;
    }
    Some(Value::Bits {
        width: width + by as u32,
        value: a,
    })
}

/// `(_ sign_extend by)`, where the result has at most 128 bits.
#[tactic(auto, using(crate::proofs::SliceLemmas::extension_below))]
pub(crate) fn sign_extension(a: u128, width: u32, by: i128) -> Option<Value>
    requires word { IsBitVector width a }
    ensures value { pos 0 ≤ℤ by → option_map value_item result ≡
        limited (bits (width + to_nat by) (sign_extend width (to_nat by) a)) }
    ensures limited { IfSome result IsLimited }
{
    if by < 0 || by > (MOST_BITS - width) as i128 {
        return None;
    }
    Some(Value::Bits {
        width: width + by as u32,
        value: rare_wide::sign_extend(a, width, by as u32),
    })
}

/// The places by which a rotation by a number from 0 on moves the bits.
#[tactic(auto, using(crate::proofs::SliceLemmas::places))]
fn places(by: i128, width: u32) -> u32
    requires width { 1 ≤ width }
    requires by { pos 0 ≤ℤ by }
    ensures { result ≡ to_nat by % width }
{
    (by % width as i128) as u32
}

/// `(_ rotate_left by)`.
#[tactic(auto, using(crate::proofs::SliceLemmas::rotation_left, crate::proofs::SliceLemmas::left_below))]
pub(crate) fn left_rotation(a: u128, width: u32, by: i128) -> Option<Value>
    requires word { IsBitVector width a }
    ensures value { pos 0 ≤ℤ by → option_map value_item result
        ≡ Some (bits width (rotate_left width (to_nat by) a)) }
    ensures limited { IfSome result IsLimited }
{
    if by < 0 {
        return None;
    }
    Some(Value::Bits {
        width,
        value: rare_wide::rotate_left(a, places(by, width), width),
    })
}

/// `(_ rotate_right by)`.
#[tactic(auto, using(crate::proofs::SliceLemmas::rotation_right, crate::proofs::SliceLemmas::right_below))]
pub(crate) fn right_rotation(a: u128, width: u32, by: i128) -> Option<Value>
    requires word { IsBitVector width a }
    ensures value { pos 0 ≤ℤ by → option_map value_item result
        ≡ Some (bits width (rotate_right width (to_nat by) a)) }
    ensures limited { IfSome result IsLimited }
{
    if by < 0 {
        return None;
    }
    Some(Value::Bits {
        width,
        value: rare_wide::rotate_right(a, places(by, width), width),
    })
}

/// So many copies, one above another.
#[tactic(auto, using(crate::proofs::SliceLemmas::copies_below))]
fn copies(a: u128, width: u32, times: u32) -> u128
    requires word { IsBitVector width a }
    requires some { 1 ≤ times }
    requires room { times * width ≤ most_bits }
    ensures { result ≡ repeat width times a }
{
    if times == 1 {
        return a;
    }
    let above = copies(a, width, times - 1);
    rare_wide::join(above, (times - 1) * width, a, width)
}

/// `(_ repeat times)`, where the result has at most 128 bits.
#[tactic(auto, using(crate::proofs::SliceLemmas::copies_below))]
pub(crate) fn repetition(a: u128, width: u32, times: i128) -> Option<Value>
    requires word { IsBitVector width a }
    ensures value { pos 1 ≤ℤ times → option_map value_item result ≡
        limited (bits (to_nat times * width) (repeat width (to_nat times) a)) }
    ensures limited { IfSome result IsLimited }
{
    if times < 1 || times > MOST_BITS as i128 {
        return None;
    }
    let times = times as u32;
    if times * width > MOST_BITS {
        return None;
    }
    Some(Value::Bits {
        width: times * width,
        value: copies(a, width, times),
    })
}
