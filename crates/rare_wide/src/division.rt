//! The five divisions, with what the standard gives where the divisor is 0.

ghost use Rattle.std.specs.Prelude.{◌≡◌};
ghost use Rattle.rare_bits.specs.Bits.{bvsdiv, bvsmod, bvsrem, bvudiv, bvurem};
ghost use Rattle.rare_wide.specs.Widths.{IsBitVector};

use crate::arithmetic::{add, neg, sub};
use crate::signs::{is_negative, magnitude};
use crate::words::ones;

/// `bvudiv`: the quotient, and all ones where `b` is 0.
pub fn udiv(a: u128, b: u128, width: u32) -> u128
    requires first { IsBitVector width a }
    requires second { IsBitVector width b }
    ensures { result ≡ bvudiv width a b }
{
    if b == 0 { ones(width) } else { a / b }
}

/// `bvurem`: the remainder, and `a` where `b` is 0.
pub fn urem(a: u128, b: u128, width: u32) -> u128
    requires first { IsBitVector width a }
    requires second { IsBitVector width b }
    ensures { result ≡ bvurem width a b }
{
    if b == 0 { a } else { a % b }
}

/// `bvsdiv`: the quotient in two's complement, rounded toward 0.
/// Where `b` is 0 it is 1 for a negative `a`, and else -1.
pub fn sdiv(a: u128, b: u128, width: u32) -> u128
    requires first { IsBitVector width a }
    requires second { IsBitVector width b }
    ensures { result ≡ bvsdiv width a b }
{
    let quotient = udiv(magnitude(a, width), magnitude(b, width), width);
    if is_negative(a, width) == is_negative(b, width) {
        quotient
    } else {
        neg(quotient, width)
    }
}

/// `bvsrem`: the remainder in two's complement, with the sign of `a`, and `a` where `b` is 0.
pub fn srem(a: u128, b: u128, width: u32) -> u128
    requires first { IsBitVector width a }
    requires second { IsBitVector width b }
    ensures { result ≡ bvsrem width a b }
{
    let remainder = urem(magnitude(a, width), magnitude(b, width), width);
    if is_negative(a, width) {
        neg(remainder, width)
    } else {
        remainder
    }
}

/// `bvsmod`: the remainder in two's complement, with the sign of `b`, and `a` where `b` is 0.
pub fn smod(a: u128, b: u128, width: u32) -> u128
    requires first { IsBitVector width a }
    requires second { IsBitVector width b }
    ensures { result ≡ bvsmod width a b }
{
    let remainder = urem(magnitude(a, width), magnitude(b, width), width);
    if remainder == 0 {
        return 0;
    }
    match (is_negative(a, width), is_negative(b, width)) {
        (false, false) => remainder,
        (true, false) => sub(b, remainder, width),
        (false, true) => add(remainder, b, width),
        (true, true) => neg(remainder, width),
    }
}
