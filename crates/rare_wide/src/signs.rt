//! The top bit as a sign, and the order of the signed numbers.

ghost use Rattle.std.specs.Prelude.{◌≡◌, ◌<ℤ◌, ◌↔◌, IsTrue};
ghost use Rattle.rare_bits.specs.Bits.{is_negative, magnitude, signed};
ghost use Rattle.rare_wide.specs.Widths.{IsBitVector};

use crate::arithmetic::neg;

/// Whether the top bit is 1.
pub fn is_negative(a: u128, width: u32) -> bool
    requires { IsBitVector width a }
    ensures { result ≡ is_negative width a }
{
    a >> (width - 1) == 1
}

/// `a`, negated where its top bit is 1.
pub fn magnitude(a: u128, width: u32) -> u128
    requires { IsBitVector width a }
    ensures { result ≡ magnitude width a }
{
    if is_negative(a, width) {
        neg(a, width)
    } else {
        a
    }
}

/// `bvslt`: whether `a` is less than `b`, both read in two's complement.
pub fn slt(a: u128, b: u128, width: u32) -> bool
    requires first { IsBitVector width a }
    requires second { IsBitVector width b }
    ensures { IsTrue result ↔ (signed width a <ℤ signed width b) }
{
    let negative = is_negative(a, width);
    if negative == is_negative(b, width) {
        a < b
    } else {
        negative
    }
}
