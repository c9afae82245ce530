//! The operators bit by bit.

ghost use Rattle.std.specs.Prelude.{◌≡◌};
ghost use Rattle.rare_bits.specs.Bits.{bvand, bvnot, bvor, bvxor};
ghost use Rattle.rare_wide.specs.Widths.{IsBitVector};

use crate::words::ones;

/// `bvnot`: each bit turned.
pub fn not(a: u128, width: u32) -> u128
    requires { IsBitVector width a }
    ensures { result ≡ bvnot width a }
{
    ones(width) - a
}

/// `bvand`: 1 where both bits are 1.
pub fn and(a: u128, b: u128, width: u32) -> u128
    requires first { IsBitVector width a }
    requires second { IsBitVector width b }
    ensures { result ≡ bvand width a b }
{
    a & b
}

/// `bvor`: 1 where a bit is 1.
pub fn or(a: u128, b: u128, width: u32) -> u128
    requires first { IsBitVector width a }
    requires second { IsBitVector width b }
    ensures { result ≡ bvor width a b }
{
    a | b
}

/// `bvxor`: 1 where exactly one bit is 1.
pub fn xor(a: u128, b: u128, width: u32) -> u128
    requires first { IsBitVector width a }
    requires second { IsBitVector width b }
    ensures { result ≡ bvxor width a b }
{
    a ^ b
}
