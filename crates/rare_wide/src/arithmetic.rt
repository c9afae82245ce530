//! Sums, differences, products and negation, modulo 2^width.

ghost use Rattle.std.specs.Prelude.{◌≡◌};
ghost use Rattle.rare_bits.specs.Bits.{bvadd, bvmul, bvneg, bvsub};
ghost use Rattle.rare_wide.specs.Widths.{IsBitVector};

use crate::words::reduce;

/// `bvadd`: the sum modulo 2^width.
pub fn add(a: u128, b: u128, width: u32) -> u128
    requires first { IsBitVector width a }
    requires second { IsBitVector width b }
    ensures { result ≡ bvadd width a b }
{
    reduce(a.wrapping_add(b), width)
}

/// `bvsub`: the difference modulo 2^width.
pub fn sub(a: u128, b: u128, width: u32) -> u128
    requires first { IsBitVector width a }
    requires second { IsBitVector width b }
    ensures { result ≡ bvsub width a b }
{
    reduce(a.wrapping_sub(b), width)
}

/// `bvmul`: the product modulo 2^width.
pub fn mul(a: u128, b: u128, width: u32) -> u128
    requires first { IsBitVector width a }
    requires second { IsBitVector width b }
    ensures { result ≡ bvmul width a b }
{
    reduce(a.wrapping_mul(b), width)
}

/// `bvneg`: 2^width less `a`, modulo 2^width.
pub fn neg(a: u128, width: u32) -> u128
    requires { IsBitVector width a }
    ensures { result ≡ bvneg width a }
{
    sub(0, a, width)
}
