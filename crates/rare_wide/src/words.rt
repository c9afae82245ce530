//! All ones, and reduction modulo 2^width.

ghost use Rattle.std.specs.Prelude.{◌≡◌, ◌-◌, ◌%◌, ◌^◌, ◌≤◌};
ghost use Rattle.rare_wide.specs.Widths.{most_bits};

/// `width` ones.
pub fn ones(width: u32) -> u128
    requires low { 1 ≤ width }
    requires high { width ≤ most_bits }
    ensures { result ≡ 2 ^ width - 1 }
{
    u128::MAX >> (u128::BITS - width)
}

/// A number modulo 2^width.
pub fn reduce(a: u128, width: u32) -> u128
    requires low { 1 ≤ width }
    requires high { width ≤ most_bits }
    ensures { result ≡ a % 2 ^ width }
{
    a & ones(width)
}
