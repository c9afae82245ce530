//! Slices, joins and the extension by the sign.

ghost use Rattle.std.specs.Prelude.{◌≡◌, ◌+◌, ◌<◌, ◌≤◌};
ghost use Rattle.rare_bits.specs.Bits.{concat, extract, sign_extend};
ghost use Rattle.rare_wide.specs.Widths.{IsBitVector, most_bits};

use crate::signs::is_negative;
use crate::words::{ones, reduce};

/// `extract`: the bits from `high` down to `low`, counted from 0 at the lowest bit.
pub fn slice(a: u128, high: u32, low: u32, width: u32) -> u128
    requires word { IsBitVector width a }
    requires ordered { low ≤ high }
    requires in_range { high < width }
    ensures { result ≡ extract high low a }
{
    reduce(a >> low, high - low + 1)
}

/// `concat`: `a`, of `aw` bits, above `b`, of `bw` bits.
pub fn join(a: u128, aw: u32, b: u128, bw: u32) -> u128
    requires above { IsBitVector aw a }
    requires below { IsBitVector bw b }
    requires room { aw + bw ≤ most_bits }
    ensures { result ≡ concat a bw b }
{
    (a << bw) | b
}

/// `sign_extend`: the same signed number with `by` more bits, which all are the top bit of `a`.
pub fn sign_extend(a: u128, width: u32, by: u32) -> u128
    requires word { IsBitVector width a }
    requires room { width + by ≤ most_bits }
    ensures { result ≡ sign_extend width by a }
{
    if is_negative(a, width) {
        a + (ones(width + by) - ones(width))
    } else {
        a
    }
}
