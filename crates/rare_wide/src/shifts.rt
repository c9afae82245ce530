//! Shifts by any number of places, and rotations.

ghost use Rattle.std.specs.Prelude.{◌≡◌};
ghost use Rattle.rare_bits.specs.Bits.{bvashr, bvlshr, bvshl, rotate_left, rotate_right};
ghost use Rattle.rare_wide.specs.Widths.{IsBitVector};

use crate::bitwise::not;
use crate::signs::is_negative;
use crate::words::reduce;

/// `bvshl`: `a` times 2^b, modulo 2^width.
pub fn shl(a: u128, b: u128, width: u32) -> u128
    requires first { IsBitVector width a }
    requires second { IsBitVector width b }
    ensures { result ≡ bvshl width a b }
{
    shifted_left(a, b, width)
}

/// `bvlshr`: `a` divided by 2^b.
pub fn lshr(a: u128, b: u128, width: u32) -> u128
    requires first { IsBitVector width a }
    requires second { IsBitVector width b }
    ensures { result ≡ bvlshr width a b }
{
    shifted_right(a, b, width)
}

/// `bvashr`: as `lshr`, and the places that become free take the top bit of `a`.
pub fn ashr(a: u128, b: u128, width: u32) -> u128
    requires first { IsBitVector width a }
    requires second { IsBitVector width b }
    ensures { result ≡ bvashr width a b }
{
    if is_negative(a, width) {
        not(lshr(not(a, width), b, width), width)
    } else {
        lshr(a, b, width)
    }
}

/// `rotate_left`: each bit goes up by `by` modulo `width` places, and in again at the bottom.
pub fn rotate_left(a: u128, by: u32, width: u32) -> u128
    requires { IsBitVector width a }
    ensures { result ≡ rotate_left width by a }
{
    let places = by % width;
    shifted_left(a, places as u128, width) | shifted_right(a, (width - places) as u128, width)
}

/// `rotate_right`: each bit goes down by `by` modulo `width` places, and in again at the top.
pub fn rotate_right(a: u128, by: u32, width: u32) -> u128
    requires { IsBitVector width a }
    ensures { result ≡ rotate_right width by a }
{
    let places = by % width;
    shifted_right(a, places as u128, width) | shifted_left(a, (width - places) as u128, width)
}

/// `a` times 2^places, modulo 2^width, for any number of places.
fn shifted_left(a: u128, places: u128, width: u32) -> u128
    requires { IsBitVector width a }
    ensures { result ≡ bvshl width a places }
{
    if places < width as u128 {
        reduce(a << places as u32, width)
    } else {
        0
    }
}

/// `a` divided by 2^places, for any number of places.
fn shifted_right(a: u128, places: u128, width: u32) -> u128
    requires { IsBitVector width a }
    ensures { result ≡ bvlshr width a places }
{
    if places < width as u128 {
        a >> places as u32
    } else {
        0
    }
}
