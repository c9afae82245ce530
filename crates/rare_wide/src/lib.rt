//! The operators of SMT-LIB 2.6 on bit vectors of 1 to 128 bits, each held in a `u128`:
//! those of the theory FixedSizeBitVectors and of the logic QF_BV.
//!
//! A bit vector of `width` bits is its number, which is below 2^width. Each call needs widths from
//! 1 to 128 and operands below 2^width, and gives exactly the operator's value, as
//! `rare_bits/specs/Bits.antt` defines it. By the laws of `rare_bits` this value is below 2^width, or
//! below the power of two of the wider result. No call takes memory or fails.
#![tactic(auto)]

mod arithmetic;
mod bitwise;
mod division;
mod parts;
mod shifts;
mod signs;
mod words;

pub use arithmetic::{add, mul, neg, sub};
pub use bitwise::{and, not, or, xor};
pub use division::{sdiv, smod, srem, udiv, urem};
pub use parts::{join, sign_extend, slice};
pub use shifts::{ashr, lshr, rotate_left, rotate_right, shl};
pub use signs::slt;

#[cfg(test)]
mod tests;
