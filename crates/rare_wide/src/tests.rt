//! Values worked by hand from the standard, at widths 1, 4 and 128.

ghost use Rattle.rare_wide.specs.Widths.{IsBitVector};

use crate::words::ones;
use crate::{
    add, and, ashr, join, lshr, mul, neg, not, or, rotate_left, rotate_right, sdiv, shl,
    sign_extend, slice, slt, smod, srem, sub, udiv, urem, xor,
};
use std::process::Abort;

#[derive(Clone, Copy, Debug)]
enum Operator {
    Add,
    Sub,
    Mul,
    Udiv,
    Urem,
    Sdiv,
    Srem,
    Smod,
    Shl,
    Lshr,
    Ashr,
    And,
    Or,
    Xor,
    Not,
    Neg,
    Slt,
}

/// The operator's value, where `Not` and `Neg` leave `b` aside and `Slt` gives 1 for true.
fn value(operator: Operator, a: u128, b: u128, width: u32) -> u128
    requires first { IsBitVector width a }
    requires second { IsBitVector width b }
{
    match operator {
        Operator::Add => add(a, b, width),
        Operator::Sub => sub(a, b, width),
        Operator::Mul => mul(a, b, width),
        Operator::Udiv => udiv(a, b, width),
        Operator::Urem => urem(a, b, width),
        Operator::Sdiv => sdiv(a, b, width),
        Operator::Srem => srem(a, b, width),
        Operator::Smod => smod(a, b, width),
        Operator::Shl => shl(a, b, width),
        Operator::Lshr => lshr(a, b, width),
        Operator::Ashr => ashr(a, b, width),
        Operator::And => and(a, b, width),
        Operator::Or => or(a, b, width),
        Operator::Xor => xor(a, b, width),
        Operator::Not => not(a, width),
        Operator::Neg => neg(a, width),
        Operator::Slt => slt(a, b, width) as u128,
    }
}

fn expect_bit_vector(rt: &impl Abort, a: u128, width: u32)
    ensures { IsBitVector width a }
{
    assert!(rt; 1 <= width);
    assert!(rt; width <= 128);
    assert!(rt; a <= ones(width));
}

const MAX: u128 = u128::MAX;

const TOP: u128 = 1 << 127;

/// Operator, operands, width, and the value by the definitions of SMT-LIB 2.6.
const ROWS: [(Operator, u128, u128, u32, u128); 80] = [
    (Operator::Sdiv, 0b1000, 0b1111, 4, 0b1000),
    (Operator::Smod, 0b1111, 0b1000, 4, 0b1111),
    (Operator::Smod, 0b1000, 0b0000, 4, 0b1000),
    (Operator::Sdiv, 0b1000, 0b0000, 4, 0b0001),
    (Operator::Udiv, 0b1111, 0b0000, 4, 0b1111),
    (Operator::Mul, MAX, MAX, 128, 1),
    (Operator::Add, 1, 1, 1, 0),
    (Operator::Add, 0b1001, 0b1000, 4, 0b0001),
    (Operator::Add, MAX, 1, 128, 0),
    (Operator::Sub, 0, 1, 1, 1),
    (Operator::Sub, 0b0011, 0b0101, 4, 0b1110),
    (Operator::Sub, 0, 1, 128, MAX),
    (Operator::Mul, 1, 1, 1, 1),
    (Operator::Mul, 0b1010, 0b0011, 4, 0b1110),
    (Operator::Mul, TOP, 2, 128, 0),
    (Operator::Neg, 1, 0, 1, 1),
    (Operator::Neg, 0b0001, 0, 4, 0b1111),
    (Operator::Neg, 0, 0, 4, 0),
    (Operator::Neg, TOP, 0, 128, TOP),
    (Operator::Udiv, 1, 0, 1, 1),
    (Operator::Udiv, 0b1101, 0b0100, 4, 0b0011),
    (Operator::Udiv, MAX, TOP, 128, 1),
    (Operator::Udiv, MAX, 0, 128, MAX),
    (Operator::Urem, 1, 0, 1, 1),
    (Operator::Urem, 0b1101, 0b0100, 4, 0b0001),
    (Operator::Urem, 0b1011, 0b0000, 4, 0b1011),
    (Operator::Urem, MAX, TOP, 128, TOP - 1),
    (Operator::Sdiv, 1, 1, 1, 1),
    (Operator::Sdiv, 0b0111, 0b1110, 4, 0b1101),
    (Operator::Sdiv, 0b1001, 0b0010, 4, 0b1101),
    (Operator::Sdiv, 0b1001, 0b1110, 4, 0b0011),
    (Operator::Sdiv, 0b0101, 0b0000, 4, 0b1111),
    (Operator::Sdiv, TOP, MAX, 128, TOP),
    (Operator::Srem, 1, 0, 1, 1),
    (Operator::Srem, 0b0111, 0b1110, 4, 0b0001),
    (Operator::Srem, 0b1001, 0b0010, 4, 0b1111),
    (Operator::Srem, 0b1001, 0b1110, 4, 0b1111),
    (Operator::Srem, 0b1001, 0b0000, 4, 0b1001),
    (Operator::Srem, TOP, 3, 128, MAX - 1),
    (Operator::Smod, 1, 1, 1, 0),
    (Operator::Smod, 0b0111, 0b0010, 4, 0b0001),
    (Operator::Smod, 0b1010, 0b0100, 4, 0b0010),
    (Operator::Smod, 0b0111, 0b1110, 4, 0b1111),
    (Operator::Smod, 0b1001, 0b1110, 4, 0b1111),
    (Operator::Smod, 3, TOP, 128, TOP + 3),
    (Operator::Not, 0, 0, 1, 1),
    (Operator::Not, 0b0101, 0, 4, 0b1010),
    (Operator::Not, TOP, 0, 128, TOP - 1),
    (Operator::And, 1, 0, 1, 0),
    (Operator::And, 0b1100, 0b1010, 4, 0b1000),
    (Operator::And, MAX, TOP, 128, TOP),
    (Operator::Or, 1, 0, 1, 1),
    (Operator::Or, 0b1100, 0b1010, 4, 0b1110),
    (Operator::Or, TOP, 1, 128, TOP + 1),
    (Operator::Xor, 1, 1, 1, 0),
    (Operator::Xor, 0b1100, 0b1010, 4, 0b0110),
    (Operator::Xor, MAX, TOP, 128, TOP - 1),
    (Operator::Shl, 1, 1, 1, 0),
    (Operator::Shl, 0b0011, 0b0011, 4, 0b1000),
    (Operator::Shl, 0b1111, 0b0100, 4, 0),
    (Operator::Shl, 1, 127, 128, TOP),
    (Operator::Shl, MAX, MAX, 128, 0),
    (Operator::Lshr, 1, 1, 1, 0),
    (Operator::Lshr, 0b1100, 0b0010, 4, 0b0011),
    (Operator::Lshr, 0b1111, 0b0100, 4, 0),
    (Operator::Lshr, 0b1111, 0b1111, 4, 0),
    (Operator::Lshr, TOP, 127, 128, 1),
    (Operator::Lshr, MAX, 128, 128, 0),
    (Operator::Ashr, 1, 1, 1, 1),
    (Operator::Ashr, 0b1010, 0b0001, 4, 0b1101),
    (Operator::Ashr, 0b0110, 0b0001, 4, 0b0011),
    (Operator::Ashr, 0b1000, 0b0100, 4, 0b1111),
    (Operator::Ashr, 0b0111, 0b1111, 4, 0),
    (Operator::Ashr, TOP, MAX, 128, MAX),
    (Operator::Slt, 1, 0, 1, 1),
    (Operator::Slt, 0b1000, 0b0111, 4, 1),
    (Operator::Slt, 0b0111, 0b1000, 4, 0),
    (Operator::Slt, 0b1110, 0b1111, 4, 1),
    (Operator::Slt, 0b0101, 0b0101, 4, 0),
    (Operator::Slt, MAX, TOP, 128, 0),
];

#[test]
fn operators(rt: HostRuntime) {
    for (operator, a, b, width, want) in ROWS {
        expect_bit_vector(&rt, a, width);
        expect_bit_vector(&rt, b, width);
        assert_eq!(rt;
            value(operator, a, b, width),
            want,
            "{operator:?} {a} {b} at {width}"
        );
    }
}

/// A bit vector, the places, the width, and it rotated to the left and to the right.
const ROTATIONS: [(u128, u32, u32, u128, u128); 8] = [
    (1, 5, 1, 1, 1),
    (0b0011, 1, 4, 0b0110, 0b1001),
    (0b1001, 4, 4, 0b1001, 0b1001),
    (0b1001, 5, 4, 0b0011, 0b1100),
    (0b1001, 7, 4, 0b1100, 0b0011),
    (TOP, 1, 128, 1, 1 << 126),
    (TOP, 128, 128, TOP, TOP),
    (1, 127, 128, TOP, 2),
];

#[test]
fn rotations(rt: HostRuntime) {
    for (a, by, width, left, right) in ROTATIONS {
        expect_bit_vector(&rt, a, width);
        assert_eq!(rt; rotate_left(a, by, width), left, "{a} by {by} at {width}");
        assert_eq!(rt; rotate_right(a, by, width), right, "{a} by {by} at {width}");
    }
}

#[test]
fn parts(rt: HostRuntime) {
    assert_eq!(rt; slice(1, 0, 0, 1), 1);
    assert_eq!(rt; slice(0b1010, 2, 1, 4), 0b01);
    assert_eq!(rt; slice(0b1010, 3, 3, 4), 1);
    assert_eq!(rt; slice(MAX, 127, 0, 128), MAX);
    assert_eq!(rt; slice(TOP, 127, 127, 128), 1);
    assert_eq!(rt; slice(TOP, 126, 0, 128), 0);

    assert_eq!(rt; join(1, 1, 0, 1), 0b10);
    assert_eq!(rt; join(0b10, 2, 0b011, 3), 0b10011);
    assert_eq!(rt; join(1, 1, TOP - 1, 127), MAX);

    assert_eq!(rt; sign_extend(1, 1, 3), 0b1111);
    assert_eq!(rt; sign_extend(0b1000, 4, 4), 0b1111_1000);
    assert_eq!(rt; sign_extend(0b0111, 4, 4), 0b0111);
    assert_eq!(rt; sign_extend(0b1010, 4, 0), 0b1010);
    assert_eq!(rt; sign_extend(1, 1, 127), MAX);
    assert_eq!(rt; sign_extend(TOP, 128, 0), TOP);
}
