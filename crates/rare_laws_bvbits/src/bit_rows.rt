//! Rows of the rules of operators that go bit by bit.
use rare_law_parts::Step::{At, On, Param};
use rare_law_parts::bv_params::{MINUS_ONE, N, NAME_0, X, XS, Y, YS, ZERO, ZS};
use rare_law_parts::{PLAIN, Row};
use rare_rule::RuleKind;
use rare_sort::Head;

/// `bv-and-ones  (bvand xs (bv (- 1) n) ys)  (bvand xs ys)`
pub const BV_AND_ONES: Row = Row {
    name: b"bv-and-ones",
    params: &[N, XS, YS],
    left: &[
        Param(1),
        At(Head::Literal, &[MINUS_ONE, NAME_0], 0),
        Param(2),
        On(Head::BvAnd, 3),
    ],
    right: &[Param(1), Param(2), On(Head::BvAnd, 2)],
    ..PLAIN
};

/// `bv-and-zero  (bvand xs (bv 0 n) ys)  (bv 0 n)`
pub const BV_AND_ZERO: Row = Row {
    name: b"bv-and-zero",
    params: &[N, XS, YS],
    left: &[
        Param(1),
        At(Head::Literal, &[ZERO, NAME_0], 0),
        Param(2),
        On(Head::BvAnd, 3),
    ],
    right: &[At(Head::Literal, &[ZERO, NAME_0], 0)],
    ..PLAIN
};

/// `bv-and-flat  (bvand xs (bvand ys) zs)  (bvand xs ys zs)`
pub const BV_AND_FLAT: Row = Row {
    name: b"bv-and-flat",
    params: &[N, XS, YS, ZS],
    left: &[
        Param(1),
        Param(2),
        On(Head::BvAnd, 1),
        Param(3),
        On(Head::BvAnd, 3),
    ],
    right: &[Param(1), Param(2), Param(3), On(Head::BvAnd, 3)],
    ..PLAIN
};

/// `bv-and-dup  (bvand xs x ys x zs)  (bvand xs x ys zs)`
pub const BV_AND_DUP: Row = Row {
    name: b"bv-and-dup",
    params: &[N, X, XS, YS, ZS],
    left: &[
        Param(2),
        Param(1),
        Param(3),
        Param(1),
        Param(4),
        On(Head::BvAnd, 5),
    ],
    right: &[Param(2), Param(1), Param(3), Param(4), On(Head::BvAnd, 4)],
    ..PLAIN
};

/// `bv-and-compl  (bvand xs x ys (bvnot x) zs)  (bv 0 n)`
pub const BV_AND_COMPL: Row = Row {
    name: b"bv-and-compl",
    params: &[N, X, XS, YS, ZS],
    left: &[
        Param(2),
        Param(1),
        Param(3),
        Param(1),
        On(Head::BvNot, 1),
        Param(4),
        On(Head::BvAnd, 5),
    ],
    right: &[At(Head::Literal, &[ZERO, NAME_0], 0)],
    ..PLAIN
};

/// `bv-and-de-morgan  (bvnot (bvand x y xs))  (bvnot (bvand y xs))  context (bvor (bvnot x) _)`
pub const BV_AND_DE_MORGAN: Row = Row {
    name: b"bv-and-de-morgan",
    kind: RuleKind::Fixed,
    params: &[N, X, Y, XS],
    left: &[
        Param(1),
        Param(2),
        Param(3),
        On(Head::BvAnd, 3),
        On(Head::BvNot, 1),
    ],
    right: &[Param(2), Param(3), On(Head::BvAnd, 2), On(Head::BvNot, 1)],
    context: Some(&[
        Param(1),
        On(Head::BvNot, 1),
        On(Head::Hole, 0),
        On(Head::BvOr, 2),
    ]),
    ..PLAIN
};

/// `bv-or-zero  (bvor xs (bv 0 n) ys)  (bvor xs ys)`
pub const BV_OR_ZERO: Row = Row {
    name: b"bv-or-zero",
    params: &[N, XS, YS],
    left: &[
        Param(1),
        At(Head::Literal, &[ZERO, NAME_0], 0),
        Param(2),
        On(Head::BvOr, 3),
    ],
    right: &[Param(1), Param(2), On(Head::BvOr, 2)],
    ..PLAIN
};

/// `bv-or-ones  (bvor xs (bv (- 1) n) ys)  (bv (- 1) n)`
pub const BV_OR_ONES: Row = Row {
    name: b"bv-or-ones",
    params: &[N, XS, YS],
    left: &[
        Param(1),
        At(Head::Literal, &[MINUS_ONE, NAME_0], 0),
        Param(2),
        On(Head::BvOr, 3),
    ],
    right: &[At(Head::Literal, &[MINUS_ONE, NAME_0], 0)],
    ..PLAIN
};

/// `bv-or-flat  (bvor xs (bvor ys) zs)  (bvor xs ys zs)`
pub const BV_OR_FLAT: Row = Row {
    name: b"bv-or-flat",
    params: &[N, XS, YS, ZS],
    left: &[
        Param(1),
        Param(2),
        On(Head::BvOr, 1),
        Param(3),
        On(Head::BvOr, 3),
    ],
    right: &[Param(1), Param(2), Param(3), On(Head::BvOr, 3)],
    ..PLAIN
};

/// `bv-or-compl  (bvor xs x ys (bvnot x) zs)  (bv (- 1) n)`
pub const BV_OR_COMPL: Row = Row {
    name: b"bv-or-compl",
    params: &[N, X, XS, YS, ZS],
    left: &[
        Param(2),
        Param(1),
        Param(3),
        Param(1),
        On(Head::BvNot, 1),
        Param(4),
        On(Head::BvOr, 5),
    ],
    right: &[At(Head::Literal, &[MINUS_ONE, NAME_0], 0)],
    ..PLAIN
};

/// `bv-xor-zero  (bvxor xs (bv 0 n) ys)  (bvxor xs ys)`
pub const BV_XOR_ZERO: Row = Row {
    name: b"bv-xor-zero",
    params: &[N, XS, YS],
    left: &[
        Param(1),
        At(Head::Literal, &[ZERO, NAME_0], 0),
        Param(2),
        On(Head::BvXor, 3),
    ],
    right: &[Param(1), Param(2), On(Head::BvXor, 2)],
    ..PLAIN
};

/// `bv-xor-ones  (bvxor xs (bv (- 1) n) ys)  (bvnot (bvxor xs ys))`
pub const BV_XOR_ONES: Row = Row {
    name: b"bv-xor-ones",
    params: &[N, XS, YS],
    left: &[
        Param(1),
        At(Head::Literal, &[MINUS_ONE, NAME_0], 0),
        Param(2),
        On(Head::BvXor, 3),
    ],
    right: &[Param(1), Param(2), On(Head::BvXor, 2), On(Head::BvNot, 1)],
    ..PLAIN
};

/// `bv-xor-dup  (bvxor xs x ys x zs)  (bvxor xs ys zs)`
pub const BV_XOR_DUP: Row = Row {
    name: b"bv-xor-dup",
    params: &[N, X, XS, YS, ZS],
    left: &[
        Param(2),
        Param(1),
        Param(3),
        Param(1),
        Param(4),
        On(Head::BvXor, 5),
    ],
    right: &[Param(2), Param(3), Param(4), On(Head::BvXor, 3)],
    ..PLAIN
};

/// `bv-not-not  (bvnot (bvnot x))  x`
pub const BV_NOT_NOT: Row = Row {
    name: b"bv-not-not",
    params: &[N, X],
    left: &[Param(1), On(Head::BvNot, 1), On(Head::BvNot, 1)],
    right: &[Param(1)],
    ..PLAIN
};
