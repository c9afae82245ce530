//! Rows of the rules of arithmetic on bit vectors.
use rare_law_parts::Step::{At, On, Param};
use rare_law_parts::bv_params::{MINUS_ONE, N, NAME_0, ONE, X, XS, Y, YS, ZERO, ZS};
use rare_law_parts::{PLAIN, Row};
use rare_sort::Head;

/// `bv-add-zero  (bvadd xs (bv 0 n) ys)  (bvadd xs ys)`
pub const BV_ADD_ZERO: Row = Row {
    name: b"bv-add-zero",
    params: &[N, XS, YS],
    left: &[
        Param(1),
        At(Head::Literal, &[ZERO, NAME_0], 0),
        Param(2),
        On(Head::BvAdd, 3),
    ],
    right: &[Param(1), Param(2), On(Head::BvAdd, 2)],
    ..PLAIN
};

/// `bv-add-flat  (bvadd xs (bvadd ys) zs)  (bvadd xs ys zs)`
pub const BV_ADD_FLAT: Row = Row {
    name: b"bv-add-flat",
    params: &[N, XS, YS, ZS],
    left: &[
        Param(1),
        Param(2),
        On(Head::BvAdd, 1),
        Param(3),
        On(Head::BvAdd, 3),
    ],
    right: &[Param(1), Param(2), Param(3), On(Head::BvAdd, 3)],
    ..PLAIN
};

/// `bv-add-cancel  (bvadd xs x ys (bvneg x) zs)  (bvadd xs ys zs)`
pub const BV_ADD_CANCEL: Row = Row {
    name: b"bv-add-cancel",
    params: &[N, X, XS, YS, ZS],
    left: &[
        Param(2),
        Param(1),
        Param(3),
        Param(1),
        On(Head::BvNeg, 1),
        Param(4),
        On(Head::BvAdd, 5),
    ],
    right: &[Param(2), Param(3), Param(4), On(Head::BvAdd, 3)],
    ..PLAIN
};

/// `bv-mul-one  (bvmul xs (bv 1 n) ys)  (bvmul xs ys)`
pub const BV_MUL_ONE: Row = Row {
    name: b"bv-mul-one",
    params: &[N, XS, YS],
    left: &[
        Param(1),
        At(Head::Literal, &[ONE, NAME_0], 0),
        Param(2),
        On(Head::BvMul, 3),
    ],
    right: &[Param(1), Param(2), On(Head::BvMul, 2)],
    ..PLAIN
};

/// `bv-mul-zero  (bvmul xs (bv 0 n) ys)  (bv 0 n)`
pub const BV_MUL_ZERO: Row = Row {
    name: b"bv-mul-zero",
    params: &[N, XS, YS],
    left: &[
        Param(1),
        At(Head::Literal, &[ZERO, NAME_0], 0),
        Param(2),
        On(Head::BvMul, 3),
    ],
    right: &[At(Head::Literal, &[ZERO, NAME_0], 0)],
    ..PLAIN
};

/// `bv-neg-elim  (bvneg x)  (bvadd (bvnot x) (bv 1 n))`
pub const BV_NEG_ELIM: Row = Row {
    name: b"bv-neg-elim",
    params: &[N, X],
    left: &[Param(1), On(Head::BvNeg, 1)],
    right: &[
        Param(1),
        On(Head::BvNot, 1),
        At(Head::Literal, &[ONE, NAME_0], 0),
        On(Head::BvAdd, 2),
    ],
    ..PLAIN
};

/// `bv-sub-elim  (bvsub x y)  (bvadd x (bvneg y))`
pub const BV_SUB_ELIM: Row = Row {
    name: b"bv-sub-elim",
    params: &[N, X, Y],
    left: &[Param(1), Param(2), On(Head::BvSub, 2)],
    right: &[Param(1), Param(2), On(Head::BvNeg, 1), On(Head::BvAdd, 2)],
    ..PLAIN
};

/// `bv-ugt-elim  (bvugt x y)  (bvult y x)`
pub const BV_UGT_ELIM: Row = Row {
    name: b"bv-ugt-elim",
    params: &[N, X, Y],
    left: &[Param(1), Param(2), On(Head::BvUgt, 2)],
    right: &[Param(2), Param(1), On(Head::BvUlt, 2)],
    ..PLAIN
};

/// `bv-uge-elim  (bvuge x y)  (not (bvult x y))`
pub const BV_UGE_ELIM: Row = Row {
    name: b"bv-uge-elim",
    params: &[N, X, Y],
    left: &[Param(1), Param(2), On(Head::BvUge, 2)],
    right: &[Param(1), Param(2), On(Head::BvUlt, 2), On(Head::Not, 1)],
    ..PLAIN
};

/// `bv-ule-elim  (bvule x y)  (not (bvult y x))`
pub const BV_ULE_ELIM: Row = Row {
    name: b"bv-ule-elim",
    params: &[N, X, Y],
    left: &[Param(1), Param(2), On(Head::BvUle, 2)],
    right: &[Param(2), Param(1), On(Head::BvUlt, 2), On(Head::Not, 1)],
    ..PLAIN
};

/// `bv-sgt-elim  (bvsgt x y)  (bvslt y x)`
pub const BV_SGT_ELIM: Row = Row {
    name: b"bv-sgt-elim",
    params: &[N, X, Y],
    left: &[Param(1), Param(2), On(Head::BvSgt, 2)],
    right: &[Param(2), Param(1), On(Head::BvSlt, 2)],
    ..PLAIN
};

/// `bv-ult-refl  (bvult x x)  false`
pub const BV_ULT_REFL: Row = Row {
    name: b"bv-ult-refl",
    params: &[N, X],
    left: &[Param(1), Param(1), On(Head::BvUlt, 2)],
    right: &[On(Head::False, 0)],
    ..PLAIN
};

/// `bv-ult-zero  (bvult x (bv 0 n))  false`
pub const BV_ULT_ZERO: Row = Row {
    name: b"bv-ult-zero",
    params: &[N, X],
    left: &[
        Param(1),
        At(Head::Literal, &[ZERO, NAME_0], 0),
        On(Head::BvUlt, 2),
    ],
    right: &[On(Head::False, 0)],
    ..PLAIN
};

/// `bv-udiv-zero  (bvudiv x (bv 0 n))  (bv (- 1) n)`
pub const BV_UDIV_ZERO: Row = Row {
    name: b"bv-udiv-zero",
    params: &[N, X],
    left: &[
        Param(1),
        At(Head::Literal, &[ZERO, NAME_0], 0),
        On(Head::BvUdiv, 2),
    ],
    right: &[At(Head::Literal, &[MINUS_ONE, NAME_0], 0)],
    ..PLAIN
};

/// `bv-urem-zero  (bvurem x (bv 0 n))  x`
pub const BV_UREM_ZERO: Row = Row {
    name: b"bv-urem-zero",
    params: &[N, X],
    left: &[
        Param(1),
        At(Head::Literal, &[ZERO, NAME_0], 0),
        On(Head::BvUrem, 2),
    ],
    right: &[Param(1)],
    ..PLAIN
};
