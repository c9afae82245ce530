//! Rows of the rules of comparisons, shifts, slices and joins.
use rare_law_parts::Step::{At, On, Param};
use rare_law_parts::bv_params::{
    I, J, K, L, N, NAME_0, NAME_1, NAME_2, NAME_3, NAME_4, ONE, US, VS, W, W_WIDTH, X, Y, ZERO,
};
use rare_law_parts::{PLAIN, Row, Sum};
use rare_sort::Head;

/// `bv-comp-elim  (bvcomp x y)  (ite (= x y) (bv 1 1) (bv 0 1))`
pub const BV_COMP_ELIM: Row = Row {
    name: b"bv-comp-elim",
    params: &[N, X, Y],
    left: &[Param(1), Param(2), On(Head::BvComp, 2)],
    right: &[
        Param(1),
        Param(2),
        On(Head::Equal, 2),
        At(Head::Bits(1), &[ONE], 0),
        At(Head::Bits(0), &[ONE], 0),
        On(Head::Ite, 3),
    ],
    ..PLAIN
};

/// `bv-shl-const  (bvshl x (bv k n))  (concat (extract (- n 1 k) 0 x) (bv 0 k))  where (>= k 1) (>= (- n 1) k)`
pub const BV_SHL_CONST: Row = Row {
    name: b"bv-shl-const",
    params: &[N, K, X],
    bounds: &[
        Sum {
            constant: -1,
            parts: &[(1, 1)],
        },
        Sum {
            constant: -1,
            parts: &[(0, 1), (1, -1)],
        },
    ],
    left: &[
        Param(2),
        At(Head::Literal, &[NAME_1, NAME_0], 0),
        On(Head::BvShl, 2),
    ],
    right: &[
        Param(2),
        At(
            Head::Extract,
            &[
                Sum {
                    constant: -1,
                    parts: &[(0, 1), (1, -1)],
                },
                ZERO,
            ],
            1,
        ),
        At(Head::Literal, &[ZERO, NAME_1], 0),
        On(Head::Concat, 2),
    ],
    constraints: &[
        Sum {
            constant: -1,
            parts: &[(1, 1)],
        },
        Sum {
            constant: -1,
            parts: &[(0, 1), (1, -1)],
        },
    ],
    ..PLAIN
};

/// `bv-lshr-const  (bvlshr x (bv k n))  (concat (bv 0 k) (extract (- n 1) k x))  where (>= k 1) (>= (- n 1) k)`
pub const BV_LSHR_CONST: Row = Row {
    name: b"bv-lshr-const",
    params: &[N, K, X],
    bounds: &[
        Sum {
            constant: -1,
            parts: &[(1, 1)],
        },
        Sum {
            constant: -1,
            parts: &[(0, 1), (1, -1)],
        },
    ],
    left: &[
        Param(2),
        At(Head::Literal, &[NAME_1, NAME_0], 0),
        On(Head::BvLshr, 2),
    ],
    right: &[
        At(Head::Literal, &[ZERO, NAME_1], 0),
        Param(2),
        At(
            Head::Extract,
            &[
                Sum {
                    constant: -1,
                    parts: &[(0, 1)],
                },
                NAME_1,
            ],
            1,
        ),
        On(Head::Concat, 2),
    ],
    constraints: &[
        Sum {
            constant: -1,
            parts: &[(1, 1)],
        },
        Sum {
            constant: -1,
            parts: &[(0, 1), (1, -1)],
        },
    ],
    ..PLAIN
};

/// `bv-extract-whole  (extract (- n 1) 0 x)  x`
pub const BV_EXTRACT_WHOLE: Row = Row {
    name: b"bv-extract-whole",
    params: &[N, X],
    left: &[
        Param(1),
        At(
            Head::Extract,
            &[
                Sum {
                    constant: -1,
                    parts: &[(0, 1)],
                },
                ZERO,
            ],
            1,
        ),
    ],
    right: &[Param(1)],
    ..PLAIN
};

/// `bv-extract-extract  (extract j i (extract l k x))  (extract (+ k j) (+ k i) x)`
pub const BV_EXTRACT_EXTRACT: Row = Row {
    name: b"bv-extract-extract",
    params: &[N, I, J, K, L, X],
    left: &[
        Param(5),
        At(Head::Extract, &[NAME_4, NAME_3], 1),
        At(Head::Extract, &[NAME_2, NAME_1], 1),
    ],
    right: &[
        Param(5),
        At(
            Head::Extract,
            &[
                Sum {
                    constant: 0,
                    parts: &[(2, 1), (3, 1)],
                },
                Sum {
                    constant: 0,
                    parts: &[(1, 1), (3, 1)],
                },
            ],
            1,
        ),
    ],
    constraints: &[
        Sum {
            constant: 0,
            parts: &[(3, -1), (4, 1)],
        },
        Sum {
            constant: -1,
            parts: &[(0, 1), (4, -1)],
        },
        Sum {
            constant: 0,
            parts: &[(1, -1), (2, 1)],
        },
        Sum {
            constant: 0,
            parts: &[(2, -1), (3, -1), (4, 1)],
        },
        Sum {
            constant: -1,
            parts: &[(0, 1), (2, -1), (3, -1)],
        },
    ],
    ..PLAIN
};

/// `bv-extract-concat-low  (extract j i (concat us w))  (extract j i w)  where (< j (bvsize w))`
pub const BV_EXTRACT_CONCAT_LOW: Row = Row {
    name: b"bv-extract-concat-low",
    params: &[I, J, US, W, W_WIDTH],
    bounds: &[Sum {
        constant: -1,
        parts: &[(1, -1), (4, 1)],
    }],
    left: &[
        Param(2),
        Param(3),
        On(Head::Concat, 2),
        At(Head::Extract, &[NAME_1, NAME_0], 1),
    ],
    right: &[Param(3), At(Head::Extract, &[NAME_1, NAME_0], 1)],
    constraints: &[
        Sum {
            constant: -1,
            parts: &[(1, -1), (4, 1)],
        },
        Sum {
            constant: 0,
            parts: &[(0, -1), (1, 1)],
        },
        Sum {
            constant: -1,
            parts: &[(1, -1), (2, 1), (4, 1)],
        },
    ],
    ..PLAIN
};

/// `bv-extract-concat-high  (extract j i (concat w us))  (extract (- j (bvsize us)) (- i (bvsize us)) w)  where (>= i (bvsize us))`
pub const BV_EXTRACT_CONCAT_HIGH: Row = Row {
    name: b"bv-extract-concat-high",
    params: &[I, J, US, W, W_WIDTH],
    bounds: &[Sum {
        constant: 0,
        parts: &[(0, 1), (2, -1)],
    }],
    left: &[
        Param(3),
        Param(2),
        On(Head::Concat, 2),
        At(Head::Extract, &[NAME_1, NAME_0], 1),
    ],
    right: &[
        Param(3),
        At(
            Head::Extract,
            &[
                Sum {
                    constant: 0,
                    parts: &[(1, 1), (2, -1)],
                },
                Sum {
                    constant: 0,
                    parts: &[(0, 1), (2, -1)],
                },
            ],
            1,
        ),
    ],
    constraints: &[
        Sum {
            constant: 0,
            parts: &[(0, 1), (2, -1)],
        },
        Sum {
            constant: 0,
            parts: &[(0, -1), (1, 1)],
        },
        Sum {
            constant: -1,
            parts: &[(1, -1), (2, 1), (4, 1)],
        },
    ],
    ..PLAIN
};

/// `bv-concat-extract  (concat us (extract k j x) (extract (- j 1) i x) vs)  (concat us (extract k i x) vs)`
pub const BV_CONCAT_EXTRACT: Row = Row {
    name: b"bv-concat-extract",
    params: &[N, I, J, K, X, US, VS],
    left: &[
        Param(5),
        Param(4),
        At(Head::Extract, &[NAME_3, NAME_2], 1),
        Param(4),
        At(
            Head::Extract,
            &[
                Sum {
                    constant: -1,
                    parts: &[(2, 1)],
                },
                NAME_1,
            ],
            1,
        ),
        Param(6),
        On(Head::Concat, 4),
    ],
    right: &[
        Param(5),
        Param(4),
        At(Head::Extract, &[NAME_3, NAME_1], 1),
        Param(6),
        On(Head::Concat, 3),
    ],
    constraints: &[
        Sum {
            constant: 0,
            parts: &[(2, -1), (3, 1)],
        },
        Sum {
            constant: -1,
            parts: &[(0, 1), (3, -1)],
        },
        Sum {
            constant: -1,
            parts: &[(1, -1), (2, 1)],
        },
        Sum {
            constant: 0,
            parts: &[(0, 1), (2, -1)],
        },
        Sum {
            constant: 0,
            parts: &[(1, -1), (3, 1)],
        },
    ],
    ..PLAIN
};

/// `bv-zero-extend  (zero_extend k x)  (concat (bv 0 k) x)  where (>= k 1)`
pub const BV_ZERO_EXTEND: Row = Row {
    name: b"bv-zero-extend",
    params: &[N, K, X],
    bounds: &[Sum {
        constant: -1,
        parts: &[(1, 1)],
    }],
    left: &[Param(2), At(Head::ZeroExtend, &[NAME_1], 1)],
    right: &[
        At(Head::Literal, &[ZERO, NAME_1], 0),
        Param(2),
        On(Head::Concat, 2),
    ],
    constraints: &[Sum {
        constant: -1,
        parts: &[(1, 1)],
    }],
    ..PLAIN
};
