//! Rows of the rules of theory Ints.
use crate::params::{I, IS, J, JS, K, KS};
use rare_law_parts::Step::{On, Param};
use rare_law_parts::{PLAIN, Row};
use rare_rule::RuleKind;
use rare_sort::Head;

/// `int-add-zero  (+ is 0 js)  (+ is js)`
pub const INT_ADD_ZERO: Row = Row {
    name: b"int-add-zero",
    params: &[IS, JS],
    left: &[
        Param(0),
        On(Head::Numeral(0), 0),
        Param(1),
        On(Head::Add, 3),
    ],
    right: &[Param(0), Param(1), On(Head::Add, 2)],
    ..PLAIN
};

/// `int-add-flat  (+ is (+ js) ks)  (+ is js ks)`
pub const INT_ADD_FLAT: Row = Row {
    name: b"int-add-flat",
    params: &[IS, JS, KS],
    left: &[
        Param(0),
        Param(1),
        On(Head::Add, 1),
        Param(2),
        On(Head::Add, 3),
    ],
    right: &[Param(0), Param(1), Param(2), On(Head::Add, 3)],
    ..PLAIN
};

/// `int-add-comm  (+ i j)  (+ j i)`
pub const INT_ADD_COMM: Row = Row {
    name: b"int-add-comm",
    params: &[I, J],
    left: &[Param(0), Param(1), On(Head::Add, 2)],
    right: &[Param(1), Param(0), On(Head::Add, 2)],
    ..PLAIN
};

/// `int-add-cancel  (+ is i js (- i) ks)  (+ is js ks)`
pub const INT_ADD_CANCEL: Row = Row {
    name: b"int-add-cancel",
    params: &[I, IS, JS, KS],
    left: &[
        Param(1),
        Param(0),
        Param(2),
        Param(0),
        On(Head::Neg, 1),
        Param(3),
        On(Head::Add, 5),
    ],
    right: &[Param(1), Param(2), Param(3), On(Head::Add, 3)],
    ..PLAIN
};

/// `int-mul-one  (* is 1 js)  (* is js)`
pub const INT_MUL_ONE: Row = Row {
    name: b"int-mul-one",
    params: &[IS, JS],
    left: &[
        Param(0),
        On(Head::Numeral(1), 0),
        Param(1),
        On(Head::Mul, 3),
    ],
    right: &[Param(0), Param(1), On(Head::Mul, 2)],
    ..PLAIN
};

/// `int-mul-zero  (* is 0 js)  0`
pub const INT_MUL_ZERO: Row = Row {
    name: b"int-mul-zero",
    params: &[IS, JS],
    left: &[
        Param(0),
        On(Head::Numeral(0), 0),
        Param(1),
        On(Head::Mul, 3),
    ],
    right: &[On(Head::Numeral(0), 0)],
    ..PLAIN
};

/// `int-minus-self  (- i i)  0`
pub const INT_MINUS_SELF: Row = Row {
    name: b"int-minus-self",
    params: &[I],
    left: &[Param(0), Param(0), On(Head::Minus, 2)],
    right: &[On(Head::Numeral(0), 0)],
    ..PLAIN
};

/// `int-sub-elim  (- i j)  (+ i (- j))`
pub const INT_SUB_ELIM: Row = Row {
    name: b"int-sub-elim",
    params: &[I, J],
    left: &[Param(0), Param(1), On(Head::Minus, 2)],
    right: &[Param(0), Param(1), On(Head::Neg, 1), On(Head::Add, 2)],
    ..PLAIN
};

/// `int-neg-neg  (- (- i))  i`
pub const INT_NEG_NEG: Row = Row {
    name: b"int-neg-neg",
    params: &[I],
    left: &[Param(0), On(Head::Neg, 1), On(Head::Neg, 1)],
    right: &[Param(0)],
    ..PLAIN
};

/// `int-distrib  (* i (+ j k))  (+ (* i j) (* i k))`
pub const INT_DISTRIB: Row = Row {
    name: b"int-distrib",
    params: &[I, J, K],
    left: &[
        Param(0),
        Param(1),
        Param(2),
        On(Head::Add, 2),
        On(Head::Mul, 2),
    ],
    right: &[
        Param(0),
        Param(1),
        On(Head::Mul, 2),
        Param(0),
        Param(2),
        On(Head::Mul, 2),
        On(Head::Add, 2),
    ],
    ..PLAIN
};

/// `int-gt-elim  (> i j)  (not (<= i j))`
pub const INT_GT_ELIM: Row = Row {
    name: b"int-gt-elim",
    params: &[I, J],
    left: &[Param(0), Param(1), On(Head::Gt, 2)],
    right: &[Param(0), Param(1), On(Head::Le, 2), On(Head::Not, 1)],
    ..PLAIN
};

/// `int-lt-elim  (< i j)  (not (<= j i))`
pub const INT_LT_ELIM: Row = Row {
    name: b"int-lt-elim",
    params: &[I, J],
    left: &[Param(0), Param(1), On(Head::Lt, 2)],
    right: &[Param(1), Param(0), On(Head::Le, 2), On(Head::Not, 1)],
    ..PLAIN
};

/// `int-ge-elim  (>= i j)  (<= j i)`
pub const INT_GE_ELIM: Row = Row {
    name: b"int-ge-elim",
    params: &[I, J],
    left: &[Param(0), Param(1), On(Head::Ge, 2)],
    right: &[Param(1), Param(0), On(Head::Le, 2)],
    ..PLAIN
};

/// `int-le-refl  (<= i i)  true`
pub const INT_LE_REFL: Row = Row {
    name: b"int-le-refl",
    params: &[I],
    left: &[Param(0), Param(0), On(Head::Le, 2)],
    right: &[On(Head::True, 0)],
    ..PLAIN
};

/// `int-div-one  (div i 1)  i`
pub const INT_DIV_ONE: Row = Row {
    name: b"int-div-one",
    params: &[I],
    left: &[Param(0), On(Head::Numeral(1), 0), On(Head::Div, 2)],
    right: &[Param(0)],
    ..PLAIN
};

/// `int-mod-one  (mod i 1)  0`
pub const INT_MOD_ONE: Row = Row {
    name: b"int-mod-one",
    params: &[I],
    left: &[Param(0), On(Head::Numeral(1), 0), On(Head::Mod, 2)],
    right: &[On(Head::Numeral(0), 0)],
    ..PLAIN
};

/// `int-mod-small  (mod i j)  i  if (and (<= 0 i) (< i j))`
pub const INT_MOD_SMALL: Row = Row {
    name: b"int-mod-small",
    kind: RuleKind::Cond,
    params: &[I, J],
    premises: &[
        &[On(Head::Numeral(0), 0), Param(0), On(Head::Le, 2)],
        &[Param(0), Param(1), On(Head::Lt, 2)],
    ],
    left: &[Param(0), Param(1), On(Head::Mod, 2)],
    right: &[Param(0)],
    ..PLAIN
};

/// `int-div-self  (div i i)  1  if (not (= i 0))`
pub const INT_DIV_SELF: Row = Row {
    name: b"int-div-self",
    kind: RuleKind::Cond,
    params: &[I],
    premises: &[&[
        Param(0),
        On(Head::Numeral(0), 0),
        On(Head::Equal, 2),
        On(Head::Not, 1),
    ]],
    left: &[Param(0), Param(0), On(Head::Div, 2)],
    right: &[On(Head::Numeral(1), 0)],
    ..PLAIN
};

/// `int-mod-mod  (mod (mod i j) j)  (mod i j)  if (not (= j 0))`
pub const INT_MOD_MOD: Row = Row {
    name: b"int-mod-mod",
    kind: RuleKind::Cond,
    params: &[I, J],
    premises: &[&[
        Param(1),
        On(Head::Numeral(0), 0),
        On(Head::Equal, 2),
        On(Head::Not, 1),
    ]],
    left: &[
        Param(0),
        Param(1),
        On(Head::Mod, 2),
        Param(1),
        On(Head::Mod, 2),
    ],
    right: &[Param(0), Param(1), On(Head::Mod, 2)],
    ..PLAIN
};

/// `int-abs-elim  (abs i)  (ite (<= 0 i) i (- i))`
pub const INT_ABS_ELIM: Row = Row {
    name: b"int-abs-elim",
    params: &[I],
    left: &[Param(0), On(Head::Abs, 1)],
    right: &[
        On(Head::Numeral(0), 0),
        Param(0),
        On(Head::Le, 2),
        Param(0),
        Param(0),
        On(Head::Neg, 1),
        On(Head::Ite, 3),
    ],
    ..PLAIN
};
