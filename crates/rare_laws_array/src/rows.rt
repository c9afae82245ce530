//! Rows of the rules of theory ArraysEx.
use crate::params::{A, B, I, J, T, U, V};
use rare_law_parts::Step::{On, Param};
use rare_law_parts::{PLAIN, Row};
use rare_rule::RuleKind;
use rare_sort::Head;

/// `arr-select-same  (select (store t i u) i)  u`
pub const ARR_SELECT_SAME: Row = Row {
    name: b"arr-select-same",
    params: &[A, B, T, I, U],
    left: &[
        Param(2),
        Param(3),
        Param(4),
        On(Head::Store, 3),
        Param(3),
        On(Head::Select, 2),
    ],
    right: &[Param(4)],
    ..PLAIN
};

/// `arr-select-other  (select (store t i u) j)  (select t j)  if (not (= i j))`
pub const ARR_SELECT_OTHER: Row = Row {
    name: b"arr-select-other",
    kind: RuleKind::Cond,
    params: &[A, B, T, I, J, U],
    premises: &[&[Param(3), Param(4), On(Head::Equal, 2), On(Head::Not, 1)]],
    left: &[
        Param(2),
        Param(3),
        Param(5),
        On(Head::Store, 3),
        Param(4),
        On(Head::Select, 2),
    ],
    right: &[Param(2), Param(4), On(Head::Select, 2)],
    ..PLAIN
};

/// `arr-select-ite  (select (store t i u) j)  (ite (= i j) u (select t j))`
pub const ARR_SELECT_ITE: Row = Row {
    name: b"arr-select-ite",
    params: &[A, B, T, I, J, U],
    left: &[
        Param(2),
        Param(3),
        Param(5),
        On(Head::Store, 3),
        Param(4),
        On(Head::Select, 2),
    ],
    right: &[
        Param(3),
        Param(4),
        On(Head::Equal, 2),
        Param(5),
        Param(2),
        Param(4),
        On(Head::Select, 2),
        On(Head::Ite, 3),
    ],
    ..PLAIN
};

/// `arr-store-same  (store (store t i u) i v)  (store t i v)`
pub const ARR_STORE_SAME: Row = Row {
    name: b"arr-store-same",
    params: &[A, B, T, I, U, V],
    left: &[
        Param(2),
        Param(3),
        Param(4),
        On(Head::Store, 3),
        Param(3),
        Param(5),
        On(Head::Store, 3),
    ],
    right: &[Param(2), Param(3), Param(5), On(Head::Store, 3)],
    ..PLAIN
};

/// `arr-store-select  (store t i (select t i))  t`
pub const ARR_STORE_SELECT: Row = Row {
    name: b"arr-store-select",
    params: &[A, B, T, I],
    left: &[
        Param(2),
        Param(3),
        Param(2),
        Param(3),
        On(Head::Select, 2),
        On(Head::Store, 3),
    ],
    right: &[Param(2)],
    ..PLAIN
};

/// `arr-store-swap  (store (store t i u) j v)  (store (store t j v) i u)  if (not (= i j))`
pub const ARR_STORE_SWAP: Row = Row {
    name: b"arr-store-swap",
    kind: RuleKind::Cond,
    params: &[A, B, T, I, J, U, V],
    premises: &[&[Param(3), Param(4), On(Head::Equal, 2), On(Head::Not, 1)]],
    left: &[
        Param(2),
        Param(3),
        Param(5),
        On(Head::Store, 3),
        Param(4),
        Param(6),
        On(Head::Store, 3),
    ],
    right: &[
        Param(2),
        Param(4),
        Param(6),
        On(Head::Store, 3),
        Param(3),
        Param(5),
        On(Head::Store, 3),
    ],
    ..PLAIN
};
