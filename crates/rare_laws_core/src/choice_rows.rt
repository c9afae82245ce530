//! Rows of the rules of choices and of equality.
use crate::params::{A, P, X, Y, Z};
use rare_law_parts::Step::{On, Param};
use rare_law_parts::{PLAIN, Row};
use rare_rule::RuleKind;
use rare_sort::Head;

/// `ite-true  (ite true x y)  x`
pub const ITE_TRUE: Row = Row {
    name: b"ite-true",
    params: &[A, X, Y],
    left: &[On(Head::True, 0), Param(1), Param(2), On(Head::Ite, 3)],
    right: &[Param(1)],
    ..PLAIN
};

/// `ite-false  (ite false x y)  y`
pub const ITE_FALSE: Row = Row {
    name: b"ite-false",
    params: &[A, X, Y],
    left: &[On(Head::False, 0), Param(1), Param(2), On(Head::Ite, 3)],
    right: &[Param(2)],
    ..PLAIN
};

/// `ite-same  (ite p x x)  x`
pub const ITE_SAME: Row = Row {
    name: b"ite-same",
    params: &[A, P, X],
    left: &[Param(1), Param(2), Param(2), On(Head::Ite, 3)],
    right: &[Param(2)],
    ..PLAIN
};

/// `ite-not  (ite (not p) x y)  (ite p y x)`
pub const ITE_NOT: Row = Row {
    name: b"ite-not",
    params: &[A, P, X, Y],
    left: &[
        Param(1),
        On(Head::Not, 1),
        Param(2),
        Param(3),
        On(Head::Ite, 3),
    ],
    right: &[Param(1), Param(3), Param(2), On(Head::Ite, 3)],
    ..PLAIN
};

/// `ite-bool  (ite p true false)  p`
pub const ITE_BOOL: Row = Row {
    name: b"ite-bool",
    params: &[P],
    left: &[
        Param(0),
        On(Head::True, 0),
        On(Head::False, 0),
        On(Head::Ite, 3),
    ],
    right: &[Param(0)],
    ..PLAIN
};

/// `ite-then  (ite p (ite p x y) z)  (ite p x z)`
pub const ITE_THEN: Row = Row {
    name: b"ite-then",
    params: &[A, P, X, Y, Z],
    left: &[
        Param(1),
        Param(1),
        Param(2),
        Param(3),
        On(Head::Ite, 3),
        Param(4),
        On(Head::Ite, 3),
    ],
    right: &[Param(1), Param(2), Param(4), On(Head::Ite, 3)],
    ..PLAIN
};

/// `ite-else  (ite p x (ite p y z))  (ite p x z)`
pub const ITE_ELSE: Row = Row {
    name: b"ite-else",
    params: &[A, P, X, Y, Z],
    left: &[
        Param(1),
        Param(2),
        Param(1),
        Param(3),
        Param(4),
        On(Head::Ite, 3),
        On(Head::Ite, 3),
    ],
    right: &[Param(1), Param(2), Param(4), On(Head::Ite, 3)],
    ..PLAIN
};

/// `ite-cond  (ite p x y)  x  if p`
pub const ITE_COND: Row = Row {
    name: b"ite-cond",
    kind: RuleKind::Cond,
    params: &[A, P, X, Y],
    premises: &[&[Param(1)]],
    left: &[Param(1), Param(2), Param(3), On(Head::Ite, 3)],
    right: &[Param(2)],
    ..PLAIN
};

/// `eq-refl  (= x x)  true`
pub const EQ_REFL: Row = Row {
    name: b"eq-refl",
    params: &[A, X],
    left: &[Param(1), Param(1), On(Head::Equal, 2)],
    right: &[On(Head::True, 0)],
    ..PLAIN
};

/// `eq-symm  (= x y)  (= y x)`
pub const EQ_SYMM: Row = Row {
    name: b"eq-symm",
    params: &[A, X, Y],
    left: &[Param(1), Param(2), On(Head::Equal, 2)],
    right: &[Param(2), Param(1), On(Head::Equal, 2)],
    ..PLAIN
};

/// `eq-true  (= p true)  p`
pub const EQ_TRUE: Row = Row {
    name: b"eq-true",
    params: &[P],
    left: &[Param(0), On(Head::True, 0), On(Head::Equal, 2)],
    right: &[Param(0)],
    ..PLAIN
};

/// `eq-false  (= p false)  (not p)`
pub const EQ_FALSE: Row = Row {
    name: b"eq-false",
    params: &[P],
    left: &[Param(0), On(Head::False, 0), On(Head::Equal, 2)],
    right: &[Param(0), On(Head::Not, 1)],
    ..PLAIN
};

/// `distinct-elim  (distinct x y)  (not (= x y))`
pub const DISTINCT_ELIM: Row = Row {
    name: b"distinct-elim",
    params: &[A, X, Y],
    left: &[Param(1), Param(2), On(Head::Distinct, 2)],
    right: &[Param(1), Param(2), On(Head::Equal, 2), On(Head::Not, 1)],
    ..PLAIN
};
