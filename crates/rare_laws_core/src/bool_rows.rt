//! Rows of the rules of truth values.
use crate::params::{P, PS, Q, QS, RS};
use rare_law_parts::Step::{On, Param};
use rare_law_parts::{PLAIN, Row};
use rare_rule::RuleKind;
use rare_sort::Head;

/// `bool-not-not  (not (not p))  p`
pub const BOOL_NOT_NOT: Row = Row {
    name: b"bool-not-not",
    params: &[P],
    left: &[Param(0), On(Head::Not, 1), On(Head::Not, 1)],
    right: &[Param(0)],
    ..PLAIN
};

/// `bool-and-true  (and ps true qs)  (and ps qs)`
pub const BOOL_AND_TRUE: Row = Row {
    name: b"bool-and-true",
    params: &[PS, QS],
    left: &[Param(0), On(Head::True, 0), Param(1), On(Head::And, 3)],
    right: &[Param(0), Param(1), On(Head::And, 2)],
    ..PLAIN
};

/// `bool-and-false  (and ps false qs)  false`
pub const BOOL_AND_FALSE: Row = Row {
    name: b"bool-and-false",
    params: &[PS, QS],
    left: &[Param(0), On(Head::False, 0), Param(1), On(Head::And, 3)],
    right: &[On(Head::False, 0)],
    ..PLAIN
};

/// `bool-and-flat  (and ps (and qs) rs)  (and ps qs rs)`
pub const BOOL_AND_FLAT: Row = Row {
    name: b"bool-and-flat",
    params: &[PS, QS, RS],
    left: &[
        Param(0),
        Param(1),
        On(Head::And, 1),
        Param(2),
        On(Head::And, 3),
    ],
    right: &[Param(0), Param(1), Param(2), On(Head::And, 3)],
    ..PLAIN
};

/// `bool-and-dup  (and ps p qs p rs)  (and ps p qs rs)`
pub const BOOL_AND_DUP: Row = Row {
    name: b"bool-and-dup",
    params: &[P, PS, QS, RS],
    left: &[
        Param(1),
        Param(0),
        Param(2),
        Param(0),
        Param(3),
        On(Head::And, 5),
    ],
    right: &[Param(1), Param(0), Param(2), Param(3), On(Head::And, 4)],
    ..PLAIN
};

/// `bool-and-conf  (and ps p qs (not p) rs)  false`
pub const BOOL_AND_CONF: Row = Row {
    name: b"bool-and-conf",
    params: &[P, PS, QS, RS],
    left: &[
        Param(1),
        Param(0),
        Param(2),
        Param(0),
        On(Head::Not, 1),
        Param(3),
        On(Head::And, 5),
    ],
    right: &[On(Head::False, 0)],
    ..PLAIN
};

/// `bool-or-false  (or ps false qs)  (or ps qs)`
pub const BOOL_OR_FALSE: Row = Row {
    name: b"bool-or-false",
    params: &[PS, QS],
    left: &[Param(0), On(Head::False, 0), Param(1), On(Head::Or, 3)],
    right: &[Param(0), Param(1), On(Head::Or, 2)],
    ..PLAIN
};

/// `bool-or-true  (or ps true qs)  true`
pub const BOOL_OR_TRUE: Row = Row {
    name: b"bool-or-true",
    params: &[PS, QS],
    left: &[Param(0), On(Head::True, 0), Param(1), On(Head::Or, 3)],
    right: &[On(Head::True, 0)],
    ..PLAIN
};

/// `bool-or-flat  (or ps (or qs) rs)  (or ps qs rs)`
pub const BOOL_OR_FLAT: Row = Row {
    name: b"bool-or-flat",
    params: &[PS, QS, RS],
    left: &[
        Param(0),
        Param(1),
        On(Head::Or, 1),
        Param(2),
        On(Head::Or, 3),
    ],
    right: &[Param(0), Param(1), Param(2), On(Head::Or, 3)],
    ..PLAIN
};

/// `bool-or-dup  (or ps p qs p rs)  (or ps p qs rs)`
pub const BOOL_OR_DUP: Row = Row {
    name: b"bool-or-dup",
    params: &[P, PS, QS, RS],
    left: &[
        Param(1),
        Param(0),
        Param(2),
        Param(0),
        Param(3),
        On(Head::Or, 5),
    ],
    right: &[Param(1), Param(0), Param(2), Param(3), On(Head::Or, 4)],
    ..PLAIN
};

/// `bool-or-taut  (or ps p qs (not p) rs)  true`
pub const BOOL_OR_TAUT: Row = Row {
    name: b"bool-or-taut",
    params: &[P, PS, QS, RS],
    left: &[
        Param(1),
        Param(0),
        Param(2),
        Param(0),
        On(Head::Not, 1),
        Param(3),
        On(Head::Or, 5),
    ],
    right: &[On(Head::True, 0)],
    ..PLAIN
};

/// `bool-and-comm  (and p q)  (and q p)`
pub const BOOL_AND_COMM: Row = Row {
    name: b"bool-and-comm",
    params: &[P, Q],
    left: &[Param(0), Param(1), On(Head::And, 2)],
    right: &[Param(1), Param(0), On(Head::And, 2)],
    ..PLAIN
};

/// `bool-or-comm  (or p q)  (or q p)`
pub const BOOL_OR_COMM: Row = Row {
    name: b"bool-or-comm",
    params: &[P, Q],
    left: &[Param(0), Param(1), On(Head::Or, 2)],
    right: &[Param(1), Param(0), On(Head::Or, 2)],
    ..PLAIN
};

/// `bool-and-de-morgan  (not (and p q ps))  (not (and q ps))  context (or (not p) _)`
pub const BOOL_AND_DE_MORGAN: Row = Row {
    name: b"bool-and-de-morgan",
    kind: RuleKind::Fixed,
    params: &[P, Q, PS],
    left: &[
        Param(0),
        Param(1),
        Param(2),
        On(Head::And, 3),
        On(Head::Not, 1),
    ],
    right: &[Param(1), Param(2), On(Head::And, 2), On(Head::Not, 1)],
    context: Some(&[
        Param(0),
        On(Head::Not, 1),
        On(Head::Hole, 0),
        On(Head::Or, 2),
    ]),
    ..PLAIN
};

/// `bool-or-de-morgan  (not (or p q ps))  (not (or q ps))  context (and (not p) _)`
pub const BOOL_OR_DE_MORGAN: Row = Row {
    name: b"bool-or-de-morgan",
    kind: RuleKind::Fixed,
    params: &[P, Q, PS],
    left: &[
        Param(0),
        Param(1),
        Param(2),
        On(Head::Or, 3),
        On(Head::Not, 1),
    ],
    right: &[Param(1), Param(2), On(Head::Or, 2), On(Head::Not, 1)],
    context: Some(&[
        Param(0),
        On(Head::Not, 1),
        On(Head::Hole, 0),
        On(Head::And, 2),
    ]),
    ..PLAIN
};

/// `bool-impl-elim  (=> p q)  (or (not p) q)`
pub const BOOL_IMPL_ELIM: Row = Row {
    name: b"bool-impl-elim",
    params: &[P, Q],
    left: &[Param(0), Param(1), On(Head::Implies, 2)],
    right: &[Param(0), On(Head::Not, 1), Param(1), On(Head::Or, 2)],
    ..PLAIN
};

/// `bool-xor-false  (xor p false)  p`
pub const BOOL_XOR_FALSE: Row = Row {
    name: b"bool-xor-false",
    params: &[P],
    left: &[Param(0), On(Head::False, 0), On(Head::Xor, 2)],
    right: &[Param(0)],
    ..PLAIN
};

/// `bool-xor-true  (xor p true)  (not p)`
pub const BOOL_XOR_TRUE: Row = Row {
    name: b"bool-xor-true",
    params: &[P],
    left: &[Param(0), On(Head::True, 0), On(Head::Xor, 2)],
    right: &[Param(0), On(Head::Not, 1)],
    ..PLAIN
};

/// `bool-xor-refl  (xor p p)  false`
pub const BOOL_XOR_REFL: Row = Row {
    name: b"bool-xor-refl",
    params: &[P],
    left: &[Param(0), Param(0), On(Head::Xor, 2)],
    right: &[On(Head::False, 0)],
    ..PLAIN
};
