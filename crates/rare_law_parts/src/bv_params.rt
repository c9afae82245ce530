//! The parameters of rules on bit vectors, and the expressions in them, as rows.
use crate::params::{Kind, ParamRow, SortRow};
use crate::row::Sum;

pub const N: ParamRow = ParamRow {
    name: b"n",
    kind: Kind::Width,
};

pub const I: ParamRow = ParamRow {
    name: b"i",
    kind: Kind::Index,
};

pub const J: ParamRow = ParamRow {
    name: b"j",
    kind: Kind::Index,
};

pub const K: ParamRow = ParamRow {
    name: b"k",
    kind: Kind::Index,
};

pub const L: ParamRow = ParamRow {
    name: b"l",
    kind: Kind::Index,
};

pub const X: ParamRow = ParamRow {
    name: b"x",
    kind: Kind::Term(SortRow::Words(0)),
};

pub const Y: ParamRow = ParamRow {
    name: b"y",
    kind: Kind::Term(SortRow::Words(0)),
};

pub const XS: ParamRow = ParamRow {
    name: b"xs",
    kind: Kind::List(SortRow::Words(0)),
};

pub const YS: ParamRow = ParamRow {
    name: b"ys",
    kind: Kind::List(SortRow::Words(0)),
};

pub const ZS: ParamRow = ParamRow {
    name: b"zs",
    kind: Kind::List(SortRow::Words(0)),
};

pub const US: ParamRow = ParamRow {
    name: b"us",
    kind: Kind::WideList,
};

pub const VS: ParamRow = ParamRow {
    name: b"vs",
    kind: Kind::WideList,
};

pub const W: ParamRow = ParamRow {
    name: b"w",
    kind: Kind::Term(SortRow::Words(4)),
};

pub const W_WIDTH: ParamRow = ParamRow {
    name: b"w",
    kind: Kind::FreshWidth,
};

pub const ZERO: Sum = Sum {
    constant: 0,
    parts: &[],
};

pub const ONE: Sum = Sum {
    constant: 1,
    parts: &[],
};

pub const MINUS_ONE: Sum = Sum {
    constant: -1,
    parts: &[],
};

pub const NAME_0: Sum = Sum {
    constant: 0,
    parts: &[(0, 1)],
};

pub const NAME_1: Sum = Sum {
    constant: 0,
    parts: &[(1, 1)],
};

pub const NAME_2: Sum = Sum {
    constant: 0,
    parts: &[(2, 1)],
};

pub const NAME_3: Sum = Sum {
    constant: 0,
    parts: &[(3, 1)],
};

pub const NAME_4: Sum = Sum {
    constant: 0,
    parts: &[(4, 1)],
};
