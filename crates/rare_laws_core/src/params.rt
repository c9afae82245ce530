//! The parameters of the rules of theory Core, as rows.
use rare_law_parts::{Kind, ParamRow, SortRow};

pub const A: ParamRow = ParamRow {
    name: b"a",
    kind: Kind::SortName,
};

pub const P: ParamRow = ParamRow {
    name: b"p",
    kind: Kind::Term(SortRow::Truths),
};

pub const Q: ParamRow = ParamRow {
    name: b"q",
    kind: Kind::Term(SortRow::Truths),
};

pub const X: ParamRow = ParamRow {
    name: b"x",
    kind: Kind::Term(SortRow::Named(0)),
};

pub const Y: ParamRow = ParamRow {
    name: b"y",
    kind: Kind::Term(SortRow::Named(0)),
};

pub const Z: ParamRow = ParamRow {
    name: b"z",
    kind: Kind::Term(SortRow::Named(0)),
};

pub const PS: ParamRow = ParamRow {
    name: b"ps",
    kind: Kind::List(SortRow::Truths),
};

pub const QS: ParamRow = ParamRow {
    name: b"qs",
    kind: Kind::List(SortRow::Truths),
};

pub const RS: ParamRow = ParamRow {
    name: b"rs",
    kind: Kind::List(SortRow::Truths),
};
