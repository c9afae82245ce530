//! The parameters of the rules of theory ArraysEx, as rows.
use rare_law_parts::{Kind, ParamRow, SortRow};

pub const A: ParamRow = ParamRow {
    name: b"a",
    kind: Kind::SortName,
};

pub const B: ParamRow = ParamRow {
    name: b"b",
    kind: Kind::SortName,
};

pub const T: ParamRow = ParamRow {
    name: b"t",
    kind: Kind::Term(SortRow::Arrays(0, 1)),
};

pub const I: ParamRow = ParamRow {
    name: b"i",
    kind: Kind::Term(SortRow::Named(0)),
};

pub const J: ParamRow = ParamRow {
    name: b"j",
    kind: Kind::Term(SortRow::Named(0)),
};

pub const U: ParamRow = ParamRow {
    name: b"u",
    kind: Kind::Term(SortRow::Named(1)),
};

pub const V: ParamRow = ParamRow {
    name: b"v",
    kind: Kind::Term(SortRow::Named(1)),
};
