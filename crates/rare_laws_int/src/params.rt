//! The parameters of the rules of theory Ints, as rows.
use rare_law_parts::{Kind, ParamRow, SortRow};

pub const I: ParamRow = ParamRow {
    name: b"i",
    kind: Kind::Term(SortRow::Wholes),
};

pub const J: ParamRow = ParamRow {
    name: b"j",
    kind: Kind::Term(SortRow::Wholes),
};

pub const K: ParamRow = ParamRow {
    name: b"k",
    kind: Kind::Term(SortRow::Wholes),
};

pub const IS: ParamRow = ParamRow {
    name: b"is",
    kind: Kind::List(SortRow::Wholes),
};

pub const JS: ParamRow = ParamRow {
    name: b"js",
    kind: Kind::List(SortRow::Wholes),
};

pub const KS: ParamRow = ParamRow {
    name: b"ks",
    kind: Kind::List(SortRow::Wholes),
};
