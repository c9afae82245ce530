//! Parameters of rules, as rows.

/// A sort of a parameter.
#[derive(Clone, Copy)]
pub enum SortRow {
    Truths,
    Wholes,
    /// Bit vectors whose width is the parameter of this number.
    Words(u32),
    /// The sort name of this number.
    Named(u32),
    /// Arrays from one sort name to another.
    Arrays(u32, u32),
}

/// What a parameter stands for.
#[derive(Clone, Copy)]
pub enum Kind {
    SortName,
    Width,
    /// The fresh width of a parameter.
    FreshWidth,
    Index,
    Term(SortRow),
    List(SortRow),
    WideList,
}

/// A parameter: its name, and what it stands for.
#[derive(Clone, Copy)]
pub struct ParamRow {
    pub name: &'static [u8],
    pub kind: Kind,
}
