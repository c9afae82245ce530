//! Rows of a table of rules.
use crate::params::ParamRow;
use rare_rule::RuleKind;
use rare_sort::Head;

/// A linear expression: its constant, and its names with their factors.
#[derive(Clone, Copy)]
pub struct Sum {
    pub constant: i128,
    pub parts: &'static [(u32, i128)],
}

/// One step of a term in reverse Polish notation.
#[derive(Clone, Copy)]
pub enum Step {
    /// The parameter of this number.
    Param(u32),
    /// The operator, applied to so many of the terms before it.
    On(Head, usize),
    /// The operator with these indices, applied to so many of the terms before it.
    At(Head, &'static [Sum], usize),
}

/// A rule, and the constraints that its typing gives.
#[derive(Clone, Copy)]
pub struct Row {
    pub name: &'static [u8],
    pub kind: RuleKind,
    pub params: &'static [ParamRow],
    pub bounds: &'static [Sum],
    pub premises: &'static [&'static [Step]],
    pub left: &'static [Step],
    pub right: &'static [Step],
    pub context: Option<&'static [Step]>,
    pub constraints: &'static [Sum],
}

/// A row without bounds, premises, context and constraints, which the others are written over.
pub const PLAIN: Row = Row {
    name: b"",
    kind: RuleKind::Plain,
    params: &[],
    bounds: &[],
    premises: &[],
    left: &[],
    right: &[],
    context: None,
    constraints: &[],
};
