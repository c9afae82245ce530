//! Rewrite rules as plain trees.
use crate::param::Params;
use rare_base::Text;
use rare_linear::Constraints;
use rare_sort::{Tree, Trees};

/// The forms of a rule.
#[derive(Clone, Copy, Debug, PartialEq, Eq)]
pub enum RuleKind {
    /// Left side and right side.
    Plain,
    /// It has premises, which are to be true.
    Cond,
    /// It is put again and again into its context.
    Fixed,
}

/// A rewrite rule: the left side may be replaced by the right side.
#[derive(Debug, Drop)]
pub struct Rule {
    pub name: Text,
    pub kind: RuleKind,
    /// Those declared, and behind them the fresh ones.
    pub params: Params,
    /// What its text asks of widths and indices.
    pub bounds: Constraints,
    pub premises: Trees,
    pub left: Tree,
    pub right: Tree,
    /// What the right side stands in, at its hole. Rules of the kind `Fixed` alone have one.
    pub context: Option<Tree>,
}
