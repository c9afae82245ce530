//! The parameters of a rewrite rule.
use rare_base::Text;
use rare_list::Sequence;
use rare_sort::Sort;

/// What a parameter stands for.
#[derive(Debug, Drop)]
pub enum ParamKind {
    /// A sort.
    SortName,
    /// A width, which is at least 1.
    Width,
    /// An index, which is at least 0.
    Index,
    /// A term of this sort.
    Term(Sort),
    /// A list of terms of this sort.
    List(Sort),
    /// A list of bit vectors, each of a width of its own.
    WideList,
}

/// A parameter of a rule.
///
/// Its number is its place among the rule's parameters. In a linear expression that number is a width,
/// an index, or the total width of a list; in a sort it is a sort name.
#[derive(Debug, Drop)]
pub struct Param {
    pub name: Text,
    pub kind: ParamKind,
    /// It stands for a value alone.
    pub constant: bool,
    /// It was not declared: the sort of a parameter brought it, and it has that parameter's name.
    pub fresh: bool,
}

/// A list of parameters.
pub type Params = Sequence<Param>;
