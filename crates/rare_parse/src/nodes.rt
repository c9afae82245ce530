//! What is asked of each node of a rule: holes, and where list variables stand.
ghost use Rattle.std.specs.Option.{option_copied};
ghost use Rattle.std.specs.Prelude.{◌≡◌, map};
ghost use Rattle.rare_parse.specs.inner.WholeTests.{node_test, root_node};
ghost use Rattle.rare_rule.specs.NodeForms.{all_nodes, lists_among};
ghost use Rattle.rare_rule.specs.NodeForms as form;
ghost use Rattle.rare_rule.specs.Nodes as text;
ghost use Rattle.rare_rule.specs.Nodes.{walk};
ghost use Rattle.rare_rule.specs.Params.{is_list_kind, kind_at};
ghost use Rattle.rare_rule.specs.Params as kinds;
ghost use Rattle.rare_sort.specs.Sorting as sorting;
ghost use Rattle.rare_sort.specs.Trees.{head_of};

use rare_rule::{Param, ParamKind};
use rare_sort::{Head, Tree};

/// The most list variables among the arguments of one application of the left side.
const MOST_LISTS: usize = 3;

/// What is asked of a node.
#[derive(Clone, Copy, Debug, PartialEq, Eq)]
pub enum Asked {
    /// It has at most `MOST_LISTS` list variables among its arguments.
    FewLists,
    /// It is no hole.
    NoHole,
    /// If it is a list variable, it is an argument of an operator among whose arguments lists are spliced.
    Placed,
}

/// The kind of parameter `k`, or none where there is no such parameter.
pub fn kind_of(params: &[Param], k: u32) -> Option<&ParamKind>
    ensures { option_copied result ≡ kind_at params.now k }
{
    match params.get(k as usize) {
        Some(param) => Some(&param.kind),
        None => None,
    }
}

fn is_list(params: &[Param], k: u32) -> bool
    ensures { result ≡ is_list_kind (kind_at params.now k) }
{
    matches!(
        kind_of(params, k),
        Some(ParamKind::List(_)) | Some(ParamKind::WideList)
    )
}

fn is_list_head(params: &[Param], head: Head) -> bool
    ensures { result ≡ kinds.is_list_head params.now head }
{
    match head {
        Head::Param(k) => is_list(params, k),
        _ => false,
    }
}

fn splices(head: Head) -> bool
    ensures { result ≡ sorting.splices head }
{
    matches!(
        head,
        Head::And
            | Head::Or
            | Head::Add
            | Head::Mul
            | Head::BvAdd
            | Head::BvMul
            | Head::BvAnd
            | Head::BvOr
            | Head::BvXor
            | Head::Concat
    )
}

fn is_spliced(parent: Option<Head>) -> bool
    ensures { result ≡ text.is_spliced parent }
{
    match parent {
        Some(head) => splices(head),
        None => false,
    }
}

// How many of the arguments are list variables.
fn count_lists(params: &[Param], args: &[Tree]) -> usize
    ensures { result ≡ lists_among params.now (map head_of args.now) }
{
    let mut lists = 0;
    for arg in args {
        if is_list_head(params, arg.head) {
            lists += 1;
        }
    }
    lists
}

fn is_hole(head: Head) -> bool
    ensures { result ≡ form.is_hole head }
{
    matches!(head, Head::Hole)
}

// Whether the node at the root of a tree, an argument of `parent`, is as asked.
fn passes(asked: Asked, params: &[Param], parent: Option<Head>, tree: &Tree) -> bool
    ensures { result ≡ node_test asked params.now (root_node parent tree.now) }
{
    match asked {
        Asked::FewLists => count_lists(params, tree.args.items()) <= MOST_LISTS,
        Asked::NoHole => !is_hole(tree.head),
        Asked::Placed => !is_list_head(params, tree.head) || is_spliced(parent),
    }
}

/// Whether each node of a tree, an argument of `parent`, is as asked.
pub fn all_pass(asked: Asked, params: &[Param], parent: Option<Head>, tree: &Tree) -> bool
    ensures { result ≡ all_nodes (node_test asked params.now) ((walk tree.now).nodes parent) }
{
    for arg in tree.args.items() {
        if !all_pass(asked, params, Some(tree.head), arg) {
            return false;
        }
    }
    passes(asked, params, parent, tree)
}
