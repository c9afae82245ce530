//! Which names the left side of a rule determines, and whether it uses none before.
ghost use Rattle.std.specs.Prelude.{◌≡◌, nat_eq, List, [], ◌∷◌, ◌++◌, ◌<◌, ◌^◌, length, flat_map, IfOk};
ghost use Rattle.std.specs.List.{list_any};
ghost use Rattle.rare_linear.specs.Linears.{LinearExpression};
ghost use Rattle.rare_parse.specs.inner.WholeTests.{root_node};
ghost use Rattle.rare_parse.specs.inner.Following.{are_all_found, is_lone, mention_by, needs_mentions, Follows, IsOrder};
ghost use Rattle.rare_rule.specs.Determination as text;
ghost use Rattle.rare_rule.specs.Determination.{index_mentions, list_uses, list_uses_of, mention, mentions, node_mentions, occurrence, sort_mentions, Determines, Uses};
ghost use Rattle.rare_rule.specs.Nodes.{is_under_concat, walk};
ghost use Rattle.rare_rule.specs.Params.{is_alone_kind, kind_at};
ghost use Rattle.rare_sort.specs.SortRules.{width_needs};

use crate::nodes::kind_of;
use rare_linear::Linear;
use rare_list::Sequence;
use rare_rule::{Param, ParamKind};
use rare_sort::{Head, Sort, Tree};
use std::alloc::{AllocError, Global};

/// Numbers of parameters.
pub type Numbers = Sequence<u32>;

/// Whether the number is among these.
pub fn has_number(found: &[u32], number: u32) -> bool
    ensures { result ≡ list_any (nat_eq number) found.now }
{
    for other in found {
        if number == *other {
            return true;
        }
    }
    false
}

fn are_found(found: &[u32], parts: &[(u32, i128)]) -> bool
    ensures { result ≡ text.are_among found.now parts.now }
{
    for part in parts {
        if !has_number(found, part.0) {
            return false;
        }
    }
    true
}

fn is_alone(params: &[Param], k: u32) -> bool
    ensures { result ≡ is_alone_kind (kind_at params.now k) }
{
    matches!(
        kind_of(params, k),
        Some(ParamKind::Width) | Some(ParamKind::Index)
    )
}

// Whether an expression of one part is a width or an index alone.
fn is_lone(params: &[Param], constant: i128, k: u32, factor: i128) -> bool
    ensures { result ≡ is_lone params.now constant (k, factor) }
{
    constant == 0 && factor == 1 && is_alone(params, k)
}

// The width or index that an expression is alone.
#[tactic(auto, using(crate::proofs::FollowLemmas::mention_one, crate::proofs::FollowLemmas::mention_other))]
fn alone_name(params: &[Param], e: &Linear) -> Option<u32>
    ensures { mention params.now e.now ≡ mention_by e.now.parts result }
{
    let parts = e.parts();
    if parts.len() != 1 {
        return None;
    }
    let (k, factor) = parts[0];
    if is_lone(params, e.offset(), k, factor) {
        Some(k)
    } else {
        None
    }
}

// An expression: a width or an index alone is found, every other one uses its names.
#[tactic(auto, using(crate::proofs::FollowLemmas::follow_found, crate::proofs::FollowLemmas::follow_uses))]
fn follow_linear(params: &[Param], e: &Linear, found: &mut Numbers) -> Result<bool, AllocError>
    ensures { IfOk result (Follows (mention params.now e.now ∷ []) found.old found.new) }
{
    match alone_name(params, e) {
        Some(k) => {
            found.push(k)?;
            Ok(true)
        }
        None => Ok(are_found(found.items(), e.parts())),
    }
}

// The widths and the sort names of a sort, from the left.
#[tactic(auto, using(crate::proofs::FollowLemmas::follow_nothing, crate::proofs::FollowLemmas::follow_one, crate::proofs::FollowLemmas::follow_array, crate::proofs::FollowLemmas::follow_no_array))]
fn follow_sort(params: &[Param], sort: &Sort, found: &mut Numbers) -> Result<bool, AllocError>
    ensures { IfOk result (Follows (sort_mentions params.now sort.now) found.old found.new) }
{
    match sort {
        Sort::Bool | Sort::Int => Ok(true),
        Sort::BitVec(width) => follow_linear(params, width, found),
        Sort::Array(keys, entries) => {
            if follow_sort(params, keys.get(), found)? {
                follow_sort(params, entries.get(), found)
            } else {
                Ok(false)
            }
        }
        Sort::Named(k) => {
            found.push(*k)?;
            Ok(true)
        }
    }
}

// What an occurrence of parameter `k` determines, with what its sort says.
#[tactic(auto, using(crate::proofs::FollowLemmas::follow_nothing, crate::proofs::FollowLemmas::follow_one, crate::proofs::FollowLemmas::follow_behind))]
fn follow_occurrence(
    params: &[Param],
    under_concat: bool,
    k: u32,
    found: &mut Numbers,
) -> Result<bool, AllocError>
    ensures { IfOk result (Follows (occurrence params.now under_concat k (kind_at params.now k))
        found.old found.new) }
{
    match kind_of(params, k) {
        Some(ParamKind::Term(sort)) => {
            found.push(k)?;
            follow_sort(params, sort, found)
        }
        Some(ParamKind::List(sort)) => {
            found.push(k)?;
            if under_concat {
                Ok(true)
            } else {
                follow_sort(params, sort, found)
            }
        }
        Some(ParamKind::WideList) => {
            found.push(k)?;
            Ok(true)
        }
        _ => Ok(true),
    }
}

// The expressions from the left.
#[tactic(auto, using(crate::proofs::FollowLemmas::follow_nothing, crate::proofs::FollowLemmas::follow_stops))]
fn follow_linears(
    params: &[Param],
    indices: &[Linear],
    found: &mut Numbers,
) -> Result<bool, AllocError>
    ensures { IfOk result (Follows (flat_map (λ e. mention params.now e ∷ []) indices.now) found.old
        found.new) }
{
    for index in indices {
        if !follow_linear(params, index, found)? {
            return Ok(false);
        }
    }
    Ok(true)
}

// The indices of an operator: of a literal the width before the value.
fn follow_indices(
    params: &[Param],
    head: Head,
    indices: &[Linear],
    found: &mut Numbers,
) -> Result<bool, AllocError>
    ensures { IfOk result (Follows (index_mentions params.now head indices.now) found.old
        found.new) }
{
    match head {
        Head::Literal => match indices {
            [value, width] => {
                if follow_linear(params, width, found)? {
                    follow_linear(params, value, found)
                } else {
                    Ok(false)
                }
            }
            _ => follow_linears(params, indices, found),
        },
        _ => follow_linears(params, indices, found),
    }
}

fn is_concat(parent: Option<Head>) -> bool
    ensures { result ≡ is_under_concat parent }
{
    matches!(parent, Some(Head::Concat))
}

// The node at the root of a tree, an argument of `parent`.
fn follow_node(
    params: &[Param],
    parent: Option<Head>,
    tree: &Tree,
    found: &mut Numbers,
) -> Result<bool, AllocError>
    ensures { IfOk result (Follows (node_mentions params.now (root_node parent tree.now)) found.old
        found.new) }
{
    match tree.head {
        Head::Param(k) => follow_occurrence(params, is_concat(parent), k, found),
        _ => follow_indices(params, tree.head, tree.indices.items(), found),
    }
}

// The nodes of a tree, an argument of `parent`, in their order.
fn follow_tree(
    params: &[Param],
    parent: Option<Head>,
    tree: &Tree,
    found: &mut Numbers,
) -> Result<bool, AllocError>
    ensures { IfOk result (Follows
        (flat_map (node_mentions params.now) ((walk tree.now).nodes parent)) found.old found.new) }
{
    for arg in tree.args.items() {
        if !follow_tree(params, Some(tree.head), arg, found)? {
            return Ok(false);
        }
    }
    follow_node(params, parent, tree, found)
}

// The names in the sort of a list, which only uses them.
#[tactic(auto, using(crate::proofs::FollowLemmas::follow_nothing, crate::proofs::WholeLemmas::word_uses))]
fn follow_list_sort(sort: &Sort, found: &[u32]) -> bool
    ensures { Follows (needs_mentions sort.now) found.now found.now result }
{
    match sort {
        Sort::Bool | Sort::Int | Sort::Named(_) => true,
        Sort::BitVec(width) => are_found(found, width.parts()),
        Sort::Array(keys, entries) => {
            follow_list_sort(keys.get(), found) && follow_list_sort(entries.get(), found)
        }
    }
}

fn follow_list(param: &Param, found: &[u32]) -> bool
    ensures { Follows (list_uses param.now) found.now found.now result }
{
    match &param.kind {
        ParamKind::List(sort) => follow_list_sort(sort, found),
        _ => true,
    }
}

// The names in the sorts of lists, once the left side ends.
fn follow_lists(params: &[Param], found: &[u32]) -> bool
    ensures { Follows (flat_map list_uses params.now) found.now found.now result }
{
    for param in params {
        if !follow_list(param, found) {
            return false;
        }
    }
    true
}

/// The numbers of the parameters that the left side determines, or none where it uses a name before it
/// determines it.
#[tactic(auto, using(crate::proofs::WholeLemmas::order_known, crate::proofs::WholeLemmas::order_broken, crate::proofs::WholeLemmas::order_broken_first))]
pub fn found_in_order(
    alloc: Global,
    params: &[Param],
    left: &Tree,
) -> Result<Option<Numbers>, AllocError>
    ensures { IfOk result (IsOrder (mentions params.now left.now)) }
{
    let mut found = Numbers::new(alloc);
    if !follow_tree(params, None, left, &mut found)? {
        return Ok(None);
    }
    if follow_lists(params, found.items()) {
        Ok(Some(found))
    } else {
        Ok(None)
    }
}

/// Whether each parameter is among those that are determined.
#[tactic(auto, using(crate::proofs::WholeLemmas::one_missing, crate::proofs::WholeLemmas::one_found))]
pub fn are_determined(found: &[u32], params: &[Param]) -> bool
    requires { length params.now < 2 ^ 32 }
    ensures { result ≡ are_all_found found.now 0 params.now }
{
    for k in 0..params.len() {
        if !has_number(found, k as u32) {
            return false;
        }
    }
    true
}
