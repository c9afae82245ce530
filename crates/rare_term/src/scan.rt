//! What a keeper reads of its nodes: measures, sorts, and whether a node is there.
ghost use Rattle.std.specs.Prelude.{◌≡◌, ℕ, ◌+◌, ◌*◌, ◌<◌, ◌≤◌, length, sum, All, IfOk, IfSome, IfNone, IsTrue, ◌↔◌};
ghost use Rattle.rare_sort.specs.DeclaredSorts.{widths, AreDeclared, AreNamed, AreSorts, IsSymbol};
ghost use Rattle.rare_sort.specs.Families.{family};
ghost use Rattle.rare_sort.specs.Ids.{AreIds, sorts_at};
ghost use Rattle.rare_sort.specs.Rulings.{ruling};
ghost use Rattle.rare_sort.specs.Trees.{greatest};
ghost use Rattle.rare_term.specs.Refusals.{RefusesTerm, refusal_by, has_large_number};
ghost use Rattle.rare_term.specs.inner.Nodes.{nestings, sizes, IsSmall, IsAt, Is};

use crate::limits::{MOST_ARGS, MOST_NESTED, MOST_NODES};
use crate::literals::has_large;
use crate::node::Node;
use crate::terms::TermError;
use rare_linear::Linear;
use rare_sort::{
    Declarations, Head, Ruling, Sort, TermId, are_same_linears, is_same_head, ruling_of,
};
use std::alloc::Global;

pub fn deepest_of(nodes: &[Node], args: &[TermId]) -> usize
    requires ids { AreIds (length nodes.now) args.now }
    requires small { All IsSmall nodes.now }
    ensures greatest { result ≡ greatest (nestings nodes.now args.now) }
    ensures bound { result ≤ MOST_NESTED }
{
    let mut n = 0usize;
    for id in args {
        n = n.max(nodes[id.0].nesting);
    }
    n
}

pub fn size_of(nodes: &[Node], args: &[TermId]) -> usize
    requires ids { AreIds (length nodes.now) args.now }
    requires few { length args.now ≤ MOST_ARGS }
    requires small { All IsSmall nodes.now }
    ensures sum { result ≡ sum (sizes nodes.now args.now) }
    ensures bound { result ≤ MOST_ARGS * MOST_NODES }
{
    let mut n = 0usize;
    for id in args {
        n += nodes[id.0].size;
    }
    n
}

pub fn same_ids(a: &[TermId], b: &[TermId]) -> bool
    ensures { IsTrue result ↔ (a.now ≡ b.now) }
{
    a == b
}

/// Whether the node has this head, these indices and these arguments.
fn is_node(node: &Node, head: Head, indices: &[Linear], args: &[TermId]) -> bool
    ensures { IsTrue result ↔ Is node.now head indices.now args.now }
{
    let head_is = is_same_head(node.head, head);
    head_is && are_same_linears(node.indices.items(), indices) && same_ids(node.args.items(), args)
}

/// The first node with this head, these indices and these arguments.
pub fn find(nodes: &[Node], head: Head, indices: &[Linear], args: &[TermId]) -> Option<usize>
    ensures found { IfSome result (λ k. (k < length nodes.now)
        × IsAt nodes.now k head indices.now args.now) }
    ensures none { IfNone result ((k : ℕ) → k < length nodes.now →
        IsAt nodes.now k head indices.now args.now → ⊥) }
{
    for (k, node) in nodes.iter().enumerate() {
        if is_node(node, head, indices, args) {
            return Some(k);
        }
    }
    None
}

/// The sort of the term, or the first refusal, by the greatest nesting and the size of the arguments.
pub fn judged(
    alloc: Global,
    declared: &Declarations,
    head: Head,
    indices: &[Linear],
    sorts: &[Sort],
    args: &[TermId],
    deepest: usize,
    total: usize,
) -> Result<Sort, TermError>
    requires declared { AreDeclared declared.now }
    requires sorts { AreSorts declared.now sorts.now }
    requires names { AreNamed (widths declared.now) indices.now }
    requires symbol { IsSymbol (length declared.now.symbols) (family head) }
    requires ids { AreIds (length sorts.now) args.now }
    requires few { length args.now ≤ MOST_ARGS }
    requires small { total ≤ MOST_ARGS * MOST_NODES }
    requires shallow { deepest ≤ MOST_NESTED }
    ensures sort { IfOk result
        (λ s. ruling declared.now head indices.now (sorts_at sorts.now args.now) ≡ Ruling.Has s) }
    ensures refusal { RefusesTerm
        (refusal_by (ruling declared.now head indices.now (sorts_at sorts.now args.now))
        (has_large_number head indices.now) (length args.now) (1 + deepest) (1 + total)) result }
{
    let Ok(ruling) = ruling_of(alloc, declared, head, indices, sorts, args) else {
        return Err(TermError::Memory);
    };
    let sort = match ruling {
        Ruling::Ill => return Err(TermError::IllSorted),
        Ruling::Wide => None,
        Ruling::Has(sort) => Some(sort),
    };
    if 1 + deepest > MOST_NESTED {
        return Err(TermError::TooDeep);
    }
    if 1 + total > MOST_NODES || has_large(head, indices) {
        return Err(TermError::TooLarge);
    }
    sort.ok_or(TermError::TooLarge)
}
