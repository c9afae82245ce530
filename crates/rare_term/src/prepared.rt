//! A term that is not refused, before it is looked for.
ghost use Rattle.std.specs.Prelude.{◌≡◌, length, IfOk};
ghost use Rattle.rare_sort.specs.DeclaredSorts.{widths, AreNamed, IsSymbol};
ghost use Rattle.rare_sort.specs.Families.{family};
ghost use Rattle.rare_sort.specs.Ids.{AreIds, trees_at};
ghost use Rattle.rare_term.specs.Refusals.{RefusesTerm, refusal};
ghost use Rattle.rare_term.specs.inner.Nodes.{trees_of};
ghost use Rattle.rare_term.specs.inner.Kept.{IsKept};
ghost use Rattle.rare_term.specs.inner.Prepared.{IsPrepared};

use crate::limits::MOST_ARGS;
use crate::literals::{Operator, reduced_operator};
use crate::node::Node;
use crate::scan::{deepest_of, judged, size_of};
use crate::terms::TermError;
use rare_linear::Linear;
use rare_sort::{Declarations, Head, Sort, TermId};
use std::alloc::Global;

/// A term that is not refused: its operator as it is kept, its sort and its measures.
#[derive(Debug, Drop)]
pub struct PreparedTerm {
    pub operator: Operator,
    pub sort: Sort,
    pub nesting: usize,
    pub size: usize,
}

/// What is kept of a term, or the first refusal that applies.
pub fn prepare(
    alloc: Global,
    declared: &Declarations,
    nodes: &[Node],
    sorts: &[Sort],
    head: Head,
    indices: &[Linear],
    args: &[TermId],
) -> Result<PreparedTerm, TermError>
    requires kept { IsKept nodes.now sorts.now declared.now }
    requires ids { AreIds (length nodes.now) args.now }
    requires symbol { IsSymbol (length declared.now.symbols) (family head) }
    requires names { AreNamed (widths declared.now) indices.now }
    ensures refused { RefusesTerm
        (refusal declared.now head indices.now (trees_at (trees_of nodes.now) args.now)) result }
    ensures prepared { IfOk result
        (λ p. IsPrepared nodes.now sorts.now declared.now head indices.now args.now p) }
{
    if args.len() > MOST_ARGS {
        return Err(TermError::TooManyArgs);
    }
    let deepest = deepest_of(nodes, args);
    let total = size_of(nodes, args);
    let sort = match judged(alloc, declared, head, indices, sorts, args, deepest, total) {
        Ok(sort) => sort,
        Err(e) => return Err(e),
    };
    let Ok(operator) = reduced_operator(alloc, head, indices) else {
        return Err(TermError::Memory);
    };
    Ok(PreparedTerm {
        operator,
        sort,
        nesting: 1 + deepest,
        size: 1 + total,
    })
}
