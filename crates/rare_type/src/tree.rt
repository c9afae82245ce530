//! What a term of a rule is typed as.
ghost use Rattle.rare_type.specs.FirstCase.{typed_tree};
ghost use Rattle.rare_type.specs.inner.Answering.{AnswersAs, Finds, args_in, sort_behind};
ghost use Rattle.rare_type.specs.inner.Steps.{args_typed};

use crate::error::TypeError;
use crate::linears::append;
use crate::node::type_node;
use crate::place::{Args, Found, Places};
use rare_linear::Linears;
use rare_rule::Param;
use rare_sort::{Sort, Tree};
use std::alloc::Global;

/// What a term is typed as, by the sort of the hole and the sort that is asked of the root.
#[cycle(terms)]
pub(crate) fn type_tree(
    alloc: Global,
    params: &[Param],
    hole: Option<&Sort>,
    tree: &Tree,
    root: Option<&Sort>,
) -> Result<Found, TypeError>
    ensures { Finds
        (typed_tree params.now (sort_behind hole.entry) tree.now (sort_behind root.entry)) result }
{
    let args = type_args(alloc, params, hole, tree.args.items())?;
    let indices = tree.indices.items();
    type_node(alloc, params, hole, root, tree.head, indices, args)
}

/// What arguments are typed as, of which no sort is asked.
#[cycle(terms)]
fn type_args(
    alloc: Global,
    params: &[Param],
    hole: Option<&Sort>,
    trees: &[Tree],
) -> Result<Args, TypeError>
    ensures { AnswersAs args_in
        (args_typed params.now (sort_behind hole.entry) trees.now) result }
{
    let mut places = Places::new(alloc);
    let mut needs = Linears::new(alloc);
    for tree in trees {
        let found = type_tree(alloc, params, hole, tree, None)?;
        append(alloc, &mut needs, found.needs.items())?;
        places.push(found.place)?;
    }
    Ok(Args { places, needs })
}
