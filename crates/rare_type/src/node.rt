//! What a node is typed as, by its arguments.
ghost use Rattle.rare_sort.specs.Sorting.{One};
ghost use Rattle.rare_type.specs.inner.Answering.{Finds, spec_places, sort_behind};
ghost use Rattle.rare_type.specs.inner.Steps.{head_applied, asked, node_by, sort_applied, sorts_applied};

use crate::error::TypeError;
use crate::indexed;
use crate::linears::{append, has_false};
use crate::needs::needs_of;
use crate::occurrence::{is_other, of_hole, of_param};
use crate::place::{Args, Found, Place, argument_sorts, is_product_of_names, least_arguments};
use rare_linear::{Linear, Linears};
use rare_rule::Param;
use rare_sort::{Family, Head, Sort, family_of};
use std::alloc::Global;

/// An application of this sort, whose arguments ask for `before` and which asks for `own`, unless
/// some of its own never holds.
fn found(alloc: Global, sort: Sort, before: Linears, own: Linears) -> Result<Found, TypeError>
    ensures { Finds (asked (One sort) before own) result }
{
    if has_false(own.items()) {
        return Err(TypeError::NeverHolds);
    }
    let mut needs = before;
    append(alloc, &mut needs, own.items())?;
    Ok(Found {
        place: Place::One(sort),
        needs,
    })
}

/// An application of this sort.
fn with_sort(
    alloc: Global,
    root: Option<&Sort>,
    family: Family,
    indices: &[Linear],
    sorts: &[Sort],
    before: Linears,
    sort: Sort,
) -> Result<Found, TypeError>
    ensures { Finds
        (sort_applied (sort_behind root.entry) family indices.now sorts.now before sort) result }
{
    if is_other(root, &sort) {
        return Err(TypeError::Clash);
    }
    let own = needs_of(alloc, family, indices, sorts)?;
    found(alloc, sort, before, own)
}

/// An application to arguments of these sorts.
fn with_sorts(
    alloc: Global,
    root: Option<&Sort>,
    least: usize,
    family: Family,
    indices: &[Linear],
    before: Linears,
    sorts: &[Sort],
) -> Result<Found, TypeError>
    ensures { Finds
        (sorts_applied (sort_behind root.entry) least family indices.now before sorts.now) result }
{
    let sort = indexed::sort_of(alloc, least, family, indices, sorts)?;
    with_sort(alloc, root, family, indices, sorts, before, sort)
}

fn application(
    alloc: Global,
    root: Option<&Sort>,
    head: Head,
    indices: &[Linear],
    args: Args,
) -> Result<Found, TypeError>
    ensures { Finds
        (head_applied (sort_behind root.entry) head indices.now (spec_places args.places)
        args.needs)
        result }
{
    let places = args.places.items();
    if is_product_of_names(head, indices, places) {
        return Err(TypeError::NonLinear);
    }
    let least = least_arguments(places);
    let family = family_of(head);
    let sorts = argument_sorts(alloc, head, places)?;
    with_sorts(
        alloc,
        root,
        least,
        family,
        indices,
        args.needs,
        sorts.items(),
    )
}

/// What a node is typed as.
pub(crate) fn type_node(
    alloc: Global,
    params: &[Param],
    hole: Option<&Sort>,
    root: Option<&Sort>,
    head: Head,
    indices: &[Linear],
    args: Args,
) -> Result<Found, TypeError>
    ensures { Finds
        (node_by params.now (sort_behind hole.entry) (sort_behind root.entry) head indices.now
        (spec_places args.places) args.needs)
        result }
{
    match head {
        Head::Param(k) => of_param(alloc, params, k, root),
        Head::Hole => of_hole(alloc, hole, root),
        _ => application(alloc, root, head, indices, args),
    }
}
