//! What an occurrence of a parameter, or the hole, is typed as.
ghost use Rattle.std.specs.Prelude.{◌≡◌, []};
ghost use Rattle.rare_sort.specs.SortRules.{width_needs};
ghost use Rattle.rare_sort.specs.Sorting.{One, Many, Wide};
ghost use Rattle.rare_rule.specs.RuleSorting.{kind_sorting};
ghost use Rattle.rare_type.specs.FirstCase.{differs_from, occurrence, occurrence_at};
ghost use Rattle.rare_type.specs.inner.Answering.{Finds, spec_place, sort_behind};
ghost use Rattle.rare_type.specs.inner.Steps.{asked, hole_sorting, param_sorting};

use crate::error::TypeError;
use crate::linears::{has_false, needs_of_widths};
use crate::place::{Found, Place};
use rare_linear::Linears;
use rare_rule::{Param, ParamKind};
use rare_sort::{Sort, is_same_sort};
use std::alloc::Global;

/// Whether the sort differs from the one that is asked of a root.
pub(crate) fn is_other(root: Option<&Sort>, sort: &Sort) -> bool
    ensures { result ≡ differs_from (sort_behind root.entry) sort.now }
{
    match root {
        Some(asked) => !is_same_sort(sort, asked),
        None => false,
    }
}

/// What stands in this place and asks for this, unless some of it never holds.
fn found(place: Place, needs: Linears) -> Result<Found, TypeError>
    ensures { Finds (asked (spec_place place) [] needs) result }
{
    if has_false(needs.items()) {
        Err(TypeError::NeverHolds)
    } else {
        Ok(Found { place, needs })
    }
}

/// An occurrence of a parameter for one term of this sort.
fn one_term(alloc: Global, sort: &Sort, root: Option<&Sort>) -> Result<Found, TypeError>
    ensures { Finds
        (occurrence_at (sort_behind root.entry) (One sort.now) (width_needs sort.now)) result }
{
    if is_other(root, sort) {
        return Err(TypeError::Clash);
    }
    let needs = needs_of_widths(alloc, sort)?;
    found(Place::One(sort.copy(alloc)?), needs)
}

/// An occurrence of a parameter for terms of this sort, which is no root that has a sort to have.
fn terms(alloc: Global, sort: &Sort, total: u32, root: Option<&Sort>) -> Result<Found, TypeError>
    ensures { Finds
        (occurrence_at (sort_behind root.entry) (Many sort.now total) (width_needs sort.now))
        result }
{
    if root.is_some() {
        return Err(TypeError::Clash);
    }
    let needs = needs_of_widths(alloc, sort)?;
    found(Place::Many(sort.copy(alloc)?, total), needs)
}

/// An occurrence of a parameter for bit vectors of any widths.
fn wide_terms(alloc: Global, total: u32, root: Option<&Sort>) -> Result<Found, TypeError>
    ensures { Finds (occurrence_at (sort_behind root.entry) (Wide total) []) result }
{
    if root.is_some() {
        Err(TypeError::Clash)
    } else {
        Ok(Found {
            place: Place::Wide(total),
            needs: Linears::new(alloc),
        })
    }
}

/// An occurrence of the parameter `k` of this kind.
fn of_kind(alloc: Global, kind: &ParamKind, k: u32, root: Option<&Sort>) -> Result<Found, TypeError>
    ensures { Finds (occurrence (sort_behind root.entry) (kind_sorting k kind.now)) result }
{
    match kind {
        ParamKind::Term(sort) => one_term(alloc, sort, root),
        ParamKind::List(sort) => terms(alloc, sort, k, root),
        ParamKind::WideList => wide_terms(alloc, k, root),
        _ => Err(TypeError::Clash),
    }
}

/// An occurrence of the parameter `k`.
pub(crate) fn of_param(
    alloc: Global,
    params: &[Param],
    k: u32,
    root: Option<&Sort>,
) -> Result<Found, TypeError>
    ensures { Finds (occurrence (sort_behind root.entry) (param_sorting params.now k)) result }
{
    match params.get(k as usize) {
        Some(param) => of_kind(alloc, &param.kind, k, root),
        None => Err(TypeError::Clash),
    }
}

/// The hole, which has a sort in a context alone.
pub(crate) fn of_hole(
    alloc: Global,
    hole: Option<&Sort>,
    root: Option<&Sort>,
) -> Result<Found, TypeError>
    ensures { Finds
        (occurrence (sort_behind root.entry) (hole_sorting (sort_behind hole.entry))) result }
{
    match hole {
        Some(sort) if is_other(root, sort) => Err(TypeError::Clash),
        Some(sort) => Ok(Found {
            place: Place::One(sort.copy(alloc)?),
            needs: Linears::new(alloc),
        }),
        None => Err(TypeError::Clash),
    }
}
