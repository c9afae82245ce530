//! What stands in a place of a term, and the sorts that places count as among arguments.
ghost use Rattle.std.specs.Prelude.{◌≡◌, map, not, Ok};
ghost use Rattle.std.specs.Option.{option_map};
ghost use Rattle.rare_sort.specs.SortRules.{is_number, width};
ghost use Rattle.rare_sort.specs.Sorting.{all_of, is_concat, is_list, least_count, name, place_sort, some_list, splices, Many};
ghost use Rattle.rare_sort.specs.declared.sort.Sort.{BitVec};
ghost use Rattle.rare_type.specs.FirstCase.{have_names, is_named_product};
ghost use Rattle.rare_type.specs.inner.Answering.{Reports, spec_place, spec_places};
ghost use Rattle.rare_type.specs.inner.Steps.{or_clash};

use crate::error::TypeError;
use rare_linear::{Linear, Linears};
use rare_list::Sequence;
use rare_sort::{Head, Sort, Sorts};
use std::alloc::Global;

/// What stands in a place: one term, or those of a list variable.
#[derive(Debug, Drop)]
pub(crate) enum Place {
    /// One term of this sort.
    One(Sort),
    /// Terms of one sort, and the name of their total width.
    Many(Sort, u32),
    /// Bit vectors, each of a width of its own, and the name of their total width.
    Wide(u32),
}

/// A list of places.
pub(crate) type Places = Sequence<Place>;

/// What a term is typed as.
#[derive(Debug, Drop)]
pub(crate) struct Found {
    pub(crate) place: Place,
    /// What must be at least 0.
    pub(crate) needs: Linears,
}

/// What the arguments of an application are typed as.
#[derive(Debug, Drop)]
pub(crate) struct Args {
    pub(crate) places: Places,
    /// What they ask to be at least 0.
    pub(crate) needs: Linears,
}

fn is_concat_head(head: Head) -> bool
    ensures { result ≡ is_concat head }
{
    matches!(head, Head::Concat)
}

/// Whether lists are spliced in among the operator's arguments.
fn splices_lists(head: Head) -> bool
    ensures { result ≡ splices head }
{
    match head {
        Head::And
        | Head::Or
        | Head::Add
        | Head::Mul
        | Head::BvAdd
        | Head::BvMul
        | Head::BvAnd
        | Head::BvOr
        | Head::BvXor
        | Head::Concat => true,
        _ => false,
    }
}

/// The width of a sort of bit vectors.
pub(crate) fn width_of(sort: &Sort) -> Option<&Linear>
    ensures { option_map (λ m. m.now) result ≡ width sort.now }
{
    match sort {
        Sort::BitVec(m) => Some(m),
        _ => None,
    }
}

/// Bit vectors of the width of this name.
fn words_named(alloc: Global, total: u32) -> Result<Sort, TypeError>
    ensures { Reports (Ok (BitVec (name total))) result }
{
    Ok(Sort::BitVec(Linear::name(alloc, total)?))
}

/// The sort that a list counts as.
fn sort_of_many(alloc: Global, head: Head, sort: &Sort, total: u32) -> Result<Sort, TypeError>
    ensures { Reports (or_clash (place_sort head (Many sort.now total))) result }
{
    if is_concat_head(head) {
        return match width_of(sort) {
            Some(_) => words_named(alloc, total),
            None => Err(TypeError::Clash),
        };
    }
    if splices_lists(head) {
        Ok(sort.copy(alloc)?)
    } else {
        Err(TypeError::Clash)
    }
}

/// The sort that a place counts as.
fn sort_of_place(alloc: Global, head: Head, place: &Place) -> Result<Sort, TypeError>
    ensures { Reports (or_clash (place_sort head (spec_place place.now))) result }
{
    match place {
        Place::One(sort) => Ok(sort.copy(alloc)?),
        Place::Many(sort, total) => sort_of_many(alloc, head, sort, *total),
        Place::Wide(total) if is_concat_head(head) => words_named(alloc, *total),
        Place::Wide(_) => Err(TypeError::Clash),
    }
}

/// The sorts that the places of arguments count as.
pub(crate) fn argument_sorts(
    alloc: Global,
    head: Head,
    places: &[Place],
) -> Result<Sorts, TypeError>
    ensures { Reports (or_clash (all_of (map (place_sort head) (spec_places places.now)))) result }
{
    let mut sorts = Sorts::new(alloc);
    for place in places {
        sorts.push(sort_of_place(alloc, head, place)?)?;
    }
    Ok(sorts)
}

fn is_many(place: &Place) -> bool
    ensures { result ≡ is_list (spec_place place.now) }
{
    match place {
        Place::One(_) => false,
        _ => true,
    }
}

fn has_list(places: &[Place]) -> bool
    ensures { result ≡ some_list (spec_places places.now) }
{
    for place in places {
        if is_many(place) {
            return true;
        }
    }
    false
}

/// The least number of arguments of an operator that takes several.
pub(crate) fn least_arguments(places: &[Place]) -> usize
    ensures { result ≡ least_count (spec_places places.now) }
{
    if has_list(places) { 1 } else { 2 }
}

fn has_name(e: &Linear) -> bool
    ensures { result ≡ not (is_number e.now) }
{
    !e.parts().is_empty()
}

/// Whether both the number of copies and the width of the sort have names.
fn are_named(count: &Linear, sort: &Sort) -> bool
    ensures { result ≡ have_names count.now (width sort.now) }
{
    match width_of(sort) {
        Some(width) => has_name(count) && has_name(width),
        None => false,
    }
}

/// Whether a repetition has a number and a width that both have names.
pub(crate) fn is_product_of_names(head: Head, indices: &[Linear], places: &[Place]) -> bool
    ensures { result ≡ is_named_product head indices.now (spec_places places.now) }
{
    match (head, indices, places) {
        (Head::Repeat, [count], [Place::One(sort)]) => are_named(count, sort),
        _ => false,
    }
}
