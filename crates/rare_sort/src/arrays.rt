//! The rules of sorts of `select` and `store`.
ghost use Rattle.std.specs.Prelude.{◌≡◌, length, IfOk, IfSome, IsTrue, [], ◌∷◌};
ghost use Rattle.std.specs.Option.{option_map};
ghost use Rattle.rare_sort.specs.Ids.{AreIds, sorts_at};
ghost use Rattle.rare_sort.specs.SortRules.{array_parts};
ghost use Rattle.rare_sort.specs.DeclaredSorts.{is_sort, AreSorts};
ghost use Rattle.rare_sort.specs.Rulings.{ruling_of_family};

use crate::bare::{copy_where, sort_of};
use crate::declarations::Declarations;
use crate::family::Family;
use crate::ruling::Ruling;
use crate::sort::{Sort, is_same_sort};
use crate::tree::TermId;
use std::alloc::{AllocError, Global};

/// The sorts of an array's indices and of its entries.
fn parts_of_array<'a>(declared: &Declarations, sort: &'a Sort) -> Option<(&'a Sort, &'a Sort)>
    requires { IsTrue (is_sort declared.now sort.now) }
    ensures parts { option_map (λ p. (p.0.now, p.1.now)) result ≡ array_parts sort.now }
    ensures entries { IfSome result (λ p. IsTrue (is_sort declared.now p.1.now)) }
{
    match sort {
        Sort::Array(keys, entries) => Some((keys.get(), entries.get())),
        _ => None,
    }
}

/// `select`, by the sorts of its arguments.
fn select_of(
    alloc: Global,
    declared: &Declarations,
    array: &Sort,
    key: &Sort,
) -> Result<Ruling, AllocError>
    requires { IsTrue (is_sort declared.now array.now) }
    ensures { IfOk result (λ r. r ≡ ruling_of_family declared.now Family.Select []
        (array.now ∷ key.now ∷ [])) }
{
    match parts_of_array(declared, array) {
        Some((keys, entries)) => {
            let met = is_same_sort(key, keys);
            copy_where(alloc, met, entries)
        }
        None => Ok(Ruling::Ill),
    }
}

pub(crate) fn select(
    alloc: Global,
    declared: &Declarations,
    sorts: &[Sort],
    args: &[TermId],
) -> Result<Ruling, AllocError>
    requires sorts { AreSorts declared.now sorts.now }
    requires ids { AreIds (length sorts.now) args.now }
    ensures { IfOk result (λ r. r ≡ ruling_of_family declared.now Family.Select []
        (sorts_at sorts.now args.now)) }
{
    match args {
        [array, key] => {
            select_of(
                alloc,
                declared,
                sort_of(sorts, *array),
                sort_of(sorts, *key),
            )
        }
        _ => Ok(Ruling::Ill),
    }
}

/// `store`, by the sorts of its arguments.
fn store_of(
    alloc: Global,
    declared: &Declarations,
    array: &Sort,
    key: &Sort,
    entry: &Sort,
) -> Result<Ruling, AllocError>
    requires { IsTrue (is_sort declared.now array.now) }
    ensures { IfOk result (λ r. r ≡ ruling_of_family declared.now Family.Store []
        (array.now ∷ key.now ∷ entry.now ∷ [])) }
{
    match parts_of_array(declared, array) {
        Some((keys, entries)) => {
            let met = is_same_sort(key, keys) && is_same_sort(entry, entries);
            copy_where(alloc, met, array)
        }
        None => Ok(Ruling::Ill),
    }
}

pub(crate) fn store(
    alloc: Global,
    declared: &Declarations,
    sorts: &[Sort],
    args: &[TermId],
) -> Result<Ruling, AllocError>
    requires sorts { AreSorts declared.now sorts.now }
    requires ids { AreIds (length sorts.now) args.now }
    ensures { IfOk result (λ r. r ≡ ruling_of_family declared.now Family.Store []
        (sorts_at sorts.now args.now)) }
{
    match args {
        [array, key, entry] => store_of(
            alloc,
            declared,
            sort_of(sorts, *array),
            sort_of(sorts, *key),
            sort_of(sorts, *entry),
        ),
        _ => Ok(Ruling::Ill),
    }
}
