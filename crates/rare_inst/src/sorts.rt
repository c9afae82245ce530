//! The widths of terms, and sorts with what stands for their names.
ghost use Rattle.std.specs.Prelude.{◌≡◌, ◌<◌, length, map, is_some, slice_get, IfOk, IfSome, IsTrue};
ghost use Rattle.std.specs.List.{list_all};
ghost use Rattle.std.specs.Option.{option_map};
ghost use Rattle.rare_linear.specs.Linears.{IsNormal, NamesBelow};
ghost use Rattle.rare_sort.specs.DeclaredSorts.{widths};
ghost use Rattle.rare_sort.specs.Ids.{AreIds, tree_at, trees_at};
ghost use Rattle.rare_sort.specs.SortOf.{sort_of};
ghost use Rattle.rare_sort.specs.SortRules.{width};
ghost use Rattle.rare_inst.specs.Answers.{is_named_sort};
ghost use Rattle.rare_inst.specs.Substituting.{Substitution};
ghost use Rattle.rare_inst.specs.inner.Standing.{HasSorts, StandsFor, array_within, put_sort_within, sort_standing, word_within};
ghost use Rattle.rare_inst.specs.InstanceLaws.{HasNormalWidth};

use crate::arg::Arg;
use crate::substitution::Numbers;
use rare_linear::Linear;
use rare_list::Boxed;
use rare_sort::{Sort, TermId};
use rare_term::Terms;
use std::alloc::{AllocError, Global};

/// The width of a sort of bit vectors.
pub(crate) fn width_of(sort: &Sort) -> Option<&Linear>
    ensures width { option_map (λ m. m.now) result ≡ width sort.now }
    ensures normal { IfSome result (λ m. IsNormal m.now.parts) }
{
    match sort {
        Sort::BitVec(m) => {
            let _parts = m.parts();
            Some(m)
        }
        _ => None,
    }
}

/// The width of a term that is a bit vector.
pub(crate) fn width_of_term<T: Terms>(terms: &T, id: TermId) -> Option<&Linear>
    requires { id.0 < length (T.state terms.now).trees }
    ensures width { option_map (λ m. m.now) result
        ≡ width (sort_of (T.state terms.now).declared.symbols
        (tree_at (T.state terms.now).trees id.0)) }
    ensures named { IfSome result
        (λ m. NamesBelow (widths (T.state terms.now).declared) m.now.parts) }
    ensures normal { HasNormalWidth
        (sort_of (T.state terms.now).declared.symbols (tree_at (T.state terms.now).trees id.0)) }
{
    match width_of(terms.sort(id)) {
        Some(m) => Some(m),
        None => None,
    }
}

/// Whether all terms are bit vectors.
pub(crate) fn are_words<T: Terms>(terms: &T, ids: &[TermId]) -> bool
    requires { AreIds (length (T.state terms.now).trees) ids.now }
    ensures { result ≡ list_all
        (λ t. is_some (width (sort_of (T.state terms.now).declared.symbols t)))
        (trees_at (T.state terms.now).trees ids.now) }
{
    for id in ids {
        if width_of_term(terms, *id).is_none() {
            return false;
        }
    }
    true
}

/// The sort that stands for name `k`.
fn sort_of_name(alloc: Global, args: &[Arg], k: u32) -> Result<Sort, AllocError>
    ensures { IfOk result (λ s. s ≡ sort_standing (slice_get args.now k)) }
{
    match args.get(k as usize) {
        Some(Arg::Sort(sort)) => sort.copy(alloc),
        _ => Ok(Sort::Bool),
    }
}

/// The sort of arrays, where both parts are there.
fn array_of(
    alloc: Global,
    keys: Option<Sort>,
    entries: Option<Sort>,
) -> Result<Option<Sort>, AllocError>
    ensures { IfOk result (λ o. o ≡ array_within keys entries) }
{
    let (Some(keys), Some(entries)) = (keys, entries) else {
        return Ok(None);
    };
    let keys = Boxed::new(alloc, keys)?;
    Ok(Some(Sort::Array(keys, Boxed::new(alloc, entries)?)))
}

fn word_of(width: Option<Linear>) -> Option<Sort>
    ensures { result ≡ word_within width }
{
    match width {
        Some(width) => Some(Sort::BitVec(width)),
        None => None,
    }
}

/// The sort with what stands for its names, or none where one of its widths leaves `i128`.
pub(crate) fn put_sort(
    alloc: Global,
    numbers: &Numbers,
    args: &[Arg],
    sort: &Sort,
) -> Result<Option<Sort>, AllocError>
    requires { IsTrue (is_named_sort (length numbers.now.values) sort.now) }
    ensures { (a : Substitution) → StandsFor a numbers.now → HasSorts a args.now →
        IfOk result (λ o. o ≡ put_sort_within a sort.now) }
{
    match sort {
        Sort::Bool => Ok(Some(Sort::Bool)),
        Sort::Int => Ok(Some(Sort::Int)),
        Sort::BitVec(width) => Ok(word_of(numbers.put(width)?)),
        Sort::Array(keys, entries) => {
            let keys = put_sort(alloc, numbers, args, keys.get())?;
            let entries = put_sort(alloc, numbers, args, entries.get())?;
            array_of(alloc, keys, entries)
        }
        Sort::Named(k) => Ok(Some(sort_of_name(alloc, args, *k)?)),
    }
}
