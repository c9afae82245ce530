//! The sorts of applications of operators without indices, by the sorts of the arguments.
ghost use Rattle.std.specs.Prelude.{◌≡◌, ◌&&◌, ℕ, length, List, [], ◌∷◌};
ghost use Rattle.std.specs.Option.{option_map};
ghost use Rattle.rare_sort.specs.Rulings.{all_one};
ghost use Rattle.rare_sort.specs.SortRules.{array_parts, basic_sort, counts, each_is, outcome_sort, width};
ghost use Rattle.rare_sort.specs.inner.Within.{all_words, zero_width};
ghost use Rattle.rare_type.specs.inner.Answering.{Reports};
ghost use Rattle.rare_type.specs.inner.Steps.{family_sort, sort_where, sum_typed, summed_from, word_typed};

use crate::error::TypeError;
use crate::linears::sum;
use crate::place::width_of;
use rare_linear::Linear;
use rare_sort::{Basic, Count, Family, Outcome, Sort, is_same_sort};
use std::alloc::Global;

/// Whether each sort is this one.
fn are_all(sort: &Sort, sorts: &[Sort]) -> bool
    ensures { result ≡ all_one (each_is sort.now sorts.now) }
{
    for each in sorts {
        if !is_same_sort(each, sort) {
            return false;
        }
    }
    true
}

fn is_count(count: Count, least: usize, n: usize) -> bool
    ensures { result ≡ counts count least n }
{
    match count {
        Count::Exactly(k) => n == k,
        Count::Several => n >= least,
    }
}

fn sort_of_basic(basic: Basic) -> Sort
    ensures { result ≡ basic_sort basic }
{
    match basic {
        Basic::Bool => Sort::Bool,
        Basic::Int => Sort::Int,
    }
}

/// The sorts of an array's indices and of its entries.
fn parts_of_array(sort: &Sort) -> Option<(&Sort, &Sort)>
    ensures { option_map (λ p. (p.0.now, p.1.now)) result ≡ array_parts sort.now }
{
    match sort {
        Sort::Array(keys, entries) => Some((keys.get(), entries.get())),
        _ => None,
    }
}

/// The sort, where the test is met.
fn has_where(met: bool, sort: Sort) -> Result<Sort, TypeError>
    ensures { Reports (sort_where met sort) result }
{
    if met { Ok(sort) } else { Err(TypeError::Clash) }
}

/// A copy of the sort, where the test is met.
fn copy_where(alloc: Global, met: bool, sort: &Sort) -> Result<Sort, TypeError>
    ensures { Reports (sort_where met sort.now) result }
{
    if met {
        Ok(sort.copy(alloc)?)
    } else {
        Err(TypeError::Clash)
    }
}

fn fixed(
    least: usize,
    count: Count,
    of: Basic,
    gives: Basic,
    sorts: &[Sort],
) -> Result<Sort, TypeError>
    ensures { Reports (family_sort least (Family.Fixed count of gives) [] sorts.now) result }
{
    let met = is_count(count, least, sorts.len()) && are_all(&sort_of_basic(of), sorts);
    has_where(met, sort_of_basic(gives))
}

fn alike(least: usize, sorts: &[Sort]) -> Result<Sort, TypeError>
    ensures { Reports (family_sort least Family.Alike [] sorts.now) result }
{
    match sorts {
        [first, rest @ ..] => {
            let met = sorts.len() >= least && are_all(first, rest);
            has_where(met, Sort::Bool)
        }
        [] => Err(TypeError::Clash),
    }
}

/// `ite`.
fn choice(alloc: Global, least: usize, sorts: &[Sort]) -> Result<Sort, TypeError>
    ensures { Reports (family_sort least Family.Choice [] sorts.now) result }
{
    match sorts {
        [test, left, right] => {
            let met = is_same_sort(test, &Sort::Bool) && is_same_sort(right, left);
            copy_where(alloc, met, left)
        }
        _ => Err(TypeError::Clash),
    }
}

/// `select`, by the sorts of its arguments.
fn select_of(alloc: Global, array: &Sort, key: &Sort) -> Result<Sort, TypeError>
    ensures { Reports (family_sort 2 Family.Select [] (array.now ∷ key.now ∷ [])) result }
{
    match parts_of_array(array) {
        Some((keys, entries)) => {
            let met = is_same_sort(key, keys);
            copy_where(alloc, met, entries)
        }
        None => Err(TypeError::Clash),
    }
}

fn select(alloc: Global, least: usize, sorts: &[Sort]) -> Result<Sort, TypeError>
    ensures { Reports (family_sort least Family.Select [] sorts.now) result }
{
    match sorts {
        [array, key] => select_of(alloc, array, key),
        _ => Err(TypeError::Clash),
    }
}

/// `store`, by the sorts of its arguments.
fn store_of(alloc: Global, array: &Sort, key: &Sort, entry: &Sort) -> Result<Sort, TypeError>
    ensures { Reports (family_sort 2 Family.Store [] (array.now ∷ key.now ∷ entry.now ∷ []))
        result }
{
    match parts_of_array(array) {
        Some((keys, entries)) => {
            let met = is_same_sort(key, keys) && is_same_sort(entry, entries);
            copy_where(alloc, met, array)
        }
        None => Err(TypeError::Clash),
    }
}

fn store(alloc: Global, least: usize, sorts: &[Sort]) -> Result<Sort, TypeError>
    ensures { Reports (family_sort least Family.Store [] sorts.now) result }
{
    match sorts {
        [array, key, entry] => store_of(alloc, array, key, entry),
        _ => Err(TypeError::Clash),
    }
}

fn outcome_of(alloc: Global, outcome: Outcome, met: bool, width: &Linear) -> Result<Sort, TypeError>
    ensures { Reports (sort_where met (outcome_sort outcome width.now)) result }
{
    match outcome {
        Outcome::Bool => has_where(met, Sort::Bool),
        Outcome::OneBit => has_where(met, Sort::BitVec(Linear::constant(alloc, 1))),
        Outcome::SameWidth if met => Ok(Sort::BitVec(width.copy(alloc)?)),
        Outcome::SameWidth => Err(TypeError::Clash),
    }
}

/// An operator on bit vectors, by the sort of its first argument.
fn words_of(alloc: Global, outcome: Outcome, met: bool, first: &Sort) -> Result<Sort, TypeError>
    ensures { (least : ℕ) (count : Count) (ss : List Sort) →
        met ≡ (counts count least (length (first.now ∷ ss)) && all_one (each_is first.now ss)) →
        Reports (family_sort least (Family.BitVectors count outcome) [] (first.now ∷ ss)) result }
{
    match width_of(first) {
        Some(width) => outcome_of(alloc, outcome, met, width),
        None => Err(TypeError::Clash),
    }
}

fn bit_vectors(
    alloc: Global,
    least: usize,
    count: Count,
    outcome: Outcome,
    sorts: &[Sort],
) -> Result<Sort, TypeError>
    ensures { Reports (family_sort least (Family.BitVectors count outcome) [] sorts.now) result }
{
    match sorts {
        [first, rest @ ..] => {
            let met = is_count(count, least, sorts.len()) && are_all(first, rest);
            words_of(alloc, outcome, met, first)
        }
        [] => Err(TypeError::Clash),
    }
}

/// Whether all are sorts of bit vectors.
fn are_bit_vectors(sorts: &[Sort]) -> bool
    ensures { result ≡ all_words sorts.now }
{
    for sort in sorts {
        if width_of(sort).is_none() {
            return false;
        }
    }
    true
}

/// The total with the width of the sort.
fn with_width(total: &Linear, sort: &Sort) -> Result<Linear, TypeError>
    ensures { Reports (sum_typed total.now (width sort.now)) result }
{
    match width_of(sort) {
        Some(width) => sum(total, width),
        None => Err(TypeError::Clash),
    }
}

/// The sum of the widths, from the left.
fn total_width(alloc: Global, sorts: &[Sort]) -> Result<Linear, TypeError>
    ensures { Reports (summed_from zero_width sorts.now) result }
{
    let mut total = Linear::constant(alloc, 0);
    for sort in sorts {
        total = with_width(&total, sort)?;
    }
    Ok(total)
}

/// `concat` of so many bit vectors.
fn joined(alloc: Global, sorts: &[Sort]) -> Result<Sort, TypeError>
    ensures { Reports (word_typed (summed_from zero_width sorts.now)) result }
{
    Ok(Sort::BitVec(total_width(alloc, sorts)?))
}

fn concat(alloc: Global, least: usize, sorts: &[Sort]) -> Result<Sort, TypeError>
    ensures { Reports (family_sort least Family.Concat [] sorts.now) result }
{
    if sorts.len() < least {
        return Err(TypeError::Clash);
    }
    if !are_bit_vectors(sorts) {
        return Err(TypeError::Clash);
    }
    joined(alloc, sorts)
}

/// The sort of an application of an operator without indices.
pub(crate) fn sort_of(
    alloc: Global,
    least: usize,
    family: Family,
    sorts: &[Sort],
) -> Result<Sort, TypeError>
    ensures { Reports (family_sort least family [] sorts.now) result }
{
    match family {
        Family::Fixed(count, of, gives) => fixed(least, count, of, gives, sorts),
        Family::Alike => alike(least, sorts),
        Family::Choice => choice(alloc, least, sorts),
        Family::Select => select(alloc, least, sorts),
        Family::Store => store(alloc, least, sorts),
        Family::BitVectors(count, outcome) => bit_vectors(alloc, least, count, outcome, sorts),
        Family::Concat => concat(alloc, least, sorts),
        _ => Err(TypeError::Clash),
    }
}
