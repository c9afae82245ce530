//! The sorts of applications of operators with indices, by the sorts of the arguments.
ghost use Rattle.std.specs.Prelude.{◌≡◌, ℕ};
ghost use Rattle.rare_type.specs.FirstCase.{Typing};
ghost use Rattle.std.specs.Option.{option_map};
ghost use Rattle.rare_linear.specs.Linears.{LinearExpression, add};
ghost use Rattle.rare_sort.specs.SortRules.{slice_width};
ghost use Rattle.rare_sort.specs.inner.Within.{only_width};
ghost use Rattle.rare_type.specs.inner.Answering.{Reports};
ghost use Rattle.rare_type.specs.inner.Steps.{bounded, bounded_product, family_sort, word_typed};

use crate::bare;
use crate::error::TypeError;
use crate::linears::{constant_of, multiple, shifted_difference, sum};
use crate::place::width_of;
use rare_linear::Linear;
use rare_sort::{Family, Sort, number_of};
use std::alloc::Global;

/// The width of the only argument.
pub(crate) fn width_of_only(sorts: &[Sort]) -> Option<&Linear>
    ensures { option_map (λ m. m.now) result ≡ only_width sorts.now }
{
    match sorts {
        [sort] => width_of(sort),
        _ => None,
    }
}

/// Bit vectors of this width, if there is one.
fn word(width: Result<Linear, TypeError>) -> Result<Sort, TypeError>
    ensures { (t : Typing LinearExpression) → Reports t width → Reports (word_typed t) result }
{
    Ok(Sort::BitVec(width?))
}

/// The bits from `i` to `j`.
fn slice(alloc: Global, j: &Linear, i: &Linear) -> Result<Sort, TypeError>
    ensures { Reports (word_typed (bounded (slice_width j.now i.now))) result }
{
    let (_j, _i) = (constant_of(j), constant_of(i));
    word(shifted_difference(alloc, j, 1, i))
}

fn extract(alloc: Global, indices: &[Linear], sorts: &[Sort]) -> Result<Sort, TypeError>
    ensures { (least : ℕ) → Reports (family_sort least Family.Extract indices.now sorts.now)
        result }
{
    match (indices, width_of_only(sorts)) {
        ([j, i], Some(_)) => slice(alloc, j, i),
        _ => Err(TypeError::Clash),
    }
}

/// A width that grows by `k`.
fn longer(m: &Linear, k: &Linear) -> Result<Sort, TypeError>
    ensures { Reports (word_typed (bounded (add m.now k.now))) result }
{
    word(sum(m, k))
}

fn extend(indices: &[Linear], sorts: &[Sort]) -> Result<Sort, TypeError>
    ensures { (least : ℕ) → Reports (family_sort least Family.Extend indices.now sorts.now) result }
{
    match (indices, width_of_only(sorts)) {
        ([k], Some(m)) => longer(m, k),
        _ => Err(TypeError::Clash),
    }
}

fn rotate(alloc: Global, indices: &[Linear], sorts: &[Sort]) -> Result<Sort, TypeError>
    ensures { (least : ℕ) → Reports (family_sort least Family.Rotate indices.now sorts.now) result }
{
    match (indices, width_of_only(sorts)) {
        ([_], Some(m)) => Ok(Sort::BitVec(m.copy(alloc)?)),
        _ => Err(TypeError::Clash),
    }
}

/// The product, if a factor has no name.
fn product(k: &Linear, m: &Linear) -> Result<Linear, TypeError>
    ensures { Reports (bounded_product k.now m.now) result }
{
    match (number_of(k), number_of(m)) {
        (Some(c), _) => multiple(c, m),
        (None, Some(n)) => multiple(n, k),
        (None, None) => Err(TypeError::Clash),
    }
}

/// A width `k` times.
fn copies(k: &Linear, m: &Linear) -> Result<Sort, TypeError>
    ensures { Reports (word_typed (bounded_product k.now m.now)) result }
{
    word(product(k, m))
}

fn repeat(indices: &[Linear], sorts: &[Sort]) -> Result<Sort, TypeError>
    ensures { (least : ℕ) → Reports (family_sort least Family.Repeat indices.now sorts.now) result }
{
    match (indices, width_of_only(sorts)) {
        ([k], Some(m)) => copies(k, m),
        _ => Err(TypeError::Clash),
    }
}

fn bits(alloc: Global, indices: &[Linear], sorts: &[Sort]) -> Result<Sort, TypeError>
    ensures { (least : ℕ) → Reports (family_sort least Family.Bits indices.now sorts.now) result }
{
    match (indices, sorts) {
        ([width], []) => Ok(Sort::BitVec(width.copy(alloc)?)),
        _ => Err(TypeError::Clash),
    }
}

fn literal(alloc: Global, indices: &[Linear], sorts: &[Sort]) -> Result<Sort, TypeError>
    ensures { (least : ℕ) → Reports (family_sort least Family.Literal indices.now sorts.now)
        result }
{
    match (indices, sorts) {
        ([_, width], []) => Ok(Sort::BitVec(width.copy(alloc)?)),
        _ => Err(TypeError::Clash),
    }
}

/// The sort of an application of an operator of the family that takes `least` arguments or more.
pub(crate) fn sort_of(
    alloc: Global,
    least: usize,
    family: Family,
    indices: &[Linear],
    sorts: &[Sort],
) -> Result<Sort, TypeError>
    ensures { Reports (family_sort least family indices.now sorts.now) result }
{
    match family {
        Family::Extract => extract(alloc, indices, sorts),
        Family::Extend => extend(indices, sorts),
        Family::Rotate => rotate(alloc, indices, sorts),
        Family::Repeat => repeat(indices, sorts),
        Family::Bits => bits(alloc, indices, sorts),
        Family::Literal => literal(alloc, indices, sorts),
        _ if indices.is_empty() => bare::sort_of(alloc, least, family, sorts),
        _ => Err(TypeError::Clash),
    }
}
