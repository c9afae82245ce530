//! What an application asks to be at least 0.
ghost use Rattle.std.specs.Prelude.{◌≡◌, [], ◌∷◌, IfOk};
ghost use Rattle.rare_sort.specs.SortRules.{less_one, slice_needs};
ghost use Rattle.rare_type.specs.inner.Answering.{Reports};
ghost use Rattle.rare_type.specs.inner.Steps.{all_bounded, family_needs, index_asks, literal_asks, one_index_asks};

use crate::error::TypeError;
use crate::indexed::width_of_only;
use crate::linears::{constant_of, difference, one_less, only, shifted_difference};
use rare_linear::{Linear, Linears};
use rare_sort::{Family, Sort};
use std::alloc::{AllocError, Global};

/// A list of three expressions.
fn list_of(
    alloc: Global,
    first: &Linear,
    second: Linear,
    third: Linear,
) -> Result<Linears, AllocError>
    ensures { IfOk result (λ es. es ≡ first.now ∷ second ∷ third ∷ []) }
{
    let mut list = only(alloc, first.copy(alloc)?)?;
    list.push(second)?;
    list.push(third)?;
    Ok(list)
}

/// `i`, `j - i` and `m - 1 - j`.
fn slice(alloc: Global, j: &Linear, i: &Linear, m: &Linear) -> Result<Linears, TypeError>
    ensures { Reports (all_bounded (slice_needs j.now i.now m.now)) result }
{
    let _i = constant_of(i);
    let span = difference(j, i)?;
    let rest = shifted_difference(alloc, m, -1, j)?;
    Ok(list_of(alloc, i, span, rest)?)
}

fn extract(alloc: Global, indices: &[Linear], sorts: &[Sort]) -> Result<Linears, TypeError>
    ensures { Reports (all_bounded (family_needs Family.Extract indices.now sorts.now)) result }
{
    match (indices, width_of_only(sorts)) {
        ([j, i], Some(m)) => slice(alloc, j, i, m),
        _ => Ok(Linears::new(alloc)),
    }
}

/// The list of this expression.
fn within(alloc: Global, e: &Linear) -> Result<Linears, TypeError>
    ensures { Reports (all_bounded (e.now ∷ [])) result }
{
    let _e = constant_of(e);
    Ok(only(alloc, e.copy(alloc)?)?)
}

/// The only index.
fn index(alloc: Global, indices: &[Linear]) -> Result<Linears, TypeError>
    ensures { Reports (all_bounded (index_asks indices.now)) result }
{
    match indices {
        [k] => within(alloc, k),
        _ => Ok(Linears::new(alloc)),
    }
}

/// One less than the expression.
fn at_least_one(alloc: Global, e: &Linear) -> Result<Linears, TypeError>
    ensures { Reports (all_bounded (less_one e.now ∷ [])) result }
{
    Ok(only(alloc, one_less(alloc, e)?)?)
}

/// One less than the only index.
fn positive_index(alloc: Global, indices: &[Linear]) -> Result<Linears, TypeError>
    ensures { Reports (all_bounded (one_index_asks indices.now)) result }
{
    match indices {
        [k] => at_least_one(alloc, k),
        _ => Ok(Linears::new(alloc)),
    }
}

fn literal(alloc: Global, indices: &[Linear]) -> Result<Linears, TypeError>
    ensures { Reports (all_bounded (literal_asks indices.now)) result }
{
    match indices {
        [_, width] => at_least_one(alloc, width),
        _ => Ok(Linears::new(alloc)),
    }
}

/// What an application of an operator of the family asks for.
pub(crate) fn needs_of(
    alloc: Global,
    family: Family,
    indices: &[Linear],
    sorts: &[Sort],
) -> Result<Linears, TypeError>
    ensures { Reports (all_bounded (family_needs family indices.now sorts.now)) result }
{
    match family {
        Family::Extract => extract(alloc, indices, sorts),
        Family::Extend | Family::Rotate => index(alloc, indices),
        Family::Repeat | Family::Bits => positive_index(alloc, indices),
        Family::Literal => literal(alloc, indices),
        _ => Ok(Linears::new(alloc)),
    }
}
