//! Widths that are entailed to be at least 1.
ghost use Rattle.std.specs.Prelude.{◌≡◌, ◌&&◌, IfOk, IsTrue};
ghost use Rattle.rare_linear.specs.Linears.{NamesBelow};
ghost use Rattle.rare_sort.specs.DeclaredSorts.{all_follow, follows, widths};
ghost use Rattle.rare_sort.specs.SortRules.{less_one, width_needs};
ghost use Rattle.rare_inst.specs.Answers.{is_named_sort};

use rare_linear::{Linear, LinearError};
use rare_sort::Sort;
use rare_term::Terms;
use std::alloc::{AllocError, Global};

/// Whether both tests are met.
pub(crate) fn both(a: bool, b: bool) -> bool
    ensures { result ≡ (a && b) }
{
    a && b
}

/// Whether the expression is entailed to be at least 1.
pub(crate) fn is_at_least_one<T: Terms>(
    alloc: Global,
    terms: &T,
    e: &Linear,
) -> Result<bool, AllocError>
    requires { NamesBelow (widths (T.state terms.now).declared) e.now.parts }
    ensures { IfOk result (λ b. b ≡ follows (T.state terms.now).declared (less_one e.now)) }
{
    match e.minus(&Linear::constant(alloc, 1)) {
        Ok(less) => Ok(terms.entailed(&less)),
        Err(LinearError::TooLarge) => Ok(false),
        Err(LinearError::Memory) => Err(AllocError),
    }
}

/// Whether each width in the sort is entailed to be at least 1.
pub(crate) fn has_widths<T: Terms>(
    alloc: Global,
    terms: &T,
    sort: &Sort,
) -> Result<bool, AllocError>
    requires { IsTrue (is_named_sort (widths (T.state terms.now).declared) sort.now) }
    ensures { IfOk result (λ b. b ≡ all_follow (T.state terms.now).declared
        (width_needs sort.now)) }
{
    match sort {
        Sort::BitVec(width) => is_at_least_one(alloc, terms, width),
        Sort::Array(keys, entries) => {
            let keys = has_widths(alloc, terms, keys.get())?;
            let entries = has_widths(alloc, terms, entries.get())?;
            Ok(both(keys, entries))
        }
        _ => Ok(true),
    }
}
