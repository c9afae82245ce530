//! The rule of sorts of `concat`.
ghost use Rattle.std.specs.Prelude.{◌≡◌, length, IfOk, IfSome, IsTrue, []};
ghost use Rattle.rare_linear.specs.Linears.{NamesBelow};
ghost use Rattle.rare_sort.specs.Ids.{AreIds, sorts_at};
ghost use Rattle.rare_sort.specs.SortRules.{width};
ghost use Rattle.rare_sort.specs.DeclaredSorts.{widths, is_sort, AreDeclared, AreSorts};
ghost use Rattle.rare_sort.specs.Rulings.{ruling_of_family};
ghost use Rattle.rare_sort.specs.inner.Within.{all_words, sum_with, summed, zero_width};

use crate::bare::{sort_of, width_of};
use crate::declarations::Declarations;
use crate::family::Family;
use crate::forming::formed;
use crate::ruling::Ruling;
use crate::sort::Sort;
use crate::tree::TermId;
use crate::widths::sum_within;
use rare_linear::Linear;
use std::alloc::{AllocError, Global};

/// Whether all arguments are bit vectors.
fn are_bit_vectors(sorts: &[Sort], args: &[TermId]) -> bool
    requires { AreIds (length sorts.now) args.now }
    ensures { result ≡ all_words (sorts_at sorts.now args.now) }
{
    for id in args {
        if width_of(sort_of(sorts, *id)).is_none() {
            return false;
        }
    }
    true
}

/// The sum with the width of the sort, where it is within `i128`.
fn sum_with_width(
    declared: &Declarations,
    sum: &Linear,
    sort: &Sort,
) -> Result<Option<Linear>, AllocError>
    requires sort { IsTrue (is_sort declared.now sort.now) }
    requires sum { NamesBelow (widths declared.now) sum.now.parts }
    ensures value { IfOk result (λ o. o ≡ sum_with (width sort.now) sum.now) }
    ensures named { IfOk result (λ o. IfSome o (λ w. NamesBelow (widths declared.now) w.parts)) }
{
    match width_of(sort) {
        Some(m) => {
            let next = sum_within(sum, m)?;
            Ok(next)
        }
        None => Ok(None),
    }
}

/// The sum of the widths, from the left, where it and each partial sum is within `i128`.
fn sum_of_widths(
    alloc: Global,
    declared: &Declarations,
    sorts: &[Sort],
    args: &[TermId],
) -> Result<Option<Linear>, AllocError>
    requires sorts { AreSorts declared.now sorts.now }
    requires ids { AreIds (length sorts.now) args.now }
    ensures sum { IfOk result (λ o. o ≡ summed zero_width (sorts_at sorts.now args.now)) }
    ensures named { IfOk result (λ o. IfSome o (λ w. NamesBelow (widths declared.now) w.parts)) }
{
    let mut sum = Linear::constant(alloc, 0);
    for id in args {
        match sum_with_width(declared, &sum, sort_of(sorts, *id))? {
            Some(next) => sum = next,
            None => return Ok(None),
        }
    }
    Ok(Some(sum))
}

pub(crate) fn concat(
    alloc: Global,
    declared: &Declarations,
    sorts: &[Sort],
    args: &[TermId],
) -> Result<Ruling, AllocError>
    requires declared { AreDeclared declared.now }
    requires sorts { AreSorts declared.now sorts.now }
    requires ids { AreIds (length sorts.now) args.now }
    ensures { IfOk result (λ r. r ≡ ruling_of_family declared.now Family.Concat []
        (sorts_at sorts.now args.now)) }
{
    if args.len() < 2 {
        return Ok(Ruling::Ill);
    }
    if !are_bit_vectors(sorts, args) {
        return Ok(Ruling::Ill);
    }
    formed(
        alloc,
        declared,
        sum_of_widths(alloc, declared, sorts, args)?,
    )
}
