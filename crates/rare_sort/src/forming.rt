//! The rules of sorts of operators with indices, and of those that form a width.
ghost use Rattle.std.specs.Prelude.{◌≡◌, ◌<◌, length, true, IfOk, IfSome, IsTrue, List, Some, [], ◌∷◌};
ghost use Rattle.std.specs.Option.{option_map};
ghost use Rattle.rare_linear.specs.Linears.{NamesBelow};
ghost use Rattle.rare_linear.specs.Entailment.{minus};
ghost use Rattle.rare_sort.specs.Ids.{AreIds, sorts_at};
ghost use Rattle.rare_sort.specs.SortRules.{less_one, slice_needs, width};
ghost use Rattle.rare_sort.specs.DeclaredSorts.{widths, follows, all_follow, is_sort, AreDeclared, AreNamed, AreSorts};
ghost use Rattle.rare_sort.specs.Rulings.{ruling_of_family};
ghost use Rattle.rare_sort.specs.inner.Within.{formed_width, only_width, extract_of, extend_of, rotate_of, repeat_of};

use crate::bare::{sort_of, width_of};
use crate::declarations::Declarations;
use crate::family::Family;
use crate::ruling::Ruling;
use crate::sort::Sort;
use crate::tree::TermId;
use crate::widths::{
    difference_follows, difference_within, follows_in, multiple_within, number_of, sum_within,
};
use rare_linear::Linear;
use std::alloc::{AllocError, Global};

/// Bit vectors of a width that was formed, unless it left `i128`.
pub(crate) fn formed(
    alloc: Global,
    declared: &Declarations,
    width: Option<Linear>,
) -> Result<Ruling, AllocError>
    requires declared { AreDeclared declared.now }
    requires width { IfSome width (λ w. NamesBelow (widths declared.now) w.parts) }
    ensures { IfOk result (λ r. r ≡ formed_width declared.now width) }
{
    let Some(width) = width else {
        return Ok(Ruling::Wide);
    };
    if difference_follows(declared, &width, &Linear::constant(alloc, 1))? {
        Ok(Ruling::Has(Sort::BitVec(width)))
    } else {
        Ok(Ruling::Ill)
    }
}

/// The width of a sort of the declarations.
fn declared_width<'a>(declared: &Declarations, sort: &'a Sort) -> Option<&'a Linear>
    requires { IsTrue (is_sort declared.now sort.now) }
    ensures width { option_map (λ m. m.now) result ≡ width sort.now }
    ensures named { IfSome result (λ m. NamesBelow (widths declared.now) m.now.parts) }
    ensures least { IfSome result (λ m. follows declared.now (less_one m.now) ≡ true) }
{
    match width_of(sort) {
        Some(m) => Some(m),
        None => None,
    }
}

/// The width of the only argument.
fn width_of_only<'a>(
    declared: &Declarations,
    sorts: &'a [Sort],
    args: &[TermId],
) -> Option<&'a Linear>
    requires sorts { AreSorts declared.now sorts.now }
    requires ids { AreIds (length sorts.now) args.now }
    ensures width { option_map (λ m. m.now) result ≡ only_width (sorts_at sorts.now args.now) }
    ensures named { IfSome result (λ m. NamesBelow (widths declared.now) m.now.parts) }
    ensures least { IfSome result (λ m. follows declared.now (less_one m.now) ≡ true) }
{
    match args {
        [id] => declared_width(declared, sort_of(sorts, *id)),
        _ => None,
    }
}

/// Whether `i >= 0`, `j >= i` and `m - 1 >= j`.
fn slice_follows(
    alloc: Global,
    declared: &Declarations,
    j: &Linear,
    i: &Linear,
    m: &Linear,
) -> Result<bool, AllocError>
    requires declared { AreDeclared declared.now }
    requires j { NamesBelow (widths declared.now) j.now.parts }
    requires i { NamesBelow (widths declared.now) i.now.parts }
    requires m { NamesBelow (widths declared.now) m.now.parts }
    requires least { follows declared.now (less_one m.now) ≡ true }
    ensures { IfOk result (λ t. t ≡ all_follow declared.now (slice_needs j.now i.now m.now)) }
{
    if !follows_in(declared, i) || !difference_follows(declared, j, i)? {
        return Ok(false);
    }
    match difference_within(m, &Linear::constant(alloc, 1))? {
        Some(top) => difference_follows(declared, &top, j),
        None => Ok(false),
    }
}

/// `extract j i`, of the width `m`.
fn slice(
    alloc: Global,
    declared: &Declarations,
    j: &Linear,
    i: &Linear,
    m: &Linear,
) -> Result<Ruling, AllocError>
    requires declared { AreDeclared declared.now }
    requires j { NamesBelow (widths declared.now) j.now.parts }
    requires i { NamesBelow (widths declared.now) i.now.parts }
    requires m { NamesBelow (widths declared.now) m.now.parts }
    requires least { follows declared.now (less_one m.now) ≡ true }
    ensures { IfOk result (λ r. r ≡ extract_of declared.now j.now i.now m.now) }
{
    if !slice_follows(alloc, declared, j, i, m)? {
        return Ok(Ruling::Ill);
    }
    match difference_within(j, i)? {
        Some(span) => formed(
            alloc,
            declared,
            sum_within(&span, &Linear::constant(alloc, 1))?,
        ),
        None => Ok(Ruling::Ill),
    }
}

pub(crate) fn extract(
    alloc: Global,
    declared: &Declarations,
    indices: &[Linear],
    sorts: &[Sort],
    args: &[TermId],
) -> Result<Ruling, AllocError>
    requires declared { AreDeclared declared.now }
    requires sorts { AreSorts declared.now sorts.now }
    requires names { AreNamed (widths declared.now) indices.now }
    requires ids { AreIds (length sorts.now) args.now }
    ensures { IfOk result (λ r. r ≡ ruling_of_family declared.now Family.Extract indices.now
        (sorts_at sorts.now args.now)) }
{
    let width = width_of_only(declared, sorts, args);
    match indices {
        [j, i] => match width {
            Some(m) => slice(alloc, declared, j, i, m),
            None => Ok(Ruling::Ill),
        },
        _ => Ok(Ruling::Ill),
    }
}

/// `zero_extend` and `sign_extend` by `k`, of the width `m`.
fn longer(
    alloc: Global,
    declared: &Declarations,
    k: &Linear,
    m: &Linear,
) -> Result<Ruling, AllocError>
    requires declared { AreDeclared declared.now }
    requires k { NamesBelow (widths declared.now) k.now.parts }
    requires m { NamesBelow (widths declared.now) m.now.parts }
    ensures { IfOk result (λ r. r ≡ extend_of declared.now k.now m.now) }
{
    if !follows_in(declared, k) {
        return Ok(Ruling::Ill);
    }
    formed(alloc, declared, sum_within(m, k)?)
}

pub(crate) fn extend(
    alloc: Global,
    declared: &Declarations,
    indices: &[Linear],
    sorts: &[Sort],
    args: &[TermId],
) -> Result<Ruling, AllocError>
    requires declared { AreDeclared declared.now }
    requires sorts { AreSorts declared.now sorts.now }
    requires names { AreNamed (widths declared.now) indices.now }
    requires ids { AreIds (length sorts.now) args.now }
    ensures { IfOk result (λ r. r ≡ ruling_of_family declared.now Family.Extend indices.now
        (sorts_at sorts.now args.now)) }
{
    let width = width_of_only(declared, sorts, args);
    match indices {
        [k] => match width {
            Some(m) => longer(alloc, declared, k, m),
            None => Ok(Ruling::Ill),
        },
        _ => Ok(Ruling::Ill),
    }
}

/// Rotations by `k`, of the width `m`.
fn turned(
    alloc: Global,
    declared: &Declarations,
    k: &Linear,
    m: &Linear,
) -> Result<Ruling, AllocError>
    requires declared { AreDeclared declared.now }
    requires k { NamesBelow (widths declared.now) k.now.parts }
    ensures { IfOk result (λ r. r ≡ rotate_of declared.now k.now m.now) }
{
    if follows_in(declared, k) {
        Ok(Ruling::Has(Sort::BitVec(m.copy(alloc)?)))
    } else {
        Ok(Ruling::Ill)
    }
}

pub(crate) fn rotate(
    alloc: Global,
    declared: &Declarations,
    indices: &[Linear],
    sorts: &[Sort],
    args: &[TermId],
) -> Result<Ruling, AllocError>
    requires declared { AreDeclared declared.now }
    requires sorts { AreSorts declared.now sorts.now }
    requires names { AreNamed (widths declared.now) indices.now }
    requires ids { AreIds (length sorts.now) args.now }
    ensures { IfOk result (λ r. r ≡ ruling_of_family declared.now Family.Rotate indices.now
        (sorts_at sorts.now args.now)) }
{
    let width = width_of_only(declared, sorts, args);
    match indices {
        [k] => match width {
            Some(m) => turned(alloc, declared, k, m),
            None => Ok(Ruling::Ill),
        },
        _ => Ok(Ruling::Ill),
    }
}

/// `k` copies of the width `m`.
fn copies(
    alloc: Global,
    declared: &Declarations,
    k: &Linear,
    m: &Linear,
) -> Result<Ruling, AllocError>
    requires declared { AreDeclared declared.now }
    requires k { NamesBelow (widths declared.now) k.now.parts }
    requires m { NamesBelow (widths declared.now) m.now.parts }
    ensures { IfOk result (λ r. r ≡ repeat_of declared.now k.now m.now) }
{
    if !difference_follows(declared, k, &Linear::constant(alloc, 1))? {
        return Ok(Ruling::Ill);
    }
    match (number_of(k), number_of(m)) {
        (Some(c), _) => formed(alloc, declared, multiple_within(c, m)?),
        (None, Some(n)) => formed(alloc, declared, multiple_within(n, k)?),
        (None, None) => Ok(Ruling::Ill),
    }
}

pub(crate) fn repeat(
    alloc: Global,
    declared: &Declarations,
    indices: &[Linear],
    sorts: &[Sort],
    args: &[TermId],
) -> Result<Ruling, AllocError>
    requires declared { AreDeclared declared.now }
    requires sorts { AreSorts declared.now sorts.now }
    requires names { AreNamed (widths declared.now) indices.now }
    requires ids { AreIds (length sorts.now) args.now }
    ensures { IfOk result (λ r. r ≡ ruling_of_family declared.now Family.Repeat indices.now
        (sorts_at sorts.now args.now)) }
{
    let width = width_of_only(declared, sorts, args);
    match indices {
        [k] => match width {
            Some(m) => copies(alloc, declared, k, m),
            None => Ok(Ruling::Ill),
        },
        _ => Ok(Ruling::Ill),
    }
}

/// A literal of this width.
fn written(alloc: Global, declared: &Declarations, width: &Linear) -> Result<Ruling, AllocError>
    requires declared { AreDeclared declared.now }
    requires width { NamesBelow (widths declared.now) width.now.parts }
    ensures { IfOk result (λ r. r ≡ formed_width declared.now (Some width.now)) }
{
    if difference_follows(declared, width, &Linear::constant(alloc, 1))? {
        Ok(Ruling::Has(Sort::BitVec(width.copy(alloc)?)))
    } else {
        Ok(Ruling::Ill)
    }
}

pub(crate) fn bits(
    alloc: Global,
    declared: &Declarations,
    indices: &[Linear],
    args: &[TermId],
) -> Result<Ruling, AllocError>
    requires declared { AreDeclared declared.now }
    requires names { AreNamed (widths declared.now) indices.now }
    ensures { (ss : List Sort) →
        IfOk result (λ r. r ≡ ruling_of_family declared.now Family.Bits indices.now
        (sorts_at ss args.now)) }
{
    match (indices, args) {
        ([width], []) => written(alloc, declared, width),
        _ => Ok(Ruling::Ill),
    }
}

pub(crate) fn literal(
    alloc: Global,
    declared: &Declarations,
    indices: &[Linear],
    args: &[TermId],
) -> Result<Ruling, AllocError>
    requires declared { AreDeclared declared.now }
    requires names { AreNamed (widths declared.now) indices.now }
    ensures { (ss : List Sort) →
        IfOk result (λ r. r ≡ ruling_of_family declared.now Family.Literal indices.now
        (sorts_at ss args.now)) }
{
    match (indices, args) {
        ([_, width], []) => written(alloc, declared, width),
        _ => Ok(Ruling::Ill),
    }
}
