//! The rules of sorts of operators without indices, but for those of arrays and of `concat`.
ghost use Rattle.std.specs.Prelude.{◌≡◌, ◌&&◌, ◌<◌, length, IfOk, IsTrue, List, Some, [], ◌∷◌, slice_get, nat_eq, zip};
ghost use Rattle.std.specs.Option.{option_map};
ghost use Rattle.rare_sort.specs.Ids.{AreIds, sort_at, sorts_at};
ghost use Rattle.rare_sort.specs.SortRules.{basic_sort, counts, each_is, outcome_sort, width};
ghost use Rattle.rare_sort.specs.DeclaredSorts.{is_sort, AreDeclared, AreSorts, IsSymbol};
ghost use Rattle.rare_sort.specs.Rulings.{all_one, ruling_of_family};
ghost use Rattle.rare_sort.specs.inner.Within.{where_has};

use crate::arrays::{select, store};
use crate::declarations::Declarations;
use crate::family::{Basic, Count, Family, Outcome};
use crate::joins::concat;
use crate::ruling::Ruling;
use crate::sort::{Signature, Sort, is_same_sort};
use crate::tree::TermId;
use rare_linear::Linear;
use std::alloc::{AllocError, Global};

pub(crate) fn sort_of(sorts: &[Sort], id: TermId) -> &Sort
    requires { id.0 < length sorts.now }
    ensures { result.now ≡ sort_at sorts.now id.0 }
{
    &sorts[id.0]
}

/// Whether each argument is of this sort.
fn are_all(sort: &Sort, sorts: &[Sort], args: &[TermId]) -> bool
    requires { AreIds (length sorts.now) args.now }
    ensures { result ≡ all_one (each_is sort.now (sorts_at sorts.now args.now)) }
{
    for id in args {
        if !is_same_sort(sort_of(sorts, *id), sort) {
            return false;
        }
    }
    true
}

fn is_count(count: Count, n: usize) -> bool
    ensures { result ≡ counts count 2 n }
{
    match count {
        Count::Exactly(k) => n == k,
        Count::Several => n >= 2,
    }
}

fn sort_of_basic(basic: Basic) -> Sort
    ensures { result ≡ basic_sort basic }
{
    match basic {
        Basic::Bool => Sort::Bool,
        Basic::Int => Sort::Int,
    }
}

pub(crate) fn width_of(sort: &Sort) -> Option<&Linear>
    ensures { option_map (λ m. m.now) result ≡ width sort.now }
{
    match sort {
        Sort::BitVec(m) => Some(m),
        _ => None,
    }
}

/// The sort, where the test is met.
fn has_where(met: bool, sort: Sort) -> Ruling
    ensures { result ≡ where_has met sort }
{
    if met { Ruling::Has(sort) } else { Ruling::Ill }
}

/// A copy of the sort, where the test is met.
pub(crate) fn copy_where(alloc: Global, met: bool, sort: &Sort) -> Result<Ruling, AllocError>
    ensures { IfOk result (λ r. r ≡ where_has met sort.now) }
{
    if met {
        Ok(Ruling::Has(sort.copy(alloc)?))
    } else {
        Ok(Ruling::Ill)
    }
}

fn fixed(
    declared: &Declarations,
    count: Count,
    of: Basic,
    gives: Basic,
    sorts: &[Sort],
    args: &[TermId],
) -> Ruling
    requires { AreIds (length sorts.now) args.now }
    ensures { result ≡ ruling_of_family declared.now (Family.Fixed count of gives) []
        (sorts_at sorts.now args.now) }
{
    let met = is_count(count, args.len()) && are_all(&sort_of_basic(of), sorts, args);
    has_where(met, sort_of_basic(gives))
}

fn alike(declared: &Declarations, sorts: &[Sort], args: &[TermId]) -> Ruling
    requires { AreIds (length sorts.now) args.now }
    ensures { result ≡ ruling_of_family declared.now Family.Alike [] (sorts_at sorts.now args.now) }
{
    match args {
        [first, rest @ ..] => {
            let met = is_count(Count::Several, args.len())
                && are_all(sort_of(sorts, *first), sorts, rest);
            has_where(met, Sort::Bool)
        }
        [] => Ruling::Ill,
    }
}

/// `ite`, by the sorts of its arguments.
#[tactic(auto, using(crate::proofs::RulingLemmas::choice_ruled))]
fn choice_of(
    alloc: Global,
    declared: &Declarations,
    test: &Sort,
    left: &Sort,
    right: &Sort,
) -> Result<Ruling, AllocError>
    requires { IsTrue (is_sort declared.now left.now) }
    ensures { IfOk result (λ r. r ≡ ruling_of_family declared.now Family.Choice []
        (test.now ∷ left.now ∷ right.now ∷ [])) }
{
    let met = is_same_sort(test, &Sort::Bool) && is_same_sort(right, left);
    copy_where(alloc, met, left)
}

fn choice(
    alloc: Global,
    declared: &Declarations,
    sorts: &[Sort],
    args: &[TermId],
) -> Result<Ruling, AllocError>
    requires sorts { AreSorts declared.now sorts.now }
    requires ids { AreIds (length sorts.now) args.now }
    ensures { IfOk result (λ r. r ≡ ruling_of_family declared.now Family.Choice []
        (sorts_at sorts.now args.now)) }
{
    match args {
        [test, left, right] => choice_of(
            alloc,
            declared,
            sort_of(sorts, *test),
            sort_of(sorts, *left),
            sort_of(sorts, *right),
        ),
        _ => Ok(Ruling::Ill),
    }
}

fn outcome_of(
    alloc: Global,
    outcome: Outcome,
    met: bool,
    width: &Linear,
) -> Result<Ruling, AllocError>
    ensures { IfOk result (λ r. r ≡ where_has met (outcome_sort outcome width.now)) }
{
    match outcome {
        Outcome::Bool => Ok(has_where(met, Sort::Bool)),
        Outcome::OneBit => Ok(has_where(met, Sort::BitVec(Linear::constant(alloc, 1)))),
        Outcome::SameWidth if met => Ok(Ruling::Has(Sort::BitVec(width.copy(alloc)?))),
        Outcome::SameWidth => Ok(Ruling::Ill),
    }
}

/// An operator on bit vectors, by the sort of its first argument.
fn words_of(
    alloc: Global,
    declared: &Declarations,
    outcome: Outcome,
    met: bool,
    first: &Sort,
) -> Result<Ruling, AllocError>
    requires { IsTrue (is_sort declared.now first.now) }
    ensures { (count : Count) (ss : List Sort) →
        met ≡ (counts count 2 (length (first.now ∷ ss)) && all_one (each_is first.now ss)) →
        IfOk result (λ r. r ≡ ruling_of_family declared.now (Family.BitVectors count outcome) []
        (first.now ∷ ss)) }
{
    match width_of(first) {
        Some(width) => outcome_of(alloc, outcome, met, width),
        None => Ok(Ruling::Ill),
    }
}

fn bit_vectors(
    alloc: Global,
    declared: &Declarations,
    count: Count,
    outcome: Outcome,
    sorts: &[Sort],
    args: &[TermId],
) -> Result<Ruling, AllocError>
    requires sorts { AreSorts declared.now sorts.now }
    requires ids { AreIds (length sorts.now) args.now }
    ensures { IfOk result (λ r. r ≡
        ruling_of_family declared.now (Family.BitVectors count outcome) []
        (sorts_at sorts.now args.now)) }
{
    match args {
        [first, rest @ ..] => {
            let sort = sort_of(sorts, *first);
            let met = is_count(count, args.len()) && are_all(sort, sorts, rest);
            words_of(alloc, declared, outcome, met, sort)
        }
        [] => Ok(Ruling::Ill),
    }
}

/// Whether the arguments are as many as the sorts, and one by one of these.
fn are_of(wanted: &[Sort], sorts: &[Sort], args: &[TermId]) -> bool
    requires { AreIds (length sorts.now) args.now }
    ensures { result ≡ (nat_eq (length (sorts_at sorts.now args.now)) (length wanted.now) &&
        all_one (zip (sorts_at sorts.now args.now) wanted.now)) }
{
    args.len() == wanted.len() && are_pairs(wanted, sorts, args)
}

fn are_pairs(wanted: &[Sort], sorts: &[Sort], args: &[TermId]) -> bool
    requires { AreIds (length sorts.now) args.now }
    ensures { result ≡ all_one (zip (sorts_at sorts.now args.now) wanted.now) }
{
    let mut rest = wanted;
    for id in args {
        match rest {
            [want, more @ ..] if is_same_sort(sort_of(sorts, *id), want) => rest = more,
            [_, ..] => return false,
            [] => return true,
        }
    }
    true
}

fn symbol(
    alloc: Global,
    declared: &Declarations,
    symbol: u32,
    sorts: &[Sort],
    args: &[TermId],
) -> Result<Ruling, AllocError>
    requires declared { AreDeclared declared.now }
    requires symbol { symbol < length declared.now.symbols }
    requires ids { AreIds (length sorts.now) args.now }
    ensures { IfOk result (λ r. r ≡ ruling_of_family declared.now (Family.Symbol symbol) []
        (sorts_at sorts.now args.now)) }
{
    let signature = declared.symbols.get(symbol as usize);
    let met = are_of(signature.args.items(), sorts, args);
    copy_where(alloc, met, &signature.gives)
}

/// The ruling on an operator without indices.
pub(crate) fn ruling_of(
    alloc: Global,
    declared: &Declarations,
    family: Family,
    sorts: &[Sort],
    args: &[TermId],
) -> Result<Ruling, AllocError>
    requires declared { AreDeclared declared.now }
    requires sorts { AreSorts declared.now sorts.now }
    requires symbol { IsSymbol (length declared.now.symbols) family }
    requires ids { AreIds (length sorts.now) args.now }
    ensures { IfOk result (λ r. r ≡ ruling_of_family declared.now family []
        (sorts_at sorts.now args.now)) }
{
    match family {
        Family::Fixed(count, of, gives) => Ok(fixed(declared, count, of, gives, sorts, args)),
        Family::Alike => Ok(alike(declared, sorts, args)),
        Family::Choice => choice(alloc, declared, sorts, args),
        Family::Select => select(alloc, declared, sorts, args),
        Family::Store => store(alloc, declared, sorts, args),
        Family::BitVectors(count, outcome) => {
            bit_vectors(alloc, declared, count, outcome, sorts, args)
        }
        Family::Concat => concat(alloc, declared, sorts, args),
        Family::Symbol(k) => symbol(alloc, declared, k, sorts, args),
        _ => Ok(Ruling::Ill),
    }
}
