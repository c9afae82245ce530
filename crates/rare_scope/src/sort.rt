//! Sorts, read from expressions.
ghost use Rattle.std.specs.Prelude.{◌≡◌, ◌≤◌, IfOk, OnErr, Err};
ghost use Rattle.rare_linear.specs.Linears.{NamesBelow};
ghost use Rattle.rare_scope.specs.Answers.{Answers};
ghost use Rattle.rare_scope.specs.LinearText.{linear_at, widths_held};
ghost use Rattle.rare_scope.specs.Names.{found, names_of, sort_in, AreMeant};
ghost use Rattle.rare_scope.specs.Reading.{go_on, is_symbol_kind};
ghost use Rattle.rare_scope.specs.SortText.{bit_vectors, indexed_sort, shallow, sort_at, symbol_sort};
ghost use Rattle.rare_scope.specs.inner.SortReading.{only_sort, IsNestedSort};
ghost use Rattle.rare_sexpr.specs.Tree.{items_of, kind_of};
ghost use Rattle.rare_sort.specs.DeclaredSorts.{widths, follows, IsDeclaredSort};
ghost use Rattle.rare_sort.specs.SortRules.{less_one};
ghost use Rattle.rare_sort.specs.declared.sort.Sort.TheViews.{Array};

use crate::faults::{is_symbol, is_word_at, refusal_at};
use crate::linear::read_linear;
use crate::meaning::Meaning;
use crate::scope::Scope;
use rare_base::{Fault, Reason};
use rare_linear::{Linear, LinearError};
use rare_list::Boxed;
use rare_sexpr::Expr;
use rare_term::{Sort, Terms};
use std::alloc::Global;

/// The deepest nesting of a sort. A sort that is no array counts as 1.
pub const MOST_NESTED_SORTS: usize = 1000;

// A sort with its nesting.
#[derive(Debug, Drop)]
pub struct NestedSort {
    pub sort: Sort,
    pub nesting: usize,
}

// A sort that is no array.
fn flat(sort: Sort) -> NestedSort
    ensures sort { result.sort ≡ sort }
    ensures nesting { result.nesting ≡ 1 }
{
    NestedSort { sort, nesting: 1 }
}

// The number of the sort that a name stands for.
fn sort_number(scope: &Scope, name: &[u8]) -> Option<u32>
    ensures { result ≡ sort_in (found scope.now name.now) }
{
    match scope.find(name) {
        Some(Meaning::Sort(k)) => Some(k),
        _ => None,
    }
}

// The sort that a symbol names.
#[tactic(auto, using(crate::proofs::SortSteps::numbered_sort, crate::proofs::SortSteps::unknown_sort))]
fn read_symbol<T: Terms, E: Expr>(e: &E, scope: &Scope, terms: &T) -> Result<NestedSort, Fault>
    requires { AreMeant (T.state terms.now) scope.now }
    ensures read { Answers (only_sort result)
        (symbol_sort (names_of (T.state terms.now).trees scope.now) (E.tree e.now)) }
    ensures nested { IfOk result (IsNestedSort (T.state terms.now).declared) }
{
    let text = e.text();
    if text == b"Bool".as_slice() {
        return Ok(flat(Sort::Bool));
    }
    if text == b"Int".as_slice() {
        return Ok(flat(Sort::Int));
    }
    match sort_number(scope, text) {
        Some(k) => Ok(flat(Sort::Named(k))),
        None => Err(refusal_at(e, Reason::UnknownSymbol)),
    }
}

// Whether a width is entailed to be at least 1.
#[tactic(auto, using(crate::proofs::SortSteps::wide_follows, crate::proofs::SortSteps::less_one_named))]
fn is_width<T: Terms>(alloc: Global, width: &Linear, terms: &T) -> Result<bool, Fault>
    requires { NamesBelow (widths (T.state terms.now).declared) width.now.parts }
    ensures value { IfOk result
        (λ b. b ≡ follows (T.state terms.now).declared (less_one width.now)) }
    ensures err { OnErr result (result ≡ Err Fault.Memory) }
{
    match width.minus(&Linear::constant(alloc, 1)) {
        Ok(floor) => Ok(terms.entailed(&floor)),
        Err(LinearError::TooLarge) => Ok(false),
        Err(LinearError::Memory) => Err(Fault::Memory),
    }
}

// The sort of bit vectors of a width, where it is entailed to be at least 1.
#[tactic(auto, using(crate::proofs::SortSteps::word_nested))]
fn bit_vectors_of<T: Terms, E: Expr>(
    alloc: Global,
    e: &E,
    width: Linear,
    terms: &T,
) -> Result<NestedSort, Fault>
    requires { NamesBelow (widths (T.state terms.now).declared) width.parts }
    ensures read { Answers (only_sort result)
        (bit_vectors (T.state terms.now).declared (E.tree e.now) width) }
    ensures nested { IfOk result (IsNestedSort (T.state terms.now).declared) }
{
    if is_width(alloc, &width, terms)? {
        Ok(flat(Sort::BitVec(width)))
    } else {
        Err(refusal_at(e, Reason::BadSort))
    }
}

fn read_bit_vectors<T: Terms, E: Expr>(
    alloc: Global,
    e: &E,
    width: &E,
    scope: &Scope,
    terms: &T,
) -> Result<NestedSort, Fault>
    requires { AreMeant (T.state terms.now) scope.now }
    ensures read { Answers (only_sort result)
        (go_on (linear_at (widths_held scope.now) (E.tree width.now))
        (λ w. bit_vectors (T.state terms.now).declared (E.tree e.now) w)) }
    ensures nested { IfOk result (IsNestedSort (T.state terms.now).declared) }
{
    let width = read_linear(alloc, width, scope)?;
    bit_vectors_of(alloc, e, width, terms)
}

// The sort that a list of three spells that begins with no `Array`.
fn read_indexed<T: Terms, E: Expr>(
    alloc: Global,
    e: &E,
    head: &E,
    family: &E,
    width: &E,
    scope: &Scope,
    terms: &T,
) -> Result<NestedSort, Fault>
    requires { AreMeant (T.state terms.now) scope.now }
    ensures read { Answers (only_sort result)
        (indexed_sort (T.state terms.now).declared (names_of (T.state terms.now).trees scope.now)
        (E.tree e.now) (E.tree head.now) (E.tree family.now) (E.tree width.now)) }
    ensures nested { IfOk result (IsNestedSort (T.state terms.now).declared) }
{
    if is_word_at(head, "_") && is_word_at(family, "BitVec") {
        read_bit_vectors(alloc, e, width, scope, terms)
    } else {
        Err(refusal_at(e, Reason::BadSort))
    }
}

// The array sort of two sorts, unless it nests too deep.
#[tactic(auto, using(crate::proofs::SortSteps::array_nested))]
fn array_sort<T: Terms, E: Expr>(
    alloc: Global,
    e: &E,
    keys: NestedSort,
    entries: NestedSort,
    terms: &T,
) -> Result<NestedSort, Fault>
    requires keys { IsNestedSort (T.state terms.now).declared keys }
    requires entries { IsNestedSort (T.state terms.now).declared entries }
    ensures read { Answers (only_sort result)
        (shallow (E.tree e.now) (Array keys.sort entries.sort)) }
    ensures nested { IfOk result (IsNestedSort (T.state terms.now).declared) }
{
    let nesting = 1 + keys.nesting.max(entries.nesting);
    if nesting > MOST_NESTED_SORTS {
        return Err(refusal_at(e, Reason::TermLimit));
    }
    let Ok(keys) = Boxed::new(alloc, keys.sort) else {
        return Err(Fault::Memory);
    };
    let Ok(entries) = Boxed::new(alloc, entries.sort) else {
        return Err(Fault::Memory);
    };
    Ok(NestedSort {
        sort: Sort::Array(keys, entries),
        nesting,
    })
}

// The sort that an expression spells, with its nesting.
#[tactic(auto, using(rare_sexpr::proofs::Counting::depth_falls))]
fn read<T: Terms, E: Expr>(
    alloc: Global,
    e: &E,
    scope: &Scope,
    terms: &T,
) -> Result<NestedSort, Fault>
    requires { AreMeant (T.state terms.now) scope.now }
    ensures read { Answers (only_sort result)
        (sort_at (T.state terms.now).declared (names_of (T.state terms.now).trees scope.now)
        (E.tree e.now)) }
    ensures nested { IfOk result (IsNestedSort (T.state terms.now).declared) }
{
    if is_symbol(e) {
        return read_symbol(e, scope, terms);
    }
    if e.len() != 3 {
        return Err(refusal_at(e, Reason::BadSort));
    }
    let head = e.item(0);
    let first = e.item(1);
    let second = e.item(2);
    if !is_word_at(head, "Array") {
        return read_indexed(alloc, e, head, first, second, scope, terms);
    }
    let keys = read(alloc, first, scope, terms)?;
    let entries = read(alloc, second, scope, terms)?;
    array_sort(alloc, e, keys, entries, terms)
}

/// The sort that an expression spells over the names of a scope, or its first fault. Its forms are
/// `Bool`, `Int`, a declared sort, `(_ BitVec E)` and `(Array A B)`.
///
/// Errors are `UnknownSymbol` at a symbol that names no sort; `BadSort` at an expression of another form,
/// and at a sort of bit vectors whose width is not entailed to be at least 1; those of `read_linear`;
/// `TermLimit` at a sort that nests more than 1,000 deep; and want of memory.
pub fn read_sort<T: Terms, E: Expr>(
    alloc: Global,
    e: &E,
    scope: &Scope,
    terms: &T,
) -> Result<Sort, Fault>
    requires { AreMeant (T.state terms.now) scope.now }
    ensures read { Answers result
        (sort_at (T.state terms.now).declared (names_of (T.state terms.now).trees scope.now)
        (E.tree e.now)) }
    ensures declared { IfOk result (IsDeclaredSort (T.state terms.now).declared) }
{
    Ok(read(alloc, e, scope, terms)?.sort)
}
