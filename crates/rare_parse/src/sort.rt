//! Sorts in rules, read from expressions.
ghost use Rattle.std.specs.Prelude.{◌≡◌, IfOk, codes};
ghost use Rattle.rare_parse.specs.RuleSortText as text;
ghost use Rattle.rare_parse.specs.RuleSortText.{fresh_words, indexed_sort, name_sort, rule_sort_at, word_sort};
ghost use Rattle.rare_parse.specs.inner.SortReading.{only_sort, pair_sort, IsNested};
ghost use Rattle.rare_scope.specs.Answers.{Answers};
ghost use Rattle.rare_scope.specs.Reserved.{is_among};
ghost use Rattle.rare_scope.specs.SortText.{shallow};
ghost use Rattle.rare_sexpr.specs.Tree.{text_of};
ghost use Rattle.rare_sort.specs.declared.sort.Sort.TheViews.{Array};

use crate::names::RuleNames;
use rare_base::{Fault, Reason};
use rare_list::Boxed;
use rare_scope::{is_symbol, is_word_at, read_linear_over, refusal_at};
use rare_sexpr::Expr;
use rare_sort::Sort;
use std::alloc::Global;

/// The deepest nesting of a sort. A sort that is no array counts as 1.
const MOST_NESTED_SORTS: usize = 1000;

/// A sort with its nesting.
#[derive(Debug, Drop)]
pub struct NestedSort {
    pub sort: Sort,
    pub nesting: usize,
}

// A sort that is no array.
fn flat(sort: Sort) -> NestedSort
    ensures sort { result.sort ≡ sort }
    ensures nesting { result.nesting ≡ 1 }
{
    NestedSort { sort, nesting: 1 }
}

// Whether a word stands for a fresh name.
fn is_fresh_word(word: &[u8]) -> bool
    ensures { result ≡ is_among fresh_words word.now }
{
    word == b"?".as_slice() || word == b"?BitVec".as_slice()
}

// The sort name that a symbol is.
#[tactic(auto, using(crate::proofs::SortSteps::fresh_name, crate::proofs::SortSteps::known_name, crate::proofs::SortSteps::unknown_name, crate::proofs::SortSteps::named_nested))]
fn read_name<E: Expr>(e: &E, names: &RuleNames) -> Result<NestedSort, Fault>
    ensures read { Answers (only_sort result) (name_sort names.now (E.tree e.now)) }
    ensures nested { IfOk result IsNested }
{
    let text = e.text();
    if is_fresh_word(text) {
        return Err(refusal_at(e, Reason::BadSort));
    }
    match names.sort(text) {
        Some(k) => Ok(flat(Sort::Named(k))),
        None => Err(refusal_at(e, Reason::UnknownSymbol)),
    }
}

// The sort that a symbol is.
#[tactic(auto, using(crate::proofs::SortSteps::other_symbol, crate::proofs::SortSteps::bool_nested, crate::proofs::SortSteps::int_nested))]
fn read_symbol<E: Expr>(e: &E, names: &RuleNames) -> Result<NestedSort, Fault>
    ensures read { Answers (only_sort result) (text.symbol_sort names.now (E.tree e.now)) }
    ensures nested { IfOk result IsNested }
{
    let text = e.text();
    if text == b"Bool".as_slice() {
        return Ok(flat(Sort::Bool));
    }
    if text == b"Int".as_slice() {
        return Ok(flat(Sort::Int));
    }
    read_name(e, names)
}

// The sort of bit vectors of a width.
#[tactic(auto, using(crate::proofs::SortSteps::word_nested))]
fn read_word<E: Expr>(alloc: Global, width: &E, names: &RuleNames) -> Result<NestedSort, Fault>
    ensures read { Answers (only_sort result) (word_sort names.now (E.tree width.now)) }
    ensures nested { IfOk result IsNested }
{
    match read_linear_over(alloc, width, names) {
        Ok(width) => Ok(flat(Sort::BitVec(width))),
        Err(fault) => Err(fault),
    }
}

// The sort that a list of three spells that begins with no `Array`.
#[tactic(auto, using(crate::proofs::SortSteps::indexed_word, crate::proofs::SortSteps::no_indexed_word))]
fn read_indexed<E: Expr>(
    alloc: Global,
    e: &E,
    head: &E,
    family: &E,
    width: &E,
    names: &RuleNames,
) -> Result<NestedSort, Fault>
    ensures read { Answers (only_sort result) (indexed_sort names.now
        (E.tree e.now) (E.tree head.now) (E.tree family.now) (E.tree width.now)) }
    ensures nested { IfOk result IsNested }
{
    if is_word_at(head, "_") && is_word_at(family, "BitVec") {
        read_word(alloc, width, names)
    } else {
        Err(refusal_at(e, Reason::BadSort))
    }
}

// The sort that a list of two spells.
fn read_pair<E: Expr>(
    alloc: Global,
    e: &E,
    head: &E,
    width: &E,
    names: &RuleNames,
) -> Result<NestedSort, Fault>
    ensures read { Answers (only_sort result) (pair_sort names.now (E.tree e.now)
        (E.tree head.now) (E.tree width.now)) }
    ensures nested { IfOk result IsNested }
{
    if is_word_at(head, "BitVec") {
        read_word(alloc, width, names)
    } else {
        Err(refusal_at(e, Reason::BadSort))
    }
}

// The array sort of two sorts, unless it nests too deep.
fn array_sort<E: Expr>(
    alloc: Global,
    e: &E,
    keys: NestedSort,
    entries: NestedSort,
) -> Result<NestedSort, Fault>
    requires keys { IsNested keys }
    requires entries { IsNested entries }
    ensures read { Answers (only_sort result)
        (shallow (E.tree e.now) (Array keys.sort entries.sort)) }
    ensures nested { IfOk result IsNested }
{
    let nesting = 1 + keys.nesting.max(entries.nesting);
    if nesting > MOST_NESTED_SORTS {
        return Err(refusal_at(e, Reason::TermLimit));
    }
    let Ok(keys) = Boxed::new(alloc, keys.sort) else {
        return Err(Fault::Memory);
    };
    let Ok(entries) = Boxed::new(alloc, entries.sort) else {
        return Err(Fault::Memory);
    };
    Ok(NestedSort {
        sort: Sort::Array(keys, entries),
        nesting,
    })
}

// The sort that an expression spells, with its nesting.
#[tactic(auto, using(rare_sexpr::proofs::Counting::depth_falls))]
fn read<E: Expr>(alloc: Global, e: &E, names: &RuleNames) -> Result<NestedSort, Fault>
    ensures read { Answers (only_sort result) (rule_sort_at names.now (E.tree e.now)) }
    ensures nested { IfOk result IsNested }
{
    if is_symbol(e) {
        return read_symbol(e, names);
    }
    if e.len() == 2 {
        return read_pair(alloc, e, e.item(0), e.item(1), names);
    }
    if e.len() != 3 {
        return Err(refusal_at(e, Reason::BadSort));
    }
    let head = e.item(0);
    let first = e.item(1);
    let second = e.item(2);
    if !is_word_at(head, "Array") {
        return read_indexed(alloc, e, head, first, second, names);
    }
    let keys = read(alloc, first, names)?;
    let entries = read(alloc, second, names)?;
    array_sort(alloc, e, keys, entries)
}

/// The sort that an expression spells over the parameters of a rule, or its first fault. Its forms are
/// `Bool`, `Int`, a sort name, `(BitVec E)`, `(_ BitVec E)` and `(Array A B)`.
///
/// Errors are `UnknownSymbol` at a symbol that is no sort name; `BadSort` at `?` and `?BitVec`, and at an
/// expression of another form; those of `read_linear_over`; `TermLimit` at a sort that nests more than
/// 1,000 deep; and want of memory.
pub fn read_rule_sort<E: Expr>(alloc: Global, e: &E, names: &RuleNames) -> Result<Sort, Fault>
    ensures { Answers result (rule_sort_at names.now (E.tree e.now)) }
{
    match read(alloc, e, names) {
        Ok(nested) => Ok(nested.sort),
        Err(fault) => Err(fault),
    }
}
