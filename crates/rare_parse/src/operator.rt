//! The operator of an application in a rule, with its indices.
ghost use Rattle.std.specs.Prelude.{◌≡◌, ◌≤◌, Some, IfOk, drop, length, slice_get};
ghost use Rattle.rare_parse.specs.inner.TermReading as text;
ghost use Rattle.rare_parse.specs.inner.TermReading.{word_placed, AnswersPlaced};
ghost use Rattle.rare_operators.specs.HeadText.{indexed_word_at};
ghost use Rattle.rare_sexpr.specs.Tree.{items_of};

use crate::names::RuleNames;
use rare_base::{Fault, Reason};
use rare_operators::{
    IndexedHead, IndexedWord, operator_at, read_indexed_head, read_indices, word_head,
};
use rare_scope::refusal_at;
use rare_sexpr::{Expr, Kind};
use std::alloc::Global;

/// An operator with its indices, and the place of its first argument among the items of its list.
#[derive(Debug, Drop)]
pub struct Applied {
    pub operator: IndexedHead,
    pub first: usize,
}

// The operator that a word is, whose indices are the first items behind it.
#[tactic(auto, using(crate::proofs::OperatorSteps::few_indices, crate::proofs::OperatorSteps::indices_fail, crate::proofs::OperatorSteps::indices_read))]
fn read_indexed<E: Expr>(
    alloc: Global,
    e: &E,
    head: &E,
    word: IndexedWord,
    names: &RuleNames,
) -> Result<Applied, Fault>
    requires { 1 ≤ length (items_of (E.tree e.now)) }
    ensures read { AnswersPlaced result (word_placed names.now (E.tree e.now) (E.tree head.now)
        (drop 1 (items_of (E.tree e.now))) (Some word)) }
    ensures within { IfOk result (λ a. a.first ≤ length (items_of (E.tree e.now))) }
{
    if e.len() - 1 < word.indices {
        return Err(refusal_at(e, Reason::BadForm));
    }
    match read_indices(alloc, e, 1, 1 + word.indices, names) {
        Ok(indices) => Ok(Applied {
            operator: IndexedHead {
                head: word.head,
                indices,
            },
            first: 1 + word.indices,
        }),
        Err(fault) => Err(fault),
    }
}

// The operator that a symbol is.
#[tactic(auto, using(crate::proofs::OperatorSteps::word_fails, crate::proofs::OperatorSteps::word_read, crate::proofs::OperatorSteps::count_behind))]
fn read_symbol<E: Expr>(alloc: Global, e: &E, head: &E, names: &RuleNames) -> Result<Applied, Fault>
    requires { 1 ≤ length (items_of (E.tree e.now)) }
    ensures read { AnswersPlaced result (word_placed names.now (E.tree e.now) (E.tree head.now)
        (drop 1 (items_of (E.tree e.now))) (indexed_word_at (E.tree head.now))) }
    ensures within { IfOk result (λ a. a.first ≤ length (items_of (E.tree e.now))) }
{
    match operator_at(head) {
        Some(word) => read_indexed(alloc, e, head, word, names),
        None => match word_head(alloc, e, head, e.len() - 1) {
            Ok(operator) => Ok(Applied { operator, first: 1 }),
            Err(fault) => Err(fault),
        },
    }
}

/// The operator that `head` spells, the first item of the list `e`, with its indices; or the first fault.
///
/// Errors are `UnknownSymbol` at a symbol that is no operator; `BadForm` at the list where it holds nothing
/// but `true` or `false`, or fewer items than an operator has indices, at a head that is neither a symbol
/// nor a list that begins with `_`, and at such a list of another form; those of `read_linear_over` in the
/// indices; and want of memory.
#[tactic(auto, using(crate::proofs::OperatorSteps::list_fails, crate::proofs::OperatorSteps::list_read))]
pub fn read_operator<E: Expr>(
    alloc: Global,
    e: &E,
    head: &E,
    names: &RuleNames,
) -> Result<Applied, Fault>
    requires { 1 ≤ length (items_of (E.tree e.now)) }
    ensures read { AnswersPlaced result
        (text.operator_at names.now (E.tree e.now) (E.tree head.now)) }
    ensures within { IfOk result (λ a. a.first ≤ length (items_of (E.tree e.now))) }
{
    match head.kind() {
        Kind::Symbol => read_symbol(alloc, e, head, names),
        Kind::List => match read_indexed_head(alloc, head, names) {
            Ok(operator) => Ok(Applied { operator, first: 1 }),
            Err(fault) => Err(fault),
        },
        Kind::Keyword | Kind::Numeral | Kind::Decimal | Kind::Binary | Kind::Hex | Kind::Quoted => {
            Err(refusal_at(head, Reason::BadForm))
        }
    }
}
