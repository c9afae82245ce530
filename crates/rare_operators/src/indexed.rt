//! The operators with indices, which stand behind `_`.
ghost use Rattle.std.specs.Prelude.{◌≡◌, ◌≤◌, ℕ, IfOk, IfSome, drop, length, take};
ghost use Rattle.rare_scope.specs.Answers.{Answers};
ghost use Rattle.rare_scope.specs.LinearText.{AreBelow};
ghost use Rattle.rare_sexpr.specs.Tree.{items_of};
ghost use Rattle.rare_sort.specs.DeclaredSorts.{AreNamed};
ghost use Rattle.rare_operators.specs.HeadText.{indexed_by, indexed_head, indexed_word_at, indices_at};
ghost use Rattle.rare_operators.specs.Plain.{IsPlain};

use crate::head::IndexedHead;
use crate::words::{IndexedWord, indexed_word};
use rare_base::{Fault, Reason};
use rare_linear::Linears;
use rare_scope::{WidthNames, is_symbol, is_word_at, read_linear_over, refusal_at};
use rare_sexpr::Expr;
use std::alloc::Global;

/// The operator that an expression names behind `_`, or none where it is no such word.
pub fn operator_at<E: Expr>(word: &E) -> Option<IndexedWord>
    ensures word { result ≡ indexed_word_at (E.tree word.now) }
    ensures plain { IfSome result (λ o. IsPlain o.head) }
{
    if is_symbol(word) {
        indexed_word(word.text())
    } else {
        None
    }
}

/// The linear expressions that the items of a list are from item `from` on and before item `to`, in
/// order. Errors are those of `read_linear_over`, and want of memory.
pub fn read_indices<E: Expr, W: WidthNames>(
    alloc: Global,
    e: &E,
    from: usize,
    to: usize,
    names: &W,
) -> Result<Linears, Fault>
    requires order { from ≤ to }
    requires within { to ≤ length (items_of (E.tree e.now)) }
    ensures read { Answers result
        (indices_at (W.names names.now) (drop from (take to (items_of (E.tree e.now))))) }
    ensures named { IfOk result (λ ls.
        (n : ℕ) → AreBelow n (W.names names.now) → AreNamed n ls) }
{
    let mut indices = Linears::new(alloc);
    for k in from..to {
        match read_linear_over(alloc, e.item(k), names) {
            Ok(index) => {
                let Ok(()) = indices.push(index) else {
                    return Err(Fault::Memory);
                };
            }
            Err(fault) => return Err(fault),
        }
    }
    Ok(indices)
}

// The operator that a word is behind `_`, with the items behind it as its indices.
#[tactic(auto, using(crate::proofs::IndexSteps::whole_list))]
fn read_operator<E: Expr, W: WidthNames>(
    alloc: Global,
    head: &E,
    word: &E,
    names: &W,
) -> Result<IndexedHead, Fault>
    requires { 2 ≤ length (items_of (E.tree head.now)) }
    ensures read { Answers result
        (indexed_by (W.names names.now) (E.tree head.now) (E.tree word.now)
        (drop 2 (items_of (E.tree head.now))) (indexed_word_at (E.tree word.now))) }
    ensures plain { IfOk result (λ a. IsPlain a.head) }
    ensures named { IfOk result (λ a.
        (n : ℕ) → AreBelow n (W.names names.now) → AreNamed n a.indices) }
{
    let Some(operator) = operator_at(word) else {
        return Err(refusal_at(word, Reason::BadForm));
    };
    if head.len() - 2 != operator.indices {
        return Err(refusal_at(head, Reason::BadForm));
    }
    match read_indices(alloc, head, 2, head.len(), names) {
        Ok(indices) => Ok(IndexedHead {
            head: operator.head,
            indices,
        }),
        Err(fault) => Err(fault),
    }
}

/// The operator with indices that a list spells, which begins with `_`, or the first fault.
///
/// Errors are `BadForm` at a list that does not begin so or has not three or four items, at a word that is
/// no operator with indices, and at a list with another number of indices than its operator has; those of
/// `read_linear` in the indices; and want of memory.
pub fn read_indexed_head<E: Expr, W: WidthNames>(
    alloc: Global,
    head: &E,
    names: &W,
) -> Result<IndexedHead, Fault>
    ensures read { Answers result
        (indexed_head (W.names names.now) (E.tree head.now) (items_of (E.tree head.now))) }
    ensures plain { IfOk result (λ a. IsPlain a.head) }
    ensures named { IfOk result (λ a.
        (n : ℕ) → AreBelow n (W.names names.now) → AreNamed n a.indices) }
{
    if head.len() < 3 || head.len() > 4 {
        return Err(refusal_at(head, Reason::BadForm));
    }
    let mark = head.item(0);
    let word = head.item(1);
    if is_word_at(mark, "_") {
        read_operator(alloc, head, word, names)
    } else {
        Err(refusal_at(head, Reason::BadForm))
    }
}
