//! Terms, read from expressions.
ghost use Rattle.std.specs.Prelude.{◌≡◌, ◌++◌, slice_get, Some, OnOk};
ghost use Rattle.rare_scope.specs.Names.{names_of, AreMeant};
ghost use Rattle.rare_sexpr.specs.Tree.{items_of};
ghost use Rattle.rare_term.specs.State.{Grows};
ghost use Rattle.rare_operators.specs.TermAnswers.{AnswersTerm};
ghost use Rattle.rare_term_text.specs.TermText.{term_at};
ghost use Rattle.rare_term_text.specs.inner.Parts.{application_in, binding_in, bindings_in, let_in, term_in, AnswersBinding, AnswersBound};

use crate::name::{is_literal_word, read_name};
use rare_base::{Fault, Reason};
use rare_bindings::{Binding, Bindings, Bound};
use rare_operators::{
    application_at, read_atom, read_decimal_literal, read_head, read_linear_literal,
};
use rare_scope::{Scope, is_list, is_word_at, refusal_at};
use rare_sexpr::Expr;
use rare_term::{Ids, TermId, Terms};
use std::alloc::Global;

// The application of the operator that `head` spells, the first item of the list. A text nests 5,000
// deep: apart from one another, the functions of the cycle take little of the stack.
#[cycle(read_terms)]
#[inline(never)]
#[tactic(auto, using(rare_sexpr::proofs::Counting::depth_falls, crate::proofs::Naming::grows_on))]
fn read_application<E: Expr, T: Terms>(
    alloc: Global,
    e: &E,
    head: &E,
    scope: &Scope,
    bound: &mut Bound,
    terms: &mut T,
) -> Result<TermId, Fault>
    requires names { AreMeant (T.state terms.old) (scope.now ++ bound.old) }
    requires head { slice_get (items_of (E.tree e.now)) 0 ≡ Some (E.tree head.now) }
    ensures read { AnswersTerm (T.state terms.new).trees result
        (application_in (T.state terms.old) scope.now bound.old (E.tree e.now) (E.tree head.now)) }
    ensures grows { Grows (T.state terms.old) (T.state terms.new) }
    ensures bound { OnOk result (bound.new ≡ bound.old) }
{
    let operator = read_head(
        alloc,
        e,
        head,
        e.len() - 1,
        &Bindings::new(scope, bound),
        terms,
    )?;
    let mut ids = Ids::new(alloc);
    for k in 1..e.len() {
        let id = read(alloc, e.item(k), scope, bound, terms)?;
        let Ok(()) = ids.push(id) else {
            return Err(Fault::Memory);
        };
    }
    let indices = operator.indices.items();
    application_at(e, operator.head, indices, ids.items(), terms)
}

// `(N t)`, with the names outside the `let`, and those bound before it in the same `let`.
#[cycle(read_terms)]
#[inline(never)]
#[tactic(auto, using(rare_sexpr::proofs::Counting::depth_falls, crate::proofs::Naming::grows_on))]
fn read_binding<E: Expr, T: Terms>(
    alloc: Global,
    e: &E,
    scope: &Scope,
    outside: &mut Bound,
    bound: &Bound,
    terms: &mut T,
) -> Result<Binding, Fault>
    requires { AreMeant (T.state terms.old) (scope.now ++ outside.old) }
    ensures read { AnswersBinding (T.state terms.new) result
        (binding_in (T.state terms.old) scope.now outside.old bound.now (E.tree e.now)) }
    ensures grows { Grows (T.state terms.old) (T.state terms.new) }
    ensures outside { OnOk result (outside.new ≡ outside.old) }
{
    if e.len() != 2 {
        return Err(refusal_at(e, Reason::BadForm));
    }
    let name = read_name(alloc, e.item(0), bound)?;
    let term = read(alloc, e.item(1), scope, outside, terms)?;
    Ok(Binding { name, term })
}

// The bindings of a `let`.
#[cycle(read_terms)]
#[inline(never)]
#[tactic(auto, using(rare_sexpr::proofs::Counting::depth_falls, crate::proofs::Naming::grows_on))]
fn read_bindings<E: Expr, T: Terms>(
    alloc: Global,
    e: &E,
    scope: &Scope,
    outside: &mut Bound,
    terms: &mut T,
) -> Result<Bound, Fault>
    requires { AreMeant (T.state terms.old) (scope.now ++ outside.old) }
    ensures read { AnswersBound (T.state terms.new) result
        (bindings_in (T.state terms.old) scope.now outside.old (E.tree e.now)) }
    ensures grows { Grows (T.state terms.old) (T.state terms.new) }
    ensures outside { OnOk result (outside.new ≡ outside.old) }
{
    let count = e.len();
    if count == 0 {
        return Err(refusal_at(e, Reason::BadForm));
    }
    let mut bound = Bound::new(alloc);
    for k in 0..count {
        let binding = read_binding(alloc, e.item(k), scope, outside, &bound, terms)?;
        let Ok(()) = bound.push(binding.name, binding.term) else {
            return Err(Fault::Memory);
        };
    }
    Ok(bound)
}

// `(let ((N t) ..) t)`.
#[cycle(read_terms)]
#[inline(never)]
#[tactic(auto, using(rare_sexpr::proofs::Counting::depth_falls, crate::proofs::Naming::grows_on))]
fn read_let<E: Expr, T: Terms>(
    alloc: Global,
    e: &E,
    scope: &Scope,
    bound: &mut Bound,
    terms: &mut T,
) -> Result<TermId, Fault>
    requires { AreMeant (T.state terms.old) (scope.now ++ bound.old) }
    ensures read { AnswersTerm (T.state terms.new).trees result
        (let_in (T.state terms.old) scope.now bound.old (E.tree e.now)) }
    ensures grows { Grows (T.state terms.old) (T.state terms.new) }
    ensures bound { OnOk result (bound.new ≡ bound.old) }
{
    if e.len() != 3 {
        return Err(refusal_at(e, Reason::BadForm));
    }
    let outside = bound.len();
    let more = read_bindings(alloc, e.item(1), scope, bound, terms)?;
    let Ok(()) = bound.append(more) else {
        return Err(Fault::Memory);
    };
    let id = read(alloc, e.item(2), scope, bound, terms)?;
    bound.truncate(outside);
    Ok(id)
}

// The term that an expression spells over the names of a scope and those that are bound.
#[cycle(read_terms)]
fn read<E: Expr, T: Terms>(
    alloc: Global,
    e: &E,
    scope: &Scope,
    bound: &mut Bound,
    terms: &mut T,
) -> Result<TermId, Fault>
    requires { AreMeant (T.state terms.old) (scope.now ++ bound.old) }
    ensures read { AnswersTerm (T.state terms.new).trees result
        (term_in (T.state terms.old) scope.now bound.old (E.tree e.now)) }
    ensures grows { Grows (T.state terms.old) (T.state terms.new) }
    ensures bound { OnOk result (bound.new ≡ bound.old) }
{
    if !is_list(e) {
        return read_atom(alloc, e, &Bindings::new(scope, bound), terms);
    }
    if e.len() == 0 {
        return Err(refusal_at(e, Reason::BadForm));
    }
    let head = e.item(0);
    if is_word_at(head, "let") {
        return read_let(alloc, e, scope, bound, terms);
    }
    if is_word_at(head, "_") {
        return read_decimal_literal(alloc, e, terms);
    }
    let names = Bindings::new(scope, bound);
    if is_literal_word(head, &names) {
        return read_linear_literal(alloc, e, &names, terms);
    }
    read_application(alloc, e, head, scope, bound, terms)
}

/// The id of the term that an expression spells over the names of a scope, or its first fault. Its forms
/// are names, literals, `(let ((N t) ..) t)`, and applications of operators, which may have indices.
///
/// Errors are, each at the first expression that has it, `BadForm`, `UnknownSymbol`, `ReservedSymbol` at a
/// name that a `let` binds, `IllSorted`, `LiteralTooWide`, `TermLimit`, `NonLinear`; and want of memory.
/// After an error the terms may have grown, and old ids stand.
pub fn read_term<E: Expr, T: Terms>(
    alloc: Global,
    e: &E,
    scope: &Scope,
    terms: &mut T,
) -> Result<TermId, Fault>
    requires { AreMeant (T.state terms.old) scope.now }
    ensures read { AnswersTerm (T.state terms.new).trees result
        (term_at (T.state terms.old).declared
        (names_of (T.state terms.old).trees scope.now) (E.tree e.now)) }
    ensures grows { Grows (T.state terms.old) (T.state terms.new) }
{
    let mut bound = Bound::new(alloc);
    read(alloc, e, scope, &mut bound, terms)
}
