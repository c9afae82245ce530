//! Definitions and rewrites, read from their items.
ghost use Rattle.std.specs.Prelude.{◌≡◌, ◌<◌, false, List, length, map, bytes_eq, IfOk};
ghost use Rattle.std.specs.List.{list_any};
ghost use Rattle.rare_term.specs.State.{Grows};
ghost use Rattle.rare_operators.specs.TermAnswers.{AnswersTerm};
ghost use Rattle.rare_scope.specs.Answers.{Answers};
ghost use Rattle.rare_scope.specs.Names.{names_of};
ghost use Rattle.rare_sort.specs.Ids.{Extends};
ghost use Rattle.rare_sort.specs.declared.tree.Tree.{Tree};
ghost use Rattle.rare_term_text.specs.TermText.{term_at};
ghost use Rattle.rare_text.specs.ProblemText.{defined_term, definition, rewrite_name, rewrite_statement};
ghost use Rattle.rare_text.specs.Stated.{stated_problem, stated_rewrite};
ghost use Rattle.rare_text.specs.inner.Standing.{AnswersReader, IsProblemOf};

use crate::parts::{is_nothing, read_new_name};
use crate::problem::Rewrite;
use crate::reader::ProblemReader;
use rare_base::{Fault, Reason, Text};
use rare_scope::{read_sort, read_symbol, refusal_at};
use rare_sexpr::Expr;
use rare_sort::is_same_sort;
use rare_term::{TermId, Terms};
use rare_term_text::read_term;
use std::alloc::Global;

// The term that `() S t` spells behind the name of a definition.
fn read_defined_term<E: Expr, T: Terms>(
    alloc: Global,
    args: &E,
    sort: &E,
    term: &E,
    terms: &mut T,
    reader: &ProblemReader,
) -> Result<TermId, Fault>
    requires { IsProblemOf (T.state terms.old) reader.now.problem }
    ensures read { AnswersTerm (T.state terms.new).trees result
        (defined_term (T.state terms.old).declared
        (names_of (T.state terms.old).trees reader.now.problem.scope) (E.tree args.now)
        (E.tree sort.now) (E.tree term.now)) }
    ensures grows { Grows (T.state terms.old) (T.state terms.new) }
{
    if !is_nothing(args) {
        return Err(refusal_at(args, Reason::BadForm));
    }
    let gives = read_sort(alloc, sort, &reader.problem.scope, terms)?;
    let id = read_term(alloc, term, &reader.problem.scope, terms)?;
    if !is_same_sort(&gives, terms.sort(id)) {
        return Err(refusal_at(sort, Reason::IllSorted));
    }
    Ok(id)
}

/// The problem in which the name that `(define-fun N () S t)` defines stands for a term.
pub fn read_definition<E: Expr, T: Terms>(
    alloc: Global,
    name: &E,
    args: &E,
    sort: &E,
    term: &E,
    terms: &mut T,
    reader: ProblemReader,
) -> Result<ProblemReader, Fault>
    requires held { IsProblemOf (T.state terms.old) reader.problem }
    ensures read { AnswersReader (T.state terms.new) result
        (definition (stated_problem (T.state terms.old) reader.problem)
        (E.tree name.now) (E.tree args.now) (E.tree sort.now) (E.tree term.now)) }
    ensures grows { Extends (T.state terms.old).trees (T.state terms.new).trees }
{
    let text = read_new_name(alloc, name, &reader.problem.scope)?;
    let id = read_defined_term(alloc, args, sort, term, terms, &reader)?;
    reader.with_term(text.bytes(), id, terms)
}

// The name of a rewrite, which no rewrite has yet.
fn read_rewrite_name<E: Expr>(
    alloc: Global,
    name: &E,
    reader: &ProblemReader,
) -> Result<Text, Fault>
    ensures read { (ts : List Tree) →
        Answers result (rewrite_name (map (stated_rewrite ts) reader.now.problem.rewrites)
        (E.tree name.now)) }
    ensures new { IfOk result
        (λ text. list_any (bytes_eq text) (map (λ r. r.name) reader.now.problem.rewrites) ≡ false) }
{
    let text = read_symbol(name)?;
    if reader.has_rewrite(text) {
        return Err(refusal_at(name, Reason::DeclaredTwice));
    }
    match Text::of(alloc, text) {
        Ok(text) => Ok(text),
        Err(_) => Err(Fault::Memory),
    }
}

/// The problem with the rewrite that the command `e`, `(rewrite N t s)`, states.
pub fn read_rewrite<E: Expr, T: Terms>(
    alloc: Global,
    e: &E,
    name: &E,
    left: &E,
    right: &E,
    terms: &mut T,
    reader: ProblemReader,
) -> Result<ProblemReader, Fault>
    requires held { IsProblemOf (T.state terms.old) reader.problem }
    ensures read { AnswersReader (T.state terms.new) result
        (rewrite_statement (stated_problem (T.state terms.old) reader.problem)
        (E.tree e.now) (E.tree name.now) (E.tree left.now) (E.tree right.now)) }
    ensures grows { Extends (T.state terms.old).trees (T.state terms.new).trees }
{
    let name = read_rewrite_name(alloc, name, &reader)?;
    let left = read_term(alloc, left, &reader.problem.scope, terms)?;
    let right = read_term(alloc, right, &reader.problem.scope, terms)?;
    if !is_same_sort(terms.sort(left), terms.sort(right)) {
        return Err(refusal_at(e, Reason::IllSorted));
    }
    reader.with_rewrite(Rewrite { name, left, right }, terms)
}
