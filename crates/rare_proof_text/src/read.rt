//! Commands of proofs, read from expressions.
ghost use Rattle.rare_rule.specs.Books.{BookRule};
ghost use Rattle.rare_term.specs.State.{Grows, State};
ghost use Rattle.rare_proof_text.specs.Commands.{AnswersCommand, DefinesNew, IsCommandOf};
ghost use Rattle.rare_proof_text.specs.ProofText.{conclusion_command, proof_command};
ghost use Rattle.rare_proof_text.specs.declared.words.ProofWord.TheVariants as word;
ghost use Rattle.rare_proof_text.specs.inner.Parts.{behind_word};
ghost use Rattle.rare_scope.specs.Names.{AreMeant, Held, Names, names_of};
ghost use Rattle.rare_sexpr.specs.Tree.{items_of};
ghost use Rattle.rare_sort.specs.declared.declarations.Declarations.{Declarations};
ghost use Rattle.rare_sort.specs.declared.tree.Tree.{Tree};
ghost use Rattle.std.specs.Prelude.{List, IfOk};

use crate::command::ReadCommand;
use crate::definition::read_definition;
use crate::step::read_step;
use crate::words::{ProofWord, word_of};
use rare_base::{Fault, Reason};
use rare_rule::Book;
use rare_scope::{Scope, is_symbol, read_symbol, refusal_at};
use rare_sexpr::Expr;
use rare_term::Terms;
use std::alloc::Global;

fn read_names<'e, E: Expr>(name: &'e E, id: &'e E) -> Result<ReadCommand<'e, E>, Fault>
    ensures read { (ts : List Tree) → AnswersCommand E.tree ts result
        (conclusion_command (E.tree name.now) (E.tree id.now)) }
    ensures ids { (s : State) → IfOk result (IsCommandOf s) }
    ensures new { (held : Held) → IfOk result (DefinesNew held) }
{
    let name = read_symbol(name)?;
    let id = read_symbol(id)?;
    Ok(ReadCommand::Conclude { name, id })
}

// The conclusion that the items of a command spell, or its first fault.
fn read_conclusion<E: Expr>(e: &E) -> Result<ReadCommand<'_, E>, Fault>
    ensures read { (ts : List Tree) (d : Declarations) (names : Names) (book : List BookRule) →
        AnswersCommand E.tree ts result (behind_word d names book (E.tree e.now) word.Conclude
        (items_of (E.tree e.now))) }
    ensures ids { (s : State) → IfOk result (IsCommandOf s) }
    ensures new { (held : Held) → IfOk result (DefinesNew held) }
{
    if e.len() != 3 {
        return Err(refusal_at(e, Reason::BadForm));
    }
    let name = e.item(1);
    let id = e.item(2);
    read_names(name, id)
}

// The step that the items of a command spell, as a command.
fn read_step_command<'e, E: Expr, T: Terms>(
    alloc: Global,
    e: &'e E,
    scope: &Scope,
    book: &Book,
    terms: &mut T,
) -> Result<ReadCommand<'e, E>, Fault>
    requires { AreMeant (T.state terms.old) scope.now }
    ensures read { AnswersCommand E.tree (T.state terms.new).trees result
        (behind_word (T.state terms.old).declared
        (names_of (T.state terms.old).trees scope.now) book.now (E.tree e.now) word.Step
        (items_of (E.tree e.now))) }
    ensures ids { IfOk result (IsCommandOf (T.state terms.new)) }
    ensures new { IfOk result (DefinesNew scope.now) }
    ensures grows { Grows (T.state terms.old) (T.state terms.new) }
{
    match read_step(alloc, e, scope, book, terms) {
        Ok(step) => Ok(ReadCommand::Step(step)),
        Err(fault) => Err(fault),
    }
}

// The command of this word that the items of a command spell, or its first fault.
fn read_by_word<'e, E: Expr, T: Terms>(
    alloc: Global,
    e: &'e E,
    word: ProofWord,
    scope: &Scope,
    book: &Book,
    terms: &mut T,
) -> Result<ReadCommand<'e, E>, Fault>
    requires { AreMeant (T.state terms.old) scope.now }
    ensures read { AnswersCommand E.tree (T.state terms.new).trees result
        (behind_word (T.state terms.old).declared
        (names_of (T.state terms.old).trees scope.now) book.now (E.tree e.now) word
        (items_of (E.tree e.now))) }
    ensures ids { IfOk result (IsCommandOf (T.state terms.new)) }
    ensures new { IfOk result (DefinesNew scope.now) }
    ensures grows { Grows (T.state terms.old) (T.state terms.new) }
{
    match word {
        ProofWord::DefineFun => read_definition(alloc, e, scope, terms),
        ProofWord::Step => read_step_command(alloc, e, scope, book, terms),
        ProofWord::Conclude => read_conclusion(e),
    }
}

/// The command of a proof that an expression spells over the names of a scope, or its first fault:
/// `(define-fun @K () S t)`; `(step ID (cl (= a b)) :rule R)`, where `:premises (ID ..)` may follow
/// the rule, and where an instance of a rule of the book ends with `:args ("NAME" A ..)`; or
/// `(conclude NAME ID)`. Arguments are read where the book has the rule and they are as many as its
/// names: each as a sort, a linear expression, a term or `(rare-list t ..)`, by the kind of its
/// name.
///
/// Errors are `UnknownCommand` at a list that begins with another word; `DeclaredTwice`,
/// `ReservedSymbol` and `BadForm` at a defined name that is taken, is reserved, or does not begin
/// with `@`; `IllSorted` at a stated sort that is not that of the term, and at a step whose sides
/// have two sorts; `UnknownRule` at the word of no rule; those of `read_sort`, `read_linear` and
/// `read_term`; `BadForm` at an expression of another form; and want of memory. After an error the
/// terms may have grown, and old ids stand.
pub fn read_command<'e, E: Expr, T: Terms>(
    alloc: Global,
    e: &'e E,
    scope: &Scope,
    book: &Book,
    terms: &mut T,
) -> Result<ReadCommand<'e, E>, Fault>
    requires { AreMeant (T.state terms.old) scope.now }
    ensures read { AnswersCommand E.tree (T.state terms.new).trees result
        (proof_command (T.state terms.old).declared
        (names_of (T.state terms.old).trees scope.now) book.now (E.tree e.now)) }
    ensures ids { IfOk result (IsCommandOf (T.state terms.new)) }
    ensures new { IfOk result (DefinesNew scope.now) }
    ensures grows { Grows (T.state terms.old) (T.state terms.new) }
{
    if e.len() == 0 {
        return Err(refusal_at(e, Reason::BadForm));
    }
    let head = e.item(0);
    if !is_symbol(head) {
        return Err(refusal_at(e, Reason::BadForm));
    }
    match word_of(head.text()) {
        Some(word) => read_by_word(alloc, e, word, scope, book, terms),
        None => Err(refusal_at(e, Reason::UnknownCommand)),
    }
}
