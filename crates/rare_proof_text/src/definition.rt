//! Definitions of names, read from the items of their commands.
ghost use Rattle.rare_term.specs.State.{Grows};
ghost use Rattle.rare_operators.specs.TermAnswers.{AnswersTerm};
ghost use Rattle.rare_proof_text.specs.Commands.{AnswersCommand, DefinesNew, IsCommandOf};
ghost use Rattle.rare_proof_text.specs.ProofText.{begins_at_sign, definition_command, definition_name, free_definition_name};
ghost use Rattle.rare_proof_text.specs.declared.words.ProofWord.TheVariants as word;
ghost use Rattle.rare_proof_text.specs.inner.Parts.{behind_word};
ghost use Rattle.rare_rule.specs.Books.{BookRule};
ghost use Rattle.rare_scope.specs.Answers.{AnswersBytes};
ghost use Rattle.rare_scope.specs.Names.{AreMeant, is_declared, names_of};
ghost use Rattle.rare_sexpr.specs.Tree.{items_of};
ghost use Rattle.rare_sort.specs.declared.sort.Sort.{Sort};
ghost use Rattle.rare_sort.specs.declared.tree.Tree.{Tree};
ghost use Rattle.rare_sort.specs.Ids.{tree_at};
ghost use Rattle.rare_text.specs.ProblemText.{defined_term, term_of_sort};
ghost use Rattle.rare_text.specs.CommandParts.{is_empty_list};
ghost use Rattle.std.specs.Prelude.{◌≡◌, ◌<◌, List, false, IfOk, length};

use crate::command::ReadCommand;
use rare_base::{Fault, Reason};
use rare_scope::{Scope, is_list, is_reserved_name, read_sort, read_symbol, refusal_at};
use rare_sexpr::Expr;
use rare_sort::is_same_sort;
use rare_term::{Sort, TermId, Terms};
use rare_term_text::read_term;
use std::alloc::Global;

fn is_proof_name(name: &[u8]) -> bool
    ensures { result ≡ begins_at_sign name.now }
{
    matches!(name, [b'@', ..])
}

// The name that a proof may define, of these bytes.
fn free_name<'e, E: Expr>(e: &E, name: &'e [u8], scope: &Scope) -> Result<&'e [u8], Fault>
    ensures read { (ts : List Tree) → AnswersBytes result
        (free_definition_name (names_of ts scope.now) (E.tree e.now) name.now) }
    ensures new { IfOk result (λ free. is_declared scope.now free.now ≡ false) }
{
    if scope.declares(name) {
        Err(refusal_at(e, Reason::DeclaredTwice))
    } else if is_proof_name(name) {
        Ok(name)
    } else if is_reserved_name(name) {
        Err(refusal_at(e, Reason::ReservedSymbol))
    } else {
        Err(refusal_at(e, Reason::BadForm))
    }
}

// The name that a proof may define.
fn new_name<'e, E: Expr>(e: &'e E, scope: &Scope) -> Result<&'e [u8], Fault>
    ensures read { (ts : List Tree) → AnswersBytes result
        (definition_name (names_of ts scope.now) (E.tree e.now)) }
    ensures new { IfOk result (λ free. is_declared scope.now free.now ≡ false) }
{
    let name = read_symbol(e)?;
    free_name(e, name, scope)
}

fn is_empty<E: Expr>(e: &E) -> bool
    ensures { result ≡ is_empty_list (E.tree e.now) }
{
    is_list(e) && e.len() == 0
}

// The term, where it has this sort.
fn of_sort<E: Expr, T: Terms>(e: &E, sort: &Sort, id: TermId, terms: &T) -> Result<TermId, Fault>
    requires { id.0 < length (T.state terms.now).trees }
    ensures { AnswersTerm (T.state terms.now).trees result
        (term_of_sort (T.state terms.now).declared (E.tree e.now) sort.now
        (tree_at (T.state terms.now).trees id.0)) }
{
    if is_same_sort(sort, terms.sort(id)) {
        Ok(id)
    } else {
        Err(refusal_at(e, Reason::IllSorted))
    }
}

// The term behind the name of a definition: `() S t`.
fn read_defined<E: Expr, T: Terms>(
    alloc: Global,
    list: &E,
    sort: &E,
    term: &E,
    scope: &Scope,
    terms: &mut T,
) -> Result<TermId, Fault>
    requires { AreMeant (T.state terms.old) scope.now }
    ensures read { AnswersTerm (T.state terms.new).trees result
        (defined_term (T.state terms.old).declared
        (names_of (T.state terms.old).trees scope.now) (E.tree list.now) (E.tree sort.now)
        (E.tree term.now)) }
    ensures grows { Grows (T.state terms.old) (T.state terms.new) }
{
    if !is_empty(list) {
        return Err(refusal_at(list, Reason::BadForm));
    }
    let gives = read_sort(alloc, sort, scope, terms)?;
    let id = read_term(alloc, term, scope, terms)?;
    of_sort(sort, &gives, id, terms)
}

fn read_parts<'e, E: Expr, T: Terms>(
    alloc: Global,
    name: &'e E,
    list: &E,
    sort: &E,
    term: &E,
    scope: &Scope,
    terms: &mut T,
) -> Result<ReadCommand<'e, E>, Fault>
    requires { AreMeant (T.state terms.old) scope.now }
    ensures read { AnswersCommand E.tree (T.state terms.new).trees result
        (definition_command (T.state terms.old).declared
        (names_of (T.state terms.old).trees scope.now) (E.tree name.now) (E.tree list.now)
        (E.tree sort.now) (E.tree term.now)) }
    ensures ids { IfOk result (IsCommandOf (T.state terms.new)) }
    ensures new { IfOk result (DefinesNew scope.now) }
    ensures grows { Grows (T.state terms.old) (T.state terms.new) }
{
    let name = new_name(name, scope)?;
    let term = read_defined(alloc, list, sort, term, scope, terms)?;
    Ok(ReadCommand::Define { name, term })
}

/// The definition that the items of a command spell, or its first fault.
pub(crate) fn read_definition<'e, E: Expr, T: Terms>(
    alloc: Global,
    e: &'e E,
    scope: &Scope,
    terms: &mut T,
) -> Result<ReadCommand<'e, E>, Fault>
    requires { AreMeant (T.state terms.old) scope.now }
    ensures read { (book : List BookRule) → AnswersCommand E.tree (T.state terms.new).trees result
        (behind_word (T.state terms.old).declared
        (names_of (T.state terms.old).trees scope.now) book (E.tree e.now) word.DefineFun
        (items_of (E.tree e.now))) }
    ensures ids { IfOk result (IsCommandOf (T.state terms.new)) }
    ensures new { IfOk result (DefinesNew scope.now) }
    ensures grows { Grows (T.state terms.old) (T.state terms.new) }
{
    if e.len() != 5 {
        return Err(refusal_at(e, Reason::BadForm));
    }
    let name = e.item(1);
    let list = e.item(2);
    let sort = e.item(3);
    let term = e.item(4);
    read_parts(alloc, name, list, sort, term, scope, terms)
}
