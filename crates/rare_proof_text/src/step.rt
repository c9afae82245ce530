//! Steps, read from the items of their commands.
ghost use Rattle.rare_proof.specs.Sided.{AreSides};
ghost use Rattle.rare_proof_text.specs.Commands.{IsReadStepOf};
ghost use Rattle.rare_proof_text.specs.declared.words.ProofWord.TheVariants as word;
ghost use Rattle.rare_proof_text.specs.inner.Parts as parts;
ghost use Rattle.rare_proof_text.specs.inner.Parts.{AnswersAs, behind_word, first_items, start_at, start_by, step_at};
ghost use Rattle.rare_scope.specs.Names.{AreMeant, names_of};
ghost use Rattle.rare_sexpr.specs.Tree.{items_of};
ghost use Rattle.rare_term.specs.State.{Grows};
ghost use Rattle.std.specs.Prelude.{◌≡◌, IfOk, IsTrue, length};

use crate::command::ReadStep;
use crate::ending::read_end;
use crate::parts::rule_behind_keyword;
use crate::sides::read_sides;
use crate::words::RuleWord;
use rare_base::{Fault, Reason};
use rare_proof::Sides;
use rare_rule::Book;
use rare_scope::{Scope, read_symbol, refusal_at};
use rare_sexpr::Expr;
use rare_term::Terms;
use std::alloc::Global;

// What the first five items of a step spell.
#[derive(Clone, Copy)]
struct ReadStart<'e> {
    id: &'e [u8],
    sides: Sides,
    word: RuleWord,
}

// Whether a step may have so many items: five, and premises and arguments behind them.
fn is_step_count(count: usize) -> bool
    ensures { result ≡ parts.is_step_count count }
{
    count == 5 || count == 7 || count == 9
}

fn read_parts<'e, E: Expr, T: Terms>(
    alloc: Global,
    e: &E,
    id: &'e E,
    clause: &E,
    keyword: &E,
    rule: &E,
    scope: &Scope,
    terms: &mut T,
) -> Result<ReadStart<'e>, Fault>
    requires { AreMeant (T.state terms.old) scope.now }
    ensures read { AnswersAs (start_at (T.state terms.new).trees) result
        (start_by (T.state terms.old).declared (names_of (T.state terms.old).trees scope.now)
        (E.tree e.now) (E.tree id.now) (E.tree clause.now) (E.tree keyword.now) (E.tree rule.now)) }
    ensures ids { IfOk result (λ s. AreSides (length (T.state terms.new).trees) s.sides) }
    ensures grows { Grows (T.state terms.old) (T.state terms.new) }
{
    let id = read_symbol(id)?;
    let sides = read_sides(alloc, e, clause, scope, terms)?;
    let word = rule_behind_keyword(keyword, rule)?;
    Ok(ReadStart { id, sides, word })
}

// The first five items: the word of the command, the id, the clause, `:rule`, and the word of the
// rule.
fn read_first<'e, E: Expr, T: Terms>(
    alloc: Global,
    e: &'e E,
    scope: &Scope,
    terms: &mut T,
) -> Result<ReadStart<'e>, Fault>
    requires names { AreMeant (T.state terms.old) scope.now }
    requires count { IsTrue (parts.is_step_count (length (items_of (E.tree e.now)))) }
    ensures read { AnswersAs (start_at (T.state terms.new).trees) result
        (first_items (T.state terms.old).declared (names_of (T.state terms.old).trees scope.now)
        (E.tree e.now) (items_of (E.tree e.now))) }
    ensures ids { IfOk result (λ s. AreSides (length (T.state terms.new).trees) s.sides) }
    ensures grows { Grows (T.state terms.old) (T.state terms.new) }
{
    let id = e.item(1);
    let clause = e.item(2);
    let keyword = e.item(3);
    let rule = e.item(4);
    read_parts(alloc, e, id, clause, keyword, rule, scope, terms)
}

/// The step that the items of a command spell, or its first fault.
pub(crate) fn read_step<'e, E: Expr, T: Terms>(
    alloc: Global,
    e: &'e E,
    scope: &Scope,
    book: &Book,
    terms: &mut T,
) -> Result<ReadStep<'e, E>, Fault>
    requires { AreMeant (T.state terms.old) scope.now }
    ensures read { AnswersAs (step_at E.tree (T.state terms.new).trees) result
        (behind_word (T.state terms.old).declared (names_of (T.state terms.old).trees scope.now)
        book.now (E.tree e.now) word.Step (items_of (E.tree e.now))) }
    ensures ids { IfOk result (IsReadStepOf (T.state terms.new)) }
    ensures grows { Grows (T.state terms.old) (T.state terms.new) }
{
    if !is_step_count(e.len()) {
        return Err(refusal_at(e, Reason::BadForm));
    }
    let start = read_first(alloc, e, scope, terms)?;
    let end = read_end(alloc, e, start.word, scope, book, terms)?;
    Ok(ReadStep {
        id: start.id,
        sides: start.sides,
        rule: end.rule,
        premises: end.premises,
    })
}
