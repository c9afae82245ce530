//! Commands that are passed over.
ghost use Rattle.std.specs.Prelude.{drop};
ghost use Rattle.rare_sexpr.specs.Tree.{items_of};
ghost use Rattle.rare_text.specs.ProblemText.{command_by};
ghost use Rattle.rare_text.specs.Stated.{stated_problem};
ghost use Rattle.rare_text.specs.inner.Standing.{AnswersReader, IsProblemOf};

use crate::commands::CommandWord;
use crate::reader::ProblemReader;
use rare_base::{Fault, Reason};
use rare_scope::{is_keyword, is_symbol, refusal_at};
use rare_sexpr::Expr;
use rare_term::Terms;

/// The problem, which `(set-logic S)` leaves as it is.
pub fn pass_logic<E: Expr, T: Terms>(
    e: &E,
    terms: &T,
    reader: ProblemReader,
) -> Result<ProblemReader, Fault>
    requires { IsProblemOf (T.state terms.now) reader.problem }
    ensures { AnswersReader (T.state terms.now) result
        (command_by (stated_problem (T.state terms.now) reader.problem)
        (E.tree e.now) CommandWord.SetLogic (drop 1 (items_of (E.tree e.now)))) }
{
    let _ = terms;
    if e.len() != 2 {
        return Err(refusal_at(e, Reason::BadForm));
    }
    let first = e.item(1);
    if !is_symbol(first) {
        return Err(refusal_at(first, Reason::BadForm));
    }
    Ok(reader)
}

/// The problem, which `(set-info K)` or `(set-info K V)` leaves as it is.
pub fn pass_info<E: Expr, T: Terms>(
    e: &E,
    terms: &T,
    reader: ProblemReader,
) -> Result<ProblemReader, Fault>
    requires { IsProblemOf (T.state terms.now) reader.problem }
    ensures { AnswersReader (T.state terms.now) result
        (command_by (stated_problem (T.state terms.now) reader.problem)
        (E.tree e.now) CommandWord.SetInfo (drop 1 (items_of (E.tree e.now)))) }
{
    let _ = terms;
    if e.len() != 2 && e.len() != 3 {
        return Err(refusal_at(e, Reason::BadForm));
    }
    let first = e.item(1);
    if !is_keyword(first) {
        return Err(refusal_at(first, Reason::BadForm));
    }
    Ok(reader)
}

/// The problem, which `(set-option K V)` leaves as it is.
pub fn pass_option<E: Expr, T: Terms>(
    e: &E,
    terms: &T,
    reader: ProblemReader,
) -> Result<ProblemReader, Fault>
    requires { IsProblemOf (T.state terms.now) reader.problem }
    ensures { AnswersReader (T.state terms.now) result
        (command_by (stated_problem (T.state terms.now) reader.problem)
        (E.tree e.now) CommandWord.SetOption (drop 1 (items_of (E.tree e.now)))) }
{
    let _ = terms;
    if e.len() != 3 {
        return Err(refusal_at(e, Reason::BadForm));
    }
    let first = e.item(1);
    if !is_keyword(first) {
        return Err(refusal_at(first, Reason::BadForm));
    }
    Ok(reader)
}
