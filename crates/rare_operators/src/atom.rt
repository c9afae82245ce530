//! The terms that atoms spell.
ghost use Rattle.std.specs.Prelude.{◌≡◌, ◌<◌, [], length, false};
ghost use Rattle.rare_scope.specs.Names.{found, names_of, AreMeant};
ghost use Rattle.rare_scope.specs.Numbers.{small_number};
ghost use Rattle.rare_scope.specs.Reading.{is_list_kind};
ghost use Rattle.rare_sexpr.specs.Tree.{kind_of, text_of};
ghost use Rattle.rare_sort.specs.declared.head.Head.TheVariants as kinds;
ghost use Rattle.rare_term.specs.Literals.{application};
ghost use Rattle.rare_term.specs.Refusals.{refusal};
ghost use Rattle.rare_operators.specs.AtomText.{atom_at, constant_unless, named_term, word_term};
ghost use Rattle.rare_operators.specs.LiteralText.{numeral_term};
ghost use Rattle.rare_operators.specs.OperatorWords.{operator_of_word};
ghost use Rattle.rare_term.specs.State.{Grows};
ghost use Rattle.rare_operators.specs.TermAnswers.{AnswersTerm};

use crate::application::application_at;
use crate::literal::{read_binary_literal, read_hexadecimal_literal};
use crate::words::{WordUse, word_use};
use rare_base::{Fault, Reason};
use rare_bindings::Bindings;
use rare_scope::{Meaning, refusal_at, small_numeral};
use rare_sexpr::{Expr, Kind};
use rare_term::{Head, TermError, TermId, Terms};
use std::alloc::Global;

// The term that a word of the theories is.
fn read_word<E: Expr, T: Terms>(e: &E, terms: &mut T) -> Result<TermId, Fault>
    ensures read { AnswersTerm (T.state terms.new).trees result
        (word_term (T.state terms.old).declared (E.tree e.now)
        (operator_of_word (text_of (E.tree e.now)))) }
    ensures grows { Grows (T.state terms.old) (T.state terms.new) }
{
    match word_use(e.text()) {
        Some(WordUse::Constant(head)) => application_at(e, head, &[], &[], terms),
        Some(WordUse::Plain(_)) | Some(WordUse::Difference) | None => {
            Err(refusal_at(e, Reason::UnknownSymbol))
        }
    }
}

// The term that a numeral is.
fn read_numeral<E: Expr, T: Terms>(e: &E, terms: &mut T) -> Result<TermId, Fault>
    ensures read { AnswersTerm (T.state terms.new).trees result
        (numeral_term (T.state terms.old).declared (E.tree e.now)
        (small_number (text_of (E.tree e.now)))) }
    ensures grows { Grows (T.state terms.old) (T.state terms.new) }
{
    match small_numeral(e.text()) {
        Some(n) => application_at(e, Head::Numeral(n.cast_unsigned()), &[], &[], terms),
        None => Err(refusal_at(e, Reason::LiteralTooWide)),
    }
}

// The term that a declared symbol is, which takes no arguments.
fn read_constant<E: Expr, T: Terms>(e: &E, symbol: u32, terms: &mut T) -> Result<TermId, Fault>
    requires { symbol < length (T.state terms.old).declared.symbols }
    ensures read { AnswersTerm (T.state terms.new).trees result
        (constant_unless (E.tree e.now)
        (refusal (T.state terms.old).declared (kinds.Free symbol) [] [])
        (application (kinds.Free symbol) [] [])) }
    ensures grows { Grows (T.state terms.old) (T.state terms.new) }
{
    match terms.make(Head::Free(symbol), &[], &[]) {
        Ok(id) => Ok(id),
        Err(TermError::Memory) => Err(Fault::Memory),
        Err(TermError::IllSorted)
        | Err(TermError::TooManyArgs)
        | Err(TermError::TooDeep)
        | Err(TermError::TooLarge) => Err(refusal_at(e, Reason::UnknownSymbol)),
    }
}

// The term that a symbol is.
#[tactic(auto, using(rare_scope::proofs::SortSteps::found_meant, rare_scope::proofs::SortSteps::found_is))]
fn read_symbol<E: Expr, T: Terms>(e: &E, names: &Bindings, terms: &mut T) -> Result<TermId, Fault>
    requires { AreMeant (T.state terms.old) names.now }
    ensures read { AnswersTerm (T.state terms.new).trees result
        (named_term (T.state terms.old).declared (E.tree e.now)
        (found (names_of (T.state terms.old).trees names.now) (text_of (E.tree e.now)))) }
    ensures grows { Grows (T.state terms.old) (T.state terms.new) }
{
    match names.find(e.text()) {
        Some(Meaning::Term(id)) => Ok(id),
        Some(Meaning::Symbol(k)) => read_constant(e, k, terms),
        Some(Meaning::Sort(_)) | Some(Meaning::Width(_)) => {
            Err(refusal_at(e, Reason::UnknownSymbol))
        }
        None => read_word(e, terms),
    }
}

/// The id of the term that an atom spells, or its fault: a name of a term or of a symbol without
/// arguments, `true`, `false`, a numeral, `#b` or `#x` with digits.
///
/// Errors are `UnknownSymbol` at another symbol, `LiteralTooWide` at a numeral above `2^127 - 1` and at a
/// literal of a value above `2^128 - 1`, `BadForm` at another atom, and want of memory.
pub fn read_atom<E: Expr, T: Terms>(
    alloc: Global,
    e: &E,
    names: &Bindings,
    terms: &mut T,
) -> Result<TermId, Fault>
    requires names { AreMeant (T.state terms.old) names.now }
    requires atom { is_list_kind (kind_of (E.tree e.now)) ≡ false }
    ensures read { AnswersTerm (T.state terms.new).trees result
        (atom_at (T.state terms.old).declared (names_of (T.state terms.old).trees names.now)
        (E.tree e.now)) }
    ensures grows { Grows (T.state terms.old) (T.state terms.new) }
{
    match e.kind() {
        Kind::Symbol => read_symbol(e, names, terms),
        Kind::Numeral => read_numeral(e, terms),
        Kind::Binary => read_binary_literal(alloc, e, terms),
        Kind::Hex => read_hexadecimal_literal(alloc, e, terms),
        Kind::Keyword | Kind::Decimal | Kind::Quoted | Kind::List => {
            Err(refusal_at(e, Reason::BadForm))
        }
    }
}
