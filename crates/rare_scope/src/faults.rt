//! Refusals at expressions, the tests on expressions that forms ask for, and the bytes of symbols.
ghost use Rattle.std.specs.Prelude.{◌≡◌};
ghost use Rattle.rare_base.specs.declared.answers.Fault.TheVariants as fault;
ghost use Rattle.rare_scope.specs.Answers.{AnswersBytes};
ghost use Rattle.rare_scope.specs.Reading.{is_keyword_kind, is_keyword_word, is_list_kind, is_numeral_kind, is_symbol_kind, is_word, symbol_at};
ghost use Rattle.rare_sexpr.specs.Tree.{place_of, kind_of};

use rare_base::{Fault, Reason};
use rare_sexpr::{Expr, Kind};

/// The refusal of an expression, at its place.
pub fn refusal_at<E: Expr>(e: &E, reason: Reason) -> Fault
    ensures { result ≡ fault.Refused (place_of (E.tree e.now)) reason }
{
    Fault::Refused {
        place: e.place(),
        reason,
    }
}

/// Whether the expression is a list.
pub fn is_list<E: Expr>(e: &E) -> bool
    ensures { result ≡ is_list_kind (kind_of (E.tree e.now)) }
{
    e.kind() == Kind::List
}

/// Whether the expression is a symbol, with bars or without.
pub fn is_symbol<E: Expr>(e: &E) -> bool
    ensures { result ≡ is_symbol_kind (kind_of (E.tree e.now)) }
{
    e.kind() == Kind::Symbol
}

/// Whether the expression is a keyword.
pub fn is_keyword<E: Expr>(e: &E) -> bool
    ensures { result ≡ is_keyword_kind (kind_of (E.tree e.now)) }
{
    e.kind() == Kind::Keyword
}

/// Whether the expression is a numeral.
pub fn is_numeral<E: Expr>(e: &E) -> bool
    ensures { result ≡ is_numeral_kind (kind_of (E.tree e.now)) }
{
    e.kind() == Kind::Numeral
}

/// Whether the expression is the symbol with these bytes, with bars or without.
pub fn is_word_at<E: Expr>(e: &E, word: &str) -> bool
    ensures { result ≡ is_word word.now (E.tree e.now) }
{
    is_symbol(e) && e.text() == word.as_bytes()
}

/// Whether the expression is the keyword with these bytes.
pub fn is_keyword_at<E: Expr>(e: &E, word: &str) -> bool
    ensures { result ≡ is_keyword_word word.now (E.tree e.now) }
{
    is_keyword(e) && e.text() == word.as_bytes()
}

/// The bytes of a symbol: `BadForm` at another expression.
pub fn read_symbol<E: Expr>(e: &E) -> Result<&[u8], Fault>
    ensures { AnswersBytes result (symbol_at (E.tree e.now)) }
{
    if is_symbol(e) {
        Ok(e.text())
    } else {
        Err(refusal_at(e, Reason::BadForm))
    }
}
