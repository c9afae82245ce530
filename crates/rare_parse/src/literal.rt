//! Literals and the other terms of rules that hold no further term.
ghost use Rattle.std.specs.Prelude.{◌≡◌, ◌<◌, ◌^◌, ◌∷◌, [], ◌≤ℤ◌, pos, false, Some, Ok, IfOk, length, option_map, if◌then◌else◌};
ghost use Rattle.rare_base.specs.declared.answers.Reason.TheVariants as reason;
ghost use Rattle.rare_parse.specs.RuleTermText as text;
ghost use Rattle.rare_parse.specs.RuleTermText.{atom_by, bits, decimal_literal, numeral_term, symbol_term, word_term};
ghost use Rattle.rare_parse.specs.RuleNames.{term_named};
ghost use Rattle.rare_parse.specs.inner.TermReading.{only_tree, IsMeasured};
ghost use Rattle.rare_operators.specs.OperatorWords.{operator_of_word};
ghost use Rattle.rare_scope.specs.Answers.{Answers};
ghost use Rattle.rare_scope.specs.Numbers.{small_number};
ghost use Rattle.rare_scope.specs.Reading.{is_list_kind, refused};
ghost use Rattle.rare_sexpr.specs.Tree.{items_of, kind_of, text_of};
ghost use Rattle.rare_sort.specs.SortRules.{number_in};
ghost use Rattle.rare_sort.specs.Trees.{node};
ghost use Rattle.rare_sort.specs.declared.head.Head.TheVariants as kinds;
ghost use Rattle.rare_term.specs.Literals.{reduced_value};
ghost use Rattle.rare_term.specs.Refusals.{is_below_wide};

use crate::measured::{ReadTerm, leaf};
use crate::names::RuleNames;
use crate::reduced::value_reduced;
use rare_base::{Fault, Reason};
use rare_linear::{Linear, Linears};
use rare_operators::{WordUse, is_below_power, numeral_of, value_behind, word_use};
use rare_scope::{number_of_digits, read_linear_over, refusal_at, small_numeral};
use rare_sexpr::{Expr, Kind};
use rare_sort::{Head, number_of};
use std::alloc::Global;

/// How many bits a hexadecimal digit has.
const BITS_OF_HEX_DIGIT: u128 = 4;

/// A negative value is too wide above this width.
const WIDEST: i128 = 128;

// The literal of given value and width.
fn bits_of(alloc: Global, value: u128, width: Linear) -> Result<ReadTerm, Fault>
    ensures read { Answers (only_tree result) (Ok (bits value width)) }
    ensures measured { IfOk result IsMeasured }
{
    let mut indices = Linears::new(alloc);
    let Ok(()) = indices.push(width) else {
        return Err(Fault::Memory);
    };
    Ok(leaf(alloc, Head::Bits(value), indices))
}

// The literal of another value and width.
fn literal_of(alloc: Global, value: Linear, width: Linear) -> Result<ReadTerm, Fault>
    ensures read { Answers (only_tree result) (Ok (node kinds.Literal (value ∷ width ∷ []) [])) }
    ensures measured { IfOk result IsMeasured }
{
    let mut indices = Linears::new(alloc);
    let Ok(()) = indices.push(value) else {
        return Err(Fault::Memory);
    };
    let Ok(()) = indices.push(width) else {
        return Err(Fault::Memory);
    };
    Ok(leaf(alloc, Head::Literal, indices))
}

// The literal of a value, where it is below `2^128` and `2^width`.
#[tactic(auto, using(crate::proofs::LiteralSteps::fit_value, crate::proofs::LiteralSteps::wide_value))]
fn bits_literal<E: Expr>(
    alloc: Global,
    e: &E,
    value: Option<u128>,
    width: u128,
) -> Result<ReadTerm, Fault>
    requires { width < 2 ^ 127 }
    ensures read { Answers (only_tree result) (text.bits_literal (E.tree e.now) value width) }
    ensures measured { IfOk result IsMeasured }
{
    let Some(value) = value else {
        return Err(refusal_at(e, Reason::LiteralTooWide));
    };
    if is_below_power(value, width) {
        bits_of(alloc, value, Linear::constant(alloc, width as i128))
    } else {
        Err(refusal_at(e, Reason::LiteralTooWide))
    }
}

/// The literal that the list `(_ bvV W)` spells, or the first fault.
///
/// Errors are `BadForm` at a list of another number of items, or at the first item behind `_` of another
/// form; `TermLimit` at a width above `2^127 - 1`; `LiteralTooWide` at the list where the value is not
/// below `2^W` and `2^128`; and want of memory.
#[tactic(auto, using(crate::proofs::LiteralSteps::other_decimal, crate::proofs::LiteralSteps::value_fails, crate::proofs::LiteralSteps::width_fails, crate::proofs::LiteralSteps::decimal_read))]
pub fn read_decimal_literal<E: Expr>(alloc: Global, e: &E) -> Result<ReadTerm, Fault>
    ensures read { Answers (only_tree result)
        (decimal_literal (E.tree e.now) (items_of (E.tree e.now))) }
    ensures measured { IfOk result IsMeasured }
{
    if e.len() != 3 {
        return Err(refusal_at(e, Reason::BadForm));
    }
    let literal = e.item(1);
    let numeral = e.item(2);
    match value_behind(literal) {
        Ok(value) => match numeral_of(numeral) {
            Ok(width) => bits_literal(alloc, e, value, width),
            Err(fault) => Err(fault),
        },
        Err(fault) => Err(fault),
    }
}

// Whether a number passes `2^128 - 1` once it is reduced: a negative one of a width above 128.
fn is_too_wide(value: i128, width: i128) -> bool
    ensures { result ≡ is_below_wide (Some value) (Some width) }
{
    width > WIDEST && value < 0
}

// The literal of a value and a width that are numbers.
#[tactic(auto, using(crate::proofs::LiteralSteps::may_reduce))]
fn number_literal<E: Expr>(
    alloc: Global,
    e: &E,
    value: i128,
    number: i128,
    width: Linear,
) -> Result<ReadTerm, Fault>
    requires { pos 0 ≤ℤ number }
    ensures read { Answers (only_tree result) (if is_below_wide (Some value) (Some number)
        then (refused (E.tree e.now) reason.LiteralTooWide)
        else Ok (bits (reduced_value value number) width)) }
    ensures measured { IfOk result IsMeasured }
{
    if is_too_wide(value, number) {
        Err(refusal_at(e, Reason::LiteralTooWide))
    } else {
        bits_of(alloc, value_reduced(value, number), width)
    }
}

// The literal of a value and a width: where both are numbers, of the reduced value.
#[tactic(auto, using(crate::proofs::LiteralSteps::number_given, crate::proofs::LiteralSteps::below_given, crate::proofs::LiteralSteps::no_width_given, crate::proofs::LiteralSteps::no_value_given))]
fn given_literal<E: Expr>(
    alloc: Global,
    e: &E,
    value: Linear,
    width: Linear,
) -> Result<ReadTerm, Fault>
    ensures read { Answers (only_tree result)
        (text.given_literal (E.tree e.now) value width (number_in value) (number_in width)) }
    ensures measured { IfOk result IsMeasured }
{
    match number_of(&value) {
        Some(m) => match number_of(&width) {
            Some(n) => {
                if n >= 0 {
                    number_literal(alloc, e, m, n, width)
                } else {
                    literal_of(alloc, value, width)
                }
            }
            None => literal_of(alloc, value, width),
        },
        None => literal_of(alloc, value, width),
    }
}

/// The literal that the list `(bv E E)` spells, of a value modulo `2^width` and a width, or the first
/// fault.
///
/// Errors are `BadForm` at a list of another number of items; those of `read_linear_over`;
/// `LiteralTooWide` at the list where the width is a number above 128 and the value a negative number; and
/// want of memory.
#[tactic(auto, using(crate::proofs::LiteralSteps::other_linear, crate::proofs::LiteralSteps::linear_value_fails, crate::proofs::LiteralSteps::linear_width_fails, crate::proofs::LiteralSteps::linear_read))]
pub fn read_linear_literal<E: Expr>(
    alloc: Global,
    e: &E,
    names: &RuleNames,
) -> Result<ReadTerm, Fault>
    ensures read { Answers (only_tree result)
        (text.linear_literal names.now (E.tree e.now) (items_of (E.tree e.now))) }
    ensures measured { IfOk result IsMeasured }
{
    if e.len() != 3 {
        return Err(refusal_at(e, Reason::BadForm));
    }
    let value = e.item(1);
    let width = e.item(2);
    match read_linear_over(alloc, value, names) {
        Ok(value) => match read_linear_over(alloc, width, names) {
            Ok(width) => given_literal(alloc, e, value, width),
            Err(fault) => Err(fault),
        },
        Err(fault) => Err(fault),
    }
}

// The term that a word is, which is no parameter.
fn read_word<E: Expr>(alloc: Global, e: &E) -> Result<ReadTerm, Fault>
    ensures read { Answers (only_tree result)
        (word_term (E.tree e.now) (operator_of_word (text_of (E.tree e.now)))) }
    ensures measured { IfOk result IsMeasured }
{
    match word_use(e.text()) {
        Some(WordUse::Constant(head)) => Ok(leaf(alloc, head, Linears::new(alloc))),
        Some(WordUse::Plain(_)) | Some(WordUse::Difference) | None => {
            Err(refusal_at(e, Reason::UnknownSymbol))
        }
    }
}

// The term that a symbol is: a parameter, the hole or a word.
#[tactic(auto, using(crate::proofs::LiteralSteps::hole_read, crate::proofs::LiteralSteps::word_read))]
fn read_symbol<E: Expr>(alloc: Global, e: &E, names: &RuleNames) -> Result<ReadTerm, Fault>
    ensures read { Answers (only_tree result)
        (symbol_term (E.tree e.now) (term_named names.now (text_of (E.tree e.now)))) }
    ensures measured { IfOk result IsMeasured }
{
    let text = e.text();
    match names.term(text) {
        Some(k) => Ok(leaf(alloc, Head::Param(k), Linears::new(alloc))),
        None => {
            if text == b"_".as_slice() {
                Ok(leaf(alloc, Head::Hole, Linears::new(alloc)))
            } else {
                read_word(alloc, e)
            }
        }
    }
}

// The term that a numeral is.
fn read_numeral<E: Expr>(alloc: Global, e: &E) -> Result<ReadTerm, Fault>
    ensures read { Answers (only_tree result)
        (numeral_term (E.tree e.now) (small_number (text_of (E.tree e.now)))) }
    ensures measured { IfOk result IsMeasured }
{
    match small_numeral(e.text()) {
        Some(n) => Ok(leaf(alloc, Head::Numeral(n.cast_unsigned()), Linears::new(alloc))),
        None => Err(refusal_at(e, Reason::LiteralTooWide)),
    }
}

/// The term that an atom spells, or its fault: a parameter of terms or of lists of terms, `true`, `false`,
/// the hole `_`, a numeral, `#b` or `#x` with digits.
///
/// Errors are `UnknownSymbol` at another symbol, `LiteralTooWide` at a numeral above `2^127 - 1` and at a
/// literal of a value above `2^128 - 1`, `BadForm` at another atom, and want of memory.
pub fn read_atom<E: Expr>(alloc: Global, e: &E, names: &RuleNames) -> Result<ReadTerm, Fault>
    requires { is_list_kind (kind_of (E.tree e.now)) ≡ false }
    ensures read { Answers (only_tree result)
        (atom_by names.now (E.tree e.now) (kind_of (E.tree e.now))) }
    ensures measured { IfOk result IsMeasured }
{
    let digits = e.text();
    match e.kind() {
        Kind::Symbol => read_symbol(alloc, e, names),
        Kind::Numeral => read_numeral(alloc, e),
        Kind::Binary => {
            bits_literal(alloc, e, number_of_digits(2, digits), digits.len() as u128)
        }
        Kind::Hex => {
            let width = BITS_OF_HEX_DIGIT * (digits.len() as u128);
            bits_literal(alloc, e, number_of_digits(16, digits), width)
        }
        Kind::Keyword | Kind::Decimal | Kind::Quoted | Kind::List => {
            Err(refusal_at(e, Reason::BadForm))
        }
    }
}
