//! Literals of bit vectors.
ghost use Rattle.std.specs.Prelude.{◌≡◌, ◌<◌, ◌^◌, length, nat_lt, Ok, IfOk};
ghost use Rattle.rare_scope.specs.Answers.{Answers};
ghost use Rattle.rare_scope.specs.LinearText.{widths_of};
ghost use Rattle.rare_scope.specs.Names.{names_of, AreMeant};
ghost use Rattle.rare_scope.specs.Numbers.{wide_number};
ghost use Rattle.rare_scope.specs.Reading.{go_on};
ghost use Rattle.rare_sexpr.specs.Tree.{items_of};
ghost use Rattle.rare_sort.specs.DeclaredSorts.{widths, AreNamed, IsSymbol};
ghost use Rattle.rare_sort.specs.Families.{family};
ghost use Rattle.rare_term.specs.Literals.{IsGiven};
ghost use Rattle.rare_operators.specs.LiteralText as text;
ghost use Rattle.rare_operators.specs.LiteralText.{are_digits, binary_literal, decimal_literal, digits_behind, hexadecimal_literal, linear_literal, numeral_at};
ghost use Rattle.rare_term.specs.State.{Grows};
ghost use Rattle.rare_operators.specs.TermAnswers.{AnswersTerm};

use rare_base::{Fault, Reason};
use rare_bindings::Bindings;
use rare_linear::Linear;
use rare_scope::{
    is_numeral, is_symbol, number_of_digits, read_linear_over, refusal_at, small_numeral,
};
use rare_sexpr::Expr;
use rare_term::{Head, TermError, TermId, Terms};
use std::alloc::Global;

/// How many bits a hexadecimal digit has.
const BITS_OF_HEX_DIGIT: u128 = 4;

// The literal of an operator with its indices, which `e` spells, or its refusal.
fn literal_at<E: Expr, T: Terms>(
    e: &E,
    head: Head,
    indices: &[Linear],
    terms: &mut T,
) -> Result<TermId, Fault>
    requires symbol { IsSymbol (length (T.state terms.old).declared.symbols) (family head) }
    requires names { AreNamed (widths (T.state terms.old).declared) indices.now }
    requires bits { IsGiven head indices.now }
    ensures read { AnswersTerm (T.state terms.new).trees result
        (text.literal_at (T.state terms.old).declared (E.tree e.now) head indices.now) }
    ensures grows { Grows (T.state terms.old) (T.state terms.new) }
{
    match terms.make(head, indices, &[]) {
        Ok(id) => Ok(id),
        Err(TermError::Memory) => Err(Fault::Memory),
        Err(TermError::IllSorted) => Err(refusal_at(e, Reason::IllSorted)),
        Err(TermError::TooLarge) => Err(refusal_at(e, Reason::LiteralTooWide)),
        Err(TermError::TooManyArgs) | Err(TermError::TooDeep) => {
            Err(refusal_at(e, Reason::TermLimit))
        }
    }
}

/// Whether a value is below `2^width`.
pub fn is_below_power(value: u128, width: u128) -> bool
    ensures { result ≡ nat_lt value (2 ^ width) }
{
    if width >= 128 {
        return true;
    }
    value < (1u128 << (width as u32))
}

// The literal of this value, where it is below `2^width`.
fn bits_of_value<E: Expr, T: Terms>(
    alloc: Global,
    e: &E,
    value: Option<u128>,
    width: u128,
    terms: &mut T,
) -> Result<TermId, Fault>
    requires { width < 2 ^ 127 }
    ensures read { AnswersTerm (T.state terms.new).trees result
        (text.bits_of_value (T.state terms.old).declared (E.tree e.now) value width) }
    ensures grows { Grows (T.state terms.old) (T.state terms.new) }
{
    let Some(value) = value else {
        return Err(refusal_at(e, Reason::LiteralTooWide));
    };
    if !is_below_power(value, width) {
        return Err(refusal_at(e, Reason::LiteralTooWide));
    }
    let indices = [Linear::constant(alloc, width as i128)];
    literal_at(e, Head::Bits(value), &indices, terms)
}

// The literal of a value, where it is below `2^128`, and a width.
fn bits_literal<E: Expr, T: Terms>(
    alloc: Global,
    e: &E,
    value: Option<u128>,
    width: u128,
    terms: &mut T,
) -> Result<TermId, Fault>
    requires { width < 2 ^ 127 }
    ensures read { AnswersTerm (T.state terms.new).trees result
        (text.bits_literal (T.state terms.old).declared (E.tree e.now) value width) }
    ensures grows { Grows (T.state terms.old) (T.state terms.new) }
{
    if width == 0 {
        Err(refusal_at(e, Reason::IllSorted))
    } else {
        bits_of_value(alloc, e, value, width, terms)
    }
}

/// The id of the literal that `#b` with its digits spells, or its fault.
///
/// Errors are `LiteralTooWide` where the value is not below `2^128`, and want of memory.
pub fn read_binary_literal<E: Expr, T: Terms>(
    alloc: Global,
    e: &E,
    terms: &mut T,
) -> Result<TermId, Fault>
    ensures read { AnswersTerm (T.state terms.new).trees result
        (binary_literal (T.state terms.old).declared (E.tree e.now)) }
    ensures grows { Grows (T.state terms.old) (T.state terms.new) }
{
    let digits = e.text();
    let width = digits.len() as u128;
    bits_literal(alloc, e, number_of_digits(2, digits), width, terms)
}

/// The id of the literal that `#x` with its digits spells, each of four bits, or its fault.
///
/// Errors are `LiteralTooWide` where the value is not below `2^128`, and want of memory.
pub fn read_hexadecimal_literal<E: Expr, T: Terms>(
    alloc: Global,
    e: &E,
    terms: &mut T,
) -> Result<TermId, Fault>
    ensures read { AnswersTerm (T.state terms.new).trees result
        (hexadecimal_literal (T.state terms.old).declared (E.tree e.now)) }
    ensures grows { Grows (T.state terms.old) (T.state terms.new) }
{
    let digits = e.text();
    let width = BITS_OF_HEX_DIGIT * (digits.len() as u128);
    bits_literal(alloc, e, number_of_digits(16, digits), width, terms)
}

// Whether there are digits, and nothing else.
fn is_digits(text: &[u8]) -> bool
    ensures { result ≡ are_digits text.now }
{
    if text.is_empty() {
        return false;
    }
    for byte in text {
        if !byte.is_ascii_digit() {
            return false;
        }
    }
    true
}

/// The number behind `bv` in a symbol, or none where it is above `2^128 - 1`. The error is `BadForm` at
/// another expression.
pub fn value_behind<E: Expr>(e: &E) -> Result<Option<u128>, Fault>
    ensures { Answers result
        (go_on (digits_behind (E.tree e.now)) (λ digits. Ok (wide_number 10 digits))) }
{
    if !is_symbol(e) {
        return Err(refusal_at(e, Reason::BadForm));
    }
    match e.text().strip_prefix(b"bv".as_slice()) {
        Some(digits) if is_digits(digits) => Ok(number_of_digits(10, digits)),
        _ => Err(refusal_at(e, Reason::BadForm)),
    }
}

/// The number that a numeral spells, which is below `2^127`. Errors are `BadForm` at another expression,
/// and `TermLimit` at a greater numeral.
pub fn numeral_of<E: Expr>(e: &E) -> Result<u128, Fault>
    ensures read { Answers result (numeral_at (E.tree e.now)) }
    ensures small { IfOk result (λ n. n < 2 ^ 127) }
{
    if !is_numeral(e) {
        return Err(refusal_at(e, Reason::BadForm));
    }
    match small_numeral(e.text()) {
        Some(n) => Ok(n.cast_unsigned()),
        None => Err(refusal_at(e, Reason::TermLimit)),
    }
}

/// The id of the literal that the list `(_ bvV W)` spells, or the first fault.
///
/// Errors are `BadForm` at a list of another number of items, or at the first item behind `_` of another
/// form; `TermLimit` at a width above `2^127 - 1`; at the list `IllSorted` where the width is 0, then
/// `LiteralTooWide` where the value is not below `2^W` and `2^128`; and want of memory.
pub fn read_decimal_literal<E: Expr, T: Terms>(
    alloc: Global,
    e: &E,
    terms: &mut T,
) -> Result<TermId, Fault>
    ensures read { AnswersTerm (T.state terms.new).trees result
        (decimal_literal (T.state terms.old).declared (E.tree e.now) (items_of (E.tree e.now))) }
    ensures grows { Grows (T.state terms.old) (T.state terms.new) }
{
    if e.len() != 3 {
        return Err(refusal_at(e, Reason::BadForm));
    }
    let literal = e.item(1);
    let numeral = e.item(2);
    match value_behind(literal) {
        Ok(value) => match numeral_of(numeral) {
            Ok(width) => bits_literal(alloc, e, value, width, terms),
            Err(fault) => Err(fault),
        },
        Err(fault) => Err(fault),
    }
}

/// The id of the literal that the list `(bv E E)` spells, of a value modulo `2^width` and a width, or the
/// first fault.
///
/// Errors are `BadForm` at a list of another number of items; those of `read_linear`; at the list
/// `IllSorted` where the width is not entailed to be at least 1, then `LiteralTooWide` where the width is a
/// number above 128 and the value a negative number; and want of memory.
pub fn read_linear_literal<E: Expr, T: Terms>(
    alloc: Global,
    e: &E,
    names: &Bindings,
    terms: &mut T,
) -> Result<TermId, Fault>
    requires { AreMeant (T.state terms.old) names.now }
    ensures read { AnswersTerm (T.state terms.new).trees result
        (linear_literal (T.state terms.old).declared
        (widths_of (names_of (T.state terms.old).trees names.now))
        (E.tree e.now) (items_of (E.tree e.now))) }
    ensures grows { Grows (T.state terms.old) (T.state terms.new) }
{
    if e.len() != 3 {
        return Err(refusal_at(e, Reason::BadForm));
    }
    let value = e.item(1);
    let width = e.item(2);
    match read_linear_over(alloc, value, names) {
        Ok(value) => match read_linear_over(alloc, width, names) {
            Ok(width) => literal_at(e, Head::Literal, &[value, width], terms),
            Err(fault) => Err(fault),
        },
        Err(fault) => Err(fault),
    }
}
