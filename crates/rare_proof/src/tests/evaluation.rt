//! Steps by evaluation, by named rows.
ghost use Rattle.std.specs.Prelude.{◌≡◌, ◌<◌, ◌≤◌, length, IfOk};
ghost use Rattle.rare_sort.specs.DeclaredSorts.{IsSymbol};
ghost use Rattle.rare_sort.specs.Families.{family};

use super::{By, Row, first_wrong};
use crate::StepFault;
use rare_linear::Linear;
use rare_rule::Book;
use rare_term::{Head, Plain, Sort, TermError, TermId, Terms};
use std::alloc::Global;
use std::test::Fail;

// A bit vector of width 4.
fn word<T: Terms>(alloc: Global, terms: &mut T, number: u128) -> Result<TermId, TermError>
    ensures id { IfOk result (λ id. id.0 < length (T.state terms.new).trees) }
    ensures grows { length (T.state terms.old).trees ≤ length (T.state terms.new).trees }
    ensures declared { (T.state terms.new).declared ≡ (T.state terms.old).declared }
{
    let width = Linear::constant(alloc, 4);
    terms.make(Head::Bits(number), &[width], &[])
}

// An application to two bit vectors of width 4.
fn on_words<T: Terms>(
    alloc: Global,
    terms: &mut T,
    head: Head,
    left: u128,
    right: u128,
) -> Result<TermId, TermError>
    requires { IsSymbol (length (T.state terms.old).declared.symbols) (family head) }
    ensures { IfOk result (λ id. id.0 < length (T.state terms.new).trees) }
{
    let left = word(alloc, terms, left)?;
    let right = word(alloc, terms, right)?;
    terms.make(head, &[], &[left, right])
}

const ONE: usize = 0;

const EIGHT: usize = 1;

const FIFTEEN: usize = 2;

const SDIV: usize = 3;

const SMOD: usize = 4;

const SMOD_BY_ZERO: usize = 5;

const SDIV_BY_ZERO: usize = 6;

const UDIV_BY_ZERO: usize = 7;

// #b0001, #b1000, #b1111, the applications of the table, and the last of them, which has the greatest id.
fn words<T: Terms>(alloc: Global, terms: &mut T) -> Result<([TermId; 8], TermId), TermError>
    ensures { IfOk result (λ found. found.1.0 < length (T.state terms.new).trees) }
{
    let one = word(alloc, terms, 0b0001)?;
    let eight = word(alloc, terms, 0b1000)?;
    let fifteen = word(alloc, terms, 0b1111)?;
    let sdiv = on_words(alloc, terms, Head::BvSdiv, 0b1000, 0b1111)?;
    let smod = on_words(alloc, terms, Head::BvSmod, 0b1111, 0b1000)?;
    let smod_by_zero = on_words(alloc, terms, Head::BvSmod, 0b1000, 0b0000)?;
    let sdiv_by_zero = on_words(alloc, terms, Head::BvSdiv, 0b1000, 0b0000)?;
    let last = on_words(alloc, terms, Head::BvUdiv, 0b1111, 0b0000)?;
    let ids = [
        one,
        eight,
        fifteen,
        sdiv,
        smod,
        smod_by_zero,
        sdiv_by_zero,
        last,
    ];
    Ok((ids, last))
}

const SIGNED_QUOTIENT: Row = Row {
    name: "signed quotient",
    left: SDIV,
    right: EIGHT,
    by: By::Evaluate,
    premises: &[],
    want: Ok(0),
};

const VALUES: [Row; 7] = [
    SIGNED_QUOTIENT,
    Row {
        name: "signed remainder",
        left: SMOD,
        right: FIFTEEN,
        want: Ok(1),
        ..SIGNED_QUOTIENT
    },
    Row {
        name: "signed remainder by zero",
        left: SMOD_BY_ZERO,
        want: Ok(2),
        ..SIGNED_QUOTIENT
    },
    Row {
        name: "signed quotient by zero",
        left: SDIV_BY_ZERO,
        right: ONE,
        want: Ok(3),
        ..SIGNED_QUOTIENT
    },
    Row {
        name: "unsigned quotient by zero",
        left: UDIV_BY_ZERO,
        right: FIFTEEN,
        want: Ok(4),
        ..SIGNED_QUOTIENT
    },
    Row {
        name: "quotients of two values",
        right: SDIV_BY_ZERO,
        want: Err(StepFault::OtherValue),
        ..SIGNED_QUOTIENT
    },
    Row {
        name: "evaluation with a premise",
        premises: &[0],
        want: Err(StepFault::PremiseCount),
        ..SIGNED_QUOTIENT
    },
];

#[test]
fn bit_vectors_are_evaluated(rt: HostRuntime) -> Result<(), Fail> {
    let alloc = rt.alloc();
    let mut terms = Plain::new(alloc);
    let (ids, last) = words(alloc, &mut terms)?;
    assert_eq!(rt;
        first_wrong(alloc, &mut terms, &Book::new(alloc), &ids, last, &VALUES),
        "none"
    );
    assert_eq!(rt; StepFault::OtherValue.word(), "OtherValue");
    Ok(())
}

const SYMBOL: usize = 0;

const ZERO: usize = 1;

const NUMERAL_ONE: usize = 2;

const PAST_THE_LIMIT: usize = 3;

// A symbol, 0, 1 and 2^127 - 1 + 1, and the last of them, which has the greatest id.
fn numbers<T: Terms>(terms: &mut T) -> Result<([TermId; 4], TermId), TermError>
    requires { 0 < length (T.state terms.old).declared.symbols }
    ensures { IfOk result (λ found. found.1.0 < length (T.state terms.new).trees) }
{
    let symbol = terms.make(Head::Free(0), &[], &[])?;
    let zero = terms.make(Head::Numeral(0), &[], &[])?;
    let one = terms.make(Head::Numeral(1), &[], &[])?;
    let greatest = terms.make(Head::Numeral(i128::MAX as u128), &[], &[])?;
    if one.0 > greatest.0 {
        return Err(TermError::Memory);
    }
    let sum = terms.make(Head::Add, &[], &[greatest, one])?;
    Ok(([symbol, zero, one, sum], sum))
}

const OF_A_SYMBOL: Row = Row {
    name: "a symbol",
    left: SYMBOL,
    right: SYMBOL,
    by: By::Evaluate,
    premises: &[],
    want: Err(StepFault::NoValue),
};

const NO_VALUES: [Row; 7] = [
    OF_A_SYMBOL,
    Row {
        name: "a number and a symbol",
        left: ZERO,
        ..OF_A_SYMBOL
    },
    Row {
        name: "a sum past the limit",
        left: PAST_THE_LIMIT,
        right: ZERO,
        ..OF_A_SYMBOL
    },
    Row {
        name: "two numbers",
        left: ZERO,
        right: NUMERAL_ONE,
        want: Err(StepFault::OtherValue),
        ..OF_A_SYMBOL
    },
    Row {
        name: "a premise before a symbol",
        premises: &[0],
        want: Err(StepFault::NoSuchStep),
        ..OF_A_SYMBOL
    },
    Row {
        name: "one number",
        left: ZERO,
        right: ZERO,
        want: Ok(0),
        ..OF_A_SYMBOL
    },
    Row {
        name: "a symbol with a premise",
        premises: &[0],
        want: Err(StepFault::PremiseCount),
        ..OF_A_SYMBOL
    },
];

#[test]
fn sides_without_values_are_refused(rt: HostRuntime) -> Result<(), Fail> {
    let alloc = rt.alloc();
    let mut terms = Plain::new(alloc);
    terms.declare_symbol(&[], &Sort::Int)?;
    let (ids, last) = numbers(&mut terms)?;
    assert_eq!(rt;
        first_wrong(alloc, &mut terms, &Book::new(alloc), &ids, last, &NO_VALUES),
        "none"
    );
    assert_eq!(rt; StepFault::NoValue.word(), "NoValue");
    Ok(())
}
