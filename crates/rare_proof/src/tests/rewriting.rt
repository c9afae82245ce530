//! Steps by rules of a book, by named rows.
ghost use Rattle.std.specs.Prelude.{◌<◌, length, IfOk};

use super::ArgRow::{Term, Width};
use super::books::book;
use super::{By, Row, first_wrong};
use crate::StepFault;
use rare_linear::Linear;
use rare_term::{Head, Plain, TermError, TermId, Terms};
use std::alloc::Global;
use std::test::Fail;

// `not` of a term that is at most the last; want of memory for others.
fn not<T: Terms>(terms: &mut T, a: TermId, last: TermId) -> Result<TermId, TermError>
    requires { last.0 < length (T.state terms.old).trees }
    ensures { IfOk result (λ id. id.0 < length (T.state terms.new).trees) }
{
    if a.0 > last.0 {
        return Err(TermError::Memory);
    }
    terms.make(Head::Not, &[], &[a])
}

// `and` of two terms that are at most the last; want of memory for others.
fn and<T: Terms>(terms: &mut T, a: TermId, b: TermId, last: TermId) -> Result<TermId, TermError>
    requires { last.0 < length (T.state terms.old).trees }
    ensures { IfOk result (λ id. id.0 < length (T.state terms.new).trees) }
{
    if a.0 > last.0 || b.0 > last.0 {
        return Err(TermError::Memory);
    }
    terms.make(Head::And, &[], &[a, b])
}

// The bit vector 1 of this width.
fn word<T: Terms>(alloc: Global, terms: &mut T, width: i128) -> Result<TermId, TermError>
    ensures { IfOk result (λ id. id.0 < length (T.state terms.new).trees) }
{
    let width = Linear::constant(alloc, width);
    terms.make(Head::Bits(1), &[width], &[])
}

const YES: usize = 0;

const NO: usize = 1;

const YES_AND_NO: usize = 2;

const NO_AND_YES: usize = 3;

const NOT_YES: usize = 4;

const NOT_NO: usize = 5;

const NUMBER: usize = 6;

const WORD: usize = 7;

const WIDE: usize = 8;

// The terms of the table, and the last of them, which has the greatest id.
fn terms_of_rows<T: Terms>(alloc: Global, terms: &mut T) -> Result<([TermId; 9], TermId), TermError>
    ensures { IfOk result (λ found. found.1.0 < length (T.state terms.new).trees) }
{
    let yes = terms.make(Head::True, &[], &[])?;
    let no = terms.make(Head::False, &[], &[])?;
    let yes_and_no = and(terms, yes, no, no)?;
    let no_and_yes = and(terms, no, yes, yes_and_no)?;
    let not_yes = not(terms, yes, no_and_yes)?;
    let not_no = not(terms, no, not_yes)?;
    let number = terms.make(Head::Numeral(1), &[], &[])?;
    let short = word(alloc, terms, 4)?;
    let wide = word(alloc, terms, i128::MAX)?;
    let ids = [
        yes, no, yes_and_no, no_and_yes, not_yes, not_no, number, short, wide,
    ];
    Ok((ids, wide))
}

const YES_IS_YES: Row = Row {
    name: "true = true by refl",
    left: YES,
    right: YES,
    by: By::Refl,
    premises: &[],
    want: Ok(0),
};

const SWAP: Row = Row {
    name: "a step by a rule",
    left: YES_AND_NO,
    right: NO_AND_YES,
    by: By::Rule(0, &[Term(YES), Term(NO)]),
    premises: &[],
    want: Ok(1),
};

const SWAPS: [Row; 8] = [
    YES_IS_YES,
    Row {
        name: "a rule past the book",
        by: By::Rule(3, &[Term(YES), Term(NO)]),
        want: Err(StepFault::NoSuchRule),
        ..SWAP
    },
    Row {
        name: "an argument is missing",
        by: By::Rule(0, &[Term(YES)]),
        want: Err(StepFault::ArgCount),
        ..SWAP
    },
    Row {
        name: "an argument of another sort",
        by: By::Rule(0, &[Term(YES), Term(NUMBER)]),
        want: Err(StepFault::ArgMissorted(2)),
        ..SWAP
    },
    Row {
        name: "another left side",
        left: NO_AND_YES,
        want: Err(StepFault::OtherLeft),
        ..SWAP
    },
    Row {
        name: "a premise too many",
        premises: &[0],
        want: Err(StepFault::PremiseCount),
        ..SWAP
    },
    Row {
        name: "another right side",
        right: YES_AND_NO,
        want: Err(StepFault::OtherRight),
        ..SWAP
    },
    SWAP,
];

const REFUTE: Row = Row {
    name: "a step by a rule with a premise",
    left: NOT_YES,
    right: NO,
    by: By::Rule(1, &[Term(YES)]),
    premises: &[0],
    want: Ok(2),
};

const REFUTE_NO: Row = Row {
    name: "a premise of another term",
    left: NOT_NO,
    by: By::Rule(1, &[Term(NO)]),
    want: Err(StepFault::OtherPremise),
    ..REFUTE
};

const PREMISES: [Row; 6] = [
    YES_IS_YES,
    Row {
        name: "false = false by refl",
        left: NO,
        right: NO,
        want: Ok(1),
        ..YES_IS_YES
    },
    Row {
        name: "a premise is missing",
        premises: &[],
        want: Err(StepFault::PremiseCount),
        ..REFUTE
    },
    REFUTE_NO,
    Row {
        name: "a premise that says false",
        premises: &[1],
        ..REFUTE_NO
    },
    REFUTE,
];

const LOW: Row = Row {
    name: "a constraint that does not follow",
    left: WORD,
    right: WORD,
    by: By::Rule(2, &[Width(4), Term(WORD)]),
    premises: &[],
    want: Err(StepFault::Unentailed(1)),
};

const LIMITS: [Row; 2] = [
    LOW,
    Row {
        name: "a width beyond the limit",
        by: By::Rule(2, &[Width(i128::MAX), Term(WIDE)]),
        want: Err(StepFault::Limit),
        ..LOW
    },
];

#[test]
fn rules_of_a_book(rt: HostRuntime) -> Result<(), Fail> {
    let alloc = rt.alloc();
    let mut terms = Plain::new(alloc);
    let (ids, last) = terms_of_rows(alloc, &mut terms)?;
    let book = book(alloc)?;
    assert_eq!(rt;
        first_wrong(alloc, &mut terms, &book, &ids, last, &SWAPS),
        "none"
    );
    assert_eq!(rt; StepFault::ArgMissorted(2).word(), "ArgMissorted");
    assert_eq!(rt; StepFault::ArgMissorted(2).number(), Some(2));
    Ok(())
}

#[test]
fn premises_and_limits(rt: HostRuntime) -> Result<(), Fail> {
    let alloc = rt.alloc();
    let mut terms = Plain::new(alloc);
    let (ids, last) = terms_of_rows(alloc, &mut terms)?;
    let book = book(alloc)?;
    assert_eq!(rt;
        first_wrong(alloc, &mut terms, &book, &ids, last, &PREMISES),
        "none"
    );
    let (ids, last) = terms_of_rows(alloc, &mut terms)?;
    assert_eq!(rt;
        first_wrong(alloc, &mut terms, &book, &ids, last, &LIMITS),
        "none"
    );
    Ok(())
}
