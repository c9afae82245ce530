//! Admission, instances by named rows, and copies of arguments.
ghost use Rattle.std.specs.Prelude.{IfOk};
ghost use Rattle.rare_rule.specs.Rules.{IsInForm};
ghost use Rattle.rare_term.specs.State.{no_terms};

mod bench;
mod parts;
mod rules;

use self::bench::{Asked, Given, Step, ready};
use super::*;
use rare_linear::Constraints;
use rare_rule::{Params, Rule, Typed};
use rare_sort::{Head, Sort, TermId};
use rare_term::Plain;
use rare_type::type_rule;
use std::alloc::Global;
use std::test::Fail;

const P: &[Step] = &[(Head::Free(0), &[], 0)];

const NOT_P: &[Step] = &[(Head::Free(0), &[], 0), (Head::Not, &[], 1)];

const TRUE: &[Step] = &[(Head::True, &[], 0)];

const THREE: &[Step] = &[(Head::Numeral(3), &[], 0)];

/// 5 of 8 bits, of 4 and of 200.
const OCTET: &[Step] = &[(Head::Bits(5), &[8], 0)];

const NIBBLE: &[Step] = &[(Head::Bits(5), &[4], 0)];

const WIDE: &[Step] = &[(Head::Literal, &[5, 200], 0)];

/// What a row says, the arguments, the part that is asked for, and its term or its fault.
type Row = (
    &'static str,
    &'static [Given],
    Asked,
    Result<&'static [Step], InstFault>,
);

/// Rows of `(and ps true qs)` to `(and ps qs)`.
const LISTS: [Row; 5] = [
    (
        "lists of the left side are spliced in",
        &[Given::List(&[P]), Given::List(&[NOT_P, P])],
        Asked::Left,
        Ok(&[
            (Head::Free(0), &[], 0),
            (Head::True, &[], 0),
            (Head::Free(0), &[], 0),
            (Head::Not, &[], 1),
            (Head::Free(0), &[], 0),
            (Head::And, &[], 4),
        ]),
    ),
    (
        "lists of the right side are spliced in",
        &[Given::List(&[P]), Given::List(&[NOT_P])],
        Asked::Right,
        Ok(&[
            (Head::Free(0), &[], 0),
            (Head::Free(0), &[], 0),
            (Head::Not, &[], 1),
            (Head::And, &[], 2),
        ]),
    ),
    (
        "a left side with lists and one argument",
        &[Given::List(&[]), Given::List(&[])],
        Asked::Left,
        Err(InstFault::LeftTooShort),
    ),
    (
        "one argument is left of the right side",
        &[Given::List(&[]), Given::List(&[NOT_P])],
        Asked::Right,
        Ok(NOT_P),
    ),
    (
        "no argument is left of the right side",
        &[Given::List(&[]), Given::List(&[])],
        Asked::Right,
        Ok(TRUE),
    ),
];

/// Rows of `(and p q)` to `q`, where `p`.
const PREMISES: [Row; 2] = [
    (
        "a premise",
        &[Given::Term(NOT_P), Given::Term(P)],
        Asked::Premise(0),
        Ok(NOT_P),
    ),
    (
        "the right side of a rule with a premise",
        &[Given::Term(NOT_P), Given::Term(P)],
        Asked::Right,
        Ok(P),
    ),
];

/// Rows of `(not (and p q ps))` to `(not (and q ps))`, in `(or (not p) _)`.
const CONTEXTS: [Row; 1] = [(
    "the right side stands in its context",
    &[Given::Term(P), Given::Term(NOT_P), Given::List(&[])],
    Asked::Right,
    Ok(&[
        (Head::Free(0), &[], 0),
        (Head::Not, &[], 1),
        (Head::Free(0), &[], 0),
        (Head::Not, &[], 1),
        (Head::Not, &[], 1),
        (Head::Or, &[], 2),
    ]),
)];

/// Rows of `(+ k k ks)` to `(* (+ ks) k)`.
const SUMS: [Row; 1] = [(
    "a sum of nothing is 0",
    &[Given::Term(THREE), Given::List(&[])],
    Asked::Right,
    Ok(&[
        (Head::Numeral(0), &[], 0),
        (Head::Numeral(3), &[], 0),
        (Head::Mul, &[], 2),
    ]),
)];

/// Rows of `(bvand x x xs)` to `(bvor (bvand xs) (bvmul xs) x)`, of words of 8 bits or more.
const WORDS: [Row; 6] = [
    (
        "nothing by bvand is all ones, and by bvmul 1",
        &[Given::Number(8), Given::Term(OCTET), Given::List(&[])],
        Asked::Right,
        Ok(&[
            (Head::Bits(255), &[8], 0),
            (Head::Bits(1), &[8], 0),
            (Head::Bits(5), &[8], 0),
            (Head::BvOr, &[], 3),
        ]),
    ),
    (
        "one word by bvand and by bvmul",
        &[Given::Number(8), Given::Term(OCTET), Given::List(&[OCTET])],
        Asked::Right,
        Ok(&[
            (Head::Bits(5), &[8], 0),
            (Head::Bits(5), &[8], 0),
            (Head::Bits(5), &[8], 0),
            (Head::BvOr, &[], 3),
        ]),
    ),
    (
        "all ones of 200 bits",
        &[Given::Number(200), Given::Term(WIDE), Given::List(&[])],
        Asked::Right,
        Err(InstFault::Limit),
    ),
    (
        "a width of 0",
        &[Given::Number(0), Given::Term(OCTET), Given::List(&[])],
        Asked::Left,
        Err(InstFault::ArgMissorted(1)),
    ),
    (
        "a word of another width",
        &[Given::Number(9), Given::Term(OCTET), Given::List(&[])],
        Asked::Left,
        Err(InstFault::ArgMissorted(2)),
    ),
    (
        "a width below the bound",
        &[Given::Number(4), Given::Term(NIBBLE), Given::List(&[])],
        Asked::Left,
        Err(InstFault::Unentailed(1)),
    ),
];

/// Rows of `(= (concat xs z z) (concat xs z z))` to `(= (concat xs) (concat xs))`.
const JOINS: [Row; 2] = [
    (
        "a concat of one word",
        &[Given::Term(OCTET), Given::List(&[WIDE])],
        Asked::Right,
        Ok(&[
            (Head::Literal, &[5, 200], 0),
            (Head::Literal, &[5, 200], 0),
            (Head::Equal, &[], 2),
        ]),
    ),
    (
        "a concat of nothing",
        &[Given::Term(OCTET), Given::List(&[])],
        Asked::Right,
        Err(InstFault::EmptyConcat),
    ),
];

fn is_same(
    found: Option<Result<TermId, InstFault>>,
    want: Option<Result<TermId, InstFault>>,
) -> bool {
    match (found, want) {
        (Some(Ok(id)), Some(Ok(other))) => id.0 == other.0,
        (Some(Err(fault)), Some(Err(other))) => fault == other,
        _ => false,
    }
}

/// Whether the part of the rule's instance is the row's term, or has the row's fault.
fn is_right(alloc: Global, rule: &Typed, row: &Row) -> Result<bool, Fail> {
    let mut bench = ready(alloc, Plain::new(alloc))?;
    let Some(args) = bench.args(row.1) else {
        return Ok(false);
    };
    let want = match row.3 {
        Ok(steps) => match bench.built(steps) {
            Some(id) => Some(Ok(id)),
            None => None,
        },
        Err(fault) => Some(Err(fault)),
    };
    Ok(is_same(bench.answer(rule, args.items(), row.2), want))
}

/// The first row that is answered otherwise.
fn first_wrong(alloc: Global, rule: Rule, rows: &[Row]) -> Result<Option<&'static str>, Fail>
    requires { IsInForm rule }
{
    let typed = type_rule(alloc, rule)?;
    for row in rows {
        if !is_right(alloc, &typed, row)? {
            return Ok(Some(row.0));
        }
    }
    Ok(None)
}

#[test]
#[tactic(auto, using(crate::proofs::TestForms::and_true_form, crate::proofs::TestForms::and_cond_form, crate::proofs::TestForms::and_de_morgan_form))]
fn parts_of_truths(rt: HostRuntime) -> Result<(), Fail> {
    let alloc = rt.alloc();
    assert_eq!(rt; first_wrong(alloc, rules::and_true(alloc)?, &LISTS)?, None);
    assert_eq!(rt;
        first_wrong(alloc, rules::and_cond(alloc)?, &PREMISES)?,
        None
    );
    assert_eq!(rt;
        first_wrong(alloc, rules::and_de_morgan(alloc)?, &CONTEXTS)?,
        None
    );
    Ok(())
}

#[test]
#[tactic(auto, using(crate::proofs::TestForms::sum_of_list_form, crate::proofs::TestForms::words_of_list_form, crate::proofs::TestForms::joining_form))]
fn sides_of_numbers_and_words(rt: HostRuntime) -> Result<(), Fail> {
    let alloc = rt.alloc();
    assert_eq!(rt;
        first_wrong(alloc, rules::sum_of_list(alloc)?, &SUMS)?,
        None
    );
    assert_eq!(rt;
        first_wrong(alloc, rules::words_of_list(alloc)?, &WORDS)?,
        None
    );
    assert_eq!(rt; first_wrong(alloc, rules::joining(alloc)?, &JOINS)?, None);
    Ok(())
}

#[test]
fn a_rule_without_names_admits_no_arguments(rt: HostRuntime) -> Result<(), Fail> {
    let alloc = rt.alloc();
    let truth = parts::leaf(alloc, Head::True);
    let same = parts::leaf(alloc, Head::True);
    let (params, bounds) = (Params::new(alloc), Constraints::new(alloc));
    let rule = parts::plain(alloc, b"r", params, bounds, truth, same)?;
    assert_eq!(rt;
        first_wrong(alloc, rule, &[("no arguments", &[], Asked::Left, Ok(TRUE))])?,
        None
    );
    assert!(rt; matches!(Arg::Sort(Sort::Int).copy(alloc)?, Arg::Sort(Sort::Int)));
    Ok(())
}
