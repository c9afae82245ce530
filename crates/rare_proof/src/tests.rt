//! Steps that are added and steps that are refused, by named rows over one proof.
ghost use Rattle.std.specs.Prelude.{◌<◌, length, IfOk};
ghost use Rattle.rare_term.specs.State.{Grows};
ghost use Rattle.rare_inst.specs.Answers.{AreGiven, IsGiven};
ghost use Rattle.rare_proof.specs.Proofs.{IsProofOver, IsRuleOf};

mod books;
mod evaluation;
mod rewriting;

use crate::{AddError, Proof, Sides, Step, StepFault, StepRule};
use rare_base::Numbers;
use rare_inst::{Arg, Args};
use rare_linear::Linear;
use rare_rule::Book;
use rare_term::{Head, Plain, TermError, TermId, Terms};
use std::alloc::{AllocError, Global};
use std::test::Fail;

/// An argument: a width, or the term at a place of a list of terms.
#[derive(Clone, Copy, Debug)]
enum ArgRow {
    Width(i128),
    Term(usize),
}

/// The rule of a row: one of every proof, or a rule of the book at arguments.
#[derive(Clone, Copy, Debug)]
enum By {
    Refl,
    Cong,
    Trans,
    Evaluate,
    Rule(usize, &'static [ArgRow]),
}

/// A step, whose sides are places of a list of terms, and the place of its equation or its fault.
#[derive(Clone, Copy, Debug)]
struct Row {
    name: &'static str,
    left: usize,
    right: usize,
    by: By,
    premises: &'static [usize],
    want: Result<usize, StepFault>,
}

// The term at a place of a list of terms, one that is at most the last; want of memory for others.
fn term_at<T: Terms>(
    terms: &T,
    ids: &[TermId],
    last: TermId,
    place: usize,
) -> Result<TermId, AllocError>
    requires { last.0 < length (T.state terms.now).trees }
    ensures { IfOk result (λ id. id.0 < length (T.state terms.now).trees) }
{
    if place < ids.len() && ids[place].0 <= last.0 {
        Ok(ids[place])
    } else {
        Err(AllocError)
    }
}

fn argument<T: Terms>(
    alloc: Global,
    terms: &T,
    ids: &[TermId],
    last: TermId,
    row: ArgRow,
) -> Result<Arg, AllocError>
    requires { last.0 < length (T.state terms.now).trees }
    ensures { IfOk result (IsGiven (T.state terms.now)) }
{
    match row {
        ArgRow::Width(width) => Ok(Arg::Linear(Linear::constant(alloc, width))),
        ArgRow::Term(place) => Ok(Arg::Term(term_at(terms, ids, last, place)?)),
    }
}

fn arguments<T: Terms>(
    alloc: Global,
    terms: &T,
    ids: &[TermId],
    last: TermId,
    rows: &[ArgRow],
) -> Result<Args, AllocError>
    requires { last.0 < length (T.state terms.now).trees }
    ensures { IfOk result (AreGiven (T.state terms.now)) }
{
    let mut args = Args::new(alloc);
    for row in rows {
        args.push(argument(alloc, terms, ids, last, *row)?)?;
    }
    Ok(args)
}

fn rule_of<T: Terms>(
    alloc: Global,
    terms: &T,
    ids: &[TermId],
    last: TermId,
    by: By,
) -> Result<StepRule, AllocError>
    requires { last.0 < length (T.state terms.now).trees }
    ensures { IfOk result (IsRuleOf (T.state terms.now)) }
{
    match by {
        By::Refl => Ok(StepRule::Refl),
        By::Cong => Ok(StepRule::Cong),
        By::Trans => Ok(StepRule::Trans),
        By::Evaluate => Ok(StepRule::Evaluate),
        By::Rule(rule, rows) => Ok(StepRule::Rewrite {
            rule,
            args: arguments(alloc, terms, ids, last, rows)?,
        }),
    }
}

fn premise_places(alloc: Global, places: &[usize]) -> Result<Numbers, AllocError> {
    let mut all = Numbers::new(alloc);
    for place in places {
        all.push(*place)?;
    }
    Ok(all)
}

// The answer to a step.
fn added<T: Terms>(
    alloc: Global,
    terms: &mut T,
    book: &Book,
    proof: &mut Proof,
    sides: Sides,
    by: StepRule,
    places: &[usize],
) -> Result<usize, AddError>
    requires left { sides.left.0 < length (T.state terms.old).trees }
    requires right { sides.right.0 < length (T.state terms.old).trees }
    requires rule { IsRuleOf (T.state terms.old) by }
    requires proof { IsProofOver (T.state terms.old) book.now proof.old }
    ensures grows { Grows (T.state terms.old) (T.state terms.new) }
    ensures proof { IsProofOver (T.state terms.new) book.now proof.new }
{
    let premises = premise_places(alloc, places)?;
    proof.add_step(
        terms,
        book,
        Step {
            left: sides.left,
            right: sides.right,
            by,
            premises,
        },
    )
}

fn is_wanted(answer: Result<usize, AddError>, want: Result<usize, StepFault>) -> bool {
    match (answer, want) {
        (Ok(place), Ok(want)) => place == want,
        (Err(AddError::Invalid(fault)), Err(want)) => fault == want,
        _ => false,
    }
}

// The answer to a row over terms that are at most the last; want of memory for others.
fn answer<T: Terms>(
    alloc: Global,
    terms: &mut T,
    book: &Book,
    ids: &[TermId],
    last: TermId,
    proof: &mut Proof,
    row: &Row,
) -> Result<usize, AddError>
    requires last { last.0 < length (T.state terms.old).trees }
    requires proof { IsProofOver (T.state terms.old) book.now proof.old }
    ensures grows { Grows (T.state terms.old) (T.state terms.new) }
    ensures proof { IsProofOver (T.state terms.new) book.now proof.new }
{
    let sides = Sides {
        left: term_at(terms, ids, last, row.left)?,
        right: term_at(terms, ids, last, row.right)?,
    };
    let by = rule_of(alloc, terms, ids, last, row.by)?;
    added(alloc, terms, book, proof, sides, by, row.premises)
}

// The name of the first row whose answer is another than it says, over one proof.
fn first_wrong<T: Terms>(
    alloc: Global,
    terms: &mut T,
    book: &Book,
    ids: &[TermId],
    last: TermId,
    rows: &[Row],
) -> &'static str
    requires { last.0 < length (T.state terms.old).trees }
{
    let mut proof = Proof::new(alloc);
    for row in rows {
        let found = answer(alloc, terms, book, ids, last, &mut proof, row);
        if !is_wanted(found, row.want) {
            return row.name;
        }
    }
    "none"
}

const ONE: usize = 0;

const TWO: usize = 1;

const SUM: usize = 2;

const TWICE: usize = 3;

const DIFFERENCE: usize = 4;

// 1, 2, 1 + 2, 2 + 2 and 1 - 2, and the last of them, which has the greatest id.
fn numbers<T: Terms>(terms: &mut T) -> Result<([TermId; 5], TermId), TermError>
    ensures { IfOk result (λ found. found.1.0 < length (T.state terms.new).trees) }
{
    let one = terms.make(Head::Numeral(1), &[], &[])?;
    let two = terms.make(Head::Numeral(2), &[], &[])?;
    if one.0 > two.0 {
        return Err(TermError::Memory);
    }
    let sum = terms.make(Head::Add, &[], &[one, two])?;
    if two.0 > sum.0 {
        return Err(TermError::Memory);
    }
    let twice = terms.make(Head::Add, &[], &[two, two])?;
    if two.0 > twice.0 || one.0 > twice.0 {
        return Err(TermError::Memory);
    }
    let difference = terms.make(Head::Minus, &[], &[one, two])?;
    Ok(([one, two, sum, twice, difference], difference))
}

const REFL: Row = Row {
    name: "1 = 1 by refl",
    left: ONE,
    right: ONE,
    by: By::Refl,
    premises: &[],
    want: Ok(0),
};

const REFL_AND_CONG: [Row; 9] = [
    REFL,
    Row {
        name: "refl with a premise",
        premises: &[0],
        want: Err(StepFault::PremiseCount),
        ..REFL
    },
    Row {
        name: "refl of two terms",
        right: TWO,
        want: Err(StepFault::NotEqual),
        ..REFL
    },
    Row {
        name: "a premise past the end",
        premises: &[1],
        want: Err(StepFault::NoSuchStep),
        ..REFL
    },
    Row {
        name: "cong of one term",
        left: SUM,
        right: SUM,
        by: By::Cong,
        want: Ok(1),
        ..REFL
    },
    Row {
        name: "cong of two operators",
        left: SUM,
        right: DIFFERENCE,
        by: By::Cong,
        want: Err(StepFault::OtherHead),
        ..REFL
    },
    Row {
        name: "cong of two numerals",
        right: TWO,
        by: By::Cong,
        want: Err(StepFault::OtherHead),
        ..REFL
    },
    Row {
        name: "cong without its premise",
        left: SUM,
        right: TWICE,
        by: By::Cong,
        want: Err(StepFault::PremiseCount),
        ..REFL
    },
    Row {
        name: "cong with another premise",
        left: SUM,
        right: TWICE,
        by: By::Cong,
        premises: &[0],
        want: Err(StepFault::OtherPremise),
        ..REFL
    },
];

const TRANS: [Row; 6] = [
    REFL,
    Row {
        name: "2 = 2 by refl",
        left: TWO,
        right: TWO,
        want: Ok(1),
        ..REFL
    },
    Row {
        name: "trans to an equation that is there",
        by: By::Trans,
        premises: &[0, 0],
        ..REFL
    },
    Row {
        name: "trans of one premise",
        by: By::Trans,
        premises: &[0],
        want: Err(StepFault::PremiseCount),
        ..REFL
    },
    Row {
        name: "trans that doesn't join",
        by: By::Trans,
        premises: &[0, 1],
        want: Err(StepFault::OtherPremise),
        ..REFL
    },
    Row {
        name: "trans to another side",
        right: TWO,
        by: By::Trans,
        premises: &[0, 0],
        want: Err(StepFault::OtherPremise),
        ..REFL
    },
];

#[test]
fn reflexivity_and_congruence(rt: HostRuntime) -> Result<(), Fail> {
    let alloc = rt.alloc();
    let mut terms = Plain::new(alloc);
    let (ids, last) = numbers(&mut terms)?;
    assert_eq!(rt;
        first_wrong(
            alloc,
            &mut terms,
            &Book::new(alloc),
            &ids,
            last,
            &REFL_AND_CONG
        ),
        "none"
    );
    assert_eq!(rt; StepFault::OtherPremise.word(), "OtherPremise");
    Ok(())
}

#[test]
fn transitivity(rt: HostRuntime) -> Result<(), Fail> {
    let alloc = rt.alloc();
    let mut terms = Plain::new(alloc);
    let (ids, last) = numbers(&mut terms)?;
    assert_eq!(rt;
        first_wrong(alloc, &mut terms, &Book::new(alloc), &ids, last, &TRANS),
        "none"
    );
    Ok(())
}

#[test]
fn equations_are_found(rt: HostRuntime) -> Result<(), Fail> {
    let alloc = rt.alloc();
    let mut terms = Plain::new(alloc);
    let one = terms.make(Head::Numeral(1), &[], &[])?;
    let book = Book::new(alloc);
    let mut proof = Proof::new(alloc);
    let sides = Sides {
        left: one,
        right: one,
    };
    let place = added(
        alloc,
        &mut terms,
        &book,
        &mut proof,
        sides,
        StepRule::Refl,
        &[],
    )?;
    assert_eq!(rt; place, 0);
    assert_eq!(rt; proof.len(), 1);
    assert_eq!(rt; proof.step(0).left, one);
    assert_eq!(rt; proof.find(one, one), Some(0));
    Ok(())
}
