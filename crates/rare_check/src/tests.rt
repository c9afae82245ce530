//! Proofs of one problem, in pieces: what they come to by named rows.
ghost use Rattle.std.specs.Prelude.{◌+◌, ◌≤◌, length};
ghost use Rattle.rare_scope.specs.Names.{AreMeant};
ghost use Rattle.rare_text.specs.Stated.{HaveIds};

use crate::{Checker, Report, Verdict};
use rare_base::{Fault, Text};
use rare_rule::Book;
use rare_term::{Plain, Terms};
use rare_text::{Problem, read_problem};
use std::alloc::{AllocError, Global};
use std::test::Fail;

// What a row says, a proof, and what is answered to it.
#[derive(Clone, Copy)]
struct Row {
    name: &'static str,
    proof: &'static str,
    want: &'static str,
}

// The problem of the proofs.
const PROBLEM: &str =
    "(declare-const p Bool)(declare-const q Bool)(rewrite r1 p p)(rewrite r2 (and p q) (and p q))";

// Writes the place of a refusal behind the name of its text.
fn show_fault(alloc: Global, text: &str, fault: Fault) -> Result<Text, AllocError> {
    match fault {
        Fault::Refused { place, reason } => {
            let (line, column) = (place.line, place.column);
            let shown = format!(in alloc; "{text} {line}:{column} {}", reason.word())?;
            Text::of(alloc, shown.as_bytes())
        }
        Fault::Memory => Text::of(alloc, b"memory"),
    }
}

// Writes a letter for each verdict, or the command that is not valid with its fault.
fn show_report(alloc: Global, report: &Report) -> Result<Text, AllocError> {
    let mut out = Text::new(alloc);
    match report {
        Report::Checked { verdicts, .. } => {
            for verdict in verdicts.items() {
                out.push(match verdict {
                    Verdict::Valid => b'V',
                    Verdict::Missing => b'M',
                })?;
            }
        }
        Report::Invalid { name, fault } => {
            out.append(name.bytes())?;
            out.push(b' ')?;
            out.append(fault.word().as_bytes())?;
        }
    }
    Ok(out)
}

// The report on a proof that is fed in two pieces. A refusal of a piece has to stand to the end.
fn check_pieces<T: Terms + Drop>(
    alloc: Global,
    terms: T,
    problem: Problem,
    front: &[u8],
    back: &[u8],
) -> Result<Report, Fault>
    requires ids { HaveIds (length (T.state terms).trees) problem.rewrites }
    requires names { AreMeant (T.state terms) problem.scope }
    requires short { length front.now + length back.now ≤ 100000 }
{
    let mut checker = Checker::new(alloc, terms, Book::new(alloc), problem);
    let _ = checker.feed(front);
    let _ = checker.feed(back);
    checker.finish()
}

// What is answered to a proof that is fed in two pieces.
fn show_answer(alloc: Global, front: &[u8], back: &[u8]) -> Result<Text, AllocError>
    requires { length front.now + length back.now ≤ 100000 }
{
    let mut terms = Plain::new(alloc);
    match read_problem(alloc, PROBLEM.as_bytes(), &mut terms) {
        Ok(problem) => match check_pieces(alloc, terms, problem, front, back) {
            Ok(report) => show_report(alloc, &report),
            Err(fault) => show_fault(alloc, "proof", fault),
        },
        Err(fault) => show_fault(alloc, "problem", fault),
    }
}

// The first row that is answered otherwise, in some two pieces.
fn first_wrong(alloc: Global, rows: &[Row]) -> Result<&'static str, AllocError> {
    for row in rows {
        let proof = row.proof.as_bytes();
        if proof.len() > 100_000 {
            return Ok(row.name);
        }
        for cut in 0..proof.len() + 1 {
            let (front, back) = proof.split_at(cut);
            let shown = show_answer(alloc, front, back)?;
            if shown.bytes() != row.want.as_bytes() {
                return Ok(row.name);
            }
        }
    }
    Ok("none")
}

// Proofs, by the rewrites that they conclude.
const VERDICTS: [Row; 9] = [
    Row {
        name: "no command",
        proof: "",
        want: "MM",
    },
    Row {
        name: "a conclusion",
        proof: "(step a (cl (= p p)) :rule refl)(conclude r1 a)",
        want: "VM",
    },
    Row {
        name: "two conclusions of one rewrite",
        proof: "(step a (cl (= p p)) :rule refl)(conclude r1 a)(conclude r1 a)",
        want: "VM",
    },
    Row {
        name: "one equation under two ids",
        proof: "(step a (cl (= p p)) :rule refl)(step b (cl (= p p)) :rule cong)(conclude r1 b)",
        want: "VM",
    },
    Row {
        name: "premises by their ids",
        proof: "(step a (cl (= p p)) :rule refl)(step b (cl (= p p)) :rule cong)(step c (cl (= p p)) :rule trans :premises (a b))(conclude r1 c)",
        want: "VM",
    },
    Row {
        name: "a defined name",
        proof: "(define-fun @1 () Bool (and p q))(step a (cl (= @1 (and p q))) :rule refl)(conclude r2 a)",
        want: "MV",
    },
    Row {
        name: "values",
        proof: "(step a (cl (= (and true false) false)) :rule evaluate)",
        want: "MM",
    },
    Row {
        name: "no terms by refl",
        proof: "(step a (cl (= p q)) :rule refl)",
        want: "a NotEqual",
    },
    Row {
        name: "premises that do not join",
        proof: "(step a (cl (= p p)) :rule refl)(step b (cl (= q q)) :rule refl)(step c (cl (= p q)) :rule trans :premises (a b))",
        want: "c OtherPremise",
    },
];

// Proofs that are not valid, or refused.
const FAULTS: [Row; 11] = [
    Row {
        name: "an id that is used",
        proof: "(step a (cl (= p p)) :rule refl)(step a (cl (= p p)) :rule refl :premises (b))",
        want: "a IdUsed",
    },
    Row {
        name: "a premise that is no step",
        proof: "(step a (cl (= p q)) :rule refl :premises (a))",
        want: "a NoSuchStep",
    },
    Row {
        name: "a conclusion of no step",
        proof: "(conclude r1 a)",
        want: "r1 NoSuchStep",
    },
    Row {
        name: "a conclusion of no rewrite",
        proof: "(conclude r3 a)",
        want: "r3 NoSuchRewrite",
    },
    Row {
        name: "a conclusion of another equation",
        proof: "(step a (cl (= p p)) :rule refl)(conclude r2 a)",
        want: "r2 OtherEquation",
    },
    Row {
        name: "a rule that the book does not have",
        proof: "(step a (cl (= p p)) :rule rare_rewrite :args (\"r\"))(conclude r1 a)",
        want: "a NoSuchRule",
    },
    Row {
        name: "the first of two that are not valid",
        proof: "(step a (cl (= p q)) :rule refl)(conclude r3 a)(step a (cl (= p p)) :rule refl)",
        want: "a NotEqual",
    },
    Row {
        name: "a name behind a step that is not valid",
        proof: "(step a (cl (= p q)) :rule refl)(define-fun @1 () Bool p)(step b (cl (= @1 @1)) :rule refl)",
        want: "a NotEqual",
    },
    Row {
        name: "a refusal behind a step that is not valid",
        proof: "(step a (cl (= p q)) :rule refl)\n (exit)",
        want: "proof 2:2 UnknownCommand",
    },
    Row {
        name: "a name that is defined twice",
        proof: "(define-fun @1 () Bool p)(define-fun @1 () Bool p)",
        want: "proof 1:38 DeclaredTwice",
    },
    Row {
        name: "a list that stays open",
        proof: "(step a (cl (= p p)) :rule refl)\n(conclude r1 a",
        want: "proof 2:1 Unbalanced",
    },
];

#[test]
fn proofs_come_to_verdicts(rt: HostRuntime) -> Result<(), Fail> {
    assert_eq!(rt; first_wrong(rt.alloc(), &VERDICTS)?, "none");
    Ok(())
}

#[test]
fn first_faults_are_told(rt: HostRuntime) -> Result<(), Fail> {
    assert_eq!(rt; first_wrong(rt.alloc(), &FAULTS)?, "none");
    Ok(())
}
