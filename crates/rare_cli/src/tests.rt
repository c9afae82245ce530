//! Runs over texts in memory, one row for each status that they can show, and the reads of a run.

ghost use Rattle.std.specs.Prelude.{◌≡◌, ◌<◌, ◌≤◌, [], ◌∷◌, length, IfOk};
ghost use Rattle.rare_base.specs.Memory.{faults_of, put_faults};
ghost use Rattle.rare_base.specs.Reads.{Added, most_file_bytes};
ghost use Rattle.rare_scope.specs.Names.{AreMeant};
ghost use Rattle.rare_text.specs.Stated.{HaveIds};

use crate::run::{exit_number, run};
use crate::words::words_of;
use rare_base::{
    Failed, Fault, Library, MemoryLibrary, MemorySink, NamedText, NamedTexts, Sequence, Status,
    Text, Texts,
};
use rare_check::{Checker, Report, Verdict};
use rare_rule::Book;
use rare_term::{Plain, Terms};
use rare_text::{Problem, read_problem};
use std::alloc::{AllocError, Global};
use std::marker::Model;
use std::test::Fail;

const CHECK: &[&str] = &["check", "-", "problem", "proof"];

const ONE: &str = "(declare-const p Bool)(rewrite r1 p p)";

const TWO: &str = "(declare-const p Bool)(declare-const q Bool)(rewrite r1 p q)";

const THREE: &str = "(declare-const p Bool)(declare-const q Bool)\
    (rewrite r1 p p)(rewrite r2 p q)(rewrite r3 (not q) (not q))";

const FIRST_AND_THIRD: &str = "(step t1 (cl (= (not q) (not q))) :rule refl)\
    (step t2 (cl (= p p)) :rule refl)(conclude r3 t1)(conclude r1 t2)";

const PROVED: &str = "(step t1 (cl (= p p)) :rule refl)(conclude r1 t1)";

const USAGE: &str =
    "usage: rare check RULES PROBLEM PROOF | prove [--depth=N] [--budget=N] RULES PROBLEM | rules | types RULES | gen N\n";

// A run over memory: the words, the three texts, the numbers of the reads and of the puts that
// fail, and what must come of it.
struct Case {
    name: &'static str,
    words: &'static [&'static str],
    rules: &'static str,
    problem: &'static str,
    proof: &'static str,
    failed_reads: &'static [u64],
    failed_puts: &'static [u64],
    status: Status,
    number: u8,
    written: &'static str,
}

const ROW: Case = Case {
    name: "a rewrite that is concluded",
    words: CHECK,
    rules: "",
    problem: ONE,
    proof: PROVED,
    failed_reads: &[],
    failed_puts: &[],
    status: Status::AllGood,
    number: 0,
    written: "r1 valid\n",
};

const CASES: &[Case] = &[
    ROW,
    Case {
        name: "a rewrite that is not concluded",
        proof: "",
        status: Status::NotAll,
        number: 1,
        written: "r1 open\n",
        ..ROW
    },
    Case {
        name: "three rewrites, the second not concluded",
        problem: THREE,
        proof: FIRST_AND_THIRD,
        status: Status::NotAll,
        number: 1,
        written: "r1 valid\nr2 open\nr3 valid\n",
        ..ROW
    },
    Case {
        name: "no rewrite",
        problem: "",
        proof: "",
        written: "",
        ..ROW
    },
    Case {
        name: "a step that is not valid",
        problem: TWO,
        proof: "(step t1 (cl (= p q)) :rule refl)",
        status: Status::NotAll,
        number: 1,
        written: "invalid t1 NotEqual\n",
        ..ROW
    },
    Case {
        name: "a proof with no reading",
        proof: "(step t1 (cl (= p |p",
        status: Status::BadText,
        number: 3,
        written: "refused proof 1:19 OpenSymbol\n",
        ..ROW
    },
    Case {
        name: "a byte that begins no expression",
        problem: "(rewrite r1 |p|\n [ p)",
        status: Status::BadText,
        number: 3,
        written: "refused problem 2:2 BadCharacter\n",
        ..ROW
    },
    Case {
        name: "put 3 fails",
        failed_puts: &[3],
        status: Status::WriteFault,
        number: 5,
        written: "r1 valid",
        ..ROW
    },
    Case {
        name: "read 2 fails",
        failed_reads: &[2],
        status: Status::ReadFault,
        number: 4,
        written: "read fault problem\n",
        ..ROW
    },
    Case {
        name: "a file that begins with two dashes",
        words: &["check", "-", "problem", "--proof"],
        status: Status::BadWords,
        number: 2,
        written: USAGE,
        ..ROW
    },
];

// Runs over terms of the four theories.
const THEORIES: &[Case] = &[
    Case {
        name: "an index beyond a width that is not entailed",
        problem: "(declare-width n 8)\n(declare-const x (_ BitVec n))\n\
            (rewrite r1 ((_ extract (- n 2) 0) x) x)",
        proof: "",
        status: Status::BadText,
        number: 3,
        written: "refused problem 3:13 IllSorted\n",
        ..ROW
    },
    Case {
        name: "the first numeral that is too wide",
        problem: "(declare-const y Int)\n(rewrite r1 y 170141183460469231731687303715884105728)",
        proof: "",
        status: Status::BadText,
        number: 3,
        written: "refused problem 2:15 LiteralTooWide\n",
        ..ROW
    },
    Case {
        name: "the widest numeral",
        problem: "(declare-const y Int)\n(rewrite r1 y 170141183460469231731687303715884105727)",
        proof: "",
        status: Status::NotAll,
        number: 1,
        written: "r1 open\n",
        ..ROW
    },
    Case {
        name: "a sum beyond the limit has no value",
        problem: "(rewrite r1 (+ 170141183460469231731687303715884105727 1) 0)",
        proof: "(step t1 (cl (= (+ 170141183460469231731687303715884105727 1) 0)) :rule evaluate)",
        status: Status::NotAll,
        number: 1,
        written: "invalid t1 NoValue\n",
        ..ROW
    },
    Case {
        name: "a rule that is not known",
        proof: "(step t1 (cl (= p p)) :rule resolution)",
        status: Status::BadText,
        number: 3,
        written: "refused proof 1:29 UnknownRule\n",
        ..ROW
    },
    Case {
        name: "division and products of literals have values",
        problem: "(rewrite r1 (bvsdiv #b1000 #b1111) #b1000)(rewrite r2 (bvsmod #b1111 #b1000) #b1111)\
            (rewrite r3 (bvsmod #b1000 #b0000) #b1000)(rewrite r4 (bvsdiv #b1000 #b0000) #b0001)\
            (rewrite r5 (bvudiv #b1111 #b0000) #b1111)\
            (rewrite r6 (bvmul (bv (- 1) 128) (bv (- 1) 128)) (_ bv1 128))",
        proof: "(step t1 (cl (= (bvsdiv #b1000 #b1111) #b1000)) :rule evaluate)(conclude r1 t1)\
            (step t2 (cl (= (bvsmod #b1111 #b1000) #b1111)) :rule evaluate)(conclude r2 t2)\
            (step t3 (cl (= (bvsmod #b1000 #b0000) #b1000)) :rule evaluate)(conclude r3 t3)\
            (step t4 (cl (= (bvsdiv #b1000 #b0000) #b0001)) :rule evaluate)(conclude r4 t4)\
            (step t5 (cl (= (bvudiv #b1111 #b0000) #b1111)) :rule evaluate)(conclude r5 t5)\
            (step t6 (cl (= (bvmul (bv (- 1) 128) (bv (- 1) 128)) (_ bv1 128))) :rule evaluate)\
            (conclude r6 t6)",
        written: "r1 valid\nr2 valid\nr3 valid\nr4 valid\nr5 valid\nr6 valid\n",
        ..ROW
    },
    Case {
        name: "sides of two sorts, before an unknown rule",
        proof: "(step t1 (cl (= p 1)) :rule foo)",
        status: Status::BadText,
        number: 3,
        written: "refused proof 1:1 IllSorted\n",
        ..ROW
    },
    Case {
        name: "a constraint that is false at the samples",
        problem: "(declare-width n 4)(assume-width (>= n 5))",
        proof: "",
        status: Status::BadText,
        number: 3,
        written: "refused problem 1:20 SampleFails\n",
        ..ROW
    },
    Case {
        name: "a name of a proof, over a symbolic width",
        problem: "(declare-width n 8)(declare-const x (_ BitVec n))\
            (rewrite r1 ((_ extract (- n 1) 0) (bvadd x x)) ((_ extract (- n 1) 0) (bvadd x x)))",
        proof: "(define-fun @1 () (_ BitVec n) (bvadd x x))\
            (step t1 (cl (= ((_ extract (- n 1) 0) @1) ((_ extract (- n 1) 0) (bvadd x x)))) :rule cong)\
            (conclude r1 t1)",
        ..ROW
    },
];

const TYPES: &[&str] = &["types", "rules"];

// Runs that list the rules of a file.
const RULES: &[Case] = &[
    Case {
        name: "an index below a width",
        words: TYPES,
        rules: "(define-rule ext ((n Width) (j Index) (x (BitVec n)))\
            (extract j 0 x) (extract j 0 (bvnot (bvnot x))))",
        written: "ext (>= (+ n (* (- 1) j) (- 1)) 0)\n",
        ..ROW
    },
    Case {
        name: "an index beyond a width",
        words: TYPES,
        rules: "(define-rule nv ((x (BitVec 4))) (bvnot (extract 4 0 x)) (bvnot (extract 4 0 x)))",
        status: Status::BadText,
        number: 3,
        written: "refused rules 1:1 NeverHolds\n",
        ..ROW
    },
    Case {
        name: "an equation of two sorts",
        words: TYPES,
        rules: "(define-rule mix ((p Bool) (x Int)) (= p x) p)",
        status: Status::BadText,
        number: 3,
        written: "refused rules 1:1 Clash\n",
        ..ROW
    },
    Case {
        name: "two rules of one name",
        words: TYPES,
        rules: "(define-rule two ((p Bool)) (not (not p)) p)\n\
            (define-rule two ((p Bool)) (not (not p)) p)",
        status: Status::BadText,
        number: 3,
        written: "refused rules 2:1 DuplicateName\n",
        ..ROW
    },
    Case {
        name: "two rules, a name between bars, and a width without a name",
        words: TYPES,
        rules: "(define-rule |not not| ((p Bool)) (not (not p)) p)\
            (define-rule low ((x ?BitVec)) (extract 3 0 x) (extract 3 0 x))",
        written: "|not not|\nlow (>= (+ (bvsize x) (- 4)) 0)\n",
        ..ROW
    },
    Case {
        name: "a parameter of three items",
        words: TYPES,
        rules: "(define-rule f ((true Foo :list)) true true)",
        status: Status::BadText,
        number: 3,
        written: "refused rules 1:17 BadForm\n",
        ..ROW
    },
    Case {
        name: "a sort that clashes and an index beyond a width, at one root",
        words: TYPES,
        rules: "(define-rule f ((x (BitVec 4))) (bvnot x) (extract 5 0 x))",
        status: Status::BadText,
        number: 3,
        written: "refused rules 1:1 Clash\n",
        ..ROW
    },
    Case {
        name: "no file of rules",
        words: &["types", "-"],
        written: "",
        ..ROW
    },
    Case {
        name: "rules in a word that begins with two dashes",
        words: &["types", "--"],
        status: Status::BadWords,
        number: 2,
        written: USAGE,
        ..ROW
    },
    Case {
        name: "the only read of the rules fails",
        words: TYPES,
        failed_reads: &[1],
        status: Status::ReadFault,
        number: 4,
        written: "read fault rules\n",
        ..ROW
    },
];

const WITH_RULES: &[&str] = &["check", "rules", "problem", "proof"];

// The rules of a user: two that hold, and one that doesn't.
const USER_RULES: &str = "(define-rule bad ((x Int)) (+ x 1) x)\
    (define-rule sw ((p Bool) (q Bool)) (and p q) (and q p))\
    (define-rule not-not ((n Width) (x (BitVec n))) (bvnot (bvnot x)) x)\
    (define-rule twice ((n Width) (x (BitVec n))) (bvneg x) (extract (- n 1) 0 (concat x x)))";

// A run over these rules.
const BY_RULES: Case = Case {
    name: "a rule that is no law",
    words: WITH_RULES,
    rules: USER_RULES,
    problem: "(declare-const y Int)(rewrite r1 (+ y 1) y)",
    proof: "(step t1 (cl (= (+ y 1) y)) :rule rare_rewrite :args (\"bad\" y))(conclude r1 t1)",
    written: "r1 valid\ntrusts bad\n",
    ..ROW
};

// A run over these rules with a command that is not valid.
const NOT_BY_RULES: Case = Case {
    problem: "(declare-const p Bool)(declare-const q Bool)(rewrite r1 (and p q) (and q p))",
    status: Status::NotAll,
    number: 1,
    ..BY_RULES
};

// Runs over proofs with steps by the rules of a file.
const REWRITES: &[Case] = &[
    BY_RULES,
    Case {
        name: "a rule whose step is not used and concludes what stands",
        rules: "(define-rule sw ((p Bool) (q Bool)) (and p q) (and q p))",
        problem: "(declare-const p Bool)(rewrite r1 (and p p) (and p p))",
        proof: "(step t1 (cl (= (and p p) (and p p))) :rule refl)\
            (step t2 (cl (= (and p p) (and p p))) :rule rare_rewrite :args (\"sw\" p p))\
            (conclude r1 t1)",
        written: "r1 valid\ntrusts sw\n",
        ..BY_RULES
    },
    Case {
        name: "two rules, listed in the order of their file, over a symbolic width",
        problem: "(declare-width n 8)(declare-const x (_ BitVec n))(declare-const p Bool)\
            (rewrite r1 (bvnot (bvnot x)) x)(rewrite r2 (and p true) (and true p))",
        proof: "(step t1 (cl (= (bvnot (bvnot x)) x)) :rule rare_rewrite :args (\"not-not\" n x))\
            (step t2 (cl (= (and p true) (and true p))) :rule rare_rewrite :args (\"sw\" p true))\
            (conclude r1 t1)(conclude r2 t2)",
        written: "r1 valid\nr2 valid\ntrusts sw\ntrusts not-not\n",
        ..BY_RULES
    },
    Case {
        name: "a constraint of the rule that doesn't follow",
        rules: "(define-rule ext ((n Width) (j Index) (x (BitVec n)))\
            (extract j 0 x) (extract j 0 (bvnot (bvnot x))))",
        problem: "(declare-width n 8)(declare-const x (_ BitVec n))(rewrite r1 x x)",
        proof: "(step t1 (cl (= x x)) :rule rare_rewrite :args (\"ext\" n n x))",
        written: "invalid t1 Unentailed 1\n",
        ..NOT_BY_RULES
    },
    Case {
        name: "an argument of another sort",
        problem: "(declare-const x (_ BitVec 8))(rewrite r1 x x)",
        proof: "(step t1 (cl (= (bvnot (bvnot x)) x)) :rule rare_rewrite :args (\"not-not\" 4 x))",
        written: "invalid t1 ArgMissorted 2\n",
        ..NOT_BY_RULES
    },
    Case {
        name: "a term beyond a limit on the right side",
        problem: "(declare-const x (_ BitVec 85070591730234615865843651857942052864))(rewrite r1 x x)",
        proof: "(step t1 (cl (= (bvneg x) x)) :rule rare_rewrite \
            :args (\"twice\" 85070591730234615865843651857942052864 x))",
        written: "invalid t1 Limit\n",
        ..NOT_BY_RULES
    },
    Case {
        name: "a rule that is not in the file",
        proof: "(step t1 (cl (= p q)) :rule rare_rewrite :args (\"s\" zz 1.5))",
        written: "invalid t1 NoSuchRule\n",
        ..NOT_BY_RULES
    },
    Case {
        name: "an argument too few",
        proof: "(step t1 (cl (= p q)) :rule rare_rewrite :args (\"sw\" zz))",
        written: "invalid t1 ArgCount\n",
        ..NOT_BY_RULES
    },
    Case {
        name: "another left side",
        proof: "(step t1 (cl (= (and q p) (and q p))) :rule rare_rewrite :args (\"sw\" p q))",
        written: "invalid t1 OtherLeft\n",
        ..NOT_BY_RULES
    },
    Case {
        name: "another right side",
        proof: "(step t1 (cl (= (and p q) (and p q))) :rule rare_rewrite :args (\"sw\" p q))",
        written: "invalid t1 OtherRight\n",
        ..NOT_BY_RULES
    },
    Case {
        name: "a premise of a rule that has none",
        proof: "(step t1 (cl (= p p)) :rule refl)\
            (step t2 (cl (= (and p q) (and q p))) :rule rare_rewrite \
            :premises (t1) :args (\"sw\" p q))",
        written: "invalid t2 PremiseCount\n",
        ..NOT_BY_RULES
    },
    Case {
        name: "a premise that is no step comes before a rule that is not in the file",
        proof: "(step t1 (cl (= p q)) :rule rare_rewrite :premises (t0) :args (\"none\"))",
        written: "invalid t1 NoSuchStep\n",
        ..NOT_BY_RULES
    },
    Case {
        name: "rules with no reading come before a problem with none",
        rules: "(define-rule sw)",
        problem: "(",
        status: Status::BadText,
        number: 3,
        written: "refused rules 1:1 BadForm\n",
        ..BY_RULES
    },
    Case {
        name: "no file of rules",
        words: &["check", "-", "problem", "proof"],
        proof: "(step t1 (cl (= (+ y 1) y)) :rule rare_rewrite :args (\"bad\" y))",
        written: "invalid t1 NoSuchRule\n",
        status: Status::NotAll,
        number: 1,
        ..BY_RULES
    },
    Case {
        name: "the read of the problem behind that of the rules fails",
        failed_reads: &[3],
        status: Status::ReadFault,
        number: 4,
        written: "read fault problem\n",
        ..BY_RULES
    },
];

fn named(alloc: Global, name: &str, bytes: &str) -> Result<NamedText, AllocError> {
    Ok(NamedText {
        name: Text::of(alloc, name.as_bytes())?,
        bytes: Text::of(alloc, bytes.as_bytes())?,
    })
}

fn library(alloc: Global, case: &Case) -> Result<MemoryLibrary, AllocError>
    ensures { IfOk result (λ files. faults_of files ≡ 0) }
{
    let mut texts = NamedTexts::new(alloc);
    texts.push(named(alloc, "rules", case.rules)?)?;
    texts.push(named(alloc, "problem", case.problem)?)?;
    texts.push(named(alloc, "proof", case.proof)?)?;
    let fail = Vec::from_slice(alloc, case.failed_reads)?;
    Ok(MemoryLibrary::new(texts, 1 << 16, fail))
}

fn words(alloc: Global, case: &Case) -> Result<Texts, AllocError> {
    let mut words = Texts::new(alloc);
    for word in case.words {
        words.push(Text::of(alloc, word.as_bytes())?)?;
    }
    Ok(words)
}

// The name of the first of some runs that writes something else or has another status.
fn first_wrong(alloc: Global, cases: &[Case]) -> Result<Option<&'static str>, AllocError> {
    for case in cases {
        let words = words(alloc, case)?;
        let mut files = library(alloc, case)?;
        let fail = Vec::from_slice(alloc, case.failed_puts)?;
        let mut out = MemorySink::new(alloc, 4, 256, fail)?;
        let status = run(alloc, &words, &mut files, &mut out);
        if status != case.status || out.bytes() != case.written.as_bytes() {
            return Ok(Some(case.name));
        }
    }
    Ok(None)
}

#[test]
fn a_run_writes_what_the_words_ask_for(rt: HostRuntime) -> Result<(), Fail> {
    assert_eq!(rt; first_wrong(rt.alloc(), CASES)?, None);
    Ok(())
}

#[test]
fn a_run_reads_the_four_theories(rt: HostRuntime) -> Result<(), Fail> {
    assert_eq!(rt; first_wrong(rt.alloc(), THEORIES)?, None);
    Ok(())
}

#[test]
fn a_run_lists_the_rules_of_a_file(rt: HostRuntime) -> Result<(), Fail> {
    assert_eq!(rt; first_wrong(rt.alloc(), RULES)?, None);
    Ok(())
}

#[test]
fn a_run_checks_steps_by_the_rules_of_a_file(rt: HostRuntime) -> Result<(), Fail> {
    assert_eq!(rt; first_wrong(rt.alloc(), REWRITES)?, None);
    Ok(())
}

#[test]
fn the_program_ends_with_the_number_of_the_status(rt: HostRuntime) -> Result<(), Fail> {
    let alloc = rt.alloc();
    for case in CASES {
        let words = words(alloc, case)?;
        let mut files = library(alloc, case)?;
        let fail = Vec::from_slice(alloc, case.failed_puts)?;
        let mut out = MemorySink::new(alloc, 4, 256, fail)?;
        let number = exit_number(alloc, &words, &mut files, &mut out);
        assert_eq!(rt; number, case.number, "{}", case.name);
    }
    Ok(())
}

// A proof of so many steps by `refl`, the last of which is concluded.
fn proof_of_steps(alloc: Global, count: u32) -> Result<Text, AllocError> {
    let mut proof = Text::new(alloc);
    for k in 0..count {
        let step = format!(in alloc; "(step t{k} (cl (= p p)) :rule refl)\n")?;
        proof.append(step.as_bytes())?;
    }
    let last = count.saturating_sub(1);
    let conclusion = format!(in alloc; "(conclude r1 t{last})\n")?;
    proof.append(conclusion.as_bytes())?;
    Ok(proof)
}

#[test]
fn a_proof_of_several_mib_is_read_and_checked(rt: HostRuntime) -> Result<(), Fail> {
    let alloc = rt.alloc();
    let proof = proof_of_steps(alloc, 100_000)?;
    assert!(rt; 3 << 20 < proof.bytes().len());
    let mut texts = NamedTexts::new(alloc);
    texts.push(named(alloc, "problem", ONE)?)?;
    texts.push(NamedText {
        name: Text::of(alloc, b"proof")?,
        bytes: proof,
    })?;
    let mut files = MemoryLibrary::new(texts, 1 << 12, Vec::new(alloc));
    let mut out = MemorySink::new(alloc, 256, 256, Vec::new(alloc))?;
    let status = run(alloc, &words(alloc, &ROW)?, &mut files, &mut out);
    assert_eq!(rt; status, Status::AllGood);
    assert_eq!(rt; out.bytes(), b"r1 valid\n".as_slice());
    Ok(())
}

// The report of a checker that is fed a proof in pieces of so many bytes.
fn report_in_pieces<T: Terms + Drop>(
    alloc: Global,
    terms: T,
    problem: Problem,
    proof: &[u8],
    piece: usize,
) -> Result<Report, Fault>
    requires some { 0 < piece }
    requires ids { HaveIds (length (T.state terms).trees) problem.rewrites }
    requires meant { AreMeant (T.state terms) problem.scope }
    requires short { length proof.now ≤ most_file_bytes }
{
    let mut checker = Checker::new(alloc, terms, Book::new(alloc), problem);
    let mut at = 0;
    while at < proof.len() {
        let end = proof.len().min(at.saturating_add(piece));
        checker.feed(&proof[at..end])?;
        at = end;
    }
    checker.finish()
}

// Whether a report says of one rewrite that it is valid.
fn is_one_valid(report: &Report) -> bool {
    match report {
        Report::Checked { verdicts, .. } => verdicts.items() == [Verdict::Valid].as_slice(),
        Report::Invalid { .. } => false,
    }
}

#[test]
fn a_thousand_steps_are_checked_in_small_pieces(rt: HostRuntime) -> Result<(), Fail> {
    let alloc = rt.alloc();
    let proof = proof_of_steps(alloc, 1000)?;
    assert!(rt; proof.bytes().len() <= 1 << 20);
    for piece in [1, 7, 4096] {
        assert!(rt; 0 < piece);
        let mut terms = Plain::new(alloc);
        let Ok(problem) = read_problem(alloc, ONE.as_bytes(), &mut terms) else {
            return Err(Fail::from("the problem is read"));
        };
        let Ok(report) = report_in_pieces(alloc, terms, problem, proof.bytes(), piece) else {
            return Err(Fail::from("the proof is read"));
        };
        assert!(rt; is_one_valid(&report), "pieces of {piece}");
    }
    Ok(())
}

#[test]
fn the_words_follow_the_programs_name(rt: HostRuntime) -> Result<(), Fail> {
    let alloc = rt.alloc();
    let mut args = Vec::new(alloc);
    for arg in ["rare", "check", "-", "p", "q"] {
        args.push(arg.to_string(alloc)?)?;
    }
    let words = words_of(alloc, args.into_iter())?;
    assert_eq!(rt; words.len(), 4);
    for (word, want) in words.items().iter().zip(["check", "-", "p", "q"]) {
        assert_eq!(rt; word.bytes(), want.as_bytes());
    }
    Ok(())
}

// A read: its file, its place, how many bytes it asked for, and how many it gave.
#[derive(Debug, Drop)]
struct Asked {
    name: Text,
    at: u64,
    room: usize,
    gave: Option<usize>,
}

impl Model for Asked {
    ghost use Rattle.rare_base.specs.Reads.{Read};

    ghost Value = { Read };

    ghost view = { λ a. record { name = a.name; at = a.at; room = a.room; gave = a.gave } };
}

// The reads with one more, or none where memory is wanting.
fn kept(reads: Option<Sequence<Asked>>, asked: Asked) -> Option<Sequence<Asked>>
    ensures { Added reads result (asked ∷ []) }
{
    let mut reads = reads?;
    match reads.push(asked) {
        Ok(()) => Some(reads),
        Err(_) => None,
    }
}

// A library that tells which reads were asked of another, while there is memory to keep them.
#[derive(Drop)]
struct Recorder {
    alloc: Global,
    files: MemoryLibrary,
    reads: Option<Sequence<Asked>>,
}

impl Library for Recorder {
    ghost use Rattle.rare_base.specs.MemoryTexts.{text_named};
    ghost use Rattle.rare_base.specs.Memory.{texts_of};

    ghost text = { λ s w. text_named (texts_of s.files) w };

    ghost faults = { λ s _. faults_of s.files };

    ghost reads = { λ s. s.reads };

    fn read(&mut self, name: &[u8], at: u64, buf: &mut [u8]) -> Result<usize, Failed> {
        let room = buf.len();
        let answer = self.files.read(name, at, buf);
        let gave = answer.ok();
        self.reads = match Text::of(self.alloc, name) {
            Ok(name) => kept(
                self.reads.take(),
                Asked {
                    name,
                    at,
                    room,
                    gave,
                },
            ),
            Err(_) => None,
        };
        answer
    }
}

#[test]
fn files_are_read_in_turn(rt: HostRuntime) -> Result<(), Fail> {
    let alloc = rt.alloc();
    let words = words(alloc, &ROW)?;
    let mut files = Recorder {
        alloc,
        files: library(alloc, &ROW)?,
        reads: Some(Sequence::new(alloc)),
    };
    let mut out = MemorySink::new(alloc, 256, 256, Vec::new(alloc))?;
    assert_eq!(rt; run(alloc, &words, &mut files, &mut out), Status::AllGood);
    let reads = files.reads.unwrap_or(Sequence::new(alloc));
    assert_eq!(rt; reads.len(), 4);
    for (asked, (name, at, gave)) in reads.items().iter().zip([
        ("problem", 0, ONE.len()),
        ("problem", ONE.len(), 0),
        ("proof", 0, PROVED.len()),
        ("proof", PROVED.len(), 0),
    ]) {
        assert_eq!(rt; asked.name.bytes(), name.as_bytes());
        assert_eq!(rt; asked.at, at as u64, "{name}");
        assert_eq!(rt; asked.room, 1 << 16, "{name}");
        assert_eq!(rt; asked.gave, Some(gave), "{name}");
    }
    Ok(())
}
