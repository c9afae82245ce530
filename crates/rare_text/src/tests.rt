//! Problems of texts: what is read is shown by the samples and the names of the rewrites, what is refused by
//! its place and its reason.
ghost use Rattle.std.specs.Prelude.{◌≤◌, length};

use crate::{Problem, read_problem};
use rare_base::{Fault, Text};
use rare_term::Plain;
use std::alloc::{AllocError, Global};
use std::test::Fail;

// What a row says, a text, and what is answered to it.
#[derive(Clone, Copy)]
struct Row {
    name: &'static str,
    text: &'static str,
    want: &'static str,
}

fn show_fault(alloc: Global, fault: Fault) -> Result<Text, AllocError> {
    match fault {
        Fault::Refused { place, reason } => {
            let (line, column) = (place.line, place.column);
            let shown = format!(in alloc; "{line}:{column} {}", reason.word())?;
            Text::of(alloc, shown.as_bytes())
        }
        Fault::Memory => Text::of(alloc, b"memory"),
    }
}

fn show_problem(alloc: Global, problem: &Problem) -> Result<Text, AllocError> {
    let mut out = Text::of(alloc, b"read")?;
    for sample in problem.samples.items() {
        let shown = format!(in alloc; " {sample}")?;
        out.append(shown.as_bytes())?;
    }
    for rewrite in problem.rewrites.items() {
        out.push(b' ')?;
        out.append(rewrite.name.bytes())?;
    }
    Ok(out)
}

fn show_answer(alloc: Global, text: &[u8]) -> Result<Text, AllocError>
    requires { length text.now ≤ 100000 }
{
    let mut terms = Plain::new(alloc);
    match read_problem(alloc, text, &mut terms) {
        Ok(problem) => show_problem(alloc, &problem),
        Err(fault) => show_fault(alloc, fault),
    }
}

// The first row that is answered otherwise.
fn first_wrong(alloc: Global, rows: &[Row]) -> Result<&'static str, AllocError> {
    for row in rows {
        if row.text.len() > 100_000 {
            return Ok(row.name);
        }
        let shown = show_answer(alloc, row.text.as_bytes())?;
        if shown.bytes() != row.want.as_bytes() {
            return Ok(row.name);
        }
    }
    Ok("none")
}

// Problems that are read, with their samples and the names of their rewrites.
const READ: [Row; 10] = [
    Row {
        name: "nothing",
        text: "",
        want: "read",
    },
    Row {
        name: "commands that are passed over",
        text: "(set-logic QF_BV)(set-info :a)(set-info :a (b))(set-option :c 1)",
        want: "read",
    },
    Row {
        name: "a sort, a constant and a function",
        text: "(declare-sort s 00)(declare-const x s)(declare-fun f (s Int) (Array s s))(rewrite r (f x 1) (f x 1))",
        want: "read r",
    },
    Row {
        name: "a definition",
        text: "(define-fun d () Int 5)(rewrite r (+ d 1) 6)",
        want: "read r",
    },
    Row {
        name: "words between bars",
        text: "(|rewrite| |r 1| (|_| |bv5| 8) (_ bv5 8))",
        want: "read r 1",
    },
    Row {
        name: "names of rewrites are a table of their own",
        text: "(declare-const p Bool)(rewrite p p true)(rewrite and p p)(rewrite @q p p)",
        want: "read p and @q",
    },
    Row {
        name: "a word behind `_`",
        text: "(declare-const extract Bool)(rewrite r extract extract)",
        want: "read r",
    },
    Row {
        name: "the least and the largest sample",
        text: "(declare-width n 0001)(declare-width m 4294967296)",
        want: "read 1 4294967296",
    },
    Row {
        name: "a width that a constraint gives",
        text: "(declare-width n 8)(assume-width (>= n 2))(declare-const x (_ BitVec (- n 1)))",
        want: "read 8",
    },
    Row {
        name: "whole slices",
        text: "(declare-width n 8)\n(declare-const x (_ BitVec n))\n(rewrite r1 ((_ extract (- n 1) 0) x) x)",
        want: "read 8 r1",
    },
];

// Refused commands, by their first item.
const COMMANDS: [Row; 10] = [
    Row {
        name: "an atom",
        text: "x",
        want: "1:1 BadForm",
    },
    Row {
        name: "the empty list",
        text: "()",
        want: "1:1 BadForm",
    },
    Row {
        name: "a list first",
        text: "((a) b)",
        want: "1:1 BadForm",
    },
    Row {
        name: "a string first",
        text: "(\"a\")",
        want: "1:1 BadForm",
    },
    Row {
        name: "another word",
        text: "(check-sat)",
        want: "1:1 UnknownCommand",
    },
    Row {
        name: "a word of proofs",
        text: "(step t1)",
        want: "1:1 UnknownCommand",
    },
    Row {
        name: "another word on another line",
        text: "\n (exit)",
        want: "2:2 UnknownCommand",
    },
    Row {
        name: "a list that is not closed",
        text: "(declare-const p Bool",
        want: "1:1 Unbalanced",
    },
    Row {
        name: "a fault before an open string",
        text: "(foo) \"",
        want: "1:1 UnknownCommand",
    },
    Row {
        name: "a parenthesis too many",
        text: "(set-logic QF_BV) )",
        want: "1:19 Unbalanced",
    },
];

// Commands of too few items, which are refused before these are read.
const TOO_FEW: [Row; 10] = [
    Row {
        name: "(set-logic)",
        text: "(set-logic)",
        want: "1:1 BadForm",
    },
    Row {
        name: "(set-info)",
        text: "(set-info)",
        want: "1:1 BadForm",
    },
    Row {
        name: "(set-option a)",
        text: "(set-option a)",
        want: "1:1 BadForm",
    },
    Row {
        name: "(declare-sort :s)",
        text: "(declare-sort :s)",
        want: "1:1 BadForm",
    },
    Row {
        name: "(declare-const :p)",
        text: "(declare-const :p)",
        want: "1:1 BadForm",
    },
    Row {
        name: "(declare-fun :f ())",
        text: "(declare-fun :f ())",
        want: "1:1 BadForm",
    },
    Row {
        name: "(define-fun :f () Bool)",
        text: "(define-fun :f () Bool)",
        want: "1:1 BadForm",
    },
    Row {
        name: "(declare-width :n)",
        text: "(declare-width :n)",
        want: "1:1 BadForm",
    },
    Row {
        name: "(assume-width)",
        text: "(assume-width)",
        want: "1:1 BadForm",
    },
    Row {
        name: "(rewrite :r true)",
        text: "(rewrite :r true)",
        want: "1:1 BadForm",
    },
];

// Commands of too many items, which are refused before these are read.
const TOO_MANY: [Row; 10] = [
    Row {
        name: "(set-logic 1 B)",
        text: "(set-logic 1 B)",
        want: "1:1 BadForm",
    },
    Row {
        name: "(set-info a b c)",
        text: "(set-info a b c)",
        want: "1:1 BadForm",
    },
    Row {
        name: "(set-option a b c)",
        text: "(set-option a b c)",
        want: "1:1 BadForm",
    },
    Row {
        name: "(declare-sort :s 0 0)",
        text: "(declare-sort :s 0 0)",
        want: "1:1 BadForm",
    },
    Row {
        name: "(declare-const :p Bool Bool)",
        text: "(declare-const :p Bool Bool)",
        want: "1:1 BadForm",
    },
    Row {
        name: "(declare-fun :f () Int Int)",
        text: "(declare-fun :f () Int Int)",
        want: "1:1 BadForm",
    },
    Row {
        name: "(define-fun :f () Bool true true)",
        text: "(define-fun :f () Bool true true)",
        want: "1:1 BadForm",
    },
    Row {
        name: "(declare-width :n 1 2)",
        text: "(declare-width :n 1 2)",
        want: "1:1 BadForm",
    },
    Row {
        name: "(assume-width n n)",
        text: "(assume-width n n)",
        want: "1:1 BadForm",
    },
    Row {
        name: "(rewrite :r true true true)",
        text: "(rewrite :r true true true)",
        want: "1:1 BadForm",
    },
];

// Items of other forms.
const ITEMS: [Row; 10] = [
    Row {
        name: "a logic that is no symbol",
        text: "(set-logic \"QF_BV\")",
        want: "1:12 BadForm",
    },
    Row {
        name: "an attribute that is no keyword",
        text: "(set-info a)",
        want: "1:11 BadForm",
    },
    Row {
        name: "an option that is no keyword",
        text: "(set-option a b)",
        want: "1:13 BadForm",
    },
    Row {
        name: "a name that is no symbol",
        text: "(declare-sort :s 0)",
        want: "1:15 BadForm",
    },
    Row {
        name: "another arity",
        text: "(declare-sort s 1)",
        want: "1:17 BadForm",
    },
    Row {
        name: "an arity that is no numeral",
        text: "(declare-sort s zero)",
        want: "1:17 BadForm",
    },
    Row {
        name: "a list of arguments that is none",
        text: "(declare-fun f Int Int)",
        want: "1:16 BadForm",
    },
    Row {
        name: "a definition with arguments",
        text: "(define-fun f (x) Bool true)",
        want: "1:15 BadForm",
    },
    Row {
        name: "a rewrite whose name is a string",
        text: "(rewrite \"r\" true true)",
        want: "1:10 BadForm",
    },
    Row {
        name: "a constraint that is none",
        text: "(assume-width n)",
        want: "1:15 BadForm",
    },
];

// Samples and sorts that are refused.
const SORTS: [Row; 10] = [
    Row {
        name: "the sample 0",
        text: "(declare-width n 0)",
        want: "1:18 BadForm",
    },
    Row {
        name: "a sample above 2^32",
        text: "(declare-width n 4294967297)",
        want: "1:18 BadForm",
    },
    Row {
        name: "a sample above 2^128",
        text: "(declare-width n 340282366920938463463374607431768211457)",
        want: "1:18 BadForm",
    },
    Row {
        name: "a sample that is no numeral",
        text: "(declare-width n m)",
        want: "1:18 BadForm",
    },
    Row {
        name: "a sort that is not declared",
        text: "(declare-const x Foo)",
        want: "1:18 UnknownSymbol",
    },
    Row {
        name: "an argument of such a sort",
        text: "(declare-fun f (Int Foo) Int)",
        want: "1:21 UnknownSymbol",
    },
    Row {
        name: "a width that is not entailed",
        text: "(declare-const x (_ BitVec 0))",
        want: "1:18 BadSort",
    },
    Row {
        name: "a width that a constraint would give",
        text: "(declare-width n 8)(declare-const x (_ BitVec (- n 1)))",
        want: "1:37 BadSort",
    },
    Row {
        name: "another head in a width",
        text: "(declare-width n 4)(declare-const x (_ BitVec (foo n 1)))",
        want: "1:48 BadForm",
    },
    Row {
        name: "a list that is no sort",
        text: "(declare-const x (Array Int))",
        want: "1:18 BadSort",
    },
];

// Names that may not be declared.
const NAMES: [Row; 10] = [
    Row {
        name: "a constant twice",
        text: "(declare-const p Bool)(declare-const p (_ BitVec 0))",
        want: "1:38 DeclaredTwice",
    },
    Row {
        name: "a sort and a width",
        text: "(declare-sort s 0)(declare-width s 0)",
        want: "1:34 DeclaredTwice",
    },
    Row {
        name: "a definition twice",
        text: "(define-fun d () Bool true)(define-fun d (x) Bool true)",
        want: "1:40 DeclaredTwice",
    },
    Row {
        name: "a word of the theories",
        text: "(declare-const and Foo)",
        want: "1:16 DeclaredTwice",
    },
    Row {
        name: "the word of literals",
        text: "(declare-width bv 0)",
        want: "1:16 DeclaredTwice",
    },
    Row {
        name: "a word of sorts",
        text: "(declare-fun BitVec Int Foo)",
        want: "1:14 DeclaredTwice",
    },
    Row {
        name: "a rewrite twice",
        text: "(rewrite r true true)(rewrite r zz true)",
        want: "1:31 DeclaredTwice",
    },
    Row {
        name: "a name that begins with @",
        text: "(declare-const @a Foo)",
        want: "1:16 ReservedSymbol",
    },
    Row {
        name: "a name that begins with a point",
        text: "(declare-width .n 0)",
        want: "1:16 ReservedSymbol",
    },
    Row {
        name: "a reserved word",
        text: "(declare-sort let 1)",
        want: "1:15 ReservedSymbol",
    },
];

// Terms of definitions and rewrites that are refused.
const TERMS: [Row; 10] = [
    Row {
        name: "a definition of another sort",
        text: "(define-fun d () Int true)",
        want: "1:18 IllSorted",
    },
    Row {
        name: "a definition of another width",
        text: "(define-fun d () (_ BitVec 4) (_ bv1 8))",
        want: "1:18 IllSorted",
    },
    Row {
        name: "a sort before the term",
        text: "(define-fun d () Foo zz)",
        want: "1:18 UnknownSymbol",
    },
    Row {
        name: "a term of a definition",
        text: "(define-fun d () Bool zz)",
        want: "1:23 UnknownSymbol",
    },
    Row {
        name: "a definition in its own term",
        text: "(define-fun d () Bool d)",
        want: "1:23 UnknownSymbol",
    },
    Row {
        name: "a rewrite of two sorts",
        text: "(rewrite r true 1)",
        want: "1:1 IllSorted",
    },
    Row {
        name: "a left side",
        text: "(rewrite r zz yy)",
        want: "1:12 UnknownSymbol",
    },
    Row {
        name: "a right side",
        text: "(rewrite r true zz)",
        want: "1:17 UnknownSymbol",
    },
    Row {
        name: "a slice that is not entailed",
        text: "(declare-width n 8)\n(declare-const x (_ BitVec n))\n(rewrite r1 ((_ extract (- n 2) 0) x) x)",
        want: "3:13 IllSorted",
    },
    Row {
        name: "a numeral of 2^127",
        text: "(declare-const y Int)\n(rewrite r1 y 170141183460469231731687303715884105728)",
        want: "2:15 LiteralTooWide",
    },
];

// Constraints at the samples.
const SAMPLES: [Row; 10] = [
    Row {
        name: "a constraint that is false",
        text: "(declare-width n 4)(assume-width (>= n 5))",
        want: "1:20 SampleFails",
    },
    Row {
        name: "an equation of two widths",
        text: "(declare-width n 4)(declare-width m 5)(assume-width (= n m))",
        want: "1:39 SampleFails",
    },
    Row {
        name: "each width has its own sample",
        text: "(declare-width n 4)(declare-width m 5)(assume-width (> m n))",
        want: "read 4 5",
    },
    Row {
        name: "a constraint without names",
        text: "(assume-width (>= 0 1))",
        want: "1:1 SampleFails",
    },
    Row {
        name: "a sum that leaves i128",
        text: "(declare-width n 4)(assume-width (>= (* 170141183460469231731687303715884105727 n) 0))",
        want: "1:34 TermLimit",
    },
    Row {
        name: "a sum at the end of i128",
        text: "(declare-width n 1)(assume-width (>= (* 170141183460469231731687303715884105727 n) 0))",
        want: "read 1",
    },
    Row {
        name: "a partial sum that leaves i128",
        text: "(declare-width n 2)(declare-width m 2)(assume-width (= (* 170141183460469231731687303715884105727 n) (* 170141183460469231731687303715884105727 m)))",
        want: "1:53 TermLimit",
    },
    Row {
        name: "a limit before a false constraint",
        text: "(declare-width n 1)(assume-width (= (- (* 170141183460469231731687303715884105727 n)) 1))",
        want: "1:34 TermLimit",
    },
    Row {
        name: "a difference of the least number",
        text: "(declare-width n 4)(assume-width (>= n (- (- 1) (- (- 170141183460469231731687303715884105727) 1) 170141183460469231731687303715884105727)))",
        want: "read 4",
    },
    Row {
        name: "a width that is not declared",
        text: "(assume-width (>= m 1))",
        want: "1:19 UnknownSymbol",
    },
];

#[test]
fn problems_are_read(rt: HostRuntime) -> Result<(), Fail> {
    assert_eq!(rt; first_wrong(rt.alloc(), &READ)?, "none");
    Ok(())
}

#[test]
fn commands_have_words(rt: HostRuntime) -> Result<(), Fail> {
    assert_eq!(rt; first_wrong(rt.alloc(), &COMMANDS)?, "none");
    Ok(())
}

#[test]
fn commands_have_no_fewer_items(rt: HostRuntime) -> Result<(), Fail> {
    assert_eq!(rt; first_wrong(rt.alloc(), &TOO_FEW)?, "none");
    Ok(())
}

#[test]
fn commands_have_no_more_items(rt: HostRuntime) -> Result<(), Fail> {
    assert_eq!(rt; first_wrong(rt.alloc(), &TOO_MANY)?, "none");
    Ok(())
}

#[test]
fn items_have_forms(rt: HostRuntime) -> Result<(), Fail> {
    assert_eq!(rt; first_wrong(rt.alloc(), &ITEMS)?, "none");
    Ok(())
}

#[test]
fn samples_and_sorts_are_refused(rt: HostRuntime) -> Result<(), Fail> {
    assert_eq!(rt; first_wrong(rt.alloc(), &SORTS)?, "none");
    Ok(())
}

#[test]
fn names_are_refused(rt: HostRuntime) -> Result<(), Fail> {
    assert_eq!(rt; first_wrong(rt.alloc(), &NAMES)?, "none");
    Ok(())
}

#[test]
fn terms_are_refused(rt: HostRuntime) -> Result<(), Fail> {
    assert_eq!(rt; first_wrong(rt.alloc(), &TERMS)?, "none");
    Ok(())
}

#[test]
fn constraints_hold_at_samples(rt: HostRuntime) -> Result<(), Fail> {
    assert_eq!(rt; first_wrong(rt.alloc(), &SAMPLES)?, "none");
    Ok(())
}
