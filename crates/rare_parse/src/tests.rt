//! Rules of texts: what is read is shown by a few of its parts, what is refused by its place and its
//! reason.
ghost use Rattle.std.specs.Prelude.{◌<◌, length};

use crate::read_rule;
use rare_base::{Fault, Text};
use rare_rule::Rule;
use rare_sexpr::{Next, Reader, Sexpr};
use std::alloc::{AllocError, Global};
use std::test::Fail;

// What a row says, a text, and the rule that is read, or the place and the reason of its refusal.
#[derive(Clone, Copy)]
struct Row {
    name: &'static str,
    text: &'static str,
    want: &'static str,
}

// The first expression of a text.
fn expression(alloc: Global, text: &[u8]) -> Result<Option<Sexpr>, AllocError>
    requires { length text.now < 1000000 }
{
    let mut reader = Reader::new(alloc);
    reader.feed(text)?;
    reader.end();
    match reader.next_command() {
        Ok(Next::Command(e)) => Ok(Some(e)),
        _ => Ok(None),
    }
}

fn show_fault(alloc: Global, out: &mut Text, fault: Fault) -> Result<(), AllocError> {
    match fault {
        Fault::Refused { place, reason } => {
            let place = format!(in alloc; "{}:{} ", place.line, place.column)?;
            out.append(place.as_bytes())?;
            out.append(reason.word().as_bytes())
        }
        Fault::Memory => out.append(b"memory"),
    }
}

// The name of a rule, the numbers of its parameters and bounds, and the operators of its sides.
fn show_rule(alloc: Global, out: &mut Text, rule: &Rule) -> Result<(), AllocError> {
    out.append(rule.name.bytes())?;
    let parts = format!(in alloc;
        " {} {} {:?} {:?}",
        rule.params.len(),
        rule.bounds.len(),
        rule.left.head,
        rule.right.head
    )?;
    out.append(parts.as_bytes())
}

// What is read of a text.
fn shown(alloc: Global, text: &[u8]) -> Result<Text, AllocError>
    requires { length text.now < 1000000 }
{
    let mut out = Text::new(alloc);
    let Some(e) = expression(alloc, text)? else {
        return Ok(out);
    };
    match read_rule(alloc, &e) {
        Ok(rule) => show_rule(alloc, &mut out, &rule)?,
        Err(fault) => show_fault(alloc, &mut out, fault)?,
    }
    Ok(out)
}

// The first row that is answered otherwise.
fn first_wrong(alloc: Global, rows: &[Row]) -> Result<&'static str, AllocError> {
    for row in rows {
        if row.text.len() >= 1000 {
            return Ok(row.name);
        }
        let shown = shown(alloc, row.text.as_bytes())?;
        if shown.bytes() != row.want.as_bytes() {
            return Ok(row.name);
        }
    }
    Ok("none")
}

// Rows of rules that are read.
const READ: [Row; 7] = [
    Row {
        name: "two arguments of one name",
        text: "(define-rule r ((p Bool)) (and p p) p)",
        want: "r 1 0 And Param(0)",
    },
    Row {
        name: "a fresh width, and indices behind the operator",
        text: "(define-rule s ((x ?BitVec) (i Index)) :where ((>= i 1)) (extract i i x) ((_ extract i i) x))",
        want: "s 3 1 Extract Extract",
    },
    Row {
        name: "a literal of a width that is a name",
        text: "(define-rule r ((n Width) (x (BitVec n))) (bvadd x (bv 0 n)) x)",
        want: "r 2 0 BvAdd Param(1)",
    },
    Row {
        name: "a literal of given value and width",
        text: "(define-rule r ((x (BitVec 4))) (bvor x (bv (- 1) 4)) #b1111)",
        want: "r 1 0 BvOr Bits(15)",
    },
    Row {
        name: "the size of a name",
        text: "(define-rule r ((x ?BitVec)) (bvadd x (bv 0 (bvsize x))) x)",
        want: "r 2 0 BvAdd Param(0)",
    },
    Row {
        name: "an equation of bounds",
        text: "(define-rule r ((n Width) (x (BitVec n))) :where ((= n 2) (> n 1)) (bvnot x) x)",
        want: "r 2 3 BvNot Param(1)",
    },
    Row {
        name: "a fresh sort",
        text: "(define-rule r ((x ?) (S Sort) (y S)) (= x (ite (= y y) x x)) true)",
        want: "r 4 0 Equal True",
    },
];

// Rows of other forms.
const OF_OTHER_FORMS: [Row; 18] = [
    Row {
        name: "an atom as command",
        text: "p",
        want: "1:1 BadForm",
    },
    Row {
        name: "four items",
        text: "(define-rule r ((p Bool)) p)",
        want: "1:1 BadForm",
    },
    Row {
        name: "nine items",
        text: "(define-rule r () a b c d e f)",
        want: "1:1 BadForm",
    },
    Row {
        name: "a first item that is no symbol",
        text: "((a) r () p p)",
        want: "1:1 BadForm",
    },
    Row {
        name: "a name that is no symbol",
        text: "(define-rule 1 () p p)",
        want: "1:14 BadForm",
    },
    Row {
        name: "parameters that are no list",
        text: "(define-rule r p p p)",
        want: "1:16 BadForm",
    },
    Row {
        name: "a parameter of three items",
        text: "(define-rule r ((p Bool :list)) p p)",
        want: "1:17 BadForm",
    },
    Row {
        name: "a parameter whose name is no symbol",
        text: "(define-rule r ((1 Bool)) p p)",
        want: "1:18 BadForm",
    },
    Row {
        name: "definitions",
        text: "(define-rule r ((p Bool)) (def (y p)) p p)",
        want: "1:27 BadForm",
    },
    Row {
        name: "bounds that are no list",
        text: "(define-rule r ((p Bool)) :where p p p)",
        want: "1:34 BadForm",
    },
    Row {
        name: "bounds and one side",
        text: "(define-rule r ((p Bool)) :where () p)",
        want: "1:1 BadForm",
    },
    Row {
        name: "an item behind the sides",
        text: "(define-rule r ((p Bool)) p p p)",
        want: "1:31 BadForm",
    },
    Row {
        name: "a constant as an operator",
        text: "(define-rule r ((p Bool)) (true) p)",
        want: "1:27 BadForm",
    },
    Row {
        name: "the empty list",
        text: "(define-rule r ((p Bool)) () p)",
        want: "1:27 BadForm",
    },
    Row {
        name: "an operator with too few indices",
        text: "(define-rule r ((p Bool)) (extract 1) p)",
        want: "1:27 BadForm",
    },
    Row {
        name: "a list at the head that begins with no mark",
        text: "(define-rule r ((p Bool)) ((f) p) p)",
        want: "1:28 BadForm",
    },
    Row {
        name: "a numeral at the head",
        text: "(define-rule r ((p Bool)) (1 p) p)",
        want: "1:28 BadForm",
    },
    Row {
        name: "a keyword as a term",
        text: "(define-rule r ((p Bool)) :p p)",
        want: "1:27 BadForm",
    },
];

// Rows of commands and names that are refused.
const OF_NAMES: [Row; 14] = [
    Row {
        name: "a conditional rule",
        text: "(define-cond-rule r () p p)",
        want: "1:1 UnknownCommand",
    },
    Row {
        name: "a rule of fixed points",
        text: "(define-rule* r () p p)",
        want: "1:1 UnknownCommand",
    },
    Row {
        name: "a command of problems",
        text: "(declare-const r () p p)",
        want: "1:1 UnknownCommand",
    },
    Row {
        name: "a sort that is not declared",
        text: "(define-rule r ((p S)) p p)",
        want: "1:20 UnknownSymbol",
    },
    Row {
        name: "a sort that is declared later",
        text: "(define-rule r ((p S) (S Sort)) p p)",
        want: "1:20 UnknownSymbol",
    },
    Row {
        name: "a word as a sort name",
        text: "(define-rule r ((and Sort) (x and)) x x)",
        want: "1:31 UnknownSymbol",
    },
    Row {
        name: "a parameter as an operator",
        text: "(define-rule r ((p Bool)) (p p) p)",
        want: "1:28 UnknownSymbol",
    },
    Row {
        name: "a binding of terms",
        text: "(define-rule r ((p Bool)) (let ((x p)) x) p)",
        want: "1:28 UnknownSymbol",
    },
    Row {
        name: "the size of a name that has none",
        text: "(define-rule r ((p Bool) (x (BitVec (bvsize p)))) p p)",
        want: "1:45 UnknownSymbol",
    },
    Row {
        name: "a width as a term",
        text: "(define-rule r ((n Width)) n n)",
        want: "1:28 UnknownSymbol",
    },
    Row {
        name: "an operator as a term",
        text: "(define-rule r ((p Bool)) and p)",
        want: "1:27 UnknownSymbol",
    },
    Row {
        name: "one name twice",
        text: "(define-rule r ((p Bool) (p Bool)) p p)",
        want: "1:27 DuplicateParam",
    },
    Row {
        name: "a constant as a name",
        text: "(define-rule r ((true Bool)) p p)",
        want: "1:18 DuplicateParam",
    },
    Row {
        name: "the hole as a name",
        text: "(define-rule r ((_ Bool)) p p)",
        want: "1:18 DuplicateParam",
    },
];

// Rows of literals, widths, sorts and whole rules that are refused.
const OF_LIMITS: [Row; 15] = [
    Row {
        name: "a numeral above 2^127 - 1",
        text: "(define-rule r ((p Bool)) 170141183460469231731687303715884105728 p)",
        want: "1:27 LiteralTooWide",
    },
    Row {
        name: "a value above its width",
        text: "(define-rule r ((p Bool)) (_ bv4 2) p)",
        want: "1:27 LiteralTooWide",
    },
    Row {
        name: "a negative value of a great width",
        text: "(define-rule r ((p Bool)) (bv (- 1) 200) p)",
        want: "1:27 LiteralTooWide",
    },
    Row {
        name: "a width above 2^127 - 1",
        text: "(define-rule r ((x (BitVec 170141183460469231731687303715884105728))) x x)",
        want: "1:28 TermLimit",
    },
    Row {
        name: "a product of widths",
        text: "(define-rule r ((n Width) (x (BitVec (* n n)))) x x)",
        want: "1:38 NonLinear",
    },
    Row {
        name: "a fresh sort in an array",
        text: "(define-rule r ((a (Array ? Int))) a a)",
        want: "1:27 BadSort",
    },
    Row {
        name: "another list as a sort",
        text: "(define-rule r ((a (Foo Int))) a a)",
        want: "1:20 BadSort",
    },
    Row {
        name: "bit vectors without a width",
        text: "(define-rule r ((a (BitVec))) a a)",
        want: "1:20 BadSort",
    },
    Row {
        name: "a hole",
        text: "(define-rule r ((p Bool)) p _)",
        want: "1:1 ContextForm",
    },
    Row {
        name: "an index that is used before",
        text: "(define-rule r ((i Index) (x ?BitVec)) ((_ repeat (+ i 1)) x) x)",
        want: "1:1 LeftIndex",
    },
    Row {
        name: "a parameter that is not determined",
        text: "(define-rule r ((p Bool) (q Bool)) p p)",
        want: "1:1 Unbound",
    },
    Row {
        name: "a fault of a part before one of the whole",
        text: "(define-rule r ((p Bool) (q Bool)) p (p))",
        want: "1:39 UnknownSymbol",
    },
    Row {
        name: "a hole before what is not determined",
        text: "(define-rule r ((p Bool) (q Bool)) p _)",
        want: "1:1 ContextForm",
    },
    Row {
        name: "the left side before the right",
        text: "(define-rule r ((p Bool)) (p) (q))",
        want: "1:28 UnknownSymbol",
    },
    Row {
        name: "the name before the parameters",
        text: "(define-rule 1 ((1 Bool)) p p)",
        want: "1:14 BadForm",
    },
];

#[test]
fn rules_are_read(rt: HostRuntime) -> Result<(), Fail> {
    assert_eq!(rt; first_wrong(rt.alloc(), &READ)?, "none");
    Ok(())
}

#[test]
fn other_forms_are_refused(rt: HostRuntime) -> Result<(), Fail> {
    assert_eq!(rt; first_wrong(rt.alloc(), &OF_OTHER_FORMS)?, "none");
    Ok(())
}

#[test]
fn names_are_refused(rt: HostRuntime) -> Result<(), Fail> {
    assert_eq!(rt; first_wrong(rt.alloc(), &OF_NAMES)?, "none");
    Ok(())
}

#[test]
fn limits_and_whole_rules_are_refused(rt: HostRuntime) -> Result<(), Fail> {
    assert_eq!(rt; first_wrong(rt.alloc(), &OF_LIMITS)?, "none");
    Ok(())
}

// A rule whose sides are `and` of so many arguments.
fn wide_rule(alloc: Global, left: usize, right: usize) -> Result<Text, AllocError> {
    let mut text = Text::new(alloc);
    text.append(b"(define-rule r ((p Bool)) (and")?;
    for _ in 0..left {
        text.append(b" p")?;
    }
    text.append(b") (and")?;
    for _ in 0..right {
        text.append(b" p")?;
    }
    text.append(b"))")?;
    Ok(text)
}

// A rule may have 256 nodes, and an application 256 arguments.
#[test]
fn wide_rules(rt: HostRuntime) -> Result<(), Fail> {
    let alloc = rt.alloc();
    for (left, right, want) in [
        (200, 54, "r 1 0 And And"),
        (200, 55, "1:1 RuleTooLarge"),
        (256, 1, "1:1 RuleTooLarge"),
        (257, 1, "1:27 TermLimit"),
    ] {
        let text = wide_rule(alloc, left, right)?;
        assert!(rt; text.bytes().len() < 1000000);
        let shown = shown(alloc, text.bytes())?;
        assert!(rt; shown.bytes() == want.as_bytes());
    }
    Ok(())
}
