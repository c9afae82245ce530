//! Linear expressions, constraints and sorts of texts: what is read is written, what is refused is shown
//! by its place and its reason.
ghost use Rattle.std.specs.Prelude.{◌<◌, length};

use crate::{
    Meaning, Scope, is_reserved_name, number_of_digits, read_constraints_over, read_linear,
    read_sort, write_linear,
};
use rare_base::{Fault, Text};
use rare_sexpr::{Next, Reader, Sexpr};
use rare_term::{Plain, TermId};
use std::alloc::{AllocError, Global};
use std::test::Fail;

// What a row says, a text, and what is written or the place and the reason of its refusal.
#[derive(Clone, Copy)]
struct Row {
    name: &'static str,
    text: &'static str,
    want: &'static str,
}

// The first expression of a text.
fn expression(alloc: Global, text: &[u8]) -> Result<Option<Sexpr>, AllocError>
    requires { length text.now < 1000000 }
{
    let mut reader = Reader::new(alloc);
    reader.feed(text)?;
    reader.end();
    match reader.next_command() {
        Ok(Next::Command(e)) => Ok(Some(e)),
        _ => Ok(None),
    }
}

fn show_fault(alloc: Global, out: &mut Text, fault: Fault) -> Result<(), AllocError> {
    match fault {
        Fault::Refused { place, reason } => {
            let place = format!(in alloc; "{}:{} ", place.line, place.column)?;
            out.append(place.as_bytes())?;
            out.append(reason.word().as_bytes())
        }
        Fault::Memory => out.append(b"memory"),
    }
}

fn linear_of(alloc: Global, text: &[u8], scope: &Scope) -> Result<Text, AllocError>
    requires { length text.now < 1000000 }
{
    let mut out = Text::new(alloc);
    let Some(e) = expression(alloc, text)? else {
        return Ok(out);
    };
    match read_linear(alloc, &e, scope) {
        Ok(linear) => write_linear(&linear, scope, &mut out)?,
        Err(fault) => show_fault(alloc, &mut out, fault)?,
    }
    Ok(out)
}

// The first row that is answered otherwise.
fn first_wrong_linear(
    alloc: Global,
    scope: &Scope,
    rows: &[Row],
) -> Result<&'static str, AllocError> {
    for row in rows {
        if row.text.len() >= 1000 {
            return Ok(row.name);
        }
        let shown = linear_of(alloc, row.text.as_bytes(), scope)?;
        if shown.bytes() != row.want.as_bytes() {
            return Ok(row.name);
        }
    }
    Ok("none")
}

// Rows of linear expressions that are read.
const LINEAR: [Row; 7] = [
    Row {
        name: "a numeral",
        text: "007",
        want: "7",
    },
    Row {
        name: "a name",
        text: "n",
        want: "n",
    },
    Row {
        name: "a name between bars",
        text: "|a b|",
        want: "|a b|",
    },
    Row {
        name: "a sum",
        text: "(+ n 1 n)",
        want: "(+ (* 2 n) 1)",
    },
    Row {
        name: "parts in the order of the names",
        text: "(+ |a b| n)",
        want: "(+ n |a b|)",
    },
    Row {
        name: "a negation",
        text: "(- n)",
        want: "(* (- 1) n)",
    },
    Row {
        name: "a difference",
        text: "(- n |a b| 2)",
        want: "(+ n (* (- 1) |a b|) (- 2))",
    },
];

// Rows of linear expressions that are read.
const LINEAR_AT_THE_LIMITS: [Row; 6] = [
    Row {
        name: "nothing left",
        text: "(- n n)",
        want: "0",
    },
    Row {
        name: "a product",
        text: "(* 3 (+ n 1))",
        want: "(+ (* 3 n) 3)",
    },
    Row {
        name: "a factor whose names fall out",
        text: "(* (- n n) n)",
        want: "0",
    },
    Row {
        name: "the largest numeral",
        text: "170141183460469231731687303715884105727",
        want: "170141183460469231731687303715884105727",
    },
    Row {
        name: "the least number",
        text: "(- (- 170141183460469231731687303715884105727) 1)",
        want: "(- (- 170141183460469231731687303715884105727) 1)",
    },
    Row {
        name: "a difference of the least number",
        text: "(- (- 1) (- (- 170141183460469231731687303715884105727) 1) 170141183460469231731687303715884105727)",
        want: "0",
    },
];

// Rows of linear expressions that are refused.
const LINEAR_REFUSED: [Row; 9] = [
    Row {
        name: "a numeral that is too large",
        text: "(+ n 170141183460469231731687303715884105728)",
        want: "1:6 TermLimit",
    },
    Row {
        name: "a partial sum that is too large",
        text: "(+ 1 (+ 170141183460469231731687303715884105727 1 (- 1)))",
        want: "1:6 TermLimit",
    },
    Row {
        name: "a product that is too large",
        text: "(+ 1 (* 2 170141183460469231731687303715884105727))",
        want: "1:6 TermLimit",
    },
    Row {
        name: "a product of two names",
        text: "(+ 1 (* n |a b|))",
        want: "1:6 NonLinear",
    },
    Row {
        name: "another name",
        text: "(+ n m)",
        want: "1:6 UnknownSymbol",
    },
    Row {
        name: "a word alone",
        text: "+",
        want: "1:1 UnknownSymbol",
    },
    Row {
        name: "another head",
        text: "(foo n 1)",
        want: "1:2 BadForm",
    },
    Row {
        name: "a head that is no symbol",
        text: "((+) n 1)",
        want: "1:2 BadForm",
    },
    Row {
        name: "an empty list",
        text: "(+ n ())",
        want: "1:6 BadForm",
    },
];

// Rows of expressions of other forms.
const LINEAR_OF_OTHER_FORMS: [Row; 8] = [
    Row {
        name: "a head alone",
        text: "(-)",
        want: "1:1 BadForm",
    },
    Row {
        name: "a sum of one",
        text: "(+ m)",
        want: "1:1 BadForm",
    },
    Row {
        name: "a product of three",
        text: "(* 1 1 m)",
        want: "1:1 BadForm",
    },
    Row {
        name: "the size of a name",
        text: "(bvsize n)",
        want: "1:2 BadForm",
    },
    Row {
        name: "a keyword",
        text: "(+ n :n)",
        want: "1:6 BadForm",
    },
    Row {
        name: "a decimal",
        text: "1.5",
        want: "1:1 BadForm",
    },
    Row {
        name: "a binary",
        text: "#b1",
        want: "1:1 BadForm",
    },
    Row {
        name: "a string",
        text: "\"n\"",
        want: "1:1 BadForm",
    },
];

#[test]
fn linear_expressions_are_read(rt: HostRuntime) -> Result<(), Fail> {
    let alloc = rt.alloc();
    let mut scope = Scope::new(alloc);
    assert!(rt; !scope.declares(b"n"));
    scope.declare(b"n", Meaning::Width(0))?;
    assert!(rt; !scope.declares(b"a b"));
    scope.declare(b"a b", Meaning::Width(1))?;
    assert_eq!(rt; first_wrong_linear(alloc, &scope, &LINEAR)?, "none");
    assert_eq!(rt;
        first_wrong_linear(alloc, &scope, &LINEAR_AT_THE_LIMITS)?,
        "none"
    );
    Ok(())
}

#[test]
fn linear_expressions_are_refused(rt: HostRuntime) -> Result<(), Fail> {
    let alloc = rt.alloc();
    let mut scope = Scope::new(alloc);
    assert!(rt; !scope.declares(b"n"));
    scope.declare(b"n", Meaning::Width(0))?;
    assert!(rt; !scope.declares(b"a b"));
    scope.declare(b"a b", Meaning::Width(1))?;
    assert_eq!(rt; first_wrong_linear(alloc, &scope, &LINEAR_REFUSED)?, "none");
    assert_eq!(rt;
        first_wrong_linear(alloc, &scope, &LINEAR_OF_OTHER_FORMS)?,
        "none"
    );
    Ok(())
}

fn constraint_of(alloc: Global, text: &[u8], scope: &Scope) -> Result<Text, AllocError>
    requires { length text.now < 1000000 }
{
    let mut out = Text::new(alloc);
    let Some(e) = expression(alloc, text)? else {
        return Ok(out);
    };
    let _ = scope.width_count();
    match read_constraints_over(alloc, &e, scope) {
        Ok(floors) => {
            for floor in floors.items() {
                out.append(b";")?;
                write_linear(floor, scope, &mut out)?;
            }
        }
        Err(fault) => show_fault(alloc, &mut out, fault)?,
    }
    Ok(out)
}

// The first row that is answered otherwise.
fn first_wrong_constraint(
    alloc: Global,
    scope: &Scope,
    rows: &[Row],
) -> Result<&'static str, AllocError> {
    for row in rows {
        if row.text.len() >= 1000 {
            return Ok(row.name);
        }
        let shown = constraint_of(alloc, row.text.as_bytes(), scope)?;
        if shown.bytes() != row.want.as_bytes() {
            return Ok(row.name);
        }
    }
    Ok("none")
}

// Rows of constraints, each floor behind a semicolon.
const CONSTRAINTS: [Row; 5] = [
    Row {
        name: "at least",
        text: "(>= n 3)",
        want: ";(+ n (- 3))",
    },
    Row {
        name: "above",
        text: "(> n 3)",
        want: ";(+ n (- 4))",
    },
    Row {
        name: "at most",
        text: "(<= n 3)",
        want: ";(+ (* (- 1) n) 3)",
    },
    Row {
        name: "below",
        text: "(< n 3)",
        want: ";(+ (* (- 1) n) 2)",
    },
    Row {
        name: "equal",
        text: "(= n 3)",
        want: ";(+ n (- 3));(+ (* (- 1) n) 3)",
    },
];

// Rows of constraints that are refused.
const CONSTRAINTS_REFUSED: [Row; 9] = [
    Row {
        name: "a difference that is too large",
        text: "(> 170141183460469231731687303715884105727 (- 1))",
        want: "1:1 TermLimit",
    },
    Row {
        name: "one less is too small",
        text: "(> (- (- 170141183460469231731687303715884105727) 1) 0)",
        want: "1:1 TermLimit",
    },
    Row {
        name: "the other difference is too large",
        text: "(= (- (- 170141183460469231731687303715884105727) 1) 0)",
        want: "1:1 TermLimit",
    },
    Row {
        name: "a fault of an operand",
        text: "(>= n (+ m))",
        want: "1:7 BadForm",
    },
    Row {
        name: "another relation",
        text: "(distinct n 3)",
        want: "1:2 BadForm",
    },
    Row {
        name: "a relation that is a list",
        text: "((>=) n 3)",
        want: "1:2 BadForm",
    },
    Row {
        name: "three operands",
        text: "(>= m m m)",
        want: "1:1 BadForm",
    },
    Row {
        name: "one operand",
        text: "(>= m)",
        want: "1:1 BadForm",
    },
    Row {
        name: "a symbol",
        text: "n",
        want: "1:1 BadForm",
    },
];

#[test]
fn constraints(rt: HostRuntime) -> Result<(), Fail> {
    let alloc = rt.alloc();
    let mut scope = Scope::new(alloc);
    assert!(rt; !scope.declares(b"n"));
    scope.declare(b"n", Meaning::Width(0))?;
    assert_eq!(rt;
        first_wrong_constraint(alloc, &scope, &CONSTRAINTS)?,
        "none"
    );
    assert_eq!(rt;
        first_wrong_constraint(alloc, &scope, &CONSTRAINTS_REFUSED)?,
        "none"
    );
    Ok(())
}

// Whether a text spells a sort over no names, or its refusal.
fn sort_of(alloc: Global, text: &[u8]) -> Result<Text, AllocError>
    requires { length text.now < 1000000 }
{
    let mut out = Text::new(alloc);
    let Some(e) = expression(alloc, text)? else {
        return Ok(out);
    };
    let scope = Scope::new(alloc);
    let terms = Plain::new(alloc);
    match read_sort(alloc, &e, &scope, &terms) {
        Ok(_) => out.append(b"read")?,
        Err(fault) => show_fault(alloc, &mut out, fault)?,
    }
    Ok(out)
}

// The first row that is answered otherwise.
fn first_wrong_sort(alloc: Global, rows: &[Row]) -> Result<&'static str, AllocError> {
    for row in rows {
        if row.text.len() >= 1000 {
            return Ok(row.name);
        }
        let shown = sort_of(alloc, row.text.as_bytes())?;
        if shown.bytes() != row.want.as_bytes() {
            return Ok(row.name);
        }
    }
    Ok("none")
}

// Rows of sorts, and of their parts.
const SORTS: [Row; 9] = [
    Row {
        name: "truth values",
        text: "Bool",
        want: "read",
    },
    Row {
        name: "whole numbers",
        text: "|Int|",
        want: "read",
    },
    Row {
        name: "bit vectors",
        text: "(_ BitVec (+ 1 2))",
        want: "read",
    },
    Row {
        name: "arrays",
        text: "(Array Int (Array (_ BitVec 1) Bool))",
        want: "read",
    },
    Row {
        name: "another name",
        text: "(Array Foo Int)",
        want: "1:8 UnknownSymbol",
    },
    Row {
        name: "a word of sorts alone",
        text: "Array",
        want: "1:1 UnknownSymbol",
    },
    Row {
        name: "the first part comes first",
        text: "(Array Foo Bar)",
        want: "1:8 UnknownSymbol",
    },
    Row {
        name: "a fault of the width",
        text: "(_ BitVec n)",
        want: "1:11 UnknownSymbol",
    },
    Row {
        name: "a width that is too large",
        text: "(_ BitVec 170141183460469231731687303715884105728)",
        want: "1:11 TermLimit",
    },
];

// Rows of widths and other forms.
const SORTS_REFUSED: [Row; 10] = [
    Row {
        name: "width 0",
        text: "(Array Int (_ BitVec 0))",
        want: "1:12 BadSort",
    },
    Row {
        name: "the least width",
        text: "(_ BitVec (- (- 170141183460469231731687303715884105727) 1))",
        want: "1:1 BadSort",
    },
    Row {
        name: "another word behind _",
        text: "(_ foo 1)",
        want: "1:1 BadSort",
    },
    Row {
        name: "another head",
        text: "(Foo Int Int)",
        want: "1:1 BadSort",
    },
    Row {
        name: "an array of one part",
        text: "(Array Int)",
        want: "1:1 BadSort",
    },
    Row {
        name: "an array of three parts",
        text: "(Array Int Int Foo)",
        want: "1:1 BadSort",
    },
    Row {
        name: "no width",
        text: "(_ BitVec)",
        want: "1:1 BadSort",
    },
    Row {
        name: "an empty list",
        text: "()",
        want: "1:1 BadSort",
    },
    Row {
        name: "a numeral",
        text: "7",
        want: "1:1 BadSort",
    },
    Row {
        name: "a string",
        text: "\"Int\"",
        want: "1:1 BadSort",
    },
];

#[test]
fn sorts(rt: HostRuntime) -> Result<(), Fail> {
    let alloc = rt.alloc();
    assert_eq!(rt; first_wrong_sort(alloc, &SORTS)?, "none");
    assert_eq!(rt; first_wrong_sort(alloc, &SORTS_REFUSED)?, "none");
    Ok(())
}

// A sort of arrays that are nested so often in their entries.
fn nested(alloc: Global, arrays: usize) -> Result<Text, AllocError> {
    let mut text = Text::new(alloc);
    for _ in 0..arrays {
        text.append(b"(Array Int ")?;
    }
    text.append(b"Int")?;
    for _ in 0..arrays {
        text.push(b')')?;
    }
    Ok(text)
}

#[test]
fn nested_sorts(rt: HostRuntime) -> Result<(), Fail> {
    let alloc = rt.alloc();
    for (arrays, want) in [
        (999, "read"),
        (1000, "1:1 TermLimit"),
        (5000, "1:44001 TermLimit"),
    ] {
        let text = nested(alloc, arrays)?;
        assert!(rt; text.bytes().len() < 100000);
        let shown = sort_of(alloc, text.bytes())?;
        assert!(rt; shown.bytes() == want.as_bytes());
    }
    Ok(())
}

#[test]
fn names(rt: HostRuntime) -> Result<(), Fail> {
    let alloc = rt.alloc();
    let mut scope = Scope::new(alloc);
    assert!(rt; !scope.declares(b"s"));
    scope.declare(b"s", Meaning::Sort(0))?;
    assert!(rt; !scope.declares(b"d"));
    scope.define(b"d", TermId(7))?;
    assert_eq!(rt; scope.find(b"s"), Some(Meaning::Sort(0)));
    assert_eq!(rt; scope.find(b"d"), Some(Meaning::Term(TermId(7))));
    assert_eq!(rt; scope.find(b"e"), None);
    assert_eq!(rt; scope.len(), 2);
    assert_eq!(rt; scope.width_count(), 0);
    assert_eq!(rt; scope.sort_name(0), b"s".as_slice());
    for (name, declared) in [
        ("s", true),
        ("d", true),
        ("bvadd", true),
        ("bv", true),
        ("extract", false),
        ("let", false),
        ("e", false),
    ] {
        assert_eq!(rt; scope.declares(name.as_bytes()), declared, "{name}");
    }
    assert!(rt; is_reserved_name(b"let") && is_reserved_name(b"@1") && !is_reserved_name(b"a@"));
    assert_eq!(rt; number_of_digits(16, b"fF"), Some(255));
    assert_eq!(rt; number_of_digits(2, b"101"), Some(5));
    Ok(())
}
