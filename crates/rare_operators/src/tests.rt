//! Atoms, literals and heads of lists: what is read is shown by its operator and the numbers of its indices,
//! what is refused by its place and its reason.
ghost use Rattle.std.specs.Prelude.{◌≡◌, ◌<◌, ◌++◌, [], length, IfOk, OnOk};
ghost use Rattle.rare_scope.specs.Names.{AreMeant};
ghost use Rattle.rare_term.specs.State.{no_terms};

use crate::{application_at, read_atom, read_decimal_literal, read_head, read_linear_literal};
use rare_base::{Fault, Text};
use rare_bindings::{Bindings, Bound};
use rare_linear::Linear;
use rare_scope::{Meaning, Scope, is_list, is_word_at};
use rare_sexpr::{Expr, Next, Reader, Sexpr};
use rare_sort::number_of;
use rare_term::{Head, Plain, Sort, TermId, Terms};
use std::alloc::{AllocError, Global};
use std::test::Fail;

// What a row says, a text, and the operator that it reads as or the place and the reason of its refusal.
#[derive(Clone, Copy)]
struct Row {
    name: &'static str,
    text: &'static str,
    want: &'static str,
}

// The first expression of a text.
fn expression(alloc: Global, text: &[u8]) -> Result<Option<Sexpr>, AllocError>
    requires { length text.now < 1000000 }
{
    let mut reader = Reader::new(alloc);
    reader.feed(text)?;
    reader.end();
    match reader.next_command() {
        Ok(Next::Command(e)) => Ok(Some(e)),
        _ => Ok(None),
    }
}

fn show_fault(alloc: Global, out: &mut Text, fault: Fault) -> Result<(), AllocError> {
    match fault {
        Fault::Refused { place, reason } => {
            let place = format!(in alloc; "{}:{} ", place.line, place.column)?;
            out.append(place.as_bytes())?;
            out.append(reason.word().as_bytes())
        }
        Fault::Memory => out.append(b"memory"),
    }
}

fn show_operator(alloc: Global, out: &mut Text, head: Head) -> Result<(), AllocError> {
    let shown = format!(in alloc; "{:?}", head)?;
    out.append(shown.as_bytes())
}

// An index by its number, or a question mark where it has names.
fn show_index(alloc: Global, out: &mut Text, index: &Linear) -> Result<(), AllocError> {
    match number_of(index) {
        Some(n) => {
            let shown = format!(in alloc; " {}", n)?;
            out.append(shown.as_bytes())
        }
        None => out.append(b" ?"),
    }
}

fn show_term<T: Terms>(
    alloc: Global,
    out: &mut Text,
    read: Result<TermId, Fault>,
    terms: &T,
) -> Result<(), AllocError>
    requires { IfOk read (λ id. id.0 < length (T.state terms.now).trees) }
{
    match read {
        Ok(id) => {
            show_operator(alloc, out, terms.head(id))?;
            for k in 0..terms.index_count(id) {
                show_index(alloc, out, terms.index(id, k))?;
            }
            Ok(())
        }
        Err(fault) => show_fault(alloc, out, fault),
    }
}

// The operator at the head of a list, or the term that the list is where it has no arguments.
fn show_head<T: Terms>(
    alloc: Global,
    out: &mut Text,
    e: &Sexpr,
    names: &Bindings,
    terms: &mut T,
) -> Result<(), AllocError>
    requires { AreMeant (T.state terms.old) names.now }
{
    if e.len() == 0 {
        return Ok(());
    }
    let arguments = e.len() - 1;
    match read_head(alloc, e, e.item(0), arguments, names, terms) {
        Ok(operator) => {
            if arguments == 0 {
                let read = application_at(e, operator.head, operator.indices.items(), &[], terms);
                return show_term(alloc, out, read, terms);
            }
            show_operator(alloc, out, operator.head)?;
            for index in operator.indices.items() {
                show_index(alloc, out, index)?;
            }
            Ok(())
        }
        Err(fault) => show_fault(alloc, out, fault),
    }
}

fn show<T: Terms>(
    alloc: Global,
    out: &mut Text,
    e: &Sexpr,
    names: &Bindings,
    terms: &mut T,
) -> Result<(), AllocError>
    requires { AreMeant (T.state terms.old) names.now }
{
    if !is_list(e) {
        let read = read_atom(alloc, e, names, terms);
        return show_term(alloc, out, read, terms);
    }
    if e.len() > 0 && is_word_at(e.item(0), "_") {
        let read = read_decimal_literal(alloc, e, terms);
        return show_term(alloc, out, read, terms);
    }
    if e.len() > 0 && is_word_at(e.item(0), "bv") {
        let read = read_linear_literal(alloc, e, names, terms);
        return show_term(alloc, out, read, terms);
    }
    show_head(alloc, out, e, names, terms)
}

// Declares a width n, a constant p and a function f, and binds d to a term.
fn declare_names<T: Terms>(
    alloc: Global,
    scope: &mut Scope,
    bound: &mut Bound,
    terms: &mut T,
) -> Result<(), Fail>
    requires scope { scope.old ≡ [] }
    requires bound { bound.old ≡ [] }
    requires terms { T.state terms.old ≡ no_terms }
    ensures { OnOk result (AreMeant (T.state terms.new) (scope.new ++ bound.new)) }
{
    let id = terms.make(Head::True, &[], &[])?;
    let width = terms.declare_width()?;
    let constant = terms.declare_symbol(&[], &Sort::Bool)?;
    let function = terms.declare_symbol(&[Sort::Bool], &Sort::Bool)?;
    scope.declare(b"n", Meaning::Width(width))?;
    scope.declare(b"p", Meaning::Symbol(constant))?;
    scope.declare(b"f", Meaning::Symbol(function))?;
    bound.push(Text::of(alloc, b"d")?, id)?;
    Ok(())
}

fn answer_to<T: Terms + Drop>(alloc: Global, text: &[u8], terms: T) -> Result<Text, Fail>
    requires small { length text.now < 1000000 }
    requires terms { T.state terms ≡ no_terms }
{
    let mut out = Text::new(alloc);
    let Some(e) = expression(alloc, text)? else {
        return Ok(out);
    };
    let mut terms = terms;
    let mut scope = Scope::new(alloc);
    let mut bound = Bound::new(alloc);
    declare_names(alloc, &mut scope, &mut bound, &mut terms)?;
    let names = Bindings::new(&scope, &bound);
    show(alloc, &mut out, &e, &names, &mut terms)?;
    Ok(out)
}

// The first row that is answered otherwise.
fn first_wrong(alloc: Global, rows: &[Row]) -> Result<&'static str, Fail> {
    for row in rows {
        if row.text.len() >= 1000 {
            return Ok(row.name);
        }
        let answer = answer_to(alloc, row.text.as_bytes(), Plain::new(alloc))?;
        if answer.bytes() != row.want.as_bytes() {
            return Ok(row.name);
        }
    }
    Ok("none")
}

// Rows of atoms.
const ATOMS: [Row; 10] = [
    Row {
        name: "a truth value",
        text: "true",
        want: "True",
    },
    Row {
        name: "leading zeros",
        text: "007",
        want: "Numeral(7)",
    },
    Row {
        name: "the largest numeral",
        text: "170141183460469231731687303715884105727",
        want: "Numeral(170141183460469231731687303715884105727)",
    },
    Row {
        name: "a greater numeral",
        text: "170141183460469231731687303715884105728",
        want: "1:1 LiteralTooWide",
    },
    Row {
        name: "a constant between bars",
        text: "|p|",
        want: "Free(0)",
    },
    Row {
        name: "a name of a term",
        text: "d",
        want: "True",
    },
    Row {
        name: "a function",
        text: "f",
        want: "1:1 UnknownSymbol",
    },
    Row {
        name: "a word with arguments",
        text: "and",
        want: "1:1 UnknownSymbol",
    },
    Row {
        name: "a name of a width",
        text: "n",
        want: "1:1 UnknownSymbol",
    },
    Row {
        name: "a decimal",
        text: "1.5",
        want: "1:1 BadForm",
    },
];

// Rows of literals that are read.
const LITERALS: [Row; 9] = [
    Row {
        name: "binary digits",
        text: "#b0101",
        want: "Bits(5) 4",
    },
    Row {
        name: "hexadecimal digits of either case",
        text: "#xfF",
        want: "Bits(255) 8",
    },
    Row {
        name: "value and width",
        text: "(_ bv7 3)",
        want: "Bits(7) 3",
    },
    Row {
        name: "words between bars",
        text: "(|_| |bv5| 8)",
        want: "Bits(5) 8",
    },
    Row {
        name: "the largest value",
        text: "(_ bv340282366920938463463374607431768211455 200)",
        want: "Bits(340282366920938463463374607431768211455) 200",
    },
    Row {
        name: "the largest width",
        text: "(_ bv0 170141183460469231731687303715884105727)",
        want: "Bits(0) 170141183460469231731687303715884105727",
    },
    Row {
        name: "a value that is reduced",
        text: "(bv (- 1) 8)",
        want: "Bits(255) 8",
    },
    Row {
        name: "a width with a name",
        text: "(bv 1 n)",
        want: "Literal 1 ?",
    },
    Row {
        name: "a value with a name",
        text: "(bv n 200)",
        want: "Literal ? 200",
    },
];

// Rows of literals that are refused.
const LITERALS_REFUSED: [Row; 9] = [
    Row {
        name: "width 0",
        text: "(_ bv5 0)",
        want: "1:1 IllSorted",
    },
    Row {
        name: "a value of more bits",
        text: "(_ bv8 3)",
        want: "1:1 LiteralTooWide",
    },
    Row {
        name: "a greater value",
        text: "(_ bv340282366920938463463374607431768211456 200)",
        want: "1:1 LiteralTooWide",
    },
    Row {
        name: "the width comes first",
        text: "(_ bv340282366920938463463374607431768211456 0)",
        want: "1:1 IllSorted",
    },
    Row {
        name: "a greater width",
        text: "(_ bv0 170141183460469231731687303715884105728)",
        want: "1:8 TermLimit",
    },
    Row {
        name: "a linear width of 0",
        text: "(bv 1 0)",
        want: "1:1 IllSorted",
    },
    Row {
        name: "a negative value of a great width",
        text: "(bv (- 1) 200)",
        want: "1:1 LiteralTooWide",
    },
    Row {
        name: "another name as the value",
        text: "(bv m 8)",
        want: "1:5 UnknownSymbol",
    },
    Row {
        name: "a binary literal of 129 digits",
        text: "#b100000000000000000000000000000000000000000000000000000000000000000000000000000000000000000000000000000000000000000000000000000000",
        want: "1:1 LiteralTooWide",
    },
];

// Rows of lists that are no literals.
const LITERALS_OF_OTHER_FORMS: [Row; 7] = [
    Row {
        name: "another word",
        text: "(_ foo 1)",
        want: "1:4 BadForm",
    },
    Row {
        name: "an operator with an index",
        text: "(_ zero_extend 1)",
        want: "1:4 BadForm",
    },
    Row {
        name: "no digits",
        text: "(_ bv 8)",
        want: "1:4 BadForm",
    },
    Row {
        name: "a byte that is no digit",
        text: "(_ bv5a 8)",
        want: "1:4 BadForm",
    },
    Row {
        name: "a name as the width",
        text: "(_ bv5 n)",
        want: "1:8 BadForm",
    },
    Row {
        name: "four items",
        text: "(_ extract 1 0)",
        want: "1:1 BadForm",
    },
    Row {
        name: "two items",
        text: "(bv m)",
        want: "1:1 BadForm",
    },
];

// Rows of operators.
const OPERATORS: [Row; 9] = [
    Row {
        name: "a minus of one",
        text: "(- 5)",
        want: "Neg",
    },
    Row {
        name: "a minus of two",
        text: "(- 5 3)",
        want: "Minus",
    },
    Row {
        name: "a difference of words",
        text: "(bvsub x y)",
        want: "BvSub",
    },
    Row {
        name: "a sum of words",
        text: "(bvadd x y)",
        want: "BvAdd",
    },
    Row {
        name: "a slice",
        text: "((_ extract n 0) x)",
        want: "Extract ? 0",
    },
    Row {
        name: "a rotation",
        text: "((_ rotate_left 3) x)",
        want: "RotateLeft 3",
    },
    Row {
        name: "a function",
        text: "(f x)",
        want: "Free(1)",
    },
    Row {
        name: "a constant with arguments",
        text: "(p x)",
        want: "Free(0)",
    },
    Row {
        name: "a truth value with arguments",
        text: "(true x)",
        want: "True",
    },
];

// Rows of heads that are refused.
const OPERATORS_REFUSED: [Row; 9] = [
    Row {
        name: "another word behind _",
        text: "((_ foo 1) x)",
        want: "1:5 BadForm",
    },
    Row {
        name: "one index of two",
        text: "((_ extract 1) x)",
        want: "1:2 BadForm",
    },
    Row {
        name: "two indices of one",
        text: "((_ repeat 1 1) x)",
        want: "1:2 BadForm",
    },
    Row {
        name: "a fault of an index",
        text: "((_ extract 1 m) x)",
        want: "1:15 UnknownSymbol",
    },
    Row {
        name: "a list without _",
        text: "((not) p)",
        want: "1:2 BadForm",
    },
    Row {
        name: "a numeral",
        text: "(5 x)",
        want: "1:2 BadForm",
    },
    Row {
        name: "another word",
        text: "(forall x)",
        want: "1:2 UnknownSymbol",
    },
    Row {
        name: "a name of a term",
        text: "(d x)",
        want: "1:2 UnknownSymbol",
    },
    Row {
        name: "a name of a width",
        text: "(n x)",
        want: "1:2 UnknownSymbol",
    },
];

// Rows of heads alone in their lists.
const ALONE: [Row; 7] = [
    Row {
        name: "a truth value",
        text: "(true)",
        want: "1:1 BadForm",
    },
    Row {
        name: "a constant",
        text: "(p)",
        want: "1:1 BadForm",
    },
    Row {
        name: "a name of a term",
        text: "(d)",
        want: "1:1 BadForm",
    },
    Row {
        name: "a function",
        text: "(f)",
        want: "1:1 IllSorted",
    },
    Row {
        name: "a word",
        text: "(and)",
        want: "1:1 IllSorted",
    },
    Row {
        name: "a minus",
        text: "(-)",
        want: "1:1 IllSorted",
    },
    Row {
        name: "another word",
        text: "(foo)",
        want: "1:2 UnknownSymbol",
    },
];

#[test]
fn atoms(rt: HostRuntime) -> Result<(), Fail> {
    assert_eq!(rt; first_wrong(rt.alloc(), &ATOMS)?, "none");
    Ok(())
}

#[test]
fn literals_are_read(rt: HostRuntime) -> Result<(), Fail> {
    assert_eq!(rt; first_wrong(rt.alloc(), &LITERALS)?, "none");
    Ok(())
}

#[test]
fn literals_are_refused(rt: HostRuntime) -> Result<(), Fail> {
    assert_eq!(rt; first_wrong(rt.alloc(), &LITERALS_REFUSED)?, "none");
    Ok(())
}

#[test]
fn lists_that_are_no_literals(rt: HostRuntime) -> Result<(), Fail> {
    assert_eq!(rt; first_wrong(rt.alloc(), &LITERALS_OF_OTHER_FORMS)?, "none");
    Ok(())
}

#[test]
fn operators_are_read(rt: HostRuntime) -> Result<(), Fail> {
    assert_eq!(rt; first_wrong(rt.alloc(), &OPERATORS)?, "none");
    Ok(())
}

#[test]
fn operators_are_refused(rt: HostRuntime) -> Result<(), Fail> {
    assert_eq!(rt; first_wrong(rt.alloc(), &OPERATORS_REFUSED)?, "none");
    Ok(())
}

#[test]
fn heads_alone(rt: HostRuntime) -> Result<(), Fail> {
    assert_eq!(rt; first_wrong(rt.alloc(), &ALONE)?, "none");
    Ok(())
}
