//! Terms of texts: what is read is shown by its operators, what is refused by its place and its reason.
ghost use Rattle.std.specs.Prelude.{◌≡◌, ◌<◌, ◌++◌, ◌∷◌, [], length, IfOk, OnOk};
ghost use Rattle.rare_scope.specs.Names.{AreMeant, IsMeant, IsNext};
ghost use Rattle.rare_scope.specs.declared.meaning.Meaning.TheVariants as meaning;
ghost use Rattle.rare_term.specs.State.{no_terms};
ghost use Rattle.rare_term_text.specs.inner.Declared.{HasDeclared};

use crate::read_term;
use rare_base::{Fault, Text};
use rare_scope::{Meaning, Scope};
use rare_sexpr::{Next, Reader, Sexpr};
use rare_term::{Head, Plain, Sort, TermId, Terms};
use std::alloc::{AllocError, Global};
use std::test::Fail;

// What a row says, a text, and the term that is read, or the place and the reason of its refusal.
#[derive(Clone, Copy)]
struct Row {
    name: &'static str,
    text: &'static str,
    want: &'static str,
}

// The deepest term that is shown.
const MOST_SHOWN: usize = 10;

// The first expression of a text.
fn expression(alloc: Global, text: &[u8]) -> Result<Option<Sexpr>, AllocError>
    requires { length text.now < 1000000 }
{
    let mut reader = Reader::new(alloc);
    reader.feed(text)?;
    reader.end();
    match reader.next_command() {
        Ok(Next::Command(e)) => Ok(Some(e)),
        _ => Ok(None),
    }
}

// Declares a sort, a width name, a constant of Bool and a function from Int to Int, and gives the id of
// `true`.
fn declare<T: Terms>(terms: &mut T) -> Result<TermId, Fail>
    requires { T.state terms.old ≡ no_terms }
    ensures { IfOk result (λ id. HasDeclared (T.state terms.new) id.0) }
{
    terms.declare_sort();
    terms.declare_width()?;
    terms.declare_symbol(&[], &Sort::Bool)?;
    terms.declare_symbol(&[Sort::Int], &Sort::Int)?;
    Ok(terms.make(Head::True, &[], &[])?)
}

// One name more, which does not stand yet.
#[tactic(auto, using(crate::proofs::Naming::are_pushed))]
fn name<T: Terms>(
    scope: &mut Scope,
    terms: &T,
    name: &[u8],
    meaning: Meaning,
) -> Result<(), AllocError>
    requires held { AreMeant (T.state terms.now) scope.old }
    requires one { IsMeant (T.state terms.now) meaning }
    requires next { IsNext scope.old meaning }
    ensures held { OnOk result (AreMeant (T.state terms.now) scope.new) }
    ensures names { OnOk result (scope.new ≡ scope.old ++ (name.now, meaning) ∷ []) }
{
    if scope.declares(name) {
        return Err(AllocError);
    }
    scope.declare(name, meaning)
}

// The names of what is declared, and `d` for the term.
fn names<T: Terms>(alloc: Global, terms: &T, id: TermId) -> Result<Scope, AllocError>
    requires { HasDeclared (T.state terms.now) id.0 }
    ensures { IfOk result (AreMeant (T.state terms.now)) }
{
    let mut scope = Scope::new(alloc);
    name(&mut scope, terms, b"d", Meaning::Term(id))?;
    name(&mut scope, terms, b"s", Meaning::Sort(0))?;
    name(&mut scope, terms, b"n", Meaning::Width(0))?;
    name(&mut scope, terms, b"p", Meaning::Symbol(0))?;
    name(&mut scope, terms, b"f", Meaning::Symbol(1))?;
    Ok(scope)
}

fn show_fault(alloc: Global, out: &mut Text, fault: Fault) -> Result<(), AllocError> {
    match fault {
        Fault::Refused { place, reason } => {
            let place = format!(in alloc; "{}:{} ", place.line, place.column)?;
            out.append(place.as_bytes())?;
            out.append(reason.word().as_bytes())
        }
        Fault::Memory => out.append(b"memory"),
    }
}

// The operator of a term, and behind it its arguments in parentheses.
fn show_term<T: Terms>(
    alloc: Global,
    out: &mut Text,
    terms: &T,
    id: TermId,
    left: usize,
) -> Result<(), AllocError>
    requires { id.0 < length (T.state terms.now).trees }
{
    if left == 0 {
        return out.append(b"..");
    }
    let head = format!(in alloc; "{:?}", terms.head(id))?;
    out.append(head.as_bytes())?;
    for k in 0..terms.arg_count(id) {
        out.append(if k == 0 { b"(" } else { b" " })?;
        show_term(alloc, out, terms, terms.arg(id, k), left - 1)?;
    }
    if terms.arg_count(id) > 0 {
        out.append(b")")?;
    }
    Ok(())
}

// What is read of a text over the names.
#[tactic(auto, using(crate::proofs::Naming::are_kept))]
fn shown<T: Terms>(
    alloc: Global,
    text: &[u8],
    scope: &Scope,
    terms: &mut T,
) -> Result<Text, AllocError>
    requires short { length text.now < 1000000 }
    requires names { AreMeant (T.state terms.old) scope.now }
    ensures { OnOk result (AreMeant (T.state terms.new) scope.now) }
{
    let mut out = Text::new(alloc);
    let Some(e) = expression(alloc, text)? else {
        return Ok(out);
    };
    match read_term(alloc, &e, scope, terms) {
        Ok(id) => show_term(alloc, &mut out, terms, id, MOST_SHOWN)?,
        Err(fault) => show_fault(alloc, &mut out, fault)?,
    }
    Ok(out)
}

// The first row that is answered otherwise.
fn first_wrong_over<T: Terms>(
    alloc: Global,
    terms: &mut T,
    scope: &Scope,
    rows: &[Row],
) -> Result<&'static str, AllocError>
    requires { AreMeant (T.state terms.old) scope.now }
{
    'rows: for row in rows {
        if row.text.len() >= 1000 {
            return Ok(row.name);
        }
        let shown = shown(alloc, row.text.as_bytes(), scope, terms)?;
        if shown.bytes() != row.want.as_bytes() {
            return Ok(row.name);
        }
    }
    Ok("none")
}

// The first row that is answered otherwise, over the names of what is declared.
fn first_wrong<T: Terms>(alloc: Global, terms: &mut T, rows: &[Row]) -> Result<&'static str, Fail>
    requires { T.state terms.old ≡ no_terms }
{
    let id = declare(terms)?;
    let scope = names(alloc, terms, id)?;
    Ok(first_wrong_over(alloc, terms, &scope, rows)?)
}

// Rows of terms that are read.
const READ: [Row; 9] = [
    Row {
        name: "a constant and a defined name",
        text: "(and p d)",
        want: "And(Free(0) True)",
    },
    Row {
        name: "arguments from the left",
        text: "(- 1 (f 2) (- 3))",
        want: "Minus(Numeral(1) Free(1)(Numeral(2)) Neg(Numeral(3)))",
    },
    Row {
        name: "words between bars",
        text: "(|let| ((|a b| p)) (|not| |a b|))",
        want: "Not(Free(0))",
    },
    Row {
        name: "a literal between bars",
        text: "(|_| |bv5| 8)",
        want: "Bits(5)",
    },
    Row {
        name: "a literal of value and width",
        text: "(bv 5 8)",
        want: "Bits(5)",
    },
    Row {
        name: "a literal of a width name",
        text: "(bv 5 n)",
        want: "Literal",
    },
    Row {
        name: "an index",
        text: "((_ extract 1 0) #xA)",
        want: "Extract(Bits(10))",
    },
    Row {
        name: "a numeral with zeros",
        text: "007",
        want: "Numeral(7)",
    },
    Row {
        name: "a chain of one sort",
        text: "(= 1 2 3)",
        want: "Equal(Numeral(1) Numeral(2) Numeral(3))",
    },
];

// Rows of lets that are read.
const LETS: [Row; 8] = [
    Row {
        name: "a name used twice",
        text: "(let ((a (not p))) (or a a))",
        want: "Or(Not(Free(0)) Not(Free(0)))",
    },
    Row {
        name: "bindings side by side",
        text: "(let ((p false) (a p)) (or a p))",
        want: "Or(Free(0) False)",
    },
    Row {
        name: "a name bound in a name bound",
        text: "(let ((p true)) (let ((p (not p))) p))",
        want: "Not(True)",
    },
    Row {
        name: "a name after its let",
        text: "(and (let ((p true)) p) p)",
        want: "And(True Free(0))",
    },
    Row {
        name: "a let in a binding",
        text: "(let ((a (let ((a p)) (not a)))) (not a))",
        want: "Not(Not(Free(0)))",
    },
    Row {
        name: "a word bound as a term",
        text: "(let ((true p)) (not true))",
        want: "Not(Free(0))",
    },
    Row {
        name: "a sign in a linear expression, though bound",
        text: "(let ((+ p)) (bv (+ 1 2) 4))",
        want: "Bits(3)",
    },
    Row {
        name: "a sort hidden by a term",
        text: "(let ((s 1) (f 2)) (+ s f))",
        want: "Add(Numeral(1) Numeral(2))",
    },
];

// Rows of lets that are refused.
const LETS_REFUSED: [Row; 10] = [
    Row {
        name: "a name bound twice",
        text: "(let ((a p) (a p)) a)",
        want: "1:14 BadForm",
    },
    Row {
        name: "a fault before a name bound twice",
        text: "(let ((a zz) (a p)) a)",
        want: "1:10 UnknownSymbol",
    },
    Row {
        name: "a name that begins with @",
        text: "(let ((@a p)) p)",
        want: "1:8 ReservedSymbol",
    },
    Row {
        name: "a reserved word",
        text: "(let ((par zz)) p)",
        want: "1:8 ReservedSymbol",
    },
    Row {
        name: "no binding",
        text: "(let () p)",
        want: "1:6 BadForm",
    },
    Row {
        name: "no term",
        text: "(let ((a zz)))",
        want: "1:1 BadForm",
    },
    Row {
        name: "a symbol in place of bindings",
        text: "(let a p)",
        want: "1:6 BadForm",
    },
    Row {
        name: "a binding without a term",
        text: "(let ((a)) p)",
        want: "1:7 BadForm",
    },
    Row {
        name: "a numeral bound",
        text: "(let ((1 p)) p)",
        want: "1:8 BadForm",
    },
    Row {
        name: "a binding over one beside it",
        text: "(let ((a p) (b a)) b)",
        want: "1:16 UnknownSymbol",
    },
];

// Rows of names that `let`s hide, and of heads.
const HIDDEN: [Row; 8] = [
    Row {
        name: "a name left",
        text: "(and (let ((a p)) a) a)",
        want: "1:22 UnknownSymbol",
    },
    Row {
        name: "a word hidden as a head",
        text: "(let ((and p)) (and p p))",
        want: "1:17 UnknownSymbol",
    },
    Row {
        name: "bv hidden as a head",
        text: "(let ((bv p)) (bv 1 4))",
        want: "1:16 UnknownSymbol",
    },
    Row {
        name: "a width hidden",
        text: "(let ((n p)) (bv 1 n))",
        want: "1:20 UnknownSymbol",
    },
    Row {
        name: "a bound name alone in a list",
        text: "(let ((a p)) (a))",
        want: "1:14 BadForm",
    },
    Row {
        name: "a defined name with arguments",
        text: "(d zz)",
        want: "1:2 UnknownSymbol",
    },
    Row {
        name: "a constant with arguments",
        text: "(p zz)",
        want: "1:4 UnknownSymbol",
    },
    Row {
        name: "an operator with an attribute",
        text: "(! p :named x)",
        want: "1:2 UnknownSymbol",
    },
];

// Rows of lists that are refused.
const LISTS_REFUSED: [Row; 10] = [
    Row {
        name: "an empty list",
        text: "(not ())",
        want: "1:6 BadForm",
    },
    Row {
        name: "a constant alone in a list",
        text: "(not (p))",
        want: "1:6 BadForm",
    },
    Row {
        name: "an operator alone in a list",
        text: "(not (and))",
        want: "1:6 IllSorted",
    },
    Row {
        name: "an argument's fault before the sort",
        text: "(f (and p) zz)",
        want: "1:4 IllSorted",
    },
    Row {
        name: "another sort",
        text: "(not (f p))",
        want: "1:6 IllSorted",
    },
    Row {
        name: "a head before its arguments",
        text: "(zz (and))",
        want: "1:2 UnknownSymbol",
    },
    Row {
        name: "indices before arguments",
        text: "((_ extract zz 0) (and))",
        want: "1:13 UnknownSymbol",
    },
    Row {
        name: "another word with indices",
        text: "((_ foo zz) (and))",
        want: "1:5 BadForm",
    },
    Row {
        name: "a head that is a list of another form",
        text: "((not) (and))",
        want: "1:2 BadForm",
    },
    Row {
        name: "an operator with indices, alone",
        text: "(_ zero_extend 1)",
        want: "1:4 BadForm",
    },
];

// Rows of atoms that are refused.
const ATOMS_REFUSED: [Row; 7] = [
    Row {
        name: "a function alone",
        text: "f",
        want: "1:1 UnknownSymbol",
    },
    Row {
        name: "a word alone",
        text: "and",
        want: "1:1 UnknownSymbol",
    },
    Row {
        name: "a sort",
        text: "(not s)",
        want: "1:6 UnknownSymbol",
    },
    Row {
        name: "a width",
        text: "(f n)",
        want: "1:4 UnknownSymbol",
    },
    Row {
        name: "a keyword",
        text: ":p",
        want: "1:1 BadForm",
    },
    Row {
        name: "a decimal",
        text: "(f 1.5)",
        want: "1:4 BadForm",
    },
    Row {
        name: "a numeral that is too large",
        text: "(f 170141183460469231731687303715884105728)",
        want: "1:4 LiteralTooWide",
    },
];

#[test]
fn terms_are_read(rt: HostRuntime) -> Result<(), Fail> {
    let alloc = rt.alloc();
    let mut terms = Plain::new(alloc);
    assert_eq!(rt; first_wrong(alloc, &mut terms, &READ)?, "none");
    Ok(())
}

#[test]
fn lets_are_read(rt: HostRuntime) -> Result<(), Fail> {
    let alloc = rt.alloc();
    let mut terms = Plain::new(alloc);
    assert_eq!(rt; first_wrong(alloc, &mut terms, &LETS)?, "none");
    Ok(())
}

#[test]
fn lets_are_refused(rt: HostRuntime) -> Result<(), Fail> {
    let alloc = rt.alloc();
    let mut terms = Plain::new(alloc);
    assert_eq!(rt; first_wrong(alloc, &mut terms, &LETS_REFUSED)?, "none");
    Ok(())
}

#[test]
fn hidden_names_are_refused(rt: HostRuntime) -> Result<(), Fail> {
    let alloc = rt.alloc();
    let mut terms = Plain::new(alloc);
    assert_eq!(rt; first_wrong(alloc, &mut terms, &HIDDEN)?, "none");
    Ok(())
}

#[test]
fn lists_are_refused(rt: HostRuntime) -> Result<(), Fail> {
    let alloc = rt.alloc();
    let mut terms = Plain::new(alloc);
    assert_eq!(rt; first_wrong(alloc, &mut terms, &LISTS_REFUSED)?, "none");
    Ok(())
}

#[test]
fn atoms_are_refused(rt: HostRuntime) -> Result<(), Fail> {
    let alloc = rt.alloc();
    let mut terms = Plain::new(alloc);
    assert_eq!(rt; first_wrong(alloc, &mut terms, &ATOMS_REFUSED)?, "none");
    Ok(())
}

// Terms in one another, each by this front and this back.
fn nested(alloc: Global, front: &[u8], back: &[u8], count: usize) -> Result<Text, AllocError> {
    let mut text = Text::new(alloc);
    for _ in 0..count {
        text.append(front)?;
    }
    text.append(b"p")?;
    for _ in 0..count {
        text.append(back)?;
    }
    Ok(text)
}

// The answer to a text, to its first bytes.
fn answer<T: Terms>(alloc: Global, terms: &mut T, text: &Text) -> Result<Text, Fail>
    requires { T.state terms.old ≡ no_terms }
{
    let id = declare(terms)?;
    let scope = names(alloc, terms, id)?;
    if text.bytes().len() >= 1000000 {
        return Ok(Text::new(alloc));
    }
    Ok(shown(alloc, text.bytes(), &scope, terms)?)
}

// A term may nest 2,000 deep, and a text 5,000.
#[test]
fn deep_terms(rt: HostRuntime) -> Result<(), Fail> {
    let alloc = rt.alloc();
    let most = "Not(Not(Not(Not(Not(Not(Not(Not(Not(Not(..))))))))))";
    for (front, back, count, want) in [
        ("(not ", ")", 1999, most),
        ("(not ", ")", 2000, "1:1 TermLimit"),
        ("(not ", ")", 5000, "1:15001 TermLimit"),
        ("(let ((a (not p))) ", ")", 4997, "Free(0)"),
        ("(let ((a ", ")) p)", 1666, "Free(0)"),
    ] {
        let mut terms = Plain::new(alloc);
        let text = nested(alloc, front.as_bytes(), back.as_bytes(), count)?;
        let shown = answer(alloc, &mut terms, &text)?;
        assert!(rt; shown.bytes() == want.as_bytes());
    }
    Ok(())
}
