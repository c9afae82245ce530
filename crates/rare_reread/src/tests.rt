//! Terms that are read from texts and written again, one part of them shared.
ghost use Rattle.std.specs.Prelude.{◌≡◌, ◌<◌, ◌++◌, ◌∷◌, [], length, IfOk, IfSome, OnOk};
ghost use Rattle.rare_sort.specs.Ids.{AreIds};
ghost use Rattle.rare_scope.specs.Names.{AreMeant, IsMeant, IsNext, symbol_names, width_names};
ghost use Rattle.rare_sort.specs.DeclaredSorts.{widths};
ghost use Rattle.rare_term.specs.State.{no_terms, Grows};
ghost use Rattle.rare_reread.specs.inner.Ready.{AreReady, IsDeclared};

use rare_base::Text;
use rare_scope::{Meaning, Scope};
use rare_sexpr::{Next, Reader, Sexpr};
use rare_term::{Ids, Plain, Sort, TermId, Terms};
use rare_term_printing::write_term;
use rare_term_text::read_term;
use std::alloc::{AllocError, Global};
use std::test::Fail;

// What a row says, a text, and what is written of its term.
#[derive(Clone, Copy)]
struct Row {
    name: &'static str,
    text: &'static str,
    want: &'static str,
}

// The term that is shared.
const SHARED: &str = "(f 7)";

// The first expression of a text.
fn expression(alloc: Global, text: &[u8]) -> Result<Option<Sexpr>, AllocError>
    requires { length text.now < 1000000 }
{
    let mut reader = Reader::new(alloc);
    reader.feed(text)?;
    reader.end();
    match reader.next_command() {
        Ok(Next::Command(e)) => Ok(Some(e)),
        _ => Ok(None),
    }
}

// Declares a width name, a constant of Bool and a function from Int to Int.
fn declare<T: Terms>(terms: &mut T) -> Result<(), AllocError>
    requires { T.state terms.old ≡ no_terms }
    ensures { OnOk result (IsDeclared (T.state terms.new)) }
{
    terms.declare_width()?;
    terms.declare_symbol(&[], &Sort::Bool)?;
    terms.declare_symbol(&[Sort::Int], &Sort::Int)?;
    Ok(())
}

// One name more, which does not stand yet.
#[tactic(auto, using(rare_term_text::proofs::Naming::are_pushed))]
fn name<T: Terms>(
    scope: &mut Scope,
    terms: &T,
    name: &[u8],
    meaning: Meaning,
) -> Result<(), AllocError>
    requires held { AreMeant (T.state terms.now) scope.old }
    requires one { IsMeant (T.state terms.now) meaning }
    requires next { IsNext scope.old meaning }
    ensures held { OnOk result (AreMeant (T.state terms.now) scope.new) }
    ensures names { OnOk result (scope.new ≡ scope.old ++ (name.now, meaning) ∷ []) }
{
    if scope.declares(name) {
        return Err(AllocError);
    }
    scope.declare(name, meaning)
}

// The names of what is declared.
fn names<T: Terms>(alloc: Global, terms: &T) -> Result<Scope, AllocError>
    requires { IsDeclared (T.state terms.now) }
    ensures { IfOk result (λ scope. AreReady (T.state terms.now) scope) }
{
    let mut scope = Scope::new(alloc);
    name(&mut scope, terms, b"n", Meaning::Width(0))?;
    name(&mut scope, terms, b"a b", Meaning::Symbol(0))?;
    name(&mut scope, terms, b"f", Meaning::Symbol(1))?;
    Ok(scope)
}

// The id of the term that a text spells over the names.
fn term_of<T: Terms>(
    alloc: Global,
    text: &[u8],
    scope: &Scope,
    terms: &mut T,
) -> Result<Option<TermId>, AllocError>
    requires short { length text.now < 1000000 }
    requires names { AreReady (T.state terms.old) scope.now }
    ensures ready { OnOk result (AreReady (T.state terms.new) scope.now) }
    ensures grows { OnOk result (Grows (T.state terms.old) (T.state terms.new)) }
    ensures id { IfOk result (λ o. IfSome o (λ id. id.0 < length (T.state terms.new).trees)) }
{
    let Some(e) = expression(alloc, text)? else {
        return Ok(None);
    };
    match read_term(alloc, &e, scope, terms) {
        Ok(id) => Ok(Some(id)),
        Err(_) => Ok(None),
    }
}

// What is written of the term of a text, where another may be shared.
fn written<T: Terms>(
    alloc: Global,
    shared: &Ids,
    text: &[u8],
    scope: &Scope,
    terms: &mut T,
) -> Result<Text, AllocError>
    requires short { length text.now < 1000000 }
    requires names { AreReady (T.state terms.old) scope.now }
    requires shared { AreIds (length (T.state terms.old).trees) shared.now }
    ensures ready { OnOk result (AreReady (T.state terms.new) scope.now) }
    ensures shared { OnOk result (AreIds (length (T.state terms.new).trees) shared.now) }
{
    let mut out = Text::new(alloc);
    if let Some(id) = term_of(alloc, text, scope, terms)? {
        write_term(terms, id, scope, shared, &mut out)?;
    }
    Ok(out)
}

// The first row that is written otherwise.
fn first_wrong<T: Terms>(
    alloc: Global,
    rows: &[Row],
    shared: &Ids,
    scope: &Scope,
    terms: &mut T,
) -> Result<&'static str, AllocError>
    requires names { AreReady (T.state terms.old) scope.now }
    requires shared { AreIds (length (T.state terms.old).trees) shared.now }
    ensures ready { OnOk result (AreReady (T.state terms.new) scope.now) }
    ensures shared { OnOk result (AreIds (length (T.state terms.new).trees) shared.now) }
{
    'rows: for row in rows {
        if row.text.len() >= 1000000 {
            return Ok(row.name);
        }
        let shown = written(alloc, shared, row.text.as_bytes(), scope, terms)?;
        if shown.bytes() != row.want.as_bytes() {
            return Ok(row.name);
        }
    }
    Ok("none")
}

const TERMS: [Row; 10] = [
    Row {
        name: "a symbol with bars, under negation",
        text: "(not |a b|)",
        want: "(not |a b|)",
    },
    Row {
        name: "arguments from the left",
        text: "(- 1 2 (- 3))",
        want: "(- 1 2 (- 3))",
    },
    Row {
        name: "the shared term at the root",
        text: "(f 7)",
        want: "(f 7)",
    },
    Row {
        name: "the shared term as a part, at each place",
        text: "(+ (f 7) (f (f 7)))",
        want: "(+ @1 (f @1))",
    },
    Row {
        name: "literals of given value and width",
        text: "(concat #b0101 #xff (_ bv5 2000))",
        want: "(concat (_ bv5 4) (_ bv255 8) (_ bv5 2000))",
    },
    Row {
        name: "a literal whose value and width are numbers, its value reduced",
        text: "(bvnot (bv (- 1) 4))",
        want: "(bvnot (_ bv15 4))",
    },
    Row {
        name: "a literal whose width has a name",
        text: "(bvneg (bv (+ n 1) (* 2 n)))",
        want: "(bvneg (bv (+ n 1) (* 2 n)))",
    },
    Row {
        name: "two indices, the first one greater",
        text: "((_ extract 3 1) #b0101)",
        want: "((_ extract 3 1) (_ bv5 4))",
    },
    Row {
        name: "one index",
        text: "((_ zero_extend n) #b1)",
        want: "((_ zero_extend n) (_ bv1 1))",
    },
    Row {
        name: "constants under a word of signs",
        text: "(=> true false)",
        want: "(=> true false)",
    },
];

#[test]
fn terms_are_written_again(rt: HostRuntime) -> Result<(), Fail> {
    let alloc = rt.alloc();
    let mut terms = Plain::new(alloc);
    declare(&mut terms)?;
    let scope = names(alloc, &terms)?;
    let Some(part) = term_of(alloc, SHARED.as_bytes(), &scope, &mut terms)? else {
        return Err(AllocError.into());
    };
    let mut shared = Ids::new(alloc);
    shared.push(part)?;
    assert_eq!(rt;
        first_wrong(alloc, &TERMS, &shared, &scope, &mut terms)?,
        "none"
    );
    Ok(())
}

// So many negations of `true`.
fn nested(alloc: Global, negations: usize) -> Result<Text, AllocError> {
    let mut text = Text::new(alloc);
    for _ in 0..negations {
        text.append(b"(not ")?;
    }
    text.append(b"true")?;
    for _ in 0..negations {
        text.push(b')')?;
    }
    Ok(text)
}

#[test]
fn deep_terms_are_written_again(rt: HostRuntime) -> Result<(), Fail> {
    let alloc = rt.alloc();
    let mut terms = Plain::new(alloc);
    declare(&mut terms)?;
    let scope = names(alloc, &terms)?;
    let shared = Ids::new(alloc);
    let text = nested(alloc, 1999)?;
    assert!(rt; text.bytes().len() < 100000);
    let shown = written(alloc, &shared, text.bytes(), &scope, &mut terms)?;
    assert!(rt; shown.bytes() == text.bytes());
    Ok(())
}
