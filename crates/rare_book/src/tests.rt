//! Texts of rules, read into a book.
use crate::read::read_book;
use rare_base::{Fault, Reason};
use rare_rule::Book;
use std::alloc::Global;
use std::test::Fail;

const TWO: &str = "(define-rule two ((p Bool)) (not (not p)) p)";

// A text behind the rule `two`, the line, column and reason of its refusal, and how many rules there are
// then.
struct Row {
    name: &'static str,
    text: &'static str,
    refusal: Option<(u32, u32, Reason)>,
    rules: usize,
}

const ROWS: &[Row] = &[
    Row {
        name: "no rule",
        text: " ; nothing\n",
        refusal: None,
        rules: 1,
    },
    Row {
        name: "two rules",
        text: "(define-rule a ((p Bool)) (not (not p)) p)(define-rule b ((x Int)) (abs (abs x)) (abs x))",
        refusal: None,
        rules: 3,
    },
    Row {
        name: "a name of the book, behind a rule",
        text: "(define-rule a ((p Bool)) (not (not p)) p)\n (define-rule two ((p Bool)) p p)",
        refusal: Some((2, 2, Reason::DuplicateName)),
        rules: 2,
    },
    Row {
        name: "a clash comes before a name of the book",
        text: "(define-rule two ((p Bool) (x Int)) (= p x) p)",
        refusal: Some((1, 1, Reason::Clash)),
        rules: 1,
    },
    Row {
        name: "a width beyond the limit",
        text: "(define-rule a ((m Index) (x (BitVec m)))\
            (concat x (concat ((_ zero_extend (* 85070591730234615865843651857942052864 m)) x)\
            ((_ zero_extend (* 85070591730234615865843651857942052864 m)) x))) x)",
        refusal: Some((1, 1, Reason::TermLimit)),
        rules: 1,
    },
    Row {
        name: "a repetition of a named width by a named number",
        text: "(define-rule a ((m Width) (k Index) (x (BitVec m))) (repeat k x) (repeat k x))",
        refusal: Some((1, 1, Reason::NonLinear)),
        rules: 1,
    },
    Row {
        name: "a constraint that never holds",
        text: "(define-rule a ((x (BitVec 4))) (bvnot (extract 4 0 x)) (bvnot (extract 4 0 x)))",
        refusal: Some((1, 1, Reason::NeverHolds)),
        rules: 1,
    },
    Row {
        name: "the end of the text inside a rule, behind one",
        text: "(define-rule a ((p Bool)) (not (not p)) p)(define-rule b",
        refusal: Some((1, 43, Reason::Unbalanced)),
        rules: 2,
    },
];

// The name of the first row whose text does something else.
fn first_wrong(alloc: Global) -> Result<Option<&'static str>, Fault> {
    for row in ROWS {
        let mut book = Book::new(alloc);
        read_book(alloc, TWO.as_bytes(), &mut book)?;
        let refusal = match read_book(alloc, row.text.as_bytes(), &mut book) {
            Ok(()) => None,
            Err(Fault::Refused { place, reason }) => Some((place.line, place.column, reason)),
            Err(Fault::Memory) => return Err(Fault::Memory),
        };
        if refusal != row.refusal || book.len() != row.rules {
            return Ok(Some(row.name));
        }
    }
    Ok(None)
}

#[test]
fn texts_of_rules_are_read(rt: HostRuntime) -> Result<(), Fail> {
    let wrong = first_wrong(rt.alloc());
    assert!(rt; wrong.is_ok());
    if let Ok(wrong) = wrong {
        assert_eq!(rt; wrong, None);
    }
    Ok(())
}
