//! Books: each rule is found by its whole name, and keeps its place.
ghost use Rattle.std.specs.Prelude.{◌≡◌, [], IfOk};
ghost use Rattle.rare_sort.specs.declared.head.Head.TheVariants as head;
ghost use Rattle.rare_rule.specs.Written.{apply, plain_rule};

use super::*;
use rare_base::Text;
use rare_linear::{Constraints, Linears};
use rare_sort::{Head, Tree, Trees};
use std::alloc::{AllocError, Global};
use std::test::Fail;

fn truth(alloc: Global) -> Tree
    ensures { result ≡ apply head.True [] }
{
    Tree {
        head: Head::True,
        indices: Linears::new(alloc),
        args: Trees::new(alloc),
    }
}

/// `(define-rule NAME () true true)`
fn trivial(alloc: Global, name: &[u8]) -> Result<Rule, AllocError>
    ensures { IfOk result (λ r. r ≡ plain_rule name.now [] [] (apply head.True [])
        (apply head.True [])) }
{
    Ok(Rule {
        name: Text::of(alloc, name)?,
        kind: RuleKind::Plain,
        params: Params::new(alloc),
        bounds: Constraints::new(alloc),
        premises: Trees::new(alloc),
        left: truth(alloc),
        right: truth(alloc),
        context: None,
    })
}

fn named(alloc: Global, name: &[u8]) -> Result<Typed, AllocError>
    ensures { IfOk result (λ t. t.rule.name ≡ name.now) }
{
    let rule = trivial(alloc, name)?;
    Ok(Typed::from_parts(rule, Constraints::new(alloc)))
}

#[test]
fn a_book_keeps_its_rules(rt: HostRuntime) -> Result<(), Fail> {
    let alloc = rt.alloc();
    let mut book = Book::new(alloc);
    assert_eq!(rt; book.len(), 0);
    for (name, shipped, want) in [
        ("ite-true", true, Ok(())),
        ("ite", false, Ok(())),
        ("ite-true", false, Err(BookError::DuplicateName)),
        ("ite-false", false, Ok(())),
    ] {
        let rule = named(alloc, name.as_bytes())?;
        assert_eq!(rt; book.add(rule, shipped), want, "{name}");
    }
    assert_eq!(rt; book.len(), 3);
    for (name, place) in [
        ("ite-true", Some(0)),
        ("ite", Some(1)),
        ("ite-false", Some(2)),
        ("ite-", None),
        ("", None),
    ] {
        assert_eq!(rt; book.find(name.as_bytes()), place, "{name}");
    }
    for (k, shipped) in [(0, true), (1, false), (2, false)] {
        assert!(rt; k < book.len());
        assert_eq!(rt; book.is_shipped(k), shipped);
        assert_eq!(rt; book.rule(k).constraints().len(), 0);
    }
    assert!(rt; 1 < book.len());
    assert_eq!(rt; book.rule(1).rule().name.bytes(), b"ite".as_slice());
    Ok(())
}
