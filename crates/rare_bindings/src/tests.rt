//! Names of a scope and names over them: what each stands for before, in and after a `let`.
use crate::{Bindings, Bound};
use rare_base::Text;
use rare_scope::{Meaning, Scope, WidthNames};
use rare_term::TermId;
use std::test::Fail;

#[test]
fn bound_names_hide_others(rt: HostRuntime) -> Result<(), Fail> {
    let alloc = rt.alloc();
    let mut scope = Scope::new(alloc);
    assert!(rt; !scope.declares(b"n"));
    scope.declare(b"n", Meaning::Width(0))?;
    let mut bound = Bound::new(alloc);
    bound.push(Text::of(alloc, b"p")?, TermId(1))?;
    let outside = bound.len();
    let mut more = Bound::new(alloc);
    more.push(Text::of(alloc, b"p")?, TermId(2))?;
    more.push(Text::of(alloc, b"n")?, TermId(3))?;
    assert!(rt; more.binds(b"n"));
    assert!(rt; !more.binds(b"q"));
    bound.append(more)?;
    let inside = Bindings::new(&scope, &bound);
    assert_eq!(rt; inside.find(b"p"), Some(Meaning::Term(TermId(2))));
    assert_eq!(rt; inside.find(b"n"), Some(Meaning::Term(TermId(3))));
    assert_eq!(rt; inside.number(b"n"), None);
    bound.truncate(outside);
    let after = Bindings::new(&scope, &bound);
    assert_eq!(rt; after.find(b"p"), Some(Meaning::Term(TermId(1))));
    assert_eq!(rt; after.find(b"n"), Some(Meaning::Width(0)));
    assert_eq!(rt; after.number(b"n"), Some(0));
    assert_eq!(rt; after.find(b"q"), None);
    Ok(())
}
