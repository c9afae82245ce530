//! A term is written with its parts, and a shared part by its name.
use crate::write_term;
use rare_base::Text;
use rare_scope::Scope;
use rare_term::{Head, Ids, Plain, Terms};
use std::alloc::AllocError;
use std::test::Fail;

#[test]
fn terms_are_written(rt: HostRuntime) -> Result<(), Fail> {
    let alloc = rt.alloc();
    let mut terms = Plain::new(alloc);
    let Ok(part) = terms.make(Head::True, &[], &[]) else {
        return Err(AllocError.into());
    };
    let Ok(whole) = terms.make(Head::Not, &[], &[part]) else {
        return Err(AllocError.into());
    };
    let scope = Scope::new(alloc);
    let mut shared = Ids::new(alloc);
    let mut plain = Text::new(alloc);
    write_term(&terms, whole, &scope, &shared, &mut plain)?;
    assert_eq!(rt; plain.bytes(), b"(not true)".as_slice());
    shared.push(whole)?;
    let mut root = Text::new(alloc);
    write_term(&terms, whole, &scope, &shared, &mut root)?;
    assert_eq!(rt; root.bytes(), b"(not true)".as_slice());
    Ok(())
}
