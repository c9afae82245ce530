//! The book that is shipped: names, places, how many constraints there are, and each rule as it is
//! printed.
use super::*;
use crate::table::TABLE;
use rare_base::Text;
use rare_rule_printing::print_rule;
use std::test::Fail;

#[test]
fn the_rules_stand_in_order(rt: HostRuntime) -> Result<(), Fail> {
    let book = shipped(rt.alloc())?;
    assert_eq!(rt; book.len(), 96);
    for (name, place, constraints) in [
        ("bool-not-not", 0, 0),
        ("distinct-elim", 31, 0),
        ("int-add-zero", 32, 0),
        ("int-abs-elim", 51, 0),
        ("arr-store-swap", 57, 0),
        ("bv-add-zero", 58, 0),
        ("bv-urem-zero", 72, 0),
        ("bv-extract-extract", 91, 5),
        ("bv-zero-extend", 95, 1),
    ] {
        assert_eq!(rt; book.find(name.as_bytes()), Some(place), "{name}");
        assert!(rt; place < book.len());
        assert!(rt; book.is_shipped(place), "{name}");
        assert_eq!(rt; book.rule(place).constraints().len(), constraints, "{name}");
    }
    assert_eq!(rt; book.find(b"bv-or-dup".as_slice()), None);
    Ok(())
}

#[test]
fn the_rules_are_those_of_the_table(rt: HostRuntime) -> Result<(), Fail> {
    let alloc = rt.alloc();
    let book = shipped(alloc)?;
    assert_eq!(rt; book.len(), TABLE.len());
    for k in 0..book.len() {
        let mut text = Text::new(alloc);
        print_rule(book.rule(k).rule(), &mut text)?;
        assert_eq!(rt; text.bytes(), TABLE[k].as_bytes(), "{k}");
    }
    Ok(())
}
