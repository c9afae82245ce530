//! Sorts and trees as deep as they may be, and each public call once.
use crate::{
    Declarations, Family, Head, Ruling, Signatures, Sort, Tree, Trees, are_same_linears,
    copy_linears, family_of, follows_in, is_same_head, is_same_sort, more_constraints_keep_sorts,
    nodes_are_sorted_by_rule, number_of, ruling_of, sameness_is_decided, terms_have_one_sort,
    terms_have_their_sort,
};
use rare_linear::{Constraints, Linear, Linears};
use rare_list::{Boxed, Sequence};
use std::alloc::{AllocError, Global};
use std::test::Fail;

/// `not` of `true`, nested this deep over it.
fn deep_tree(alloc: Global, times: usize) -> Result<Tree, AllocError> {
    let mut tree = Tree {
        head: Head::True,
        indices: Linears::new(alloc),
        args: Trees::new(alloc),
    };
    for _ in 0..times {
        let mut args = Trees::new(alloc);
        args.push(tree)?;
        tree = Tree {
            head: Head::Not,
            indices: Linears::new(alloc),
            args,
        };
    }
    Ok(tree)
}

/// Whether two trees have one operator, the same indices, and one by one the same arguments.
fn are_one(a: &Tree, b: &Tree) -> bool {
    if !is_same_head(a.head, b.head) || a.args.len() != b.args.len() {
        return false;
    }
    if !are_same_linears(a.indices.items(), b.indices.items()) {
        return false;
    }
    for (k, arg) in a.args.items().iter().enumerate() {
        if !are_one(arg, b.args.get(k)) {
            return false;
        }
    }
    true
}

/// Arrays from Bool, nested this deep over the last entries' sort.
fn deep_sort(alloc: Global, last: Sort, times: usize) -> Result<Sort, AllocError> {
    let mut sort = last;
    for _ in 0..times {
        sort = Sort::Array(Boxed::new(alloc, Sort::Bool)?, Boxed::new(alloc, sort)?);
    }
    Ok(sort)
}

#[test]
fn deep_sorts_are_copied_and_compared(rt: HostRuntime) -> Result<(), Fail> {
    let alloc = rt.alloc();
    let sort = deep_sort(alloc, Sort::Int, 999)?;
    let other = deep_sort(alloc, Sort::Bool, 999)?;
    let copy = sort.copy(alloc)?;
    assert!(rt; is_same_sort(&sort, &copy));
    assert!(rt; !is_same_sort(&sort, &other));
    Ok(())
}

#[test]
fn deep_trees_are_copied_and_compared(rt: HostRuntime) -> Result<(), Fail> {
    let alloc = rt.alloc();
    let tree = deep_tree(alloc, 1999)?;
    let copy = tree.copy(alloc)?;
    assert!(rt; are_one(&tree, &copy));
    assert!(rt; !are_one(&tree, &deep_tree(alloc, 1998)?));
    Ok(())
}

#[test]
fn expressions_are_copied_and_read(rt: HostRuntime) -> Result<(), Fail> {
    let alloc = rt.alloc();
    let row = [Linear::constant(alloc, 7), Linear::name(alloc, 0)?];
    let copy = copy_linears(alloc, &row)?;
    assert!(rt; are_same_linears(&row, copy.items()));
    assert!(rt; !are_same_linears(&row, &[]));
    assert_eq!(rt; number_of(&row[0]), Some(7));
    assert_eq!(rt; number_of(&row[1]), None);
    Ok(())
}

#[test]
fn nothing_declared_rules(rt: HostRuntime) -> Result<(), Fail> {
    let alloc = rt.alloc();
    let declared = Declarations {
        sorts: 0,
        symbols: Signatures::new(alloc),
        lows: Sequence::new(alloc),
        constraints: Constraints::new(alloc),
    };
    assert!(rt; follows_in(&declared, &Linear::constant(alloc, 0)));
    assert!(rt; !follows_in(&declared, &Linear::constant(alloc, -1)));
    assert_eq!(rt; family_of(Head::Extract), Family::Extract);
    let ruling = ruling_of(alloc, &declared, Head::True, &[], &[], &[])?;
    assert!(rt; matches!(ruling, Ruling::Has(Sort::Bool)));
    let ruling = ruling_of(alloc, &declared, Head::Not, &[], &[], &[])?;
    assert!(rt; matches!(ruling, Ruling::Ill));
    more_constraints_keep_sorts();
    nodes_are_sorted_by_rule();
    sameness_is_decided();
    terms_have_one_sort();
    terms_have_their_sort();
    Ok(())
}
