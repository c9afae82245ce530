//! The book of the 96 shipped rules, each of which holds.
#![tactic(auto)]

ghost use Rattle.std.specs.Prelude.{◌≡◌, ◌++◌, IfOk, OnOk, length};
ghost use Rattle.rare_meaning.specs.Interpretations.{FunctionClass};
ghost use Rattle.rare_shipped.specs.ShippedBook.{HoldIn, NamesDiffer, shipped_book, shipped_rules};

use rare_rule::{Book, TypedRules};
use std::alloc::{AllocError, Global};

/// Adds the rules, marked as shipped. An error is want of memory, or a name that stands in the book.
fn add_rules(book: &mut Book, rules: TypedRules) -> Result<(), AllocError>
    ensures { OnOk result (book.new ≡ book.old ++ shipped_rules rules) }
{
    let mut rules = rules;
    if rules.is_empty() {
        return Ok(());
    }
    let rest = rules.split_off(1)?;
    let first = rules.pop();
    let Ok(()) = book.add(first, true) else {
        return Err(AllocError);
    };
    add_rules(book, rest)
}

fn book_of_rules(alloc: Global) -> Result<Book, AllocError>
    ensures exact { IfOk result (λ book. book ≡ shipped_book) }
{
    let mut book = Book::new(alloc);
    add_rules(&mut book, rare_laws_core::rules(alloc)?)?;
    add_rules(&mut book, rare_laws_int::rules(alloc)?)?;
    add_rules(&mut book, rare_laws_array::rules(alloc)?)?;
    add_rules(&mut book, rare_laws_bvarith::rules(alloc)?)?;
    add_rules(&mut book, rare_laws_bvbits::rules(alloc)?)?;
    Ok(book)
}

/// The 96 shipped rules in order, each marked as shipped. An error is want of memory.
#[tactic(auto, using(crate::proofs::ShippedLemmas::book_length, crate::proofs::ShippedLemmas::book_names, crate::proofs::ShippedLemmas::book_holds))]
pub fn shipped(alloc: Global) -> Result<Book, AllocError>
    ensures exact { IfOk result (λ book. book ≡ shipped_book) }
    ensures count { IfOk result (λ book. length book ≡ 96) }
    ensures names { IfOk result NamesDiffer }
    ensures hold { IfOk result (λ book. (c : FunctionClass) → HoldIn c book) }
{
    let book = book_of_rules(alloc)?;
    Ok(book)
}

#[cfg(test)]
mod table;
#[cfg(test)]
mod tests;
