//! Rules in the order in which they were added, each found by its name.
ghost use Rattle.std.specs.Prelude.{◌≡◌, ◌↔◌, ◌<◌, [], ◌∷◌, ◌++◌, length, Some, Err, IsTrue, position, slice_get, OnOk, OnErr};
ghost use Rattle.rare_rule.specs.Books.{AreTyped, book_rule, has_name, is_name_in, typed_at, shipped_at};
ghost use Rattle.rare_rule.specs.declared.book.BookError.TheVariants.{DuplicateName};

use crate::typed::Typed;
use rare_list::Sequence;
use rare_names::NameTable;
use std::alloc::Global;
use std::marker::Model;
use thiserror::Error;

/// Why a rule is not added to a book.
#[derive(Clone, Copy, Debug, PartialEq, Eq, Error)]
pub enum BookError {
    /// A rule of this name stands in the book.
    #[error("a rule of this name stands in the book")]
    DuplicateName,
    /// Memory is wanting.
    #[error("out of memory")]
    Memory,
}

/// A rule of a book.
#[derive(Drop)]
struct Entry {
    typed: Typed,
    shipped: bool,
}

/// Rules whose names differ. Contracts see it as the list of its rules, in the order in which they were
/// added.
#[derive(Drop)]
pub struct Book {
    names: NameTable,
    entries: Sequence<Entry>,
}

impl Model for Book {
    ghost use Rattle.std.specs.Prelude.{◌≡◌, List};
    ghost use Rattle.std.specs.Coded.{codes};
    ghost use Rattle.rare_sort.specs.contracts.sort.Sort as sort;
    ghost use Rattle.rare_sort.specs.contracts.tree.Tree as tree;
    ghost use Rattle.rare_rule.specs.Books.{BookRule, AreTyped, rule_names};
    ghost use Rattle.rare_rule.specs.inner.Entries.{rules_of};

    ghost Value = { List BookRule };

    ghost coded = { Prim.hlevel (codes, sort.the_row.coded, tree.the_row.coded) };

    ghost view = { λ b. rules_of b.entries };

    ghost invariant = { λ b. (b.names ≡ rule_names (rules_of b.entries)) × AreTyped (rules_of b.entries) };
}

impl Book {
    /// The book without rules.
    pub fn new(alloc: Global) -> Book
        ensures { result ≡ [] }
    {
        Book {
            names: NameTable::new(alloc),
            entries: Sequence::new(alloc),
        }
    }

    /// How many rules there are. Each is in form and types.
    pub fn len(&self) -> usize
        ensures count { result ≡ length self.now }
        ensures typed { AreTyped self.now }
    {
        self.entries.len()
    }

    /// Rule `k`, counted from 0.
    pub fn rule(&self, k: usize) -> &Typed
        requires { k < length self.now }
        ensures { typed_at self.now k ≡ Some result.now }
    {
        &self.entries.get(k).typed
    }

    /// Whether rule `k` is one of those that are shipped.
    pub fn is_shipped(&self, k: usize) -> bool
        requires { k < length self.now }
        ensures { shipped_at self.now k ≡ Some result }
    {
        self.entries.get(k).shipped
    }

    /// The place of the rule of this name, or none where no rule has it.
    pub fn find(&self, name: &[u8]) -> Option<usize>
        ensures { result ≡ position (has_name name.now) self.now }
    {
        self.names.find(name)
    }

    /// Adds a rule behind the others. After an error the book stays.
    ///
    /// Errors: `DuplicateName` where the rule's name stands in the book; `Memory`.
    pub fn add(&mut self, rule: Typed, shipped: bool) -> Result<(), BookError>
        ensures ok { OnOk result (self.new ≡ self.old ++ book_rule rule shipped ∷ []) }
        ensures err { OnErr result (self.new ≡ self.old) }
        ensures duplicate { (result ≡ Err DuplicateName)
            ↔ IsTrue (is_name_in rule.rule.name self.old) }
    {
        if self.names.contains(rule.rule().name.bytes()) {
            return Err(BookError::DuplicateName);
        }
        let entry = Entry {
            typed: rule,
            shipped,
        };
        if let Err(_) = self.entries.push(entry) {
            return Err(BookError::Memory);
        }
        let last = self.entries.len() - 1;
        let name = self.entries.get(last).typed.rule().name.bytes();
        if let Err(_) = self.names.add(name) {
            self.entries.pop();
            return Err(BookError::Memory);
        }
        Ok(())
    }
}
