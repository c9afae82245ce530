//! The names of a problem: each found by its hash, and those of a kind by their numbers.
ghost use Rattle.std.specs.Prelude.{◌≡◌, ◌+◌, ◌<◌, ℕ, [], ◌∷◌, ◌++◌, false, Some, length, slice_get, is_ok, OnOk, OnErr, IfSome, vec_len, vec_capacity};
ghost use Rattle.rare_scope.specs.LinearText.{widths_held, AreBelow};
ghost use Rattle.rare_scope.specs.Names.{found, is_declared, sort_names, symbol_names, width_names, IsNext, IsNumbered};

use crate::meaning::Meaning;
use crate::reserved::is_theory_word_name;
use rare_names::NameTable;
use rare_term::TermId;
use std::alloc::{AllocError, Global};
use std::marker::Model;

/// What the names of a problem stand for. Sorts, widths, symbols and defined terms are one table, in
/// which names differ and those of each kind are numbered from 0 on. Contracts see it as the list of
/// the names with their meanings, in the order in which they were declared.
#[derive(Drop)]
pub struct Scope {
    names: NameTable,
    meanings: Vec<Meaning>,
    sorts: Vec<usize>,
    symbols: Vec<usize>,
    widths: Vec<usize>,
}

impl Model for Scope {
    ghost use Rattle.rare_scope.specs.Names.{Held};
    ghost use Rattle.rare_scope.specs.inner.Places.{held_by, IsHeld};

    ghost Value = { Held };

    ghost view = { λ s. held_by s.names s.meanings.items };

    ghost invariant = { λ s. IsHeld s.names s.meanings.items s.sorts.items s.symbols.items s.widths.items };
}

impl Scope {
    /// The scope without names.
    pub fn new(alloc: Global) -> Scope
        ensures { result ≡ [] }
    {
        Scope {
            names: NameTable::new(alloc),
            meanings: Vec::new(alloc),
            sorts: Vec::new(alloc),
            symbols: Vec::new(alloc),
            widths: Vec::new(alloc),
        }
    }

    /// How many names there are.
    pub fn len(&self) -> usize
        ensures { result ≡ length self.now }
    {
        self.names.len()
    }

    /// What a name stands for, or none where it is not declared.
    pub fn find(&self, name: &[u8]) -> Option<Meaning>
        ensures found { result ≡ found self.now name.now }
        ensures numbered { IfSome result (IsNumbered self.now) }
    {
        match self.names.find(name) {
            Some(place) => Some(self.meanings[place]),
            None => None,
        }
    }

    /// Whether the name is declared or defined, or a word of the theories.
    pub fn declares(&self, name: &[u8]) -> bool
        ensures { result ≡ is_declared self.now name.now }
    {
        is_theory_word_name(name) || self.names.contains(name)
    }

    /// How many widths there are. The number of each width name is below it.
    pub fn width_count(&self) -> usize
        ensures count { result ≡ length (width_names self.now) }
        ensures below { AreBelow (length (width_names self.now)) (widths_held self.now) }
    {
        self.widths.as_slice().len()
    }

    /// The name of sort `k`.
    pub fn sort_name(&self, k: u32) -> &[u8]
        requires { k < length (sort_names self.now) }
        ensures { slice_get (sort_names self.now) k ≡ Some result.now }
    {
        self.names.name(self.sorts[k as usize])
    }

    /// The name of symbol `k`.
    pub fn symbol_name(&self, k: u32) -> &[u8]
        requires { k < length (symbol_names self.now) }
        ensures { slice_get (symbol_names self.now) k ≡ Some result.now }
    {
        self.names.name(self.symbols[k as usize])
    }

    /// The name of width `k`.
    pub fn width_name(&self, k: u32) -> &[u8]
        requires { k < length (width_names self.now) }
        ensures { slice_get (width_names self.now) k ≡ Some result.now }
    {
        self.names.name(self.widths[k as usize])
    }

    /// Declares a name: the next sort, symbol or width, or a term. Where memory is wanting, the scope
    /// stays.
    pub fn declare(&mut self, name: &[u8], meaning: Meaning) -> Result<(), AllocError>
        requires new { is_declared self.old name.now ≡ false }
        requires next { IsNext self.old meaning }
        ensures ok { OnOk result (self.new ≡ self.old ++ (name.now, meaning) ∷ []) }
        ensures err { OnErr result (self.new ≡ self.old) }
    {
        let place = self.names.len();
        self.meanings.reserve(1)?;
        self.sorts.reserve(1)?;
        self.symbols.reserve(1)?;
        self.widths.reserve(1)?;
        self.names.add(name)?;
        push_reserved(&mut self.meanings, meaning);
        match meaning {
            Meaning::Sort(_) => push_reserved(&mut self.sorts, place),
            Meaning::Symbol(_) => push_reserved(&mut self.symbols, place),
            Meaning::Width(_) => push_reserved(&mut self.widths, place),
            Meaning::Term(_) => {}
        }
        Ok(())
    }

    /// Makes a name stand for a term. All other names keep their meaning. Where memory is wanting, the
    /// scope stays.
    pub fn define(&mut self, name: &[u8], term: TermId) -> Result<(), AllocError>
        requires new { is_declared self.old name.now ≡ false }
        ensures ok { OnOk result (self.new ≡ self.old ++ (name.now, Meaning.Term term) ∷ []) }
        ensures err { OnErr result (self.new ≡ self.old) }
    {
        self.declare(name, Meaning::Term(term))
    }
}

// Appends an item for which there is room.
fn push_reserved<T: Drop>(items: &mut Vec<T>, item: T)
    requires { vec_len items.old < vec_capacity items.old }
    ensures { items.new.items ≡ items.old.items ++ item ∷ [] }
{
    let Ok(()) = items.push(item) else {
        unreachable!();
    };
}
