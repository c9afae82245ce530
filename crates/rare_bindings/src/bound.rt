//! The names that `let`s bind.
ghost use Rattle.std.specs.Prelude.{◌≡◌, ◌++◌, ◌∷◌, [], length, map, take, option_map, OnOk, OnErr};
ghost use Rattle.rare_scope.specs.Names.{found};
ghost use Rattle.rare_scope.specs.Reserved.{is_among};
ghost use Rattle.rare_scope.specs.declared.meaning.Meaning.TheVariants as meaning;

use rare_base::Text;
use rare_term::TermId;
use std::alloc::{AllocError, Global};
use std::marker::Model;

/// A name that a `let` binds, with its term.
#[derive(Debug, Drop)]
pub struct Binding {
    pub name: Text,
    pub term: TermId,
}

/// Names that `let`s bind, the innermost last. Contracts see it as the list of the names with their
/// meanings, which are terms.
#[derive(Debug, Drop)]
pub struct Bound {
    bindings: Vec<Binding>,
}

impl Model for Bound {
    ghost use Rattle.rare_scope.specs.Names.{Held};
    ghost use Rattle.rare_bindings.specs.inner.Bound.{held_bindings};

    ghost Value = { Held };

    ghost view = { λ b. held_bindings b.bindings.items };
}

impl Bound {
    /// No names.
    pub fn new(alloc: Global) -> Bound
        ensures { result ≡ [] }
    {
        Bound {
            bindings: Vec::new(alloc),
        }
    }

    /// How many bindings there are.
    pub fn len(&self) -> usize
        ensures { result ≡ length self.now }
    {
        self.bindings.len()
    }

    /// Whether the name is bound.
    pub fn binds(&self, name: &[u8]) -> bool
        ensures { result ≡ is_among (map (λ n. n.0) self.now) name.now }
    {
        for binding in &self.bindings {
            if name == binding.name.bytes() {
                return true;
            }
        }
        false
    }

    /// The term that a name stands for, or none where it is not bound. The last of one name counts.
    pub fn find(&self, name: &[u8]) -> Option<TermId>
        ensures { option_map meaning.Term result ≡ found self.now name.now }
    {
        let mut term = None;
        for binding in &self.bindings {
            if name == binding.name.bytes() {
                term = Some(binding.term);
            }
        }
        term
    }

    /// Binds a name behind the others. Where memory is wanting, they stay.
    pub fn push(&mut self, name: Text, term: TermId) -> Result<(), AllocError>
        ensures ok { OnOk result (self.new ≡ self.old ++ (name, meaning.Term term) ∷ []) }
        ensures err { OnErr result (self.new ≡ self.old) }
    {
        self.bindings.push(Binding { name, term })?;
        Ok(())
    }

    /// Takes all bindings of another behind its own. Where memory is wanting, they stay.
    pub fn append(&mut self, more: Bound) -> Result<(), AllocError>
        ensures ok { OnOk result (self.new ≡ self.old ++ more) }
        ensures err { OnErr result (self.new ≡ self.old) }
    {
        let mut more = more;
        self.bindings.append(&mut more.bindings)
    }

    /// Keeps the first bindings, so many.
    pub fn truncate(&mut self, count: usize)
        ensures { self.new ≡ take count self.old }
    {
        self.bindings.truncate(count);
    }
}
