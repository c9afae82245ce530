//! The names of a scope, and over them those that `let`s bind.
ghost use Rattle.std.specs.Prelude.{◌≡◌, ◌++◌};
ghost use Rattle.rare_scope.specs.LinearText.{widths_held};
ghost use Rattle.rare_scope.specs.Names.{found};

use crate::bound::Bound;
use rare_linear::Linear;
use rare_scope::{Meaning, Scope, WidthNames};
use std::alloc::{AllocError, Global};
use std::marker::Model;

/// The names of a scope, and over them those that `let`s bind, which hide others. Contracts see it as the
/// list of the names with their meanings, of which the last of one name counts.
#[derive(Drop)]
pub struct Bindings<'s> {
    scope: &'s Scope,
    bound: &'s Bound,
}

impl<'s> Model for Bindings<'s> {
    ghost use Rattle.std.specs.Prelude.{◌++◌};
    ghost use Rattle.rare_scope.specs.Names.{Held};

    ghost Value = { Held };

    ghost view = { λ b. b.scope.now ++ b.bound.now };
}

impl<'s> Bindings<'s> {
    /// The names of a scope, and over them those that are bound.
    pub fn new(scope: &'s Scope, bound: &'s Bound) -> Bindings<'s>
        ensures { result ≡ scope.now ++ bound.now }
    {
        Bindings { scope, bound }
    }

    /// What a name stands for, or none where it is neither declared nor bound.
    pub fn find(&self, name: &[u8]) -> Option<Meaning>
        ensures { result ≡ found self.now name.now }
    {
        let bound = self.bound;
        let scope = self.scope;
        match bound.find(name) {
            Some(term) => Some(Meaning::Term(term)),
            None => scope.find(name),
        }
    }
}

impl<'s> WidthNames for Bindings<'s> {
    ghost names = { λ bindings. widths_held bindings };

    fn number(&self, name: &[u8]) -> Option<u32> {
        match self.find(name) {
            Some(Meaning::Width(k)) => Some(k),
            _ => None,
        }
    }

    fn has_sizes(&self) -> bool {
        false
    }

    fn size(&self, _alloc: Global, _name: &[u8]) -> Result<Option<Linear>, AllocError> {
        Ok(None)
    }
}
