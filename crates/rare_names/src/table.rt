//! The table of names, over an `IndexSet` of the names' bytes.

ghost use Rattle.std.specs.Prelude.{◌≡◌, ◌<◌, [], ◌∷◌, ◌++◌, Some, false, length, position, bytes_eq, slice_get, OnOk, OnErr};
ghost use Rattle.std.specs.List.{list_any};

use indexmap::IndexSet;
use std::alloc::{AllocError, Global};
use std::marker::Model;

/// Names that all differ, each a list of bytes. Contracts see it as the list of the names, in the
/// order in which they were added.
#[derive(Drop)]
pub struct NameTable {
    alloc: Global,
    names: IndexSet<Vec<u8>>,
}

impl Model for NameTable {
    ghost use Rattle.std.specs.Prelude.{List, ℕ};

    ghost Value = { List (List ℕ) };

    ghost use Rattle.rare_names.specs.inner.Names.{names_of, AllDiffer};

    ghost view = { names_of };

    ghost invariant = { λ t. AllDiffer (names_of t) };
}

impl NameTable {
    /// The table without names.
    pub fn new(alloc: Global) -> NameTable
        ensures { result ≡ [] }
    {
        NameTable {
            alloc,
            names: IndexSet::new(alloc),
        }
    }

    /// How many names there are.
    pub fn len(&self) -> usize
        ensures { result ≡ length self.now }
    {
        self.names.len()
    }

    /// The place of a name, counted from 0, or none where it was not added.
    pub fn find(&self, name: &[u8]) -> Option<usize>
        ensures { result ≡ position (bytes_eq name.now) self.now }
    {
        self.names.get_index_of(name)
    }

    /// Whether a name was added.
    pub fn contains(&self, name: &[u8]) -> bool
        ensures { result ≡ list_any (bytes_eq name.now) self.now }
    {
        self.names.contains(name)
    }

    /// The name at place `k`.
    pub fn name(&self, k: usize) -> &[u8]
        requires { k < length self.now }
        ensures { slice_get self.now k ≡ Some result.now }
    {
        match self.names.get_index(k) {
            Some(name) => name.as_slice(),
            None => unreachable!(),
        }
    }

    /// Adds a name that isn't there, behind the others. Where memory is wanting, the table stays.
    pub fn add(&mut self, name: &[u8]) -> Result<(), AllocError>
        requires { list_any (bytes_eq name.now) self.old ≡ false }
        ensures ok { OnOk result (self.new ≡ self.old ++ name.now ∷ []) }
        ensures err { OnErr result (self.new ≡ self.old) }
    {
        let name = Vec::from_slice(self.alloc, name)?;
        self.names.insert(name)?;
        Ok(())
    }
}

#[cfg(test)]
mod tests {
    use super::*;
    use std::test::Fail;

    #[test]
    fn names_keep_their_places(rt: HostRuntime) -> Result<(), Fail> {
        let mut names = NameTable::new(rt.alloc());
        for name in ["p", "q", "rest"] {
            assert!(rt; !names.contains(name.as_bytes()));
            names.add(name.as_bytes())?;
        }
        assert_eq!(rt; names.len(), 3);
        for (name, place) in [
            ("p", Some(0)),
            ("q", Some(1)),
            ("rest", Some(2)),
            ("r", None),
            ("", None),
        ] {
            assert_eq!(rt; names.find(name.as_bytes()), place, "{name}");
            assert_eq!(rt; names.contains(name.as_bytes()), place.is_some(), "{name}");
            if let Some(k) = place {
                assert!(rt; k < names.len());
                assert_eq!(rt; names.name(k), name.as_bytes());
            }
        }
        Ok(())
    }

    #[test]
    fn a_hundred_names_keep_their_places(rt: HostRuntime) -> Result<(), Fail> {
        let mut names = NameTable::new(rt.alloc());
        for k in 0u8..100 {
            assert!(rt; !names.contains(&[b'x', k]));
            names.add(&[b'x', k])?;
        }
        assert_eq!(rt; names.len(), 100);
        for k in 0u8..100 {
            assert_eq!(rt; names.find(&[b'x', k]), Some(k as usize));
        }
        assert_eq!(rt; names.find(b"x"), None);
        Ok(())
    }
}
