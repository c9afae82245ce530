//! Which names are widths.
ghost use Rattle.std.specs.Prelude.{◌≡◌, IfOk, is_some};
ghost use Rattle.rare_scope.specs.LinearText.{size_by, widths_held};

use crate::meaning::Meaning;
use crate::scope::Scope;
use rare_linear::Linear;
use std::alloc::{AllocError, Global};

/// Which names are widths, and in rules the sizes of names.
pub trait WidthNames {
    ghost use Rattle.rare_scope.specs.LinearText as text;

    /// The names with their numbers, and the sizes of names where they have some.
    ghost names: { Self → text.WidthNames };

    /// The number of a width name, or none where it is no name of a width.
    fn number(&self, name: &[u8]) -> Option<u32>
        ensures { result ≡ (names self.now).number name.now };

    /// Whether names have sizes, which `bvsize` gives.
    fn has_sizes(&self) -> bool
        ensures { result ≡ is_some (names self.now).size };

    /// The size of a name in bits, or none where it has none. The error is want of memory.
    fn size(&self, alloc: Global, name: &[u8]) -> Result<Option<Linear>, AllocError>
        ensures { IfOk result (λ size. size ≡ size_by (names self.now).size name.now) };
}

impl WidthNames for Scope {
    ghost names = { λ scope. widths_held scope };

    fn number(&self, name: &[u8]) -> Option<u32> {
        match self.find(name) {
            Some(Meaning::Width(k)) => Some(k),
            _ => None,
        }
    }

    fn has_sizes(&self) -> bool {
        false
    }

    fn size(&self, _alloc: Global, _name: &[u8]) -> Result<Option<Linear>, AllocError> {
        Ok(None)
    }
}
