//! The open lists of a command, and the items of all of them so far.
ghost use Rattle.std.specs.Prelude.{◌≡◌, [], ◌∷◌, ◌++◌, ◌<◌, length, take, drop, IfOk, OnOk};
ghost use Rattle.rare_sexpr.specs.Tree.{list_of};
ghost use Rattle.rare_sexpr.specs.inner.Stacks.{empty_stack, IsAdded, IsClosed};

use crate::tree::{Sexpr, Sexprs};
use rare_base::Place;
use rare_list::Sequence;
use std::alloc::{AllocError, Global};

/// An open list: its place, and how many items of outer lists stand before its own.
#[derive(Clone, Copy, Debug, PartialEq, Eq)]
pub struct Opened {
    pub place: Place,
    pub before: usize,
}

/// The open lists, the innermost last, and their items, those of the outer lists first.
#[derive(Debug, Drop)]
pub struct Stack {
    pub opened: Sequence<Opened>,
    pub items: Sexprs,
}

impl Stack {
    /// No open list and no items. It cannot fail.
    pub fn new(alloc: Global) -> Stack
        ensures { result ≡ empty_stack }
    {
        Stack {
            opened: Sequence::new(alloc),
            items: Sequence::new(alloc),
        }
    }

    /// Opens a list. Want of memory leaves any stack.
    pub fn open(&mut self, place: Place) -> Result<(), AllocError>
        ensures { OnOk result (self.new
            ≡ record self.old {
              opened = self.old.opened
                  ++ (record { place = place; before = length self.old.items }) ∷ [];
            }) }
    {
        let before = self.items.len();
        self.opened.push(Opened { place, before })
    }

    /// Makes an expression one more item of the innermost open list, or hands it back where none is
    /// open. Want of memory leaves any stack.
    pub fn add(&mut self, e: Sexpr) -> Result<Option<Sexpr>, AllocError>
        ensures { IfOk result (λ r. IsAdded self.old e r self.new) }
    {
        if self.opened.is_empty() {
            return Ok(Some(e));
        }
        self.items.push(e)?;
        Ok(None)
    }

    /// Makes the innermost open list an expression. Want of memory leaves any stack.
    pub fn close(&mut self) -> Result<Sexpr, AllocError>
        requires { 0 < length self.old.opened }
        ensures { IfOk result (λ e. IsClosed self.old e self.new) }
    {
        let Opened { place, before } = self.opened.pop();
        let at = before.min(self.items.len());
        let items = self.items.split_off(at)?;
        Ok(Sexpr::List { place, items })
    }
}
