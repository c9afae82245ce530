//! Terms as plain trees, and the ids by which a keeper of terms knows them.
ghost use Rattle.std.specs.Prelude.{◌≡◌, ◌↔◌, IsTrue, IfOk};

use crate::head::Head;
use rare_linear::{Linear, Linears};
use rare_list::Sequence;
use std::alloc::{AllocError, Global};

/// A term of a keeper of terms.
#[derive(Clone, Copy, Debug, Default, PartialEq, Eq, Hash)]
pub struct TermId(pub usize);

/// A list of ids.
pub type Ids = Sequence<TermId>;

/// A term as a plain tree: an operator, its indices and its arguments.
#[derive(Debug, Drop)]
pub struct Tree {
    pub head: Head,
    pub indices: Linears,
    pub args: Trees,
}

/// A list of trees.
pub type Trees = Sequence<Tree>;

/// Equal expressions in a list of their own, unless memory is wanting.
pub fn copy_linears(alloc: Global, from: &[Linear]) -> Result<Linears, AllocError>
    ensures { IfOk result (λ to. to ≡ from.now) }
{
    let mut to = Linears::new(alloc);
    for linear in from {
        to.push(linear.copy(alloc)?)?;
    }
    Ok(to)
}

/// Whether the expressions are one by one the same.
pub fn are_same_linears(a: &[Linear], b: &[Linear]) -> bool
    ensures { IsTrue result ↔ (a.now ≡ b.now) }
{
    match a {
        [] => b.is_empty(),
        [x, xs @ ..] => match b {
            [] => false,
            [y, ys @ ..] => x.is_same(y) && are_same_linears(xs, ys),
        },
    }
}

impl Tree {
    /// An equal tree, unless memory is wanting.
    pub fn copy(&self, alloc: Global) -> Result<Tree, AllocError>
        ensures { IfOk result (λ t. t ≡ self.now) }
    {
        let indices = copy_linears(alloc, self.indices.items())?;
        let mut args = Trees::new(alloc);
        for arg in self.args.items() {
            args.push(arg.copy(alloc)?)?;
        }
        Ok(Tree {
            head: self.head,
            indices,
            args,
        })
    }
}
