//! The arguments of a rule, with terms by their ids.
ghost use Rattle.std.specs.Prelude.{◌≡◌, IfOk};

use rare_linear::Linear;
use rare_list::Sequence;
use rare_sort::{Ids, Sort, TermId};
use std::alloc::{AllocError, Global};

/// What stands for a name of a rule.
#[derive(Debug, Drop)]
pub enum Arg {
    /// For a sort.
    Sort(Sort),
    /// For a width or an index.
    Linear(Linear),
    /// For a term.
    Term(TermId),
    /// For a list of terms.
    List(Ids),
}

/// A list of arguments, one for each name of a rule, in the order of its parameters.
pub type Args = Sequence<Arg>;

// The same ids in a list of their own.
pub(crate) fn copy_ids(alloc: Global, from: &[TermId]) -> Result<Ids, AllocError>
    ensures { IfOk result (λ to. to ≡ from.now) }
{
    let mut to = Ids::new(alloc);
    for id in from {
        to.push(*id)?;
    }
    Ok(to)
}

impl Arg {
    /// An equal argument, unless memory is wanting.
    pub fn copy(&self, alloc: Global) -> Result<Arg, AllocError>
        ensures { IfOk result (λ arg. arg ≡ self.now) }
    {
        match self {
            Arg::Sort(sort) => Ok(Arg::Sort(sort.copy(alloc)?)),
            Arg::Linear(linear) => Ok(Arg::Linear(linear.copy(alloc)?)),
            Arg::Term(id) => Ok(Arg::Term(*id)),
            Arg::List(ids) => Ok(Arg::List(copy_ids(alloc, ids.items())?)),
        }
    }
}
