//! What a part of a rule is put together from.
ghost use Rattle.std.specs.Prelude.{◌≡◌, ◌∷◌, [], List, length, slice_get, Result, Some, IfOk};
ghost use Rattle.rare_sort.specs.Sorting as sorting;
ghost use Rattle.rare_sort.specs.Trees.{args_of, head_of};
ghost use Rattle.rare_sort.specs.declared.tree.Tree.{Tree};
ghost use Rattle.rare_rule.specs.Holds.{has_list};
ghost use Rattle.rare_rule.specs.Params.{is_list_head, is_list_kind};
ghost use Rattle.rare_inst.specs.Answers.{AnswersPart};
ghost use Rattle.rare_inst.specs.Instance as spec;
ghost use Rattle.rare_inst.specs.declared.fault.InstFault.{InstFault};
ghost use Rattle.rare_inst.specs.inner.Making.{AnswersHeld, AnswersHole, ids_given, side_of};

use crate::arg::{Arg, copy_ids};
use crate::fault::InstFault;
use crate::substitution::Numbers;
use rare_rule::{Param, ParamKind};
use rare_sort::{Head, Ids, TermId, Tree};
use std::alloc::{AllocError, Global};

/// The left side, where nothing collapses, or another part.
#[derive(Clone, Copy)]
pub(crate) enum Side {
    Left,
    Other,
}

/// What stands in the hole.
#[derive(Clone, Copy)]
pub(crate) enum Hole {
    Nothing,
    Term(TermId),
    /// The term that would stand there has this fault.
    Fault(InstFault),
}

/// What a part of a rule is put together from.
#[derive(Drop)]
pub(crate) struct Part<'a> {
    pub(crate) params: &'a [Param],
    pub(crate) args: &'a [Arg],
    pub(crate) numbers: &'a Numbers,
    pub(crate) side: Side,
    pub(crate) hole: Hole,
}

fn is_list_param(param: &Param) -> bool
    ensures { result ≡ is_list_kind (Some param.now.kind) }
{
    matches!(param.kind, ParamKind::List(_) | ParamKind::WideList)
}

/// Whether the operator is a list variable.
fn is_list(params: &[Param], head: Head) -> bool
    ensures { result ≡ is_list_head params.now head }
{
    match head {
        Head::Param(k) => match params.get(k as usize) {
            Some(param) => is_list_param(param),
            None => false,
        },
        _ => false,
    }
}

/// Whether some argument is a list variable.
fn has_list_among(params: &[Param], args: &[Tree]) -> bool
    ensures { result ≡ has_list params.now args.now }
{
    for arg in args {
        if is_list(params, arg.head) {
            return true;
        }
    }
    false
}

fn is_concat(head: Head) -> bool
    ensures { result ≡ sorting.is_concat head }
{
    matches!(head, Head::Concat)
}

/// Whether too few arguments are left of an application.
pub(crate) fn has_too_few(part: &Part, tree: &Tree, count: usize) -> bool
    ensures { (ts : List Tree) → length ts ≡ count →
        result ≡ spec.has_too_few (side_of part.now.side) (head_of tree.now)
        (has_list part.now.params.now (args_of tree.now)) ts }
{
    match part.side {
        Side::Left => has_list_among(part.params, tree.args.items()) && count < 2,
        Side::Other => is_concat(tree.head) && count < 1,
    }
}

/// The list of this id.
pub(crate) fn only(alloc: Global, id: TermId) -> Result<Ids, AllocError>
    ensures { IfOk result (λ ids. ids ≡ id ∷ []) }
{
    let mut ids = Ids::new(alloc);
    ids.push(id)?;
    Ok(ids)
}

/// The terms that stand for name `k`.
pub(crate) fn group_of(alloc: Global, args: &[Arg], k: u32) -> Result<Ids, AllocError>
    ensures { IfOk result (λ ids. ids ≡ ids_given (slice_get args.now k)) }
{
    match args.get(k as usize) {
        Some(Arg::Term(id)) => only(alloc, *id),
        Some(Arg::List(ids)) => copy_ids(alloc, ids.items()),
        _ => Ok(Ids::new(alloc)),
    }
}

/// The terms that stand in the hole, or the fault of the term that would.
pub(crate) fn in_hole(alloc: Global, hole: Hole) -> Result<Ids, InstFault>
    ensures { AnswersHole hole result }
{
    match hole {
        Hole::Nothing => Ok(Ids::new(alloc)),
        Hole::Term(id) => Ok(only(alloc, id)?),
        Hole::Fault(fault) => Err(fault),
    }
}

/// The hole with what was made of the part that stands there. The error is want of memory.
pub(crate) fn hole_of(made: Result<TermId, InstFault>) -> Result<Hole, InstFault>
    ensures { (ts : List Tree) (part : Result Tree InstFault) → AnswersPart ts made part →
        AnswersHeld ts part result }
{
    match made {
        Ok(id) => Ok(Hole::Term(id)),
        Err(InstFault::Memory) => Err(InstFault::Memory),
        Err(fault) => Ok(Hole::Fault(fault)),
    }
}
