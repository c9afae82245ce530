//! How the keeper that scans a list meets the trait.
ghost use Rattle.std.specs.Prelude.{◌≡◌, ℕ, ◌+◌, ◌^◌, ◌<◌, ◌≤◌, List, [], ◌∷◌, ◌++◌, length, slice_get, Some, All, IfOk, OnOk, OnErr, Err};
ghost use Rattle.rare_sort.specs.Ids.{AreIds};
ghost use Rattle.rare_term.specs.State.{no_terms};
ghost use Rattle.rare_term.specs.inner.Nodes.{state_of, node_at};

use crate::node::Node;
use crate::plain::Plain;
use crate::prepared::prepare;
use crate::scan::find;
use crate::terms::{TermError, Terms};
use rare_linear::{Constraint, Constraints, Linear};
use rare_list::Sequence;
use rare_sort::{Declarations, Head, Ids, Signature, Signatures, Sort, Sorts, TermId, follows_in};
use std::alloc::{AllocError, Global};

fn signature_of(alloc: Global, args: &[Sort], gives: &Sort) -> Result<Signature, AllocError>
    ensures { IfOk result (λ s. s ≡ record { args = args.now; gives = gives.now }) }
{
    let mut sorts = Sorts::new(alloc);
    for arg in args {
        sorts.push(arg.copy(alloc)?)?;
    }
    Ok(Signature {
        args: sorts,
        gives: gives.copy(alloc)?,
    })
}

fn copy_ids(alloc: Global, from: &[TermId]) -> Result<Ids, AllocError>
    ensures { IfOk result (λ ids. ids ≡ from.now) }
{
    let mut ids = Ids::new(alloc);
    for id in from {
        ids.push(*id)?;
    }
    Ok(ids)
}

fn at(nodes: &[Node], k: usize) -> &Node
    requires { k < length nodes.now }
    ensures { result.now ≡ node_at nodes.now k }
{
    &nodes[k]
}

impl Plain {
    /// A keeper without terms and declarations. It cannot fail.
    pub fn new(alloc: Global) -> Plain
        ensures { state_of result.nodes result.declared ≡ no_terms }
    {
        Plain {
            alloc,
            nodes: Sequence::new(alloc),
            sorts: Sorts::new(alloc),
            declared: Declarations {
                sorts: 0,
                symbols: Signatures::new(alloc),
                lows: Sequence::new(alloc),
                constraints: Constraints::new(alloc),
            },
        }
    }
}

impl Terms for Plain {
    ghost use Rattle.rare_term.specs.inner.KeptLaws.{lawful_of};

    ghost state = { λ p. state_of p.nodes p.declared };

    ghost one_to_one = { λ p. p.kept.one };

    ghost lawful = { λ p. lawful_of p.nodes p.sorts p.declared p.kept };

    fn declare_sort(&mut self) -> u32 {
        let k = self.declared.sorts;
        self.declared.sorts = k + 1;
        k
    }

    fn declare_symbol(&mut self, args: &[Sort], gives: &Sort) -> Result<u32, AllocError> {
        let k = self.declared.symbols.len() as u32;
        let signature = signature_of(self.alloc, args, gives)?;
        self.declared.symbols.push(signature)?;
        Ok(k)
    }

    fn declare_width(&mut self) -> Result<u32, AllocError> {
        let k = self.declared.lows.len() as u32;
        self.declared.lows.push(1)?;
        Ok(k)
    }

    fn assume(&mut self, constraint: &Constraint) -> Result<(), AllocError> {
        let copy = constraint.copy(self.alloc)?;
        self.declared.constraints.push(copy)?;
        Ok(())
    }

    fn entailed(&self, e: &Linear) -> bool {
        follows_in(&self.declared, e)
    }

    fn head(&self, id: TermId) -> Head {
        at(self.nodes.items(), id.0).head
    }

    fn index_count(&self, id: TermId) -> usize {
        at(self.nodes.items(), id.0).indices.len()
    }

    fn index(&self, id: TermId, k: usize) -> &Linear {
        at(self.nodes.items(), id.0).indices.get(k)
    }

    fn arg_count(&self, id: TermId) -> usize {
        at(self.nodes.items(), id.0).args.len()
    }

    fn arg(&self, id: TermId, k: usize) -> TermId {
        *at(self.nodes.items(), id.0).args.get(k)
    }

    fn sort(&self, id: TermId) -> &Sort {
        self.sorts.get(id.0)
    }

    fn make(
        &mut self,
        head: Head,
        indices: &[Linear],
        args: &[TermId],
    ) -> Result<TermId, TermError> {
        let prepared = match prepare(
            self.alloc,
            &self.declared,
            self.nodes.items(),
            self.sorts.items(),
            head,
            indices,
            args,
        ) {
            Ok(prepared) => prepared,
            Err(e) => return Err(e),
        };
        if let Some(k) = find(
            self.nodes.items(),
            prepared.operator.head,
            prepared.operator.indices.items(),
            args,
        ) {
            return Ok(TermId(k));
        }
        let Ok(ids) = copy_ids(self.alloc, args) else {
            return Err(TermError::Memory);
        };
        let node = Node {
            head: prepared.operator.head,
            indices: prepared.operator.indices,
            args: ids,
            nesting: prepared.nesting,
            size: prepared.size,
        };
        let Ok(id) = add(&mut self.nodes, &mut self.sorts, node, prepared.sort) else {
            return Err(TermError::Memory);
        };
        Ok(id)
    }
}

/// Appends a node with its sort. Where memory is wanting, nothing changes.
fn add(
    nodes: &mut Sequence<Node>,
    sorts: &mut Sorts,
    node: Node,
    sort: Sort,
) -> Result<TermId, TermError>
    requires { length sorts.old ≡ length nodes.old }
    ensures id { IfOk result (λ id. id.0 ≡ length nodes.old) }
    ensures nodes { OnOk result (nodes.new ≡ nodes.old ++ node ∷ []) }
    ensures sorts { OnOk result (sorts.new ≡ sorts.old ++ sort ∷ []) }
    ensures err { OnErr result ((nodes.new ≡ nodes.old) × (sorts.new ≡ sorts.old)) }
    ensures cause { OnErr result (result ≡ Err TermError.Memory) }
{
    let id = TermId(nodes.len());
    let Ok(()) = sorts.push(sort) else {
        return Err(TermError::Memory);
    };
    let Ok(()) = nodes.push(node) else {
        sorts.pop();
        return Err(TermError::Memory);
    };
    Ok(id)
}
