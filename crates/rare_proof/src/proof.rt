//! A proof: steps that are each valid after those before it, no two of which conclude one equation.
ghost use Rattle.std.specs.Prelude.{◌≡◌, ◌<◌, [], ◌∷◌, ◌++◌, List, ℕ, length, position, slice_get, is_some, false, Some, None, All, IfOk, IfSome, OnOk, OnErr};
ghost use Rattle.std.specs.List.{list_any};
ghost use Rattle.std.specs.Option.{option_map};
ghost use Rattle.rare_sort.specs.Ids.{tree_at};
ghost use Rattle.rare_sort.specs.declared.tree.Tree.{Tree};
ghost use Rattle.rare_term.specs.State.{Grows, State};
ghost use Rattle.rare_proof.specs.Proofs.{HasArguments, IsAddedAt, IsProofOver, IsStepOf, Judges, concluded_by, is_equation, stated_rule, stated_step};
ghost use Rattle.rare_proof.specs.Sided.{AllAreSides, equations_of};
ghost use Rattle.rare_proof.specs.Steps.{equation, equations_at, step_fault};

use crate::fault::{AddError, StepFault};
use crate::rules::test_by_rule;
use crate::sides::{Sides, SidesList};
use crate::step::{Step, Steps};
use indexmap::IndexSet;
use rare_rule::Book;
use rare_term::{TermId, Terms};
use std::alloc::{AllocError, Global};
use std::marker::Model;

/// Steps, each valid after those before it, no two of which conclude one equation. Contracts see it as
/// the list of its steps.
#[derive(Drop)]
pub struct Proof {
    alloc: Global,
    steps: Steps,
    // The sides of each step's equation, in the order of the steps.
    equations: IndexSet<(usize, usize)>,
}

impl Model for Proof {
    ghost use Rattle.std.specs.Prelude.{List};
    ghost use Rattle.std.specs.Coded.{codes};
    ghost use Rattle.rare_sort.specs.contracts.sort.Sort as sort;
    ghost use Rattle.rare_proof.specs.declared.step.Step.{Step};
    ghost use Rattle.rare_proof.specs.inner.Numbered.{AreNumbered};

    ghost Value = { List Step };

    ghost coded = { Prim.hlevel (codes, sort.the_row.coded) };

    ghost view = { λ p. p.steps };

    ghost invariant = { λ p. AreNumbered p.equations.keys p.steps };
}

impl Proof {
    /// The proof without steps. It cannot fail.
    pub fn new(alloc: Global) -> Proof
        ensures { result ≡ [] }
    {
        Proof {
            alloc,
            steps: Steps::new(alloc),
            equations: IndexSet::new(alloc),
        }
    }

    /// How many steps there are.
    pub fn len(&self) -> usize
        ensures { result ≡ length self.now }
    {
        self.steps.len()
    }

    /// The step at place `k`, counted from 0.
    pub fn step(&self, k: usize) -> &Step
        requires { k < length self.now }
        ensures { slice_get self.now k ≡ Some result.now }
    {
        self.steps.get(k)
    }

    /// The place of the step that concludes the equation of two terms, or none where no step does.
    pub fn find(&self, left: TermId, right: TermId) -> Option<usize>
        ensures place { result ≡ position (is_equation left right) self.now }
        ensures found { is_some result ≡ list_any (is_equation left right) self.now }
    {
        self.equations.get_index_of(&(left.0, right.0))
    }

    // The equations at these places, or none where one is past the end.
    fn premises_at(&self, places: &[usize]) -> Result<Option<SidesList>, AllocError>
        ensures found { IfOk result (λ found. (ts : List Tree) →
            option_map (equations_of ts) found ≡ equations_at (concluded_by ts self.now)
            places.now) }
        ensures ids { IfOk result (λ found. (s : State) → All (IsStepOf s) self.now →
            IfSome found (AllAreSides (length s.trees))) }
    {
        let mut premises = SidesList::new(self.alloc);
        for place in places {
            if *place >= self.steps.len() {
                return Ok(None);
            }
            let step = self.steps.get(*place);
            premises.push(Sides {
                left: step.left,
                right: step.right,
            })?;
        }
        Ok(Some(premises))
    }

    // Whether a step is valid behind the steps of the proof: the first condition that fails is an error.
    fn test<T: Terms>(&self, terms: &mut T, book: &Book, step: &Step) -> Result<(), AddError>
        requires step { IsStepOf (T.state terms.old) step.now }
        requires steps { All (IsStepOf (T.state terms.old)) self.now }
        ensures judged { Judges (step_fault (T.state terms.old).declared book.now
            (concluded_by (T.state terms.old).trees self.now)
            (stated_step (T.state terms.old).trees step.now)) result }
        ensures arguments { OnOk result (HasArguments (T.state terms.old).declared
            (stated_rule (T.state terms.old).trees step.now.by)) }
        ensures grows { Grows (T.state terms.old) (T.state terms.new) }
    {
        let sides = Sides {
            left: step.left,
            right: step.right,
        };
        match self.premises_at(step.premises.items())? {
            Some(premises) => {
                test_by_rule(self.alloc, terms, book, &step.by, sides, premises.items())
            }
            None => Err(AddError::Invalid(StepFault::NoSuchStep)),
        }
    }

    // Adds a step whose equation isn't there, behind the others. Where memory is wanting, the proof stays.
    fn push(&mut self, step: Step) -> Result<(), AllocError>
        requires { list_any (is_equation step.left step.right) self.old ≡ false }
        ensures ok { OnOk result (self.new ≡ self.old ++ step ∷ []) }
        ensures err { OnErr result (self.new ≡ self.old) }
    {
        let key = (step.left.0, step.right.0);
        self.steps.push(step)?;
        if let Err(error) = self.equations.insert(key) {
            self.steps.pop();
            return Err(error.into());
        }
        Ok(())
    }

    /// Adds a step of terms of this proof, and gives the place of its equation: an earlier one where the
    /// equation is there, else that of the step, behind the others. The terms may grow.
    ///
    /// `Invalid` has the first of the step's conditions that fails: that its premises are places of the
    /// proof, then those of its rule. After an error the proof stays.
    pub fn add_step<T: Terms>(
        &mut self,
        terms: &mut T,
        book: &Book,
        step: Step,
    ) -> Result<usize, AddError>
        requires step { IsStepOf (T.state terms.old) step }
        requires proof { IsProofOver (T.state terms.old) book.now self.old }
        ensures judged { Judges (step_fault (T.state terms.old).declared book.now
            (concluded_by (T.state terms.old).trees self.old)
            (stated_step (T.state terms.old).trees step)) result }
        ensures added { IfOk result (IsAddedAt self.old step self.new) }
        ensures place { IfOk result
            (λ k. slice_get (concluded_by (T.state terms.new).trees self.new) k
            ≡ Some (equation (tree_at (T.state terms.old).trees step.left.0)
            (tree_at (T.state terms.old).trees step.right.0))) }
        ensures err { OnErr result (self.new ≡ self.old) }
        ensures grows { Grows (T.state terms.old) (T.state terms.new) }
        ensures proof { IsProofOver (T.state terms.new) book.now self.new }
    {
        self.test(terms, book, &step)?;
        if let Some(k) = self.find(step.left, step.right) {
            return Ok(k);
        }
        let k = self.steps.len();
        self.push(step)?;
        Ok(k)
    }
}
