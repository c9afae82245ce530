//! What the commands of a proof came to.
ghost use Rattle.std.specs.Prelude.{◌≡◌, ◌∷◌, ◌++◌, [], Some, None, false, length, bytes_eq, All, IfOk, IfSome, OnOk, OnErr};
ghost use Rattle.std.specs.List.{list_any};
ghost use Rattle.rare_proof_text.specs.Commands.{premise_ids, texts_in};
ghost use Rattle.rare_check.specs.inner.Judging.{named_by_rule, place_named, places_named};
ghost use Rattle.rare_check.specs.inner.Progress.{with_place};

use indexmap::IndexSet;
use rare_base::{Numbers, Text};
use rare_names::NameTable;
use rare_proof::{Proof, StepFault, StepRule};
use rare_sexpr::Expr;
use std::alloc::{AllocError, Global};

/// A command that is not valid: its name, and the first of its conditions that fails.
#[derive(Debug, Drop)]
pub struct BadCommand {
    pub name: Text,
    pub fault: StepFault,
}

/// What the commands of a proof came to: the proof of its valid steps, the ids of the steps with the
/// places of their equations in it, the places of the rewrites that are concluded, the numbers of the rules
/// of the book that steps name, and the first command that is not valid.
#[derive(Drop)]
pub struct Judged {
    pub ids: NameTable,
    pub places: Numbers,
    pub proof: Proof,
    pub concluded: IndexSet<usize>,
    pub named: IndexSet<usize>,
    pub bad: Option<BadCommand>,
}

impl Judged {
    /// No command yet.
    pub fn new(alloc: Global) -> Judged
        ensures ids { result.ids ≡ [] }
        ensures places { result.places ≡ [] }
        ensures proof { result.proof ≡ [] }
        ensures concluded { result.concluded.keys ≡ [] }
        ensures named { result.named.keys ≡ [] }
        ensures bad { result.bad ≡ None }
    {
        Judged {
            ids: NameTable::new(alloc),
            places: Numbers::new(alloc),
            proof: Proof::new(alloc),
            concluded: IndexSet::new(alloc),
            named: IndexSet::new(alloc),
            bad: None,
        }
    }

    /// The place of the equation under an id.
    pub fn place_of(&self, id: &[u8]) -> Option<usize>
        requires { length self.now.ids ≡ length self.now.places }
        ensures { result ≡ place_named self.now.ids self.now.places id.now }
    {
        match self.ids.find(id) {
            Some(k) => Some(*self.places.get(k)),
            None => None,
        }
    }

    // The places of the equations under the ids of a list, or none where one has no equation.
    fn places_in<E: Expr>(&self, alloc: Global, list: &E) -> Result<Option<Numbers>, AllocError>
        requires { length self.now.ids ≡ length self.now.places }
        ensures { IfOk result (λ found. found
            ≡ places_named self.now.ids self.now.places (texts_in (E.tree list.now))) }
    {
        let mut places = Numbers::new(alloc);
        for k in 0..list.len() {
            let item = list.item(k);
            match self.place_of(item.text()) {
                Some(place) => places.push(place)?,
                None => return Ok(None),
            }
        }
        Ok(Some(places))
    }

    /// The places of the premises of a step, or none where one has no equation.
    pub fn premise_places<E: Expr>(
        &self,
        alloc: Global,
        list: Option<&E>,
    ) -> Result<Option<Numbers>, AllocError>
        requires { length self.now.ids ≡ length self.now.places }
        ensures { IfOk result (λ found. found
            ≡ places_named self.now.ids self.now.places (premise_ids E.tree list.entry)) }
    {
        match list {
            Some(list) => self.places_in(alloc, list),
            None => Ok(Some(Numbers::new(alloc))),
        }
    }

    /// Puts a new id on the equation at a place. Where memory is wanting, all stays.
    pub fn add(&mut self, id: &[u8], place: usize) -> Result<(), AllocError>
        requires { list_any (bytes_eq id.now) self.old.ids ≡ false }
        ensures ids { OnOk result (self.new.ids ≡ self.old.ids ++ id.now ∷ []) }
        ensures places { OnOk result (self.new.places ≡ self.old.places ++ place ∷ []) }
        ensures proof { self.new.proof ≡ self.old.proof }
        ensures concluded { self.new.concluded ≡ self.old.concluded }
        ensures named { self.new.named ≡ self.old.named }
        ensures bad { self.new.bad ≡ self.old.bad }
        ensures err_ids { OnErr result (self.new.ids ≡ self.old.ids) }
        ensures err_places { OnErr result (self.new.places ≡ self.old.places) }
    {
        self.places.push(place)?;
        if let Err(error) = self.ids.add(id) {
            self.places.pop();
            return Err(error);
        }
        Ok(())
    }

    /// Notes the rule of the book that a step names. Where memory is wanting, all stays.
    pub fn note_rule(&mut self, rule: &Result<StepRule, StepFault>) -> Result<(), AllocError>
        ensures named { OnOk result (self.new.named.keys
            ≡ with_place self.old.named.keys (named_by_rule rule.now)) }
        ensures err_named { OnErr result (self.new.named.keys ≡ self.old.named.keys) }
        ensures ids { self.new.ids ≡ self.old.ids }
        ensures places { self.new.places ≡ self.old.places }
        ensures proof { self.new.proof ≡ self.old.proof }
        ensures concluded { self.new.concluded ≡ self.old.concluded }
        ensures bad { self.new.bad ≡ self.old.bad }
    {
        if let Ok(StepRule::Rewrite { rule, .. }) = rule {
            self.named.insert(*rule)?;
        }
        Ok(())
    }

    /// Keeps the name and the fault of a command that is not valid. Where memory is wanting, all stays.
    pub fn set_bad(
        &mut self,
        alloc: Global,
        name: &[u8],
        fault: StepFault,
    ) -> Result<(), AllocError>
        ensures ids { self.new.ids ≡ self.old.ids }
        ensures places { self.new.places ≡ self.old.places }
        ensures proof { self.new.proof ≡ self.old.proof }
        ensures concluded { self.new.concluded ≡ self.old.concluded }
        ensures named { self.new.named ≡ self.old.named }
        ensures bad { OnOk result (self.new.bad
            ≡ Some (record { name = name.now; fault = fault })) }
        ensures err_bad { OnErr result (self.new.bad ≡ self.old.bad) }
    {
        let name = Text::of(alloc, name)?;
        self.bad = Some(BadCommand { name, fault });
        Ok(())
    }
}
