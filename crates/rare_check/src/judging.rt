//! Judging a command after those before it.
ghost use Rattle.std.specs.Prelude.{◌≡◌, ℕ, List, Some, None, false, length, bytes_eq, OnOk, OnErr};
ghost use Rattle.std.specs.List.{list_any};
ghost use Rattle.rare_proof.specs.Sided.{AreSides, equation_of};
ghost use Rattle.rare_proof_text.specs.Commands.{IsCommandOf, IsReadStepOf, command_at, named_step, premise_ids};
ghost use Rattle.rare_proof_text.specs.ProofCommands.{Step, Conclude};
ghost use Rattle.rare_term.specs.State.{Grows};
ghost use Rattle.rare_text.specs.Problems.{StatedRewrite};
ghost use Rattle.rare_text.specs.Stated.{HaveIds};
ghost use Rattle.rare_check.specs.Verdicts.{equation_fault, equation_named};
ghost use Rattle.rare_check.specs.inner.Judging.{AreNamedRules, IsJudged, IsNamedIn, NamesKnown, earlier_of, places_named};
ghost use Rattle.rare_check.specs.inner.Kept.{stated_rewrites};
ghost use Rattle.rare_check.specs.inner.Progress.{progress, progress_of};

use crate::judged::Judged;
use crate::rewrites::find_rewrite;
use rare_base::Numbers;
use rare_proof::{AddError, Sides, StepFault, same_equation};
use rare_proof_text::{ReadCommand, ReadStep};
use rare_rule::Book;
use rare_sexpr::Expr;
use rare_term::Terms;
use rare_text::Rewrite;
use std::alloc::{AllocError, Global};

// A step with a new id and these premises after those before it, none of which is bad.
fn judge_with_premises<E: Expr, T: Terms>(
    alloc: Global,
    terms: &mut T,
    book: &Book,
    judged: &mut Judged,
    step: ReadStep<'_, E>,
    premises: Numbers,
) -> Result<(), AllocError>
    requires judged { IsJudged (T.state terms.old) book.now judged.old }
    requires good { judged.old.bad ≡ None }
    requires step { IsReadStepOf (T.state terms.old) step }
    requires new { list_any (bytes_eq step.id.now) judged.old.ids ≡ false }
    requires premises { places_named judged.old.ids judged.old.places
        (premise_ids E.tree step.premises)
        ≡ Some premises }
    ensures ok { OnOk result ((rewrites : List StatedRewrite)
        → progress_of (T.state terms.new).trees judged.new
        ≡ progress (T.state terms.new).declared book.now rewrites
        (progress_of (T.state terms.new).trees judged.old)
        (Step (named_step E.tree (T.state terms.new).trees step.entry))) }
    ensures err { OnErr result (progress_of (T.state terms.new).trees judged.new
        ≡ progress_of (T.state terms.new).trees judged.old) }
    ensures kept { IsJudged (T.state terms.new) book.now judged.new }
    ensures rules { (named : List ℕ) → AreNamedRules named judged.old.proof →
        IsNamedIn named step.entry.rule →
        AreNamedRules named judged.new.proof }
    ensures concluded { judged.new.concluded ≡ judged.old.concluded }
    ensures named { judged.new.named ≡ judged.old.named }
    ensures grows { Grows (T.state terms.old) (T.state terms.new) }
{
    let ReadStep {
        id,
        sides: Sides { left, right },
        rule,
        premises: _,
    } = step;
    let rule = match rule {
        Ok(rule) => rule,
        Err(fault) => return judged.set_bad(alloc, id, fault),
    };
    let added = judged.proof.add_step(
        terms,
        book,
        rare_proof::Step {
            left,
            right,
            by: rule,
            premises,
        },
    );
    let error = match added {
        Ok(place) => return judged.add(id, place),
        Err(error) => error,
    };
    match error {
        AddError::Invalid(fault) => judged.set_bad(alloc, id, fault),
        AddError::Memory => Err(AllocError),
    }
}

// A step with a new id after those before it, none of which is bad.
fn judge_new_step<E: Expr, T: Terms>(
    alloc: Global,
    terms: &mut T,
    book: &Book,
    judged: &mut Judged,
    step: ReadStep<'_, E>,
) -> Result<(), AllocError>
    requires judged { IsJudged (T.state terms.old) book.now judged.old }
    requires good { judged.old.bad ≡ None }
    requires step { IsReadStepOf (T.state terms.old) step }
    requires new { list_any (bytes_eq step.id.now) judged.old.ids ≡ false }
    ensures ok { OnOk result ((rewrites : List StatedRewrite)
        → progress_of (T.state terms.new).trees judged.new
        ≡ progress (T.state terms.new).declared book.now rewrites
        (progress_of (T.state terms.new).trees judged.old)
        (Step (named_step E.tree (T.state terms.new).trees step.entry))) }
    ensures err { OnErr result (progress_of (T.state terms.new).trees judged.new
        ≡ progress_of (T.state terms.new).trees judged.old) }
    ensures kept { IsJudged (T.state terms.new) book.now judged.new }
    ensures rules { (named : List ℕ) → AreNamedRules named judged.old.proof →
        IsNamedIn named step.entry.rule →
        AreNamedRules named judged.new.proof }
    ensures concluded { judged.new.concluded ≡ judged.old.concluded }
    ensures named { judged.new.named ≡ judged.old.named }
    ensures grows { Grows (T.state terms.old) (T.state terms.new) }
{
    match judged.premise_places(alloc, step.premises)? {
        Some(premises) => judge_with_premises(alloc, terms, book, judged, step, premises),
        None => judged.set_bad(alloc, step.id, StepFault::NoSuchStep),
    }
}

// A step after those before it, none of which is bad.
fn judge_step<E: Expr, T: Terms>(
    alloc: Global,
    terms: &mut T,
    book: &Book,
    judged: &mut Judged,
    step: ReadStep<'_, E>,
) -> Result<(), AllocError>
    requires judged { IsJudged (T.state terms.old) book.now judged.old }
    requires good { judged.old.bad ≡ None }
    requires step { IsReadStepOf (T.state terms.old) step }
    ensures ok { OnOk result ((rewrites : List StatedRewrite)
        → progress_of (T.state terms.new).trees judged.new
        ≡ progress (T.state terms.new).declared book.now rewrites
        (progress_of (T.state terms.new).trees judged.old)
        (Step (named_step E.tree (T.state terms.new).trees step.entry))) }
    ensures err { OnErr result (progress_of (T.state terms.new).trees judged.new
        ≡ progress_of (T.state terms.new).trees judged.old) }
    ensures kept { IsJudged (T.state terms.new) book.now judged.new }
    ensures rules { (named : List ℕ) → AreNamedRules named judged.old.proof →
        IsNamedIn named step.entry.rule →
        AreNamedRules named judged.new.proof }
    ensures concluded { judged.new.concluded ≡ judged.old.concluded }
    ensures named { judged.new.named ≡ judged.old.named }
    ensures grows { Grows (T.state terms.old) (T.state terms.new) }
{
    if judged.ids.contains(step.id) {
        return judged.set_bad(alloc, step.id, StepFault::IdUsed);
    }
    judge_new_step(alloc, terms, book, judged, step)
}

// What fails for the equation of a rewrite and the step with this id.
fn fault_of_equation<T: Terms>(
    terms: &T,
    book: &Book,
    judged: &Judged,
    rewrite: Sides,
    id: &[u8],
) -> Option<StepFault>
    requires judged { IsJudged (T.state terms.now) book.now judged.now }
    requires rewrite { AreSides (length (T.state terms.now).trees) rewrite }
    ensures { result ≡ equation_fault (Some (equation_of (T.state terms.now).trees rewrite))
        (equation_named (earlier_of (T.state terms.now).trees judged.now) id.now) }
{
    let Some(place) = judged.place_of(id) else {
        return Some(StepFault::NoSuchStep);
    };
    let step = judged.proof.step(place);
    let sides = Sides {
        left: step.left,
        right: step.right,
    };
    if same_equation(terms, sides, rewrite) {
        None
    } else {
        Some(StepFault::OtherEquation)
    }
}

// A conclusion after the steps before it, none of which is bad.
fn judge_conclusion<T: Terms>(
    alloc: Global,
    terms: &T,
    book: &Book,
    rewrites: &[Rewrite],
    judged: &mut Judged,
    name: &[u8],
    id: &[u8],
) -> Result<(), AllocError>
    requires judged { IsJudged (T.state terms.now) book.now judged.old }
    requires good { judged.old.bad ≡ None }
    requires rewrites { HaveIds (length (T.state terms.now).trees) rewrites.now }
    ensures ok { OnOk result (progress_of (T.state terms.now).trees judged.new
        ≡ progress (T.state terms.now).declared book.now
        (stated_rewrites (T.state terms.now) rewrites.now)
        (progress_of (T.state terms.now).trees judged.old) (Conclude name.now id.now)) }
    ensures err { OnErr result (progress_of (T.state terms.now).trees judged.new
        ≡ progress_of (T.state terms.now).trees judged.old) }
    ensures proof { judged.new.proof ≡ judged.old.proof }
    ensures named { judged.new.named ≡ judged.old.named }
    ensures kept { IsJudged (T.state terms.now) book.now judged.new }
{
    let Some(k) = find_rewrite(rewrites, name) else {
        return judged.set_bad(alloc, name, StepFault::NoSuchRewrite);
    };
    let rewrite = &rewrites[k];
    let sides = Sides {
        left: rewrite.left,
        right: rewrite.right,
    };
    if let Some(fault) = fault_of_equation(terms, book, judged, sides, id) {
        return judged.set_bad(alloc, name, fault);
    }
    judged.concluded.insert(k)?;
    Ok(())
}

/// Judges one command more of a proof, by the rules of a book. Behind a command that is not valid nothing
/// counts. The terms may grow. Where memory is wanting, what the commands came to stays.
pub fn judge<E: Expr, T: Terms>(
    alloc: Global,
    terms: &mut T,
    book: &Book,
    rewrites: &[Rewrite],
    judged: &mut Judged,
    command: ReadCommand<'_, E>,
) -> Result<(), AllocError>
    requires judged { IsJudged (T.state terms.old) book.now judged.old }
    requires command { IsCommandOf (T.state terms.old) command }
    requires rewrites { HaveIds (length (T.state terms.old).trees) rewrites.now }
    ensures ok { OnOk result (progress_of (T.state terms.new).trees judged.new
        ≡ progress (T.state terms.new).declared book.now
        (stated_rewrites (T.state terms.new) rewrites.now)
        (progress_of (T.state terms.new).trees judged.old)
        (command_at E.tree (T.state terms.new).trees command.entry)) }
    ensures err { OnErr result (progress_of (T.state terms.new).trees judged.new
        ≡ progress_of (T.state terms.new).trees judged.old) }
    ensures kept { IsJudged (T.state terms.new) book.now judged.new }
    ensures rules { (named : List ℕ) → AreNamedRules named judged.old.proof →
        NamesKnown named command.entry →
        AreNamedRules named judged.new.proof }
    ensures named { judged.new.named ≡ judged.old.named }
    ensures grows { Grows (T.state terms.old) (T.state terms.new) }
{
    if judged.bad.is_some() {
        return Ok(());
    }
    match command {
        ReadCommand::Define { .. } => Ok(()),
        ReadCommand::Step(step) => judge_step(alloc, terms, book, judged, step),
        ReadCommand::Conclude { name, id } => {
            judge_conclusion(alloc, terms, book, rewrites, judged, name, id)
        }
    }
}
