//! An instance of a rule of the book.
ghost use Rattle.std.specs.Prelude.{◌≡◌, ◌<◌, ◌∷◌, [], length, nat_eq, OnOk};
ghost use Rattle.std.specs.Option.{option_map};
ghost use Rattle.rare_sort.specs.Each.{Each};
ghost use Rattle.rare_sort.specs.Ids.{tree_at};
ghost use Rattle.rare_term.specs.State.{Grows};
ghost use Rattle.rare_inst.specs.Admission.{IsAdmitted, admission_fault};
ghost use Rattle.rare_inst.specs.Answers.{AreGiven};
ghost use Rattle.rare_inst.specs.Arguments.{arguments_of};
ghost use Rattle.rare_inst.specs.Instance.{left_of, premise_of, result_of};
ghost use Rattle.rare_inst.specs.InstanceLaws.{IsArgument};
ghost use Rattle.rare_rule.specs.Books.{typed_at};
ghost use Rattle.rare_proof.specs.Proofs.{Judges};
ghost use Rattle.rare_proof.specs.Sided.{AreSides, AllAreSides, equation_of, equations_of};
ghost use Rattle.rare_proof.specs.declared.fault.StepFault.TheVariants.{ArgCount, OtherLeft, OtherPremise, OtherRight};
ghost use Rattle.rare_proof.specs.Steps.{exists, first_failing, instance_conditions, instance_fault, is_part, needs, premise_conditions, rewrite_conditions, says_true};

use crate::compared::{is_truth, same_term};
use crate::fault::{AddError, StepFault};
use crate::sides::Sides;
use rare_inst::{Arg, admit, left_instance, premise_instance, right_instance};
use rare_rule::{Book, Typed};
use rare_term::{TermId, Terms};
use std::alloc::Global;

// A condition that is needed.
fn need(holds: bool, fault: StepFault) -> Result<(), AddError>
    ensures { Judges (needs holds fault) result }
{
    if holds {
        Ok(())
    } else {
        Err(AddError::Invalid(fault))
    }
}

// Premise `k` of the rule exists, and the equation says that it is true.
fn test_premise<T: Terms>(
    alloc: Global,
    terms: &mut T,
    rule: &Typed,
    args: &[Arg],
    k: usize,
    premise: Sides,
) -> Result<(), AddError>
    requires count { length args.now ≡ length rule.now.rule.params }
    requires args { AreGiven (T.state terms.old) args.now }
    requires admitted { IsAdmitted (T.state terms.old).declared rule.now
        (arguments_of (T.state terms.old).trees args.now) }
    requires k { k < length rule.now.rule.premises }
    requires premise { AreSides (length (T.state terms.old).trees) premise }
    ensures judged { let part = premise_of (T.state terms.old).declared rule.now.rule
        (arguments_of (T.state terms.old).trees args.now) k in
        Judges (first_failing (exists part
        ∷ needs (says_true part (equation_of (T.state terms.old).trees premise)) OtherPremise ∷ []))
        result }
    ensures grows { Grows (T.state terms.old) (T.state terms.new) }
{
    let part = premise_instance(alloc, terms, rule, args, k)?;
    let says_true = same_term(terms, part, premise.left) && is_truth(terms, premise.right);
    need(says_true, StepFault::OtherPremise)
}

// Each premise of the rule exists, in order, and the equations say that they are true.
fn test_premises<T: Terms>(
    alloc: Global,
    terms: &mut T,
    rule: &Typed,
    args: &[Arg],
    premises: &[Sides],
) -> Result<(), AddError>
    requires count { length args.now ≡ length rule.now.rule.params }
    requires args { AreGiven (T.state terms.old) args.now }
    requires admitted { IsAdmitted (T.state terms.old).declared rule.now
        (arguments_of (T.state terms.old).trees args.now) }
    requires premises { AllAreSides (length (T.state terms.old).trees) premises.now }
    requires as_many { length premises.now ≡ length rule.now.rule.premises }
    ensures judged { Judges (first_failing (premise_conditions (T.state terms.old).declared rule.now
        (arguments_of (T.state terms.old).trees args.now) 0
        (equations_of (T.state terms.old).trees premises.now))) result }
    ensures grows { Grows (T.state terms.old) (T.state terms.new) }
{
    for (k, premise) in premises.iter().enumerate() {
        test_premise(alloc, terms, rule, args, k, *premise)?;
    }
    Ok(())
}

// As many arguments as the rule has names, and the rule admits them.
fn test_arguments<T: Terms>(
    alloc: Global,
    terms: &T,
    rule: &Typed,
    args: &[Arg],
) -> Result<(), AddError>
    requires { AreGiven (T.state terms.now) args.now }
    ensures judged { let xs = arguments_of (T.state terms.now).trees args.now in
        Judges (first_failing (needs (nat_eq (length xs) (length rule.now.rule.params)) ArgCount
        ∷ option_map instance_fault (admission_fault (T.state terms.now).declared rule.now xs)
        ∷ [])) result }
    ensures count { OnOk result (length args.now ≡ length rule.now.rule.params) }
    ensures admitted { OnOk result (IsAdmitted (T.state terms.now).declared rule.now
        (arguments_of (T.state terms.now).trees args.now)) }
    ensures arguments { OnOk result (Each (IsArgument (T.state terms.now).declared)
        (arguments_of (T.state terms.now).trees args.now)) }
{
    need(args.len() == rule.rule().params.len(), StepFault::ArgCount)?;
    Ok(admit(alloc, terms, rule, args)?)
}

// The left side of the rule becomes the term of this id.
fn test_left<T: Terms>(
    alloc: Global,
    terms: &mut T,
    rule: &Typed,
    args: &[Arg],
    side: TermId,
) -> Result<(), AddError>
    requires count { length args.now ≡ length rule.now.rule.params }
    requires args { AreGiven (T.state terms.old) args.now }
    requires admitted { IsAdmitted (T.state terms.old).declared rule.now
        (arguments_of (T.state terms.old).trees args.now) }
    requires side { side.0 < length (T.state terms.old).trees }
    ensures judged { let part = left_of (T.state terms.old).declared rule.now.rule
        (arguments_of (T.state terms.old).trees args.now) in
        Judges (first_failing (exists part
        ∷ needs (is_part part (tree_at (T.state terms.old).trees side.0)) OtherLeft ∷ [])) result }
    ensures grows { Grows (T.state terms.old) (T.state terms.new) }
{
    let left = left_instance(alloc, terms, rule, args)?;
    need(same_term(terms, left, side), StepFault::OtherLeft)
}

// The result of the rule is the term of this id.
fn test_right<T: Terms>(
    alloc: Global,
    terms: &mut T,
    rule: &Typed,
    args: &[Arg],
    side: TermId,
) -> Result<(), AddError>
    requires count { length args.now ≡ length rule.now.rule.params }
    requires args { AreGiven (T.state terms.old) args.now }
    requires admitted { IsAdmitted (T.state terms.old).declared rule.now
        (arguments_of (T.state terms.old).trees args.now) }
    requires side { side.0 < length (T.state terms.old).trees }
    ensures judged { let part = result_of (T.state terms.old).declared rule.now.rule
        (arguments_of (T.state terms.old).trees args.now) in
        Judges (first_failing (exists part
        ∷ needs (is_part part (tree_at (T.state terms.old).trees side.0)) OtherRight ∷ [])) result }
    ensures grows { Grows (T.state terms.old) (T.state terms.new) }
{
    let right = right_instance(alloc, terms, rule, args)?;
    need(same_term(terms, right, side), StepFault::OtherRight)
}

// Its conditions for a rule: as many arguments as names; the rule admits them; the left instance exists,
// and is the left side; as many premises as the rule has; each exists, and is said to be true; the result
// exists, and is the right side.
fn test_instance<T: Terms>(
    alloc: Global,
    terms: &mut T,
    rule: &Typed,
    args: &[Arg],
    sides: Sides,
    premises: &[Sides],
) -> Result<(), AddError>
    requires args { AreGiven (T.state terms.old) args.now }
    requires sides { AreSides (length (T.state terms.old).trees) sides }
    requires premises { AllAreSides (length (T.state terms.old).trees) premises.now }
    ensures judged { Judges (first_failing
        (instance_conditions (T.state terms.old).declared rule.now
        (arguments_of (T.state terms.old).trees args.now)
        (tree_at (T.state terms.old).trees sides.left.0)
        (tree_at (T.state terms.old).trees sides.right.0)
        (equations_of (T.state terms.old).trees premises.now))) result }
    ensures arguments { OnOk result (Each (IsArgument (T.state terms.old).declared)
        (arguments_of (T.state terms.old).trees args.now)) }
    ensures grows { Grows (T.state terms.old) (T.state terms.new) }
{
    test_arguments(alloc, terms, rule, args)?;
    test_left(alloc, terms, rule, args, sides.left)?;
    need(
        premises.len() == rule.rule().premises.len(),
        StepFault::PremiseCount,
    )?;
    test_premises(alloc, terms, rule, args, premises)?;
    test_right(alloc, terms, rule, args, sides.right)
}

/// Its conditions: the rule stands in the book, and then those of an instance of it.
pub(crate) fn test<T: Terms>(
    alloc: Global,
    terms: &mut T,
    book: &Book,
    rule: usize,
    args: &[Arg],
    sides: Sides,
    premises: &[Sides],
) -> Result<(), AddError>
    requires args { AreGiven (T.state terms.old) args.now }
    requires sides { AreSides (length (T.state terms.old).trees) sides }
    requires premises { AllAreSides (length (T.state terms.old).trees) premises.now }
    ensures judged { Judges (first_failing (rewrite_conditions (T.state terms.old).declared
        (typed_at book.now rule) (arguments_of (T.state terms.old).trees args.now)
        (tree_at (T.state terms.old).trees sides.left.0)
        (tree_at (T.state terms.old).trees sides.right.0)
        (equations_of (T.state terms.old).trees premises.now))) result }
    ensures arguments { OnOk result (Each (IsArgument (T.state terms.old).declared)
        (arguments_of (T.state terms.old).trees args.now)) }
    ensures grows { Grows (T.state terms.old) (T.state terms.new) }
{
    if rule >= book.len() {
        return Err(AddError::Invalid(StepFault::NoSuchRule));
    }
    test_instance(alloc, terms, book.rule(rule), args, sides, premises)
}
