//! Which arguments a rule admits.
ghost use Rattle.std.specs.Prelude.{◌≡◌, ◌<◌, ℕ, All, length, slice_get, List, IfOk, IfSome, OnOk};
ghost use Rattle.rare_linear.specs.Linears.{NamesBelow};
ghost use Rattle.rare_sort.specs.DeclaredSorts.{AreNamed, widths};
ghost use Rattle.rare_sort.specs.Each.{Each};
ghost use Rattle.rare_rule.specs.Nodes.{Node, nodes_of};
ghost use Rattle.rare_inst.specs.Admission as spec;
ghost use Rattle.rare_inst.specs.Answers.{AnswersFault, AreGiven};
ghost use Rattle.rare_inst.specs.Arguments.{arguments_of};
ghost use Rattle.rare_inst.specs.InstanceLaws.{IsArgument};
ghost use Rattle.rare_inst.specs.Substituting.{Substitution, number_given};
ghost use Rattle.rare_inst.specs.inner.RuleTrees.{IsRuleTree};
ghost use Rattle.rare_inst.specs.inner.Sites.{HasNamedSort, IsPutAt};
ghost use Rattle.rare_inst.specs.inner.Standing.{StandsFor};

use crate::arg::Arg;
use crate::fault::InstFault;
use crate::obeying::{Site, obeys};
use crate::substitution::Numbers;
use crate::totals::numbers_of;
use rare_linear::{Constraint, Linear};
use rare_rule::{Param, Typed};
use rare_term::Terms;
use std::alloc::{AllocError, Global};

/// The number of the first argument that breaks the rules of arguments.
fn first_missorted<T: Terms>(
    alloc: Global,
    terms: &T,
    site: &Site,
    params: &[Param],
) -> Result<Option<usize>, AllocError>
    requires count { length site.now.args.now ≡ length params.now }
    requires args { AreGiven (T.state terms.now) site.now.args.now }
    requires sorts { All (λ p. HasNamedSort (length site.now.numbers.now.values) p.kind)
        params.now }
    requires left { IsRuleTree (length site.now.numbers.now.values) site.now.left.now }
    ensures first { (a : Substitution) → IsPutAt a site.now →
        let xs = arguments_of (T.state terms.now).trees site.now.args.now in
        ((k : ℕ) → a.number k ≡ number_given (T.state terms.now).declared.symbols
        (slice_get xs k)) →
        IfOk result (λ o. o ≡ spec.first_that_fails (λ k p. spec.obeys (T.state terms.now).declared
        (nodes_of site.now.left.now) a k p (slice_get xs k)) 0 params.now) }
    ensures below { IfOk result (λ o. IfSome o (λ k. k < length params.now)) }
{
    for (k, param) in params.iter().enumerate() {
        if !obeys(alloc, terms, site, k, param, &site.args[k])? {
            return Ok(Some(k));
        }
    }
    Ok(None)
}

/// Whether the constraint follows, with what stands for its names.
fn is_met<T: Terms>(terms: &T, numbers: &Numbers, floor: &Linear) -> Result<bool, AllocError>
    requires floor { NamesBelow (length numbers.now.values) floor.now.parts }
    requires named { AreNamed (widths (T.state terms.now).declared) numbers.now.values }
    ensures { (a : Substitution) → StandsFor a numbers.now → (left : List Node) →
        IfOk result (λ b. b ≡ spec.is_met (T.state terms.now).declared left a
        (record { floor = floor.now })) }
{
    match numbers.put(floor)? {
        Some(e) => Ok(terms.entailed(&e)),
        None => Ok(false),
    }
}

/// The number of the first constraint that doesn't follow.
fn first_unentailed<T: Terms>(
    terms: &T,
    numbers: &Numbers,
    constraints: &[Constraint],
) -> Result<Option<usize>, AllocError>
    requires floors { All (λ c. NamesBelow (length numbers.now.values) c.floor.parts)
        constraints.now }
    requires named { AreNamed (widths (T.state terms.now).declared) numbers.now.values }
    ensures first { (a : Substitution) → StandsFor a numbers.now → (left : List Node) →
        IfOk result (λ o. o ≡ spec.first_that_fails
        (λ k c. spec.is_met (T.state terms.now).declared left a c)
        0 constraints.now) }
    ensures below { IfOk result (λ o. IfSome o (λ k. k < length constraints.now)) }
{
    for (k, constraint) in constraints.iter().enumerate() {
        if !is_met(terms, numbers, &constraint.floor)? {
            return Ok(Some(k));
        }
    }
    Ok(None)
}

/// Whether the rule admits the arguments: each obeys the rules of arguments, and each constraint of the
/// rule follows from those of the problem where the arguments stand for its names.
///
/// Errors: `ArgMissorted` of the first argument that breaks the rules of arguments; where none does,
/// `Unentailed` of the first constraint that doesn't follow; `Memory`.
pub fn admit<T: Terms>(
    alloc: Global,
    terms: &T,
    rule: &Typed,
    args: &[Arg],
) -> Result<(), InstFault>
    requires count { length args.now ≡ length rule.now.rule.params }
    requires args { AreGiven (T.state terms.now) args.now }
    ensures admitted { AnswersFault (spec.admission_fault (T.state terms.now).declared rule.now
        (arguments_of (T.state terms.now).trees args.now)) result }
    ensures arguments { OnOk result (Each (IsArgument (T.state terms.now).declared)
        (arguments_of (T.state terms.now).trees args.now)) }
{
    let numbers = numbers_of(alloc, terms, args)?;
    let parts = rule.rule();
    let constraints = rule.constraints();
    let site = Site {
        args,
        numbers: &numbers,
        left: &parts.left,
    };
    if let Some(k) = first_missorted(alloc, terms, &site, parts.params.items())? {
        return Err(InstFault::ArgMissorted(k + 1));
    }
    match first_unentailed(terms, &numbers, constraints)? {
        Some(k) => Err(InstFault::Unentailed(k + 1)),
        None => Ok(()),
    }
}
