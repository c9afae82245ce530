//! The instance of a rule at its arguments.
ghost use Rattle.std.specs.Prelude.{◌≡◌, ◌<◌, ◌++◌, All, None, OnOk, Some, length, map};
ghost use Rattle.rare_sort.specs.DeclaredSorts.{IsSymbol};
ghost use Rattle.rare_sort.specs.Families.{family};
ghost use Rattle.rare_sort.specs.Ids.{AreIds, trees_at};
ghost use Rattle.rare_sort.specs.Trees.{args_of, head_of};
ghost use Rattle.rare_term.specs.State.{Grows};
ghost use Rattle.rare_sort.specs.declared.sort.Sort.{Sort};
ghost use Rattle.rare_rule.specs.RuleSorting.{TypesAs};
ghost use Rattle.rare_rule.specs.TypedRule.{IsTypedRule};
ghost use Rattle.rare_inst.specs.Admission.{IsAdmitted};
ghost use Rattle.rare_inst.specs.Answers.{AnswersPart, AreGiven};
ghost use Rattle.rare_inst.specs.Arguments.{arguments_of};
ghost use Rattle.rare_inst.specs.Collapse.{reduct_tree};
ghost use Rattle.rare_inst.specs.Instance as spec;
ghost use Rattle.rare_inst.specs.Substituting.{one_tree};
ghost use Rattle.rare_inst.specs.inner.Making.{AnswersGroup, AnswersMade, IsAlone, IsPartOf, applied, applied_fault, fault_at, node_group, own_fault_at, part_fault, part_group, side_of};
ghost use Rattle.rare_inst.specs.inner.RuleTrees.{IsRuleTree};
ghost use Rattle.rare_inst.specs.inner.Sites.{HasNamedSort};

use crate::arg::Arg;
use crate::collapse::reduct;
use crate::fault::InstFault;
use crate::part::{Hole, Part, Side, group_of, has_too_few, hole_of, in_hole, only};
use crate::totals::numbers_of;
use rare_rule::{Rule, Typed};
use rare_sort::{Head, Ids, TermId, Tree};
use rare_term::Terms;
use std::alloc::{AllocError, Global};

/// The application that a node becomes, with arguments of these ids.
fn application<T: Terms>(
    alloc: Global,
    terms: &mut T,
    part: &Part,
    tree: &Tree,
    ids: &[TermId],
) -> Result<TermId, InstFault>
    requires part { IsPartOf (T.state terms.old) part.now }
    requires sorts { All (λ p. HasNamedSort (length part.now.numbers.now.values) p.kind)
        part.now.params.now }
    requires ids { AreIds (length (T.state terms.old).trees) ids.now }
    requires symbol { IsSymbol (length (T.state terms.old).declared.symbols)
        (family (head_of tree.now)) }
    requires tree { IsRuleTree (length part.now.numbers.now.values) tree.now }
    ensures made { AnswersMade (T.state terms.new).trees
        (applied_fault (T.state terms.old) part.now tree.now ids.now)
        (reduct_tree (applied (T.state terms.old) part.now tree.now ids.now)) result }
    ensures grows { Grows (T.state terms.old) (T.state terms.new) }
{
    match part.numbers.put_all(alloc, tree.indices.items())? {
        Some(indices) => reduct(alloc, terms, part, tree, indices.items(), ids),
        None => Err(InstFault::Limit),
    }
}

/// The list of the application that a node becomes.
fn applied_alone<T: Terms>(
    alloc: Global,
    terms: &mut T,
    part: &Part,
    tree: &Tree,
    ids: &[TermId],
) -> Result<Ids, InstFault>
    requires part { IsPartOf (T.state terms.old) part.now }
    requires sorts { All (λ p. HasNamedSort (length part.now.numbers.now.values) p.kind)
        part.now.params.now }
    requires ids { AreIds (length (T.state terms.old).trees) ids.now }
    requires symbol { IsSymbol (length (T.state terms.old).declared.symbols)
        (family (head_of tree.now)) }
    requires tree { IsRuleTree (length part.now.numbers.now.values) tree.now }
    ensures made { AnswersGroup (T.state terms.new).trees
        (applied_fault (T.state terms.old) part.now tree.now ids.now)
        (one_tree (reduct_tree (applied (T.state terms.old) part.now tree.now ids.now))) result }
    ensures grows { Grows (T.state terms.old) (T.state terms.new) }
{
    let id = application(alloc, terms, part, tree, ids)?;
    Ok(only(alloc, id)?)
}

/// The terms that a node becomes which has arguments enough, of these ids.
fn at_node<T: Terms>(
    alloc: Global,
    terms: &mut T,
    part: &Part,
    tree: &Tree,
    ids: &[TermId],
) -> Result<Ids, InstFault>
    requires part { IsPartOf (T.state terms.old) part.now }
    requires sorts { All (λ p. HasNamedSort (length part.now.numbers.now.values) p.kind)
        part.now.params.now }
    requires ids { AreIds (length (T.state terms.old).trees) ids.now }
    requires tree { IsRuleTree (length part.now.numbers.now.values) tree.now }
    ensures made { AnswersGroup (T.state terms.new).trees
        (own_fault_at (T.state terms.old) part.now tree.now ids.now)
        (node_group (T.state terms.old) part.now tree.now ids.now) result }
    ensures grows { Grows (T.state terms.old) (T.state terms.new) }
{
    match tree.head {
        Head::Param(k) => Ok(group_of(alloc, part.args, k)?),
        Head::Hole => in_hole(alloc, part.hole),
        _ => applied_alone(alloc, terms, part, tree, ids),
    }
}

fn too_few(side: Side) -> InstFault
    ensures { result ≡ spec.too_few (side_of side) }
{
    match side {
        Side::Left => InstFault::LeftTooShort,
        Side::Other => InstFault::EmptyConcat,
    }
}

/// The terms that a node becomes, with arguments of these ids.
fn at_counted_node<T: Terms>(
    alloc: Global,
    terms: &mut T,
    part: &Part,
    tree: &Tree,
    ids: &[TermId],
) -> Result<Ids, InstFault>
    requires part { IsPartOf (T.state terms.old) part.now }
    requires sorts { All (λ p. HasNamedSort (length part.now.numbers.now.values) p.kind)
        part.now.params.now }
    requires ids { AreIds (length (T.state terms.old).trees) ids.now }
    requires tree { IsRuleTree (length part.now.numbers.now.values) tree.now }
    ensures made { AnswersGroup (T.state terms.new).trees
        (fault_at (T.state terms.old) part.now tree.now ids.now)
        (node_group (T.state terms.old) part.now tree.now ids.now) result }
    ensures grows { Grows (T.state terms.old) (T.state terms.new) }
{
    if has_too_few(part, tree, ids.len()) {
        return Err(too_few(part.side));
    }
    at_node(alloc, terms, part, tree, ids)
}

/// Appends the ids.
fn append(to: &mut Ids, from: &[TermId]) -> Result<(), AllocError>
    ensures { OnOk result (to.new ≡ to.old ++ from.now) }
{
    for id in from {
        to.push(*id)?;
    }
    Ok(())
}

/// The terms that a tree of the rule becomes: one, or those of a list variable.
fn instance_of<T: Terms>(
    alloc: Global,
    terms: &mut T,
    part: &Part,
    tree: &Tree,
) -> Result<Ids, InstFault>
    requires part { IsPartOf (T.state terms.old) part.now }
    requires sorts { All (λ p. HasNamedSort (length part.now.numbers.now.values) p.kind)
        part.now.params.now }
    requires tree { IsRuleTree (length part.now.numbers.now.values) tree.now }
    ensures made { AnswersGroup (T.state terms.new).trees
        (part_fault (T.state terms.old) part.now tree.now)
        (part_group (T.state terms.old) part.now tree.now) result }
    ensures grows { Grows (T.state terms.old) (T.state terms.new) }
{
    let mut ids = Ids::new(alloc);
    for arg in tree.args.items() {
        let more = instance_of(alloc, terms, part, arg)?;
        append(&mut ids, more.items())?;
    }
    at_counted_node(alloc, terms, part, tree, ids.items())
}

/// The term that a tree of the rule becomes, which is one where it has no fault.
fn term_of<T: Terms>(
    alloc: Global,
    terms: &mut T,
    part: &Part,
    tree: &Tree,
) -> Result<TermId, InstFault>
    requires part { IsPartOf (T.state terms.old) part.now }
    requires sorts { All (λ p. HasNamedSort (length part.now.numbers.now.values) p.kind)
        part.now.params.now }
    requires tree { IsRuleTree (length part.now.numbers.now.values) tree.now }
    requires alone { part_fault (T.state terms.old) part.now tree.now ≡ None →
        IsAlone (part_group (T.state terms.old) part.now tree.now) }
    ensures made { AnswersPart (T.state terms.new).trees result (spec.unless_faulty
        (part_fault (T.state terms.old) part.now tree.now)
        (part_group (T.state terms.old) part.now tree.now)) }
    ensures grows { Grows (T.state terms.old) (T.state terms.new) }
{
    let ids = instance_of(alloc, terms, part, tree)?;
    Ok(*ids.get(0))
}

/// The rule, which is in form and types.
fn rule_of(rule: &Typed) -> &Rule
    ensures rule { result.now ≡ rule.now.rule }
    ensures typed { IsTypedRule rule.now }
{
    let _constraints = rule.constraints();
    rule.rule()
}

/// What a tree of the rule that is no part of a context becomes.
fn part_instance<T: Terms>(
    alloc: Global,
    terms: &mut T,
    rule: &Typed,
    args: &[Arg],
    side: Side,
    tree: &Tree,
) -> Result<TermId, InstFault>
    requires count { length args.now ≡ length rule.now.rule.params }
    requires args { AreGiven (T.state terms.old) args.now }
    requires admitted { IsAdmitted (T.state terms.old).declared rule.now
        (arguments_of (T.state terms.old).trees args.now) }
    requires typed { IsTypedRule rule.now }
    requires tree { IsRuleTree (length rule.now.rule.params) tree.now }
    requires sort { (s : Sort) × TypesAs rule.now.rule tree.now s }
    ensures made { AnswersPart (T.state terms.new).trees result
        (spec.part_of (T.state terms.old).declared
        rule.now.rule (arguments_of (T.state terms.old).trees args.now) (side_of side) tree.now) }
    ensures grows { Grows (T.state terms.old) (T.state terms.new) }
{
    let numbers = numbers_of(alloc, terms, args)?;
    let part = Part {
        params: rule.rule().params.items(),
        args,
        numbers: &numbers,
        side,
        hole: Hole::Nothing,
    };
    term_of(alloc, terms, &part, tree)
}

/// What the context becomes with what was made of the right side in its hole.
fn context_instance<T: Terms>(
    alloc: Global,
    terms: &mut T,
    rule: &Typed,
    args: &[Arg],
    right: Result<TermId, InstFault>,
    context: &Tree,
) -> Result<TermId, InstFault>
    requires count { length args.now ≡ length rule.now.rule.params }
    requires args { AreGiven (T.state terms.old) args.now }
    requires admitted { IsAdmitted (T.state terms.old).declared rule.now
        (arguments_of (T.state terms.old).trees args.now) }
    requires typed { IsTypedRule rule.now }
    requires context { rule.now.rule.context ≡ Some context.now }
    requires right { AnswersPart (T.state terms.old).trees right
        (spec.part_of (T.state terms.old).declared
        rule.now.rule (arguments_of (T.state terms.old).trees args.now) spec.OtherSide
        rule.now.rule.right) }
    ensures made { AnswersPart (T.state terms.new).trees result
        (spec.result_of (T.state terms.old).declared
        rule.now.rule (arguments_of (T.state terms.old).trees args.now)) }
    ensures grows { Grows (T.state terms.old) (T.state terms.new) }
{
    let hole = hole_of(right)?;
    let numbers = numbers_of(alloc, terms, args)?;
    let part = Part {
        params: rule.rule().params.items(),
        args,
        numbers: &numbers,
        side: Side::Other,
        hole,
    };
    term_of(alloc, terms, &part, context)
}

/// The left side at arguments that the rule admits.
///
/// Errors are those of the first node that has one, an application's arguments before itself:
/// `LeftTooShort` of an application that has list variables and fewer than two arguments, `Limit`;
/// `Memory`. After an error the terms may have grown, and old ids stand.
pub fn left_instance<T: Terms>(
    alloc: Global,
    terms: &mut T,
    rule: &Typed,
    args: &[Arg],
) -> Result<TermId, InstFault>
    requires count { length args.now ≡ length rule.now.rule.params }
    requires args { AreGiven (T.state terms.old) args.now }
    requires admitted { IsAdmitted (T.state terms.old).declared rule.now
        (arguments_of (T.state terms.old).trees args.now) }
    ensures made { AnswersPart (T.state terms.new).trees result
        (spec.left_of (T.state terms.old).declared
        rule.now.rule (arguments_of (T.state terms.old).trees args.now)) }
    ensures grows { Grows (T.state terms.old) (T.state terms.new) }
{
    let parts = rule_of(rule);
    part_instance(alloc, terms, rule, args, Side::Left, &parts.left)
}

/// Premise `k`, counted from 0, at arguments that the rule admits.
///
/// Errors are those of the first node that has one, an application's arguments before itself:
/// `EmptyConcat`, `Limit`; `Memory`. After an error the terms may have grown, and old ids stand.
pub fn premise_instance<T: Terms>(
    alloc: Global,
    terms: &mut T,
    rule: &Typed,
    args: &[Arg],
    k: usize,
) -> Result<TermId, InstFault>
    requires count { length args.now ≡ length rule.now.rule.params }
    requires args { AreGiven (T.state terms.old) args.now }
    requires admitted { IsAdmitted (T.state terms.old).declared rule.now
        (arguments_of (T.state terms.old).trees args.now) }
    requires k { k < length rule.now.rule.premises }
    ensures made { AnswersPart (T.state terms.new).trees result
        (spec.premise_of (T.state terms.old).declared
        rule.now.rule (arguments_of (T.state terms.old).trees args.now) k) }
    ensures grows { Grows (T.state terms.old) (T.state terms.new) }
{
    let parts = rule_of(rule);
    part_instance(alloc, terms, rule, args, Side::Other, parts.premises.get(k))
}

/// The right side at arguments that the rule admits, or its context with the right side in the hole.
///
/// Errors are those of the first node that has one, an application's arguments before itself, and
/// those of the right side where the hole is: `EmptyConcat`, `Limit`; `Memory`. After an error the
/// terms may have grown, and old ids stand.
pub fn right_instance<T: Terms>(
    alloc: Global,
    terms: &mut T,
    rule: &Typed,
    args: &[Arg],
) -> Result<TermId, InstFault>
    requires count { length args.now ≡ length rule.now.rule.params }
    requires args { AreGiven (T.state terms.old) args.now }
    requires admitted { IsAdmitted (T.state terms.old).declared rule.now
        (arguments_of (T.state terms.old).trees args.now) }
    ensures made { AnswersPart (T.state terms.new).trees result
        (spec.result_of (T.state terms.old).declared
        rule.now.rule (arguments_of (T.state terms.old).trees args.now)) }
    ensures grows { Grows (T.state terms.old) (T.state terms.new) }
{
    let parts = rule_of(rule);
    let right = part_instance(alloc, terms, rule, args, Side::Other, &parts.right);
    match &parts.context {
        Some(context) => context_instance(alloc, terms, rule, args, right, context),
        None => right,
    }
}
