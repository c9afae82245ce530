//! Reads a rule.
ghost use Rattle.std.specs.Prelude.{◌≡◌, ◌<◌, ◌≤◌, ◌^◌, ◌&&◌, nat_le, IfOk, drop, length};
ghost use Rattle.rare_rule.specs.Rules.{IsInForm};
ghost use Rattle.rare_scope.specs.Answers.{Answers};
ghost use Rattle.rare_sexpr.specs.Tree.{items_of};
ghost use Rattle.rare_parse.specs.RuleText as text;
ghost use Rattle.rare_parse.specs.RuleText.{behind_params, begins_definitions, plain_rule_of, rule_at};
ghost use Rattle.rare_rule.specs.Written.{plain_rule};
ghost use Rattle.rare_parse.specs.inner.RuleReading.{bounded_at, sides_at, two_sides, AnswersBounds, AnswersTwo, AreMeasured};

use crate::bounds::read_bounds;
use crate::measured::ReadTerm;
use crate::names::RuleNames;
use crate::params::read_params;
use crate::term::read_term;
use crate::whole::whole_rule;
use rare_base::{Fault, Reason, Text};
use rare_linear::Constraints;
use rare_rule::{Params, Rule, RuleKind};
use rare_scope::{is_keyword_at, is_symbol, is_word_at, read_symbol, refusal_at};
use rare_sexpr::Expr;
use rare_sort::Trees;
use std::alloc::Global;

/// The fewest and the most items of a rule.
const FEWEST_ITEMS: usize = 5;

const MOST_ITEMS: usize = 8;

/// Bounds, and the place of the item behind them.
#[derive(Debug, Drop)]
pub struct ReadBounds {
    pub bounds: Constraints,
    pub behind: usize,
}

/// The two sides of a rule.
#[derive(Debug, Drop)]
pub struct ReadSides {
    pub left: ReadTerm,
    pub right: ReadTerm,
}

// The bounds that the fourth and the fifth item spell, if `:where` is the fourth.
fn read_where<E: Expr>(
    alloc: Global,
    keyword: &E,
    constraints: &E,
    names: &RuleNames,
) -> Result<ReadBounds, Fault>
    ensures read { AnswersBounds result
        (bounded_at names.now (E.tree keyword.now) (E.tree constraints.now)) }
    ensures behind { IfOk result (λ b. b.behind ≤ 5) }
{
    if !is_keyword_at(keyword, "where") {
        return Ok(ReadBounds {
            bounds: Constraints::new(alloc),
            behind: 3,
        });
    }
    match read_bounds(alloc, constraints, names) {
        Ok(bounds) => Ok(ReadBounds { bounds, behind: 5 }),
        Err(fault) => Err(fault),
    }
}

// Whether definitions stand here.
#[tactic(auto, using(crate::proofs::RuleSteps::no_definitions, crate::proofs::RuleSteps::definitions_by))]
fn is_definitions<E: Expr>(e: &E) -> bool
    ensures { result ≡ begins_definitions (items_of (E.tree e.now)) }
{
    if e.len() == 0 {
        return false;
    }
    is_word_at(e.item(0), "def")
}

// The sides that the items from `from` on spell, behind which nothing stands.
#[tactic(auto, using(crate::proofs::RuleSteps::lone_left, crate::proofs::RuleSteps::left_fails, crate::proofs::RuleSteps::right_fails, crate::proofs::RuleSteps::more_sides, crate::proofs::RuleSteps::sides_read))]
fn read_two<E: Expr>(
    alloc: Global,
    e: &E,
    from: usize,
    names: &RuleNames,
) -> Result<ReadSides, Fault>
    requires { from < length (items_of (E.tree e.now)) }
    ensures read { AnswersTwo result
        (two_sides names.now (E.tree e.now) (drop from (items_of (E.tree e.now)))) }
    ensures measured { IfOk result AreMeasured }
{
    let left = match read_term(alloc, e.item(from), names) {
        Ok(left) => left,
        Err(fault) => return Err(fault),
    };
    if e.len() - from == 1 {
        return Err(refusal_at(e, Reason::BadForm));
    }
    let right = match read_term(alloc, e.item(from + 1), names) {
        Ok(right) => right,
        Err(fault) => return Err(fault),
    };
    if e.len() - from > 2 {
        return Err(refusal_at(e.item(from + 2), Reason::BadForm));
    }
    Ok(ReadSides { left, right })
}

// The sides that the items from `from` on spell; no definitions stand before them.
#[tactic(auto, using(crate::proofs::RuleSteps::no_sides, crate::proofs::RuleSteps::defined, crate::proofs::RuleSteps::undefined))]
fn read_sides<E: Expr>(
    alloc: Global,
    e: &E,
    from: usize,
    names: &RuleNames,
) -> Result<ReadSides, Fault>
    requires { from ≤ length (items_of (E.tree e.now)) }
    ensures read { AnswersTwo result
        (sides_at names.now (E.tree e.now) (drop from (items_of (E.tree e.now)))) }
    ensures measured { IfOk result AreMeasured }
{
    if from == e.len() {
        return Err(refusal_at(e, Reason::BadForm));
    }
    let first = e.item(from);
    if is_definitions(first) {
        return Err(refusal_at(first, Reason::BadForm));
    }
    read_two(alloc, e, from, names)
}

// The rule of these parts, if it passes as a whole.
fn rule_of<E: Expr>(
    alloc: Global,
    e: &E,
    name: &[u8],
    params: Params,
    bounds: Constraints,
    sides: ReadSides,
) -> Result<Rule, Fault>
    requires few { length params < 2 ^ 32 }
    requires measured { AreMeasured sides }
    ensures { Answers result (text.whole_rule (E.tree e.now)
        (plain_rule name.now params bounds sides.left.tree sides.right.tree)) }
{
    let Ok(name) = Text::of(alloc, name) else {
        return Err(Fault::Memory);
    };
    let nodes = sides.left.nodes + sides.right.nodes;
    let rule = Rule {
        name,
        kind: RuleKind::Plain,
        params,
        bounds,
        premises: Trees::new(alloc),
        left: sides.left.tree,
        right: sides.right.tree,
        context: None,
    };
    whole_rule(alloc, e, rule, nodes)
}

// The rule of a name and parameters, whose bounds and sides the items from the fourth on spell.
#[tactic(auto, using(crate::proofs::RuleSteps::bounds_fail, crate::proofs::RuleSteps::sides_fail, crate::proofs::RuleSteps::parts_read))]
fn read_behind<E: Expr>(alloc: Global, e: &E, name: &[u8], params: Params) -> Result<Rule, Fault>
    requires few { length params < 2 ^ 32 }
    requires five { 5 ≤ length (items_of (E.tree e.now)) }
    ensures { Answers result
        (behind_params (E.tree e.now) name.now params (drop 3 (items_of (E.tree e.now)))) }
{
    let names = RuleNames::new(params.items());
    let bounds = match read_where(alloc, e.item(3), e.item(4), &names) {
        Ok(bounds) => bounds,
        Err(fault) => return Err(fault),
    };
    let sides = match read_sides(alloc, e, bounds.behind, &names) {
        Ok(sides) => sides,
        Err(fault) => return Err(fault),
    };
    rule_of(alloc, e, name, params, bounds.bounds, sides)
}

// Whether a rule may have so many items.
fn has_rule_items(count: usize) -> bool
    ensures { result ≡ (nat_le text.FEWEST_ITEMS count && nat_le count text.MOST_ITEMS) }
{
    FEWEST_ITEMS <= count && count <= MOST_ITEMS
}

// The rule that the items behind the word of a command spell.
#[tactic(auto, using(crate::proofs::RuleSteps::name_fails, crate::proofs::RuleSteps::params_fail, crate::proofs::RuleSteps::head_read))]
fn read_items<E: Expr>(alloc: Global, e: &E) -> Result<Rule, Fault>
    requires { 5 ≤ length (items_of (E.tree e.now)) }
    ensures { Answers result (plain_rule_of (E.tree e.now) (items_of (E.tree e.now))) }
{
    match read_symbol(e.item(1)) {
        Ok(name) => match read_params(alloc, e.item(2)) {
            Ok(params) => read_behind(alloc, e, name, params),
            Err(fault) => Err(fault),
        },
        Err(fault) => Err(fault),
    }
}

// The rule that an expression spells.
#[tactic(auto, using(crate::proofs::RuleSteps::no_items, crate::proofs::RuleSteps::no_symbol, crate::proofs::RuleSteps::other_word, crate::proofs::RuleSteps::other_count, crate::proofs::RuleSteps::items_read))]
fn read<E: Expr>(alloc: Global, e: &E) -> Result<Rule, Fault>
    ensures { Answers result (rule_at (E.tree e.now)) }
{
    if e.len() == 0 {
        return Err(refusal_at(e, Reason::BadForm));
    }
    let word = e.item(0);
    if !is_symbol(word) {
        return Err(refusal_at(e, Reason::BadForm));
    }
    if !is_word_at(word, "define-rule") {
        return Err(refusal_at(e, Reason::UnknownCommand));
    }
    if !has_rule_items(e.len()) {
        return Err(refusal_at(e, Reason::BadForm));
    }
    read_items(alloc, e)
}

/// The rule that an expression spells, `(define-rule NAME (PARAM ..) [:where (C ..)] LEFT RIGHT)`, which is
/// in form, or its first fault.
///
/// Errors are `BadForm` at an expression that is no list, whose first item is no symbol or that has not
/// from five to eight items, at `(def ..)` in the place of a side, and at an item behind the sides;
/// `UnknownCommand` at a list that begins with another word; those of `read_params`, `read_bounds`,
/// `read_term` and `whole_rule`; and want of memory.
#[tactic(auto, using(crate::proofs::FormWhole::answer_in_form))]
pub fn read_rule<E: Expr>(alloc: Global, e: &E) -> Result<Rule, Fault>
    ensures read { Answers result (rule_at (E.tree e.now)) }
    ensures form { IfOk result IsInForm }
{
    read(alloc, e)
}
