//! What a whole rule is asked once its parts are read.
ghost use Rattle.std.specs.Prelude.{◌≡◌, ◌+◌, ◌<◌, ◌^◌, length};
ghost use Rattle.rare_parse.specs.RuleText as text;
ghost use Rattle.rare_parse.specs.inner.WholeTests.{ordered, HasSides};
ghost use Rattle.rare_rule.specs.NodeForms.{all_nodes, is_placed};
ghost use Rattle.rare_rule.specs.Rules as rules;
ghost use Rattle.rare_rule.specs.Rules.{rule_nodes};
ghost use Rattle.rare_scope.specs.Answers.{Answers};
ghost use Rattle.rare_sort.specs.Trees.{size};

use crate::nodes::{Asked, all_pass};
use crate::order::{are_determined, found_in_order};
use rare_base::{Fault, Reason};
use rare_rule::Rule;
use rare_scope::refusal_at;
use rare_sexpr::Expr;
use std::alloc::Global;

/// The most nodes of a rule.
const MOST_RULE_NODES: usize = 256;

// Whether the rule has few nodes, of which there are so many, and few list variables among the arguments
// of one application of its left side.
#[tactic(auto, using(crate::proofs::WholeLemmas::small_by))]
fn is_small(rule: &Rule, nodes: usize) -> bool
    requires sides { HasSides rule.now }
    requires nodes { nodes ≡ size rule.now.left + size rule.now.right }
    ensures { result ≡ text.is_small rule.now }
{
    nodes <= MOST_RULE_NODES && all_pass(Asked::FewLists, rule.params.items(), None, &rule.left)
}

// Whether no hole stands in the rule.
#[tactic(auto, using(crate::proofs::WholeLemmas::holes_by))]
fn has_holes(rule: &Rule) -> bool
    requires { HasSides rule.now }
    ensures { result ≡ rules.has_holes rule.now }
{
    let params = rule.params.items();
    all_pass(Asked::NoHole, params, None, &rule.left)
        && all_pass(Asked::NoHole, params, None, &rule.right)
}

// Whether the list variables stand where they may.
#[tactic(auto, using(crate::proofs::WholeLemmas::placed_by))]
fn are_placed(rule: &Rule) -> bool
    requires { HasSides rule.now }
    ensures { result ≡ all_nodes (is_placed rule.now.params) (rule_nodes rule.now) }
{
    let params = rule.params.items();
    all_pass(Asked::Placed, params, None, &rule.left)
        && all_pass(Asked::Placed, params, None, &rule.right)
}

// The rule, if its left side determines its names in order.
#[tactic(auto, using(crate::proofs::WholeLemmas::no_order, crate::proofs::WholeLemmas::order_fine, crate::proofs::WholeLemmas::order_unbound))]
fn ordered_rule<E: Expr>(alloc: Global, e: &E, rule: Rule) -> Result<Rule, Fault>
    requires { length rule.params < 2 ^ 32 }
    ensures { Answers result (ordered (E.tree e.now) rule) }
{
    match found_in_order(alloc, rule.params.items(), &rule.left) {
        Ok(Some(found)) => {
            if are_determined(found.items(), rule.params.items()) {
                Ok(rule)
            } else {
                Err(refusal_at(e, Reason::Unbound))
            }
        }
        Ok(None) => Err(refusal_at(e, Reason::LeftIndex)),
        Err(_) => Err(Fault::Memory),
    }
}

/// The rule of these parts, which have so many nodes, or the first fault of the whole, at `e`.
///
/// Errors are `RuleTooLarge` above 256 nodes, and above 3 list variables among the arguments of one
/// application of the left side; `ContextForm` where a hole stands in it; `MisplacedList`; `LeftIndex`
/// where the left side uses a name before it determines it; `Unbound` where it does not determine a
/// parameter; and want of memory.
#[tactic(auto, using(crate::proofs::WholeLemmas::too_large, crate::proofs::WholeLemmas::holed, crate::proofs::WholeLemmas::misplaced, crate::proofs::WholeLemmas::well_placed))]
pub fn whole_rule<E: Expr>(alloc: Global, e: &E, rule: Rule, nodes: usize) -> Result<Rule, Fault>
    requires few { length rule.params < 2 ^ 32 }
    requires sides { HasSides rule }
    requires nodes { nodes ≡ size rule.left + size rule.right }
    ensures { Answers result (text.whole_rule (E.tree e.now) rule) }
{
    if !is_small(&rule, nodes) {
        return Err(refusal_at(e, Reason::RuleTooLarge));
    }
    if !has_holes(&rule) {
        return Err(refusal_at(e, Reason::ContextForm));
    }
    if !are_placed(&rule) {
        return Err(refusal_at(e, Reason::MisplacedList));
    }
    ordered_rule(alloc, e, rule)
}
