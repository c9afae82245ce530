//! A rule with its typing.
ghost use Rattle.std.specs.Prelude.{◌≡◌};
ghost use Rattle.rare_rule.specs.Rules.{IsInForm};
ghost use Rattle.rare_rule.specs.RuleSorting.{Types};

use crate::rule::Rule;
use rare_linear::{Constraint, Constraints};
use rare_list::Sequence;
use std::marker::Model;

/// A rule in form that types, with the constraints that its typing gives.
#[derive(Drop)]
pub struct Typed {
    rule: Rule,
    constraints: Constraints,
}

impl Model for Typed {
    ghost use Rattle.std.specs.Coded.{codes};
    ghost use Rattle.rare_sort.specs.contracts.sort.Sort as sort;
    ghost use Rattle.rare_sort.specs.contracts.tree.Tree as tree;
    ghost use Rattle.rare_rule.specs.TypedRule.{TypedRule, IsTypedRule};

    ghost Value = { TypedRule };

    ghost coded = { Prim.hlevel (codes, sort.the_row.coded, tree.the_row.coded) };

    ghost view = { λ t. record { rule = t.rule; constraints = t.constraints } };

    ghost invariant = { λ t. IsTypedRule (record { rule = t.rule; constraints = t.constraints }) };
}

/// A list of rules with their typing.
pub type TypedRules = Sequence<Typed>;

impl Typed {
    /// A rule in form, with its typing.
    pub fn from_parts(rule: Rule, constraints: Constraints) -> Typed
        requires form { IsInForm rule }
        requires typing { Types rule constraints }
        ensures rule { result.rule ≡ rule }
        ensures constraints { result.constraints ≡ constraints }
    {
        Typed { rule, constraints }
    }

    /// The rule, which is in form.
    pub fn rule(&self) -> &Rule
        ensures rule { result.now ≡ self.now.rule }
        ensures form { IsInForm result.now }
    {
        &self.rule
    }

    /// What typing asks of widths and indices, in order.
    pub fn constraints(&self) -> &[Constraint]
        ensures constraints { result.now ≡ self.now.constraints }
        ensures typing { Types self.now.rule result.now }
    {
        self.constraints.items()
    }
}
