//! Laws of rules, as contracts. No function here computes anything.
ghost use Rattle.rare_rule.specs.FormRows.{FormRows};
ghost use Rattle.rare_rule.specs.OutOfForm.{OutOfForm};
ghost use Rattle.rare_rule.specs.RuleLaws.{AnyHoldsEach};
ghost use Rattle.rare_rule.specs.RuleRows.{TypeRows};
ghost use Rattle.rare_rule.specs.WrongRules.{WrongRulesFail};

/// Rules of each form, written by hand, are in form, and have the constraints that are worked out
/// beside them.
pub fn rules_type()
    ensures forms { FormRows }
    ensures types { TypeRows }
{}

/// What the conditions on the form of a rule refuse, beside what they don't.
pub fn forms_are_refused()
    ensures { OutOfForm }
{}

/// Two wrong rules, one with lists and one with a premise, don't hold.
pub fn wrong_rules_fail()
    ensures { WrongRulesFail }
{}

/// A rule that holds for all functions holds for those that are finite maps too.
pub fn rules_hold_for_each_class()
    ensures { AnyHoldsEach }
{}
