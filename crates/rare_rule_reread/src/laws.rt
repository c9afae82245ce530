//! What is written of a rule that was read is read back as that rule.
ghost use Rattle.rare_rule_reread.specs.RereadParts.{RuleLinearIsReadBack, RuleParamsAreReadBack, RuleSortIsReadBack, RuleTermIsReadBack};
ghost use Rattle.rare_rule_reread.specs.RereadRules.{RuleIsReadBack};

/// What is written of the parameters of a rule is read back as the parameters, with the fresh ones
/// that they bring.
pub fn rule_params_are_read_back()
    ensures { RuleParamsAreReadBack }
{}

/// What is written of a linear expression over the parameters of a rule is read back as the
/// expression.
pub fn rule_linears_are_read_back()
    ensures { RuleLinearIsReadBack }
{}

/// What is written of a sort over the parameters of a rule is read back as the sort.
pub fn rule_sorts_are_read_back()
    ensures { RuleSortIsReadBack }
{}

/// What is written of a term over the parameters of a rule is read back as the term.
pub fn rule_terms_are_read_back()
    ensures { RuleTermIsReadBack }
{}

/// What is written of a rule that a spelled expression was read as is read back as that rule.
pub fn rules_are_read_back()
    ensures { RuleIsReadBack }
{}
