//! Laws of instances, as contracts. No function here computes anything.
ghost use Rattle.rare_inst.specs.AdmissionRows.{AdmissionRows};
ghost use Rattle.rare_inst.specs.InstanceRows.{BitVectorRows, ListRows, OrderRows, PartRows};
ghost use Rattle.rare_inst.specs.InstanceLaws.{InstancesAreSorted, InstancesMeanAsRules};
ghost use Rattle.rare_inst.specs.InstanceLaws.{InstancesMeanSame, RulesThatHoldApply};

/// Where a typed rule admits its arguments, each part of the instance that exists is well sorted:
/// premises are truths, and the left side and the result have one sort.
pub fn instances_are_sorted()
    ensures { InstancesAreSorted }
{}

/// Where all parts exist, each means in a model of the problem what the rule's own part means where
/// each name of the rule stands for what its argument means; and there the valuation counts for the rule.
pub fn instances_mean_as_rules()
    ensures { InstancesMeanAsRules }
{}

/// Where a rule holds and all parts of its instance exist, the left side and the result have one value
/// in each model of the problem in which the premises are true. So where the premises mean what `true`
/// means, both mean the same.
pub fn rules_that_hold_apply()
    ensures values { RulesThatHoldApply }
    ensures meanings { InstancesMeanSame }
{}

/// Instances worked out by hand are what the definitions make of them: lists, premises and contexts, bit
/// vectors, which fault is the first, and which arguments are admitted.
pub fn instances_of_written_rules()
    ensures lists { ListRows }
    ensures parts { PartRows }
    ensures bit_vectors { BitVectorRows }
    ensures order { OrderRows }
    ensures admission { AdmissionRows }
{}
