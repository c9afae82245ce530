//! Laws of evaluation, as contracts. No function here computes anything.
ghost use Rattle.rare_eval.specs.ValueTerms.{OneValueTerm, ValueTermsHaveTheirValue};
ghost use Rattle.rare_eval.specs.EvaluationLaws.{NodeEvaluation, OneValueMeansSame, ValueIsMeaning};

/// The value of an application is made of the values of its arguments.
pub fn application_evaluation_law()
    ensures { NodeEvaluation }
{}

/// Where a term has a value, it means that value at every valuation and in every interpretation. So
/// terms that have one value mean the same.
pub fn evaluation_law()
    ensures meaning { ValueIsMeaning }
    ensures same { OneValueMeansSame }
{}

/// A value term has its value, and one value has one value term.
pub fn value_term_law()
    ensures value { ValueTermsHaveTheirValue }
    ensures one { OneValueTerm }
{}
