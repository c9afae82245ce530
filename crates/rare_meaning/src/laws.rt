//! Laws of values, of meaning and of true rewrites, as contracts. No function here computes anything.
ghost use Rattle.rare_sort.specs.declared.declarations.Declarations.{Declarations};
ghost use Rattle.rare_meaning.specs.Interpretations.{FunctionClass};
ghost use Rattle.rare_meaning.specs.Fitting.{TermsFit};
ghost use Rattle.rare_meaning.specs.MeaningLaws.{ArrayAxioms, IntDivisionLaw, ValueSamenessIsDecided, ZerosFit};
ghost use Rattle.rare_meaning.specs.MeaningLaws.{Congruence, NodeMeaning, TermsIgnoreParameters};
ghost use Rattle.rare_meaning.specs.MeaningLaws.{StepsKeepMeaning, SameMeaningIsTrue, TrueIsSameMeaning};
ghost use Rattle.rare_meaning.specs.MeaningLaws.{AnyIsEach, CountsElsewhere, MapsAreModels};
ghost use Rattle.rare_meaning.specs.MeaningLaws.{DeclaringIsAnOrder, MoreDeclaresTruth};

/// Two values are one exactly where their test says so, the zero of a sort is of it, and arrays obey
/// the axioms of the theory ArraysEx.
pub fn laws_of_values()
    ensures sameness { ValueSamenessIsDecided }
    ensures zeros { ZerosFit }
    ensures arrays { ArrayAxioms }
{}

/// Quotient and remainder of whole numbers are those of the theory Ints, and there are no others.
pub fn int_division_law()
    ensures { IntDivisionLaw }
{}

/// What an application means is made of what its arguments mean. So arguments that mean the same may
/// be put for one another.
pub fn application_law()
    ensures meaning { NodeMeaning }
    ensures congruence { Congruence }
{}

/// At every allowed valuation and in every interpretation, a well-sorted term means one value, which
/// is of its sort.
pub fn terms_fit_their_sorts()
    ensures { TermsFit }
{}

/// What a term of a problem means doesn't depend on what the parameters of a rule stand for.
pub fn terms_ignore_parameters()
    ensures { TermsIgnoreParameters }
{}

/// Steps keep that both sides mean the same, which says that they have one value. Terms of one sort
/// that have one value mean the same.
pub fn same_meaning_law()
    ensures steps { (c : FunctionClass) (d : Declarations) → StepsKeepMeaning c d }
    ensures truth { SameMeaningIsTrue }
    ensures sorted { TrueIsSameMeaning }
{}

/// What is true for any functions is true for those that are finite maps. Finite maps that fit are an
/// interpretation, and whether functions count doesn't depend on numbers and parameters.
pub fn function_classes_law()
    ensures any { AnyIsEach }
    ensures maps { MapsAreModels }
    ensures elsewhere { CountsElsewhere }
{}

/// What is true stays so under more symbols and more constraints.
pub fn truth_grows_with_declarations()
    ensures truth { MoreDeclaresTruth }
    ensures order { DeclaringIsAnOrder }
{}
