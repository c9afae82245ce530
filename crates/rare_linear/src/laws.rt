//! Laws of linear expressions and of entailment, as contracts. No function here computes anything.
ghost use Rattle.rare_linear.specs.Entailment.{EntailmentLaw};
ghost use Rattle.rare_linear.specs.LinearLaws.{EntailmentIsDecided, EqualValuesAreOneForm, MoreEntailsMore, OnesEntailAlike};

/// What is entailed is at least 0 wherever each name is at least its low and the constraints hold.
pub fn entailed_holds()
    ensures { EntailmentLaw }
{}

/// Normal forms with equal values at all names are one.
pub fn equal_values_are_one_form()
    ensures { EqualValuesAreOneForm }
{}

/// What is entailed stays so under more constraints.
pub fn more_constraints_entail_more()
    ensures { MoreEntailsMore }
{}

/// Entailment has a test: it is true exactly where entailment holds.
pub fn entailment_is_decided()
    ensures { EntailmentIsDecided }
{}

/// Lows that are all 1 entail what the low 1 of every name does.
pub fn lows_of_one_entail_alike()
    ensures { OnesEntailAlike }
{}
