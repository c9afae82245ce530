//! Laws of the typing of rules: functions without effect, whose contracts are the laws.
ghost use Rattle.rare_type.specs.TypingLaws.{ConstraintsAreOverNumbers, TypingIsExact};

/// A rule in form has constraints by its typing exactly where no case is found in which it doesn't
/// type, but for a width or a constraint that leaves `i128`.
pub fn typing_is_exact()
    ensures { TypingIsExact }
{}

/// Each constraint that the typing of a rule in form gives is over numbers of the rule: its widths,
/// its indices and the totals of its lists.
pub fn constraints_are_over_numbers()
    ensures { ConstraintsAreOverNumbers }
{}
