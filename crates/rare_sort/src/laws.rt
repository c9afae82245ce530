//! Laws of sorts, as contracts.
ghost use Rattle.rare_sort.specs.SortLaws.{StaysSorted, HasOneSort, NodeLaw, SamenessIsDecided, TermsHaveTheirSort};

/// What is well sorted stays so under more constraints.
pub fn more_constraints_keep_sorts()
    ensures { StaysSorted }
{}

/// A term has one sort.
pub fn terms_have_one_sort()
    ensures { HasOneSort }
{}

/// An application of terms is a term exactly where its rule of sorts gives a sort and what it asks
/// for is met.
pub fn nodes_are_sorted_by_rule()
    ensures { NodeLaw }
{}

/// The tests of sameness that definitions use are true exactly where two sorts, operators or trees
/// are one.
pub fn sameness_is_decided()
    ensures { SamenessIsDecided }
{}

/// A well-sorted term has the sort that the rules alone give it.
pub fn terms_have_their_sort()
    ensures { TermsHaveTheirSort }
{}
