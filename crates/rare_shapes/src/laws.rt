//! Laws of operators with lists, as contracts.
ghost use Rattle.rare_shapes.specs.TheOperators.{JoinsAreTold, TheOperators};
ghost use Rattle.rare_shapes.specs.ShapeLaws.{EachShapeHolds};
ghost use Rattle.rare_shapes.specs.Totals.{ApplicationsHaveTotals};

/// An application of an operator with lists means the total of its arguments, however many the lists
/// among them have.
pub fn applications_have_totals()
    ensures { ApplicationsHaveTotals }
{}

/// For each operator with lists, an application within an application may be put flat, two arguments
/// may be turned round, and the neutral value may be left out.
pub fn shapes_hold()
    ensures { EachShapeHolds }
{}

/// `and`, `or`, `+`, `*`, `bvadd`, `bvmul`, `bvand`, `bvor` and `bvxor` are such operators, and `concat`
/// gives a bit vector of the total width.
pub fn operators_stand()
    ensures operators { TheOperators }
    ensures joins { JoinsAreTold }
{}
