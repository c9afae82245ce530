//! Operators with one rule of sorts.
ghost use Rattle.std.specs.Prelude.{◌≡◌};
ghost use Rattle.rare_sort.specs.Families.{family};

use crate::head::Head;

/// How many arguments an operator takes.
#[derive(Clone, Copy, Debug, PartialEq, Eq)]
pub enum Count {
    Exactly(usize),
    /// Two or more; in a rule one or more, where a list variable stands among them.
    Several,
}

/// A sort without parts.
#[derive(Clone, Copy, Debug, PartialEq, Eq)]
pub enum Basic {
    Bool,
    Int,
}

/// What an operator on bit vectors of one width gives.
#[derive(Clone, Copy, Debug, PartialEq, Eq)]
pub enum Outcome {
    SameWidth,
    OneBit,
    Bool,
}

/// Operators with one rule of sorts.
#[derive(Clone, Copy, Debug, PartialEq, Eq)]
pub enum Family {
    /// So many arguments of the first sort; it gives the second.
    Fixed(Count, Basic, Basic),
    /// Two or more arguments of one sort; it gives Bool.
    Alike,
    Choice,
    Select,
    Store,
    /// So many bit vectors of one width.
    BitVectors(Count, Outcome),
    Concat,
    Extract,
    Extend,
    Rotate,
    Repeat,
    /// A literal of given value and width.
    Bits,
    /// Any other literal.
    Literal,
    /// The declared symbol of this number.
    Symbol(u32),
    /// It stands in rules alone.
    OfRules,
}

const NONE: Count = Count::Exactly(0);

const ONE: Count = Count::Exactly(1);

const TWO: Count = Count::Exactly(2);

/// The family of an operator.
pub fn family_of(head: Head) -> Family
    ensures { result ≡ family head }
{
    match head {
        Head::True | Head::False => Family::Fixed(NONE, Basic::Bool, Basic::Bool),
        Head::Not => Family::Fixed(ONE, Basic::Bool, Basic::Bool),
        Head::Implies | Head::Xor | Head::And | Head::Or => {
            Family::Fixed(Count::Several, Basic::Bool, Basic::Bool)
        }
        Head::Equal | Head::Distinct => Family::Alike,
        Head::Ite => Family::Choice,
        Head::Numeral(_) => Family::Fixed(NONE, Basic::Int, Basic::Int),
        Head::Neg | Head::Abs => Family::Fixed(ONE, Basic::Int, Basic::Int),
        Head::Minus | Head::Add | Head::Mul | Head::Div => {
            Family::Fixed(Count::Several, Basic::Int, Basic::Int)
        }
        Head::Mod => Family::Fixed(TWO, Basic::Int, Basic::Int),
        Head::Le | Head::Lt | Head::Ge | Head::Gt => {
            Family::Fixed(Count::Several, Basic::Int, Basic::Bool)
        }
        Head::Select => Family::Select,
        Head::Store => Family::Store,
        Head::BvNot | Head::BvNeg => Family::BitVectors(ONE, Outcome::SameWidth),
        Head::BvAdd | Head::BvMul | Head::BvAnd | Head::BvOr | Head::BvXor => {
            Family::BitVectors(Count::Several, Outcome::SameWidth)
        }
        Head::BvSub
        | Head::BvUdiv
        | Head::BvUrem
        | Head::BvSdiv
        | Head::BvSrem
        | Head::BvSmod
        | Head::BvShl
        | Head::BvLshr
        | Head::BvAshr
        | Head::BvNand
        | Head::BvNor
        | Head::BvXnor => Family::BitVectors(TWO, Outcome::SameWidth),
        Head::BvUlt
        | Head::BvUle
        | Head::BvUgt
        | Head::BvUge
        | Head::BvSlt
        | Head::BvSle
        | Head::BvSgt
        | Head::BvSge => Family::BitVectors(TWO, Outcome::Bool),
        Head::BvComp => Family::BitVectors(TWO, Outcome::OneBit),
        Head::Concat => Family::Concat,
        Head::Extract => Family::Extract,
        Head::ZeroExtend | Head::SignExtend => Family::Extend,
        Head::RotateLeft | Head::RotateRight => Family::Rotate,
        Head::Repeat => Family::Repeat,
        Head::Bits(_) => Family::Bits,
        Head::Literal => Family::Literal,
        Head::Free(k) => Family::Symbol(k),
        Head::Param(_) | Head::Hole => Family::OfRules,
    }
}
