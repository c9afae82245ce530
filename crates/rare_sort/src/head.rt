//! The operators of the four theories.
ghost use Rattle.std.specs.Prelude.{◌≡◌, ◌↔◌, IsTrue};

/// The operator at the root of a term: each word of SMT-LIB 2.6, theories Core, Ints, ArraysEx and
/// FixedSizeBitVectors with the operators of logic QF_BV, has its variant.
#[derive(Clone, Copy, Debug, PartialEq, Eq, Hash)]
pub enum Head {
    True,
    False,
    Not,
    Implies,
    Xor,
    And,
    Or,
    Equal,
    Distinct,
    Ite,
    /// A numeral of this value.
    Numeral(u128),
    /// `-` with one argument.
    Neg,
    /// `-` with two arguments or more.
    Minus,
    Add,
    Mul,
    Div,
    Mod,
    Abs,
    Le,
    Lt,
    Ge,
    Gt,
    Select,
    Store,
    BvNot,
    BvNeg,
    BvAdd,
    BvMul,
    BvAnd,
    BvOr,
    BvXor,
    BvSub,
    BvUdiv,
    BvUrem,
    BvSdiv,
    BvSrem,
    BvSmod,
    BvShl,
    BvLshr,
    BvAshr,
    BvNand,
    BvNor,
    BvXnor,
    BvUlt,
    BvUle,
    BvUgt,
    BvUge,
    BvSlt,
    BvSle,
    BvSgt,
    BvSge,
    BvComp,
    Concat,
    Extract,
    ZeroExtend,
    SignExtend,
    RotateLeft,
    RotateRight,
    Repeat,
    /// A literal of given value and width; its one index is the width.
    Bits(u128),
    /// Any other literal; its indices are value and width.
    Literal,
    /// The declared symbol of this number, counted from 0.
    Free(u32),
    /// A parameter of a rule.
    Param(u32),
    /// The hole in the context of a rule.
    Hole,
}

/// Whether two operators are one.
pub fn is_same_head(a: Head, b: Head) -> bool
    ensures { IsTrue result ↔ (a ≡ b) }
{
    a == b
}
