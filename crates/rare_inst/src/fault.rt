//! Why a rule has no instance at its arguments.
use std::alloc::AllocError;

/// The first cause for which a rule doesn't admit its arguments, or for which a part of its instance
/// doesn't exist. Arguments and constraints count from 1.
#[derive(Clone, Copy, Debug, PartialEq, Eq)]
pub enum InstFault {
    /// The argument of this number breaks the rules of arguments.
    ArgMissorted(usize),
    /// The constraint of this number doesn't follow from those of the problem.
    Unentailed(usize),
    /// An application of the left side that has list variables has fewer than two arguments.
    LeftTooShort,
    /// A `concat` has no arguments.
    EmptyConcat,
    /// A term breaks a limit, or what it asks of widths doesn't follow from the constraints of the problem.
    Limit,
    /// Memory is wanting.
    Memory,
}

impl From<AllocError> for InstFault {
    ghost use Rattle.std.specs.Prelude.{◌≡◌};
    ghost use Rattle.rare_inst.specs.declared.fault.InstFault.TheVariants.{Memory};

    ghost from_gives = { λ _ e. e ≡ Memory };

    fn from(_: AllocError) -> InstFault {
        InstFault::Memory
    }
}
