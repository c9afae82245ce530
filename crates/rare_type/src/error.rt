//! Why a rule doesn't type.
use std::alloc::AllocError;
use thiserror::Error;

/// Why a rule doesn't type: the case at its first node in the order of constraints, and at one node
/// the first in this order.
#[derive(Clone, Copy, Debug, PartialEq, Eq, Error)]
pub enum TypeError {
    /// The rule of sorts of an application fails, or a side, a premise or the context has another
    /// sort than it must have.
    #[error("the rules of sorts fail")]
    Clash,
    /// A repetition whose number and whose width both have names.
    #[error("a product of two widths that have names")]
    NonLinear,
    /// A width, a partial sum of it from the left, or a constraint leaves `i128`.
    #[error("a width or a constraint is beyond the limit")]
    TooLarge,
    /// A constraint without names is false.
    #[error("a constraint never holds")]
    NeverHolds,
    /// Memory is wanting.
    #[error("out of memory")]
    Memory,
}

impl From<AllocError> for TypeError {
    ghost use Rattle.std.specs.Prelude.{◌≡◌};
    ghost use Rattle.rare_type.specs.declared.error.TypeError.TheVariants.{Memory};

    ghost from_gives = { λ _ e. e ≡ Memory };

    fn from(_: AllocError) -> TypeError {
        TypeError::Memory
    }
}
