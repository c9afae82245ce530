//! Why a command of a proof is not valid.
ghost use Rattle.std.specs.Prelude.{◌≡◌};
ghost use Rattle.rare_proof.specs.Steps.{instance_fault};
ghost use Rattle.rare_proof.specs.Words.{number_of, word_of};

use rare_inst::InstFault;
use std::alloc::AllocError;
use thiserror::Error;

/// The first condition of a command of a proof that fails.
#[derive(Clone, Copy, Debug, PartialEq, Eq)]
pub enum StepFault {
    /// An earlier step has this id.
    IdUsed,
    /// A premise is no earlier step, or a conclusion names none.
    NoSuchStep,
    /// The rule takes another number of premises: none for reflexivity and for evaluation, one for each
    /// argument that differs for congruence, two for transitivity, and for a rule of the book as many as
    /// it has.
    PremiseCount,
    /// The sides of a step by reflexivity are not one term.
    NotEqual,
    /// The sides of a step by congruence differ in their operators, indices or numbers of arguments.
    OtherHead,
    /// The premises are not the equations that the rule needs, in order.
    OtherPremise,
    /// A side of a step by evaluation has no value.
    NoValue,
    /// The sides of a step by evaluation have two values.
    OtherValue,
    /// No rule of the book has the name or the number that a step gives.
    NoSuchRule,
    /// A step gives another number of arguments than its rule has names.
    ArgCount,
    /// The argument of this number, from 1, breaks the rules of arguments.
    ArgMissorted(usize),
    /// The constraint of this number, from 1, doesn't follow from those of the problem.
    Unentailed(usize),
    /// An application of the rule's left side that has list variables gets fewer than two arguments.
    LeftTooShort,
    /// A `concat` gets no arguments.
    EmptyConcat,
    /// A part of the rule becomes a term beyond a limit, or one whose sort doesn't follow.
    Limit,
    /// The left side of the step is not that of the rule at these arguments.
    OtherLeft,
    /// The right side of the step is not what the rule gives at these arguments.
    OtherRight,
    /// No rewrite has the name that a conclusion gives.
    NoSuchRewrite,
    /// The step that a conclusion names has another equation than the rewrite.
    OtherEquation,
}

impl StepFault {
    /// The word that is printed for it.
    pub fn word(&self) -> &'static str
        ensures { result.now ≡ word_of self.now }
    {
        match self {
            StepFault::IdUsed => "IdUsed",
            StepFault::NoSuchStep => "NoSuchStep",
            StepFault::PremiseCount => "PremiseCount",
            StepFault::NotEqual => "NotEqual",
            StepFault::OtherHead => "OtherHead",
            StepFault::OtherPremise => "OtherPremise",
            StepFault::NoValue => "NoValue",
            StepFault::OtherValue => "OtherValue",
            StepFault::NoSuchRule => "NoSuchRule",
            StepFault::ArgCount => "ArgCount",
            StepFault::ArgMissorted(_) => "ArgMissorted",
            StepFault::Unentailed(_) => "Unentailed",
            StepFault::LeftTooShort => "LeftTooShort",
            StepFault::EmptyConcat => "EmptyConcat",
            StepFault::Limit => "Limit",
            StepFault::OtherLeft => "OtherLeft",
            StepFault::OtherRight => "OtherRight",
            StepFault::NoSuchRewrite => "NoSuchRewrite",
            StepFault::OtherEquation => "OtherEquation",
        }
    }

    /// The number, from 1, that is printed behind its word: of an argument or of a constraint.
    pub fn number(&self) -> Option<usize>
        ensures { result ≡ number_of self.now }
    {
        match self {
            StepFault::ArgMissorted(k) | StepFault::Unentailed(k) => Some(*k),
            _ => None,
        }
    }

    /// Why a step has no instance of its rule. Want of memory is no cause; it is given as a limit.
    pub(crate) fn of_instance(fault: InstFault) -> StepFault
        ensures { result ≡ instance_fault fault }
    {
        match fault {
            InstFault::ArgMissorted(k) => StepFault::ArgMissorted(k),
            InstFault::Unentailed(k) => StepFault::Unentailed(k),
            InstFault::LeftTooShort => StepFault::LeftTooShort,
            InstFault::EmptyConcat => StepFault::EmptyConcat,
            InstFault::Limit | InstFault::Memory => StepFault::Limit,
        }
    }
}

/// Why a step is not added to a proof.
#[derive(Clone, Copy, Debug, PartialEq, Eq, Error)]
pub enum AddError {
    /// The first of its conditions that fails.
    #[error("a condition of the step fails")]
    Invalid(StepFault),
    /// Want of memory.
    #[error("out of memory")]
    Memory,
}

impl From<AllocError> for AddError {
    ghost use Rattle.std.specs.Prelude.{◌≡◌};
    ghost use Rattle.rare_proof.specs.declared.fault.AddError.TheVariants.{Memory};

    ghost from_gives = { λ _ e. e ≡ Memory };

    fn from(_: AllocError) -> AddError {
        AddError::Memory
    }
}

impl From<InstFault> for AddError {
    ghost use Rattle.rare_proof.specs.Proofs.{IsAddErrorOf};

    ghost from_gives = { λ fault error. IsAddErrorOf fault error };

    fn from(fault: InstFault) -> AddError {
        match fault {
            InstFault::Memory => AddError::Memory,
            fault => AddError::Invalid(StepFault::of_instance(fault)),
        }
    }
}
