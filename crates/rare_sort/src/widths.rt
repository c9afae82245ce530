//! Linear expressions within 128 bits, and what is entailed of them under declarations.
ghost use Rattle.std.specs.Prelude.{◌≡◌, ◌<◌, ℕ, IfOk, IfSome, IsTrue, Some, None};
ghost use Rattle.rare_linear.specs.Linears.{NamesBelow, add, scale};
ghost use Rattle.rare_linear.specs.Entailment.{minus};
ghost use Rattle.rare_sort.specs.SortRules.{number_in};
ghost use Rattle.rare_sort.specs.DeclaredSorts.{widths, follows, AreDeclared};
ghost use Rattle.rare_sort.specs.inner.Within.{within};

use crate::declarations::Declarations;
use rare_linear::{Linear, LinearError, entails};
use std::alloc::AllocError;

/// The number that an expression without names is.
pub fn number_of(e: &Linear) -> Option<i128>
    ensures { result ≡ number_in e.now }
{
    if e.parts().is_empty() {
        Some(e.offset())
    } else {
        None
    }
}

/// Whether the expression is entailed to be at least 0.
pub fn follows_in(declared: &Declarations, want: &Linear) -> bool
    requires declared { AreDeclared declared.now }
    requires want { NamesBelow (widths declared.now) want.now.parts }
    ensures { result ≡ follows declared.now want.now }
{
    entails(declared.constraints.items(), declared.lows.items(), want)
}

/// The sum, where it is within `i128`.
pub(crate) fn sum_within(a: &Linear, b: &Linear) -> Result<Option<Linear>, AllocError>
    ensures value { IfOk result (λ o. o ≡ within (add a.now b.now)) }
    ensures named { IfOk result (λ o. (n : ℕ) → NamesBelow n a.now.parts →
        NamesBelow n b.now.parts →
        IfSome o (λ w. NamesBelow n w.parts)) }
{
    match a.add(b) {
        Ok(sum) => Ok(Some(sum)),
        Err(LinearError::TooLarge) => Ok(None),
        Err(LinearError::Memory) => Err(AllocError),
    }
}

/// The difference, where it is within `i128`.
pub(crate) fn difference_within(a: &Linear, b: &Linear) -> Result<Option<Linear>, AllocError>
    ensures value { IfOk result (λ o. o ≡ within (minus a.now b.now)) }
    ensures named { IfOk result (λ o. (n : ℕ) → NamesBelow n a.now.parts →
        NamesBelow n b.now.parts →
        IfSome o (λ w. NamesBelow n w.parts)) }
{
    match a.minus(b) {
        Ok(difference) => Ok(Some(difference)),
        Err(LinearError::TooLarge) => Ok(None),
        Err(LinearError::Memory) => Err(AllocError),
    }
}

/// The multiple, where it is within `i128`.
#[tactic(auto, using(crate::proofs::WithinLemmas::given_within, crate::proofs::WithinLemmas::none_within))]
pub(crate) fn multiple_within(k: i128, a: &Linear) -> Result<Option<Linear>, AllocError>
    ensures value { IfOk result (λ o. o ≡ within (scale k a.now)) }
    ensures named { IfOk result (λ o. (n : ℕ) → NamesBelow n a.now.parts →
        IfSome o (λ w. NamesBelow n w.parts)) }
{
    match a.scale(k) {
        Ok(multiple) => Ok(Some(multiple)),
        Err(LinearError::TooLarge) => Ok(None),
        Err(LinearError::Memory) => Err(AllocError),
    }
}

/// Whether the difference is entailed to be at least 0.
pub(crate) fn difference_follows(
    declared: &Declarations,
    a: &Linear,
    b: &Linear,
) -> Result<bool, AllocError>
    requires declared { AreDeclared declared.now }
    requires a { NamesBelow (widths declared.now) a.now.parts }
    requires b { NamesBelow (widths declared.now) b.now.parts }
    ensures { IfOk result (λ t. t ≡ follows declared.now (minus a.now b.now)) }
{
    match difference_within(a, b)? {
        Some(difference) => Ok(follows_in(declared, &difference)),
        None => Ok(false),
    }
}
