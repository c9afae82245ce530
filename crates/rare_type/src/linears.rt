//! Linear expressions that a rule asks to be at least 0.
ghost use Rattle.std.specs.Prelude.{◌≡◌, ◌++◌, ◌∷◌, [], ◌⊎◌, OnOk, IfOk, pos, negsuc};
ghost use Rattle.rare_linear.specs.Linears.{IsNormal, add, number, scale};
ghost use Rattle.rare_linear.specs.Entailment.{minus};
ghost use Rattle.rare_linear.specs.PartialSums.{IsWithin};
ghost use Rattle.rare_sort.specs.SortRules.{width_needs, less_one};
ghost use Rattle.rare_type.specs.FirstCase.{never_holds, some_never_holds};
ghost use Rattle.rare_type.specs.inner.Answering.{Reports};
ghost use Rattle.rare_type.specs.inner.Steps.{all_bounded, bounded, bounded_shift};

use crate::error::TypeError;
use rare_linear::{Linear, LinearError, Linears};
use rare_sort::Sort;
use std::alloc::{AllocError, Global};

#[tactic(auto, using(crate::proofs::Typed::bounded_is, crate::proofs::Typed::bounded_not))]
pub(crate) fn sum(a: &Linear, b: &Linear) -> Result<Linear, TypeError>
    ensures { Reports (bounded (add a.now b.now)) result }
{
    match a.add(b) {
        Ok(sum) => Ok(sum),
        Err(LinearError::TooLarge) => Err(TypeError::TooLarge),
        Err(LinearError::Memory) => Err(TypeError::Memory),
    }
}

#[tactic(auto, using(crate::proofs::Typed::bounded_is, crate::proofs::Typed::bounded_not))]
pub(crate) fn difference(a: &Linear, b: &Linear) -> Result<Linear, TypeError>
    ensures { Reports (bounded (minus a.now b.now)) result }
{
    match a.minus(b) {
        Ok(difference) => Ok(difference),
        Err(LinearError::TooLarge) => Err(TypeError::TooLarge),
        Err(LinearError::Memory) => Err(TypeError::Memory),
    }
}

#[tactic(auto, using(crate::proofs::Typed::bounded_is, crate::proofs::Typed::bounded_not))]
pub(crate) fn multiple(k: i128, a: &Linear) -> Result<Linear, TypeError>
    ensures { Reports (bounded (scale k a.now)) result }
{
    match a.scale(k) {
        Ok(multiple) => Ok(multiple),
        Err(LinearError::TooLarge) => Err(TypeError::TooLarge),
        Err(LinearError::Memory) => Err(TypeError::Memory),
    }
}

/// One less.
pub(crate) fn one_less(alloc: Global, e: &Linear) -> Result<Linear, TypeError>
    ensures { Reports (bounded (less_one e.now)) result }
{
    difference(e, &Linear::constant(alloc, 1))
}

/// The constant of an expression.
pub(crate) fn constant_of(e: &Linear) -> i128
    ensures constant { result ≡ e.now.constant }
    ensures normal { IsNormal e.now.parts }
    ensures within { IsWithin e.now }
{
    let _parts = e.parts();
    e.offset()
}

/// `a + shift - b`.
pub(crate) fn shifted_difference(
    alloc: Global,
    a: &Linear,
    shift: i128,
    b: &Linear,
) -> Result<Linear, TypeError>
    requires { (shift ≡ pos 1) ⊎ (shift ≡ negsuc 0) }
    ensures { Reports (bounded (minus (add a.now (number shift)) b.now)) result }
{
    let step = Linear::constant(alloc, shift);
    match a.add(&step) {
        Ok(shifted) => difference(&shifted, b),
        Err(LinearError::TooLarge) => shifted_late(alloc, a, shift, b),
        Err(LinearError::Memory) => Err(TypeError::Memory),
    }
}

/// `a + shift - b`, by `a - b`: where `a + shift` leaves `i128`, the whole does where `a - b` does.
fn shifted_late(alloc: Global, a: &Linear, shift: i128, b: &Linear) -> Result<Linear, TypeError>
    requires unit { (shift ≡ pos 1) ⊎ (shift ≡ negsuc 0) }
    requires beyond { ¬ IsWithin (add a.now (number shift)) }
    ensures { Reports (bounded (minus (add a.now (number shift)) b.now)) result }
{
    let (_a, _b) = (constant_of(a), constant_of(b));
    difference_then(a, b, &Linear::constant(alloc, shift))
}

/// `a - b`, and then with the shift.
fn difference_then(a: &Linear, b: &Linear, shift: &Linear) -> Result<Linear, TypeError>
    ensures { Reports (bounded_shift a.now b.now shift.now) result }
{
    sum(&difference(a, b)?, shift)
}

/// Appends copies of the expressions.
pub(crate) fn append(alloc: Global, to: &mut Linears, from: &[Linear]) -> Result<(), AllocError>
    ensures { OnOk result (to.new ≡ to.old ++ from.now) }
{
    for e in from {
        to.push(e.copy(alloc)?)?;
    }
    Ok(())
}

/// The list of this one expression.
pub(crate) fn only(alloc: Global, e: Linear) -> Result<Linears, AllocError>
    ensures { IfOk result (λ es. es ≡ e ∷ []) }
{
    let mut list = Linears::new(alloc);
    list.push(e)?;
    Ok(list)
}

/// What the widths in a sort must be, from the left: each at least 1.
pub(crate) fn needs_of_widths(alloc: Global, sort: &Sort) -> Result<Linears, TypeError>
    ensures { Reports (all_bounded (width_needs sort.now)) result }
{
    match sort {
        Sort::BitVec(width) => Ok(only(alloc, one_less(alloc, width)?)?),
        Sort::Array(keys, entries) => {
            let mut needs = needs_of_widths(alloc, keys.get())?;
            let more = needs_of_widths(alloc, entries.get())?;
            append(alloc, &mut needs, more.items())?;
            Ok(needs)
        }
        _ => Ok(Linears::new(alloc)),
    }
}

fn is_false(e: &Linear) -> bool
    ensures { result ≡ never_holds e.now }
{
    e.parts().is_empty() && e.offset() < 0
}

/// Whether one of the expressions is a number below 0.
pub(crate) fn has_false(needs: &[Linear]) -> bool
    ensures { result ≡ some_never_holds needs.now }
{
    for need in needs {
        if is_false(need) {
            return true;
        }
    }
    false
}
