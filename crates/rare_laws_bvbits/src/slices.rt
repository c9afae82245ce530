//! The rules of comparisons, shifts, slices and joins, each of its row.
ghost use Rattle.std.specs.Prelude.{◌≡◌, IfOk};
ghost use Rattle.rare_law_parts.specs.RuleTables.{constrained, unconstrained};
ghost use Rattle.rare_laws_bvbits.specs.BvSliceRules.{bv_comp_elim, bv_shl_const, bv_lshr_const, bv_extract_whole, bv_extract_extract, bv_extract_concat_low, bv_extract_concat_high, bv_concat_extract, bv_zero_extend, bv_shl_const_constraints, bv_lshr_const_constraints, bv_extract_extract_constraints, bv_extract_concat_low_constraints, bv_extract_concat_high_constraints, bv_concat_extract_constraints, bv_zero_extend_constraints};

use crate::slice_rows::{
    BV_COMP_ELIM, BV_CONCAT_EXTRACT, BV_EXTRACT_CONCAT_HIGH, BV_EXTRACT_CONCAT_LOW,
    BV_EXTRACT_EXTRACT, BV_EXTRACT_WHOLE, BV_LSHR_CONST, BV_SHL_CONST, BV_ZERO_EXTEND,
};
use rare_law_parts::typed;
use rare_rule::Typed;
use std::alloc::{AllocError, Global};

#[tactic(auto, using(crate::proofs::BvSliceForms::bv_comp_elim_form, crate::proofs::BvSliceTypes::bv_comp_elim_types))]
pub fn bv_comp_elim(alloc: Global) -> Result<Typed, AllocError>
    ensures { IfOk result (λ t. t ≡ unconstrained bv_comp_elim) }
{
    typed(alloc, &BV_COMP_ELIM)
}

#[tactic(auto, using(crate::proofs::BvSliceForms::bv_shl_const_form, crate::proofs::BvSliceTypes::bv_shl_const_types))]
pub fn bv_shl_const(alloc: Global) -> Result<Typed, AllocError>
    ensures { IfOk result (λ t. t ≡ constrained bv_shl_const bv_shl_const_constraints) }
{
    typed(alloc, &BV_SHL_CONST)
}

#[tactic(auto, using(crate::proofs::BvSliceForms::bv_lshr_const_form, crate::proofs::BvSliceTypes::bv_lshr_const_types))]
pub fn bv_lshr_const(alloc: Global) -> Result<Typed, AllocError>
    ensures { IfOk result (λ t. t ≡ constrained bv_lshr_const bv_lshr_const_constraints) }
{
    typed(alloc, &BV_LSHR_CONST)
}

#[tactic(auto, using(crate::proofs::BvSliceForms::bv_extract_whole_form, crate::proofs::BvSliceTypes::bv_extract_whole_types))]
pub fn bv_extract_whole(alloc: Global) -> Result<Typed, AllocError>
    ensures { IfOk result (λ t. t ≡ unconstrained bv_extract_whole) }
{
    typed(alloc, &BV_EXTRACT_WHOLE)
}

#[tactic(auto, using(crate::proofs::BvSliceForms::bv_extract_extract_form, crate::proofs::BvSliceTypes::bv_extract_extract_types))]
pub fn bv_extract_extract(alloc: Global) -> Result<Typed, AllocError>
    ensures { IfOk result (λ t. t ≡ constrained bv_extract_extract bv_extract_extract_constraints) }
{
    typed(alloc, &BV_EXTRACT_EXTRACT)
}

#[tactic(auto, using(crate::proofs::BvSliceForms::bv_extract_concat_low_form, crate::proofs::BvSliceTypes::bv_extract_concat_low_types))]
pub fn bv_extract_concat_low(alloc: Global) -> Result<Typed, AllocError>
    ensures { IfOk result (λ t. t ≡ constrained bv_extract_concat_low
        bv_extract_concat_low_constraints) }
{
    typed(alloc, &BV_EXTRACT_CONCAT_LOW)
}

#[tactic(auto, using(crate::proofs::BvSliceForms::bv_extract_concat_high_form, crate::proofs::BvSliceTypes::bv_extract_concat_high_types))]
pub fn bv_extract_concat_high(alloc: Global) -> Result<Typed, AllocError>
    ensures { IfOk result (λ t. t ≡ constrained bv_extract_concat_high
        bv_extract_concat_high_constraints) }
{
    typed(alloc, &BV_EXTRACT_CONCAT_HIGH)
}

#[tactic(auto, using(crate::proofs::BvSliceForms::bv_concat_extract_form, crate::proofs::BvSliceTypes::bv_concat_extract_types))]
pub fn bv_concat_extract(alloc: Global) -> Result<Typed, AllocError>
    ensures { IfOk result (λ t. t ≡ constrained bv_concat_extract bv_concat_extract_constraints) }
{
    typed(alloc, &BV_CONCAT_EXTRACT)
}

#[tactic(auto, using(crate::proofs::BvSliceForms::bv_zero_extend_form, crate::proofs::BvSliceTypes::bv_zero_extend_types))]
pub fn bv_zero_extend(alloc: Global) -> Result<Typed, AllocError>
    ensures { IfOk result (λ t. t ≡ constrained bv_zero_extend bv_zero_extend_constraints) }
{
    typed(alloc, &BV_ZERO_EXTEND)
}
