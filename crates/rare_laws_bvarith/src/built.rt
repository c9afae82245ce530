//! The rules of arithmetic on bit vectors, each of its row.
ghost use Rattle.std.specs.Prelude.{◌≡◌, IfOk};
ghost use Rattle.rare_law_parts.specs.RuleTables.{unconstrained};
ghost use Rattle.rare_laws_bvarith.specs.BvArithRules.{bv_add_zero, bv_add_flat, bv_add_cancel, bv_mul_one, bv_mul_zero, bv_neg_elim, bv_sub_elim, bv_ugt_elim, bv_uge_elim, bv_ule_elim, bv_sgt_elim, bv_ult_refl, bv_ult_zero, bv_udiv_zero, bv_urem_zero};

use crate::rows::{
    BV_ADD_CANCEL, BV_ADD_FLAT, BV_ADD_ZERO, BV_MUL_ONE, BV_MUL_ZERO, BV_NEG_ELIM, BV_SGT_ELIM,
    BV_SUB_ELIM, BV_UDIV_ZERO, BV_UGE_ELIM, BV_UGT_ELIM, BV_ULE_ELIM, BV_ULT_REFL, BV_ULT_ZERO,
    BV_UREM_ZERO,
};
use rare_law_parts::typed;
use rare_rule::Typed;
use std::alloc::{AllocError, Global};

#[tactic(auto, using(crate::proofs::BvArithForms::bv_add_zero_form, crate::proofs::BvArithTypes::bv_add_zero_types))]
pub fn bv_add_zero(alloc: Global) -> Result<Typed, AllocError>
    ensures { IfOk result (λ t. t ≡ unconstrained bv_add_zero) }
{
    typed(alloc, &BV_ADD_ZERO)
}

#[tactic(auto, using(crate::proofs::BvArithForms::bv_add_flat_form, crate::proofs::BvArithTypes::bv_add_flat_types))]
pub fn bv_add_flat(alloc: Global) -> Result<Typed, AllocError>
    ensures { IfOk result (λ t. t ≡ unconstrained bv_add_flat) }
{
    typed(alloc, &BV_ADD_FLAT)
}

#[tactic(auto, using(crate::proofs::BvArithForms::bv_add_cancel_form, crate::proofs::BvArithTypes::bv_add_cancel_types))]
pub fn bv_add_cancel(alloc: Global) -> Result<Typed, AllocError>
    ensures { IfOk result (λ t. t ≡ unconstrained bv_add_cancel) }
{
    typed(alloc, &BV_ADD_CANCEL)
}

#[tactic(auto, using(crate::proofs::BvArithForms::bv_mul_one_form, crate::proofs::BvArithTypes::bv_mul_one_types))]
pub fn bv_mul_one(alloc: Global) -> Result<Typed, AllocError>
    ensures { IfOk result (λ t. t ≡ unconstrained bv_mul_one) }
{
    typed(alloc, &BV_MUL_ONE)
}

#[tactic(auto, using(crate::proofs::BvArithForms::bv_mul_zero_form, crate::proofs::BvArithTypes::bv_mul_zero_types))]
pub fn bv_mul_zero(alloc: Global) -> Result<Typed, AllocError>
    ensures { IfOk result (λ t. t ≡ unconstrained bv_mul_zero) }
{
    typed(alloc, &BV_MUL_ZERO)
}

#[tactic(auto, using(crate::proofs::BvArithForms::bv_neg_elim_form, crate::proofs::BvArithTypes::bv_neg_elim_types))]
pub fn bv_neg_elim(alloc: Global) -> Result<Typed, AllocError>
    ensures { IfOk result (λ t. t ≡ unconstrained bv_neg_elim) }
{
    typed(alloc, &BV_NEG_ELIM)
}

#[tactic(auto, using(crate::proofs::BvArithForms::bv_sub_elim_form, crate::proofs::BvArithTypes::bv_sub_elim_types))]
pub fn bv_sub_elim(alloc: Global) -> Result<Typed, AllocError>
    ensures { IfOk result (λ t. t ≡ unconstrained bv_sub_elim) }
{
    typed(alloc, &BV_SUB_ELIM)
}

#[tactic(auto, using(crate::proofs::BvArithForms::bv_ugt_elim_form, crate::proofs::BvArithTypes::bv_ugt_elim_types))]
pub fn bv_ugt_elim(alloc: Global) -> Result<Typed, AllocError>
    ensures { IfOk result (λ t. t ≡ unconstrained bv_ugt_elim) }
{
    typed(alloc, &BV_UGT_ELIM)
}

#[tactic(auto, using(crate::proofs::BvArithForms::bv_uge_elim_form, crate::proofs::BvArithTypes::bv_uge_elim_types))]
pub fn bv_uge_elim(alloc: Global) -> Result<Typed, AllocError>
    ensures { IfOk result (λ t. t ≡ unconstrained bv_uge_elim) }
{
    typed(alloc, &BV_UGE_ELIM)
}

#[tactic(auto, using(crate::proofs::BvArithForms::bv_ule_elim_form, crate::proofs::BvArithTypes::bv_ule_elim_types))]
pub fn bv_ule_elim(alloc: Global) -> Result<Typed, AllocError>
    ensures { IfOk result (λ t. t ≡ unconstrained bv_ule_elim) }
{
    typed(alloc, &BV_ULE_ELIM)
}

#[tactic(auto, using(crate::proofs::BvArithForms::bv_sgt_elim_form, crate::proofs::BvArithTypes::bv_sgt_elim_types))]
pub fn bv_sgt_elim(alloc: Global) -> Result<Typed, AllocError>
    ensures { IfOk result (λ t. t ≡ unconstrained bv_sgt_elim) }
{
    typed(alloc, &BV_SGT_ELIM)
}

#[tactic(auto, using(crate::proofs::BvArithForms::bv_ult_refl_form, crate::proofs::BvArithTypes::bv_ult_refl_types))]
pub fn bv_ult_refl(alloc: Global) -> Result<Typed, AllocError>
    ensures { IfOk result (λ t. t ≡ unconstrained bv_ult_refl) }
{
    typed(alloc, &BV_ULT_REFL)
}

#[tactic(auto, using(crate::proofs::BvArithForms::bv_ult_zero_form, crate::proofs::BvArithTypes::bv_ult_zero_types))]
pub fn bv_ult_zero(alloc: Global) -> Result<Typed, AllocError>
    ensures { IfOk result (λ t. t ≡ unconstrained bv_ult_zero) }
{
    typed(alloc, &BV_ULT_ZERO)
}

#[tactic(auto, using(crate::proofs::BvArithForms::bv_udiv_zero_form, crate::proofs::BvArithTypes::bv_udiv_zero_types))]
pub fn bv_udiv_zero(alloc: Global) -> Result<Typed, AllocError>
    ensures { IfOk result (λ t. t ≡ unconstrained bv_udiv_zero) }
{
    typed(alloc, &BV_UDIV_ZERO)
}

#[tactic(auto, using(crate::proofs::BvArithForms::bv_urem_zero_form, crate::proofs::BvArithTypes::bv_urem_zero_types))]
pub fn bv_urem_zero(alloc: Global) -> Result<Typed, AllocError>
    ensures { IfOk result (λ t. t ≡ unconstrained bv_urem_zero) }
{
    typed(alloc, &BV_UREM_ZERO)
}
