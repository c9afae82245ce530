//! The rules of theory Ints, each of its row.
ghost use Rattle.std.specs.Prelude.{◌≡◌, IfOk};
ghost use Rattle.rare_law_parts.specs.RuleTables.{unconstrained};
ghost use Rattle.rare_laws_int.specs.IntRules.{int_add_zero, int_add_flat, int_add_comm, int_add_cancel, int_mul_one, int_mul_zero, int_minus_self, int_sub_elim, int_neg_neg, int_distrib, int_gt_elim, int_lt_elim, int_ge_elim, int_le_refl, int_div_one, int_mod_one, int_mod_small, int_div_self, int_mod_mod, int_abs_elim};

use crate::rows::{
    INT_ABS_ELIM, INT_ADD_CANCEL, INT_ADD_COMM, INT_ADD_FLAT, INT_ADD_ZERO, INT_DISTRIB,
    INT_DIV_ONE, INT_DIV_SELF, INT_GE_ELIM, INT_GT_ELIM, INT_LE_REFL, INT_LT_ELIM, INT_MINUS_SELF,
    INT_MOD_MOD, INT_MOD_ONE, INT_MOD_SMALL, INT_MUL_ONE, INT_MUL_ZERO, INT_NEG_NEG, INT_SUB_ELIM,
};
use rare_law_parts::typed;
use rare_rule::Typed;
use std::alloc::{AllocError, Global};

#[tactic(auto, using(crate::proofs::IntForms::int_add_zero_form, crate::proofs::IntTypes::int_add_zero_types))]
pub fn int_add_zero(alloc: Global) -> Result<Typed, AllocError>
    ensures { IfOk result (λ t. t ≡ unconstrained int_add_zero) }
{
    typed(alloc, &INT_ADD_ZERO)
}

#[tactic(auto, using(crate::proofs::IntForms::int_add_flat_form, crate::proofs::IntTypes::int_add_flat_types))]
pub fn int_add_flat(alloc: Global) -> Result<Typed, AllocError>
    ensures { IfOk result (λ t. t ≡ unconstrained int_add_flat) }
{
    typed(alloc, &INT_ADD_FLAT)
}

#[tactic(auto, using(crate::proofs::IntForms::int_add_comm_form, crate::proofs::IntTypes::int_add_comm_types))]
pub fn int_add_comm(alloc: Global) -> Result<Typed, AllocError>
    ensures { IfOk result (λ t. t ≡ unconstrained int_add_comm) }
{
    typed(alloc, &INT_ADD_COMM)
}

#[tactic(auto, using(crate::proofs::IntForms::int_add_cancel_form, crate::proofs::IntTypes::int_add_cancel_types))]
pub fn int_add_cancel(alloc: Global) -> Result<Typed, AllocError>
    ensures { IfOk result (λ t. t ≡ unconstrained int_add_cancel) }
{
    typed(alloc, &INT_ADD_CANCEL)
}

#[tactic(auto, using(crate::proofs::IntForms::int_mul_one_form, crate::proofs::IntTypes::int_mul_one_types))]
pub fn int_mul_one(alloc: Global) -> Result<Typed, AllocError>
    ensures { IfOk result (λ t. t ≡ unconstrained int_mul_one) }
{
    typed(alloc, &INT_MUL_ONE)
}

#[tactic(auto, using(crate::proofs::IntForms::int_mul_zero_form, crate::proofs::IntTypes::int_mul_zero_types))]
pub fn int_mul_zero(alloc: Global) -> Result<Typed, AllocError>
    ensures { IfOk result (λ t. t ≡ unconstrained int_mul_zero) }
{
    typed(alloc, &INT_MUL_ZERO)
}

#[tactic(auto, using(crate::proofs::IntForms::int_minus_self_form, crate::proofs::IntTypes::int_minus_self_types))]
pub fn int_minus_self(alloc: Global) -> Result<Typed, AllocError>
    ensures { IfOk result (λ t. t ≡ unconstrained int_minus_self) }
{
    typed(alloc, &INT_MINUS_SELF)
}

#[tactic(auto, using(crate::proofs::IntForms::int_sub_elim_form, crate::proofs::IntTypes::int_sub_elim_types))]
pub fn int_sub_elim(alloc: Global) -> Result<Typed, AllocError>
    ensures { IfOk result (λ t. t ≡ unconstrained int_sub_elim) }
{
    typed(alloc, &INT_SUB_ELIM)
}

#[tactic(auto, using(crate::proofs::IntForms::int_neg_neg_form, crate::proofs::IntTypes::int_neg_neg_types))]
pub fn int_neg_neg(alloc: Global) -> Result<Typed, AllocError>
    ensures { IfOk result (λ t. t ≡ unconstrained int_neg_neg) }
{
    typed(alloc, &INT_NEG_NEG)
}

#[tactic(auto, using(crate::proofs::IntForms::int_distrib_form, crate::proofs::IntTypes::int_distrib_types))]
pub fn int_distrib(alloc: Global) -> Result<Typed, AllocError>
    ensures { IfOk result (λ t. t ≡ unconstrained int_distrib) }
{
    typed(alloc, &INT_DISTRIB)
}

#[tactic(auto, using(crate::proofs::IntForms::int_gt_elim_form, crate::proofs::IntTypes::int_gt_elim_types))]
pub fn int_gt_elim(alloc: Global) -> Result<Typed, AllocError>
    ensures { IfOk result (λ t. t ≡ unconstrained int_gt_elim) }
{
    typed(alloc, &INT_GT_ELIM)
}

#[tactic(auto, using(crate::proofs::IntForms::int_lt_elim_form, crate::proofs::IntTypes::int_lt_elim_types))]
pub fn int_lt_elim(alloc: Global) -> Result<Typed, AllocError>
    ensures { IfOk result (λ t. t ≡ unconstrained int_lt_elim) }
{
    typed(alloc, &INT_LT_ELIM)
}

#[tactic(auto, using(crate::proofs::IntForms::int_ge_elim_form, crate::proofs::IntTypes::int_ge_elim_types))]
pub fn int_ge_elim(alloc: Global) -> Result<Typed, AllocError>
    ensures { IfOk result (λ t. t ≡ unconstrained int_ge_elim) }
{
    typed(alloc, &INT_GE_ELIM)
}

#[tactic(auto, using(crate::proofs::IntForms::int_le_refl_form, crate::proofs::IntTypes::int_le_refl_types))]
pub fn int_le_refl(alloc: Global) -> Result<Typed, AllocError>
    ensures { IfOk result (λ t. t ≡ unconstrained int_le_refl) }
{
    typed(alloc, &INT_LE_REFL)
}

#[tactic(auto, using(crate::proofs::IntForms::int_div_one_form, crate::proofs::IntTypes::int_div_one_types))]
pub fn int_div_one(alloc: Global) -> Result<Typed, AllocError>
    ensures { IfOk result (λ t. t ≡ unconstrained int_div_one) }
{
    typed(alloc, &INT_DIV_ONE)
}

#[tactic(auto, using(crate::proofs::IntForms::int_mod_one_form, crate::proofs::IntTypes::int_mod_one_types))]
pub fn int_mod_one(alloc: Global) -> Result<Typed, AllocError>
    ensures { IfOk result (λ t. t ≡ unconstrained int_mod_one) }
{
    typed(alloc, &INT_MOD_ONE)
}

#[tactic(auto, using(crate::proofs::IntForms::int_mod_small_form, crate::proofs::IntTypes::int_mod_small_types))]
pub fn int_mod_small(alloc: Global) -> Result<Typed, AllocError>
    ensures { IfOk result (λ t. t ≡ unconstrained int_mod_small) }
{
    typed(alloc, &INT_MOD_SMALL)
}

#[tactic(auto, using(crate::proofs::IntForms::int_div_self_form, crate::proofs::IntTypes::int_div_self_types))]
pub fn int_div_self(alloc: Global) -> Result<Typed, AllocError>
    ensures { IfOk result (λ t. t ≡ unconstrained int_div_self) }
{
    typed(alloc, &INT_DIV_SELF)
}

#[tactic(auto, using(crate::proofs::IntForms::int_mod_mod_form, crate::proofs::IntTypes::int_mod_mod_types))]
pub fn int_mod_mod(alloc: Global) -> Result<Typed, AllocError>
    ensures { IfOk result (λ t. t ≡ unconstrained int_mod_mod) }
{
    typed(alloc, &INT_MOD_MOD)
}

#[tactic(auto, using(crate::proofs::IntForms::int_abs_elim_form, crate::proofs::IntTypes::int_abs_elim_types))]
pub fn int_abs_elim(alloc: Global) -> Result<Typed, AllocError>
    ensures { IfOk result (λ t. t ≡ unconstrained int_abs_elim) }
{
    typed(alloc, &INT_ABS_ELIM)
}
