//! The rules of arithmetic on bit vectors in order.
ghost use Rattle.std.specs.Prelude.{◌≡◌, [], ◌∷◌, ◌++◌, IfOk, OnOk, map};
ghost use Rattle.rare_law_parts.specs.RuleTables.{unconstrained};
ghost use Rattle.rare_laws_bvarith.specs.BvArithRules.{bv_add_zero, bv_add_flat, bv_add_cancel, bv_mul_one, bv_mul_zero, bv_neg_elim, bv_sub_elim, bv_ugt_elim, bv_uge_elim, bv_ule_elim, bv_sgt_elim, bv_ult_refl, bv_ult_zero, bv_udiv_zero, bv_urem_zero};
ghost use Rattle.rare_laws_bvarith.specs.BvArithTable.{bv_arith_rules};

use crate::built::{
    bv_add_cancel, bv_add_flat, bv_add_zero, bv_mul_one, bv_mul_zero, bv_neg_elim, bv_sgt_elim,
    bv_sub_elim, bv_udiv_zero, bv_uge_elim, bv_ugt_elim, bv_ule_elim, bv_ult_refl, bv_ult_zero,
    bv_urem_zero,
};
use rare_rule::TypedRules;
use std::alloc::{AllocError, Global};

fn add_first(alloc: Global, all: &mut TypedRules) -> Result<(), AllocError>
    ensures { OnOk result (all.new ≡ all.old ++ map unconstrained (
        bv_add_zero ∷ bv_add_flat ∷ bv_add_cancel ∷ bv_mul_one ∷ bv_mul_zero ∷ bv_neg_elim ∷
        bv_sub_elim ∷ bv_ugt_elim ∷ [])) }
{
    all.push(bv_add_zero(alloc)?)?;
    all.push(bv_add_flat(alloc)?)?;
    all.push(bv_add_cancel(alloc)?)?;
    all.push(bv_mul_one(alloc)?)?;
    all.push(bv_mul_zero(alloc)?)?;
    all.push(bv_neg_elim(alloc)?)?;
    all.push(bv_sub_elim(alloc)?)?;
    all.push(bv_ugt_elim(alloc)?)?;
    Ok(())
}

fn add_second(alloc: Global, all: &mut TypedRules) -> Result<(), AllocError>
    ensures { OnOk result (all.new ≡ all.old ++ map unconstrained (
        bv_uge_elim ∷ bv_ule_elim ∷ bv_sgt_elim ∷ bv_ult_refl ∷ bv_ult_zero ∷ bv_udiv_zero ∷
        bv_urem_zero ∷ [])) }
{
    all.push(bv_uge_elim(alloc)?)?;
    all.push(bv_ule_elim(alloc)?)?;
    all.push(bv_sgt_elim(alloc)?)?;
    all.push(bv_ult_refl(alloc)?)?;
    all.push(bv_ult_zero(alloc)?)?;
    all.push(bv_udiv_zero(alloc)?)?;
    all.push(bv_urem_zero(alloc)?)?;
    Ok(())
}

/// These rules in order. An error is want of memory.
pub fn rules_in_order(alloc: Global) -> Result<TypedRules, AllocError>
    ensures exact { IfOk result (λ rs. rs ≡ bv_arith_rules) }
{
    let mut all = TypedRules::new(alloc);
    add_first(alloc, &mut all)?;
    add_second(alloc, &mut all)?;
    Ok(all)
}
