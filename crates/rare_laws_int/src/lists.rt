//! The rules of theory Ints in order.
ghost use Rattle.std.specs.Prelude.{◌≡◌, [], ◌∷◌, ◌++◌, IfOk, OnOk, map};
ghost use Rattle.rare_law_parts.specs.RuleTables.{unconstrained};
ghost use Rattle.rare_laws_int.specs.IntRules.{int_add_zero, int_add_flat, int_add_comm, int_add_cancel, int_mul_one, int_mul_zero, int_minus_self, int_sub_elim, int_neg_neg, int_distrib, int_gt_elim, int_lt_elim, int_ge_elim, int_le_refl, int_div_one, int_mod_one, int_mod_small, int_div_self, int_mod_mod, int_abs_elim};
ghost use Rattle.rare_laws_int.specs.IntTable.{int_rules};

use crate::built::{
    int_abs_elim, int_add_cancel, int_add_comm, int_add_flat, int_add_zero, int_distrib,
    int_div_one, int_div_self, int_ge_elim, int_gt_elim, int_le_refl, int_lt_elim, int_minus_self,
    int_mod_mod, int_mod_one, int_mod_small, int_mul_one, int_mul_zero, int_neg_neg, int_sub_elim,
};
use rare_rule::TypedRules;
use std::alloc::{AllocError, Global};

fn add_first(alloc: Global, all: &mut TypedRules) -> Result<(), AllocError>
    ensures { OnOk result (all.new ≡ all.old ++ map unconstrained (
        int_add_zero ∷ int_add_flat ∷ int_add_comm ∷ int_add_cancel ∷ int_mul_one ∷
        int_mul_zero ∷ int_minus_self ∷ [])) }
{
    all.push(int_add_zero(alloc)?)?;
    all.push(int_add_flat(alloc)?)?;
    all.push(int_add_comm(alloc)?)?;
    all.push(int_add_cancel(alloc)?)?;
    all.push(int_mul_one(alloc)?)?;
    all.push(int_mul_zero(alloc)?)?;
    all.push(int_minus_self(alloc)?)?;
    Ok(())
}

fn add_second(alloc: Global, all: &mut TypedRules) -> Result<(), AllocError>
    ensures { OnOk result (all.new ≡ all.old ++ map unconstrained (
        int_sub_elim ∷ int_neg_neg ∷ int_distrib ∷ int_gt_elim ∷ int_lt_elim ∷ int_ge_elim ∷
        int_le_refl ∷ [])) }
{
    all.push(int_sub_elim(alloc)?)?;
    all.push(int_neg_neg(alloc)?)?;
    all.push(int_distrib(alloc)?)?;
    all.push(int_gt_elim(alloc)?)?;
    all.push(int_lt_elim(alloc)?)?;
    all.push(int_ge_elim(alloc)?)?;
    all.push(int_le_refl(alloc)?)?;
    Ok(())
}

fn add_third(alloc: Global, all: &mut TypedRules) -> Result<(), AllocError>
    ensures { OnOk result (all.new ≡ all.old ++ map unconstrained (
        int_div_one ∷ int_mod_one ∷ int_mod_small ∷ int_div_self ∷ int_mod_mod ∷ int_abs_elim
        ∷ [])) }
{
    all.push(int_div_one(alloc)?)?;
    all.push(int_mod_one(alloc)?)?;
    all.push(int_mod_small(alloc)?)?;
    all.push(int_div_self(alloc)?)?;
    all.push(int_mod_mod(alloc)?)?;
    all.push(int_abs_elim(alloc)?)?;
    Ok(())
}

/// These rules in order. An error is want of memory.
pub fn rules_in_order(alloc: Global) -> Result<TypedRules, AllocError>
    ensures exact { IfOk result (λ rs. rs ≡ int_rules) }
{
    let mut all = TypedRules::new(alloc);
    add_first(alloc, &mut all)?;
    add_second(alloc, &mut all)?;
    add_third(alloc, &mut all)?;
    Ok(all)
}
