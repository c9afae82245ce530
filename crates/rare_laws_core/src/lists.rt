//! The rules of theory Core in order.
ghost use Rattle.std.specs.Prelude.{◌≡◌, [], ◌∷◌, ◌++◌, IfOk, OnOk, map};
ghost use Rattle.rare_law_parts.specs.RuleTables.{unconstrained};
ghost use Rattle.rare_laws_core.specs.CoreRules.{bool_not_not, bool_and_true, bool_and_false, bool_and_flat, bool_and_dup, bool_and_conf, bool_or_false, bool_or_true, bool_or_flat, bool_or_dup, bool_or_taut, bool_and_comm, bool_or_comm, bool_and_de_morgan, bool_or_de_morgan, bool_impl_elim, bool_xor_false, bool_xor_true, bool_xor_refl, ite_true, ite_false, ite_same, ite_not, ite_bool, ite_then, ite_else, ite_cond, eq_refl, eq_symm, eq_true, eq_false, distinct_elim};
ghost use Rattle.rare_laws_core.specs.CoreTable.{core_rules};

use crate::built::{
    bool_and_comm, bool_and_conf, bool_and_de_morgan, bool_and_dup, bool_and_false, bool_and_flat,
    bool_and_true, bool_impl_elim, bool_not_not, bool_or_comm, bool_or_de_morgan, bool_or_dup,
    bool_or_false, bool_or_flat, bool_or_taut, bool_or_true, bool_xor_false, bool_xor_refl,
    bool_xor_true, distinct_elim, eq_false, eq_refl, eq_symm, eq_true, ite_bool, ite_cond,
    ite_else, ite_false, ite_not, ite_same, ite_then, ite_true,
};
use rare_rule::TypedRules;
use std::alloc::{AllocError, Global};

fn add_first(alloc: Global, all: &mut TypedRules) -> Result<(), AllocError>
    ensures { OnOk result (all.new ≡ all.old ++ map unconstrained (
        bool_not_not ∷ bool_and_true ∷ bool_and_false ∷ bool_and_flat ∷ bool_and_dup ∷
        bool_and_conf ∷ bool_or_false ∷ bool_or_true ∷ [])) }
{
    all.push(bool_not_not(alloc)?)?;
    all.push(bool_and_true(alloc)?)?;
    all.push(bool_and_false(alloc)?)?;
    all.push(bool_and_flat(alloc)?)?;
    all.push(bool_and_dup(alloc)?)?;
    all.push(bool_and_conf(alloc)?)?;
    all.push(bool_or_false(alloc)?)?;
    all.push(bool_or_true(alloc)?)?;
    Ok(())
}

fn add_second(alloc: Global, all: &mut TypedRules) -> Result<(), AllocError>
    ensures { OnOk result (all.new ≡ all.old ++ map unconstrained (
        bool_or_flat ∷ bool_or_dup ∷ bool_or_taut ∷ bool_and_comm ∷ bool_or_comm ∷
        bool_and_de_morgan ∷ bool_or_de_morgan ∷ bool_impl_elim ∷ [])) }
{
    all.push(bool_or_flat(alloc)?)?;
    all.push(bool_or_dup(alloc)?)?;
    all.push(bool_or_taut(alloc)?)?;
    all.push(bool_and_comm(alloc)?)?;
    all.push(bool_or_comm(alloc)?)?;
    all.push(bool_and_de_morgan(alloc)?)?;
    all.push(bool_or_de_morgan(alloc)?)?;
    all.push(bool_impl_elim(alloc)?)?;
    Ok(())
}

fn add_third(alloc: Global, all: &mut TypedRules) -> Result<(), AllocError>
    ensures { OnOk result (all.new ≡ all.old ++ map unconstrained (
        bool_xor_false ∷ bool_xor_true ∷ bool_xor_refl ∷ ite_true ∷ ite_false ∷ ite_same ∷
        ite_not ∷ ite_bool ∷ [])) }
{
    all.push(bool_xor_false(alloc)?)?;
    all.push(bool_xor_true(alloc)?)?;
    all.push(bool_xor_refl(alloc)?)?;
    all.push(ite_true(alloc)?)?;
    all.push(ite_false(alloc)?)?;
    all.push(ite_same(alloc)?)?;
    all.push(ite_not(alloc)?)?;
    all.push(ite_bool(alloc)?)?;
    Ok(())
}

fn add_fourth(alloc: Global, all: &mut TypedRules) -> Result<(), AllocError>
    ensures { OnOk result (all.new ≡ all.old ++ map unconstrained (
        ite_then ∷ ite_else ∷ ite_cond ∷ eq_refl ∷ eq_symm ∷ eq_true ∷ eq_false ∷
        distinct_elim ∷ [])) }
{
    all.push(ite_then(alloc)?)?;
    all.push(ite_else(alloc)?)?;
    all.push(ite_cond(alloc)?)?;
    all.push(eq_refl(alloc)?)?;
    all.push(eq_symm(alloc)?)?;
    all.push(eq_true(alloc)?)?;
    all.push(eq_false(alloc)?)?;
    all.push(distinct_elim(alloc)?)?;
    Ok(())
}

/// These rules in order. An error is want of memory.
pub fn rules_in_order(alloc: Global) -> Result<TypedRules, AllocError>
    ensures exact { IfOk result (λ rs. rs ≡ core_rules) }
{
    let mut all = TypedRules::new(alloc);
    add_first(alloc, &mut all)?;
    add_second(alloc, &mut all)?;
    add_third(alloc, &mut all)?;
    add_fourth(alloc, &mut all)?;
    Ok(all)
}
