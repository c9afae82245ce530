//! The rules of theory ArraysEx in order.
ghost use Rattle.std.specs.Prelude.{◌≡◌, [], ◌∷◌, ◌++◌, IfOk, OnOk, map};
ghost use Rattle.rare_law_parts.specs.RuleTables.{unconstrained};
ghost use Rattle.rare_laws_array.specs.ArrayRules.{arr_select_same, arr_select_other, arr_select_ite, arr_store_same, arr_store_select, arr_store_swap};
ghost use Rattle.rare_laws_array.specs.ArrayTable.{array_rules};

use crate::built::{
    arr_select_ite, arr_select_other, arr_select_same, arr_store_same, arr_store_select,
    arr_store_swap,
};
use rare_rule::TypedRules;
use std::alloc::{AllocError, Global};

fn add_all(alloc: Global, all: &mut TypedRules) -> Result<(), AllocError>
    ensures { OnOk result (all.new ≡ all.old ++ map unconstrained (
        arr_select_same ∷ arr_select_other ∷ arr_select_ite ∷ arr_store_same ∷
        arr_store_select ∷ arr_store_swap ∷ [])) }
{
    all.push(arr_select_same(alloc)?)?;
    all.push(arr_select_other(alloc)?)?;
    all.push(arr_select_ite(alloc)?)?;
    all.push(arr_store_same(alloc)?)?;
    all.push(arr_store_select(alloc)?)?;
    all.push(arr_store_swap(alloc)?)?;
    Ok(())
}

/// These rules in order. An error is want of memory.
pub fn rules_in_order(alloc: Global) -> Result<TypedRules, AllocError>
    ensures exact { IfOk result (λ rs. rs ≡ array_rules) }
{
    let mut all = TypedRules::new(alloc);
    add_all(alloc, &mut all)?;
    Ok(all)
}
