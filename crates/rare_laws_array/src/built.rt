//! The rules of theory ArraysEx, each of its row.
ghost use Rattle.std.specs.Prelude.{◌≡◌, IfOk};
ghost use Rattle.rare_law_parts.specs.RuleTables.{unconstrained};
ghost use Rattle.rare_laws_array.specs.ArrayRules.{arr_select_same, arr_select_other, arr_select_ite, arr_store_same, arr_store_select, arr_store_swap};

use crate::rows::{
    ARR_SELECT_ITE, ARR_SELECT_OTHER, ARR_SELECT_SAME, ARR_STORE_SAME, ARR_STORE_SELECT,
    ARR_STORE_SWAP,
};
use rare_law_parts::typed;
use rare_rule::Typed;
use std::alloc::{AllocError, Global};

#[tactic(auto, using(crate::proofs::ArrayForms::arr_select_same_form, crate::proofs::ArrayTypes::arr_select_same_types))]
pub fn arr_select_same(alloc: Global) -> Result<Typed, AllocError>
    ensures { IfOk result (λ t. t ≡ unconstrained arr_select_same) }
{
    typed(alloc, &ARR_SELECT_SAME)
}

#[tactic(auto, using(crate::proofs::ArrayForms::arr_select_other_form, crate::proofs::ArrayTypes::arr_select_other_types))]
pub fn arr_select_other(alloc: Global) -> Result<Typed, AllocError>
    ensures { IfOk result (λ t. t ≡ unconstrained arr_select_other) }
{
    typed(alloc, &ARR_SELECT_OTHER)
}

#[tactic(auto, using(crate::proofs::ArrayForms::arr_select_ite_form, crate::proofs::ArrayTypes::arr_select_ite_types))]
pub fn arr_select_ite(alloc: Global) -> Result<Typed, AllocError>
    ensures { IfOk result (λ t. t ≡ unconstrained arr_select_ite) }
{
    typed(alloc, &ARR_SELECT_ITE)
}

#[tactic(auto, using(crate::proofs::ArrayForms::arr_store_same_form, crate::proofs::ArrayTypes::arr_store_same_types))]
pub fn arr_store_same(alloc: Global) -> Result<Typed, AllocError>
    ensures { IfOk result (λ t. t ≡ unconstrained arr_store_same) }
{
    typed(alloc, &ARR_STORE_SAME)
}

#[tactic(auto, using(crate::proofs::ArrayForms::arr_store_select_form, crate::proofs::ArrayTypes::arr_store_select_types))]
pub fn arr_store_select(alloc: Global) -> Result<Typed, AllocError>
    ensures { IfOk result (λ t. t ≡ unconstrained arr_store_select) }
{
    typed(alloc, &ARR_STORE_SELECT)
}

#[tactic(auto, using(crate::proofs::ArrayForms::arr_store_swap_form, crate::proofs::ArrayTypes::arr_store_swap_types))]
pub fn arr_store_swap(alloc: Global) -> Result<Typed, AllocError>
    ensures { IfOk result (λ t. t ≡ unconstrained arr_store_swap) }
{
    typed(alloc, &ARR_STORE_SWAP)
}
