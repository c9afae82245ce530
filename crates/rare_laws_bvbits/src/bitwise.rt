//! The rules of operators that go bit by bit, each of its row.
ghost use Rattle.std.specs.Prelude.{◌≡◌, IfOk};
ghost use Rattle.rare_law_parts.specs.RuleTables.{unconstrained};
ghost use Rattle.rare_laws_bvbits.specs.BvBitwiseRules.{bv_and_ones, bv_and_zero, bv_and_flat, bv_and_dup, bv_and_compl, bv_and_de_morgan, bv_or_zero, bv_or_ones, bv_or_flat, bv_or_compl, bv_xor_zero, bv_xor_ones, bv_xor_dup, bv_not_not};

use crate::bit_rows::{
    BV_AND_COMPL, BV_AND_DE_MORGAN, BV_AND_DUP, BV_AND_FLAT, BV_AND_ONES, BV_AND_ZERO, BV_NOT_NOT,
    BV_OR_COMPL, BV_OR_FLAT, BV_OR_ONES, BV_OR_ZERO, BV_XOR_DUP, BV_XOR_ONES, BV_XOR_ZERO,
};
use rare_law_parts::typed;
use rare_rule::Typed;
use std::alloc::{AllocError, Global};

#[tactic(auto, using(crate::proofs::BvBitwiseForms::bv_and_ones_form, crate::proofs::BvBitwiseTypes::bv_and_ones_types))]
pub fn bv_and_ones(alloc: Global) -> Result<Typed, AllocError>
    ensures { IfOk result (λ t. t ≡ unconstrained bv_and_ones) }
{
    typed(alloc, &BV_AND_ONES)
}

#[tactic(auto, using(crate::proofs::BvBitwiseForms::bv_and_zero_form, crate::proofs::BvBitwiseTypes::bv_and_zero_types))]
pub fn bv_and_zero(alloc: Global) -> Result<Typed, AllocError>
    ensures { IfOk result (λ t. t ≡ unconstrained bv_and_zero) }
{
    typed(alloc, &BV_AND_ZERO)
}

#[tactic(auto, using(crate::proofs::BvBitwiseForms::bv_and_flat_form, crate::proofs::BvBitwiseTypes::bv_and_flat_types))]
pub fn bv_and_flat(alloc: Global) -> Result<Typed, AllocError>
    ensures { IfOk result (λ t. t ≡ unconstrained bv_and_flat) }
{
    typed(alloc, &BV_AND_FLAT)
}

#[tactic(auto, using(crate::proofs::BvBitwiseForms::bv_and_dup_form, crate::proofs::BvBitwiseTypes::bv_and_dup_types))]
pub fn bv_and_dup(alloc: Global) -> Result<Typed, AllocError>
    ensures { IfOk result (λ t. t ≡ unconstrained bv_and_dup) }
{
    typed(alloc, &BV_AND_DUP)
}

#[tactic(auto, using(crate::proofs::BvBitwiseForms::bv_and_compl_form, crate::proofs::BvBitwiseTypes::bv_and_compl_types))]
pub fn bv_and_compl(alloc: Global) -> Result<Typed, AllocError>
    ensures { IfOk result (λ t. t ≡ unconstrained bv_and_compl) }
{
    typed(alloc, &BV_AND_COMPL)
}

#[tactic(auto, using(crate::proofs::BvBitwiseForms::bv_and_de_morgan_form, crate::proofs::BvBitwiseTypes::bv_and_de_morgan_types))]
pub fn bv_and_de_morgan(alloc: Global) -> Result<Typed, AllocError>
    ensures { IfOk result (λ t. t ≡ unconstrained bv_and_de_morgan) }
{
    typed(alloc, &BV_AND_DE_MORGAN)
}

#[tactic(auto, using(crate::proofs::BvBitwiseForms::bv_or_zero_form, crate::proofs::BvBitwiseTypes::bv_or_zero_types))]
pub fn bv_or_zero(alloc: Global) -> Result<Typed, AllocError>
    ensures { IfOk result (λ t. t ≡ unconstrained bv_or_zero) }
{
    typed(alloc, &BV_OR_ZERO)
}

#[tactic(auto, using(crate::proofs::BvBitwiseForms::bv_or_ones_form, crate::proofs::BvBitwiseTypes::bv_or_ones_types))]
pub fn bv_or_ones(alloc: Global) -> Result<Typed, AllocError>
    ensures { IfOk result (λ t. t ≡ unconstrained bv_or_ones) }
{
    typed(alloc, &BV_OR_ONES)
}

#[tactic(auto, using(crate::proofs::BvBitwiseForms::bv_or_flat_form, crate::proofs::BvBitwiseTypes::bv_or_flat_types))]
pub fn bv_or_flat(alloc: Global) -> Result<Typed, AllocError>
    ensures { IfOk result (λ t. t ≡ unconstrained bv_or_flat) }
{
    typed(alloc, &BV_OR_FLAT)
}

#[tactic(auto, using(crate::proofs::BvBitwiseForms::bv_or_compl_form, crate::proofs::BvBitwiseTypes::bv_or_compl_types))]
pub fn bv_or_compl(alloc: Global) -> Result<Typed, AllocError>
    ensures { IfOk result (λ t. t ≡ unconstrained bv_or_compl) }
{
    typed(alloc, &BV_OR_COMPL)
}

#[tactic(auto, using(crate::proofs::BvBitwiseForms::bv_xor_zero_form, crate::proofs::BvBitwiseTypes::bv_xor_zero_types))]
pub fn bv_xor_zero(alloc: Global) -> Result<Typed, AllocError>
    ensures { IfOk result (λ t. t ≡ unconstrained bv_xor_zero) }
{
    typed(alloc, &BV_XOR_ZERO)
}

#[tactic(auto, using(crate::proofs::BvBitwiseForms::bv_xor_ones_form, crate::proofs::BvBitwiseTypes::bv_xor_ones_types))]
pub fn bv_xor_ones(alloc: Global) -> Result<Typed, AllocError>
    ensures { IfOk result (λ t. t ≡ unconstrained bv_xor_ones) }
{
    typed(alloc, &BV_XOR_ONES)
}

#[tactic(auto, using(crate::proofs::BvBitwiseForms::bv_xor_dup_form, crate::proofs::BvBitwiseTypes::bv_xor_dup_types))]
pub fn bv_xor_dup(alloc: Global) -> Result<Typed, AllocError>
    ensures { IfOk result (λ t. t ≡ unconstrained bv_xor_dup) }
{
    typed(alloc, &BV_XOR_DUP)
}

#[tactic(auto, using(crate::proofs::BvBitwiseForms::bv_not_not_form, crate::proofs::BvBitwiseTypes::bv_not_not_types))]
pub fn bv_not_not(alloc: Global) -> Result<Typed, AllocError>
    ensures { IfOk result (λ t. t ≡ unconstrained bv_not_not) }
{
    typed(alloc, &BV_NOT_NOT)
}
