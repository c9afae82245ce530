//! The rules of theory Core, each of its row.
ghost use Rattle.std.specs.Prelude.{◌≡◌, IfOk};
ghost use Rattle.rare_law_parts.specs.RuleTables.{unconstrained};
ghost use Rattle.rare_laws_core.specs.CoreRules.{bool_not_not, bool_and_true, bool_and_false, bool_and_flat, bool_and_dup, bool_and_conf, bool_or_false, bool_or_true, bool_or_flat, bool_or_dup, bool_or_taut, bool_and_comm, bool_or_comm, bool_and_de_morgan, bool_or_de_morgan, bool_impl_elim, bool_xor_false, bool_xor_true, bool_xor_refl, ite_true, ite_false, ite_same, ite_not, ite_bool, ite_then, ite_else, ite_cond, eq_refl, eq_symm, eq_true, eq_false, distinct_elim};

use crate::bool_rows::{
    BOOL_AND_COMM, BOOL_AND_CONF, BOOL_AND_DE_MORGAN, BOOL_AND_DUP, BOOL_AND_FALSE, BOOL_AND_FLAT,
    BOOL_AND_TRUE, BOOL_IMPL_ELIM, BOOL_NOT_NOT, BOOL_OR_COMM, BOOL_OR_DE_MORGAN, BOOL_OR_DUP,
    BOOL_OR_FALSE, BOOL_OR_FLAT, BOOL_OR_TAUT, BOOL_OR_TRUE, BOOL_XOR_FALSE, BOOL_XOR_REFL,
    BOOL_XOR_TRUE,
};
use crate::choice_rows::{
    DISTINCT_ELIM, EQ_FALSE, EQ_REFL, EQ_SYMM, EQ_TRUE, ITE_BOOL, ITE_COND, ITE_ELSE, ITE_FALSE,
    ITE_NOT, ITE_SAME, ITE_THEN, ITE_TRUE,
};
use rare_law_parts::typed;
use rare_rule::Typed;
use std::alloc::{AllocError, Global};

#[tactic(auto, using(crate::proofs::CoreForms::bool_not_not_form, crate::proofs::CoreTypes::bool_not_not_types))]
pub fn bool_not_not(alloc: Global) -> Result<Typed, AllocError>
    ensures { IfOk result (λ t. t ≡ unconstrained bool_not_not) }
{
    typed(alloc, &BOOL_NOT_NOT)
}

#[tactic(auto, using(crate::proofs::CoreForms::bool_and_true_form, crate::proofs::CoreTypes::bool_and_true_types))]
pub fn bool_and_true(alloc: Global) -> Result<Typed, AllocError>
    ensures { IfOk result (λ t. t ≡ unconstrained bool_and_true) }
{
    typed(alloc, &BOOL_AND_TRUE)
}

#[tactic(auto, using(crate::proofs::CoreForms::bool_and_false_form, crate::proofs::CoreTypes::bool_and_false_types))]
pub fn bool_and_false(alloc: Global) -> Result<Typed, AllocError>
    ensures { IfOk result (λ t. t ≡ unconstrained bool_and_false) }
{
    typed(alloc, &BOOL_AND_FALSE)
}

#[tactic(auto, using(crate::proofs::CoreForms::bool_and_flat_form, crate::proofs::CoreTypes::bool_and_flat_types))]
pub fn bool_and_flat(alloc: Global) -> Result<Typed, AllocError>
    ensures { IfOk result (λ t. t ≡ unconstrained bool_and_flat) }
{
    typed(alloc, &BOOL_AND_FLAT)
}

#[tactic(auto, using(crate::proofs::CoreForms::bool_and_dup_form, crate::proofs::CoreTypes::bool_and_dup_types))]
pub fn bool_and_dup(alloc: Global) -> Result<Typed, AllocError>
    ensures { IfOk result (λ t. t ≡ unconstrained bool_and_dup) }
{
    typed(alloc, &BOOL_AND_DUP)
}

#[tactic(auto, using(crate::proofs::CoreForms::bool_and_conf_form, crate::proofs::CoreTypes::bool_and_conf_types))]
pub fn bool_and_conf(alloc: Global) -> Result<Typed, AllocError>
    ensures { IfOk result (λ t. t ≡ unconstrained bool_and_conf) }
{
    typed(alloc, &BOOL_AND_CONF)
}

#[tactic(auto, using(crate::proofs::CoreForms::bool_or_false_form, crate::proofs::CoreTypes::bool_or_false_types))]
pub fn bool_or_false(alloc: Global) -> Result<Typed, AllocError>
    ensures { IfOk result (λ t. t ≡ unconstrained bool_or_false) }
{
    typed(alloc, &BOOL_OR_FALSE)
}

#[tactic(auto, using(crate::proofs::CoreForms::bool_or_true_form, crate::proofs::CoreTypes::bool_or_true_types))]
pub fn bool_or_true(alloc: Global) -> Result<Typed, AllocError>
    ensures { IfOk result (λ t. t ≡ unconstrained bool_or_true) }
{
    typed(alloc, &BOOL_OR_TRUE)
}

#[tactic(auto, using(crate::proofs::CoreForms::bool_or_flat_form, crate::proofs::CoreTypes::bool_or_flat_types))]
pub fn bool_or_flat(alloc: Global) -> Result<Typed, AllocError>
    ensures { IfOk result (λ t. t ≡ unconstrained bool_or_flat) }
{
    typed(alloc, &BOOL_OR_FLAT)
}

#[tactic(auto, using(crate::proofs::CoreForms::bool_or_dup_form, crate::proofs::CoreTypes::bool_or_dup_types))]
pub fn bool_or_dup(alloc: Global) -> Result<Typed, AllocError>
    ensures { IfOk result (λ t. t ≡ unconstrained bool_or_dup) }
{
    typed(alloc, &BOOL_OR_DUP)
}

#[tactic(auto, using(crate::proofs::CoreForms::bool_or_taut_form, crate::proofs::CoreTypes::bool_or_taut_types))]
pub fn bool_or_taut(alloc: Global) -> Result<Typed, AllocError>
    ensures { IfOk result (λ t. t ≡ unconstrained bool_or_taut) }
{
    typed(alloc, &BOOL_OR_TAUT)
}

#[tactic(auto, using(crate::proofs::CoreForms::bool_and_comm_form, crate::proofs::CoreTypes::bool_and_comm_types))]
pub fn bool_and_comm(alloc: Global) -> Result<Typed, AllocError>
    ensures { IfOk result (λ t. t ≡ unconstrained bool_and_comm) }
{
    typed(alloc, &BOOL_AND_COMM)
}

#[tactic(auto, using(crate::proofs::CoreForms::bool_or_comm_form, crate::proofs::CoreTypes::bool_or_comm_types))]
pub fn bool_or_comm(alloc: Global) -> Result<Typed, AllocError>
    ensures { IfOk result (λ t. t ≡ unconstrained bool_or_comm) }
{
    typed(alloc, &BOOL_OR_COMM)
}

#[tactic(auto, using(crate::proofs::CoreForms::bool_and_de_morgan_form, crate::proofs::CoreTypes::bool_and_de_morgan_types))]
pub fn bool_and_de_morgan(alloc: Global) -> Result<Typed, AllocError>
    ensures { IfOk result (λ t. t ≡ unconstrained bool_and_de_morgan) }
{
    typed(alloc, &BOOL_AND_DE_MORGAN)
}

#[tactic(auto, using(crate::proofs::CoreForms::bool_or_de_morgan_form, crate::proofs::CoreTypes::bool_or_de_morgan_types))]
pub fn bool_or_de_morgan(alloc: Global) -> Result<Typed, AllocError>
    ensures { IfOk result (λ t. t ≡ unconstrained bool_or_de_morgan) }
{
    typed(alloc, &BOOL_OR_DE_MORGAN)
}

#[tactic(auto, using(crate::proofs::CoreForms::bool_impl_elim_form, crate::proofs::CoreTypes::bool_impl_elim_types))]
pub fn bool_impl_elim(alloc: Global) -> Result<Typed, AllocError>
    ensures { IfOk result (λ t. t ≡ unconstrained bool_impl_elim) }
{
    typed(alloc, &BOOL_IMPL_ELIM)
}

#[tactic(auto, using(crate::proofs::CoreForms::bool_xor_false_form, crate::proofs::CoreTypes::bool_xor_false_types))]
pub fn bool_xor_false(alloc: Global) -> Result<Typed, AllocError>
    ensures { IfOk result (λ t. t ≡ unconstrained bool_xor_false) }
{
    typed(alloc, &BOOL_XOR_FALSE)
}

#[tactic(auto, using(crate::proofs::CoreForms::bool_xor_true_form, crate::proofs::CoreTypes::bool_xor_true_types))]
pub fn bool_xor_true(alloc: Global) -> Result<Typed, AllocError>
    ensures { IfOk result (λ t. t ≡ unconstrained bool_xor_true) }
{
    typed(alloc, &BOOL_XOR_TRUE)
}

#[tactic(auto, using(crate::proofs::CoreForms::bool_xor_refl_form, crate::proofs::CoreTypes::bool_xor_refl_types))]
pub fn bool_xor_refl(alloc: Global) -> Result<Typed, AllocError>
    ensures { IfOk result (λ t. t ≡ unconstrained bool_xor_refl) }
{
    typed(alloc, &BOOL_XOR_REFL)
}

#[tactic(auto, using(crate::proofs::CoreForms::ite_true_form, crate::proofs::CoreTypes::ite_true_types))]
pub fn ite_true(alloc: Global) -> Result<Typed, AllocError>
    ensures { IfOk result (λ t. t ≡ unconstrained ite_true) }
{
    typed(alloc, &ITE_TRUE)
}

#[tactic(auto, using(crate::proofs::CoreForms::ite_false_form, crate::proofs::CoreTypes::ite_false_types))]
pub fn ite_false(alloc: Global) -> Result<Typed, AllocError>
    ensures { IfOk result (λ t. t ≡ unconstrained ite_false) }
{
    typed(alloc, &ITE_FALSE)
}

#[tactic(auto, using(crate::proofs::CoreForms::ite_same_form, crate::proofs::CoreTypes::ite_same_types))]
pub fn ite_same(alloc: Global) -> Result<Typed, AllocError>
    ensures { IfOk result (λ t. t ≡ unconstrained ite_same) }
{
    typed(alloc, &ITE_SAME)
}

#[tactic(auto, using(crate::proofs::CoreForms::ite_not_form, crate::proofs::CoreTypes::ite_not_types))]
pub fn ite_not(alloc: Global) -> Result<Typed, AllocError>
    ensures { IfOk result (λ t. t ≡ unconstrained ite_not) }
{
    typed(alloc, &ITE_NOT)
}

#[tactic(auto, using(crate::proofs::CoreForms::ite_bool_form, crate::proofs::CoreTypes::ite_bool_types))]
pub fn ite_bool(alloc: Global) -> Result<Typed, AllocError>
    ensures { IfOk result (λ t. t ≡ unconstrained ite_bool) }
{
    typed(alloc, &ITE_BOOL)
}

#[tactic(auto, using(crate::proofs::CoreForms::ite_then_form, crate::proofs::CoreTypes::ite_then_types))]
pub fn ite_then(alloc: Global) -> Result<Typed, AllocError>
    ensures { IfOk result (λ t. t ≡ unconstrained ite_then) }
{
    typed(alloc, &ITE_THEN)
}

#[tactic(auto, using(crate::proofs::CoreForms::ite_else_form, crate::proofs::CoreTypes::ite_else_types))]
pub fn ite_else(alloc: Global) -> Result<Typed, AllocError>
    ensures { IfOk result (λ t. t ≡ unconstrained ite_else) }
{
    typed(alloc, &ITE_ELSE)
}

#[tactic(auto, using(crate::proofs::CoreForms::ite_cond_form, crate::proofs::CoreTypes::ite_cond_types))]
pub fn ite_cond(alloc: Global) -> Result<Typed, AllocError>
    ensures { IfOk result (λ t. t ≡ unconstrained ite_cond) }
{
    typed(alloc, &ITE_COND)
}

#[tactic(auto, using(crate::proofs::CoreForms::eq_refl_form, crate::proofs::CoreTypes::eq_refl_types))]
pub fn eq_refl(alloc: Global) -> Result<Typed, AllocError>
    ensures { IfOk result (λ t. t ≡ unconstrained eq_refl) }
{
    typed(alloc, &EQ_REFL)
}

#[tactic(auto, using(crate::proofs::CoreForms::eq_symm_form, crate::proofs::CoreTypes::eq_symm_types))]
pub fn eq_symm(alloc: Global) -> Result<Typed, AllocError>
    ensures { IfOk result (λ t. t ≡ unconstrained eq_symm) }
{
    typed(alloc, &EQ_SYMM)
}

#[tactic(auto, using(crate::proofs::CoreForms::eq_true_form, crate::proofs::CoreTypes::eq_true_types))]
pub fn eq_true(alloc: Global) -> Result<Typed, AllocError>
    ensures { IfOk result (λ t. t ≡ unconstrained eq_true) }
{
    typed(alloc, &EQ_TRUE)
}

#[tactic(auto, using(crate::proofs::CoreForms::eq_false_form, crate::proofs::CoreTypes::eq_false_types))]
pub fn eq_false(alloc: Global) -> Result<Typed, AllocError>
    ensures { IfOk result (λ t. t ≡ unconstrained eq_false) }
{
    typed(alloc, &EQ_FALSE)
}

#[tactic(auto, using(crate::proofs::CoreForms::distinct_elim_form, crate::proofs::CoreTypes::distinct_elim_types))]
pub fn distinct_elim(alloc: Global) -> Result<Typed, AllocError>
    ensures { IfOk result (λ t. t ≡ unconstrained distinct_elim) }
{
    typed(alloc, &DISTINCT_ELIM)
}
