//! The rules of operators that go bit by bit, and of slices and joins, in order.
ghost use Rattle.std.specs.Prelude.{◌≡◌, [], ◌∷◌, ◌++◌, IfOk, OnOk, map};
ghost use Rattle.rare_law_parts.specs.RuleTables.{constrained, unconstrained};
ghost use Rattle.rare_laws_bvbits.specs.BvBitwiseRules.{bv_and_ones, bv_and_zero, bv_and_flat, bv_and_dup, bv_and_compl, bv_and_de_morgan, bv_or_zero, bv_or_ones, bv_or_flat, bv_or_compl, bv_xor_zero, bv_xor_ones, bv_xor_dup, bv_not_not};
ghost use Rattle.rare_laws_bvbits.specs.BvSliceRules.{bv_comp_elim, bv_shl_const, bv_lshr_const, bv_extract_whole, bv_extract_extract, bv_extract_concat_low, bv_extract_concat_high, bv_concat_extract, bv_zero_extend, bv_shl_const_constraints, bv_lshr_const_constraints, bv_extract_extract_constraints, bv_extract_concat_low_constraints, bv_extract_concat_high_constraints, bv_concat_extract_constraints, bv_zero_extend_constraints};
ghost use Rattle.rare_laws_bvbits.specs.BvBitsTable.{bv_bits_rules};

use crate::bitwise::{
    bv_and_compl, bv_and_de_morgan, bv_and_dup, bv_and_flat, bv_and_ones, bv_and_zero, bv_not_not,
    bv_or_compl, bv_or_flat, bv_or_ones, bv_or_zero, bv_xor_dup, bv_xor_ones, bv_xor_zero,
};
use crate::slices::{
    bv_comp_elim, bv_concat_extract, bv_extract_concat_high, bv_extract_concat_low,
    bv_extract_extract, bv_extract_whole, bv_lshr_const, bv_shl_const, bv_zero_extend,
};
use rare_rule::TypedRules;
use std::alloc::{AllocError, Global};

fn add_first(alloc: Global, all: &mut TypedRules) -> Result<(), AllocError>
    ensures { OnOk result (all.new ≡ all.old ++ map unconstrained (
        bv_and_ones ∷ bv_and_zero ∷ bv_and_flat ∷ bv_and_dup ∷ bv_and_compl ∷
        bv_and_de_morgan ∷ bv_or_zero ∷ bv_or_ones ∷ [])) }
{
    all.push(bv_and_ones(alloc)?)?;
    all.push(bv_and_zero(alloc)?)?;
    all.push(bv_and_flat(alloc)?)?;
    all.push(bv_and_dup(alloc)?)?;
    all.push(bv_and_compl(alloc)?)?;
    all.push(bv_and_de_morgan(alloc)?)?;
    all.push(bv_or_zero(alloc)?)?;
    all.push(bv_or_ones(alloc)?)?;
    Ok(())
}

fn add_second(alloc: Global, all: &mut TypedRules) -> Result<(), AllocError>
    ensures { OnOk result (all.new ≡ all.old ++ (
        unconstrained bv_or_flat ∷ unconstrained bv_or_compl ∷ unconstrained bv_xor_zero ∷
        unconstrained bv_xor_ones ∷ unconstrained bv_xor_dup ∷ unconstrained bv_not_not ∷
        unconstrained bv_comp_elim ∷ constrained bv_shl_const bv_shl_const_constraints ∷ [])) }
{
    all.push(bv_or_flat(alloc)?)?;
    all.push(bv_or_compl(alloc)?)?;
    all.push(bv_xor_zero(alloc)?)?;
    all.push(bv_xor_ones(alloc)?)?;
    all.push(bv_xor_dup(alloc)?)?;
    all.push(bv_not_not(alloc)?)?;
    all.push(bv_comp_elim(alloc)?)?;
    all.push(bv_shl_const(alloc)?)?;
    Ok(())
}

fn add_third(alloc: Global, all: &mut TypedRules) -> Result<(), AllocError>
    ensures { OnOk result (all.new ≡ all.old ++ (
        constrained bv_lshr_const bv_lshr_const_constraints ∷ unconstrained bv_extract_whole ∷
        constrained bv_extract_extract bv_extract_extract_constraints ∷
        constrained bv_extract_concat_low bv_extract_concat_low_constraints ∷
        constrained bv_extract_concat_high bv_extract_concat_high_constraints ∷
        constrained bv_concat_extract bv_concat_extract_constraints ∷
        constrained bv_zero_extend bv_zero_extend_constraints ∷ [])) }
{
    all.push(bv_lshr_const(alloc)?)?;
    all.push(bv_extract_whole(alloc)?)?;
    all.push(bv_extract_extract(alloc)?)?;
    all.push(bv_extract_concat_low(alloc)?)?;
    all.push(bv_extract_concat_high(alloc)?)?;
    all.push(bv_concat_extract(alloc)?)?;
    all.push(bv_zero_extend(alloc)?)?;
    Ok(())
}

/// These rules in order. An error is want of memory.
pub fn rules_in_order(alloc: Global) -> Result<TypedRules, AllocError>
    ensures exact { IfOk result (λ rs. rs ≡ bv_bits_rules) }
{
    let mut all = TypedRules::new(alloc);
    add_first(alloc, &mut all)?;
    add_second(alloc, &mut all)?;
    add_third(alloc, &mut all)?;
    Ok(all)
}
