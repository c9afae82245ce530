//! The shipped rules of operators that go bit by bit, and of slices and joins, each of which holds.
//!
//! Each stands as a value in `specs/BvBitwiseRules.antt` or `specs/BvSliceRules.antt`, and as a row in `src/`.
#![tactic(auto)]

ghost use Rattle.std.specs.Prelude.{◌≡◌, IfOk};
ghost use Rattle.rare_law_parts.specs.RuleTables.{EachHolds};
ghost use Rattle.rare_laws_bvbits.specs.BvBitsTable.{bv_bits_rules};

mod bit_rows;
mod bitwise;
mod lists;
mod slice_rows;
mod slices;

use lists::rules_in_order;
use rare_rule::TypedRules;
use std::alloc::{AllocError, Global};

/// The 23 rules of operators that go bit by bit, and of slices and joins, in order. An error is want of memory.
#[tactic(auto, using(crate::proofs::BvBitsHolds::bv_bits_rules_hold))]
pub fn rules(alloc: Global) -> Result<TypedRules, AllocError>
    ensures exact { IfOk result (λ rs. rs ≡ bv_bits_rules) }
    ensures hold { IfOk result (λ rs. EachHolds rs) }
{
    let all = rules_in_order(alloc)?;
    Ok(all)
}
