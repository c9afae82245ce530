//! The shipped rules of arithmetic on bit vectors, each of which holds.
//!
//! Each stands as a value in `specs/BvArithRules.antt`, and as a row in `src/`.
#![tactic(auto)]

ghost use Rattle.std.specs.Prelude.{◌≡◌, IfOk};
ghost use Rattle.rare_law_parts.specs.RuleTables.{EachHolds};
ghost use Rattle.rare_laws_bvarith.specs.BvArithTable.{bv_arith_rules};

mod built;
mod lists;
mod rows;

use lists::rules_in_order;
use rare_rule::TypedRules;
use std::alloc::{AllocError, Global};

/// The 15 rules of arithmetic on bit vectors, in order. An error is want of memory.
#[tactic(auto, using(crate::proofs::BvArithHolds::bv_arith_rules_hold))]
pub fn rules(alloc: Global) -> Result<TypedRules, AllocError>
    ensures exact { IfOk result (λ rs. rs ≡ bv_arith_rules) }
    ensures hold { IfOk result (λ rs. EachHolds rs) }
{
    let all = rules_in_order(alloc)?;
    Ok(all)
}
