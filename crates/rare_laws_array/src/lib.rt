//! The shipped rules of theory ArraysEx, each of which holds.
//!
//! Each stands as a value in `specs/ArrayRules.antt`, and as a row in `src/`.
#![tactic(auto)]

ghost use Rattle.std.specs.Prelude.{◌≡◌, IfOk};
ghost use Rattle.rare_law_parts.specs.RuleTables.{EachHolds};
ghost use Rattle.rare_laws_array.specs.ArrayTable.{array_rules};

mod built;
mod lists;
mod params;
mod rows;

use lists::rules_in_order;
use rare_rule::TypedRules;
use std::alloc::{AllocError, Global};

/// The 6 rules of theory ArraysEx, in order. An error is want of memory.
#[tactic(auto, using(crate::proofs::ArrayHolds::array_rules_hold))]
pub fn rules(alloc: Global) -> Result<TypedRules, AllocError>
    ensures exact { IfOk result (λ rs. rs ≡ array_rules) }
    ensures hold { IfOk result (λ rs. EachHolds rs) }
{
    let all = rules_in_order(alloc)?;
    Ok(all)
}
