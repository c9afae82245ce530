//! The shipped rules of theory Core, each of which holds.
//!
//! Each stands as a value in `specs/CoreRules.antt`, and as a row in `src/`.
#![tactic(auto)]

ghost use Rattle.std.specs.Prelude.{◌≡◌, IfOk};
ghost use Rattle.rare_law_parts.specs.RuleTables.{EachHolds};
ghost use Rattle.rare_laws_core.specs.CoreTable.{core_rules};

mod bool_rows;
mod built;
mod choice_rows;
mod lists;
mod params;

use lists::rules_in_order;
use rare_rule::TypedRules;
use std::alloc::{AllocError, Global};

/// The 32 rules of theory Core, in order. An error is want of memory.
#[tactic(auto, using(crate::proofs::CoreHolds::core_rules_hold))]
pub fn rules(alloc: Global) -> Result<TypedRules, AllocError>
    ensures exact { IfOk result (λ rs. rs ≡ core_rules) }
    ensures hold { IfOk result (λ rs. EachHolds rs) }
{
    let all = rules_in_order(alloc)?;
    Ok(all)
}
