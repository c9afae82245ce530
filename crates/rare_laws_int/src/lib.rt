//! The shipped rules of theory Ints, each of which holds.
//!
//! Each stands as a value in `specs/IntRules.antt`, and as a row in `src/`.
#![tactic(auto)]

ghost use Rattle.std.specs.Prelude.{◌≡◌, IfOk};
ghost use Rattle.rare_law_parts.specs.RuleTables.{EachHolds};
ghost use Rattle.rare_laws_int.specs.IntTable.{int_rules};

mod built;
mod lists;
mod params;
mod rows;

use lists::rules_in_order;
use rare_rule::TypedRules;
use std::alloc::{AllocError, Global};

/// The 20 rules of theory Ints, in order. An error is want of memory.
#[tactic(auto, using(crate::proofs::IntHolds::int_rules_hold))]
pub fn rules(alloc: Global) -> Result<TypedRules, AllocError>
    ensures exact { IfOk result (λ rs. rs ≡ int_rules) }
    ensures hold { IfOk result (λ rs. EachHolds rs) }
{
    let all = rules_in_order(alloc)?;
    Ok(all)
}
