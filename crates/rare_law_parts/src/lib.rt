//! Rules from rows: constants, with terms in reverse Polish notation, are put into rules with their typing.
//!
//! `specs/RowRules.antt` says which rule a row stands for, and `specs/RuleTables.antt` what a table of
//! rules promises.
#![tactic(auto)]

pub mod bv_params;
mod params;
mod row;
mod rules;
mod terms;

pub use params::{Kind, ParamRow, SortRow};
pub use row::{PLAIN, Row, Step, Sum};
pub use rules::typed;
