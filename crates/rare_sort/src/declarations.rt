//! What is declared and assumed: one record for a problem, for its terms and for what they mean.
use crate::sort::Signatures;
use rare_linear::Constraints;
use rare_list::Sequence;

/// What is declared and assumed.
#[derive(Debug, Drop)]
pub struct Declarations {
    /// How many sorts.
    pub sorts: u32,
    /// The signature of each symbol, at its number.
    pub symbols: Signatures,
    /// The least value of each width name, which is 1, at its number.
    pub lows: Sequence<u8>,
    /// What is assumed of widths.
    pub constraints: Constraints,
}
