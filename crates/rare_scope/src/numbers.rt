//! The numbers that digits spell.
ghost use Rattle.std.specs.Prelude.{◌≡◌, ◌≤◌, pos, option_map};
ghost use Rattle.rare_scope.specs.Numbers.{digit_value, wide_number, small_number};

fn value_of_digit(digit: u8) -> u8
    ensures { result ≡ digit_value digit }
{
    match digit {
        0..=57 => digit.saturating_sub(48),
        58..=96 => digit.saturating_sub(55),
        _ => digit - 87,
    }
}

/// The number that digits to a base from 2 to 16 spell, unless it is above `2^128 - 1`.
#[tactic(auto, using(crate::proofs::Counting::too_wide, crate::proofs::Counting::digit_step))]
pub fn number_of_digits(base: u8, digits: &[u8]) -> Option<u128>
    requires { 2 ≤ base }
    ensures { result ≡ wide_number base digits.now }
{
    let mut n = 0u128;
    for digit in digits {
        let Some(shifted) = n.checked_mul(u128::from(base)) else {
            return None;
        };
        let Some(next) = shifted.checked_add(u128::from(value_of_digit(*digit))) else {
            return None;
        };
        n = next;
    }
    Some(n)
}

/// The number that a numeral spells, unless it is above `2^127 - 1`.
pub fn small_numeral(digits: &[u8]) -> Option<i128>
    ensures { result ≡ option_map (λ n. pos n) (small_number digits.now) }
{
    let n = number_of_digits(10, digits)?;
    i128::try_from(n).ok()
}
