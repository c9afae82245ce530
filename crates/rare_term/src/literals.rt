//! Literals, reduced modulo `2^width`, and numbers that are too large.
ghost use Rattle.std.specs.Prelude.{◌≡◌, false, ◌%◌, ◌^◌, ◌≤ℤ◌, ◌⊎◌, pos, IfOk};
ghost use Rattle.rare_term.specs.Literals.{natural_of, operator, reduced, reduced_value};
ghost use Rattle.rare_term.specs.Refusals.{has_large_number};

use rare_linear::{Linear, Linears};
use rare_sort::{Head, copy_linears, number_of};
use std::alloc::{AllocError, Global};

/// An operator with its indices.
#[derive(Debug, Drop)]
pub struct Operator {
    pub head: Head,
    pub indices: Linears,
}

/// The remainder of the value modulo `2^width`.
fn reduced_bits(value: u128, width: i128) -> u128
    ensures { result ≡ value % 2 ^ natural_of width }
{
    if width >= 128 {
        value
    } else if width > 0 {
        value % (1u128 << (width as u32))
    } else {
        0
    }
}

/// The remainder of the value modulo `2^width`, from 0 on.
fn value_reduced(value: i128, width: i128) -> u128
    requires { (width ≤ℤ pos 128) ⊎ (pos 0 ≤ℤ value) }
    ensures { result ≡ reduced_value value width }
{
    reduced_bits(value.cast_unsigned(), width)
}

fn copied(alloc: Global, head: Head, indices: &[Linear]) -> Result<Operator, AllocError>
    ensures { IfOk result (λ o. o ≡ operator head indices.now) }
{
    Ok(Operator {
        head,
        indices: copy_linears(alloc, indices)?,
    })
}

/// A literal whose value and width are numbers has its value reduced; every other operator is copied.
#[tactic(auto, unfolding(crate::specs::Literals::reduced))]
pub fn reduced_operator(
    alloc: Global,
    head: Head,
    indices: &[Linear],
) -> Result<Operator, AllocError>
    requires { has_large_number head indices.now ≡ false }
    ensures { IfOk result (λ o. o ≡ reduced head indices.now) }
{
    match head {
        Head::Bits(value) => match indices {
            [width] => match number_of(width) {
                Some(n) => copied(alloc, Head::Bits(reduced_bits(value, n)), indices),
                None => copied(alloc, head, indices),
            },
            _ => copied(alloc, head, indices),
        },
        Head::Literal => match indices {
            [value, width] => match (number_of(value), number_of(width)) {
                (Some(m), Some(n)) => {
                    let mut indices = Linears::new(alloc);
                    indices.push(width.copy(alloc)?)?;
                    Ok(Operator {
                        head: Head::Bits(value_reduced(m, n)),
                        indices,
                    })
                }
                _ => copied(alloc, head, indices),
            },
            _ => copied(alloc, head, indices),
        },
        _ => copied(alloc, head, indices),
    }
}

/// Whether a numeral is above `2^127 - 1`, or a number value of a number width above 128 is negative.
pub fn has_large(head: Head, indices: &[Linear]) -> bool
    ensures { result ≡ has_large_number head indices.now }
{
    match head {
        Head::Numeral(n) => n > i128::MAX.unsigned_abs(),
        Head::Literal => match indices {
            [value, width] => match (number_of(value), number_of(width)) {
                (Some(m), Some(n)) => n > 128 && m < 0,
                _ => false,
            },
            _ => false,
        },
        _ => false,
    }
}
