//! Values of literals, modulo `2^width`.
ghost use Rattle.std.specs.Prelude.{◌≡◌, ◌%◌, ◌^◌, ◌≤ℤ◌, ◌⊎◌, pos};
ghost use Rattle.rare_term.specs.Literals.{natural_of, reduced_value};

// The remainder of the value modulo `2^width`.
fn reduced_bits(value: u128, width: i128) -> u128
    ensures { result ≡ value % 2 ^ natural_of width }
{
    if width >= 128 {
        value
    } else if width > 0 {
        value % (1u128 << (width as u32))
    } else {
        0
    }
}

/// The remainder of the value modulo `2^width`, from 0 on.
pub fn value_reduced(value: i128, width: i128) -> u128
    requires { (width ≤ℤ pos 128) ⊎ (pos 0 ≤ℤ value) }
    ensures { result ≡ reduced_value value width }
{
    reduced_bits(value.cast_unsigned(), width)
}
