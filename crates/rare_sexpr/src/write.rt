//! How symbols and strings are written.
ghost use Rattle.std.specs.Prelude.{◌≡◌, [], ◌∷◌, ◌++◌, OnOk, OnErr};
ghost use Rattle.rare_sexpr.specs.Written.{are_symbol_bytes, is_simple, doubled, written_symbol, written_string, IsCut};

use crate::bytes::{in_digits, in_symbol};
use rare_base::Text;
use std::alloc::AllocError;

fn all_symbol_bytes(bytes: &[u8]) -> bool
    ensures { result ≡ are_symbol_bytes bytes.now }
{
    bytes.iter().all(|byte| in_symbol(*byte))
}

fn is_simple_symbol(symbol: &[u8]) -> bool
    ensures { result ≡ is_simple symbol.now }
{
    match symbol.first() {
        Some(first) => !in_digits(*first) && all_symbol_bytes(symbol),
        None => false,
    }
}

/// Appends a symbol: bare where its bytes are a simple symbol, else between bars.
/// Want of memory leaves the old bytes and perhaps the front of the text.
pub fn write_symbol(out: &mut Text, symbol: &[u8]) -> Result<(), AllocError>
    ensures ok { OnOk result (out.new ≡ out.old ++ written_symbol symbol.now) }
    ensures err { OnErr result (IsCut out.old (written_symbol symbol.now) out.new) }
{
    if is_simple_symbol(symbol) {
        return out.append(symbol);
    }
    out.push(b'|')?;
    out.append(symbol)?;
    out.push(b'|')
}

// Appends a byte of a string, a quote twice. Where memory is wanting, the text stays.
fn push_in_string(out: &mut Text, byte: u8) -> Result<(), AllocError>
    ensures ok { OnOk result (out.new ≡ out.old ++ doubled (byte ∷ [])) }
    ensures err { OnErr result (out.new ≡ out.old) }
{
    if byte == b'"' {
        return out.append(b"\"\"");
    }
    out.push(byte)
}

/// Appends a string: its bytes between quotes, with two quotes for each one.
/// Want of memory leaves the old bytes and perhaps the front of the text.
pub fn write_string(out: &mut Text, bytes: &[u8]) -> Result<(), AllocError>
    ensures ok { OnOk result (out.new ≡ out.old ++ written_string bytes.now) }
    ensures err { OnErr result (IsCut out.old (written_string bytes.now) out.new) }
{
    out.push(b'"')?;
    for byte in bytes {
        push_in_string(out, *byte)?;
    }
    out.push(b'"')
}
