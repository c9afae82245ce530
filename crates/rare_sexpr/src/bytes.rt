//! What bytes are to the reader: their classes, from tables, and the places behind them.
ghost use Rattle.std.specs.Prelude.{◌≡◌, ◌+◌, ◌<◌, ◌≤◌, ◌^◌, length, take, drop};
ghost use Rattle.rare_sexpr.specs.Bytes.{is_symbol_byte, is_digit, is_hex_digit, is_binary_digit, ends_atom, after};
ghost use Rattle.rare_sexpr.specs.inner.Classes.{class, decoded};

use rare_base::Place;

/// What a byte is to the reader.
#[derive(Clone, Copy, Debug, PartialEq, Eq)]
pub enum Class {
    /// A space, a tab or a carriage return.
    Blank,
    LineFeed,
    /// `;`
    Semicolon,
    /// `(`
    Open,
    /// `)`
    Close,
    Other,
    /// `:`
    Colon,
    /// `#`
    Hash,
    /// `"`
    Quote,
    /// `|`
    Bar,
    Digit,
    /// A byte of a symbol that may stand first: a letter or one of `~ ! @ $ % ^ & * _ - + = < > . ? /`.
    Letter,
}

// The class of each byte, as `class_of_code` counts them.
const CLASSES: [u8; 256] = [
    5, 5, 5, 5, 5, 5, 5, 5, 5, 0, 1, 5, 5, 0, 5, 5, 5, 5, 5, 5, 5, 5, 5, 5, 5, 5, 5, 5, 5, 5, 5, 5,
    0, 11, 8, 7, 11, 11, 11, 5, 3, 4, 11, 11, 5, 11, 11, 11, 10, 10, 10, 10, 10, 10, 10, 10, 10,
    10, 6, 2, 11, 11, 11, 11, 11, 11, 11, 11, 11, 11, 11, 11, 11, 11, 11, 11, 11, 11, 11, 11, 11,
    11, 11, 11, 11, 11, 11, 11, 11, 11, 11, 5, 5, 5, 11, 11, 5, 11, 11, 11, 11, 11, 11, 11, 11, 11,
    11, 11, 11, 11, 11, 11, 11, 11, 11, 11, 11, 11, 11, 11, 11, 11, 11, 5, 9, 5, 11, 5, 5, 5, 5, 5,
    5, 5, 5, 5, 5, 5, 5, 5, 5, 5, 5, 5, 5, 5, 5, 5, 5, 5, 5, 5, 5, 5, 5, 5, 5, 5, 5, 5, 5, 5, 5, 5,
    5, 5, 5, 5, 5, 5, 5, 5, 5, 5, 5, 5, 5, 5, 5, 5, 5, 5, 5, 5, 5, 5, 5, 5, 5, 5, 5, 5, 5, 5, 5, 5,
    5, 5, 5, 5, 5, 5, 5, 5, 5, 5, 5, 5, 5, 5, 5, 5, 5, 5, 5, 5, 5, 5, 5, 5, 5, 5, 5, 5, 5, 5, 5, 5,
    5, 5, 5, 5, 5, 5, 5, 5, 5, 5, 5, 5, 5, 5, 5, 5, 5, 5, 5, 5, 5, 5, 5, 5, 5, 5, 5, 5,
];

fn class_of_code(code: u8) -> Class
    ensures { result ≡ decoded code }
{
    match code {
        0 => Class::Blank,
        1 => Class::LineFeed,
        2 => Class::Semicolon,
        3 => Class::Open,
        4 => Class::Close,
        6 => Class::Colon,
        7 => Class::Hash,
        8 => Class::Quote,
        9 => Class::Bar,
        10 => Class::Digit,
        11 => Class::Letter,
        _ => Class::Other,
    }
}

/// The class of a byte.
pub fn class_of(byte: u8) -> Class
    ensures { result ≡ class byte }
{
    class_of_code(CLASSES[byte as usize])
}

// For each byte whether it may stand in a simple symbol.
const IN_SYMBOL: [u8; 256] = [
    0, 0, 0, 0, 0, 0, 0, 0, 0, 0, 0, 0, 0, 0, 0, 0, 0, 0, 0, 0, 0, 0, 0, 0, 0, 0, 0, 0, 0, 0, 0, 0,
    0, 1, 0, 0, 1, 1, 1, 0, 0, 0, 1, 1, 0, 1, 1, 1, 1, 1, 1, 1, 1, 1, 1, 1, 1, 1, 0, 0, 1, 1, 1, 1,
    1, 1, 1, 1, 1, 1, 1, 1, 1, 1, 1, 1, 1, 1, 1, 1, 1, 1, 1, 1, 1, 1, 1, 1, 1, 1, 1, 0, 0, 0, 1, 1,
    0, 1, 1, 1, 1, 1, 1, 1, 1, 1, 1, 1, 1, 1, 1, 1, 1, 1, 1, 1, 1, 1, 1, 1, 1, 1, 1, 0, 0, 0, 1, 0,
    0, 0, 0, 0, 0, 0, 0, 0, 0, 0, 0, 0, 0, 0, 0, 0, 0, 0, 0, 0, 0, 0, 0, 0, 0, 0, 0, 0, 0, 0, 0, 0,
    0, 0, 0, 0, 0, 0, 0, 0, 0, 0, 0, 0, 0, 0, 0, 0, 0, 0, 0, 0, 0, 0, 0, 0, 0, 0, 0, 0, 0, 0, 0, 0,
    0, 0, 0, 0, 0, 0, 0, 0, 0, 0, 0, 0, 0, 0, 0, 0, 0, 0, 0, 0, 0, 0, 0, 0, 0, 0, 0, 0, 0, 0, 0, 0,
    0, 0, 0, 0, 0, 0, 0, 0, 0, 0, 0, 0, 0, 0, 0, 0, 0, 0, 0, 0, 0, 0, 0, 0, 0, 0, 0, 0, 0, 0, 0, 0,
];

/// Whether a byte may stand in a simple symbol.
pub fn in_symbol(byte: u8) -> bool
    ensures { result ≡ is_symbol_byte byte }
{
    IN_SYMBOL[byte as usize] == 1
}

/// Whether a byte may stand behind a bare atom.
pub fn ends_bare(byte: u8) -> bool
    ensures { result ≡ ends_atom byte }
{
    matches!(
        byte,
        b' ' | b'\t' | b'\n' | b'\r' | b'(' | b')' | b';' | b'"' | b'|'
    )
}

pub fn in_digits(byte: u8) -> bool
    ensures { result ≡ is_digit byte }
{
    byte >= b'0' && byte <= b'9'
}

pub fn in_hex(byte: u8) -> bool
    ensures { result ≡ is_hex_digit byte }
{
    in_digits(byte) || byte >= b'a' && byte <= b'f' || byte >= b'A' && byte <= b'F'
}

/// The place behind a byte at this place. A line ends with a line feed alone.
pub fn place_after(byte: u8, place: Place) -> Place
    requires line { place.line + 1 < 2 ^ 32 }
    requires column { place.column + 1 < 2 ^ 32 }
    ensures { result ≡ after byte place }
{
    if byte == b'\n' {
        Place {
            line: place.line + 1,
            column: 1,
        }
    } else {
        Place {
            line: place.line,
            column: place.column + 1,
        }
    }
}

/// The bytes from one on.
pub fn bytes_from(bytes: &[u8], at: usize) -> &[u8]
    requires { at ≤ length bytes.now }
    ensures { result.now ≡ drop at bytes.now }
{
    &bytes[at..]
}

/// So many bytes from one on.
pub fn bytes_between(bytes: &[u8], at: usize, n: usize) -> &[u8]
    requires { at + n ≤ length bytes.now }
    ensures { result.now ≡ take n (drop at bytes.now) }
{
    &bytes[at..at + n]
}
