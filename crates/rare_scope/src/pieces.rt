//! Texts written piece by piece.
ghost use Rattle.std.specs.Prelude.{◌≡◌, ◌++◌, OnOk, OnErr};
ghost use Rattle.std.specs.Fmt.{decimal};
ghost use Rattle.rare_scope.specs.Printing.{negation_text, number_text};
ghost use Rattle.rare_scope.specs.Pieces.{piece_text, size_text};
ghost use Rattle.rare_scope.specs.inner.Pieces.{pieces_text};
ghost use Rattle.rare_sexpr.specs.Written.{IsCut};

use itoa::Buffer;
use rare_base::Text;
use rare_sexpr::write_symbol;
use std::alloc::AllocError;

/// A piece of a text.
#[derive(Clone, Copy, Debug)]
pub enum Piece<'a> {
    /// Bytes as they are.
    Bytes(&'a [u8]),
    /// A name, written as a symbol.
    Symbol(&'a [u8]),
    /// The size of a name, written `(bvsize x)`.
    Size(&'a [u8]),
    /// A number; a negative one is `(- k)`.
    Number(&'a i128),
}

fn write_digits(out: &mut Text, n: u128) -> Result<(), AllocError>
    ensures ok { OnOk result (out.new ≡ out.old ++ decimal n) }
    ensures err { OnErr result (out.new ≡ out.old) }
{
    let mut buffer = Buffer::new();
    out.append(buffer.format(n).as_bytes())
}

fn write_negation(out: &mut Text, k: u128) -> Result<(), AllocError>
    ensures ok { OnOk result (out.new ≡ out.old ++ negation_text k) }
    ensures err { OnErr result (IsCut out.old (negation_text k) out.new) }
{
    out.append(b"(- ")?;
    write_digits(out, k)?;
    out.push(b')')
}

// A number; a negative one is `(- k)`, and of `-2^127` the k is no numeral.
fn write_number(out: &mut Text, n: &i128) -> Result<(), AllocError>
    ensures ok { OnOk result (out.new ≡ out.old ++ number_text n.now) }
    ensures err { OnErr result (IsCut out.old (number_text n.now) out.new) }
{
    if *n == i128::MIN {
        return out.append(b"(- (- 170141183460469231731687303715884105727) 1)");
    }
    if *n >= 0 {
        return write_digits(out, n.unsigned_abs());
    }
    write_negation(out, n.unsigned_abs())
}

fn write_size(out: &mut Text, name: &[u8]) -> Result<(), AllocError>
    ensures ok { OnOk result (out.new ≡ out.old ++ size_text name.now) }
    ensures err { OnErr result (IsCut out.old (size_text name.now) out.new) }
{
    out.append(b"(bvsize ")?;
    write_symbol(out, name)?;
    out.push(b')')
}

fn write_piece(out: &mut Text, piece: &Piece) -> Result<(), AllocError>
    ensures ok { OnOk result (out.new ≡ out.old ++ piece_text piece.now) }
    ensures err { OnErr result (IsCut out.old (piece_text piece.now) out.new) }
{
    match piece {
        Piece::Bytes(bytes) => out.append(bytes),
        Piece::Symbol(name) => write_symbol(out, name),
        Piece::Size(name) => write_size(out, name),
        Piece::Number(n) => write_number(out, n),
    }
}

/// Appends the pieces. Want of memory leaves the old bytes and perhaps the front of the text.
#[tactic(auto)]
pub fn write_pieces(out: &mut Text, pieces: &[Piece]) -> Result<(), AllocError>
    ensures ok { OnOk result (out.new ≡ out.old ++ pieces_text pieces.now) }
    ensures err { OnErr result (IsCut out.old (pieces_text pieces.now) out.new) }
{
    for piece in pieces {
        write_piece(out, piece)?;
    }
    Ok(())
}
