//! Linear expressions and sorts, written over the names of a scope.
ghost use Rattle.std.specs.Prelude.{◌≡◌, ◌++◌, ◌<◌, pos, IsTrue, length, OnOk, OnErr};
ghost use Rattle.std.specs.Ordering.{int_eq};
ghost use Rattle.rare_linear.specs.Linears.{NamesBelow};
ghost use Rattle.rare_scope.specs.Names.{width_names};
ghost use Rattle.rare_scope.specs.Printing.{bit_vectors_text, is_named, linear_text, linear_text_by, number_text, part_text_by, sort_text};
ghost use Rattle.rare_scope.specs.inner.Pieces.{end_text, whole_sum};
ghost use Rattle.rare_sexpr.specs.Written.{IsCut};

use crate::pieces::{Piece, write_pieces};
use crate::scope::Scope;
use crate::written::WrittenNames;
use rare_base::Text;
use rare_linear::Linear;
use rare_sexpr::write_symbol;
use rare_term::Sort;
use std::alloc::AllocError;

fn is_one(n: &i128) -> bool
    ensures { result ≡ int_eq n.now (pos 1) }
{
    *n == 1
}

fn has_no_constant(linear: &Linear) -> bool
    ensures { result ≡ int_eq linear.now.constant (pos 0) }
{
    linear.offset() == 0
}

fn write_constant(out: &mut Text, linear: &Linear) -> Result<(), AllocError>
    ensures ok { OnOk result (out.new ≡ out.old ++ number_text linear.now.constant) }
    ensures err { OnErr result (IsCut out.old (number_text linear.now.constant) out.new) }
{
    write_pieces(out, &[Piece::Number(&linear.offset())])
}

// A part of a linear expression, behind some bytes.
fn write_part<'x, N: WrittenNames>(
    out: &mut Text,
    lead: &'x [u8],
    part: &'x (u32, i128),
    names: &'x N,
) -> Result<(), AllocError>
    requires { part.now.0 < N.count names.now }
    ensures ok { OnOk result
        (out.new ≡ out.old ++ (lead.now ++ part_text_by (N.text names.now) part.now)) }
    ensures err { OnErr result
        (IsCut out.old (lead.now ++ part_text_by (N.text names.now) part.now) out.new) }
{
    let (k, coefficient) = part;
    let name = names.piece(*k);
    if is_one(coefficient) {
        write_pieces(out, &[Piece::Bytes(lead), name])
    } else {
        write_pieces(
            out,
            &[
                Piece::Bytes(lead),
                Piece::Bytes(b"(* "),
                Piece::Number(coefficient),
                Piece::Bytes(b" "),
                name,
                Piece::Bytes(b")"),
            ],
        )
    }
}

// The constant of a sum, where it is not 0, and the end of the sum.
fn write_end(out: &mut Text, linear: &Linear) -> Result<(), AllocError>
    ensures ok { OnOk result (out.new ≡ out.old ++ end_text linear.now.constant) }
    ensures err { OnErr result (IsCut out.old (end_text linear.now.constant) out.new) }
{
    if has_no_constant(linear) {
        out.append(b")")
    } else {
        write_pieces(
            out,
            &[
                Piece::Bytes(b" "),
                Piece::Number(&linear.offset()),
                Piece::Bytes(b")"),
            ],
        )
    }
}

fn write_sum<N: WrittenNames>(out: &mut Text, linear: &Linear, names: &N) -> Result<(), AllocError>
    requires { NamesBelow (N.count names.now) linear.now.parts }
    ensures ok { OnOk result (out.new ≡ out.old ++ whole_sum (N.text names.now) linear.now) }
    ensures err { OnErr result (IsCut out.old (whole_sum (N.text names.now) linear.now) out.new) }
{
    out.append(b"(+")?;
    let parts = linear.parts();
    for part in parts {
        write_part(out, b" ", part, names)?;
    }
    write_end(out, linear)
}

/// Appends a linear expression, by how its names are written: its parts in the order of the names, then
/// the constant where it is not 0 or there are no parts. A part is `n` or `(* c n)`, more than one text
/// stands in `(+ ..)`, and a negative number is `(- k)`.
///
/// Want of memory leaves the old bytes and perhaps the front of the text.
pub fn write_linear_over<N: WrittenNames>(
    linear: &Linear,
    names: &N,
    out: &mut Text,
) -> Result<(), AllocError>
    requires { NamesBelow (N.count names.now) linear.now.parts }
    ensures ok { OnOk result (out.new ≡ out.old ++ linear_text_by (N.text names.now) linear.now) }
    ensures err { OnErr result
        (IsCut out.old (linear_text_by (N.text names.now) linear.now) out.new) }
{
    let parts = linear.parts();
    if parts.len() == 0 {
        return write_constant(out, linear);
    }
    if parts.len() > 1 {
        return write_sum(out, linear, names);
    }
    if !has_no_constant(linear) {
        return write_sum(out, linear, names);
    }
    write_part(out, b"", &parts[0], names)
}

/// Appends a linear expression over the width names of a scope, as `write_linear_over` has it.
///
/// Want of memory leaves the old bytes and perhaps the front of the text.
pub fn write_linear(linear: &Linear, scope: &Scope, out: &mut Text) -> Result<(), AllocError>
    requires { NamesBelow (length (width_names scope.now)) linear.now.parts }
    ensures ok { OnOk result (out.new ≡ out.old ++ linear_text (width_names scope.now) linear.now) }
    ensures err { OnErr result
        (IsCut out.old (linear_text (width_names scope.now) linear.now) out.new) }
{
    write_linear_over(linear, scope, out)
}

fn write_bit_vectors(width: &Linear, scope: &Scope, out: &mut Text) -> Result<(), AllocError>
    requires { NamesBelow (length (width_names scope.now)) width.now.parts }
    ensures ok { OnOk result (out.new ≡ out.old ++ bit_vectors_text scope.now width.now) }
    ensures err { OnErr result (IsCut out.old (bit_vectors_text scope.now width.now) out.new) }
{
    out.append(b"(_ BitVec ")?;
    write_linear(width, scope, out)?;
    out.push(b')')
}

/// Appends a sort over the names of a scope.
///
/// Want of memory leaves the old bytes and perhaps the front of the text.
pub fn write_sort(sort: &Sort, scope: &Scope, out: &mut Text) -> Result<(), AllocError>
    requires { IsTrue (is_named scope.now sort.now) }
    ensures ok { OnOk result (out.new ≡ out.old ++ sort_text scope.now sort.now) }
    ensures err { OnErr result (IsCut out.old (sort_text scope.now sort.now) out.new) }
{
    match sort {
        Sort::Bool => out.append(b"Bool"),
        Sort::Int => out.append(b"Int"),
        Sort::BitVec(width) => write_bit_vectors(width, scope, out),
        Sort::Array(keys, entries) => {
            out.append(b"(Array ")?;
            write_sort(keys.get(), scope, out)?;
            out.push(b' ')?;
            write_sort(entries.get(), scope, out)?;
            out.push(b')')
        }
        Sort::Named(k) => write_symbol(out, scope.sort_name(*k)),
    }
}
