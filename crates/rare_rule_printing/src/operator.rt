//! Writes operators of rules with their indices, and terms without arguments.
ghost use Rattle.std.specs.Prelude.{◌≡◌, ◌++◌, [], IsTrue, flat_map, OnOk, OnErr};
ghost use Rattle.rare_rule.specs.NodeForms.{is_operator_of_rules};
ghost use Rattle.rare_rule.specs.ParamForms.{all_are_numbers, are_numbers};
ghost use Rattle.rare_rule_printing.specs.RulePrinting.{application_text, bits_text, index_texts, node_text};
ghost use Rattle.rare_rule_printing.specs.inner.RulePieces.{application_opening, bits_opening, indices_and_end, spaced_linear, stands_alone, word_for};
ghost use Rattle.rare_sexpr.specs.Written.{IsCut};

use crate::names::ParamNames;
use crate::sort::write_name;
use rare_base::Text;
use rare_linear::Linear;
use rare_rule::Param;
use rare_scope::write_linear_over;
use rare_sort::Head;
use rare_term_printing::{indexed_word, operator_word, write_led, write_number};
use std::alloc::AllocError;

// Whether the arguments of the operator are not written.
pub fn stands_alone(head: Head) -> bool
    ensures { result ≡ stands_alone head }
{
    matches!(
        head,
        Head::Param(_) | Head::Hole | Head::Numeral(_) | Head::Bits(_) | Head::Literal
    )
}

// An index behind a blank.
fn write_index(params: &[Param], index: &Linear, out: &mut Text) -> Result<(), AllocError>
    requires { IsTrue (are_numbers params.now index.now.parts) }
    ensures ok { OnOk result (out.new ≡ out.old ++ spaced_linear params.now index.now) }
    ensures err { OnErr result (IsCut out.old (spaced_linear params.now index.now) out.new) }
{
    out.push(b' ')?;
    write_linear_over(index, &ParamNames { params }, out)
}

fn write_indices(params: &[Param], indices: &[Linear], out: &mut Text) -> Result<(), AllocError>
    requires { IsTrue (all_are_numbers params.now indices.now) }
    ensures ok { OnOk result
        (out.new ≡ out.old ++ flat_map (spaced_linear params.now) indices.now) }
    ensures err { OnErr result
        (IsCut out.old (flat_map (spaced_linear params.now) indices.now) out.new) }
{
    for index in indices {
        write_index(params, index, out)?;
    }
    Ok(())
}

// Indices, and the end of their list.
fn write_end(params: &[Param], indices: &[Linear], out: &mut Text) -> Result<(), AllocError>
    requires { IsTrue (all_are_numbers params.now indices.now) }
    ensures ok { OnOk result (out.new ≡ out.old ++ indices_and_end params.now indices.now) }
    ensures err { OnErr result
        (IsCut out.old (indices_and_end params.now indices.now) out.new) }
{
    write_indices(params, indices, out)?;
    out.push(b')')
}

// `(bv V`; a value that is no numeral is written `(_ bvV`.
fn write_value(value: u128, out: &mut Text) -> Result<(), AllocError>
    ensures ok { OnOk result (out.new ≡ out.old ++ bits_opening value) }
    ensures err { OnErr result (IsCut out.old (bits_opening value) out.new) }
{
    if value <= i128::MAX.unsigned_abs() {
        write_number(out, b"(bv ", value)
    } else {
        write_number(out, b"(_ bv", value)
    }
}

// A literal of given value.
fn write_given(
    params: &[Param],
    value: u128,
    indices: &[Linear],
    out: &mut Text,
) -> Result<(), AllocError>
    requires { IsTrue (all_are_numbers params.now indices.now) }
    ensures ok { OnOk result
        (out.new ≡ out.old ++ bits_text value (index_texts params.now indices.now)) }
    ensures err { OnErr result
        (IsCut out.old (bits_text value (index_texts params.now indices.now)) out.new) }
{
    write_value(value, out)?;
    write_end(params, indices, out)
}

// Any other literal: `(bv E E)`.
fn write_literal(params: &[Param], indices: &[Linear], out: &mut Text) -> Result<(), AllocError>
    requires { IsTrue (all_are_numbers params.now indices.now) }
    ensures ok { OnOk result
        (out.new ≡ out.old ++ node_text params.now Head.Literal indices.now []) }
    ensures err { OnErr result
        (IsCut out.old (node_text params.now Head.Literal indices.now []) out.new) }
{
    out.append(b"(bv")?;
    write_end(params, indices, out)
}

// The word of an operator with these indices.
fn word_for(head: Head, indices: &[Linear]) -> &'static [u8]
    ensures { result.now ≡ word_for head indices.now }
{
    if indices.is_empty() {
        operator_word(head)
    } else {
        indexed_word(head)
    }
}

// The beginning of an application: `(op E ..`.
pub fn write_opening(
    params: &[Param],
    head: Head,
    indices: &[Linear],
    out: &mut Text,
) -> Result<(), AllocError>
    requires { IsTrue (all_are_numbers params.now indices.now) }
    ensures ok { OnOk result
        (out.new ≡ out.old ++ application_opening params.now head indices.now) }
    ensures err { OnErr result
        (IsCut out.old (application_opening params.now head indices.now) out.new) }
{
    write_led(out, b"(", word_for(head, indices))?;
    write_indices(params, indices, out)
}

// An application without arguments.
fn write_bare(
    params: &[Param],
    head: Head,
    indices: &[Linear],
    out: &mut Text,
) -> Result<(), AllocError>
    requires { IsTrue (all_are_numbers params.now indices.now) }
    ensures ok { OnOk result
        (out.new ≡ out.old ++ application_text head (index_texts params.now indices.now) []) }
    ensures err { OnErr result
        (IsCut out.old (application_text head (index_texts params.now indices.now) []) out.new) }
{
    write_opening(params, head, indices, out)?;
    out.push(b')')
}

// A term without arguments, or one whose arguments are not written.
pub fn write_leaf(
    params: &[Param],
    head: Head,
    indices: &[Linear],
    out: &mut Text,
) -> Result<(), AllocError>
    requires head { IsTrue (is_operator_of_rules params.now head) }
    requires indices { IsTrue (all_are_numbers params.now indices.now) }
    ensures ok { OnOk result (out.new ≡ out.old ++ node_text params.now head indices.now []) }
    ensures err { OnErr result
        (IsCut out.old (node_text params.now head indices.now []) out.new) }
{
    match head {
        Head::Param(k) => write_name(params, k, out),
        Head::Hole => out.append(b"_"),
        Head::True => out.append(b"true"),
        Head::False => out.append(b"false"),
        Head::Numeral(n) => write_number(out, b"", n),
        Head::Bits(value) => write_given(params, value, indices, out),
        Head::Literal => write_literal(params, indices, out),
        head => write_bare(params, head, indices, out),
    }
}
