//! Operators with their indices, written.
ghost use Rattle.std.specs.Prelude.{◌≡◌, ◌++◌, ◌<◌, ◌≤◌, length, OnOk, OnErr};
ghost use Rattle.std.specs.Fmt.{decimal};
ghost use Rattle.rare_linear.specs.Linears.{NamesBelow};
ghost use Rattle.rare_scope.specs.Names.{symbol_names, width_names};
ghost use Rattle.rare_sexpr.specs.Written.{IsCut};
ghost use Rattle.rare_sort.specs.DeclaredSorts.{widths};
ghost use Rattle.rare_sort.specs.Ids.{tree_at};
ghost use Rattle.rare_sort.specs.Trees.{head_of, indices_of};
ghost use Rattle.rare_term_printing.specs.OperatorTexts.{index_texts, operator_text, word_text};
ghost use Rattle.rare_term_printing.specs.inner.Writing.{indices_end, spaced_index};

use crate::text::{write_led, write_number};
use crate::words::{indexed_word, operator_word};
use rare_base::Text;
use rare_linear::Linear;
use rare_scope::{Scope, write_linear};
use rare_sexpr::write_symbol;
use rare_term::{Head, TermId, Terms};
use std::alloc::AllocError;

// An index behind a blank.
fn write_index(out: &mut Text, index: &Linear, scope: &Scope) -> Result<(), AllocError>
    requires { NamesBelow (length (width_names scope.now)) index.now.parts }
    ensures ok { OnOk result (out.new ≡ out.old ++ spaced_index scope.now index.now) }
    ensures err { OnErr result (IsCut out.old (spaced_index scope.now index.now) out.new) }
{
    out.push(b' ')?;
    write_linear(index, scope, out)
}

// The indices of the operator of a term, and the end of their list.
fn write_indices<T: Terms>(
    terms: &T,
    id: TermId,
    scope: &Scope,
    out: &mut Text,
) -> Result<(), AllocError>
    requires id { id.0 < length (T.state terms.now).trees }
    requires widths { widths (T.state terms.now).declared ≤ length (width_names scope.now) }
    ensures ok { OnOk result
        (out.new ≡ out.old ++ indices_end scope.now
        (indices_of (tree_at (T.state terms.now).trees id.0))) }
    ensures err { OnErr result
        (IsCut out.old (indices_end scope.now
        (indices_of (tree_at (T.state terms.now).trees id.0))) out.new) }
{
    for k in 0..terms.index_count(id) {
        write_index(out, terms.index(id, k), scope)?;
    }
    out.push(b')')
}

// A word alone, or the list of `_`, the word and the indices.
fn write_word<T: Terms>(
    terms: &T,
    id: TermId,
    head: Head,
    scope: &Scope,
    out: &mut Text,
) -> Result<(), AllocError>
    requires id { id.0 < length (T.state terms.now).trees }
    requires widths { widths (T.state terms.now).declared ≤ length (width_names scope.now) }
    ensures ok { OnOk result
        (out.new ≡ out.old ++ word_text head
        (index_texts scope.now (indices_of (tree_at (T.state terms.now).trees id.0)))) }
    ensures err { OnErr result
        (IsCut out.old (word_text head
        (index_texts scope.now (indices_of (tree_at (T.state terms.now).trees id.0)))) out.new) }
{
    if terms.index_count(id) == 0 {
        return out.append(operator_word(head));
    }
    write_led(out, b"(_ ", indexed_word(head))?;
    write_indices(terms, id, scope, out)
}

// A literal of given value: `(_ bvV W)`.
fn write_given<T: Terms>(
    terms: &T,
    id: TermId,
    value: u128,
    scope: &Scope,
    out: &mut Text,
) -> Result<(), AllocError>
    requires id { id.0 < length (T.state terms.now).trees }
    requires widths { widths (T.state terms.now).declared ≤ length (width_names scope.now) }
    ensures ok { OnOk result
        (out.new ≡ out.old ++ operator_text scope.now (Head.Bits value)
        (indices_of (tree_at (T.state terms.now).trees id.0))) }
    ensures err { OnErr result
        (IsCut out.old (operator_text scope.now (Head.Bits value)
        (indices_of (tree_at (T.state terms.now).trees id.0))) out.new) }
{
    write_number(out, b"(_ bv", value)?;
    write_indices(terms, id, scope, out)
}

// Any other literal: `(bv E E)`.
fn write_literal<T: Terms>(
    terms: &T,
    id: TermId,
    scope: &Scope,
    out: &mut Text,
) -> Result<(), AllocError>
    requires id { id.0 < length (T.state terms.now).trees }
    requires widths { widths (T.state terms.now).declared ≤ length (width_names scope.now) }
    ensures ok { OnOk result
        (out.new ≡ out.old ++ operator_text scope.now Head.Literal
        (indices_of (tree_at (T.state terms.now).trees id.0))) }
    ensures err { OnErr result
        (IsCut out.old (operator_text scope.now Head.Literal
        (indices_of (tree_at (T.state terms.now).trees id.0))) out.new) }
{
    out.append(b"(bv")?;
    write_indices(terms, id, scope, out)
}

// The operator of a term with its indices. Want of memory leaves the old bytes and perhaps the front of
// the text.
pub fn write_operator<T: Terms>(
    terms: &T,
    id: TermId,
    scope: &Scope,
    out: &mut Text,
) -> Result<(), AllocError>
    requires id { id.0 < length (T.state terms.now).trees }
    requires symbols { length (T.state terms.now).declared.symbols ≤ length
        (symbol_names scope.now) }
    requires widths { widths (T.state terms.now).declared ≤ length (width_names scope.now) }
    ensures ok { OnOk result
        (out.new ≡ out.old ++ operator_text scope.now
        (head_of (tree_at (T.state terms.now).trees id.0))
        (indices_of (tree_at (T.state terms.now).trees id.0))) }
    ensures err { OnErr result
        (IsCut out.old (operator_text scope.now (head_of (tree_at (T.state terms.now).trees id.0))
        (indices_of (tree_at (T.state terms.now).trees id.0))) out.new) }
{
    match terms.head(id) {
        Head::Numeral(n) => write_number(out, b"", n),
        Head::Bits(value) => write_given(terms, id, value, scope, out),
        Head::Literal => write_literal(terms, id, scope, out),
        Head::Free(k) => write_symbol(out, scope.symbol_name(k)),
        head => write_word(terms, id, head, scope, out),
    }
}
