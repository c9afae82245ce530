//! Terms, written.
ghost use Rattle.std.specs.Prelude.{◌≡◌, ◌++◌, ◌<◌, ◌≤◌, length, OnOk, OnErr};
ghost use Rattle.std.specs.Prelude.{codes};
ghost use Rattle.rare_scope.specs.Names.{symbol_names, width_names};
ghost use Rattle.rare_sexpr.specs.Written.{IsCut};
ghost use Rattle.rare_sort.specs.DeclaredSorts.{widths};
ghost use Rattle.rare_sort.specs.Ids.{tree_at, trees_at, AreIds};
ghost use Rattle.rare_sort.specs.Trees.{head_of, indices_of};
ghost use Rattle.rare_term_printing.specs.OperatorTexts.{operator_text};
ghost use Rattle.rare_term_printing.specs.TermPrinting.{term_text};
ghost use Rattle.rare_term_printing.specs.inner.Writing.{id_from, spaced_part};

use crate::operator::write_operator;
use crate::text::write_number;
use rare_base::Text;
use rare_scope::Scope;
use rare_term::{Ids, TermId, Terms};
use std::alloc::AllocError;

// The number of an id among others, from 1.
fn number_of(ids: &[TermId], id: TermId) -> Option<usize>
    ensures { result ≡ id_from 1 ids.now id }
{
    for (k, other) in ids.iter().enumerate() {
        if other.0 == id.0 {
            return Some(k + 1);
        }
    }
    None
}

// The beginning of an application: `(` and the operator.
fn write_opening<T: Terms>(
    terms: &T,
    id: TermId,
    scope: &Scope,
    out: &mut Text,
) -> Result<(), AllocError>
    requires id { id.0 < length (T.state terms.now).trees }
    requires symbols { length (T.state terms.now).declared.symbols ≤ length
        (symbol_names scope.now) }
    requires widths { widths (T.state terms.now).declared ≤ length (width_names scope.now) }
    ensures ok { OnOk result
        (out.new ≡ out.old ++
        (codes "(" ++ operator_text scope.now (head_of (tree_at (T.state terms.now).trees id.0))
        (indices_of (tree_at (T.state terms.now).trees id.0)))) }
    ensures err { OnErr result
        (IsCut out.old (codes
        "(" ++ operator_text scope.now (head_of (tree_at (T.state terms.now).trees id.0))
        (indices_of (tree_at (T.state terms.now).trees id.0))) out.new) }
{
    out.push(b'(')?;
    write_operator(terms, id, scope, out)
}

// A part of a term behind a blank: its name where it is shared.
#[cycle(printing)]
fn write_part<T: Terms>(
    terms: &T,
    id: TermId,
    scope: &Scope,
    shared: &Ids,
    out: &mut Text,
) -> Result<(), AllocError>
    requires id { id.0 < length (T.state terms.now).trees }
    requires shared { AreIds (length (T.state terms.now).trees) shared.now }
    requires symbols { length (T.state terms.now).declared.symbols ≤ length
        (symbol_names scope.now) }
    requires widths { widths (T.state terms.now).declared ≤ length (width_names scope.now) }
    ensures ok { OnOk result
        (out.new ≡ out.old ++ spaced_part scope.now
        (trees_at (T.state terms.now).trees shared.now) (tree_at (T.state terms.now).trees id.0)) }
    ensures err { OnErr result
        (IsCut out.old (spaced_part scope.now (trees_at (T.state terms.now).trees shared.now)
        (tree_at (T.state terms.now).trees id.0)) out.new) }
{
    match number_of(shared.items(), id) {
        Some(k) => write_number(out, b" @", k as u128),
        None => {
            out.push(b' ')?;
            write_term(terms, id, scope, shared, out)
        }
    }
}

/// Appends a term over the names of a scope, as SMT-LIB 2.6 has terms: a literal of given value and
/// width is `(_ bvV W)`, any other `(bv E E)`. A proper part that is entry `k`, from 1, of `shared` is
/// written `@k`; the term itself is written out. The scope has a name for each declared symbol and
/// width, and the ids are of these terms.
///
/// Want of memory leaves the old bytes and perhaps the front of the text.
#[cycle(printing)]
pub fn write_term<T: Terms>(
    terms: &T,
    id: TermId,
    scope: &Scope,
    shared: &Ids,
    out: &mut Text,
) -> Result<(), AllocError>
    requires id { id.0 < length (T.state terms.now).trees }
    requires shared { AreIds (length (T.state terms.now).trees) shared.now }
    requires symbols { length (T.state terms.now).declared.symbols ≤ length
        (symbol_names scope.now) }
    requires widths { widths (T.state terms.now).declared ≤ length (width_names scope.now) }
    ensures ok { OnOk result
        (out.new ≡ out.old ++ term_text scope.now (trees_at (T.state terms.now).trees shared.now)
        (tree_at (T.state terms.now).trees id.0)) }
    ensures err { OnErr result
        (IsCut out.old (term_text scope.now (trees_at (T.state terms.now).trees shared.now)
        (tree_at (T.state terms.now).trees id.0)) out.new) }
{
    if terms.arg_count(id) == 0 {
        return write_operator(terms, id, scope, out);
    }
    write_opening(terms, id, scope, out)?;
    'arguments: for k in 0..terms.arg_count(id) {
        write_part(terms, terms.arg(id, k), scope, shared, out)?;
    }
    out.push(b')')
}
