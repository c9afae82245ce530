//! Terms that are values.
ghost use Rattle.std.specs.Prelude.{◌≡◌, ◌<◌, ℕ, length};
ghost use Rattle.rare_sort.specs.Ids.{tree_at};
ghost use Rattle.rare_sort.specs.Trees.{args_of, indices_of};
ghost use Rattle.rare_sort.specs.declared.head.Head.TheVariants as head;
ghost use Rattle.rare_inst.specs.Admission as spec;

use rare_sort::{Head, TermId, number_of};
use rare_term::Terms;

/// The greatest width of a bit vector that is a value.
const WIDEST: i128 = 128;

fn is_positive(head: Head) -> bool
    ensures { result ≡ spec.is_positive head }
{
    match head {
        Head::Numeral(n) => n > 0,
        _ => false,
    }
}

fn is_width_of_value(width: Option<i128>) -> bool
    ensures { result ≡ spec.is_width_of_value width }
{
    match width {
        Some(width) => 0 <= width && width <= WIDEST,
        None => false,
    }
}

/// Whether the only argument is a numeral above 0.
fn negates_numeral<T: Terms>(terms: &T, id: TermId) -> bool
    requires { id.0 < length (T.state terms.now).trees }
    ensures { let t = tree_at (T.state terms.now).trees id.0 in
        result ≡ spec.is_value head.Neg (indices_of t) (args_of t) }
{
    if terms.arg_count(id) != 1 {
        return false;
    }
    is_positive(terms.head(terms.arg(id, 0)))
}

/// Whether the only index is a width of bit vectors that are values.
fn is_narrow<T: Terms>(terms: &T, id: TermId) -> bool
    requires { id.0 < length (T.state terms.now).trees }
    ensures { let t = tree_at (T.state terms.now).trees id.0 in
        (v : ℕ) → result ≡ spec.is_value (head.Bits v) (indices_of t) (args_of t) }
{
    if terms.index_count(id) != 1 {
        return false;
    }
    is_width_of_value(number_of(terms.index(id, 0)))
}

/// Whether the term is `true`, `false`, a numeral, the negation of a numeral above 0, or a literal of
/// given value and given width up to 128.
pub(crate) fn is_value_term<T: Terms>(terms: &T, id: TermId) -> bool
    requires { id.0 < length (T.state terms.now).trees }
    ensures { result ≡ spec.is_value_term (tree_at (T.state terms.now).trees id.0) }
{
    match terms.head(id) {
        Head::True | Head::False | Head::Numeral(_) => true,
        Head::Neg => negates_numeral(terms, id),
        Head::Bits(_) => is_narrow(terms, id),
        _ => false,
    }
}
