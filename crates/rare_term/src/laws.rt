//! Laws of keepers of terms, as contracts.
ghost use Rattle.std.specs.Prelude.{◌<◌, length};
ghost use Rattle.rare_sort.specs.Ids.{tree_at};
ghost use Rattle.rare_term.specs.Lawful.{IsKeptTerm};

use crate::terms::Terms;

/// Each kept term is a term of the declarations, within the limits: what the trait's standing laws
/// say of the term at a place.
pub fn kept_terms_are_terms<T: Terms>(terms: &T, place: usize)
    requires { place < length (T.state terms.now).trees }
    ensures { IsKeptTerm (T.state terms.now) (tree_at (T.state terms.now).trees place) }
{
    let _ = terms;
    let _ = place;
}
