//! Terms and equations compared by their ids.
ghost use Rattle.std.specs.Prelude.{◌≡◌, ◌<◌, [], length};
ghost use Rattle.rare_sort.specs.Ids.{tree_at};
ghost use Rattle.rare_sort.specs.Sameness.{tree_eq, head_eq, linear_eq, linears_eq};
ghost use Rattle.rare_sort.specs.Trees.{indices_of, node};
ghost use Rattle.rare_sort.specs.declared.head.Head.TheVariants.{True};
ghost use Rattle.rare_proof.specs.Sided.{AreSides, AllAreSides, equation_of, equations_of};
ghost use Rattle.rare_proof.specs.Steps.{equation_eq, equations_eq, have_same_head};

use crate::sides::Sides;
use rare_linear::Linear;
use rare_term::{Head, TermId, Terms, is_same_head};

fn same_head(a: Head, b: Head) -> bool
    ensures { result ≡ head_eq a b }
{
    is_same_head(a, b)
}

fn same_index(a: &Linear, b: &Linear) -> bool
    ensures { result ≡ linear_eq a.now b.now }
{
    a.is_same(b)
}

/// Whether two ids are of one term: equal trees have equal ids.
pub(crate) fn same_term<T: Terms>(terms: &T, a: TermId, b: TermId) -> bool
    requires a { a.0 < length (T.state terms.now).trees }
    requires b { b.0 < length (T.state terms.now).trees }
    ensures { result ≡ tree_eq (tree_at (T.state terms.now).trees a.0)
        (tree_at (T.state terms.now).trees b.0) }
{
    a.0 == b.0
}

/// Whether two equations are one.
pub fn same_equation<T: Terms>(terms: &T, a: Sides, b: Sides) -> bool
    requires a { AreSides (length (T.state terms.now).trees) a }
    requires b { AreSides (length (T.state terms.now).trees) b }
    ensures { result ≡ equation_eq (equation_of (T.state terms.now).trees a)
        (equation_of (T.state terms.now).trees b) }
{
    same_term(terms, a.left, b.left) && same_term(terms, a.right, b.right)
}

/// Whether two lists are of the same equations, in order.
pub(crate) fn same_equations<T: Terms>(terms: &T, a: &[Sides], b: &[Sides]) -> bool
    requires a { AllAreSides (length (T.state terms.now).trees) a.now }
    requires b { AllAreSides (length (T.state terms.now).trees) b.now }
    ensures { result ≡ equations_eq (equations_of (T.state terms.now).trees a.now)
        (equations_of (T.state terms.now).trees b.now) }
{
    if a.len() != b.len() {
        return false;
    }
    for k in 0..a.len() {
        if !same_equation(terms, a[k], b[k]) {
            return false;
        }
    }
    true
}

// Whether the operators of two terms have the same indices.
fn same_indices<T: Terms>(terms: &T, sides: Sides) -> bool
    requires { AreSides (length (T.state terms.now).trees) sides }
    ensures { result ≡ linears_eq (indices_of (tree_at (T.state terms.now).trees sides.left.0))
        (indices_of (tree_at (T.state terms.now).trees sides.right.0)) }
{
    let count = terms.index_count(sides.left);
    if count != terms.index_count(sides.right) {
        return false;
    }
    for k in 0..count {
        if !same_index(terms.index(sides.left, k), terms.index(sides.right, k)) {
            return false;
        }
    }
    true
}

/// Whether two terms have one operator with the same indices, and as many arguments.
pub(crate) fn same_shape<T: Terms>(terms: &T, sides: Sides) -> bool
    requires { AreSides (length (T.state terms.now).trees) sides }
    ensures { result ≡ have_same_head (tree_at (T.state terms.now).trees sides.left.0)
        (tree_at (T.state terms.now).trees sides.right.0) }
{
    same_head(terms.head(sides.left), terms.head(sides.right))
        && same_indices(terms, sides)
        && terms.arg_count(sides.left) == terms.arg_count(sides.right)
}

/// Whether a term is `true`.
pub(crate) fn is_truth<T: Terms>(terms: &T, id: TermId) -> bool
    requires { id.0 < length (T.state terms.now).trees }
    ensures { result ≡ tree_eq (node True [] []) (tree_at (T.state terms.now).trees id.0) }
{
    same_head(terms.head(id), Head::True) && terms.index_count(id) == 0 && terms.arg_count(id) == 0
}
