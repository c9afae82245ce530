//! The sides of the equation that a step concludes.
ghost use Rattle.rare_term.specs.State.{Grows};
ghost use Rattle.rare_proof.specs.Sided.{AreSides};
ghost use Rattle.rare_proof_text.specs.ProofText.{clause_by, equation_by, sides_at};
ghost use Rattle.rare_proof_text.specs.inner.Parts.{AnswersAs, pair_at};
ghost use Rattle.rare_scope.specs.Names.{AreMeant, names_of};
ghost use Rattle.rare_scope.specs.Reading.{go_on};
ghost use Rattle.rare_sexpr.specs.Tree.{items_of};
ghost use Rattle.rare_sort.specs.Sameness.{sort_eq};
ghost use Rattle.rare_sort.specs.SortOf.{sort_of};
ghost use Rattle.rare_sort.specs.Ids.{tree_at};
ghost use Rattle.rare_term_text.specs.TermText.{term_at};
ghost use Rattle.rare_text.specs.ProblemText.{sides_of_one_sort};
ghost use Rattle.std.specs.Prelude.{◌≡◌, ◌<◌, IfOk, Ok, length};

use rare_base::{Fault, Reason};
use rare_proof::Sides;
use rare_scope::{Scope, is_word_at, refusal_at};
use rare_sexpr::Expr;
use rare_sort::is_same_sort;
use rare_term::{TermId, Terms};
use rare_term_text::read_term;
use std::alloc::Global;

// Two terms, one after the other.
fn read_terms<E: Expr, T: Terms>(
    alloc: Global,
    a: &E,
    b: &E,
    scope: &Scope,
    terms: &mut T,
) -> Result<Sides, Fault>
    requires { AreMeant (T.state terms.old) scope.now }
    ensures read { AnswersAs (pair_at (T.state terms.new).trees) result
        (go_on (term_at (T.state terms.old).declared (names_of (T.state terms.old).trees scope.now)
        (E.tree a.now))
        (λ s. go_on (term_at (T.state terms.old).declared
        (names_of (T.state terms.old).trees scope.now) (E.tree b.now)) (λ t. Ok (s, t)))) }
    ensures ids { IfOk result (AreSides (length (T.state terms.new).trees)) }
    ensures grows { Grows (T.state terms.old) (T.state terms.new) }
{
    let left = read_term(alloc, a, scope, terms)?;
    let right = read_term(alloc, b, scope, terms)?;
    Ok(Sides { left, right })
}

// `(= a b)`
fn read_equation<E: Expr, T: Terms>(
    alloc: Global,
    e: &E,
    scope: &Scope,
    terms: &mut T,
) -> Result<Sides, Fault>
    requires { AreMeant (T.state terms.old) scope.now }
    ensures read { AnswersAs (pair_at (T.state terms.new).trees) result
        (equation_by (T.state terms.old).declared
        (names_of (T.state terms.old).trees scope.now) (E.tree e.now) (items_of (E.tree e.now))) }
    ensures ids { IfOk result (AreSides (length (T.state terms.new).trees)) }
    ensures grows { Grows (T.state terms.old) (T.state terms.new) }
{
    if e.len() != 3 {
        return Err(refusal_at(e, Reason::BadForm));
    }
    let head = e.item(0);
    let a = e.item(1);
    let b = e.item(2);
    if !is_word_at(head, "=") {
        return Err(refusal_at(head, Reason::BadForm));
    }
    read_terms(alloc, a, b, scope, terms)
}

// `(cl (= a b))`
fn read_clause<E: Expr, T: Terms>(
    alloc: Global,
    e: &E,
    scope: &Scope,
    terms: &mut T,
) -> Result<Sides, Fault>
    requires { AreMeant (T.state terms.old) scope.now }
    ensures read { AnswersAs (pair_at (T.state terms.new).trees) result
        (clause_by (T.state terms.old).declared
        (names_of (T.state terms.old).trees scope.now) (E.tree e.now) (items_of (E.tree e.now))) }
    ensures ids { IfOk result (AreSides (length (T.state terms.new).trees)) }
    ensures grows { Grows (T.state terms.old) (T.state terms.new) }
{
    if e.len() != 2 {
        return Err(refusal_at(e, Reason::BadForm));
    }
    let head = e.item(0);
    let equation = e.item(1);
    if !is_word_at(head, "cl") {
        return Err(refusal_at(head, Reason::BadForm));
    }
    read_equation(alloc, equation, scope, terms)
}

// Whether two terms have one sort.
fn have_one_sort<T: Terms>(terms: &T, a: TermId, b: TermId) -> bool
    requires a { a.0 < length (T.state terms.now).trees }
    requires b { b.0 < length (T.state terms.now).trees }
    ensures { result ≡ sort_eq (sort_of (T.state terms.now).declared.symbols
        (tree_at (T.state terms.now).trees a.0))
        (sort_of (T.state terms.now).declared.symbols (tree_at (T.state terms.now).trees b.0)) }
{
    is_same_sort(terms.sort(a), terms.sort(b))
}

// The sides, where they have one sort.
fn of_one_sort<E: Expr, T: Terms>(e: &E, sides: Sides, terms: &T) -> Result<Sides, Fault>
    requires { AreSides (length (T.state terms.now).trees) sides }
    ensures read { AnswersAs (pair_at (T.state terms.now).trees) result
        (sides_of_one_sort (T.state terms.now).declared (E.tree e.now)
        (tree_at (T.state terms.now).trees sides.left.0)
        (tree_at (T.state terms.now).trees sides.right.0)) }
    ensures ids { IfOk result (AreSides (length (T.state terms.now).trees)) }
{
    if have_one_sort(terms, sides.left, sides.right) {
        Ok(sides)
    } else {
        Err(refusal_at(e, Reason::IllSorted))
    }
}

/// The sides of the equation of a clause, which have one sort, or the first fault; where they have
/// two, the fault of the command.
pub(crate) fn read_sides<E: Expr, T: Terms>(
    alloc: Global,
    e: &E,
    clause: &E,
    scope: &Scope,
    terms: &mut T,
) -> Result<Sides, Fault>
    requires { AreMeant (T.state terms.old) scope.now }
    ensures read { AnswersAs (pair_at (T.state terms.new).trees) result
        (sides_at (T.state terms.old).declared
        (names_of (T.state terms.old).trees scope.now) (E.tree e.now) (E.tree clause.now)) }
    ensures ids { IfOk result (AreSides (length (T.state terms.new).trees)) }
    ensures grows { Grows (T.state terms.old) (T.state terms.new) }
{
    let sides = read_clause(alloc, clause, scope, terms)?;
    of_one_sort(e, sides, terms)
}
