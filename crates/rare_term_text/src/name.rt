//! Names that a `let` binds, and the words that begin a form.
ghost use Rattle.std.specs.Prelude.{◌≡◌, List};
ghost use Rattle.rare_scope.specs.Answers.{Answers};
ghost use Rattle.rare_scope.specs.Names.{names_of};
ghost use Rattle.rare_sort.specs.declared.tree.Tree.{Tree};
ghost use Rattle.rare_term_text.specs.TermText.{begins_literal, bound_name};

use rare_base::{Fault, Reason, Text};
use rare_bindings::{Bindings, Bound};
use rare_scope::{is_reserved_name, is_symbol, is_word_at, refusal_at};
use rare_sexpr::Expr;
use std::alloc::Global;

// The name of a binding, with these bound before it in the same `let`, or its refusal.
#[tactic(auto, using(crate::proofs::Naming::bound_by))]
pub(crate) fn read_name<E: Expr>(alloc: Global, e: &E, bound: &Bound) -> Result<Text, Fault>
    ensures { (ts : List Tree) →
        Answers result (bound_name (names_of ts bound.now) (E.tree e.now)) }
{
    if !is_symbol(e) {
        return Err(refusal_at(e, Reason::BadForm));
    }
    if is_reserved_name(e.text()) {
        return Err(refusal_at(e, Reason::ReservedSymbol));
    }
    if bound.binds(e.text()) {
        return Err(refusal_at(e, Reason::BadForm));
    }
    match Text::of(alloc, e.text()) {
        Ok(name) => Ok(name),
        Err(_) => Err(Fault::Memory),
    }
}

// Whether an expression is the word `bv`, and no name.
#[tactic(auto, using(crate::proofs::Naming::none_found))]
pub(crate) fn is_literal_word<E: Expr>(e: &E, names: &Bindings) -> bool
    ensures { (ts : List Tree) → result ≡ begins_literal (names_of ts names.now) (E.tree e.now) }
{
    is_word_at(e, "bv") && names.find(b"bv").is_none()
}
