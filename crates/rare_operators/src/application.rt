//! Applications of operators to terms that were read.
ghost use Rattle.std.specs.Prelude.{length};
ghost use Rattle.rare_sort.specs.DeclaredSorts.{widths, AreNamed, IsSymbol};
ghost use Rattle.rare_sort.specs.Families.{family};
ghost use Rattle.rare_sort.specs.Ids.{trees_at, AreIds};
ghost use Rattle.rare_term.specs.Literals.{IsGiven};
ghost use Rattle.rare_operators.specs.Applications.{application_at as reading};
ghost use Rattle.rare_term.specs.State.{Grows};
ghost use Rattle.rare_operators.specs.TermAnswers.{AnswersTerm};

use rare_base::{Fault, Reason};
use rare_linear::Linear;
use rare_scope::refusal_at;
use rare_sexpr::Expr;
use rare_term::{Head, TermError, TermId, Terms};

/// The id of the application of an operator with its indices to arguments, which `e` spells, or its first
/// refusal, at `e`: `TermLimit` above 256 arguments, `IllSorted`, `TermLimit` above the limits of a term.
/// An error is also want of memory.
pub fn application_at<E: Expr, T: Terms>(
    e: &E,
    head: Head,
    indices: &[Linear],
    arguments: &[TermId],
    terms: &mut T,
) -> Result<TermId, Fault>
    requires ids { AreIds (length (T.state terms.old).trees) arguments.now }
    requires symbol { IsSymbol (length (T.state terms.old).declared.symbols) (family head) }
    requires names { AreNamed (widths (T.state terms.old).declared) indices.now }
    requires bits { IsGiven head indices.now }
    ensures read { AnswersTerm (T.state terms.new).trees result
        (reading (T.state terms.old).declared (E.tree e.now) head indices.now
        (trees_at (T.state terms.old).trees arguments.now)) }
    ensures grows { Grows (T.state terms.old) (T.state terms.new) }
{
    match terms.make(head, indices, arguments) {
        Ok(id) => Ok(id),
        Err(TermError::Memory) => Err(Fault::Memory),
        Err(TermError::IllSorted) => Err(refusal_at(e, Reason::IllSorted)),
        Err(TermError::TooManyArgs) | Err(TermError::TooDeep) | Err(TermError::TooLarge) => {
            Err(refusal_at(e, Reason::TermLimit))
        }
    }
}
