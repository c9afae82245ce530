//! Constraints on widths, read and tried at the samples.
ghost use Rattle.std.specs.Prelude.{◌≤ℤ◌, pos, length, All};
ghost use Rattle.rare_linear.specs.Linears.{NamesBelow, linear_value};
ghost use Rattle.rare_sort.specs.Ids.{Extends};
ghost use Rattle.std.specs.Prelude.{Ok};
ghost use Rattle.rare_text.specs.ProblemText.{assumption_of_widths, tested};
ghost use Rattle.rare_text.specs.Problems.{with_floors};
ghost use Rattle.rare_text.specs.Samples.{sample_number};
ghost use Rattle.rare_text.specs.Stated.{stated_problem};
ghost use Rattle.rare_text.specs.inner.Standing.{AnswersReader, IsProblemOf};

use crate::reader::ProblemReader;
use rare_base::{Fault, Reason};
use rare_linear::{Linear, LinearError};
use rare_scope::{read_constraints_over, refusal_at};
use rare_sexpr::Expr;
use rare_term::Terms;
use std::alloc::Global;

// The problem with the constraints that these expressions are at least 0, which they are at the samples.
fn with_each_floor<T: Terms>(
    alloc: Global,
    floors: &[Linear],
    terms: &mut T,
    reader: ProblemReader,
) -> Result<ProblemReader, Fault>
    requires held { IsProblemOf (T.state terms.old) reader.problem }
    requires named { All (λ f. NamesBelow (length reader.problem.samples) f.parts) floors.now }
    requires hold { All (λ f. pos 0 ≤ℤ linear_value (sample_number reader.problem.samples) f)
        floors.now }
    ensures read { AnswersReader (T.state terms.new) result
        (Ok (with_floors floors.now (stated_problem (T.state terms.old) reader.problem))) }
    ensures grows { Extends (T.state terms.old).trees (T.state terms.new).trees }
{
    let mut reader = reader;
    for floor in floors {
        reader = reader.with_floor(alloc, floor, terms)?;
    }
    Ok(reader)
}

// The problem with these constraints, which the item `c` of the command `e` spells, if they hold at the
// samples.
fn with_tested_floors<E: Expr, T: Terms>(
    alloc: Global,
    e: &E,
    c: &E,
    floors: &[Linear],
    terms: &mut T,
    reader: ProblemReader,
) -> Result<ProblemReader, Fault>
    requires held { IsProblemOf (T.state terms.old) reader.problem }
    requires named { All (λ f. NamesBelow (length reader.problem.samples) f.parts) floors.now }
    ensures read { AnswersReader (T.state terms.new) result
        (tested (stated_problem (T.state terms.old) reader.problem) (E.tree e.now) (E.tree c.now)
        floors.now) }
    ensures grows { Extends (T.state terms.old).trees (T.state terms.new).trees }
{
    match reader.hold_at_samples(floors) {
        Ok(true) => with_each_floor(alloc, floors, terms, reader),
        Ok(false) => Err(refusal_at(e, Reason::SampleFails)),
        Err(LinearError::TooLarge) => Err(refusal_at(c, Reason::TermLimit)),
        Err(LinearError::Memory) => Err(Fault::Memory),
    }
}

/// The problem with the constraint that the command `e`, `(assume-width C)`, assumes: `TermLimit` at the
/// constraint where a partial sum leaves `i128` at the samples, `SampleFails` at the command where it is false
/// there.
pub fn read_assumption<E: Expr, T: Terms>(
    alloc: Global,
    e: &E,
    c: &E,
    terms: &mut T,
    reader: ProblemReader,
) -> Result<ProblemReader, Fault>
    requires held { IsProblemOf (T.state terms.old) reader.problem }
    ensures read { AnswersReader (T.state terms.new) result
        (assumption_of_widths (stated_problem (T.state terms.old) reader.problem) (E.tree e.now)
        (E.tree c.now)) }
    ensures grows { Extends (T.state terms.old).trees (T.state terms.new).trees }
{
    let floors = read_constraints_over(alloc, c, &reader.problem.scope)?;
    with_tested_floors(alloc, e, c, floors.items(), terms, reader)
}
