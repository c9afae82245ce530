//! Declarations of sorts, symbols and widths, read from their items.
ghost use Rattle.rare_sort.specs.Ids.{Extends};
ghost use Rattle.rare_text.specs.ProblemText.{sort_declaration, constant_declaration, function_declaration, width_declaration};
ghost use Rattle.rare_text.specs.Stated.{stated_problem};
ghost use Rattle.rare_text.specs.inner.Standing.{AnswersReader, IsProblemOf};

use crate::parts::{is_zero, read_new_name, read_sample, read_sorts};
use crate::reader::ProblemReader;
use rare_base::{Fault, Reason};
use rare_scope::{read_sort, refusal_at};
use rare_sexpr::Expr;
use rare_term::Terms;
use std::alloc::Global;

/// The problem with the sort that `(declare-sort N 0)` declares.
pub fn read_sort_declaration<E: Expr, T: Terms>(
    alloc: Global,
    name: &E,
    arity: &E,
    terms: &mut T,
    reader: ProblemReader,
) -> Result<ProblemReader, Fault>
    requires held { IsProblemOf (T.state terms.old) reader.problem }
    ensures read { AnswersReader (T.state terms.new) result
        (sort_declaration (stated_problem (T.state terms.old) reader.problem) (E.tree name.now)
        (E.tree arity.now)) }
    ensures grows { Extends (T.state terms.old).trees (T.state terms.new).trees }
{
    let sort_name = read_new_name(alloc, name, &reader.problem.scope)?;
    if !is_zero(arity) {
        return Err(refusal_at(arity, Reason::BadForm));
    }
    reader.with_sort(sort_name.bytes(), terms)
}

/// The problem with the constant that `(declare-const N S)` declares.
pub fn read_constant_declaration<E: Expr, T: Terms>(
    alloc: Global,
    name: &E,
    sort: &E,
    terms: &mut T,
    reader: ProblemReader,
) -> Result<ProblemReader, Fault>
    requires held { IsProblemOf (T.state terms.old) reader.problem }
    ensures read { AnswersReader (T.state terms.new) result
        (constant_declaration (stated_problem (T.state terms.old) reader.problem) (E.tree name.now)
        (E.tree sort.now)) }
    ensures grows { Extends (T.state terms.old).trees (T.state terms.new).trees }
{
    let constant_name = read_new_name(alloc, name, &reader.problem.scope)?;
    let gives = read_sort(alloc, sort, &reader.problem.scope, terms)?;
    reader.with_symbol(constant_name.bytes(), &[], &gives, terms)
}

/// The problem with the symbol that `(declare-fun N (S ..) S)` declares.
pub fn read_function_declaration<E: Expr, T: Terms>(
    alloc: Global,
    name: &E,
    args: &E,
    sort: &E,
    terms: &mut T,
    reader: ProblemReader,
) -> Result<ProblemReader, Fault>
    requires held { IsProblemOf (T.state terms.old) reader.problem }
    ensures read { AnswersReader (T.state terms.new) result
        (function_declaration (stated_problem (T.state terms.old) reader.problem)
        (E.tree name.now) (E.tree args.now) (E.tree sort.now)) }
    ensures grows { Extends (T.state terms.old).trees (T.state terms.new).trees }
{
    let function_name = read_new_name(alloc, name, &reader.problem.scope)?;
    let args = read_sorts(alloc, args, &reader.problem.scope, terms)?;
    let gives = read_sort(alloc, sort, &reader.problem.scope, terms)?;
    reader.with_symbol(function_name.bytes(), args.items(), &gives, terms)
}

/// The problem with the width that `(declare-width N V)` declares, and its sample.
pub fn read_width_declaration<E: Expr, T: Terms>(
    alloc: Global,
    name: &E,
    sample: &E,
    terms: &mut T,
    reader: ProblemReader,
) -> Result<ProblemReader, Fault>
    requires held { IsProblemOf (T.state terms.old) reader.problem }
    ensures read { AnswersReader (T.state terms.new) result
        (width_declaration (stated_problem (T.state terms.old) reader.problem) (E.tree name.now)
        (E.tree sample.now)) }
    ensures grows { Extends (T.state terms.old).trees (T.state terms.new).trees }
{
    let width_name = read_new_name(alloc, name, &reader.problem.scope)?;
    let sample = read_sample(sample)?;
    reader.with_width(alloc, width_name.bytes(), sample, terms)
}
