//! Commands that say something of a problem, by the number of their items.
ghost use Rattle.std.specs.Prelude.{drop};
ghost use Rattle.rare_sexpr.specs.Tree.{items_of};
ghost use Rattle.rare_sort.specs.Ids.{Extends};
ghost use Rattle.rare_text.specs.ProblemText.{command_by};
ghost use Rattle.rare_text.specs.Stated.{stated_problem};
ghost use Rattle.rare_text.specs.inner.Standing.{AnswersReader, IsProblemOf};

use crate::assumptions::read_assumption;
use crate::commands::CommandWord;
use crate::declarations::{
    read_constant_declaration, read_function_declaration, read_sort_declaration,
    read_width_declaration,
};
use crate::reader::ProblemReader;
use crate::terms::{read_definition, read_rewrite};
use rare_base::{Fault, Reason};
use rare_scope::refusal_at;
use rare_sexpr::Expr;
use rare_term::Terms;
use std::alloc::Global;

/// The problem with the command `(declare-sort N 0)`.
pub fn take_sort<E: Expr, T: Terms>(
    alloc: Global,
    e: &E,
    terms: &mut T,
    reader: ProblemReader,
) -> Result<ProblemReader, Fault>
    requires held { IsProblemOf (T.state terms.old) reader.problem }
    ensures read { AnswersReader (T.state terms.new) result
        (command_by (stated_problem (T.state terms.old) reader.problem)
        (E.tree e.now) CommandWord.DeclareSort (drop 1 (items_of (E.tree e.now)))) }
    ensures grows { Extends (T.state terms.old).trees (T.state terms.new).trees }
{
    if e.len() != 3 {
        return Err(refusal_at(e, Reason::BadForm));
    }
    read_sort_declaration(alloc, e.item(1), e.item(2), terms, reader)
}

/// The problem with the command `(declare-const N S)`.
pub fn take_constant<E: Expr, T: Terms>(
    alloc: Global,
    e: &E,
    terms: &mut T,
    reader: ProblemReader,
) -> Result<ProblemReader, Fault>
    requires held { IsProblemOf (T.state terms.old) reader.problem }
    ensures read { AnswersReader (T.state terms.new) result
        (command_by (stated_problem (T.state terms.old) reader.problem)
        (E.tree e.now) CommandWord.DeclareConst (drop 1 (items_of (E.tree e.now)))) }
    ensures grows { Extends (T.state terms.old).trees (T.state terms.new).trees }
{
    if e.len() != 3 {
        return Err(refusal_at(e, Reason::BadForm));
    }
    read_constant_declaration(alloc, e.item(1), e.item(2), terms, reader)
}

/// The problem with the command `(declare-fun N (S ..) S)`.
pub fn take_function<E: Expr, T: Terms>(
    alloc: Global,
    e: &E,
    terms: &mut T,
    reader: ProblemReader,
) -> Result<ProblemReader, Fault>
    requires held { IsProblemOf (T.state terms.old) reader.problem }
    ensures read { AnswersReader (T.state terms.new) result
        (command_by (stated_problem (T.state terms.old) reader.problem)
        (E.tree e.now) CommandWord.DeclareFun (drop 1 (items_of (E.tree e.now)))) }
    ensures grows { Extends (T.state terms.old).trees (T.state terms.new).trees }
{
    if e.len() != 4 {
        return Err(refusal_at(e, Reason::BadForm));
    }
    read_function_declaration(alloc, e.item(1), e.item(2), e.item(3), terms, reader)
}

/// The problem with the command `(define-fun N () S t)`.
pub fn take_definition<E: Expr, T: Terms>(
    alloc: Global,
    e: &E,
    terms: &mut T,
    reader: ProblemReader,
) -> Result<ProblemReader, Fault>
    requires held { IsProblemOf (T.state terms.old) reader.problem }
    ensures read { AnswersReader (T.state terms.new) result
        (command_by (stated_problem (T.state terms.old) reader.problem)
        (E.tree e.now) CommandWord.DefineFun (drop 1 (items_of (E.tree e.now)))) }
    ensures grows { Extends (T.state terms.old).trees (T.state terms.new).trees }
{
    if e.len() != 5 {
        return Err(refusal_at(e, Reason::BadForm));
    }
    read_definition(
        alloc,
        e.item(1),
        e.item(2),
        e.item(3),
        e.item(4),
        terms,
        reader,
    )
}

/// The problem with the command `(declare-width N V)`.
pub fn take_width<E: Expr, T: Terms>(
    alloc: Global,
    e: &E,
    terms: &mut T,
    reader: ProblemReader,
) -> Result<ProblemReader, Fault>
    requires held { IsProblemOf (T.state terms.old) reader.problem }
    ensures read { AnswersReader (T.state terms.new) result
        (command_by (stated_problem (T.state terms.old) reader.problem)
        (E.tree e.now) CommandWord.DeclareWidth (drop 1 (items_of (E.tree e.now)))) }
    ensures grows { Extends (T.state terms.old).trees (T.state terms.new).trees }
{
    if e.len() != 3 {
        return Err(refusal_at(e, Reason::BadForm));
    }
    read_width_declaration(alloc, e.item(1), e.item(2), terms, reader)
}

/// The problem with the command `(assume-width C)`.
pub fn take_assumption<E: Expr, T: Terms>(
    alloc: Global,
    e: &E,
    terms: &mut T,
    reader: ProblemReader,
) -> Result<ProblemReader, Fault>
    requires held { IsProblemOf (T.state terms.old) reader.problem }
    ensures read { AnswersReader (T.state terms.new) result
        (command_by (stated_problem (T.state terms.old) reader.problem)
        (E.tree e.now) CommandWord.AssumeWidth (drop 1 (items_of (E.tree e.now)))) }
    ensures grows { Extends (T.state terms.old).trees (T.state terms.new).trees }
{
    if e.len() != 2 {
        return Err(refusal_at(e, Reason::BadForm));
    }
    read_assumption(alloc, e, e.item(1), terms, reader)
}

/// The problem with the command `(rewrite N t s)`.
pub fn take_rewrite<E: Expr, T: Terms>(
    alloc: Global,
    e: &E,
    terms: &mut T,
    reader: ProblemReader,
) -> Result<ProblemReader, Fault>
    requires held { IsProblemOf (T.state terms.old) reader.problem }
    ensures read { AnswersReader (T.state terms.new) result
        (command_by (stated_problem (T.state terms.old) reader.problem)
        (E.tree e.now) CommandWord.Rewrite (drop 1 (items_of (E.tree e.now)))) }
    ensures grows { Extends (T.state terms.old).trees (T.state terms.new).trees }
{
    if e.len() != 4 {
        return Err(refusal_at(e, Reason::BadForm));
    }
    read_rewrite(alloc, e, e.item(1), e.item(2), e.item(3), terms, reader)
}
