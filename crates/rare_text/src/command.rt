//! A command of a problem.
ghost use Rattle.std.specs.Prelude.{drop};
ghost use Rattle.rare_sexpr.specs.Tree.{items_of};
ghost use Rattle.rare_sort.specs.Ids.{Extends};
ghost use Rattle.rare_text.specs.ProblemText.{command_by, with_command};
ghost use Rattle.rare_text.specs.Stated.{stated_problem};
ghost use Rattle.rare_text.specs.inner.Standing.{AnswersReader, IsProblemOf};

use crate::commands::{CommandWord, read_command_word};
use crate::passing::{pass_info, pass_logic, pass_option};
use crate::reader::ProblemReader;
use crate::taking::{
    take_assumption, take_constant, take_definition, take_function, take_rewrite, take_sort,
    take_width,
};
use rare_base::{Fault, Reason};
use rare_scope::refusal_at;
use rare_sexpr::Expr;
use rare_term::Terms;
use std::alloc::Global;

// The problem with the command of this word.
fn take_by_word<E: Expr, T: Terms>(
    alloc: Global,
    e: &E,
    word: CommandWord,
    terms: &mut T,
    reader: ProblemReader,
) -> Result<ProblemReader, Fault>
    requires held { IsProblemOf (T.state terms.old) reader.problem }
    ensures read { AnswersReader (T.state terms.new) result
        (command_by (stated_problem (T.state terms.old) reader.problem)
        (E.tree e.now) word (drop 1 (items_of (E.tree e.now)))) }
    ensures grows { Extends (T.state terms.old).trees (T.state terms.new).trees }
{
    match word {
        CommandWord::SetLogic => pass_logic(e, terms, reader),
        CommandWord::SetInfo => pass_info(e, terms, reader),
        CommandWord::SetOption => pass_option(e, terms, reader),
        CommandWord::DeclareSort => take_sort(alloc, e, terms, reader),
        CommandWord::DeclareConst => take_constant(alloc, e, terms, reader),
        CommandWord::DeclareFun => take_function(alloc, e, terms, reader),
        CommandWord::DefineFun => take_definition(alloc, e, terms, reader),
        CommandWord::DeclareWidth => take_width(alloc, e, terms, reader),
        CommandWord::AssumeWidth => take_assumption(alloc, e, terms, reader),
        CommandWord::Rewrite => take_rewrite(alloc, e, terms, reader),
    }
}

/// The problem with one command more, or the first fault of the command: `BadForm` at one that is no list, or
/// whose first item is no symbol.
pub fn take_command<E: Expr, T: Terms>(
    alloc: Global,
    e: &E,
    terms: &mut T,
    reader: ProblemReader,
) -> Result<ProblemReader, Fault>
    requires held { IsProblemOf (T.state terms.old) reader.problem }
    ensures read { AnswersReader (T.state terms.new) result
        (with_command (stated_problem (T.state terms.old) reader.problem) (E.tree e.now)) }
    ensures grows { Extends (T.state terms.old).trees (T.state terms.new).trees }
{
    if e.len() == 0 {
        return Err(refusal_at(e, Reason::BadForm));
    }
    let word = read_command_word(e, e.item(0))?;
    take_by_word(alloc, e, word, terms, reader)
}
