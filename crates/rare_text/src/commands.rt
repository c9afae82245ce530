//! The words of commands.
ghost use Rattle.rare_scope.specs.Answers.{Answers};
ghost use Rattle.rare_text.specs.ProblemText.{command_word};

use rare_base::{Fault, Reason};
use rare_scope::{entry_at, is_symbol, refusal_at};
use rare_sexpr::Expr;

/// The word of a command of a problem.
#[derive(Clone, Copy, Debug, PartialEq, Eq)]
pub enum CommandWord {
    SetLogic,
    SetInfo,
    SetOption,
    DeclareSort,
    DeclareConst,
    DeclareFun,
    DefineFun,
    DeclareWidth,
    AssumeWidth,
    Rewrite,
}

const COMMAND_WORDS: [(&str, CommandWord); 10] = [
    ("set-logic", CommandWord::SetLogic),
    ("set-info", CommandWord::SetInfo),
    ("set-option", CommandWord::SetOption),
    ("declare-sort", CommandWord::DeclareSort),
    ("declare-const", CommandWord::DeclareConst),
    ("declare-fun", CommandWord::DeclareFun),
    ("define-fun", CommandWord::DefineFun),
    ("declare-width", CommandWord::DeclareWidth),
    ("assume-width", CommandWord::AssumeWidth),
    ("rewrite", CommandWord::Rewrite),
];

/// The word of the command `e`, whose first item is `head`: `BadForm` at the command where that is no
/// symbol, `UnknownCommand` where it is no word of a command.
pub fn read_command_word<E: Expr>(e: &E, head: &E) -> Result<CommandWord, Fault>
    ensures { Answers result (command_word (E.tree e.now) (E.tree head.now)) }
{
    if !is_symbol(head) {
        return Err(refusal_at(e, Reason::BadForm));
    }
    match entry_at(&COMMAND_WORDS, head.text()) {
        Some(word) => Ok(word),
        None => Err(refusal_at(e, Reason::UnknownCommand)),
    }
}
