//! Reads a file of rules into a book.
ghost use Rattle.std.specs.Prelude.{◌≡◌, ◌++◌, ◌∷◌, [], ◌^◌, ◌-◌, ◌≤◌, length, false, OnOk, OnErr};
ghost use Rattle.rare_rule.specs.Books.{book_rule};
ghost use Rattle.rare_rule.specs.Rules.{IsInForm};
ghost use Rattle.rare_scope.specs.Answers.{Answers};
ghost use Rattle.rare_scope.specs.Reading.{go_on};
ghost use Rattle.rare_parse.specs.RuleText.{rule_at};
ghost use Rattle.rare_type.specs.FirstCase.{rule_typing};
ghost use Rattle.rare_book.specs.RuleFile.{AnswersBook, book_of, typed_by};
ghost use Rattle.rare_book.specs.inner.Adding.{AddsRule};

use rare_base::{Fault, Reason};
use rare_parse::read_rule;
use rare_rule::{Book, BookError, Rule, Typed};
use rare_scope::refusal_at;
use rare_sexpr::{Expr, Next, Reader};
use rare_type::{TypeError, type_rule};
use std::alloc::Global;

// The rule that a command states, with its typing.
fn typed<E: Expr>(alloc: Global, e: &E, rule: Rule) -> Result<Typed, Fault>
    requires { IsInForm rule }
    ensures { Answers result (typed_by (E.tree e.now) rule (rule_typing rule)) }
{
    match type_rule(alloc, rule) {
        Ok(typed) => Ok(typed),
        Err(TypeError::Clash) => Err(refusal_at(e, Reason::Clash)),
        Err(TypeError::NonLinear) => Err(refusal_at(e, Reason::NonLinear)),
        Err(TypeError::TooLarge) => Err(refusal_at(e, Reason::TermLimit)),
        Err(TypeError::NeverHolds) => Err(refusal_at(e, Reason::NeverHolds)),
        Err(TypeError::Memory) => Err(Fault::Memory),
    }
}

// The typed rule that a command states.
fn read_typed<E: Expr>(alloc: Global, e: &E) -> Result<Typed, Fault>
    ensures { Answers result
        (go_on (rule_at (E.tree e.now)) (λ r. typed_by (E.tree e.now) r (rule_typing r))) }
{
    match read_rule(alloc, e) {
        Ok(rule) => typed(alloc, e, rule),
        Err(fault) => Err(fault),
    }
}

// Adds the rule that a command states.
fn add_rule<E: Expr>(alloc: Global, e: &E, book: &mut Book) -> Result<(), Fault>
    ensures { AddsRule book.old (E.tree e.now) result book.new }
{
    let rule = read_typed(alloc, e)?;
    match book.add(rule, false) {
        Ok(()) => Ok(()),
        Err(BookError::DuplicateName) => Err(refusal_at(e, Reason::DuplicateName)),
        Err(BookError::Memory) => Err(Fault::Memory),
    }
}

/// Adds the rules of a text of at most `2^32 - 2` bytes behind those of the book, which stay as they are.
/// Each rule is read, typed and added before the next. After an error the rules before it stay.
///
/// Errors are those of reading expressions; at a rule those of `read_rule`, then `Clash`, `NonLinear`,
/// `TermLimit` and `NeverHolds` where it doesn't type, then `DuplicateName` where its name stands in the
/// book; and want of memory.
pub fn read_book(alloc: Global, bytes: &[u8], book: &mut Book) -> Result<(), Fault>
    requires { length bytes.now ≤ 2 ^ 32 - 2 }
    ensures { AnswersBook book.old result book.new (book_of book.old bytes.now) }
{
    let mut source = Reader::new(alloc);
    let Ok(()) = source.feed(bytes) else {
        return Err(Fault::Memory);
    };
    source.end();
    loop {
        match source.next_command() {
            Ok(Next::Command(e)) => add_rule(alloc, &e, book)?,
            Ok(Next::Finished) => return Ok(()),
            Ok(Next::NeedMore) => unreachable!(),
            Err(fault) => return Err(fault),
        }
    }
}
