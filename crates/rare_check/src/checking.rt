//! Reading and judging the commands of a proof, one by one.
ghost use Rattle.std.specs.Prelude.{◌≡◌, List, ℕ, [], true, length, Ok, OnOk, IfErr};
ghost use Rattle.rare_proof_text.specs.Commands.{DefinesNew, IsCommandOf, command_at};
ghost use Rattle.rare_proof_text.specs.ProofText.{proof_command};
ghost use Rattle.rare_proof_text.specs.ProofCommands.{names_behind};
ghost use Rattle.rare_scope.specs.Names.{names_of, AreMeant};
ghost use Rattle.rare_sexpr.specs.Commands.{Commands, put_first, no_commands};
ghost use Rattle.rare_sexpr.specs.Streams.{commands_left};
ghost use Rattle.rare_sexpr.specs.declared.tree.Sexpr.{Sexpr};
ghost use Rattle.rare_text.specs.declared.problem.Rewrite.{Rewrite};
ghost use Rattle.rare_check.specs.Checking.{Refuses};
ghost use Rattle.rare_check.specs.inner.Judging.{NamesKnown};
ghost use Rattle.rare_check.specs.inner.Kept.{IsHeld, IsNotedBehind, Keeps, answer_with};
ghost use Rattle.rare_check.specs.inner.Progress.{named_after};
ghost use Rattle.rare_sort.specs.declared.tree.Tree.{Tree};

use crate::judged::Judged;
use crate::judging::judge;
use rare_base::Fault;
use rare_proof::valid_steps_are_true;
use rare_proof_text::{ReadCommand, read_command};
use rare_rule::Book;
use rare_scope::Scope;
use rare_sexpr::{Expr, Next, Reader};
use rare_term::Terms;
use rare_text::Rewrite;
use std::alloc::{AllocError, Global};

// The names behind a command. Where memory is wanting, they stay.
fn define<E: Expr, T: Terms>(
    terms: &T,
    scope: &mut Scope,
    command: &ReadCommand<'_, E>,
) -> Result<(), AllocError>
    requires meant { AreMeant (T.state terms.now) scope.old }
    requires ids { IsCommandOf (T.state terms.now) command.now }
    requires new { DefinesNew scope.old command.now }
    ensures names { OnOk result (names_of (T.state terms.now).trees scope.new
        ≡ names_behind (names_of (T.state terms.now).trees scope.old)
        (command_at E.tree (T.state terms.now).trees command.now)) }
    ensures meant { AreMeant (T.state terms.now) scope.new }
    ensures keeps { (rewrites : List Rewrite)
        → Keeps (T.state terms.now) scope.old (T.state terms.now) scope.new rewrites }
{
    match command {
        ReadCommand::Define { name, term } => scope.define(name, *term),
        _ => Ok(()),
    }
}

// Notes the rule of the book that a command names. Where memory is wanting, all stays.
fn note<E: Expr>(judged: &mut Judged, command: &ReadCommand<'_, E>) -> Result<(), AllocError>
    ensures named { OnOk result ((ts : List Tree) → judged.new.named.keys
        ≡ named_after judged.old.named.keys (command_at E.tree ts command.now)) }
    ensures rules { OnOk result (NamesKnown judged.new.named.keys command.now) }
    ensures more { IsNotedBehind judged.old judged.new }
{
    match command {
        ReadCommand::Step(step) => judged.note_rule(&step.rule),
        _ => Ok(()),
    }
}

// Keeps the name that a command defines and the rule that it names, and judges it.
fn follow<E: Expr, T: Terms>(
    alloc: Global,
    terms: &mut T,
    book: &Book,
    rewrites: &[Rewrite],
    scope: &mut Scope,
    judged: &mut Judged,
    command: ReadCommand<'_, E>,
) -> Result<(), AllocError>
    requires held { IsHeld (T.state terms.old) book.now rewrites.now scope.old judged.old }
    requires ids { IsCommandOf (T.state terms.old) command }
    requires new { DefinesNew scope.old command }
    ensures ok { OnOk result ((e : Sexpr) (rest : Commands) →
        proof_command (T.state terms.old).declared (names_of (T.state terms.old).trees scope.old)
        book.now e
        ≡ Ok (command_at E.tree (T.state terms.old).trees command.entry) →
        answer_with (T.state terms.old) book.now rewrites.now scope.old judged.old
        (put_first e rest)
        ≡ answer_with (T.state terms.new) book.now rewrites.now scope.new judged.new rest) }
    ensures held { IsHeld (T.state terms.new) book.now rewrites.now scope.new judged.new }
    ensures keeps { Keeps (T.state terms.old) scope.old (T.state terms.new) scope.new rewrites.now }
{
    valid_steps_are_true();
    define(terms, scope, &command)?;
    note(judged, &command)?;
    judge(alloc, terms, book, rewrites, judged, command)
}

// Reads and judges one command.
fn take_command<E: Expr, T: Terms>(
    alloc: Global,
    e: &E,
    terms: &mut T,
    book: &Book,
    rewrites: &[Rewrite],
    scope: &mut Scope,
    judged: &mut Judged,
) -> Result<(), Fault>
    requires { IsHeld (T.state terms.old) book.now rewrites.now scope.old judged.old }
    ensures ok { OnOk result ((rest : Commands)
        → answer_with (T.state terms.old) book.now rewrites.now scope.old judged.old
        (put_first (E.tree e.now) rest)
        ≡ answer_with (T.state terms.new) book.now rewrites.now scope.new judged.new rest) }
    ensures refused { IfErr result (λ fault. (rest : Commands) →
        Refuses fault (answer_with (T.state terms.old) book.now rewrites.now scope.old judged.old
        (put_first (E.tree e.now) rest))) }
    ensures held { IsHeld (T.state terms.new) book.now rewrites.now scope.new judged.new }
    ensures keeps { Keeps (T.state terms.old) scope.old (T.state terms.new) scope.new rewrites.now }
{
    let command = match read_command(alloc, e, scope, book, terms) {
        Ok(command) => command,
        Err(fault) => return Err(fault),
    };
    match follow(alloc, terms, book, rewrites, scope, judged, command) {
        Ok(()) => Ok(()),
        Err(_) => Err(Fault::Memory),
    }
}

/// Reads and judges the commands that are whole, up to the first fault of the text or to the bytes that
/// are still wanting.
pub fn take_commands<T: Terms>(
    alloc: Global,
    terms: &mut T,
    book: &Book,
    rewrites: &[Rewrite],
    scope: &mut Scope,
    judged: &mut Judged,
    reader: &mut Reader,
) -> Result<(), Fault>
    requires { IsHeld (T.state terms.old) book.now rewrites.now scope.old judged.old }
    ensures ok { OnOk result ((more : List ℕ) → (reader.old.ended ≡ true → more ≡ []) →
        answer_with (T.state terms.old) book.now rewrites.now scope.old judged.old
        (commands_left reader.old more)
        ≡ answer_with (T.state terms.new) book.now rewrites.now scope.new judged.new
        (commands_left reader.new more)) }
    ensures finished { OnOk result (reader.old.ended ≡ true → commands_left reader.new []
        ≡ no_commands) }
    ensures refused { IfErr result (λ fault. (more : List ℕ)
        → (reader.old.ended ≡ true → more ≡ []) →
        Refuses fault (answer_with (T.state terms.old) book.now rewrites.now scope.old judged.old
        (commands_left reader.old more))) }
    ensures held { IsHeld (T.state terms.new) book.now rewrites.now scope.new judged.new }
    ensures keeps { Keeps (T.state terms.old) scope.old (T.state terms.new) scope.new rewrites.now }
    ensures fed { reader.new.fed ≡ reader.old.fed }
    ensures ended { reader.new.ended ≡ reader.old.ended }
{
    loop {
        match reader.next_command() {
            Ok(Next::Command(e)) => take_command(alloc, &e, terms, book, rewrites, scope, judged)?,
            Ok(Next::NeedMore) | Ok(Next::Finished) => return Ok(()),
            Err(fault) => return Err(fault),
        }
    }
}
