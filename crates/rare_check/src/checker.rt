//! A checker of a proof that comes in pieces.
ghost use Rattle.std.specs.Prelude.{◌≡◌, ◌+◌, ◌-◌, ◌^◌, ◌≤◌, ◌++◌, List, [], ℕ, length, Some, None, IfOk, IfErr, IfSome, OnOk, Ok, Err};
ghost use Rattle.rare_scope.specs.Names.{AreMeant};
ghost use Rattle.rare_text.specs.Stated.{HaveIds, stated_problem};
ghost use Rattle.rare_check.specs.Checking.{start, answer, Refuses};
ghost use Rattle.rare_meaning.specs.Interpretations.{FunctionClass};
ghost use Rattle.rare_check.specs.Verdicts.{IsSound, ShippedHold, checked};

use crate::checking::take_commands;
use crate::judged::Judged;
use crate::report::Report;
use crate::reporting::report_of;
use rare_base::Fault;
use rare_rule::Book;
use rare_sexpr::Reader;
use rare_term::Terms;
use rare_text::Problem;
use std::alloc::Global;
use std::marker::Model;

/// Checks the proof of a problem, which comes in pieces of any size.
///
/// Contracts see what it holds: the problem, the book of rules, the names so far, the equations that the
/// steps so far conclude, which rewrites are concluded, which rules of the book steps name, the first command
/// that is not valid, the bytes that are not yet taken, and the fault that stands.
#[derive(Drop)]
pub struct Checker<T: Terms> {
    alloc: Global,
    terms: T,
    book: Book,
    problem: Problem,
    // How many names the problem has before the proof.
    known: usize,
    judged: Judged,
    reader: Reader,
    stopped: Option<Fault>,
}

impl<T: Terms> Model for Checker<T> {
    ghost use Rattle.rare_check.specs.Checking.{Checking};
    ghost use Rattle.rare_check.specs.inner.Kept.{checking_of, IsKept};
    ghost use Rattle.rare_sort.specs.contracts.sort.Sort as sort;
    ghost use Rattle.rare_sort.specs.contracts.tree.Tree as e;
    ghost use Rattle.rare_sort.specs.contracts.declarations.Declarations as d;
    ghost use Rattle.std.specs.Coded.{codes};

    ghost Value = { Checking };

    ghost coded = { Prim.hlevel (codes, sort.the_row.coded, e.the_row.coded, d.the_row.coded) };

    ghost view = { λ c. checking_of (T.state c.terms) c.book c.known c.problem c.judged c.reader c.stopped };

    ghost invariant = { λ c. IsKept (T.state c.terms) c.book c.known c.problem c.judged c.reader };
}

impl<T: Terms + Drop> Checker<T> {
    /// A checker that was fed nothing, for a problem that was read into these terms, by the rules of a
    /// book, of which those that are shipped hold. With the bytes of a whole proof it answers what the
    /// proof comes to.
    pub fn new(alloc: Global, terms: T, book: Book, problem: Problem) -> Checker<T>
        requires ids { HaveIds (length (T.state terms).trees) problem.rewrites }
        requires names { AreMeant (T.state terms) problem.scope }
        requires shipped { (c : FunctionClass) → ShippedHold c book }
        ensures held { result ≡ start book (stated_problem (T.state terms) problem) }
        ensures whole { (proof : List ℕ) → answer result proof
            ≡ checked book (stated_problem (T.state terms) problem) proof }
    {
        let known = problem.scope.len();
        let _rules = book.len();
        Checker {
            alloc,
            terms,
            book,
            problem,
            known,
            judged: Judged::new(alloc),
            reader: Reader::new(alloc),
            stopped: None,
        }
    }

    /// Takes the next bytes of the proof's text, which has at most 2^32 - 2 bytes.
    ///
    /// A refusal is the first fault of the text, whatever bytes follow. After a refusal or want of
    /// memory every later call gives the same.
    pub fn feed(&mut self, bytes: &[u8]) -> Result<(), Fault>
        requires { self.old.left.fed + length bytes.now ≤ 2 ^ 32 - 2 }
        ensures ok { OnOk result ((rest : List ℕ) → answer self.new rest
            ≡ answer self.old (bytes.now ++ rest)) }
        ensures fed { OnOk result (self.new.left.fed ≡ self.old.left.fed + length bytes.now) }
        ensures at_most { self.new.left.fed ≤ self.old.left.fed + length bytes.now }
        ensures going { OnOk result (self.new.stopped ≡ None) }
        ensures refused { IfErr result (λ fault. (rest : List ℕ)
            → Refuses fault (answer self.old (bytes.now ++ rest))) }
        ensures stands { IfErr result (λ fault. self.new.stopped ≡ Some fault) }
        ensures again { IfSome self.old.stopped (λ fault. result ≡ Err fault) }
        ensures problem { self.new.problem ≡ self.old.problem }
        ensures book { self.new.book ≡ self.old.book }
    {
        if let Some(fault) = self.stopped {
            return Err(fault);
        }
        match self.take(bytes) {
            Ok(()) => Ok(()),
            Err(fault) => {
                self.stopped = Some(fault);
                Err(fault)
            }
        }
    }

    // Takes the next bytes, where no fault stands yet.
    fn take(&mut self, bytes: &[u8]) -> Result<(), Fault>
        requires short { self.old.left.fed + length bytes.now ≤ 2 ^ 32 - 2 }
        requires going { self.old.stopped ≡ None }
        ensures ok { OnOk result ((rest : List ℕ) → answer self.new rest
            ≡ answer self.old (bytes.now ++ rest)) }
        ensures fed { OnOk result (self.new.left.fed ≡ self.old.left.fed + length bytes.now) }
        ensures at_most { self.new.left.fed ≤ self.old.left.fed + length bytes.now }
        ensures refused { IfErr result (λ fault. (rest : List ℕ)
            → Refuses fault (answer self.old (bytes.now ++ rest))) }
        ensures going { self.new.stopped ≡ None }
        ensures problem { self.new.problem ≡ self.old.problem }
        ensures book { self.new.book ≡ self.old.book }
    {
        let Ok(()) = self.reader.feed(bytes) else {
            return Err(Fault::Memory);
        };
        take_commands(
            self.alloc,
            &mut self.terms,
            &self.book,
            self.problem.rewrites.items(),
            &mut self.problem.scope,
            &mut self.judged,
            &mut self.reader,
        )
    }

    /// Tells the end of the proof's text, and gives the report on it. An error is the first fault of
    /// the text, or want of memory. Where the rules that the report calls trusted hold, both sides of each
    /// rewrite with the verdict valid have one value in every interpretation: by finite maps where the
    /// rules hold by these, by all functions where the rules do, and so where none is trusted.
    pub fn finish(self) -> Result<Report, Fault>
        ensures report { IfOk result (λ report. answer self [] ≡ Ok report) }
        ensures refused { IfErr result (λ fault. Refuses fault (answer self [])) }
        ensures again { IfSome self.stopped (λ fault. result ≡ Err fault) }
        ensures sound { IfOk result (IsSound self.book self.problem) }
    {
        match self.stopped {
            Some(fault) => Err(fault),
            None => self.report_at_end(),
        }
    }

    // The report on a text that is whole, where no fault stands yet.
    fn report_at_end(self) -> Result<Report, Fault>
        requires going { self.stopped ≡ None }
        ensures report { IfOk result (λ report. answer self [] ≡ Ok report) }
        ensures refused { IfErr result (λ fault. Refuses fault (answer self [])) }
        ensures sound { IfOk result (IsSound self.book self.problem) }
    {
        let Checker {
            alloc,
            mut terms,
            book,
            problem,
            mut judged,
            mut reader,
            ..
        } = self;
        let Problem {
            rewrites,
            mut scope,
            ..
        } = problem;
        reader.end();
        let rewrites = rewrites.items();
        take_commands(
            alloc,
            &mut terms,
            &book,
            rewrites,
            &mut scope,
            &mut judged,
            &mut reader,
        )?;
        match report_of(alloc, &book, rewrites, judged) {
            Ok(report) => Ok(report),
            Err(_) => Err(Fault::Memory),
        }
    }
}
