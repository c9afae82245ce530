//! The run: it reads the files that the words give, has the proof checked, and writes the answer
//! that `outcome` makes. It never writes a byte before the whole answer stands.

ghost use Rattle.std.specs.Prelude.{◌≡◌, ℕ, ◌+◌, ◌-◌, ◌^◌, ◌<◌, ◌≤◌, List, [], ◌∷◌, ◌++◌, length, None, IfOk, IfErr, OnOk};
ghost use Rattle.rare_base.specs.Outside.{most_faults};
ghost use Rattle.rare_base.specs.Reads.{most_file_bytes, ReadInTurn, ReadToEnd};
ghost use Rattle.rare_sort.specs.DeclaredSorts.{nothing_declared};
ghost use Rattle.rare_scope.specs.Names.{AreMeant};
ghost use Rattle.rare_text.specs.Stated.{stated_problem, HaveIds};
ghost use Rattle.rare_check.specs.Checking.{answer, Refuses};
ghost use Rattle.rare_meaning.specs.Interpretations.{FunctionClass};
ghost use Rattle.rare_check.specs.Verdicts.{IsSound, ShippedHold};
ghost use Rattle.rare_cli.specs.WordForms.{files_in, rules_files};
ghost use Rattle.rare_cli.specs.Outcomes.{Outcome};
ghost use Rattle.rare_cli.specs.Calls.{library, sink};
ghost use Rattle.rare_cli.specs.Causes.{Allowed};
ghost use Rattle.rare_cli.specs.Statuses.{Says, RefusesWords, AnswersTexts, EndsWith};
ghost use Rattle.rare_cli.specs.inner.Prepared.{Delivers, outcome_in, Becomes, IsTextOf, IsProblemOf, IsReportOn, IsAnswerOn, IsChecked, name_held, names_asked};

use crate::outcome::{
    Answer, File, FileNames, Form, Stop, out_of_memory, read_fault, read_form, refused, too_long,
    usage,
};
use crate::report::{answer_on, names_of, names_of_rules};
use crate::rules::read_rules;
use crate::text::read_text;
use crate::types::list_types;
use rare_base::{Fault, Library, Sink, Status, Texts, put_whole};
use rare_check::{Checker, Report};
use rare_rule::Book;
use rare_term::{Plain, Terms};
use rare_text::{Problem, read_problem};
use std::alloc::Global;

/// The problem that a file states, read into terms that have no declarations yet.
fn read_problem_file<L: Library, T: Terms>(
    alloc: Global,
    files: &mut L,
    name: &[u8],
    terms: &mut T,
) -> Result<Problem, Stop>
    requires { (T.state terms.old).declared ≡ nothing_declared }
    ensures ids { IfOk result (λ p. HaveIds (length (T.state terms.new).trees) p.rewrites) }
    ensures meant { IfOk result (λ p. AreMeant (T.state terms.new) p.scope) }
    ensures problem { IsProblemOf (library L.text L.faults files.old files.new) name.now
        (T.state terms.new) result }
    ensures texts { (w : List ℕ) → L.text files.new w ≡ L.text files.old w }
    ensures later { (w : List ℕ) → L.faults files.old w ≤ L.faults files.new w }
    ensures reads { ReadInTurn (L.reads files.old) (L.reads files.new) (name.now ∷ []) }
    ensures end { OnOk result (ReadToEnd (L.reads files.old) (L.reads files.new) name.now) }
{
    let text = read_text(alloc, files, name, File::Problem)?;
    match read_problem(alloc, text.bytes(), terms) {
        Ok(problem) => Ok(problem),
        Err(fault) => Err(Stop::of_fault(File::Problem, fault)),
    }
}

// The report of a checker on what is left of a proof.
fn finish_with<T: Terms + Drop>(mut checker: Checker<T>, proof: &[u8]) -> Result<Report, Fault>
    requires { checker.left.fed + length proof.now ≤ 2 ^ 32 - 2 }
    ensures report { IfOk result (λ report. answer checker proof.now ≡ Ok report) }
    ensures refused { IfErr result (λ fault. Refuses fault (answer checker proof.now)) }
    ensures sound { IfOk result (IsSound checker.book checker.problem) }
{
    match checker.feed(proof) {
        Ok(()) => checker.finish(),
        Err(fault) => Err(fault),
    }
}

/// The report on a proof of a problem that was read into these terms, by the rules of a book.
fn report_on<T: Terms + Drop>(
    alloc: Global,
    terms: T,
    book: Book,
    problem: Problem,
    proof: &[u8],
) -> Result<Report, Stop>
    requires ids { HaveIds (length (T.state terms).trees) problem.rewrites }
    requires meant { AreMeant (T.state terms) problem.scope }
    requires shipped { (c : FunctionClass) → ShippedHold c book }
    requires short { length proof.now ≤ most_file_bytes }
    ensures { IsReportOn book (stated_problem (T.state terms) problem) proof.now result }
{
    match finish_with(Checker::new(alloc, terms, book, problem), proof) {
        Ok(report) => Ok(report),
        Err(fault) => Err(Stop::of_fault(File::Proof, fault)),
    }
}

/// The answer on a proof of a problem that was read into these terms, by the rules of a book.
fn judge<T: Terms + Drop>(
    alloc: Global,
    terms: T,
    book: Book,
    problem: Problem,
    proof: &[u8],
) -> Result<Answer, Stop>
    requires ids { HaveIds (length (T.state terms).trees) problem.rewrites }
    requires meant { AreMeant (T.state terms) problem.scope }
    requires shipped { (c : FunctionClass) → ShippedHold c book }
    requires short { length proof.now ≤ most_file_bytes }
    ensures { IsAnswerOn book (stated_problem (T.state terms) problem) proof.now result }
{
    let names = names_of(alloc, problem.rewrites.items())?;
    let rules = names_of_rules(alloc, &book)?;
    let report = report_on(alloc, terms, book, problem, proof)?;
    Ok(answer_on(alloc, names.items(), rules.items(), &report)?)
}

/// The answer on the proof of a file for the problem of another, by the rules of a third.
fn check<L: Library>(alloc: Global, names: FileNames<'_>, files: &mut L) -> Result<Answer, Stop>
    ensures checked { IsChecked (library L.text L.faults files.old files.new)
        (names_asked names.entry) result }
    ensures texts { (w : List ℕ) → L.text files.new w ≡ L.text files.old w }
    ensures later { (w : List ℕ) → L.faults files.old w ≤ L.faults files.new w }
    ensures reads { ReadInTurn (L.reads files.old) (L.reads files.new)
        (rules_files (name_held names.entry.rules)
        ++ names.entry.problem.now ∷ names.entry.proof.now ∷ []) }
{
    let book = read_rules(alloc, names.rules, files)?;
    let mut terms = Plain::new(alloc);
    let problem = read_problem_file(alloc, files, names.problem, &mut terms)?;
    let proof = read_text(alloc, files, names.proof, File::Proof)?;
    judge(alloc, terms, book, problem, proof.bytes())
}

/// What is to be written for these words.
fn prepare<L: Library>(alloc: Global, words: &Texts, files: &mut L) -> Result<Answer, Stop>
    ensures allowed { Allowed (library L.text L.faults files.old files.new) words.now
        (outcome_in result) }
    ensures texts { (w : List ℕ) → L.text files.new w ≡ L.text files.old w }
    ensures later { (w : List ℕ) → L.faults files.old w ≤ L.faults files.new w }
    ensures reads { ReadInTurn (L.reads files.old) (L.reads files.new) (files_in words.now) }
{
    match read_form(words.items()) {
        Some(Form::Check(names)) => check(alloc, names, files),
        Some(Form::Types(rules)) => list_types(alloc, rules, files),
        None => Err(Stop::BadWords),
    }
}

fn deliver<S: Sink>(out: &mut S, bytes: &[u8], status: Status) -> Status
    ensures { Delivers (record { text = bytes.now; status = status }) result
        (sink S.written S.faults out.old out.new) }
{
    match put_whole(out, bytes) {
        Ok(()) => status,
        Err(_) => Status::WriteFault,
    }
}

/// Writes why there is no report. A line that wants memory gives way to the one that says so.
fn tell<S: Sink>(alloc: Global, stop: Stop, out: &mut S) -> Status
    ensures { (o : Outcome) × Becomes stop o
        × Delivers o result (sink S.written S.faults out.old out.new) }
{
    match stop {
        Stop::BadWords => deliver(out, usage(), Status::BadWords),
        Stop::ReadFault(file) => deliver(out, read_fault(file), Status::ReadFault),
        Stop::TooLong(file) => deliver(out, too_long(file), Status::TooLong),
        Stop::Memory => deliver(out, out_of_memory(), Status::Memory),
        Stop::Refused {
            file,
            place,
            reason,
        } => match refused(alloc, file, place, reason) {
            Ok(line) => deliver(out, line.bytes(), Status::BadText),
            Err(_) => deliver(out, out_of_memory(), Status::Memory),
        },
    }
}

fn run_all<L: Library, S: Sink>(alloc: Global, words: &Texts, files: &mut L, out: &mut S) -> Status
    ensures ran { (o : Outcome)
        × Allowed (library L.text L.faults files.old files.new) words.now o
        × Delivers o result (sink S.written S.faults out.old out.new) }
    ensures texts { (w : List ℕ) → L.text files.new w ≡ L.text files.old w }
    ensures later { (w : List ℕ) → L.faults files.old w ≤ L.faults files.new w }
    ensures reads { ReadInTurn (L.reads files.old) (L.reads files.new) (files_in words.now) }
{
    match prepare(alloc, words, files) {
        Ok(answer) => deliver(out, answer.text.bytes(), answer.status),
        Err(stop) => tell(alloc, stop, out),
    }
}

/// Does what the words after the program's name say, and gives the status to end with.
///
/// The words that are a form are `check RULES PROBLEM PROOF` and `types RULES`, where no name
/// begins with `--`, and `-` for the rules is no file. The files are read whole, in the order of
/// the words, and what is wrong with a file comes before what is wrong with those behind it. All of
/// an answer stands before its first byte is written.
pub fn run<L: Library, S: Sink>(alloc: Global, words: &Texts, files: &mut L, out: &mut S) -> Status
    requires files { (w : List ℕ) → L.faults files.old w < most_faults }
    requires out { S.faults out.old < most_faults }
    // What each status says of the files, the words and what was written.
    ensures says { Says (library L.text L.faults files.old files.new) words.now
        (sink S.written S.faults out.old out.new) result }
    // Words that are no form are bad words, unless a put failed.
    ensures bad_words { RefusesWords words.now (sink S.written S.faults out.old out.new) result }
    // Of texts that are told, exactly their outcome, where no count rose.
    ensures told { AnswersTexts (library L.text L.faults files.old files.new) words.now
        (sink S.written S.faults out.old out.new) result }
    // The texts of files stay.
    ensures texts { (w : List ℕ) → L.text files.new w ≡ L.text files.old w }
    // No count of failed reads falls.
    ensures later { (w : List ℕ) → L.faults files.old w ≤ L.faults files.new w }
    // The reads are of the files that the words give, in turn: each byte once, of a file at most
    // the first 2^28 + 1 bytes, and each file to its end before the next is opened.
    ensures reads { ReadInTurn (L.reads files.old) (L.reads files.new) (files_in words.now) }
{
    run_all(alloc, words, files, out)
}

/// Runs the words after the program's name, and gives the number to end with, which is that of the
/// run's status.
pub fn exit_number<L: Library, S: Sink>(
    alloc: Global,
    words: &Texts,
    files: &mut L,
    out: &mut S,
) -> u8
    requires files { (w : List ℕ) → L.faults files.old w < most_faults }
    requires out { S.faults out.old < most_faults }
    ensures ends { EndsWith (library L.text L.faults files.old files.new) words.now
        (sink S.written S.faults out.old out.new) result }
{
    run(alloc, words, files, out).number()
}
