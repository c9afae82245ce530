//! What is written of a report.

ghost use Rattle.std.specs.Prelude.{◌≡◌, ◌<◌, [], ◌∷◌, ◌++◌, All, codes, length, map, OnOk, IfOk};
ghost use Rattle.std.specs.List.{flat_map, list_all, zip};
ghost use Rattle.rare_proof.specs.Words.{number_text};
ghost use Rattle.rare_rule.specs.Books.{rule_names};
ghost use Rattle.rare_sexpr.specs.Written.{written_symbol};
ghost use Rattle.rare_cli.specs.Outcomes.{verdict_text, is_valid, line, rewrite_line, invalid_line, report_lines, report_status, trust_line};
ghost use Rattle.rare_cli.specs.inner.Prepared.{TrustsAmong};

use crate::outcome::Answer;
use rare_base::{Status, Text, Texts};
use rare_check::{Report, Verdict};
use rare_proof::StepFault;
use rare_rule::Book;
use rare_sexpr::write_symbol;
use rare_text::Rewrite;
use std::alloc::{AllocError, Global};

/// The names of the rewrites.
pub fn names_of(alloc: Global, rewrites: &[Rewrite]) -> Result<Texts, AllocError>
    ensures { IfOk result (λ names. names ≡ map (λ r. r.name) rewrites.now) }
{
    let mut names = Texts::new(alloc);
    for rewrite in rewrites {
        names.push(rewrite.name.copy(alloc)?)?;
    }
    Ok(names)
}

fn word_of_verdict(verdict: Verdict) -> &'static [u8]
    ensures { result.now ≡ verdict_text verdict ++ 10 ∷ [] }
{
    match verdict {
        Verdict::Valid => b" valid\n",
        Verdict::Missing => b" open\n",
    }
}

fn write_rewrite(out: &mut Text, name: &[u8], verdict: Verdict) -> Result<(), AllocError>
    ensures { OnOk result (out.new ≡ out.old ++ rewrite_line (name.now, verdict)) }
{
    write_symbol(out, name)?;
    out.append(word_of_verdict(verdict))
}

fn write_verdicts(out: &mut Text, names: &[Text], verdicts: &[Verdict]) -> Result<(), AllocError>
    ensures { OnOk result
        (out.new ≡ out.old ++ flat_map rewrite_line (zip names.now verdicts.now)) }
{
    for (name, verdict) in names.iter().zip(verdicts) {
        write_rewrite(out, name.bytes(), *verdict)?;
    }
    Ok(())
}

fn write_invalid(out: &mut Text, name: &[u8], fault: StepFault) -> Result<(), AllocError>
    ensures { OnOk result (out.new ≡ out.old ++ invalid_line name.now fault) }
{
    out.append(b"invalid ")?;
    write_symbol(out, name)?;
    out.push(b' ')?;
    out.append(fault.word().as_bytes())?;
    write_number(out, fault.number())?;
    out.push(b'\n')
}

// The number of an argument or of a constraint, behind a blank.
fn write_number(out: &mut Text, number: Option<usize>) -> Result<(), AllocError>
    ensures { OnOk result (out.new ≡ out.old ++ number_text number) }
{
    if let Some(k) = number {
        out.push(b' ')?;
        out.append(itoa::Buffer::new().format(k).as_bytes())?;
    }
    Ok(())
}

fn write_trust(out: &mut Text, name: &[u8]) -> Result<(), AllocError>
    ensures { OnOk result
        (out.new ≡ out.old ++ line (codes "trusts " ++ written_symbol name.now)) }
{
    out.append(b"trusts ")?;
    write_symbol(out, name)?;
    out.push(b'\n')
}

fn write_trusted(out: &mut Text, rules: &[Text], trusted: &[usize]) -> Result<(), AllocError>
    requires { All (λ k. k < length rules.now) trusted.now }
    ensures { OnOk result (out.new ≡ out.old ++ flat_map (trust_line rules.now) trusted.now) }
{
    for k in trusted {
        write_trust(out, rules[*k].bytes())?;
    }
    Ok(())
}

fn are_valid(verdicts: &[Verdict]) -> bool
    ensures { result ≡ list_all is_valid verdicts.now }
{
    verdicts
        .iter()
        .all(|verdict| matches!(verdict, Verdict::Valid))
}

/// The names of the rules of a book.
pub fn names_of_rules(alloc: Global, book: &Book) -> Result<Texts, AllocError>
    ensures { IfOk result (λ names. names ≡ rule_names book.now) }
{
    let mut names = Texts::new(alloc);
    for k in 0..book.len() {
        names.push(book.rule(k).rule().name.copy(alloc)?)?;
    }
    Ok(names)
}

/// What is written of a report, over the names of the rewrites and of the rules of the book, and
/// its status.
pub fn answer_on(
    alloc: Global,
    names: &[Text],
    rules: &[Text],
    report: &Report,
) -> Result<Answer, AllocError>
    requires { TrustsAmong (length rules.now) report.now }
    ensures text { IfOk result (λ a. a.text ≡ report_lines names.now rules.now report.now) }
    ensures status { IfOk result (λ a. a.status ≡ report_status report.now) }
{
    let mut text = Text::new(alloc);
    match report {
        Report::Checked { verdicts, trusted } => {
            write_verdicts(&mut text, names, verdicts.items())?;
            write_trusted(&mut text, rules, trusted.items())?;
            let status = if are_valid(verdicts.items()) {
                Status::AllGood
            } else {
                Status::NotAll
            };
            Ok(Answer { text, status })
        }
        Report::Invalid { name, fault } => {
            write_invalid(&mut text, name.bytes(), *fault)?;
            Ok(Answer {
                text,
                status: Status::NotAll,
            })
        }
    }
}
