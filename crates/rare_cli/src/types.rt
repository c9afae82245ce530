//! The list of the rules of a file with their constraints.
ghost use Rattle.std.specs.Prelude.{◌≡◌, ◌++◌, ◌≤◌, IsTrue, IfOk, OnOk, List, ℕ};
ghost use Rattle.std.specs.List.{flat_map};
ghost use Rattle.rare_base.specs.Reads.{ReadInTurn};
ghost use Rattle.rare_cli.specs.Calls.{library};
ghost use Rattle.rare_cli.specs.Outcomes.{rule_line, spaced_constraint, types_outcome};
ghost use Rattle.rare_cli.specs.WordForms.{rules_files};
ghost use Rattle.rare_cli.specs.inner.Prepared.{answer_outcome, name_held, IsListed};
ghost use Rattle.rare_rule.specs.Rules.{IsInForm};
ghost use Rattle.rare_rule.specs.ParamForms.{are_bounds};

use crate::outcome::{Answer, Stop};
use crate::rules::read_rules;
use rare_base::{Library, Status, Text};
use rare_linear::Constraint;
use rare_rule::{Book, Rule, Typed};
use rare_rule_printing::print_constraint;
use rare_sexpr::write_symbol;
use std::alloc::{AllocError, Global};

// Appends the constraints of a rule, each behind a blank.
fn write_constraints(
    out: &mut Text,
    rule: &Rule,
    constraints: &[Constraint],
) -> Result<(), AllocError>
    requires form { IsInForm rule.now }
    requires names { IsTrue (are_bounds rule.now.params constraints.now) }
    ensures { OnOk result
        (out.new ≡ out.old ++ flat_map (spaced_constraint rule.now.params) constraints.now) }
{
    for constraint in constraints {
        out.push(b' ')?;
        print_constraint(rule, constraint, out)?;
    }
    Ok(())
}

// Appends the line of a rule: its name, then its constraints.
fn write_rule(out: &mut Text, typed: &Typed) -> Result<(), AllocError>
    ensures { OnOk result (out.new ≡ out.old ++ rule_line typed.now) }
{
    let rule = typed.rule();
    write_symbol(out, rule.name.bytes())?;
    write_constraints(out, rule, typed.constraints())?;
    out.push(b'\n')
}

// The lines of the rules of a book.
fn types_of(alloc: Global, book: &Book) -> Result<Answer, AllocError>
    ensures { IfOk result (λ a. answer_outcome a ≡ types_outcome book.now) }
{
    let mut text = Text::new(alloc);
    for k in 0..book.len() {
        write_rule(&mut text, book.rule(k))?;
    }
    Ok(Answer {
        text,
        status: Status::AllGood,
    })
}

/// The list of the rules of a file with their constraints; without a file it is empty.
pub fn list_types<L: Library>(
    alloc: Global,
    rules: Option<&[u8]>,
    files: &mut L,
) -> Result<Answer, Stop>
    ensures listed { IsListed (library L.text L.faults files.old files.new)
        (name_held rules.entry) result }
    ensures texts { (w : List ℕ) → L.text files.new w ≡ L.text files.old w }
    ensures later { (w : List ℕ) → L.faults files.old w ≤ L.faults files.new w }
    ensures reads { ReadInTurn (L.reads files.old) (L.reads files.new)
        (rules_files (name_held rules.entry)) }
{
    let book = read_rules(alloc, rules, files)?;
    Ok(types_of(alloc, &book)?)
}
