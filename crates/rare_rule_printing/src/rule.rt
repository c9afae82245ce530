//! Writes rules.
ghost use Rattle.std.specs.Prelude.{◌≡◌, ◌++◌, All, IfSome, OnOk, OnErr};
ghost use Rattle.std.specs.Option.{option_map};
ghost use Rattle.rare_rule.specs.Rules.{IsInForm};
ghost use Rattle.rare_rule_printing.specs.RulePrinting.{rule_text, rule_word};
ghost use Rattle.rare_rule_printing.specs.inner.Printable.{IsPrintable};
ghost use Rattle.rare_rule_printing.specs.inner.RulePieces.{context_text, premises_text, rule_opening, sides_text, spaced_term};
ghost use Rattle.rare_sexpr.specs.Written.{IsCut};

use crate::bounds::write_bounds;
use crate::params::write_params;
use crate::term::{write_term, write_terms};
use rare_base::Text;
use rare_rule::{Param, Rule, RuleKind};
use rare_sexpr::write_symbol;
use rare_sort::Tree;
use std::alloc::AllocError;

fn rule_word(kind: RuleKind) -> &'static [u8]
    ensures { result.now ≡ rule_word kind }
{
    match kind {
        RuleKind::Plain => b"define-rule",
        RuleKind::Cond => b"define-cond-rule",
        RuleKind::Fixed => b"define-rule*",
    }
}

// `(define-rule NAME`, and a blank.
fn write_opening(rule: &Rule, out: &mut Text) -> Result<(), AllocError>
    ensures ok { OnOk result (out.new ≡ out.old ++ rule_opening rule.now) }
    ensures err { OnErr result (IsCut out.old (rule_opening rule.now) out.new) }
{
    out.push(b'(')?;
    out.append(rule_word(rule.kind))?;
    out.push(b' ')?;
    write_symbol(out, rule.name.bytes())?;
    out.push(b' ')
}

// A term behind a blank.
fn write_spaced(params: &[Param], tree: &Tree, out: &mut Text) -> Result<(), AllocError>
    requires { IsPrintable params.now tree.now }
    ensures ok { OnOk result (out.new ≡ out.old ++ spaced_term params.now tree.now) }
    ensures err { OnErr result (IsCut out.old (spaced_term params.now tree.now) out.new) }
{
    out.push(b' ')?;
    write_term(params, tree, out)
}

// The premise of a conditional rule, behind a blank: one, or `and` of more.
fn write_premises(params: &[Param], premises: &[Tree], out: &mut Text) -> Result<(), AllocError>
    requires { All (IsPrintable params.now) premises.now }
    ensures ok { OnOk result (out.new ≡ out.old ++ premises_text params.now premises.now) }
    ensures err { OnErr result
        (IsCut out.old (premises_text params.now premises.now) out.new) }
{
    if premises.len() < 2 {
        return write_terms(params, premises, out);
    }
    out.append(b" (and")?;
    write_terms(params, premises, out)?;
    out.push(b')')
}

// The context, behind a blank, where there is one.
fn write_context(params: &[Param], context: Option<&Tree>, out: &mut Text) -> Result<(), AllocError>
    requires { IfSome context (λ t. IsPrintable params.now t.now) }
    ensures ok { OnOk result
        (out.new ≡ out.old ++ context_text params.now (option_map (λ t. t.now) context.entry)) }
    ensures err { OnErr result
        (IsCut out.old (context_text params.now (option_map (λ t. t.now) context.entry)) out.new) }
{
    match context {
        Some(tree) => write_spaced(params, tree, out),
        None => Ok(()),
    }
}

// Left side, right side and context, each behind a blank.
fn write_sides(rule: &Rule, out: &mut Text) -> Result<(), AllocError>
    requires { IsInForm rule.now }
    ensures ok { OnOk result (out.new ≡ out.old ++ sides_text rule.now) }
    ensures err { OnErr result (IsCut out.old (sides_text rule.now) out.new) }
{
    let params = rule.params.items();
    write_spaced(params, &rule.left, out)?;
    write_spaced(params, &rule.right, out)?;
    write_context(params, rule.context.as_ref(), out)
}

/// Appends a rule, without a line feed.
///
/// Want of memory leaves the old bytes and perhaps the front of the text.
pub fn print_rule(rule: &Rule, out: &mut Text) -> Result<(), AllocError>
    requires { IsInForm rule.now }
    ensures ok { OnOk result (out.new ≡ out.old ++ rule_text rule.now) }
    ensures err { OnErr result (IsCut out.old (rule_text rule.now) out.new) }
{
    let params = rule.params.items();
    write_opening(rule, out)?;
    write_params(params, out)?;
    write_bounds(params, rule.bounds.items(), out)?;
    write_premises(params, rule.premises.items(), out)?;
    write_sides(rule, out)?;
    out.push(b')')
}
