//! Writes terms of rules.
ghost use Rattle.std.specs.Prelude.{◌≡◌, ◌++◌, ◌||◌, ◌==◌, length, flat_map, All, OnOk, OnErr};
ghost use Rattle.rare_rule_printing.specs.RulePrinting.{rule_term_text};
ghost use Rattle.rare_rule_printing.specs.inner.Printable.{IsPrintable};
ghost use Rattle.rare_rule_printing.specs.inner.RulePieces.{spaced_term, stands_alone};
ghost use Rattle.rare_sexpr.specs.Written.{IsCut};
ghost use Rattle.rare_sort.specs.Trees.{args_of, head_of};

use crate::operator::{stands_alone, write_leaf, write_opening};
use rare_base::Text;
use rare_rule::Param;
use rare_sort::Tree;
use std::alloc::AllocError;

// Whether no arguments of the term are written.
fn is_leaf(tree: &Tree) -> bool
    ensures { result ≡ ((length (args_of tree.now) == 0) || stands_alone (head_of tree.now)) }
{
    tree.args.is_empty() || stands_alone(tree.head)
}

// A term of a rule.
#[cycle(terms)]
pub fn write_term(params: &[Param], tree: &Tree, out: &mut Text) -> Result<(), AllocError>
    requires { IsPrintable params.now tree.now }
    ensures ok { OnOk result (out.new ≡ out.old ++ rule_term_text params.now tree.now) }
    ensures err { OnErr result (IsCut out.old (rule_term_text params.now tree.now) out.new) }
{
    if is_leaf(tree) {
        return write_leaf(params, tree.head, tree.indices.items(), out);
    }
    write_opening(params, tree.head, tree.indices.items(), out)?;
    write_terms(params, tree.args.items(), out)?;
    out.push(b')')
}

// Terms, each behind a blank.
#[cycle(terms)]
pub fn write_terms(params: &[Param], trees: &[Tree], out: &mut Text) -> Result<(), AllocError>
    requires { All (IsPrintable params.now) trees.now }
    ensures ok { OnOk result (out.new ≡ out.old ++ flat_map (spaced_term params.now) trees.now) }
    ensures err { OnErr result
        (IsCut out.old (flat_map (spaced_term params.now) trees.now) out.new) }
{
    for tree in trees {
        out.push(b' ')?;
        write_term(params, tree, out)?;
    }
    Ok(())
}
