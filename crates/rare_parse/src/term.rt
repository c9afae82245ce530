//! Terms of rules, read from expressions.
ghost use Rattle.std.specs.Prelude.{◌≡◌, IfOk};
ghost use Rattle.rare_parse.specs.RuleTermText.{rule_term_at};
ghost use Rattle.rare_parse.specs.inner.TermReading.{only_tree, IsMeasured};
ghost use Rattle.rare_scope.specs.Answers.{Answers};

use crate::literal::{read_atom, read_decimal_literal, read_linear_literal};
use crate::measured::{ReadTerm, application, no_arguments, with_argument};
use crate::names::RuleNames;
use crate::operator::read_operator;
use rare_base::{Fault, Reason};
use rare_scope::{is_list, is_word_at, refusal_at};
use rare_sexpr::Expr;
use std::alloc::Global;

/// The term that an expression spells over the parameters of a rule, with its measures, or its first fault.
/// Its forms are atoms, literals, and applications of operators, whose indices stand behind `_` or are the
/// first items behind the operator. No sort is asked of its parts.
///
/// Errors are, each at the first expression that has it, those of `read_atom`, `read_decimal_literal`,
/// `read_linear_literal`, `read_operator` and `application`; `BadForm` at the empty list; and want of
/// memory.
#[tactic(auto, using(rare_sexpr::proofs::Counting::depth_falls))]
pub fn read_term<E: Expr>(alloc: Global, e: &E, names: &RuleNames) -> Result<ReadTerm, Fault>
    ensures read { Answers (only_tree result) (rule_term_at names.now (E.tree e.now)) }
    ensures measured { IfOk result IsMeasured }
{
    if !is_list(e) {
        return read_atom(alloc, e, names);
    }
    if e.len() == 0 {
        return Err(refusal_at(e, Reason::BadForm));
    }
    let head = e.item(0);
    if is_word_at(head, "_") {
        return read_decimal_literal(alloc, e);
    }
    if is_word_at(head, "bv") {
        return read_linear_literal(alloc, e, names);
    }
    let applied = read_operator(alloc, e, head, names)?;
    let mut arguments = no_arguments(alloc);
    for k in applied.first..e.len() {
        let argument = read_term(alloc, e.item(k), names)?;
        let Ok(more) = with_argument(arguments, argument) else {
            return Err(Fault::Memory);
        };
        arguments = more;
    }
    application(e, applied.operator, arguments)
}
