//! The parts of commands that are no terms: words of rules and lists of ids.
ghost use Rattle.std.specs.Prelude.{◌≡◌, IfErr, Ok, OnOk};
ghost use Rattle.rare_proof_text.specs.Commands.{texts_in};
ghost use Rattle.rare_proof_text.specs.ProofText.{ids_at, rule_at, rule_behind};
ghost use Rattle.rare_scope.specs.Answers.{Answers, Fails};

use crate::words::{RuleWord, rule_of};
use rare_base::{Fault, Reason};
use rare_scope::{is_keyword_at, is_list, is_symbol, refusal_at};
use rare_sexpr::Expr;

// The word of a rule that a symbol is.
fn rule_of_word<E: Expr>(e: &E) -> Result<RuleWord, Fault>
    ensures { Answers result (rule_at (E.tree e.now)) }
{
    if is_symbol(e) {
        match rule_of(e.text()) {
            Some(rule) => Ok(rule),
            None => Err(refusal_at(e, Reason::UnknownRule)),
        }
    } else {
        Err(refusal_at(e, Reason::BadForm))
    }
}

/// The word of the rule behind the keyword `:rule`.
pub(crate) fn rule_behind_keyword<E: Expr>(keyword: &E, rule: &E) -> Result<RuleWord, Fault>
    ensures { Answers result (rule_behind (E.tree keyword.now) (E.tree rule.now)) }
{
    if is_keyword_at(keyword, "rule") {
        rule_of_word(rule)
    } else {
        Err(refusal_at(keyword, Reason::BadForm))
    }
}

/// Tests that an expression is a list of symbols.
pub(crate) fn test_ids<E: Expr>(e: &E) -> Result<(), Fault>
    ensures ok { OnOk result (ids_at (E.tree e.now) ≡ Ok (texts_in (E.tree e.now))) }
    ensures err { IfErr result (λ f. Fails f (ids_at (E.tree e.now))) }
{
    if !is_list(e) {
        return Err(refusal_at(e, Reason::BadForm));
    }
    for k in 0..e.len() {
        let item = e.item(k);
        if !is_symbol(item) {
            return Err(refusal_at(item, Reason::BadForm));
        }
    }
    Ok(())
}
