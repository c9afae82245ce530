//! What stands behind the word of the rule of a step: its premises and its arguments.
ghost use Rattle.rare_proof.specs.Proofs.{IsRuleOf, stated_rule};
ghost use Rattle.rare_proof_text.specs.Commands.{IsNamedRuleOf, named_rule, premise_ids};
ghost use Rattle.rare_proof_text.specs.ProofText.{args_by, end_by, instance_end, plain_end, premises_by};
ghost use Rattle.rare_proof_text.specs.inner.Parts.{AnswersAs, end_at};
ghost use Rattle.rare_scope.specs.Names.{AreMeant, names_of};
ghost use Rattle.rare_sexpr.specs.Tree.{items_of};
ghost use Rattle.rare_sort.specs.declared.tree.Tree.{Tree};
ghost use Rattle.rare_term.specs.State.{Grows, State};
ghost use Rattle.std.specs.Prelude.{List, ◌≤◌, IfOk, drop};

use crate::arguments::{NamedRule, read_instance};
use crate::parts::test_ids;
use crate::words::RuleWord;
use rare_base::{Fault, Reason};
use rare_proof::StepRule;
use rare_rule::Book;
use rare_scope::{Scope, is_keyword_at, refusal_at};
use rare_sexpr::Expr;
use rare_term::Terms;
use std::alloc::Global;

/// The end of a step as it was read: its rule with the arguments, and the list of the ids of its
/// premises, where the step gives one.
#[derive(Drop)]
pub(crate) struct ReadEnd<'e, E> {
    pub rule: NamedRule,
    pub premises: Option<&'e E>,
}

// The list of the ids of the premises, where it stands, and nothing more.
fn read_premises<E: Expr>(e: &E) -> Result<Option<&E>, Fault>
    ensures { AnswersAs (premise_ids E.tree) result
        (premises_by (drop 5 (items_of (E.tree e.now)))) }
{
    if e.len() < 7 {
        return Ok(None);
    }
    let keyword = e.item(5);
    let ids = e.item(6);
    if !is_keyword_at(keyword, "premises") {
        return Err(refusal_at(keyword, Reason::BadForm));
    }
    test_ids(ids)?;
    if e.len() > 7 {
        let next = e.item(7);
        return Err(refusal_at(next, Reason::BadForm));
    }
    Ok(Some(ids))
}

// The end of a step by a rule that takes no arguments.
fn read_plain_end<E: Expr>(e: &E, rule: StepRule) -> Result<ReadEnd<'_, E>, Fault>
    ensures read { (ts : List Tree) → AnswersAs (end_at E.tree ts) result
        (plain_end (stated_rule ts rule) (drop 5 (items_of (E.tree e.now)))) }
    ensures given { (s : State) → IsRuleOf s rule → IfOk result (λ x. IsNamedRuleOf s x.rule) }
{
    let premises = read_premises(e)?;
    Ok(ReadEnd {
        rule: Ok(rule),
        premises,
    })
}

// The instance behind the keyword `:args`, from item `k` on, and nothing more.
fn read_args<E: Expr, T: Terms>(
    alloc: Global,
    e: &E,
    k: usize,
    scope: &Scope,
    book: &Book,
    terms: &mut T,
) -> Result<NamedRule, Fault>
    requires names { AreMeant (T.state terms.old) scope.now }
    requires small { k ≤ 7 }
    ensures read { AnswersAs (named_rule (T.state terms.new).trees) result
        (args_by (T.state terms.old).declared (names_of (T.state terms.old).trees scope.now)
        book.now (E.tree e.now) (drop k (items_of (E.tree e.now)))) }
    ensures given { IfOk result (IsNamedRuleOf (T.state terms.new)) }
    ensures grows { Grows (T.state terms.old) (T.state terms.new) }
{
    if e.len() < k + 2 {
        return Err(refusal_at(e, Reason::BadForm));
    }
    let keyword = e.item(k);
    let args = e.item(k + 1);
    if !is_keyword_at(keyword, "args") {
        return Err(refusal_at(keyword, Reason::BadForm));
    }
    let rule = read_instance(alloc, args, scope, book, terms)?;
    if e.len() > k + 2 {
        let next = e.item(k + 2);
        return Err(refusal_at(next, Reason::BadForm));
    }
    Ok(rule)
}

// The end of a step by a rule of the book: arguments, before which premises may stand.
fn read_instance_end<'e, E: Expr, T: Terms>(
    alloc: Global,
    e: &'e E,
    scope: &Scope,
    book: &Book,
    terms: &mut T,
) -> Result<ReadEnd<'e, E>, Fault>
    requires { AreMeant (T.state terms.old) scope.now }
    ensures read { AnswersAs (end_at E.tree (T.state terms.new).trees) result
        (instance_end (T.state terms.old).declared (names_of (T.state terms.old).trees scope.now)
        book.now (E.tree e.now) (drop 5 (items_of (E.tree e.now)))) }
    ensures given { IfOk result (λ x. IsNamedRuleOf (T.state terms.new) x.rule) }
    ensures grows { Grows (T.state terms.old) (T.state terms.new) }
{
    if e.len() < 7 {
        return Err(refusal_at(e, Reason::BadForm));
    }
    let keyword = e.item(5);
    let ids = e.item(6);
    if !is_keyword_at(keyword, "premises") {
        let rule = read_args(alloc, e, 5, scope, book, terms)?;
        return Ok(ReadEnd {
            rule,
            premises: None,
        });
    }
    test_ids(ids)?;
    let rule = read_args(alloc, e, 7, scope, book, terms)?;
    Ok(ReadEnd {
        rule,
        premises: Some(ids),
    })
}

/// What stands behind the word of a rule, or its first fault: `[:premises (ID ..)]`, behind which a
/// rule of the book has `:args ("NAME" A ..)`.
pub(crate) fn read_end<'e, E: Expr, T: Terms>(
    alloc: Global,
    e: &'e E,
    word: RuleWord,
    scope: &Scope,
    book: &Book,
    terms: &mut T,
) -> Result<ReadEnd<'e, E>, Fault>
    requires { AreMeant (T.state terms.old) scope.now }
    ensures read { AnswersAs (end_at E.tree (T.state terms.new).trees) result
        (end_by (T.state terms.old).declared (names_of (T.state terms.old).trees scope.now)
        book.now (E.tree e.now) (drop 5 (items_of (E.tree e.now))) word) }
    ensures given { IfOk result (λ x. IsNamedRuleOf (T.state terms.new) x.rule) }
    ensures grows { Grows (T.state terms.old) (T.state terms.new) }
{
    match word {
        RuleWord::Refl => read_plain_end(e, StepRule::Refl),
        RuleWord::Cong => read_plain_end(e, StepRule::Cong),
        RuleWord::Trans => read_plain_end(e, StepRule::Trans),
        RuleWord::Evaluate => read_plain_end(e, StepRule::Evaluate),
        RuleWord::RareRewrite => read_instance_end(alloc, e, scope, book, terms),
    }
}
