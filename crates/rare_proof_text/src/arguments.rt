//! Instances of rules of a book, read from `("NAME" A ..)`.
ghost use Rattle.rare_inst.specs.Answers.{AreGiven, IsGiven};
ghost use Rattle.rare_inst.specs.Arguments.{argument_of, arguments_of};
ghost use Rattle.rare_proof_text.specs.ArgumentText.{applied, argument_at, arguments_from, instance_at, list_of_terms, terms_from};
ghost use Rattle.rare_proof_text.specs.Commands.{IsNamedRuleOf, named_rule};
ghost use Rattle.rare_proof_text.specs.inner.Parts.{AnswersAs};
ghost use Rattle.rare_rule.specs.declared.param.ParamKind.TheVariants as kind;
ghost use Rattle.rare_scope.specs.Names.{AreMeant, names_of};
ghost use Rattle.rare_sexpr.specs.Tree.{items_of};
ghost use Rattle.rare_sort.specs.Ids.{AreIds, trees_at};
ghost use Rattle.rare_term.specs.State.{Grows};
ghost use Rattle.std.specs.Prelude.{◌≡◌, ◌+◌, ◌<◌, [], IfOk, Some, drop, length};

use rare_base::{Fault, Reason};
use rare_inst::{Arg, Args};
use rare_proof::{StepFault, StepRule};
use rare_rule::{Book, Param, ParamKind, Typed};
use rare_scope::{Scope, is_word_at, read_linear, read_sort, refusal_at};
use rare_sexpr::{Expr, Kind};
use rare_sort::Ids;
use rare_term::Terms;
use rare_term_text::read_term;
use std::alloc::Global;

/// The rule of a step with its arguments, or why a text names none.
pub(crate) type NamedRule = Result<StepRule, StepFault>;

// The terms behind the first item of a list.
fn read_terms<E: Expr, T: Terms>(
    alloc: Global,
    e: &E,
    scope: &Scope,
    terms: &mut T,
) -> Result<Ids, Fault>
    requires { AreMeant (T.state terms.old) scope.now }
    ensures read { AnswersAs (trees_at (T.state terms.new).trees) result
        (terms_from (T.state terms.old).declared (names_of (T.state terms.old).trees scope.now) []
        (drop 1 (items_of (E.tree e.now)))) }
    ensures ids { IfOk result (AreIds (length (T.state terms.new).trees)) }
    ensures grows { Grows (T.state terms.old) (T.state terms.new) }
{
    let mut ids = Ids::new(alloc);
    for k in 1..e.len() {
        let id = read_term(alloc, e.item(k), scope, terms)?;
        let Ok(()) = ids.push(id) else {
            return Err(Fault::Memory);
        };
    }
    Ok(ids)
}

// `(rare-list t ..)`, a list of terms.
fn read_list<E: Expr, T: Terms>(
    alloc: Global,
    e: &E,
    scope: &Scope,
    terms: &mut T,
) -> Result<Arg, Fault>
    requires { AreMeant (T.state terms.old) scope.now }
    ensures read { AnswersAs (argument_of (T.state terms.new).trees) result
        (list_of_terms (T.state terms.old).declared (names_of (T.state terms.old).trees scope.now)
        (E.tree e.now) (items_of (E.tree e.now))) }
    ensures given { IfOk result (IsGiven (T.state terms.new)) }
    ensures grows { Grows (T.state terms.old) (T.state terms.new) }
{
    if e.len() == 0 {
        return Err(refusal_at(e, Reason::BadForm));
    }
    let head = e.item(0);
    if !is_word_at(head, "rare-list") {
        return Err(refusal_at(head, Reason::BadForm));
    }
    Ok(Arg::List(read_terms(alloc, e, scope, terms)?))
}

// A sort.
#[tactic(auto, using(crate::proofs::Sorts::sort_named))]
fn read_sort_argument<E: Expr, T: Terms>(
    alloc: Global,
    e: &E,
    scope: &Scope,
    terms: &T,
) -> Result<Arg, Fault>
    requires { AreMeant (T.state terms.now) scope.now }
    ensures read { AnswersAs (argument_of (T.state terms.now).trees) result
        (argument_at (T.state terms.now).declared (names_of (T.state terms.now).trees scope.now)
        kind.SortName (E.tree e.now)) }
    ensures given { IfOk result (IsGiven (T.state terms.now)) }
{
    Ok(Arg::Sort(read_sort(alloc, e, scope, terms)?))
}

// A linear expression over the widths of the problem.
fn read_linear_argument<E: Expr, T: Terms>(
    alloc: Global,
    e: &E,
    scope: &Scope,
    terms: &T,
) -> Result<Arg, Fault>
    requires { AreMeant (T.state terms.now) scope.now }
    ensures read { AnswersAs (argument_of (T.state terms.now).trees) result
        (argument_at (T.state terms.now).declared (names_of (T.state terms.now).trees scope.now)
        kind.Width (E.tree e.now)) }
    ensures given { IfOk result (IsGiven (T.state terms.now)) }
{
    Ok(Arg::Linear(read_linear(alloc, e, scope)?))
}

// The argument for a name of this kind.
fn read_argument<E: Expr, T: Terms>(
    alloc: Global,
    kind: &ParamKind,
    e: &E,
    scope: &Scope,
    terms: &mut T,
) -> Result<Arg, Fault>
    requires { AreMeant (T.state terms.old) scope.now }
    ensures read { AnswersAs (argument_of (T.state terms.new).trees) result
        (argument_at (T.state terms.old).declared (names_of (T.state terms.old).trees scope.now)
        kind.now (E.tree e.now)) }
    ensures given { IfOk result (IsGiven (T.state terms.new)) }
    ensures grows { Grows (T.state terms.old) (T.state terms.new) }
{
    match kind {
        ParamKind::SortName => read_sort_argument(alloc, e, scope, terms),
        ParamKind::Width | ParamKind::Index => read_linear_argument(alloc, e, scope, terms),
        ParamKind::Term(_) => Ok(Arg::Term(read_term(alloc, e, scope, terms)?)),
        ParamKind::List(_) | ParamKind::WideList => read_list(alloc, e, scope, terms),
    }
}

// An argument for each name of a rule, behind the first item of a list.
fn read_arguments<E: Expr, T: Terms>(
    alloc: Global,
    params: &[Param],
    e: &E,
    scope: &Scope,
    terms: &mut T,
) -> Result<Args, Fault>
    requires names { AreMeant (T.state terms.old) scope.now }
    requires count { length (items_of (E.tree e.now)) ≡ length params.now + 1 }
    ensures read { AnswersAs (arguments_of (T.state terms.new).trees) result
        (arguments_from (T.state terms.old).declared (names_of (T.state terms.old).trees scope.now)
        [] params.now (drop 1 (items_of (E.tree e.now)))) }
    ensures given { IfOk result (AreGiven (T.state terms.new)) }
    ensures grows { Grows (T.state terms.old) (T.state terms.new) }
{
    let mut args = Args::new(alloc);
    for (k, param) in params.iter().enumerate() {
        let arg = read_argument(alloc, &param.kind, e.item(k + 1), scope, terms)?;
        let Ok(()) = args.push(arg) else {
            return Err(Fault::Memory);
        };
    }
    Ok(args)
}

// Rule `k` of a book at the arguments behind the name, which are read where they are as many as its
// names.
fn read_applied<E: Expr, T: Terms>(
    alloc: Global,
    k: usize,
    rule: &Typed,
    e: &E,
    scope: &Scope,
    terms: &mut T,
) -> Result<NamedRule, Fault>
    requires names { AreMeant (T.state terms.old) scope.now }
    requires named { 0 < length (items_of (E.tree e.now)) }
    ensures read { AnswersAs (named_rule (T.state terms.new).trees) result
        (applied (T.state terms.old).declared (names_of (T.state terms.old).trees scope.now) k
        (Some rule.now) (drop 1 (items_of (E.tree e.now)))) }
    ensures given { IfOk result (IsNamedRuleOf (T.state terms.new)) }
    ensures grows { Grows (T.state terms.old) (T.state terms.new) }
{
    let params = rule.rule().params.items();
    if e.len() - 1 != params.len() {
        return Ok(Err(StepFault::ArgCount));
    }
    let args = read_arguments(alloc, params, e, scope, terms)?;
    Ok(Ok(StepRule::Rewrite { rule: k, args }))
}

/// The instance of a rule of the book that `("NAME" A ..)` spells; or `NoSuchRule` where no rule
/// has the name, and `ArgCount` where the rule has another number of names, with the arguments not
/// read; or the first fault: `BadForm` where no string is the first item, and those of the
/// arguments.
pub(crate) fn read_instance<E: Expr, T: Terms>(
    alloc: Global,
    e: &E,
    scope: &Scope,
    book: &Book,
    terms: &mut T,
) -> Result<NamedRule, Fault>
    requires { AreMeant (T.state terms.old) scope.now }
    ensures read { AnswersAs (named_rule (T.state terms.new).trees) result
        (instance_at (T.state terms.old).declared (names_of (T.state terms.old).trees scope.now)
        book.now (E.tree e.now)) }
    ensures given { IfOk result (IsNamedRuleOf (T.state terms.new)) }
    ensures grows { Grows (T.state terms.old) (T.state terms.new) }
{
    if e.len() == 0 {
        return Err(refusal_at(e, Reason::BadForm));
    }
    let name = e.item(0);
    if name.kind() != Kind::Quoted {
        return Err(refusal_at(name, Reason::BadForm));
    }
    match book.find(name.text()) {
        Some(k) => read_applied(alloc, k, book.rule(k), e, scope, terms),
        None => Ok(Err(StepFault::NoSuchRule)),
    }
}
