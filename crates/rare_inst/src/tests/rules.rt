//! Rules for tests. An error is want of memory.
ghost use Rattle.std.specs.Prelude.{◌≡◌, [], ◌∷◌, pos, IfOk};
ghost use Rattle.rare_rule.specs.RuleRows.{and_de_morgan, and_true};
ghost use Rattle.rare_rule.specs.Written.{apply, param};
ghost use Rattle.rare_rule.specs.declared.param.ParamKind.TheVariants as kind;
ghost use Rattle.rare_inst.specs.InstanceRows.{joining, word_sort};
ghost use Rattle.rare_inst.specs.inner.TestRules.{and_cond, sum_of_list, words_of_list};
ghost use Rattle.rare_sort.specs.Sorting.{name};
ghost use Rattle.rare_sort.specs.declared.head.Head.TheVariants as head;
ghost use Rattle.rare_sort.specs.declared.sort.Sort.{BitVec};

use crate::tests::parts::{
    at_least, declared, leaf, on_one, on_three, on_two, param, params_of_three, params_of_two,
    plain,
};
use rare_base::Text;
use rare_linear::{Constraints, Linear};
use rare_rule::{ParamKind, Params, Rule, RuleKind};
use rare_sort::{Head, Sort, Tree, Trees};
use std::alloc::{AllocError, Global};

/// `(and ps true qs)` to `(and ps qs)`.
pub fn and_true(alloc: Global) -> Result<Rule, AllocError>
    ensures { IfOk result (λ r. r ≡ and_true) }
{
    let ps = declared(alloc, b"ps", ParamKind::List(Sort::Bool))?;
    let qs = declared(alloc, b"qs", ParamKind::List(Sort::Bool))?;
    let truth = leaf(alloc, Head::True);
    let left = on_three(alloc, Head::And, param(alloc, 0), truth, param(alloc, 1))?;
    let right = on_two(alloc, Head::And, param(alloc, 0), param(alloc, 1))?;
    let params = params_of_two(alloc, ps, qs)?;
    let bounds = Constraints::new(alloc);
    plain(alloc, b"bool-and-true", params, bounds, left, right)
}

/// `(and p q)` to `q`, where `p`.
pub fn and_cond(alloc: Global) -> Result<Rule, AllocError>
    ensures { IfOk result (λ r. r ≡ and_cond) }
{
    let p = declared(alloc, b"p", ParamKind::Term(Sort::Bool))?;
    let q = declared(alloc, b"q", ParamKind::Term(Sort::Bool))?;
    let mut premises = Trees::new(alloc);
    premises.push(param(alloc, 0))?;
    Ok(Rule {
        name: Text::of(alloc, b"c")?,
        kind: RuleKind::Cond,
        params: params_of_two(alloc, p, q)?,
        bounds: Constraints::new(alloc),
        premises,
        left: on_two(alloc, Head::And, param(alloc, 0), param(alloc, 1))?,
        right: param(alloc, 1),
        context: None,
    })
}

fn truths(alloc: Global) -> Result<Params, AllocError>
    ensures { IfOk result (λ ps. ps ≡ and_de_morgan.params) }
{
    let p = declared(alloc, b"p", ParamKind::Term(Sort::Bool))?;
    let q = declared(alloc, b"q", ParamKind::Term(Sort::Bool))?;
    let ps = declared(alloc, b"ps", ParamKind::List(Sort::Bool))?;
    params_of_three(alloc, p, q, ps)
}

fn or_context(alloc: Global) -> Result<Tree, AllocError>
    ensures { IfOk result
        (λ t. t ≡ apply head.Or (apply head.Not (param 0 ∷ []) ∷ apply head.Hole [] ∷ [])) }
{
    let not = on_one(alloc, Head::Not, param(alloc, 0))?;
    on_two(alloc, Head::Or, not, leaf(alloc, Head::Hole))
}

/// `(not (and p q ps))` to `(not (and q ps))`, in `(or (not p) _)`.
pub fn and_de_morgan(alloc: Global) -> Result<Rule, AllocError>
    ensures { IfOk result (λ r. r ≡ and_de_morgan) }
{
    let from = on_three(
        alloc,
        Head::And,
        param(alloc, 0),
        param(alloc, 1),
        param(alloc, 2),
    )?;
    let to = on_two(alloc, Head::And, param(alloc, 1), param(alloc, 2))?;
    Ok(Rule {
        name: Text::of(alloc, b"bool-and-de-morgan")?,
        kind: RuleKind::Fixed,
        params: truths(alloc)?,
        bounds: Constraints::new(alloc),
        premises: Trees::new(alloc),
        left: on_one(alloc, Head::Not, from)?,
        right: on_one(alloc, Head::Not, to)?,
        context: Some(or_context(alloc)?),
    })
}

/// `(+ k k ks)` to `(* (+ ks) k)`.
pub fn sum_of_list(alloc: Global) -> Result<Rule, AllocError>
    ensures { IfOk result (λ r. r ≡ sum_of_list) }
{
    let k = declared(alloc, b"k", ParamKind::Term(Sort::Int))?;
    let ks = declared(alloc, b"ks", ParamKind::List(Sort::Int))?;
    let left = on_three(
        alloc,
        Head::Add,
        param(alloc, 0),
        param(alloc, 0),
        param(alloc, 1),
    )?;
    let sum = on_one(alloc, Head::Add, param(alloc, 1))?;
    let right = on_two(alloc, Head::Mul, sum, param(alloc, 0))?;
    let params = params_of_two(alloc, k, ks)?;
    plain(alloc, b"s", params, Constraints::new(alloc), left, right)
}

/// Words of the width that parameter 0 stands for.
fn words(alloc: Global) -> Result<Sort, AllocError>
    ensures { IfOk result (λ s. s ≡ BitVec (name 0)) }
{
    Ok(Sort::BitVec(Linear::name(alloc, 0)?))
}

fn word_params(alloc: Global) -> Result<Params, AllocError>
    ensures { IfOk result (λ ps. ps ≡ words_of_list.params) }
{
    let n = declared(alloc, b"n", ParamKind::Width)?;
    let x = declared(alloc, b"x", ParamKind::Term(words(alloc)?))?;
    let xs = declared(alloc, b"xs", ParamKind::List(words(alloc)?))?;
    params_of_three(alloc, n, x, xs)
}

/// `(bvand x x xs)` to `(bvor (bvand xs) (bvmul xs) x)`, of words of 8 bits or more.
pub fn words_of_list(alloc: Global) -> Result<Rule, AllocError>
    ensures { IfOk result (λ r. r ≡ words_of_list) }
{
    let (x, y) = (param(alloc, 1), param(alloc, 1));
    let left = on_three(alloc, Head::BvAnd, x, y, param(alloc, 2))?;
    let and = on_one(alloc, Head::BvAnd, param(alloc, 2))?;
    let product = on_one(alloc, Head::BvMul, param(alloc, 2))?;
    let right = on_three(alloc, Head::BvOr, and, product, param(alloc, 1))?;
    let bounds = at_least(alloc, 0, -8)?;
    plain(alloc, b"w", word_params(alloc)?, bounds, left, right)
}

fn octets(alloc: Global) -> ParamKind
    ensures { result ≡ kind.Term (word_sort 8) }
{
    ParamKind::Term(Sort::BitVec(Linear::constant(alloc, 8)))
}

fn joined_to_octets(alloc: Global) -> Result<Tree, AllocError>
    ensures { IfOk result (λ t. t ≡ apply head.Concat (param 1 ∷ param 0 ∷ param 0 ∷ [])) }
{
    on_three(
        alloc,
        Head::Concat,
        param(alloc, 1),
        param(alloc, 0),
        param(alloc, 0),
    )
}

fn joined(alloc: Global) -> Result<Tree, AllocError>
    ensures { IfOk result (λ t. t ≡ apply head.Concat (param 1 ∷ [])) }
{
    on_one(alloc, Head::Concat, param(alloc, 1))
}

/// `(= (concat xs z z) (concat xs z z))` to `(= (concat xs) (concat xs))`.
pub fn joining(alloc: Global) -> Result<Rule, AllocError>
    ensures { IfOk result (λ r. r ≡ joining) }
{
    let z = declared(alloc, b"z", octets(alloc))?;
    let xs = declared(alloc, b"xs", ParamKind::WideList)?;
    let params = params_of_two(alloc, z, xs)?;
    let left = on_two(
        alloc,
        Head::Equal,
        joined_to_octets(alloc)?,
        joined_to_octets(alloc)?,
    )?;
    let right = on_two(alloc, Head::Equal, joined(alloc)?, joined(alloc)?)?;
    plain(alloc, b"g", params, Constraints::new(alloc), left, right)
}
