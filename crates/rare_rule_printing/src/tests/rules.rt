//! Rules for tests. An error is want of memory.
ghost use Rattle.std.specs.Prelude.{◌≡◌, [], ◌∷◌, pos, IfOk};
ghost use Rattle.rare_linear.specs.Linears.{number};
ghost use Rattle.rare_rule.specs.RuleRows.{and_de_morgan, and_true, concat_low, concat_params, ite_cond, low_slice, shift_constraints, shift_left, shift_params};
ghost use Rattle.rare_rule.specs.Written.{apply, bound, extract, literal, param, plain_rule};
ghost use Rattle.rare_rule.specs.declared.param.ParamKind.TheVariants as kind;
ghost use Rattle.rare_rule_printing.specs.inner.PrintedRules.{equal, given, not_not, of_two, sort_params, sorts, two_premises};
ghost use Rattle.rare_sort.specs.Sorting.{name};
ghost use Rattle.rare_sort.specs.declared.head.Head.TheVariants as head;
ghost use Rattle.rare_sort.specs.declared.sort.Sort.{Array, BitVec, Int, Named};

use crate::tests::parts::{
    bound, constant, declared, fresh, given, leaf, no_bounds, of_one, of_two, on, on_one, on_three,
    on_two, param, params_of_one, params_of_three, params_of_two, trees_of_three, trees_of_two,
    with_params, with_two,
};
use rare_base::Text;
use rare_linear::{Constraints, Linear};
use rare_list::Boxed;
use rare_rule::{ParamKind, Params, Rule, RuleKind};
use rare_sort::{Head, Sort, Tree, Trees};
use std::alloc::{AllocError, Global};

fn plain(
    alloc: Global,
    name: &[u8],
    params: Params,
    bounds: Constraints,
    left: Tree,
    right: Tree,
) -> Result<Rule, AllocError>
    ensures { IfOk result (λ r. r ≡ plain_rule name.now params bounds left right) }
{
    Ok(Rule {
        name: Text::of(alloc, name)?,
        kind: RuleKind::Plain,
        params,
        bounds,
        premises: Trees::new(alloc),
        left,
        right,
        context: None,
    })
}

pub fn not_not(alloc: Global) -> Result<Rule, AllocError>
    ensures { IfOk result (λ r. r ≡ not_not) }
{
    let params = params_of_one(alloc, declared(alloc, b"p", ParamKind::Term(Sort::Bool))?)?;
    let inner = on_one(alloc, Head::Not, param(alloc, 0))?;
    let left = on_one(alloc, Head::Not, inner)?;
    plain(
        alloc,
        b"bool-not-not",
        params,
        no_bounds(alloc),
        left,
        param(alloc, 0),
    )
}

pub fn and_true(alloc: Global) -> Result<Rule, AllocError>
    ensures { IfOk result (λ r. r ≡ and_true) }
{
    let ps = declared(alloc, b"ps", ParamKind::List(Sort::Bool))?;
    let qs = declared(alloc, b"qs", ParamKind::List(Sort::Bool))?;
    let params = params_of_two(alloc, ps, qs)?;
    let left = on_three(
        alloc,
        Head::And,
        param(alloc, 0),
        leaf(alloc, Head::True),
        param(alloc, 1),
    )?;
    let right = on_two(alloc, Head::And, param(alloc, 0), param(alloc, 1))?;
    plain(
        alloc,
        b"bool-and-true",
        params,
        no_bounds(alloc),
        left,
        right,
    )
}

pub fn ite_cond(alloc: Global) -> Result<Rule, AllocError>
    ensures { IfOk result (λ r. r ≡ ite_cond) }
{
    let a = declared(alloc, b"a", ParamKind::SortName)?;
    let p = declared(alloc, b"p", ParamKind::Term(Sort::Bool))?;
    let x = declared(alloc, b"x", ParamKind::Term(Sort::Named(0)))?;
    let y = declared(alloc, b"y", ParamKind::Term(Sort::Named(0)))?;
    let mut premises = Trees::new(alloc);
    premises.push(param(alloc, 1))?;
    Ok(Rule {
        name: Text::of(alloc, b"ite-cond")?,
        kind: RuleKind::Cond,
        params: with_params(params_of_two(alloc, a, p)?, x, y)?,
        bounds: no_bounds(alloc),
        premises,
        left: on_three(
            alloc,
            Head::Ite,
            param(alloc, 1),
            param(alloc, 2),
            param(alloc, 3),
        )?,
        right: param(alloc, 2),
        context: None,
    })
}

fn not_and(alloc: Global, args: Trees) -> Result<Tree, AllocError>
    ensures { IfOk result (λ t. t ≡ apply head.Not (apply head.And args ∷ [])) }
{
    on_one(alloc, Head::Not, on(alloc, Head::And, args))
}

fn de_morgan_context(alloc: Global) -> Result<Tree, AllocError>
    ensures { IfOk result
        (λ t. t ≡ apply head.Or (apply head.Not (param 0 ∷ []) ∷ apply head.Hole [] ∷ [])) }
{
    let not = on_one(alloc, Head::Not, param(alloc, 0))?;
    on_two(alloc, Head::Or, not, leaf(alloc, Head::Hole))
}

fn de_morgan_params(alloc: Global) -> Result<Params, AllocError>
    ensures { IfOk result (λ ps. ps ≡ and_de_morgan.params) }
{
    let p = declared(alloc, b"p", ParamKind::Term(Sort::Bool))?;
    let q = declared(alloc, b"q", ParamKind::Term(Sort::Bool))?;
    let ps = declared(alloc, b"ps", ParamKind::List(Sort::Bool))?;
    params_of_three(alloc, p, q, ps)
}

pub fn and_de_morgan(alloc: Global) -> Result<Rule, AllocError>
    ensures { IfOk result (λ r. r ≡ and_de_morgan) }
{
    let left = trees_of_three(alloc, param(alloc, 0), param(alloc, 1), param(alloc, 2))?;
    let right = trees_of_two(alloc, param(alloc, 1), param(alloc, 2))?;
    Ok(Rule {
        name: Text::of(alloc, b"bool-and-de-morgan")?,
        kind: RuleKind::Fixed,
        params: de_morgan_params(alloc)?,
        bounds: no_bounds(alloc),
        premises: Trees::new(alloc),
        left: not_and(alloc, left)?,
        right: not_and(alloc, right)?,
        context: Some(de_morgan_context(alloc)?),
    })
}

fn words(alloc: Global, width: u32) -> Result<ParamKind, AllocError>
    ensures { IfOk result (λ k. k ≡ kind.Term (BitVec (name width))) }
{
    Ok(ParamKind::Term(Sort::BitVec(Linear::name(alloc, width)?)))
}

fn shift_params(alloc: Global) -> Result<Params, AllocError>
    ensures { IfOk result (λ ps. ps ≡ shift_params) }
{
    let n = declared(alloc, b"n", ParamKind::Width)?;
    let k = declared(alloc, b"k", ParamKind::Index)?;
    let x = declared(alloc, b"x", words(alloc, 0)?)?;
    params_of_three(alloc, n, k, x)
}

fn shift_bounds(alloc: Global) -> Result<Constraints, AllocError>
    ensures { IfOk result (λ cs. cs ≡ shift_constraints) }
{
    let mut all = no_bounds(alloc);
    all.push(bound(of_one(alloc, -1, 1, 1)?))?;
    all.push(bound(of_two(alloc, -1, 0, 1, 1, -1)?))?;
    Ok(all)
}

fn literal(alloc: Global, value: Linear, width: Linear) -> Result<Tree, AllocError>
    ensures { IfOk result (λ t. t ≡ literal value width) }
{
    with_two(alloc, Head::Literal, value, width, Trees::new(alloc))
}

fn extract(alloc: Global, j: Linear, i: Linear, word: Tree) -> Result<Tree, AllocError>
    ensures { IfOk result (λ t. t ≡ extract j i word) }
{
    let mut args = Trees::new(alloc);
    args.push(word)?;
    with_two(alloc, Head::Extract, j, i, args)
}

fn shift_right_side(alloc: Global) -> Result<Tree, AllocError>
    ensures { IfOk result (λ t. t ≡ shift_left.right) }
{
    let top = of_two(alloc, -1, 0, 1, 1, -1)?;
    let low = extract(alloc, top, Linear::constant(alloc, 0), param(alloc, 2))?;
    let zeros = literal(alloc, Linear::constant(alloc, 0), Linear::name(alloc, 1)?)?;
    on_two(alloc, Head::Concat, low, zeros)
}

pub fn shift_left(alloc: Global) -> Result<Rule, AllocError>
    ensures { IfOk result (λ r. r ≡ shift_left) }
{
    let params = shift_params(alloc)?;
    let bounds = shift_bounds(alloc)?;
    let count = literal(alloc, Linear::name(alloc, 1)?, Linear::name(alloc, 0)?)?;
    let left = on_two(alloc, Head::BvShl, param(alloc, 2), count)?;
    let right = shift_right_side(alloc)?;
    plain(alloc, b"bv-shl-const", params, bounds, left, right)
}

fn low_part(alloc: Global, word: Tree) -> Result<Tree, AllocError>
    ensures { IfOk result (λ t. t ≡ extract (name 1) (number (pos 0)) word) }
{
    extract(
        alloc,
        Linear::name(alloc, 1)?,
        Linear::constant(alloc, 0),
        word,
    )
}

fn slice_params(alloc: Global) -> Result<Params, AllocError>
    ensures { IfOk result (λ ps. ps ≡ low_slice.params) }
{
    let n = declared(alloc, b"n", ParamKind::Width)?;
    let j = declared(alloc, b"j", ParamKind::Index)?;
    let x = declared(alloc, b"x", words(alloc, 0)?)?;
    params_of_three(alloc, n, j, x)
}

pub fn low_slice(alloc: Global) -> Result<Rule, AllocError>
    ensures { IfOk result (λ r. r ≡ low_slice) }
{
    let params = slice_params(alloc)?;
    let left = low_part(alloc, param(alloc, 2))?;
    let inner = on_one(alloc, Head::BvNot, param(alloc, 2))?;
    let right = low_part(alloc, on_one(alloc, Head::BvNot, inner)?)?;
    plain(alloc, b"ext", params, no_bounds(alloc), left, right)
}

fn concat_params(alloc: Global) -> Result<Params, AllocError>
    ensures { IfOk result (λ ps. ps ≡ concat_params) }
{
    let j = declared(alloc, b"j", ParamKind::Index)?;
    let i = declared(alloc, b"i", ParamKind::Index)?;
    let us = declared(alloc, b"us", ParamKind::WideList)?;
    let front = params_of_three(alloc, j, i, us)?;
    let w = declared(alloc, b"w", words(alloc, 4)?)?;
    with_params(front, w, fresh(alloc, b"w", ParamKind::Width)?)
}

fn slice(alloc: Global, word: Tree) -> Result<Tree, AllocError>
    ensures { IfOk result (λ t. t ≡ extract (name 0) (name 1) word) }
{
    let j = Linear::name(alloc, 0)?;
    let i = Linear::name(alloc, 1)?;
    extract(alloc, j, i, word)
}

pub fn concat_low(alloc: Global) -> Result<Rule, AllocError>
    ensures { IfOk result (λ r. r ≡ concat_low) }
{
    let params = concat_params(alloc)?;
    let mut bounds = no_bounds(alloc);
    bounds.push(bound(of_two(alloc, -1, 0, -1, 4, 1)?))?;
    let whole = on_two(alloc, Head::Concat, param(alloc, 2), param(alloc, 3))?;
    let left = slice(alloc, whole)?;
    let right = slice(alloc, param(alloc, 3))?;
    plain(alloc, b"bv-extract-concat-low", params, bounds, left, right)
}

fn array_kind(alloc: Global) -> Result<ParamKind, AllocError>
    ensures { IfOk result (λ k. k ≡ kind.Term (Array (Named 0) Int)) }
{
    let keys = Boxed::new(alloc, Sort::Named(0))?;
    let entries = Boxed::new(alloc, Sort::Int)?;
    Ok(ParamKind::Term(Sort::Array(keys, entries)))
}

fn sort_params(alloc: Global) -> Result<Params, AllocError>
    ensures { IfOk result (λ ps. ps ≡ sort_params) }
{
    let a = declared(alloc, b"a", ParamKind::SortName)?;
    let m = declared(alloc, b"m", array_kind(alloc)?)?;
    let c = constant(alloc, b"c", ParamKind::Term(Sort::Int))?;
    let front = params_of_three(alloc, a, m, c)?;
    let y = declared(alloc, b"y", ParamKind::Term(Sort::Named(4)))?;
    with_params(front, y, fresh(alloc, b"y", ParamKind::SortName)?)
}

fn equal_itself(alloc: Global, k: u32) -> Result<Tree, AllocError>
    ensures { IfOk result (λ t. t ≡ equal (param k) (param k)) }
{
    on_two(alloc, Head::Equal, param(alloc, k), param(alloc, k))
}

pub fn sorts(alloc: Global) -> Result<Rule, AllocError>
    ensures { IfOk result (λ r. r ≡ sorts) }
{
    let params = sort_params(alloc)?;
    let m = equal_itself(alloc, 1)?;
    let c = equal_itself(alloc, 2)?;
    let left = on_three(alloc, Head::And, m, c, equal_itself(alloc, 3)?)?;
    plain(
        alloc,
        b"sorts",
        params,
        no_bounds(alloc),
        left,
        leaf(alloc, Head::True),
    )
}

fn is_given(alloc: Global, value: u128, width: i128) -> Result<Tree, AllocError>
    ensures { IfOk result (λ t. t ≡ equal (param 0) (given value (number width))) }
{
    let literal = given(alloc, value, Linear::constant(alloc, width))?;
    on_two(alloc, Head::Equal, param(alloc, 0), literal)
}

pub fn two_premises(alloc: Global) -> Result<Rule, AllocError>
    ensures { IfOk result (λ r. r ≡ two_premises) }
{
    let x = declared(alloc, b"x", words(alloc, 1)?)?;
    let width = fresh(alloc, b"x", ParamKind::Width)?;
    let small = is_given(alloc, 5, 8)?;
    let great = is_given(
        alloc,
        170_141_183_460_469_231_731_687_303_715_884_105_728,
        128,
    )?;
    Ok(Rule {
        name: Text::of(alloc, b"two premises")?,
        kind: RuleKind::Cond,
        params: params_of_two(alloc, x, width)?,
        bounds: no_bounds(alloc),
        premises: trees_of_two(alloc, small, great)?,
        left: param(alloc, 0),
        right: param(alloc, 0),
        context: None,
    })
}
