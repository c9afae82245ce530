//! Parts of rules for tests. An error is want of memory.
ghost use Rattle.std.specs.Prelude.{◌≡◌, [], ◌∷◌, IfOk};
ghost use Rattle.rare_linear.specs.Linears.{add};
ghost use Rattle.rare_linear.specs.declared.constraint.Constraint.{Constraint};
ghost use Rattle.rare_linear.specs.Linears.{number};
ghost use Rattle.rare_sort.specs.Sorting.{name};
ghost use Rattle.rare_rule.specs.Written.{apply, bound, declared_param, param, plain_rule};

use rare_base::Text;
use rare_linear::{Constraint, Constraints, Linear, Linears};
use rare_rule::{Param, ParamKind, Params, Rule, RuleKind};
use rare_sort::{Head, Tree, Trees};
use std::alloc::{AllocError, Global};

pub fn on(alloc: Global, head: Head, args: Trees) -> Tree
    ensures { result ≡ apply head args }
{
    Tree {
        head,
        indices: Linears::new(alloc),
        args,
    }
}

pub fn leaf(alloc: Global, head: Head) -> Tree
    ensures { result ≡ apply head [] }
{
    on(alloc, head, Trees::new(alloc))
}

/// Parameter `k`.
pub fn param(alloc: Global, k: u32) -> Tree
    ensures { result ≡ param k }
{
    leaf(alloc, Head::Param(k))
}

pub fn on_one(alloc: Global, head: Head, t: Tree) -> Result<Tree, AllocError>
    ensures { IfOk result (λ r. r ≡ apply head (t ∷ [])) }
{
    let mut args = Trees::new(alloc);
    args.push(t)?;
    Ok(on(alloc, head, args))
}

pub fn on_two(alloc: Global, head: Head, t: Tree, u: Tree) -> Result<Tree, AllocError>
    ensures { IfOk result (λ r. r ≡ apply head (t ∷ u ∷ [])) }
{
    let mut args = Trees::new(alloc);
    args.push(t)?;
    args.push(u)?;
    Ok(on(alloc, head, args))
}

pub fn on_three(alloc: Global, head: Head, t: Tree, u: Tree, v: Tree) -> Result<Tree, AllocError>
    ensures { IfOk result (λ r. r ≡ apply head (t ∷ u ∷ v ∷ [])) }
{
    let mut args = Trees::new(alloc);
    args.push(t)?;
    args.push(u)?;
    args.push(v)?;
    Ok(on(alloc, head, args))
}

pub fn declared(alloc: Global, name: &[u8], kind: ParamKind) -> Result<Param, AllocError>
    ensures { IfOk result (λ p. p ≡ declared_param name.now kind) }
{
    Ok(Param {
        name: Text::of(alloc, name)?,
        kind,
        constant: false,
        fresh: false,
    })
}

pub fn params_of_two(alloc: Global, p: Param, q: Param) -> Result<Params, AllocError>
    ensures { IfOk result (λ ps. ps ≡ p ∷ q ∷ []) }
{
    let mut all = Params::new(alloc);
    all.push(p)?;
    all.push(q)?;
    Ok(all)
}

pub fn params_of_three(alloc: Global, p: Param, q: Param, r: Param) -> Result<Params, AllocError>
    ensures { IfOk result (λ ps. ps ≡ p ∷ q ∷ r ∷ []) }
{
    let mut all = params_of_two(alloc, p, q)?;
    all.push(r)?;
    Ok(all)
}

/// That parameter `k` is at least the number, which is taken off.
pub fn at_least(alloc: Global, k: u32, less: i128) -> Result<Constraints, AllocError>
    ensures { IfOk result (λ cs. cs ≡ bound (add (name k) (number less)) ∷ []) }
{
    let Ok(floor) = Linear::name(alloc, k)?.add(&Linear::constant(alloc, less)) else {
        return Err(AllocError);
    };
    let mut all = Constraints::new(alloc);
    all.push(Constraint { floor })?;
    Ok(all)
}

/// A rule without premises and context.
pub fn plain(
    alloc: Global,
    name: &[u8],
    params: Params,
    bounds: Constraints,
    left: Tree,
    right: Tree,
) -> Result<Rule, AllocError>
    ensures { IfOk result (λ r. r ≡ plain_rule name.now params bounds left right) }
{
    Ok(Rule {
        name: Text::of(alloc, name)?,
        kind: RuleKind::Plain,
        params,
        bounds,
        premises: Trees::new(alloc),
        left,
        right,
        context: None,
    })
}
