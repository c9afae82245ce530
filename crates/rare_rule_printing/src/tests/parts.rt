//! Parts of rules for tests: terms, parameters and linear expressions. An error is want of memory.
ghost use Rattle.std.specs.Prelude.{◌≡◌, ◌++◌, [], ◌∷◌, IfOk};
ghost use Rattle.rare_rule.specs.Written.{apply, bound, declared_param, fresh_param, param};
ghost use Rattle.rare_rule_printing.specs.inner.PrintedRules.{constant_param, given, of_two};
ghost use Rattle.rare_sort.specs.Sorting.{name};
ghost use Rattle.rare_sort.specs.Trees.{node};
ghost use Rattle.rare_linear.specs.Linears.{add, number, scale};

use rare_base::Text;
use rare_linear::{Constraint, Constraints, Linear, Linears};
use rare_rule::{Param, ParamKind, Params};
use rare_sort::{Head, Tree, Trees};
use std::alloc::{AllocError, Global};

pub fn trees_of_two(alloc: Global, t: Tree, u: Tree) -> Result<Trees, AllocError>
    ensures { IfOk result (λ ts. ts ≡ t ∷ u ∷ []) }
{
    let mut all = Trees::new(alloc);
    all.push(t)?;
    all.push(u)?;
    Ok(all)
}

pub fn trees_of_three(alloc: Global, t: Tree, u: Tree, v: Tree) -> Result<Trees, AllocError>
    ensures { IfOk result (λ ts. ts ≡ t ∷ u ∷ v ∷ []) }
{
    let mut all = trees_of_two(alloc, t, u)?;
    all.push(v)?;
    Ok(all)
}

/// Parameter `k`.
pub fn param(alloc: Global, k: u32) -> Tree
    ensures { result ≡ param k }
{
    leaf(alloc, Head::Param(k))
}

pub fn leaf(alloc: Global, head: Head) -> Tree
    ensures { result ≡ apply head [] }
{
    on(alloc, head, Trees::new(alloc))
}

pub fn on(alloc: Global, head: Head, args: Trees) -> Tree
    ensures { result ≡ apply head args }
{
    Tree {
        head,
        indices: Linears::new(alloc),
        args,
    }
}

/// An operator with one argument.
pub fn on_one(alloc: Global, head: Head, arg: Tree) -> Result<Tree, AllocError>
    ensures { IfOk result (λ t. t ≡ apply head (arg ∷ [])) }
{
    let mut args = Trees::new(alloc);
    args.push(arg)?;
    Ok(on(alloc, head, args))
}

pub fn on_two(alloc: Global, head: Head, t: Tree, u: Tree) -> Result<Tree, AllocError>
    ensures { IfOk result (λ r. r ≡ apply head (t ∷ u ∷ [])) }
{
    Ok(on(alloc, head, trees_of_two(alloc, t, u)?))
}

pub fn on_three(alloc: Global, head: Head, t: Tree, u: Tree, v: Tree) -> Result<Tree, AllocError>
    ensures { IfOk result (λ r. r ≡ apply head (t ∷ u ∷ v ∷ [])) }
{
    Ok(on(alloc, head, trees_of_three(alloc, t, u, v)?))
}

/// An operator with two indices.
pub fn with_two(
    alloc: Global,
    head: Head,
    j: Linear,
    k: Linear,
    args: Trees,
) -> Result<Tree, AllocError>
    ensures { IfOk result (λ t. t ≡ node head (j ∷ k ∷ []) args) }
{
    let mut indices = Linears::new(alloc);
    indices.push(j)?;
    indices.push(k)?;
    Ok(Tree {
        head,
        indices,
        args,
    })
}

/// A literal of given value and width.
pub fn given(alloc: Global, value: u128, width: Linear) -> Result<Tree, AllocError>
    ensures { IfOk result (λ t. t ≡ given value width) }
{
    let mut indices = Linears::new(alloc);
    indices.push(width)?;
    Ok(Tree {
        head: Head::Bits(value),
        indices,
        args: Trees::new(alloc),
    })
}

fn plus(alloc: Global, start: Linear, k: u32, factor: i128) -> Result<Linear, AllocError>
    ensures { IfOk result (λ l. l ≡ add start (scale factor (name k))) }
{
    let Ok(product) = Linear::name(alloc, k)?.scale(factor) else {
        return Err(AllocError);
    };
    let Ok(sum) = start.add(&product) else {
        return Err(AllocError);
    };
    Ok(sum)
}

/// The constant, and two names with their factors.
pub fn of_two(
    alloc: Global,
    constant: i128,
    j: u32,
    a: i128,
    k: u32,
    b: i128,
) -> Result<Linear, AllocError>
    ensures { IfOk result (λ l. l ≡ of_two constant j a k b) }
{
    let start = plus(alloc, Linear::constant(alloc, constant), j, a)?;
    plus(alloc, start, k, b)
}

/// The constant, and a name with its factor.
pub fn of_one(alloc: Global, constant: i128, j: u32, a: i128) -> Result<Linear, AllocError>
    ensures { IfOk result (λ l. l ≡ add (number constant) (scale a (name j))) }
{
    plus(alloc, Linear::constant(alloc, constant), j, a)
}

pub fn bound(floor: Linear) -> Constraint
    ensures { result ≡ bound floor }
{
    Constraint { floor }
}

pub fn no_bounds(alloc: Global) -> Constraints
    ensures { result ≡ [] }
{
    Constraints::new(alloc)
}

fn any_param(
    alloc: Global,
    name: &[u8],
    kind: ParamKind,
    constant: bool,
    fresh: bool,
) -> Result<Param, AllocError>
    ensures { IfOk result
        (λ p. p ≡ record { name = name.now; kind = kind; constant = constant; fresh = fresh }) }
{
    Ok(Param {
        name: Text::of(alloc, name)?,
        kind,
        constant,
        fresh,
    })
}

pub fn declared(alloc: Global, name: &[u8], kind: ParamKind) -> Result<Param, AllocError>
    ensures { IfOk result (λ p. p ≡ declared_param name.now kind) }
{
    any_param(alloc, name, kind, false, false)
}

pub fn fresh(alloc: Global, name: &[u8], kind: ParamKind) -> Result<Param, AllocError>
    ensures { IfOk result (λ p. p ≡ fresh_param name.now kind) }
{
    any_param(alloc, name, kind, false, true)
}

pub fn constant(alloc: Global, name: &[u8], kind: ParamKind) -> Result<Param, AllocError>
    ensures { IfOk result (λ p. p ≡ constant_param name.now kind) }
{
    any_param(alloc, name, kind, true, false)
}

pub fn params_of_one(alloc: Global, p: Param) -> Result<Params, AllocError>
    ensures { IfOk result (λ ps. ps ≡ p ∷ []) }
{
    let mut all = Params::new(alloc);
    all.push(p)?;
    Ok(all)
}

pub fn params_of_two(alloc: Global, p: Param, q: Param) -> Result<Params, AllocError>
    ensures { IfOk result (λ ps. ps ≡ p ∷ q ∷ []) }
{
    let mut all = params_of_one(alloc, p)?;
    all.push(q)?;
    Ok(all)
}

pub fn params_of_three(alloc: Global, p: Param, q: Param, r: Param) -> Result<Params, AllocError>
    ensures { IfOk result (λ ps. ps ≡ p ∷ q ∷ r ∷ []) }
{
    let mut all = params_of_two(alloc, p, q)?;
    all.push(r)?;
    Ok(all)
}

/// With two parameters more.
pub fn with_params(front: Params, p: Param, q: Param) -> Result<Params, AllocError>
    ensures { IfOk result (λ ps. ps ≡ front ++ (p ∷ q ∷ [])) }
{
    let mut all = front;
    all.push(p)?;
    all.push(q)?;
    Ok(all)
}
