//! A book of rules for tests. An error is want of memory.
ghost use Rattle.std.specs.Prelude.{◌≡◌, [], ◌∷◌, IfOk};
ghost use Rattle.rare_rule.specs.Written.{apply, declared_param, param};
ghost use Rattle.rare_proof.specs.inner.TestRules.{low, low_and_all, refute, swap, truth_param};

use rare_base::Text;
use rare_linear::{Constraints, Linear, Linears};
use rare_rule::{Book, Param, ParamKind, Params, Rule, RuleKind};
use rare_sort::{Head, Sort, Tree, Trees};
use rare_type::type_rule;
use std::alloc::{AllocError, Global};
use std::test::Fail;

fn on(alloc: Global, head: Head, args: Trees) -> Tree
    ensures { result ≡ apply head args }
{
    Tree {
        head,
        indices: Linears::new(alloc),
        args,
    }
}

fn param(alloc: Global, k: u32) -> Tree
    ensures { result ≡ param k }
{
    on(alloc, Head::Param(k), Trees::new(alloc))
}

fn one(alloc: Global, t: Tree) -> Result<Trees, AllocError>
    ensures { IfOk result (λ ts. ts ≡ t ∷ []) }
{
    let mut all = Trees::new(alloc);
    all.push(t)?;
    Ok(all)
}

fn two(alloc: Global, t: Tree, u: Tree) -> Result<Trees, AllocError>
    ensures { IfOk result (λ ts. ts ≡ t ∷ u ∷ []) }
{
    let mut all = one(alloc, t)?;
    all.push(u)?;
    Ok(all)
}

fn declared(alloc: Global, name: &[u8], kind: ParamKind) -> Result<Param, AllocError>
    ensures { IfOk result (λ p. p ≡ declared_param name.now kind) }
{
    Ok(Param {
        name: Text::of(alloc, name)?,
        kind,
        constant: false,
        fresh: false,
    })
}

fn truth(alloc: Global, name: &[u8]) -> Result<Param, AllocError>
    ensures { IfOk result (λ p. p ≡ truth_param name.now) }
{
    declared(alloc, name, ParamKind::Term(Sort::Bool))
}

fn params_of_two(alloc: Global, p: Param, q: Param) -> Result<Params, AllocError>
    ensures { IfOk result (λ ps. ps ≡ p ∷ q ∷ []) }
{
    let mut all = Params::new(alloc);
    all.push(p)?;
    all.push(q)?;
    Ok(all)
}

fn swap(alloc: Global) -> Result<Rule, AllocError>
    ensures { IfOk result (λ r. r ≡ swap) }
{
    let params = params_of_two(alloc, truth(alloc, b"p")?, truth(alloc, b"q")?)?;
    let left = two(alloc, param(alloc, 0), param(alloc, 1))?;
    let right = two(alloc, param(alloc, 1), param(alloc, 0))?;
    Ok(Rule {
        name: Text::of(alloc, b"sw")?,
        kind: RuleKind::Plain,
        params,
        bounds: Constraints::new(alloc),
        premises: Trees::new(alloc),
        left: on(alloc, Head::And, left),
        right: on(alloc, Head::And, right),
        context: None,
    })
}

fn refute(alloc: Global) -> Result<Rule, AllocError>
    ensures { IfOk result (λ r. r ≡ refute) }
{
    let mut params = Params::new(alloc);
    params.push(truth(alloc, b"p")?)?;
    let left = one(alloc, param(alloc, 0))?;
    Ok(Rule {
        name: Text::of(alloc, b"refute")?,
        kind: RuleKind::Cond,
        params,
        bounds: Constraints::new(alloc),
        premises: one(alloc, param(alloc, 0))?,
        left: on(alloc, Head::Not, left),
        right: on(alloc, Head::False, Trees::new(alloc)),
        context: None,
    })
}

fn low_and_all(alloc: Global) -> Result<Tree, AllocError>
    ensures { IfOk result (λ t. t ≡ low_and_all) }
{
    let mut indices = Linears::new(alloc);
    indices.push(Linear::constant(alloc, 4))?;
    indices.push(Linear::constant(alloc, 0))?;
    let low = Tree {
        head: Head::Extract,
        indices,
        args: one(alloc, param(alloc, 1))?,
    };
    let args = two(alloc, low, param(alloc, 1))?;
    Ok(on(alloc, Head::Concat, args))
}

fn low(alloc: Global) -> Result<Rule, AllocError>
    ensures { IfOk result (λ r. r ≡ low) }
{
    let width = declared(alloc, b"n", ParamKind::Width)?;
    let sort = Sort::BitVec(Linear::name(alloc, 0)?);
    let word = declared(alloc, b"x", ParamKind::Term(sort))?;
    Ok(Rule {
        name: Text::of(alloc, b"low")?,
        kind: RuleKind::Plain,
        params: params_of_two(alloc, width, word)?,
        bounds: Constraints::new(alloc),
        premises: Trees::new(alloc),
        left: low_and_all(alloc)?,
        right: low_and_all(alloc)?,
        context: None,
    })
}

/// `sw`, `refute` and `low`, in this order.
pub fn book(alloc: Global) -> Result<Book, Fail> {
    let mut book = Book::new(alloc);
    book.add(type_rule(alloc, swap(alloc)?)?, false)?;
    book.add(type_rule(alloc, refute(alloc)?)?, false)?;
    book.add(type_rule(alloc, low(alloc)?)?, false)?;
    Ok(book)
}
