//! A book of rules for tests. An error is want of memory.
ghost use Rattle.std.specs.Prelude.{◌≡◌, [], ◌∷◌, IfOk};
ghost use Rattle.rare_rule.specs.Written.{apply, declared_param, param};
ghost use Rattle.rare_proof_text.specs.inner.TestRules.{kinds, kinds_left, kinds_params, low_bits, swap, truth_param};

use rare_base::Text;
use rare_linear::{Constraints, Linear, Linears};
use rare_rule::{Book, Param, ParamKind, Params, Rule, RuleKind};
use rare_sort::{Head, Sort, Tree, Trees};
use rare_type::type_rule;
use std::alloc::{AllocError, Global};
use std::test::Fail;

fn on(alloc: Global, head: Head, args: Trees) -> Tree
    ensures { result ≡ apply head args }
{
    Tree {
        head,
        indices: Linears::new(alloc),
        args,
    }
}

fn param(alloc: Global, k: u32) -> Tree
    ensures { result ≡ param k }
{
    on(alloc, Head::Param(k), Trees::new(alloc))
}

fn two(alloc: Global, t: Tree, u: Tree) -> Result<Trees, AllocError>
    ensures { IfOk result (λ ts. ts ≡ t ∷ u ∷ []) }
{
    let mut all = Trees::new(alloc);
    all.push(t)?;
    all.push(u)?;
    Ok(all)
}

fn declared(alloc: Global, name: &[u8], kind: ParamKind) -> Result<Param, AllocError>
    ensures { IfOk result (λ p. p ≡ declared_param name.now kind) }
{
    Ok(Param {
        name: Text::of(alloc, name)?,
        kind,
        constant: false,
        fresh: false,
    })
}

fn truth(alloc: Global, name: &[u8]) -> Result<Param, AllocError>
    ensures { IfOk result (λ p. p ≡ truth_param name.now) }
{
    declared(alloc, name, ParamKind::Term(Sort::Bool))
}

fn swap(alloc: Global) -> Result<Rule, AllocError>
    ensures { IfOk result (λ r. r ≡ swap) }
{
    let mut params = Params::new(alloc);
    params.push(truth(alloc, b"p")?)?;
    params.push(truth(alloc, b"q")?)?;
    let left = two(alloc, param(alloc, 0), param(alloc, 1))?;
    let right = two(alloc, param(alloc, 1), param(alloc, 0))?;
    Ok(Rule {
        name: Text::of(alloc, b"sw")?,
        kind: RuleKind::Plain,
        params,
        bounds: Constraints::new(alloc),
        premises: Trees::new(alloc),
        left: on(alloc, Head::And, left),
        right: on(alloc, Head::And, right),
        context: None,
    })
}

fn kinds_params(alloc: Global) -> Result<Params, AllocError>
    ensures { IfOk result (λ ps. ps ≡ kinds_params) }
{
    let word = Sort::BitVec(Linear::name(alloc, 1)?);
    let mut params = Params::new(alloc);
    params.push(declared(alloc, b"a", ParamKind::SortName)?)?;
    params.push(declared(alloc, b"n", ParamKind::Width)?)?;
    params.push(declared(alloc, b"j", ParamKind::Index)?)?;
    params.push(declared(alloc, b"x", ParamKind::Term(Sort::Named(0)))?)?;
    params.push(declared(alloc, b"y", ParamKind::Term(word))?)?;
    params.push(declared(alloc, b"ps", ParamKind::List(Sort::Bool))?)?;
    Ok(params)
}

// `(extract j 0 y)`
fn low_bits(alloc: Global) -> Result<Tree, AllocError>
    ensures { IfOk result (λ t. t ≡ low_bits) }
{
    let mut indices = Linears::new(alloc);
    indices.push(Linear::name(alloc, 2)?)?;
    indices.push(Linear::constant(alloc, 0))?;
    let mut args = Trees::new(alloc);
    args.push(param(alloc, 4))?;
    Ok(Tree {
        head: Head::Extract,
        indices,
        args,
    })
}

fn kinds_left(alloc: Global) -> Result<Tree, AllocError>
    ensures { IfOk result (λ t. t ≡ kinds_left) }
{
    let terms = two(alloc, param(alloc, 3), param(alloc, 3))?;
    let words = two(alloc, low_bits(alloc)?, low_bits(alloc)?)?;
    let terms = on(alloc, Head::Equal, terms);
    let words = on(alloc, Head::Equal, words);
    let mut args = two(alloc, terms, words)?;
    args.push(param(alloc, 5))?;
    Ok(on(alloc, Head::And, args))
}

fn kinds(alloc: Global) -> Result<Rule, AllocError>
    ensures { IfOk result (λ r. r ≡ kinds) }
{
    Ok(Rule {
        name: Text::of(alloc, b"kinds")?,
        kind: RuleKind::Plain,
        params: kinds_params(alloc)?,
        bounds: Constraints::new(alloc),
        premises: Trees::new(alloc),
        left: kinds_left(alloc)?,
        right: on(alloc, Head::True, Trees::new(alloc)),
        context: None,
    })
}

/// `sw` and `kinds`, in this order.
#[tactic(auto, using(crate::proofs::TestForms::swap_form, crate::proofs::TestForms::kinds_form))]
pub fn book(alloc: Global) -> Result<Book, Fail> {
    let mut book = Book::new(alloc);
    book.add(type_rule(alloc, swap(alloc)?)?, false)?;
    book.add(type_rule(alloc, kinds(alloc)?)?, false)?;
    Ok(book)
}
