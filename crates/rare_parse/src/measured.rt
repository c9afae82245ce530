//! Terms of rules with their measures, so that the limits of an application take no walk.
ghost use Rattle.std.specs.Prelude.{◌≡◌, [], ◌∷◌, ◌++◌, ℕ, List, IfOk, OnOk};
ghost use Rattle.rare_linear.specs.Linears.{LinearExpression};
ghost use Rattle.rare_parse.specs.RuleTermText.{application_at, is_large};
ghost use Rattle.rare_parse.specs.inner.TermReading.{only_tree, AreCounted, IsMeasured};
ghost use Rattle.rare_scope.specs.Answers.{Answers};
ghost use Rattle.rare_sort.specs.Trees.{node};
ghost use Rattle.rare_sort.specs.declared.head.Head.{Head};

use rare_base::{Fault, Reason};
use rare_linear::Linears;
use rare_operators::IndexedHead;
use rare_scope::refusal_at;
use rare_sexpr::Expr;
use rare_sort::{Head, Tree, Trees};
use std::alloc::{AllocError, Global};

/// The most arguments of an application.
const MOST_ARGS: usize = 256;

/// The deepest nesting of a term. A term without arguments counts as 1.
const MOST_NESTED: usize = 2000;

/// The most nodes of a term, counted with repeats.
const MOST_NODES: usize = 1048576;

/// A term with its nesting and the number of its nodes.
#[derive(Debug, Drop)]
pub struct ReadTerm {
    pub tree: Tree,
    pub nesting: usize,
    pub nodes: usize,
}

/// Arguments with their greatest nesting and their nodes, which are counted up to `MOST_NODES`.
#[derive(Debug, Drop)]
pub struct Arguments {
    pub trees: Trees,
    pub nesting: usize,
    pub nodes: usize,
}

/// The term without arguments.
#[tactic(auto, using(crate::proofs::MeasureLemmas::leaf_measured))]
pub fn leaf(alloc: Global, head: Head, indices: Linears) -> ReadTerm
    ensures tree { result.tree ≡ node head indices [] }
    ensures measured { IsMeasured result }
{
    ReadTerm {
        tree: Tree {
            head,
            indices,
            args: Trees::new(alloc),
        },
        nesting: 1,
        nodes: 1,
    }
}

/// No arguments.
pub fn no_arguments(alloc: Global) -> Arguments
    ensures none { result.trees ≡ [] }
    ensures counted { AreCounted result }
{
    Arguments {
        trees: Trees::new(alloc),
        nesting: 0,
        nodes: 0,
    }
}

/// The arguments with one more behind them. The error is want of memory.
#[tactic(auto, using(crate::proofs::MeasureLemmas::more_counted))]
pub fn with_argument(arguments: Arguments, term: ReadTerm) -> Result<Arguments, AllocError>
    requires counted { AreCounted arguments }
    requires measured { IsMeasured term }
    ensures trees { IfOk result (λ a. a.trees ≡ arguments.trees ++ term.tree ∷ []) }
    ensures counted { IfOk result AreCounted }
{
    let nesting = arguments.nesting.max(term.nesting);
    let nodes = (arguments.nodes + term.nodes).min(MOST_NODES);
    let mut trees = arguments.trees;
    trees.push(term.tree)?;
    Ok(Arguments {
        trees,
        nesting,
        nodes,
    })
}

// Whether an application to the arguments is beyond a limit of terms.
#[tactic(auto, using(crate::proofs::MeasureLemmas::large_by))]
fn is_beyond(arguments: &Arguments) -> bool
    requires { AreCounted arguments.now }
    ensures { (h : Head) (ix : List LinearExpression) → result ≡ is_large h ix arguments.now.trees }
{
    arguments.trees.len() > MOST_ARGS
        || arguments.nesting >= MOST_NESTED
        || arguments.nodes >= MOST_NODES
}

/// The application of an operator, which `e` spells, to the arguments: `TermLimit` at `e` where it has more
/// than 256 arguments, nests more than 2,000 deep or has more than 1,048,576 nodes.
#[tactic(auto, using(crate::proofs::MeasureLemmas::beyond_limits, crate::proofs::MeasureLemmas::within_limits, crate::proofs::MeasureLemmas::node_measured))]
pub fn application<E: Expr>(
    e: &E,
    operator: IndexedHead,
    arguments: Arguments,
) -> Result<ReadTerm, Fault>
    requires { AreCounted arguments }
    ensures read { Answers (only_tree result)
        (application_at (E.tree e.now) operator arguments.trees) }
    ensures measured { IfOk result IsMeasured }
{
    if is_beyond(&arguments) {
        return Err(refusal_at(e, Reason::TermLimit));
    }
    Ok(ReadTerm {
        nesting: arguments.nesting + 1,
        nodes: arguments.nodes + 1,
        tree: Tree {
            head: operator.head,
            indices: operator.indices,
            args: arguments.trees,
        },
    })
}
