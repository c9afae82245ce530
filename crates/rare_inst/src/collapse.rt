//! What an application becomes where lists are spliced in among its arguments.
ghost use Rattle.std.specs.Prelude.{◌≡◌, ◌∷◌, [], All, length, map};
ghost use Rattle.rare_linear.specs.Linears.{NamesBelow, number};
ghost use Rattle.rare_sort.specs.DeclaredSorts.{AreNamed, IsSymbol, widths};
ghost use Rattle.rare_sort.specs.Families.{family};
ghost use Rattle.rare_sort.specs.Ids.{AreIds, trees_at};
ghost use Rattle.rare_sort.specs.Sorting as sorting;
ghost use Rattle.rare_term.specs.Literals.{IsGiven};
ghost use Rattle.rare_term.specs.State.{Grows};
ghost use Rattle.rare_sort.specs.Trees.{args_of, head_of};
ghost use Rattle.rare_sort.specs.declared.head.Head.TheVariants as head;
ghost use Rattle.rare_sort.specs.declared.sort.Sort.{BitVec};
ghost use Rattle.rare_inst.specs.Collapse as spec;
ghost use Rattle.rare_inst.specs.Collapse.{Applied, first_sort};
ghost use Rattle.rare_inst.specs.Instance.{instance};
ghost use Rattle.rare_inst.specs.Substituting.{tree_group};
ghost use Rattle.rare_inst.specs.inner.Making.{AnswersReduct, IsPartOf, putting};
ghost use Rattle.rare_inst.specs.inner.Sites.{HasNamedSort};

use crate::elements::width_of_first;
use crate::fault::InstFault;
use crate::part::Part;
use rare_linear::Linear;
use rare_sort::{Head, TermId, Tree};
use rare_term::{TermError, Terms};
use std::alloc::Global;

/// The id of an application, unless it is refused.
#[tactic(auto, using(crate::proofs::Made::adds_grow))]
fn apply<T: Terms>(
    terms: &mut T,
    head: Head,
    indices: &[Linear],
    ids: &[TermId],
) -> Result<TermId, InstFault>
    requires ids { AreIds (length (T.state terms.old).trees) ids.now }
    requires symbol { IsSymbol (length (T.state terms.old).declared.symbols) (family head) }
    requires names { AreNamed (widths (T.state terms.old).declared) indices.now }
    requires bits { IsGiven head indices.now }
    ensures made { AnswersReduct (T.state terms.old).declared (T.state terms.new).trees
        (Applied head indices.now (trees_at (T.state terms.old).trees ids.now)) result }
    ensures grows { Grows (T.state terms.old) (T.state terms.new) }
{
    match terms.make(head, indices, ids) {
        Ok(id) => Ok(id),
        Err(TermError::Memory) => Err(InstFault::Memory),
        Err(_) => Err(InstFault::Limit),
    }
}

/// Whether lists are spliced in among the operator's arguments.
fn splices(head: Head) -> bool
    ensures { result ≡ sorting.splices head }
{
    match head {
        Head::And
        | Head::Or
        | Head::Add
        | Head::Mul
        | Head::BvAdd
        | Head::BvMul
        | Head::BvAnd
        | Head::BvOr
        | Head::BvXor
        | Head::Concat => true,
        _ => false,
    }
}

/// The literal of this value and width.
fn literal<T: Terms>(
    alloc: Global,
    terms: &mut T,
    value: i128,
    width: Linear,
) -> Result<TermId, InstFault>
    requires { NamesBelow (widths (T.state terms.old).declared) width.parts }
    ensures made { AnswersReduct (T.state terms.old).declared (T.state terms.new).trees
        (Applied head.Literal (number value ∷ width ∷ []) []) result }
    ensures grows { Grows (T.state terms.old) (T.state terms.new) }
{
    let value = Linear::constant(alloc, value);
    apply(terms, Head::Literal, &[value, width], &[])
}

/// What an operator without arguments becomes, by the width of the elements of its lists.
fn neutral<T: Terms>(
    alloc: Global,
    terms: &mut T,
    head: Head,
    width: Linear,
) -> Result<TermId, InstFault>
    requires symbol { IsSymbol (length (T.state terms.old).declared.symbols) (family head) }
    requires width { NamesBelow (widths (T.state terms.old).declared) width.parts }
    ensures made { AnswersReduct (T.state terms.old).declared (T.state terms.new).trees
        (spec.neutral head (BitVec width)) result }
    ensures grows { Grows (T.state terms.old) (T.state terms.new) }
{
    match head {
        Head::And => apply(terms, Head::True, &[], &[]),
        Head::Or => apply(terms, Head::False, &[], &[]),
        Head::Add => apply(terms, Head::Numeral(0), &[], &[]),
        Head::Mul => apply(terms, Head::Numeral(1), &[], &[]),
        Head::BvAdd | Head::BvOr | Head::BvXor => literal(alloc, terms, 0, width),
        Head::BvMul => literal(alloc, terms, 1, width),
        Head::BvAnd => literal(alloc, terms, -1, width),
        _ => apply(terms, head, &[], &[]),
    }
}

/// What an operator without arguments becomes, by the part and the trees of its arguments, all of them
/// lists without terms.
fn emptied<T: Terms>(
    alloc: Global,
    terms: &mut T,
    part: &Part,
    tree: &Tree,
) -> Result<TermId, InstFault>
    requires part { IsPartOf (T.state terms.old) part.now }
    requires sorts { All (λ p. HasNamedSort (length part.now.numbers.now.values) p.kind)
        part.now.params.now }
    requires symbol { IsSymbol (length (T.state terms.old).declared.symbols)
        (family (head_of tree.now)) }
    ensures made { AnswersReduct (T.state terms.old).declared (T.state terms.new).trees
        (spec.neutral (head_of tree.now)
        (first_sort (map (instance (putting (T.state terms.old) part.now)) (args_of tree.now))))
        result }
    ensures grows { Grows (T.state terms.old) (T.state terms.new) }
{
    let width = width_of_first(alloc, part, tree.args.items())?;
    neutral(alloc, terms, tree.head, width)
}

/// What an operator among whose arguments lists are spliced in becomes.
fn collapsed<T: Terms>(
    alloc: Global,
    terms: &mut T,
    part: &Part,
    tree: &Tree,
    indices: &[Linear],
    ids: &[TermId],
) -> Result<TermId, InstFault>
    requires part { IsPartOf (T.state terms.old) part.now }
    requires sorts { All (λ p. HasNamedSort (length part.now.numbers.now.values) p.kind)
        part.now.params.now }
    requires ids { AreIds (length (T.state terms.old).trees) ids.now }
    requires symbol { IsSymbol (length (T.state terms.old).declared.symbols)
        (family (head_of tree.now)) }
    requires names { AreNamed (widths (T.state terms.old).declared) indices.now }
    requires bits { IsGiven (head_of tree.now) indices.now }
    ensures made { AnswersReduct (T.state terms.old).declared (T.state terms.new).trees
        (spec.collapsed (head_of tree.now) indices.now
        (first_sort (map (instance (putting (T.state terms.old) part.now)) (args_of tree.now)))
        (trees_at (T.state terms.old).trees ids.now)) result }
    ensures grows { Grows (T.state terms.old) (T.state terms.new) }
{
    match ids {
        [] => emptied(alloc, terms, part, tree),
        [only] => Ok(*only),
        _ => apply(terms, tree.head, indices, ids),
    }
}

/// What an application becomes, with these indices and arguments.
pub(crate) fn reduct<T: Terms>(
    alloc: Global,
    terms: &mut T,
    part: &Part,
    tree: &Tree,
    indices: &[Linear],
    ids: &[TermId],
) -> Result<TermId, InstFault>
    requires part { IsPartOf (T.state terms.old) part.now }
    requires sorts { All (λ p. HasNamedSort (length part.now.numbers.now.values) p.kind)
        part.now.params.now }
    requires ids { AreIds (length (T.state terms.old).trees) ids.now }
    requires symbol { IsSymbol (length (T.state terms.old).declared.symbols)
        (family (head_of tree.now)) }
    requires names { AreNamed (widths (T.state terms.old).declared) indices.now }
    requires bits { IsGiven (head_of tree.now) indices.now }
    ensures made { AnswersReduct (T.state terms.old).declared (T.state terms.new).trees
        (spec.reduct (head_of tree.now) indices.now (tree_group
        (first_sort (map (instance (putting (T.state terms.old) part.now)) (args_of tree.now)))
        (trees_at (T.state terms.old).trees ids.now))) result }
    ensures grows { Grows (T.state terms.old) (T.state terms.new) }
{
    if splices(tree.head) {
        collapsed(alloc, terms, part, tree, indices, ids)
    } else {
        apply(terms, tree.head, indices, ids)
    }
}
