//! The numbers that arguments are: expressions, and the total widths of lists.
ghost use Rattle.std.specs.Prelude.{◌≡◌, ◌<◌, length, map, pos, Some, All, ℕ, IfOk, IfSome, OnOk};
ghost use Rattle.std.specs.Option.{option_map};
ghost use Rattle.rare_linear.specs.Linears.{NamesBelow, add, number};
ghost use Rattle.rare_sort.specs.DeclaredSorts.{widths, AreNamed};
ghost use Rattle.rare_sort.specs.Each.{Each};
ghost use Rattle.rare_sort.specs.Ids.{AreIds, tree_at, trees_at};
ghost use Rattle.rare_sort.specs.SortOf.{sort_of};
ghost use Rattle.rare_sort.specs.SortRules.{width};
ghost use Rattle.rare_sort.specs.inner.Within.{within};
ghost use Rattle.rare_inst.specs.Answers.{AreGiven, IsGiven};
ghost use Rattle.rare_inst.specs.Arguments.{OfList, argument_of, arguments_of};
ghost use Rattle.rare_inst.specs.InstanceLaws.{HasNormalWidth, IsArgument};
ghost use Rattle.rare_inst.specs.inner.Standing.{AreNumbersOf, number_within, plus_width, plus_widths, term_widths};

use crate::arg::Arg;
use crate::sorts::{are_words, width_of_term};
use crate::substitution::Numbers;
use rare_linear::{Linear, LinearError, Linears};
use rare_list::Sequence;
use rare_sort::TermId;
use rare_term::Terms;
use std::alloc::{AllocError, Global};

/// The sum, where it is within `i128`.
#[tactic(auto, using(crate::proofs::Withins::given_within, crate::proofs::Withins::none_within))]
fn plus(a: &Linear, b: &Linear) -> Result<Option<Linear>, AllocError>
    ensures value { IfOk result (λ o. o ≡ within (add a.now b.now)) }
    ensures named { IfOk result (λ o. (n : ℕ) → NamesBelow n a.now.parts →
        NamesBelow n b.now.parts →
        IfSome o (λ s. NamesBelow n s.parts)) }
{
    match a.add(b) {
        Ok(sum) => Ok(Some(sum)),
        Err(LinearError::TooLarge) => Ok(None),
        Err(LinearError::Memory) => Err(AllocError),
    }
}

/// The sum with a width more, if there is one.
fn with_width(sum: Linear, width: Option<&Linear>) -> Result<Option<Linear>, AllocError>
    ensures value { IfOk result
        (λ o. o ≡ plus_width (Some sum) (option_map (λ m. m.now) width.entry)) }
    ensures named { IfOk result (λ o. (n : ℕ) → NamesBelow n sum.parts →
        IfSome width.entry (λ m. NamesBelow n m.now.parts) → IfSome o (λ s. NamesBelow n s.parts)) }
{
    match width {
        Some(width) => plus(&sum, width),
        None => Ok(Some(sum)),
    }
}

/// The sum with a term's width more; a term that is no bit vector adds nothing.
fn with_term<T: Terms>(
    sum: Option<Linear>,
    terms: &T,
    id: TermId,
) -> Result<Option<Linear>, AllocError>
    requires { id.0 < length (T.state terms.now).trees }
    ensures value { IfOk result (λ o. o ≡ plus_width sum
        (width (sort_of (T.state terms.now).declared.symbols
        (tree_at (T.state terms.now).trees id.0)))) }
    ensures named { IfOk result
        (λ o. IfSome sum (λ s. NamesBelow (widths (T.state terms.now).declared) s.parts) →
        IfSome o (λ s. NamesBelow (widths (T.state terms.now).declared) s.parts)) }
    ensures normal { HasNormalWidth
        (sort_of (T.state terms.now).declared.symbols (tree_at (T.state terms.now).trees id.0)) }
{
    let width = width_of_term(terms, id);
    match sum {
        Some(sum) => with_width(sum, width),
        None => Ok(None),
    }
}

/// The sum of the widths of the terms that are bit vectors, or none where a partial sum from the left
/// leaves `i128`.
fn sum_of_widths<T: Terms>(
    alloc: Global,
    terms: &T,
    ids: &[TermId],
) -> Result<Option<Linear>, AllocError>
    requires { AreIds (length (T.state terms.now).trees) ids.now }
    ensures value { IfOk result (λ o. o ≡ plus_widths (Some (number (pos 0)))
        (term_widths (T.state terms.now).declared.symbols
        (trees_at (T.state terms.now).trees ids.now))) }
    ensures named { IfOk result
        (λ o. IfSome o (λ s. NamesBelow (widths (T.state terms.now).declared) s.parts)) }
    ensures normal { OnOk result (All (λ id. HasNormalWidth
        (sort_of (T.state terms.now).declared.symbols (tree_at (T.state terms.now).trees id.0)))
        ids.now) }
{
    let mut sum = Some(Linear::constant(alloc, 0));
    for id in ids {
        sum = with_term(sum, terms, *id)?;
    }
    Ok(sum)
}

/// The total width of the terms, 0 where one is no bit vector, or none where a partial sum from the
/// left leaves `i128`.
fn total<T: Terms>(alloc: Global, terms: &T, ids: &[TermId]) -> Result<Option<Linear>, AllocError>
    requires { AreIds (length (T.state terms.now).trees) ids.now }
    ensures value { IfOk result (λ o. o ≡ number_within (T.state terms.now).declared.symbols
        (OfList (trees_at (T.state terms.now).trees ids.now))) }
    ensures named { IfOk result
        (λ o. IfSome o (λ s. NamesBelow (widths (T.state terms.now).declared) s.parts)) }
    ensures normal { OnOk result (All (λ id. HasNormalWidth
        (sort_of (T.state terms.now).declared.symbols (tree_at (T.state terms.now).trees id.0)))
        ids.now) }
{
    let sum = sum_of_widths(alloc, terms, ids)?;
    if are_words(terms, ids) {
        return Ok(sum);
    }
    match sum {
        Some(_) => Ok(Some(Linear::constant(alloc, 0))),
        None => Ok(None),
    }
}

/// The number that an argument is, 0 for a sort and a term, or none where a total isn't formed.
fn number_of<T: Terms>(alloc: Global, terms: &T, arg: &Arg) -> Result<Option<Linear>, AllocError>
    requires { IsGiven (T.state terms.now) arg.now }
    ensures value { IfOk result (λ o. o ≡ number_within (T.state terms.now).declared.symbols
        (argument_of (T.state terms.now).trees arg.now)) }
    ensures named { IfOk result
        (λ o. IfSome o (λ s. NamesBelow (widths (T.state terms.now).declared) s.parts)) }
    ensures argument { OnOk result (IsArgument (T.state terms.now).declared
        (argument_of (T.state terms.now).trees arg.now)) }
{
    match arg {
        Arg::Linear(e) => {
            let _parts = e.parts();
            Ok(Some(e.copy(alloc)?))
        }
        Arg::List(ids) => total(alloc, terms, ids.items()),
        Arg::Sort(_) => Ok(Some(Linear::constant(alloc, 0))),
        Arg::Term(_) => Ok(Some(Linear::constant(alloc, 0))),
    }
}

/// The numbers that the arguments are.
pub(crate) fn numbers_of<T: Terms>(
    alloc: Global,
    terms: &T,
    args: &[Arg],
) -> Result<Numbers, AllocError>
    requires { AreGiven (T.state terms.now) args.now }
    ensures numbers { IfOk result (AreNumbersOf (T.state terms.now).declared.symbols
        (arguments_of (T.state terms.now).trees args.now)) }
    ensures named { IfOk result (λ n. AreNamed (widths (T.state terms.now).declared) n.values) }
    ensures arguments { OnOk result (Each (IsArgument (T.state terms.now).declared)
        (arguments_of (T.state terms.now).trees args.now)) }
{
    let mut values = Linears::new(alloc);
    let mut formed = Sequence::new(alloc);
    for arg in args {
        let number = number_of(alloc, terms, arg)?;
        formed.push(number.is_some())?;
        values.push(number.unwrap_or(Linear::constant(alloc, 0)))?;
    }
    Ok(Numbers { values, formed })
}
