//! The width of the elements of a list, where the list is empty.
ghost use Rattle.std.specs.Prelude.{◌≡◌, ℕ, true, All, length, map, slice_get, Some, IfOk, IsTrue};
ghost use Rattle.rare_linear.specs.Linears.{NamesBelow, substitute};
ghost use Rattle.rare_sort.specs.DeclaredSorts.{AreNamed, widths};
ghost use Rattle.rare_rule.specs.Params.{kind_at};
ghost use Rattle.rare_term.specs.State.{State};
ghost use Rattle.rare_inst.specs.Answers.{AreGiven, IsGiven, is_named_sort};
ghost use Rattle.rare_inst.specs.Collapse.{first_sort, width_or_zero};
ghost use Rattle.rare_inst.specs.Instance.{instance};
ghost use Rattle.rare_inst.specs.Substituting as spec;
ghost use Rattle.rare_inst.specs.Substituting.{Substitution, is_sort_within};
ghost use Rattle.rare_inst.specs.inner.Making.{HasSortWithin, IsPartOf, put_elements, putting};
ghost use Rattle.rare_inst.specs.inner.Sites.{HasNamedSort};
ghost use Rattle.rare_inst.specs.inner.Standing.{HasSorts, StandsFor, sort_standing};

use crate::arg::Arg;
use crate::part::Part;
use crate::substitution::Numbers;
use rare_linear::Linear;
use rare_rule::ParamKind;
use rare_sort::{Head, Sort, Tree};
use std::alloc::{AllocError, Global};

/// The width of a sort of bit vectors, and 0 of another sort.
fn width_of_sort(alloc: Global, sort: &Sort) -> Result<Linear, AllocError>
    ensures value { IfOk result (λ w. w ≡ width_or_zero sort.now) }
    ensures named { (n : ℕ) → IsTrue (is_named_sort n sort.now) →
        IfOk result (λ w. NamesBelow n w.parts) }
{
    match sort {
        Sort::BitVec(width) => width.copy(alloc),
        _ => Ok(Linear::constant(alloc, 0)),
    }
}

/// The width of an argument that is a sort of bit vectors, and 0 of another.
fn width_of_arg(alloc: Global, arg: &Arg) -> Result<Linear, AllocError>
    ensures value { IfOk result (λ w. w ≡ width_or_zero (sort_standing (Some arg.now))) }
    ensures named { (s : State) → IsGiven s arg.now →
        IfOk result (λ w. NamesBelow (widths s.declared) w.parts) }
{
    match arg {
        Arg::Sort(sort) => width_of_sort(alloc, sort),
        _ => Ok(Linear::constant(alloc, 0)),
    }
}

/// The width of the sort that stands for name `k`, and 0 where it is no sort of bit vectors.
fn width_of_name(alloc: Global, args: &[Arg], k: u32) -> Result<Linear, AllocError>
    ensures value { IfOk result (λ w. w ≡ width_or_zero (sort_standing (slice_get args.now k))) }
    ensures named { (s : State) → AreGiven s args.now →
        IfOk result (λ w. NamesBelow (widths s.declared) w.parts) }
{
    match args.get(k as usize) {
        Some(arg) => width_of_arg(alloc, arg),
        None => Ok(Linear::constant(alloc, 0)),
    }
}

/// The width with what stands for its names, which is within `i128`.
fn width_put(alloc: Global, numbers: &Numbers, width: &Linear) -> Result<Linear, AllocError>
    requires { NamesBelow (length numbers.now.values) width.now.parts }
    ensures value { (a : Substitution) → StandsFor a numbers.now →
        spec.is_put_within a width.now ≡ true →
        IfOk result (λ w. w ≡ substitute a.number width.now) }
    ensures named { (n : ℕ) → AreNamed n numbers.now.values →
        IfOk result (λ w. NamesBelow n w.parts) }
{
    match numbers.put(width)? {
        Some(put) => Ok(put),
        None => Ok(Linear::constant(alloc, 0)),
    }
}

/// The width of the elements of this sort, with what stands for its names, and 0 where it is no sort
/// of bit vectors.
fn width_of_elements(
    alloc: Global,
    numbers: &Numbers,
    args: &[Arg],
    sort: &Sort,
) -> Result<Linear, AllocError>
    requires { IsTrue (is_named_sort (length numbers.now.values) sort.now) }
    ensures value { (a : Substitution) → StandsFor a numbers.now → HasSorts a args.now →
        is_sort_within a sort.now ≡ true →
        IfOk result (λ w. w ≡ width_or_zero (spec.put_sort a.number a.sort sort.now)) }
    ensures named { (s : State) → AreGiven s args.now →
        AreNamed (widths s.declared) numbers.now.values →
        IfOk result (λ w. NamesBelow (widths s.declared) w.parts) }
{
    match sort {
        Sort::BitVec(width) => width_put(alloc, numbers, width),
        Sort::Named(k) => width_of_name(alloc, args, *k),
        _ => Ok(Linear::constant(alloc, 0)),
    }
}

/// The width of the elements of a list of this kind of parameter, and 0 of another kind.
fn width_of_kind(alloc: Global, part: &Part, kind: &ParamKind) -> Result<Linear, AllocError>
    requires { HasNamedSort (length part.now.numbers.now.values) kind.now }
    ensures value { (s : State) → IsPartOf s part.now →
        HasSortWithin (putting s part.now) kind.now →
        IfOk result (λ w. w ≡ width_or_zero (put_elements (putting s part.now) (Some kind.now))) }
    ensures named { (s : State) → IsPartOf s part.now →
        IfOk result (λ w. NamesBelow (widths s.declared) w.parts) }
{
    match kind {
        ParamKind::List(sort) => width_of_elements(alloc, part.numbers, part.args, sort),
        _ => Ok(Linear::constant(alloc, 0)),
    }
}

/// The width of the elements of the parameter `k`, and 0 where it is no list.
fn width_of_param(alloc: Global, part: &Part, k: u32) -> Result<Linear, AllocError>
    requires { All (λ p. HasNamedSort (length part.now.numbers.now.values) p.kind)
        part.now.params.now }
    ensures value { (s : State) → IsPartOf s part.now →
        IfOk result (λ w. w ≡ width_or_zero
        (put_elements (putting s part.now) (kind_at part.now.params.now k))) }
    ensures named { (s : State) → IsPartOf s part.now →
        IfOk result (λ w. NamesBelow (widths s.declared) w.parts) }
{
    match part.params.get(k as usize) {
        Some(param) => width_of_kind(alloc, part, &param.kind),
        None => Ok(Linear::constant(alloc, 0)),
    }
}

/// The width of the elements of what stands for name `k`, and 0 where it is a term.
fn width_of_group(alloc: Global, part: &Part, k: u32) -> Result<Linear, AllocError>
    requires { All (λ p. HasNamedSort (length part.now.numbers.now.values) p.kind)
        part.now.params.now }
    ensures value { (s : State) → IsPartOf s part.now →
        IfOk result (λ w. w ≡ width_or_zero ((putting s part.now).group k).element) }
    ensures named { (s : State) → IsPartOf s part.now →
        IfOk result (λ w. NamesBelow (widths s.declared) w.parts) }
{
    match part.args.get(k as usize) {
        Some(Arg::Term(_)) => Ok(Linear::constant(alloc, 0)),
        _ => width_of_param(alloc, part, k),
    }
}

/// The width of the elements of the first argument, and 0 where it is no list.
pub(crate) fn width_of_first(
    alloc: Global,
    part: &Part,
    args: &[Tree],
) -> Result<Linear, AllocError>
    requires { All (λ p. HasNamedSort (length part.now.numbers.now.values) p.kind)
        part.now.params.now }
    ensures value { (s : State) → IsPartOf s part.now →
        IfOk result (λ w. w ≡ width_or_zero
        (first_sort (map (instance (putting s part.now)) args.now))) }
    ensures named { (s : State) → IsPartOf s part.now →
        IfOk result (λ w. NamesBelow (widths s.declared) w.parts) }
{
    match args {
        [first, ..] => match first.head {
            Head::Param(k) => width_of_group(alloc, part, k),
            _ => Ok(Linear::constant(alloc, 0)),
        },
        [] => Ok(Linear::constant(alloc, 0)),
    }
}
