//! The value of a term, over ids.
ghost use Rattle.std.specs.Prelude.{◌≡◌, ◌<◌, ◌≤◌, ◌&&◌, ℤ, true, false, not, nat_eq, IfSome, List, None, length, map};
ghost use Rattle.std.specs.List.{list_any};
ghost use Rattle.std.specs.Option.{option_map};
ghost use Rattle.rare_meaning.specs.ClosedSorts.{to_nat};
ghost use Rattle.rare_meaning.specs.Operators.{index};
ghost use Rattle.rare_sort.specs.Ids.{tree_at};
ghost use Rattle.rare_sort.specs.SortOf.{sort_of};
ghost use Rattle.rare_sort.specs.Trees.{args_of, head_of, indices_of};
ghost use Rattle.rare_eval.specs.Evaluation.{evaluation};
ghost use Rattle.rare_eval.specs.Limited.{IsLimited};
ghost use Rattle.rare_eval.specs.ValueItems.{value_item};
ghost use Rattle.rare_eval.specs.inner.Groups.{is_unvalued};
ghost use Rattle.rare_eval.specs.inner.Suits.{FewOrTruths};
ghost use Rattle.rare_eval.specs.inner.Indices.{number_at};

use crate::progress::{Progress, finish, next};
use crate::values::{Value, ordinal};
use rare_sort::{Head, Sort, TermId, is_same_sort, number_of};
use rare_term::Terms;

/// The most arguments of an application, which is a limit of terms.
const MOST_ARGS: usize = 256;

/// Index `k` as a number, 0 where there is no such index; none where it has a name.
#[tactic(auto, using(crate::proofs::IndexLemmas::number_of_index, crate::proofs::IndexLemmas::number_behind))]
fn index_number<T: Terms>(terms: &T, id: TermId, k: usize) -> Option<i128>
    requires { id.0 < length (T.state terms.now).trees }
    ensures { result ≡ number_at (indices_of (tree_at (T.state terms.now).trees id.0)) k }
{
    if k < terms.index_count(id) {
        number_of(terms.index(id, k))
    } else {
        Some(0)
    }
}

/// Whether applications of the operator have no value, whatever their arguments.
fn is_unvalued(head: Head) -> bool
    ensures { result ≡ is_unvalued head }
{
    match head {
        Head::Free(_) | Head::Param(_) | Head::Hole | Head::Select | Head::Store => true,
        Head::Literal => true,
        _ => false,
    }
}

/// Whether it is `distinct` of more than two arguments that are no truth values.
fn is_distinct_of_many<T: Terms>(terms: &T, id: TermId, head: Head) -> bool
    requires id { id.0 < length (T.state terms.now).trees }
    requires head { head ≡ head_of (tree_at (T.state terms.now).trees id.0) }
    ensures head { result ≡ true → head ≡ Head.Distinct }
    ensures few { result ≡ false → head ≡ Head.Distinct →
        FewOrTruths (map (sort_of (T.state terms.now).declared.symbols)
        (args_of (tree_at (T.state terms.now).trees id.0))) }
{
    head == Head::Distinct
        && terms.arg_count(id) > 2
        && !is_same_sort(terms.sort(terms.arg(id, 0)), &Sort::Bool)
}

/// Whether all differ with one number more.
fn still_differ(differ: bool, seen: &[u128], number: u128) -> bool
    ensures { result ≡ (differ && not (list_any (λ n. nat_eq n number) seen.now)) }
{
    differ && !seen.contains(&number)
}

/// The value of `distinct` of many arguments that are no truth values.
#[cycle(values)]
#[tactic(auto, using(crate::proofs::CycleLemmas::deeper))]
fn distinct<T: Terms>(terms: &T, id: TermId) -> Option<Value>
    requires id { id.0 < length (T.state terms.now).trees }
    requires head { head_of (tree_at (T.state terms.now).trees id.0) ≡ Head.Distinct }
    ensures value { option_map value_item result
        ≡ evaluation (tree_at (T.state terms.now).trees id.0) }
    ensures limited { IfSome result IsLimited }
{
    let mut seen = [0u128; MOST_ARGS];
    let mut differ = true;
    'arguments: for k in 0..terms.arg_count(id) {
        let Some(v) = value(terms, terms.arg(id, k)) else {
            return None;
        };
        let number = ordinal(v);
        differ = still_differ(differ, &seen[..k], number);
        seen[k] = number;
    }
    Some(Value::Truth(differ))
}

/// The value of a term, or none: a term has a value where it has no free symbol, no array, no name of
/// a width, no division and no remainder of Ints by 0, and every part is within the limits. All
/// arguments are parts, and so is each partial result of a left-associative operator. A whole number
/// is of magnitude up to `2^127 - 1`, and a bit vector has from 1 to 128 bits. The id is of these
/// terms. It takes no memory, and each argument is evaluated as often as it occurs.
#[cycle(values)]
#[tactic(auto, using(crate::proofs::CycleLemmas::deeper))]
pub fn value<T: Terms>(terms: &T, id: TermId) -> Option<Value>
    requires { id.0 < length (T.state terms.now).trees }
    ensures value { option_map value_item result
        ≡ evaluation (tree_at (T.state terms.now).trees id.0) }
    ensures limited { IfSome result IsLimited }
{
    let head = terms.head(id);
    if is_unvalued(head) {
        return None;
    }
    if is_distinct_of_many(terms, id, head) {
        return distinct(terms, id);
    }
    let Some(first) = index_number(terms, id, 0) else {
        return None;
    };
    let Some(second) = index_number(terms, id, 1) else {
        return None;
    };
    let mut progress = Progress::Start;
    'arguments: for k in 0..terms.arg_count(id) {
        let Some(v) = value(terms, terms.arg(id, k)) else {
            return None;
        };
        let Some(more) = next(head, progress, v) else {
            return None;
        };
        progress = more;
    }
    finish(head, first, second, progress)
}
