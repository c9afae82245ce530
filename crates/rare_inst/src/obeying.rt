//! Whether an argument obeys the rules of arguments.
ghost use Rattle.std.specs.Prelude.{◌≡◌, ◌<◌, ◌&&◌, ◌||◌, not, length, Some, IfOk, IsTrue};
ghost use Rattle.std.specs.List.{list_all};
ghost use Rattle.rare_linear.specs.Linears.{NamesBelow};
ghost use Rattle.rare_sort.specs.DeclaredSorts.{widths};
ghost use Rattle.rare_sort.specs.Ids.{AreIds, tree_at, trees_at};
ghost use Rattle.rare_sort.specs.Sameness.{sort_eq};
ghost use Rattle.rare_sort.specs.SortOf.{sort_of};
ghost use Rattle.rare_rule.specs.Nodes.{nodes_of};
ghost use Rattle.rare_rule.specs.declared.param.ParamKind.TheVariants as kind;
ghost use Rattle.rare_inst.specs.Admission as spec;
ghost use Rattle.rare_inst.specs.Answers.{IsGiven, is_named_sort};
ghost use Rattle.rare_inst.specs.Arguments.{OfLinear, argument_of};
ghost use Rattle.rare_inst.specs.Substituting.{Substitution, is_sort_within, number_given};
ghost use Rattle.rare_inst.specs.inner.RuleTrees.{IsRuleTree};
ghost use Rattle.rare_inst.specs.inner.Sites.{HasNamedSort, IsPutAt};

use crate::arg::Arg;
use crate::entailed::{both, has_widths, is_at_least_one};
use crate::literals::fits_literals;
use crate::sorts::{are_words, put_sort};
use crate::substitution::Numbers;
use crate::values::is_value_term;
use rare_linear::Linear;
use rare_rule::{Param, ParamKind};
use rare_sort::{Sort, TermId, Tree, is_same_sort, number_of};
use rare_term::Terms;
use std::alloc::{AllocError, Global};

/// The arguments of a rule, the numbers that they are, and the rule's left side.
#[derive(Drop)]
pub(crate) struct Site<'a> {
    pub(crate) args: &'a [Arg],
    pub(crate) numbers: &'a Numbers,
    pub(crate) left: &'a Tree,
}

/// Whether the term has the sort.
fn has_sort<T: Terms>(terms: &T, id: TermId, sort: &Sort) -> bool
    requires { id.0 < length (T.state terms.now).trees }
    ensures { result ≡ sort_eq (sort_of (T.state terms.now).declared.symbols
        (tree_at (T.state terms.now).trees id.0)) sort.now }
{
    is_same_sort(terms.sort(id), sort)
}

/// Whether each term has the sort.
fn have_sort<T: Terms>(terms: &T, ids: &[TermId], sort: &Sort) -> bool
    requires { AreIds (length (T.state terms.now).trees) ids.now }
    ensures { result ≡ list_all
        (λ t. sort_eq (sort_of (T.state terms.now).declared.symbols t) sort.now)
        (trees_at (T.state terms.now).trees ids.now) }
{
    for id in ids {
        if !has_sort(terms, *id, sort) {
            return false;
        }
    }
    true
}

/// Whether the term has what the sort becomes, if this is a sort.
fn obeys_term<T: Terms>(
    alloc: Global,
    terms: &T,
    site: &Site,
    sort: &Sort,
    id: TermId,
) -> Result<bool, AllocError>
    requires id { id.0 < length (T.state terms.now).trees }
    requires sort { IsTrue (is_named_sort (length site.now.numbers.now.values) sort.now) }
    ensures { (a : Substitution) → IsPutAt a site.now →
        IfOk result (λ b. b ≡ (is_sort_within a sort.now
        && spec.has_put_sort (T.state terms.now).declared (nodes_of site.now.left.now) a sort.now
        (tree_at (T.state terms.now).trees id.0))) }
{
    match put_sort(alloc, site.numbers, site.args, sort)? {
        Some(put) => Ok(has_sort(terms, id, &put)),
        None => Ok(false),
    }
}

/// Whether each term has what the sort becomes, if this is a sort.
fn obeys_list<T: Terms>(
    alloc: Global,
    terms: &T,
    site: &Site,
    sort: &Sort,
    ids: &[TermId],
) -> Result<bool, AllocError>
    requires ids { AreIds (length (T.state terms.now).trees) ids.now }
    requires sort { IsTrue (is_named_sort (length site.now.numbers.now.values) sort.now) }
    ensures { (a : Substitution) → IsPutAt a site.now →
        IfOk result (λ b. b ≡ (is_sort_within a sort.now
        && list_all (spec.has_put_sort (T.state terms.now).declared (nodes_of site.now.left.now) a
        sort.now)
        (trees_at (T.state terms.now).trees ids.now))) }
{
    match put_sort(alloc, site.numbers, site.args, sort)? {
        Some(put) => Ok(have_sort(terms, ids, &put)),
        None => Ok(false),
    }
}

/// Whether the number fits each literal of the left side whose value is name `k` alone.
fn fits_left(site: &Site, k: usize, e: &Linear) -> Result<bool, AllocError>
    requires { IsRuleTree (length site.now.numbers.now.values) site.now.left.now }
    ensures { (a : Substitution) → IsPutAt a site.now → a.number k ≡ e.now →
        IfOk result (λ b. b ≡ spec.fits_literals a k (nodes_of site.now.left.now)) }
{
    fits_literals(site.numbers, k, number_of(e), site.left)
}

/// Whether a width is at least 1 and fits the literals.
fn obeys_width<T: Terms>(
    alloc: Global,
    terms: &T,
    site: &Site,
    k: usize,
    e: &Linear,
) -> Result<bool, AllocError>
    requires names { NamesBelow (widths (T.state terms.now).declared) e.now.parts }
    requires left { IsRuleTree (length site.now.numbers.now.values) site.now.left.now }
    ensures { (a : Substitution) → IsPutAt a site.now → a.number k ≡ e.now →
        IfOk result (λ b. b ≡ spec.obeys_kind (T.state terms.now).declared
        (nodes_of site.now.left.now) a k
        kind.Width (OfLinear e.now)) }
{
    let positive = is_at_least_one(alloc, terms, e)?;
    let fits = fits_left(site, k, e)?;
    Ok(both(positive, fits))
}

/// Whether an index is at least 0 and fits the literals.
fn obeys_index<T: Terms>(terms: &T, site: &Site, k: usize, e: &Linear) -> Result<bool, AllocError>
    requires names { NamesBelow (widths (T.state terms.now).declared) e.now.parts }
    requires left { IsRuleTree (length site.now.numbers.now.values) site.now.left.now }
    ensures { (a : Substitution) → IsPutAt a site.now → a.number k ≡ e.now →
        IfOk result (λ b. b ≡ spec.obeys_kind (T.state terms.now).declared
        (nodes_of site.now.left.now) a k
        kind.Index (OfLinear e.now)) }
{
    let natural = terms.entailed(e);
    let fits = fits_left(site, k, e)?;
    Ok(both(natural, fits))
}

/// Whether argument `k` is of this kind, and obeys its rule.
fn obeys_kind<T: Terms>(
    alloc: Global,
    terms: &T,
    site: &Site,
    k: usize,
    kind: &ParamKind,
    arg: &Arg,
) -> Result<bool, AllocError>
    requires arg { IsGiven (T.state terms.now) arg.now }
    requires sort { HasNamedSort (length site.now.numbers.now.values) kind.now }
    requires left { IsRuleTree (length site.now.numbers.now.values) site.now.left.now }
    ensures { (a : Substitution) → IsPutAt a site.now →
        a.number k ≡ number_given (T.state terms.now).declared.symbols
        (Some (argument_of (T.state terms.now).trees arg.now)) →
        IfOk result (λ b. b ≡ spec.obeys_kind (T.state terms.now).declared
        (nodes_of site.now.left.now) a k
        kind.now (argument_of (T.state terms.now).trees arg.now)) }
{
    match (kind, arg) {
        (ParamKind::SortName, Arg::Sort(sort)) => has_widths(alloc, terms, sort),
        (ParamKind::Width, Arg::Linear(e)) => obeys_width(alloc, terms, site, k, e),
        (ParamKind::Index, Arg::Linear(e)) => obeys_index(terms, site, k, e),
        (ParamKind::Term(sort), Arg::Term(id)) => obeys_term(alloc, terms, site, sort, *id),
        (ParamKind::List(sort), Arg::List(ids)) => {
            obeys_list(alloc, terms, site, sort, ids.items())
        }
        (ParamKind::WideList, Arg::List(ids)) => Ok(are_words(terms, ids.items())),
        _ => Ok(false),
    }
}

/// Whether the argument is a term that is a value.
fn is_value_argument<T: Terms>(terms: &T, arg: &Arg) -> bool
    requires { IsGiven (T.state terms.now) arg.now }
    ensures { result ≡ spec.is_value_argument (argument_of (T.state terms.now).trees arg.now) }
{
    match arg {
        Arg::Term(id) => is_value_term(terms, *id),
        _ => false,
    }
}

/// Whether it may be, where a constant has to be a value.
fn is_allowed(constant: bool, is_value: bool) -> bool
    ensures { result ≡ (not constant || is_value) }
{
    !constant || is_value
}

/// Whether argument `k` obeys the rules of arguments for this parameter.
pub(crate) fn obeys<T: Terms>(
    alloc: Global,
    terms: &T,
    site: &Site,
    k: usize,
    param: &Param,
    arg: &Arg,
) -> Result<bool, AllocError>
    requires arg { IsGiven (T.state terms.now) arg.now }
    requires sort { HasNamedSort (length site.now.numbers.now.values) param.now.kind }
    requires left { IsRuleTree (length site.now.numbers.now.values) site.now.left.now }
    ensures { (a : Substitution) → IsPutAt a site.now →
        a.number k ≡ number_given (T.state terms.now).declared.symbols
        (Some (argument_of (T.state terms.now).trees arg.now)) →
        IfOk result (λ b. b ≡ spec.obeys (T.state terms.now).declared (nodes_of site.now.left.now) a
        k
        param.now (Some (argument_of (T.state terms.now).trees arg.now))) }
{
    let is_of_kind = obeys_kind(alloc, terms, site, k, &param.kind, arg)?;
    let is_value = is_value_argument(terms, arg);
    Ok(both(is_of_kind, is_allowed(param.constant, is_value)))
}
