//! Rules of rows, with their typing.
ghost use Rattle.std.specs.Prelude.{◌≡◌, IfOk, map};
ghost use Rattle.rare_law_parts.specs.RowTerms.{term_of};
ghost use Rattle.rare_law_parts.specs.RowRules.{constraints_of_rows, context_of_row, param_of_row, rule_of_row, typed_of_row, kind_of_row, is_fresh, sort_of_row};
ghost use Rattle.rare_rule.specs.Rules.{IsInForm};
ghost use Rattle.rare_rule.specs.RuleSorting.{Types};

use crate::params::{Kind, ParamRow, SortRow};
use crate::row::{Row, Step, Sum};
use crate::terms::{linear, term};
use rare_base::Text;
use rare_linear::{Constraint, Constraints, Linear};
use rare_list::Boxed;
use rare_rule::{Param, ParamKind, Params, Rule, Typed};
use rare_sort::{Sort, Tree, Trees};
use std::alloc::{AllocError, Global};

fn sort(alloc: Global, row: SortRow) -> Result<Sort, AllocError>
    ensures { IfOk result (λ s. s ≡ sort_of_row row) }
{
    match row {
        SortRow::Truths => Ok(Sort::Bool),
        SortRow::Wholes => Ok(Sort::Int),
        SortRow::Words(k) => Ok(Sort::BitVec(Linear::name(alloc, k)?)),
        SortRow::Named(k) => Ok(Sort::Named(k)),
        SortRow::Arrays(a, b) => {
            let keys = Boxed::new(alloc, Sort::Named(a))?;
            let entries = Boxed::new(alloc, Sort::Named(b))?;
            Ok(Sort::Array(keys, entries))
        }
    }
}

fn kind(alloc: Global, row: Kind) -> Result<ParamKind, AllocError>
    ensures { IfOk result (λ k. k ≡ kind_of_row row) }
{
    match row {
        Kind::SortName => Ok(ParamKind::SortName),
        Kind::Width | Kind::FreshWidth => Ok(ParamKind::Width),
        Kind::Index => Ok(ParamKind::Index),
        Kind::Term(s) => Ok(ParamKind::Term(sort(alloc, s)?)),
        Kind::List(s) => Ok(ParamKind::List(sort(alloc, s)?)),
        Kind::WideList => Ok(ParamKind::WideList),
    }
}

fn is_fresh(row: Kind) -> bool
    ensures { result ≡ is_fresh row }
{
    matches!(row, Kind::FreshWidth)
}

fn params(alloc: Global, rows: &[ParamRow]) -> Result<Params, AllocError>
    ensures { IfOk result (λ ps. ps ≡ map param_of_row rows.now) }
{
    let mut all = Params::new(alloc);
    for row in rows {
        all.push(Param {
            name: Text::of(alloc, row.name)?,
            kind: kind(alloc, row.kind)?,
            constant: false,
            fresh: is_fresh(row.kind),
        })?;
    }
    Ok(all)
}

fn constraints(alloc: Global, rows: &[Sum]) -> Result<Constraints, AllocError>
    ensures { IfOk result (λ cs. cs ≡ constraints_of_rows rows.now) }
{
    let mut all = Constraints::new(alloc);
    for row in rows {
        all.push(Constraint {
            floor: linear(alloc, row)?,
        })?;
    }
    Ok(all)
}

fn terms(alloc: Global, rows: &[&[Step]]) -> Result<Trees, AllocError>
    ensures { IfOk result (λ ts. ts ≡ map (λ p. term_of p.now) rows.now) }
{
    let mut all = Trees::new(alloc);
    for row in rows {
        all.push(term(alloc, row)?)?;
    }
    Ok(all)
}

fn context(alloc: Global, row: Option<&[Step]>) -> Result<Option<Tree>, AllocError>
    ensures { IfOk result (λ t. t ≡ context_of_row row.entry) }
{
    match row {
        Some(steps) => Ok(Some(term(alloc, steps)?)),
        None => Ok(None),
    }
}

fn rule(alloc: Global, row: &Row) -> Result<Rule, AllocError>
    ensures { IfOk result (λ r. r ≡ rule_of_row row.now) }
{
    Ok(Rule {
        name: Text::of(alloc, row.name)?,
        kind: row.kind,
        params: params(alloc, row.params)?,
        bounds: constraints(alloc, row.bounds)?,
        premises: terms(alloc, row.premises)?,
        left: term(alloc, row.left)?,
        right: term(alloc, row.right)?,
        context: context(alloc, row.context)?,
    })
}

/// The row's rule with its typing. An error is want of memory.
pub fn typed(alloc: Global, row: &Row) -> Result<Typed, AllocError>
    requires form { IsInForm (rule_of_row row.now) }
    requires types { Types (rule_of_row row.now) (constraints_of_rows row.now.constraints.now) }
    ensures { IfOk result (λ t. t ≡ typed_of_row row.now) }
{
    let rule = rule(alloc, row)?;
    let constraints = constraints(alloc, row.constraints)?;
    Ok(Typed::from_parts(rule, constraints))
}
