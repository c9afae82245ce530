//! Rules of tests, from rows.
use crate::error::TypeError;
use rare_base::Text;
use rare_linear::{Constraint, Constraints, Linear, Linears};
use rare_list::Boxed;
use rare_rule::{Param, ParamKind, Params, Rule, RuleKind};
use rare_sort::{Head, Sort, Tree, Trees};
use std::alloc::{AllocError, Global};

/// A linear expression: its constant, and its names with their factors.
#[derive(Clone, Copy)]
pub(crate) struct Sum {
    pub(crate) constant: i128,
    pub(crate) parts: &'static [(u32, i128)],
}

/// A sort of a parameter: Bool, Int, bit vectors, or arrays of these.
#[derive(Clone, Copy)]
pub(crate) enum SortRow {
    Truths,
    Wholes,
    Words(Sum),
    /// From Int to bit vectors.
    Arrays(Sum),
}

/// What a parameter stands for.
#[derive(Clone, Copy)]
pub(crate) enum Kind {
    Width,
    Index,
    Term(SortRow),
    List(SortRow),
    WideList,
}

/// One step of a term in reverse Polish notation.
#[derive(Clone, Copy)]
pub(crate) enum Step {
    /// The parameter of this number.
    Param(u32),
    /// The operator, applied to so many of the terms before it.
    On(Head, usize),
    /// The operator with these indices, applied to so many of the terms before it.
    At(Head, &'static [Sum], usize),
}

/// A rule, and the constraints that its typing gives or the case in which it doesn't type.
#[derive(Clone, Copy)]
pub(crate) struct Row {
    pub(crate) name: &'static str,
    pub(crate) params: &'static [Kind],
    pub(crate) bounds: &'static [Sum],
    pub(crate) premises: &'static [&'static [Step]],
    pub(crate) left: &'static [Step],
    pub(crate) right: &'static [Step],
    pub(crate) context: Option<&'static [Step]>,
    pub(crate) want: Result<&'static [Sum], TypeError>,
}

/// `true` to `true`, which the others are written over.
pub(crate) const ROW: Row = Row {
    name: "",
    params: &[],
    bounds: &[],
    premises: &[],
    left: &[Step::On(Head::True, 0)],
    right: &[Step::On(Head::True, 0)],
    context: None,
    want: Ok(&[]),
};

fn linear(alloc: Global, sum: &Sum) -> Result<Linear, AllocError> {
    let mut all = Linear::constant(alloc, sum.constant);
    for (name, factor) in sum.parts {
        let Ok(product) = Linear::name(alloc, *name)?.scale(*factor) else {
            return Err(AllocError);
        };
        let Ok(next) = all.add(&product) else {
            return Err(AllocError);
        };
        all = next;
    }
    Ok(all)
}

fn linears(alloc: Global, sums: &[Sum]) -> Result<Linears, AllocError> {
    let mut all = Linears::new(alloc);
    for sum in sums {
        all.push(linear(alloc, sum)?)?;
    }
    Ok(all)
}

fn sort(alloc: Global, row: SortRow) -> Result<Sort, AllocError> {
    match row {
        SortRow::Truths => Ok(Sort::Bool),
        SortRow::Wholes => Ok(Sort::Int),
        SortRow::Words(width) => Ok(Sort::BitVec(linear(alloc, &width)?)),
        SortRow::Arrays(width) => {
            let entries = Sort::BitVec(linear(alloc, &width)?);
            let keys = Boxed::new(alloc, Sort::Int)?;
            Ok(Sort::Array(keys, Boxed::new(alloc, entries)?))
        }
    }
}

fn kind_of(alloc: Global, row: Kind) -> Result<ParamKind, AllocError> {
    match row {
        Kind::Width => Ok(ParamKind::Width),
        Kind::Index => Ok(ParamKind::Index),
        Kind::Term(row) => Ok(ParamKind::Term(sort(alloc, row)?)),
        Kind::List(row) => Ok(ParamKind::List(sort(alloc, row)?)),
        Kind::WideList => Ok(ParamKind::WideList),
    }
}

fn params(alloc: Global, rows: &[Kind]) -> Result<Params, AllocError> {
    let mut params = Params::new(alloc);
    for row in rows {
        params.push(Param {
            name: Text::of(alloc, b"p")?,
            kind: kind_of(alloc, *row)?,
            constant: false,
            fresh: false,
        })?;
    }
    Ok(params)
}

fn apply(stack: &mut Trees, head: Head, indices: Linears, count: usize) -> Result<(), AllocError> {
    let args = stack.split_off(stack.len().saturating_sub(count))?;
    stack.push(Tree {
        head,
        indices,
        args,
    })
}

fn tree(alloc: Global, steps: &[Step]) -> Result<Tree, AllocError> {
    let mut stack = Trees::new(alloc);
    for step in steps {
        match step {
            Step::Param(k) => apply(&mut stack, Head::Param(*k), Linears::new(alloc), 0)?,
            Step::On(head, count) => apply(&mut stack, *head, Linears::new(alloc), *count)?,
            Step::At(head, indices, count) => {
                apply(&mut stack, *head, linears(alloc, indices)?, *count)?
            }
        }
    }
    if stack.is_empty() {
        return Err(AllocError);
    }
    Ok(stack.pop())
}

fn bounds(alloc: Global, rows: &[Sum]) -> Result<Constraints, AllocError> {
    let mut bounds = Constraints::new(alloc);
    for row in rows {
        let floor = linear(alloc, row)?;
        bounds.push(Constraint { floor })?;
    }
    Ok(bounds)
}

fn premises(alloc: Global, rows: &[&[Step]]) -> Result<Trees, AllocError> {
    let mut premises = Trees::new(alloc);
    for row in rows {
        premises.push(tree(alloc, row)?)?;
    }
    Ok(premises)
}

fn context(alloc: Global, row: Option<&[Step]>) -> Result<Option<Tree>, AllocError> {
    match row {
        Some(steps) => Ok(Some(tree(alloc, steps)?)),
        None => Ok(None),
    }
}

/// The rule of a row.
pub(crate) fn rule(alloc: Global, row: &Row) -> Result<Rule, AllocError> {
    Ok(Rule {
        name: Text::of(alloc, b"r")?,
        kind: RuleKind::Plain,
        params: params(alloc, row.params)?,
        bounds: bounds(alloc, row.bounds)?,
        premises: premises(alloc, row.premises)?,
        left: tree(alloc, row.left)?,
        right: tree(alloc, row.right)?,
        context: context(alloc, row.context)?,
    })
}

fn are_these(found: &[Constraint], want: &[Sum]) -> bool {
    if found.len() != want.len() {
        return false;
    }
    for (constraint, sum) in found.iter().zip(want) {
        let floor = &constraint.floor;
        if floor.offset() != sum.constant || floor.parts() != sum.parts {
            return false;
        }
    }
    true
}

/// Whether the constraints, or the case, are those of the row.
pub(crate) fn is_wanted(found: &Result<Constraints, TypeError>, row: &Row) -> bool {
    match (found, row.want) {
        (Ok(found), Ok(want)) => are_these(found.items(), want),
        (Err(case), Err(want)) => *case == want,
        _ => false,
    }
}
