//! Terms in reverse Polish notation.
ghost use Rattle.std.specs.Prelude.{◌≡◌, IfOk, OnOk};
ghost use Rattle.rare_law_parts.specs.RowTerms.{plus_parts, sum_of, sums_of, applied_last, stack_after, stack_of, term_of};

use crate::row::{Step, Sum};
use rare_linear::{Linear, Linears};
use rare_sort::{Head, Tree, Trees};
use std::alloc::{AllocError, Global};

/// The expression with each name times its factor.
fn plus(alloc: Global, start: Linear, parts: &[(u32, i128)]) -> Result<Linear, AllocError>
    ensures { IfOk result (λ l. l ≡ plus_parts start parts.now) }
{
    match parts {
        [] => Ok(start),
        [(name, factor), rest @ ..] => {
            let Ok(product) = Linear::name(alloc, *name)?.scale(*factor) else {
                return Err(AllocError);
            };
            let Ok(sum) = start.add(&product) else {
                return Err(AllocError);
            };
            plus(alloc, sum, rest)
        }
    }
}

/// The linear expression of a row. An error is want of memory, or a number that leaves 128 bits.
pub fn linear(alloc: Global, sum: &Sum) -> Result<Linear, AllocError>
    ensures { IfOk result (λ l. l ≡ sum_of sum.now) }
{
    plus(alloc, Linear::constant(alloc, sum.constant), sum.parts)
}

fn linears(alloc: Global, sums: &[Sum]) -> Result<Linears, AllocError>
    ensures { IfOk result (λ ls. ls ≡ sums_of sums.now) }
{
    let mut all = Linears::new(alloc);
    for sum in sums {
        all.push(linear(alloc, sum)?)?;
    }
    Ok(all)
}

/// Puts the operator's application in the place of its arguments, the last of the stack.
fn apply(stack: &mut Trees, head: Head, indices: Linears, count: usize) -> Result<(), AllocError>
    ensures { OnOk result (stack.new ≡ applied_last stack.old head indices count) }
{
    let args = stack.split_off(stack.len().saturating_sub(count))?;
    stack.push(Tree {
        head,
        indices,
        args,
    })
}

/// Takes one step.
fn take_step(alloc: Global, stack: &mut Trees, step: &Step) -> Result<(), AllocError>
    ensures { OnOk result (stack.new ≡ stack_after stack.old step.now) }
{
    match step {
        Step::Param(k) => stack.push(Tree {
            head: Head::Param(*k),
            indices: Linears::new(alloc),
            args: Trees::new(alloc),
        }),
        Step::On(head, count) => apply(stack, *head, Linears::new(alloc), *count),
        Step::At(head, indices, count) => apply(stack, *head, linears(alloc, indices)?, *count),
    }
}

/// The terms that the steps leave behind those of the stack.
fn walk(alloc: Global, stack: &mut Trees, steps: &[Step]) -> Result<(), AllocError>
    ensures { OnOk result (stack.new ≡ stack_of stack.old steps.now) }
{
    match steps {
        [] => Ok(()),
        [step, rest @ ..] => {
            take_step(alloc, stack, step)?;
            walk(alloc, stack, rest)
        }
    }
}

#[tactic(auto, using(crate::proofs::LastLemmas::last_append))]
/// The last term that the steps leave, and `true` where they leave none.
pub fn term(alloc: Global, steps: &[Step]) -> Result<Tree, AllocError>
    ensures { IfOk result (λ t. t ≡ term_of steps.now) }
{
    let mut stack = Trees::new(alloc);
    walk(alloc, &mut stack, steps)?;
    if stack.is_empty() {
        return Ok(Tree {
            head: Head::True,
            indices: Linears::new(alloc),
            args: Trees::new(alloc),
        });
    }
    Ok(stack.pop())
}
