//! Terms, arguments and parts of instances for tests.
ghost use Rattle.std.specs.Prelude.{◌≡◌, ℕ, ◌<◌, length, IfOk, IsTrue};
ghost use Rattle.rare_sort.specs.DeclaredSorts.{AreNamed, IsSymbol};
ghost use Rattle.rare_sort.specs.Families.{family};
ghost use Rattle.rare_sort.specs.Ids.{AreIds};
ghost use Rattle.rare_term.specs.Literals.{IsGiven};
ghost use Rattle.rare_term.specs.State.{State, no_terms};
ghost use Rattle.rare_inst.specs.Answers.{AreGiven, IsGiven as IsGivenArg};
ghost use Rattle.rare_inst.specs.inner.Ready.{IsReady};

use crate::{Arg, Args, InstFault, admit, left_instance, premise_instance, right_instance};
use rare_linear::{Linear, Linears};
use rare_rule::Typed;
use rare_sort::{Head, Ids, Sort, TermId};
use rare_term::Terms;
use std::alloc::{AllocError, Global};
use std::test::Fail;

/// An operator with its indices, on so many of the terms before it that are not yet taken.
pub type Step = (Head, &'static [i128], usize);

/// An argument: a number, a term, or a list of terms.
#[derive(Clone, Copy)]
pub enum Given {
    Number(i128),
    Term(&'static [Step]),
    List(&'static [&'static [Step]]),
}

/// A part of an instance. Premises count from 0.
#[derive(Clone, Copy)]
pub enum Asked {
    Left,
    Premise(usize),
    Right,
}

/// Terms over one symbol, of sort Bool.
#[derive(Debug, Drop)]
pub struct Bench<T> {
    alloc: Global,
    terms: T,
    /// The last id.
    last: usize,
}

fn numbers(alloc: Global, indices: &[i128]) -> Result<Linears, AllocError>
    ensures { IfOk result (λ es. AreNamed 0 es) }
{
    let mut all = Linears::new(alloc);
    'indices: for n in indices {
        all.push(Linear::constant(alloc, *n))?;
    }
    Ok(all)
}

/// Whether the operator is none of rules alone, and its symbol is declared.
fn is_askable(head: Head, indices: &[Linear]) -> bool
    ensures symbol { IsTrue result → IsSymbol 1 (family head) }
    ensures bits { IsTrue result → IsGiven head indices.now }
{
    match head {
        Head::Free(k) => k == 0,
        Head::Param(_) | Head::Hole => false,
        Head::Bits(_) => match indices {
            [width] => width.parts().is_empty(),
            _ => false,
        },
        _ => true,
    }
}

fn are_up_to(last: usize, args: &[TermId]) -> bool
    ensures { IsTrue result → (n : ℕ) → last < n → AreIds n args.now }
{
    match args {
        [id, rest @ ..] => id.0 <= last && are_up_to(last, rest),
        [] => true,
    }
}

fn is_given(last: usize, arg: &Arg) -> bool
    ensures { IsTrue result → (s : State) → last < length s.trees → IsGivenArg s arg.now }
{
    match arg {
        Arg::Sort(_) => false,
        Arg::Linear(e) => e.parts().is_empty(),
        Arg::Term(id) => id.0 <= last,
        Arg::List(ids) => are_up_to(last, ids.items()),
    }
}

fn are_given(last: usize, args: &[Arg]) -> bool
    ensures { IsTrue result → (s : State) → last < length s.trees → AreGiven s args.now }
{
    match args {
        [arg, rest @ ..] => is_given(last, arg) && are_given(last, rest),
        [] => true,
    }
}

impl<T: Terms + Drop> Bench<T> {
    /// The term, where `make` may be asked for it and makes it.
    fn attempt(&mut self, head: Head, indices: &[Linear], args: &[TermId]) -> Option<TermId>
        requires ready { IsReady (T.state self.old.terms) self.old.last }
        requires names { AreNamed 0 indices.now }
        ensures { IsReady (T.state self.new.terms) self.new.last }
    {
        if !is_askable(head, indices) || !are_up_to(self.last, args) {
            return None;
        }
        let Ok(id) = self.terms.make(head, indices, args) else {
            return None;
        };
        self.last = self.last.max(id.0);
        Some(id)
    }

    /// The term of the steps.
    pub fn built(&mut self, steps: &[Step]) -> Option<TermId>
        requires { IsReady (T.state self.old.terms) self.old.last }
        ensures { IsReady (T.state self.new.terms) self.new.last }
    {
        let mut stack = Ids::new(self.alloc);
        'steps: for step in steps {
            if step.2 > stack.len() {
                return None;
            }
            let at = stack.len() - step.2;
            let Ok(args) = stack.split_off(at) else {
                return None;
            };
            let Ok(indices) = numbers(self.alloc, step.1) else {
                return None;
            };
            let Some(id) = self.attempt(step.0, indices.items(), args.items()) else {
                return None;
            };
            let Ok(()) = stack.push(id) else {
                return None;
            };
        }
        if stack.len() == 1 {
            Some(stack.pop())
        } else {
            None
        }
    }

    fn list(&mut self, terms: &[&[Step]]) -> Option<Ids>
        requires { IsReady (T.state self.old.terms) self.old.last }
        ensures { IsReady (T.state self.new.terms) self.new.last }
    {
        let mut ids = Ids::new(self.alloc);
        'terms: for steps in terms {
            let Some(id) = self.built(steps) else {
                return None;
            };
            let Ok(()) = ids.push(id) else {
                return None;
            };
        }
        Some(ids)
    }

    fn arg(&mut self, given: Given) -> Option<Arg>
        requires { IsReady (T.state self.old.terms) self.old.last }
        ensures { IsReady (T.state self.new.terms) self.new.last }
    {
        match given {
            Given::Number(n) => Some(Arg::Linear(Linear::constant(self.alloc, n))),
            Given::Term(steps) => Some(Arg::Term(self.built(steps)?)),
            Given::List(terms) => Some(Arg::List(self.list(terms)?)),
        }
    }

    /// The arguments of a row.
    pub fn args(&mut self, row: &[Given]) -> Option<Args>
        requires { IsReady (T.state self.old.terms) self.old.last }
        ensures { IsReady (T.state self.new.terms) self.new.last }
    {
        let mut args = Args::new(self.alloc);
        'row: for given in row {
            let Some(arg) = self.arg(*given) else {
                return None;
            };
            let Ok(()) = args.push(arg) else {
                return None;
            };
        }
        Some(args)
    }

    /// The part of the rule's instance, or the first fault; nothing where the arguments are not
    /// those that a rule may be asked with.
    pub fn answer(
        &mut self,
        rule: &Typed,
        args: &[Arg],
        asked: Asked,
    ) -> Option<Result<TermId, InstFault>>
        requires { IsReady (T.state self.old.terms) self.old.last }
    {
        let parts = rule.rule();
        if args.len() != parts.params.len() || !are_given(self.last, args) {
            return None;
        }
        if let Err(fault) = admit(self.alloc, &self.terms, rule, args) {
            return Some(Err(fault));
        }
        match asked {
            Asked::Left => Some(left_instance(self.alloc, &mut self.terms, rule, args)),
            Asked::Right => Some(right_instance(self.alloc, &mut self.terms, rule, args)),
            Asked::Premise(k) if k < parts.premises.len() => Some(premise_instance(
                self.alloc,
                &mut self.terms,
                rule,
                args,
                k,
            )),
            Asked::Premise(_) => None,
        }
    }
}

/// Terms over one symbol of sort Bool.
pub fn ready<T: Terms + Drop>(alloc: Global, terms: T) -> Result<Bench<T>, Fail>
    requires { T.state terms ≡ no_terms }
    ensures { IfOk result (λ b. IsReady (T.state b.terms) b.last) }
{
    let mut terms = terms;
    terms.declare_symbol(&[], &Sort::Bool)?;
    let Ok(id) = terms.make(Head::True, &[], &[]) else {
        return Err(AllocError.into());
    };
    Ok(Bench {
        alloc,
        terms,
        last: id.0,
    })
}
