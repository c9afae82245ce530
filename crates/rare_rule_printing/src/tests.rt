//! Rules and constraints are written as their texts.
ghost use Rattle.std.specs.Prelude.{IsTrue};
ghost use Rattle.rare_rule.specs.ParamForms.{are_numbers};
ghost use Rattle.rare_rule.specs.Rules.{IsInForm};

mod parts;
mod rules;

use crate::{print_constraint, print_rule};
use rare_base::Text;
use rare_linear::Constraint;
use rare_rule::Rule;
use std::alloc::{AllocError, Global};
use std::test::Fail;

fn shown(alloc: Global, rule: &Rule) -> Result<Text, AllocError>
    requires { IsInForm rule.now }
{
    let mut out = Text::new(alloc);
    print_rule(rule, &mut out)?;
    Ok(out)
}

fn shown_constraint(alloc: Global, rule: &Rule, constraint: &Constraint) -> Result<Text, AllocError>
    requires form { IsInForm rule.now }
    requires names { IsTrue (are_numbers rule.now.params constraint.now.floor.parts) }
{
    let mut out = Text::new(alloc);
    print_constraint(rule, constraint, &mut out)?;
    Ok(out)
}

#[test]
#[tactic(auto, using(crate::proofs::PrintedForms::not_not_form, crate::proofs::PrintedForms::and_true_form, crate::proofs::PrintedForms::ite_cond_form, crate::proofs::PrintedForms::and_de_morgan_form))]
fn rules_of_each_form_are_written(rt: HostRuntime) -> Result<(), Fail> {
    let alloc = rt.alloc();
    let text = shown(alloc, &rules::not_not(alloc)?)?;
    assert_eq!(rt;
        text.bytes(),
        b"(define-rule bool-not-not ((p Bool)) (not (not p)) p)".as_slice()
    );
    let text = shown(alloc, &rules::and_true(alloc)?)?;
    assert_eq!(rt;
        text.bytes(),
        b"(define-rule bool-and-true ((ps Bool :list) (qs Bool :list)) (and ps true qs) (and ps qs))".as_slice()
    );
    let text = shown(alloc, &rules::ite_cond(alloc)?)?;
    assert_eq!(rt;
        text.bytes(),
        b"(define-cond-rule ite-cond ((a Sort) (p Bool) (x a) (y a)) p (ite p x y) x)".as_slice()
    );
    let text = shown(alloc, &rules::and_de_morgan(alloc)?)?;
    assert_eq!(rt;
        text.bytes(),
        b"(define-rule* bool-and-de-morgan ((p Bool) (q Bool) (ps Bool :list)) (not (and p q ps)) (not (and q ps)) (or (not p) _))".as_slice()
    );
    Ok(())
}

#[test]
#[tactic(auto, using(crate::proofs::PrintedForms::shift_left_form, crate::proofs::PrintedForms::concat_low_form, crate::proofs::PrintedForms::low_slice_form))]
fn widths_indices_and_bounds_are_written(rt: HostRuntime) -> Result<(), Fail> {
    let alloc = rt.alloc();
    let text = shown(alloc, &rules::low_slice(alloc)?)?;
    assert_eq!(rt;
        text.bytes(),
        b"(define-rule ext ((n Width) (j Index) (x (BitVec n))) (extract j 0 x) (extract j 0 (bvnot (bvnot x))))".as_slice()
    );
    let text = shown(alloc, &rules::shift_left(alloc)?)?;
    assert_eq!(rt;
        text.bytes(),
        b"(define-rule bv-shl-const ((n Width) (k Index) (x (BitVec n))) :where ((>= (+ k (- 1)) 0) (>= (+ n (* (- 1) k) (- 1)) 0)) (bvshl x (bv k n)) (concat (extract (+ n (* (- 1) k) (- 1)) 0 x) (bv 0 k)))".as_slice()
    );
    let text = shown(alloc, &rules::concat_low(alloc)?)?;
    assert_eq!(rt;
        text.bytes(),
        b"(define-rule bv-extract-concat-low ((j Index) (i Index) (us ?BitVec :list) (w ?BitVec)) :where ((>= (+ (* (- 1) j) (bvsize w) (- 1)) 0)) (extract j i (concat us w)) (extract j i w))".as_slice()
    );
    Ok(())
}

#[test]
#[tactic(auto, using(crate::proofs::PrintedForms::sorts_form, crate::proofs::PrintedForms::two_premises_form))]
fn sorts_premises_and_literals_are_written(rt: HostRuntime) -> Result<(), Fail> {
    let alloc = rt.alloc();
    let text = shown(alloc, &rules::sorts(alloc)?)?;
    assert_eq!(rt;
        text.bytes(),
        b"(define-rule sorts ((a Sort) (m (Array a Int)) (c Int :const) (y ?)) (and (= m m) (= c c) (= y y)) true)".as_slice()
    );
    let text = shown(alloc, &rules::two_premises(alloc)?)?;
    assert_eq!(rt;
        text.bytes(),
        b"(define-cond-rule |two premises| ((x ?BitVec)) (and (= x (bv 5 8)) (= x (_ bv170141183460469231731687303715884105728 128))) x x)".as_slice()
    );
    Ok(())
}

#[test]
#[tactic(auto, using(crate::proofs::PrintedForms::low_slice_form, crate::proofs::PrintedForms::and_true_form))]
fn constraints_are_written(rt: HostRuntime) -> Result<(), Fail> {
    let alloc = rt.alloc();
    let difference = parts::bound(parts::of_two(alloc, -1, 0, 1, 1, -1)?);
    let text = shown_constraint(alloc, &rules::low_slice(alloc)?, &difference)?;
    assert_eq!(rt; text.bytes(), b"(>= (+ n (* (- 1) j) (- 1)) 0)".as_slice());
    let size = parts::bound(parts::of_one(alloc, 3, 0, -1)?);
    let text = shown_constraint(alloc, &rules::and_true(alloc)?, &size)?;
    assert_eq!(rt;
        text.bytes(),
        b"(>= (+ (* (- 1) (bvsize ps)) 3) 0)".as_slice()
    );
    Ok(())
}
