//! Constraints on widths, read from expressions.
ghost use Rattle.std.specs.Prelude.{◌≡◌, [], ◌∷◌, Ok};
ghost use Rattle.rare_scope.specs.Answers.{Answers};
ghost use Rattle.rare_scope.specs.ConstraintText.{AllFloorsNamed, constraints_at, floor, floors, relation_at};
ghost use Rattle.rare_scope.specs.Reading.{go_on};

use crate::faults::{is_symbol, refusal_at};
use crate::linear::{difference, read_linear_over};
use crate::relation::{RELATIONS, Relation};
use crate::sign::entry_at;
use crate::widths::WidthNames;
use rare_base::{Fault, Reason};
use rare_linear::{Linear, Linears};
use rare_sexpr::Expr;
use std::alloc::Global;

fn relation<E: Expr>(head: &E) -> Result<Relation, Fault>
    ensures { Answers result (relation_at (E.tree head.now)) }
{
    if is_symbol(head) {
        match entry_at(&RELATIONS, head.text()) {
            Some(relation) => Ok(relation),
            None => Err(refusal_at(head, Reason::BadForm)),
        }
    } else {
        Err(refusal_at(head, Reason::BadForm))
    }
}

// One less than the difference, which is at least 0 where the first is above the second.
#[tactic(auto, using(crate::proofs::InOrder::fails_on, crate::proofs::InOrder::goes_on))]
fn strict_difference<E: Expr>(alloc: Global, e: &E, a: &Linear, b: &Linear) -> Result<Linear, Fault>
    ensures { Answers result (floor (E.tree e.now) a.now b.now Relation.Above) }
{
    let plain = difference(e, a, b)?;
    difference(e, &plain, &Linear::constant(alloc, 1))
}

// What is at least 0 where the relation holds.
fn floor_of<E: Expr>(
    alloc: Global,
    e: &E,
    relation: Relation,
    a: &Linear,
    b: &Linear,
) -> Result<Linear, Fault>
    ensures { Answers result (floor (E.tree e.now) a.now b.now relation) }
{
    match relation {
        Relation::AtLeast | Relation::Equal => difference(e, a, b),
        Relation::AtMost => difference(e, b, a),
        Relation::Above => strict_difference(alloc, e, a, b),
        Relation::Below => strict_difference(alloc, e, b, a),
    }
}

fn one_floor<E: Expr>(
    alloc: Global,
    e: &E,
    relation: Relation,
    a: &Linear,
    b: &Linear,
) -> Result<Linears, Fault>
    ensures { Answers result
        (go_on (floor (E.tree e.now) a.now b.now relation) (λ d. Ok (d ∷ []))) }
{
    let floor = floor_of(alloc, e, relation, a, b)?;
    let mut floors = Linears::new(alloc);
    let Ok(()) = floors.push(floor) else {
        return Err(Fault::Memory);
    };
    Ok(floors)
}

// The two floors of an equation.
fn both_floors<E: Expr>(alloc: Global, e: &E, a: &Linear, b: &Linear) -> Result<Linears, Fault>
    ensures { Answers result (floors (E.tree e.now) a.now b.now Relation.Equal) }
{
    let first = difference(e, a, b)?;
    let second = difference(e, b, a)?;
    let mut floors = Linears::new(alloc);
    let Ok(()) = floors.push(first) else {
        return Err(Fault::Memory);
    };
    let Ok(()) = floors.push(second) else {
        return Err(Fault::Memory);
    };
    Ok(floors)
}

fn floors_of<E: Expr>(
    alloc: Global,
    e: &E,
    relation: Relation,
    a: &Linear,
    b: &Linear,
) -> Result<Linears, Fault>
    ensures { Answers result (floors (E.tree e.now) a.now b.now relation) }
{
    match relation {
        Relation::Equal => both_floors(alloc, e, a, b),
        _ => one_floor(alloc, e, relation, a, b),
    }
}

fn read<E: Expr, W: WidthNames>(alloc: Global, e: &E, names: &W) -> Result<Linears, Fault>
    ensures { Answers result (constraints_at (W.names names.now) (E.tree e.now)) }
{
    if e.len() != 3 {
        return Err(refusal_at(e, Reason::BadForm));
    }
    let relation = relation(e.item(0))?;
    let a = read_linear_over(alloc, e.item(1), names)?;
    let b = read_linear_over(alloc, e.item(2), names)?;
    floors_of(alloc, e, relation, &a, &b)
}

/// The floors of a constraint over names of widths, each of which it says to be at least 0, or its first
/// fault: the difference for `>=` and `<=`, one less for `>` and `<`, and both differences for `=`.
///
/// Errors are `BadForm` at an expression of another form, or at a head that is no relation; those of
/// `read_linear_over`; `TermLimit` at the constraint where a partial result leaves `i128`; and want of
/// memory.
#[tactic(auto, using(crate::proofs::ConstraintSteps::floors_named))]
pub fn read_constraints_over<E: Expr, W: WidthNames>(
    alloc: Global,
    e: &E,
    names: &W,
) -> Result<Linears, Fault>
    ensures read { Answers result (constraints_at (W.names names.now) (E.tree e.now)) }
    ensures named { AllFloorsNamed (W.names names.now) result }
{
    read(alloc, e, names)
}
