//! Linear expressions, read from expressions.
ghost use Rattle.std.specs.Prelude.{◌≡◌, ◌-◌, ◌≤◌, ◌&&◌, Ok, Err, length, [], negsuc, true, false, is_some, IfOk};
ghost use Rattle.rare_linear.specs.Linears.{NamesBelow, add, scale};
ghost use Rattle.rare_linear.specs.Entailment.{minus};
ghost use Rattle.rare_scope.specs.Answers.{Answers};
ghost use Rattle.rare_scope.specs.LinearText.{begins_size, linear_at, linear_by, linear_form, sign_at, size_by, size_of, may_have, fitting, joined, times_by, widths_held, AllNamed};
ghost use Rattle.rare_scope.specs.Names.{width_names};
ghost use Rattle.rare_scope.specs.Reading.{is_list_kind};
ghost use Rattle.rare_sexpr.specs.Tree.{items_of, kind_of};
ghost use Rattle.rare_sort.specs.SortRules.{number_in};

use crate::faults::{is_list, is_symbol, is_word_at, refusal_at};
use crate::numbers::small_numeral;
use crate::scope::Scope;
use crate::sign::{Sign, sign_of};
use crate::widths::WidthNames;
use rare_base::{Fault, Reason};
use rare_linear::{Linear, LinearError};
use rare_sexpr::{Expr, Kind};
use rare_sort::number_of;
use std::alloc::Global;

fn sign<E: Expr>(e: &E) -> Option<Sign>
    ensures { result ≡ sign_at (E.tree e.now) }
{
    if is_symbol(e) {
        sign_of(e.text())
    } else {
        None
    }
}

// Whether a sign may have so many operands behind its first.
fn takes(sign: Sign, operands: usize) -> bool
    ensures { result ≡ may_have sign operands }
{
    match sign {
        Sign::Minus => true,
        Sign::Plus => operands > 0,
        Sign::Times => operands == 1,
    }
}

// The difference, or the refusal of the expression that spells it.
#[tactic(auto, using(crate::proofs::Fitting::fits_yes, crate::proofs::Fitting::fits_no))]
pub(crate) fn difference<E: Expr>(e: &E, l: &Linear, m: &Linear) -> Result<Linear, Fault>
    ensures { Answers result (fitting (E.tree e.now) (minus l.now m.now)) }
{
    match l.minus(m) {
        Ok(l) => Ok(l),
        Err(LinearError::TooLarge) => Err(refusal_at(e, Reason::TermLimit)),
        Err(LinearError::Memory) => Err(Fault::Memory),
    }
}

#[tactic(auto, using(crate::proofs::Fitting::fits_yes, crate::proofs::Fitting::fits_no))]
fn sum<E: Expr>(e: &E, l: &Linear, m: &Linear) -> Result<Linear, Fault>
    ensures { Answers result (fitting (E.tree e.now) (add l.now m.now)) }
{
    match l.add(m) {
        Ok(l) => Ok(l),
        Err(LinearError::TooLarge) => Err(refusal_at(e, Reason::TermLimit)),
        Err(LinearError::Memory) => Err(Fault::Memory),
    }
}

#[tactic(auto, using(crate::proofs::Fitting::fits_yes, crate::proofs::Fitting::fits_no))]
fn multiple<E: Expr>(e: &E, k: i128, l: &Linear) -> Result<Linear, Fault>
    ensures { Answers result (fitting (E.tree e.now) (scale k l.now)) }
{
    match l.scale(k) {
        Ok(l) => Ok(l),
        Err(LinearError::TooLarge) => Err(refusal_at(e, Reason::TermLimit)),
        Err(LinearError::Memory) => Err(Fault::Memory),
    }
}

// The product, where one factor has no name.
fn product<E: Expr>(e: &E, l: &Linear, m: &Linear) -> Result<Linear, Fault>
    ensures { Answers result
        (times_by (E.tree e.now) l.now m.now (number_in l.now) (number_in m.now)) }
{
    match number_of(l) {
        Some(k) => multiple(e, k, m),
        None => match number_of(m) {
            Some(k) => multiple(e, k, l),
            None => Err(refusal_at(e, Reason::NonLinear)),
        },
    }
}

fn join<E: Expr>(e: &E, sign: Sign, l: &Linear, m: &Linear) -> Result<Linear, Fault>
    ensures { Answers result (joined (E.tree e.now) sign l.now m.now) }
{
    match sign {
        Sign::Minus => difference(e, l, m),
        Sign::Plus => sum(e, l, m),
        Sign::Times => product(e, l, m),
    }
}

// The sign of a list that has a form.
#[tactic(auto, using(crate::proofs::LinearSteps::form_few, crate::proofs::LinearSteps::form_more))]
fn form<E: Expr>(e: &E) -> Result<Sign, Fault>
    ensures form { Answers result (linear_form (E.tree e.now)) }
    ensures two { IfOk result (λ s. 2 ≤ length (items_of (E.tree e.now))) }
{
    if e.len() < 2 {
        return Err(refusal_at(e, Reason::BadForm));
    }
    let head = e.item(0);
    let Some(sign) = sign(head) else {
        return Err(refusal_at(head, Reason::BadForm));
    };
    if takes(sign, e.len() - 2) {
        Ok(sign)
    } else {
        Err(refusal_at(e, Reason::BadForm))
    }
}

fn read_atom<E: Expr, W: WidthNames>(alloc: Global, e: &E, names: &W) -> Result<Linear, Fault>
    requires { is_list_kind (kind_of (E.tree e.now)) ≡ false }
    ensures { Answers result
        (linear_by (W.names names.now) (E.tree e.now) (kind_of (E.tree e.now)) []) }
{
    match e.kind() {
        Kind::Numeral => match small_numeral(e.text()) {
            Some(n) => Ok(Linear::constant(alloc, n)),
            None => Err(refusal_at(e, Reason::TermLimit)),
        },
        Kind::Symbol => match names.number(e.text()) {
            Some(k) => match Linear::name(alloc, k) {
                Ok(l) => Ok(l),
                Err(_) => Err(Fault::Memory),
            },
            None => Err(refusal_at(e, Reason::UnknownSymbol)),
        },
        _ => Err(refusal_at(e, Reason::BadForm)),
    }
}

// Whether `bvsize` is the first item.
#[tactic(auto, using(crate::proofs::LinearSteps::begins_none, crate::proofs::LinearSteps::begins_at))]
fn begins_with_bvsize<E: Expr>(e: &E) -> bool
    ensures { result ≡ begins_size (items_of (E.tree e.now)) }
{
    if e.len() == 0 {
        return false;
    }
    is_word_at(e.item(0), "bvsize")
}

// Whether the list is read as the size of a name.
fn is_size<E: Expr, W: WidthNames>(e: &E, names: &W) -> bool
    ensures { result ≡ (is_some (W.names names.now).size && begins_size (items_of (E.tree e.now))) }
{
    names.has_sizes() && begins_with_bvsize(e)
}

// The size of a name, which `(bvsize x)` spells.
#[tactic(auto, using(crate::proofs::LinearSteps::size_other, crate::proofs::LinearSteps::size_two))]
fn read_size<E: Expr, W: WidthNames>(alloc: Global, e: &E, names: &W) -> Result<Linear, Fault>
    ensures { Answers result
        (size_of (size_by (W.names names.now).size) (E.tree e.now) (items_of (E.tree e.now))) }
{
    if e.len() != 2 {
        return Err(refusal_at(e, Reason::BadForm));
    }
    let operand = e.item(1);
    if !is_symbol(operand) {
        return Err(refusal_at(operand, Reason::BadForm));
    }
    match names.size(alloc, operand.text()) {
        Ok(Some(size)) => Ok(size),
        Ok(None) => Err(refusal_at(operand, Reason::UnknownSymbol)),
        Err(_) => Err(Fault::Memory),
    }
}

#[tactic(auto, using(rare_sexpr::proofs::Counting::depth_falls, crate::proofs::LinearSteps::atom_read, crate::proofs::LinearSteps::size_read))]
fn read<E: Expr, W: WidthNames>(alloc: Global, e: &E, names: &W) -> Result<Linear, Fault>
    ensures { Answers result (linear_at (W.names names.now) (E.tree e.now)) }
{
    if !is_list(e) {
        return read_atom(alloc, e, names);
    }
    if is_size(e, names) {
        return read_size(alloc, e, names);
    }
    let sign = form(e)?;
    let mut sum = read(alloc, e.item(1), names)?;
    if e.len() == 2 {
        return multiple(e, -1, &sum);
    }
    for k in 2..e.len() {
        let next = read(alloc, e.item(k), names)?;
        sum = join(e, sign, &sum, &next)?;
    }
    Ok(sum)
}

/// The linear expression that an expression spells over names of widths, or its first fault. Its
/// forms are a numeral, a name, `(+ E E ..)`, `(- E)`, `(- E E ..)`, `(* E E)` where one factor has
/// no name, and `(bvsize x)` where names have sizes.
///
/// Errors are `BadForm` at an expression of another form, at the head of a list where it is no word
/// of a form, or at the operand of `bvsize` where it is no symbol; `UnknownSymbol` at a name that is
/// no width, or at the operand of `bvsize` where it has no size; `NonLinear` at a product of two that
/// both have names; `TermLimit` at a numeral above `2^127 - 1`, and at a sum, difference or product
/// of which a partial result leaves `i128`; and want of memory.
#[tactic(auto, using(crate::proofs::Naming::read_named))]
pub fn read_linear_over<E: Expr, W: WidthNames>(
    alloc: Global,
    e: &E,
    names: &W,
) -> Result<Linear, Fault>
    ensures read { Answers result (linear_at (W.names names.now) (E.tree e.now)) }
    ensures named { AllNamed (W.names names.now) result }
{
    read(alloc, e, names)
}

/// The linear expression that an expression spells over the width names of a scope, or its first
/// fault, as `read_linear_over` has it.
pub fn read_linear<E: Expr>(alloc: Global, e: &E, scope: &Scope) -> Result<Linear, Fault>
    ensures read { Answers result (linear_at (widths_held scope.now) (E.tree e.now)) }
    ensures named { AllNamed (widths_held scope.now) result }
    ensures below { IfOk result (λ l. NamesBelow (length (width_names scope.now)) l.parts) }
{
    let _ = scope.width_count();
    read_linear_over(alloc, e, scope)
}
