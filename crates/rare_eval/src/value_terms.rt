//! The one term of a value.
ghost use Rattle.std.specs.Prelude.{◌≡◌, ◌<◌, IfOk, OnErr, length};
ghost use Rattle.rare_sort.specs.DeclaredSorts.{widths, AreNamed, IsSymbol};
ghost use Rattle.rare_sort.specs.Families.{family};
ghost use Rattle.rare_sort.specs.Ids.{tree_at, trees_at, AreIds};
ghost use Rattle.rare_term.specs.Literals.{application, IsGiven};
ghost use Rattle.rare_term.specs.State.{AddsAtMost};
ghost use Rattle.rare_eval.specs.declared.values.Value.TheVariants as value;
ghost use Rattle.rare_eval.specs.Limited.{IsLimited};
ghost use Rattle.rare_eval.specs.ValueTerms.{value_term_of, AddsPartsOf, IsNeverRefused};

use crate::values::Value;
use rare_linear::Linear;
use rare_sort::{Head, TermId};
use rare_term::Terms;
use std::alloc::{AllocError, Global};

/// The id of an application, where memory is found.
fn made<T: Terms>(
    terms: &mut T,
    head: Head,
    indices: &[Linear],
    args: &[TermId],
) -> Result<TermId, AllocError>
    requires ids { AreIds (length (T.state terms.old).trees) args.now }
    requires symbol { IsSymbol (length (T.state terms.old).declared.symbols) (family head) }
    requires names { AreNamed (widths (T.state terms.old).declared) indices.now }
    requires bits { IsGiven head indices.now }
    ensures id { IfOk result (λ id. id.0 < length (T.state terms.new).trees) }
    ensures term { IfOk result (λ id. tree_at (T.state terms.new).trees id.0 ≡
        application head indices.now (trees_at (T.state terms.old).trees args.now)) }
    ensures grows { AddsAtMost
        (application head indices.now (trees_at (T.state terms.old).trees args.now))
        (T.state terms.old) (T.state terms.new) }
    ensures err { OnErr result (T.state terms.new ≡ T.state terms.old) }
{
    match terms.make(head, indices, args) {
        Ok(id) => Ok(id),
        Err(_) => Err(AllocError),
    }
}

/// The value term of a whole number.
fn whole_term<T: Terms>(terms: &mut T, n: i128) -> Result<TermId, AllocError>
    requires { IsLimited (value.Whole n) }
    ensures id { IfOk result (λ id. id.0 < length (T.state terms.new).trees) }
    ensures term { IfOk result (λ id. tree_at (T.state terms.new).trees id.0
        ≡ value_term_of (value.Whole n)) }
    ensures grows { AddsPartsOf (value_term_of (value.Whole n)) (T.state terms.old)
        (T.state terms.new) }
{
    let numeral = made(terms, Head::Numeral(n.unsigned_abs()), &[], &[])?;
    if n < 0 {
        made(terms, Head::Neg, &[], &[numeral])
    } else {
        Ok(numeral)
    }
}

/// The id of the value term of a value within the limits: `true`, `false`, a numeral, `(- k)` with a
/// numeral k above 0, or a literal of given value and width. It evaluates to the value, and no other
/// value term does. What is declared stays, and so does every id, also where memory is wanting. No
/// rule and no limit of terms refuses it, so that an error is want of memory.
#[tactic(auto, using(crate::proofs::Unrefused::never_refused))]
pub fn value_term<T: Terms>(
    alloc: Global,
    terms: &mut T,
    value: Value,
) -> Result<TermId, AllocError>
    requires { IsLimited value }
    ensures id { IfOk result (λ id. id.0 < length (T.state terms.new).trees) }
    ensures term { IfOk result (λ id. tree_at (T.state terms.new).trees id.0
        ≡ value_term_of value) }
    ensures grows { AddsPartsOf (value_term_of value) (T.state terms.old) (T.state terms.new) }
    ensures free { IsNeverRefused (value_term_of value) }
{
    match value {
        Value::Truth(true) => made(terms, Head::True, &[], &[]),
        Value::Truth(false) => made(terms, Head::False, &[], &[]),
        Value::Whole(n) => whole_term(terms, n),
        Value::Bits { width, value } => {
            let index = Linear::constant(alloc, width as i128);
            made(terms, Head::Bits(value), &[index], &[])
        }
    }
}
