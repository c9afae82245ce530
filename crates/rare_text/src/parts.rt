//! Parts of commands: names that may be declared, samples, and lists of sorts.
ghost use Rattle.std.specs.Prelude.{◌≡◌, ◌≤◌, false, List, length, map, nat_eq, All, IfOk};
ghost use Rattle.std.specs.List.{list_all};
ghost use Rattle.rare_scope.specs.Answers.{Answers};
ghost use Rattle.rare_scope.specs.Names.{names_of, is_declared, AreMeant};
ghost use Rattle.rare_sexpr.specs.Tree.{items_of};
ghost use Rattle.rare_sort.specs.DeclaredSorts.{IsDeclaredSort};
ghost use Rattle.rare_sort.specs.declared.tree.Tree.{Tree};
ghost use Rattle.rare_text.specs.CommandParts.{is_empty_list, is_zero_numeral, new_name, sample_at, sorts_at};

use rare_base::{Fault, Reason, Text};
use rare_scope::{
    Scope, is_list, is_numeral, is_reserved_name, read_sort, read_symbol, refusal_at, small_numeral,
};
use rare_sexpr::Expr;
use rare_sort::Sorts;
use rare_term::Terms;
use std::alloc::Global;

/// The largest sample of a width.
pub const LARGEST_SAMPLE: usize = 1 << 32;

/// A name that may be declared: `BadForm` at an expression that is no symbol, `DeclaredTwice` at a name that
/// is declared or a word of the theories, `ReservedSymbol` at a reserved one.
pub fn read_new_name<E: Expr>(alloc: Global, e: &E, scope: &Scope) -> Result<Text, Fault>
    ensures read { (ts : List Tree) → Answers result
        (new_name (names_of ts scope.now) (E.tree e.now)) }
    ensures new { IfOk result (λ name. is_declared scope.now name ≡ false) }
{
    let name = read_symbol(e)?;
    if scope.declares(name) {
        return Err(refusal_at(e, Reason::DeclaredTwice));
    }
    if is_reserved_name(name) {
        return Err(refusal_at(e, Reason::ReservedSymbol));
    }
    match Text::of(alloc, name) {
        Ok(name) => Ok(name),
        Err(_) => Err(Fault::Memory),
    }
}

fn is_zeros(digits: &[u8]) -> bool
    ensures { result ≡ list_all (nat_eq 48) digits.now }
{
    for digit in digits {
        if *digit != b'0' {
            return false;
        }
    }
    true
}

/// Whether the expression is the numeral 0, with any number of digits.
pub fn is_zero<E: Expr>(e: &E) -> bool
    ensures { result ≡ is_zero_numeral (E.tree e.now) }
{
    is_numeral(e) && is_zeros(e.text())
}

/// Whether the expression is the empty list.
pub fn is_nothing<E: Expr>(e: &E) -> bool
    ensures { result ≡ is_empty_list (E.tree e.now) }
{
    is_list(e) && e.len() == 0
}

/// The sample that a numeral from 1 to `LARGEST_SAMPLE` spells: `BadForm` at another expression.
pub fn read_sample<E: Expr>(e: &E) -> Result<usize, Fault>
    ensures read { Answers result (sample_at (E.tree e.now)) }
    ensures positive { IfOk result (λ n. 1 ≤ n) }
{
    if !is_numeral(e) {
        return Err(refusal_at(e, Reason::BadForm));
    }
    match small_numeral(e.text()) {
        Some(n) if 1 <= n && n <= LARGEST_SAMPLE as i128 => Ok(n as usize),
        _ => Err(refusal_at(e, Reason::BadForm)),
    }
}

/// The sorts that the items of a list spell: `BadForm` at another expression, the faults of `read_sort` at
/// the items, and want of memory.
pub fn read_sorts<T: Terms, E: Expr>(
    alloc: Global,
    e: &E,
    scope: &Scope,
    terms: &T,
) -> Result<Sorts, Fault>
    requires { AreMeant (T.state terms.now) scope.now }
    ensures read { Answers result
        (sorts_at (T.state terms.now).declared (names_of (T.state terms.now).trees scope.now)
        (E.tree e.now)) }
    ensures declared { IfOk result (λ ss. All (IsDeclaredSort (T.state terms.now).declared) ss) }
{
    if !is_list(e) {
        return Err(refusal_at(e, Reason::BadForm));
    }
    let mut sorts = Sorts::new(alloc);
    for k in 0..e.len() {
        let sort = read_sort(alloc, e.item(k), scope, terms)?;
        let Ok(()) = sorts.push(sort) else {
            return Err(Fault::Memory);
        };
    }
    Ok(sorts)
}
