//! The operator at the head of a list.
ghost use Rattle.std.specs.Prelude.{◌≡◌, ◌<◌, length, nat_eq, IfOk, OnOk, if◌then◌else◌};
ghost use Rattle.rare_base.specs.declared.answers.Reason.TheVariants as reason;
ghost use Rattle.rare_scope.specs.Answers.{Answers};
ghost use Rattle.rare_scope.specs.Names.{found, names_of, AreMeant};
ghost use Rattle.rare_scope.specs.Reading.{refused};
ghost use Rattle.rare_sexpr.specs.Tree.{text_of};
ghost use Rattle.rare_sort.specs.DeclaredSorts.{widths, AreNamed, IsSymbol};
ghost use Rattle.rare_sort.specs.Families.{family};
ghost use Rattle.rare_sort.specs.declared.head.Head.TheVariants as kinds;
ghost use Rattle.rare_term.specs.Literals.{IsGiven};
ghost use Rattle.rare_operators.specs.HeadText as text;
ghost use Rattle.rare_operators.specs.HeadText.{head_at, symbol_head, unless_alone};
ghost use Rattle.rare_operators.specs.OperatorWords.{operator_of_word};
ghost use Rattle.rare_term.specs.State.{Grows};
ghost use Rattle.rare_operators.specs.Plain.{IsBare, IsPlain};
ghost use Rattle.rare_operators.specs.inner.DeclaredHead.{IsDeclaredHead};

use crate::indexed::read_indexed_head;
use crate::words::{WordUse, word_use};
use rare_base::{Fault, Reason};
use rare_bindings::Bindings;
use rare_linear::Linears;
use rare_scope::{Meaning, refusal_at};
use rare_sexpr::{Expr, Kind};
use rare_term::{Head, TermError, Terms};
use std::alloc::Global;

/// An operator with its indices.
#[derive(Debug, Drop)]
pub struct IndexedHead {
    pub head: Head,
    pub indices: Linears,
}

// An operator without indices.
fn bare(alloc: Global, head: Head) -> IndexedHead
    ensures { result ≡ text.bare head }
{
    IndexedHead {
        head,
        indices: Linears::new(alloc),
    }
}

// What takes no arguments: alone in its list it is no term.
fn constant_head<E: Expr>(
    alloc: Global,
    e: &E,
    arguments: usize,
    head: Head,
) -> Result<IndexedHead, Fault>
    requires { IsPlain head }
    ensures read { Answers result (unless_alone (E.tree e.now) arguments head) }
    ensures plain { IfOk result IsBare }
{
    if arguments == 0 {
        Err(refusal_at(e, Reason::BadForm))
    } else {
        Ok(bare(alloc, head))
    }
}

// The operator that `-` is with so many arguments.
fn difference(arguments: usize) -> Head
    ensures head { result ≡ (if nat_eq arguments 1 then kinds.Neg else kinds.Minus) }
    ensures plain { IsPlain result }
{
    if arguments == 1 {
        Head::Neg
    } else {
        Head::Minus
    }
}

/// The operator that the word `head` of the theories is at the head of the list `e`, which has
/// `arguments` items behind it: `UnknownSymbol` at a word that is no operator, and `BadForm` at the list
/// where it holds nothing but `true` or `false`.
pub fn word_head<E: Expr>(
    alloc: Global,
    e: &E,
    head: &E,
    arguments: usize,
) -> Result<IndexedHead, Fault>
    ensures read { Answers result (text.word_head (E.tree e.now) (E.tree head.now) arguments
        (operator_of_word (text_of (E.tree head.now)))) }
    ensures plain { IfOk result IsBare }
{
    match word_use(head.text()) {
        None => Err(refusal_at(head, Reason::UnknownSymbol)),
        Some(WordUse::Constant(constant)) => constant_head(alloc, e, arguments, constant),
        Some(WordUse::Difference) => Ok(bare(alloc, difference(arguments))),
        Some(WordUse::Plain(operator)) => Ok(bare(alloc, operator)),
    }
}

// The refusal of a name of a term in the place of an operator.
fn term_head<E: Expr>(e: &E, head: &E, arguments: usize) -> Result<IndexedHead, Fault>
    ensures { Answers result (if nat_eq arguments 0 then (refused (E.tree e.now) reason.BadForm)
        else (refused (E.tree head.now) reason.UnknownSymbol)) }
{
    if arguments == 0 {
        Err(refusal_at(e, Reason::BadForm))
    } else {
        Err(refusal_at(head, Reason::UnknownSymbol))
    }
}

// The operator that a declared symbol is, alone in its list.
fn lone_symbol<E: Expr, T: Terms>(
    alloc: Global,
    e: &E,
    symbol: u32,
    terms: &mut T,
) -> Result<IndexedHead, Fault>
    requires { symbol < length (T.state terms.old).declared.symbols }
    ensures read { Answers result
        (symbol_head (T.state terms.old).declared (E.tree e.now) 0 symbol) }
    ensures head { IfOk result (λ a. a ≡ text.bare (kinds.Free symbol)) }
    ensures same { OnOk result (T.state terms.new ≡ T.state terms.old) }
    ensures grows { Grows (T.state terms.old) (T.state terms.new) }
{
    match terms.make(Head::Free(symbol), &[], &[]) {
        Ok(_) => Err(refusal_at(e, Reason::BadForm)),
        Err(why) => match why {
            TermError::Memory => Err(Fault::Memory),
            _ => Ok(bare(alloc, Head::Free(symbol))),
        },
    }
}

// The operator that a declared symbol is.
fn free_head<E: Expr, T: Terms>(
    alloc: Global,
    e: &E,
    arguments: usize,
    symbol: u32,
    terms: &mut T,
) -> Result<IndexedHead, Fault>
    requires { symbol < length (T.state terms.old).declared.symbols }
    ensures read { Answers result
        (symbol_head (T.state terms.old).declared (E.tree e.now) arguments symbol) }
    ensures head { IfOk result (λ a. a ≡ text.bare (kinds.Free symbol)) }
    ensures same { OnOk result (T.state terms.new ≡ T.state terms.old) }
    ensures grows { Grows (T.state terms.old) (T.state terms.new) }
{
    if arguments == 0 {
        lone_symbol(alloc, e, symbol, terms)
    } else {
        Ok(bare(alloc, Head::Free(symbol)))
    }
}

// The operator that a name is.
#[tactic(auto, using(rare_scope::proofs::SortSteps::found_meant, rare_scope::proofs::SortSteps::found_is))]
fn named_head<E: Expr, T: Terms>(
    alloc: Global,
    e: &E,
    head: &E,
    arguments: usize,
    names: &Bindings,
    terms: &mut T,
) -> Result<IndexedHead, Fault>
    requires { AreMeant (T.state terms.old) names.now }
    ensures read { Answers result (text.named_head (T.state terms.old).declared (E.tree e.now)
        (E.tree head.now) arguments
        (found (names_of (T.state terms.old).trees names.now) (text_of (E.tree head.now)))) }
    ensures ready { IfOk result (IsDeclaredHead (T.state terms.old).declared) }
    ensures same { OnOk result (T.state terms.new ≡ T.state terms.old) }
    ensures grows { Grows (T.state terms.old) (T.state terms.new) }
{
    match names.find(head.text()) {
        Some(Meaning::Term(_)) => term_head(e, head, arguments),
        Some(Meaning::Symbol(k)) => free_head(alloc, e, arguments, k, terms),
        Some(Meaning::Sort(_)) | Some(Meaning::Width(_)) => {
            Err(refusal_at(head, Reason::UnknownSymbol))
        }
        None => word_head(alloc, e, head, arguments),
    }
}

/// The operator that `head` spells at the head of the list `e`, which has `arguments` items behind it,
/// with its indices; or the first fault.
///
/// Errors are `UnknownSymbol` at a name that is no operator; `BadForm` at the list where it holds
/// nothing but `true`, `false`, a term's name or a symbol without arguments, at a head that is neither a
/// symbol nor a list that begins with `_`, at such a list with another number of items, and at a word
/// behind `_` that is no operator with indices; those of `read_linear` in the indices; and want of memory.
///
/// The terms stay as they are, save that a symbol without arguments may be among them once the list that
/// holds nothing else is refused.
pub fn read_head<E: Expr, T: Terms>(
    alloc: Global,
    e: &E,
    head: &E,
    arguments: usize,
    names: &Bindings,
    terms: &mut T,
) -> Result<IndexedHead, Fault>
    requires { AreMeant (T.state terms.old) names.now }
    ensures read { Answers result (head_at (T.state terms.old).declared
        (names_of (T.state terms.old).trees names.now) (E.tree e.now) (E.tree head.now) arguments) }
    ensures symbol { IfOk result (λ a.
        IsSymbol (length (T.state terms.old).declared.symbols) (family a.head)) }
    ensures indices { IfOk result (λ a. AreNamed (widths (T.state terms.old).declared) a.indices) }
    ensures bits { IfOk result (λ a. IsGiven a.head a.indices) }
    ensures same { OnOk result (T.state terms.new ≡ T.state terms.old) }
    ensures grows { Grows (T.state terms.old) (T.state terms.new) }
{
    match head.kind() {
        Kind::Symbol => named_head(alloc, e, head, arguments, names, terms),
        Kind::List => read_indexed_head(alloc, head, names),
        Kind::Keyword | Kind::Numeral | Kind::Decimal | Kind::Binary | Kind::Hex | Kind::Quoted =>
            Err(refusal_at(head, Reason::BadForm)),
    }
}
