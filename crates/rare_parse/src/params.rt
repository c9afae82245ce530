//! The parameters of a rule, read from expressions.
ghost use Rattle.std.specs.Prelude.{◌≡◌, ◌∷◌, [], ◌++◌, ◌+◌, ◌<◌, ◌^◌, length, map, None, IfOk, OnOk};
ghost use Rattle.rare_parse.specs.ParamText.{brought, param_at, param_name, params_at, written};
ghost use Rattle.rare_parse.specs.ParamText as text;
ghost use Rattle.rare_parse.specs.inner.ParamReading.{kind_of_word, kind_read, kind_word_at, from_parts, listed, param_read, words, AnswersKind, AnswersParam};
ghost use Rattle.rare_rule.specs.ParamForms.{NO_NAMES};
ghost use Rattle.rare_scope.specs.Answers.{Answers, AnswersBytes};
ghost use Rattle.rare_scope.specs.Entries.{entry};
ghost use Rattle.rare_scope.specs.Reserved.{is_among};

use crate::names::RuleNames;
use crate::sort::read_rule_sort;
use rare_base::{Fault, Reason, Text};
use rare_linear::Linear;
use rare_rule::{Param, ParamKind, Params};
use rare_scope::{entry_at, is_list, is_symbol, read_symbol, refusal_at};
use rare_sexpr::Expr;
use rare_sort::Sort;
use std::alloc::{AllocError, Global};

/// More parameters than this, declared and fresh, have no numbers: memory is wanting for them.
const MOST_DECLARED: usize = 1 << 31;

/// A word that is a kind of parameters.
#[derive(Clone, Copy, Debug, PartialEq, Eq)]
pub enum KindWord {
    SortName,
    Width,
    Index,
    FreshSort,
    FreshWidth,
}

const KIND_WORDS: [(&str, KindWord); 5] = [
    ("Sort", KindWord::SortName),
    ("Width", KindWord::Width),
    ("Index", KindWord::Index),
    ("?", KindWord::FreshSort),
    ("?BitVec", KindWord::FreshWidth),
];

/// The kind of a parameter, and the kind of the fresh parameter that it brings.
#[derive(Debug, Drop)]
pub struct ReadKind {
    pub kind: ParamKind,
    pub brings: Option<ParamKind>,
}

/// A parameter, and the fresh one that it brings.
#[derive(Debug, Drop)]
pub struct ReadParam {
    pub param: Param,
    pub fresh: Option<Param>,
}

fn word_of(text: &[u8]) -> Option<KindWord>
    ensures { result ≡ entry words text.now }
{
    entry_at(&KIND_WORDS, text)
}

fn plain(kind: ParamKind) -> ReadKind
    ensures { kind_read result ≡ text.bringing kind None }
{
    ReadKind { kind, brings: None }
}

// The kind that a word is, where a fresh parameter has this number.
fn kind_of(alloc: Global, word: KindWord, fresh: u32) -> Result<ReadKind, AllocError>
    ensures { IfOk result (λ k. kind_read k ≡ kind_of_word fresh word) }
{
    match word {
        KindWord::SortName => Ok(plain(ParamKind::SortName)),
        KindWord::Width => Ok(plain(ParamKind::Width)),
        KindWord::Index => Ok(plain(ParamKind::Index)),
        KindWord::FreshSort => Ok(ReadKind {
            kind: ParamKind::Term(Sort::Named(fresh)),
            brings: Some(ParamKind::SortName),
        }),
        KindWord::FreshWidth => Ok(ReadKind {
            kind: ParamKind::Term(Sort::BitVec(Linear::name(alloc, fresh)?)),
            brings: Some(ParamKind::Width),
        }),
    }
}

// The word of a kind that an expression is.
fn word_at<E: Expr>(e: &E) -> Option<KindWord>
    ensures { result ≡ kind_word_at (E.tree e.now) }
{
    if is_symbol(e) {
        word_of(e.text())
    } else {
        None
    }
}

// The kind that an expression is, or that of the terms of the sort that it spells.
#[tactic(auto, using(crate::proofs::ParamSteps::kind_by_word, crate::proofs::ParamSteps::kind_by_sort, crate::proofs::ParamSteps::sort_fails))]
fn read_kind<E: Expr>(
    alloc: Global,
    e: &E,
    fresh: u32,
    names: &RuleNames,
) -> Result<ReadKind, Fault>
    ensures { AnswersKind result (text.kind_at fresh names.now (E.tree e.now)) }
{
    match word_at(e) {
        Some(word) => match kind_of(alloc, word, fresh) {
            Ok(kind) => Ok(kind),
            Err(_) => Err(Fault::Memory),
        },
        None => match read_rule_sort(alloc, e, names) {
            Ok(sort) => Ok(plain(ParamKind::Term(sort))),
            Err(fault) => Err(fault),
        },
    }
}

// Whether no parameter may have this name, or one has it.
fn is_taken(name: &[u8], names: &RuleNames) -> bool
    ensures { result ≡ is_among (NO_NAMES ++ map (λ p. p.name) names.now) name.now }
{
    is_no_name(name) || names.has(name)
}

fn is_no_name(name: &[u8]) -> bool
    ensures { result ≡ is_among NO_NAMES name.now }
{
    name == b"true".as_slice() || name == b"false".as_slice() || name == b"_".as_slice()
}

// A name that no parameter has yet.
#[tactic(auto, using(crate::proofs::ParamSteps::name_taken, crate::proofs::ParamSteps::name_new, crate::proofs::ParamSteps::name_fails))]
fn read_name<'e, E: Expr>(e: &'e E, names: &RuleNames) -> Result<&'e [u8], Fault>
    ensures { AnswersBytes result (param_name names.now (E.tree e.now)) }
{
    match read_symbol(e) {
        Ok(name) => {
            if is_taken(name, names) {
                Err(refusal_at(e, Reason::DuplicateParam))
            } else {
                Ok(name)
            }
        }
        Err(fault) => Err(fault),
    }
}

// The fresh parameter of this name that a parameter brings.
fn fresh_of(
    alloc: Global,
    name: &[u8],
    brings: Option<ParamKind>,
) -> Result<Option<Param>, AllocError>
    ensures { IfOk result (λ fresh. listed fresh ≡ brought name.now brings) }
{
    match brings {
        Some(kind) => Ok(Some(Param {
            name: Text::of(alloc, name)?,
            kind,
            constant: false,
            fresh: true,
        })),
        None => Ok(None),
    }
}

// The parameter of this name and kind, with the fresh one that it brings.
fn param_of(alloc: Global, name: &[u8], kind: ReadKind) -> Result<ReadParam, AllocError>
    ensures { IfOk result (λ r. param_read r ≡ written name.now (kind_read kind)) }
{
    let fresh = fresh_of(alloc, name, kind.brings)?;
    Ok(ReadParam {
        param: Param {
            name: Text::of(alloc, name)?,
            kind: kind.kind,
            constant: false,
            fresh: false,
        },
        fresh,
    })
}

// The parameter that a name and a kind spell.
#[tactic(auto, using(crate::proofs::ParamSteps::first_fails, crate::proofs::ParamSteps::second_fails, crate::proofs::ParamSteps::both_read))]
fn read_parts<E: Expr>(
    alloc: Global,
    name: &E,
    kind: &E,
    fresh: u32,
    names: &RuleNames,
) -> Result<ReadParam, Fault>
    ensures { AnswersParam result (from_parts fresh names.now (E.tree name.now) (E.tree kind.now)) }
{
    match read_name(name, names) {
        Ok(name) => match read_kind(alloc, kind, fresh, names) {
            Ok(kind) => match param_of(alloc, name, kind) {
                Ok(read) => Ok(read),
                Err(_) => Err(Fault::Memory),
            },
            Err(fault) => Err(fault),
        },
        Err(fault) => Err(fault),
    }
}

// The parameter that an expression spells over those before it.
#[tactic(auto, using(crate::proofs::ParamSteps::other_param, crate::proofs::ParamSteps::two_items))]
fn read_param<E: Expr>(
    alloc: Global,
    e: &E,
    fresh: u32,
    names: &RuleNames,
) -> Result<ReadParam, Fault>
    ensures { AnswersParam result (param_at fresh names.now (E.tree e.now)) }
{
    if e.len() != 2 {
        return Err(refusal_at(e, Reason::BadForm));
    }
    read_parts(alloc, e.item(0), e.item(1), fresh, names)
}

// Keeps a parameter behind those declared, and what it brings behind the fresh ones.
fn keep(declared: &mut Params, fresh: &mut Vec<Param>, read: ReadParam) -> Result<(), AllocError>
    ensures declared { OnOk result (declared.new ≡ declared.old ++ (param_read read).param ∷ []) }
    ensures fresh { OnOk result (fresh.new.items ≡ fresh.old.items ++ (param_read read).brings) }
{
    declared.push(read.param)?;
    if let Some(param) = read.fresh {
        fresh.push(param)?;
    }
    Ok(())
}

// The parameters with the fresh ones behind them.
fn with_fresh(declared: Params, fresh: Vec<Param>) -> Result<Params, AllocError>
    ensures { IfOk result (λ ps. ps ≡ declared ++ fresh.items) }
{
    let mut params = declared;
    for param in fresh {
        params.push(param)?;
    }
    Ok(params)
}

/// The parameters that a list spells, with the fresh ones behind them, or the first fault.
///
/// Errors are `BadForm` at an atom, at a parameter that is no list of two and at a name that is no symbol;
/// `DuplicateParam` at a name that a parameter has before it, `true`, `false` and `_`; those of
/// `read_rule_sort`; and want of memory.
pub fn read_params<E: Expr>(alloc: Global, e: &E) -> Result<Params, Fault>
    ensures read { Answers result (params_at (E.tree e.now)) }
    ensures few { IfOk result (λ ps. length ps < 2 ^ 32) }
{
    if !is_list(e) {
        return Err(refusal_at(e, Reason::BadForm));
    }
    let count = e.len();
    if count >= MOST_DECLARED {
        return Err(Fault::Memory);
    }
    let mut declared = Params::new(alloc);
    let mut fresh = Vec::new(alloc);
    for k in 0..count {
        let number = (count + fresh.len()) as u32;
        match read_param(alloc, e.item(k), number, &RuleNames::new(declared.items())) {
            Ok(read) => {
                let Ok(()) = keep(&mut declared, &mut fresh, read) else {
                    return Err(Fault::Memory);
                };
            }
            Err(fault) => return Err(fault),
        }
    }
    match with_fresh(declared, fresh) {
        Ok(params) => Ok(params),
        Err(_) => Err(Fault::Memory),
    }
}
