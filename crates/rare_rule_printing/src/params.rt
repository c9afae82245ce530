//! Writes parameters of rules.
ghost use Rattle.std.specs.Prelude.{◌≡◌, ◌++◌, ◌∷◌, [], codes, slice_get, IsTrue, OnOk, OnErr};
ghost use Rattle.std.specs.Option.{option_map};
ghost use Rattle.rare_rule.specs.ParamForms.{all_params, has_sort_over, is_sort_over};
ghost use Rattle.rare_rule_printing.specs.SortPrinting.{alone, declaration_text, fresh_word, is_fresh_of, kind_text, params_text, rule_sort_text, text_or, word_if_fresh};
ghost use Rattle.rare_rule_printing.specs.inner.RulePieces.{declaration_end, declared_text, next_lead};
ghost use Rattle.rare_sexpr.specs.Written.{IsCut, written_symbol};

use crate::names::is_list;
use crate::sort::write_sort;
use rare_base::Text;
use rare_linear::Linear;
use rare_rule::{Param, ParamKind};
use rare_sexpr::write_symbol;
use rare_sort::Sort;
use std::alloc::AllocError;

// The name that an expression is, if it is one name alone.
fn alone(width: &Linear) -> Option<u32>
    ensures { result ≡ alone width.now }
{
    match width.parts() {
        [(name, 1)] if width.offset() == 0 => Some(*name),
        _ => None,
    }
}

// Whether the parameter is the fresh one of this name.
fn is_fresh_of(name: &[u8], param: Option<&Param>) -> bool
    ensures { result ≡ is_fresh_of name.now (option_map (λ p. p.now) param.entry) }
{
    match param {
        Some(param) => param.fresh && name == param.name.bytes(),
        None => false,
    }
}

// The word, where the number is that of the fresh parameter of this name.
fn word_if_fresh(
    params: &[Param],
    name: &[u8],
    word: &'static [u8],
    number: Option<u32>,
) -> Option<&'static [u8]>
    ensures { option_map (λ w. w.now) result ≡ word_if_fresh params.now name.now word.now number }
{
    let k = number?;
    if is_fresh_of(name, params.get(k as usize)) {
        Some(word)
    } else {
        None
    }
}

// `?` or `?BitVec`, where the sort is that of the fresh parameter that this name brought.
fn fresh_word(params: &[Param], name: &[u8], sort: &Sort) -> Option<&'static [u8]>
    ensures { option_map (λ w. w.now) result ≡ fresh_word params.now name.now sort.now }
{
    match sort {
        Sort::Named(k) => word_if_fresh(params, name, b"?", Some(*k)),
        Sort::BitVec(width) => word_if_fresh(params, name, b"?BitVec", alone(width)),
        _ => None,
    }
}

// The sort of a parameter of this name.
fn write_sort_of(
    params: &[Param],
    name: &[u8],
    sort: &Sort,
    out: &mut Text,
) -> Result<(), AllocError>
    requires { IsTrue (is_sort_over params.now sort.now) }
    ensures ok { OnOk result
        (out.new ≡ out.old ++ text_or (fresh_word params.now name.now sort.now)
        (rule_sort_text params.now sort.now)) }
    ensures err { OnErr result
        (IsCut out.old (text_or (fresh_word params.now name.now sort.now)
        (rule_sort_text params.now sort.now)) out.new) }
{
    match fresh_word(params, name, sort) {
        Some(word) => out.append(word),
        None => write_sort(params, sort, out),
    }
}

// What a parameter of this name stands for.
fn write_kind(
    params: &[Param],
    name: &[u8],
    kind: &ParamKind,
    out: &mut Text,
) -> Result<(), AllocError>
    requires { IsTrue (has_sort_over params.now kind.now) }
    ensures ok { OnOk result (out.new ≡ out.old ++ kind_text params.now name.now kind.now) }
    ensures err { OnErr result (IsCut out.old (kind_text params.now name.now kind.now) out.new) }
{
    match kind {
        ParamKind::SortName => out.append(b"Sort"),
        ParamKind::Width => out.append(b"Width"),
        ParamKind::Index => out.append(b"Index"),
        ParamKind::Term(sort) | ParamKind::List(sort) => write_sort_of(params, name, sort, out),
        ParamKind::WideList => out.append(b"?BitVec"),
    }
}

// The attributes of a parameter, and the end of its list.
fn declaration_end(param: &Param) -> &'static [u8]
    ensures { result.now ≡ declaration_end param.now }
{
    match (param.constant, is_list(&param.kind)) {
        (false, false) => b")",
        (true, false) => b" :const)",
        (false, true) => b" :list)",
        (true, true) => b" :const :list)",
    }
}

// `(x S)`, with its attributes.
fn write_declaration(params: &[Param], param: &Param, out: &mut Text) -> Result<(), AllocError>
    requires { IsTrue (has_sort_over params.now param.now.kind) }
    ensures ok { OnOk result (out.new ≡ out.old ++ declaration_text params.now param.now) }
    ensures err { OnErr result (IsCut out.old (declaration_text params.now param.now) out.new) }
{
    out.push(b'(')?;
    write_symbol(out, param.name.bytes())?;
    out.push(b' ')?;
    write_kind(params, param.name.bytes(), &param.kind, out)?;
    out.append(declaration_end(param))
}

// A parameter behind a lead, where it is declared.
fn write_declared(
    params: &[Param],
    lead: &[u8],
    param: &Param,
    out: &mut Text,
) -> Result<(), AllocError>
    requires { IsTrue (has_sort_over params.now param.now.kind) }
    ensures ok { OnOk result (out.new ≡ out.old ++ declared_text params.now lead.now param.now) }
    ensures err { OnErr result
        (IsCut out.old (declared_text params.now lead.now param.now) out.new) }
{
    if param.fresh {
        return Ok(());
    }
    out.append(lead)?;
    write_declaration(params, param, out)
}

// What stands before the next parameter.
fn next_lead(lead: &'static [u8], param: &Param) -> &'static [u8]
    ensures { result.now ≡ next_lead lead.now param.now }
{
    if param.fresh { lead } else { b" " }
}

// The declared parameters of a rule.
pub fn write_params(params: &[Param], out: &mut Text) -> Result<(), AllocError>
    requires { IsTrue (all_params (λ p. has_sort_over params.now p.kind) params.now) }
    ensures ok { OnOk result (out.new ≡ out.old ++ params_text params.now) }
    ensures err { OnErr result (IsCut out.old (params_text params.now) out.new) }
{
    out.push(b'(')?;
    let mut lead: &'static [u8] = b"";
    for param in params {
        write_declared(params, lead, param, out)?;
        lead = next_lead(lead, param);
    }
    out.push(b')')
}
