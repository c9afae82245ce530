//! What the names of a rule's parameters stand for.
ghost use Rattle.std.specs.Prelude.{◌≡◌, ◌<◌, ◌^◌, Some, bytes_eq, length, map, IfOk, IfSome};
ghost use Rattle.rare_parse.specs.RuleNames.{is_own_word, number_named, number_of_name, number_where, rule_widths, size_named, sort_named, term_named};
ghost use Rattle.rare_rule.specs.Params.{kind_at, is_sort_kind};
ghost use Rattle.rare_scope.specs.Reserved.{is_among};

use rare_linear::Linear;
use rare_operators::indexed_word;
use rare_rule::{Param, ParamKind};
use rare_scope::{WidthNames, is_theory_word_name};
use rare_sort::Sort;
use std::alloc::{AllocError, Global};
use std::marker::Model;

/// The parameters of a rule that stand so far. Contracts see them as the list of the parameters.
#[derive(Drop)]
pub struct RuleNames<'p> {
    params: &'p [Param],
}

impl<'p> Model for RuleNames<'p> {
    ghost use Rattle.std.specs.Prelude.{◌<◌, ◌^◌, List, length};
    ghost use Rattle.std.specs.Coded.{codes};
    ghost use Rattle.rare_rule.specs.declared.param.Param.{Param};
    ghost use Rattle.rare_sort.specs.contracts.sort.Sort as sort;

    ghost Value = { List Param };

    ghost coded = { Prim.hlevel (codes, sort.the_row.coded) };

    ghost view = { λ n. n.params.now };

    ghost invariant = { λ n. length n.params.now < 2 ^ 32 };
}

fn is_named(param: &Param, name: &[u8]) -> bool
    ensures { result ≡ bytes_eq name.now param.now.name }
{
    name == param.name.bytes()
}

// Whether a word means itself in the place of a sort.
fn is_own(word: &[u8]) -> bool
    ensures { result ≡ is_own_word word.now }
{
    is_theory_word_name(word) || indexed_word(word).is_some()
}

impl<'p> RuleNames<'p> {
    /// The names of these parameters.
    pub fn new(params: &'p [Param]) -> RuleNames<'p>
        requires { length params.now < 2 ^ 32 }
        ensures { result ≡ params.now }
    {
        RuleNames { params }
    }

    /// Whether a parameter has this name.
    pub fn has(&self, name: &[u8]) -> bool
        ensures { result ≡ is_among (map (λ p. p.name) self.now) name.now }
    {
        for param in self.params {
            if is_named(param, name) {
                return true;
            }
        }
        false
    }

    // The number of the first parameter of this name.
    fn find(&self, name: &[u8]) -> Option<u32>
        ensures number { result ≡ number_of_name self.now name.now }
        ensures within { IfSome result (λ k. k < length self.now) }
    {
        let params = self.params;
        for k in 0..params.len() {
            if is_named(&params[k], name) {
                return Some(k as u32);
            }
        }
        None
    }

    // The kind of parameter `k`.
    fn kind(&self, k: u32) -> &'p ParamKind
        requires { k < length self.now }
        ensures { kind_at self.now k ≡ Some result.now }
    {
        let params = self.params;
        &params[k as usize].kind
    }

    /// The number of the parameter of terms, or of lists of terms, that a name is.
    pub fn term(&self, name: &[u8]) -> Option<u32>
        ensures { result ≡ term_named self.now name.now }
    {
        let k = self.find(name)?;
        match self.kind(k) {
            ParamKind::Term(_) | ParamKind::List(_) | ParamKind::WideList => Some(k),
            ParamKind::SortName | ParamKind::Width | ParamKind::Index => None,
        }
    }

    fn sort_name(&self, name: &[u8]) -> Option<u32>
        ensures { result ≡ number_where is_sort_kind self.now name.now }
    {
        let k = self.find(name)?;
        match self.kind(k) {
            ParamKind::SortName => Some(k),
            _ => None,
        }
    }

    /// The number of the sort name that a name is, unless it is a word that means itself.
    pub fn sort(&self, name: &[u8]) -> Option<u32>
        ensures { result ≡ sort_named self.now name.now }
    {
        if is_own(name) {
            None
        } else {
            self.sort_name(name)
        }
    }
}

impl<'p> WidthNames for RuleNames<'p> {
    ghost names = { λ names. rule_widths names };

    fn number(&self, name: &[u8]) -> Option<u32> {
        let k = self.find(name)?;
        match self.kind(k) {
            ParamKind::Width | ParamKind::Index => Some(k),
            _ => None,
        }
    }

    fn has_sizes(&self) -> bool {
        true
    }

    fn size(&self, alloc: Global, name: &[u8]) -> Result<Option<Linear>, AllocError> {
        let Some(k) = self.find(name) else {
            return Ok(None);
        };
        match self.kind(k) {
            ParamKind::Term(Sort::BitVec(width)) => Ok(Some(width.copy(alloc)?)),
            ParamKind::List(_) | ParamKind::WideList => Ok(Some(Linear::name(alloc, k)?)),
            _ => Ok(None),
        }
    }
}
