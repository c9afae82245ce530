//! What stands for the numbers of a rule's names: widths, indices and the totals of lists.
ghost use Rattle.std.specs.Prelude.{◌≡◌, ◌<◌, length, map, ℕ, IfOk, IfSome, OnOk};
ghost use Rattle.rare_linear.specs.Linears.{NamesBelow};
ghost use Rattle.rare_sort.specs.DeclaredSorts.{widths, AreNamed};
ghost use Rattle.rare_inst.specs.Substituting.{Substitution};

use rare_linear::{Linear, LinearError, Linears};
use rare_list::Sequence;
use std::alloc::{AllocError, Global};

/// What stands for each name in expressions.
#[derive(Drop)]
pub(crate) struct Numbers {
    /// 0 where a partial sum of a total leaves `i128`.
    pub(crate) values: Linears,
    /// Whether each partial sum of a total is within `i128`.
    pub(crate) formed: Sequence<bool>,
    ghost paired: { length formed ≡ length values },
}

impl Numbers {
    ghost use Rattle.rare_inst.specs.inner.Standing.{all_formed, put_all_within, put_within, StandsFor};

    /// Whether what stands for each of the names is formed.
    fn are_formed(&self, parts: &[(u32, i128)]) -> bool
        requires { NamesBelow (length self.now.values) parts.now }
        ensures { result ≡ all_formed self.now.formed parts.now }
    {
        for (name, _) in parts {
            if !*self.formed.get(*name as usize) {
                return false;
            }
        }
        true
    }

    /// The expression with what stands for its names, or none where a partial sum leaves `i128` or a
    /// total in it isn't formed.
    pub(crate) fn put(&self, e: &Linear) -> Result<Option<Linear>, AllocError>
        requires { NamesBelow (length self.now.values) e.now.parts }
        ensures value { (a : Substitution) → StandsFor a self.now →
            IfOk result (λ o. o ≡ put_within a e.now) }
        ensures named { (n : ℕ) → AreNamed n self.now.values →
            IfOk result (λ o. IfSome o (λ s. NamesBelow n s.parts)) }
    {
        if !self.are_formed(e.parts()) {
            return Ok(None);
        }
        match e.substitute(self.values.items()) {
            Ok(sum) => Ok(Some(sum)),
            Err(LinearError::TooLarge) => Ok(None),
            Err(LinearError::Memory) => Err(AllocError),
        }
    }

    /// Each expression with what stands for its names, or none where one has none.
    pub(crate) fn put_all(
        &self,
        alloc: Global,
        es: &[Linear],
    ) -> Result<Option<Linears>, AllocError>
        requires { AreNamed (length self.now.values) es.now }
        ensures value { (a : Substitution) → StandsFor a self.now →
            IfOk result (λ o. o ≡ put_all_within a es.now) }
        ensures named { (n : ℕ) → AreNamed n self.now.values →
            IfOk result (λ o. IfSome o (AreNamed n)) }
    {
        let mut all = Linears::new(alloc);
        for e in es {
            match self.put(e)? {
                Some(put) => all.push(put)?,
                None => return Ok(None),
            }
        }
        Ok(Some(all))
    }
}
