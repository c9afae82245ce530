//! Linear expressions in normal form: sums, multiples, differences and substitution, exact in 128 bits.
ghost use Rattle.std.specs.Prelude.{◌≡◌, ◌↔◌, IsTrue, ℕ, ℤ, ◌+ℤ◌, ◌*ℤ◌, pos, [], ◌∷◌, length, IfOk, OnOk};

use crate::error::LinearError;
use crate::merge;
use rare_list::Sequence;
use std::alloc::{AllocError, Global};
use std::marker::Model;

/// A whole constant and whole coefficients of names: `offset + c1 * n1 + c2 * n2 + ..`.
///
/// It is kept in normal form: the names rise, and no coefficient is 0. So expressions with equal values at
/// all names have equal parts (`equal_values_are_one_form`). Widths of bit vectors and indices of operators
/// are such expressions.
#[derive(Debug, Drop)]
pub struct Linear {
    constant: i128,
    parts: Vec<(u32, i128)>,
}

impl Model for Linear {
    ghost use Rattle.rare_linear.specs.Linears.{LinearExpression, linear, IsNormal};
    ghost use Rattle.rare_linear.specs.PartialSums.{AllFit};
    ghost use Rattle.std.specs.Prelude.{FitsSigned};
    ghost use Rattle.std.specs.Int.{w128};

    ghost Value = { LinearExpression };

    ghost view = { λ l. linear l.constant l.parts.items };

    ghost invariant = { λ l. IsNormal l.parts.items × AllFit l.parts.items × FitsSigned w128 l.constant };
}

/// A list of linear expressions.
pub type Linears = Sequence<Linear>;

impl Linear {
    ghost use Rattle.rare_linear.specs.Linears.{IsNormal, NamesBelow, linear, number, linear_value, add, scale, substitute, value_at};
    ghost use Rattle.rare_linear.specs.PartialSums.{AllFit, IsWithin, PartialSumsFit};
    ghost use Rattle.rare_linear.specs.Entailment.{minus};

    /// The names with their coefficients, the names rising and no coefficient 0.
    pub fn parts(&self) -> &[(u32, i128)]
        ensures parts { result.now ≡ self.now.parts }
        ensures normal { IsNormal result.now }
        ensures fit { AllFit result.now }
    {
        &self.parts
    }

    /// The constant.
    pub fn offset(&self) -> i128
        ensures { result ≡ self.now.constant }
    {
        self.constant
    }

    /// An expression without names. It cannot fail.
    pub fn constant(alloc: Global, k: i128) -> Linear
        ensures { result ≡ number k }
    {
        Linear {
            constant: k,
            parts: Vec::new(alloc),
        }
    }

    /// The name with coefficient 1, unless memory is wanting.
    pub fn name(alloc: Global, name: u32) -> Result<Linear, AllocError>
        ensures { IfOk result (λ l. l ≡ linear (pos 0) ((name, pos 1) ∷ [])) }
    {
        let mut parts = Vec::new(alloc);
        parts.push((name, 1))?;
        Ok(Linear { constant: 0, parts })
    }

    /// Whether two expressions are one.
    pub fn is_same(&self, other: &Linear) -> bool
        ensures { IsTrue result ↔ (self.now ≡ other.now) }
    {
        is_same_number(self.constant, other.constant)
            && self.parts.as_slice() == other.parts.as_slice()
    }

    /// An equal expression in memory of its own.
    pub fn copy(&self, alloc: Global) -> Result<Linear, AllocError>
        ensures { IfOk result (λ l. l ≡ self.now) }
    {
        Ok(Linear {
            constant: self.constant,
            parts: Vec::from_slice(alloc, &self.parts)?,
        })
    }

    /// The sum of the two.
    ///
    /// `TooLarge` says that its constant or a coefficient is no `i128`.
    pub fn add(&self, other: &Linear) -> Result<Linear, LinearError>
        ensures sum { IfOk result (λ l. l ≡ add self.now other.now) }
        ensures value { IfOk result (λ l. (at : ℕ → ℤ) →
            linear_value at l ≡ linear_value at self.now +ℤ linear_value at other.now) }
        ensures within { OnOk result (IsWithin (add self.now other.now)) }
        ensures too_large { result ≡ Err LinearError.TooLarge →
            ¬ IsWithin (add self.now other.now) }
    {
        self.plus_multiple(1, other)
    }

    /// `k` times the expression.
    ///
    /// `TooLarge` says that its constant or a coefficient is no `i128`.
    pub fn scale(&self, k: i128) -> Result<Linear, LinearError>
        ensures multiple { IfOk result (λ l. l ≡ scale k self.now) }
        ensures value { IfOk result (λ l. (at : ℕ → ℤ) →
            linear_value at l ≡ k *ℤ linear_value at self.now) }
        ensures within { OnOk result (IsWithin (scale k self.now)) }
        ensures too_large { result ≡ Err LinearError.TooLarge → ¬ IsWithin (scale k self.now) }
    {
        Linear::constant(*self.parts.allocator(), 0).plus_multiple(k, self)
    }

    /// This expression minus the other.
    ///
    /// `TooLarge` says that its constant or a coefficient is no `i128`.
    pub fn minus(&self, other: &Linear) -> Result<Linear, LinearError>
        ensures difference { IfOk result (λ l. l ≡ minus self.now other.now) }
        ensures within { OnOk result (IsWithin (minus self.now other.now)) }
        ensures too_large { result ≡ Err LinearError.TooLarge →
            ¬ IsWithin (minus self.now other.now) }
    {
        self.plus_multiple(-1, other)
    }

    /// The expression with `values[k]` in the place of name `k`. Each name needs a value.
    ///
    /// `TooLarge` says that the constant or a coefficient of a partial sum is no `i128`. These are the constant,
    /// and then the sums with one product more, by rising names. A product by itself need not be within `i128`.
    pub fn substitute(&self, values: &[Linear]) -> Result<Linear, LinearError>
        requires { NamesBelow (length values.now) self.now.parts }
        ensures substituted { IfOk result (λ l. l ≡ substitute (value_at values.now) self.now) }
        ensures value { IfOk result (λ l. (at : ℕ → ℤ) →
            linear_value at l ≡ linear_value (λ k. linear_value at (value_at values.now k))
            self.now) }
        ensures within { OnOk result (PartialSumsFit (value_at values.now) self.now) }
        ensures too_large { result ≡ Err LinearError.TooLarge →
            ¬ PartialSumsFit (value_at values.now) self.now }
    {
        self.sum_of_products(values)
    }

    /// The constant and the products of the values, summed by rising names.
    fn sum_of_products(&self, values: &[Linear]) -> Result<Linear, LinearError>
        requires { NamesBelow (length values.now) self.now.parts }
        ensures sum { IfOk result (λ l. l ≡ substitute (value_at values.now) self.now) }
        ensures within { OnOk result (PartialSumsFit (value_at values.now) self.now) }
        ensures too_large { result ≡ Err LinearError.TooLarge →
            ¬ PartialSumsFit (value_at values.now) self.now }
    {
        let mut sum = Linear::constant(*self.parts.allocator(), self.constant);
        let parts = self.parts();
        for (name, coefficient) in parts {
            sum = sum.plus_multiple(*coefficient, &values[*name as usize])?;
        }
        Ok(sum)
    }

    /// This expression plus `k` times another.
    fn plus_multiple(&self, k: i128, other: &Linear) -> Result<Linear, LinearError>
        ensures sum { IfOk result (λ l. l ≡ add self.now (scale k other.now)) }
        ensures within { OnOk result (IsWithin (add self.now (scale k other.now))) }
        ensures too_large { result ≡ Err LinearError.TooLarge →
            ¬ IsWithin (add self.now (scale k other.now)) }
    {
        let Some(constant) = merge::add_product(self.constant, k, other.constant) else {
            return Err(LinearError::TooLarge);
        };
        let alloc = *self.parts.allocator();
        let parts = merge::plus_multiple(alloc, &self.parts, k, &other.parts)?;
        Ok(Linear { constant, parts })
    }
}

fn is_same_number(a: i128, b: i128) -> bool
    ensures { IsTrue result ↔ (a ≡ b) }
{
    a == b
}
