//! Sorts, and the signatures of declared symbols.
ghost use Rattle.std.specs.Prelude.{◌≡◌, ◌↔◌, IsTrue, IfOk};
ghost use Rattle.rare_sort.specs.Sameness.{sort_eq};

use rare_linear::Linear;
use rare_list::{Boxed, Sequence};
use std::alloc::{AllocError, Global};

/// A sort (SMT-LIB 2.6, theories Core, Ints, ArraysEx and FixedSizeBitVectors).
#[derive(Debug, Drop)]
pub enum Sort {
    Bool,
    Int,
    /// Bit vectors of this width.
    BitVec(Linear),
    /// Arrays from the first sort to the second.
    Array(Boxed<Sort>, Boxed<Sort>),
    /// The declared sort of this number, counted from 0. In a rule, its parameter of this number.
    Named(u32),
}

/// A list of sorts.
pub type Sorts = Sequence<Sort>;

impl Sort {
    /// An equal sort, unless memory is wanting.
    pub fn copy(&self, alloc: Global) -> Result<Sort, AllocError>
        ensures { IfOk result (λ s. s ≡ self.now) }
    {
        match self {
            Sort::Bool => Ok(Sort::Bool),
            Sort::Int => Ok(Sort::Int),
            Sort::BitVec(width) => Ok(Sort::BitVec(width.copy(alloc)?)),
            Sort::Array(keys, entries) => {
                let keys = Boxed::new(alloc, keys.get().copy(alloc)?)?;
                let entries = Boxed::new(alloc, entries.get().copy(alloc)?)?;
                Ok(Sort::Array(keys, entries))
            }
            Sort::Named(k) => Ok(Sort::Named(*k)),
        }
    }
}

/// Whether two sorts are one: their widths have one normal form.
pub fn is_same_sort(a: &Sort, b: &Sort) -> bool
    ensures same { IsTrue result ↔ (a.now ≡ b.now) }
    ensures test { result ≡ sort_eq a.now b.now }
{
    are_same(a, b)
}

fn are_same(a: &Sort, b: &Sort) -> bool
    ensures { IsTrue result ↔ (a.now ≡ b.now) }
{
    match (a, b) {
        (Sort::Bool, Sort::Bool) | (Sort::Int, Sort::Int) => true,
        (Sort::BitVec(m), Sort::BitVec(n)) => m.is_same(n),
        (Sort::Array(a, b), Sort::Array(c, d)) => {
            are_same(a.get(), c.get()) && are_same(b.get(), d.get())
        }
        (Sort::Named(j), Sort::Named(k)) => j == k,
        _ => false,
    }
}

/// The sorts of a symbol's arguments, and the sort of its applications.
#[derive(Debug, Drop)]
pub struct Signature {
    pub args: Sorts,
    pub gives: Sort,
}

/// A list of signatures.
pub type Signatures = Sequence<Signature>;
