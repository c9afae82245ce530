//! The trait of keepers of terms, and why a term is refused.
ghost use Rattle.std.specs.Prelude.{◌≡◌, ℕ, ◌+◌, ◌-◌, ◌^◌, ◌<◌, ◌≤◌, List, [], ◌∷◌, ◌++◌, length, slice_get, Some, All, IsTrue, ◌↔◌, IfOk, OnOk, OnErr};
ghost use Rattle.rare_linear.specs.Linears.{NamesBelow};
ghost use Rattle.rare_sort.specs.DeclaredSorts.{widths, follows, AreNamed, IsDeclaredSort, IsSymbol};
ghost use Rattle.rare_sort.specs.Families.{family};
ghost use Rattle.rare_sort.specs.Ids.{tree_at, trees_at, AreIds, IsOneToOne};
ghost use Rattle.rare_sort.specs.SortOf.{sort_of};
ghost use Rattle.rare_sort.specs.Trees.{head_of, indices_of, args_of};
ghost use Rattle.rare_term.specs.Lawful.{IsLawful};
ghost use Rattle.rare_term.specs.Literals.{application, IsGiven};
ghost use Rattle.rare_term.specs.Refusals.{RefusesTerm, refusal};
ghost use Rattle.rare_term.specs.State.{one_constraint, one_sort, one_symbol, one_width, under, AddsAtMost};

use rare_linear::{Constraint, Linear};
use rare_sort::{Head, Sort, TermId};
use std::alloc::AllocError;
use thiserror::Error;

/// Why a term is refused: the first that applies, in this order.
#[derive(Clone, Copy, Debug, PartialEq, Eq, Error)]
pub enum TermError {
    /// It would have more than 256 arguments.
    #[error("more than 256 arguments")]
    TooManyArgs,
    /// The operator takes other indices or other sorts, or what it asks of widths is not entailed.
    #[error("ill sorted")]
    IllSorted,
    /// It would nest more than 2,000 deep. A term without arguments counts as 1.
    #[error("nested more than 2,000 deep")]
    TooDeep,
    /// It would have more than 1,048,576 nodes, counted with repeats; or a width, or a partial sum of
    /// it from the left, leaves `i128`; or a numeral is above `2^127 - 1`; or a literal whose value
    /// and width are numbers, the width above 128, has a value that is not from 0 to `2^128 - 1`.
    #[error("too large")]
    TooLarge,
    /// Want of memory.
    #[error("out of memory")]
    Memory,
}

/// Terms by ids. Two ids are equal exactly where their trees are equal, and each id keeps its tree
/// and its sort through later calls.
pub trait Terms {
    ghost use Rattle.rare_term.specs.State.{State};

    /// The trees, each at the number of its id, and what is declared and assumed.
    ghost state: { Self → State };

    /// Declares a sort, and gives its number, the next from 0. It cannot fail.
    fn declare_sort(&mut self) -> u32
        requires { (state self.old).declared.sorts < 2 ^ 32 - 1 }
        ensures number { result ≡ (state self.old).declared.sorts }
        ensures state { state self.new ≡ under one_sort (state self.old) };

    /// Declares a symbol by the sorts of its arguments and of its applications, and gives its
    /// number, the next from 0. Where memory is wanting, nothing changes.
    fn declare_symbol(&mut self, args: &[Sort], gives: &Sort) -> Result<u32, AllocError>
        requires few { length (state self.old).declared.symbols < 2 ^ 32 - 1 }
        requires args { All (IsDeclaredSort (state self.old).declared) args.now }
        requires gives { IsDeclaredSort (state self.old).declared gives.now }
        ensures number { IfOk result (λ k. k ≡ length (state self.old).declared.symbols) }
        ensures ok { OnOk result (state self.new ≡
            under (one_symbol (record { args = args.now; gives = gives.now })) (state self.old)) }
        ensures err { OnErr result (state self.new ≡ state self.old) };

    /// Declares a name of a width, which is at least 1, and gives its number, the next from 0. Where
    /// memory is wanting, nothing changes.
    fn declare_width(&mut self) -> Result<u32, AllocError>
        requires { widths (state self.old).declared < 2 ^ 32 - 1 }
        ensures number { IfOk result (λ k. k ≡ widths (state self.old).declared) }
        ensures ok { OnOk result (state self.new ≡ under one_width (state self.old)) }
        ensures err { OnErr result (state self.new ≡ state self.old) };

    /// Adds a constraint on widths. Where memory is wanting, nothing changes.
    fn assume(&mut self, constraint: &Constraint) -> Result<(), AllocError>
        requires { NamesBelow (widths (state self.old).declared) constraint.now.floor.parts }
        ensures ok { OnOk result
            (state self.new ≡ under (one_constraint constraint.now) (state self.old)) }
        ensures err { OnErr result (state self.new ≡ state self.old) };

    /// Whether the constraints entail that the expression is at least 0, where each width name is at
    /// least 1. It cannot fail.
    fn entailed(&self, e: &Linear) -> bool
        requires { NamesBelow (widths (state self.now).declared) e.now.parts }
        ensures { result ≡ follows (state self.now).declared e.now };

    /// The operator at the root of the term.
    fn head(&self, id: TermId) -> Head
        requires { id.0 < length (state self.now).trees }
        ensures { result ≡ head_of (tree_at (state self.now).trees id.0) };

    /// How many indices the operator has.
    fn index_count(&self, id: TermId) -> usize
        requires { id.0 < length (state self.now).trees }
        ensures { result ≡ length (indices_of (tree_at (state self.now).trees id.0)) };

    /// Index `k` of the operator, counted from 0.
    fn index(&self, id: TermId, k: usize) -> &Linear
        requires id { id.0 < length (state self.now).trees }
        requires k { k < length (indices_of (tree_at (state self.now).trees id.0)) }
        ensures { slice_get (indices_of (tree_at (state self.now).trees id.0)) k
            ≡ Some result.now };

    /// How many arguments the term has.
    fn arg_count(&self, id: TermId) -> usize
        requires { id.0 < length (state self.now).trees }
        ensures { result ≡ length (args_of (tree_at (state self.now).trees id.0)) };

    /// Argument `k` of the term, counted from 0.
    fn arg(&self, id: TermId, k: usize) -> TermId
        requires id { id.0 < length (state self.now).trees }
        requires k { k < length (args_of (tree_at (state self.now).trees id.0)) }
        ensures id { result.0 < length (state self.now).trees }
        ensures tree { tree_at (state self.now).trees result.0
            ≡ tree_at (args_of (tree_at (state self.now).trees id.0)) k };

    /// The sort of the term.
    fn sort(&self, id: TermId) -> &Sort
        requires { id.0 < length (state self.now).trees }
        ensures { result.now ≡ sort_of (state self.now).declared.symbols
            (tree_at (state self.now).trees id.0) };

    /// The id of the term with this operator, these indices and these arguments, literals reduced,
    /// or the first refusal that applies, in the order of `TermError`. The ids, and the symbol if the
    /// operator is one, are of these terms, and so are the width names of the indices; the operator
    /// is none that stands in rules alone; a literal of given value has a number as its width. A
    /// refusal leaves the terms as they were.
    fn make(&mut self, head: Head, indices: &[Linear], args: &[TermId]) -> Result<TermId, TermError>
        requires ids { AreIds (length (state self.old).trees) args.now }
        requires symbol { IsSymbol (length (state self.old).declared.symbols) (family head) }
        requires names { AreNamed (widths (state self.old).declared) indices.now }
        requires bits { IsGiven head indices.now }
        ensures id { IfOk result (λ id. id.0 < length (state self.new).trees) }
        ensures made { IfOk result (λ id. tree_at (state self.new).trees id.0 ≡
            application head indices.now (trees_at (state self.old).trees args.now)) }
        ensures refused { RefusesTerm
            (refusal (state self.old).declared head indices.now
            (trees_at (state self.old).trees args.now)) result }
        ensures grows { AddsAtMost
            (application head indices.now (trees_at (state self.old).trees args.now))
            (state self.old) (state self.new) }
        ensures err { OnErr result (state self.new ≡ state self.old) };

    /// Equal trees have equal ids.
    ghost one_to_one: { (s : Self) → IsOneToOne (state s).trees };

    /// The standing laws.
    ghost lawful: { (s : Self) → IsLawful (state s) };
}
