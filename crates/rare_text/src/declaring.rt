//! A problem that is being read, with one name or one rewrite more.
ghost use Rattle.std.specs.Prelude.{◌≡◌, ◌<◌, ◌≤◌, ◌^◌, ◌-◌, false, length, map, bytes_eq, All, Ok};
ghost use Rattle.std.specs.List.{list_any};
ghost use Rattle.rare_scope.specs.Names.{a_term, is_declared};
ghost use Rattle.rare_sort.specs.DeclaredSorts.{IsDeclaredSort};
ghost use Rattle.rare_sort.specs.Ids.{Extends, tree_at};
ghost use Rattle.rare_sort.specs.SortOf.{sort_of};
ghost use Rattle.rare_text.specs.Problems.{with_name as named_more, with_sort as sort_more, with_symbol as symbol_more, with_width as width_more, with_rewrite as rewrite_more};
ghost use Rattle.rare_text.specs.Stated.{stated_problem, stated_rewrite};
ghost use Rattle.rare_text.specs.inner.Standing.{AnswersReader, IsProblemOf};

use crate::problem::Rewrite;
use crate::reader::ProblemReader;
use rare_base::Fault;
use rare_linear::Linear;
use rare_scope::Meaning;
use rare_sort::Sort;
use rare_term::{TermId, Terms};
use std::alloc::Global;

// Terms number what is declared from 0 by `u32`. A text of at most `2^32 - 2` bytes declares fewer names than
// this, so that the want of memory that is answered here never comes of such a text.
const MOST_NAMES: usize = u32::MAX as usize;

impl ProblemReader {
    /// The problem with one sort more.
    pub fn with_sort<T: Terms>(self, name: &[u8], terms: &mut T) -> Result<ProblemReader, Fault>
        requires held { IsProblemOf (T.state terms.old) self.problem }
        requires new { is_declared self.problem.scope name.now ≡ false }
        ensures read { AnswersReader (T.state terms.new) result
            (Ok (sort_more name.now (stated_problem (T.state terms.old) self.problem))) }
        ensures grows { Extends (T.state terms.old).trees (T.state terms.new).trees }
    {
        let ProblemReader {
            mut problem,
            values,
            names,
        } = self;
        if problem.scope.len() >= MOST_NAMES {
            return Err(Fault::Memory);
        }
        let k = terms.declare_sort();
        let Ok(()) = problem.scope.declare(name, Meaning::Sort(k)) else {
            return Err(Fault::Memory);
        };
        Ok(ProblemReader {
            problem,
            values,
            names,
        })
    }

    /// The problem with one symbol more.
    pub fn with_symbol<T: Terms>(
        self,
        name: &[u8],
        args: &[Sort],
        gives: &Sort,
        terms: &mut T,
    ) -> Result<ProblemReader, Fault>
        requires held { IsProblemOf (T.state terms.old) self.problem }
        requires new { is_declared self.problem.scope name.now ≡ false }
        requires args { All (IsDeclaredSort (T.state terms.old).declared) args.now }
        requires gives { IsDeclaredSort (T.state terms.old).declared gives.now }
        ensures read { AnswersReader (T.state terms.new) result
            (Ok (symbol_more name.now args.now gives.now
            (stated_problem (T.state terms.old) self.problem))) }
        ensures grows { Extends (T.state terms.old).trees (T.state terms.new).trees }
    {
        let ProblemReader {
            mut problem,
            values,
            names,
        } = self;
        if problem.scope.len() >= MOST_NAMES {
            return Err(Fault::Memory);
        }
        let Ok(k) = terms.declare_symbol(args, gives) else {
            return Err(Fault::Memory);
        };
        let Ok(()) = problem.scope.declare(name, Meaning::Symbol(k)) else {
            return Err(Fault::Memory);
        };
        Ok(ProblemReader {
            problem,
            values,
            names,
        })
    }

    /// The problem with one width more, and its sample.
    pub fn with_width<T: Terms>(
        self,
        alloc: Global,
        name: &[u8],
        sample: usize,
        terms: &mut T,
    ) -> Result<ProblemReader, Fault>
        requires held { IsProblemOf (T.state terms.old) self.problem }
        requires new { is_declared self.problem.scope name.now ≡ false }
        requires positive { 1 ≤ sample }
        ensures read { AnswersReader (T.state terms.new) result
            (Ok (width_more name.now sample (stated_problem (T.state terms.old) self.problem))) }
        ensures grows { Extends (T.state terms.old).trees (T.state terms.new).trees }
    {
        let ProblemReader {
            mut problem,
            mut values,
            names,
        } = self;
        if problem.scope.len() >= MOST_NAMES {
            return Err(Fault::Memory);
        }
        let Ok(k) = terms.declare_width() else {
            return Err(Fault::Memory);
        };
        let Ok(()) = problem.scope.declare(name, Meaning::Width(k)) else {
            return Err(Fault::Memory);
        };
        let Ok(()) = problem.samples.push(sample) else {
            return Err(Fault::Memory);
        };
        let Ok(()) = values.push(Linear::constant(alloc, sample as i128)) else {
            return Err(Fault::Memory);
        };
        Ok(ProblemReader {
            problem,
            values,
            names,
        })
    }

    /// The problem in which a name stands for a term.
    pub fn with_term<T: Terms>(
        self,
        name: &[u8],
        term: TermId,
        terms: &T,
    ) -> Result<ProblemReader, Fault>
        requires held { IsProblemOf (T.state terms.now) self.problem }
        requires new { is_declared self.problem.scope name.now ≡ false }
        requires id { term.0 < length (T.state terms.now).trees }
        ensures { AnswersReader (T.state terms.now) result
            (Ok (named_more name.now (a_term (tree_at (T.state terms.now).trees term.0))
            (stated_problem (T.state terms.now) self.problem))) }
    {
        let _ = terms;
        let ProblemReader {
            mut problem,
            values,
            names,
        } = self;
        let Ok(()) = problem.scope.define(name, term) else {
            return Err(Fault::Memory);
        };
        Ok(ProblemReader {
            problem,
            values,
            names,
        })
    }

    /// The problem with one rewrite more, whose sides have one sort.
    pub fn with_rewrite<T: Terms>(self, rewrite: Rewrite, terms: &T) -> Result<ProblemReader, Fault>
        requires held { IsProblemOf (T.state terms.now) self.problem }
        requires new { list_any (bytes_eq rewrite.name) (map (λ r. r.name) self.problem.rewrites)
            ≡ false }
        requires left { rewrite.left.0 < length (T.state terms.now).trees }
        requires right { rewrite.right.0 < length (T.state terms.now).trees }
        requires sort { let s = T.state terms.now in sort_of s.declared.symbols
            (tree_at s.trees rewrite.left.0)
            ≡ sort_of s.declared.symbols (tree_at s.trees rewrite.right.0) }
        ensures { AnswersReader (T.state terms.now) result
            (Ok (rewrite_more (stated_rewrite (T.state terms.now).trees rewrite)
            (stated_problem (T.state terms.now) self.problem))) }
    {
        let _ = terms;
        let ProblemReader {
            mut problem,
            values,
            mut names,
        } = self;
        let Ok(()) = names.add(rewrite.name.bytes()) else {
            return Err(Fault::Memory);
        };
        let Ok(()) = problem.rewrites.push(rewrite) else {
            return Err(Fault::Memory);
        };
        Ok(ProblemReader {
            problem,
            values,
            names,
        })
    }
}
