//! Constraints on widths, which hold at the samples.
ghost use Rattle.std.specs.Prelude.{◌≡◌, ◌≤ℤ◌, [], ◌∷◌, pos, false, true, length, All, IfOk, OnOk, Ok, Err};
ghost use Rattle.rare_linear.specs.Linears.{NamesBelow, number, linear_value};
ghost use Rattle.rare_sort.specs.Ids.{Extends};
ghost use Rattle.rare_text.specs.Problems.{with_floors as floors_more};
ghost use Rattle.rare_text.specs.Samples.{sample_number, fits_samples, fit_samples, hold_at_samples};
ghost use Rattle.rare_text.specs.Stated.{stated_problem};
ghost use Rattle.rare_text.specs.inner.Standing.{AnswersReader, IsProblemOf};

use crate::reader::ProblemReader;
use rare_base::Fault;
use rare_linear::{Constraint, Linear, LinearError};
use rare_term::Terms;
use std::alloc::Global;

impl ProblemReader {
    // The value of an expression at the samples, unless a partial sum of it leaves `i128` there.
    fn value_at_samples(&self, e: &Linear) -> Result<Linear, LinearError>
        requires { NamesBelow (length self.now.problem.samples) e.now.parts }
        ensures value { IfOk result
            (λ v. v ≡ number (linear_value (sample_number self.now.problem.samples) e.now)) }
        ensures fits { OnOk result (fits_samples self.now.problem.samples e.now ≡ true) }
        ensures too_large { result ≡ Err LinearError.TooLarge →
            fits_samples self.now.problem.samples e.now ≡ false }
    {
        e.substitute(self.values.items())
    }

    /// Whether each of these expressions is at least 0 at the samples. `TooLarge` says that a partial sum of
    /// one of them leaves `i128` there.
    pub fn hold_at_samples(&self, floors: &[Linear]) -> Result<bool, LinearError>
        requires { All (λ f. NamesBelow (length self.now.problem.samples) f.parts) floors.now }
        ensures holds { IfOk result
            (λ all. all ≡ hold_at_samples self.now.problem.samples floors.now) }
        ensures fit { OnOk result (fit_samples self.now.problem.samples floors.now ≡ true) }
        ensures too_large { result ≡ Err LinearError.TooLarge →
            fit_samples self.now.problem.samples floors.now ≡ false }
    {
        let mut all = true;
        for floor in floors {
            let value = self.value_at_samples(floor)?;
            all = all && 0 <= value.offset();
        }
        Ok(all)
    }

    /// The problem with the constraint that an expression is at least 0, which it is at the samples.
    pub fn with_floor<T: Terms>(
        self,
        alloc: Global,
        floor: &Linear,
        terms: &mut T,
    ) -> Result<ProblemReader, Fault>
        requires held { IsProblemOf (T.state terms.old) self.problem }
        requires named { NamesBelow (length self.problem.samples) floor.now.parts }
        requires holds { pos 0 ≤ℤ linear_value (sample_number self.problem.samples) floor.now }
        ensures read { AnswersReader (T.state terms.new) result
            (Ok (floors_more (floor.now ∷ []) (stated_problem (T.state terms.old) self.problem))) }
        ensures samples { IfOk result (λ r. r.problem.samples ≡ self.problem.samples) }
        ensures grows { Extends (T.state terms.old).trees (T.state terms.new).trees }
    {
        let Ok(floor) = floor.copy(alloc) else {
            return Err(Fault::Memory);
        };
        match terms.assume(&Constraint { floor }) {
            Ok(()) => Ok(self),
            Err(_) => Err(Fault::Memory),
        }
    }
}
