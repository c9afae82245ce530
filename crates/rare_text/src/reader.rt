//! A problem that is being read.
ghost use Rattle.std.specs.Prelude.{◌≡◌, [], map, bytes_eq};
ghost use Rattle.std.specs.List.{list_any};
ghost use Rattle.rare_text.specs.inner.SampleValues.{sample_values};

use crate::problem::{Problem, Rewrites};
use rare_base::Numbers;
use rare_linear::Linears;
use rare_names::NameTable;
use rare_scope::Scope;
use std::alloc::Global;

/// A problem that is being read.
#[derive(Drop)]
pub struct ProblemReader {
    pub problem: Problem,
    // The samples as expressions without names.
    pub(crate) values: Linears,
    // The names of the rewrites.
    pub(crate) names: NameTable,
    ghost valued: { values ≡ sample_values problem.samples },
    ghost named: { names ≡ map (λ r. r.name) problem.rewrites },
}

impl ProblemReader {
    /// The problem without names and rewrites.
    pub fn new(alloc: Global) -> ProblemReader
        ensures scope { result.problem.scope ≡ [] }
        ensures samples { result.problem.samples ≡ [] }
        ensures rewrites { result.problem.rewrites ≡ [] }
    {
        ProblemReader {
            problem: Problem {
                rewrites: Rewrites::new(alloc),
                scope: Scope::new(alloc),
                samples: Numbers::new(alloc),
            },
            values: Linears::new(alloc),
            names: NameTable::new(alloc),
        }
    }

    /// Whether a rewrite has this name.
    pub fn has_rewrite(&self, name: &[u8]) -> bool
        ensures { result ≡ list_any (bytes_eq name.now)
            (map (λ r. r.name) self.now.problem.rewrites) }
    {
        self.names.contains(name)
    }
}
