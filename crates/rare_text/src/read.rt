//! Problems, read from texts.
ghost use Rattle.std.specs.Prelude.{◌≡◌, ◌-◌, ◌^◌, ◌≤◌, length, IfOk};
ghost use Rattle.rare_sort.specs.DeclaredSorts.{nothing_declared};
ghost use Rattle.rare_sort.specs.Ids.{Extends};
ghost use Rattle.rare_scope.specs.Names.{AreMeant};
ghost use Rattle.rare_text.specs.ProblemText.{problem_of};
ghost use Rattle.rare_text.specs.Samples.{AreSamples};
ghost use Rattle.rare_text.specs.Stated.{AnswersProblem, HaveIds, HaveOneSort};

use crate::command::take_command;
use crate::problem::Problem;
use crate::reader::ProblemReader;
use rare_base::Fault;
use rare_sexpr::{Next, Reader};
use rare_term::Terms;
use std::alloc::Global;

/// The problem that a text of at most `2^32 - 2` bytes states, read into terms in which nothing is
/// declared; or the first fault of the text. After it the samples are an allowed valuation.
///
/// Errors are those of reading expressions; `BadForm`, `UnknownCommand`, `UnknownSymbol`, `DeclaredTwice`,
/// `ReservedSymbol`, `BadSort`, `IllSorted`, `LiteralTooWide`, `TermLimit`, `NonLinear`, `SampleFails`; and
/// want of memory. After an error the terms may have grown, and old ids stand.
pub fn read_problem<T: Terms>(alloc: Global, bytes: &[u8], terms: &mut T) -> Result<Problem, Fault>
    requires nothing { (T.state terms.old).declared ≡ nothing_declared }
    requires short { length bytes.now ≤ 2 ^ 32 - 2 }
    ensures read { AnswersProblem (T.state terms.new) result (problem_of bytes.now) }
    ensures grows { Extends (T.state terms.old).trees (T.state terms.new).trees }
    ensures meant { IfOk result (λ p. AreMeant (T.state terms.new) p.scope) }
    ensures ids { IfOk result (λ p. HaveIds (length (T.state terms.new).trees) p.rewrites) }
    ensures sorts { IfOk result (λ p. HaveOneSort (T.state terms.new) p.rewrites) }
    ensures samples { IfOk result (λ p. AreSamples (T.state terms.new).declared p.samples) }
{
    let mut source = Reader::new(alloc);
    let Ok(()) = source.feed(bytes) else {
        return Err(Fault::Memory);
    };
    source.end();
    let mut reader = ProblemReader::new(alloc);
    loop {
        match source.next_command() {
            Ok(Next::Command(e)) => reader = take_command(alloc, &e, terms, reader)?,
            Ok(Next::Finished) => return Ok(reader.problem),
            Ok(Next::NeedMore) => unreachable!(),
            Err(fault) => return Err(fault),
        }
    }
}
