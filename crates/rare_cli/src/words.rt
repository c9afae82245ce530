//! The words that the program was called with.

ghost use Rattle.std.specs.Prelude.{◌≡◌, drop, map, string_bytes, IfOk};
ghost use Rattle.std.specs.Vec.Iter.{into_iter_items};

use rare_base::{Text, Texts};
use std::alloc::{AllocError, Global};
use std::env::Args;

/// The words after the program's name, which is the first argument. An error is want of memory.
pub fn words_of(alloc: Global, args: Args<Global>) -> Result<Texts, AllocError>
    ensures { IfOk result (λ words. words ≡ map string_bytes (drop 1 (into_iter_items args))) }
{
    let mut rest = args;
    let _name = rest.next();
    let mut words = Texts::new(alloc);
    for arg in rest {
        words.push(Text::of(alloc, arg.as_bytes())?)?;
    }
    Ok(words)
}
