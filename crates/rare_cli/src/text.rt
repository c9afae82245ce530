//! The texts of files.
ghost use Rattle.std.specs.Prelude.{◌≡◌, ◌≤◌, [], ◌∷◌, OnOk, List, ℕ};
ghost use Rattle.rare_base.specs.Reads.{ReadInTurn, ReadToEnd};
ghost use Rattle.rare_cli.specs.Calls.{library};
ghost use Rattle.rare_cli.specs.inner.Prepared.{IsTextOf};

use crate::outcome::{File, Stop};
use rare_base::{Library, Text, read_whole};
use std::alloc::Global;

/// A file's text.
pub fn read_text<L: Library>(
    alloc: Global,
    files: &mut L,
    name: &[u8],
    file: File,
) -> Result<Text, Stop>
    ensures text { IsTextOf (library L.text L.faults files.old files.new) name.now file result }
    ensures texts { (w : List ℕ) → L.text files.new w ≡ L.text files.old w }
    ensures later { (w : List ℕ) → L.faults files.old w ≤ L.faults files.new w }
    ensures reads { ReadInTurn (L.reads files.old) (L.reads files.new) (name.now ∷ []) }
    ensures end { OnOk result (ReadToEnd (L.reads files.old) (L.reads files.new) name.now) }
{
    match read_whole(alloc, files, name) {
        Ok(text) => Ok(text),
        Err(error) => Err(Stop::of_read(file, error)),
    }
}
