//! The rules of a file.
ghost use Rattle.std.specs.Prelude.{◌≡◌, ◌≤◌, [], ◌∷◌, List, ℕ, length, IfOk, OnOk};
ghost use Rattle.rare_base.specs.Reads.{ReadInTurn, ReadToEnd, most_file_bytes};
ghost use Rattle.rare_meaning.specs.Interpretations.{FunctionClass};
ghost use Rattle.rare_check.specs.Verdicts.{ShippedHold};
ghost use Rattle.rare_cli.specs.Calls.{library};
ghost use Rattle.rare_cli.specs.WordForms.{rules_files};
ghost use Rattle.rare_cli.specs.inner.Prepared.{AreRulesOf, AreReadTo, IsBookOf, name_held};

use crate::outcome::{File, Stop};
use crate::text::read_text;
use rare_base::Library;
use rare_book::read_book;
use rare_rule::Book;
use std::alloc::Global;

// The rules that a text states, none of which is shipped.
fn rules_of_text(alloc: Global, text: &[u8]) -> Result<Book, Stop>
    requires { length text.now ≤ most_file_bytes }
    ensures rules { AreRulesOf text.now result }
    ensures shipped { IfOk result (λ book. (c : FunctionClass) → ShippedHold c book) }
{
    let mut book = Book::new(alloc);
    match read_book(alloc, text, &mut book) {
        Ok(()) => Ok(book),
        Err(fault) => Err(Stop::of_fault(File::Rules, fault)),
    }
}

// The rules of a file, none of which is shipped.
fn rules_of_file<L: Library>(alloc: Global, name: &[u8], files: &mut L) -> Result<Book, Stop>
    ensures book { IsBookOf (library L.text L.faults files.old files.new) (Some name.now) result }
    ensures shipped { IfOk result (λ book. (c : FunctionClass) → ShippedHold c book) }
    ensures texts { (w : List ℕ) → L.text files.new w ≡ L.text files.old w }
    ensures later { (w : List ℕ) → L.faults files.old w ≤ L.faults files.new w }
    ensures reads { ReadInTurn (L.reads files.old) (L.reads files.new) (name.now ∷ []) }
    ensures end { OnOk result (ReadToEnd (L.reads files.old) (L.reads files.new) name.now) }
{
    let text = read_text(alloc, files, name, File::Rules)?;
    rules_of_text(alloc, text.bytes())
}

/// The book of the rules of a file, none of which is shipped; without a file it is empty.
pub fn read_rules<L: Library>(
    alloc: Global,
    name: Option<&[u8]>,
    files: &mut L,
) -> Result<Book, Stop>
    ensures book { IsBookOf (library L.text L.faults files.old files.new)
        (name_held name.entry) result }
    ensures shipped { IfOk result (λ book. (c : FunctionClass) → ShippedHold c book) }
    ensures texts { (w : List ℕ) → L.text files.new w ≡ L.text files.old w }
    ensures later { (w : List ℕ) → L.faults files.old w ≤ L.faults files.new w }
    ensures reads { ReadInTurn (L.reads files.old) (L.reads files.new)
        (rules_files (name_held name.entry)) }
    ensures end { OnOk result (AreReadTo (L.reads files.old) (L.reads files.new)
        (name_held name.entry)) }
{
    match name {
        Some(name) => rules_of_file(alloc, name, files),
        None => Ok(Book::new(alloc)),
    }
}
