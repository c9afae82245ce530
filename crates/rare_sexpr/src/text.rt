//! The texts of atoms, each taken at once from its bytes.
ghost use Rattle.std.specs.Prelude.{◌≡◌, drop, IfOk};
ghost use Rattle.rare_sexpr.specs.inner.Words.{inner, symbol_text, text_of_word};
ghost use Rattle.rare_sexpr.specs.inner.Words as specs;

use crate::scan::string_run;
use crate::tree::AtomKind;
use rare_base::Text;
use std::alloc::{AllocError, Global};

// Without the first `n` bytes.
fn behind_front(word: &[u8], n: usize) -> &[u8]
    ensures { result.now ≡ drop n word.now }
{
    if n <= word.len() { &word[n..] } else { &[] }
}

// Without the first byte and the last.
fn inside(word: &[u8]) -> &[u8]
    ensures { result.now ≡ inner word.now }
{
    if word.len() < 2 {
        &[]
    } else {
        &word[1..word.len() - 1]
    }
}

// Without the bars of a quoted symbol.
fn without_bars(word: &[u8]) -> &[u8]
    ensures { result.now ≡ symbol_text word.now }
{
    match word.first() {
        Some(b'|') => inside(word),
        _ => word,
    }
}

// With one quote for each two.
fn single(alloc: Global, inside: &[u8]) -> Result<Text, AllocError>
    ensures { IfOk result (λ t. t ≡ specs.single inside.now) }
{
    if string_run(inside, 0) == inside.len() {
        return Text::of(alloc, inside);
    }
    let mut text = Text::new(alloc);
    let mut at = 0;
    'pairs: while at < inside.len() {
        let byte = inside[at];
        text.push(byte)?;
        at += if byte == b'"' && at + 1 < inside.len() {
            2
        } else {
            1
        };
    }
    text.copy(alloc)
}

/// The text of an atom of this kind.
pub fn text_of(alloc: Global, kind: AtomKind, word: &[u8]) -> Result<Text, AllocError>
    ensures { IfOk result (λ t. t ≡ text_of_word kind word.now) }
{
    match kind {
        AtomKind::Symbol => Text::of(alloc, without_bars(word)),
        AtomKind::Keyword => Text::of(alloc, behind_front(word, 1)),
        AtomKind::Numeral => Text::of(alloc, word),
        AtomKind::Decimal => Text::of(alloc, word),
        AtomKind::Binary => Text::of(alloc, behind_front(word, 2)),
        AtomKind::Hex => Text::of(alloc, behind_front(word, 2)),
        AtomKind::Quoted => single(alloc, inside(word)),
    }
}
