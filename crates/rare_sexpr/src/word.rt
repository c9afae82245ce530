//! The first word of some bytes: a parenthesis or an atom.
ghost use Rattle.std.specs.Prelude.{◌≡◌, ◌+◌, ◌<◌, ◌≤◌, ◌^◌, length, get_or, take, false, None};
ghost use Rattle.rare_sexpr.specs.Bytes.{behind};
ghost use Rattle.rare_sexpr.specs.inner.Words.{gap_step};
ghost use Rattle.rare_sexpr.specs.inner.Wording.{IsAtomOf, IsWord, Resumes};

use crate::bytes::{Class, class_of, place_after};
use crate::scan::{Part, Scanned, scan_on};
use crate::tree::AtomKind;
use rare_base::{Place, Reason};

/// The first word of some bytes.
#[derive(Clone, Copy, Debug, PartialEq, Eq)]
pub enum Found {
    Open,
    Close,
    /// The first byte begins no word.
    NoWord,
    /// An atom of so many bytes.
    Atom { kind: AtomKind, end: usize },
    /// This byte fits no atom.
    Bad { end: usize },
    /// The text ends inside.
    Cut(Reason),
    /// The front of an atom that may go on.
    More(Part),
}

/// The place behind bytes that begin at this place.
pub fn place_behind(bytes: &[u8], place: Place) -> Place
    requires line { place.line + length bytes.now < 2 ^ 32 }
    requires column { place.column + length bytes.now < 2 ^ 32 }
    ensures place { result ≡ behind place bytes.now }
    ensures line { result.line ≤ place.line + length bytes.now }
    ensures column { result.column ≤ place.column + length bytes.now }
{
    let mut place = place;
    for byte in bytes {
        place = place_after(*byte, place);
    }
    place
}

/// The place behind the atom of so many bytes that these begin with. Without bars and quotes an atom has no
/// line feed, and its bytes are not looked at.
pub fn place_behind_atom(bytes: &[u8], end: usize, place: Place) -> Place
    requires line { place.line + end < 2 ^ 32 }
    requires column { place.column + end < 2 ^ 32 }
    requires atom { IsAtomOf bytes.now end }
    ensures { result ≡ behind place (take end bytes.now) }
{
    if bytes[0] == b'"' || bytes[0] == b'|' {
        return place_behind(&bytes[..end], place);
    }
    Place {
        line: place.line,
        column: place.column + end as u32,
    }
}

/// The first word of bytes that begin with one.
pub fn next_word(bytes: &[u8], ended: bool) -> Found
    requires some { 0 < length bytes.now }
    requires begun { gap_step false (get_or bytes.now 0 0) ≡ None }
    ensures { IsWord bytes.now ended result }
{
    match class_of(bytes[0]) {
        Class::Open => Found::Open,
        Class::Close => Found::Close,
        Class::Letter => go_on(bytes, 1, Part::Symbol, ended),
        Class::Digit => go_on(bytes, 1, Part::Numeral, ended),
        Class::Colon => go_on(bytes, 1, Part::Colon, ended),
        Class::Hash => go_on(bytes, 1, Part::Hash, ended),
        Class::Quote => go_on(bytes, 1, Part::Inside, ended),
        Class::Bar => go_on(bytes, 1, Part::Bars, ended),
        Class::Other => Found::NoWord,
        Class::Blank | Class::LineFeed | Class::Semicolon => unreachable!(),
    }
}

/// Reads on in an atom whose front was read.
pub fn go_on(bytes: &[u8], at: usize, part: Part, ended: bool) -> Found
    requires some { 0 < at }
    requires within { at ≤ length bytes.now }
    requires begun { Resumes bytes.now at part }
    ensures { IsWord bytes.now ended result }
{
    match scan_on(bytes, at, part, ended) {
        Scanned::Whole { kind, end } => Found::Atom { kind, end },
        Scanned::Bad { end } => Found::Bad { end },
        Scanned::Cut(reason) => Found::Cut(reason),
        Scanned::More(part) => Found::More(part),
    }
}
