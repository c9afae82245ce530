//! One atom, scanned in runs from its first byte on.
ghost use Rattle.std.specs.Prelude.{◌≡◌, ℕ, ◌+◌, ◌<◌, ◌≤◌, List, ◌++◌, length, drop};
ghost use Rattle.rare_sexpr.specs.Bytes.{is_symbol_byte, is_digit, is_in_bars};
ghost use Rattle.rare_sexpr.specs.inner.Scan as scan_specs;
ghost use Rattle.rare_sexpr.specs.inner.Scan.{begins_part, scan, IsRun, is_inside};
ghost use Rattle.rare_sexpr.specs.inner.Scanning.{IsScanned, EndsWord};

use crate::bytes::{Class, class_of, ends_bare, in_digits, in_hex, in_symbol};
use crate::tree::AtomKind;
use rare_base::Reason;

/// How far an atom was read.
#[derive(Clone, Copy, Debug, PartialEq, Eq)]
pub enum Part {
    Symbol,
    /// Behind the `:` of a keyword.
    Colon,
    Keyword,
    Numeral,
    /// Behind the point of a decimal.
    Point,
    Fraction,
    /// Behind `#`, `#b` and `#x`.
    Hash,
    HashB,
    HashX,
    Binary,
    Hex,
    /// Between bars.
    Bars,
    /// Between quotes.
    Inside,
    /// Behind a quote that ends the string, or is the first of two.
    Behind,
}

/// What a byte is to an atom.
#[derive(Clone, Copy, Debug, PartialEq, Eq)]
pub enum Advance {
    Goes(Part),
    /// Its last byte.
    Takes(AtomKind),
    /// The first behind it.
    Stops(AtomKind),
    Wrong,
}

/// What the bytes from the first of an atom on come to.
#[derive(Clone, Copy, Debug, PartialEq, Eq)]
pub enum Scanned {
    /// An atom of so many bytes.
    Whole { kind: AtomKind, end: usize },
    /// This byte fits no atom.
    Bad { end: usize },
    /// The text ends inside.
    Cut(Reason),
    /// It may go on.
    More(Part),
}

/// What a byte begins.
pub fn first_part(byte: u8) -> Option<Part>
    ensures { result ≡ begins_part byte }
{
    match class_of(byte) {
        Class::Letter => Some(Part::Symbol),
        Class::Digit => Some(Part::Numeral),
        Class::Colon => Some(Part::Colon),
        Class::Hash => Some(Part::Hash),
        Class::Quote => Some(Part::Inside),
        Class::Bar => Some(Part::Bars),
        _ => None,
    }
}

fn behind_bare(byte: u8, kind: AtomKind) -> Advance
    ensures { result ≡ scan_specs.behind_bare byte kind }
{
    if ends_bare(byte) {
        Advance::Stops(kind)
    } else {
        Advance::Wrong
    }
}

fn step_on(part: Part, byte: u8) -> Advance
    ensures { result ≡ scan_specs.advance part byte }
{
    match part {
        Part::Symbol if in_symbol(byte) => Advance::Goes(Part::Symbol),
        Part::Symbol => behind_bare(byte, AtomKind::Symbol),
        Part::Colon if in_symbol(byte) => Advance::Goes(Part::Keyword),
        Part::Colon => Advance::Wrong,
        Part::Keyword if in_symbol(byte) => Advance::Goes(Part::Keyword),
        Part::Keyword => behind_bare(byte, AtomKind::Keyword),
        Part::Numeral if in_digits(byte) => Advance::Goes(Part::Numeral),
        Part::Numeral if byte == b'.' => Advance::Goes(Part::Point),
        Part::Numeral => behind_bare(byte, AtomKind::Numeral),
        Part::Point if in_digits(byte) => Advance::Goes(Part::Fraction),
        Part::Point => Advance::Wrong,
        Part::Fraction if in_digits(byte) => Advance::Goes(Part::Fraction),
        Part::Fraction => behind_bare(byte, AtomKind::Decimal),
        Part::Hash if byte == b'b' => Advance::Goes(Part::HashB),
        Part::Hash if byte == b'x' => Advance::Goes(Part::HashX),
        Part::Hash => Advance::Wrong,
        Part::HashB if byte == b'0' || byte == b'1' => Advance::Goes(Part::Binary),
        Part::HashB => Advance::Wrong,
        Part::Binary if byte == b'0' || byte == b'1' => Advance::Goes(Part::Binary),
        Part::Binary => behind_bare(byte, AtomKind::Binary),
        Part::HashX if in_hex(byte) => Advance::Goes(Part::Hex),
        Part::HashX => Advance::Wrong,
        Part::Hex if in_hex(byte) => Advance::Goes(Part::Hex),
        Part::Hex => behind_bare(byte, AtomKind::Hex),
        Part::Bars if byte == b'|' => Advance::Takes(AtomKind::Symbol),
        Part::Bars if byte == b'\\' => Advance::Wrong,
        Part::Bars => Advance::Goes(Part::Bars),
        Part::Inside if byte == b'"' => Advance::Goes(Part::Behind),
        Part::Inside => Advance::Goes(Part::Inside),
        Part::Behind if byte == b'"' => Advance::Goes(Part::Inside),
        Part::Behind => Advance::Stops(AtomKind::Quoted),
    }
}

// The end of the text in an atom of so many bytes.
fn end_word(part: Part, taken: usize) -> Scanned
    ensures { EndsWord part taken result }
{
    match part {
        Part::Symbol => Scanned::Whole {
            kind: AtomKind::Symbol,
            end: taken,
        },
        Part::Keyword => Scanned::Whole {
            kind: AtomKind::Keyword,
            end: taken,
        },
        Part::Numeral => Scanned::Whole {
            kind: AtomKind::Numeral,
            end: taken,
        },
        Part::Fraction => Scanned::Whole {
            kind: AtomKind::Decimal,
            end: taken,
        },
        Part::Binary => Scanned::Whole {
            kind: AtomKind::Binary,
            end: taken,
        },
        Part::Hex => Scanned::Whole {
            kind: AtomKind::Hex,
            end: taken,
        },
        Part::Behind => Scanned::Whole {
            kind: AtomKind::Quoted,
            end: taken,
        },
        Part::Bars => Scanned::Cut(Reason::OpenSymbol),
        Part::Inside => Scanned::Cut(Reason::OpenString),
        Part::Colon | Part::Point | Part::Hash | Part::HashB | Part::HashX => {
            Scanned::Cut(Reason::BadCharacter)
        }
    }
}

// The end of the run of symbol bytes.
fn symbol_run(word: &[u8], at: usize) -> usize
    requires { at ≤ length word.now }
    ensures { IsRun is_symbol_byte word.now at result }
{
    let mut i = at;
    'run: while i < word.len() && in_symbol(word[i]) {
        i += 1;
    }
    i
}

// The end of the run of digits.
fn digit_run(word: &[u8], at: usize) -> usize
    requires { at ≤ length word.now }
    ensures { IsRun is_digit word.now at result }
{
    let mut i = at;
    'run: while i < word.len() && in_digits(word[i]) {
        i += 1;
    }
    i
}

// The end of the run of bytes between bars.
fn bars_run(word: &[u8], at: usize) -> usize
    requires { at ≤ length word.now }
    ensures { IsRun is_in_bars word.now at result }
{
    let mut i = at;
    'run: while i < word.len() && word[i] != b'|' && word[i] != b'\\' {
        i += 1;
    }
    i
}

/// The end of the run of bytes between quotes.
pub fn string_run(word: &[u8], at: usize) -> usize
    requires { at ≤ length word.now }
    ensures { IsRun is_inside word.now at result }
{
    let mut i = at;
    'run: while i < word.len() && word[i] != b'"' {
        i += 1;
    }
    i
}

// The end of the run of bytes that leave a part as it is, or a byte of it.
fn run_end(word: &[u8], at: usize, part: Part) -> usize
    requires { at ≤ length word.now }
    ensures from { at ≤ result }
    ensures within { result ≤ length word.now }
    ensures same { (more : List ℕ) → scan part at (drop at word.now ++ more)
        ≡ scan part result (drop result word.now ++ more) }
{
    match part {
        Part::Symbol => symbol_run(word, at),
        Part::Keyword => symbol_run(word, at),
        Part::Numeral => digit_run(word, at),
        Part::Fraction => digit_run(word, at),
        Part::Bars => bars_run(word, at),
        Part::Inside => string_run(word, at),
        _ => at,
    }
}

/// Reads on in an atom from its byte `at` on, where `word` are the bytes from its first on.
pub fn scan_on(word: &[u8], at: usize, part: Part, ended: bool) -> Scanned
    requires { at ≤ length word.now }
    ensures { IsScanned word.now at part ended result }
{
    let mut i = run_end(word, at, part);
    let mut part = part;
    'word: while i < word.len() {
        match step_on(part, word[i]) {
            Advance::Goes(next) => {
                part = next;
                i = run_end(word, i + 1, next);
            }
            Advance::Takes(kind) => return Scanned::Whole { kind, end: i + 1 },
            Advance::Stops(kind) => return Scanned::Whole { kind, end: i },
            Advance::Wrong => return Scanned::Bad { end: i },
        }
    }
    if ended {
        end_word(part, i)
    } else {
        Scanned::More(part)
    }
}
