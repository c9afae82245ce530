//! The front of a command, read word by word.
ghost use Rattle.std.specs.Prelude.{◌≡◌, ◌+◌, ◌<◌, ◌≤◌, ◌^◌, Bool, false, length, drop, get_or, IfOk};
ghost use Rattle.rare_sexpr.specs.inner.Classes.{class};
ghost use Rattle.rare_sexpr.specs.inner.Parsing.{new_parser, behind_gap, is_outermost, passed_byte, is_comment, IsParsing, IsSkipped, IsTurn, IsRead, IsEnd};
ghost use Rattle.rare_sexpr.specs.inner.Wording.{IsWord};

use crate::bytes::{Class, bytes_between, bytes_from, place_after};
use crate::gaps::skip_gap;
use crate::scan::Part;
use crate::stack::Stack;
use crate::text::text_of;
use crate::tree::{AtomKind, Sexpr};
use crate::word::{Found, go_on, next_word, place_behind, place_behind_atom};
use rare_base::{Place, Reason};
use std::alloc::{AllocError, Global};

/// The most lists that may stand in one another.
pub const MOST_NESTED_LISTS: usize = 5000;

/// Where a parser stands.
#[derive(Clone, Copy, Debug, PartialEq, Eq)]
pub enum Mode {
    /// Between words.
    Between,
    /// In a comment.
    Comment,
    /// At an atom whose front, of so many bytes, was read to this part.
    Word { part: Part, seen: usize },
}

impl Mode {
    // Whether a comment goes on.
    fn is_comment(self) -> bool
        ensures { result ≡ is_comment self }
    {
        match self {
            Mode::Comment => true,
            Mode::Between => false,
            Mode::Word { .. } => false,
        }
    }

    // Behind a gap that may end in a comment.
    fn behind_gap(in_comment: bool) -> Mode
        ensures { result ≡ behind_gap in_comment }
    {
        if in_comment {
            Mode::Comment
        } else {
            Mode::Between
        }
    }
}

/// What the front of a command was read to: the number and the place of the next byte, and the open
/// lists with their items.
#[derive(Debug, Drop)]
pub struct Parser {
    pub at: usize,
    pub place: Place,
    pub mode: Mode,
    pub stack: Stack,
}

/// What the next word did.
#[derive(Debug, Drop)]
pub enum Turn {
    Goes,
    /// It ends a command.
    Command(Sexpr),
    Refused { place: Place, reason: Reason },
    /// It may go on behind the bytes.
    Waits,
}

/// What bytes came to.
#[derive(Debug, Drop)]
pub enum Read {
    /// A command, whose last byte is the last that was taken.
    Command(Sexpr),
    Refused { place: Place, reason: Reason },
    /// Bytes that go on.
    NeedMore,
    /// The end of the text.
    Finished,
}

impl Parser {
    /// A parser at this byte of a text. It cannot fail.
    pub fn new(alloc: Global, at: usize, place: Place) -> Parser
        ensures { result ≡ new_parser at place }
    {
        Parser {
            at,
            place,
            mode: Mode::Between,
            stack: Stack::new(alloc),
        }
    }

    /// Whether no list is open and no comment goes on.
    pub fn is_outermost(&self) -> bool
        ensures { result ≡ is_outermost self.now }
    {
        self.stack.opened.is_empty() && !self.mode.is_comment()
    }

    /// Reads on over these bytes, behind which the text ends or not, to the end of a command.
    /// Want of memory leaves any parser.
    pub fn read(&mut self, alloc: Global, bytes: &[u8], ended: bool) -> Result<Read, AllocError>
        requires { IsParsing bytes.now self.old }
        ensures { IfOk result (λ r. IsRead bytes.now ended self.old r self.new) }
    {
        'words: while self.at < bytes.len() {
            match self.turn(alloc, bytes, ended)? {
                Turn::Goes => {}
                Turn::Command(command) => return Ok(Read::Command(command)),
                Turn::Refused { place, reason } => return Ok(Read::Refused { place, reason }),
                Turn::Waits => return Ok(Read::NeedMore),
            }
        }
        Ok(self.end(ended))
    }

    // All bytes are read, and no word is begun.
    #[tactic(auto, using(crate::proofs::Moves::outermost_first, crate::proofs::Moves::some_first))]
    fn end(&self, ended: bool) -> Read
        ensures { IsEnd ended self.now result }
    {
        if !ended {
            return Read::NeedMore;
        }
        match self.stack.opened.items().first() {
            Some(list) => Read::Refused {
                place: list.place,
                reason: Reason::Unbalanced,
            },
            None => Read::Finished,
        }
    }

    // Reads a gap and a word.
    fn turn(&mut self, alloc: Global, bytes: &[u8], ended: bool) -> Result<Turn, AllocError>
        requires parsing { IsParsing bytes.now self.old }
        requires some { self.old.at < length bytes.now }
        ensures { IfOk result (λ t. IsTurn bytes.now ended self.old t self.new) }
    {
        if let Mode::Word { part, seen } = self.mode {
            let found = go_on(bytes_from(bytes, self.at), seen, part, ended);
            return self.take(alloc, bytes, ended, found);
        }
        self.skip(bytes);
        if self.at == bytes.len() {
            return Ok(Turn::Goes);
        }
        let found = next_word(bytes_from(bytes, self.at), ended);
        self.take(alloc, bytes, ended, found)
    }

    // Passes over blanks and comments.
    fn skip(&mut self, bytes: &[u8])
        requires parsing { IsParsing bytes.now self.old }
        ensures { IsSkipped bytes.now self.old self.new }
    {
        let gap = skip_gap(bytes, self.at, self.place, self.mode.is_comment());
        self.at = gap.at;
        self.place = gap.place;
        self.mode = Mode::behind_gap(gap.in_comment);
    }

    // Takes the first word of the bytes that are left.
    fn take(
        &mut self,
        alloc: Global,
        bytes: &[u8],
        ended: bool,
        found: Found,
    ) -> Result<Turn, AllocError>
        requires parsing { IsParsing bytes.now self.old }
        requires some { self.old.at < length bytes.now }
        requires between { is_comment self.old.mode ≡ false }
        requires word { IsWord (drop self.old.at bytes.now) ended found }
        ensures { IfOk result (λ t. IsTurn bytes.now ended self.old t self.new) }
    {
        let place = self.place;
        match found {
            Found::Open => self.open(bytes),
            Found::Close => self.close(bytes),
            Found::NoWord => Ok(Turn::Refused {
                place,
                reason: Reason::BadCharacter,
            }),
            Found::Atom { kind, end } => self.add_atom(alloc, bytes, ended, kind, end),
            Found::Bad { end } => Ok(Turn::Refused {
                place: place_behind(bytes_between(bytes, self.at, end), place),
                reason: Reason::BadCharacter,
            }),
            Found::Cut(reason) => Ok(Turn::Refused { place, reason }),
            Found::More(part) => {
                let seen = bytes.len() - self.at;
                self.mode = Mode::Word { part, seen };
                Ok(Turn::Waits)
            }
        }
    }

    // Reads a `(`.
    fn open(&mut self, bytes: &[u8]) -> Result<Turn, AllocError>
        requires parsing { IsParsing bytes.now self.old }
        requires some { self.old.at < length bytes.now }
        requires between { is_comment self.old.mode ≡ false }
        requires byte { class (get_or bytes.now self.old.at 0) ≡ Class.Open }
        ensures { (told : Bool) → IfOk result (λ t. IsTurn bytes.now told self.old t self.new) }
    {
        let place = self.place;
        if self.stack.opened.len() >= MOST_NESTED_LISTS {
            return Ok(Turn::Refused {
                place,
                reason: Reason::TooDeep,
            });
        }
        self.stack.open(place)?;
        self.pass_byte(bytes);
        Ok(Turn::Goes)
    }

    // Reads a `)`.
    fn close(&mut self, bytes: &[u8]) -> Result<Turn, AllocError>
        requires parsing { IsParsing bytes.now self.old }
        requires some { self.old.at < length bytes.now }
        requires between { is_comment self.old.mode ≡ false }
        requires byte { class (get_or bytes.now self.old.at 0) ≡ Class.Close }
        ensures { (told : Bool) → IfOk result (λ t. IsTurn bytes.now told self.old t self.new) }
    {
        if self.stack.opened.is_empty() {
            return Ok(Turn::Refused {
                place: self.place,
                reason: Reason::Unbalanced,
            });
        }
        let list = self.stack.close()?;
        let added = self.stack.add(list)?;
        self.pass_byte(bytes);
        match added {
            Some(command) => Ok(Turn::Command(command)),
            None => Ok(Turn::Goes),
        }
    }

    // Passes over a parenthesis.
    fn pass_byte(&mut self, bytes: &[u8])
        requires some { self.old.at < length bytes.now }
        requires line { self.old.place.line + length bytes.now < 2 ^ 32 + self.old.at }
        requires column { self.old.place.column + length bytes.now < 2 ^ 32 + self.old.at }
        ensures { self.new ≡ passed_byte bytes.now self.old }
    {
        self.place = place_after(bytes[self.at], self.place);
        self.at += 1;
        self.mode = Mode::Between;
    }

    // Reads an atom of so many bytes, behind which the text may end.
    fn add_atom(
        &mut self,
        alloc: Global,
        bytes: &[u8],
        ended: bool,
        kind: AtomKind,
        end: usize,
    ) -> Result<Turn, AllocError>
        requires parsing { IsParsing bytes.now self.old }
        requires between { is_comment self.old.mode ≡ false }
        requires word { IsWord (drop self.old.at bytes.now) ended (Found.Atom kind end) }
        ensures { IfOk result (λ t. IsTurn bytes.now ended self.old t self.new) }
    {
        let place = self.place;
        let text = text_of(alloc, kind, bytes_between(bytes, self.at, end))?;
        let added = self.stack.add(Sexpr::Atom { place, kind, text })?;
        self.place = place_behind_atom(bytes_from(bytes, self.at), end, place);
        self.at += end;
        self.mode = Mode::Between;
        match added {
            Some(command) => Ok(Turn::Command(command)),
            None => Ok(Turn::Goes),
        }
    }
}
