//! The reader: commands of a text that is fed in pieces.
ghost use Rattle.std.specs.Prelude.{◌≡◌, ◌++◌, ◌+◌, ◌-◌, ◌^◌, ◌≤◌, length, false, true, OnOk, OnErr};
ghost use Rattle.rare_sexpr.specs.Streams.{new_stream};
ghost use Rattle.rare_sexpr.specs.Answered.{AnswersNext, AsksForMore};

use crate::parser::{Parser, Read};
use crate::tree::Sexpr;
use rare_base::{Fault, Place, Reason};
use std::alloc::{AllocError, Global};
use std::marker::Model;

/// What comes next of a text.
#[derive(Debug, Drop)]
pub enum Next {
    /// The next command.
    Command(Sexpr),
    /// Bytes are wanting, or the word that the text ends.
    NeedMore,
    /// No further command.
    Finished,
}

/// Why and where a text is refused.
#[derive(Clone, Copy, Debug, PartialEq, Eq)]
pub struct Refused {
    place: Place,
    reason: Reason,
}

/// Reads the commands of a text that is fed in pieces of any size.
///
/// It keeps the bytes that are not yet taken, and reads each byte once, with two exceptions: the byte
/// that ends an atom is looked at again, and after want of memory the bytes that are not yet taken are
/// read anew. The memory of the open lists is kept from one command to the next.
///
/// Contracts see the bytes that are not yet taken, the place of the first of them, the number of bytes
/// fed, whether the end was told, and the refusal that stands.
#[derive(Debug, Drop)]
pub struct Reader {
    alloc: Global,
    bytes: Vec<u8>,
    // How many of the bytes are taken, and the place of the first that is not.
    start: usize,
    place: Place,
    // Where reading goes on.
    parser: Parser,
    fed: usize,
    ended: bool,
    refusal: Option<Refused>,
}

impl Model for Reader {
    ghost use Rattle.rare_sexpr.specs.Streams.{Stream};

    ghost Value = { Stream };

    ghost use Rattle.rare_sexpr.specs.inner.Kept.{stream_of, ReaderInvariant};

    ghost view = { stream_of };

    ghost invariant = { ReaderInvariant };
}

const FIRST: Place = Place { line: 1, column: 1 };

impl Reader {
    /// A reader that was fed nothing. It cannot fail.
    pub fn new(alloc: Global) -> Reader
        ensures { result ≡ new_stream }
    {
        Reader {
            alloc,
            bytes: Vec::new(alloc),
            start: 0,
            place: FIRST,
            parser: Parser::new(alloc, 0, FIRST),
            fed: 0,
            ended: false,
            refusal: None,
        }
    }

    /// Adds bytes at the end: not after `end`, and at most 2^32 - 2 bytes in all. Where memory is
    /// wanting, the reader stays.
    pub fn feed(&mut self, bytes: &[u8]) -> Result<(), AllocError>
        requires untold { self.old.ended ≡ false }
        requires short { self.old.fed + length bytes.now ≤ 2 ^ 32 - 2 }
        ensures ok { OnOk result
            (self.new ≡ record self.old {
              rest = self.old.rest ++ bytes.now;
              fed = self.old.fed + length bytes.now;
            }) }
        ensures err { OnErr result (self.new ≡ self.old) }
    {
        if self.start > self.bytes.len() / 2 {
            self.forget_taken();
        }
        self.add(bytes)
    }

    fn add(&mut self, bytes: &[u8]) -> Result<(), AllocError>
        requires { self.old.fed + length bytes.now ≤ 2 ^ 32 - 2 }
        ensures ok { OnOk result
            (self.new ≡ record self.old {
              rest = self.old.rest ++ bytes.now;
              fed = self.old.fed + length bytes.now;
            }) }
        ensures err { OnErr result (self.new ≡ self.old) }
    {
        self.bytes.extend_from_slice(bytes)?;
        self.fed += bytes.len();
        Ok(())
    }

    // Moves the bytes that are not yet taken to the front.
    fn forget_taken(&mut self)
        ensures { self.new ≡ self.old }
    {
        self.bytes.drain(..self.start);
        self.parser.at -= self.start;
        self.start = 0;
    }

    /// Tells the end of the text.
    pub fn end(&mut self)
        ensures { self.new ≡ record self.old { ended = true } }
    {
        self.ended = true;
    }

    /// The next command.
    ///
    /// `NeedMore` and `Finished` come where no command is whole and none is refused, by whether the end
    /// was told. A refusal comes as soon as no further byte could undo it, and stands from then on.
    /// After want of memory the reader is as before.
    pub fn next_command(&mut self) -> Result<Next, Fault>
        ensures next { AnswersNext self.old result self.new }
        ensures more { AsksForMore self.old result }
    {
        if let Some(Refused { place, reason }) = self.refusal {
            return Err(Fault::Refused { place, reason });
        }
        match self
            .parser
            .read(self.alloc, self.bytes.as_slice(), self.ended)
        {
            Ok(Read::Command(command)) => {
                self.start = self.parser.at;
                self.place = self.parser.place;
                Ok(Next::Command(command))
            }
            Ok(Read::Refused { place, reason }) => {
                self.parser = Parser::new(self.alloc, self.start, self.place);
                self.refusal = Some(Refused { place, reason });
                Err(Fault::Refused { place, reason })
            }
            Ok(Read::NeedMore) => {
                if self.parser.is_outermost() {
                    self.start = self.parser.at;
                    self.place = self.parser.place;
                }
                Ok(Next::NeedMore)
            }
            Ok(Read::Finished) => {
                self.start = self.parser.at;
                self.place = self.parser.place;
                self.parser = Parser::new(self.alloc, self.start, self.place);
                Ok(Next::Finished)
            }
            Err(_) => {
                self.parser = Parser::new(self.alloc, self.start, self.place);
                Err(Fault::Memory)
            }
        }
    }
}
