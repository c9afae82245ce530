//! The outside as two traits, `Library` and `Sink`, and the reading and the putting of whole texts by them.

ghost use Rattle.std.specs.Prelude.{◌≡◌, ◌≢◌, ℕ, ◌+◌, ◌-◌, ◌^◌, ◌<◌, ◌≤◌, List, [], ◌∷◌, ◌++◌, length, min, take, Option, IfSome, IfOk, OnOk, OnErr, IsOk, IsErrOf};
ghost use Rattle.rare_base.specs.Outside.{Rose, CountsFault, GivesBytes, ok_of, taken, grown};
ghost use Rattle.rare_base.specs.Reads.{Read, read_of, room_at, most_file_bytes, Added, ReadInTurn, ReadToEnd};

use crate::Text;
use std::alloc::Global;

/// A read or a put failed.
#[derive(Clone, Copy, Debug, PartialEq, Eq)]
pub struct Failed;

/// The texts of files, by the files' names.
pub trait Library {
    /// The text of a name, where it is told.
    ghost text: { Self → List ℕ → Option (List ℕ) };

    /// How often reads of a name failed. It never falls, and ends at 2^64 - 1.
    ghost faults: { Self → List ℕ → ℕ };

    /// Which reads were asked so far, in order, where they are told.
    ghost reads: { Self → Option (List Read) };

    /// Reads bytes of the text of `name` from place `at`, counted from 0 and at most 2^28, into the
    /// front of `buf`, which is not empty.
    ///
    /// `Ok(n)` says that the first `n` bytes of `buf` are the text there, and `Ok(0)` that the text
    /// ends before or at that place. `Err` comes only where the faults of that name rose.
    fn read(&mut self, name: &[u8], at: u64, buf: &mut [u8]) -> Result<usize, Failed>
        requires room { 0 < length buf.old }
        requires near { at ≤ most_file_bytes }
        ensures bound { IfOk result (λ n. n ≤ length buf.new) }
        ensures bytes { GivesBytes (text self.old name.now) at result buf.new }
        ensures texts { (w : List ℕ) → text self.new w ≡ text self.old w }
        ensures cause { CountsFault (faults self.old name.now) (faults self.new name.now) result }
        ensures others { (w : List ℕ) → faults self.old w ≤ faults self.new w }
        ensures quiet { OnOk result ((w : List ℕ) → faults self.new w ≡ faults self.old w) }
        ensures reads { Added (reads self.old) (reads self.new)
            (read_of name.now at (length buf.old) (ok_of result) ∷ []) };
}

/// Where an answer goes.
pub trait Sink {
    /// What was written, where it is told.
    ghost written: { Self → Option (List ℕ) };

    /// How often puts failed. It never falls, and ends at 2^64 - 1.
    ghost faults: { Self → ℕ };

    /// Appends some of the first of `bytes`, which are not empty, and says how many. `Err` appends nothing, and comes
    /// only where the faults rose.
    fn put(&mut self, bytes: &[u8]) -> Result<usize, Failed>
        requires { 0 < length bytes.now }
        ensures count { IfOk result (λ n. (0 < n) × (n ≤ length bytes.now)) }
        ensures written { written self.new ≡ grown (written self.old) (taken result bytes.now) }
        ensures cause { CountsFault (faults self.old) (faults self.new) result };
}

/// Why a file can't be read whole.
#[derive(Clone, Copy, Debug, PartialEq, Eq)]
pub enum ReadError {
    /// A read failed.
    Failed,
    /// The file has a byte behind its first 2^28.
    TooLong,
    /// Want of memory.
    Memory,
}

/// The most bytes that a file may have.
const LONGEST: usize = 1 << 28;

/// The most bytes that one read asks for.
const PIECE: usize = 1 << 16;

/// How many bytes a read asks for at this place: a piece, and never a byte behind the one that
/// shows that the file is too long.
fn next_room(at: usize) -> usize
    requires { at ≤ most_file_bytes }
    ensures some { 0 < result }
    ensures piece { result ≡ room_at at }
{
    PIECE.min(LONGEST + 1 - at)
}

/// Reads the whole text of `name`, piece by piece, each byte once, and no byte behind the one that
/// shows that the file is too long.
///
/// `Failed` comes only where the faults of that name rose, and `TooLong` only where the text, where
/// it is told, has more than 2^28 bytes. Unless it answers `Failed`, no count of faults changes.
pub fn read_whole<L: Library>(alloc: Global, files: &mut L, name: &[u8]) -> Result<Text, ReadError>
    ensures text { IfOk result (λ t. IfSome (L.text files.old name.now) (λ all. all ≡ t)) }
    ensures length { IfOk result (λ t. length t ≤ most_file_bytes) }
    ensures long { IsErrOf result ReadError.TooLong →
        IfSome (L.text files.old name.now) (λ all. most_file_bytes < length all) }
    ensures failed { IsErrOf result ReadError.Failed →
        Rose (L.faults files.old name.now) (L.faults files.new name.now) }
    ensures quiet { (result ≢ Err ReadError.Failed) →
        (w : List ℕ) → L.faults files.new w ≡ L.faults files.old w }
    ensures later { (w : List ℕ) → L.faults files.old w ≤ L.faults files.new w }
    ensures texts { (w : List ℕ) → L.text files.new w ≡ L.text files.old w }
    ensures reads { ReadInTurn (L.reads files.old) (L.reads files.new) (name.now ∷ []) }
    ensures end { OnOk result (ReadToEnd (L.reads files.old) (L.reads files.new) name.now) }
{
    let mut text = Text::new(alloc);
    let mut buf = [0u8; PIECE];
    loop {
        let at = text.bytes().len();
        if at > LONGEST {
            return Err(ReadError::TooLong);
        }
        let room = next_room(at);
        match files.read(name, at as u64, &mut buf[..room]) {
            Err(_) => return Err(ReadError::Failed),
            Ok(0) => return Ok(text),
            Ok(n) => {
                let Ok(()) = text.append(&buf[..n]) else {
                    return Err(ReadError::Memory);
                };
            }
        }
    }
}

/// Puts all of `bytes`. `Err` comes where a put failed; then a proper front of them was written.
pub fn put_whole<S: Sink>(out: &mut S, bytes: &[u8]) -> Result<(), Failed>
    ensures ok { OnOk result (S.written out.new ≡ grown (S.written out.old) bytes.now) }
    ensures cut { OnErr result ((n : ℕ) × (n < length bytes.now)
        × (S.written out.new ≡ grown (S.written out.old) (take n bytes.now))) }
    ensures cause { CountsFault (S.faults out.old) (S.faults out.new) result }
{
    let mut at = 0;
    while at < bytes.len() {
        at += out.put(&bytes[at..])?;
    }
    Ok(())
}
