//! A library and a sink in memory, whose calls fail where they are told to.

ghost use Rattle.std.specs.Prelude.{◌≡◌, ◌+◌, ◌-◌, ◌<◌, ◌≤◌, [], ℕ, length, take, drop, min, IfOk, IfSome, ◌^◌, ◌++◌, vec_len, vec_capacity};
ghost use Rattle.std.specs.Option.{option_copied};
ghost use Rattle.rare_base.specs.Outside.{CountsFault, GivesBytes, ReadsAt, ok_of, taken};
ghost use Rattle.rare_base.specs.MemoryTexts.{text_named};

use crate::{Failed, Library, Sink, Text};
use rare_list::Sequence;
use std::alloc::{AllocError, Global};

/// A text with its name.
#[derive(Debug, Drop)]
pub struct NamedText {
    pub name: Text,
    pub bytes: Text,
}

/// A list of texts with their names.
pub type NamedTexts = Sequence<NamedText>;

/// Texts in memory. Of two texts of one name the first counts.
///
/// A read gives as many bytes as the piece, the length of the buffer and the rest of the text
/// allow. It fails where its number is one that fails, and where no text has the name. Calls are
/// counted from 1, those that fail too. One counter of faults is the count of every name.
#[derive(Debug, Drop)]
pub struct MemoryLibrary {
    texts: NamedTexts,
    piece: usize,
    fail: Vec<u64>,
    calls: u64,
    faults: u64,
    ghost some: { 0 < piece },
}

impl MemoryLibrary {
    ghost use Rattle.rare_base.specs.Memory.{texts_of, read_piece, failing_reads, reads_of, faults_of, text_read};

    /// The library of these texts. A read gives at most `piece` bytes, which is not 0, and the reads whose numbers
    /// stand in `fail`, counted from 1, fail.
    pub fn new(texts: NamedTexts, piece: usize, fail: Vec<u64>) -> MemoryLibrary
        requires { 0 < piece }
        ensures texts { texts_of result ≡ texts }
        ensures piece { read_piece result ≡ piece }
        ensures fail { failing_reads result ≡ fail.items }
        ensures calls { reads_of result ≡ 0 }
        ensures faults { faults_of result ≡ 0 }
    {
        MemoryLibrary {
            texts,
            piece,
            fail,
            calls: 0,
            faults: 0,
        }
    }

    /// The text that the read counted last finds: none where it fails, or no text has the name.
    fn text(&self, name: &[u8]) -> Option<&[u8]>
        ensures { option_copied result ≡ text_read self.now self.now.calls name.now }
    {
        if self.fail.contains(&self.calls) {
            return None;
        }
        find(self.texts.items(), name)
    }
}

/// The first text of this name.
fn find<'a>(texts: &'a [NamedText], name: &[u8]) -> Option<&'a [u8]>
    ensures { option_copied result ≡ text_named texts.now name.now }
{
    for t in texts {
        if t.name.bytes() == name {
            return Some(t.bytes.bytes());
        }
    }
    None
}

/// Copies the bytes at place `at`, counted from 0, into the front of `buf`, at most `piece`, and
/// says how many.
fn copy_piece(text: &[u8], at: usize, piece: usize, buf: &mut [u8]) -> usize
    requires some { 0 < piece }
    requires room { 0 < length buf.old }
    ensures count { result ≡ min (min piece (length buf.old)) (length text.now - at) }
    ensures bound { result ≤ length buf.new }
    ensures bytes { ReadsAt text.now at result buf.new }
{
    if at >= text.len() {
        return 0;
    }
    let rest = &text[at..];
    let n = piece.min(buf.len()).min(rest.len());
    buf[..n].copy_from_slice(&rest[..n]);
    n
}

impl Library for MemoryLibrary {
    ghost use Rattle.std.specs.Prelude.{None};
    ghost use Rattle.rare_base.specs.MemoryTexts.{text_named};
    ghost use Rattle.rare_base.specs.Memory.{texts_of, read_piece, failing_reads, reads_of, faults_of, read_count, most_calls};

    ghost text = { λ m w. text_named m.texts w };

    ghost faults = { λ m w. m.faults };

    ghost reads = { λ _. None };

    fn read(&mut self, name: &[u8], at: u64, buf: &mut [u8]) -> Result<usize, Failed>
        requires { 0 < length buf.old }
        ensures bound { IfOk result (λ n. n ≤ length buf.new) }
        ensures bytes { GivesBytes (text_named (texts_of self.old) name.now) at result buf.new }
        ensures texts { texts_of self.new ≡ texts_of self.old }
        ensures cause { CountsFault (faults_of self.old) (faults_of self.new) result }
        ensures calls { reads_of self.new ≡ min (reads_of self.old + 1) most_calls }
        ensures piece { read_piece self.new ≡ read_piece self.old }
        ensures fail { failing_reads self.new ≡ failing_reads self.old }
        ensures answer { ok_of result
            ≡ read_count self.old (reads_of self.new) name.now at (length buf.old) }
    {
        self.calls = self.calls.saturating_add(1);
        let Some(text) = self.text(name) else {
            self.faults = self.faults.saturating_add(1);
            return Err(Failed);
        };
        Ok(copy_piece(text, at as usize, self.piece, buf))
    }
}

/// A sink in memory, with room for a number of bytes.
///
/// A put takes as many of the first bytes as the piece, their number and the room left allow. It
/// fails where no room is left, and where its number is one that fails. Puts are counted from 1,
/// those that fail too.
#[derive(Debug, Drop)]
pub struct MemorySink {
    bytes: Vec<u8>,
    room: usize,
    piece: usize,
    fail: Vec<u64>,
    calls: u64,
    faults: u64,
    ghost some: { 0 < piece },
    ghost capacity: { room ≤ vec_capacity bytes },
    ghost within: { vec_len bytes ≤ room },
}

impl MemorySink {
    ghost use Rattle.rare_base.specs.Memory.{held, room_of, put_piece, failing_puts, puts_of, put_faults, room_left, put_count};

    /// An empty sink for `room` bytes, which it takes from the allocator here; an error is want of
    /// memory. A put takes at most `piece` bytes, which is not 0, and the puts whose numbers stand in
    /// `fail`, counted from 1, fail.
    pub fn new(
        alloc: Global,
        piece: usize,
        room: usize,
        fail: Vec<u64>,
    ) -> Result<MemorySink, AllocError>
        requires { 0 < piece }
        ensures empty { IfOk result (λ s. held s ≡ []) }
        ensures piece { IfOk result (λ s. put_piece s ≡ piece) }
        ensures room { IfOk result (λ s. room_of s ≡ room) }
        ensures fail { IfOk result (λ s. failing_puts s ≡ fail.items) }
        ensures calls { IfOk result (λ s. puts_of s ≡ 0) }
        ensures faults { IfOk result (λ s. put_faults s ≡ 0) }
    {
        Ok(MemorySink {
            bytes: Vec::with_capacity(alloc, room)?,
            room,
            piece,
            fail,
            calls: 0,
            faults: 0,
        })
    }

    /// What was written.
    pub fn bytes(&self) -> &[u8]
        ensures { result.now ≡ held self.now }
    {
        self.bytes.as_slice()
    }

    /// How many of `len` bytes the put counted last takes: none where it fails, or no room is left.
    fn count(&self, len: usize) -> Option<usize>
        requires { 0 < len }
        ensures count { result ≡ put_count self.now self.now.calls len }
        ensures some { IfSome result (λ n. (0 < n) × (n ≤ len) × (n ≤ room_left self.now)) }
    {
        let left = self.room - self.bytes.len();
        if left == 0 || self.fail.contains(&self.calls) {
            return None;
        }
        Some(self.piece.min(left).min(len))
    }
}

impl Sink for MemorySink {
    ghost use Rattle.std.specs.Prelude.{Some};
    ghost use Rattle.rare_base.specs.Memory.{held, room_of, put_piece, failing_puts, puts_of, put_faults, put_count, most_calls};

    ghost written = { λ m. Some m.bytes.items };

    ghost faults = { λ m. m.faults };

    fn put(&mut self, bytes: &[u8]) -> Result<usize, Failed>
        requires { 0 < length bytes.now }
        ensures count { IfOk result (λ n. (0 < n) × (n ≤ length bytes.now)) }
        ensures written { held self.new ≡ held self.old ++ taken result bytes.now }
        ensures cause { CountsFault (put_faults self.old) (put_faults self.new) result }
        ensures calls { puts_of self.new ≡ min (puts_of self.old + 1) most_calls }
        ensures piece { put_piece self.new ≡ put_piece self.old }
        ensures room { room_of self.new ≡ room_of self.old }
        ensures fail { failing_puts self.new ≡ failing_puts self.old }
        ensures answer { ok_of result ≡ put_count self.old (puts_of self.new) (length bytes.now) }
    {
        self.calls = self.calls.saturating_add(1);
        let Some(n) = self.count(bytes.len()) else {
            self.faults = self.faults.saturating_add(1);
            return Err(Failed);
        };
        match self.bytes.extend_from_slice(&bytes[..n]) {
            Ok(()) => Ok(n),
            Err(_) => unreachable!(),
        }
    }
}
