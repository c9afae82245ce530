//! Real files and standard output. Each call hands on the system's own answer, and counts a failure;
//! it tells no bytes, since which bytes come from the system and go to it is trusted.

ghost use Rattle.std.specs.Prelude.{◌≡◌, ℕ, ◌<◌, ◌≤◌, List, length, IfOk};
ghost use Rattle.std.specs.Io.KnownBytes.{ReadConsumes, WriteAppends};
ghost use Rattle.std.specs.Io.Seek.{MovesTo};
ghost use Rattle.rare_base.specs.Outside.{CountsFault, ok_of, ok_above_zero};

use crate::{Failed, Library, Sink};
use std::fs;
use std::io::{self, ErrorKind, Read, Seek, SeekFrom, Write};
use std::rt::Files;

/// Our answer for an answer of the system: its number, or a failure, which is counted.
fn counted(answer: io::Result<usize>, faults: &mut u64) -> Result<usize, Failed>
    ensures number { ok_of result ≡ ok_of answer }
    ensures cause { CountsFault faults.old faults.new result }
{
    match answer {
        Ok(n) => Ok(n),
        Err(_) => {
            *faults = faults.saturating_add(1);
            Err(Failed)
        }
    }
}

/// Moves a file to a place, counted from 0.
fn move_to<F: Seek>(file: &mut F, at: u64) -> io::Result<()>
    ensures { MovesTo (F.stream_position file.old) (F.stream_position file.new) at result }
{
    file.seek(SeekFrom::Start(at))?;
    Ok(())
}

/// Reads bytes of a file from where it stands into the front of `buf`, and says how many: 0 where
/// the file ends there.
fn read_some<F: Read>(file: &mut F, buf: &mut [u8], faults: &mut u64) -> Result<usize, Failed>
    ensures bound { IfOk result (λ n. n ≤ length buf.new) }
    ensures bytes { ReadConsumes (F.remaining file.old) (F.remaining file.new) result buf.new }
    ensures cause { CountsFault faults.old faults.new result }
{
    counted(file.read(buf), faults)
}

/// A write that takes nothing is a failed one.
fn some_taken(answer: io::Result<usize>) -> io::Result<usize>
    ensures { ok_of result ≡ ok_above_zero answer }
{
    match answer {
        Ok(0) => Err(io::Error::from(ErrorKind::WriteZero)),
        answer => answer,
    }
}

/// Writes some of the first of `bytes`, and says how many, which is not 0.
fn write_some<W: Write>(out: &mut W, bytes: &[u8], faults: &mut u64) -> Result<usize, Failed>
    ensures count { IfOk result (λ n. (0 < n) × (n ≤ length bytes.now)) }
    ensures bytes { WriteAppends (W.contents out.old) (W.contents out.new) result bytes.now }
    ensures cause { CountsFault faults.old faults.new result }
{
    counted(some_taken(out.write(bytes)), faults)
}

/// Files whose paths are the names. Each read opens its file and moves to the place.
///
/// A read fails where its name is not UTF-8, or the file can't be opened, moved in or read. One
/// counter of faults is the count of every name.
#[derive(Drop)]
pub struct FileLibrary<'a, R> {
    rt: &'a R,
    faults: u64,
}

impl<'a, R: Files> FileLibrary<'a, R> {
    /// The files of this runtime, with no read yet.
    pub fn new(rt: &'a R) -> FileLibrary<'a, R>
        ensures { (w : List ℕ) → ⟦<FileLibrary<'a, R> as Library>⟧.faults result w ≡ 0 }
    {
        FileLibrary { rt, faults: 0 }
    }
}

/// The file of this name, moved to place `at`, counted from 0.
fn file_at<R: Files>(rt: &R, name: &[u8], at: u64) -> io::Result<R::File> {
    let Ok(path) = std::str::from_utf8(name) else {
        return Err(io::Error::from(ErrorKind::InvalidInput));
    };
    let mut file = fs::open(rt, path)?;
    move_to(&mut file, at)?;
    Ok(file)
}

impl<R: Files> Library for FileLibrary<'_, R> {
    ghost use Rattle.std.specs.Prelude.{None};

    ghost text = { λ _ _. None };

    ghost faults = { λ s _. s.faults };

    ghost reads = { λ _. None };

    fn read(&mut self, name: &[u8], at: u64, buf: &mut [u8]) -> Result<usize, Failed> {
        match file_at(self.rt, name, at) {
            Ok(mut file) => read_some(&mut file, buf, &mut self.faults),
            Err(error) => counted(Err(error), &mut self.faults),
        }
    }
}

/// Standard output. A put fails where a write fails or takes nothing.
#[derive(Drop)]
pub struct OutSink<'a, R> {
    rt: &'a R,
    faults: u64,
}

impl<'a, R: Print> OutSink<'a, R> {
    /// The standard output of this runtime, with no put yet.
    pub fn new(rt: &'a R) -> OutSink<'a, R>
        ensures { ⟦<OutSink<'a, R> as Sink>⟧.faults result ≡ 0 }
    {
        OutSink { rt, faults: 0 }
    }
}

impl<R: Print> Sink for OutSink<'_, R> {
    ghost use Rattle.std.specs.Prelude.{None};

    ghost written = { λ _. None };

    ghost faults = { λ s. s.faults };

    fn put(&mut self, bytes: &[u8]) -> Result<usize, Failed> {
        write_some(&mut io::writer(self.rt), bytes, &mut self.faults)
    }
}
