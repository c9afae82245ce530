//! The program `rare`: it checks proofs of rewrites of SMT-LIB terms.
#![tactic(auto)]

ghost use Rattle.std.specs.Prelude.{◌≡◌, ◌≢◌};
ghost use Rattle.std.specs.IoError.{error_kind};

mod outcome;
mod report;
mod rules;
mod run;
#[cfg(test)]
mod tests;
mod text;
mod types;
mod words;

use crate::run::exit_number;
use crate::words::words_of;
use rare_base::{FileLibrary, OutSink, Status, Texts};
use std::alloc::AllocError;
use std::io::ErrorKind;
use std::process::ExitCode;
use std::{env, io};

/// Why the words after the program's name can't be had.
#[derive(Clone, Copy, Debug, PartialEq, Eq)]
enum NoWords {
    /// Want of memory.
    Memory,
    /// The system refuses them for another cause.
    Refused,
}

impl NoWords {
    /// The number with which the program ends, which for want of memory is that of `run`.
    fn exit_number(self) -> u8
        ensures memory { self ≡ NoWords.Memory → result ≡ 6 }
        ensures refused { self ≡ NoWords.Refused → result ≡ 8 }
    {
        match self {
            NoWords::Memory => Status::Memory.number(),
            NoWords::Refused => 8,
        }
    }
}

impl From<AllocError> for NoWords {
    ghost use Rattle.std.specs.Prelude.{◌≡◌};
    ghost use Rattle.rare_cli.specs.declared.NoWords.TheVariants.{Memory};

    ghost from_gives = { λ _ cause. cause ≡ Memory };

    fn from(_: AllocError) -> NoWords {
        NoWords::Memory
    }
}

/// Why the system gives no arguments.
fn cause_of(error: &io::Error) -> NoWords
    ensures memory { error_kind error.now ≡ ErrorKind.OutOfMemory → result ≡ NoWords.Memory }
    ensures refused { error_kind error.now ≢ ErrorKind.OutOfMemory → result ≡ NoWords.Refused }
{
    match error.kind() {
        ErrorKind::OutOfMemory => NoWords::Memory,
        _ => NoWords::Refused,
    }
}

/// The words after the program's name.
fn words_given(rt: &HostRuntime) -> Result<Texts, NoWords> {
    match env::args(rt) {
        Ok(args) => Ok(words_of(rt.alloc(), args)?),
        Err(error) => Err(cause_of(&error)),
    }
}

fn main(rt: HostRuntime) -> ExitCode {
    ExitCode::from(match words_given(&rt) {
        Ok(words) => exit_number(
            rt.alloc(),
            &words,
            &mut FileLibrary::new(&rt),
            &mut OutSink::new(&rt),
        ),
        Err(cause) => cause.exit_number(),
    })
}
