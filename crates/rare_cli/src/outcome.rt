//! What the words ask for, and the line of each status.

ghost use Rattle.std.specs.Prelude.{◌≡◌, [], ◌∷◌, option_map, IfOk};
ghost use Rattle.rare_cli.specs.WordForms.{asked_by, is_file, rules_named};
ghost use Rattle.rare_cli.specs.Outcomes.{file_word, stop_line};
ghost use Rattle.rare_cli.specs.inner.Prepared.{form_asked, name_held, stop_of_read, stop_of_fault};

use rare_base::{Fault, Place, ReadError, Reason, Status, Text, Texts};
use std::alloc::{AllocError, Global};

/// A file of the words.
#[derive(Clone, Copy, Debug, PartialEq, Eq)]
pub enum File {
    Rules,
    Problem,
    Proof,
}

/// Why a run comes to no report.
#[derive(Clone, Copy, Debug, PartialEq, Eq)]
pub enum Stop {
    /// The words are no form.
    BadWords,
    /// A read of the file failed.
    ReadFault(File),
    /// The file has more bytes than a file may have, 2^28.
    TooLong(File),
    /// The file has no reading: the place and the reason of its first fault.
    Refused {
        file: File,
        place: Place,
        reason: Reason,
    },
    /// Want of memory.
    Memory,
}

impl From<AllocError> for Stop {
    ghost use Rattle.std.specs.Prelude.{◌≡◌};
    ghost use Rattle.rare_cli.specs.declared.outcome.Stop.TheVariants.{Memory};

    ghost from_gives = { λ _ s. s ≡ Memory };

    fn from(_: AllocError) -> Stop {
        Stop::Memory
    }
}

impl Stop {
    /// Why a file can't be read whole.
    pub fn of_read(file: File, error: ReadError) -> Stop
        ensures { result ≡ stop_of_read file error }
    {
        match error {
            ReadError::Failed => Stop::ReadFault(file),
            ReadError::TooLong => Stop::TooLong(file),
            ReadError::Memory => Stop::Memory,
        }
    }

    /// Why a file's text has no reading.
    pub fn of_fault(file: File, fault: Fault) -> Stop
        ensures { result ≡ stop_of_fault file fault }
    {
        match fault {
            Fault::Refused { place, reason } => Stop::Refused {
                file,
                place,
                reason,
            },
            Fault::Memory => Stop::Memory,
        }
    }
}

/// What is written of files that were read, and the status.
#[derive(Drop)]
pub struct Answer {
    pub text: Text,
    pub status: Status,
}

/// The names of the files of a check, where rules need no file.
#[derive(Clone, Copy)]
pub struct FileNames<'a> {
    pub rules: Option<&'a [u8]>,
    pub problem: &'a [u8],
    pub proof: &'a [u8],
}

/// What the words ask for.
#[derive(Clone, Copy)]
pub enum Form<'a> {
    /// `check RULES PROBLEM PROOF`, where `-` for the rules is no file.
    Check(FileNames<'a>),
    /// `types RULES`, where `-` is no file.
    Types(Option<&'a [u8]>),
}

fn is_file_name(word: &[u8]) -> bool
    ensures { result ≡ is_file word.now }
{
    !word.starts_with(b"--")
}

// The file of rules that a word names.
fn rules_of_word(word: &[u8]) -> Option<&[u8]>
    ensures { name_held result ≡ rules_named word.now }
{
    if word == b"-".as_slice() {
        None
    } else {
        Some(word)
    }
}

// `types RULES`
fn types_form<'a>(command: &'a Text, rules: &'a Text) -> Option<Form<'a>>
    ensures { asked_by (command.now ∷ rules.now ∷ []) ≡ option_map form_asked result }
{
    if command.bytes() == b"types".as_slice() && is_file_name(rules.bytes()) {
        Some(Form::Types(rules_of_word(rules.bytes())))
    } else {
        None
    }
}

// `check RULES PROBLEM PROOF`
fn check_form<'a>(
    command: &'a Text,
    rules: &'a Text,
    problem: &'a Text,
    proof: &'a Text,
) -> Option<Form<'a>>
    ensures { asked_by (command.now ∷ rules.now ∷ problem.now ∷ proof.now ∷ [])
        ≡ option_map form_asked result }
{
    if command.bytes() == b"check".as_slice()
        && is_file_name(rules.bytes())
        && is_file_name(problem.bytes())
        && is_file_name(proof.bytes())
    {
        Some(Form::Check(FileNames {
            rules: rules_of_word(rules.bytes()),
            problem: problem.bytes(),
            proof: proof.bytes(),
        }))
    } else {
        None
    }
}

/// What the words ask for, or none where they are no form.
pub fn read_form(words: &[Text]) -> Option<Form<'_>>
    ensures { asked_by words.now ≡ option_map form_asked result }
{
    match words {
        [command, rules] => types_form(command, rules),
        [command, rules, problem, proof] => check_form(command, rules, problem, proof),
        _ => None,
    }
}

/// The usage line.
pub fn usage() -> &'static [u8]
    ensures { result.now ≡ stop_line Stop.BadWords }
{
    b"usage: rare check RULES PROBLEM PROOF | prove [--depth=N] [--budget=N] RULES PROBLEM | rules | types RULES | gen N\n"
}

/// The line for a file that can't be read.
pub fn read_fault(file: File) -> &'static [u8]
    ensures { result.now ≡ stop_line (Stop.ReadFault file) }
{
    match file {
        File::Rules => b"read fault rules\n",
        File::Problem => b"read fault problem\n",
        File::Proof => b"read fault proof\n",
    }
}

/// The line for a file that is too long.
pub fn too_long(file: File) -> &'static [u8]
    ensures { result.now ≡ stop_line (Stop.TooLong file) }
{
    match file {
        File::Rules => b"too long rules\n",
        File::Problem => b"too long problem\n",
        File::Proof => b"too long proof\n",
    }
}

/// The line for want of memory.
pub fn out_of_memory() -> &'static [u8]
    ensures { result.now ≡ stop_line Stop.Memory }
{
    b"out of memory\n"
}

fn file_name(file: File) -> &'static str
    ensures { result.now ≡ file_word file }
{
    match file {
        File::Rules => "rules",
        File::Problem => "problem",
        File::Proof => "proof",
    }
}

/// The line for a file that has no reading.
pub fn refused(alloc: Global, file: File, place: Place, reason: Reason) -> Result<Text, AllocError>
    ensures { IfOk result (λ t. t ≡ stop_line (Stop.Refused file place reason)) }
{
    let name = file_name(file);
    let Place { line, column } = place;
    let word = reason.word();
    let message = format!(in alloc; "refused {name} {line}:{column} {word}\n")?;
    Text::of(alloc, message.as_bytes())
}
