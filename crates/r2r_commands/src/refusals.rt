//! Why a command is refused, with the status and the line of each refusal.

ghost use Rattle.std.specs.Prelude.{◌≡◌, ◌++◌, IfOk, codes, decimal};
ghost use Rattle.rtr_outside.specs.Text.{printed_name, newline};
ghost use Rattle.r2r_commands.specs.declared.refusals.Stop.TheVariants as stops;
ghost use Rattle.r2r_commands.specs.Refusals.{line_of, meaning, status_of};
ghost use Rattle.r2r_commands.specs.Status.{code_of};

use crate::status::Status;
use rtr_bytes::{Fault, NoMemory};
use rtr_outside::Text;
use std::alloc::{AllocFailed, Global};

/// What is printed where the words are no command.
pub(crate) const USAGE: &str =
    "usage: r2r compile IN -o OUT [--ref F].. [--fields cell|burn] | run IMAGE [--ref F].. [--entry T::M] [--worker A,B].. [--ticks N] [--cells] | dump FILE | big N\n";

/// Why a command is refused.
#[derive(Clone, Copy)]
pub(crate) enum Refusal<'a> {
    /// So many files are named, more than are read.
    TooMany(usize),
    /// The read of the file of this name failed.
    ReadFailed(&'a str),
    /// The file of this name is above `rtr_outside::FILE_LIMIT`.
    TooLong(&'a str),
    /// The file of this name has this fault.
    Malformed(&'a str, Fault),
    /// The files of these numbers, from 0, have one simple name.
    DuplicateName(u32, u32),
    /// The file of this name has neither CLI flag 1 nor 4.
    NotIlOnly(&'a str),
    /// The image has no such entry.
    NoEntry,
    /// The worker of this number, from 0, has arguments that the entry does not take.
    BadArguments(u32),
}

/// Why a command stops before it has a text.
pub(crate) enum Stop<'a> {
    /// It is refused.
    Refused(Refusal<'a>),
    /// Memory was refused.
    NoMemory,
}

impl<T: Drop> From<AllocFailed<T>> for Stop<'_> {
    ghost from_gives = { λ _ stop. stop ≡ stops.NoMemory };

    fn from(_e: AllocFailed<T>) -> Self {
        Stop::NoMemory
    }
}

impl From<NoMemory> for Stop<'_> {
    ghost from_gives = { λ _ stop. stop ≡ stops.NoMemory };

    fn from(_e: NoMemory) -> Self {
        Stop::NoMemory
    }
}

impl Refusal<'_> {
    /// The status that the program ends with.
    pub(crate) fn status(self) -> Status
        ensures { code_of result ≡ status_of (meaning self.entry) }
    {
        match self {
            Refusal::ReadFailed(_) => Status::ReadFailed,
            Refusal::Malformed(..) => Status::Malformed,
            Refusal::TooMany(_)
            | Refusal::TooLong(_)
            | Refusal::DuplicateName(..)
            | Refusal::NotIlOnly(_)
            | Refusal::NoEntry
            | Refusal::BadArguments(_) => Status::Refused,
        }
    }

    /// The line that is printed.
    pub(crate) fn line(self, alloc: Global) -> Result<Text, NoMemory>
        ensures { IfOk result (λ text. text ≡ line_of (meaning self.entry)) }
    {
        match self {
            Refusal::TooMany(files) => number_line(alloc, "refused: TooMany ", files as u64),
            Refusal::ReadFailed(name) => name_line(alloc, "read failed: ", name),
            Refusal::TooLong(name) => name_line(alloc, "refused: TooLong ", name),
            Refusal::Malformed(name, fault) => fault_line(alloc, name, fault),
            Refusal::DuplicateName(first, second) => duplicate_line(alloc, first, second),
            Refusal::NotIlOnly(name) => name_line(alloc, "refused: NotIlOnly ", name),
            Refusal::NoEntry => words_line(alloc, "refused: NoEntry"),
            Refusal::BadArguments(worker) => {
                number_line(alloc, "refused: BadArguments ", u64::from(worker))
            }
        }
    }
}

/// A line of some words.
fn words_line(alloc: Global, words: &str) -> Result<Text, NoMemory>
    ensures { IfOk result (λ text. text ≡ words.now ++ newline) }
{
    let mut text = Text::new(alloc);
    text.words(words)?;
    text.words("\n")?;
    Ok(text)
}

/// A line of some words and a number.
fn number_line(alloc: Global, words: &str, number: u64) -> Result<Text, NoMemory>
    ensures { IfOk result (λ text. text ≡ words.now ++ decimal number ++ newline) }
{
    let mut text = Text::new(alloc);
    text.decimal(words, number)?;
    text.words("\n")?;
    Ok(text)
}

/// A line of some words and a file's name.
fn name_line(alloc: Global, words: &str, name: &str) -> Result<Text, NoMemory>
    ensures { IfOk result (λ text. text ≡ words.now ++ printed_name name.now ++ newline) }
{
    let mut text = Text::new(alloc);
    text.name(words, name)?;
    text.words("\n")?;
    Ok(text)
}

/// The line of a file with a fault.
fn fault_line(alloc: Global, name: &str, fault: Fault) -> Result<Text, NoMemory>
    ensures { IfOk result (λ text. text ≡ codes "malformed: " ++ printed_name name.now ++ codes " check " ++ decimal fault.check
        ++ codes " at " ++ decimal fault.place ++ newline) }
{
    let mut text = Text::new(alloc);
    text.name("malformed: ", name)?;
    text.decimal(" check ", u64::from(fault.check))?;
    text.decimal(" at ", u64::from(fault.place))?;
    text.words("\n")?;
    Ok(text)
}

/// The line of two files with one simple name.
fn duplicate_line(alloc: Global, first: u32, second: u32) -> Result<Text, NoMemory>
    ensures { IfOk result (λ text. text ≡ codes "refused: DuplicateName " ++ decimal first ++ codes " " ++ decimal second ++ newline) }
{
    let mut text = Text::new(alloc);
    text.decimal("refused: DuplicateName ", u64::from(first))?;
    text.decimal(" ", u64::from(second))?;
    text.words("\n")?;
    Ok(text)
}
