//! The program, from the arguments that the system hands over to the exit code.

ghost use Rattle.std.specs.Prelude.{◌≡◌, ◌⊎◌, [], true, false, drop, Ok, IfOk, IfErr};
ghost use Rattle.std.specs.Process.{exit_status};
ghost use Rattle.std.specs.Vec.Iter.{into_iter_items};
ghost use Rattle.std.specs.IoError.{error_kind};
ghost use Rattle.rtr_outside.specs.Transfer.{is_want_of_memory};
ghost use Rattle.r2r_commands.specs.Outside.{seen};
ghost use Rattle.r2r_commands.specs.Program.{Runs, FindsNoMemory, words_of};

use crate::status::Status;
use crate::top::r2r;
use rtr_outside::{Files, Gate, Sink};
use std::alloc::{AllocError, Global};
use std::io::ErrorKind;
use std::process::ExitCode;
use std::thread::Threads;
use std::{env, io};

/// Runs the command of the program's arguments, of which the first is the program's name, over these files and this
/// output, and answers the exit code of the process: the status of [`r2r`].
///
/// Arguments that are no UTF-8 are no command, so they are usage. Where there is no memory for them the code is 7,
/// nothing is read and nothing is printed.
pub fn run<R: Threads + Sync, F: Files, S: Sink, G: Gate>(
    rt: &R,
    alloc: Global,
    args: io::Result<env::Args>,
    files: &mut F,
    out: &mut S,
    gate: &G,
) -> ExitCode
    // The words are the arguments without the program's name.
    ensures ran { IfOk args (λ args.
        Runs (words_of args) (seen F.contents F.failed_calls S.written S.faults files.old out.old)
        (seen F.contents F.failed_calls S.written S.faults files.new out.new) (exit_status result)
        ⊎ FindsNoMemory (seen F.contents F.failed_calls S.written S.faults files.old out.old)
        (seen F.contents F.failed_calls S.written S.faults files.new out.new) (exit_status result)) }

    // Arguments that are no text are no command.
    ensures no_text { IfErr args (λ error. is_want_of_memory (error_kind error) ≡ false →
        Runs [] (seen F.contents F.failed_calls S.written S.faults files.old out.old)
        (seen F.contents F.failed_calls S.written S.faults files.new out.new) (exit_status result)) }
    ensures no_memory { IfErr args (λ error. is_want_of_memory (error_kind error) ≡ true →
        FindsNoMemory (seen F.contents F.failed_calls S.written S.faults files.old out.old)
        (seen F.contents F.failed_calls S.written S.faults files.new out.new) (exit_status result)) }
{
    match args {
        Ok(args) => match words_after_name(alloc, args) {
            Ok(words) => ExitCode::from(r2r(rt, alloc, &words, files, out, gate)),
            Err(AllocError) => ExitCode::from(Status::NoMemory),
        },
        Err(error) => {
            if error.kind() == ErrorKind::OutOfMemory {
                ExitCode::from(Status::NoMemory)
            } else {
                ExitCode::from(r2r(rt, alloc, &[], files, out, gate))
            }
        }
    }
}

/// The arguments without the program's name.
fn words_after_name(alloc: Global, args: env::Args) -> Result<Vec<String>, AllocError>
    ensures { IfOk result (λ words. words.items ≡ drop 1 (into_iter_items args)) }
{
    args.skip(1).collect(alloc)
}
