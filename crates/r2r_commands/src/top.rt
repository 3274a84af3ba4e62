//! The one public call.

ghost use Rattle.std.specs.Prelude.{map, string_bytes};
ghost use Rattle.r2r_commands.specs.Outside.{seen};
ghost use Rattle.r2r_commands.specs.Program.{Runs};

use crate::command::Command;
use crate::dump_file::dump_file;
use crate::output::print;
use crate::refusals::USAGE;
use crate::run_file::run_file;
use crate::status::Status;
use rtr_outside::{Files, Gate, Sink};
use std::alloc::Global;
use std::thread::Threads;

/// Runs the command that the words are, over these files and this output, and answers the status that the
/// program ends with. `words` are the arguments after the program's name.
///
/// The status is 0 where all was written; 1 where the words are no command; 2 where a file could not be read; 3
/// where a file is malformed; 4 where a named condition refuses: there are more than 64 files, a file is above
/// `rtr_outside::FILE_LIMIT`, two files have one simple name, a file has no flag of IL, there is no such entry, or it does not take a
/// worker's arguments; 5 where the output failed; 6 where all was written, and a worker did not return; 7 where memory was refused, or
/// a file's signatures are too long together (`cli_assembly::Assembly::read`), and then nothing was written.
pub fn r2r<R: Threads + Sync, F: Files, S: Sink, G: Gate>(
    _rt: &R,
    alloc: Global,
    words: &[String],
    files: &mut F,
    out: &mut S,
    _gate: &G,
) -> u8
    // 1 exactly where the words are no command; else how the command ends, and the cause of each status.
    ensures { Runs (map string_bytes words.now) (seen F.contents F.failed_calls S.written S.faults files.old out.old)
        (seen F.contents F.failed_calls S.written S.faults files.new out.new) result }
{
    match Command::parse(words) {
        Command::Usage => {
            print(out, USAGE.as_bytes());
            u8::from(Status::Usage)
        }
        Command::Dump(name) => u8::from(dump_file(alloc, name, files, out)),
        Command::Run(asked) => u8::from(run_file(alloc, &asked, files, out)),
    }
}
