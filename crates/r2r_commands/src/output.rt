//! Writing the lines of refusals.

ghost use Rattle.std.specs.Prelude.{◌≡◌, ◌≤◌};
ghost use Rattle.r2r_commands.specs.Outside.{PrintsText};
ghost use Rattle.r2r_commands.specs.Refusals.{meaning};
ghost use Rattle.r2r_commands.specs.Ending.{Refuses, PrintsIfMemory};
ghost use Rattle.r2r_commands.specs.Status.{code_of};

use crate::refusals::Refusal;
use crate::status::Status;
use rtr_bytes::NoMemory;
use rtr_outside::{Sink, write_all};
use std::alloc::Global;

/// Writes a line, as far as the output takes it.
pub(crate) fn print<S: Sink>(out: &mut S, line: &[u8])
    ensures printed { PrintsText S.written S.faults line.now out.old out.new }
    ensures never_falls { S.faults out.old ≤ S.faults out.new }
{
    let _ = write_all(out, line);
}

/// Writes the line of a refusal, and answers its status, whether the output took the line or not. Where there is
/// no memory for the line it answers that.
pub(crate) fn refuse<S: Sink>(alloc: Global, refusal: Refusal<'_>, out: &mut S) -> Status
    ensures printed { PrintsIfMemory S.written S.faults (Refuses (meaning refusal.entry)) out.old out.new (code_of result) }
    ensures never_falls { S.faults out.old ≤ S.faults out.new }
{
    match refusal.line(alloc) {
        Ok(line) => {
            print(out, line.as_slice());
            refusal.status()
        }
        Err(NoMemory) => Status::NoMemory,
    }
}
