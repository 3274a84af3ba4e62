//! The dump of a file.

ghost use Rattle.std.specs.Prelude.{◌≡◌, ◌≤◌, ◌^◌, length};
ghost use Rattle.r2rdump.specs.Dump.{file_fault};
ghost use Rattle.r2r_commands.specs.Command.{Dump};
ghost use Rattle.r2r_commands.specs.Dump.{dump_reply};
ghost use Rattle.r2r_commands.specs.Ending.{Ends, PrintsIfMemory};
ghost use Rattle.r2r_commands.specs.Outside.{seen};
ghost use Rattle.r2r_commands.specs.Status.{code_of};

use crate::inputs::read_inputs;
use crate::output::refuse;
use crate::refusals::{Refusal, Stop};
use crate::status::Status;
use r2rdump::{DumpRefusal, dump_text};
use rtr_outside::{Files, Sink};
use std::alloc::Global;

/// Dumps a file's bytes, or prints the line on its first fault.
fn dump_bytes<S: Sink>(alloc: Global, name: &str, bytes: &[u8], out: &mut S) -> Status
    requires { length bytes.now ≤ 2 ^ 31 }
    ensures printed { PrintsIfMemory S.written S.faults (dump_reply name.now bytes.now (file_fault bytes.now))
        out.old out.new (code_of result) }
    ensures never_falls { S.faults out.old ≤ S.faults out.new }
{
    match dump_text(alloc, name, bytes, out) {
        Ok(()) => Status::Done,
        Err(DumpRefusal::Malformed(fault)) => refuse(alloc, Refusal::Malformed(name, fault), out),
        Err(DumpRefusal::SinkFailed) => Status::WriteFault,
        Err(DumpRefusal::NoMemory) => Status::NoMemory,
    }
}

/// Dumps a file, or prints the line of its refusal.
pub(crate) fn dump_file<F: Files, S: Sink>(
    alloc: Global,
    name: &str,
    files: &mut F,
    out: &mut S,
) -> Status
    ensures ends { Ends (Dump name.now) (seen F.contents F.failed_calls S.written S.faults files.old out.old)
        (seen F.contents F.failed_calls S.written S.faults files.new out.new) (code_of result) }
    ensures contents { F.contents files.new ≡ F.contents files.old }
    ensures never_falls { S.faults out.old ≤ S.faults out.new }
{
    match read_inputs(alloc, &[name], files) {
        Ok(inputs) => dump_bytes(alloc, name, &inputs[0], out),
        Err(Stop::Refused(refusal)) => refuse(alloc, refusal, out),
        Err(Stop::NoMemory) => Status::NoMemory,
    }
}
