//! An output of the system.

ghost use Rattle.std.specs.Prelude.{◌≡◌, ◌≤◌, ◌<◌, None, if◌then◌else◌, is_ok, length, take, IfOk};
ghost use Rattle.std.specs.Io.KnownBytes.{Appends};
ghost use Rattle.rtr_outside.specs.Counts.{one_more};

use crate::sink::{Sink, SinkFailed};
use std::io;
use std::io::Write;
use std::marker::Model;

/// A sink over a writer, as standard output. It exposes no bytes. An error of the writer, a write that takes
/// nothing and a flush that fails are faults.
///
/// An error of the kind `std::io::ErrorKind::OutOfMemory` is a fault too: [`SinkFailed`] is a sink's only refusal,
/// and an output that could not take its bytes failed, whatever the reason.
#[derive(Drop)]
pub struct RealSink<W> {
    writer: W,
    faults: u64,
}

impl<W> Model for RealSink<W> {
    ghost use Rattle.rtr_outside.specs.RealSink.{SinkOver, sink_code};

    ghost Value = { SinkOver W };

    ghost coded = { sink_code W.code };

    ghost view = { λ s. record { writer = s.writer; faults = s.faults } };
}

impl<W> RealSink<W> {
    /// A sink over `writer`, with no fault.
    pub fn new(writer: W) -> Self
        ensures { result ≡ record { writer = writer; faults = 0 } }
    {
        RealSink { writer, faults: 0 }
    }
}

impl<W: Write> Sink for RealSink<W> {
    ghost written = { λ _. None };

    ghost faults = { λ s. s.faults };

    /// Writes once, flushes, and answers how many bytes were taken. `SinkFailed` comes where the write or the flush
    /// fails, or the write takes nothing of a piece that isn't empty.
    fn write(&mut self, bytes: &[u8]) -> Result<usize, SinkFailed>
        ensures within { IfOk result (λ taken. taken ≤ length bytes.now) }
        ensures some { IfOk result (λ taken. 0 < length bytes.now → 0 < taken) }
        ensures empty { length bytes.now ≡ 0 → result ≡ Ok 0 }

        // Where the writer exposes its bytes, it has those that were taken.
        ensures taken { IfOk result (λ taken.
            Appends (W.contents self.old.writer) (W.contents self.new.writer) (take taken bytes.now)) }
        ensures faults { self.new.faults ≡ (if is_ok result then self.old.faults else one_more self.old.faults) }
        ensures never_falls { self.old.faults ≤ self.new.faults }
    {
        if bytes.is_empty() {
            return Ok(0);
        }
        match write_and_flush(&mut self.writer, bytes) {
            Ok(taken) if taken > 0 => Ok(taken),
            _ => {
                self.faults = self.faults.saturating_add(1);
                Err(SinkFailed)
            }
        }
    }
}

/// Writes once, and flushes.
fn write_and_flush<W: Write>(writer: &mut W, bytes: &[u8]) -> io::Result<usize>
    ensures within { IfOk result (λ taken. taken ≤ length bytes.now) }
    ensures taken { IfOk result (λ taken.
        Appends (W.contents writer.old) (W.contents writer.new) (take taken bytes.now)) }
{
    let taken = writer.write(bytes)?;
    writer.flush()?;
    Ok(taken)
}
