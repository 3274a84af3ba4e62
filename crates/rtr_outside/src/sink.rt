//! An output that takes bytes.

ghost use Rattle.std.specs.Prelude.{◌≡◌, ◌≤◌, ◌<◌, ℕ, List, Option, length, take, IfOk, OnOk, OnErr};
ghost use Rattle.rtr_outside.specs.Sink.{Rose, Appends, PrintsFront};

use thiserror::Error;

/// A write of a sink failed.
#[derive(Clone, Copy, Debug, PartialEq, Eq, Error)]
#[error("the write failed")]
pub struct SinkFailed;

/// An output that takes bytes, as many at a time as it likes.
pub trait Sink {
    /// The bytes that it has taken so far, where it exposes them.
    ghost written: { Self → Option (List ℕ) };

    /// How many faults it has had; the count stays at 2^64 - 1 once it is there.
    ghost faults: { Self → ℕ };

    /// Takes the first bytes of a piece, at least one where it isn't empty, and answers how many. `SinkFailed` comes
    /// only where the sink has a fault, and then nothing is taken.
    fn write(&mut self, bytes: &[u8]) -> Result<usize, SinkFailed>
        ensures within { IfOk result (λ taken. taken ≤ length bytes.now) }
        ensures some { IfOk result (λ taken. 0 < length bytes.now → 0 < taken) }
        ensures taken { IfOk result (λ taken. Appends (take taken bytes.now) (written self.old) (written self.new)) }

        // An empty piece never fails. Any other fails only where the sink had a fault.
        ensures empty { length bytes.now ≡ 0 → result ≡ Ok 0 }
        ensures failed { OnErr result (Rose (faults self.old) (faults self.new)) }
        ensures err { OnErr result (written self.new ≡ written self.old) }
        ensures never_falls { faults self.old ≤ faults self.new };
}

/// Writes the whole text, in as many pieces as the sink takes. `SinkFailed` comes only where the sink had a fault;
/// then it has taken a prefix of the text, which may be empty.
pub fn write_all<S: Sink>(out: &mut S, text: &[u8]) -> Result<(), SinkFailed>
    ensures whole { OnOk result (Appends text.now (S.written out.old) (S.written out.new)) }
    ensures front { OnErr result (PrintsFront S.written text.now out.old out.new) }
    ensures failed { OnErr result (Rose (S.faults out.old) (S.faults out.new)) }
    ensures never_falls { S.faults out.old ≤ S.faults out.new }
{
    let mut rest = text;
    while !rest.is_empty() {
        let taken = out.write(rest)?;
        rest = rest.split_at(taken).1;
    }
    Ok(())
}
