//! What a run has left, and what comes of one step.

ghost use Rattle.std.specs.Prelude.{◌≡◌, ◌+◌, IsTrue, false};

use cil_meaning::Ending;
use type_world::MethodId;

/// What a run has left, and how deep it is.
#[derive(Clone, Copy, Debug, PartialEq, Eq)]
pub struct Meter {
    /// The ticks that are left.
    pub ticks_left: u64,
    /// How many methods are entered.
    pub depth: u32,
}

/// What comes of one step, or of one entry.
#[derive(Clone, Copy, Debug, PartialEq, Eq)]
pub enum Event {
    /// The frame goes on.
    Next,
    /// A method is called. The calling frame is at its call.
    Call(MethodId),
    /// A method returned this word: 0 from a void method, and an integer of four bytes in the lower half. Its frame is gone.
    Returned(u64),
    /// The run is over.
    End(Ending),
}

/// Takes a tick, if one is left.
pub(crate) fn tick(meter: &mut Meter) -> bool
    ensures taken { IsTrue result → (meter.old.ticks_left ≡ meter.new.ticks_left + 1) × (meter.new.depth ≡ meter.old.depth) }
    ensures none { result ≡ false → (meter.old.ticks_left ≡ 0) × (meter.new ≡ meter.old) }
{
    if meter.ticks_left == 0 {
        return false;
    }
    meter.ticks_left -= 1;
    true
}
