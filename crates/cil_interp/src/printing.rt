//! Built-in methods: each takes a tick and no depth, and prints a line.

ghost use Rattle.std.specs.Prelude.{◌≡◌, ◌≤◌, ◌<◌, ℕ, List, Some, length};
ghost use Rattle.type_world.specs.declared.identity.TheConstants.{BUILT_IN};
ghost use Rattle.cil_meaning.specs.State.{Begun, Frame, no_objects};
ghost use Rattle.type_world.specs.Loading.{world_of};
ghost use Rattle.cil_meaning.specs.Run.{enter};
ghost use Rattle.cil_interp.specs.Frames.{HasPrinted, PassesAll, passed};
ghost use Rattle.cil_interp.specs.Lines.{line_as};

use crate::meter::{Event, Meter, tick};
use cil_meaning::Ending;
use itoa::Buffer;
use rtr_heap::Memory;
use type_world::World;

/// The line of a row from 2 to 6.
fn line_of<'a>(row: u32, arguments: &[u64], buffer: &'a mut Buffer) -> &'a str
    ensures { result.now ≡ line_as row arguments.now }
{
    match (row, arguments) {
        (3, [n, ..]) => buffer.format(((*n % 0x1_0000_0000) as u32).cast_signed()),
        (4, [n, ..]) => buffer.format((*n % 0x1_0000_0000) as u32),
        (5, [n, ..]) => buffer.format(n.cast_signed()),
        (6, [n, ..]) => buffer.format(*n),
        _ => "",
    }
}

/// Runs the built-in method of a row, from 2 to 6, with its argument: it takes a tick, and prints a line. `End` comes where no tick is
/// left, and where the output has no room.
pub fn built_in(
    _world: &World,
    row: u32,
    arguments: &[u64],
    memory: &mut Memory,
    meter: &mut Meter,
) -> Event
    requires first { 2 ≤ row }
    requires last { row ≤ 6 }
    requires arguments { PassesAll (world_of _world.now) (record { asm = BUILT_IN; row = row }) arguments.now }
    ensures printed { (waiting : List (Frame (Unit {0}))) (begun : List Begun)
        → HasPrinted (world_of _world.now) waiting memory.new meter.new.ticks_left begun result
        (enter no_objects (world_of _world.now) waiting (record { asm = BUILT_IN; row = row })
        (passed (world_of _world.now) (record { asm = BUILT_IN; row = row }) arguments.now) memory.old meter.old.ticks_left begun) }
    ensures depth { meter.new.depth ≡ meter.old.depth }
    ensures ticks { result ≡ Event.Returned 0 → meter.new.ticks_left < meter.old.ticks_left }
{
    if !tick(meter) {
        return Event::End(Ending::OutOfTicks);
    }
    let mut buffer = Buffer::new();
    let line = line_of(row, arguments, &mut buffer);
    match memory.print(line.as_bytes()) {
        Ok(()) => Event::Returned(0),
        Err(_) => Event::End(Ending::OutputFull),
    }
}
