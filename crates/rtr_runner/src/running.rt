//! The words that an entry is given, and its run by frames.

ghost use Rattle.std.specs.Prelude.{◌≡◌, ◌<◌, [], List, map, IfOk};
ghost use Rattle.type_world.specs.Loading.{world_of};
ghost use Rattle.cil_meaning.specs.State.{Begun, no_objects};
ghost use Rattle.cil_meaning.specs.Run.{enter};
ghost use Rattle.cil_interp.specs.Frames.{PassesAll, passed};
ghost use Rattle.cil_interp.specs.Ran.{RunEnds};
ghost use Rattle.cil_interp.specs.Table.{IsTable};
ghost use Rattle.rtr_runner.specs.Workers.{low_word};

use cil_interp::{Bodies, CilFrames, Event, Meter};
use cil_meaning::Ending;
use rtr_bytes::NoMemory;
use rtr_heap::Memory;
use std::alloc::Global;
use type_world::{BUILT_IN, MethodId, World};

/// The low 64 bits of each number.
pub(crate) fn words_of(alloc: Global, numbers: &[i128]) -> Result<Vec<u64>, NoMemory>
    ensures { IfOk result (λ words. words.items ≡ map low_word numbers.now) }
{
    let mut words = Vec::new(alloc);
    for number in numbers {
        words.push(((*number).cast_unsigned() % 0x1_0000_0000_0000_0000) as u64)?;
    }
    Ok(words)
}

/// Enters a method with one word for each argument, and runs it to its end. The frames are those of a worker that has not run.
pub(crate) fn run_entry(
    world: &World,
    bodies: &Bodies,
    entry: MethodId,
    words: &[u64],
    ticks: u64,
    frames: &mut CilFrames,
    memory: &mut Memory,
) -> Ending
    requires table { IsTable (world_of world.now) bodies.now }
    requires row { entry.asm < BUILT_IN }
    requires arguments { PassesAll (world_of world.now) entry words.now }
    requires none { frames.old.frames ≡ [] }
    ensures ends { (begun : List Begun) → RunEnds (world_of world.now)
        (enter no_objects (world_of world.now) [] entry (passed (world_of world.now) entry words.now) memory.old ticks begun)
        memory.new result }
{
    let mut meter = Meter {
        ticks_left: ticks,
        depth: 0,
    };
    match frames.enter(world, bodies, entry, words, &mut meter) {
        Event::End(ending) => ending,
        _ => frames.run(world, bodies, memory, &mut meter),
    }
}
