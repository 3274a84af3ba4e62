//! The frames of a worker.

ghost use Rattle.std.specs.Prelude.{◌≡◌, ◌≤◌, ◌<◌, ℕ, List, length, [], IfOk};
ghost use Rattle.type_world.specs.Loading.{world_of};
ghost use Rattle.cil_meaning.specs.State.{Begun, Going, no_objects};
ghost use Rattle.cil_meaning.specs.Run.{enter, give, step};
ghost use Rattle.cil_interp.specs.Frames.{AreSome, Comes, GivesTo, GoesOn, PassesAll, Runs, Waits};
ghost use Rattle.cil_interp.specs.Frames.{given_to, outgoing, passed, state_of, waiting_in};
ghost use Rattle.cil_interp.specs.Ran.{IsEntry, RunEnds};
ghost use Rattle.cil_interp.specs.Table.{IsTable};

use crate::bodies::Bodies;
use crate::following::run_all;
use crate::meter::{Event, Meter};
use crate::running::{enter_method, give_last, step_last};
use crate::stack::Stack;
use cil_meaning::Ending;
use rtr_bytes::NoMemory;
use rtr_heap::Memory;
use std::alloc::Global;
use std::marker::Model;
use type_world::{BUILT_IN, MethodId, World};

/// So many words the frames have: 16 arguments, 128 locals and 128 words of stack for each of 1,024, and one more.
const WORDS: usize = 278_529;

/// The frames of a worker: where each is, and one list of words for all. After it is made it takes no memory.
///
/// Contracts see the frames, the last one first, and the words. `Runs` says that the last one runs and the others wait, `Waits` that all
/// wait; `state_of` is the state of the defined run that they stand for.
#[derive(Drop)]
pub struct CilFrames {
    stack: Stack,
    words: Vec<u64>,
}

impl Model for CilFrames {
    ghost use Rattle.std.specs.Prelude.{◌≡◌, vec_len};
    ghost use Rattle.cil_interp.specs.Frames.{Frames, frames_are};

    ghost Value = { Frames };

    ghost view = { λ f. frames_are f.stack f.words.items };

    ghost invariant = { λ f. vec_len f.words ≡ 278529 };
}

impl CilFrames {
    /// Frames of a worker in a world, before it enters its first method. `NoMemory` comes where there is no memory for 1,024 frames.
    /// This is the one call that takes memory.
    pub fn reserve(alloc: Global, _world: &World) -> Result<CilFrames, NoMemory>
        ensures none { IfOk result (λ frames. frames.frames ≡ []) }
    {
        let stack = Stack::reserve(alloc)?;
        let words = vec![in alloc; 0u64; WORDS]?;
        Ok(CilFrames { stack, words })
    }

    /// How many frames there are.
    pub fn depth(&self) -> u32
        ensures count { result ≡ length self.now.frames }
        ensures few { result ≤ 1024 }
    {
        self.stack.len()
    }

    /// Enters a method, with one word for each argument: the tick, the depth, and the entry. `End` comes where no tick is left, where
    /// 1,024 frames are there, and where the method is not in the profile.
    pub fn enter(
        &mut self,
        world: &World,
        bodies: &Bodies,
        target: MethodId,
        arguments: &[u64],
        meter: &mut Meter,
    ) -> Event
        requires table { IsTable (world_of world.now) bodies.now }
        requires row { target.asm < BUILT_IN }
        requires waits { Waits (world_of world.now) self.old.frames }
        requires depth { meter.old.depth ≡ length self.old.frames }
        requires arguments { PassesAll (world_of world.now) target arguments.now }
        requires result { GivesTo (world_of world.now) self.old.frames target }
        ensures entered { (output : List ℕ) (begun : List Begun)
            → Comes (world_of world.now) self.new [] output meter.new.ticks_left begun result
            (enter no_objects (world_of world.now) (waiting_in (world_of world.now) self.old) target
            (passed (world_of world.now) target arguments.now) output meter.old.ticks_left begun) }
        ensures entry { IsEntry result }
        ensures depth { meter.new.depth ≡ length self.new.frames }
    {
        enter_method(
            world,
            bodies,
            target,
            arguments,
            &mut self.stack,
            &mut self.words,
            meter,
        )
    }

    /// The words that the call of the last frame passes.
    pub fn outgoing(&self) -> &[u64]
        requires waits { AreSome self.now.frames }
        ensures words { result.now ≡ outgoing self.now }
    {
        match self.stack.last() {
            Some(a) => {
                let words = self.words.as_slice();
                let end = words.len().min(a.end as usize);
                let last = words.len().min(end + a.passes as usize);
                &words[end..last]
            }
            None => &[],
        }
    }

    /// Ends the call at which the last frame waits: it pushes the word as the result's place keeps it, or nothing for void.
    pub fn give(&mut self, world: &World, word: u64)
        requires waits { Waits (world_of world.now) self.old.frames }
        requires some { AreSome self.old.frames }
        ensures given { (output : List ℕ) (ticks : ℕ) (begun : List Begun)
            → GoesOn (world_of world.now) self.new output ticks begun
            (give no_objects (world_of world.now) (waiting_in (world_of world.now) self.old) (given_to self.old.frames word)
            output ticks begun) }
        ensures depth { length self.new.frames ≡ length self.old.frames }
    {
        give_last(world, &mut self.stack, &mut self.words, word);
    }

    /// Runs the last frame, and those that it calls, until the run is over: `ending` says how. The memory has the lines that were printed.
    pub fn run(
        &mut self,
        world: &World,
        bodies: &Bodies,
        memory: &mut Memory,
        meter: &mut Meter,
    ) -> Ending
        requires table { IsTable (world_of world.now) bodies.now }
        requires runs { Runs (world_of world.now) self.old.frames }
        requires depth { meter.old.depth ≡ length self.old.frames }
        ensures ends { (begun : List Begun) → RunEnds (world_of world.now)
            (Going (state_of (world_of world.now) self.old memory.old meter.old.ticks_left begun)) memory.new result }
    {
        run_all(
            world,
            bodies,
            &mut self.stack,
            &mut self.words,
            memory,
            meter,
        )
    }
}

/// One step of the last frame, which runs. `Call` leaves it at its call; `Returned` comes when its frame is gone. `End` comes where no tick
/// is left, and where the instruction ends the run.
pub fn step(
    world: &World,
    bodies: &Bodies,
    frames: &mut CilFrames,
    memory: &mut Memory,
    meter: &mut Meter,
) -> Event
    requires table { IsTable (world_of world.now) bodies.now }
    requires runs { Runs (world_of world.now) frames.old.frames }
    ensures stepped { (begun : List Begun)
        → Comes (world_of world.now) frames.new (outgoing frames.new) memory.new meter.new.ticks_left begun result
        (step no_objects (world_of world.now)
        (state_of (world_of world.now) frames.old memory.old meter.old.ticks_left begun)) }
    ensures depth { meter.old.depth ≡ length frames.old.frames → meter.new.depth ≡ length frames.new.frames }
{
    let _lines = memory.output();
    step_last(world, bodies, &mut frames.stack, &mut frames.words, meter)
}
