//! A worker, which runs an entry.

ghost use Rattle.std.specs.Prelude.{◌≡◌, ◌<◌, true, None, Some, IfOk, All, map};
ghost use Rattle.std.specs.Option.{option_map};
ghost use Rattle.type_world.specs.Loading.{world_of};
ghost use Rattle.type_world.specs.Entries.{can_start};
ghost use Rattle.cil_interp.specs.Table.{IsTable};
ghost use Rattle.rtr_runner.specs.Workers.{IsReady, ends_as, new_worker, output_of, ran_in};

use crate::running::{run_entry, words_of};
use cil_interp::{Bodies, CilFrames};
use cil_meaning::{Ending, runs_end};
use rtr_bytes::NoMemory;
use rtr_heap::Memory;
use std::alloc::Global;
use std::marker::Model;
use type_world::{BUILT_IN, MethodId, World};

/// A worker: an entry with its numbers and ticks. After it has run it has the lines that it printed, and how it ended.
///
/// It takes no memory after it is made.
#[derive(Drop)]
pub struct Worker {
    number: u32,
    entry: MethodId,
    numbers: Vec<i128>,
    words: Vec<u64>,
    ticks: u64,
    frames: CilFrames,
    memory: Memory,
    ending: Option<Ending>,
}

impl Model for Worker {
    ghost use Rattle.std.specs.Prelude.{◌≡◌, ◌<◌, [], None, map};
    ghost use Rattle.std.specs.Option.{option_map};
    ghost use Rattle.rtr_runner.specs.Workers.{WorkerState, low_word};

    ghost Value = { WorkerState };

    ghost view = { λ w. record {
      number = w.number;
      job = record { entry = w.entry; numbers = w.numbers.items; ticks = w.ticks };
      ended = option_map (λ ending. record { output = w.memory; ending = ending }) w.ending;
    } };

    ghost invariant = { λ w. (w.ending ≡ None → w.memory ≡ []) × (w.ending ≡ None → w.frames.frames ≡ [])
        × (w.words.items ≡ map low_word w.numbers.items) × (w.entry.asm < 64) };
}

impl Worker {
    /// A worker of this number, which is to run an entry of a world with these numbers, for at most so many ticks. It takes all memory
    /// that the run needs. The entry can be started with the numbers ([`World::can_start`]).
    pub fn plain(
        alloc: Global,
        world: &World,
        number: u32,
        entry: MethodId,
        args: &[i128],
        ticks: u64,
    ) -> Result<Worker, NoMemory>
        requires row { entry.asm < BUILT_IN }
        requires starts { can_start (world_of world.now) entry args.now ≡ true }
        ensures { IfOk result (λ worker. worker ≡ new_worker entry ticks number args.now) }
    {
        let mut numbers = Vec::new(alloc);
        numbers.extend_from_slice(args)?;
        let words = words_of(alloc, args)?;
        let frames = CilFrames::reserve(alloc, world)?;
        let memory = Memory::reserve(alloc, world)?;
        Ok(Worker {
            number,
            entry,
            numbers,
            words,
            ticks,
            frames,
            memory,
            ending: None,
        })
    }

    /// Runs the entry from its CIL, and answers how the run ended. It takes no memory. The worker has not run before, the entry can be
    /// started with its numbers in this world, and the bodies are this world's.
    pub fn run_plain(&mut self, world: &World, bodies: &Bodies) -> Ending
        requires ready { IsReady (world_of world.now) self.old }
        requires table { IsTable (world_of world.now) bodies.now }
        // The ending and the lines are those of the run of the CIL.
        ensures ran { self.new ≡ ran_in (world_of world.now) self.old }
        ensures ending { Some result ≡ option_map (λ ended. ended.ending) (ends_as (world_of world.now) self.old.job) }
    {
        runs_end();
        let ending = run_entry(
            world,
            bodies,
            self.entry,
            self.words.as_slice(),
            self.ticks,
            &mut self.frames,
            &mut self.memory,
        );
        self.ending = Some(ending);
        ending
    }

    /// Its number.
    pub fn number(&self) -> u32
        ensures { result ≡ self.now.number }
    {
        self.number
    }

    /// The lines that the run printed, each with its line feed; empty before the run.
    pub fn output(&self) -> &[u8]
        ensures { result.now ≡ output_of self.now }
    {
        self.memory.output()
    }

    /// How the run ended. `None` exactly before the run.
    pub fn ending(&self) -> Option<Ending>
        ensures { result ≡ option_map (λ ended. ended.ending) self.now.ended }
    {
        self.ending
    }
}

/// Runs each worker, one after another, as [`Worker::run_plain`] does. It takes no memory.
pub fn run_all(world: &World, bodies: &Bodies, workers: &mut [Worker])
    requires ready { All (IsReady (world_of world.now)) workers.old }
    requires table { IsTable (world_of world.now) bodies.now }
    ensures { workers.new ≡ map (ran_in (world_of world.now)) workers.old }
{
    for worker in workers.iter_mut() {
        let _ = worker.run_plain(world, bodies);
    }
}
