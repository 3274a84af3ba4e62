//! The memory of one worker.

ghost use Rattle.std.specs.Prelude.{◌≡◌, [], IfOk, OnErr, OnOk};
ghost use Rattle.cil_meaning.specs.declared.ending.Ending.TheVariants as endings;
ghost use Rattle.cil_meaning.specs.State.{Bad, Fine, no_objects};

use rtr_bytes::NoMemory;
use std::alloc::Global;
use std::marker::Model;
use thiserror::Error;
use type_world::World;

/// An output has at most so many bytes, the line feeds counted.
pub const OUTPUT_LIMIT: usize = 1_048_576;

/// With the line the output would have more than 1,048,576 bytes. The run of the CIL ends so (`Ending::OutputFull`).
#[derive(Clone, Copy, Debug, PartialEq, Eq, Error)]
#[error("the output is full")]
pub struct OutputFull;

/// The memory of one worker. It takes no memory after it is made.
///
/// Contracts see it as the heap of the store `no_objects`, which the run of the CIL has: the bytes of its output.
#[derive(Drop)]
pub struct Memory {
    output: Vec<u8>,
}

impl Model for Memory {
    ghost use Rattle.std.specs.Prelude.{◌≤◌, ℕ, List, vec_capacity, vec_len};

    ghost Value = { List ℕ };

    ghost view = { λ m. m.output.items };

    ghost invariant = { λ m. (vec_len m.output ≤ 1048576) × (1048576 ≤ vec_capacity m.output) };
}

impl Memory {
    /// The memory of a worker in a world, before it runs: nothing is printed. `NoMemory` comes where there is no memory for an output
    /// of 1,048,576 bytes, which it takes at once. This is the one call that takes memory.
    pub fn reserve(alloc: Global, _world: &World) -> Result<Memory, NoMemory>
        ensures empty { IfOk result (λ memory. memory ≡ []) }
    {
        let output = Vec::with_capacity(alloc, OUTPUT_LIMIT)?;
        Ok(Memory { output })
    }

    /// Appends a line and its line feed to the output. `OutputFull` comes exactly where the output would then have more than 1,048,576
    /// bytes; the output is then as before.
    pub fn print(&mut self, line: &[u8]) -> Result<(), OutputFull>
        ensures printed { OnOk result (no_objects.print self.old line.now ≡ Fine self.new) }
        ensures full { OnErr result (no_objects.print self.old line.now ≡ Bad endings.OutputFull) }
        ensures err { OnErr result (self.new ≡ self.old) }
    {
        if line.len() >= OUTPUT_LIMIT - self.output.len() {
            return Err(OutputFull);
        }
        self.output.extend_from_slice(line).unwrap();
        self.output.push(b'\n').unwrap();
        Ok(())
    }

    /// The lines that were printed, each with its line feed.
    pub fn output(&self) -> &[u8]
        ensures { result.now ≡ no_objects.output self.now }
    {
        self.output.as_slice()
    }
}
