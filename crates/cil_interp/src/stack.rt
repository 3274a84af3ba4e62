//! The frames of a worker, without their words.

ghost use Rattle.std.specs.Prelude.{◌≡◌, ◌≤◌, ◌<◌, ◌+◌, [], ◌∷◌, length, IfOk, MatchOption};
ghost use Rattle.cil_interp.specs.Stacks.{Starts};

use crate::act::Activation;
use rtr_bytes::NoMemory;
use std::alloc::Global;
use std::marker::Model;

/// So many frames are there at most.
pub const FRAMES: u32 = 1_024;

/// At most 1,024 frames. After it is made it takes no memory. Contracts see the frames, the last one first.
#[derive(Drop)]
pub(crate) struct Stack {
    frames: Vec<Activation>,
}

impl Model for Stack {
    ghost use Rattle.std.specs.Prelude.{◌≤◌, List, reverse, vec_capacity, vec_len};
    ghost use Rattle.cil_interp.specs.declared.act.Activation.{Activation};

    ghost Value = { List Activation };

    ghost view = { λ s. reverse s.frames.items };

    ghost invariant = { λ s. (vec_len s.frames ≤ 1024) × (1024 ≤ vec_capacity s.frames) };
}

impl Stack {
    /// No frame, with room for 1,024.
    pub(crate) fn reserve(alloc: Global) -> Result<Stack, NoMemory>
        ensures none { IfOk result (λ stack. stack ≡ []) }
    {
        let frames = Vec::with_capacity(alloc, FRAMES as usize)?;
        Ok(Stack { frames })
    }

    /// How many frames there are.
    pub(crate) fn len(&self) -> u32
        ensures count { result ≡ length self.now }
        ensures few { result ≤ 1024 }
    {
        self.frames.len() as u32
    }

    /// Adds a frame.
    pub(crate) fn push(&mut self, a: Activation)
        requires few { length self.old < 1024 }
        ensures { self.new ≡ a ∷ self.old }
    {
        self.frames.push(a).unwrap();
    }

    /// Takes the last frame.
    pub(crate) fn pop(&mut self) -> Option<Activation>
        ensures taken { MatchOption result (self.old ≡ []) (λ a. self.old ≡ a ∷ self.new) }
        ensures few { MatchOption result (self.new ≡ []) (λ a. length self.new < 1024) }
    {
        self.frames.pop()
    }

    /// The last frame.
    pub(crate) fn last(&self) -> Option<Activation>
        ensures { MatchOption result (self.now ≡ []) (λ a. Starts a self.now) }
    {
        self.frames.last().copied()
    }
}
