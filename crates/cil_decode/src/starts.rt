//! The offsets at which instructions begin.

ghost use Rattle.std.specs.Prelude.{◌≡◌, ◌<◌, All, IfOk};
ghost use Rattle.cil_decode.specs.Bodies.{is_linked, is_start};

use crate::instr::{Arg, Instr};
use rtr_bytes::NoMemory;
use std::alloc::Global;
use std::marker::Model;

/// The offsets at which some instructions begin, with an answer for each offset without a search.
#[derive(Drop)]
pub(crate) struct Starts<'a> {
    list: &'a [Instr],
    marks: Vec<bool>,
}

impl<'a> Model for Starts<'a> {
    ghost use Rattle.std.specs.Prelude.{List};
    ghost use Rattle.cil_decode.specs.declared.instr.Instr.{Instr};
    ghost use Rattle.cil_decode.specs.Bodies.{Marks};

    ghost Value = { List Instr };

    ghost view = { λ s. s.list.now };

    ghost invariant = { λ s. Marks s.marks.items s.list.now };
}

impl<'a> Starts<'a> {
    /// Those of instructions that begin below a length.
    pub(crate) fn of(alloc: Global, len: usize, list: &'a [Instr]) -> Result<Starts<'a>, NoMemory>
        requires { All (λ i. i.at < len) list.now }
        ensures { IfOk result (λ starts. starts ≡ list.now) }
    {
        let mut marks = vec![in alloc; false; len]?;
        for instr in list {
            marks[instr.at as usize] = true;
        }
        Ok(Starts { list, marks })
    }

    /// Whether an instruction begins at an offset.
    fn contains(&self, at: u32) -> bool
        ensures { result ≡ is_start self.now at }
    {
        self.marks.get(at as usize).copied().unwrap_or(false)
    }

    /// Whether an instruction begins at each target of this one.
    pub(crate) fn has_targets_of(&self, instr: &Instr) -> bool
        ensures { result ≡ is_linked self.now instr.now }
    {
        match &instr.arg {
            Arg::Target(at) => self.contains(*at),
            Arg::Targets(targets) => targets.as_slice().iter().all(|at| self.contains(*at)),
            _ => true,
        }
    }
}
