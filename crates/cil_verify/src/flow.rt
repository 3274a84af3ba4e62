//! What follows an instruction.

ghost use Rattle.std.specs.Prelude.{◌≡◌, [], ◌∷◌, List, drop, length};
ghost use Rattle.cil_decode.specs.declared.instr.Arg.{Arg as Argument};
ghost use Rattle.cil_meaning.specs.declared.kind.Kind.{Kind as Typed};
ghost use Rattle.cil_meaning.specs.Typing.{Flows};
ghost use Rattle.cil_verify.specs.Flows.{as_flow, onto, stack_after};

use cil_meaning::Kind;

/// The stack after an instruction, by the one before it, and the offsets that follow.
#[derive(Clone, Copy)]
pub(crate) struct Leaves {
    /// How many types are popped.
    pub(crate) popped: usize,
    /// The type that is then pushed, where there is one.
    pub(crate) pushed: Option<Kind>,
    /// The offset of the next instruction, where it can follow.
    pub(crate) next: Option<u32>,
    /// Whether the targets of the operand can follow.
    pub(crate) targets: bool,
}

/// What follows an instruction at a stack.
#[derive(Clone, Copy)]
pub(crate) enum Flow {
    /// It has no typing.
    Untyped,
    /// No instruction: it returns, or ends the run.
    Stops,
    /// Other instructions.
    Flows(Leaves),
}

/// The next instruction, with a stack.
pub(crate) fn goes_on(next: u32, popped: usize, pushed: Option<Kind>) -> Flow
    ensures { (arg : Argument) (stack : List Typed) → as_flow result arg stack ≡ Flows (onto pushed (drop popped stack)) (next ∷ []) }
{
    Flow::Flows(Leaves {
        popped,
        pushed,
        next: Some(next),
        targets: false,
    })
}

/// How many types an instruction leaves on a stack.
pub(crate) fn depth_after(before: &[Kind], leaves: Leaves) -> usize
    ensures { result ≡ length (stack_after leaves before.now) }
{
    let under = before.len().saturating_sub(leaves.popped);
    match leaves.pushed {
        Some(_) => under + 1,
        None => under,
    }
}
