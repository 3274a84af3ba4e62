//! The first instruction up to which there is no typing.

ghost use Rattle.std.specs.Prelude.{◌≡◌, is_none, is_some, true, Some, IfOk};
ghost use Rattle.cil_decode.specs.Bodies.{IsCode};
ghost use Rattle.cil_verify.specs.Subjects.{first_of, least_of};

use crate::code::Code;
use crate::typing::least_typing;
use cil_meaning::{rounds_find_typings, untyped_code_has_a_first_offset};
use rtr_bytes::NoMemory;
use std::alloc::Global;

/// Whether there is no typing, where each instruction after a last offset ends the run.
fn is_untyped(alloc: Global, code: &Code<'_>, last: u32) -> Result<bool, NoMemory>
    ensures { IfOk result (λ untyped. untyped ≡ is_none (least_of code.now last)) }
{
    Ok(least_typing(alloc, code, last)?.is_none())
}

/// The offset of the first instruction up to which there is no typing, by halves: `bytes` is the code, which has such an instruction.
pub(crate) fn first_untyped(alloc: Global, bytes: &[u8], code: &Code<'_>) -> Result<u32, NoMemory>
    requires code { IsCode bytes.now code.now.instrs }
    requires some { is_some (first_of code.now) ≡ true }
    ensures { IfOk result (λ k. first_of code.now ≡ Some k) }
{
    rounds_find_typings();
    untyped_code_has_a_first_offset();
    let steps = code.steps();
    let mut low = 0;
    let mut high = steps.len();
    while low < high {
        let middle = low + (high - low) / 2;
        if is_untyped(alloc, code, steps[middle].at())? {
            high = middle;
        } else {
            low = middle + 1;
        }
    }
    Ok(steps[low].at())
}
