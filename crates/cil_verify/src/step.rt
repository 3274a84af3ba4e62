//! An instruction with what the rounds ask of it.

ghost use Rattle.std.specs.Prelude.{◌≡◌, ◌+◌, ◌<◌, ◌≤◌, ◌^◌, length, IfOk, get_or};
ghost use Rattle.cil_decode.specs.Bodies.{IsCode};
ghost use Rattle.cil_decode.specs.Instructions.{instr_size};
ghost use Rattle.cil_decode.specs.declared.instr.Instr.{Instr as Instruction};
ghost use Rattle.type_world.specs.Loading.{as_method, world_of};
ghost use Rattle.cil_meaning.specs.Typing.{flow_at};
ghost use Rattle.cil_verify.specs.Flows.{as_flow};

use crate::flow::Flow;
use crate::rule::Rule;
use cil_decode::{Arg, Instr, Operation};
use cil_meaning::Kind;
use rtr_bytes::NoMemory;
use std::alloc::Global;
use std::marker::Model;
use type_world::{ProfileMethod, World};

/// An instruction, with its operation and the offset after it. Contracts see the instruction.
#[derive(Drop)]
pub(crate) struct Step<'a> {
    instr: &'a Instr,
    operation: Option<Operation>,
    next: u32,
}

impl<'a> Model for Step<'a> {
    ghost use Rattle.std.specs.Prelude.{◌≡◌, ◌+◌};
    ghost use Rattle.cil_decode.specs.declared.instr.Instr.{Instr};
    ghost use Rattle.cil_decode.specs.Operations.{operation_of};
    ghost use Rattle.cil_decode.specs.Instructions.{instr_size};

    ghost Value = { Instr };

    ghost view = { λ s. s.instr.now };

    ghost invariant = { λ s. (s.operation ≡ operation_of s.instr.now) × (s.next ≡ s.instr.now.at + instr_size s.instr.now) };
}

impl<'a> Step<'a> {
    /// An instruction, with the offset after it.
    fn new(instr: &'a Instr, next: u32) -> Step<'a>
        requires { next ≡ instr.now.at + instr_size instr.now }
        ensures { result ≡ instr.now }
    {
        Step {
            instr,
            operation: instr.operation(),
            next,
        }
    }

    /// Its offset.
    pub(crate) fn at(&self) -> u32
        ensures { result ≡ self.now.at }
    {
        self.instr.at
    }

    /// Its operand.
    pub(crate) fn arg(&self) -> &Arg
        ensures { result.now ≡ self.now.arg }
    {
        &self.instr.arg
    }

    /// What follows it at a stack, where each instruction after a last offset ends the run.
    #[tactic(auto, unfolding(cil_meaning::specs::Typing::flow_at))]
    pub(crate) fn flow(
        &self,
        world: &World,
        method: &ProfileMethod<'_>,
        last: u32,
        stack: &[Kind],
    ) -> Flow
        ensures { as_flow result self.now.arg stack.now ≡ flow_at (world_of world.now) (as_method method.now) last self.now stack.now }
    {
        if last < self.instr.at {
            return Flow::Stops;
        }
        let Some(operation) = self.operation else {
            return Flow::Untyped;
        };
        let rule = Rule {
            world,
            method,
            next: self.next,
        };
        rule.flow(operation, &self.instr.arg, stack)
    }
}

/// The offset after an instruction: that of the next one, or the end of the code.
fn offset_after(code: &[u8], instrs: &[Instr], k: usize) -> u32
    requires code { IsCode code.now instrs.now }
    requires small { length code.now ≤ 2 ^ 31 }
    requires within { k < length instrs.now }
    ensures { (i : Instruction) → result ≡ (get_or instrs.now k i).at + instr_size (get_or instrs.now k i) }
{
    match instrs.get(k + 1) {
        Some(following) => following.at,
        None => code.len() as u32,
    }
}

/// The instructions of a code.
pub(crate) fn steps_of<'a>(
    alloc: Global,
    code: &[u8],
    instrs: &'a [Instr],
) -> Result<Vec<Step<'a>>, NoMemory>
    requires code { IsCode code.now instrs.now }
    requires small { length code.now ≤ 2 ^ 31 }
    ensures { IfOk result (λ steps. steps.items ≡ instrs.now) }
{
    let mut steps = Vec::with_capacity(alloc, instrs.len())?;
    for (k, instr) in instrs.iter().enumerate() {
        steps.push(Step::new(instr, offset_after(code, instrs, k)))?;
    }
    Ok(steps)
}
