//! Whether stacks are a typing.

ghost use Rattle.std.specs.Prelude.{◌≡◌, IfOk, drop, option_to_list};
ghost use Rattle.std.specs.List.{list_all};
ghost use Rattle.cil_decode.specs.Bodies.{targets_of};
ghost use Rattle.type_world.specs.Loading.{world_of};
ghost use Rattle.cil_meaning.specs.Typing.{Flows, stack_fits};
ghost use Rattle.cil_verify.specs.Flows.{offsets_after, onto, stack_after};
ghost use Rattle.cil_verify.specs.Subjects.{is_typing_of, keeps_in, least_of, meets_in, takes_in};

use crate::code::Code;
use crate::flow::{Flow, Leaves, depth_after};
use crate::rounds::settle;
use crate::stack::{kind_fits, stack_fits};
use crate::stacks::Stacks;
use crate::step::Step;
use cil_decode::Arg;
use cil_meaning::Kind;
use rtr_bytes::NoMemory;
use std::alloc::Global;
use type_world::World;

/// Whether a stack fits another one: some types of a stack are popped, and then one is pushed.
fn left_fits(
    world: &World,
    before: &[Kind],
    popped: usize,
    pushed: Option<Kind>,
    there: &[Kind],
) -> bool
    ensures { result ≡ stack_fits (world_of world.now) (onto pushed (drop popped before.now)) there.now }
{
    let under = &before[popped.min(before.len())..];
    let Some(kind) = pushed else {
        return stack_fits(world, under, there);
    };
    match there {
        [] => false,
        [first, rest @ ..] => kind_fits(world, kind, *first) && stack_fits(world, under, rest),
    }
}

/// Whether an instruction begins at an offset, and the stack there takes what an instruction leaves.
fn takes(code: &Code<'_>, stacks: &Stacks, before: &[Kind], leaves: Leaves, to: u32) -> bool
    ensures { result ≡ takes_in code.now stacks.now (stack_after leaves before.now) to }
{
    if !code.is_start(to) {
        return false;
    }
    match stacks.stack_at(to) {
        Some(there) => left_fits(code.world(), before, leaves.popped, leaves.pushed, there),
        None => false,
    }
}

/// The same of an offset, where there is one.
fn takes_some(
    code: &Code<'_>,
    stacks: &Stacks,
    before: &[Kind],
    leaves: Leaves,
    to: Option<u32>,
) -> bool
    ensures { result ≡ list_all (takes_in code.now stacks.now (stack_after leaves before.now)) (option_to_list to) }
{
    match to {
        Some(to) => takes(code, stacks, before, leaves, to),
        None => true,
    }
}

/// The same of each of some offsets.
fn takes_each(code: &Code<'_>, stacks: &Stacks, before: &[Kind], leaves: Leaves, to: &[u32]) -> bool
    ensures { result ≡ list_all (takes_in code.now stacks.now (stack_after leaves before.now)) to.now }
{
    for at in to {
        if !takes(code, stacks, before, leaves, *at) {
            return false;
        }
    }
    true
}

/// The same of each target of an operand.
fn takes_targets(
    code: &Code<'_>,
    stacks: &Stacks,
    before: &[Kind],
    leaves: Leaves,
    arg: &Arg,
) -> bool
    ensures { result ≡ list_all (takes_in code.now stacks.now (stack_after leaves before.now)) (targets_of arg.now) }
{
    match arg {
        Arg::Target(to) => takes(code, stacks, before, leaves, *to),
        Arg::Targets(targets) => takes_each(code, stacks, before, leaves, targets.as_slice()),
        _ => true,
    }
}

/// Whether what follows an instruction is so in the typing: its stack has at most MaxStack types, and fits each stack that follows.
fn keeps(code: &Code<'_>, stacks: &Stacks, before: &[Kind], leaves: Leaves, arg: &Arg) -> bool
    ensures { result ≡ keeps_in code.now stacks.now (Flows (stack_after leaves before.now) (offsets_after leaves arg.now)) }
{
    if depth_after(before, leaves) > code.method().max_stack as usize {
        return false;
    }
    if !takes_some(code, stacks, before, leaves, leaves.next) {
        return false;
    }
    !leaves.targets || takes_targets(code, stacks, before, leaves, arg)
}

/// Whether an instruction meets its rule, where it is reached.
fn meets_rule(code: &Code<'_>, last: u32, stacks: &Stacks, step: &Step<'_>) -> bool
    ensures { result ≡ meets_in code.now last stacks.now step.now }
{
    let Some(before) = stacks.stack_at(step.at()) else {
        return true;
    };
    match step.flow(code.world(), code.method(), last, before) {
        Flow::Untyped => false,
        Flow::Stops => true,
        Flow::Flows(leaves) => keeps(code, stacks, before, leaves, step.arg()),
    }
}

/// Whether stacks are a typing.
#[tactic(auto, unfolding(cil_meaning::specs::Typing::is_typing))]
fn is_typing(code: &Code<'_>, last: u32, stacks: &Stacks) -> bool
    ensures { result ≡ is_typing_of code.now last stacks.now }
{
    match stacks.stack_at(0) {
        Some([]) => all_meet(code, last, stacks),
        _ => false,
    }
}

/// Whether all instructions meet their rules.
fn all_meet(code: &Code<'_>, last: u32, stacks: &Stacks) -> bool
    ensures { result ≡ list_all (meets_in code.now last stacks.now) code.now.instrs }
{
    for step in code.steps() {
        if !meets_rule(code, last, stacks, step) {
            return false;
        }
    }
    true
}

/// The least typing. `None` exactly where there is none.
pub(crate) fn least_typing(
    alloc: Global,
    code: &Code<'_>,
    last: u32,
) -> Result<Option<Stacks>, NoMemory>
    ensures { IfOk result (λ found. found ≡ least_of code.now last) }
{
    match settle(alloc, code, last)? {
        None => Ok(None),
        Some(stacks) => {
            if is_typing(code, last, &stacks) {
                Ok(Some(stacks))
            } else {
                Ok(None)
            }
        }
    }
}
