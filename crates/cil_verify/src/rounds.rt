//! The rounds over the instructions, of which the last changes nothing.

ghost use Rattle.std.specs.Prelude.{◌≡◌, drop, true, false, None, IfOk, IfNone, IfSome, OnOk, OnSome};
ghost use Rattle.cil_verify.specs.Flows.{onto};
ghost use Rattle.cil_verify.specs.Subjects.{NeverTyped, least_of, rounded, settled_of, too_deep, visited};

use crate::code::Code;
use crate::flow::{Flow, depth_after};
use crate::stacks::{Stacks, add_all};
use crate::step::Step;
use cil_meaning::Kind;
use rtr_bytes::NoMemory;
use std::alloc::Global;

/// Makes a stack from another one: some types are popped, and then one is pushed.
fn put_stack(
    stack: &mut Vec<Kind>,
    before: &[Kind],
    popped: usize,
    pushed: Option<Kind>,
) -> Result<(), NoMemory>
    ensures { OnOk result (stack.new.items ≡ onto pushed (drop popped before.now)) }
{
    stack.clear();
    if let Some(kind) = pushed {
        stack.push(kind)?;
    }
    if popped < before.len() {
        stack.extend_from_slice(&before[popped..])?;
    }
    Ok(())
}

/// Adds what follows an instruction, where it is reached. `after` is used for the stack after it. `None` where the instruction leaves
/// more types than MaxStack; `Some(false)` where nothing changed.
fn visit(
    alloc: Global,
    code: &Code<'_>,
    last: u32,
    step: &Step<'_>,
    stacks: &mut Stacks,
    after: &mut Vec<Kind>,
) -> Result<Option<bool>, NoMemory>
    ensures deep { IfOk result (λ outcome. IfNone outcome (too_deep code.now last stacks.old step.now ≡ true)) }
    ensures visited { IfOk result (λ outcome. OnSome outcome (stacks.new ≡ visited code.now last stacks.old step.now)) }
    ensures unchanged { IfOk result (λ outcome. IfSome outcome (λ changed. changed ≡ false → stacks.new ≡ stacks.old)) }
{
    let Some(before) = stacks.stack_at(step.at()) else {
        return Ok(Some(false));
    };
    let Flow::Flows(leaves) = step.flow(code.world(), code.method(), last, before) else {
        return Ok(Some(false));
    };
    if depth_after(before, leaves) > code.method().max_stack as usize {
        return Ok(None);
    }
    put_stack(after, before, leaves.popped, leaves.pushed)?;
    Ok(Some(add_all(alloc, code.world(), stacks, after, leaves, step.arg())?))
}

/// One round over all instructions. `None` where one leaves more types than MaxStack, so that there is no typing; `Some(false)` where
/// nothing changed.
fn round(
    alloc: Global,
    code: &Code<'_>,
    last: u32,
    stacks: &mut Stacks,
    after: &mut Vec<Kind>,
) -> Result<Option<bool>, NoMemory>
    ensures deep { IfOk result (λ outcome. IfNone outcome (NeverTyped code.now last (rounded code.now last stacks.old))) }
    ensures round { IfOk result (λ outcome. OnSome outcome (stacks.new ≡ rounded code.now last stacks.old)) }
    ensures unchanged { IfOk result (λ outcome. IfSome outcome (λ changed. changed ≡ false → stacks.new ≡ stacks.old)) }
{
    let mut changed = false;
    for step in code.steps() {
        match visit(alloc, code, last, step, stacks, after)? {
            None => return Ok(None),
            Some(now) => {
                if now {
                    changed = true;
                }
            }
        }
    }
    Ok(Some(changed))
}

/// What the rounds come to. `None` where an instruction leaves more types than MaxStack, so that there is no typing.
pub(crate) fn settle(alloc: Global, code: &Code<'_>, last: u32) -> Result<Option<Stacks>, NoMemory>
    ensures deep { IfOk result (λ found. IfNone found (least_of code.now last ≡ None)) }
    ensures settled { IfOk result (λ found. IfSome found (λ stacks. stacks ≡ settled_of code.now last)) }
{
    let mut stacks = Stacks::at_start(alloc)?;
    let mut after = Vec::new(alloc);
    for done in 0..code.rounds() {
        match round(alloc, code, last, &mut stacks, &mut after)? {
            None => return Ok(None),
            Some(changed) => {
                if !changed {
                    return Ok(Some(stacks));
                }
            }
        }
    }
    Ok(Some(stacks))
}
