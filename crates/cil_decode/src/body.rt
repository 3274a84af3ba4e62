//! A method's code as its instructions.

ghost use Rattle.std.specs.Prelude.{◌≡◌, ◌≤◌, ◌<◌, ◌^◌, List, None, All, length, IfOk, IfErr, OnOk};
ghost use Rattle.cil_decode.specs.declared.body.BodyRefusal.TheVariants as refusals;
ghost use Rattle.cil_decode.specs.declared.body.BodyRefusal.{BodyRefusal as Refusal};
ghost use Rattle.cil_decode.specs.declared.instr.Instr.{Instr as Instruction};
ghost use Rattle.cil_decode.specs.Bodies.{GivesBody, GivesRefusal, IsBody, IsCode, IsDecoded, IsRefused, IsUnlinkedBy, first_unlinked};

use crate::instr::Instr;
use crate::starts::Starts;
use rtr_bytes::NoMemory;
use std::alloc::{AllocError, AllocFailed, Global};
use thiserror::Error;

/// Why a code can't be decoded. Each but want of memory has the instruction's offset in the code, in bytes.
#[derive(Clone, Copy, Debug, PartialEq, Eq, Error)]
pub enum BodyRefusal {
    /// The instruction passes the end of the code.
    #[error("the instruction at {0} is cut")]
    Cut(u32),
    /// The instruction's opcode is outside the profile.
    #[error("the opcode at {0} is outside the profile")]
    OutOfProfile(u32),
    /// The instruction has a target at which no instruction begins.
    #[error("the instruction at {0} has a target that is no instruction")]
    BadTarget(u32),
    /// Memory was refused.
    #[error("out of memory")]
    NoMemory,
}

impl From<NoMemory> for BodyRefusal {
    ghost from_gives = { λ _ e. e ≡ refusals.NoMemory };

    fn from(_e: NoMemory) -> BodyRefusal {
        BodyRefusal::NoMemory
    }
}

impl<T: Drop> From<AllocFailed<T>> for BodyRefusal {
    ghost from_gives = { λ _ e. e ≡ refusals.NoMemory };

    fn from(_e: AllocFailed<T>) -> BodyRefusal {
        BodyRefusal::NoMemory
    }
}

impl From<AllocError> for BodyRefusal {
    ghost from_gives = { λ _ e. e ≡ refusals.NoMemory };

    fn from(_e: AllocError) -> BodyRefusal {
        BodyRefusal::NoMemory
    }
}

/// The instructions of a code that has bytes, whatever their targets are.
fn read_all(alloc: Global, code: &[u8]) -> Result<Vec<Instr>, BodyRefusal>
    requires { length code.now ≤ 2 ^ 31 }
    ensures code { IfOk result (λ list. IsCode code.now list.items) }
    ensures refused { IfErr result (λ e. IsRefused code.now e) }
{
    if code.is_empty() {
        return Err(BodyRefusal::Cut(0));
    }
    let mut list = Vec::new(alloc);
    let mut at = 0;
    'instructions: while (at as usize) < code.len() {
        let instr = Instr::read(alloc, code, at)?;
        at += instr.size();
        list.push(instr)?;
    }
    Ok(list)
}

/// Each target of the instructions, which begin below a length, is the offset of one of them.
fn check_targets(alloc: Global, len: usize, list: &[Instr]) -> Result<(), BodyRefusal>
    requires { All (λ i. i.at < len) list.now }
    ensures linked { OnOk result (first_unlinked list.now ≡ None) }
    ensures refused { IfErr result (λ e. IsUnlinkedBy (first_unlinked list.now) e) }
{
    let starts = Starts::of(alloc, len, list)?;
    for instr in list {
        if !starts.has_targets_of(instr) {
            return Err(BodyRefusal::BadTarget(instr.at));
        }
    }
    Ok(())
}

/// The instructions of a code, each with targets at which instructions begin.
fn read_linked(alloc: Global, code: &[u8]) -> Result<Vec<Instr>, BodyRefusal>
    requires { length code.now ≤ 2 ^ 31 }
    ensures body { IfOk result (λ list. IsBody code.now list.items) }
    ensures refused { IfErr result (λ e. IsRefused code.now e) }
{
    let list = read_all(alloc, code)?;
    check_targets(alloc, code.len(), &list)?;
    Ok(list)
}

/// The instructions of a method's code, which has at most 2^31 bytes (ECMA-335 III.1.7). The first instruction that
/// can't be read decides: `OutOfProfile` where its opcode is outside the profile, `Cut` where it passes the end, as FE
/// alone at the end does; empty code is `Cut(0)`. Where all can be read, `BadTarget` comes at the first with a target
/// at which no instruction begins. `NoMemory` comes where memory is refused.
pub fn decode_body(alloc: Global, code: &[u8]) -> Result<Vec<Instr>, BodyRefusal>
    requires { length code.now ≤ 2 ^ 31 }
    ensures body { IfOk result (λ list. IsBody code.now list.items) }
    // Such instructions can be encoded.
    ensures decoded { IfOk result (λ list. IsDecoded list.items) }
    ensures refused { IfErr result (λ e. IsRefused code.now e) }
    // There is one answer: the instructions that the code has, and the one refusal of a code that has none.
    ensures only_body { (list : List Instruction) → IsBody code.now list → GivesBody result list }
    ensures only_refusal { (e : Refusal) → IsRefused code.now e → GivesRefusal result e }
{
    read_linked(alloc, code)
}
