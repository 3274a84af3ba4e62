//! The verifier.

ghost use Rattle.std.specs.Prelude.{◌≡◌, ◌≢◌, ◌≤◌, Some, None, IfErr, IfOk, option_copied, length};
ghost use Rattle.cil_decode.specs.Bodies.{IsBody};
ghost use Rattle.type_world.specs.Loading.{as_method, world_of};
ghost use Rattle.type_world.specs.Profile.{instrs_of, profile_method};
ghost use Rattle.cil_meaning.specs.Typing.{method_in_profile, stack_at, typing_of};
ghost use Rattle.cil_verify.specs.declared.verifier.VerifyRefusal.TheVariants as refusals;
ghost use Rattle.cil_verify.specs.Verified.{HasLeast, IsRefused, IsUntypedBy, Lacks, instrs_in, typing_in};

use crate::code::Code;
use crate::search::first_untyped;
use crate::stacks::Stacks;
use crate::typing::least_typing;
use cil_decode::{Instr, decode_body};
use cil_meaning::{
    Kind, rounds_find_the_least, rounds_find_typings, untyped_code_has_a_first_offset,
};
use rtr_bytes::NoMemory;
use std::alloc::Global;
use std::marker::Model;
use thiserror::Error;
use type_world::{MethodId, ProfileMethod, World, codes_are_instructions};

/// Why a method has no typing.
#[derive(Clone, Copy, Debug, Drop, PartialEq, Eq, Error)]
pub enum VerifyRefusal {
    /// A condition of the profile other than verifying fails.
    #[error("not in the profile")]
    NotInProfile,
    /// There is no typing. The offset is the least one of an instruction such that there is none even where each later instruction
    /// ends the run.
    #[error("no typing up to {0}")]
    NoTyping(u32),
    /// Memory was refused.
    #[error("no memory")]
    NoMemory,
}

impl From<NoMemory> for VerifyRefusal {
    ghost from_gives = { λ _ e. e ≡ refusals.NoMemory };

    fn from(_e: NoMemory) -> VerifyRefusal {
        VerifyRefusal::NoMemory
    }
}

/// A method that verifies: its instructions, and the types on the stack at each offset that is reached.
#[derive(Drop)]
pub struct Typed {
    method: MethodId,
    instrs: Vec<Instr>,
    stacks: Stacks,
}

impl Model for Typed {
    ghost use Rattle.cil_verify.specs.Verified.{Verified};

    ghost Value = { Verified };

    ghost view = { λ t. record { method = t.method; instrs = t.instrs.items; typing = t.stacks } };
}

impl Typed {
    /// Which method it is.
    pub fn method(&self) -> MethodId
        ensures { result ≡ self.now.method }
    {
        self.method
    }

    /// Its instructions, in their order.
    pub fn instrs(&self) -> &[Instr]
        ensures { result.now ≡ self.now.instrs }
    {
        self.instrs.as_slice()
    }

    /// The types on the stack before the instruction at an offset; the first one is the top's. `None` exactly where the offset isn't
    /// reached. It takes constant time.
    pub fn stack_at(&self, offset: u32) -> Option<&[Kind]>
        ensures { option_copied result ≡ stack_at self.now.typing offset }
    {
        self.stacks.stack_at(offset)
    }
}

/// The typing of a method with the instructions of its code.
fn stacks_of(
    alloc: Global,
    world: &World,
    method: &ProfileMethod<'_>,
    instrs: &[Instr],
) -> Result<Stacks, VerifyRefusal>
    requires body { IsBody method.now.code.now instrs.now }
    requires small { length method.now.code.now ≤ 65536 }
    ensures instrs { instrs_of method.now.code.now ≡ Some instrs.now }
    ensures typing { IfOk result (λ stacks. typing_of (world_of world.now) (as_method method.now) ≡ Some stacks) }
    ensures untyped { IfErr result (IsUntypedBy (world_of world.now) (as_method method.now)) }
{
    codes_are_instructions();
    untyped_code_has_a_first_offset();
    let code = Code::new(alloc, world, method, instrs)?;
    match least_typing(alloc, &code, method.code.len() as u32)? {
        Some(stacks) => Ok(stacks),
        None => Err(VerifyRefusal::NoTyping(first_untyped(alloc, method.code, &code)?)),
    }
}

/// The typing of a method of a world, or why there is none.
fn typed_or_refused(alloc: Global, world: &World, m: MethodId) -> Result<Typed, VerifyRefusal>
    ensures method { IfOk result (λ typed. typed.method ≡ m) }
    ensures instrs { IfOk result (λ typed. instrs_in (world_of world.now) m ≡ Some typed.instrs) }
    ensures typing { IfOk result (λ typed. typing_in (world_of world.now) m ≡ Some typed.typing) }
    ensures refused { IfErr result (IsRefused (world_of world.now) m) }
{
    let Some(method) = world.profile_method(m) else {
        return Err(VerifyRefusal::NotInProfile);
    };
    // The code of a method that meets the conditions has instructions, so nothing but memory can be missing.
    let Ok(instrs) = decode_body(alloc, method.code) else {
        return Err(VerifyRefusal::NoMemory);
    };
    let stacks = stacks_of(alloc, world, &method, &instrs)?;
    Ok(Typed {
        method: m,
        instrs,
        stacks,
    })
}

/// The typing of a method (ECMA-335 III.1.8.1). It is the least one: it has exactly the offsets that are reached, and its stacks fit those
/// of every typing. Where flows meet, references widen to their nearest common base (III.1.8.1.3). `NotInProfile` comes exactly where a
/// condition of the profile other than verifying fails; else `NoTyping` comes exactly where there is no typing, with the least offset of
/// an instruction such that there is none even where each later instruction ends the run. `NoMemory` comes where memory is refused.
///
/// It takes time for each instruction in each round, and a round after which nothing changed is the last one; where there is no typing,
/// it does so again for each half.
pub fn verify(alloc: Global, world: &World, m: MethodId) -> Result<Typed, VerifyRefusal>
    ensures method { IfOk result (λ typed. typed.method ≡ m) }
    ensures instrs { IfOk result (λ typed. instrs_in (world_of world.now) m ≡ Some typed.instrs) }
    ensures typing { IfOk result (λ typed. typing_in (world_of world.now) m ≡ Some typed.typing) }
    ensures refused { IfErr result (IsRefused (world_of world.now) m) }
    // In the words of the laws of typings: it has the offsets that are reached, and its stacks fit those of every typing.
    ensures least { IfOk result (HasLeast (world_of world.now) m) }
    // There is none of the code, and none up to the offset, and there is one up to each earlier instruction.
    ensures untyped { IfErr result (Lacks (world_of world.now) m) }
    // So the method is in the profile exactly where it has a typing.
    ensures in_profile { IfOk result (λ typed. method_in_profile (world_of world.now) m ≡ profile_method (world_of world.now) m) }
    ensures outside { IfErr result (λ e. e ≢ refusals.NoMemory → method_in_profile (world_of world.now) m ≡ None) }
{
    rounds_find_the_least();
    rounds_find_typings();
    untyped_code_has_a_first_offset();
    typed_or_refused(alloc, world, m)
}
