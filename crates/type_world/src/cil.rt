//! The CIL of a method, and its instructions.

ghost use Rattle.std.specs.Prelude.{◌≡◌, ◌≤◌, ◌^◌, length, option_copied, IfOk, IfSome};
ghost use Rattle.std.specs.Option.{option_map};
ghost use Rattle.cli_assembly.specs.Assemblies.{assembly_of, body_of, local_signature};
ghost use Rattle.type_world.specs.Profiled.{as_body};
ghost use Rattle.type_world.specs.Loading.{world_of};
ghost use Rattle.type_world.specs.Profile.{instrs_of, local_types};
ghost use Rattle.type_world.specs.World.{assembly_in};

use crate::assemblies::Assemblies;
use crate::identity::MethodId;
use crate::laws::codes_are_instructions;
use cil_decode::{BodyRefusal, Instr, decode_body};
use cli_assembly::{Assembly, TypeSig};
use metadata::Table;
use rtr_bytes::{NoMemory, Sequence};
use std::alloc::Global;

/// The CIL of a method (ECMA-335 II.25.4), with the bytes of its code.
#[derive(Clone, Copy)]
pub(crate) struct Cil<'a> {
    /// MaxStack.
    pub(crate) max_stack: u16,
    /// LocalVarSigTok: 0 for no locals.
    pub(crate) locals: u32,
    /// The code.
    pub(crate) code: &'a [u8],
    /// MoreSects: more sections follow the code.
    pub(crate) more: bool,
}

/// The CIL of a row of MethodDef of an assembly.
fn cil_in(assembly: &Assembly, row: u32) -> Option<Cil<'_>>
    ensures cil { option_map as_body result ≡ body_of (assembly_of assembly.now) row }
    ensures small { IfSome result (λ cil. length cil.code.now ≤ 2 ^ 31) }
{
    let body = assembly.body(row)?;
    let start = body.code.start as usize;
    let bytes = assembly.bytes();
    Some(Cil {
        max_stack: body.max_stack,
        locals: body.locals,
        code: &bytes[start..start + body.code.len as usize],
        more: body.more,
    })
}

/// The instructions of a code. `None` exactly where it can't be decoded.
pub(crate) fn instrs_of(alloc: Global, code: &[u8]) -> Result<Option<Sequence<Instr>>, NoMemory>
    requires { length code.now ≤ 2 ^ 31 }
    ensures { IfOk result (λ instrs. instrs ≡ instrs_of code.now) }
{
    codes_are_instructions();
    match decode_body(alloc, code) {
        Ok(instrs) => Ok(Some(Sequence::from_vec(instrs))),
        Err(BodyRefusal::NoMemory) => Err(NoMemory),
        Err(_) => Ok(None),
    }
}

impl Assemblies {
    /// The CIL of a method. `None` exactly where there is no such row of MethodDef, its RVA is 0, or its low three ImplFlags are not 0.
    pub(crate) fn cil_of(&self, method: MethodId) -> Option<Cil<'_>>
        ensures cil { option_map as_body result ≡ body_of (assembly_in (world_of self.now) method.asm) method.row }
        ensures small { IfSome result (λ cil. length cil.code.now ≤ 2 ^ 31) }
    {
        match self.assembly(method.asm) {
            Some(assembly) => cil_in(assembly, method.row),
            None => None,
        }
    }

    /// The types of the locals of a row of StandAloneSig.
    fn local_sig(&self, asm: u8, row: u32) -> Option<&[TypeSig]>
        ensures { option_copied result ≡ local_signature (assembly_in (world_of self.now) asm) row }
    {
        match self.assembly(asm) {
            Some(assembly) => assembly.local_sig(row),
            None => None,
        }
    }

    /// The types of the locals that a token of StandAloneSig names. `None` exactly where it names none.
    pub(crate) fn local_types(&self, asm: u8, token: u32) -> Option<&[TypeSig]>
        ensures { option_copied result ≡ local_types (world_of self.now) asm token }
    {
        match self.row_of(Table::StandAloneSig, asm, token) {
            Some(row) => self.local_sig(asm, row),
            None => None,
        }
    }
}
