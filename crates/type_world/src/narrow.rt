//! The narrower profile: static methods of integers.

ghost use Rattle.std.specs.Prelude.{◌≡◌, ◌≤◌, ◌^◌, length, true, false, IfOk};
ghost use Rattle.std.specs.Option.{option_map_or};
ghost use Rattle.std.specs.List.{list_all};
ghost use Rattle.cli_assembly.specs.Assemblies.{body_of};
ghost use Rattle.type_world.specs.Loading.{world_of};
ghost use Rattle.type_world.specs.Profile.{are_narrow, instrs_of, is_narrow, is_narrow_body, is_narrow_instr, is_narrow_method, is_narrow_operation, is_narrow_place, is_narrow_shape, locals_of, profile_shape};
ghost use Rattle.type_world.specs.Profiled.{as_body};
ghost use Rattle.type_world.specs.World.{assembly_in};

use crate::cil::{Cil, instrs_of};
use crate::identity::{BUILT_IN, MethodId};
use crate::place::{Place, Shape};
use crate::types::Types;
use cil_decode::{Instr, Operation};
use rtr_bytes::NoMemory;
use std::alloc::Global;

/// Whether a place holds a number.
fn is_narrow_place(place: Place) -> bool
    ensures { result ≡ is_narrow_place place }
{
    matches!(place, Place::Integer(_))
}

/// Whether places hold numbers.
fn are_narrow(places: &[Place]) -> bool
    ensures { result ≡ are_narrow places.now }
{
    for place in places {
        if !is_narrow_place(*place) {
            return false;
        }
    }
    true
}

/// Whether a result is void or a number.
fn is_narrow_result(returned: Option<Place>) -> bool
    ensures { result ≡ option_map_or is_narrow_place returned true }
{
    match returned {
        Some(place) => is_narrow_place(place),
        None => true,
    }
}

/// Whether the arguments of a method and its result are numbers.
fn is_narrow_shape(shape: &Shape) -> bool
    ensures { result ≡ is_narrow_shape shape.now }
{
    are_narrow(shape.arguments.as_slice()) && is_narrow_result(shape.result)
}

/// Whether an operation needs no reference.
fn is_narrow_operation(operation: Operation) -> bool
    ensures { result ≡ is_narrow_operation operation }
{
    match operation {
        Operation::LoadNull
        | Operation::CallVirtual
        | Operation::LoadString
        | Operation::NewObject
        | Operation::CastClass
        | Operation::IsInstance
        | Operation::LoadField
        | Operation::StoreField
        | Operation::LoadStaticField
        | Operation::StoreStaticField
        | Operation::NewArray
        | Operation::LoadLength
        | Operation::LoadElement(_)
        | Operation::StoreElement(_) => false,
        _ => true,
    }
}

/// Whether an instruction needs no reference.
fn is_narrow_instr(instr: &Instr) -> bool
    ensures { result ≡ is_narrow_instr instr.now }
{
    match instr.operation() {
        Some(operation) => is_narrow_operation(operation),
        None => false,
    }
}

/// Whether instructions need no reference.
fn are_narrow_instrs(instrs: &[Instr]) -> bool
    ensures { result ≡ list_all is_narrow_instr instrs.now }
{
    for instr in instrs {
        if !is_narrow_instr(instr) {
            return false;
        }
    }
    true
}

/// Whether a code can be decoded, and its instructions need no reference.
fn is_narrow_code(alloc: Global, code: &[u8]) -> Result<bool, NoMemory>
    requires { length code.now ≤ 2 ^ 31 }
    ensures { IfOk result (λ narrow. narrow ≡ option_map_or (list_all is_narrow_instr) (instrs_of code.now) false) }
{
    match instrs_of(alloc, code)? {
        Some(instrs) => Ok(are_narrow_instrs(instrs.as_slice())),
        None => Ok(false),
    }
}

impl Types {
    /// Whether the locals of a body are numbers, by its LocalVarSigTok.
    fn has_narrow_locals(&self, alloc: Global, asm: u8, token: u32) -> Result<bool, NoMemory>
        ensures { IfOk result (λ narrow. narrow ≡ option_map_or are_narrow (locals_of (world_of self.now) asm token) false) }
    {
        match self.locals_of(alloc, asm, token)? {
            Some(locals) => Ok(are_narrow(locals.as_slice())),
            None => Ok(false),
        }
    }

    /// Whether the locals of a body are numbers and its instructions need no reference.
    fn is_narrow_body(&self, alloc: Global, asm: u8, cil: Cil<'_>) -> Result<bool, NoMemory>
        requires { length cil.code.now ≤ 2 ^ 31 }
        ensures { IfOk result (λ narrow. narrow ≡ is_narrow_body (world_of self.now) asm (as_body cil.entry)) }
    {
        if !self.has_narrow_locals(alloc, asm, cil.locals)? {
            return Ok(false);
        }
        is_narrow_code(alloc, cil.code)
    }

    /// The same of the body of a row of MethodDef; a row without CIL has nothing that needs a reference.
    fn has_narrow_body(&self, alloc: Global, method: MethodId) -> Result<bool, NoMemory>
        ensures { IfOk result (λ narrow. narrow ≡ option_map_or (is_narrow_body (world_of self.now) method.asm) (body_of (assembly_in (world_of self.now) method.asm) method.row) true) }
    {
        match self.assemblies().cil_of(method) {
            Some(cil) => self.is_narrow_body(alloc, method.asm, cil),
            None => Ok(true),
        }
    }

    /// Whether a row of MethodDef is static and its body needs no reference.
    fn is_narrow_method(&self, alloc: Global, method: MethodId) -> Result<bool, NoMemory>
        ensures { IfOk result (λ narrow. narrow ≡ is_narrow_method (world_of self.now) method) }
    {
        if !self.assemblies().is_static(method) {
            return Ok(false);
        }
        self.has_narrow_body(alloc, method)
    }

    /// Whether a method of a shape is in the narrower profile.
    #[tactic(auto, unfolding(crate::specs::Profile::is_narrow))]
    fn is_narrow(&self, alloc: Global, method: MethodId, shape: &Shape) -> Result<bool, NoMemory>
        ensures { IfOk result (λ narrow. narrow ≡ is_narrow (world_of self.now) method shape.now) }
    {
        if !is_narrow_shape(shape) {
            return Ok(false);
        }
        if method.asm == BUILT_IN {
            return Ok(true);
        }
        self.is_narrow_method(alloc, method)
    }

    /// The shape of a method whose shape is in the profile. `None` exactly for any other.
    #[tactic(auto, unfolding(crate::specs::Profile::profile_shape))]
    pub(crate) fn profile_shape(
        &self,
        alloc: Global,
        method: MethodId,
    ) -> Result<Option<Shape>, NoMemory>
        ensures { IfOk result (λ shape. shape ≡ profile_shape (world_of self.now) method) }
    {
        match self.shape_of(alloc, method)? {
            Some(shape) => {
                if self.is_narrow(alloc, method, &shape)? {
                    Ok(Some(shape))
                } else {
                    Ok(None)
                }
            }
            None => Ok(None),
        }
    }
}
