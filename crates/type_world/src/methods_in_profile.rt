//! Which methods meet the conditions of the profile but that they verify.

ghost use Rattle.std.specs.Prelude.{◌≡◌, ◌≤◌, ◌^◌, true, length, IfOk};
ghost use Rattle.std.specs.Option.{option_and_then};
ghost use Rattle.metadata.specs.declared.schema.Table.TheVariants as tables;
ghost use Rattle.type_world.specs.Loading.{world_of};
ghost use Rattle.type_world.specs.Members.{class_of_method};
ghost use Rattle.type_world.specs.Profile.{is_generic, is_in_profile, locals_of, shape_in_profile};
ghost use Rattle.type_world.specs.Profiled.{as_body, few_locals, is_candidate, limited_locals, profile_locals, within_limits};

use crate::cil::{Cil, instrs_of};
use crate::classes_in_profile::Classes;
use crate::identity::MethodId;
use crate::place::Place;
use rtr_bytes::{NoMemory, Sequence};
use std::alloc::Global;

/// A method in the profile has at most so many locals.
const MAX_LOCALS: usize = 128;
/// Its MaxStack is at most this.
const MAX_STACK: u16 = 128;
/// Its code has at most so many bytes.
const MAX_CODE: usize = 0x1_0000;

/// Whether a body keeps the limits of the profile, and its code can be decoded.
fn is_within_limits(alloc: Global, cil: Cil<'_>, locals: &[Place]) -> Result<bool, NoMemory>
    requires { length cil.code.now ≤ 2 ^ 31 }
    ensures { IfOk result (λ within. within ≡ within_limits (as_body cil.entry) locals.now) }
{
    if cil.more || MAX_LOCALS < locals.len() {
        return Ok(false);
    }
    if MAX_STACK < cil.max_stack || MAX_CODE < cil.code.len() {
        return Ok(false);
    }
    Ok(instrs_of(alloc, cil.code)?.is_some())
}

impl Classes {
    /// Whether the type that declares a method is in the profile.
    fn has_class_in_profile(&self, method: MethodId) -> bool
        ensures { result ≡ is_in_profile (world_of self.now) (class_of_method (world_of self.now) method) }
    {
        match self.types().class_of_method(method) {
            Some(of) => self.type_in_profile(of),
            None => false,
        }
    }

    /// Whether a method meets the conditions on its rows: the type that declares it is in the profile, it isn't abstract, and it isn't generic.
    /// Whether it is generic is known.
    fn is_candidate(&self, method: MethodId, generic: bool) -> bool
        requires { generic ≡ is_generic (world_of self.now) method.asm tables.MethodDef method.row }
        ensures { result ≡ is_candidate (world_of self.now) method }
    {
        self.has_class_in_profile(method)
            && !self.types().assemblies().is_abstract(method)
            && !generic
    }

    /// The locals of a body that keeps the limits.
    fn few_locals(
        &self,
        alloc: Global,
        asm: u8,
        cil: Cil<'_>,
    ) -> Result<Option<Sequence<Place>>, NoMemory>
        requires { length cil.code.now ≤ 2 ^ 31 }
        ensures { IfOk result (λ locals. locals ≡ option_and_then (few_locals (as_body cil.entry)) (locals_of (world_of self.now) asm cil.entry.locals)) }
    {
        match self.types().locals_of(alloc, asm, cil.locals)? {
            Some(locals) => {
                if is_within_limits(alloc, cil, locals.as_slice())? {
                    Ok(Some(locals))
                } else {
                    Ok(None)
                }
            }
            None => Ok(None),
        }
    }

    /// The locals of a row of MethodDef whose body keeps the limits.
    fn limited_locals(
        &self,
        alloc: Global,
        method: MethodId,
    ) -> Result<Option<Sequence<Place>>, NoMemory>
        ensures { IfOk result (λ locals. locals ≡ limited_locals (world_of self.now) method) }
    {
        match self.types().assemblies().cil_of(method) {
            Some(cil) => self.few_locals(alloc, method.asm, cil),
            None => Ok(None),
        }
    }

    /// The locals of a method that meets each condition of the profile but that it verifies, where it has its shape in the profile.
    fn candidate_locals(
        &self,
        alloc: Global,
        method: MethodId,
        generic: bool,
    ) -> Result<Option<Sequence<Place>>, NoMemory>
        requires shaped { shape_in_profile (world_of self.now) method ≡ true }
        requires generic { generic ≡ is_generic (world_of self.now) method.asm tables.MethodDef method.row }
        ensures { IfOk result (λ locals. locals ≡ profile_locals (world_of self.now) method) }
    {
        if self.is_candidate(method, generic) {
            self.limited_locals(alloc, method)
        } else {
            Ok(None)
        }
    }

    /// The locals of a method that meets each condition of the profile but that it verifies. Whether it has its
    /// shape in the profile, and whether it is generic, is known.
    pub(crate) fn profile_locals(
        &self,
        alloc: Global,
        method: MethodId,
        has_shape: bool,
        generic: bool,
    ) -> Result<Option<Sequence<Place>>, NoMemory>
        requires shaped { has_shape ≡ shape_in_profile (world_of self.now) method }
        requires generic { generic ≡ is_generic (world_of self.now) method.asm tables.MethodDef method.row }
        ensures { IfOk result (λ locals. locals ≡ profile_locals (world_of self.now) method) }
    {
        if has_shape {
            self.candidate_locals(alloc, method, generic)
        } else {
            Ok(None)
        }
    }
}
