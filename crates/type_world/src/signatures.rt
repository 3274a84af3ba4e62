//! When the signatures of two methods are equal: they have one shape, and their classes resolve to the same types (ECMA-335 II.23.2).
//! A type outside the profile, and a class that doesn't resolve, equal none.

ghost use Rattle.std.specs.Prelude.{◌≡◌, ℕ};
ghost use Rattle.std.specs.Cmp.Lexicographic.{pointwise};
ghost use Rattle.cli_assembly.specs.declared.signature.TypeSig.TheVariants as sigs;
ghost use Rattle.type_world.specs.declared.identity.TypeId.TheVariants as types;
ghost use Rattle.type_world.specs.BuiltIns.{as_built_in};
ghost use Rattle.type_world.specs.Loading.{world_of};
ghost use Rattle.type_world.specs.Members.{bool_eq, same_class, same_signature, same_type};
ghost use Rattle.type_world.specs.Resolution.{elem_eq, type_eq};
ghost use Rattle.type_world.specs.World.{World};

use crate::built_in::BuiltInMethod;
use crate::identity::{BUILT_IN, TypeId};
use crate::types::Types;
use cli_assembly::{Elem, MethodSig, TypeSig};

/// Whether two flags are equal.
pub(crate) fn same_flag(flag: bool, other: bool) -> bool
    ensures { result ≡ bool_eq flag other }
{
    if flag { other } else { !other }
}

/// Whether two integer types are equal.
fn same_elem(of: Elem, other: Elem) -> bool
    ensures { result ≡ elem_eq of other }
{
    of.number() == other.number()
}

/// Whether a type is the class of a row.
fn is_class(of: TypeId, asm: u8, row: u32) -> bool
    ensures { result ≡ type_eq (types.Class asm row) of }
{
    match of {
        TypeId::Class(other, at) => asm == other && row == at,
        _ => false,
    }
}

/// Whether a type is the array of an integer type.
fn is_array(of: TypeId, elem: Elem) -> bool
    ensures { result ≡ type_eq (types.Array elem) of }
{
    match of {
        TypeId::Array(other) => same_elem(elem, other),
        _ => false,
    }
}

/// Whether two types are equal.
pub(crate) fn same_id(of: TypeId, other: TypeId) -> bool
    ensures { result ≡ type_eq of other }
{
    match of {
        TypeId::Object => matches!(other, TypeId::Object),
        TypeId::Str => matches!(other, TypeId::Str),
        TypeId::Console => matches!(other, TypeId::Console),
        TypeId::Array(elem) => is_array(other, elem),
        TypeId::Class(asm, row) => is_class(other, asm, row),
    }
}

/// Whether two classes resolve, to one type.
pub(crate) fn same_class(of: Option<TypeId>, other: Option<TypeId>) -> bool
    ensures { result ≡ same_class of other }
{
    match of {
        Some(of) => match other {
            Some(other) => same_id(of, other),
            None => false,
        },
        None => false,
    }
}

/// Whether a type of a signature is an integer type.
fn is_int(at: TypeSig, elem: Elem) -> bool
    ensures { (world : World) (asm other : ℕ) → result ≡ same_type world asm other (sigs.Int elem) at }
{
    match at {
        TypeSig::Int(other) => same_elem(elem, other),
        _ => false,
    }
}

/// Whether a type of a signature is the array of an integer type.
fn is_array_sig(at: TypeSig, elem: Elem) -> bool
    ensures { (world : World) (asm other : ℕ) → result ≡ same_type world asm other (sigs.Array elem) at }
{
    match at {
        TypeSig::Array(other) => same_elem(elem, other),
        _ => false,
    }
}

impl Types {
    /// Whether a class of a signature in one assembly is a type of a signature in another one.
    fn is_class_sig(&self, asm: u8, token: u32, other: u8, at: TypeSig) -> bool
        ensures { result ≡ same_type (world_of self.now) asm other (sigs.Class token) at }
    {
        match at {
            TypeSig::Class(at) => same_class(
                self.resolve_type(asm, token),
                self.resolve_type(other, at),
            ),
            _ => false,
        }
    }

    /// Whether a type of a signature in one assembly equals a type of a signature in another one.
    fn same_type(&self, asm: u8, of: TypeSig, other: u8, at: TypeSig) -> bool
        ensures { result ≡ same_type (world_of self.now) asm other of at }
    {
        match of {
            TypeSig::Void => matches!(at, TypeSig::Void),
            TypeSig::Int(elem) => is_int(at, elem),
            TypeSig::Str => matches!(at, TypeSig::Str),
            TypeSig::Object => matches!(at, TypeSig::Object),
            TypeSig::Class(token) => self.is_class_sig(asm, token, other, at),
            TypeSig::Array(elem) => is_array_sig(at, elem),
            TypeSig::Outside => false,
        }
    }

    /// Whether the parameters of two signatures are equal, one by one.
    fn same_params(&self, asm: u8, params: &[TypeSig], other: u8, at: &[TypeSig]) -> bool
        ensures { result ≡ pointwise (same_type (world_of self.now) asm other) params.now at.now }
    {
        if params.len() != at.len() {
            return false;
        }
        for i in 0..params.len() {
            if !self.same_type(asm, params[i], other, at[i]) {
                return false;
            }
        }
        true
    }

    /// Whether a signature in one assembly equals a signature in another one.
    #[tactic(auto, unfolding(crate::specs::Members::same_signature))]
    pub(crate) fn same_signature(&self, asm: u8, sig: &MethodSig, other: u8, at: &MethodSig) -> bool
        ensures { result ≡ same_signature (world_of self.now) asm sig.now other at.now }
    {
        same_flag(sig.has_this, at.has_this)
            && self.same_type(asm, sig.ret, other, at.ret)
            && self.same_params(asm, sig.params.as_slice(), other, at.params.as_slice())
    }

    /// Whether a signature in an assembly equals that of a built-in method.
    #[tactic(auto, unfolding(crate::specs::Members::same_signature))]
    pub(crate) fn same_built_in(&self, asm: u8, sig: &MethodSig, at: BuiltInMethod) -> bool
        ensures { result ≡ same_signature (world_of self.now) asm sig.now BUILT_IN (as_built_in at).sig }
    {
        same_flag(sig.has_this, at.has_this)
            && self.same_type(asm, sig.ret, BUILT_IN, at.ret)
            && self.same_params(asm, sig.params.as_slice(), BUILT_IN, at.params)
    }
}
