//! The shapes of methods by their signatures.

ghost use Rattle.std.specs.Prelude.{◌≡◌, ◌≤◌, ◌<◌, [], true, false, Some, IfOk};
ghost use Rattle.std.specs.Option.{option_map};
ghost use Rattle.cli_assembly.specs.Signatures.{method_sig};
ghost use Rattle.type_world.specs.Loading.{world_of};
ghost use Rattle.type_world.specs.Members.{BuiltIn, built_in, write_line};
ghost use Rattle.type_world.specs.Profiled.{listed};
ghost use Rattle.type_world.specs.Profile.{few_arguments, locals_of, result_of, shape_by, shape_of, shape_with, this_of, with_this};

use crate::identity::{BUILT_IN, MethodId, TypeId};
use crate::place::{Place, Shape};
use crate::types::Types;
use cli_assembly::{Elem, MethodSig, TypeSig};
use rtr_bytes::{NoMemory, Sequence};
use std::alloc::Global;

/// A method has at most so many arguments, `this` included.
const MAX_ARGUMENTS: usize = 16;

/// A static method without a result, of at most one parameter.
fn static_sig(alloc: Global, param: Option<TypeSig>) -> Result<MethodSig, NoMemory>
    ensures { IfOk result (λ sig. sig ≡ method_sig false TypeSig.Void (listed param)) }
{
    let mut params = Vec::new(alloc);
    if let Some(param) = param {
        params.push(param)?;
    }
    Ok(MethodSig {
        has_this: false,
        params: Sequence::from_vec(params),
        ret: TypeSig::Void,
    })
}

/// A method with `this` and no parameter.
fn of_this(alloc: Global, ret: TypeSig) -> MethodSig
    ensures { result ≡ method_sig true ret [] }
{
    MethodSig {
        has_this: true,
        params: Sequence::from_vec(Vec::new(alloc)),
        ret,
    }
}

/// The parameter of `System.Console::WriteLine` at a row of the built-in methods; none at row 2.
fn written(row: u32) -> Option<TypeSig>
    requires low { 2 ≤ row }
    requires high { row < 8 }
    ensures { Some (write_line (listed result)) ≡ built_in row }
{
    if row < 3 {
        None
    } else if row < 4 {
        Some(TypeSig::Int(Elem::I4))
    } else if row < 5 {
        Some(TypeSig::Int(Elem::U4))
    } else if row < 6 {
        Some(TypeSig::Int(Elem::I8))
    } else if row < 7 {
        Some(TypeSig::Int(Elem::U8))
    } else {
        Some(TypeSig::Str)
    }
}

/// The signature of a built-in method, by its row from 1. `None` exactly where there is no such row.
fn built_in_sig(alloc: Global, row: u32) -> Result<Option<MethodSig>, NoMemory>
    ensures { IfOk result (λ sig. sig ≡ option_map (λ (b : BuiltIn). b.sig) (built_in row)) }
{
    if row < 1 {
        Ok(None)
    } else if row < 2 {
        Ok(Some(of_this(alloc, TypeSig::Void)))
    } else if row < 8 {
        Ok(Some(static_sig(alloc, written(row))?))
    } else if row < 9 {
        Ok(Some(of_this(alloc, TypeSig::Int(Elem::I4))))
    } else {
        Ok(None)
    }
}

/// A shape that has not too many arguments.
fn few_arguments(shape: Shape) -> Option<Shape>
    ensures { result ≡ few_arguments shape }
{
    if shape.arguments.len() <= MAX_ARGUMENTS {
        Some(shape)
    } else {
        None
    }
}

impl Types {
    /// What `this` of a method is: a reference to the type that declares it.
    fn this_of(&self, method: MethodId) -> Place
        ensures { result ≡ this_of (world_of self.now) method }
    {
        match self.class_of_method(method) {
            Some(of) => Place::Reference(of),
            None => Place::Reference(TypeId::Object),
        }
    }

    /// `this` of a method that has it.
    fn first_argument(
        &self,
        alloc: Global,
        method: MethodId,
        has_this: bool,
    ) -> Result<Vec<Place>, NoMemory>
        ensures { IfOk result (λ places. places.items ≡ with_this (world_of self.now) method has_this []) }
    {
        let mut places = Vec::new(alloc);
        if has_this {
            places.push(self.this_of(method))?;
        }
        Ok(places)
    }

    /// What a result holds: none for void, and `None` where its type is outside the profile.
    fn result_of(&self, asm: u8, ret: TypeSig) -> Option<Option<Place>>
        ensures { result ≡ result_of (world_of self.now) asm ret }
    {
        match ret {
            TypeSig::Void => Some(None),
            _ => match self.place_of(asm, ret) {
                Some(place) => Some(Some(place)),
                None => None,
            },
        }
    }

    /// The shape of a method by the parameters of its signature and by what its result holds.
    fn shape_with(
        &self,
        alloc: Global,
        method: MethodId,
        sig: &MethodSig,
        returned: Option<Place>,
    ) -> Result<Option<Shape>, NoMemory>
        ensures { IfOk result (λ shape. shape ≡ shape_with (world_of self.now) method sig.now returned) }
    {
        let first = self.first_argument(alloc, method, sig.has_this)?;
        match self.then_places(method.asm, sig.params.as_slice(), first)? {
            Some(arguments) => Ok(few_arguments(Shape {
                arguments,
                result: returned,
            })),
            None => Ok(None),
        }
    }

    /// The shape of a method by its signature.
    fn shape_by(
        &self,
        alloc: Global,
        method: MethodId,
        sig: &MethodSig,
    ) -> Result<Option<Shape>, NoMemory>
        ensures { IfOk result (λ shape. shape ≡ shape_by (world_of self.now) method sig.now) }
    {
        match self.result_of(method.asm, sig.ret) {
            Some(returned) => self.shape_with(alloc, method, sig, returned),
            None => Ok(None),
        }
    }

    /// The shape of a built-in method.
    fn built_in_shape(&self, alloc: Global, method: MethodId) -> Result<Option<Shape>, NoMemory>
        requires { method.asm ≡ BUILT_IN }
        ensures { IfOk result (λ shape. shape ≡ shape_of (world_of self.now) method) }
    {
        match built_in_sig(alloc, method.row)? {
            Some(sig) => self.shape_by(alloc, method, &sig),
            None => Ok(None),
        }
    }

    /// The shape of a method: `None` exactly where there is no such method, it has no signature of the form, one of its types is outside the
    /// profile, or it has more than 16 arguments, `this` included.
    #[tactic(auto, unfolding(crate::specs::Profile::shape_of, crate::specs::Members::signature_of))]
    pub(crate) fn shape_of(
        &self,
        alloc: Global,
        method: MethodId,
    ) -> Result<Option<Shape>, NoMemory>
        ensures { IfOk result (λ shape. shape ≡ shape_of (world_of self.now) method) }
    {
        if method.asm == BUILT_IN {
            return self.built_in_shape(alloc, method);
        }
        match self.assemblies().row_signature(method.asm, method.row) {
            Some(sig) => self.shape_by(alloc, method, sig),
            None => Ok(None),
        }
    }

    /// What the locals of a body hold, by its LocalVarSigTok. `None` exactly where the token is not 0 and names no locals, or where one of
    /// their types is outside the profile.
    pub(crate) fn locals_of(
        &self,
        alloc: Global,
        asm: u8,
        token: u32,
    ) -> Result<Option<Sequence<Place>>, NoMemory>
        ensures { IfOk result (λ locals. locals ≡ locals_of (world_of self.now) asm token) }
    {
        if token == 0 {
            return Ok(Some(Sequence::from_vec(Vec::new(alloc))));
        }
        match self.assemblies().local_types(asm, token) {
            Some(sigs) => self.places_of(alloc, asm, sigs),
            None => Ok(None),
        }
    }
}
