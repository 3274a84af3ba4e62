//! What the tokens of a world name, and which types and methods are in the profile. All is resolved as the world is made; no call takes
//! memory, and none goes through a table.

ghost use Rattle.std.specs.Prelude.{◌≡◌, option_copied};
ghost use Rattle.std.specs.Option.{option_map};
ghost use Rattle.type_world.specs.Loading.{as_method, world_of};
ghost use Rattle.type_world.specs.Resolution.{fits, resolve_type};
ghost use Rattle.type_world.specs.Members.{class_of_method, resolve_method};
ghost use Rattle.type_world.specs.Profile.{profile_method, profile_shape, shape_in_profile, type_in_profile};
ghost use Rattle.type_world.specs.Resolution.{common_base};

use crate::identity::{MethodId, TypeId};
use crate::place::{Place, Shape};
use crate::world::World;

/// A method that meets each condition of the profile but that it verifies.
#[derive(Clone, Copy)]
pub struct ProfileMethod<'a> {
    /// Which one it is.
    pub id: MethodId,
    /// Its arguments and its result.
    pub shape: &'a Shape,
    /// Its locals, of which there are at most 128.
    pub locals: &'a [Place],
    /// MaxStack: at most 128.
    pub max_stack: u16,
    /// Its code: at most 65,536 bytes.
    pub code: &'a [u8],
}

impl World {
    /// The type that a token of an assembly names: a TypeDef, or a TypeRef that resolves. `None` exactly where it names none.
    pub fn resolve_type(&self, asm: u8, token: u32) -> Option<TypeId>
        ensures { result ≡ resolve_type (world_of self.now) asm token }
    {
        self.types().resolve_type(asm, token)
    }

    /// The method that a token of an assembly names: a MethodDef, or a MemberRef that resolves. `None` exactly where it names none.
    pub fn resolve_method(&self, asm: u8, token: u32) -> Option<MethodId>
        ensures { result ≡ resolve_method (world_of self.now) asm token }
    {
        self.methods().resolve_method(asm, token)
    }

    /// The type that declares a method. `None` exactly where no type's list has its row, and where there is no such built-in method.
    pub fn class_of_method(&self, method: MethodId) -> Option<TypeId>
        ensures { result ≡ class_of_method (world_of self.now) method }
    {
        self.types().class_of_method(method)
    }

    /// Whether a reference to an object of one type fits another type.
    pub fn fits(&self, from: TypeId, to: TypeId) -> bool
        ensures { result ≡ fits (world_of self.now) from to }
    {
        self.types().fits(from, to)
    }

    /// The nearest type that two types fit.
    pub fn common_base(&self, of: TypeId, other: TypeId) -> TypeId
        ensures { result ≡ common_base (world_of self.now) of other }
    {
        self.types().common_base(of, other)
    }

    /// Whether a type is in the profile by its definition. The built-in ones and arrays are not.
    pub fn type_in_profile(&self, of: TypeId) -> bool
        ensures { result ≡ type_in_profile (world_of self.now) of }
    {
        self.profile().type_in_profile(of)
    }

    /// Whether a method has its shape in the profile, that is, whether it can be called.
    pub fn shape_in_profile(&self, method: MethodId) -> bool
        ensures { result ≡ shape_in_profile (world_of self.now) method }
    {
        self.profile().shape_in_profile(method)
    }

    /// The arguments and the result of a method whose shape is in the profile; `None` exactly for any other.
    pub fn shape_of(&self, method: MethodId) -> Option<&Shape>
        ensures { option_copied result ≡ profile_shape (world_of self.now) method }
    {
        self.profile().shape_of(method)
    }

    /// A method that meets each condition of the profile but that it verifies; `None` exactly for any other.
    pub fn profile_method(&self, method: MethodId) -> Option<ProfileMethod<'_>>
        ensures { option_map as_method result ≡ profile_method (world_of self.now) method }
    {
        self.profile().profile_method(method)
    }
}
