//! A world: its assemblies, with what their rows name.

ghost use Rattle.std.specs.Prelude.{◌≡◌, ◌≤◌, ◌<◌, ◌^◌, length, slice_get, option_copied, IfErr, IfOk, OnOk};
ghost use Rattle.type_world.specs.Loading.{IsRefused, world_of};
ghost use Rattle.type_world.specs.World.{IsWorld};
ghost use Rattle.type_world.specs.Entries.{can_start, entry_named, entry_point};
ghost use Rattle.type_world.specs.Members.{signature_of};
ghost use Rattle.type_world.specs.Numbers.{method_number, method_numbered, type_number, type_numbered};
ghost use Rattle.type_world.specs.Profile.{is_abstract, method_flag};

use crate::assemblies::Assemblies;
use crate::identity::{BUILT_IN, MethodId, TypeId};
use crate::methods::Methods;
use crate::profile::Profile;
use crate::refusal::WorldRefusal;
use crate::types::Types;
use cli_assembly::{Assembly, METHOD_STATIC, MethodSig};
use std::alloc::Global;
use std::marker::Model;

/// Assemblies whose simple names differ (ECMA-335 II.6.2). Position 0 is the assembly that is run or compiled. Contracts see the bytes of
/// the files; what they stand for is `world_of` them. What their rows name is resolved as the world is made; after that no call takes
/// memory.
#[derive(Debug, Drop)]
pub struct World {
    methods: Methods,
}

impl Model for World {
    ghost use Rattle.std.specs.Prelude.{ℕ, List};

    ghost Value = { List (List ℕ) };

    ghost view = { λ w. w.methods };
}

impl World {
    /// The world of some assemblies. `TooMany` says how many there are, where they are more than 64; else `DuplicateName` names two that
    /// have one simple name.
    pub fn new(alloc: Global, list: Vec<Assembly>) -> Result<World, WorldRefusal>
        requires some { 0 < length list.items }
        requires few { length list.items < 2 ^ 32 }
        ensures refused { IfErr result (IsRefused list.items) }
        ensures is_world { OnOk result (IsWorld (world_of list.items)) }
        ensures files { IfOk result (λ world. world ≡ list.items) }
    {
        let assemblies = Assemblies::new(alloc, list)?;
        let types = Types::new(alloc, assemblies)?;
        let profile = Profile::new(alloc, types)?;
        let methods = Methods::new(alloc, profile)?;
        Ok(World { methods })
    }

    /// How many assemblies there are.
    pub fn count(&self) -> u8
        ensures count { result ≡ length self.now }
        ensures some { 0 < result }
        ensures few { result ≤ 64 }
    {
        self.assemblies().count()
    }

    /// The assembly at a position, from 0. `None` exactly where there is none.
    pub fn assembly(&self, asm: u8) -> Option<&Assembly>
        ensures { option_copied result ≡ slice_get self.now asm }
    {
        self.assemblies().assembly(asm)
    }

    /// What the tokens of its assemblies name as methods.
    pub(crate) fn methods(&self) -> &Methods
        ensures { result.now ≡ self.now }
    {
        &self.methods
    }

    /// Which of its types and methods are in the profile.
    pub(crate) fn profile(&self) -> &Profile
        ensures { result.now ≡ self.now }
    {
        self.methods().profile()
    }

    /// What its tokens name as types.
    pub(crate) fn types(&self) -> &Types
        ensures { result.now ≡ self.now }
    {
        self.methods().types()
    }

    /// The assemblies.
    fn assemblies(&self) -> &Assemblies
        ensures { result.now ≡ self.now }
    {
        self.types().assemblies()
    }

    /// The number of a method: the built-in ones have 0 to 7, and the rows of MethodDef follow. `None` exactly where there is no such
    /// method.
    pub fn method_number(&self, method: MethodId) -> Option<u32>
        ensures { result ≡ method_number (world_of self.now) method }
    {
        self.assemblies().method_number(method)
    }

    /// The number of a type: `System.Object` 0, `System.String` 1, `System.Console` 12, an array that of its element type, and a row of
    /// TypeDef 16 and its place. `None` exactly where there is no such row.
    pub fn type_number(&self, of: TypeId) -> Option<u32>
        ensures { result ≡ type_number (world_of self.now) of }
    {
        self.assemblies().type_number(of)
    }

    /// The method of a number. `None` exactly where no method has it.
    pub fn method_of(&self, number: u32) -> Option<MethodId>
        ensures { result ≡ method_numbered (world_of self.now) number }
    {
        self.assemblies().method_of(number)
    }

    /// The type of a number. `None` exactly where no type has it.
    pub fn type_of(&self, number: u32) -> Option<TypeId>
        ensures { result ≡ type_numbered (world_of self.now) number }
    {
        self.assemblies().type_of(number)
    }

    /// Whether a method is abstract.
    pub fn is_abstract(&self, method: MethodId) -> bool
        ensures { result ≡ is_abstract (world_of self.now) method }
    {
        self.assemblies().is_abstract(method)
    }

    /// Whether a method is static.
    pub fn is_static(&self, method: MethodId) -> bool
        ensures { result ≡ method_flag (world_of self.now) method METHOD_STATIC }
    {
        self.assemblies().is_static(method)
    }

    /// The method of the entry point token of the assembly at position 0 (ECMA-335 II.25.3.3.2). `None` exactly where it is no MethodDef
    /// token of a row.
    pub fn entry_point(&self) -> Option<MethodId>
        ensures { result ≡ entry_point (world_of self.now) }
    {
        self.assemblies().entry_point()
    }

    /// The one static method of a name in the first type of a full name. `None` exactly where there is not exactly one.
    pub fn entry_named(&self, class: &str, name: &str) -> Option<MethodId>
        ensures { result ≡ entry_named (world_of self.now) class.now name.now }
    {
        self.assemblies().entry_named(class, name)
    }

    /// The signature of a row of MethodDef. `None` exactly where there is no such row, or it has no signature of the form.
    pub fn method_sig(&self, method: MethodId) -> Option<&MethodSig>
        requires { method.asm < BUILT_IN }
        ensures { option_copied result ≡ signature_of (world_of self.now) method }
    {
        self.assemblies().signature_of(method)
    }

    /// Whether a run can begin at a row of MethodDef with some numbers: it is static, it has no `this`, its result is void or an integer, and
    /// each parameter has an integer type in whose range its number is.
    pub fn can_start(&self, entry: MethodId, numbers: &[i128]) -> bool
        requires { entry.asm < BUILT_IN }
        ensures { result ≡ can_start (world_of self.now) entry numbers.now }
    {
        self.assemblies().can_start(entry, numbers)
    }
}
