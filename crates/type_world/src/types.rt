//! The types of a world: what the tokens of its assemblies name as types, resolved once as the world is made.

ghost use Rattle.std.specs.Prelude.{◌≡◌, ◌<◌, ◌+◌, ◌^◌, IfOk, option_copied, slice_get};
ghost use Rattle.metadata.specs.declared.schema.Table.TheVariants as tables;
ghost use Rattle.type_world.specs.Kept.{kept_in};
ghost use Rattle.type_world.specs.Loading.{world_of};
ghost use Rattle.type_world.specs.Resolution.{base_of, fits, resolve_ref, resolve_type};
ghost use Rattle.type_world.specs.Members.{class_of_method};
ghost use Rattle.type_world.specs.Resolution.{common_base};
ghost use Rattle.type_world.specs.World.{rows_of_world};

use crate::assemblies::Assemblies;
use crate::base::Base;
use crate::bases::{is_type, mark_after};
use crate::declared::built_in_class;
use crate::identity::{BUILT_IN, MethodId, TypeId};
use crate::resolved::{Resolved, resolve_all};
use metadata::Table;
use rtr_bytes::NoMemory;
use std::alloc::Global;
use std::marker::Model;

/// Assemblies with what their tokens name as types. Contracts see the bytes of the files.
#[derive(Debug, Drop)]
pub(crate) struct Types {
    assemblies: Assemblies,
    resolved: Vec<Resolved>,
    classes: u32,
}

impl Model for Types {
    ghost use Rattle.std.specs.Prelude.{◌≡◌, ◌≤◌, ◌^◌, ℕ, List};
    ghost use Rattle.metadata.specs.declared.schema.Table.TheVariants as tables;
    ghost use Rattle.type_world.specs.Kept.{kept_in};
    ghost use Rattle.type_world.specs.Loading.{world_of};
    ghost use Rattle.type_world.specs.World.{rows_of_world};

    ghost Value = { List (List ℕ) };

    ghost view = { λ t. t.assemblies };

    ghost invariant = { λ t. (t.resolved.items ≡ kept_in (world_of t.assemblies)) × (t.classes ≡ rows_of_world (world_of t.assemblies) tables.TypeDef) × (t.classes ≤ 2 ^ 30) };
}

impl Types {
    /// The types of some assemblies.
    pub(crate) fn new(alloc: Global, assemblies: Assemblies) -> Result<Types, NoMemory>
        ensures files { IfOk result (λ types. types ≡ assemblies) }
    {
        let resolved = resolve_all(alloc, &assemblies)?;
        let classes = assemblies.rows_of_all(Table::TypeDef);
        Ok(Types {
            assemblies,
            resolved,
            classes,
        })
    }

    /// The assemblies.
    pub(crate) fn assemblies(&self) -> &Assemblies
        ensures { result.now ≡ self.now }
    {
        &self.assemblies
    }

    /// The most types that are asked in one chain: one more than there are rows of TypeDef. A chain that is longer comes back to one of
    /// its types.
    pub(crate) fn longest_chain(&self) -> u32
        ensures most { result ≡ rows_of_world (world_of self.now) tables.TypeDef + 1 }
        ensures few { result < 2 ^ 31 }
    {
        self.classes + 1
    }

    /// What is kept of the assembly at a position.
    pub(crate) fn resolved_at(&self, asm: u8) -> Option<&Resolved>
        ensures { option_copied result ≡ slice_get (kept_in (world_of self.now)) asm }
    {
        self.resolved.get(asm as usize)
    }

    /// The type that a row of TypeRef names.
    fn type_ref(&self, asm: u8, row: u32) -> Option<TypeId>
        ensures { result ≡ resolve_ref (world_of self.now) asm row }
    {
        match self.resolved_at(asm) {
            Some(resolved) => resolved.type_ref(row),
            None => None,
        }
    }

    /// The type that a token of an assembly names: a TypeDef, or a TypeRef that resolves. `None` exactly where it names none.
    #[tactic(auto, unfolding(crate::specs::Resolution::resolve_type))]
    pub(crate) fn resolve_type(&self, asm: u8, token: u32) -> Option<TypeId>
        ensures { result ≡ resolve_type (world_of self.now) asm token }
    {
        if let Some(row) = self.assemblies().row_of(Table::TypeDef, asm, token) {
            return Some(TypeId::Class(asm, row));
        }
        match self.assemblies().row_of(Table::TypeRef, asm, token) {
            Some(row) => self.type_ref(asm, row),
            None => None,
        }
    }

    /// What a type extends. The built-in ones and arrays extend nothing.
    #[tactic(auto, unfolding(crate::specs::Resolution::base_of))]
    pub(crate) fn base_of(&self, of: TypeId) -> Base
        ensures { result ≡ base_of (world_of self.now) of }
    {
        match of {
            TypeId::Class(asm, row) => self.class_base(asm, row),
            _ => Base::NoBase,
        }
    }

    /// The type that declares a method. `None` exactly where no type's list has its row, and where there is no such built-in method.
    #[tactic(auto, unfolding(crate::specs::Members::class_of_method))]
    pub(crate) fn class_of_method(&self, method: MethodId) -> Option<TypeId>
        ensures { result ≡ class_of_method (world_of self.now) method }
    {
        if method.asm == BUILT_IN {
            built_in_class(method.row)
        } else {
            self.row_class(method.asm, method.row)
        }
    }

    /// Whether a reference to an object of one type fits another type.
    #[tactic(auto, unfolding(crate::specs::Resolution::fits))]
    pub(crate) fn fits(&self, from: TypeId, to: TypeId) -> bool
        ensures { result ≡ fits (world_of self.now) from to }
    {
        is_type(to, TypeId::Object) || self.extends(from, to)
    }

    /// The nearest type that two types fit. For each base of the one the chain of the other is walked.
    pub(crate) fn common_base(&self, of: TypeId, other: TypeId) -> TypeId
        ensures { result ≡ common_base (world_of self.now) of other }
    {
        let mut base = of;
        let mut mark = of;
        for step in 0..self.longest_chain() {
            if self.extends(other, base) {
                return base;
            }
            match self.base_of(base) {
                Base::Extends(next) => base = next,
                Base::NoBase => return TypeId::Object,
                Base::UnresolvedBase => return TypeId::Object,
            }
            if is_type(base, mark) {
                return TypeId::Object;
            }
            mark = mark_after(step, mark, base);
        }
        TypeId::Object
    }
}
