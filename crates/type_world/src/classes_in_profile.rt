//! Which types are in the profile by their definitions.

ghost use Rattle.std.specs.Prelude.{◌≡◌, ℕ, zero, suc, Bool, IfOk, IfSome, option_copied, slice_get};
ghost use Rattle.type_world.specs.declared.identity.TypeId.{TypeId as Id};
ghost use Rattle.type_world.specs.Profiled.{facts, facts_in, facts_of, judged};
ghost use Rattle.type_world.specs.Loading.{world_of};
ghost use Rattle.type_world.specs.Profile.{class_within, has_base, has_no_base, is_base, is_plain_class, is_value_base, type_in_profile};

use crate::answers::nth_row;
use crate::base::Base;
use crate::identity::TypeId;
use crate::marks::is_marked;
use crate::types::Types;
use metadata::Table;
use rtr_bytes::{NoMemory, Sequence};
use std::alloc::Global;
use std::marker::Model;

/// A type in the profile has at most so many bases, `System.Object` included.
const MAX_BASES: u8 = 64;

/// What a type says of whether it is in the profile.
#[derive(Clone, Copy)]
pub(crate) enum Judged {
    /// It is, or it isn't.
    Decided(bool),
    /// It is where its base is.
    ByBase(TypeId),
}

/// The item of a row, from 0.
pub(crate) fn item_at<T>(items: &[T], row: u32) -> Option<&T>
    ensures { option_copied result ≡ slice_get items.now row }
{
    items.get(row as usize)
}

/// What is kept of a class.
#[derive(Clone, Copy, Debug)]
pub(crate) struct ClassFacts {
    /// Whether it meets what is asked of a class itself.
    pub(crate) plain: bool,
    /// Whether it is `System.ValueType` or `System.Enum`.
    pub(crate) value_base: bool,
}

/// Whether a class extends nothing.
fn has_no_base(base: Base) -> bool
    ensures { result ≡ has_no_base base }
{
    matches!(base, Base::NoBase)
}

impl Types {
    /// What is kept of the classes of an assembly, by row of TypeDef from row 0, which is none.
    fn class_facts(&self, alloc: Global, asm: u8) -> Result<Sequence<ClassFacts>, NoMemory>
        ensures { IfOk result (λ facts. facts ≡ facts_of (world_of self.now) asm) }
    {
        let assemblies = self.assemblies();
        let generic = assemblies.generic_rows(alloc, asm, Table::TypeDef)?;
        let overriding = assemblies.overriding_rows(alloc, asm)?;
        let generic_rows = generic.as_slice();
        let overriding_rows = overriding.as_slice();
        let mut facts = Vec::new(alloc);
        let rows = assemblies.rows_at(Table::TypeDef, asm);
        for row in 0..rows + 1 {
            let is_generic = is_marked(generic_rows, row);
            let is_overriding = is_marked(overriding_rows, row);
            let plain = self.is_plain_by(asm, row, is_generic, is_overriding);
            let value_base = assemblies.is_value_base(asm, row);
            facts.push(ClassFacts { plain, value_base })?;
        }
        Ok(Sequence::from_vec(facts))
    }

    /// What is kept of the classes of all assemblies, by position.
    fn all_class_facts(&self, alloc: Global) -> Result<Vec<Sequence<ClassFacts>>, NoMemory>
        ensures { IfOk result (λ all. all.items ≡ facts_in (world_of self.now)) }
    {
        let mut all = Vec::new(alloc);
        for asm in 0..self.assemblies().count() {
            all.push(self.class_facts(alloc, asm)?)?;
        }
        Ok(all)
    }
}

/// The types of a world, with what is kept of its classes. Contracts see the bytes of the files.
#[derive(Debug, Drop)]
pub(crate) struct Classes {
    types: Types,
    facts: Vec<Sequence<ClassFacts>>,
}

impl Model for Classes {
    ghost use Rattle.std.specs.Prelude.{◌≡◌, ℕ, List};
    ghost use Rattle.type_world.specs.Loading.{world_of};
    ghost use Rattle.type_world.specs.Profiled.{facts_in};

    ghost Value = { List (List ℕ) };

    ghost view = { λ c. c.types };

    ghost invariant = { λ c. c.facts.items ≡ facts_in (world_of c.types) };
}

impl Classes {
    /// The classes of some types.
    pub(crate) fn new(alloc: Global, types: Types) -> Result<Classes, NoMemory>
        ensures { IfOk result (λ classes. classes ≡ types) }
    {
        let facts = types.all_class_facts(alloc)?;
        Ok(Classes { types, facts })
    }

    /// The types.
    pub(crate) fn types(&self) -> &Types
        ensures { result.now ≡ self.now }
    {
        &self.types
    }

    /// What is kept of the classes of the assembly at a position.
    fn facts_at(&self, asm: u8) -> Option<&Sequence<ClassFacts>>
        ensures { option_copied result ≡ slice_get (facts_in (world_of self.now)) asm }
    {
        self.facts.get(asm as usize)
    }

    /// What is kept of a row of TypeDef, or of row 0. A row after the last has no answer.
    fn kept_facts(&self, asm: u8, row: u32) -> Option<ClassFacts>
        ensures { IfSome result (λ kept. kept ≡ facts (world_of self.now) asm row) }
    {
        let facts = self.facts_at(asm)?;
        match item_at(facts.as_slice(), row) {
            Some(kept) => Some(*kept),
            None => None,
        }
    }

    /// What is asked of the tables for a row of TypeDef.
    fn asked_facts(&self, asm: u8, row: u32) -> ClassFacts
        ensures { result ≡ facts (world_of self.now) asm row }
    {
        ClassFacts {
            plain: self.types.is_plain_class(asm, row),
            value_base: self.types.assemblies().is_value_base(asm, row),
        }
    }

    /// What is known of a row of TypeDef. For a row after the last, which nothing names, the tables are asked.
    fn class_facts(&self, asm: u8, row: u32) -> ClassFacts
        ensures { result ≡ facts (world_of self.now) asm row }
    {
        match self.kept_facts(asm, row) {
            Some(kept) => kept,
            None => self.asked_facts(asm, row),
        }
    }

    /// Whether a row of TypeDef meets what is asked of a class itself.
    fn is_plain_class(&self, asm: u8, row: u32) -> bool
        ensures { result ≡ is_plain_class (world_of self.now) asm row }
    {
        self.class_facts(asm, row).plain
    }

    /// Whether a row of TypeDef is `System.ValueType` or `System.Enum`.
    fn is_value_base(&self, asm: u8, row: u32) -> bool
        ensures { result ≡ is_value_base (world_of self.now) asm row }
    {
        self.class_facts(asm, row).value_base
    }

    /// What a base says of the class that extends it.
    fn judge_base(&self, base: TypeId) -> Judged
        ensures { (within : Id → Bool) → judged within result ≡ is_base within (world_of self.now) base }
    {
        match base {
            TypeId::Object => Judged::Decided(true),
            TypeId::Class(asm, row) => {
                if self.is_value_base(asm, row) {
                    Judged::Decided(false)
                } else {
                    Judged::ByBase(base)
                }
            }
            _ => Judged::Decided(false),
        }
    }

    /// What is said of a plain class by what it extends.
    fn judge_plain(&self, base: Base) -> Judged
        ensures { (within : Id → Bool) → judged within result ≡ has_base within (world_of self.now) base }
    {
        match base {
            Base::NoBase => Judged::Decided(true),
            Base::Extends(base) => self.judge_base(base),
            Base::UnresolvedBase => Judged::Decided(false),
        }
    }

    /// What a type says of whether it is in the profile.
    #[tactic(auto, unfolding(crate::specs::Profile::class_within))]
    fn judge(&self, of: TypeId) -> Judged
        ensures { (n : ℕ) → judged (class_within n (world_of self.now)) result ≡ class_within (suc n) (world_of self.now) of }
    {
        match of {
            TypeId::Class(asm, row) => {
                if self.is_plain_class(asm, row) {
                    self.judge_plain(self.types.base_of(of))
                } else {
                    Judged::Decided(false)
                }
            }
            _ => Judged::Decided(false),
        }
    }

    /// Whether a type is a plain class that extends nothing.
    #[tactic(auto, unfolding(crate::specs::Profile::class_within))]
    fn is_last(&self, of: TypeId) -> bool
        ensures { result ≡ class_within zero (world_of self.now) of }
    {
        match of {
            TypeId::Class(asm, row) => {
                self.is_plain_class(asm, row) && has_no_base(self.types.base_of(of))
            }
            _ => false,
        }
    }

    /// Whether a type is in the profile by its definition. The built-in ones and arrays are not. It takes at most 65 steps, and none
    /// goes through a table.
    pub(crate) fn type_in_profile(&self, of: TypeId) -> bool
        ensures { result ≡ type_in_profile (world_of self.now) of }
    {
        let mut class = of;
        for _passed in 0..MAX_BASES {
            match self.judge(class) {
                Judged::Decided(answer) => return answer,
                Judged::ByBase(base) => class = base,
            }
        }
        self.is_last(class)
    }
}
