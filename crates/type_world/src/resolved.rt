//! What the rows of a world's assemblies name, resolved once as the world is made.

ghost use Rattle.std.specs.Prelude.{◌≡◌, IfOk};
ghost use Rattle.cli_assembly.specs.Kept.{answer_of};
ghost use Rattle.type_world.specs.Kept.{kept_in, kept_of};
ghost use Rattle.type_world.specs.Loading.{world_of};

use crate::answers::answer_of;
use crate::assemblies::Assemblies;
use crate::identity::TypeId;
use rtr_bytes::NoMemory;
use std::alloc::Global;
use std::marker::Model;

/// What is kept of one assembly: for each row the answer.
#[derive(Debug, Drop)]
pub(crate) struct Resolved {
    type_refs: Vec<Option<TypeId>>,
    method_classes: Vec<Option<TypeId>>,
}

impl Model for Resolved {
    ghost use Rattle.type_world.specs.Kept.{Kept};

    ghost Value = { Kept };

    ghost view = { λ r. record { type_refs = r.type_refs.items; method_classes = r.method_classes.items } };
}

impl Resolved {
    /// What is kept of the assembly at a position.
    #[tactic(auto, unfolding(crate::specs::Kept::kept_of))]
    fn of(alloc: Global, assemblies: &Assemblies, asm: u8) -> Result<Resolved, NoMemory>
        ensures { IfOk result (λ resolved. resolved ≡ kept_of (world_of assemblies.now) asm) }
    {
        let type_refs = assemblies.type_refs(alloc, asm)?;
        let method_classes = assemblies.method_classes(alloc, asm)?;
        Ok(Resolved {
            type_refs,
            method_classes,
        })
    }

    /// The type that a row of TypeRef names.
    pub(crate) fn type_ref(&self, row: u32) -> Option<TypeId>
        ensures { result ≡ answer_of self.now.type_refs row }
    {
        answer_of(self.type_refs.as_slice(), row).copied()
    }

    /// The type that declares a row of MethodDef.
    pub(crate) fn method_class(&self, row: u32) -> Option<TypeId>
        ensures { result ≡ answer_of self.now.method_classes row }
    {
        answer_of(self.method_classes.as_slice(), row).copied()
    }
}

/// What is kept of all assemblies, by position.
pub(crate) fn resolve_all(alloc: Global, assemblies: &Assemblies) -> Result<Vec<Resolved>, NoMemory>
    ensures { IfOk result (λ all. all.items ≡ kept_in (world_of assemblies.now)) }
{
    let mut all = Vec::new(alloc);
    for asm in 0..assemblies.count() {
        all.push(Resolved::of(alloc, assemblies, asm)?)?;
    }
    Ok(all)
}
