//! The methods that tokens name, resolved once as the world is made.

ghost use Rattle.std.specs.Prelude.{◌≡◌, IfOk, option_copied, slice_get};
ghost use Rattle.type_world.specs.KeptMethods.{member_methods_in, member_methods_of};
ghost use Rattle.type_world.specs.Loading.{world_of};
ghost use Rattle.type_world.specs.Members.{member_method, resolve_method};

use crate::answers::answer_of;
use crate::identity::MethodId;
use crate::profile::Profile;
use crate::types::Types;
use metadata::Table;
use rtr_bytes::{NoMemory, Sequence};
use std::alloc::Global;
use std::marker::Model;

impl Types {
    /// The methods that the rows of MemberRef of an assembly name, one answer for each row. Each row takes a search through the methods
    /// of one base chain.
    #[tactic(auto, unfolding(crate::specs::KeptMethods::member_methods_of))]
    fn member_methods(&self, alloc: Global, asm: u8) -> Result<Sequence<Option<MethodId>>, NoMemory>
        ensures { IfOk result (λ methods. methods ≡ member_methods_of (world_of self.now) asm) }
    {
        let mut methods = Vec::new(alloc);
        for index in 0..self.assemblies().rows_at(Table::MemberRef, asm) {
            methods.push(self.member_method(asm, index + 1))?;
        }
        Ok(Sequence::from_vec(methods))
    }

    /// The same of all assemblies, by position.
    fn all_member_methods(&self, alloc: Global) -> Result<Vec<Sequence<Option<MethodId>>>, NoMemory>
        ensures { IfOk result (λ all. all.items ≡ member_methods_in (world_of self.now)) }
    {
        let mut all = Vec::new(alloc);
        for asm in 0..self.assemblies().count() {
            all.push(self.member_methods(alloc, asm)?)?;
        }
        Ok(all)
    }
}

/// What is in the profile of a world, with the methods that its rows of MemberRef name. Contracts see the bytes of the files.
#[derive(Debug, Drop)]
pub(crate) struct Methods {
    profile: Profile,
    members: Vec<Sequence<Option<MethodId>>>,
}

impl Model for Methods {
    ghost use Rattle.std.specs.Prelude.{◌≡◌, ℕ, List};
    ghost use Rattle.type_world.specs.KeptMethods.{member_methods_in};
    ghost use Rattle.type_world.specs.Loading.{world_of};

    ghost Value = { List (List ℕ) };

    ghost view = { λ m. m.profile };

    ghost invariant = { λ m. m.members.items ≡ member_methods_in (world_of m.profile) };
}

impl Methods {
    /// What is in the profile, with the methods that are named in each assembly.
    pub(crate) fn new(alloc: Global, profile: Profile) -> Result<Methods, NoMemory>
        ensures files { IfOk result (λ methods. methods ≡ profile) }
    {
        let members = profile.types().all_member_methods(alloc)?;
        Ok(Methods { profile, members })
    }

    /// What is in the profile.
    pub(crate) fn profile(&self) -> &Profile
        ensures { result.now ≡ self.now }
    {
        &self.profile
    }

    /// The types.
    pub(crate) fn types(&self) -> &Types
        ensures { result.now ≡ self.now }
    {
        self.profile().types()
    }

    /// What is kept of the assembly at a position.
    fn members_at(&self, asm: u8) -> Option<&Sequence<Option<MethodId>>>
        ensures { option_copied result ≡ slice_get (member_methods_in (world_of self.now)) asm }
    {
        self.members.get(asm as usize)
    }

    /// The method that a row of MemberRef names.
    fn member_method(&self, asm: u8, row: u32) -> Option<MethodId>
        ensures { result ≡ member_method (world_of self.now) asm row }
    {
        match self.members_at(asm) {
            Some(members) => answer_of(members.as_slice(), row).copied(),
            None => None,
        }
    }

    /// The method that a token of an assembly names: a MethodDef, or a MemberRef that resolves. `None` exactly where it names none. It is
    /// a look-up by row.
    #[tactic(auto, unfolding(crate::specs::Members::resolve_method))]
    pub(crate) fn resolve_method(&self, asm: u8, token: u32) -> Option<MethodId>
        ensures { result ≡ resolve_method (world_of self.now) asm token }
    {
        let assemblies = self.types().assemblies();
        match assemblies.row_of(Table::MethodDef, asm, token) {
            Some(row) => Some(MethodId { asm, row }),
            None => match assemblies.row_of(Table::MemberRef, asm, token) {
                Some(row) => self.member_method(asm, row),
                None => None,
            },
        }
    }
}
