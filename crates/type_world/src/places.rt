//! What the types of signatures hold, where they are of the profile.

ghost use Rattle.std.specs.Prelude.{◌≡◌, ◌++◌, IfOk};
ghost use Rattle.std.specs.Option.{option_map};
ghost use Rattle.type_world.specs.Loading.{world_of};
ghost use Rattle.type_world.specs.Profile.{is_of_profile, place_of, places_of};

use crate::identity::TypeId;
use crate::place::Place;
use crate::types::Types;
use cli_assembly::TypeSig;
use rtr_bytes::{NoMemory, Sequence};
use std::alloc::Global;

/// A reference that fits a type, where there is one.
fn reference(of: Option<TypeId>) -> Option<Place>
    ensures { result ≡ option_map Place.Reference of }
{
    match of {
        Some(of) => Some(Place::Reference(of)),
        None => None,
    }
}

impl Types {
    /// What a type of a signature of an assembly holds. `None` for void, for a type outside the profile, and for a class that doesn't
    /// resolve.
    #[tactic(auto, unfolding(crate::specs::Profile::place_of))]
    pub(crate) fn place_of(&self, asm: u8, sig: TypeSig) -> Option<Place>
        ensures { result ≡ place_of (world_of self.now) asm sig }
    {
        match sig {
            TypeSig::Int(elem) => Some(Place::Integer(elem)),
            TypeSig::Str => Some(Place::Reference(TypeId::Str)),
            TypeSig::Object => Some(Place::Reference(TypeId::Object)),
            TypeSig::Class(token) => reference(self.resolve_type(asm, token)),
            TypeSig::Array(elem) => Some(Place::Reference(TypeId::Array(elem))),
            TypeSig::Void | TypeSig::Outside => None,
        }
    }

    /// Whether a type of a signature of an assembly is of the profile.
    pub(crate) fn is_of_profile(&self, asm: u8, sig: TypeSig) -> bool
        ensures { result ≡ is_of_profile (world_of self.now) asm sig }
    {
        self.place_of(asm, sig).is_some()
    }

    /// Some places, and after them what types of signatures hold. `None` exactly where one of the types is outside the profile.
    pub(crate) fn then_places(
        &self,
        asm: u8,
        sigs: &[TypeSig],
        places: Vec<Place>,
    ) -> Result<Option<Sequence<Place>>, NoMemory>
        ensures { IfOk result (λ all. all ≡ option_map (λ rest. places.items ++ rest) (places_of (world_of self.now) asm sigs.now)) }
    {
        let mut all = places;
        for sig in sigs {
            match self.place_of(asm, *sig) {
                Some(place) => all.push(place)?,
                None => return Ok(None),
            }
        }
        Ok(Some(Sequence::from_vec(all)))
    }

    /// What types of signatures hold. `None` exactly where one of them is outside the profile.
    pub(crate) fn places_of(
        &self,
        alloc: Global,
        asm: u8,
        sigs: &[TypeSig],
    ) -> Result<Option<Sequence<Place>>, NoMemory>
        ensures { IfOk result (λ places. places ≡ places_of (world_of self.now) asm sigs.now) }
    {
        self.then_places(asm, sigs, Vec::new(alloc))
    }
}
