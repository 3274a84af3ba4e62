//! The assemblies of a world: their simple names differ.

ghost use Rattle.std.specs.Prelude.{◌≡◌, ◌≤◌, ◌<◌, ◌^◌, None, Some, length, slice_get, take, option_copied, IfErr, IfOk, IfSome, OnOk};
ghost use Rattle.type_world.specs.Loading.{IsRefused, world_of};
ghost use Rattle.std.specs.Str.{bytes_eq};
ghost use Rattle.type_world.specs.World.{IsWorld, name_in, duplicate_from, earlier_name, first_duplicate};
ghost use Rattle.type_world.specs.NameNumbers.{world_numbers};

use crate::name_numbers::{TypeNames, name_all};
use crate::refusal::WorldRefusal;
use crate::room::have_room;
use cli_assembly::Assembly;
use std::alloc::Global;
use std::marker::Model;

/// A world has at most so many assemblies.
pub const MAX_ASSEMBLIES: usize = 64;

/// Whether two assemblies have one simple name.
fn have_one_name(assemblies: &[Assembly], i: usize, j: usize) -> bool
    requires first { i < length assemblies.now }
    requires second { j < length assemblies.now }
    ensures { result ≡ bytes_eq (name_in (world_of assemblies.now) j) (name_in (world_of assemblies.now) i) }
{
    assemblies[j].name() == assemblies[i].name()
}

/// The first assembly before another one that has the same name.
fn earlier_name(assemblies: &[Assembly], j: usize) -> Option<usize>
    requires { j < length assemblies.now }
    ensures first { result ≡ earlier_name (world_of assemblies.now) j }
    ensures below { IfSome result (λ i. i < j) }
{
    for i in 0..j {
        if have_one_name(assemblies, i, j) {
            return Some(i);
        }
    }
    None
}

/// The least position whose name an earlier one has, and the first that has it: (earlier, later).
fn first_duplicate(assemblies: &[Assembly]) -> Option<(usize, usize)>
    ensures first { result ≡ first_duplicate (world_of assemblies.now) }
    ensures below { IfSome result (λ found. (found.0 < length assemblies.now) × (found.1 < length assemblies.now)) }
{
    for j in 0..assemblies.len() {
        if let Some(i) = earlier_name(assemblies, j) {
            return Some((i, j));
        }
    }
    None
}

/// Assemblies whose simple names differ (ECMA-335 II.6.2), before anything is resolved. Contracts see the bytes of the files; what they
/// stand for is `world_of` them.
#[derive(Debug, Drop)]
pub(crate) struct Assemblies {
    assemblies: Vec<Assembly>,
    names: Vec<TypeNames>,
}

impl Model for Assemblies {
    ghost use Rattle.std.specs.Prelude.{◌≡◌, ℕ, List};
    ghost use Rattle.type_world.specs.Loading.{world_of};
    ghost use Rattle.type_world.specs.NameNumbers.{world_numbers};
    ghost use Rattle.type_world.specs.World.{IsWorld};

    ghost Value = { List (List ℕ) };

    ghost view = { λ w. w.assemblies.items };

    ghost invariant = { λ w. IsWorld (world_of w.assemblies.items) × (w.names.items ≡ world_numbers (world_of w.assemblies.items)) };
}

impl Assemblies {
    /// Some assemblies as those of a world. `TooMany` says how many there are, where they are more than 64; else `DuplicateName` names two
    /// that have one simple name.
    pub(crate) fn new(alloc: Global, list: Vec<Assembly>) -> Result<Assemblies, WorldRefusal>
        requires some { 0 < length list.items }
        requires few { length list.items < 2 ^ 32 }
        ensures refused { IfErr result (IsRefused list.items) }
        ensures is_world { OnOk result (IsWorld (world_of list.items)) }
        ensures files { IfOk result (λ assemblies. assemblies ≡ list.items) }
    {
        let count = list.len();
        if count > MAX_ASSEMBLIES {
            return Err(WorldRefusal::TooMany(count as u32));
        }
        match first_duplicate(&list) {
            Some((earlier, later)) => Err(WorldRefusal::DuplicateName(
                earlier as u32,
                later as u32,
            )),
            None => Assemblies::numbered(alloc, list),
        }
    }

    /// Some assemblies that are those of a world, with their types by the numbers of their names. `NoMemory` comes where memory is refused,
    /// and where what the rows of a file share comes to more than 32 times its bytes: that is asked before any name is read as a key.
    fn numbered(alloc: Global, list: Vec<Assembly>) -> Result<Assemblies, WorldRefusal>
        requires { IsWorld (world_of list.items) }
        ensures refused { IfErr result (IsRefused list.items) }
        ensures is_world { OnOk result (IsWorld (world_of list.items)) }
        ensures files { IfOk result (λ assemblies. assemblies ≡ list.items) }
    {
        if !have_room(&list) {
            return Err(WorldRefusal::NoMemory);
        }
        match name_all(alloc, &list) {
            Ok(names) => Ok(Assemblies {
                assemblies: list,
                names,
            }),
            Err(_) => Err(WorldRefusal::NoMemory),
        }
    }

    /// The types of the assembly at a position by the numbers of their names. `None` exactly where there is none.
    pub(crate) fn names_of(&self, asm: u8) -> Option<&TypeNames>
        ensures { option_copied result ≡ slice_get (world_numbers (world_of self.now)) asm }
    {
        self.names.get(asm as usize)
    }

    /// How many assemblies there are.
    pub(crate) fn count(&self) -> u8
        ensures count { result ≡ length self.now }
        ensures some { 0 < result }
        ensures few { result ≤ 64 }
    {
        let assemblies = self.assemblies.as_slice();
        assemblies.len() as u8
    }

    /// The assembly at position 0.
    pub(crate) fn first(&self) -> &Assembly
        ensures { Some result.now ≡ slice_get self.now 0 }
    {
        let assemblies = self.assemblies.as_slice();
        &assemblies[0]
    }

    /// The assembly at a position, from 0. `None` exactly where there is none.
    pub(crate) fn assembly(&self, asm: u8) -> Option<&Assembly>
        ensures { option_copied result ≡ slice_get self.now asm }
    {
        self.assemblies.get(asm as usize)
    }

    /// The assemblies before a position; all of them where there are not so many.
    pub(crate) fn assemblies_before(&self, asm: u8) -> &[Assembly]
        ensures files { result.now ≡ take asm self.now }
        ensures few { length result.now ≤ 64 }
    {
        &self.assemblies[..self.assemblies.len().min(asm as usize)]
    }
}
