//! The world of a run's files.

ghost use Rattle.std.specs.Prelude.{◌≡◌, ◌≤◌, ◌<◌, length, map, option_map};
ghost use Rattle.cli_assembly.specs.Assemblies.{assembly_of};
ghost use Rattle.cli_assembly.specs.Flags.{has_flag};
ghost use Rattle.r2r_commands.specs.Refusals.{NotIlOnly};
ghost use Rattle.r2r_commands.specs.RunRefusals.{file_refusals, is_il_only, not_il_only};
ghost use Rattle.r2r_commands.specs.Loaded.{IsUnlessRefused, first_of};

use crate::refusals::{Refusal, Stop};
use cli_assembly::Assembly;
use std::alloc::Global;
use type_world::{World, WorldRefusal};

/// COMIMAGE_FLAGS_ILONLY of the CLI header (ECMA-335 II.25.3.3.1).
const IL_ONLY: u32 = 1;
/// COMIMAGE_FLAGS_IL_LIBRARY of the CLI header, which ReadyToRun images have.
const IL_LIBRARY: u32 = 4;

/// Whether flags have a flag, which is one bit.
fn has_flag(flags: u32, flag: u32) -> bool
    requires { 0 < flag }
    ensures { result ≡ has_flag flags flag }
{
    flags / flag % 2 == 1
}

/// Whether an assembly has one of the flags of IL.
#[tactic(auto, unfolding(cli_assembly::specs::Assemblies::assembly_of, cli_assembly::specs::Assemblies::assembly_by))]
fn is_il_only(assembly: &Assembly) -> bool
    ensures { result ≡ is_il_only (assembly_of assembly.now) }
{
    let flags = assembly.pe().cli_flags();
    has_flag(flags, IL_ONLY) || has_flag(flags, IL_LIBRARY)
}

/// The name of the first file that has neither flag.
fn first_not_il_only<'a>(names: &[&'a str], assemblies: &[Assembly]) -> Option<&'a str>
    requires each { length names.now ≡ length assemblies.now }
    ensures { option_map (λ name. NotIlOnly name.now) result
        ≡ first_of (not_il_only (map (λ name. name.now) names.now) assemblies.now) }
{
    for i in 0..assemblies.len() {
        if !is_il_only(&assemblies[i]) {
            return Some(names[i]);
        }
    }
    None
}

/// The world of the files of these names, of which there are at most 64. Two of one simple name are refused, and then the first that has
/// neither flag of IL.
pub(crate) fn loaded_world<'a>(
    alloc: Global,
    names: &[&'a str],
    assemblies: Vec<Assembly>,
) -> Result<World, Stop<'a>>
    requires some { 0 < length assemblies.items }
    requires most { length assemblies.items ≤ 64 }
    requires each { length names.now ≡ length assemblies.items }
    ensures { IsUnlessRefused (file_refusals (map (λ name. name.now) names.now) assemblies.items) (λ world. world ≡ assemblies.items) result }
{
    let not_il_only = first_not_il_only(names, &assemblies);
    match World::new(alloc, assemblies) {
        Ok(world) => match not_il_only {
            None => Ok(world),
            Some(name) => Err(Stop::Refused(Refusal::NotIlOnly(name))),
        },
        Err(WorldRefusal::DuplicateName(first, second)) => {
            Err(Stop::Refused(Refusal::DuplicateName(first, second)))
        }
        Err(WorldRefusal::TooMany(_) | WorldRefusal::NoMemory) => Err(Stop::NoMemory),
    }
}
