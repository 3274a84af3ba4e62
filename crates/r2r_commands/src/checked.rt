//! The files of a run, checked in their order.

ghost use Rattle.std.specs.Prelude.{◌≡◌, ◌≤◌, ◌^◌, All, length, map, vec_items};
ghost use Rattle.r2rdump.specs.Dump.{file_fault};
ghost use Rattle.r2r_commands.specs.Ending.{malformed, malformed_by};
ghost use Rattle.r2r_commands.specs.Loaded.{IsUnlessRefused};

use crate::refusals::{Refusal, Stop};
use cli_assembly::Assembly;
use r2rdump::read_file;
use rtr_bytes::ReadRefusal;
use std::alloc::Global;

/// The assembly of a file, which passes each check.
fn checked_file<'a>(alloc: Global, name: &'a str, bytes: &[u8]) -> Result<Assembly, Stop<'a>>
    requires small { length bytes.now ≤ 2 ^ 31 }
    ensures { IsUnlessRefused (malformed_by name.now (file_fault bytes.now)) (λ assembly. assembly ≡ bytes.now) result }
{
    match read_file(alloc, bytes) {
        Ok(assembly) => Ok(assembly),
        Err(ReadRefusal::Malformed(fault)) => Err(Stop::Refused(Refusal::Malformed(name, fault))),
        Err(ReadRefusal::NoMemory) => Err(Stop::NoMemory),
    }
}

/// The assemblies of files, each of which passes each check. The first file that fails one is refused.
pub(crate) fn checked_files<'a>(
    alloc: Global,
    names: &[&'a str],
    files: &[Vec<u8>],
) -> Result<Vec<Assembly>, Stop<'a>>
    requires each { length names.now ≡ length files.now }
    requires small { All (λ file. length file.items ≤ 2 ^ 31) files.now }
    ensures { IsUnlessRefused (malformed (map (λ name. name.now) names.now) (map vec_items files.now))
        (λ assemblies. assemblies.items ≡ map vec_items files.now) result }
{
    let mut assemblies = Vec::new(alloc);
    for i in 0..files.len() {
        let assembly = checked_file(alloc, names[i], files[i].as_slice())?;
        assemblies.push(assembly)?;
    }
    Ok(assemblies)
}
