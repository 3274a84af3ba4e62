//! The reading of a command's inputs.

ghost use Rattle.std.specs.Prelude.{◌≡◌, map};
ghost use Rattle.r2r_commands.specs.Inputs.{IsReadAnswer, IsInputAnswer};

use crate::refusals::{Refusal, Stop};
use rtr_outside::{FileRefusal, Files};
use std::alloc::Global;

/// The most files that are read.
const MOST_FILES: usize = 64;

/// The bytes of the files of these names, which are read in their order, up to the first that is refused.
pub(crate) fn read_inputs<'a, F: Files>(
    alloc: Global,
    names: &[&'a str],
    files: &mut F,
) -> Result<Vec<Vec<u8>>, Stop<'a>>
    ensures read { IsReadAnswer (F.contents files.old) (F.failed_calls files.old) (F.failed_calls files.new)
        (map (λ name. name.now) names.now) result }
    ensures contents { F.contents files.new ≡ F.contents files.old }
{
    if names.len() > MOST_FILES {
        return Err(Stop::Refused(Refusal::TooMany(names.len())));
    }
    let mut inputs = Vec::new(alloc);
    for name in names {
        let bytes = read_input(name, files)?;
        inputs.push(bytes)?;
    }
    Ok(inputs)
}

/// The bytes of one file.
fn read_input<'a, F: Files>(name: &'a str, files: &mut F) -> Result<Vec<u8>, Stop<'a>>
    ensures read { IsInputAnswer (F.contents files.old) (F.failed_calls files.old) (F.failed_calls files.new) name.now result }
    ensures contents { F.contents files.new ≡ F.contents files.old }
{
    match files.read(name) {
        Ok(bytes) => Ok(bytes),
        Err(FileRefusal::Failed) => Err(Stop::Refused(Refusal::ReadFailed(name))),
        Err(FileRefusal::TooLong) => Err(Stop::Refused(Refusal::TooLong(name))),
        Err(FileRefusal::NoMemory) => Err(Stop::NoMemory),
    }
}
