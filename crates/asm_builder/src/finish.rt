//! The end of a builder: the file of its rows.

ghost use Rattle.std.specs.Prelude.{◌≡◌, ◌<◌, ◌≤◌, false, length, None, IfOk, IfErr};
ghost use Rattle.rtr_bytes.specs.Checks.{first_fault};
ghost use Rattle.pe_image.specs.Headers.{is_wide, native_of};
ghost use Rattle.cli_assembly.specs.Assemblies.{assembly_of};
ghost use Rattle.cli_assembly.specs.Checks.{assembly_checks};
ghost use Rattle.asm_builder.specs.declared.finish.BuildRefusal.TheVariants as refusals;
ghost use Rattle.asm_builder.specs.Built.{IsBuilt};
ghost use Rattle.asm_builder.specs.Content.{content_of};
ghost use Rattle.asm_builder.specs.File.{file_of};
ghost use Rattle.asm_builder.specs.Sound.{IsEntry};

use crate::builder::Builder;
use crate::content::Content;
use crate::file::Section;
use cli_assembly::signatures_are_read_back;
use rtr_bytes::NoMemory;
use std::alloc::{AllocError, AllocFailed};
use thiserror::Error;

/// Why no file was built.
#[derive(Clone, Copy, Debug, PartialEq, Eq, Error)]
pub enum BuildRefusal {
    /// The file would have more than 16,777,216 bytes.
    #[error("the file would be too long")]
    TooLong,
    /// Memory was refused.
    #[error("out of memory")]
    NoMemory,
}

impl From<NoMemory> for BuildRefusal {
    ghost from_gives = { λ _ e. e ≡ refusals.NoMemory };

    fn from(_e: NoMemory) -> BuildRefusal {
        BuildRefusal::NoMemory
    }
}

impl Builder {
    /// The file: a PE32 file without a native header (ECMA-335 II.25) that is an assembly with the rows that were asked for, in
    /// their order. `entry` is the token of a MethodDef row, or 0 for none; the CLI header has it as it is.
    pub fn finish(self, entry: u32) -> Result<Vec<u8>, BuildRefusal>
        requires entry { IsEntry self entry }
        ensures bytes { IfOk result (λ bytes. bytes.items ≡ file_of (content_of self) entry) }
        // It passes every check of an assembly, and it has the rows of the builder and no others.
        ensures well_formed { IfOk result (λ bytes. first_fault (assembly_checks bytes.items) bytes.items ≡ None) }
        ensures built { IfOk result (λ bytes. IsBuilt self entry (assembly_of bytes.items)) }
        ensures pe32 { IfOk result (λ bytes. is_wide bytes.items ≡ false) }
        ensures plain { IfOk result (λ bytes. native_of bytes.items ≡ None) }
        ensures length { IfOk result (λ bytes. length bytes.items ≤ 16_777_216) }
        ensures too_long { IfErr result (λ e. e ≡ refusals.TooLong → 16_777_216 < length (file_of (content_of self) entry)) }
    {
        signatures_are_read_back();
        let alloc = self.alloc;
        let content = Content::of(&self)?;
        let section = Section::of(alloc, content)?;
        if !section.fits() {
            return Err(BuildRefusal::TooLong);
        }
        Ok(section.file(alloc, entry)?)
    }
}
