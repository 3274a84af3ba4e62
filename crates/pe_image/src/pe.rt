//! The headers of an assembly's file, read whole.

ghost use Rattle.std.specs.Prelude.{◌≡◌, ◌+◌, ◌≤◌, ◌<◌, ◌^◌, length, IfOk, IfErr, OnOk, IfSome};
ghost use Rattle.rtr_bytes.specs.Checks.{first_fault, RefusedBy};
ghost use Rattle.pe_image.specs.Headers.{Headers, headers_of};
ghost use Rattle.pe_image.specs.Checks.{pe_checks};
ghost use Rattle.pe_image.specs.Sections.{slice_of_rva};

use crate::cli::Cli;
use crate::file::FileBytes;
use crate::layout::Layout;
use crate::section::PeSection;
use crate::table::SectionTable;
use rtr_bytes::{ReadRefusal, Span};
use std::alloc::Global;
use std::marker::Model;

/// The PE headers and the CLI header of an assembly. It keeps none of the file's bytes.
#[derive(Debug, Drop)]
pub struct Pe {
    machine: u16,
    wide: bool,
    sections: SectionTable,
    cli: Cli,
}

impl Model for Pe {
    ghost use Rattle.pe_image.specs.Headers.{Headers};
    ghost use Rattle.pe_image.specs.Reach.{EndsInReach};

    ghost Value = { Headers };

    ghost view = { λ p. record {
      machine = p.machine;
      wide = p.wide;
      sections = p.sections;
      cli = p.cli.header;
      metadata = p.cli.metadata;
      cli_flags = p.cli.flags;
      entry_token = p.cli.entry_token;
      native = p.cli.native;
    } };

    ghost invariant = { λ p. EndsInReach p.cli.header × EndsInReach p.cli.metadata };
}

impl Pe {
    /// Reads the headers of a file's bytes, of which there are at most 2^31 (PE/COFF 2 to 4, ECMA-335 II.25.3.3).
    /// `Malformed` names the first of the checks 1 to 14 that fails, with its file offset; `NoMemory` comes where
    /// memory is refused.
    pub fn read(alloc: Global, bytes: &[u8]) -> Result<Pe, ReadRefusal>
        requires { length bytes.now ≤ 2 ^ 31 }
        ensures malformed { IfErr result (λ e. RefusedBy (first_fault pe_checks bytes.now) e) }
        ensures well_formed { OnOk result (first_fault pe_checks bytes.now ≡ None) }
        ensures headers { IfOk result (λ pe. pe ≡ headers_of bytes.now) }
    {
        let layout = Layout::read(FileBytes::new(bytes))?;
        let sections = SectionTable::read(alloc, &layout)?;
        let cli = Cli::read(&layout, &sections)?;
        Ok(Pe {
            machine: layout.machine(),
            wide: layout.wide(),
            sections,
            cli,
        })
    }

    /// Machine (PE/COFF 3.3.1).
    pub fn machine(&self) -> u16
        ensures { result ≡ self.now.machine }
    {
        self.machine
    }

    /// Whether the optional header is that of PE32+, whose Magic is 0x20B, and not of PE32.
    pub fn wide(&self) -> bool
        ensures { result ≡ self.now.wide }
    {
        self.wide
    }

    /// The section headers, in the order of the section table (PE/COFF 4).
    pub fn sections(&self) -> &[PeSection]
        ensures { result.now ≡ self.now.sections }
    {
        self.sections.as_slice()
    }

    /// The CLI header's 72 bytes, as a range of the file (ECMA-335 II.25.3.3).
    pub fn cli(&self) -> Span
        ensures range { result ≡ self.now.cli }
        // It ends at a file offset of 32 bits.
        ensures in_reach { result.start + result.len < 2 ^ 32 }
    {
        self.cli.header
    }

    /// The metadata, as a range of the file. Where it has no bytes, its start may be after the file's end.
    pub fn metadata(&self) -> Span
        ensures range { result ≡ self.now.metadata }
        // It ends at a file offset of 32 bits.
        ensures in_reach { result.start + result.len < 2 ^ 32 }
    {
        self.cli.metadata
    }

    /// Flags of the CLI header (ECMA-335 II.25.3.3.1).
    pub fn cli_flags(&self) -> u32
        ensures { result ≡ self.now.cli_flags }
    {
        self.cli.flags
    }

    /// EntryPointToken of the CLI header (ECMA-335 II.25.3.3).
    pub fn entry_token(&self) -> u32
        ensures { result ≡ self.now.entry_token }
    {
        self.cli.entry_token
    }

    /// ManagedNativeHeader of the CLI header, as a range of RVAs (ECMA-335 II.25.3.3). `None` exactly where RVA and
    /// size are both 0.
    pub fn native(&self) -> Option<Span>
        ensures { result ≡ self.now.native }
    {
        self.cli.native
    }

    /// The file offset of the `len` bytes at an RVA, in the first section whose VirtualAddress is at most `rva` and
    /// whose VirtualAddress plus SizeOfRawData is at least `rva + len` (PE/COFF 4). `None` exactly where there is no
    /// such section, or where `rva + len` passes 2^32.
    pub fn slice_of_rva(&self, rva: u32, len: u32) -> Option<u32>
        ensures place { result ≡ slice_of_rva self.now.sections rva len }
        // The range ends at a file offset of 32 bits.
        ensures in_reach { IfSome result (λ at. at + len < 2 ^ 32) }
    {
        self.sections.slice_of_rva(rva, len)
    }
}
