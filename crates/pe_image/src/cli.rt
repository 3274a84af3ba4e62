//! The CLI header (ECMA-335 II.25.3.3).

ghost use Rattle.std.specs.Prelude.{◌≡◌, ◌+◌, ◌<◌, ◌^◌, IfOk, IfErr, OnOk};
ghost use Rattle.rtr_bytes.specs.Checks.{first_fault};
ghost use Rattle.pe_image.specs.Headers.{sections_of, cli_at, native_span};
ghost use Rattle.pe_image.specs.Checks.{directory_checks, cli_header_checks, cli_checks};
ghost use Rattle.pe_image.specs.Cli.{IsCliOf};
ghost use Rattle.pe_image.specs.Reach.{EndsInReach};

use crate::check::{Check, found};
use crate::layout::Layout;
use crate::table::SectionTable;
use rtr_bytes::{Fault, Span, ensure};

/// The data directory of the CLI header (PE/COFF 3.4.3).
const CLI_DIRECTORY: u32 = 14;
/// The bytes of a CLI header, and its least `cb`.
pub(crate) const CLI_HEADER_SIZE: u32 = 72;
/// The RVA and the size of the metadata, from the CLI header's start on.
const METADATA: u32 = 8;
/// Flags.
const FLAGS: u32 = 16;
/// EntryPointToken.
const ENTRY_POINT_TOKEN: u32 = 20;
/// The RVA and the size of ManagedNativeHeader.
const MANAGED_NATIVE_HEADER: u32 = 64;

/// What the CLI header says, and its place in the file.
#[derive(Clone, Copy, Debug)]
pub(crate) struct Cli {
    /// The header's own bytes, as a range of the file.
    pub header: Span,
    /// The metadata, as a range of the file.
    pub metadata: Span,
    /// Flags.
    pub flags: u32,
    /// EntryPointToken.
    pub entry_token: u32,
    /// ManagedNativeHeader, as a range of RVAs: `None` where both numbers are 0.
    pub native: Option<Span>,
}

/// A range of RVAs, and `None` where both numbers are 0.
fn native_span(start: u32, len: u32) -> Option<Span>
    ensures { result ≡ native_span start len }
{
    if start == 0 && len == 0 {
        None
    } else {
        Some(Span { start, len })
    }
}

impl Cli {
    /// The place of the CLI header that data directory 14 names.
    fn place(layout: &Layout<'_>, sections: &SectionTable) -> Result<u32, Fault>
        requires { sections.now ≡ sections_of layout.now }
        ensures fault { IfErr result (λ f. first_fault directory_checks layout.now ≡ Some f) }
        ensures ok { OnOk result (first_fault directory_checks layout.now ≡ None) }
        ensures place { IfOk result (λ at. at ≡ cli_at layout.now) }
        ensures in_reach { IfOk result (λ at. at + 72 < 2 ^ 32) }
    {
        let file = layout.file();
        let directory = layout.directory(CLI_DIRECTORY);
        let size = file.u32(directory + 4);
        ensure(
            size >= CLI_HEADER_SIZE,
            Check::CliDirectory as u16,
            directory,
        )?;
        let place = sections.slice_of_rva(file.u32(directory), CLI_HEADER_SIZE);
        found(place, Check::CliDirectory as u16, directory)
    }

    /// The CLI header at a place, once it is whole and its metadata are in a section.
    fn at(layout: &Layout<'_>, sections: &SectionTable, at: u32) -> Result<Cli, Fault>
        requires sections { sections.now ≡ sections_of layout.now }
        requires here { at ≡ cli_at layout.now }
        requires in_reach { at + 72 < 2 ^ 32 }
        ensures fault { IfErr result (λ f. first_fault cli_header_checks layout.now ≡ Some f) }
        ensures ok { OnOk result (first_fault cli_header_checks layout.now ≡ None) }
        ensures cli { IfOk result (λ cli. IsCliOf layout.now cli) }
        ensures metadata_in_reach { IfOk result (λ cli. EndsInReach cli.metadata) }
    {
        let file = layout.file();
        let cb = file.u32(at);
        ensure(cb >= CLI_HEADER_SIZE, Check::CliHeaderSize as u16, at)?;
        let len = file.u32(at + METADATA + 4);
        let place = sections.slice_of_rva(file.u32(at + METADATA), len);
        let start = found(place, Check::Metadata as u16, at + METADATA)?;
        Ok(Cli {
            header: Span {
                start: at,
                len: CLI_HEADER_SIZE,
            },
            metadata: Span { start, len },
            flags: file.u32(at + FLAGS),
            entry_token: file.u32(at + ENTRY_POINT_TOKEN),
            native: native_span(
                file.u32(at + MANAGED_NATIVE_HEADER),
                file.u32(at + MANAGED_NATIVE_HEADER + 4),
            ),
        })
    }

    /// The CLI header that data directory 14 names, once it is whole and its metadata are in a section.
    pub(crate) fn read(layout: &Layout<'_>, sections: &SectionTable) -> Result<Cli, Fault>
        requires { sections.now ≡ sections_of layout.now }
        ensures fault { IfErr result (λ f. first_fault cli_checks layout.now ≡ Some f) }
        ensures ok { OnOk result (first_fault cli_checks layout.now ≡ None) }
        ensures cli { IfOk result (λ cli. IsCliOf layout.now cli) }
        ensures header_in_reach { IfOk result (λ cli. EndsInReach cli.header) }
        ensures metadata_in_reach { IfOk result (λ cli. EndsInReach cli.metadata) }
    {
        let at = Cli::place(layout, sections)?;
        Cli::at(layout, sections, at)
    }
}
