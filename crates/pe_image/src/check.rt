//! The checks of the PE headers and of the CLI header.

ghost use Rattle.std.specs.Prelude.{◌≡◌, Some, None, IfOk, IfErr};

use rtr_bytes::Fault;

/// A check by its number, as `dump` prints it.
#[derive(Clone, Copy)]
pub(crate) enum Check {
    /// The file has the 64 bytes of an MS-DOS header.
    DosHeader = 1,
    /// It begins with "MZ".
    DosSignature = 2,
    /// The PE signature and the COFF header end in the file.
    CoffHeader = 3,
    /// The PE signature is "PE", 0, 0.
    PeSignature = 4,
    /// The optional header ends in the file.
    OptionalHeader = 6,
    /// Magic is that of PE32 or of PE32+.
    Magic = 7,
    /// SizeOfOptionalHeader has room for fifteen data directories.
    DataDirectories = 8,
    /// NumberOfRvaAndSizes is at least fifteen.
    NumberOfRvaAndSizes = 9,
    /// The section table ends in the file.
    SectionTable = 10,
    /// The raw data of each section end in the file.
    RawData = 11,
    /// Data directory 14 names the bytes of a CLI header in a section.
    CliDirectory = 12,
    /// `cb` of the CLI header is at least its size.
    CliHeaderSize = 13,
    /// The metadata are in a section.
    Metadata = 14,
}

/// A place that was looked up, or the fault of a check at a place where there is none.
pub(crate) fn found(place: Option<u32>, check: u16, at: u32) -> Result<u32, Fault>
    ensures found { IfOk result (λ found. place ≡ Some found) }
    ensures fault { IfErr result (λ f. (place ≡ None) × (f ≡ record { check = check; place = at })) }
{
    match place {
        Some(found) => Ok(found),
        None => Err(Fault { check, place: at }),
    }
}
