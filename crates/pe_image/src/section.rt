//! Section headers, and the file place of an RVA.

ghost use Rattle.std.specs.Prelude.{◌≡◌, ◌+◌, ◌≤◌, ◌<◌, ◌^◌, length, IfOk, IfErr, OnOk, IfSome, All, true, false};
ghost use Rattle.pe_image.specs.Checks.{raw_range_fits};
ghost use Rattle.pe_image.specs.Sections.{section_at, has_range, slice_of_rva, IsInReach};

use crate::check::Check;
use crate::file::FileBytes;
use rtr_bytes::{Fault, ensure};

/// One section header (PE/COFF 4). Sizes are in bytes.
#[derive(Clone, Copy, Debug, PartialEq, Eq)]
pub struct PeSection {
    /// Name: eight bytes, of which the trailing zeros are padding.
    pub name: [u8; 8],
    /// VirtualSize.
    pub virtual_size: u32,
    /// VirtualAddress, the RVA of the section's first byte.
    pub rva: u32,
    /// SizeOfRawData.
    pub raw_size: u32,
    /// PointerToRawData, a file offset.
    pub raw_at: u32,
    /// Characteristics.
    pub flags: u32,
}

/// The bytes of a section header.
pub(crate) const SECTION_HEADER_SIZE: u32 = 40;
/// VirtualSize, from the section header's start on. Name is before it.
const VIRTUAL_SIZE: u32 = 8;
/// VirtualAddress.
const VIRTUAL_ADDRESS: u32 = 12;
/// SizeOfRawData.
const SIZE_OF_RAW_DATA: u32 = 16;
/// PointerToRawData.
const POINTER_TO_RAW_DATA: u32 = 20;
/// Characteristics. The fields of relocations and line numbers are before it.
const CHARACTERISTICS: u32 = 36;

impl PeSection {
    /// The section header at a place.
    fn read(file: &FileBytes<'_>, at: u32) -> PeSection
        requires { at + 40 ≤ length file.now }
        ensures { result ≡ section_at file.now at }
    {
        PeSection {
            name: file.eight(at),
            virtual_size: file.u32(at + VIRTUAL_SIZE),
            rva: file.u32(at + VIRTUAL_ADDRESS),
            raw_size: file.u32(at + SIZE_OF_RAW_DATA),
            raw_at: file.u32(at + POINTER_TO_RAW_DATA),
            flags: file.u32(at + CHARACTERISTICS),
        }
    }

    /// The section header at a place, once its raw range ends in the file.
    pub(crate) fn checked(file: &FileBytes<'_>, at: u32) -> Result<PeSection, Fault>
        requires { at + 40 ≤ length file.now }
        ensures fault { IfErr result (λ f. (raw_range_fits file.now at ≡ false) × (f ≡ record { check = 11; place = at + 20 })) }
        ensures fits { OnOk result (raw_range_fits file.now at ≡ true) }
        ensures section { IfOk result (λ section. section ≡ section_at file.now at) }
        ensures in_reach { IfOk result IsInReach }
    {
        let len = u64::from(file.len());
        let section = PeSection::read(file, at);
        let end = u64::from(section.raw_at) + u64::from(section.raw_size);
        let fits = section.raw_size == 0 || end <= len;
        ensure(fits, Check::RawData as u16, at + POINTER_TO_RAW_DATA)?;
        Ok(section)
    }

    /// Whether the section's raw bytes hold a range of RVAs.
    fn has_range(&self, rva: u32, len: u32) -> bool
        ensures { result ≡ has_range rva len self.now }
    {
        self.rva <= rva
            && u64::from(rva) + u64::from(len) <= u64::from(self.rva) + u64::from(self.raw_size)
    }
}

/// The file place of a range of RVAs in the first of these sections that holds it.
pub(crate) fn slice_in(sections: &[PeSection], rva: u32, len: u32) -> Option<u32>
    requires { All IsInReach sections.now }
    ensures place { result ≡ slice_of_rva sections.now rva len }
    ensures in_reach { IfSome result (λ at. at + len < 2 ^ 32) }
{
    if u64::from(rva) + u64::from(len) > 1 << 32 {
        return None;
    }
    for section in sections {
        if section.has_range(rva, len) {
            return Some(section.raw_at + (rva - section.rva));
        }
    }
    None
}
