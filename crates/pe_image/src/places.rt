//! The places of the parts of a written file.

ghost use Rattle.std.specs.Prelude.{◌≡◌, ◌+◌, ◌-◌, ◌*◌, ◌%◌, ◌≤◌, ◌<◌, ◌^◌, ◌++◌, length, vec_len, replicate, OnOk};
ghost use Rattle.pe_image.specs.Places.{aligned, highest_end, dat_rva, cod_rva, alignment_room, headers_end, dat_section, cod_section, end_from};
ghost use Rattle.pe_image.specs.Raw.{padded};

use crate::layout::{DOS_HEADER_SIZE, OPTIONAL_HEADER};
use crate::section::{PeSection, SECTION_HEADER_SIZE};
use crate::values::OPTIONAL_HEADER_SIZE;
use rtr_bytes::NoMemory;

/// FileAlignment of a written file, in bytes.
pub(crate) const FILE_ALIGNMENT: u64 = 512;
/// The two new sections begin at multiples of this.
pub(crate) const NEW_SECTION_ALIGNMENT: u64 = 65536;
/// Room for both to do so.
pub(crate) const ALIGNMENT_ROOM: u64 = 2 * NEW_SECTION_ALIGNMENT;
/// How many sections a written file has after those of its input.
pub(crate) const NEW_SECTIONS: usize = 2;

/// Where the section table of a written file is: after the MS-DOS header, the PE signature and the COFF header, and the
/// optional header.
const SECTION_TABLE: u64 = DOS_HEADER_SIZE as u64
    + OPTIONAL_HEADER as u64
    + OPTIONAL_HEADER_SIZE as u64;

/// Where the headers of a written file with so many sections end.
pub(crate) fn headers_end(section_count: u16) -> u64
    ensures value { result ≡ headers_end section_count }
    ensures small { result < 2 ^ 22 }
{
    SECTION_TABLE + u64::from(SECTION_HEADER_SIZE) * u64::from(section_count)
}

/// The least multiple of a unit that isn't below a place.
pub(crate) fn aligned(place: u64, unit: u64) -> u64
    requires nonzero { 0 < unit }
    requires small { place + unit < 2 ^ 64 }
    ensures value { result ≡ aligned unit place }
    ensures low { place ≤ result }
    ensures high { result < place + unit }
{
    place.next_multiple_of(unit)
}

/// The end of the section that ends last in the image, after the larger of its two sizes.
pub(crate) fn highest_end(sections: &[PeSection]) -> u64
    ensures value { result ≡ highest_end sections.now }
    ensures small { result < 2 ^ 33 }
{
    let mut highest = 0;
    for section in sections {
        let size = section.virtual_size.max(section.raw_size);
        highest = highest.max(u64::from(section.rva) + u64::from(size));
    }
    highest
}

/// IMAGE_SCN_CNT_INITIALIZED_DATA, IMAGE_SCN_MEM_READ and IMAGE_SCN_MEM_WRITE (PE/COFF 4.1).
const DATA_FLAGS: u32 = 0x0000_0040 | 0x4000_0000 | 0x8000_0000;
/// IMAGE_SCN_CNT_CODE, IMAGE_SCN_MEM_EXECUTE and IMAGE_SCN_MEM_READ.
const CODE_FLAGS: u32 = 0x0000_0020 | 0x2000_0000 | 0x4000_0000;

/// The headers of the sections that a written file has after those of its input. Their raw bytes have no place yet.
#[derive(Clone, Copy)]
pub(crate) struct NewSections {
    pub dat: PeSection,
    pub cod: PeSection,
}

impl NewSections {
    /// Those after the sections of an input, for so many bytes.
    pub(crate) fn after(sections: &[PeSection], dat_len: u32, cod_len: u32) -> NewSections
        requires room { highest_end sections.now + dat_len + cod_len + alignment_room < 2 ^ 32 }
        ensures dat { result.dat ≡ dat_section sections.now dat_len }
        ensures cod { result.cod ≡ cod_section sections.now dat_len cod_len }
    {
        let dat_rva = aligned(highest_end(sections), NEW_SECTION_ALIGNMENT);
        let cod_rva = aligned(dat_rva + u64::from(dat_len), NEW_SECTION_ALIGNMENT);
        NewSections {
            dat: PeSection {
                name: *b".r2rdat\0",
                virtual_size: dat_len,
                rva: dat_rva as u32,
                raw_size: aligned(u64::from(dat_len), FILE_ALIGNMENT) as u32,
                raw_at: 0,
                flags: DATA_FLAGS,
            },
            cod: PeSection {
                name: *b".r2rcod\0",
                virtual_size: cod_len,
                rva: cod_rva as u32,
                raw_size: aligned(u64::from(cod_len), FILE_ALIGNMENT) as u32,
                raw_at: 0,
                flags: CODE_FLAGS,
            },
        }
    }
}

/// Where the raw bytes of sections end that are one after the other from a place on, each padded to a multiple of 512.
pub(crate) fn raw_end(sections: &[PeSection], first: u32) -> u32
    requires { end_from first sections.now < 2 ^ 32 }
    ensures { result ≡ end_from first sections.now }
{
    let mut at = first;
    for section in sections {
        at += aligned(u64::from(section.raw_size), FILE_ALIGNMENT) as u32;
    }
    at
}

/// Appends zeros, so that bytes of a length end at a multiple of 512.
pub(crate) fn put_padding(out: &mut Vec<u8>, len: usize) -> Result<(), NoMemory>
    requires { len + 512 < 2 ^ 64 }
    ensures { OnOk result (out.new.items ≡ out.old.items ++ replicate (aligned 512 len - len) 0) }
{
    let more = aligned(len as u64, FILE_ALIGNMENT) as usize - len;
    out.extend_from_slice(&[0; 512][..more])?;
    Ok(())
}

/// Appends bytes, and zeros up to a multiple of 512.
pub(crate) fn put_padded(out: &mut Vec<u8>, bytes: &[u8]) -> Result<(), NoMemory>
    requires { length bytes.now + 512 < 2 ^ 64 }
    ensures { OnOk result (out.new.items ≡ out.old.items ++ padded bytes.now) }
{
    out.extend_from_slice(bytes)?;
    put_padding(out, bytes.len())
}
