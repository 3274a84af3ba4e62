//! A PE file of the sections of an input and two more.

ghost use Rattle.std.specs.Prelude.{◌≡◌, ℕ, ◌+◌, ◌-◌, ◌^◌, ◌≤◌, ◌<◌, List, [], ◌++◌, Some, None, length, map, take, drop, All, IfOk, OnOk, IsSome};
ghost use Rattle.std.specs.List.{flat_map, AllZip};
ghost use Rattle.rtr_bytes.specs.Checks.{first_fault};
ghost use Rattle.pe_image.specs.declared.section.PeSection.{PeSection as SectionHeader};
ghost use Rattle.pe_image.specs.Headers.{headers_of, sections_of};
ghost use Rattle.pe_image.specs.Checks.{pe_checks};
ghost use Rattle.pe_image.specs.Places.{dat_rva, cod_rva, dat_section, cod_section, placed_from, end_from, written_table_at, written_sections, written_length, length_bound, headers_end, AreLaid};
ghost use Rattle.pe_image.specs.Written.{image_size, header_sizes, header_values, header_fields, section_alignment_of, table_fields, Covers, StandsIn, IsPaddedFrom, HasPadded, IsWritable, KeepsRanges, KeepsRaw, FindsPart, HasCliHeader, FailsLate, IsWellFormedWith};
ghost use Rattle.pe_image.specs.Raw.{raw_of, raw_parts, padded, IsInFile};
ghost use Rattle.pe_image.specs.Pieces.{header_bytes, section_bytes, file_of};
ghost use Rattle.pe_image.specs.Parts.{parts_start, parts_sections, parts_raw, AreJoinable};

use crate::cli::CLI_HEADER_SIZE;
use crate::file::FileBytes;
use crate::numbers::{Number, put_numbers};
use crate::pe::Pe;
use crate::places::{
    FILE_ALIGNMENT, NEW_SECTIONS, NewSections, aligned, headers_end, put_padded, put_padding,
    raw_end,
};
use crate::section::PeSection;
use crate::values::{CoffHeader, Copied, HeaderValues, OptionalHeader, Sizes};
use rtr_bytes::{NoMemory, Span};
use std::alloc::Global;

/// SizeOfImage, for the end of the last section: a multiple of SectionAlignment where there is one of 32 bits.
fn image_size(alignment: u32, image_end: u32) -> u32
    ensures { result ≡ image_size alignment image_end }
{
    if alignment == 0 {
        return image_end;
    }
    let up = aligned(u64::from(image_end), u64::from(alignment));
    if up < 1 << 32 { up as u32 } else { image_end }
}

impl Sizes {
    /// What the optional header says of the sections of an input and two new ones.
    fn of(section_alignment: u32, section_count: u16, new: &NewSections) -> Sizes
        requires { new.now.cod.rva + new.now.cod.virtual_size < 2 ^ 32 }
        ensures { (sections : List SectionHeader) (bytes : List ℕ) (dat_len cod_len : ℕ)
            → section_alignment ≡ section_alignment_of bytes → section_count ≡ length sections + 2
            → new.now.dat ≡ dat_section sections dat_len → new.now.cod ≡ cod_section sections dat_len cod_len
            → result ≡ header_sizes sections bytes dat_len cod_len }
    {
        let headers_end = headers_end(section_count);
        Sizes {
            size_of_code: new.cod.raw_size,
            size_of_initialized_data: new.dat.raw_size,
            base_of_code: new.cod.rva,
            section_alignment,
            size_of_image: image_size(section_alignment, new.cod.rva + new.cod.virtual_size),
            size_of_headers: aligned(headers_end, FILE_ALIGNMENT) as u32,
        }
    }
}

impl PeSection {
    /// Appends the section header, with no relocations and no line numbers.
    fn put(&self, out: &mut Vec<u8>) -> Result<(), NoMemory>
        ensures { OnOk result (out.new.items ≡ out.old.items ++ section_bytes self.now) }
    {
        out.extend_from_slice(&self.name)?;
        put_numbers(
            out,
            &[
                Number::Four(self.virtual_size),
                Number::Four(self.rva),
                Number::Four(self.raw_size),
                Number::Four(self.raw_at),
                Number::Four(0),
                Number::Four(0),
                Number::Two(0),
                Number::Two(0),
                Number::Four(self.flags),
            ],
        )
    }

    /// The section's raw bytes in a file.
    fn raw_bytes<'a>(&self, bytes: &'a [u8]) -> &'a [u8]
        requires { IsInFile bytes.now self.now }
        ensures value { result.now ≡ raw_of bytes.now self.now }
        ensures small { length result.now < 2 ^ 32 }
    {
        if self.raw_size == 0 {
            return &bytes[..0];
        }
        let start = self.raw_at as usize;
        &bytes[start..start + self.raw_size as usize]
    }
}

/// Appends the headers of sections whose raw bytes are one after the other from a place on. It gives the place where
/// those end.
fn put_table(out: &mut Vec<u8>, sections: &[PeSection], first: u32) -> Result<u32, NoMemory>
    requires { end_from first sections.now < 2 ^ 32 }
    ensures table { OnOk result (out.new.items ≡ out.old.items ++ flat_map section_bytes (placed_from first sections.now)) }
    ensures next { IfOk result (λ at. at ≡ end_from first sections.now) }
{
    let mut at = first;
    for section in sections {
        let placed = PeSection {
            raw_at: at,
            ..*section
        };
        placed.put(out)?;
        at += aligned(u64::from(section.raw_size), FILE_ALIGNMENT) as u32;
    }
    Ok(at)
}

/// Appends the raw bytes of sections, each padded.
fn put_raw(out: &mut Vec<u8>, sections: &[PeSection], bytes: &[u8]) -> Result<(), NoMemory>
    requires { All (IsInFile bytes.now) sections.now }
    ensures { OnOk result (out.new.items ≡ out.old.items ++ flat_map padded (map (raw_of bytes.now) sections.now)) }
{
    for section in sections {
        put_padded(out, section.raw_bytes(bytes))?;
    }
    Ok(())
}

/// What a written file is joined from.
#[derive(Clone, Copy)]
pub(crate) struct Parts<'a> {
    /// The headers up to the section table.
    pub values: HeaderValues,
    /// The section headers of the input.
    pub sections: &'a [PeSection],
    /// Those of the two new sections.
    pub new: NewSections,
    /// The bytes of the input.
    pub bytes: &'a [u8],
    /// The bytes of `.r2rdat`.
    pub dat: &'a [u8],
    /// The bytes of `.r2rcod`.
    pub cod: &'a [u8],
}

impl<'a> Parts<'a> {
    /// How many bytes the file has.
    fn len(&self) -> u32
        requires { AreJoinable self.now }
        ensures { result ≡ end_from (parts_start self.now) (parts_sections self.now) }
    {
        let first = self.values.optional.size_of_headers;
        raw_end(&[self.new.dat, self.new.cod], raw_end(self.sections, first))
    }

    /// Appends the headers to nothing, padded.
    fn put_headers(&self, out: &mut Vec<u8>) -> Result<(), NoMemory>
        requires joinable { AreJoinable self.now }
        requires first { out.old.items ≡ [] }
        ensures { OnOk result (out.new.items ≡ padded (header_bytes self.now.values
            ++ flat_map section_bytes (placed_from (parts_start self.now) (parts_sections self.now)))) }
    {
        self.values.put(out)?;
        let first = self.values.optional.size_of_headers;
        let next = put_table(out, self.sections, first)?;
        put_table(out, &[self.new.dat, self.new.cod], next)?;
        let len = out.len();
        put_padding(out, len)
    }

    /// The whole file.
    fn join(&self, alloc: Global) -> Result<Vec<u8>, NoMemory>
        requires { AreJoinable self.now }
        ensures { IfOk result (λ out. out.items ≡ file_of self.now.values
            (placed_from (parts_start self.now) (parts_sections self.now)) (parts_raw self.now)) }
    {
        let mut out = Vec::with_capacity(alloc, self.len() as usize)?;
        self.put_headers(&mut out)?;
        put_raw(&mut out, self.sections, self.bytes)?;
        put_padded(&mut out, self.dat)?;
        put_padded(&mut out, self.cod)?;
        Ok(out)
    }
}

/// Writes a PE32+ file for A64 of an input's sections and two more, `.r2rdat` with the bytes `dat` and `.r2rcod` with
/// `cod` (PE/COFF 2 to 4). The CLI header is the one in `dat` at the RVA `cli_at`. The input's bytes keep their RVAs,
/// and raw places move.
///
/// `input` is what [`Pe::read`] answered for `bytes`, of which there are at most 2^31, and
/// [`can_write_pe`](crate::can_write_pe) answers true. `NoMemory` comes where memory is refused.
pub fn write_pe(
    alloc: Global,
    input: &Pe,
    bytes: &[u8],
    dat: &[u8],
    cod: &[u8],
    cli_at: u32,
) -> Result<Vec<u8>, NoMemory>
    requires small { length bytes.now ≤ 2 ^ 31 }
    // The headers are those of the bytes, which pass their checks.
    requires read { input.now ≡ headers_of bytes.now }
    requires well_formed { first_fault pe_checks bytes.now ≡ None }
    requires writable { IsWritable input.now.sections (length dat.now) (length cod.now) cli_at }

    // Each number of the headers is at its place, and the fields are all that the file has before its section table.
    ensures headers { IfOk result (λ out. All (StandsIn out.items)
        (header_fields (header_values input.now.sections bytes.now (length dat.now) (length cod.now) cli_at))) }
    ensures covered { Covers 0
        (header_fields (header_values input.now.sections bytes.now (length dat.now) (length cod.now) cli_at)) written_table_at }
    // The input's section headers with raw places moved, and then the two new ones. They have no relocations and no line numbers.
    ensures sections { IfOk result (λ out. sections_of out.items ≡ written_sections input.now.sections (length dat.now) (length cod.now)) }
    ensures table { IfOk result (λ out. All (StandsIn out.items)
        (table_fields written_table_at (written_sections input.now.sections (length dat.now) (length cod.now)))) }
    ensures laid { IfOk result (λ out. AreLaid (headers_end (length input.now.sections + 2)) (sections_of out.items) (length out.items)) }
    ensures length { IfOk result (λ out. length out.items ≡ written_length input.now.sections (length dat.now) (length cod.now)) }
    ensures bounded { IfOk result (λ out. length out.items ≤ length_bound input.now.sections (length dat.now) (length cod.now)) }

    // After the headers, and after the bytes of each section, there are zeros up to a multiple of 512.
    ensures headers_padded { IfOk result (λ out. IsPaddedFrom out.items (headers_end (length input.now.sections + 2))) }
    ensures padded { IfOk result (λ out. AllZip (HasPadded out.items) (sections_of out.items)
        (raw_parts input.now.sections bytes.now dat.now cod.now)) }
    // Each section of the input keeps its raw bytes, whether an RVA leads to them or not.
    ensures raw { IfOk result (λ out. KeepsRaw input.now.sections bytes.now (sections_of out.items) out.items) }
    // Bytes by their RVAs.
    ensures kept { IfOk result (λ out. KeepsRanges input.now.sections bytes.now (sections_of out.items) out.items) }
    ensures dat { IfOk result (λ out. FindsPart (sections_of out.items) out.items (dat_rva input.now.sections) dat.now) }
    ensures cod { IfOk result (λ out. FindsPart (sections_of out.items) out.items (cod_rva input.now.sections (length dat.now)) cod.now) }

    // Read back.
    ensures cli { IfOk result (λ out. HasCliHeader out.items cli_at dat.now (cli_at - dat_rva input.now.sections)) }
    ensures late { IfOk result (λ out. FailsLate out.items) }
    ensures well_formed { IfOk result (λ out. IsWellFormedWith out.items dat.now (cli_at - dat_rva input.now.sections)) }
{
    let sections = input.sections();
    let new = NewSections::after(sections, dat.len() as u32, cod.len() as u32);
    let section_count = (sections.len() + NEW_SECTIONS) as u16;
    let copied = Copied::of(&FileBytes::new(bytes), input.wide());
    let sizes = Sizes::of(copied.section_alignment, section_count, &new);
    let values = HeaderValues {
        coff: CoffHeader::of(section_count),
        optional: OptionalHeader::of(&sizes),
        resource_table: copied.resource_table,
        cli_header: Span {
            start: cli_at,
            len: CLI_HEADER_SIZE,
        },
    };
    let parts = Parts {
        values,
        sections,
        new,
        bytes,
        dat,
        cod,
    };
    parts.join(alloc)
}
