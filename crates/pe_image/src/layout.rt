//! The places of the headers: the checks up to the section table.

ghost use Rattle.std.specs.Prelude.{◌≡◌, ◌+◌, ◌*◌, ◌<◌, ◌≤◌, ◌^◌, ◌++◌, length, All, IfOk, IfErr, OnOk, if◌then◌else◌};
ghost use Rattle.rtr_bytes.specs.Checks.{first_fault, RefusedBy};
ghost use Rattle.pe_image.specs.Headers.{pe_at, machine_of, is_wide, directories_offset, optional_at, section_table_at, section_count, sections_of};
ghost use Rattle.pe_image.specs.Checks.{coff_checks, optional_checks, section_checks};
ghost use Rattle.pe_image.specs.Sections.{IsInReach};

use crate::check::Check;
use crate::file::FileBytes;
use crate::section::{PeSection, SECTION_HEADER_SIZE};
use rtr_bytes::{Fault, ReadRefusal, ensure};
use std::alloc::Global;
use std::marker::Model;

/// The bytes of an MS-DOS header.
pub(crate) const DOS_HEADER_SIZE: u32 = 64;
/// The bytes "MZ" at its start, lowest first.
pub(crate) const DOS_SIGNATURE: u16 = 0x5A4D;
/// Where it has the place of the PE signature.
pub(crate) const SIGNATURE_PLACE: u32 = 60;
/// The bytes "PE", 0, 0, lowest first.
pub(crate) const PE_SIGNATURE: u32 = 0x4550;

/// Machine, from the PE signature on (PE/COFF 3.3).
const MACHINE: u32 = 4;
/// NumberOfSections.
const NUMBER_OF_SECTIONS: u32 = 6;
/// SizeOfOptionalHeader.
const SIZE_OF_OPTIONAL_HEADER: u32 = 20;
/// The optional header, after the signature and the COFF header.
pub(crate) const OPTIONAL_HEADER: u32 = 24;

/// Magic of PE32, whose addresses have 32 bits (PE/COFF 3.4).
const MAGIC_PE32: u16 = 0x10B;
/// Magic of PE32+.
pub(crate) const MAGIC_PE32_PLUS: u16 = 0x20B;
/// The bytes of Magic.
const MAGIC_SIZE: u32 = 2;
/// The bytes of a data directory.
pub(crate) const DIRECTORY_SIZE: u32 = 8;
/// How many data directories a file must have: those up to the CLI header's.
const DIRECTORIES: u32 = 15;

/// How far into an optional header the data directories are, in PE32+ and in PE32. Their count is just before them.
pub(crate) fn directories_offset(wide: bool) -> u32
    ensures { result ≡ (if wide then 112 else 96) }
{
    if wide { 112 } else { 96 }
}

impl<'a> FileBytes<'a> {
    /// The place of the PE signature, once the optional header ends in the file.
    fn signature_at(&self) -> Result<u32, Fault>
        ensures fault { IfErr result (λ f. first_fault coff_checks self.now ≡ Some f) }
        ensures ok { OnOk result (first_fault coff_checks self.now ≡ None) }
        ensures place { IfOk result (λ pe. pe ≡ pe_at self.now) }
        ensures fits { OnOk result (section_table_at self.now ≤ length self.now) }
    {
        let len = self.len();
        ensure(len >= DOS_HEADER_SIZE, Check::DosHeader as u16, len)?;
        ensure(self.u16(0) == DOS_SIGNATURE, Check::DosSignature as u16, 0)?;
        let pe = self.u32(SIGNATURE_PLACE);
        let optional = u64::from(pe) + u64::from(OPTIONAL_HEADER);
        ensure(
            optional <= u64::from(len),
            Check::CoffHeader as u16,
            SIGNATURE_PLACE,
        )?;
        ensure(self.u32(pe) == PE_SIGNATURE, Check::PeSignature as u16, pe)?;
        let size_at = pe + SIZE_OF_OPTIONAL_HEADER;
        let end = pe + OPTIONAL_HEADER + u32::from(self.u16(size_at));
        ensure(end <= len, Check::OptionalHeader as u16, size_at)?;
        Ok(pe)
    }
}

/// A file whose headers are in order up to the end of its section table, with their places. Contracts see the file's bytes.
#[derive(Drop)]
pub(crate) struct Layout<'a> {
    file: FileBytes<'a>,
    machine: u16,
    wide: bool,
    directories: u32,
    section_table: u32,
    section_count: u16,
}

impl<'a> Model for Layout<'a> {
    ghost use Rattle.std.specs.Prelude.{ℕ, List};
    ghost use Rattle.pe_image.specs.Layout.{IsLayout};

    ghost Value = { List ℕ };

    ghost view = { λ l. l.file };

    ghost invariant = { λ l. IsLayout l.file l.machine l.wide l.directories l.section_table l.section_count };
}

impl<'a> Layout<'a> {
    /// The layout of a file, once its section table ends in the file.
    pub(crate) fn read(file: FileBytes<'a>) -> Result<Layout<'a>, Fault>
        ensures fault { IfErr result (λ f. first_fault (coff_checks ++ optional_checks) file.entry ≡ Some f) }
        ensures ok { OnOk result (first_fault (coff_checks ++ optional_checks) file.entry ≡ None) }
        ensures file { IfOk result (λ layout. layout ≡ file.entry) }
    {
        let pe = file.signature_at()?;
        let optional = pe + OPTIONAL_HEADER;
        let size = u32::from(file.u16(pe + SIZE_OF_OPTIONAL_HEADER));
        let magic = file.u16(optional);
        let wide = magic == MAGIC_PE32_PLUS;
        let known = size >= MAGIC_SIZE && (wide || magic == MAGIC_PE32);
        ensure(known, Check::Magic as u16, optional)?;
        let offset = directories_offset(wide);
        let room = size >= offset + DIRECTORIES * DIRECTORY_SIZE;
        ensure(
            room,
            Check::DataDirectories as u16,
            pe + SIZE_OF_OPTIONAL_HEADER,
        )?;
        let directories = optional + offset;
        let count_at = directories - 4;
        let enough = file.u32(count_at) >= DIRECTORIES;
        ensure(enough, Check::NumberOfRvaAndSizes as u16, count_at)?;
        let section_table = optional + size;
        let section_count = file.u16(pe + NUMBER_OF_SECTIONS);
        let table_end = section_table + SECTION_HEADER_SIZE * u32::from(section_count);
        ensure(
            table_end <= file.len(),
            Check::SectionTable as u16,
            pe + NUMBER_OF_SECTIONS,
        )?;
        let machine = file.u16(pe + MACHINE);
        Ok(Layout {
            file,
            machine,
            wide,
            directories,
            section_table,
            section_count,
        })
    }

    /// The file.
    pub(crate) fn file(&self) -> &FileBytes<'a>
        ensures { result.now ≡ self.now }
    {
        &self.file
    }

    /// Machine (PE/COFF 3.3.1).
    pub(crate) fn machine(&self) -> u16
        ensures { result ≡ machine_of self.now }
    {
        self.machine
    }

    /// Whether the optional header is that of PE32+.
    pub(crate) fn wide(&self) -> bool
        ensures { result ≡ is_wide self.now }
    {
        self.wide
    }

    /// The place of a data directory by its number (PE/COFF 3.4.3), of those up to the CLI header's.
    pub(crate) fn directory(&self, number: u32) -> u32
        requires { number < 15 }
        ensures place { result ≡ optional_at self.now + directories_offset self.now + 8 * number }
        ensures inside { result + 8 ≤ length self.now }
        ensures small { length self.now ≤ 2 ^ 31 }
    {
        self.directories + DIRECTORY_SIZE * number
    }

    /// The section headers, once each raw range ends in the file.
    pub(crate) fn sections(&self, alloc: Global) -> Result<Vec<PeSection>, ReadRefusal>
        ensures fault { IfErr result (λ e. RefusedBy (first_fault section_checks self.now) e) }
        ensures ok { OnOk result (first_fault section_checks self.now ≡ None) }
        ensures sections { IfOk result (λ sections. sections.items ≡ sections_of self.now) }
        ensures in_reach { IfOk result (λ sections. All IsInReach sections.items) }
    {
        let mut sections = Vec::new(alloc);
        for i in 0..u32::from(self.section_count) {
            let at = self.section_table + SECTION_HEADER_SIZE * i;
            let section = PeSection::checked(&self.file, at)?;
            sections.push(section)?;
        }
        Ok(sections)
    }
}
