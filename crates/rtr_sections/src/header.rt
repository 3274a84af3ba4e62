//! The ReadyToRun header of a file, and its section records.

ghost use Rattle.std.specs.Prelude.{◌≡◌, ◌+◌, ◌*◌, ◌<◌, ◌^◌, length, drop, IfOk, IfErr, OnOk, IfSome, is_some, true, None, ◌==◌, find};
ghost use Rattle.std.specs.List.{list_any};
ghost use Rattle.std.specs.Option.{option_map};
ghost use Rattle.rtr_bytes.specs.Checks.{fault_or, first_fault, records, RefusedBy};
ghost use Rattle.pe_image.specs.Headers.{native_of, place_of};
ghost use Rattle.rtr_sections.specs.Listed.{first_failing, first_overlap};
ghost use Rattle.rtr_sections.specs.Header.{native_rva, native_at, records_at, record_count, header_checks, has_whole_imports, place_checks, rtr_section_at, rtr_sections_of, is_own_kind, is_identifier, is_own, section_is_placed, table_checks, rtr_header_of, part_at, part_of};

use crate::check::Check;
use crate::file::File;
use crate::imports;
use rtr_bytes::{Fault, NoMemory, ReadRefusal, Sequence, Span, ensure};
use std::alloc::Global;

/// One section record of the ReadyToRun header (ReadyToRun File Format, "READYTORUN_SECTION").
#[derive(Clone, Copy, Debug, PartialEq, Eq)]
pub struct RtrSection {
    /// Type (ReadyToRunSectionType): 101 is ImportSections.
    pub kind: u32,
    /// The RVA of the section's first byte.
    pub rva: u32,
    /// Its size in bytes.
    pub size: u32,
}

/// A ReadyToRun header with its section records (ReadyToRun File Format, "READYTORUN_HEADER").
#[derive(Debug, Drop)]
pub struct RtrHeader {
    /// The file offset of its first byte.
    pub at: u32,
    /// MajorVersion.
    pub major: u16,
    /// MinorVersion.
    pub minor: u16,
    /// Flags.
    pub flags: u32,
    /// The section records, in their order.
    pub sections: Sequence<RtrSection>,
}

/// Signature: "RTR" and a zero, read lowest first.
pub(crate) const SIGNATURE: u32 = 0x0052_5452;
/// The bytes of the header before its section records.
const HEADER_SIZE: u32 = 16;
/// The bytes of a section record.
const RECORD_SIZE: u32 = 12;
/// Where ManagedNativeHeader is in the CLI header.
const MANAGED_NATIVE_HEADER: u32 = 64;
/// Where MajorVersion is in the header.
const MAJOR: u32 = 4;
/// Where MinorVersion is in the header.
const MINOR: u32 = 6;
/// Where Flags is in the header.
const FLAGS: u32 = 8;
/// Where NumberOfSections is in the header.
const NUMBER_OF_SECTIONS: u32 = 12;
/// Where the RVA is in a section record.
const SECTION_RVA: u32 = 4;
/// Where the size is in a section record.
const SECTION_SIZE: u32 = 8;

/// CompilerIdentifier, a type of section (ReadyToRunSectionType).
pub(crate) const COMPILER_IDENTIFIER: u32 = 100;
/// ImportSections.
pub(crate) const IMPORT_SECTIONS: u32 = 101;
/// RuntimeFunctions.
pub(crate) const RUNTIME_FUNCTIONS: u32 = 102;
/// MethodDefEntryPoints.
pub(crate) const METHOD_DEF_ENTRY_POINTS: u32 = 103;
/// DelayLoadMethodCallThunks.
pub(crate) const DELAY_LOAD_METHOD_CALL_THUNKS: u32 = 106;

/// The identifier of this compiler's images.
pub(crate) const IDENTIFIER: &[u8; 14] = b"r2r profile 1\0";
/// The bytes of that identifier.
const IDENTIFIER_SIZE: u32 = 14;
/// The machine of this compiler's images, IMAGE_FILE_MACHINE_ARM64.
const MACHINE_ARM64: u16 = 0xAA64;
/// MajorVersion of this compiler's images.
pub(crate) const MAJOR_VERSION: u16 = 5;
/// MinorVersion of this compiler's images.
pub(crate) const MINOR_VERSION: u16 = 0;

/// Where a header and its section records are in the file.
#[derive(Clone, Copy)]
struct HeaderPlaces {
    header: u32,
    /// Of no meaning where there is no record.
    records: u32,
    count: u32,
}

/// The file offset of `count` section records after the header at an RVA, whose range is in a section. Of no
/// meaning where there is no record.
fn records_in(file: &File<'_>, header: u32, count: u32) -> Option<u32>
    requires header { is_some (place_of file.now header 16) ≡ true }
    ensures found { is_some result ≡ is_some (place_of file.now (header + 16) (12 * count)) }
    ensures place { 0 < count → result ≡ place_of file.now (header + 16) (12 * count) }
    ensures in_reach { IfSome result (λ at. at + 12 * count < 2 ^ 32) }
{
    if count == 0 {
        return Some(0);
    }
    let start = header.checked_add(HEADER_SIZE)?;
    let len = count.checked_mul(RECORD_SIZE)?;
    file.place_of(start, len)
}

/// The header that `native` names, once it and its records are in a section.
fn locate(file: &File<'_>, native: Span) -> Result<HeaderPlaces, Fault>
    requires native { is_some (native_of file.now) ≡ true }
    requires rva { native.start ≡ native_rva file.now }
    ensures fault { IfErr result (λ f. first_fault place_checks file.now ≡ Some f) }
    ensures ok { OnOk result (first_fault place_checks file.now ≡ None) }
    ensures header { IfOk result (λ p. (p.header ≡ native_at file.now) × (p.header + 16 < 2 ^ 32)) }
    ensures count { IfOk result (λ p. p.count ≡ record_count file.now) }
    ensures records { IfOk result (λ p. 0 < p.count → p.records ≡ records_at file.now) }
    ensures in_reach { IfOk result (λ p. p.records + 12 * p.count < 2 ^ 32) }
{
    let Some(header) = file.place_of(native.start, HEADER_SIZE) else {
        return Err(Fault {
            check: Check::NativeHeader as u16,
            place: file.cli_at() + MANAGED_NATIVE_HEADER,
        });
    };
    ensure(
        file.u32_or_zero(header) == SIGNATURE,
        Check::Signature as u16,
        header,
    )?;
    let count = file.u32_or_zero(header + NUMBER_OF_SECTIONS);
    match records_in(file, native.start, count) {
        Some(records) => Ok(HeaderPlaces {
            header,
            records,
            count,
        }),
        None => Err(Fault {
            check: Check::SectionRecords as u16,
            place: header + NUMBER_OF_SECTIONS,
        }),
    }
}

impl RtrSection {
    /// The record at a place.
    fn read(file: &File<'_>, at: u32) -> RtrSection
        requires in_reach { at + 12 < 2 ^ 32 }
        ensures { result ≡ rtr_section_at file.now at }
    {
        RtrSection {
            kind: file.u32_or_zero(at),
            rva: file.u32_or_zero(at + SECTION_RVA),
            size: file.u32_or_zero(at + SECTION_SIZE),
        }
    }

    /// Whether its type is one that this compiler writes.
    fn is_own_kind(&self) -> bool
        ensures { result ≡ is_own_kind self.now.kind }
    {
        matches!(
            self.kind,
            COMPILER_IDENTIFIER
                | IMPORT_SECTIONS
                | RUNTIME_FUNCTIONS
                | METHOD_DEF_ENTRY_POINTS
                | DELAY_LOAD_METHOD_CALL_THUNKS
        )
    }

    /// Whether its range is in a section of the file, where that is asked.
    fn is_placed(&self, file: &File<'_>) -> bool
        ensures { result ≡ section_is_placed file.now self.now }
    {
        !self.is_own_kind() || self.size == 0 || file.place_of(self.rva, self.size).is_some()
    }

    /// Whether it has a size of whole import records, or is no ImportSections.
    fn has_whole_imports(&self) -> bool
        ensures { result ≡ has_whole_imports self.now }
    {
        self.kind != IMPORT_SECTIONS || self.size % imports::RECORD_SIZE == 0
    }

    /// Where it is in the file.
    fn part(&self, file: &File<'_>) -> Span
        ensures part { result ≡ part_at file.now (Some self.now) }
        ensures in_reach { result.start + result.len < 2 ^ 32 }
    {
        match file.place_of(self.rva, self.size) {
            Some(start) => Span {
                start,
                len: self.size,
            },
            None => Span {
                start: 0,
                len: self.size,
            },
        }
    }

    /// Whether it is the identifier of this compiler.
    fn is_identifier(&self, file: &File<'_>) -> bool
        ensures { result ≡ is_identifier file.now self.now }
    {
        if self.kind != COMPILER_IDENTIFIER || self.size != IDENTIFIER_SIZE {
            return false;
        }
        match file.place_of(self.rva, IDENTIFIER_SIZE) {
            Some(at) => file.tail(at).starts_with(IDENTIFIER),
            None => false,
        }
    }
}

/// So many section records from a place on.
fn read_sections(
    alloc: Global,
    file: &File<'_>,
    at: u32,
    count: u32,
) -> Result<Vec<RtrSection>, NoMemory>
    requires in_reach { at + 12 * count < 2 ^ 32 }
    ensures { IfOk result (λ sections. sections.items ≡ records (rtr_section_at file.now) at 12 count) }
{
    let mut sections = Vec::new(alloc);
    for i in 0..count {
        sections.push(RtrSection::read(file, at + RECORD_SIZE * i))?;
    }
    Ok(sections)
}

/// The types of section records, of which the first is at a place, ascend.
fn check_order(sections: &[RtrSection], at: u32) -> Result<(), Fault>
    requires in_reach { at + 12 * length sections.now < 2 ^ 32 }
    ensures fault { IfErr result (λ f. fault_or 19 (first_overlap (λ s. s.kind) (λ s. s.kind + 1) 0 at 12 sections.now) None ≡ Some f) }
    ensures ok { OnOk result (first_overlap (λ s. s.kind) (λ s. s.kind + 1) 0 at 12 sections.now ≡ None) }
{
    let mut place = at;
    let mut least = 0;
    for section in sections {
        let kind = u64::from(section.kind);
        ensure(least <= kind, Check::SectionOrder as u16, place)?;
        least = kind + 1;
        place += RECORD_SIZE;
    }
    Ok(())
}

/// The ranges of section records, of which the first is at a place, are in a section of the file.
fn check_ranges(file: &File<'_>, sections: &[RtrSection], at: u32) -> Result<(), Fault>
    requires in_reach { at + 12 * length sections.now < 2 ^ 32 }
    ensures fault { IfErr result (λ f. fault_or 20 (option_map (λ p. p + 4) (first_failing (section_is_placed file.now) at 12 sections.now)) None ≡ Some f) }
    ensures ok { OnOk result (option_map (λ p. p + 4) (first_failing (section_is_placed file.now) at 12 sections.now) ≡ None) }
{
    let mut place = at;
    for section in sections {
        ensure(
            section.is_placed(file),
            Check::SectionRange as u16,
            place + SECTION_RVA,
        )?;
        place += RECORD_SIZE;
    }
    Ok(())
}

/// ImportSections, among section records of which the first is at a place, has whole records.
fn check_sizes(sections: &[RtrSection], at: u32) -> Result<(), Fault>
    requires in_reach { at + 12 * length sections.now < 2 ^ 32 }
    ensures fault { IfErr result (λ f. fault_or 21 (option_map (λ p. p + 8) (first_failing has_whole_imports at 12 sections.now)) None ≡ Some f) }
    ensures ok { OnOk result (option_map (λ p. p + 8) (first_failing has_whole_imports at 12 sections.now) ≡ None) }
{
    let mut place = at;
    for section in sections {
        ensure(
            section.has_whole_imports(),
            Check::ImportSectionsSize as u16,
            place + SECTION_SIZE,
        )?;
        place += RECORD_SIZE;
    }
    Ok(())
}

/// The section records are in order, in a section of the file, and ImportSections has whole records.
fn check_sections(file: &File<'_>, sections: &[RtrSection], at: u32) -> Result<(), Fault>
    requires native { is_some (native_of file.now) ≡ true }
    requires at { 0 < record_count file.now → at ≡ records_at file.now }
    requires in_reach { at + 12 * record_count file.now < 2 ^ 32 }
    requires sections { sections.now ≡ records (rtr_section_at file.now) at 12 (record_count file.now) }
    ensures fault { IfErr result (λ f. first_fault table_checks file.now ≡ Some f) }
    ensures ok { OnOk result (first_fault table_checks file.now ≡ None) }
{
    check_order(sections, at)?;
    check_ranges(file, sections, at)?;
    check_sizes(sections, at)
}

impl RtrHeader {
    /// The header at its place, with its section records.
    #[tactic(auto, unfolding(crate::specs::Header::rtr_header_of))]
    fn at(file: &File<'_>, at: u32, sections: Vec<RtrSection>) -> RtrHeader
        requires here { at ≡ native_at file.now }
        requires in_reach { at + 16 < 2 ^ 32 }
        requires sections { sections.items ≡ rtr_sections_of file.now }
        ensures { result ≡ rtr_header_of file.now }
    {
        RtrHeader {
            at,
            major: file.u16_or_zero(at + MAJOR),
            minor: file.u16_or_zero(at + MINOR),
            flags: file.u32_or_zero(at + FLAGS),
            sections: Sequence::from_vec(sections),
        }
    }

    /// The header of a file that has a native one. `Malformed` names the first of the checks 16 to 21 that fails, with
    /// its place.
    #[tactic(auto, unfolding(crate::specs::Header::header_checks))]
    pub(crate) fn read(alloc: Global, file: &File<'_>) -> Result<RtrHeader, ReadRefusal>
        requires native { is_some (native_of file.now) ≡ true }
        ensures malformed { IfErr result (λ e. RefusedBy (first_fault header_checks file.now) e) }
        ensures well_formed { OnOk result (first_fault header_checks file.now ≡ None) }
        ensures header { IfOk result (λ header. header ≡ rtr_header_of file.now) }
    {
        let places = locate(file, file.native().unwrap())?;
        let sections = read_sections(alloc, file, places.records, places.count)?;
        check_sections(file, &sections, places.records)?;
        Ok(RtrHeader::at(file, places.header, sections))
    }

    /// Whether this compiler wrote the image.
    #[tactic(auto, unfolding(crate::specs::Header::is_own, crate::specs::Header::rtr_header_of))]
    pub(crate) fn is_own(&self, file: &File<'_>) -> bool
        requires header { self.now ≡ rtr_header_of file.now }
        ensures { result ≡ is_own file.now }
    {
        file.machine() == MACHINE_ARM64
            && self.major == MAJOR_VERSION
            && self.minor == MINOR_VERSION
            && has_identifier(file, self.sections.as_slice())
    }

    /// Where the section of a type is in the file. One that is missing or has size 0 is empty.
    #[tactic(auto, unfolding(crate::specs::Header::part_of, crate::specs::Header::rtr_header_of))]
    pub(crate) fn part(&self, file: &File<'_>, kind: u32) -> Span
        requires header { self.now ≡ rtr_header_of file.now }
        ensures part { result ≡ part_of file.now kind }
        // It ends at a file offset of 32 bits.
        ensures in_reach { result.start + result.len < 2 ^ 32 }
    {
        match section_of_kind(self.sections.as_slice(), kind) {
            Some(section) => section.part(file),
            None => Span { start: 0, len: 0 },
        }
    }
}

/// The first section of a type.
fn section_of_kind(sections: &[RtrSection], kind: u32) -> Option<RtrSection>
    ensures { result ≡ find (λ s. s.kind == kind) sections.now }
{
    for section in sections {
        if section.kind == kind {
            return Some(*section);
        }
    }
    None
}

/// Whether a section is the identifier of this compiler.
fn has_identifier(file: &File<'_>, sections: &[RtrSection]) -> bool
    ensures { result ≡ list_any (is_identifier file.now) sections.now }
{
    sections.iter().any(|section| section.is_identifier(file))
}
