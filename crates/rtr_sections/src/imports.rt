//! Import records: sections of cells, and where the signatures of their slots are.

ghost use Rattle.std.specs.Prelude.{None, ◌≡◌, ◌+◌, ◌*◌, ◌<◌, ◌^◌, length, IfErr, IfOk, IfSome, OnOk, Some};
ghost use Rattle.rtr_bytes.specs.Checks.{fault_or, RefusedBy};
ghost use Rattle.rtr_sections.specs.Listed.{first_failing, first_overlap};
ghost use Rattle.rtr_sections.specs.Imports.{signatures_at, signatures_place, cells_at, has_placed_cells, import_at, imports_in, is_own_import, slot_count, unplaced_cells};

use crate::check::Check;
use crate::file::File;
use rtr_bytes::{Fault, ReadRefusal, Span, ensure};
use std::alloc::Global;

/// One import record: a section of cells (ReadyToRun File Format, "READYTORUN_SECTION_IMPORT_SECTIONS").
#[derive(Clone, Copy, Debug, PartialEq, Eq)]
pub struct ImportSection {
    /// The RVA of its first cell.
    pub rva: u32,
    /// The size of its cells in bytes.
    pub size: u32,
    /// Flags, of which the lowest bit is EAGER.
    pub flags: u16,
    /// Type, as a number (ReadyToRunImportSectionType).
    pub kind: u8,
    /// EntrySize, the size of a cell in bytes.
    pub entry_size: u8,
    /// The RVA of its signatures: one RVA of 32 bits for each slot.
    pub signatures: u32,
    /// The RVA of auxiliary data, and 0 where there is none.
    pub auxiliary: u32,
}

/// The bytes of an import record.
pub(crate) const RECORD_SIZE: u32 = 20;

/// Where Section.Size is in a record.
const SIZE: u32 = 4;
/// Where Flags is in a record.
const FLAGS: u32 = 8;
/// Where Type is in a record.
const KIND: u32 = 10;
/// Where EntrySize is in a record.
const ENTRY_SIZE: u32 = 11;
/// Where Signatures is in a record.
const SIGNATURES: u32 = 12;
/// Where AuxiliaryData is in a record.
const AUXILIARY: u32 = 16;

/// The bytes of a cell.
pub(crate) const CELL_SIZE: u32 = 8;
/// The bytes of a slot's signature, which is an RVA.
pub(crate) const SIGNATURE_SIZE: u32 = 4;

impl ImportSection {
    /// The record at a place.
    fn read(file: &File<'_>, at: u32) -> ImportSection
        requires in_reach { at + 20 < 2 ^ 32 }
        ensures { result ≡ import_at file.now at }
    {
        ImportSection {
            rva: file.u32_or_zero(at),
            size: file.u32_or_zero(at + SIZE),
            flags: file.u16_or_zero(at + FLAGS),
            kind: file.u8_or_zero(at + KIND),
            entry_size: file.u8_or_zero(at + ENTRY_SIZE),
            signatures: file.u32_or_zero(at + SIGNATURES),
            auxiliary: file.u32_or_zero(at + AUXILIARY),
        }
    }

    /// How many slots it has in an image of this compiler: one for each cell of 8 bytes. The cells of a foreign image may
    /// have another size.
    pub fn slot_count(&self) -> u32
        ensures count { result ≡ slot_count self.now }
        ensures few { result < 2 ^ 29 }
    {
        self.size / CELL_SIZE
    }

    /// The RVA after its cells.
    fn end(&self) -> u64
        ensures { result ≡ self.now.rva + self.now.size }
    {
        u64::from(self.rva) + u64::from(self.size)
    }

    /// The place of its array of signatures, `None` where that isn't in a section of the file.
    fn signatures_place(&self, file: &File<'_>) -> Option<u32>
        ensures place { result ≡ signatures_place file.now self.now }
        ensures few { slot_count self.now < 2 ^ 29 }
        ensures in_reach { IfSome result (λ at. at + 4 * slot_count self.now < 2 ^ 32) }
    {
        file.place_of(self.signatures, SIGNATURE_SIZE * self.slot_count())
    }

    /// The place of its array of signatures. Of no meaning where that isn't in a section of the file.
    pub(crate) fn signatures_at(&self, file: &File<'_>) -> u32
        ensures place { result ≡ signatures_at file.now self.now }
        ensures in_reach { result + 4 * slot_count self.now < 2 ^ 32 }
    {
        match self.signatures_place(file) {
            Some(place) => place,
            None => 0,
        }
    }

    /// The place of its cells. Of no meaning where they aren't in a section of the file.
    pub(crate) fn cells_at(&self, file: &File<'_>) -> u32
        ensures place { result ≡ cells_at file.now self.now }
        ensures in_reach { result + 8 * slot_count self.now < 2 ^ 32 }
    {
        match file.place_of(self.rva, self.size) {
            Some(place) => place,
            None => 0,
        }
    }

    /// Whether its cells are in a section of the file, where it has some.
    fn has_placed_cells(&self, file: &File<'_>) -> bool
        ensures { result ≡ has_placed_cells file.now self.now }
    {
        self.size == 0 || file.place_of(self.rva, self.size).is_some()
    }

    /// Whether it has the form of this compiler's, with its array of signatures in a section of the file.
    fn has_own_form(&self, file: &File<'_>) -> bool
        ensures { result ≡ is_own_import file.now self.now }
    {
        self.kind == 0
            && u32::from(self.entry_size) == CELL_SIZE
            && self.size % CELL_SIZE == 0
            && self.auxiliary == 0
            && self.signatures_place(file).is_some()
    }
}

/// The import records of a part, once the cells of each are in a section of the file.
pub(crate) fn read_imports(
    alloc: Global,
    file: &File<'_>,
    part: Span,
) -> Result<Vec<ImportSection>, ReadRefusal>
    requires in_reach { part.start + part.len < 2 ^ 32 }
    ensures fault { IfErr result (λ e. RefusedBy (fault_or 22 (unplaced_cells file.now part) None) e) }
    ensures ok { OnOk result (unplaced_cells file.now part ≡ None) }
    ensures imports { IfOk result (λ imports. imports.items ≡ imports_in file.now part) }
{
    let mut imports = Vec::new(alloc);
    for i in 0..part.len / RECORD_SIZE {
        let place = part.start + RECORD_SIZE * i;
        let import = ImportSection::read(file, place);
        ensure(
            import.has_placed_cells(file),
            Check::ImportCells as u16,
            place,
        )?;
        imports.push(import)?;
    }
    Ok(imports)
}

/// Import records, of which the first is at a place, have the form of this compiler's.
pub(crate) fn check_forms(file: &File<'_>, imports: &[ImportSection], at: u32) -> Result<(), Fault>
    requires in_reach { at + 20 * length imports.now < 2 ^ 32 }
    ensures fault { IfErr result (λ f. fault_or 60 (first_failing (is_own_import file.now) at 20 imports.now) None ≡ Some f) }
    ensures ok { OnOk result (first_failing (is_own_import file.now) at 20 imports.now ≡ None) }
{
    let mut place = at;
    for import in imports {
        ensure(import.has_own_form(file), Check::ImportForm as u16, place)?;
        place += RECORD_SIZE;
    }
    Ok(())
}

/// The cells of import records, of which the first is at a place, are each after those of the record before.
pub(crate) fn check_cells_order(imports: &[ImportSection], at: u32) -> Result<(), Fault>
    requires in_reach { at + 20 * length imports.now < 2 ^ 32 }
    ensures fault { IfErr result (λ f. fault_or 66 (first_overlap (λ i. i.rva) (λ i. i.rva + i.size) 0 at 20 imports.now) None ≡ Some f) }
    ensures ok { OnOk result (first_overlap (λ i. i.rva) (λ i. i.rva + i.size) 0 at 20 imports.now ≡ None) }
{
    let mut place = at;
    let mut end = 0;
    for import in imports {
        ensure(end <= u64::from(import.rva), Check::CellOrder as u16, place)?;
        end = import.end();
        place += RECORD_SIZE;
    }
    Ok(())
}
