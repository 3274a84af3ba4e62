//! A ReadyToRun part, written from the records of a plan.

ghost use Rattle.std.specs.Prelude.{◌≡◌, ℕ, List, ◌+◌, ◌*◌, ◌-◌, ◌<◌, ◌≤◌, ◌^◌, ◌++◌, length, map, All, IfOk, OnOk, None};
ghost use Rattle.std.specs.List.{flat_map};
ghost use Rattle.rtr_bytes.specs.Checks.{first_fault};
ghost use Rattle.rtr_sections.specs.Bounds.{length_bound};
ghost use Rattle.rtr_sections.specs.Header.{identifier, native_at};
ghost use Rattle.rtr_sections.specs.Image.{image_of, rtr_checks};
ghost use Rattle.rtr_sections.specs.PartPlaces.{ArePlaces, ranged};
ghost use Rattle.rtr_sections.specs.Parts.{cell_bytes, cell_spans, entry_bytes, function_bytes, header_bytes, header_span, import_bytes, parts_of, part_bytes, section_bytes, signature_bytes_of, span_of_cells, unwind_bytes, written_imports};
ghost use Rattle.rtr_sections.specs.Plan.{IsPlan};
ghost use Rattle.rtr_sections.specs.Written.{Carries, asked_of, back_image, shape_of};

use crate::entry_writer::write_entries;
use crate::functions::{ENTRY_SIZE, Function};
use crate::header::{
    COMPILER_IDENTIFIER, IDENTIFIER, IMPORT_SECTIONS, MAJOR_VERSION, METHOD_DEF_ENTRY_POINTS,
    MINOR_VERSION, RUNTIME_FUNCTIONS, RtrHeader, RtrSection, SIGNATURE,
};
use crate::image::Image;
use crate::imports::{CELL_SIZE, ImportSection, RECORD_SIZE};
use crate::laws::parts_are_bounded;
use crate::length::written_len;
use crate::pieces::{
    Signatures, placed_imports, put_cells, put_functions, put_imports, put_unwinds,
};
use fixup_sigs::written_fixup_is_read;
use native_format::written_is_read;
use rtr_bytes::{NoMemory, Span};
use std::alloc::Global;

/// A written ReadyToRun part.
#[derive(Debug, Drop)]
pub struct Written {
    /// The bytes, which belong at the RVA that they were written for.
    pub bytes: Vec<u8>,
    /// The RVA and the size of the header, with its section records.
    pub header: Span,
    /// The RVA and the size of each import section's cells, in order.
    pub cells: Vec<Span>,
}

/// NumberOfSections of a written header.
const NUMBER_OF_SECTIONS: u32 = 5;
/// The bytes of the header with its five section records.
pub(crate) const WRITTEN_HEADER_SIZE: u32 = 76;
/// The bytes of an RVA, and of an unwind word.
pub(crate) const WORD_SIZE: u32 = 4;

/// The RVAs of the parts up to the signatures. The cells are before them.
#[derive(Clone, Copy)]
struct PartPlaces {
    header: u32,
    imports: u32,
    arrays: u32,
    functions: u32,
    unwinds: u32,
    identifier: u32,
    signatures: u32,
}

impl PartPlaces {
    /// Those of a plan at an RVA.
    fn of(plan: &Image, at: u32) -> PartPlaces
        requires { at + 12 * length plan.now.slots + 20 * length plan.now.imports + 12 * length plan.now.functions + 90 < 2 ^ 32 }
        ensures { ArePlaces result at (parts_of plan.now) }
    {
        let slot_count = plan.slots.len() as u32;
        let import_count = plan.imports.len() as u32;
        let function_count = plan.functions.len() as u32;
        let header = at + CELL_SIZE * slot_count;
        let imports = header + WRITTEN_HEADER_SIZE;
        let arrays = imports + RECORD_SIZE * import_count;
        let functions = arrays + WORD_SIZE * slot_count;
        let unwinds = functions + ENTRY_SIZE * function_count;
        let identifier = unwinds + WORD_SIZE * function_count;
        PartPlaces {
            header,
            imports,
            arrays,
            functions,
            unwinds,
            identifier,
            signatures: identifier + IDENTIFIER.len() as u32,
        }
    }
}

impl RtrSection {
    /// The section record with the range that the part has for its type. Of another type it keeps its own.
    fn ranged(self, places: &PartPlaces, entries: Span) -> RtrSection
        requires imports { places.now.imports ≤ places.now.arrays }
        requires functions { places.now.functions ≤ places.now.unwinds }
        ensures section { result ≡ ranged places.now entries self }
        ensures fits { (self.rva < 2 ^ 32) × (self.size < 2 ^ 32) }
    {
        let (rva, size) = match self.kind {
            COMPILER_IDENTIFIER => (places.identifier, IDENTIFIER.len() as u32),
            IMPORT_SECTIONS => (places.imports, places.arrays - places.imports),
            RUNTIME_FUNCTIONS => (places.functions, places.unwinds - places.functions),
            METHOD_DEF_ENTRY_POINTS => (entries.start, entries.len),
            _ => (self.rva, self.size),
        };
        RtrSection { rva, size, ..self }
    }
}

/// Appends section records, with the ranges that the part has for them.
fn put_sections(
    out: &mut Vec<u8>,
    sections: &[RtrSection],
    places: &PartPlaces,
    entries: Span,
) -> Result<(), NoMemory>
    requires imports { places.now.imports ≤ places.now.arrays }
    requires functions { places.now.functions ≤ places.now.unwinds }
    ensures records { OnOk result (out.new.items
        ≡ out.old.items ++ flat_map section_bytes (map (ranged places.now entries) sections.now)) }
    ensures ranges { OnOk result (All (λ s. (s.rva < 2 ^ 32) × (s.size < 2 ^ 32)) sections.now) }
{
    for section in sections {
        section.ranged(places, entries).put(out)?;
    }
    Ok(())
}

/// Appends the header, with the ranges that the part has for its five sections.
fn put_header(
    out: &mut Vec<u8>,
    header: &RtrHeader,
    places: &PartPlaces,
    entries: Span,
) -> Result<(), NoMemory>
    requires imports { places.now.imports ≤ places.now.arrays }
    requires functions { places.now.functions ≤ places.now.unwinds }
    ensures header { OnOk result (out.new.items
        ≡ out.old.items ++ header_bytes header.now.flags (map (ranged places.now entries) header.now.sections)) }
    ensures flags { OnOk result (header.now.flags < 2 ^ 32) }
    ensures ranges { OnOk result (All (λ s. (s.rva < 2 ^ 32) × (s.size < 2 ^ 32)) header.now.sections) }
{
    out.extend_from_slice(&SIGNATURE.to_le_bytes())?;
    out.extend_from_slice(&MAJOR_VERSION.to_le_bytes())?;
    out.extend_from_slice(&MINOR_VERSION.to_le_bytes())?;
    out.extend_from_slice(&header.flags.to_le_bytes())?;
    out.extend_from_slice(&NUMBER_OF_SECTIONS.to_le_bytes())?;
    put_sections(out, header.sections.as_slice(), places, entries)
}

/// Appends what is before the arrays: the cells, the header and the import records.
fn put_head(
    out: &mut Vec<u8>,
    plan: &Image,
    places: &PartPlaces,
    entries: Span,
    imports: &[ImportSection],
) -> Result<(), NoMemory>
    requires imports { places.now.imports ≤ places.now.arrays }
    requires functions { places.now.functions ≤ places.now.unwinds }
    ensures head { OnOk result (out.new.items ≡ out.old.items ++ (cell_bytes plan.now.slots
        ++ (header_bytes plan.now.header.flags (map (ranged places.now entries) plan.now.header.sections) ++ flat_map import_bytes imports.now))) }
    ensures words { OnOk result (All (λ s. s.word < 2 ^ 64) plan.now.slots) }
    ensures header_flags { OnOk result (plan.now.header.flags < 2 ^ 32) }
    ensures ranges { OnOk result (All (λ s. (s.rva < 2 ^ 32) × (s.size < 2 ^ 32)) plan.now.header.sections) }
    ensures import_flags { OnOk result (All (λ i. i.flags < 2 ^ 16) imports.now) }
{
    put_cells(out, plan.slots.as_slice())?;
    put_header(out, &plan.header, places, entries)?;
    put_imports(out, imports)
}

/// Appends the arrays and what is after them: the functions with their unwind words, the identifier, the signatures
/// and the entries.
fn put_tables(
    out: &mut Vec<u8>,
    functions: &[Function],
    unwinds: u32,
    signatures: &Signatures,
    entries: &[u8],
) -> Result<(), NoMemory>
    requires { unwinds + 4 * length functions.now < 2 ^ 32 }
    ensures tables { OnOk result (out.new.items ≡ out.old.items ++ (signatures.now.rvas.items ++ (function_bytes unwinds functions.now
        ++ (unwind_bytes functions.now ++ (identifier ++ (signatures.now.bytes.items ++ entries.now)))))) }
    ensures begins { OnOk result (All (λ f. f.begin < 2 ^ 32) functions.now) }
    ensures lengths { OnOk result (All (λ f. f.length < 2 ^ 32) functions.now) }
{
    out.extend_from_slice(&signatures.rvas)?;
    put_functions(out, functions, unwinds)?;
    put_unwinds(out, functions)?;
    out.extend_from_slice(IDENTIFIER)?;
    out.extend_from_slice(&signatures.bytes)?;
    out.extend_from_slice(entries)?;
    Ok(())
}

/// The range of the cells of each import record.
fn cell_spans(alloc: Global, imports: &[ImportSection]) -> Result<Vec<Span>, NoMemory>
    ensures { IfOk result (λ spans. spans.items ≡ map span_of_cells imports.now) }
{
    let mut spans = Vec::new(alloc);
    for import in imports {
        spans.push(Span {
            start: import.rva,
            len: import.size,
        })?;
    }
    Ok(spans)
}

/// Writes the ReadyToRun part of a plan for an RVA (ReadyToRun File Format, "Structures"). It takes the functions' begins and
/// the range of the thunks from the plan, and chooses every other place, and the size of every other section; docs/FORMATS.md
/// has the layout. [`can_write_rtr`](crate::can_write_rtr) is the test of its condition. The one refusal is want of memory.
pub fn write_rtr(alloc: Global, plan: &Image, at: u32) -> Result<Written, NoMemory>
    requires plan { IsPlan plan.now at }

    ensures bytes { IfOk result (λ w. w.bytes.items ≡ part_bytes plan.now at) }
    ensures header { IfOk result (λ w. w.header ≡ header_span plan.now at) }
    ensures cells { IfOk result (λ w. w.cells.items ≡ cell_spans plan.now at) }
    ensures small { IfOk result (λ w. length w.bytes.items < 2 ^ 24) }
    // The counts of the plan's records bound the length.
    ensures bounded { IfOk result (λ w. length w.bytes.items ≤ length_bound plan.now) }

    // The plan's places, and the sizes of the sections that the writer fills, aren't read.
    ensures unread { IfOk result (λ w. (other : Image) → asked_of other ≡ asked_of plan.now → w.bytes.items ≡ part_bytes other at) }
    // Neither the length nor a chosen place depends on the slots' words, the functions' begins or the range of the thunks.
    ensures length_alone { IfOk result (λ w. (other : Image) → shape_of other ≡ shape_of plan.now
        → length w.bytes.items ≡ length (part_bytes other at)) }
    ensures places_alone { IfOk result (λ w. (other : Image) → shape_of other ≡ shape_of plan.now
        → (parts_of other ≡ parts_of plan.now) × (w.header ≡ header_span other at) × (w.cells.items ≡ cell_spans other at)
        × (written_imports other at ≡ written_imports plan.now at)) }

    // Read back from a file that carries it, the records are the plan's in all but what was chosen.
    ensures well_formed { IfOk result (λ _. (file : List ℕ) (rows : ℕ) → Carries file plan.now at rows
        → first_fault (rtr_checks rows) file ≡ None) }
    ensures read_back { IfOk result (λ _. (file : List ℕ) (rows : ℕ) → Carries file plan.now at rows
        → image_of file ≡ back_image plan.now at (native_at file)) }
{
    written_is_read();
    written_fixup_is_read();
    parts_are_bounded();
    let places = PartPlaces::of(plan, at);
    let signatures = Signatures::of(alloc, plan.slots.as_slice(), places.signatures)?;
    let entries = write_entries(alloc, plan.entries.as_slice())?;
    let imports = placed_imports(alloc, plan.imports.as_slice(), at, places.arrays)?;
    let entries_range = Span {
        start: places.signatures + signatures.bytes.len() as u32,
        len: entries.len() as u32,
    };
    let functions = plan.functions.as_slice();
    let mut bytes = Vec::with_capacity(alloc, written_len(plan) as usize)?;
    put_head(&mut bytes, plan, &places, entries_range, &imports)?;
    put_tables(&mut bytes, functions, places.unwinds, &signatures, &entries)?;
    Ok(Written {
        bytes,
        header: Span {
            start: places.header,
            len: WRITTEN_HEADER_SIZE,
        },
        cells: cell_spans(alloc, &imports)?,
    })
}
