//! The parts of a written ReadyToRun part, each appended to the bytes before it. After an `Err` there may be a part of it.

ghost use Rattle.std.specs.Prelude.{◌≡◌, ℕ, ◌+◌, ◌*◌, ◌<◌, ◌^◌, ◌++◌, length, map, All, IfOk, OnOk, sum_by};
ghost use Rattle.std.specs.List.{flat_map};
ghost use Rattle.fixup_sigs.specs.Shortest.{IsSpellable};
ghost use Rattle.rtr_sections.specs.Imports.{slot_count};
ghost use Rattle.rtr_sections.specs.Parts.{cell_bytes, function_bytes, import_bytes, placed_imports, section_bytes, signature_bytes_of, signature_rvas, unwind_bytes, words};
ghost use Rattle.rtr_sections.specs.Plan.{HasWrittenForm};

use crate::functions::Function;
use crate::header::RtrSection;
use crate::imports::ImportSection;
use crate::slots::Slot;
use fixup_sigs::write_fixup;
use rtr_bytes::NoMemory;
use std::alloc::Global;

/// Appends the cells of slots: their words.
pub(crate) fn put_cells(out: &mut Vec<u8>, slots: &[Slot]) -> Result<(), NoMemory>
    ensures cells { OnOk result (out.new.items ≡ out.old.items ++ cell_bytes slots.now) }
    ensures words { OnOk result (All (λ s. s.word < 2 ^ 64) slots.now) }
{
    for slot in slots {
        out.extend_from_slice(&slot.word.to_le_bytes())?;
    }
    Ok(())
}

impl RtrSection {
    /// Appends the section record.
    pub(crate) fn put(&self, out: &mut Vec<u8>) -> Result<(), NoMemory>
        ensures { OnOk result (out.new.items ≡ out.old.items ++ section_bytes self.now) }
    {
        out.extend_from_slice(&self.kind.to_le_bytes())?;
        out.extend_from_slice(&self.rva.to_le_bytes())?;
        out.extend_from_slice(&self.size.to_le_bytes())?;
        Ok(())
    }
}

impl ImportSection {
    /// Appends the import record.
    fn put(&self, out: &mut Vec<u8>) -> Result<(), NoMemory>
        ensures record { OnOk result (out.new.items ≡ out.old.items ++ import_bytes self.now) }
        ensures flags { OnOk result (self.now.flags < 2 ^ 16) }
    {
        out.extend_from_slice(&self.rva.to_le_bytes())?;
        out.extend_from_slice(&self.size.to_le_bytes())?;
        out.extend_from_slice(&self.flags.to_le_bytes())?;
        out.extend_from_slice(&[self.kind, self.entry_size])?;
        out.extend_from_slice(&self.signatures.to_le_bytes())?;
        out.extend_from_slice(&self.auxiliary.to_le_bytes())?;
        Ok(())
    }
}

/// Appends import records.
pub(crate) fn put_imports(out: &mut Vec<u8>, imports: &[ImportSection]) -> Result<(), NoMemory>
    ensures records { OnOk result (out.new.items ≡ out.old.items ++ flat_map import_bytes imports.now) }
    ensures flags { OnOk result (All (λ i. i.flags < 2 ^ 16) imports.now) }
{
    for import in imports {
        import.put(out)?;
    }
    Ok(())
}

/// Import records as they are in all but their places: their cells are one after the other from an RVA on, and so
/// do their arrays of signatures.
pub(crate) fn placed_imports(
    alloc: Global,
    imports: &[ImportSection],
    cells: u32,
    arrays: u32,
) -> Result<Vec<ImportSection>, NoMemory>
    requires form { All HasWrittenForm imports.now }
    requires cells { cells + 8 * sum_by slot_count imports.now < 2 ^ 32 }
    requires arrays { arrays + 4 * sum_by slot_count imports.now < 2 ^ 32 }
    ensures placed { IfOk result (λ placed. placed.items ≡ placed_imports cells arrays imports.now) }
    ensures sizes { OnOk result (All (λ i. i.size < 2 ^ 32) imports.now) }
{
    let mut placed = Vec::new(alloc);
    let mut rva = cells;
    let mut signatures = arrays;
    for import in imports {
        placed.push(ImportSection {
            rva,
            signatures,
            ..*import
        })?;
        rva += import.size;
        signatures += 4 * (import.size / 8);
    }
    Ok(placed)
}

/// Appends the entries of functions, whose unwind words are one after the other from an RVA on.
pub(crate) fn put_functions(
    out: &mut Vec<u8>,
    functions: &[Function],
    unwinds: u32,
) -> Result<(), NoMemory>
    requires room { unwinds + 4 * length functions.now < 2 ^ 32 }
    ensures functions { OnOk result (out.new.items ≡ out.old.items ++ function_bytes unwinds functions.now) }
    ensures ranges { OnOk result (All (λ f. f.begin < 2 ^ 32) functions.now) }
{
    let mut unwind = unwinds;
    for function in functions {
        out.extend_from_slice(&function.begin.to_le_bytes())?;
        out.extend_from_slice(&unwind.to_le_bytes())?;
        unwind += 4;
    }
    Ok(())
}

/// Appends the unwind words of functions: the lengths of their code.
pub(crate) fn put_unwinds(out: &mut Vec<u8>, functions: &[Function]) -> Result<(), NoMemory>
    ensures unwinds { OnOk result (out.new.items ≡ out.old.items ++ unwind_bytes functions.now) }
    ensures ranges { OnOk result (All (λ f. f.length < 2 ^ 32) functions.now) }
{
    for function in functions {
        out.extend_from_slice(&function.length.to_le_bytes())?;
    }
    Ok(())
}

/// The signatures of slots, one after the other, and their RVAs.
#[derive(Drop)]
pub(crate) struct Signatures {
    /// Their bytes.
    pub bytes: Vec<u8>,
    /// The RVA of each, in four bytes.
    pub rvas: Vec<u8>,
}

impl Signatures {
    /// Those of slots, from an RVA on.
    pub(crate) fn of(alloc: Global, slots: &[Slot], first: u32) -> Result<Signatures, NoMemory>
        requires fixups { All (λ slot. IsSpellable slot.fixup) slots.now }
        requires room { first + length (signature_bytes_of slots.now) < 2 ^ 32 }
        ensures bytes { IfOk result (λ s. s.bytes.items ≡ signature_bytes_of slots.now) }
        ensures rvas { IfOk result (λ s. s.rvas.items ≡ words (signature_rvas first slots.now)) }
    {
        let mut bytes = Vec::new(alloc);
        let mut rvas = Vec::new(alloc);
        for slot in slots {
            let rva = first + bytes.len() as u32;
            rvas.extend_from_slice(&rva.to_le_bytes())?;
            write_fixup(&mut bytes, &slot.fixup)?;
        }
        Ok(Signatures { bytes, rvas })
    }
}
