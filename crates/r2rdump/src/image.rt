//! The lines of the ReadyToRun part.

ghost use Rattle.std.specs.Prelude.{◌≡◌, ◌++◌, ◌/◌, All, IfSome, OnOk, drop, take};
ghost use Rattle.std.specs.List.{flat_map};
ghost use Rattle.fixup_sigs.specs.Shortest.{IsSpellable};
ghost use Rattle.r2rdump.specs.Text.{cell_count, entry_line, function_at, import_line, method_token, native_line, numbered, rtr_section_line, slot_line, slot_ref};
ghost use Rattle.r2rdump.specs.OnePass.{image_in_one_pass, imports_in_one_pass, native_in_one_pass};

use crate::text::signature;
use native_format::SlotRef;
use rtr_bytes::NoMemory;
use rtr_outside::Text;
use rtr_sections::{EntryPoint, Function, Image, ImportSection, RtrHeader, RtrSection, Slot};
use std::alloc::Global;

/// The table of MethodDef in the top byte of its tokens (ECMA-335 II.22.26).
const METHOD_DEF: u32 = 0x0600_0000;

/// How many cells of EntrySize bytes an import record has room for, and none where that is 0.
fn cell_count(import: &ImportSection) -> u32
    ensures { result ≡ cell_count import.now }
{
    if import.entry_size == 0 {
        0
    } else {
        import.size / u32::from(import.entry_size)
    }
}

/// The slots of an import record, and those of the records after it.
fn split_slots(slots: &[Slot], count: u32) -> (&[Slot], &[Slot])
    ensures own { result.0.now ≡ take count slots.now }
    ensures others { result.1.now ≡ drop count slots.now }
{
    let count = count as usize;
    if count <= slots.len() {
        slots.split_at(count)
    } else {
        slots.split_at(slots.len())
    }
}

/// The function of an index.
fn function_at(functions: &[Function], index: u32) -> Function
    ensures { result ≡ function_at functions.now index }
{
    let index = index as usize;
    if index < functions.len() {
        functions[index]
    } else {
        Function {
            begin: 0,
            length: 0,
        }
    }
}

/// The token of a MethodDef row.
pub(crate) fn method_token(row: u32) -> u32
    ensures { result ≡ method_token row }
{
    METHOD_DEF.wrapping_add(row)
}

fn native_line(text: &mut Text, own: bool, header: &RtrHeader) -> Result<(), NoMemory>
    ensures { OnOk result (text.new ≡ text.old ++ native_line own header.now) }
{
    text.words("native ")?;
    text.words(if own { "own" } else { "foreign" })?;
    text.decimal(" ", u64::from(header.major))?;
    text.decimal(".", u64::from(header.minor))?;
    text.hex32(" flags ", header.flags)?;
    text.decimal(" sections ", header.sections.as_slice().len() as u64)?;
    text.words("\n")
}

fn rtr_section_line(text: &mut Text, section: &RtrSection) -> Result<(), NoMemory>
    ensures { OnOk result (text.new ≡ text.old ++ rtr_section_line section.now) }
{
    text.decimal("rtr ", u64::from(section.kind))?;
    text.hex32(" rva ", section.rva)?;
    text.hex32(" size ", section.size)?;
    text.words("\n")
}

fn rtr_section_lines(text: &mut Text, sections: &[RtrSection]) -> Result<(), NoMemory>
    ensures { OnOk result (text.new ≡ text.old ++ flat_map rtr_section_line sections.now) }
{
    for section in sections {
        rtr_section_line(text, section)?;
    }
    Ok(())
}

fn import_line(text: &mut Text, number: usize, import: &ImportSection) -> Result<(), NoMemory>
    ensures { OnOk result (text.new ≡ text.old ++ import_line number import.now) }
{
    text.decimal("import ", number as u64)?;
    text.hex32(" rva ", import.rva)?;
    text.hex32(" size ", import.size)?;
    text.hex16(" flags ", import.flags)?;
    text.decimal(" type ", u64::from(import.kind))?;
    text.decimal(" entry ", u64::from(import.entry_size))?;
    text.decimal(" slots ", u64::from(cell_count(import)))?;
    text.words("\n")
}

fn slot_line(alloc: Global, text: &mut Text, number: usize, slot: &Slot) -> Result<(), NoMemory>
    requires { IsSpellable slot.now.fixup }
    ensures { OnOk result (text.new ≡ text.old ++ slot_line number slot.now) }
{
    text.decimal("slot ", number as u64)?;
    signature(alloc, text, " ", &slot.fixup)?;
    text.words("\n")
}

fn slot_lines(alloc: Global, text: &mut Text, slots: &[Slot]) -> Result<(), NoMemory>
    requires { All (λ slot. IsSpellable slot.fixup) slots.now }
    ensures { OnOk result (text.new ≡ text.old ++ numbered slot_line 0 slots.now) }
{
    for (number, slot) in slots.iter().enumerate() {
        slot_line(alloc, text, number, slot)?;
    }
    Ok(())
}

fn import_lines(
    alloc: Global,
    text: &mut Text,
    imports: &[ImportSection],
    slots: &[Slot],
) -> Result<(), NoMemory>
    requires { All (λ slot. IsSpellable slot.fixup) slots.now }
    ensures { OnOk result (text.new ≡ text.old ++ imports_in_one_pass 0 imports.now slots.now) }
{
    let mut rest = slots;
    for (number, import) in imports.iter().enumerate() {
        import_line(text, number, import)?;
        let (of_import, others) = split_slots(rest, import.slot_count());
        slot_lines(alloc, text, of_import)?;
        rest = others;
    }
    Ok(())
}

fn slot_refs(text: &mut Text, slots: &[SlotRef]) -> Result<(), NoMemory>
    ensures { OnOk result (text.new ≡ text.old ++ flat_map slot_ref slots.now) }
{
    for slot in slots {
        slot_ref(text, *slot)?;
    }
    Ok(())
}

fn slot_ref(text: &mut Text, slot: SlotRef) -> Result<(), NoMemory>
    ensures { OnOk result (text.new ≡ text.old ++ slot_ref slot) }
{
    text.decimal(" ", u64::from(slot.section))?;
    text.decimal(".", u64::from(slot.slot))
}

fn entry_line(text: &mut Text, functions: &[Function], entry: &EntryPoint) -> Result<(), NoMemory>
    ensures { OnOk result (text.new ≡ text.old ++ entry_line functions.now entry.now) }
{
    let function = function_at(functions, entry.function);
    text.hex32("entry ", method_token(entry.row))?;
    text.decimal(" function ", u64::from(entry.function))?;
    text.hex32(" begin ", function.begin)?;
    text.decimal(" length ", u64::from(function.length))?;
    text.words(" fixups")?;
    slot_refs(text, entry.fixups.as_slice())?;
    text.words("\n")
}

fn entry_lines(
    text: &mut Text,
    functions: &[Function],
    entries: &[EntryPoint],
) -> Result<(), NoMemory>
    ensures { OnOk result (text.new ≡ text.old ++ flat_map (entry_line functions.now) entries.now) }
{
    for entry in entries {
        entry_line(text, functions, entry)?;
    }
    Ok(())
}

fn image_lines(alloc: Global, text: &mut Text, image: &Image) -> Result<(), NoMemory>
    requires { All (λ slot. IsSpellable slot.fixup) image.now.slots }
    ensures { OnOk result (text.new ≡ text.old ++ image_in_one_pass image.now) }
{
    native_line(text, image.own(), &image.header)?;
    rtr_section_lines(text, image.header.sections.as_slice())?;
    import_lines(
        alloc,
        text,
        image.imports.as_slice(),
        image.slots.as_slice(),
    )?;
    entry_lines(text, image.functions.as_slice(), image.entries.as_slice())
}

/// Adds the lines of the ReadyToRun part, or the one that says that there is none.
pub(crate) fn native_lines(
    alloc: Global,
    text: &mut Text,
    image: &Option<Image>,
) -> Result<(), NoMemory>
    requires { IfSome image.now (λ image. All (λ slot. IsSpellable slot.fixup) image.slots) }
    ensures { OnOk result (text.new ≡ text.old ++ native_in_one_pass image.now) }
{
    match image {
        None => text.words("native none\n"),
        Some(image) => image_lines(alloc, text, image),
    }
}
