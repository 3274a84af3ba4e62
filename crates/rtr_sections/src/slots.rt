//! Slots: the fixup that a cell stands for, and the cell's word in the file.

ghost use Rattle.std.specs.Prelude.{◌≡◌, ◌+◌, ◌*◌, ◌++◌, ◌≤◌, ◌<◌, ◌^◌, length, sum_by, IfOk, OnOk};
ghost use Rattle.fixup_sigs.specs.Reading.{fixup_at};
ghost use Rattle.rtr_sections.specs.Imports.{all_slots, named_fixup, slot_at, slot_count, slots_in};

use crate::file::File;
use crate::imports::{CELL_SIZE, ImportSection, SIGNATURE_SIZE};
use fixup_sigs::{Fixup, read_fixup};
use rtr_bytes::NoMemory;
use std::alloc::Global;

/// A slot of an import section (ReadyToRun File Format, "Fixups").
#[derive(Clone, Copy, Debug, PartialEq, Eq)]
pub struct Slot {
    /// What its cell stands for.
    pub fixup: Fixup,
    /// The 64 bits of the cell in the file, lowest byte first.
    pub word: u64,
}

/// The fixup that begins at a place.
fn fixup_at(bytes: &[u8], at: u32) -> Option<Fixup>
    requires { length bytes.now ≤ 2 ^ 31 }
    ensures { result ≡ fixup_at bytes.now at }
{
    let (fixup, _) = read_fixup(bytes, at)?;
    Some(fixup)
}

/// The fixup of a slot, whose signature's RVA is at a place. `None` where no fixup begins at that RVA.
pub(crate) fn named_fixup(file: &File<'_>, place: u32) -> Option<Fixup>
    ensures { result ≡ named_fixup file.now place }
{
    let at = file.place_of(file.u32_or_zero(place), 1)?;
    fixup_at(file.bytes(), at)
}

/// A slot by the places of its signature's RVA and of its cell.
#[tactic(auto, unfolding(crate::specs::Imports::slot_at))]
fn slot_at(file: &File<'_>, signature: u32, cell: u32) -> Option<Slot>
    ensures { result ≡ slot_at file.now signature cell }
{
    let fixup = named_fixup(file, signature)?;
    let word = file.u64_or_zero(cell);
    Some(Slot { fixup, word })
}

/// Appends the slots of an import record that have a fixup.
fn read_section(
    slots: &mut Vec<Slot>,
    file: &File<'_>,
    import: &ImportSection,
) -> Result<(), NoMemory>
    ensures { OnOk result (slots.new.items ≡ slots.old.items ++ slots_in file.now import.now) }
{
    let signatures = import.signatures_at(file);
    let cells = import.cells_at(file);
    for i in 0..import.slot_count() {
        if let Some(slot) = slot_at(file, signatures + SIGNATURE_SIZE * i, cells + CELL_SIZE * i) {
            slots.push(slot)?;
        }
    }
    Ok(())
}

/// So many slots are read for each byte of the file: their cells of 8 bytes have 32 times its bytes.
const SLOTS_PER_BYTE: u64 = 4;

/// `NoMemory` where import records have together more than four slots for each byte of the file. Records may share cells and
/// signatures where sections of the file share raw bytes: without a limit the slots of a small file could be any number. In an
/// image whose sections share no bytes the cells are shorter than the file.
fn check_slot_count(file: &File<'_>, imports: &[ImportSection]) -> Result<(), NoMemory>
    ensures { OnOk result (sum_by slot_count imports.now ≤ 4 * length file.now) }
{
    let room = file.bytes().len() as u64 * SLOTS_PER_BYTE;
    let mut count: u64 = 0;
    for import in imports {
        count += u64::from(import.slot_count());
        if count > room {
            return Err(NoMemory);
        }
    }
    Ok(())
}

/// The slots of import records that have a fixup, in order of section and slot. `NoMemory` comes also where the records have
/// more than four slots for each byte of the file.
pub(crate) fn read_slots(
    alloc: Global,
    file: &File<'_>,
    imports: &[ImportSection],
) -> Result<Vec<Slot>, NoMemory>
    ensures slots { IfOk result (λ slots. slots.items ≡ all_slots file.now imports.now) }
    ensures few { OnOk result (sum_by slot_count imports.now ≤ 4 * length file.now) }
{
    check_slot_count(file, imports)?;
    let mut slots = Vec::new(alloc);
    for import in imports {
        read_section(&mut slots, file, import)?;
    }
    Ok(slots)
}
