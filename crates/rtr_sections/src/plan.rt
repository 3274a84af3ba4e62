//! Whether the records of a plan can be written.

ghost use Rattle.std.specs.Prelude.{◌≡◌, ℕ, ◌+◌, ◌*◌, ◌/◌, ◌<◌, ◌≤◌, ◌^◌, ◌↔◌, [], ◌∷◌, length, map, All, IsTrue, sum_by};
ghost use Rattle.native_format.specs.Nibbles.{AscendFrom, Precedes};
ghost use Rattle.fixup_sigs.specs.Shortest.{IsSpellable};
ghost use Rattle.rtr_sections.specs.Imports.{slot_count};
ghost use Rattle.rtr_sections.specs.Plan.{AreInOrder, HasWrittenForm, IsLinkedIn, IsPlan, IsWellPlanned, Names, RowsAscend, SlotsAscend};

use crate::entries::EntryPoint;
use crate::functions::Function;
use crate::header::{
    COMPILER_IDENTIFIER, DELAY_LOAD_METHOD_CALL_THUNKS, IMPORT_SECTIONS, MAJOR_VERSION,
    METHOD_DEF_ENTRY_POINTS, MINOR_VERSION, RUNTIME_FUNCTIONS, RtrHeader,
};
use crate::image::Image;
use crate::imports::{CELL_SIZE, ImportSection};
use crate::length::written_len;
use crate::slots::Slot;
use native_format::SlotRef;

/// The highest RVA of a part.
const LAST_RVA: u32 = 1 << 31;
/// A part has fewer bytes than this.
const LENGTH_LIMIT: u64 = 1 << 24;

/// The types of the sections that this compiler writes, in their order.
const WRITTEN_SECTIONS: [u32; 5] = [
    COMPILER_IDENTIFIER,
    IMPORT_SECTIONS,
    RUNTIME_FUNCTIONS,
    METHOD_DEF_ENTRY_POINTS,
    DELAY_LOAD_METHOD_CALL_THUNKS,
];

impl RtrHeader {
    /// Whether it is of version 5.0, with the sections that this compiler writes.
    fn is_written(&self) -> bool
        ensures { IsTrue result ↔ ((self.now.major ≡ 5) × (self.now.minor ≡ 0)
            × (map (λ s. s.kind) self.now.sections ≡ 100 ∷ 101 ∷ 102 ∷ 103 ∷ 106 ∷ [])) }
    {
        match self.sections.as_slice() {
            [a, b, c, d, e] => {
                self.major == MAJOR_VERSION
                    && self.minor == MINOR_VERSION
                    && [a.kind, b.kind, c.kind, d.kind, e.kind] == WRITTEN_SECTIONS
            }
            _ => false,
        }
    }
}

impl ImportSection {
    /// Whether it has whole cells of 8 bytes, and no auxiliary data.
    fn has_written_form(self) -> bool
        ensures { IsTrue result ↔ HasWrittenForm self }
    {
        self.kind == 0
            && self.entry_size == CELL_SIZE as u8
            && self.size % CELL_SIZE == 0
            && self.auxiliary == 0
    }
}

/// Whether import records have the form that this compiler writes.
fn have_written_form(imports: &[ImportSection]) -> bool
    ensures { IsTrue result ↔ All HasWrittenForm imports.now }
{
    imports.iter().all(|import| import.has_written_form())
}

/// Whether import records have so many slots together.
fn have_slots(imports: &[ImportSection], slots: usize) -> bool
    ensures { IsTrue result ↔ (slots ≡ sum_by slot_count imports.now) }
{
    let mut left = slots;
    for import in imports {
        let count = import.slot_count() as usize;
        if left < count {
            return false;
        }
        left -= count;
    }
    left == 0
}

/// Whether the fixup of each slot has a signature.
fn are_spellable(slots: &[Slot]) -> bool
    ensures { IsTrue result ↔ All (λ slot. IsSpellable slot.fixup) slots.now }
{
    slots.iter().all(|slot| slot.fixup.is_spellable())
}

/// Whether functions are of whole instructions, each after the code of the one before.
fn are_in_order(functions: &[Function]) -> bool
    ensures { IsTrue result ↔ AreInOrder 0 functions.now }
{
    let mut low = 0;
    for function in functions {
        if u64::from(function.begin) < low || function.begin % 4 != 0 || function.length % 4 != 0 {
            return false;
        }
        low = function.end();
    }
    true
}

/// Whether the entries' rows ascend from 1 on.
fn rows_ascend(entries: &[EntryPoint]) -> bool
    ensures { IsTrue result ↔ RowsAscend 1 entries.now }
{
    let mut last = 0;
    for entry in entries {
        if entry.row <= last {
            return false;
        }
        last = entry.row;
    }
    true
}

/// Whether one slot is before another, by section and then by slot.
fn precedes(last: SlotRef, next: SlotRef) -> bool
    ensures { IsTrue result ↔ Precedes last next }
{
    last.section < next.section || last.section == next.section && last.slot < next.slot
}

/// Whether slots ascend strictly.
fn slots_ascend(slots: &[SlotRef]) -> bool
    ensures { IsTrue result ↔ SlotsAscend slots.now }
{
    let [first, others @ ..] = slots else {
        return true;
    };
    let mut last = *first;
    for slot in others {
        if !precedes(last, *slot) {
            return false;
        }
        last = *slot;
    }
    true
}

/// Whether a slot exists.
fn slot_exists(imports: &[ImportSection], slot: SlotRef) -> bool
    ensures { IsTrue result ↔ Names imports.now slot.section slot.slot }
{
    let section = slot.section as usize;
    section < imports.len() && slot.slot < imports[section].slot_count()
}

/// Whether slots exist.
fn slots_exist(imports: &[ImportSection], slots: &[SlotRef]) -> bool
    ensures { IsTrue result ↔ All (λ slot. Names imports.now slot.section slot.slot) slots.now }
{
    slots.iter().all(|slot| slot_exists(imports, *slot))
}

impl EntryPoint {
    /// Whether it names a function that exists, and slots that exist, ascending strictly.
    fn is_linked_in(&self, plan: &Image) -> bool
        ensures { IsTrue result ↔ IsLinkedIn plan.now self.now }
    {
        let slots = self.fixups.as_slice();
        (self.function as usize) < plan.functions.len()
            && slots_ascend(slots)
            && slots_exist(plan.imports.as_slice(), slots)
    }
}

/// Whether each entry of a plan names what exists.
fn are_linked(plan: &Image) -> bool
    ensures { IsTrue result ↔ All (IsLinkedIn plan.now) plan.now.entries }
{
    plan.entries.iter().all(|entry| entry.is_linked_in(plan))
}

/// Whether the records of a plan are in themselves as [`write_rtr`](crate::write_rtr) needs them, whatever their length and
/// the RVA. It is the condition of [`written_len`]. It takes no memory.
pub fn is_well_planned(plan: &Image) -> bool
    ensures { IsTrue result ↔ IsWellPlanned plan.now }
{
    let imports = plan.imports.as_slice();
    let slots = plan.slots.as_slice();
    plan.header.is_written()
        && have_written_form(imports)
        && have_slots(imports, slots.len())
        && are_spellable(slots)
        && are_in_order(plan.functions.as_slice())
        && rows_ascend(plan.entries.as_slice())
        && are_linked(plan)
}

/// Whether a plan can be written for an RVA: its records are as [`write_rtr`](crate::write_rtr) needs them, its bytes are
/// below 2^24, and the RVA is at most 2^31. It takes no memory.
pub fn can_write_rtr(plan: &Image, at: u32) -> bool
    ensures { IsTrue result ↔ IsPlan plan.now at }
{
    at <= LAST_RVA && is_well_planned(plan) && written_len(plan) < LENGTH_LIMIT
}
