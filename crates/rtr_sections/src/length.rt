//! How long a plan's part is, without writing it.

ghost use Rattle.std.specs.Prelude.{◌≡◌, ℕ, length, All};
ghost use Rattle.native_format.specs.SparseLengths.{capped};
ghost use Rattle.rtr_sections.specs.Parts.{content_of_entry, entry_bytes, part_bytes, signature_bytes_of};
ghost use Rattle.rtr_sections.specs.Plan.{IsWellPlanned, RowsAscend, SlotsAscend};

use crate::entries::EntryPoint;
use crate::entry_writer::highest_row;
use crate::functions;
use crate::header::IDENTIFIER;
use crate::image::Image;
use crate::imports::{CELL_SIZE, RECORD_SIZE};
use crate::slots::Slot;
use crate::written::{WORD_SIZE, WRITTEN_HEADER_SIZE};
use native_format::{SparseLength, lengths_decide_places, nibbles_len, uint_len};

impl EntryPoint {
    /// How many bytes the content of its element has.
    fn content_len(&self) -> u64
        requires { SlotsAscend self.now.fixups }
        ensures { result ≡ capped (length (content_of_entry self.now.function self.now.fixups)) }
    {
        let function = u64::from(self.function);
        let fixups = self.fixups.as_slice();
        if fixups.is_empty() {
            uint_len(2 * function)
        } else {
            uint_len(4 * function + 1).saturating_add(nibbles_len(fixups))
        }
    }
}

/// How many bytes the array of entries has.
fn entries_len(entries: &[EntryPoint]) -> u64
    requires rows { RowsAscend 1 entries.now }
    requires slots { All (λ e. SlotsAscend e.fixups) entries.now }
    ensures { result ≡ capped (length (entry_bytes entries.now)) }
{
    lengths_decide_places();
    let mut length = SparseLength::new(highest_row(entries));
    for entry in entries {
        length.add(entry.row - 1, entry.content_len());
    }
    length.bytes()
}

/// How many bytes the signatures of slots have.
fn signatures_len(slots: &[Slot]) -> u64
    ensures { result ≡ capped (length (signature_bytes_of slots.now)) }
{
    let mut length: u64 = 0;
    for slot in slots {
        length = length.saturating_add(u64::from(slot.fixup.signature_len()));
    }
    length
}

/// How many bytes [`write_rtr`](crate::write_rtr) gives for a plan, and `u64::MAX` where they are more. No condition is on
/// their number: it is exact, too, where it passes what can be written. It takes no memory.
pub fn written_len(plan: &Image) -> u64
    requires { IsWellPlanned plan.now }
    ensures { (at : ℕ) → result ≡ capped (length (part_bytes plan.now at)) }
{
    let slots = plan.slots.as_slice();
    let imports = plan.imports.len() as u64;
    let functions = plan.functions.len() as u64;
    let records = u64::from(WRITTEN_HEADER_SIZE) + IDENTIFIER.len() as u64;
    records
        .saturating_add(u64::from(CELL_SIZE + WORD_SIZE).saturating_mul(slots.len() as u64))
        .saturating_add(u64::from(RECORD_SIZE).saturating_mul(imports))
        .saturating_add(u64::from(functions::ENTRY_SIZE + WORD_SIZE).saturating_mul(functions))
        .saturating_add(signatures_len(slots))
        .saturating_add(entries_len(plan.entries.as_slice()))
}
