//! Writing entries: the elements of their array.

ghost use Rattle.std.specs.Prelude.{◌≡◌, ◌+◌, ◌*◌, ◌<◌, ◌≤◌, ◌^◌, length, map, All, IfOk};
ghost use Rattle.rtr_sections.specs.Parts.{element_of_entry, entry_bytes, highest_row};
ghost use Rattle.rtr_sections.specs.Plan.{RowsAscend, SlotsAscend};

use crate::entries::EntryPoint;
use native_format::{Element, write_nibbles, write_sparse, write_uint};
use rtr_bytes::{NoMemory, Sequence};
use std::alloc::Global;

impl EntryPoint {
    /// The element of its array.
    fn element(&self, alloc: Global) -> Result<Element, NoMemory>
        requires row { 1 ≤ self.now.row }
        requires function { self.now.function < 2 ^ 29 }
        requires slots { SlotsAscend self.now.fixups }
        ensures { IfOk result (λ e. e ≡ element_of_entry self.now) }
    {
        let fixups = self.fixups.as_slice();
        let mut content = Vec::new(alloc);
        if fixups.is_empty() {
            write_uint(&mut content, 2 * self.function)?;
        } else {
            write_uint(&mut content, 4 * self.function + 1)?;
            content.extend_from_slice(&write_nibbles(alloc, fixups)?)?;
        }
        Ok(Element {
            index: self.row - 1,
            content: Sequence::from_vec(content),
        })
    }
}

/// The elements of entries, in their order.
fn elements(alloc: Global, entries: &[EntryPoint]) -> Result<Vec<Element>, NoMemory>
    requires rows { RowsAscend 1 entries.now }
    requires functions { All (λ e. e.function < 2 ^ 29) entries.now }
    requires slots { All (λ e. SlotsAscend e.fixups) entries.now }
    ensures { IfOk result (λ elements. elements.items ≡ map element_of_entry entries.now) }
{
    let mut elements = Vec::new(alloc);
    for entry in entries {
        elements.push(entry.element(alloc)?)?;
    }
    Ok(elements)
}

/// The highest row of entries, and 0 where there are none.
pub(crate) fn highest_row(entries: &[EntryPoint]) -> u32
    ensures { result ≡ highest_row entries.now }
{
    let mut highest = 0;
    for entry in entries {
        highest = entry.row.max(highest);
    }
    highest
}

/// The bytes of the array of entries.
#[tactic(auto, unfolding(crate::specs::Parts::entry_bytes))]
pub(crate) fn write_entries(alloc: Global, entries: &[EntryPoint]) -> Result<Vec<u8>, NoMemory>
    requires rows { RowsAscend 1 entries.now }
    requires functions { All (λ e. e.function < 2 ^ 29) entries.now }
    requires slots { All (λ e. SlotsAscend e.fixups) entries.now }
    requires small { length (entry_bytes entries.now) < 2 ^ 24 }
    ensures { IfOk result (λ v. v.items ≡ entry_bytes entries.now) }
{
    let elements = elements(alloc, entries)?;
    write_sparse(alloc, highest_row(entries), &elements)
}
