//! The check of slots: the bad words of a range of the file, at whose RVAs no fixup begins, are found once for all
//! import records, whose arrays of signatures may share words.

ghost use Rattle.std.specs.Prelude.{None, ◌≡◌, ◌+◌, ◌-◌, ◌*◌, ◌≤◌, ◌<◌, ℕ, List, All, length, IfErr, IfOk, OnOk};
ghost use Rattle.rtr_bytes.specs.Checks.{fault_or, RefusedBy};
ghost use Rattle.rtr_sections.specs.Imports.{signatures_at, first_bad_of, first_bad_word, slot_count};
ghost use Rattle.rtr_sections.specs.BadWords.{AreFirstBad, IsFirstBad, IsWithin, names_fixup};

use crate::check::Check;
use crate::file::File;
use crate::imports::{ImportSection, SIGNATURE_SIZE};
use crate::slots::named_fixup;
use rtr_bytes::{Fault, NoMemory, ReadRefusal};
use std::alloc::Global;

/// A range of the file that has the arrays of signatures of all import records.
#[derive(Clone, Copy)]
struct Range {
    start: u32,
    end: u32,
}

impl Range {
    /// The least such range.
    fn of(file: &File<'_>, imports: &[ImportSection]) -> Range
        ensures { All (IsWithin file.now result.start result.end) imports.now }
    {
        let mut start = u32::MAX;
        let mut end: u32 = 0;
        for import in imports {
            let array = import.signatures_at(file);
            start = start.min(array);
            end = end.max(array + SIGNATURE_SIZE * import.slot_count());
        }
        Range { start, end }
    }
}

/// Whether a fixup begins at the RVA that the word at a place says.
fn names_fixup(file: &File<'_>, place: u32) -> bool
    ensures { result ≡ names_fixup file.now place }
{
    named_fixup(file, place).is_some()
}

/// The first bad word among a place and those after it by fours, and `end` where there is none before that. `firsts` has
/// that of each place from this one to the end, by how far it is before the last one.
fn first_from(firsts: &[u32], end: u32, place: u32) -> u32
    requires known { place < end → end - place ≤ length firsts.now }
    ensures { (bytes : List ℕ) → AreFirstBad bytes end firsts.now → IsFirstBad bytes end place result }
{
    if place < end {
        firsts[(end - 1 - place) as usize]
    } else {
        end
    }
}

/// The same of the place that is next before those of which `firsts` has it.
fn first_at(firsts: &[u32], end: u32, file: &File<'_>, place: u32) -> u32
    requires firsts { AreFirstBad file.now end firsts.now }
    requires within { place < end }
    requires known { end - place ≡ length firsts.now + 1 }
    ensures { IsFirstBad file.now end place result }
{
    if !names_fixup(file, place) {
        place
    } else if end - place <= SIGNATURE_SIZE {
        end
    } else {
        first_from(firsts, end, place + SIGNATURE_SIZE)
    }
}

/// The first bad word from each place of a range on, in one pass from its end to its start.
fn first_bad_words(alloc: Global, file: &File<'_>, range: Range) -> Result<Vec<u32>, NoMemory>
    ensures firsts { IfOk result (λ firsts. AreFirstBad file.now range.end firsts.items) }
    ensures all { IfOk result (λ firsts. length firsts.items ≡ range.end - range.start) }
{
    let end = range.end;
    let mut firsts = Vec::new(alloc);
    for i in 0..end.saturating_sub(range.start) {
        let first = first_at(&firsts, end, file, end - 1 - i);
        firsts.push(first)?;
    }
    Ok(firsts)
}

/// The first bad word of an import record's array.
fn first_in(firsts: &[u32], range: Range, file: &File<'_>, import: &ImportSection) -> Option<u32>
    requires firsts { AreFirstBad file.now range.end firsts.now }
    requires all { length firsts.now ≡ range.end - range.start }
    requires within { IsWithin file.now range.start range.end import.now }
    ensures { result ≡ first_bad_word file.now import.now }
{
    let array = import.signatures_at(file);
    let end = array + SIGNATURE_SIZE * import.slot_count();
    let first = first_from(firsts, range.end, array);
    if first < end { Some(first) } else { None }
}

/// Each slot of import records has a fixup. It takes time for each byte of the range that the arrays of signatures
/// have in the file, and for each record, however many slots the records have.
pub(crate) fn check_slots(
    alloc: Global,
    file: &File<'_>,
    imports: &[ImportSection],
) -> Result<(), ReadRefusal>
    ensures fault { IfErr result (λ e. RefusedBy (fault_or 61 (first_bad_of file.now imports.now) None) e) }
    ensures ok { OnOk result (first_bad_of file.now imports.now ≡ None) }
{
    let range = Range::of(file, imports);
    let firsts = first_bad_words(alloc, file, range)?;
    for import in imports {
        if let Some(place) = first_in(&firsts, range, file, import) {
            return Err(Fault {
                check: Check::SlotSignature as u16,
                place,
            }
            .into());
        }
    }
    Ok(())
}
