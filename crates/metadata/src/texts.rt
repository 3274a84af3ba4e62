//! The places of `#Strings` at which a text begins (ECMA-335 II.24.2.3).

ghost use Rattle.std.specs.Prelude.{◌≡◌, ◌<◌, ◌≤◌, false, length, drop, get_or, is_some, IfOk};
ghost use Rattle.metadata.specs.Heaps.{text_in};
ghost use Rattle.metadata.specs.Marks.{AreTextsAfter, begins_by_lead, goes_on, is_text};

use rtr_bytes::NoMemory;
use std::alloc::Global;
use std::marker::Model;

/// The last byte of ASCII.
const LAST_ASCII: u8 = 0x7F;

/// The places of a heap at which a text begins, with an answer for each without a walk.
#[derive(Drop)]
pub(crate) struct Texts<'a> {
    heap: &'a [u8],
    marks: Vec<bool>,
}

impl<'a> Model for Texts<'a> {
    ghost use Rattle.std.specs.Prelude.{ℕ, List};
    ghost use Rattle.metadata.specs.Marks.{AreTexts};

    ghost Value = { List ℕ };

    ghost view = { λ s. s.heap.now };

    ghost invariant = { λ s. AreTexts s.marks.items s.heap.now };
}

impl<'a> Texts<'a> {
    /// Those of a heap, from its last place to its first. Its time is linear in the heap.
    pub(crate) fn of(alloc: Global, heap: &'a [u8]) -> Result<Texts<'a>, NoMemory>
        ensures { IfOk result (λ texts. texts ≡ heap.now) }
    {
        let mut marks = vec![in alloc; false; heap.len()]?;
        let mut at = heap.len();
        'places: while at > 0 {
            at -= 1;
            let begins = begins_text(heap, &marks, at);
            marks[at] = begins;
        }
        Ok(Texts { heap, marks })
    }

    /// Whether a text begins at an offset.
    pub(crate) fn begins_at(&self, at: u32) -> bool
        ensures { result ≡ is_some (text_in (drop at self.now)) }
    {
        self.marks.get(at as usize).copied().unwrap_or(false)
    }
}

/// Whether some bytes are part of a text: UTF-8 without a zero.
#[tactic(auto, using(crate::proofs::Text::utf8_so, crate::proofs::Text::utf8_not))]
fn is_text(bytes: &[u8]) -> bool
    ensures { result ≡ is_text bytes.now }
{
    match str::from_utf8(bytes) {
        Ok(_) => !bytes.contains(&0),
        Err(_) => false,
    }
}

/// The mark of a place.
fn mark(marks: &[bool], at: usize) -> bool
    ensures { result ≡ get_or marks.now at false }
{
    marks.get(at).copied().unwrap_or(false)
}

/// Whether a part of a text of some bytes is at a place, and a text begins after it.
fn goes_on(heap: &[u8], marks: &[bool], at: usize, size: usize) -> bool
    requires same { length marks.now ≡ length heap.now }
    requires some { 0 < size }
    requires small { size ≤ 4 }
    requires place { at < length heap.now }
    requires later { AreTextsAfter at marks.now heap.now }
    ensures { result ≡ goes_on size (drop at heap.now) }
{
    let next = at + size;
    if mark(marks, next) {
        is_text(&heap[at..next])
    } else {
        false
    }
}

/// Whether a character of two to four bytes is at a place, and a text begins after it.
fn begins_by_lead(heap: &[u8], marks: &[bool], at: usize) -> bool
    requires same { length marks.now ≡ length heap.now }
    requires place { at < length heap.now }
    requires later { AreTextsAfter at marks.now heap.now }
    ensures { result ≡ begins_by_lead (drop at heap.now) }
{
    goes_on(heap, marks, at, 2) || goes_on(heap, marks, at, 3) || goes_on(heap, marks, at, 4)
}

/// Whether a text begins at a place, where that is known of each later one.
fn begins_text(heap: &[u8], marks: &[bool], at: usize) -> bool
    requires same { length marks.now ≡ length heap.now }
    requires place { at < length heap.now }
    requires later { AreTextsAfter at marks.now heap.now }
    ensures { result ≡ is_some (text_in (drop at heap.now)) }
{
    let first = heap[at];
    if first == 0 {
        true
    } else if first <= LAST_ASCII {
        mark(marks, at + 1)
    } else {
        begins_by_lead(heap, marks, at)
    }
}
