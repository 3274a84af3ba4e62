//! Lists of slots by their places in the file, each asked once.

ghost use Rattle.std.specs.Prelude.{◌≡◌, ◌≤◌, ◌<◌, ◌^◌, ◌+◌, ◌-◌, ◌*◌, ◌/◌, ℕ, length, true, get_or, is_some, min, unwrap_or, IfOk, IfSome, OnOk, Some};
ghost use Rattle.std.specs.Option.{option_map_or};
ghost use Rattle.std.specs.List.{list_all};
ghost use Rattle.native_format.specs.Nibbles.{list_at};
ghost use Rattle.rtr_sections.specs.EntryHeads.{HasPassed, HasRoom, Linking, asked_more, exists_in, links_at, list_len};

use crate::file::File;
use crate::imports::ImportSection;
use native_format::{SlotReader, SlotRef};
use rtr_bytes::NoMemory;
use std::alloc::Global;
use std::marker::Model;

/// Whether a slot is one of these import records.
fn exists_in(imports: &[ImportSection], slot: SlotRef) -> bool
    ensures { result ≡ exists_in imports.now slot }
{
    match imports.get(slot.section as usize) {
        Some(import) => slot.slot < import.slot_count(),
        None => false,
    }
}

/// How many bytes there are from a file offset to a nibble, where the half of a byte counts as a whole one. A number that has
/// more than 32 bits is the largest of 32 bits.
fn len_between(at: u32, nibble: usize) -> u32
    ensures { result ≡ min ((nibble - 2 * at + 1) / 2) (2 ^ 32 - 1) }
{
    let nibbles = (nibble as u64).saturating_sub(2 * u64::from(at));
    u32::try_from(nibbles.div_ceil(2)).unwrap_or(u32::MAX)
}

/// How many bytes the list has that begins at a file offset, where it is whole and its slots are of these import records. `None`
/// where there is no such list.
#[tactic(auto, unfolding(crate::specs::EntryHeads::links_at))]
fn linked_len(bytes: &[u8], imports: &[ImportSection], at: u32) -> Option<u32>
    requires { length bytes.now ≤ 2 ^ 31 }
    ensures linked { is_some result ≡ links_at bytes.now imports.now at }
    ensures len { IfSome result (λ len. list_len bytes.now at ≡ Some len) }
{
    let mut slots = SlotReader::new(bytes, at);
    'slots: loop {
        match slots.next_slot() {
            Ok(Some(slot)) => {
                if !exists_in(imports, slot) {
                    return None;
                }
            }
            Ok(None) => return Some(len_between(at, slots.reached())),
            Err(_) => return None,
        }
    }
}

/// So many bytes of lists are read for each byte of the file.
const BYTES_OF_LISTS: u64 = 32;

/// The lists of a file, which of them were found whole with slots that exist, and how much was asked. Contracts see the file,
/// the import records and how much was asked.
#[derive(Drop)]
pub(crate) struct SlotLists<'a> {
    bytes: &'a [u8],
    imports: &'a [ImportSection],
    /// By the file offset of a list, how many bytes it has once it passed, and 0 before. A list that fails ends the check.
    passed: Vec<u32>,
    /// How many bytes the lists have that were asked and passed, each as often as it was asked: at most 32 for each of the
    /// file's.
    asked: u64,
}

impl<'a> Model for SlotLists<'a> {
    ghost Value = { Linking };

    ghost view = { λ s. record { bytes = s.bytes.now; imports = s.imports.now; asked = s.asked } };

    ghost invariant = { λ s. (length s.bytes.now ≤ 2 ^ 31) × (s.asked ≤ 32 * length s.bytes.now) × ((at : ℕ) → 0 < get_or s.passed.items at 0 → HasPassed s.bytes.now s.imports.now at (get_or s.passed.items at 0)) };
}

impl<'a> SlotLists<'a> {
    /// The lists of a file, of which none was asked yet. It takes four bytes for each of the file's.
    pub(crate) fn new(
        alloc: Global,
        file: &'a File<'_>,
        imports: &'a [ImportSection],
    ) -> Result<SlotLists<'a>, NoMemory>
        ensures { IfOk result (λ lists. lists ≡ record { bytes = file.now; imports = imports.now; asked = 0 }) }
    {
        let bytes = file.bytes();
        let passed = vec![in alloc; 0u32; bytes.len()]?;
        Ok(SlotLists {
            bytes,
            imports,
            passed,
            asked: 0,
        })
    }

    /// How many bytes the list has that begins at a file offset, where it is whole and its slots exist. It takes no memory, and
    /// reads a list at most once where it passes.
    fn passed_len(&mut self, at: u32) -> Option<u32>
        ensures linked { is_some result ≡ links_at self.old.bytes self.old.imports at }
        ensures len { IfSome result (λ len. list_len self.old.bytes at ≡ Some len) }
        ensures lists { self.new ≡ self.old }
    {
        let place = at as usize;
        if place < self.passed.len() && self.passed[place] > 0 {
            return Some(self.passed[place]);
        }
        let len = linked_len(self.bytes, self.imports, at)?;
        if place < self.passed.len() {
            self.passed[place] = len;
        }
        Some(len)
    }

    /// Whether a whole list of slots that exist begins at a file offset. `NoMemory` where it does and the lists that were asked
    /// and passed, this one too, have more than 32 times the bytes of the file, each as often as it was asked. Many entries may
    /// name one long list, and lists may overlap: without a limit a small file could ask for any amount of time and memory. In
    /// the images of this compiler the lists are shorter than the file.
    pub(crate) fn links_at(&mut self, at: u32) -> Result<bool, NoMemory>
        ensures links { IfOk result (λ linked. linked ≡ links_at self.old.bytes self.old.imports at) }
        ensures asked { IfOk result (λ linked. linked ≡ true → self.new ≡ asked_more (unwrap_or (list_len self.old.bytes at) 0) self.old) }
        ensures room { IfOk result (λ linked. linked ≡ true → HasRoom self.new) }
    {
        let Some(len) = self.passed_len(at) else {
            return Ok(false);
        };
        let asked = self.asked + u64::from(len);
        if asked > self.bytes.len() as u64 * BYTES_OF_LISTS {
            return Err(NoMemory);
        }
        self.asked = asked;
        Ok(true)
    }
}
