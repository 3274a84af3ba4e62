//! The readers of nibble lists: slot by slot, and a whole list.

ghost use Rattle.std.specs.Prelude.{◌≡◌, ◌≤◌, ◌<◌, ◌^◌, ◌+◌, ◌*◌, List, None, Some, slice_index, drop, length, IfOk, MatchOption};
ghost use Rattle.std.specs.Option.{option_map};
ghost use Rattle.std.specs.List.{AllByRecursion};
ghost use Rattle.native_format.specs.declared.nibbles.SlotRef.{SlotRef as Slot};
ghost use Rattle.native_format.specs.Nibbles.{BeginsWithList, FitsWords, GivesList, list_at, list_nibbles, nibbles, slots_behind, slots_of};
ghost use Rattle.native_format.specs.NibbleSteps.{GivesSlot, IsLost, ReadsNext, ReadsNumber, Unread, left, list_end, numbers_from, slots_from};

use crate::nibbles::{ListRefusal, MalformedList, Next, SlotRef};
use std::alloc::Global;
use std::marker::Model;

fn nibble_at(bytes: &[u8], at: usize) -> u8
    requires small { length bytes.now ≤ 2 ^ 31 }
    requires within { at < 2 * length bytes.now }
    ensures value { result ≡ slice_index (nibbles bytes.now) at }
    ensures narrow { result < 16 }
{
    let byte = bytes[at / 2];
    if at % 2 == 0 { byte % 16 } else { byte / 16 }
}

/// The number from a nibble on, and the place of the nibble after it.
fn number_at(bytes: &[u8], start: usize) -> Option<(u32, usize)>
    requires { length bytes.now ≤ 2 ^ 31 }
    ensures { MatchOption result (IsLost (numbers_from bytes.now start)) (λ read. ReadsNumber bytes.now start read.0 read.1) }
{
    let mut value: u64 = 0;
    let mut at = start;
    while at < 2 * bytes.len() {
        let nibble = nibble_at(bytes, at);
        value = value * 8 + (nibble % 8) as u64;
        at += 1;
        if value > 0xFFFF_FFFF {
            return None;
        }
        if nibble < 8 {
            return Some((value as u32, at));
        }
    }
    None
}

/// The first slot of a list that begins at a nibble.
fn first_slot(bytes: &[u8], start: usize) -> Option<Next>
    requires { length bytes.now ≤ 2 ^ 31 }
    ensures { ReadsNext bytes.now (slots_of (numbers_from bytes.now start)) None start result }
{
    let (section, at) = number_at(bytes, start)?;
    let (slot, at) = number_at(bytes, at)?;
    Some(Next::Slot(SlotRef { section, slot }, at))
}

/// What follows a slot of a list, from a nibble on.
fn next_slot(bytes: &[u8], start: usize, last: SlotRef) -> Option<Next>
    requires { length bytes.now ≤ 2 ^ 31 }
    ensures { ReadsNext bytes.now (slots_behind last (numbers_from bytes.now start)) (Some last) start result }
{
    let (distance, at) = number_at(bytes, start)?;
    if distance > 0 {
        let section = last.section;
        let slot = last.slot.checked_add(distance)?;
        return Some(Next::Slot(SlotRef { section, slot }, at));
    }
    let (distance, at) = number_at(bytes, at)?;
    if distance == 0 {
        return Some(Next::End(at));
    }
    let section = last.section.checked_add(distance)?;
    let (slot, at) = number_at(bytes, at)?;
    Some(Next::Slot(SlotRef { section, slot }, at))
}

/// What is next after the last slot of a list, or where it begins, from a nibble on.
fn read_next(bytes: &[u8], start: usize, last: Option<SlotRef>) -> Option<Next>
    requires { length bytes.now ≤ 2 ^ 31 }
    ensures { ReadsNext bytes.now (slots_from last (numbers_from bytes.now start)) last start result }
{
    match last {
        Some(last) => next_slot(bytes, start, last),
        None => first_slot(bytes, start),
    }
}

/// The slots of a list, one by one. It takes no memory. Contracts see the slot that was read last, the nibbles that are left and
/// the number of the first of them, and how far it has read.
#[derive(Debug, Drop)]
pub struct SlotReader<'a> {
    bytes: &'a [u8],
    /// The number of the nibble from which the next slot is read.
    place: usize,
    /// The slot that was read last.
    last: Option<SlotRef>,
    /// The number of the nibble after all that were read, those of the list's end too.
    reached: usize,
}

impl<'a> Model for SlotReader<'a> {
    ghost Value = { Unread };

    ghost view = { λ r. record { last = r.last; stream = drop r.place (nibbles r.bytes.now); place = r.place; reached = r.reached } };

    ghost invariant = { λ r. (length r.bytes.now ≤ 2 ^ 31) × (r.reached + 1 < 2 ^ 33) };
}

impl<'a> SlotReader<'a> {
    /// Begins to read the list whose nibbles begin at a file offset, which may be after the end.
    pub fn new(bytes: &'a [u8], at: u32) -> SlotReader<'a>
        requires { length bytes.now ≤ 2 ^ 31 }
        ensures start { result ≡ record { last = None; stream = drop (2 * at) (nibbles bytes.now); place = 2 * at; reached = 2 * at } }
        ensures list { left result ≡ list_at bytes.now at }
        ensures end { list_end result ≡ option_map (λ n. 2 * at + n) (list_nibbles bytes.now at) }
    {
        SlotReader {
            bytes,
            place: 2 * at as usize,
            last: None,
            reached: 2 * at as usize,
        }
    }

    /// The next slot, `None` at the list's end. Numbers with leading zero groups are read too.
    /// `Err` where the stream is cut, or a number or a sum passes 32 bits. Both leave the slots that are left as they were.
    pub fn next_slot(&mut self) -> Result<Option<SlotRef>, MalformedList>
        ensures { GivesSlot result self.old self.new }
    {
        match read_next(self.bytes, self.place, self.last) {
            Some(Next::Slot(slot, after)) => {
                self.last = Some(slot);
                self.place = after;
                self.reached = after;
                Ok(Some(slot))
            }
            Some(Next::End(after)) => {
                self.reached = after;
                Ok(None)
            }
            None => Err(MalformedList),
        }
    }

    /// The number of the nibble after all that were read, counted from the first of the bytes: after a slot that after the
    /// slot, and after the list's end that after the two zeros of the end, which may have leading zero groups.
    pub fn reached(&self) -> usize
        ensures place { result ≡ self.now.reached }
        // A place has 32 bits, and a byte has two nibbles.
        ensures few { result + 1 < 2 ^ 33 }
    {
        self.reached
    }
}

fn list_from(alloc: Global, bytes: &[u8], at: u32) -> Result<Vec<SlotRef>, ListRefusal>
    requires { length bytes.now ≤ 2 ^ 31 }
    ensures { GivesList result (list_at bytes.now at) }
{
    let mut unread = SlotReader::new(bytes, at);
    let mut list = Vec::new(alloc);
    while let Some(slot) = unread.next_slot()? {
        list.push(slot)?;
    }
    Ok(list)
}

/// The list of slots whose nibbles begin at a file offset (ReadyToRun File Format, "Fixups"). Numbers with leading zero
/// groups are read too. `Malformed` exactly where the stream is cut, or a number or a sum passes 32 bits; `NoMemory` where
/// memory for the list is refused.
pub fn read_nibbles(alloc: Global, bytes: &[u8], at: u32) -> Result<Vec<SlotRef>, ListRefusal>
    requires { length bytes.now ≤ 2 ^ 31 }
    // What is read is spelled there, and what is spelled there is read, unless memory runs out.
    ensures found { IfOk result (λ v. BeginsWithList (drop at bytes.now) v.items) }
    ensures only { (list : List Slot) → AllByRecursion FitsWords list → BeginsWithList (drop at bytes.now) list → GivesList result (Some list) }
    // The same, as a function of the bytes.
    ensures exact { GivesList result (list_at bytes.now at) }
{
    list_from(alloc, bytes, at)
}
