//! The writer of nibble lists.

ghost use Rattle.std.specs.Prelude.{◌≡◌, ◌*◌, ◌+◌, ◌<◌, ◌≤◌, ◌++◌, ◌∷◌, [], ℕ, List, length, map, slice_index, IfOk, IfSome, OnOk};
ghost use Rattle.std.specs.List.{flat_map};
ghost use Rattle.std.specs.Option.{option_to_list};
ghost use Rattle.std.specs.Int.Digits.{digits_of};
ghost use Rattle.native_format.specs.Nibbles.{AscendFrom, BeginsWithList, IsSlotList, groups, list_bytes, nibbles, numbers, numbers_after_slot, numbers_between, numbers_of, packed, Precedes};

use crate::nibbles::SlotRef;
use rtr_bytes::NoMemory;
use std::alloc::Global;
use std::marker::Model;

/// Nibbles on their way into bytes: contracts see the nibbles that were put.
#[derive(Drop)]
struct NibbleWriter {
    bytes: Vec<u8>,
    low: Option<u8>,
}

impl Model for NibbleWriter {
    ghost Value = { List ℕ };

    ghost view = { λ w. nibbles w.bytes.items ++ option_to_list w.low };

    ghost invariant = { λ w. IfSome w.low (λ n. n < 16) };
}

impl NibbleWriter {
    fn new(alloc: Global) -> NibbleWriter
        ensures { result ≡ [] }
    {
        NibbleWriter {
            bytes: Vec::new(alloc),
            low: None,
        }
    }

    fn put(&mut self, nibble: u8) -> Result<(), NoMemory>
        requires { nibble < 16 }
        ensures { OnOk result (self.new ≡ self.old ++ nibble ∷ []) }
    {
        match self.low {
            None => self.low = Some(nibble),
            Some(low) => {
                self.bytes.push(low + 16 * nibble)?;
                self.low = None;
            }
        }
        Ok(())
    }

    fn put_marked(&mut self, value: u32) -> Result<(), NoMemory>
        ensures { OnOk result (self.new ≡ self.old ++ map (λ d. 8 + d) (digits_of 8 value)) }
    {
        if value > 0 {
            self.put_marked(value / 8)?;
            self.put((8 + value % 8) as u8)?;
        }
        Ok(())
    }

    fn put_number(&mut self, value: u32) -> Result<(), NoMemory>
        ensures { OnOk result (self.new ≡ self.old ++ groups value) }
    {
        self.put_marked(value / 8)?;
        self.put((value % 8) as u8)?;
        Ok(())
    }

    fn finish(self) -> Result<Vec<u8>, NoMemory>
        ensures { IfOk result (λ v. v.items ≡ packed self) }
    {
        let NibbleWriter { mut bytes, low } = self;
        if let Some(low) = low {
            bytes.push(low)?;
        }
        Ok(bytes)
    }
}

fn put_next(out: &mut NibbleWriter, last: SlotRef, next: SlotRef) -> Result<(), NoMemory>
    requires { Precedes last next }
    ensures { OnOk result (out.new ≡ out.old ++ flat_map groups (numbers_between last next)) }
{
    if next.section == last.section {
        out.put_number(next.slot - last.slot)?;
    } else {
        out.put_number(0)?;
        out.put_number(next.section - last.section)?;
        out.put_number(next.slot)?;
    }
    Ok(())
}

fn put_others(out: &mut NibbleWriter, first: SlotRef, others: &[SlotRef]) -> Result<(), NoMemory>
    requires { AscendFrom first others.now }
    ensures { OnOk result (out.new ≡ out.old ++ flat_map groups (numbers_after_slot first others.now)) }
{
    let mut last = first;
    for slot in others {
        put_next(out, last, *slot)?;
        last = *slot;
    }
    out.put_number(0)?;
    out.put_number(0)?;
    Ok(())
}

fn put_list(out: &mut NibbleWriter, list: &[SlotRef]) -> Result<(), NoMemory>
    requires { IsSlotList list.now }
    ensures { OnOk result (out.new ≡ out.old ++ flat_map groups (numbers_of list.now)) }
{
    let first = list[0];
    out.put_number(first.section)?;
    out.put_number(first.slot)?;
    put_others(out, first, &list[1..])?;
    Ok(())
}

/// The spelling of a list of slots in the fewest nibbles (ReadyToRun File Format, "Fixups"); the rest of the last byte is 0.
/// The list has a slot, and ascends strictly by section and then by slot. `Err` where memory is refused.
pub fn write_nibbles(alloc: Global, list: &[SlotRef]) -> Result<Vec<u8>, NoMemory>
    requires { IsSlotList list.now }
    ensures exact { IfOk result (λ v. v.items ≡ list_bytes list.now) }
    // Whatever follows, the list is read back.
    ensures spells { IfOk result (λ v. (rest : List ℕ) → BeginsWithList (v.items ++ rest) list.now) }
{
    let mut out = NibbleWriter::new(alloc);
    put_list(&mut out, list)?;
    Ok(out.finish()?)
}

/// No groups that spell a number are fewer than those that are written.
pub fn fewest_groups()
    ensures spells { (v : ℕ) → numbers (groups v) ≡ v ∷ [] }
    ensures fewest { (v : ℕ) (ns : List ℕ) → ((i : ℕ) → slice_index ns i < 16) → numbers ns ≡ v ∷ [] → length (groups v) ≤ length ns }
{}
