//! How long a nibble list is.

ghost use Rattle.std.specs.Prelude.{◌≡◌, ◌≤◌, ◌+◌, ◌*◌, length};
ghost use Rattle.std.specs.List.{flat_map};
ghost use Rattle.native_format.specs.Nibbles.{AscendFrom, IsSlotList, groups, list_bytes, numbers_after_slot, numbers_between, Precedes};
ghost use Rattle.native_format.specs.SparseLengths.{capped};

use crate::nibbles::SlotRef;

/// How many nibbles spell a number.
fn group_count(value: u32) -> u32
    ensures count { result ≡ length (groups value) }
    ensures few { result ≤ 11 }
{
    if value < 8 {
        1
    } else {
        1 + group_count(value / 8)
    }
}

/// How many nibbles lead from a slot to the next.
fn count_between(last: SlotRef, next: SlotRef) -> u32
    requires { Precedes last next }
    ensures count { result ≡ length (flat_map groups (numbers_between last next)) }
    ensures few { result ≤ 33 }
{
    if next.section == last.section {
        group_count(next.slot - last.slot)
    } else {
        group_count(0) + group_count(next.section - last.section) + group_count(next.slot)
    }
}

/// How many nibbles are after the first slot of a list, those of its end too.
fn count_after(first: SlotRef, others: &[SlotRef]) -> u128
    requires { AscendFrom first others.now }
    ensures count { result ≡ length (flat_map groups (numbers_after_slot first others.now)) }
    ensures few { result ≤ 33 * length others.now + 2 }
{
    let mut count: u128 = 0;
    let mut last = first;
    for slot in others {
        count += u128::from(count_between(last, *slot));
        last = *slot;
    }
    count + 2
}

/// How many bytes [`write_nibbles`](crate::write_nibbles) gives for a list of slots, and `u64::MAX` where they are more.
/// The list has a slot, and ascends strictly by section and then by slot. It takes no memory.
pub fn nibbles_len(list: &[SlotRef]) -> u64
    requires { IsSlotList list.now }
    ensures { result ≡ capped (length (list_bytes list.now)) }
{
    let first = list[0];
    let start = group_count(first.section) + group_count(first.slot);
    let count = u128::from(start) + count_after(first, &list[1..]);
    count.div_ceil(2).min(u128::from(u64::MAX)) as u64
}
