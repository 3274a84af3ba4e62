//! The writer of sparse arrays (ReadyToRun File Format, "NativeArray").

ghost use Rattle.std.specs.Prelude.{◌≡◌, ◌≤◌, ◌<◌, ◌^◌, ◌+◌, ◌*◌, ◌++◌, [], List, ℕ, Option, None, length, map, unwrap_or, IfOk, IfSome, OnOk};
ghost use Rattle.std.specs.Option.{option_copied, option_map};
ghost use Rattle.native_format.specs.Uint.{short_uint};
ghost use Rattle.native_format.specs.Sparse.{weights};
ghost use Rattle.native_format.specs.SparseBytes.{AreElements, HoldsElements, block_bytes, blocks, content_by_index, fork_number, index_bytes, joined, slots_from, sparse_bytes, tree};
ghost use Rattle.native_format.specs.SparseLengths.{node_len};
ghost use Rattle.native_format.specs.SparseSteps.{AreSlots, SameFrom, IsSmall, IsShort, contents, head_of_node};

use crate::sparse::{BLOCK_SIZE, Element, WEIGHTS};
use crate::sparse_length::tree_len;
use crate::uint::write_uint;
use rtr_bytes::NoMemory;
use std::alloc::Global;

/// A node with the child of a clear bit alone, which is right after it.
const LOW_ONLY: u32 = 1;
/// A node with the child of a set bit alone, which is right after it: one byte from its start.
const HIGH_ONLY: u32 = 6;
/// The node of an empty block: a single element whose number no index has.
const EMPTY_BLOCK: u32 = 64;

/// The content of the element of one index, where it has one.
type Slot<'a> = Option<&'a [u8]>;

/// The number of a node with two children, of which the first has so many bytes.
#[tactic(auto, unfolding(crate::specs::SparseBytes::fork_number))]
fn fork_of(low: u32) -> u32
    requires { low < 2 ^ 24 }
    ensures { result ≡ fork_number low }
{
    let shortest = 4 * low + 7;
    if shortest < 1 << 7 {
        shortest
    } else if shortest + 4 < 1 << 14 {
        shortest + 4
    } else if shortest + 8 < 1 << 21 {
        shortest + 8
    } else {
        shortest + 12
    }
}

/// How many bytes the content of a slot has.
fn content_len(slot: Slot<'_>) -> Option<u64>
    ensures { result ≡ option_map length (option_copied slot.entry) }
{
    match slot {
        None => None,
        Some(content) => Some(content.len() as u64),
    }
}

/// How many bytes the contents of a block have.
fn content_lengths(slots: &[Slot<'_>]) -> [Option<u64>; 16]
    requires { length slots.now ≡ 16 }
    ensures { result ≡ map (option_map length) (contents slots.now) }
{
    let mut lengths = [None; 16];
    for i in 0..16usize {
        lengths[i] = content_len(slots[i]);
    }
    lengths
}

/// Appends the number of a node with the trees below it, by how many bytes each of them has.
fn put_node(out: &mut Vec<u8>, low: Option<u64>, high: Option<u64>) -> Result<(), NoMemory>
    requires { IsShort (node_len low high) }
    ensures { OnOk result (out.new.items ≡ out.old.items ++ head_of_node low high) }
{
    match (low, high) {
        (None, None) => {}
        (Some(_), None) => write_uint(out, LOW_ONLY)?,
        (None, Some(_)) => write_uint(out, HIGH_ONLY)?,
        (Some(len), Some(_)) => write_uint(out, fork_of(len as u32))?,
    }
    Ok(())
}

/// Appends the tree over these slots, or nothing where no slot has a content. The contents have these lengths.
fn put_tree(
    out: &mut Vec<u8>,
    lower: &[usize],
    slots: &[Slot<'_>],
    lengths: &[Option<u64>],
) -> Result<(), NoMemory>
    requires wide { AreSlots lower.now (length slots.now) }
    requires many { length lengths.now ≡ length slots.now }
    requires lengths { lengths.now ≡ map (option_map length) (contents slots.now) }
    requires small { IsSmall (tree lower.now (contents slots.now)) }
    ensures { OnOk result (out.new.items ≡ out.old.items ++ unwrap_or (tree lower.now (contents slots.now)) []) }
{
    let [weight, lower @ ..] = lower else {
        put_content(out, slots[0])?;
        return Ok(());
    };
    let low = &lengths[..*weight];
    let high = &lengths[*weight..];
    put_node(out, tree_len(lower, low), tree_len(lower, high))?;
    put_tree(out, lower, &slots[..*weight], low)?;
    put_tree(out, lower, &slots[*weight..], high)?;
    Ok(())
}

fn put_content(out: &mut Vec<u8>, slot: Slot<'_>) -> Result<(), NoMemory>
    ensures { OnOk result (out.new.items ≡ out.old.items ++ unwrap_or (option_copied slot.entry) []) }
{
    if let Some(content) = slot {
        out.extend_from_slice(content)?;
    }
    Ok(())
}

fn put_block(out: &mut Vec<u8>, slots: &[Slot<'_>]) -> Result<(), NoMemory>
    requires wide { length slots.now ≡ 16 }
    requires small { IsSmall (tree weights (contents slots.now)) }
    ensures { OnOk result (out.new.items ≡ out.old.items ++ block_bytes (contents slots.now)) }
{
    let lengths = content_lengths(slots);
    match tree_len(&WEIGHTS, &lengths) {
        None => write_uint(out, EMPTY_BLOCK)?,
        Some(_) => put_tree(out, &WEIGHTS, slots, &lengths)?,
    }
    Ok(())
}

/// The content of the first of the elements, where that is the one of the index.
fn first_slot(elements: &[Element], index: u32) -> Slot<'_>
    requires { AreElements index (2 ^ 32) elements.now }
    ensures { option_copied result ≡ content_by_index elements.now index }
{
    let first = elements.first()?;
    if first.index == index {
        Some(first.content.as_slice())
    } else {
        None
    }
}

/// The slot of an index, and the elements after it.
fn next_slot(elements: &[Element], index: u32) -> (Slot<'_>, &[Element])
    requires { AreElements index (2 ^ 32) elements.now }
    ensures slot { option_copied result.0 ≡ content_by_index elements.now index }
    ensures elements { AreElements (index + 1) (2 ^ 32) result.1.now }
    ensures others { SameFrom (index + 1) elements.now result.1.now }
{
    match first_slot(elements, index) {
        Some(content) => (Some(content), elements.split_at(1).1),
        None => (None, elements),
    }
}

/// The slots of sixteen indexes from a first one on, and the elements after them.
fn block_slots(elements: &[Element], first: u32) -> ([Slot<'_>; 16], &[Element])
    requires elements { AreElements first (2 ^ 32) elements.now }
    requires room { first + 16 < 2 ^ 32 }
    ensures slots { contents result.0 ≡ slots_from elements.now first 16 }
    ensures elements { AreElements (first + 16) (2 ^ 32) result.1.now }
    ensures others { SameFrom (first + 16) elements.now result.1.now }
{
    let mut slots = [None; 16];
    let mut rest = elements;
    for i in 0..16u32 {
        let (slot, after) = next_slot(rest, first + i);
        slots[i as usize] = slot;
        rest = after;
    }
    (slots, rest)
}

/// The block index, of so many entries, and the blocks after it.
fn lay_out(alloc: Global, count: u32, elements: &[Element]) -> Result<(Vec<u8>, Vec<u8>), NoMemory>
    requires elements { AreElements 0 (2 ^ 32) elements.now }
    requires few { count < 2 ^ 22 }
    requires small { length (joined (blocks elements.now count)) < 2 ^ 24 }
    ensures index { IfOk result (λ parts. parts.0.items ≡ index_bytes (4 * count) (blocks elements.now count)) }
    ensures blocks { IfOk result (λ parts. parts.1.items ≡ joined (blocks elements.now count)) }
{
    let mut index = Vec::new(alloc);
    let mut body = Vec::new(alloc);
    let mut rest = elements;
    for k in 0..count {
        let (slots, after) = block_slots(rest, BLOCK_SIZE * k);
        let place = 4 * count + body.len() as u32;
        index.extend_from_slice(&place.to_le_bytes())?;
        put_block(&mut body, &slots)?;
        rest = after;
    }
    Ok((index, body))
}

/// The bytes of a sparse array of a count with these elements, and no others. The elements' indexes ascend strictly and
/// are below the count, and the bytes are fewer than 2^24, which [`SparseLength`](crate::SparseLength) tests. An entry
/// of the index has four bytes, each element's path has all four nodes, and an empty block is the node 64. `Err` where memory
/// is refused.
pub fn write_sparse(alloc: Global, count: u32, elements: &[Element]) -> Result<Vec<u8>, NoMemory>
    requires elements { AreElements 0 count elements.now }
    requires small { length (sparse_bytes count elements.now) < 2 ^ 24 }
    ensures exact { IfOk result (λ v. v.items ≡ sparse_bytes count elements.now) }
    // Whatever follows, the array that is read there has exactly the elements.
    ensures holds { IfOk result (λ v. (rest : List ℕ) → HoldsElements (v.items ++ rest) count elements.now) }
{
    let (index, body) = lay_out(alloc, count.div_ceil(BLOCK_SIZE), elements)?;
    let mut out = Vec::new(alloc);
    write_uint(&mut out, 4 * count + 2)?;
    out.extend_from_slice(&index)?;
    out.extend_from_slice(&body)?;
    Ok(out)
}
