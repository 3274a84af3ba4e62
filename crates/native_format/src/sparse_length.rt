//! How long a sparse array is, from the lengths of its contents alone.

ghost use Rattle.std.specs.Prelude.{◌≡◌, ◌≤◌, ◌<◌, ◌^◌, ◌+◌, ◌-◌, ◌*◌, ◌/◌, ◌++◌, [], ◌∷◌, List, ℕ, Option, length, map};
ghost use Rattle.std.specs.Option.{option_map};
ghost use Rattle.native_format.specs.Sparse.{weights};
ghost use Rattle.native_format.specs.SparseBytes.{tree};
ghost use Rattle.native_format.specs.SparseLengths.{Lengths, Measure, Measures, block_len, blocks_len, capped, fork_len, front_len, node_len, sparse_len, tree_len};
ghost use Rattle.native_format.specs.SparseSteps.{AreSlots, IsSmall};

use crate::sparse::{BLOCK_SIZE, ENTRY_SIZE, WEIGHTS};
use crate::uint::uint_len;
use std::marker::Model;

/// How many bytes the number of a node with two children has, of which the first has so many bytes.
fn fork_len(low: u64) -> u64
    ensures { result ≡ fork_len low }
{
    if low < (1 << 5) - 1 {
        1
    } else if low < (1 << 12) - 2 {
        2
    } else if low < (1 << 19) - 3 {
        3
    } else if low < (1 << 26) - 4 {
        4
    } else {
        5
    }
}

/// How many bytes a node has with the trees below it, by how many each of them has.
fn node_len(low: Option<u64>, high: Option<u64>) -> Option<u64>
    ensures { result ≡ option_map capped (node_len low high) }
{
    match (low, high) {
        (None, None) => None,
        (Some(len), None) | (None, Some(len)) => Some(len.saturating_add(1)),
        (Some(low), Some(high)) => Some(fork_len(low).saturating_add(low).saturating_add(high)),
    }
}

/// How many bytes the tree over contents of these lengths has. The weights are those of the bits that are left.
pub(crate) fn tree_len(lower: &[usize], slots: &[Option<u64>]) -> Option<u64>
    requires wide { AreSlots lower.now (length slots.now) }
    ensures exact { option_map capped result ≡ option_map capped (tree_len lower.now slots.now) }
    // Of contents that are written.
    ensures written { (contents : List (Option (List ℕ))) → slots.now ≡ map (option_map length) contents
        → IsSmall (tree lower.now contents) → result ≡ option_map length (tree lower.now contents) }
{
    let [weight, lower @ ..] = lower else {
        return slots[0];
    };
    let low = tree_len(lower, &slots[..*weight]);
    let high = tree_len(lower, &slots[*weight..]);
    node_len(low, high)
}

/// How many bytes the block of contents of these lengths has: one where it is empty.
fn block_len(slots: &[Option<u64>]) -> u64
    requires { length slots.now ≡ 16 }
    ensures { result ≡ capped (block_len slots.now) }
{
    tree_len(&WEIGHTS, slots).unwrap_or(1)
}

/// How many bytes the header and the index of an array of this count have.
fn front_len(count: u32) -> u64
    ensures { result ≡ front_len count }
{
    uint_len(4 * u64::from(count) + 2) + ENTRY_SIZE * u64::from(count.div_ceil(BLOCK_SIZE))
}

/// The length of a written sparse array, added up element by element from the lengths of the contents alone: it needs no
/// content and no memory, and is exact however large the contents are.
///
/// Elements are added in the order of their indexes.
#[derive(Debug, Drop)]
pub struct SparseLength {
    count: u32,
    next: u32,
    block: u32,
    before: u64,
    slots: [Option<u64>; 16],
}

impl Model for SparseLength {
    ghost Value = { Measure };

    ghost view = { λ l. record { count = l.count; next = l.next; block = l.block; before = l.before; slots = l.slots } };

    ghost invariant = { λ l. (16 * l.block ≤ l.next) × (l.next ≤ 16 * l.block + 16) × (16 * l.block ≤ l.count - 1) };
}

impl SparseLength {
    /// The length of an array of so many elements, of which none is there yet.
    pub fn new(count: u32) -> SparseLength
        ensures measures { Measures result count [] }
        ensures count { result.count ≡ count }
        ensures next { result.next ≡ 0 }
    {
        SparseLength {
            count,
            next: 0,
            block: 0,
            before: 0,
            slots: [None; 16],
        }
    }

    /// Adds the element of an index, which is below the count and above that of each element before. Its content has so many
    /// bytes, or more than `u64` counts where it is `u64::MAX`.
    pub fn add(&mut self, index: u32, len: u64)
        requires order { self.old.next ≤ index }
        requires below { index < self.old.count }
        ensures measures { (count : ℕ) (lengths : Lengths) (content : ℕ) → len ≡ capped content → Measures self.old count lengths
            → Measures self.new count (lengths ++ (index, content) ∷ []) }
        ensures count { self.new.count ≡ self.old.count }
        ensures next { self.new.next ≡ index + 1 }
    {
        if self.block < index / BLOCK_SIZE {
            self.start(index);
        }
        self.put(index, len);
    }

    /// Begins the block of an index, which is after that of the last element.
    fn start(&mut self, index: u32)
        requires order { self.old.next ≤ index }
        requires below { index < self.old.count }
        requires later { self.old.block < index / 16 }
        ensures measures { (count : ℕ) (lengths : Lengths) → Measures self.old count lengths → Measures self.new count lengths }
        ensures count { self.new.count ≡ self.old.count }
        ensures next { self.new.next ≡ index }
        ensures block { self.new.block ≡ index / 16 }
    {
        let block = index / BLOCK_SIZE;
        self.before = self.before_block(block);
        self.next = index;
        self.block = block;
        self.slots = [None; 16];
    }

    /// Puts the length of an index of the block.
    fn put(&mut self, index: u32, len: u64)
        requires order { self.old.next ≤ index }
        requires below { index < self.old.count }
        requires here { self.old.block ≡ index / 16 }
        ensures measures { (count : ℕ) (lengths : Lengths) (content : ℕ) → len ≡ capped content → Measures self.old count lengths
            → Measures self.new count (lengths ++ (index, content) ∷ []) }
        ensures count { self.new.count ≡ self.old.count }
        ensures next { self.new.next ≡ index + 1 }
    {
        self.slots[(index % BLOCK_SIZE) as usize] = Some(len);
        self.next = index + 1;
    }

    /// The bytes of the blocks before one that is after the last element's.
    fn before_block(&self, block: u32) -> u64
        requires { self.now.block < block }
        ensures { (count : ℕ) (lengths : Lengths) → Measures self.now count lengths → result ≡ capped (blocks_len lengths block) }
    {
        let empty = u64::from(block - self.block - 1);
        self.before
            .saturating_add(block_len(&self.slots))
            .saturating_add(empty)
    }

    /// How many bytes the array has with the elements that were added, and `u64::MAX` where it has more.
    pub fn bytes(&self) -> u64
        ensures { (count : ℕ) (lengths : Lengths) → Measures self.now count lengths → result ≡ capped (sparse_len count lengths) }
    {
        let blocks = self.count.div_ceil(BLOCK_SIZE);
        let body = if self.block < blocks {
            self.before_block(blocks)
        } else {
            0
        };
        body.saturating_add(front_len(self.count))
    }
}
