//! Elements of sparse arrays (ReadyToRun File Format, "NativeArray"), and what is asked of a node.

use rtr_bytes::Sequence;

/// How many elements a block has.
pub(crate) const BLOCK_SIZE: u32 = 16;

/// How many bytes an entry of a written index has.
pub(crate) const ENTRY_SIZE: u64 = 4;

/// The weights of the bits of an element's number in its block, from the root of the tree down: a reader asks for the bits
/// in this order.
pub(crate) const WEIGHTS: [usize; 4] = [8, 4, 2, 1];

/// Where a node of a block's tree leads.
#[derive(Clone, Copy)]
pub(crate) enum Step {
    /// To a node or, after the last bit, to the content.
    Child(u32),
    /// To the content of a single element.
    Content(u32),
    /// Nowhere.
    Absent,
}

/// An element of a sparse array that is written.
#[derive(Debug, Drop)]
pub struct Element {
    /// Its index, below the array's count.
    pub index: u32,
    /// Its content, byte for byte.
    pub content: Sequence<u8>,
}
