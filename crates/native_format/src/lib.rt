//! Native integers, sparse arrays and nibble lists, read and written (ReadyToRun File Format, "Native Format").
//!
//! Each format has one definition in `specs/`, and a reader and a writer that are proved against it. A length of what a
//! writer gives needs no memory ([`uint_len`], [`nibbles_len`], [`SparseLength`]).
#![tactic(auto)]

mod laws;
mod nibble_length;
mod nibble_reader;
mod nibble_writer;
mod nibbles;
mod sparse;
mod sparse_length;
mod sparse_reader;
mod sparse_writer;
mod uint;

pub use laws::{lengths_are_bounded, lengths_decide_places, written_is_read};
pub use nibble_length::nibbles_len;
pub use nibble_reader::{SlotReader, read_nibbles};
pub use nibble_writer::{fewest_groups, write_nibbles};
pub use nibbles::{ListRefusal, MalformedList, SlotRef};
pub use sparse::Element;
pub use sparse_length::SparseLength;
pub use sparse_reader::SparseArray;
pub use sparse_writer::write_sparse;
pub use uint::{no_spelling_begins_another, read_uint, shortest_spelling, uint_len, write_uint};
