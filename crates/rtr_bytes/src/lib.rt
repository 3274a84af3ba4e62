//! Little-endian fields by their file offset, compressed integers, faults, and the list type of public records.
//!
//! Each crate that reads or writes a file depends on this one. A reading call takes at most 2^31 bytes, so that each
//! offset in them, and each offset one field after their end, is a `u32`.
#![tactic(auto)]

mod compressed;
mod fault;
mod field;
mod list;
mod put;

pub use compressed::{
    compressed_at, no_compressed_begins_another, put_compressed, shortest_compressed,
};
pub use fault::{Fault, NoMemory, ReadRefusal, Span, ensure};
pub use field::{u8_or_zero, u16_at, u16_or_zero, u32_at, u32_or_zero, u64_at};
pub use list::Sequence;
pub use put::put_u32;
