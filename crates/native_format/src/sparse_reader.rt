//! The reader of sparse arrays (ReadyToRun File Format, "NativeArray").

ghost use Rattle.std.specs.Prelude.{◌≡◌, ◌≤◌, ◌<◌, ◌^◌, ◌+◌, ◌*◌, ◌%◌, ◌==◌, if◌then◌else◌, ℕ, Some, None, length, IfOk, IfErr};
ghost use Rattle.rtr_bytes.specs.Field.{field_at};
ghost use Rattle.native_format.specs.Sparse.{array_at, Array, IsWithin, blocks_of, element_of, header_fault, path, step_at, weights};

use crate::sparse::{BLOCK_SIZE, Step, WEIGHTS};
use crate::uint::read_uint;
use byteorder::{ByteOrder, LittleEndian};
use rtr_bytes::Fault;
use std::marker::Model;

/// The check that an array's header and index are whole, as `dump` prints it.
const HEADER_CHECK: u16 = 63;
/// The check that no path of an array is cut.
const PATH_CHECK: u16 = 64;

/// Where the node at a place leads that is asked for the bit of a weight.
#[tactic(auto, unfolding(crate::specs::Sparse::step_at))]
fn step(bytes: &[u8], low: u32, weight: u32, at: u32) -> Result<Step, Fault>
    requires small { length bytes.now ≤ 2 ^ 31 }
    requires some { 0 < weight }
    ensures { result ≡ step_at bytes.now low weight at }
{
    let broken = Fault {
        check: PATH_CHECK,
        place: at,
    };
    let Some((node, next)) = read_uint(bytes, at) else {
        return Err(broken);
    };
    let set = low / weight % 2 == 1;
    if set && node / 2 % 2 == 1 {
        let child = at as usize + (node / 4) as usize;
        if child > bytes.len() {
            return Err(broken);
        }
        return Ok(Step::Child(child as u32));
    }
    if !set && node % 2 == 1 {
        return Ok(Step::Child(next));
    }
    if node % 4 == 0 && node / 4 == low {
        return Ok(Step::Content(next));
    }
    Ok(Step::Absent)
}

/// What the path of an element's number finds in its block.
fn walk(bytes: &[u8], low: u32, block: u32) -> Result<Option<u32>, Fault>
    requires { length bytes.now ≤ 2 ^ 31 }
    ensures { result ≡ path bytes.now low weights block }
{
    let mut at = block;
    for weight in WEIGHTS {
        match step(bytes, low, weight as u32, at) {
            Ok(Step::Child(next)) => at = next,
            Ok(Step::Content(place)) => return Ok(Some(place)),
            Ok(Step::Absent) => return Ok(None),
            Err(broken) => return Err(broken),
        }
    }
    Ok(Some(at))
}

/// An entry of the index.
fn entry_at(bytes: &[u8], size: u32, at: u32) -> u32
    requires some { 1 ≤ size }
    requires most { size ≤ 4 }
    requires within { at + size ≤ length bytes.now }
    ensures { field_at size bytes.now at ≡ Some result }
{
    LittleEndian::read_uint(&bytes[at as usize..], size as usize) as u32
}

/// How many bytes an entry of the index has.
fn entry_size_of(header: u32) -> Option<u32>
    ensures { result ≡ (if header % 4 == 3 then None else Some (2 ^ (header % 4))) }
{
    match header % 4 {
        0 => Some(1),
        1 => Some(2),
        2 => Some(4),
        _ => None,
    }
}

/// A sparse array in a list of bytes, which keeps the bytes and what its header says. Contracts see it as
/// the record of these. It takes no memory.
#[derive(Debug, Drop)]
pub struct SparseArray<'a> {
    bytes: &'a [u8],
    index_at: u32,
    count: u32,
    entry_size: u32,
}

impl<'a> Model for SparseArray<'a> {
    ghost Value = { Array };

    ghost view = { λ a. record { bytes = a.bytes.now; index_at = a.index_at; count = a.count; entry_size = a.entry_size } };

    ghost invariant = { λ a. (length a.bytes.now ≤ 2 ^ 31) × (1 ≤ a.entry_size) × (a.entry_size ≤ 4) × (a.index_at + a.entry_size * blocks_of a.count ≤ length a.bytes.now) };
}

impl<'a> SparseArray<'a> {
    /// The array whose header is at a place of the bytes, which may be after the end. Check 63 at that place exactly
    /// where the header or its index is cut, or the low two bits of the header, which give the size of an entry, are 3.
    pub fn read(bytes: &'a [u8], at: u32) -> Result<SparseArray<'a>, Fault>
        requires { length bytes.now ≤ 2 ^ 31 }
        ensures ok { IfOk result (λ array. array_at bytes.now at ≡ Some array) }
        ensures bytes { IfOk result (λ array. array.bytes ≡ bytes.now) }
        ensures none { IfErr result (λ _. array_at bytes.now at ≡ None) }
        ensures place { IfErr result (λ fault. fault ≡ header_fault at) }
    {
        let fault = Fault {
            check: HEADER_CHECK,
            place: at,
        };
        let Some((header, index_at)) = read_uint(bytes, at) else {
            return Err(fault);
        };
        let Some(entry_size) = entry_size_of(header) else {
            return Err(fault);
        };
        let blocks = (header / 4).div_ceil(BLOCK_SIZE);
        if index_at as usize + (entry_size * blocks) as usize > bytes.len() {
            return Err(fault);
        }
        Ok(SparseArray {
            bytes,
            index_at,
            count: header / 4,
            entry_size,
        })
    }

    /// How many elements it counts, absent ones too.
    pub fn count(&self) -> u32
        ensures { result ≡ self.now.count }
    {
        self.count
    }

    /// The place in the bytes of an element's content. `None` where the element is absent, or its index is at or above
    /// the count. Check 64 exactly where a node on its path, or its entry of the index, is cut or names a place
    /// after the end, with that node's or entry's place. It follows one path of four nodes at most.
    #[tactic(auto, unfolding(crate::specs::Sparse::element_of))]
    pub fn get(&self, index: u32) -> Result<Option<u32>, Fault>
        ensures exact { result ≡ element_of self.now index }
        ensures within { IsWithin (length self.now.bytes) result }
    {
        if index >= self.count {
            return Ok(None);
        }
        let entry = self.index_at + self.entry_size * (index / BLOCK_SIZE);
        let distance = entry_at(self.bytes, self.entry_size, entry);
        let block = self.index_at as usize + distance as usize;
        if block > self.bytes.len() {
            return Err(Fault {
                check: PATH_CHECK,
                place: entry,
            });
        }
        walk(self.bytes, index % BLOCK_SIZE, block as u32)
    }
}
