//! Native integers (ReadyToRun File Format, "Native Format").

ghost use Rattle.std.specs.Prelude.{◌≡◌, ◌≤◌, ◌<◌, ◌^◌, ◌+◌, ◌++◌, ℕ, List, Some, length, slice_index, IfSome, OnOk, OnErr};
ghost use Rattle.native_format.specs.Uint.{IsUint, IsUintBetween, leading_uint, long, shifted, short_uint, uint_at};

use byteorder::{ByteOrder, LittleEndian};
use rtr_bytes::NoMemory;

fn read_shifted(bytes: &[u8], size: usize) -> Option<(u32, u32)>
    requires some { 1 ≤ size }
    requires most { size ≤ 4 }
    ensures { result ≡ shifted size bytes.now }
{
    if size > bytes.len() {
        return None;
    }
    let word = LittleEndian::read_uint(bytes, size) as u32;
    Some((word >> size, size as u32))
}

fn read_long(bytes: &[u8]) -> Option<(u32, u32)>
    ensures { result ≡ long bytes.now }
{
    if bytes.len() < 5 {
        return None;
    }
    Some((LittleEndian::read_u32(&bytes[1..]), 5))
}

#[tactic(auto, unfolding(crate::specs::Uint::leading_uint))]
fn read_leading(bytes: &[u8]) -> Option<(u32, u32)>
    ensures { result ≡ leading_uint bytes.now }
{
    let first = *bytes.first()?;
    if first % 2 == 0 {
        read_shifted(bytes, 1)
    } else if first % 4 == 1 {
        read_shifted(bytes, 2)
    } else if first % 8 == 3 {
        read_shifted(bytes, 3)
    } else if first % 16 == 7 {
        read_shifted(bytes, 4)
    } else {
        read_long(bytes)
    }
}

#[tactic(auto, using(crate::proofs::UintLaws::leading_size, crate::proofs::UintLaws::uint_at_past), unfolding(crate::specs::Uint::uint_at))]
fn uint_from(bytes: &[u8], at: u32) -> Option<(u32, u32)>
    requires { length bytes.now ≤ 2 ^ 31 }
    ensures { result ≡ uint_at bytes.now at }
{
    let start = at as usize;
    if start >= bytes.len() {
        return None;
    }
    let (value, size) = read_leading(&bytes[start..])?;
    Some((value, at + size))
}

/// The native integer at a place of the bytes, in any of its five forms, and the place after it. `None` exactly where
/// the bytes from there on begin with no whole integer, and so after the end. It takes no memory.
pub fn read_uint(bytes: &[u8], at: u32) -> Option<(u32, u32)>
    requires { length bytes.now ≤ 2 ^ 31 }
    // What is read is spelled there, and what is spelled there is read.
    ensures found { IfSome result (λ read. IsUintBetween bytes.now at read.0 read.1) }
    ensures only { (v next : ℕ) → IsUintBetween bytes.now at v next → result ≡ Some (v, next) }
    // The same, as a function of the bytes.
    ensures exact { result ≡ uint_at bytes.now at }
{
    uint_from(bytes, at)
}

/// How many bytes the shortest spelling of a native integer has, 5 at most. A number from 2^32 on has no spelling, and
/// 5 bytes here. It takes no memory.
#[tactic(auto, unfolding(crate::specs::Uint::short_uint))]
pub fn uint_len(value: u64) -> u64
    ensures exact { result ≡ length (short_uint value) }
    ensures most { result ≤ 5 }
{
    if value < 1 << 7 {
        1
    } else if value < 1 << 14 {
        2
    } else if value < 1 << 21 {
        3
    } else if value < 1 << 28 {
        4
    } else {
        5
    }
}

/// Appends the shortest spelling of a native integer. `Err` where memory is refused, and then `out` is as it was.
#[tactic(auto, unfolding(crate::specs::Uint::short_uint))]
pub fn write_uint(out: &mut Vec<u8>, value: u32) -> Result<(), NoMemory>
    ensures ok { OnOk result (out.new.items ≡ out.old.items ++ short_uint value) }
    ensures err { OnErr result (out.new.items ≡ out.old.items) }
{
    if value < 1 << 7 {
        out.push((value * 2) as u8)?;
    } else if value < 1 << 14 {
        out.extend_from_slice(&(value * 4 + 1).to_le_bytes()[..2])?;
    } else if value < 1 << 21 {
        out.extend_from_slice(&(value * 8 + 3).to_le_bytes()[..3])?;
    } else if value < 1 << 28 {
        out.extend_from_slice(&(value * 16 + 7).to_le_bytes())?;
    } else {
        let word = value.to_le_bytes();
        out.extend_from_slice(&[0x0F, word[0], word[1], word[2], word[3]])?;
    }
    Ok(())
}

/// The law that no spelling of a native integer begins another, whatever follows either: so what was written is read
/// again, as the number that it was. Like each law the call does nothing when it runs.
pub fn no_spelling_begins_another()
    ensures { (s t x y : List ℕ) (v w : ℕ) → IsUint v s → IsUint w t → s ++ x ≡ t ++ y → (s ≡ t) × (v ≡ w) }
{}

/// The law of the spelling that [`write_uint`] writes: it spells its number, and no spelling of that number is shorter.
pub fn shortest_spelling()
    ensures spells { (v : ℕ) → v < 2 ^ 32 → IsUint v (short_uint v) }
    ensures shortest { (v : ℕ) (s : List ℕ) → ((i : ℕ) → slice_index s i < 256) → IsUint v s → length (short_uint v) ≤ length s }
    // It is read again after whatever bytes, and whatever follows.
    ensures read_back { (v : ℕ) (before rest : List ℕ) → v < 2 ^ 32
        → IsUintBetween (before ++ short_uint v ++ rest) (length before) v (length before + length (short_uint v)) }
{}
