//! Compressed unsigned integers (ECMA-335 II.23.2).

ghost use Rattle.std.specs.Prelude.{◌≡◌, ◌≤◌, ◌<◌, ◌^◌, ◌+◌, ◌++◌, ℕ, List, Some, length, IfSome, OnOk, OnErr};
ghost use Rattle.rtr_bytes.specs.Compressed.{IsCompressed, compressed_at, compressed_bytes};
ghost use Rattle.rtr_bytes.specs.Spelling.{BeginsAt, NoneBeginsAnother};

use crate::fault::NoMemory;
use byteorder::{BigEndian, ByteOrder};

/// The compressed unsigned integer at a file offset, and the offset after it (ECMA-335 II.23.2). A longer spelling than
/// the number needs is read too. `None` exactly where none is spelled there: the bytes are cut, or the first one has
/// the top bits 111. `bytes` has at most 2^31 bytes.
#[tactic(auto, unfolding(crate::specs::Compressed::compressed_at))]
pub fn compressed_at(bytes: &[u8], at: u32) -> Option<(u32, u32)>
    requires { length bytes.now ≤ 2 ^ 31 }
    // The number is spelled by exactly the bytes up to the next place.
    ensures found { IfSome result (λ found. BeginsAt IsCompressed bytes.now at found.0 found.1) }
    // What is spelled there is read.
    ensures only { (n next : ℕ) → BeginsAt IsCompressed bytes.now at n next → result ≡ Some (n, next) }
    ensures bounded { IfSome result (λ found. found.0 < 2 ^ 29) }
    // The same, as a function of the bytes.
    ensures exact { result ≡ compressed_at bytes.now at }
{
    let front = bytes.get(at as usize..)?;
    match front {
        [a, ..] if *a < 0x80 => Some((*a as u32, at + 1)),
        [a, _, ..] if *a < 0xC0 => Some((BigEndian::read_u16(front) as u32 - 0x8000, at + 2)),
        [a, _, _, _, ..] if *a < 0xE0 => {
            Some((BigEndian::read_u32(front) - 0xC000_0000, at + 4))
        }
        _ => None,
    }
}

/// Appends a number below 2^29 in its shortest spelling (ECMA-335 II.23.2). `NoMemory` comes where memory is refused,
/// and then the vector has what it had.
pub fn put_compressed(out: &mut Vec<u8>, value: u32) -> Result<(), NoMemory>
    requires { value < 2 ^ 29 }
    ensures written { OnOk result (out.new.items ≡ out.old.items ++ compressed_bytes value) }
    ensures err { OnErr result (out.new.items ≡ out.old.items) }
{
    if value < 0x80 {
        out.push(value as u8)?;
    } else if value < 0x4000 {
        out.extend_from_slice(&(0x8000 + value as u16).to_be_bytes())?;
    } else {
        out.extend_from_slice(&(0xC000_0000 + value).to_be_bytes())?;
    }
    Ok(())
}

/// The law of compressed integers: none begins another. So at a place there is one at most, and what was
/// written is read again, whatever follows it.
pub fn no_compressed_begins_another()
    ensures { NoneBeginsAnother IsCompressed }
{}

/// The law of the spelling that [`put_compressed`] writes: it is a spelling of the number, and none is shorter.
pub fn shortest_compressed()
    ensures spells { (n : ℕ) → n < 2 ^ 29 → IsCompressed (compressed_bytes n) n }
    // No other spelling of the number is shorter.
    ensures shortest { (bytes : List ℕ) (n : ℕ) → IsCompressed bytes n
        → length (compressed_bytes n) ≤ length bytes }
    // It is read again after any bytes, and whatever follows.
    ensures read_back { (n : ℕ) (before rest : List ℕ) → n < 2 ^ 29
        → BeginsAt IsCompressed (before ++ compressed_bytes n ++ rest) (length before) n
        (length before + length (compressed_bytes n)) }
{}
