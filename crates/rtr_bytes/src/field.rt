//! Little-endian numbers at a place of a list of bytes.

ghost use Rattle.std.specs.Prelude.{◌≡◌, ◌≤◌, ◌^◌, length, slice_index};
ghost use Rattle.rtr_bytes.specs.Field.{field_at, u16_of, u32_of};

use byteorder::{ByteOrder, LittleEndian};

/// The 16-bit number at a file offset, lowest byte first. `None` exactly where its two bytes pass the end. `bytes` has
/// at most 2^31 bytes.
pub fn u16_at(bytes: &[u8], at: u32) -> Option<u16>
    requires { length bytes.now ≤ 2 ^ 31 }
    ensures { result ≡ field_at 2 bytes.now at }
{
    let at = at as usize;
    if at + 2 <= bytes.len() {
        Some(LittleEndian::read_u16(&bytes[at..]))
    } else {
        None
    }
}

/// The 32-bit number at a file offset, lowest byte first. `None` exactly where its four bytes pass the end. `bytes` has
/// at most 2^31 bytes.
pub fn u32_at(bytes: &[u8], at: u32) -> Option<u32>
    requires { length bytes.now ≤ 2 ^ 31 }
    ensures { result ≡ field_at 4 bytes.now at }
{
    let at = at as usize;
    if at + 4 <= bytes.len() {
        Some(LittleEndian::read_u32(&bytes[at..]))
    } else {
        None
    }
}

/// The 64-bit number at a file offset, lowest byte first. `None` exactly where its eight bytes pass the end. `bytes`
/// has at most 2^31 bytes.
pub fn u64_at(bytes: &[u8], at: u32) -> Option<u64>
    requires { length bytes.now ≤ 2 ^ 31 }
    ensures { result ≡ field_at 8 bytes.now at }
{
    let at = at as usize;
    if at + 8 <= bytes.len() {
        Some(LittleEndian::read_u64(&bytes[at..]))
    } else {
        None
    }
}

/// The byte at a file offset; 0 where the offset is at or after the end.
pub fn u8_or_zero(bytes: &[u8], at: u32) -> u8
    ensures { result ≡ slice_index bytes.now at }
{
    bytes.get(at as usize).copied().unwrap_or(0)
}

/// The 16-bit number at a file offset, lowest byte first; 0 where its bytes pass the end. `bytes` has at most 2^31
/// bytes.
pub fn u16_or_zero(bytes: &[u8], at: u32) -> u16
    requires { length bytes.now ≤ 2 ^ 31 }
    ensures { result ≡ u16_of bytes.now at }
{
    u16_at(bytes, at).unwrap_or(0)
}

/// The 32-bit number at a file offset, lowest byte first; 0 where its bytes pass the end. `bytes` has at most 2^31
/// bytes.
pub fn u32_or_zero(bytes: &[u8], at: u32) -> u32
    requires { length bytes.now ≤ 2 ^ 31 }
    ensures { result ≡ u32_of bytes.now at }
{
    u32_at(bytes, at).unwrap_or(0)
}
