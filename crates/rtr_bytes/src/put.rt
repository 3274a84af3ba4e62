//! Little-endian numbers, written at a place of a list of bytes.

ghost use Rattle.std.specs.Prelude.{◌≡◌, ◌≤◌, ◌+◌, ◌++◌, ◌↔◌, IsTrue, Some, length, take, drop};
ghost use Rattle.std.specs.Bool.{OnTrue, OnFalse};
ghost use Rattle.byteorder.specs.Endian.{little_bytes};
ghost use Rattle.rtr_bytes.specs.Field.{field_at};

use byteorder::{ByteOrder, LittleEndian};

/// Writes a 32-bit number at a file offset, lowest byte first. `false` exactly where its four bytes pass the
/// end, and then nothing changes.
pub fn put_u32(bytes: &mut [u8], at: u32, value: u32) -> bool
    ensures fits { IsTrue result ↔ (at + 4 ≤ length bytes.old) }
    // Exactly the four bytes are the number's.
    ensures written { OnTrue result
        (bytes.new ≡ take at bytes.old ++ little_bytes 4 value ++ drop (at + 4) bytes.old) }
    ensures read_back { OnTrue result (field_at 4 bytes.new at ≡ Some value) }
    ensures refused { OnFalse result (bytes.new ≡ bytes.old) }
{
    let at = at as usize;
    if at + 4 > bytes.len() {
        return false;
    }
    LittleEndian::write_u32(&mut bytes[at..at + 4], value);
    true
}
