//! How long a fixup's signature is.

ghost use Rattle.std.specs.Prelude.{◌≡◌, ◌≤◌, length};
ghost use Rattle.rtr_bytes.specs.Compressed.{compressed_bytes};
ghost use Rattle.fixup_sigs.specs.Shortest.{field_bytes, fixup_bytes, payload_bytes, type_bytes};

use crate::fixup::{FieldToken, Fixup, SigType};
use crate::signature::{Payload, Signature};

impl Fixup {
    /// How many bytes [`write_fixup`](crate::write_fixup) appends for the fixup, 10 at most. It has no condition and takes
    /// no memory: of a fixup without a spelling it counts 4 bytes for a number that is too large.
    pub fn signature_len(&self) -> u32
        ensures exact { result ≡ length (fixup_bytes self.now) }
        ensures most { result ≤ 10 }
    {
        1 + payload_len(Signature::of(*self).payload)
    }
}

/// How many bytes a payload has.
fn payload_len(payload: Payload) -> u32
    ensures exact { result ≡ length (payload_bytes payload) }
    ensures most { result ≤ 9 }
{
    match payload {
        Payload::Number(number) => compressed_len(number),
        Payload::OfType(of) => type_len(of),
        Payload::OfField(field) => field_len(field),
        Payload::OffsetAndField(offset, field) => compressed_len(offset) + field_len(field),
    }
}

/// How many bytes a type has.
fn type_len(of: SigType) -> u32
    ensures exact { result ≡ length (type_bytes of) }
    ensures most { result ≤ 5 }
{
    match of {
        SigType::Int(_) | SigType::Str | SigType::Object => 1,
        SigType::Class(coded) => 1 + compressed_len(coded),
        SigType::Array(_) => 2,
    }
}

/// How many bytes a field's token has: its flags take one.
fn field_len(field: FieldToken) -> u32
    ensures exact { result ≡ length (field_bytes field) }
    ensures most { result ≤ 5 }
{
    1 + compressed_len(field.row)
}

/// How many bytes a compressed number has.
fn compressed_len(number: u32) -> u32
    ensures exact { result ≡ length (compressed_bytes number) }
    ensures most { result ≤ 4 }
{
    if number < 1 << 7 {
        1
    } else if number < 1 << 14 {
        2
    } else {
        4
    }
}
