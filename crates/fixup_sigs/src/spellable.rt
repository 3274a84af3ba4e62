//! Which fixups have a spelling.

ghost use Rattle.std.specs.Prelude.{◌<◌, ◌^◌, ◌↔◌, IsTrue};
ghost use Rattle.fixup_sigs.specs.Fixup.{IsElement};
ghost use Rattle.fixup_sigs.specs.Shortest.{IsSpellable, IsSpellablePayload, IsSpellableType};

use crate::element::{BOOLEAN, U8};
use crate::fixup::{Fixup, SigType};
use crate::signature::{Payload, Signature};

/// Numbers that compress are below this.
const LIMIT: u32 = 1 << 29;

impl Fixup {
    /// Whether the fixup has a spelling, which is the condition of [`write_fixup`](crate::write_fixup): its numbers are
    /// below 2^29 (ECMA-335 II.23.2), and its element types are from 02 (BOOLEAN) to 0B (U8). It takes no memory.
    pub fn is_spellable(&self) -> bool
        ensures { IsTrue result ↔ IsSpellable self.now }
    {
        is_spellable_payload(Signature::of(*self).payload)
    }
}

/// Whether a payload has a spelling.
fn is_spellable_payload(payload: Payload) -> bool
    ensures { IsTrue result ↔ IsSpellablePayload payload }
{
    match payload {
        Payload::Number(number) => number < LIMIT,
        Payload::OfType(of) => is_spellable_type(of),
        Payload::OfField(field) => field.row < LIMIT,
        Payload::OffsetAndField(offset, field) => offset < LIMIT && field.row < LIMIT,
    }
}

/// Whether a type has a spelling.
fn is_spellable_type(of: SigType) -> bool
    ensures { IsTrue result ↔ IsSpellableType of }
{
    match of {
        SigType::Int(element) | SigType::Array(element) => is_element(element),
        SigType::Str | SigType::Object => true,
        SigType::Class(coded) => coded < LIMIT,
    }
}

/// Whether a byte is the element type of an integer type.
fn is_element(byte: u8) -> bool
    ensures { IsTrue result ↔ IsElement byte }
{
    (BOOLEAN..=U8).contains(&byte)
}
