//! Writing a fixup.

ghost use Rattle.std.specs.Prelude.{◌≡◌, ◌<◌, ◌^◌, ◌++◌, OnOk, OnErr};
ghost use Rattle.fixup_sigs.specs.Shortest.{IsSpellable, IsSpellableType, IsSpellablePayload, Extends};
ghost use Rattle.fixup_sigs.specs.Shortest.{fixup_bytes, signature_bytes, payload_bytes, type_bytes, field_bytes};

use crate::element::{CLASS, OBJECT, STRING, SZARRAY};
use crate::fixup::{FieldToken, Fixup, SigType};
use crate::kind::{FIELD, MEMBER_REF};
use crate::signature::{Payload, Signature};
use rtr_bytes::{NoMemory, put_compressed};

/// Appends a fixup's signature in its shortest spelling (ReadyToRun File Format, "Fixups"), which is 10 bytes at most.
/// Its numbers are below 2^29, and its element types are from 02 (BOOLEAN) to 0B (U8), which
/// [`Fixup::is_spellable`] tests. `Err` where memory is refused, and then the vector has what it had.
pub fn write_fixup(out: &mut Vec<u8>, fixup: &Fixup) -> Result<(), NoMemory>
    requires { IsSpellable fixup.now }
    ensures written { OnOk result (out.new.items ≡ out.old.items ++ fixup_bytes fixup.now) }
    ensures err { OnErr result (out.new.items ≡ out.old.items) }
{
    let length = out.len();
    let written = put_signature(out, Signature::of(*fixup));
    if written.is_err() {
        out.truncate(length);
    }
    written
}

/// Appends a kind's byte and a payload. After an `Err` there may be a part of it.
fn put_signature(out: &mut Vec<u8>, signature: Signature) -> Result<(), NoMemory>
    requires { IsSpellablePayload signature.payload }
    ensures written { OnOk result (out.new.items ≡ out.old.items ++ signature_bytes signature) }
    ensures err { OnErr result (Extends out.old.items out.new.items) }
{
    out.push(signature.kind)?;
    put_payload(out, signature.payload)
}

/// Appends a payload.
fn put_payload(out: &mut Vec<u8>, payload: Payload) -> Result<(), NoMemory>
    requires { IsSpellablePayload payload }
    ensures written { OnOk result (out.new.items ≡ out.old.items ++ payload_bytes payload) }
    ensures err { OnErr result (Extends out.old.items out.new.items) }
{
    match payload {
        Payload::Number(number) => put_compressed(out, number),
        Payload::OfType(of) => put_type(out, of),
        Payload::OfField(field) => put_field(out, field),
        Payload::OffsetAndField(offset, field) => {
            put_compressed(out, offset)?;
            put_field(out, field)
        }
    }
}

/// Appends a type.
fn put_type(out: &mut Vec<u8>, of: SigType) -> Result<(), NoMemory>
    requires { IsSpellableType of }
    ensures written { OnOk result (out.new.items ≡ out.old.items ++ type_bytes of) }
    ensures err { OnErr result (Extends out.old.items out.new.items) }
{
    match of {
        SigType::Int(element) => out.push(element)?,
        SigType::Str => out.push(STRING)?,
        SigType::Object => out.push(OBJECT)?,
        SigType::Class(coded) => {
            out.push(CLASS)?;
            put_compressed(out, coded)?;
        }
        SigType::Array(element) => out.extend_from_slice(&[SZARRAY, element])?,
    }
    Ok(())
}

/// Appends a field's token.
fn put_field(out: &mut Vec<u8>, field: FieldToken) -> Result<(), NoMemory>
    requires { field.row < 2 ^ 29 }
    ensures written { OnOk result (out.new.items ≡ out.old.items ++ field_bytes field) }
    ensures err { OnErr result (Extends out.old.items out.new.items) }
{
    put_compressed(out, if field.member_ref { MEMBER_REF } else { FIELD })?;
    put_compressed(out, field.row)
}
