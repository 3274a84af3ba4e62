//! Reading a fixup at a file offset.

ghost use Rattle.std.specs.Prelude.{◌≡◌, ◌≤◌, ◌<◌, ◌^◌, ℕ, Bool, Some, length, IfSome};
ghost use Rattle.std.specs.Option.{option_map};
ghost use Rattle.rtr_bytes.specs.Spelling.{BeginsAt};
ghost use Rattle.fixup_sigs.specs.Fixup.{IsSigType, IsFieldToken, IsPayload, IsFixup, shape_of, flags_of};
ghost use Rattle.fixup_sigs.specs.Reading.{fixup_and_next_at, fixup_at, without_next};
ghost use Rattle.fixup_sigs.specs.Shortest.{IsSpellableType, IsSpellablePayload, IsSpellable};

use crate::element::{BOOLEAN, CLASS, OBJECT, STRING, SZARRAY, U8};
use crate::fixup::{FieldToken, Fixup, SigType};
use crate::kind::{FIELD, MEMBER_REF};
use crate::signature::{Payload, Shape, Signature, shape_after};
use rtr_bytes::compressed_at;

/// The fixup whose signature begins at a file offset, and the file offset after it (ReadyToRun File Format, "Fixups").
/// Longer spellings of its numbers are read too. `None` exactly where the bytes there begin with no fixup: its kind or an
/// element type is of another number, or the bytes end in it. It takes no memory.
pub fn read_fixup(bytes: &[u8], at: u32) -> Option<(Fixup, u32)>
    requires { length bytes.now ≤ 2 ^ 31 }
    // The fixup is spelled by exactly the bytes up to the next place.
    ensures found { IfSome result (λ found. BeginsAt IsFixup bytes.now at found.0 found.1) }
    // What is spelled there is read.
    ensures only { (fixup : Fixup) (next : ℕ) → BeginsAt IsFixup bytes.now at fixup next
        → result ≡ Some (fixup, next) }
    // The same, as a function of the bytes.
    ensures exact { result ≡ fixup_and_next_at bytes.now at }
    ensures alone { option_map without_next result ≡ fixup_at bytes.now at }
    // It can be written again.
    ensures spellable { IfSome result (λ found. IsSpellable found.0) }
{
    fixup_from(bytes, at)
}

/// The fixup that begins at a file offset, and the offset after it.
fn fixup_from(bytes: &[u8], at: u32) -> Option<(Fixup, u32)>
    requires { length bytes.now ≤ 2 ^ 31 }
    ensures found { IfSome result (λ found. BeginsAt IsFixup bytes.now at found.0 found.1) }
    ensures only { (fixup : Fixup) (next : ℕ) → BeginsAt IsFixup bytes.now at fixup next
        → result ≡ Some (fixup, next) }
    ensures spellable { IfSome result (λ found. IsSpellable found.0) }
{
    let kind = *bytes.get(at as usize)?;
    let (payload, next) = payload_at(bytes, at + 1, shape_after(kind)?)?;
    let fixup = Signature { kind, payload }.fixup()?;
    Some((fixup, next))
}

/// The payload of a shape that begins at a file offset, and the offset after it.
fn payload_at(bytes: &[u8], at: u32, shape: Shape) -> Option<(Payload, u32)>
    requires { length bytes.now ≤ 2 ^ 31 }
    ensures found { IfSome result (λ found. BeginsAt IsPayload bytes.now at found.0 found.1) }
    ensures only { (payload : Payload) (next : ℕ) → shape_of payload ≡ shape
        → BeginsAt IsPayload bytes.now at payload next → result ≡ Some (payload, next) }
    ensures spellable { IfSome result (λ found. IsSpellablePayload found.0) }
{
    match shape {
        Shape::Number => {
            let (number, next) = compressed_at(bytes, at)?;
            Some((Payload::Number(number), next))
        }
        Shape::OfType => {
            let (of, next) = type_at(bytes, at)?;
            Some((Payload::OfType(of), next))
        }
        Shape::OfField => {
            let (field, next) = field_at(bytes, at)?;
            Some((Payload::OfField(field), next))
        }
        Shape::OffsetAndField => {
            let (offset, next) = compressed_at(bytes, at)?;
            let (field, next) = field_at(bytes, next)?;
            Some((Payload::OffsetAndField(offset, field), next))
        }
    }
}

/// The type that begins at a file offset, and the offset after it.
fn type_at(bytes: &[u8], at: u32) -> Option<(SigType, u32)>
    requires { length bytes.now ≤ 2 ^ 31 }
    ensures found { IfSome result (λ found. BeginsAt IsSigType bytes.now at found.0 found.1) }
    ensures only { (of : SigType) (next : ℕ) → BeginsAt IsSigType bytes.now at of next
        → result ≡ Some (of, next) }
    ensures spellable { IfSome result (λ found. IsSpellableType found.0) }
{
    match *bytes.get(at as usize)? {
        element @ BOOLEAN..=U8 => Some((SigType::Int(element), at + 1)),
        STRING => Some((SigType::Str, at + 1)),
        OBJECT => Some((SigType::Object, at + 1)),
        CLASS => {
            let (coded, next) = compressed_at(bytes, at + 1)?;
            Some((SigType::Class(coded), next))
        }
        SZARRAY => match *bytes.get(at as usize + 1)? {
            element @ BOOLEAN..=U8 => Some((SigType::Array(element), at + 2)),
            _ => None,
        },
        _ => None,
    }
}

/// The field's token that begins at a file offset, and the offset after it.
fn field_at(bytes: &[u8], at: u32) -> Option<(FieldToken, u32)>
    requires { length bytes.now ≤ 2 ^ 31 }
    ensures found { IfSome result (λ found. BeginsAt IsFieldToken bytes.now at found.0 found.1) }
    ensures only { (field : FieldToken) (next : ℕ) → BeginsAt IsFieldToken bytes.now at field next
        → result ≡ Some (field, next) }
    ensures spellable { IfSome result (λ found. found.0.row < 2 ^ 29) }
{
    let (flags, next) = compressed_at(bytes, at)?;
    let member_ref = is_member_ref(flags)?;
    let (row, next) = compressed_at(bytes, next)?;
    Some((FieldToken { member_ref, row }, next))
}

/// Whether a field's flags say MemberRef. `None` exactly where they are no flags.
fn is_member_ref(flags: u32) -> Option<bool>
    ensures found { IfSome result (λ member_ref. flags ≡ flags_of member_ref) }
    ensures only { (member_ref : Bool) → flags ≡ flags_of member_ref → result ≡ Some member_ref }
{
    match flags {
        FIELD => Some(false),
        MEMBER_REF => Some(true),
        _ => None,
    }
}
