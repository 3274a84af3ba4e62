//! A fixup as its kind's byte and its payload, in both directions.

ghost use Rattle.std.specs.Prelude.{◌≡◌, Some, IfSome};
ghost use Rattle.fixup_sigs.specs.Fixup.{signature, signature_of, shape_of};

use crate::fixup::{FieldToken, Fixup, SigType};
use crate::kind::{
    CHECK_FIELD_OFFSET, CHK_CAST, FIELD_ADDRESS, FIELD_BASE_OFFSET, FIELD_OFFSET, HELPER,
    IS_INSTANCE_OF, METHOD_ENTRY_DEF_TOKEN, METHOD_ENTRY_REF_TOKEN, NEW_ARRAY, NEW_OBJECT,
    STRING_HANDLE, VIRTUAL_ENTRY_DEF_TOKEN, VIRTUAL_ENTRY_REF_TOKEN,
};

/// What follows a kind's byte.
#[derive(Clone, Copy)]
pub enum Payload {
    /// A row, a number or an offset.
    Number(u32),
    /// A type.
    OfType(SigType),
    /// A field's token.
    OfField(FieldToken),
    /// An offset, and then the field that is to be at it.
    OffsetAndField(u32, FieldToken),
}

/// Which payload it is.
#[derive(Clone, Copy)]
pub enum Shape {
    /// A row, a number or an offset.
    Number,
    /// A type.
    OfType,
    /// A field's token.
    OfField,
    /// An offset, and then a field's token.
    OffsetAndField,
}

/// A fixup's kind, as its byte, and its payload.
#[derive(Clone, Copy)]
pub struct Signature {
    /// The byte of the kind.
    pub kind: u8,
    /// What follows it.
    pub payload: Payload,
}

/// Which payload follows the byte of a kind. What it answers for other bytes is left open: no fixup has
/// such a signature.
pub fn shape_after(kind: u8) -> Option<Shape>
    ensures { (fixup : Fixup) → (signature_of fixup).kind ≡ kind
        → result ≡ Some (shape_of (signature_of fixup).payload) }
{
    match kind {
        METHOD_ENTRY_DEF_TOKEN
        | METHOD_ENTRY_REF_TOKEN
        | VIRTUAL_ENTRY_DEF_TOKEN
        | VIRTUAL_ENTRY_REF_TOKEN
        | HELPER
        | STRING_HANDLE => Some(Shape::Number),
        NEW_OBJECT | NEW_ARRAY | IS_INSTANCE_OF | CHK_CAST | FIELD_BASE_OFFSET => {
            Some(Shape::OfType)
        }
        FIELD_ADDRESS | FIELD_OFFSET => Some(Shape::OfField),
        CHECK_FIELD_OFFSET => Some(Shape::OffsetAndField),
        _ => None,
    }
}

impl Signature {
    /// The signature of a fixup.
    pub fn of(fixup: Fixup) -> Self
        ensures { result ≡ signature_of fixup }
    {
        let (kind, payload) = match fixup {
            Fixup::MethodEntryDefToken { row } => (METHOD_ENTRY_DEF_TOKEN, Payload::Number(row)),
            Fixup::MethodEntryRefToken { row } => (METHOD_ENTRY_REF_TOKEN, Payload::Number(row)),
            Fixup::VirtualEntryDefToken { row } => (VIRTUAL_ENTRY_DEF_TOKEN, Payload::Number(row)),
            Fixup::VirtualEntryRefToken { row } => (VIRTUAL_ENTRY_REF_TOKEN, Payload::Number(row)),
            Fixup::Helper { number } => (HELPER, Payload::Number(number)),
            Fixup::StringHandle { at } => (STRING_HANDLE, Payload::Number(at)),
            Fixup::NewObject { of } => (NEW_OBJECT, Payload::OfType(of)),
            Fixup::NewArray { elem } => (NEW_ARRAY, Payload::OfType(SigType::Array(elem))),
            Fixup::IsInstanceOf { of } => (IS_INSTANCE_OF, Payload::OfType(of)),
            Fixup::ChkCast { of } => (CHK_CAST, Payload::OfType(of)),
            Fixup::FieldAddress { field } => (FIELD_ADDRESS, Payload::OfField(field)),
            Fixup::FieldBaseOffset { of } => (FIELD_BASE_OFFSET, Payload::OfType(of)),
            Fixup::FieldOffset { field } => (FIELD_OFFSET, Payload::OfField(field)),
            Fixup::CheckFieldOffset { offset, field } => {
                (CHECK_FIELD_OFFSET, Payload::OffsetAndField(offset, field))
            }
        };
        Signature { kind, payload }
    }

    /// The fixup of a signature. `None` exactly where there is none.
    pub fn fixup(self) -> Option<Fixup>
        ensures found { IfSome result (λ fixup. signature_of fixup ≡ self) }
        ensures only { (fixup : Fixup) → signature_of fixup ≡ self → result ≡ Some fixup }
    {
        match self.payload {
            Payload::Number(number) => number_fixup(self.kind, number),
            Payload::OfType(of) => type_fixup(self.kind, of),
            Payload::OfField(field) => field_fixup(self.kind, field),
            Payload::OffsetAndField(offset, field) => (self.kind == CHECK_FIELD_OFFSET).then_some(
                Fixup::CheckFieldOffset { offset, field },
            ),
        }
    }
}

/// The fixup of a kind whose payload is a number.
fn number_fixup(kind: u8, number: u32) -> Option<Fixup>
    ensures found { IfSome result (λ fixup. signature_of fixup ≡ signature kind (Payload.Number number)) }
    ensures only { (fixup : Fixup) → signature_of fixup ≡ signature kind (Payload.Number number)
        → result ≡ Some fixup }
{
    match kind {
        METHOD_ENTRY_DEF_TOKEN => Some(Fixup::MethodEntryDefToken { row: number }),
        METHOD_ENTRY_REF_TOKEN => Some(Fixup::MethodEntryRefToken { row: number }),
        VIRTUAL_ENTRY_DEF_TOKEN => Some(Fixup::VirtualEntryDefToken { row: number }),
        VIRTUAL_ENTRY_REF_TOKEN => Some(Fixup::VirtualEntryRefToken { row: number }),
        HELPER => Some(Fixup::Helper { number }),
        STRING_HANDLE => Some(Fixup::StringHandle { at: number }),
        _ => None,
    }
}

/// The fixup of a kind whose payload is a type. That of a new array is an array type.
fn type_fixup(kind: u8, of: SigType) -> Option<Fixup>
    ensures found { IfSome result (λ fixup. signature_of fixup ≡ signature kind (Payload.OfType of)) }
    ensures only { (fixup : Fixup) → signature_of fixup ≡ signature kind (Payload.OfType of)
        → result ≡ Some fixup }
{
    match (kind, of) {
        (NEW_OBJECT, of) => Some(Fixup::NewObject { of }),
        (NEW_ARRAY, SigType::Array(elem)) => Some(Fixup::NewArray { elem }),
        (IS_INSTANCE_OF, of) => Some(Fixup::IsInstanceOf { of }),
        (CHK_CAST, of) => Some(Fixup::ChkCast { of }),
        (FIELD_BASE_OFFSET, of) => Some(Fixup::FieldBaseOffset { of }),
        _ => None,
    }
}

/// The fixup of a kind whose payload is a field alone.
fn field_fixup(kind: u8, field: FieldToken) -> Option<Fixup>
    ensures found { IfSome result (λ fixup. signature_of fixup ≡ signature kind (Payload.OfField field)) }
    ensures only { (fixup : Fixup) → signature_of fixup ≡ signature kind (Payload.OfField field)
        → result ≡ Some fixup }
{
    match kind {
        FIELD_ADDRESS => Some(Fixup::FieldAddress { field }),
        FIELD_OFFSET => Some(Fixup::FieldOffset { field }),
        _ => None,
    }
}
