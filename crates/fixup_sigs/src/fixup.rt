//! What a cell of an image stands for (ReadyToRun File Format, "Fixups").

/// A type that a fixup names (ECMA-335 II.23.2.12; element types are those of ECMA-335 II.23.1.16).
#[derive(Clone, Copy, Debug, PartialEq, Eq)]
pub enum SigType {
    /// An integer type, by its element type from 02 (BOOLEAN) to 0B (U8).
    Int(u8),
    /// A string.
    Str,
    /// `System.Object`.
    Object,
    /// A class, by its coded `TypeDefOrRef` (ECMA-335 II.24.2.6) as the signature has it, whatever its tag.
    Class(u32),
    /// An array of an integer type, by its element type from 02 (BOOLEAN) to 0B (U8).
    Array(u8),
}

/// A field by its token: the flags say which table the row is of.
#[derive(Clone, Copy, Debug, PartialEq, Eq)]
pub struct FieldToken {
    /// Whether the row is one of MemberRef. If not, it is one of Field.
    pub member_ref: bool,
    /// The row, from 1. 0, which is no row, is read too.
    pub row: u32,
}

/// A fixup, with one variant for each kind that this crate knows. Rows count from 1; a number is read as the signature has
/// it, also where it names nothing.
#[derive(Clone, Copy, Debug, PartialEq, Eq)]
pub enum Fixup {
    /// The entry of the method of a MethodDef row.
    MethodEntryDefToken { row: u32 },
    /// The entry of the method of a MemberRef row.
    MethodEntryRefToken { row: u32 },
    /// The entry that dispatches the virtual method of a MethodDef row.
    VirtualEntryDefToken { row: u32 },
    /// The entry that dispatches the virtual method of a MemberRef row.
    VirtualEntryRefToken { row: u32 },
    /// A helper of the runtime, by its number.
    Helper { number: u32 },
    /// The string at a byte offset of the `#US` heap.
    StringHandle { at: u32 },
    /// What allocates an object of a type.
    NewObject { of: SigType },
    /// What allocates an array of an integer type, by its element type from 02 (BOOLEAN) to 0B (U8).
    NewArray { elem: u8 },
    /// What tests that an object is of a type.
    IsInstanceOf { of: SigType },
    /// What casts an object to a type.
    ChkCast { of: SigType },
    /// The address of a static field.
    FieldAddress { field: FieldToken },
    /// The byte offset in an object at which the fields that a type declares begin.
    FieldBaseOffset { of: SigType },
    /// The byte offset of an instance field in its object.
    FieldOffset { field: FieldToken },
    /// That an instance field is at a byte offset of its object.
    CheckFieldOffset { offset: u32, field: FieldToken },
}
