//! The flags of rows that decide what a type, a method or a field is (ECMA-335 II.23.1).

/// Explicit layout, of a TypeDef (TypeAttributes, II.23.1.15).
pub const TYPE_EXPLICIT_LAYOUT: u32 = 0x10;
/// Interface, of a TypeDef.
pub const TYPE_INTERFACE: u32 = 0x20;
/// Abstract, of a TypeDef.
pub const TYPE_ABSTRACT: u32 = 0x80;

/// Static, of a MethodDef (MethodAttributes, II.23.1.10).
pub const METHOD_STATIC: u16 = 0x10;
/// Virtual, of a MethodDef.
pub const METHOD_VIRTUAL: u16 = 0x40;
/// NewSlot, of a MethodDef.
pub const METHOD_NEW_SLOT: u16 = 0x100;
/// Abstract, of a MethodDef.
pub const METHOD_ABSTRACT: u16 = 0x400;

/// Static, of a Field (FieldAttributes, II.23.1.5).
pub const FIELD_STATIC: u16 = 0x10;
/// Literal, of a Field: it is a constant, and has no storage.
pub const FIELD_LITERAL: u16 = 0x40;
