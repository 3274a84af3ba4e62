//! The element types of signatures that the profile has beside the integer types (ECMA-335 II.23.1.16), those that begin a type of
//! several parts, and the first bytes of signatures (II.23.2).

/// ELEMENT_TYPE_VOID.
pub(crate) const VOID: u8 = 0x01;
/// ELEMENT_TYPE_STRING.
pub(crate) const STRING: u8 = 0x0E;
/// ELEMENT_TYPE_PTR, before a type.
pub(crate) const PTR: u8 = 0x0F;
/// ELEMENT_TYPE_BYREF, before a type.
pub(crate) const BYREF: u8 = 0x10;
/// ELEMENT_TYPE_VALUETYPE, before a coded type.
pub(crate) const VALUETYPE: u8 = 0x11;
/// ELEMENT_TYPE_CLASS, before a coded type.
pub(crate) const CLASS: u8 = 0x12;
/// ELEMENT_TYPE_VAR, before a number.
pub(crate) const VAR: u8 = 0x13;
/// ELEMENT_TYPE_ARRAY, before the type of the elements and a shape.
pub(crate) const ARRAY: u8 = 0x14;
/// ELEMENT_TYPE_GENERICINST, before CLASS or VALUETYPE, a coded type and the arguments.
pub(crate) const GENERICINST: u8 = 0x15;
/// ELEMENT_TYPE_TYPEDBYREF.
pub(crate) const TYPEDBYREF: u8 = 0x16;
/// ELEMENT_TYPE_I.
pub(crate) const I: u8 = 0x18;
/// ELEMENT_TYPE_U.
pub(crate) const U: u8 = 0x19;
/// ELEMENT_TYPE_FNPTR, before the signature of a method.
pub(crate) const FNPTR: u8 = 0x1B;
/// ELEMENT_TYPE_OBJECT.
pub(crate) const OBJECT: u8 = 0x1C;
/// ELEMENT_TYPE_SZARRAY, before the type of the elements.
pub(crate) const SZARRAY: u8 = 0x1D;
/// ELEMENT_TYPE_MVAR, before a number.
pub(crate) const MVAR: u8 = 0x1E;
/// ELEMENT_TYPE_CMOD_REQD, before a coded type and a type.
pub(crate) const CMOD_REQD: u8 = 0x1F;
/// ELEMENT_TYPE_CMOD_OPT, before a coded type and a type.
pub(crate) const CMOD_OPT: u8 = 0x20;
/// ELEMENT_TYPE_SENTINEL, before a type.
pub(crate) const SENTINEL: u8 = 0x41;
/// ELEMENT_TYPE_PINNED, before a type.
pub(crate) const PINNED: u8 = 0x45;

/// The default calling convention, without `this`.
pub(crate) const DEFAULT: u8 = 0x00;
/// HASTHIS, with the default calling convention.
pub(crate) const HAS_THIS: u8 = 0x20;
/// FIELD, the first byte of a field's signature.
pub(crate) const FIELD: u8 = 0x06;
/// LOCAL_SIG, the first byte of a signature of locals.
pub(crate) const LOCAL_SIG: u8 = 0x07;
