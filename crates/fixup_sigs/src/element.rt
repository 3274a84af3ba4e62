//! The element types that signatures name (ECMA-335 II.23.1.16).

/// The first of the ten integer types.
pub(crate) const BOOLEAN: u8 = 0x02;
/// The last of the ten integer types: CHAR, I1, U1, I2, U2, I4, U4 and I8 are between.
pub(crate) const U8: u8 = 0x0B;
/// A string.
pub(crate) const STRING: u8 = 0x0E;
/// A class, whose compressed `TypeDefOrRef` follows.
pub(crate) const CLASS: u8 = 0x12;
/// `System.Object`.
pub(crate) const OBJECT: u8 = 0x1C;
/// An array of one dimension from 0, whose element type follows.
pub(crate) const SZARRAY: u8 = 0x1D;
