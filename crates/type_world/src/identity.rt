//! Which type, method or field of a world is meant.

use cli_assembly::Elem;

/// The number that `MethodId::asm` has for a built-in method. A world has at most 64 assemblies, from 0.
pub const BUILT_IN: u8 = 64;

/// A type.
#[derive(Clone, Copy, Debug, PartialEq, Eq)]
pub enum TypeId {
    /// The built-in `System.Object`.
    Object,
    /// The built-in `System.String`.
    Str,
    /// The built-in `System.Console`.
    Console,
    /// The arrays of one dimension whose elements have an integer type.
    Array(Elem),
    /// A row of TypeDef, from 1, of the assembly at a position of the world.
    Class(u8, u32),
}

/// A method: a row of MethodDef, or a row of the table of built-in methods.
#[derive(Clone, Copy, Debug, PartialEq, Eq)]
pub struct MethodId {
    /// The position of the assembly in the world, from 0; `BUILT_IN` for a built-in method.
    pub asm: u8,
    /// The row, from 1.
    pub row: u32,
}

/// A field: a row of Field.
#[derive(Clone, Copy, Debug, PartialEq, Eq)]
pub struct FieldId {
    /// The position of the assembly in the world, from 0.
    pub asm: u8,
    /// The row, from 1.
    pub row: u32,
}
