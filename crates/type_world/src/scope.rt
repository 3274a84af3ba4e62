//! Where a TypeRef is looked for.

/// Where a TypeRef is looked for, by its ResolutionScope (ECMA-335 II.22.38).
#[derive(Clone, Copy, Debug, PartialEq, Eq)]
pub enum Scope {
    /// In its own assembly.
    Module,
    /// In the assembly that a row of AssemblyRef names.
    Reference(u32),
    /// In the type that a row of TypeRef names.
    Enclosing(u32),
    /// Nowhere: the scope is of another table, or it isn't there.
    Unresolved,
}
