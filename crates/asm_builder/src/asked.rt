//! The rows that a builder was asked for, in the words of their tables (ECMA-335 II.22). Names are in UTF-8.

use cli_assembly::{MethodSig, TypeSig};
use rtr_bytes::Sequence;

/// A TypeRef row (ECMA-335 II.22.38).
#[derive(Debug, Drop)]
pub struct TypeRef {
    /// The token of its ResolutionScope.
    pub parent: u32,
    /// TypeNamespace.
    pub space: Sequence<u8>,
    /// TypeName.
    pub name: Sequence<u8>,
}

/// A TypeDef row (ECMA-335 II.22.37).
#[derive(Debug, Drop)]
pub struct TypeDef {
    /// Flags.
    pub flags: u32,
    /// TypeNamespace.
    pub space: Sequence<u8>,
    /// TypeName.
    pub name: Sequence<u8>,
    /// The token of the type that it extends, or 0 for none.
    pub base: u32,
    /// How many fields were asked for before it. Its own are those after them, up to the next type's.
    pub fields_before: u32,
    /// How many methods were asked for before it.
    pub methods_before: u32,
}

/// A Field row (ECMA-335 II.22.15).
#[derive(Debug, Drop)]
pub struct Field {
    /// Flags.
    pub flags: u16,
    /// Name.
    pub name: Sequence<u8>,
    /// The field's type.
    pub sig: TypeSig,
}

/// A MethodDef row (ECMA-335 II.22.26) and its body. A method without code has no body.
#[derive(Debug, Drop)]
pub struct Method {
    /// Flags.
    pub flags: u16,
    /// Name.
    pub name: Sequence<u8>,
    /// The method's signature.
    pub sig: MethodSig,
    /// MaxStack.
    pub max_stack: u16,
    /// The types of the locals.
    pub locals: Sequence<TypeSig>,
    /// The code.
    pub code: Sequence<u8>,
}

/// A MemberRef row (ECMA-335 II.22.25).
#[derive(Debug, Drop)]
pub struct MemberRef {
    /// The token of its Class.
    pub parent: u32,
    /// Name.
    pub name: Sequence<u8>,
    /// Signature, as a blob.
    pub sig: Sequence<u8>,
}

/// A CustomAttribute row (ECMA-335 II.22.10).
#[derive(Debug, Drop)]
pub struct Attribute {
    /// The token of its Parent.
    pub parent: u32,
    /// The token of its Type, a constructor.
    pub constructor: u32,
    /// Value, as a blob.
    pub value: Sequence<u8>,
}
