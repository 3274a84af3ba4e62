//! Signatures of methods and the types that they name (ECMA-335 II.23.2).

use crate::element::Elem;
use rtr_bytes::Sequence;

/// A type that a signature names.
#[derive(Clone, Copy, Debug, PartialEq, Eq)]
pub enum TypeSig {
    /// No value: the result of a method that returns none. It is read as a parameter, a field or a local too.
    Void,
    /// An integer type.
    Int(Elem),
    /// A string, by ELEMENT_TYPE_STRING.
    Str,
    /// `System.Object`, by ELEMENT_TYPE_OBJECT.
    Object,
    /// The class of a TypeDef, TypeRef or TypeSpec token, by ELEMENT_TYPE_CLASS. Whether the row is there is not asked.
    Class(u32),
    /// An array of one dimension whose elements have an integer type, by ELEMENT_TYPE_SZARRAY.
    Array(Elem),
    /// Every other type of the standard: a value type, a pointer, a reference to a value, a generic instance, a type with
    /// custom modifiers, and so on.
    Outside,
}

/// The parameters of a method, in order. Contracts see them as a list.
pub type Params = Sequence<TypeSig>;

/// The signature of a method with the default calling convention that has no generic parameters (ECMA-335 II.23.2.1).
#[derive(Debug, Drop)]
pub struct MethodSig {
    /// HASTHIS: the method takes `this` before its parameters.
    pub has_this: bool,
    /// The types of the parameters, without `this`.
    pub params: Params,
    /// The type of the result.
    pub ret: TypeSig,
}
