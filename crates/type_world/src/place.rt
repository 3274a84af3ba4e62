//! What a parameter, a result, a local or a field holds, and the shape of a method.

use crate::identity::TypeId;
use cli_assembly::Elem;
use rtr_bytes::Sequence;

/// What a parameter, a result, a local, a field or an element holds, where its type is of the profile.
#[derive(Clone, Copy, Debug, PartialEq, Eq)]
pub enum Place {
    /// A number of an integer type.
    Integer(Elem),
    /// Null, or a reference to an object that fits this type.
    Reference(TypeId),
}

/// A method by its signature.
#[derive(Debug, Drop)]
pub struct Shape {
    /// The arguments in order, `this` included.
    pub arguments: Sequence<Place>,
    /// The result; none for void.
    pub result: Option<Place>,
}
