//! What a class extends.

use crate::identity::TypeId;

/// What a class extends (ECMA-335 II.22.37).
#[derive(Clone, Copy, Debug, PartialEq, Eq)]
pub enum Base {
    /// Nothing.
    NoBase,
    /// A type.
    Extends(TypeId),
    /// Something that doesn't resolve.
    UnresolvedBase,
}
