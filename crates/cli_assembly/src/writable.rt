//! Which signatures have a spelling.

ghost use Rattle.std.specs.Prelude.{◌↔◌, All, IsTrue};
ghost use Rattle.cli_assembly.specs.Shortest.{IsWritable, IsWritableType};

use crate::signature::{MethodSig, TypeSig};
use crate::token::type_tag;

/// Compressed numbers are below this.
const LIMIT: usize = 1 << 29;

impl TypeSig {
    /// Whether the type has a spelling: it is not `Outside`, and a class has the token of a TypeDef, TypeRef or TypeSpec.
    pub fn is_writable(self) -> bool
        ensures { IsTrue result ↔ IsWritableType self }
    {
        match self {
            TypeSig::Class(token) => type_tag(token).is_some(),
            TypeSig::Outside => false,
            TypeSig::Void | TypeSig::Int(_) | TypeSig::Str | TypeSig::Object | TypeSig::Array(_) =>
                true,
        }
    }
}

/// Whether each type has a spelling.
fn are_writable(types: &[TypeSig]) -> bool
    ensures { IsTrue result ↔ All IsWritableType types.now }
{
    types.iter().all(|of| of.is_writable())
}

impl MethodSig {
    /// Whether the signature has a spelling: there are fewer than 2^29 parameters, and each type has one.
    pub fn is_writable(&self) -> bool
        ensures { IsTrue result ↔ IsWritable self.now }
    {
        self.params.len() < LIMIT && self.ret.is_writable() && are_writable(self.params.as_slice())
    }
}
