//! The types that declare methods, as the types of a world keep them.

ghost use Rattle.std.specs.Prelude.{◌≡◌, Some, slice_get};
ghost use Rattle.std.specs.Option.{option_map};
ghost use Rattle.type_world.specs.Loading.{world_of};
ghost use Rattle.type_world.specs.Members.{BuiltIn, built_in};
ghost use Rattle.type_world.specs.Resolution.{method_class};

use crate::identity::TypeId;
use crate::types::Types;
use cli_assembly::{Assembly, lists_ascend};

/// The type of a built-in method.
pub(crate) fn built_in_class(row: u32) -> Option<TypeId>
    ensures { result ≡ option_map (λ (b : BuiltIn). b.of) (built_in row) }
{
    if row < 1 {
        None
    } else if row < 2 {
        Some(TypeId::Object)
    } else if row < 8 {
        Some(TypeId::Console)
    } else if row < 9 {
        Some(TypeId::Str)
    } else {
        None
    }
}

impl Types {
    /// The type that declares a row of MethodDef of the assembly at a position.
    pub(crate) fn row_class(&self, asm: u8, row: u32) -> Option<TypeId>
        ensures { result ≡ method_class (world_of self.now) asm row }
    {
        match self.assemblies().assembly(asm) {
            Some(assembly) => self.kept_class(assembly, asm, row),
            None => None,
        }
    }

    /// The type that declares a row of MethodDef of an assembly. No list has a row that its table lacks, so the rows that are kept are all
    /// that have one.
    fn kept_class(&self, assembly: &Assembly, asm: u8, row: u32) -> Option<TypeId>
        requires { slice_get self.now asm ≡ Some assembly.now }
        ensures { result ≡ method_class (world_of self.now) asm row }
    {
        lists_ascend();
        assembly.bytes();
        match self.resolved_at(asm) {
            Some(resolved) => resolved.method_class(row),
            None => None,
        }
    }
}
