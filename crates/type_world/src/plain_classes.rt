//! What is asked of a class itself, where types in the profile are concerned.

ghost use Rattle.std.specs.Prelude.{◌≡◌};
ghost use Rattle.type_world.specs.Loading.{world_of};
ghost use Rattle.type_world.specs.Profile.{has_outside_field, has_profile_type, is_outside_field, is_plain_class};
ghost use Rattle.type_world.specs.Profiled.{plain_by};

use crate::identity::FieldId;
use crate::types::Types;
use cli_assembly::{TYPE_EXPLICIT_LAYOUT, TYPE_INTERFACE};
use metadata::Table;

impl Types {
    /// Whether the type of a field is of the profile.
    fn has_profile_type(&self, field: FieldId) -> bool
        ensures { result ≡ has_profile_type (world_of self.now) field }
    {
        match self.assemblies().field_type(field) {
            Some(sig) => self.is_of_profile(field.asm, sig),
            None => false,
        }
    }

    /// Whether a field is one that instances have, of a type outside the profile.
    fn is_outside_field(&self, field: FieldId) -> bool
        ensures { result ≡ is_outside_field (world_of self.now) field }
    {
        self.assemblies().is_of_instances(field) && !self.has_profile_type(field)
    }

    /// Whether a class has a field that instances have, of a type outside the profile.
    fn has_outside_field(&self, asm: u8, row: u32) -> bool
        ensures { result ≡ has_outside_field (world_of self.now) asm row }
    {
        let rows = self.assemblies().fields_at(asm, row);
        for field in rows.start..rows.end {
            if self.is_outside_field(FieldId { asm, row: field }) {
                return true;
            }
        }
        false
    }

    /// What is asked of a class itself, where it is known whether it is generic and whether it has rows of MethodImpl: it is no interface, it
    /// isn't generic, it has no explicit layout, no type initializer and no MethodImpl, and its fields have types of the profile.
    pub(crate) fn is_plain_by(&self, asm: u8, row: u32, generic: bool, overriding: bool) -> bool
        ensures { result ≡ plain_by (world_of self.now) asm row generic overriding }
    {
        let assemblies = self.assemblies();
        !assemblies.class_flag(asm, row, TYPE_INTERFACE)
            && !generic
            && !assemblies.class_flag(asm, row, TYPE_EXPLICIT_LAYOUT)
            && !assemblies.has_initializer(asm, row)
            && !overriding
            && !self.has_outside_field(asm, row)
    }

    /// What is asked of a class itself. It goes through all rows of GenericParam and of MethodImpl.
    pub(crate) fn is_plain_class(&self, asm: u8, row: u32) -> bool
        ensures { result ≡ is_plain_class (world_of self.now) asm row }
    {
        let generic = self.assemblies().is_generic(asm, Table::TypeDef, row);
        self.is_plain_by(
            asm,
            row,
            generic,
            self.assemblies().has_method_impl(asm, row),
        )
    }
}
