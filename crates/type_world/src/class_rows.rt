//! What the tables say of a class, of a field and of a method that bears on the profile (ECMA-335 II.22).

ghost use Rattle.std.specs.Prelude.{◌≡◌, ◌<◌, ◌==◌, false, option_copied};
ghost use Rattle.std.specs.Option.{option_map_or};
ghost use Rattle.metadata.specs.declared.schema.Table.TheVariants as tables;
ghost use Rattle.metadata.specs.Heaps.{token};
ghost use Rattle.metadata.specs.Schema.{table_number};
ghost use Rattle.cli_assembly.specs.Flags.{has_flag};
ghost use Rattle.cli_assembly.specs.Assemblies.{fields_of, method_signature, methods_of, row_count, rows_between};
ghost use Rattle.type_world.specs.Loading.{world_of};
ghost use Rattle.type_world.specs.Members.{field_type, is_stored};
ghost use Rattle.type_world.specs.Profile.{class_flag, has_initializer, has_method_impl, is_generic, is_initializer, is_owner, is_value_base};
ghost use Rattle.type_world.specs.World.{assembly_in, column_in};

use crate::assemblies::Assemblies;
use crate::identity::FieldId;
use cli_assembly::{FIELD_LITERAL, FIELD_STATIC, MethodSig, TypeSig};
use metadata::{CodedKind, Table};
use std::ops::Range;

/// Flags, a column of TypeDef (ECMA-335 II.22.37).
const TYPE_FLAGS: u8 = 0;
/// Owner, a column of GenericParam (ECMA-335 II.22.20).
const OWNER: u8 = 2;
/// Name, a column of MethodDef (ECMA-335 II.22.26).
const METHOD_NAME: u8 = 3;
/// Class, a column of MethodImpl (ECMA-335 II.22.27).
const CLASS: u8 = 0;
/// Flags, a column of Field (ECMA-335 II.22.15).
const FIELD_FLAGS: u8 = 0;

/// Whether a token was found, and is that of a row of a table.
fn is_token(found: Option<u32>, table: Table, row: u32) -> bool
    ensures { result ≡ option_map_or (λ found. found == token (table_number table) row) found false }
{
    match found {
        Some(found) => found as u64 == table.number() as u64 * (1 << 24) + row as u64,
        None => false,
    }
}

/// Whether a flag is set.
fn is_set(flags: u32, flag: u16) -> bool
    requires { 0 < flag }
    ensures { result ≡ has_flag flags flag }
{
    flags / flag as u32 % 2 == 1
}

impl Assemblies {
    /// Whether a class has a flag.
    pub(crate) fn class_flag(&self, asm: u8, row: u32, flag: u32) -> bool
        requires { 0 < flag }
        ensures { result ≡ class_flag (world_of self.now) asm row flag }
    {
        self.column_at(Table::TypeDef, asm, row, TYPE_FLAGS) / flag % 2 == 1
    }

    /// Whether a row of GenericParam is of a row of a table. There are rows of GenericParam.
    fn is_owner(&self, asm: u8, table: Table, row: u32, param: u32) -> bool
        requires { 0 < row_count (assembly_in (world_of self.now) asm) tables.GenericParam }
        ensures { result ≡ is_owner (world_of self.now) asm table row (column_in (world_of self.now) asm tables.GenericParam param 2) }
    {
        match self.assembly(asm) {
            Some(assembly) => {
                let owner = assembly.column(Table::GenericParam, param, OWNER);
                is_token(
                    assembly.coded(CodedKind::TypeOrMethodDef, owner),
                    table,
                    row,
                )
            }
            None => false,
        }
    }

    /// Whether a row of TypeDef or of MethodDef has generic parameters. It goes through all rows of GenericParam.
    pub(crate) fn is_generic(&self, asm: u8, table: Table, row: u32) -> bool
        ensures { result ≡ is_generic (world_of self.now) asm table row }
    {
        for before in 0..self.rows_at(Table::GenericParam, asm) {
            if self.is_owner(asm, table, row, before + 1) {
                return true;
            }
        }
        false
    }

    /// The rows of MethodDef of a type.
    pub(crate) fn methods_at(&self, asm: u8, class: u32) -> Range<u32>
        ensures { rows_between result.start result.end ≡ methods_of (assembly_in (world_of self.now) asm) class }
    {
        match self.assembly(asm) {
            Some(assembly) => assembly.methods(class),
            None => 1..1,
        }
    }

    /// The rows of Field of a type.
    pub(crate) fn fields_at(&self, asm: u8, class: u32) -> Range<u32>
        ensures { rows_between result.start result.end ≡ fields_of (assembly_in (world_of self.now) asm) class }
    {
        match self.assembly(asm) {
            Some(assembly) => assembly.fields(class),
            None => 1..1,
        }
    }

    /// Whether a method is a type initializer by its name.
    fn is_initializer(&self, asm: u8, method: u32) -> bool
        ensures { result ≡ is_initializer (world_of self.now) asm method }
    {
        self.names_text(Table::MethodDef, asm, method, METHOD_NAME, ".cctor")
    }

    /// Whether a class has a type initializer.
    pub(crate) fn has_initializer(&self, asm: u8, row: u32) -> bool
        ensures { result ≡ has_initializer (world_of self.now) asm row }
    {
        let rows = self.methods_at(asm, row);
        for method in rows.start..rows.end {
            if self.is_initializer(asm, method) {
                return true;
            }
        }
        false
    }

    /// Whether a row of MethodImpl is of a class. It goes through all of them.
    pub(crate) fn has_method_impl(&self, asm: u8, row: u32) -> bool
        ensures { result ≡ has_method_impl (world_of self.now) asm row }
    {
        for before in 0..self.rows_at(Table::MethodImpl, asm) {
            if self.column_at(Table::MethodImpl, asm, before + 1, CLASS) == row {
                return true;
            }
        }
        false
    }

    /// Whether a class is `System.ValueType` or `System.Enum`.
    pub(crate) fn is_value_base(&self, asm: u8, row: u32) -> bool
        ensures { result ≡ is_value_base (world_of self.now) asm row }
    {
        self.is_named(asm, row, "System", "ValueType") || self.is_named(asm, row, "System", "Enum")
    }

    /// Whether instances have a field: it is neither literal nor static.
    pub(crate) fn is_of_instances(&self, field: FieldId) -> bool
        ensures { result ≡ is_stored (world_of self.now) false field }
    {
        let flags = self.column_at(Table::Field, field.asm, field.row, FIELD_FLAGS);
        !is_set(flags, FIELD_LITERAL) && !is_set(flags, FIELD_STATIC)
    }

    /// The type of a field by its signature. `None` exactly where there is no such row, or it has no signature of the form.
    #[tactic(auto, unfolding(crate::specs::Members::field_type))]
    pub(crate) fn field_type(&self, field: FieldId) -> Option<TypeSig>
        ensures { result ≡ field_type (world_of self.now) field }
    {
        match self.assembly(field.asm) {
            Some(assembly) => assembly.field_sig(field.row),
            None => None,
        }
    }

    /// The signature of a row of MethodDef. `None` exactly where there is no such row, or it has no signature of the form.
    pub(crate) fn row_signature(&self, asm: u8, row: u32) -> Option<&MethodSig>
        ensures { option_copied result ≡ method_signature (assembly_in (world_of self.now) asm) row }
    {
        match self.assembly(asm) {
            Some(assembly) => assembly.method_sig(row),
            None => None,
        }
    }
}
