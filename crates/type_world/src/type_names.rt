//! Rows of TypeDef by their names, in any assembly (ECMA-335 II.22.32 and II.22.37).

ghost use Rattle.std.specs.Prelude.{◌≡◌, ◌==◌, ◌&&◌, find, option_copied};
ghost use Rattle.metadata.specs.declared.schema.Table.TheVariants as tables;
ghost use Rattle.type_world.specs.Loading.{world_of};
ghost use Rattle.type_world.specs.Resolution.{built_in_type, class_in, in_assembly, in_type, is_named, nested_named, nests, type_named};
ghost use Rattle.type_world.specs.World.{assembly_in, has_text, is_text, rows_in};
ghost use Rattle.type_world.specs.NameNumbers.{nesting_numbers, outermost_numbers};

use crate::assemblies::Assemblies;
use crate::identity::TypeId;
use crate::name_numbers::{nested_number, outermost_number};
use crate::row_index::RowIndex;
use metadata::Table;

/// TypeName, a column of TypeDef (ECMA-335 II.22.37).
const TYPE_NAME: u8 = 1;
/// TypeNamespace, a column of TypeDef.
const TYPE_NAMESPACE: u8 = 2;
/// NestedClass, a column of the table of that name (ECMA-335 II.22.32).
const NESTED: u8 = 0;
/// EnclosingClass, a column of NestedClass.
const ENCLOSING: u8 = 1;

/// Whether a text was found, and is that one.
fn is_text(text: &str, found: Option<&str>) -> bool
    ensures { result ≡ is_text text.now (option_copied found.entry) }
{
    match found {
        Some(found) => text == found,
        None => false,
    }
}

/// The built-in type of a name.
#[tactic(auto, unfolding(crate::specs::Resolution::built_in_type))]
fn built_in_type(namespace: &str, name: &str) -> Option<TypeId>
    ensures { result ≡ built_in_type namespace.now name.now }
{
    if namespace != "System" {
        return None;
    }
    if name == "Object" {
        Some(TypeId::Object)
    } else if name == "String" {
        Some(TypeId::Str)
    } else if name == "Console" {
        Some(TypeId::Console)
    } else {
        None
    }
}

/// The class of a row of TypeDef, where there is one.
fn class_in(asm: u8, row: Option<u32>) -> Option<TypeId>
    ensures { result ≡ class_in asm row }
{
    match row {
        Some(row) => Some(TypeId::Class(asm, row)),
        None => None,
    }
}

impl Assemblies {
    /// Whether a column of a row names a text.
    pub(crate) fn names_text(&self, table: Table, asm: u8, row: u32, number: u8, text: &str) -> bool
        ensures { result ≡ has_text (assembly_in (world_of self.now) asm) table row number text.now }
    {
        match self.assembly(asm) {
            Some(assembly) => is_text(text, assembly.string(assembly.column(table, row, number))),
            None => text == "",
        }
    }

    /// Whether a row of TypeDef has a namespace and a name.
    pub(crate) fn is_named(&self, asm: u8, row: u32, namespace: &str, name: &str) -> bool
        ensures { result ≡ is_named (assembly_in (world_of self.now) asm) row namespace.now name.now }
    {
        self.names_text(Table::TypeDef, asm, row, TYPE_NAME, name)
            && self.names_text(Table::TypeDef, asm, row, TYPE_NAMESPACE, namespace)
    }

    /// The first row of TypeDef of a namespace and a name that isn't nested, among the rows by their numbers.
    fn outermost_among(&self, rows: &RowIndex, asm: u8, namespace: &str, name: &str) -> Option<u32>
        requires { rows.now ≡ outermost_numbers (assembly_in (world_of self.now) asm) }
        ensures { result ≡ type_named (assembly_in (world_of self.now) asm) namespace.now name.now }
    {
        let mut at = rows.first(outermost_number(namespace, name));
        'rows: while let Some(row) = at {
            if self.is_named(asm, row, namespace, name) {
                return Some(row);
            }
            at = rows.next(row);
        }
        None
    }

    /// The first row of TypeDef of a namespace and a name that isn't nested.
    fn type_named(&self, asm: u8, namespace: &str, name: &str) -> Option<u32>
        ensures { result ≡ type_named (assembly_in (world_of self.now) asm) namespace.now name.now }
    {
        match self.names_of(asm) {
            Some(names) => self.outermost_among(names.outermost(), asm, namespace, name),
            None => None,
        }
    }

    /// Whether a row of NestedClass names a type of a name as nested in another one.
    fn nests(&self, asm: u8, enclosing: u32, name: &str, nesting: u32) -> bool
        ensures { result ≡ nests (assembly_in (world_of self.now) asm) enclosing name.now nesting }
    {
        let nested = self.column_at(Table::NestedClass, asm, nesting, NESTED);
        self.column_at(Table::NestedClass, asm, nesting, ENCLOSING) == enclosing
            && self.names_text(Table::TypeDef, asm, nested, TYPE_NAME, name)
    }

    /// The first row of NestedClass that names a type of a name as nested in another one, among the rows by their numbers.
    fn nesting_among(&self, rows: &RowIndex, asm: u8, enclosing: u32, name: &str) -> Option<u32>
        requires { rows.now ≡ nesting_numbers (assembly_in (world_of self.now) asm) }
        ensures { result ≡ find (nests (assembly_in (world_of self.now) asm) enclosing name.now) (rows_in (assembly_in (world_of self.now) asm) tables.NestedClass) }
    {
        let mut at = rows.first(nested_number(enclosing, name));
        'rows: while let Some(nesting) = at {
            if self.nests(asm, enclosing, name, nesting) {
                return Some(nesting);
            }
            at = rows.next(nesting);
        }
        None
    }

    /// The first row of NestedClass that names a type of a name as nested in another one.
    fn nesting_named(&self, asm: u8, enclosing: u32, name: &str) -> Option<u32>
        ensures { result ≡ find (nests (assembly_in (world_of self.now) asm) enclosing name.now) (rows_in (assembly_in (world_of self.now) asm) tables.NestedClass) }
    {
        match self.names_of(asm) {
            Some(names) => self.nesting_among(names.nestings(), asm, enclosing, name),
            None => None,
        }
    }

    /// The row of TypeDef of a name that the first such row of NestedClass names as nested in another one.
    #[tactic(auto, unfolding(crate::specs::Resolution::nested_named))]
    fn nested_named(&self, asm: u8, enclosing: u32, name: &str) -> Option<u32>
        ensures { result ≡ nested_named (assembly_in (world_of self.now) asm) enclosing name.now }
    {
        match self.nesting_named(asm, enclosing, name) {
            Some(nesting) => Some(self.column_at(Table::NestedClass, asm, nesting, NESTED)),
            None => None,
        }
    }

    /// The type of a name that is nested in another one. `None` for what is no class.
    pub(crate) fn in_type(&self, name: &str, of: TypeId) -> Option<TypeId>
        ensures { result ≡ in_type (world_of self.now) name.now of }
    {
        match of {
            TypeId::Class(asm, row) => class_in(asm, self.nested_named(asm, row, name)),
            _ => None,
        }
    }

    /// The outermost type of a namespace and a name in the assembly of a position; a built-in one where there is no assembly.
    pub(crate) fn in_assembly(&self, namespace: &str, name: &str, asm: Option<u8>) -> Option<TypeId>
        ensures { result ≡ in_assembly (world_of self.now) namespace.now name.now asm }
    {
        match asm {
            Some(asm) => class_in(asm, self.type_named(asm, namespace, name)),
            None => built_in_type(namespace, name),
        }
    }
}
