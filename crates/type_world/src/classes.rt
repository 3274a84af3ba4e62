//! Types and methods of the assembly at position 0 by their names, as a person gives them.

ghost use Rattle.std.specs.Prelude.{◌≡◌, ◌++◌, ◌<◌, codes, filter, option_copied};
ghost use Rattle.cli_assembly.specs.Assemblies.{methods_of, rows_between, string_at};
ghost use Rattle.std.specs.Option.{option_and_then};
ghost use Rattle.std.specs.Str.{bytes_eq};
ghost use Rattle.type_world.specs.Loading.{world_of};
ghost use Rattle.type_world.specs.World.{assembly_in, has_text, text_at};
ghost use Rattle.type_world.specs.Entries.{class_named, dotted, entry_named, full_name, is_static_named, only};

use crate::assemblies::Assemblies;
use crate::identity::MethodId;
use metadata::Table;
use std::ops::Range;

/// TypeName, a column of TypeDef (ECMA-335 II.22.37).
const TYPE_NAME: u8 = 1;
/// TypeNamespace, a column of TypeDef.
const TYPE_NAMESPACE: u8 = 2;
/// Name, a column of MethodDef (ECMA-335 II.22.26).
const METHOD_NAME: u8 = 3;

/// Whether a text is a dot and a name.
fn is_dotted(text: &[u8], name: &[u8]) -> bool
    ensures { result ≡ bytes_eq text.now (codes "." ++ name.now) }
{
    match text.split_first() {
        Some((first, rest)) => *first == b'.' && rest == name,
        None => false,
    }
}

/// Whether a text is the full name of a type: its namespace, a dot and its name, or its name alone where the namespace is empty.
fn is_full_name(text: &[u8], namespace: &[u8], name: &[u8]) -> bool
    ensures { result ≡ bytes_eq text.now (dotted namespace.now name.now) }
{
    if namespace.is_empty() {
        return text == name;
    }
    match text.strip_prefix(namespace) {
        Some(rest) => is_dotted(rest, name),
        None => false,
    }
}

impl Assemblies {
    /// The text of a column of a row; empty where there is none.
    pub(crate) fn text_at(&self, table: Table, asm: u8, row: u32, number: u8) -> &str
        ensures { result.now ≡ text_at (assembly_in (world_of self.now) asm) table row number }
    {
        match self.assembly(asm) {
            Some(assembly) => assembly
                .string(assembly.column(table, row, number))
                .unwrap_or(""),
            None => "",
        }
    }

    /// Whether a row of TypeDef has a full name.
    fn is_class_named(&self, row: u32, name: &str) -> bool
        ensures { result ≡ bytes_eq name.now (full_name (assembly_in (world_of self.now) 0) row) }
    {
        let namespace = self.text_at(Table::TypeDef, 0, row, TYPE_NAMESPACE);
        let own = self.text_at(Table::TypeDef, 0, row, TYPE_NAME);
        is_full_name(name.as_bytes(), namespace.as_bytes(), own.as_bytes())
    }

    /// The first row of TypeDef with a full name.
    pub(crate) fn class_named(&self, name: &str) -> Option<u32>
        ensures { result ≡ class_named (world_of self.now) name.now }
    {
        for before in 0..self.rows_at(Table::TypeDef, 0) {
            if self.is_class_named(before + 1, name) {
                return Some(before + 1);
            }
        }
        None
    }

    /// Whether a column of a row names a text.
    #[tactic(auto, unfolding(crate::specs::World::has_text))]
    fn has_text(&self, table: Table, row: u32, number: u8, text: &str) -> bool
        ensures { result ≡ has_text (assembly_in (world_of self.now) 0) table row number text.now }
    {
        match self.string_at(self.column_at(table, 0, row, number)) {
            Some(found) => text == found,
            None => false,
        }
    }

    /// The text at an offset of the heap of strings of the assembly at position 0.
    fn string_at(&self, at: u32) -> Option<&str>
        ensures { option_copied result ≡ string_at (assembly_in (world_of self.now) 0) at }
    {
        self.first().string(at)
    }

    /// Whether a row of MethodDef is a static method of a name.
    fn is_static_named(&self, row: u32, name: &str) -> bool
        ensures { result ≡ is_static_named (world_of self.now) name.now row }
    {
        self.is_static(MethodId { asm: 0, row })
            && self.has_text(Table::MethodDef, row, METHOD_NAME, name)
    }

    /// The one static method of a name among some rows.
    fn only_static_named(&self, rows: Range<u32>, name: &str) -> Option<u32>
        ensures { result ≡ only (filter (is_static_named (world_of self.now) name.now) (rows_between rows.start rows.end)) }
    {
        let mut only = None;
        for row in rows.start..rows.end {
            if self.is_static_named(row, name) {
                if only.is_some() {
                    return None;
                }
                only = Some(row);
            }
        }
        only
    }

    /// The one static method of a name in the first type of a full name. `None` exactly where there is not exactly one.
    #[tactic(auto, unfolding(crate::specs::Entries::entry_named))]
    pub(crate) fn entry_named(&self, class: &str, name: &str) -> Option<MethodId>
        ensures { result ≡ entry_named (world_of self.now) class.now name.now }
    {
        match self.static_named(self.class_named(class), name) {
            Some(row) => Some(MethodId { asm: 0, row }),
            None => None,
        }
    }

    /// The row of the one static method of a name in a type, where there is one.
    fn static_named(&self, class: Option<u32>, name: &str) -> Option<u32>
        ensures { result ≡ option_and_then (λ row. only (filter (is_static_named (world_of self.now) name.now) (methods_of (assembly_in (world_of self.now) 0) row))) class }
    {
        match class {
            Some(row) => self.only_static_named(self.methods_of(row), name),
            None => None,
        }
    }

    /// The rows of MethodDef of a type of the assembly at position 0.
    fn methods_of(&self, class: u32) -> Range<u32>
        ensures { rows_between result.start result.end ≡ methods_of (assembly_in (world_of self.now) 0) class }
    {
        self.first().methods(class)
    }
}
