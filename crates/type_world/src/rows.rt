//! Rows of a world's assemblies: by the position of the assembly, and by tokens (ECMA-335 II.22).

ghost use Rattle.std.specs.Prelude.{◌≡◌, ◌≤◌, ◌<◌, ◌^◌, IsTrue, length, take};
ghost use Rattle.cli_assembly.specs.Assemblies.{has_row, row_count};
ghost use Rattle.metadata.specs.declared.schema.Table.TheVariants as tables;
ghost use Rattle.cli_assembly.specs.Flags.{has_flag};
ghost use Rattle.type_world.specs.Loading.{world_of};
ghost use Rattle.type_world.specs.World.{assembly_in, column_in, row_of};
ghost use Rattle.type_world.specs.Profile.{is_abstract, method_flag};
ghost use Rattle.type_world.specs.Entries.{entry_point};

use crate::assemblies::Assemblies;
use crate::identity::MethodId;
use cli_assembly::{METHOD_ABSTRACT, METHOD_STATIC};
use metadata::Table;

/// Flags, a column of MethodDef (ECMA-335 II.22.26).
const METHOD_FLAGS: u8 = 2;

impl Assemblies {
    /// How many rows a table has in the assembly at a position; none where there is no assembly.
    pub(crate) fn rows_at(&self, table: Table, asm: u8) -> u32
        ensures rows { result ≡ row_count (assembly_in (world_of self.now) asm) table }
        ensures few { result < 2 ^ 24 }
    {
        match self.assembly(asm) {
            Some(assembly) => assembly.rows(table),
            None => 0,
        }
    }

    /// Whether a table has a row, from 1, in the assembly at a position.
    pub(crate) fn has_row(&self, table: Table, asm: u8, row: u32) -> bool
        ensures there { result ≡ has_row (assembly_in (world_of self.now) asm) table row }
        ensures few { IsTrue result → row < 2 ^ 24 }
    {
        0 < row && row <= self.rows_at(table, asm)
    }

    /// The number in a column of a row: rows from 1, columns from 0. It is 0 where there is no such row or column.
    pub(crate) fn column_at(&self, table: Table, asm: u8, row: u32, number: u8) -> u32
        ensures { result ≡ column_in (world_of self.now) asm table row number }
    {
        match self.assembly(asm) {
            Some(assembly) => assembly.column(table, row, number),
            None => 0,
        }
    }

    /// The row of a token of a table. `None` exactly where it is of another table, or there is no such row.
    pub(crate) fn row_of(&self, table: Table, asm: u8, token: u32) -> Option<u32>
        ensures { result ≡ row_of (assembly_in (world_of self.now) asm) table token }
    {
        let row = token % (1 << 24);
        if token / (1 << 24) == table.number() as u32 && self.has_row(table, asm, row) {
            Some(row)
        } else {
            None
        }
    }

    /// Whether a method has a flag.
    fn method_flag(&self, method: MethodId, flag: u16) -> bool
        requires { 0 < flag }
        ensures { result ≡ method_flag (world_of self.now) method flag }
    {
        self.column_at(Table::MethodDef, method.asm, method.row, METHOD_FLAGS) / flag as u32 % 2
            == 1
    }

    /// Whether a method is abstract.
    #[tactic(auto, unfolding(crate::specs::Profile::is_abstract))]
    pub(crate) fn is_abstract(&self, method: MethodId) -> bool
        ensures { result ≡ is_abstract (world_of self.now) method }
    {
        self.method_flag(method, METHOD_ABSTRACT)
    }

    /// Whether a method is static.
    pub(crate) fn is_static(&self, method: MethodId) -> bool
        ensures { result ≡ method_flag (world_of self.now) method METHOD_STATIC }
    {
        self.method_flag(method, METHOD_STATIC)
    }

    /// The method of the entry point token of the assembly at position 0 (ECMA-335 II.25.3.3.2). `None` exactly where it is no MethodDef
    /// token of a row.
    #[tactic(auto, unfolding(crate::specs::Entries::entry_point))]
    pub(crate) fn entry_point(&self) -> Option<MethodId>
        ensures { result ≡ entry_point (world_of self.now) }
    {
        let row = self.row_of(Table::MethodDef, 0, self.entry_token())?;
        Some(MethodId { asm: 0, row })
    }

    /// EntryPointToken of the assembly at position 0.
    fn entry_token(&self) -> u32
        ensures { result ≡ (assembly_in (world_of self.now) 0).entry_token }
    {
        match self.assembly(0) {
            Some(assembly) => assembly.pe().entry_token(),
            None => 0,
        }
    }
}
