//! What the rows of an assembly have, by number (ECMA-335 II.22 and II.24.2.6), so that nothing above looks into its bytes. No call
//! takes memory, and each but `string` takes constant time.

ghost use Rattle.std.specs.Prelude.{◌≡◌, ◌≤◌, ◌<◌, ◌+◌, ◌^◌, option_copied};
ghost use Rattle.std.specs.Option.{option_map};
ghost use Rattle.metadata.specs.declared.schema.Table.TheVariants as tables;
ghost use Rattle.cli_assembly.specs.Assemblies.{
  assembly_of,
  blob_at,
  body_of,
  coded_token,
  column,
  fields_of,
  list_end,
  list_start,
  methods_of,
  row_count,
  rows_between,
  string_at,
  user_string_at,
};
ghost use Rattle.cli_assembly.specs.Bodies.{MethodBody};

use crate::assembly::Assembly;
use metadata::{CodedKind, Table};
use std::ops::Range;

/// FieldList, a column of TypeDef (ECMA-335 II.22.37).
const FIELD_LIST: u8 = 4;
/// MethodList, a column of TypeDef.
const METHOD_LIST: u8 = 5;

impl Assembly {
    /// How many rows a table has.
    pub fn rows(&self, table: Table) -> u32
        ensures rows { result ≡ row_count (assembly_of self.now) table }
        ensures few { result < 2 ^ 24 }
    {
        self.metadata().rows(table.number())
    }

    /// The number in a column of a row: rows from 1, columns from 0. It is 0 where there is no such row or column.
    pub fn column(&self, table: Table, row: u32, number: u8) -> u32
        ensures { result ≡ column (assembly_of self.now) table row number }
    {
        self.metadata()
            .column(self.bytes(), table.number(), row, number)
            .unwrap_or(0)
    }

    /// The text at an offset of `#Strings` (ECMA-335 II.24.2.3), without the zero that ends it; at 0 it is empty. `None` exactly
    /// where no UTF-8 that ends with a zero is there.
    pub fn string(&self, at: u32) -> Option<&str>
        ensures { option_copied result ≡ string_at (assembly_of self.now) at }
    {
        self.metadata().string(self.bytes(), at)
    }

    /// The bytes of the blob at an offset of `#Blob`, without its length (ECMA-335 II.24.2.4); at 0 it is empty. `None` exactly where
    /// no whole blob is there.
    pub fn blob(&self, at: u32) -> Option<&[u8]>
        ensures { option_copied result ≡ blob_at (assembly_of self.now) at }
    {
        self.metadata().blob(self.bytes(), at)
    }

    /// The UTF-16 bytes of the user string at an offset of `#US`, without its length and its last byte (ECMA-335 II.24.2.4). `None`
    /// exactly where no whole blob of odd length is there.
    pub fn user_string(&self, at: u32) -> Option<&[u8]>
        ensures { option_copied result ≡ user_string_at (assembly_of self.now) at }
    {
        self.metadata().user_string(self.bytes(), at)
    }

    /// The token that a coded index names (ECMA-335 II.24.2.6): the table's number above 24 bits of the row. `None` exactly where its
    /// tag is not listed, or the table has no such row; row 0 is always there.
    pub fn coded(&self, kind: CodedKind, value: u32) -> Option<u32>
        ensures { result ≡ coded_token (assembly_of self.now) kind value }
    {
        self.metadata().coded(kind.number(), value)
    }

    /// The first row of a type's list; a list that begins at 0 begins at the first row.
    fn list_start(&self, row: u32, number: u8) -> u32
        ensures { result ≡ list_start (assembly_of self.now) row number }
    {
        self.column(Table::TypeDef, row, number).max(1)
    }

    /// The rows of a type's list, up to those of the next type's, or to the end of the listed table.
    fn list(&self, listed: Table, row: u32, number: u8) -> Range<u32>
        ensures start { result.start ≡ list_start (assembly_of self.now) row number }
        ensures end { result.end ≡ list_end (assembly_of self.now) listed row number }
    {
        let end = if row < self.rows(Table::TypeDef) {
            self.list_start(row + 1, number)
        } else {
            self.rows(listed) + 1
        };
        self.list_start(row, number)..end
    }

    /// The rows of Field that a TypeDef row, from 1, lists (ECMA-335 II.22.37): those from its FieldList up to the next type's, or to
    /// the end of Field.
    pub fn fields(&self, row: u32) -> Range<u32>
        ensures rows { rows_between result.start result.end ≡ fields_of (assembly_of self.now) row }
        ensures start { result.start ≡ list_start (assembly_of self.now) row 4 }
        ensures end { result.end ≡ list_end (assembly_of self.now) tables.Field row 4 }
    {
        self.list(Table::Field, row, FIELD_LIST)
    }

    /// The rows of MethodDef that a TypeDef row, from 1, lists (ECMA-335 II.22.37): those from its MethodList up to the next type's,
    /// or to the end of MethodDef.
    pub fn methods(&self, row: u32) -> Range<u32>
        ensures rows { rows_between result.start result.end ≡ methods_of (assembly_of self.now) row }
        ensures start { result.start ≡ list_start (assembly_of self.now) row 5 }
        ensures end { result.end ≡ list_end (assembly_of self.now) tables.MethodDef row 5 }
    {
        self.list(Table::MethodDef, row, METHOD_LIST)
    }

    /// The code of the method of a MethodDef row, from 1 (ECMA-335 II.25.4). `None` exactly where it has no body.
    pub fn code(&self, row: u32) -> Option<&[u8]>
        ensures { option_copied result ≡ option_map (λ (body : MethodBody). body.code) (body_of (assembly_of self.now) row) }
    {
        let code = self.body(row)?.code;
        let start = code.start as usize;
        Some(&self.bytes()[start..start + code.len as usize])
    }
}
