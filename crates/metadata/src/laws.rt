//! What the definitions say of one another.

ghost use Rattle.std.specs.Prelude.{◌≡◌, ◌+◌, ◌<◌, ℕ, List, [], Some, get_or, length};
ghost use Rattle.metadata.specs.Schema.{columns_of};
ghost use Rattle.metadata.specs.Tables.{Layout, column_of, rows_of, table_of};

/// The law of tables: a table is the list of its rows, each the list of the numbers that [`Metadata::column`] gives.
///
/// [`Metadata::column`]: crate::Metadata::column
pub fn tables_are_lists_of_rows()
    ensures rows { (bytes : List ℕ) (layout : Layout) (table : ℕ) → length (table_of bytes layout table) ≡ rows_of layout table }
    ensures columns { (bytes : List ℕ) (layout : Layout) (table row : ℕ) → row < rows_of layout table
        → length (get_or (table_of bytes layout table) row []) ≡ length (columns_of table) }
    ensures numbers { (bytes : List ℕ) (layout : Layout) (table row column : ℕ) → row < rows_of layout table → column < length (columns_of table)
        → column_of bytes layout table (row + 1) column ≡ Some (get_or (get_or (table_of bytes layout table) row []) column 0) }
{}
