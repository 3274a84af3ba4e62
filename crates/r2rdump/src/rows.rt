//! What the columns of a row name, as the dump prints it: where there is no such text or blob, it is empty. In an assembly whose checks
//! hold each that is asked for is there.

ghost use Rattle.std.specs.Prelude.{◌≡◌};
ghost use Rattle.cli_assembly.specs.Assemblies.{assembly_of, column};
ghost use Rattle.r2rdump.specs.Types.{blob_or_empty, text_or_empty};

use cli_assembly::Assembly;
use metadata::Table;

/// The text that a column of a row names.
pub(crate) fn row_text(assembly: &Assembly, table: Table, row: u32, number: u8) -> &str
    ensures { result.now ≡ text_or_empty (assembly_of assembly.now) (column (assembly_of assembly.now) table row number) }
{
    let at = assembly.column(table, row, number);
    assembly.string(at).unwrap_or("")
}

/// The blob that a column of a row names.
pub(crate) fn row_blob(assembly: &Assembly, table: Table, row: u32, number: u8) -> &[u8]
    ensures { result.now ≡ blob_or_empty (assembly_of assembly.now) (column (assembly_of assembly.now) table row number) }
{
    let at = assembly.column(table, row, number);
    assembly.blob(at).unwrap_or(&[])
}
