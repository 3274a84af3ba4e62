//! The lines of the assembly: its name, and each type with its methods.

ghost use Rattle.std.specs.Prelude.{◌≡◌, ◌≤◌, ◌+◌, ◌*◌, ◌++◌, length, OnOk};
ghost use Rattle.std.specs.List.{flat_map, range_with_len};
ghost use Rattle.metadata.specs.declared.schema.Table.TheVariants as tables;
ghost use Rattle.cli_assembly.specs.Assemblies.{assembly_of, methods_of, row_count};
ghost use Rattle.r2rdump.specs.Types.{assembly_line, assembly_lines, before_name, method_line, type_line, type_lines, type_token};

use crate::image::method_token;
use crate::rows::{row_blob, row_text};
use cli_assembly::Assembly;
use metadata::Table;
use rtr_bytes::NoMemory;
use rtr_outside::Text;
use std::alloc::Global;
use std::ops::Range;

/// The table of TypeDef in the top byte of its tokens (ECMA-335 II.22.37).
const TYPE_DEF: u32 = 0x0200_0000;
/// The column of TypeName.
const TYPE_NAME: u8 = 1;
/// The column of TypeNamespace.
const TYPE_NAMESPACE: u8 = 2;
/// The column of Name of MethodDef (ECMA-335 II.22.26).
const METHOD_NAME: u8 = 3;
/// The column of Signature of MethodDef.
const METHOD_SIGNATURE: u8 = 4;

/// The lines of the assembly have at most so many bytes for each byte of the file.
const BYTES_OF_LINES: usize = 32;

/// `NoMemory` where a text has more than so many bytes. Rows may share a name or a signature, and a line has it as often as rows
/// name it: without a limit a small file could ask for a text of any size. In assemblies of mono the lines have at most half of
/// the bytes of the file.
fn check_room(text: &Text, most: usize) -> Result<(), NoMemory>
    ensures { OnOk result (length text.now ≤ most) }
{
    if text.as_slice().len() > most {
        return Err(NoMemory);
    }
    Ok(())
}

/// The token of a TypeDef row.
fn type_token(row: u32) -> u32
    ensures { result ≡ type_token row }
{
    TYPE_DEF.wrapping_add(row)
}

/// Adds a namespace and a dot, where the namespace isn't empty.
fn namespace(text: &mut Text, namespace: &str) -> Result<(), NoMemory>
    ensures { OnOk result (text.new ≡ text.old ++ before_name namespace.now) }
{
    if namespace.is_empty() {
        return Ok(());
    }
    text.name("", namespace)?;
    text.words(".")
}

fn type_line(text: &mut Text, assembly: &Assembly, row: u32) -> Result<(), NoMemory>
    ensures { OnOk result (text.new ≡ text.old ++ type_line (assembly_of assembly.now) row) }
{
    text.hex32("type ", type_token(row))?;
    text.words(" ")?;
    let space = row_text(assembly, Table::TypeDef, row, TYPE_NAMESPACE);
    namespace(text, space)?;
    let name = row_text(assembly, Table::TypeDef, row, TYPE_NAME);
    text.name("", name)?;
    text.words("\n")
}

fn method_line(
    alloc: Global,
    text: &mut Text,
    assembly: &Assembly,
    row: u32,
) -> Result<(), NoMemory>
    ensures { OnOk result (text.new ≡ text.old ++ method_line (assembly_of assembly.now) row) }
{
    text.hex32("method ", method_token(row))?;
    let name = row_text(assembly, Table::MethodDef, row, METHOD_NAME);
    text.name(" ", name)?;
    let signature = row_blob(assembly, Table::MethodDef, row, METHOD_SIGNATURE);
    text.hex(alloc, " ", signature)?;
    text.words("\n")
}

fn method_lines(
    alloc: Global,
    text: &mut Text,
    assembly: &Assembly,
    row: u32,
    most: usize,
) -> Result<(), NoMemory>
    ensures { OnOk result (text.new ≡ text.old ++ flat_map (method_line (assembly_of assembly.now)) (methods_of (assembly_of assembly.now) row)) }
{
    let Range { start, end } = assembly.methods(row);
    for method in start..end {
        method_line(alloc, text, assembly, method)?;
        check_room(text, most)?;
    }
    Ok(())
}

fn type_lines(
    alloc: Global,
    text: &mut Text,
    assembly: &Assembly,
    row: u32,
    most: usize,
) -> Result<(), NoMemory>
    ensures { OnOk result (text.new ≡ text.old ++ type_lines (assembly_of assembly.now) row) }
{
    type_line(text, assembly, row)?;
    check_room(text, most)?;
    method_lines(alloc, text, assembly, row, most)
}

fn all_type_lines(
    alloc: Global,
    text: &mut Text,
    assembly: &Assembly,
    most: usize,
) -> Result<(), NoMemory>
    ensures { OnOk result (text.new ≡ text.old ++ flat_map (type_lines (assembly_of assembly.now))
        (range_with_len 1 (row_count (assembly_of assembly.now) tables.TypeDef))) }
{
    let end = assembly.rows(Table::TypeDef) + 1;
    for row in 1..end {
        type_lines(alloc, text, assembly, row, most)?;
    }
    Ok(())
}

fn assembly_line(text: &mut Text, assembly: &Assembly) -> Result<(), NoMemory>
    ensures { OnOk result (text.new ≡ text.old ++ assembly_line (assembly_of assembly.now)) }
{
    text.name("assembly ", assembly.name())?;
    text.words("\n")
}

/// Adds the lines of the assembly. `NoMemory` comes also where they have more than 32 times the bytes of the file.
#[tactic(auto, unfolding(crate::specs::Types::assembly_lines))]
pub(crate) fn assembly_lines(
    alloc: Global,
    text: &mut Text,
    assembly: &Assembly,
) -> Result<(), NoMemory>
    ensures lines { OnOk result (text.new ≡ text.old ++ assembly_lines (assembly_of assembly.now)) }
    ensures room { OnOk result (length text.new ≤ length text.old + 32 * length assembly.now) }
{
    let more = BYTES_OF_LINES.saturating_mul(assembly.bytes().len());
    let most = text.as_slice().len().saturating_add(more);
    assembly_line(text, assembly)?;
    all_type_lines(alloc, text, assembly, most)?;
    check_room(text, most)
}
