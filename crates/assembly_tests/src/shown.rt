//! What an assembly has, as one text.

use cli_assembly::{Assembly, MethodSig};
use metadata::{COLUMNS, ColumnKind, Heap, Table};
use std::alloc::Global;
use std::test::Fail;

/// A number in a column, by what it names: a text, a blob, a token, or itself.
fn column_text(
    alloc: Global,
    assembly: &Assembly,
    kind: ColumnKind,
    value: u32,
) -> Result<String, Fail> {
    let (metadata, bytes) = (assembly.metadata(), assembly.bytes());
    Ok(match kind {
        ColumnKind::Heap(Heap::Strings) => {
            let text = metadata.string(bytes, value).ok_or("a text is there")?;
            format!(in alloc; " '{text}'")?
        }
        ColumnKind::Heap(Heap::Blobs) => {
            let blob = metadata.blob(bytes, value).ok_or("a blob is there")?;
            format!(in alloc; " ({})", hex::encode(alloc, blob)?)?
        }
        ColumnKind::Coded(kind) => {
            let token = metadata.coded(kind.number(), value);
            format!(in alloc; " {:08x}", token.ok_or("a row is there")?)?
        }
        _ => format!(in alloc; " {value:x}")?,
    })
}

/// A row of a table, column by column.
fn row_text(alloc: Global, assembly: &Assembly, table: Table, row: u32) -> Result<String, Fail> {
    let (metadata, bytes) = (assembly.metadata(), assembly.bytes());
    let number = table.number();
    let mut text = format!(in alloc; "\n{table:?}")?;
    let mut nth = 0u8;
    for column in &COLUMNS {
        if column.table == table {
            let value = metadata.column(bytes, number, row, nth);
            let value = value.ok_or("a column is there")?;
            text.push_str(column_text(alloc, assembly, column.kind, value)?.as_str())?;
            nth = nth.saturating_add(1);
        }
    }
    Ok(text)
}

/// A signature: whether it takes `this`, its result and its parameters.
pub(crate) fn sig_text(alloc: Global, sig: &MethodSig) -> Result<String, Fail> {
    let params = sig.params.as_slice();
    Ok(format!(in alloc; "{} {:?} {:?}", sig.has_this, sig.ret, params)?)
}

/// The body of a method: MaxStack, the token of its locals and the code.
fn body_text(alloc: Global, assembly: &Assembly, row: u32) -> Result<String, Fail> {
    let Some(body) = assembly.body(row) else {
        return Ok(format!(in alloc; " no body")?);
    };
    let code = assembly.bytes().get(body.code.start as usize..);
    let code = code.and_then(|code| code.get(..body.code.len as usize));
    let code = hex::encode(alloc, code.ok_or("a code is there")?)?;
    Ok(format!(in alloc; " {} {:x} {code}", body.max_stack, body.locals)?)
}

/// What is read of a row of these tables beside its columns.
fn more_text(alloc: Global, assembly: &Assembly, table: Table, row: u32) -> Result<String, Fail> {
    Ok(match table {
        Table::Field => format!(in alloc; " {:?}", assembly.field_sig(row))?,
        Table::StandAloneSig => format!(in alloc; " {:?}", assembly.local_sig(row))?,
        Table::MethodDef => {
            let sig = assembly.method_sig(row).ok_or("a signature is there")?;
            let mut text = format!(in alloc; " {}", sig_text(alloc, sig)?)?;
            text.push_str(body_text(alloc, assembly, row)?.as_str())?;
            text
        }
        _ => String::new(alloc),
    })
}

/// The tables that a built assembly can have, by number.
const BUILT: [Table; 10] = [
    Table::Module,
    Table::TypeRef,
    Table::TypeDef,
    Table::Field,
    Table::MethodDef,
    Table::MemberRef,
    Table::CustomAttribute,
    Table::StandAloneSig,
    Table::Assembly,
    Table::AssemblyRef,
];

/// The rows of a table, a line each.
fn table_text(alloc: Global, assembly: &Assembly, table: Table) -> Result<String, Fail> {
    let mut text = String::new(alloc);
    for row in 1..=assembly.metadata().rows(table.number()) {
        text.push_str(row_text(alloc, assembly, table, row)?.as_str())?;
        text.push_str(more_text(alloc, assembly, table, row)?.as_str())?;
    }
    Ok(text)
}

/// The name, the entry token and the flags, and then a line for each row: the table, and each column as what it names. A field has its
/// type after it, a row of StandAloneSig the types of the locals, and a method its signature and its body.
pub(crate) fn text_of(alloc: Global, assembly: &Assembly) -> Result<String, Fail> {
    let (name, pe) = (assembly.name(), assembly.pe());
    let (token, flags) = (pe.entry_token(), pe.cli_flags());
    let mut text = format!(in alloc; "{name} {token:08x} {flags}")?;
    for table in BUILT {
        text.push_str(table_text(alloc, assembly, table)?.as_str())?;
    }
    Ok(text)
}

/// User strings by their tokens, a line each.
pub(crate) fn strings_text(
    alloc: Global,
    assembly: &Assembly,
    tokens: &[u32],
) -> Result<String, Fail> {
    let mut text = String::new(alloc);
    for token in tokens {
        let units = assembly
            .metadata()
            .user_string(assembly.bytes(), token & 0xFF_FFFF);
        let units = hex::encode(alloc, units.ok_or("a string is there")?)?;
        text.push_str(format!(in alloc; "\n{token:08x} ({units})")?.as_str())?;
    }
    Ok(text)
}

/// Whether some bytes are in others, one after the other.
pub(crate) fn has_bytes(bytes: &[u8], sought: &[u8]) -> bool {
    for at in 0..bytes.len() {
        if bytes[at..].starts_with(sought) {
            return true;
        }
    }
    false
}
