//! The signatures that rows name, read row by row.

ghost use Rattle.std.specs.Prelude.{◌≡◌, ◌≤◌, ◌^◌, length, option_copied, IfOk, IfSome};
ghost use Rattle.metadata.specs.Schema.{table_number};
ghost use Rattle.cli_assembly.specs.Kept.{blob_read, by_row, sig_read};
ghost use Rattle.cli_assembly.specs.Signatures.{field_sig_of, local_sig_of, method_sig_of};

use crate::reading::{field_sig, local_sig, method_sig};
use crate::room::SignatureRoom;
use crate::signature::{MethodSig, TypeSig};
use metadata::{Metadata, Table};
use rtr_bytes::{NoMemory, Sequence};
use std::alloc::Global;

/// A column that has the blob of a signature.
#[derive(Clone, Copy)]
pub(crate) struct SignatureColumn {
    /// The table.
    pub table: Table,
    /// The column, from 0.
    pub column: u8,
}

/// Signature of MethodDef (ECMA-335 II.22.26).
pub(crate) const METHOD_SIGNATURE: SignatureColumn = SignatureColumn {
    table: Table::MethodDef,
    column: 4,
};

/// Signature of Field (ECMA-335 II.22.15).
pub(crate) const FIELD_SIGNATURE: SignatureColumn = SignatureColumn {
    table: Table::Field,
    column: 2,
};

/// Signature of StandAloneSig (ECMA-335 II.22.36).
pub(crate) const LOCAL_SIGNATURE: SignatureColumn = SignatureColumn {
    table: Table::StandAloneSig,
    column: 0,
};

/// Signature of MemberRef (ECMA-335 II.22.25).
pub(crate) const MEMBER_SIGNATURE: SignatureColumn = SignatureColumn {
    table: Table::MemberRef,
    column: 2,
};

/// The blob of a row's signature. `None` exactly where there is no such row.
fn signature_blob<'a>(
    bytes: &'a [u8],
    metadata: &Metadata,
    signature: SignatureColumn,
    row: u32,
) -> Option<&'a [u8]>
    requires small { length bytes.now ≤ 2 ^ 31 }
    ensures blob { option_copied result ≡ blob_read bytes.now metadata.now (table_number signature.table) signature.column row }
    ensures small { IfSome result (λ blob. length blob.now ≤ 2 ^ 31) }
{
    let at = metadata.column(bytes, signature.table.number(), row, signature.column)?;
    metadata.blob(bytes, at)
}

/// The signature of a method that a row names.
fn row_method_sig(
    alloc: Global,
    bytes: &[u8],
    metadata: &Metadata,
    signature: SignatureColumn,
    row: u32,
    room: &mut SignatureRoom,
) -> Result<Option<MethodSig>, NoMemory>
    requires small { length bytes.now ≤ 2 ^ 31 }
    ensures { IfOk result (λ sig. sig ≡ sig_read method_sig_of bytes.now metadata.now (table_number signature.table) signature.column row) }
{
    match signature_blob(bytes, metadata, signature, row) {
        Some(blob) => {
            room.take(blob)?;
            method_sig(alloc, blob)
        }
        None => Ok(None),
    }
}

/// The type of a field that a row names.
fn row_field_sig(
    alloc: Global,
    bytes: &[u8],
    metadata: &Metadata,
    signature: SignatureColumn,
    row: u32,
    room: &mut SignatureRoom,
) -> Result<Option<TypeSig>, NoMemory>
    requires small { length bytes.now ≤ 2 ^ 31 }
    ensures { IfOk result (λ sig. sig ≡ sig_read field_sig_of bytes.now metadata.now (table_number signature.table) signature.column row) }
{
    match signature_blob(bytes, metadata, signature, row) {
        Some(blob) => {
            room.take(blob)?;
            field_sig(alloc, blob)
        }
        None => Ok(None),
    }
}

/// The types of the locals that a row names.
fn row_local_sig(
    alloc: Global,
    bytes: &[u8],
    metadata: &Metadata,
    signature: SignatureColumn,
    row: u32,
    room: &mut SignatureRoom,
) -> Result<Option<Sequence<TypeSig>>, NoMemory>
    requires small { length bytes.now ≤ 2 ^ 31 }
    ensures { IfOk result (λ sig. sig ≡ sig_read local_sig_of bytes.now metadata.now (table_number signature.table) signature.column row) }
{
    match signature_blob(bytes, metadata, signature, row) {
        Some(blob) => {
            room.take(blob)?;
            local_sig(alloc, blob)
        }
        None => Ok(None),
    }
}

/// The signatures of methods that the rows of a table name, one for each row.
pub(crate) fn read_method_sigs(
    alloc: Global,
    bytes: &[u8],
    metadata: &Metadata,
    signature: SignatureColumn,
    room: &mut SignatureRoom,
) -> Result<Vec<Option<MethodSig>>, NoMemory>
    requires small { length bytes.now ≤ 2 ^ 31 }
    ensures { IfOk result (λ sigs. sigs.items ≡ by_row metadata.now signature.table
        (sig_read method_sig_of bytes.now metadata.now (table_number signature.table) signature.column)) }
{
    let mut sigs = Vec::new(alloc);
    for index in 0..metadata.rows(signature.table.number()) {
        sigs.push(row_method_sig(alloc, bytes, metadata, signature, index + 1, room)?)?;
    }
    Ok(sigs)
}

/// The types of fields that the rows of a table name, one for each row.
pub(crate) fn read_field_sigs(
    alloc: Global,
    bytes: &[u8],
    metadata: &Metadata,
    signature: SignatureColumn,
    room: &mut SignatureRoom,
) -> Result<Vec<Option<TypeSig>>, NoMemory>
    requires small { length bytes.now ≤ 2 ^ 31 }
    ensures { IfOk result (λ sigs. sigs.items ≡ by_row metadata.now signature.table
        (sig_read field_sig_of bytes.now metadata.now (table_number signature.table) signature.column)) }
{
    let mut sigs = Vec::new(alloc);
    for index in 0..metadata.rows(signature.table.number()) {
        sigs.push(row_field_sig(alloc, bytes, metadata, signature, index + 1, room)?)?;
    }
    Ok(sigs)
}

/// The types of locals that the rows of a table name, one for each row.
pub(crate) fn read_local_sigs(
    alloc: Global,
    bytes: &[u8],
    metadata: &Metadata,
    signature: SignatureColumn,
    room: &mut SignatureRoom,
) -> Result<Vec<Option<Sequence<TypeSig>>>, NoMemory>
    requires small { length bytes.now ≤ 2 ^ 31 }
    ensures { IfOk result (λ sigs. sigs.items ≡ by_row metadata.now signature.table
        (sig_read local_sig_of bytes.now metadata.now (table_number signature.table) signature.column)) }
{
    let mut sigs = Vec::new(alloc);
    for index in 0..metadata.rows(signature.table.number()) {
        sigs.push(row_local_sig(alloc, bytes, metadata, signature, index + 1, room)?)?;
    }
    Ok(sigs)
}
