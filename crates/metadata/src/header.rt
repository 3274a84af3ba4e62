//! The header of the tables' stream (ECMA-335 II.24.2.6).

ghost use Rattle.std.specs.Prelude.{◌≡◌, ◌≤◌, ◌<◌, ◌^◌, if◌then◌else◌, length, slice_index, None, Some, All, IfErr, IfOk, OnOk};
ghost use Rattle.rtr_bytes.specs.Field.{u32_of};
ghost use Rattle.std.specs.List.{list_any};
ghost use Rattle.rtr_bytes.specs.Checks.{fault_or, RefusedBy};
ghost use Rattle.metadata.specs.Schema.{is_of};
ghost use Rattle.metadata.specs.Streams.{end_of};
ghost use Rattle.metadata.specs.Tables.{has_table, valid_of};
ghost use Rattle.metadata.specs.Checks.{all_known, cut_header, first_large, is_known, table_is_known, unknown_heap, unknown_table};
ghost use Rattle.metadata.specs.Steps.{AreCounts, IsHeader};

use crate::check::Check;
use crate::schema::{COLUMNS, Column};
use rtr_bytes::{Fault, NoMemory, ReadRefusal, Span, ensure, u8_or_zero, u32_or_zero, u64_at};
use std::alloc::Global;

/// Where HeapSizes is in the header.
const HEAP_SIZES: u32 = 6;
/// Where Valid is in the header.
const VALID: u32 = 8;
/// The bytes of the header before the row counts.
const FIXED_SIZE: u32 = 24;
/// The bytes of a row count.
const COUNT_SIZE: u32 = 4;
/// How many tables Valid has bits for.
const TABLE_COUNT: u8 = 64;

/// What the header of the tables' stream says.
#[derive(Debug, Drop)]
pub(crate) struct TablesHeader {
    /// HeapSizes.
    pub heap_sizes: u8,
    /// How many rows each of the tables 0 to 63 has.
    pub rows: Vec<u32>,
    /// The file offset of the first row.
    pub rows_at: u32,
}

/// Whether Valid has the bit of a table.
fn has_table(valid: u64, table: u8) -> bool
    requires { table < 64 }
    ensures { result ≡ has_table valid table }
{
    (valid >> table) % 2 == 1
}

impl Column {
    /// Whether it is a column of a table.
    fn is_of(&self, table: u8) -> bool
        ensures { result ≡ is_of table self.now }
    {
        self.table.number() == table
    }
}

/// Whether some columns are of a table.
fn has_columns(columns: &[Column], table: u8) -> bool
    ensures { result ≡ list_any (is_of table) columns.now }
{
    columns.iter().any(|column| column.is_of(table))
}

/// Whether a table has no bit in Valid, or the standard has it.
fn table_is_known(valid: u64, table: u8) -> bool
    requires { table < 64 }
    ensures { result ≡ table_is_known valid table }
{
    !has_table(valid, table) || has_columns(&COLUMNS, table)
}

/// Whether each table with a bit in Valid is one of the standard.
fn all_known(valid: u64) -> bool
    ensures { result ≡ all_known valid }
{
    for table in 0..TABLE_COUNT {
        if !table_is_known(valid, table) {
            return false;
        }
    }
    true
}

/// The row count of a table whose count, where it is there, is at a place.
fn count_of(bytes: &[u8], place: u32, is_there: bool) -> u32
    requires { length bytes.now ≤ 2 ^ 31 }
    ensures { result ≡ (if is_there then u32_of bytes.now place else 0) }
{
    if is_there {
        u32_or_zero(bytes, place)
    } else {
        0
    }
}

/// How many bytes a table's count has in the header.
fn count_size(is_there: bool) -> u32
    ensures { result ≡ (if is_there then 4 else 0) }
{
    if is_there { COUNT_SIZE } else { 0 }
}

/// How many rows each of the tables 0 to 63 has, and where the rows begin, by the header at a place.
fn read_counts(alloc: Global, bytes: &[u8], at: u32, valid: u64) -> Result<TablesHeader, NoMemory>
    requires small { length bytes.now ≤ 2 ^ 31 }
    requires within { at ≤ 2 ^ 31 }
    requires valid { valid ≡ valid_of bytes.now at }
    ensures header { IfOk result (λ h. AreCounts bytes.now at h) }
{
    let mut rows = Vec::with_capacity(alloc, TABLE_COUNT as usize)?;
    let mut place = at + FIXED_SIZE;
    for table in 0..TABLE_COUNT {
        let is_there = has_table(valid, table);
        rows.push(count_of(bytes, place, is_there))?;
        place += count_size(is_there);
    }
    Ok(TablesHeader {
        heap_sizes: u8_or_zero(bytes, at + HEAP_SIZES),
        rows,
        rows_at: place,
    })
}

/// The row count of a table.
fn nth_count(header: &TablesHeader, table: u8) -> u32
    requires { table < length header.now.rows.items }
    ensures { result ≡ slice_index header.now.rows.items table }
{
    let counts = header.rows.as_slice();
    counts[usize::from(table)]
}

/// No count of the header at a place has more than 24 bits.
fn check_counts(bytes: &[u8], at: u32, valid: u64, header: &TablesHeader) -> Result<(), Fault>
    requires within { at ≤ 2 ^ 31 }
    requires valid { valid ≡ valid_of bytes.now at }
    requires header { AreCounts bytes.now at header.now }
    ensures fault { IfErr result (λ f. fault_or 39 (first_large bytes.now at) None ≡ Some f) }
    ensures ok { OnOk result (first_large bytes.now at ≡ None) }
    ensures few { OnOk result (All (λ n. n < 2 ^ 24) header.now.rows.items) }
{
    let mut place = at + FIXED_SIZE;
    for table in 0..TABLE_COUNT {
        ensure(
            nth_count(header, table) < 1 << 24,
            Check::RowCount as u16,
            place,
        )?;
        place += count_size(has_table(valid, table));
    }
    Ok(())
}

impl TablesHeader {
    /// The header of the tables' stream. `Malformed` names the first of the checks 36 to 39 that fails, with its place.
    pub(crate) fn read(
        alloc: Global,
        bytes: &[u8],
        stream: Span,
    ) -> Result<TablesHeader, ReadRefusal>
        requires small { length bytes.now ≤ 2 ^ 31 }
        requires whole { end_of stream ≤ length bytes.now }
        ensures fault { IfErr result (λ e. RefusedBy (fault_or 36 (cut_header bytes.now stream) (fault_or 37 (unknown_heap bytes.now stream.start)
            (fault_or 38 (unknown_table bytes.now stream.start) (fault_or 39 (first_large bytes.now stream.start) None)))) e) }
        ensures whole { OnOk result (cut_header bytes.now stream ≡ None) }
        ensures heaps { OnOk result (unknown_heap bytes.now stream.start ≡ None) }
        ensures known { OnOk result (unknown_table bytes.now stream.start ≡ None) }
        ensures counts { OnOk result (first_large bytes.now stream.start ≡ None) }
        ensures header { IfOk result (λ h. IsHeader bytes.now stream.start h) }
    {
        let at = stream.start;
        let valid = u64_at(bytes, at + VALID).unwrap_or(0);
        let header = read_counts(alloc, bytes, at, valid)?;
        let fits = stream.len >= FIXED_SIZE && header.rows_at <= at + stream.len;
        ensure(fits, Check::TablesHeader as u16, at)?;
        ensure(
            header.heap_sizes < 8,
            Check::HeapSizes as u16,
            at + HEAP_SIZES,
        )?;
        ensure(all_known(valid), Check::Valid as u16, at + VALID)?;
        check_counts(bytes, at, valid, &header)?;
        Ok(header)
    }
}
