//! Where the rows and the columns of the tables are (ECMA-335 II.24.2.6).

ghost use Rattle.std.specs.Prelude.{◌≡◌, ◌≤◌, ◌<◌, ◌+◌, ◌*◌, ◌^◌, ◌-◌, length, IfOk, IfErr, OnOk, None, option_copied, slice_get, unwrap_or};
ghost use Rattle.rtr_bytes.specs.Checks.{RefusedBy};
ghost use Rattle.rtr_bytes.specs.Field.{field_at};
ghost use Rattle.metadata.specs.Kept.{AreTables, column_layouts, fit_fault, size_of_columns};
ghost use Rattle.metadata.specs.Schema.{columns_in, columns_of};
ghost use Rattle.metadata.specs.Streams.{end_of};
ghost use Rattle.metadata.specs.Tables.{row_size, width};

use crate::check::Check;
use crate::places::Places;
use crate::schema::{COLUMNS, Column, ColumnKind};
use rtr_bytes::{NoMemory, ReadRefusal, Span, ensure, u16_or_zero, u32_or_zero};
use std::alloc::Global;

/// How many tables a tables' stream can have: one for each bit of Valid.
const TABLES: u8 = 64;

/// Where a column is in each row of its table.
#[derive(Clone, Copy, Debug)]
pub(crate) struct ColumnLayout {
    /// What its number is.
    pub kind: ColumnKind,
    /// Whether it has four bytes, and not two.
    pub wide: bool,
    /// Its offset in the row.
    pub offset: u32,
}

impl ColumnLayout {
    /// How many bytes it has.
    fn width(&self) -> u32
        ensures { result ≡ width self.now.wide }
    {
        if self.wide { 4 } else { 2 }
    }

    /// Its number at a file offset, and 0 where its bytes pass the end.
    pub(crate) fn number_at(&self, bytes: &[u8], at: u32) -> u32
        requires { length bytes.now ≤ 2 ^ 31 }
        ensures { result ≡ unwrap_or (field_at (width self.now.wide) bytes.now at) 0 }
    {
        if self.wide {
            u32_or_zero(bytes, at)
        } else {
            u32::from(u16_or_zero(bytes, at))
        }
    }
}

/// Where the columns of a table are in each of its rows.
#[derive(Debug, Drop)]
pub(crate) struct RowLayout {
    /// The columns, in their order.
    pub columns: Vec<ColumnLayout>,
    /// How many bytes a row has.
    pub size: u32,
}

impl RowLayout {
    /// The row of a table, by the columns of all tables.
    fn of_columns(
        alloc: Global,
        places: &Places,
        columns: &[Column],
        table: u8,
    ) -> Result<RowLayout, NoMemory>
        requires few { length columns.now < 2 ^ 16 }
        ensures columns { IfOk result (λ row. row.columns.items ≡ column_layouts places.now 0 (columns_in columns.now table)) }
        ensures size { IfOk result (λ row. row.size ≡ size_of_columns places.now (columns_in columns.now table)) }
        ensures small { IfOk result (λ row. row.size ≤ 2 ^ 18) }
    {
        let mut list = Vec::new(alloc);
        let mut size = 0;
        for column in columns {
            if column.table.number() == table {
                let kind = column.kind;
                let wide = places.is_wide(kind);
                let next = ColumnLayout {
                    kind,
                    wide,
                    offset: size,
                };
                size += next.width();
                list.push(next)?;
            }
        }
        Ok(RowLayout {
            columns: list,
            size,
        })
    }

    /// The row of a table.
    #[tactic(auto, unfolding(crate::specs::Schema::columns_of, crate::specs::Tables::row_size, crate::specs::Tables::widths_of))]
    fn of(alloc: Global, places: &Places, table: u8) -> Result<RowLayout, NoMemory>
        ensures columns { IfOk result (λ row. row.columns.items ≡ column_layouts places.now 0 (columns_of table)) }
        ensures size { IfOk result (λ row. row.size ≡ row_size places.now table) }
        ensures small { IfOk result (λ row. row.size ≤ 2 ^ 18) }
    {
        RowLayout::of_columns(alloc, places, &COLUMNS, table)
    }
}

/// Where the rows of a table are, and the columns in each.
#[derive(Debug, Drop)]
pub(crate) struct TableLayout {
    /// Its number.
    pub number: u8,
    /// The file offset of its first row.
    pub at: u32,
    /// How many rows it has.
    pub rows: u32,
    /// What each row has.
    pub row: RowLayout,
}

impl TableLayout {
    /// The file offset of a row, from 1.
    pub(crate) fn row_at(&self, row: u32) -> u32
        requires first { 1 ≤ row }
        requires last { row ≤ self.now.rows }
        requires inside { self.now.at + self.now.rows * self.now.row.size ≤ 2 ^ 31 }
        ensures place { result ≡ self.now.at + (row - 1) * self.now.row.size }
        ensures inside { result + self.now.row.size ≤ 2 ^ 31 }
    {
        self.at + (row - 1) * self.row.size
    }
}

/// Where the rows and columns of each table are. All rows fit the tables' stream.
pub(crate) fn read_tables(
    alloc: Global,
    places: &Places,
    stream: Span,
) -> Result<Vec<TableLayout>, ReadRefusal>
    requires small { end_of stream ≤ 2 ^ 31 }
    ensures malformed { IfErr result (λ e. RefusedBy (fit_fault stream places.now) e) }
    ensures fit { OnOk result (fit_fault stream places.now ≡ None) }
    ensures tables { IfOk result (λ tables. AreTables places.now tables.items) }
{
    let end = stream.start + stream.len;
    let mut at = places.rows_at();
    let mut tables = Vec::new(alloc);
    for number in 0..TABLES {
        let row = RowLayout::of(alloc, places, number)?;
        let rows = places.rows(number);
        let next = u64::from(at) + u64::from(rows) * u64::from(row.size);
        ensure(next <= u64::from(end), Check::Rows as u16, stream.start)?;
        tables.push(TableLayout {
            number,
            at,
            rows,
            row,
        })?;
        at = next as u32;
    }
    Ok(tables)
}

/// The table of a number.
pub(crate) fn nth_table(tables: &[TableLayout], number: u8) -> Option<&TableLayout>
    ensures { option_copied result ≡ slice_get tables.now number }
{
    tables.get(number as usize)
}

/// The column of a number, from 0.
pub(crate) fn nth_column(columns: &[ColumnLayout], index: u8) -> Option<&ColumnLayout>
    ensures { option_copied result ≡ slice_get columns.now index }
{
    columns.get(index as usize)
}
