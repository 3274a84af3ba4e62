//! The checks of the columns, in one pass over the rows.

ghost use Rattle.std.specs.Prelude.{◌≡◌, ◌≤◌, ◌<◌, ◌+◌, ◌*◌, ◌^◌, Option, None, not, length, IfErr, OnOk, is_some};
ghost use Rattle.rtr_bytes.specs.Checks.{holds_or};
ghost use Rattle.metadata.specs.Checks.{bad_column, fallen_column, first_column, first_in_row, first_in_table, or_else};
ghost use Rattle.metadata.specs.Heaps.{blob_of, is_in_heap, is_valid, string_of};
ghost use Rattle.metadata.specs.Kept.{AreTables, IsJudged, IsReady, IsTable, column_fault, falls_from};

use crate::check::Check;
use crate::layout::{ColumnLayout, TableLayout};
use crate::places::Places;
use crate::schema::{ColumnKind, Heap};
use crate::texts::Texts;
use rtr_bytes::{Fault, ensure};

/// How many bytes a GUID has.
const GUID_SIZE: u32 = 16;

/// What the columns are judged by. Each in constant time.
#[derive(Clone, Copy)]
pub(crate) struct Judge<'a> {
    /// The file's bytes.
    pub bytes: &'a [u8],
    /// Where the heaps are, and how many rows each table has.
    pub places: &'a Places,
    /// Where a text begins in `#Strings`.
    pub texts: &'a Texts<'a>,
}

impl<'a> Judge<'a> {
    /// Whether a number is the offset of a text.
    #[tactic(auto, unfolding(crate::specs::Heaps::string_of))]
    fn has_string(&self, number: u32) -> bool
        requires { IsReady self.now }
        ensures { result ≡ is_some (string_of self.now.bytes.now self.now.places.now number) }
    {
        if number == 0 {
            true
        } else {
            self.texts.begins_at(number)
        }
    }

    /// Whether a number is the offset of a blob.
    #[tactic(auto, using(crate::proofs::Blobs::some_copied))]
    fn has_blob(&self, number: u32) -> bool
        requires { IsReady self.now }
        ensures { result ≡ is_some (blob_of self.now.bytes.now self.now.places.now number) }
    {
        self.places.blob(self.bytes, number).is_some()
    }

    /// Whether a number names a place in a heap.
    fn is_in_heap(&self, heap: Heap, number: u32) -> bool
        requires { IsReady self.now }
        ensures { result ≡ is_in_heap self.now.bytes.now self.now.places.now heap number }
    {
        match heap {
            Heap::Strings => self.has_string(number),
            Heap::Guids => number <= self.places.guids().len / GUID_SIZE,
            Heap::Blobs => self.has_blob(number),
        }
    }

    /// Whether a number in a column of a kind is valid.
    #[tactic(auto, unfolding(crate::specs::Heaps::is_valid))]
    fn is_valid(&self, kind: ColumnKind, number: u32) -> bool
        requires { IsReady self.now }
        ensures { result ≡ is_valid self.now.bytes.now self.now.places.now kind number }
    {
        match kind {
            ColumnKind::UInt16 | ColumnKind::UInt32 => true,
            ColumnKind::Heap(heap) => self.is_in_heap(heap, number),
            ColumnKind::Row(table) => number <= self.places.rows(table.number()),
            ColumnKind::Coded(kind) => self.places.coded(kind, number).is_some(),
            ColumnKind::List(table) => number <= self.places.rows(table.number()) + 1,
        }
    }

    /// Whether the number of a list column is less than that of the row before.
    fn falls(&self, table: &TableLayout, row: u32, column: ColumnLayout, number: u32) -> bool
        requires ready { IsReady self.now }
        requires rows { table.now.at + table.now.rows * table.now.row.size ≤ 2 ^ 31 }
        requires first { 1 ≤ row }
        requires last { row ≤ table.now.rows }
        requires inside { column.offset ≤ table.now.row.size }
        ensures { result ≡ falls_from self.now.bytes.now table.now.at table.now.row.size row column number }
    {
        if column.kind.is_list() && row > 1 {
            let before = table.row_at(row - 1) + column.offset;
            number < column.number_at(self.bytes, before)
        } else {
            false
        }
    }

    /// Judges a column of a row, after the columns before it.
    fn check_column(
        &self,
        table: &TableLayout,
        row: u32,
        index: usize,
        fallen: Option<u32>,
    ) -> Result<Option<u32>, Fault>
        requires ready { IsReady self.now }
        requires table { IsTable self.now.places.now table.now.number table.now }
        requires first { 1 ≤ row }
        requires last { row ≤ table.now.rows }
        requires column { index < length table.now.row.columns.items }
        ensures { IsJudged (bad_column self.now.bytes.now self.now.places.now table.now.number row index)
            (fallen_column self.now.bytes.now self.now.places.now table.now.number row index) fallen result }
    {
        let column = table.row.columns[index];
        let place = table.row_at(row) + column.offset;
        let number = column.number_at(self.bytes, place);
        ensure(
            self.is_valid(column.kind, number),
            Check::Column as u16,
            place,
        )?;
        let falls = self.falls(table, row, column, number);
        Ok(first_fallen(fallen, falls, place))
    }

    /// Judges the columns of a row.
    fn check_row(
        &self,
        table: &TableLayout,
        row: u32,
        mut fallen: Option<u32>,
    ) -> Result<Option<u32>, Fault>
        requires ready { IsReady self.now }
        requires table { IsTable self.now.places.now table.now.number table.now }
        requires first { 1 ≤ row }
        requires last { row ≤ table.now.rows }
        ensures { IsJudged (first_in_row (bad_column self.now.bytes.now self.now.places.now) table.now.number row)
            (first_in_row (fallen_column self.now.bytes.now self.now.places.now) table.now.number row) fallen result }
    {
        for index in 0..table.row.columns.len() {
            fallen = self.check_column(table, row, index, fallen)?;
        }
        Ok(fallen)
    }

    /// Judges the rows of a table.
    fn check_table(
        &self,
        table: &TableLayout,
        mut fallen: Option<u32>,
    ) -> Result<Option<u32>, Fault>
        requires ready { IsReady self.now }
        requires table { IsTable self.now.places.now table.now.number table.now }
        ensures { IsJudged (first_in_table self.now.places.now (bad_column self.now.bytes.now self.now.places.now) table.now.number)
            (first_in_table self.now.places.now (fallen_column self.now.bytes.now self.now.places.now) table.now.number) fallen result }
    {
        for index in 0..table.rows {
            fallen = self.check_row(table, index + 1, fallen)?;
        }
        Ok(fallen)
    }

    /// Judges all tables.
    fn check_tables(&self, tables: &[TableLayout]) -> Result<Option<u32>, Fault>
        requires ready { IsReady self.now }
        requires tables { AreTables self.now.places.now tables.now }
        ensures { IsJudged (first_column self.now.places.now (bad_column self.now.bytes.now self.now.places.now))
            (first_column self.now.places.now (fallen_column self.now.bytes.now self.now.places.now)) None result }
    {
        let mut fallen = None;
        for table in tables {
            fallen = self.check_table(table, fallen)?;
        }
        Ok(fallen)
    }

    /// Each column is valid, and no list column is less than in the row before.
    pub(crate) fn check(&self, tables: &[TableLayout]) -> Result<(), Fault>
        requires ready { IsReady self.now }
        requires tables { AreTables self.now.places.now tables.now }
        ensures fault { IfErr result (λ f. column_fault self.now.bytes.now self.now.places.now ≡ Some f) }
        ensures ok { OnOk result (column_fault self.now.bytes.now self.now.places.now ≡ None) }
    {
        match self.check_tables(tables)? {
            None => Ok(()),
            Some(place) => Err(Fault {
                check: Check::ListColumn as u16,
                place,
            }),
        }
    }
}

/// The first place whose number is less than in the row before, after one that is known.
fn first_fallen(before: Option<u32>, falls: bool, place: u32) -> Option<u32>
    ensures { result ≡ or_else before (holds_or (not falls) place) }
{
    match before {
        Some(first) => Some(first),
        None if falls => Some(place),
        None => None,
    }
}
