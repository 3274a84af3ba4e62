//! The metadata of an assembly, read whole.

ghost use Rattle.std.specs.Prelude.{◌≡◌, ◌≤◌, ◌^◌, None, Some, length, option_copied, IfOk, IfErr, OnOk};
ghost use Rattle.rtr_bytes.specs.Checks.{RefusedBy, first_fault};
ghost use Rattle.metadata.specs.Checks.{layout_checks, metadata_checks};
ghost use Rattle.metadata.specs.Heaps.{blob_of, coded_of, string_of, user_string_of};
ghost use Rattle.metadata.specs.Kept.{layout_fault, one_fault};
ghost use Rattle.metadata.specs.Schema.{kind_in, kind_numbered};
ghost use Rattle.metadata.specs.Steps.{AreStreams, IsHeader, IsInside};
ghost use Rattle.metadata.specs.Streams.{end_of};
ghost use Rattle.metadata.specs.Tables.{column_of, column_place, layout_of, rows_of};

use crate::check::Check;
use crate::header::TablesHeader;
use crate::heaps::heap_of;
use crate::judge::Judge;
use crate::layout::{TableLayout, nth_column, nth_table, read_tables};
use crate::places::Places;
use crate::root::Root;
use crate::schema::{CODED_KINDS, CodedKind, Table};
use crate::streams::Streams;
use crate::texts::Texts;
use rtr_bytes::{Fault, ReadRefusal, Span, ensure};
use std::alloc::Global;
use std::marker::Model;

/// Where the tables and the heaps of metadata are. It keeps none of the file's bytes: each call takes them again.
#[derive(Debug, Drop)]
pub struct Metadata {
    places: Places,
    tables: Vec<TableLayout>,
}

impl Model for Metadata {
    ghost use Rattle.metadata.specs.Tables.{Layout};
    ghost use Rattle.metadata.specs.Kept.{AreTables};

    ghost Value = { Layout };

    ghost view = { λ m. m.places };

    ghost invariant = { λ m. AreTables m.places m.tables.items };
}

/// Module and Assembly have one row each.
fn check_one_assembly(places: &Places, stream: Span) -> Result<(), Fault>
    requires small { end_of stream ≤ 2 ^ 31 }
    ensures fault { IfErr result (λ f. one_fault stream places.now ≡ Some f) }
    ensures ok { OnOk result (one_fault stream places.now ≡ None) }
{
    let one = places.rows(Table::Module.number()) == 1
        && places.rows(Table::Assembly.number()) == 1;
    ensure(one, Check::OneAssembly as u16, stream.start + 8)
}

/// The kind of a number, by the list of kinds.
fn kind_in(kinds: &[CodedKind], number: u8) -> Option<CodedKind>
    ensures { result ≡ kind_in kinds.now number }
{
    kinds.iter().copied().find(|kind| kind.number() == number)
}

/// The kind of a number.
#[tactic(auto, unfolding(crate::specs::Schema::kind_numbered))]
fn kind_numbered(number: u8) -> Option<CodedKind>
    ensures { result ≡ kind_numbered number }
{
    kind_in(&CODED_KINDS, number)
}

impl Metadata {
    /// The metadata at a range of a file's bytes, of which there are at most 2^31; the range is empty or in the bytes
    /// (ECMA-335 II.22 and II.24.2). `Malformed` names the first of the checks 30 to 43 that fails, with its file
    /// offset; `NoMemory` comes where memory is refused.
    pub fn read(alloc: Global, bytes: &[u8], span: Span) -> Result<Metadata, ReadRefusal>
        requires small { length bytes.now ≤ 2 ^ 31 }
        requires inside { IsInside span (length bytes.now) }
        ensures malformed { IfErr result (λ e. RefusedBy (first_fault (metadata_checks span) bytes.now) e) }
        ensures well_formed { OnOk result (first_fault (metadata_checks span) bytes.now ≡ None) }
        ensures layout { IfOk result (λ m. m ≡ layout_of bytes.now span) }
    {
        let root = Root::read(bytes, span)?;
        let streams = Streams::read(alloc, bytes, span, root)?;
        let header = TablesHeader::read(alloc, bytes, streams.tables)?;
        Metadata::of_streams(alloc, bytes, span, streams, header)
    }

    /// The metadata by what its header says, with the checks of the rows and columns.
    fn of_places(
        alloc: Global,
        bytes: &[u8],
        places: Places,
        stream: Span,
    ) -> Result<Metadata, ReadRefusal>
        requires small { length bytes.now ≤ 2 ^ 31 }
        requires inside { end_of stream ≤ 2 ^ 31 }
        ensures malformed { IfErr result (λ e. RefusedBy (layout_fault bytes.now stream places) e) }
        ensures well_formed { OnOk result (layout_fault bytes.now stream places ≡ None) }
        ensures layout { IfOk result (λ m. m ≡ places) }
    {
        let tables = read_tables(alloc, &places, stream)?;
        check_one_assembly(&places, stream)?;
        let texts = Texts::of(alloc, heap_of(bytes, places.strings()))?;
        let judge = Judge {
            bytes,
            places: &places,
            texts: &texts,
        };
        judge.check(&tables)?;
        Ok(Metadata { places, tables })
    }

    /// The metadata by its streams and the header of the tables' stream: `Malformed` names the first of the checks 40
    /// to 43 that fails, with its place.
    fn of_streams(
        alloc: Global,
        bytes: &[u8],
        span: Span,
        streams: Streams,
        header: TablesHeader,
    ) -> Result<Metadata, ReadRefusal>
        requires small { length bytes.now ≤ 2 ^ 31 }
        requires streams { AreStreams bytes.now span streams }
        requires inside { end_of streams.tables ≤ length bytes.now }
        requires header { IsHeader bytes.now streams.tables.start header }
        ensures malformed { IfErr result (λ e. RefusedBy (first_fault (layout_checks span) bytes.now) e) }
        ensures well_formed { OnOk result (first_fault (layout_checks span) bytes.now ≡ None) }
        ensures layout { IfOk result (λ m. m ≡ layout_of bytes.now span) }
    {
        let stream = streams.tables;
        Metadata::of_places(alloc, bytes, Places::of(streams, header), stream)
    }

    /// How many rows a table has, by the table's number (ECMA-335 II.22); 0 where there is no such table.
    pub fn rows(&self, table: u8) -> u32
        ensures { result ≡ rows_of self.now table }
    {
        self.places.rows(table)
    }

    /// The number in a column of a row of a table (ECMA-335 II.22): tables by their number, rows from 1, columns from
    /// 0. `None` exactly where there is no such row or column. `bytes` are the file's, at most 2^31; a number that
    /// passes their end is 0.
    pub fn column(&self, bytes: &[u8], table: u8, row: u32, column: u8) -> Option<u32>
        requires { length bytes.now ≤ 2 ^ 31 }
        ensures { result ≡ column_of bytes.now self.now table row column }
    {
        let table = nth_table(&self.tables, table)?;
        let column = nth_column(&table.row.columns, column)?;
        if row == 0 || row > table.rows {
            return None;
        }
        Some(column.number_at(bytes, table.row_at(row) + column.offset))
    }

    /// The file offset of a column of a row: rows count from 1, columns from 0. `None` exactly where there is no such row or
    /// column. It takes constant time.
    pub fn column_place(&self, table: u8, row: u32, column: u8) -> Option<u32>
        ensures { result ≡ column_place self.now table row column }
    {
        let table = nth_table(&self.tables, table)?;
        let column = nth_column(&table.row.columns, column)?;
        if row == 0 || row > table.rows {
            return None;
        }
        Some(table.row_at(row) + column.offset)
    }

    /// The token that a coded index of a kind names: the table's number above 24 bits of the row (ECMA-335 II.24.2.6).
    /// The kinds have the numbers of [`CodedKind`]. `None` exactly where there is no such kind, its tag is not listed,
    /// or the table has no such row; row 0 is always there.
    pub fn coded(&self, kind: u8, value: u32) -> Option<u32>
        ensures { result ≡ coded_of self.now kind value }
    {
        self.places.coded(kind_numbered(kind)?, value)
    }

    /// The text at an offset of `#Strings` (ECMA-335 II.24.2.3), without the zero that ends it; at 0 it is empty.
    /// `None` exactly where no UTF-8 that ends with a zero is there.
    pub fn string<'a>(&self, bytes: &'a [u8], at: u32) -> Option<&'a str>
        ensures { option_copied result ≡ string_of bytes.now self.now at }
    {
        self.places.string(bytes, at)
    }

    /// The bytes of the blob at an offset of `#Blob`, without its length (ECMA-335 II.24.2.4); at 0 it is empty. `None`
    /// exactly where no whole blob is there. `bytes` are the file's, at most 2^31.
    pub fn blob<'a>(&self, bytes: &'a [u8], at: u32) -> Option<&'a [u8]>
        requires { length bytes.now ≤ 2 ^ 31 }
        ensures { option_copied result ≡ blob_of bytes.now self.now at }
    {
        self.places.blob(bytes, at)
    }

    /// The UTF-16 bytes of the user string at an offset of `#US`, without its length and its last byte (ECMA-335
    /// II.24.2.4). `None` exactly where no whole blob of odd length is there. `bytes` are the file's, at most 2^31.
    pub fn user_string<'a>(&self, bytes: &'a [u8], at: u32) -> Option<&'a [u8]>
        requires { length bytes.now ≤ 2 ^ 31 }
        ensures { option_copied result ≡ user_string_of bytes.now self.now at }
    {
        self.places.user_string(bytes, at)
    }
}
