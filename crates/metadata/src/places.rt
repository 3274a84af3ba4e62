//! What is kept of the streams and of the header of the tables' stream (ECMA-335 II.24.2.2 and II.24.2.6).

ghost use Rattle.std.specs.Prelude.{◌≡◌, ◌<◌, ◌≤◌, ◌^◌, ◌-◌, All, length, option_copied};
ghost use Rattle.metadata.specs.declared.schema.ColumnKind.TheVariants as columns;
ghost use Rattle.metadata.specs.Heaps.{blob_of, coded_token, row_token, string_of, user_string_of};
ghost use Rattle.metadata.specs.Schema.{tag_bits, tagged_table, tagged_table_in};
ghost use Rattle.metadata.specs.Steps.{layout_by};
ghost use Rattle.metadata.specs.Tables.{is_short_in, is_wide, is_wide_row, rows_of};

use crate::header::TablesHeader;
use crate::heaps::{blob_at, heap_of, text_at, without_last};
use crate::schema::{CODED_TABLES, CodedKind, CodedTable, ColumnKind, Heap, Table};
use crate::streams::Streams;
use rtr_bytes::Span;
use std::marker::Model;

/// How many rows a token's low bits count.
const TOKEN_ROWS: u32 = 1 << 24;
/// From how many rows on an index into a table has four bytes.
const WIDE_ROWS: u32 = 1 << 16;

/// Up to how many rows of each of its tables two bytes hold each index of a kind.
#[tactic(auto, using(std::proofs::lemmas::Nat::one_shl))]
fn short_limit(kind: CodedKind) -> u32
    ensures { result ≡ 2 ^ (16 - tag_bits kind) }
{
    1 << (16 - kind.tag_bits())
}

/// Where the heaps are, how many rows each table has, and which heap indexes have four bytes.
#[derive(Debug, Drop)]
pub(crate) struct Places {
    strings: Span,
    user_strings: Span,
    guids: Span,
    blobs: Span,
    heap_sizes: u8,
    rows: Vec<u32>,
    rows_at: u32,
}

impl Model for Places {
    ghost use Rattle.std.specs.Prelude.{◌<◌, ◌^◌, All};
    ghost use Rattle.metadata.specs.Tables.{Layout};

    ghost Value = { Layout };

    ghost view = { λ p. record { strings = p.strings; user_strings = p.user_strings; guids = p.guids; blobs = p.blobs; heap_sizes = p.heap_sizes; rows = p.rows.items; rows_at = p.rows_at } };

    ghost invariant = { λ p. All (λ n. n < 2 ^ 24) p.rows.items };
}

impl Places {
    /// Those by the streams and the header of the tables' stream.
    pub(crate) fn of(streams: Streams, header: TablesHeader) -> Places
        requires few { All (λ n. n < 2 ^ 24) header.rows.items }
        ensures { result ≡ layout_by streams header }
    {
        Places {
            strings: streams.strings,
            user_strings: streams.user_strings,
            guids: streams.guids,
            blobs: streams.blobs,
            heap_sizes: header.heap_sizes,
            rows: header.rows,
            rows_at: header.rows_at,
        }
    }

    /// `#Strings`.
    pub(crate) fn strings(&self) -> Span
        ensures { result ≡ self.now.strings }
    {
        self.strings
    }

    /// The text at an offset of `#Strings`; at 0 it is empty.
    #[tactic(auto, unfolding(crate::specs::Heaps::string_of))]
    pub(crate) fn string<'a>(&self, bytes: &'a [u8], at: u32) -> Option<&'a str>
        ensures { option_copied result ≡ string_of bytes.now self.now at }
    {
        if at == 0 {
            Some("")
        } else {
            text_at(heap_of(bytes, self.strings), at)
        }
    }

    /// The blob at an offset of `#Blob`; at 0 it is empty.
    #[tactic(auto, unfolding(crate::specs::Heaps::blob_of))]
    pub(crate) fn blob<'a>(&self, bytes: &'a [u8], at: u32) -> Option<&'a [u8]>
        requires { length bytes.now ≤ 2 ^ 31 }
        ensures { option_copied result ≡ blob_of bytes.now self.now at }
    {
        if at == 0 {
            Some(&[])
        } else {
            blob_at(heap_of(bytes, self.blobs), at)
        }
    }

    /// The user string at an offset of `#US`, without its last byte.
    #[tactic(auto, unfolding(crate::specs::Heaps::user_string_of))]
    pub(crate) fn user_string<'a>(&self, bytes: &'a [u8], at: u32) -> Option<&'a [u8]>
        requires { length bytes.now ≤ 2 ^ 31 }
        ensures { option_copied result ≡ user_string_of bytes.now self.now at }
    {
        let blob = blob_at(heap_of(bytes, self.user_strings), at)?;
        without_last(blob)
    }

    /// `#GUID`.
    pub(crate) fn guids(&self) -> Span
        ensures { result ≡ self.now.guids }
    {
        self.guids
    }

    /// The file offset of the first row.
    pub(crate) fn rows_at(&self) -> u32
        ensures place { result ≡ self.now.rows_at }
        ensures narrow { result < 2 ^ 32 }
    {
        self.rows_at
    }

    /// How many rows a table has.
    pub(crate) fn rows(&self, table: u8) -> u32
        ensures rows { result ≡ rows_of self.now table }
        ensures few { result < 2 ^ 24 }
    {
        self.rows.get(table as usize).copied().unwrap_or(0)
    }

    /// The token of a row of a table. `None` where the table has no such row; row 0 is always there.
    fn row_token(&self, row: u32, table: Table) -> Option<u32>
        ensures { result ≡ row_token self.now row table }
    {
        let number = table.number();
        if row <= self.rows(number) {
            Some(u32::from(number) * TOKEN_ROWS + row)
        } else {
            None
        }
    }

    /// The token that an index of a kind names. `None` exactly where its tag is not listed, or the table has no such row.
    #[tactic(auto, unfolding(crate::specs::Heaps::coded_token), using(std::proofs::lemmas::Nat::one_shl))]
    pub(crate) fn coded(&self, kind: CodedKind, value: u32) -> Option<u32>
        ensures { result ≡ coded_token self.now kind value }
    {
        let tags = 1 << kind.tag_bits();
        let table = tagged_table(kind, value % tags)?;
        self.row_token(value / tags, table)
    }

    /// Whether the index of a heap has four bytes.
    fn is_wide_heap(&self, heap: Heap) -> bool
        ensures { result ≡ is_wide self.now (columns.Heap heap) }
    {
        let bit = match heap {
            Heap::Strings => 1,
            Heap::Guids => 2,
            Heap::Blobs => 4,
        };
        self.heap_sizes / bit % 2 == 1
    }

    /// Whether the index of a row of a table has four bytes.
    fn is_wide_row(&self, table: Table) -> bool
        ensures { result ≡ is_wide_row self.now table }
    {
        self.rows(table.number()) >= WIDE_ROWS
    }

    /// Whether two bytes hold each index of a kind, by the tables of tags.
    fn is_short_in(&self, tagged: &[CodedTable], kind: CodedKind) -> bool
        ensures { result ≡ is_short_in tagged.now self.now kind }
    {
        let limit = short_limit(kind);
        tagged
            .iter()
            .filter(|t| t.kind.number() == kind.number())
            .all(|t| self.rows(t.table.number()) < limit)
    }

    /// Whether a column of a kind has four bytes, and not two.
    #[tactic(auto, unfolding(crate::specs::Tables::is_short))]
    pub(crate) fn is_wide(&self, kind: ColumnKind) -> bool
        ensures { result ≡ is_wide self.now kind }
    {
        match kind {
            ColumnKind::UInt16 => false,
            ColumnKind::UInt32 => true,
            ColumnKind::Heap(heap) => self.is_wide_heap(heap),
            ColumnKind::Row(table) | ColumnKind::List(table) => self.is_wide_row(table),
            ColumnKind::Coded(kind) => !self.is_short_in(&CODED_TABLES, kind),
        }
    }
}

/// The table of a tag of a kind, by the tables of tags.
fn tagged_table_in(tagged: &[CodedTable], kind: CodedKind, tag: u32) -> Option<Table>
    ensures { result ≡ tagged_table_in tagged.now kind tag }
{
    let found = tagged.iter().find(|t| t.kind.number() == kind.number()
        && u32::from(t.tag) == tag)?;
    Some(found.table)
}

/// The table of a tag of a kind.
#[tactic(auto, unfolding(crate::specs::Schema::tagged_table))]
fn tagged_table(kind: CodedKind, tag: u32) -> Option<Table>
    ensures { result ≡ tagged_table kind tag }
{
    tagged_table_in(&CODED_TABLES, kind, tag)
}
