//! The widths of columns (ECMA-335 II.24.2.6), by the number of each table's rows and the sizes of the heaps.

ghost use Rattle.std.specs.Prelude.{◌≡◌, ◌≤◌, ◌<◌, ◌-◌, ◌^◌, ℕ, List, All, map, length, IfOk};
ghost use Rattle.metadata.specs.Tables.{is_short_in, is_wide, rows_of, widths_of, width_of};
ghost use Rattle.metadata.specs.Schema.{columns_in, table_number, tag_bits};
ghost use Rattle.asm_builder.specs.File.{heap_size_bit, sized};

use crate::content::Content;
use metadata::{CODED_TABLES, COLUMNS, CodedKind, CodedTable, Column, ColumnKind, Heap, Table};
use rtr_bytes::{NoMemory, Sequence};
use std::alloc::Global;
use std::marker::Model;

/// From how many rows, or bytes of a heap, on an index has four bytes.
const WIDE: usize = 1 << 16;

/// Below how many rows of each of its tables two bytes hold each index of a kind.
#[tactic(auto, using(std::proofs::lemmas::Nat::one_shl))]
fn short_limit(kind: CodedKind) -> u32
    ensures { result ≡ 2 ^ (16 - tag_bits kind) }
{
    1 << (16 - kind.tag_bits())
}

/// What the widths depend on. Contracts see it as a layout whose places are all 0.
#[derive(Drop)]
pub(crate) struct Sizes {
    heap_sizes: u8,
    rows: Vec<u32>,
}

impl Model for Sizes {
    ghost use Rattle.metadata.specs.Tables.{Layout};

    ghost Value = { Layout };

    ghost view = { λ s. record {
      strings = record { start = 0; len = 0 };
      user_strings = record { start = 0; len = 0 };
      guids = record { start = 0; len = 0 };
      blobs = record { start = 0; len = 0 };
      heap_sizes = s.heap_sizes;
      rows = s.rows.items;
      rows_at = 0;
    } };
}

/// The bit of HeapSizes of a heap of so many bytes.
fn heap_size_bit(bit: u8, len: usize) -> u8
    ensures { (heap : List ℕ) → len ≡ length heap → result ≡ heap_size_bit bit heap }
{
    if len >= WIDE { bit } else { 0 }
}

impl Sizes {
    /// Those of a content.
    pub(crate) fn of(alloc: Global, content: &Content) -> Result<Sizes, NoMemory>
        requires { All (λ (rows : List (List ℕ)). length rows < 2 ^ 24) content.now.tables }
        ensures { IfOk result (λ sizes. sizes ≡ sized content.now) }
    {
        let mut rows = Vec::new(alloc);
        let tables = content.tables.as_slice();
        for table in tables {
            rows.push(table.len() as u32)?;
        }
        Ok(Sizes {
            heap_sizes: heap_size_bit(1, content.strings.len())
                + heap_size_bit(2, content.guids.len())
                + heap_size_bit(4, content.blobs.len()),
            rows,
        })
    }

    /// HeapSizes.
    pub(crate) fn heap_sizes(&self) -> u8
        ensures { result ≡ self.now.heap_sizes }
    {
        self.heap_sizes
    }

    /// How many rows a table has.
    fn rows(&self, table: Table) -> u32
        ensures { result ≡ rows_of self.now (table_number table) }
    {
        self.rows
            .get(usize::from(table.number()))
            .copied()
            .unwrap_or(0)
    }

    /// Whether two bytes hold each index of a kind, by the tables of tags.
    fn is_short_in(&self, tagged: &[CodedTable], kind: CodedKind) -> bool
        ensures { result ≡ is_short_in tagged.now self.now kind }
    {
        let limit = short_limit(kind);
        tagged
            .iter()
            .filter(|t| t.kind.number() == kind.number())
            .all(|t| self.rows(t.table) < limit)
    }

    /// Whether a column of a kind has four bytes, and not two.
    #[tactic(auto, unfolding(metadata::specs::Tables::is_short))]
    fn is_wide(&self, kind: ColumnKind) -> bool
        ensures { result ≡ is_wide self.now kind }
    {
        match kind {
            ColumnKind::UInt16 => false,
            ColumnKind::UInt32 => true,
            ColumnKind::Heap(Heap::Strings) => self.heap_sizes % 2 == 1,
            ColumnKind::Heap(Heap::Guids) => self.heap_sizes / 2 % 2 == 1,
            ColumnKind::Heap(Heap::Blobs) => self.heap_sizes / 4 % 2 == 1,
            ColumnKind::Row(table) | ColumnKind::List(table) => self.rows(table) as usize >= WIDE,
            ColumnKind::Coded(kind) => !self.is_short_in(&CODED_TABLES, kind),
        }
    }

    /// The widths of a table's columns, by the columns of all tables.
    fn widths_in(
        &self,
        alloc: Global,
        columns: &[Column],
        table: u8,
    ) -> Result<Sequence<u8>, NoMemory>
        ensures widths { IfOk result (λ widths. widths ≡ map (width_of self.now) (columns_in columns.now table)) }
        ensures narrow { IfOk result (λ widths. All (λ w. w ≤ 8) widths) }
    {
        let mut widths = Vec::new(alloc);
        for column in columns {
            if column.table.number() == table {
                widths.push(if self.is_wide(column.kind) { 4 } else { 2 })?;
            }
        }
        Ok(Sequence::from_vec(widths))
    }

    /// The widths of a table's columns, in their order.
    #[tactic(auto, unfolding(metadata::specs::Tables::widths_of, metadata::specs::Schema::columns_of))]
    pub(crate) fn widths(&self, alloc: Global, table: u8) -> Result<Sequence<u8>, NoMemory>
        ensures widths { IfOk result (λ widths. widths ≡ widths_of self.now table) }
        ensures narrow { IfOk result (λ widths. All (λ w. w ≤ 8) widths) }
    {
        self.widths_in(alloc, &COLUMNS, table)
    }
}
