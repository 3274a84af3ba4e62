//! How many rows a builder's tables have, and whether a token names one of them.

ghost use Rattle.std.specs.Prelude.{◌≡◌, ◌↔◌, ◌+◌, ◌<◌, ◌/◌, ◌%◌, ◌^◌, ◌==◌, ◌&&◌, not, nat_lt, nat_le, length, is_some, get_or, if◌then◌else◌, IsTrue};
ghost use Rattle.std.specs.List.{list_any};
ghost use Rattle.asm_builder.specs.Cells.{is_empty, locals_of, tables_of, user_heap};
ghost use Rattle.asm_builder.specs.Content.{tag_in, tag_of};
ghost use Rattle.asm_builder.specs.Room.{rows_in};
ghost use Rattle.asm_builder.specs.Sound.{IsEntry, IsSound, is_name, is_row, rows_asked, takes};
ghost use Rattle.asm_builder.specs.Tested.{rows_with};

use crate::asked::Method;
use crate::builder::Builder;
use crate::content::has_locals;
use metadata::{CODED_TABLES, CodedKind, CodedTable, Table};

/// How many rows the low bits of a token count.
pub(crate) const TOKEN_ROWS: u32 = 1 << 24;

/// Whether one of some bytes is a zero.
fn has_zero(bytes: &[u8]) -> bool
    ensures { result ≡ list_any (λ b. b == 0) bytes.now }
{
    bytes.iter().any(|b| *b == 0)
}

/// Whether a text has no zero.
pub(crate) fn is_name(text: &str) -> bool
    ensures { result ≡ is_name text.now }
{
    !has_zero(text.as_bytes())
}

/// How many methods have a row of StandAloneSig.
fn locals_len(methods: &[Method]) -> usize
    ensures { result ≡ length (locals_of methods.now) }
{
    methods.iter().filter(|m| has_locals(m)).count()
}

/// The tag of a table among those of a kind, by the tables of tags.
fn tag_in(tagged: &[CodedTable], kind: CodedKind, table: u32) -> Option<u8>
    ensures { result ≡ tag_in tagged.now kind table }
{
    let found = tagged.iter().find(|t| t.kind.number() == kind.number()
        && u32::from(t.table.number()) == table)?;
    Some(found.tag)
}

/// Whether a token's table is one of those of a kind.
#[tactic(auto, unfolding(crate::specs::Content::tag_of))]
fn has_tag(kind: CodedKind, token: u32) -> bool
    ensures { result ≡ is_some (tag_of kind token) }
{
    tag_in(&CODED_TABLES, kind, token / TOKEN_ROWS).is_some()
}

/// Whether a token's row is one of so many, or the one after them where there is one more.
fn names_row(rows: usize, one_more: bool, token: u32) -> bool
    ensures { result ≡ (nat_lt 0 (token % 2 ^ 24) && nat_le (token % 2 ^ 24) (rows + (if one_more then 1 else 0))) }
{
    let row = (token % TOKEN_ROWS) as usize;
    0 < row && (row <= rows || one_more && row - 1 <= rows)
}

impl Builder {
    /// How many rows a table has, by its number.
    #[tactic(auto, using(crate::proofs::CountsWith::method_rows_len), unfolding(crate::specs::Room::rows_in))]
    pub(crate) fn rows_len(&self, table: u8) -> usize
        ensures { result ≡ length (rows_in self.now table) }
    {
        match table {
            0x00 => 1,
            0x01 => self.type_refs.len(),
            0x02 => self.type_defs.len(),
            0x04 => self.fields.len(),
            0x06 => self.methods.len(),
            0x0A => self.member_refs.len(),
            0x0C => self.attributes.len(),
            0x11 => locals_len(&self.methods),
            0x20 => 1,
            0x23 => self.assembly_refs.len(),
            _ => 0,
        }
    }

    /// The same for any number, of a table or not.
    #[tactic(auto, using(crate::proofs::CountsWith::count_in, crate::proofs::CountsWith::count_past))]
    fn count(&self, table: u32) -> usize
        ensures { result ≡ get_or (rows_asked (tables_of self.now)) table 0 }
    {
        if table < 64 {
            self.rows_len(table as u8)
        } else {
            0
        }
    }

    /// Whether a token names a row that is there, with one row more in a table.
    #[tactic(auto, using(crate::proofs::CountsWith::row_is_with))]
    fn has_row_with(&self, added: Table, token: u32) -> bool
        ensures { result ≡ is_row (rows_with self.now added) token }
    {
        let table = token / TOKEN_ROWS;
        names_row(self.count(table), table == u32::from(added.number()), token)
    }

    /// Whether a column of a kind takes a token, with one row more in a table.
    pub(crate) fn takes(&self, added: Table, kind: CodedKind, token: u32) -> bool
        ensures { result ≡ takes (rows_with self.now added) kind token }
    {
        has_tag(kind, token) && self.has_row_with(added, token)
    }

    /// Whether [`Builder::finish`] takes an entry token: that of a MethodDef row, or 0 for none.
    pub fn is_entry(&self, entry: u32) -> bool
        ensures { IsTrue result ↔ IsEntry self.now entry }
    {
        if entry == 0 {
            return true;
        }
        let table = entry / TOKEN_ROWS;
        table == u32::from(Table::MethodDef.number()) && names_row(self.count(table), false, entry)
    }

    /// Whether a type can have fields and methods: there is one.
    pub(crate) fn has_type(&self) -> bool
        ensures { result ≡ not (is_empty self.now.type_defs) }
    {
        !self.type_defs.is_empty()
    }

    /// Whether the next field and the next method have numbers that fit their columns.
    pub(crate) fn can_number(&self) -> bool
        ensures { result ≡ (not (length self.now.fields == 0xFFFF) && not (length self.now.methods == 0xFFFF)) }
    {
        self.fields.len() != 0xFFFF && self.methods.len() != 0xFFFF
    }

    /// How many bytes the user strings have in their heap.
    pub(crate) fn user_heap_len(&self) -> u32
        ensures len { result ≡ length (user_heap self.now.user_strings) }
        ensures sound { IsSound self.now }
    {
        self.user_heap_len
    }
}
