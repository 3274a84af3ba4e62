//! Tokens of types and their coded TypeDefOrRef (ECMA-335 II.23.2.8 and II.24.2.6).

ghost use Rattle.std.specs.Prelude.{◌≡◌, ◌<◌, ◌^◌};
ghost use Rattle.metadata.specs.declared.schema.CodedKind.TheVariants as kinds;
ghost use Rattle.metadata.specs.Schema.{tagged_table, tagged_table_in};
ghost use Rattle.cli_assembly.specs.Types.{coded_type};
ghost use Rattle.cli_assembly.specs.Shortest.{coded_of_token, tag_in, type_tag};

use metadata::{CODED_TABLES, CodedKind, CodedTable, Table};

/// How many rows the low bits of a token count.
const TOKEN_ROWS: u32 = 1 << 24;
/// How many tags a coded TypeDefOrRef has.
const TAGS: u32 = 4;

/// The table of a tag of TypeDefOrRef, by the tables of tags.
fn table_in(tagged: &[CodedTable], tag: u32) -> Option<Table>
    ensures { result ≡ tagged_table_in tagged.now kinds.TypeDefOrRef tag }
{
    let found = tagged.iter().find(|t| t.kind.number() == CodedKind::TypeDefOrRef.number()
        && u32::from(t.tag) == tag)?;
    Some(found.table)
}

/// The table of a tag of TypeDefOrRef.
#[tactic(auto, unfolding(metadata::specs::Schema::tagged_table))]
fn table_of(tag: u32) -> Option<Table>
    ensures { result ≡ tagged_table kinds.TypeDefOrRef tag }
{
    table_in(&CODED_TABLES, tag)
}

/// The token of a coded TypeDefOrRef, where its tag has a table and its row has 24 bits.
#[tactic(auto, unfolding(crate::specs::Types::coded_type))]
pub(crate) fn coded_type(value: u32) -> Option<u32>
    ensures { result ≡ coded_type value }
{
    let row = value / TAGS;
    if row < TOKEN_ROWS {
        let table = table_of(value % TAGS)?;
        Some(u32::from(table.number()) * TOKEN_ROWS + row)
    } else {
        None
    }
}

/// The tag of a table among those of TypeDefOrRef, by the tables of tags.
fn tag_in(tagged: &[CodedTable], table: u32) -> Option<u8>
    ensures { result ≡ tag_in tagged.now table }
{
    let found = tagged.iter().find(|t| t.kind.number() == CodedKind::TypeDefOrRef.number()
        && u32::from(t.table.number()) == table)?;
    Some(found.tag)
}

/// The tag of a token's table among those of TypeDefOrRef.
#[tactic(auto, unfolding(crate::specs::Shortest::type_tag))]
pub(crate) fn type_tag(token: u32) -> Option<u8>
    ensures { result ≡ type_tag token }
{
    tag_in(&CODED_TABLES, token / TOKEN_ROWS)
}

/// The coded TypeDefOrRef of a token.
pub(crate) fn coded_of_token(token: u32) -> u32
    ensures coded { result ≡ coded_of_token token }
    ensures small { result < 2 ^ 29 }
{
    let tag = type_tag(token).unwrap_or(0);
    token % TOKEN_ROWS * TAGS + u32::from(tag)
}
