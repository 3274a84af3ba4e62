//! The metadata of an assembly (ECMA-335 II.22 and II.24): its tables and heaps, by place.
#![tactic(auto)]

mod check;
mod header;
mod heaps;
mod judge;
mod laws;
mod layout;
mod metadata;
mod names;
mod places;
mod root;
mod schema;
mod streams;
mod texts;

pub use laws::tables_are_lists_of_rows;
pub use metadata::Metadata;
pub use schema::{
    CODED_KINDS, CODED_TABLES, COLUMNS, CodedKind, CodedTable, Column, ColumnKind, Heap, Table,
};
