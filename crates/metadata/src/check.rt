//! The checks of metadata, with the numbers that a dump prints.

/// A check of metadata.
#[derive(Clone, Copy, Debug, PartialEq, Eq)]
pub(crate) enum Check {
    /// The root has its 20 bytes and its signature.
    Root = 30,
    /// The version's length is a multiple of 4 of at most 255, and the version and the fields after it fit.
    Version = 31,
    /// Each stream header fits, and its name ends within 32 bytes.
    StreamHeader = 32,
    /// Each stream is in the metadata.
    StreamRange = 33,
    /// No stream has the name of an earlier one.
    StreamName = 34,
    /// There is a stream `#~`.
    TablesStream = 35,
    /// The tables' stream has its header and its row counts.
    TablesHeader = 36,
    /// HeapSizes has no unknown bit.
    HeapSizes = 37,
    /// Valid has no unknown table.
    Valid = 38,
    /// Each row count has at most 24 bits.
    RowCount = 39,
    /// All rows are in the stream.
    Rows = 40,
    /// Module and Assembly have one row each.
    OneAssembly = 41,
    /// Each column is valid.
    Column = 42,
    /// No list column is less than in the row before.
    ListColumn = 43,
}
