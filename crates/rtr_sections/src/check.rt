//! The checks of the ReadyToRun part.

/// A check, by its number: the one that `dump` prints.
#[derive(Clone, Copy)]
pub(crate) enum Check {
    /// The 16 bytes of the native header are in a section of the file.
    NativeHeader = 16,
    /// The native header's Signature is `RTR` and a zero.
    Signature = 17,
    /// The section records are in a section of the file.
    SectionRecords = 18,
    /// The section types ascend.
    SectionOrder = 19,
    /// The range of each section that this compiler writes is in a section of the file.
    SectionRange = 20,
    /// ImportSections has whole records.
    ImportSectionsSize = 21,
    /// The cells of each import record are in a section of the file.
    ImportCells = 22,
    /// Each import record has the form that this compiler writes.
    ImportForm = 60,
    /// A fixup begins at each RVA of a signature.
    SlotSignature = 61,
    /// The entries of RuntimeFunctions are whole, and their code is in order.
    RuntimeFunction = 62,
    /// The array of MethodDefEntryPoints is there, with at most as many elements as there are MethodDef rows.
    EntryArray = 63,
    /// No path in that array is cut.
    EntryPath = 64,
    /// Each entry is whole, and names a function and slots that exist.
    EntryContent = 65,
    /// The cells of each import record are after those of the record before.
    CellOrder = 66,
}
