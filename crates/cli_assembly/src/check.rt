//! The checks of method bodies, with the numbers that a dump prints.

/// A check of method bodies.
#[derive(Clone, Copy, Debug, PartialEq, Eq)]
pub(crate) enum Check {
    /// The header and the code of each method with CIL are in a section.
    Body = 50,
    /// The header is tiny, or fat with a size of 3 words.
    BodyHeader = 51,
}
