//! The kinds of fixups (ReadyToRun File Format, "Fixups"), each the first byte of its signature, and the flags
//! of a field's token there.

pub(crate) const METHOD_ENTRY_DEF_TOKEN: u8 = 0x14;

pub(crate) const METHOD_ENTRY_REF_TOKEN: u8 = 0x15;

pub(crate) const VIRTUAL_ENTRY_DEF_TOKEN: u8 = 0x17;

pub(crate) const VIRTUAL_ENTRY_REF_TOKEN: u8 = 0x18;

pub(crate) const HELPER: u8 = 0x1A;

pub(crate) const STRING_HANDLE: u8 = 0x1B;

pub(crate) const NEW_OBJECT: u8 = 0x1C;

pub(crate) const NEW_ARRAY: u8 = 0x1D;

pub(crate) const IS_INSTANCE_OF: u8 = 0x1E;

pub(crate) const CHK_CAST: u8 = 0x1F;

pub(crate) const FIELD_ADDRESS: u8 = 0x20;

pub(crate) const FIELD_BASE_OFFSET: u8 = 0x26;

pub(crate) const FIELD_OFFSET: u8 = 0x27;

pub(crate) const CHECK_FIELD_OFFSET: u8 = 0x2B;

/// The row is one of Field.
pub(crate) const FIELD: u32 = 0x00;
/// The row is one of MemberRef.
pub(crate) const MEMBER_REF: u32 = 0x10;
