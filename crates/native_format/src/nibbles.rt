//! Lists of import slots, spelled as nibbles (ReadyToRun File Format, "Fixups").

ghost use Rattle.std.specs.Prelude.{◌≡◌};
ghost use Rattle.native_format.specs.declared.nibbles.ListRefusal.TheVariants as refusals;

use std::alloc::AllocFailed;
use thiserror::Error;

/// A slot of an import section, by number.
#[derive(Clone, Copy, Debug, PartialEq, Eq)]
pub struct SlotRef {
    /// The number of the import section, from 0.
    pub section: u32,
    /// The number of the slot in the section, from 0.
    pub slot: u32,
}

/// Why no list was read.
#[derive(Clone, Copy, Debug, PartialEq, Eq, Error)]
pub enum ListRefusal {
    /// The stream is cut, or a number or a sum in it passes 32 bits.
    #[error("malformed list of slots")]
    Malformed,
    /// Memory was refused.
    #[error("out of memory")]
    NoMemory,
}

/// The stream of a list is cut, or a number or a sum in it passes 32 bits.
#[derive(Clone, Copy, Debug, PartialEq, Eq, Error)]
#[error("malformed list of slots")]
pub struct MalformedList;

impl From<MalformedList> for ListRefusal {
    ghost from_gives = { λ _ e. e ≡ refusals.Malformed };

    fn from(_e: MalformedList) -> ListRefusal {
        ListRefusal::Malformed
    }
}

impl<T: Drop> From<AllocFailed<T>> for ListRefusal {
    ghost from_gives = { λ _ e. e ≡ refusals.NoMemory };

    fn from(_e: AllocFailed<T>) -> ListRefusal {
        ListRefusal::NoMemory
    }
}

/// What is next in a list.
#[derive(Clone, Copy)]
pub(crate) enum Next {
    /// A slot, and the place of the nibble after it.
    Slot(SlotRef, usize),
    /// Nothing: the list ends, with the place of the nibble after its end.
    End(usize),
}
