//! Where a file is malformed, and what a reader refuses with.

ghost use Rattle.std.specs.Prelude.{◌≡◌, true, false, IfErr, OnOk};
ghost use Rattle.rtr_bytes.specs.declared.fault.ReadRefusal.TheVariants as refusals;

use std::alloc::{AllocError, AllocFailed};
use thiserror::Error;

/// The first check that a file fails, and the file offset that goes with it.
#[derive(Clone, Copy, Debug, PartialEq, Eq)]
pub struct Fault {
    /// The number of the check, as `dump` prints it.
    pub check: u16,
    /// A file offset in bytes. It may be the file's length.
    pub place: u32,
}

/// `Ok` exactly where a check holds; else the fault of that check, by its number, at a file offset.
pub fn ensure(holds: bool, check: u16, place: u32) -> Result<(), Fault>
    ensures holds { OnOk result (holds ≡ true) }
    ensures fault { IfErr result (λ f. (holds ≡ false) × (f ≡ record { check = check; place = place })) }
{
    if holds {
        Ok(())
    } else {
        Err(Fault { check, place })
    }
}

/// A range: a start, as a file offset or an RVA, and a length in bytes.
#[derive(Clone, Copy, Debug, PartialEq, Eq)]
pub struct Span {
    /// Where it begins.
    pub start: u32,
    /// How many bytes it has.
    pub len: u32,
}

/// Memory was refused: the one refusal of a call that only allocates.
#[derive(Clone, Copy, Debug, PartialEq, Eq, Error)]
#[error("out of memory")]
pub struct NoMemory;

/// Why a reader answers no records.
#[derive(Clone, Copy, Debug, PartialEq, Eq, Error)]
pub enum ReadRefusal {
    /// The bytes fail a check. It is the first that they fail, with its first place.
    #[error("check {} fails at {}", .0.check, .0.place)]
    Malformed(Fault),
    /// Memory was refused.
    #[error("out of memory")]
    NoMemory,
}

impl From<AllocError> for NoMemory {
    fn from(_e: AllocError) -> NoMemory {
        NoMemory
    }
}

impl<T: Drop> From<AllocFailed<T>> for NoMemory {
    fn from(_e: AllocFailed<T>) -> NoMemory {
        NoMemory
    }
}

impl From<NoMemory> for ReadRefusal {
    ghost from_gives = { λ _ e. e ≡ refusals.NoMemory };

    fn from(_e: NoMemory) -> ReadRefusal {
        ReadRefusal::NoMemory
    }
}

impl From<AllocError> for ReadRefusal {
    ghost from_gives = { λ _ e. e ≡ refusals.NoMemory };

    fn from(_e: AllocError) -> ReadRefusal {
        ReadRefusal::NoMemory
    }
}

impl<T: Drop> From<AllocFailed<T>> for ReadRefusal {
    ghost from_gives = { λ _ e. e ≡ refusals.NoMemory };

    fn from(_e: AllocFailed<T>) -> ReadRefusal {
        ReadRefusal::NoMemory
    }
}

impl From<Fault> for ReadRefusal {
    ghost from_gives = { λ f e. e ≡ refusals.Malformed f };

    fn from(fault: Fault) -> ReadRefusal {
        ReadRefusal::Malformed(fault)
    }
}
