//! Files by their names.

ghost use Rattle.std.specs.Prelude.{◌≡◌, ◌≢◌, ◌≤◌, List, Option, length, IfOk, OnOk, IsErrOf};
ghost use Rattle.rtr_outside.specs.Files.{Call, Read, Write, Contents, calls_after, IsKnownAs, IsKnownLonger, LeavesOthers};
ghost use Rattle.rtr_outside.specs.declared.files.FileRefusal.TheVariants as refusals;

use rtr_bytes::NoMemory;
use std::alloc::AllocError;
use thiserror::Error;

/// The most bytes that a file may have: 16 MiB.
pub const FILE_LIMIT: usize = 16_777_216;

/// Why a file could not be read or written.
#[derive(Clone, Copy, Debug, PartialEq, Eq, Error)]
pub enum FileRefusal {
    /// The call failed, and is recorded as failed.
    #[error("the call failed")]
    Failed,
    /// The file has more than [`FILE_LIMIT`] bytes.
    #[error("the file is too long")]
    TooLong,
    /// Memory was refused.
    #[error("out of memory")]
    NoMemory,
}

impl From<NoMemory> for FileRefusal {
    ghost from_gives = { λ _ e. e ≡ refusals.NoMemory };

    fn from(_e: NoMemory) -> FileRefusal {
        FileRefusal::NoMemory
    }
}

impl From<AllocError> for FileRefusal {
    ghost from_gives = { λ _ e. e ≡ refusals.NoMemory };

    fn from(_e: AllocError) -> FileRefusal {
        FileRefusal::NoMemory
    }
}

/// Files by their names.
pub trait Files {
    /// The bytes of each name, where the files expose them.
    ghost contents: { Self → Option Contents };

    /// The calls that failed, in their order.
    ghost failed_calls: { Self → List Call };

    /// The bytes of a file, at most [`FILE_LIMIT`]. `Failed` comes where the call fails, `TooLong` where the file has
    /// more bytes than that, and `NoMemory` where memory is refused.
    fn read(&mut self, name: &str) -> Result<Vec<u8>, FileRefusal>
        // `Failed` comes exactly where the failed calls gain this read.
        ensures failed { failed_calls self.new ≡ calls_after (Read name.now) result (failed_calls self.old) }

        // Where the files expose their bytes, the answer is the file of that name, or it is above the limit.
        ensures bytes { IfOk result (λ bytes. IsKnownAs (contents self.old) name.now bytes.items) }
        ensures too_long { IsErrOf result FileRefusal.TooLong → IsKnownLonger FILE_LIMIT (contents self.old) name.now }

        ensures bounded { IfOk result (λ bytes. length bytes.items ≤ FILE_LIMIT) }
        ensures same { contents self.new ≡ contents self.old };

    /// Sets the bytes of a name. `Failed` comes where the call fails, and `NoMemory` where memory is refused; after
    /// either nothing is said of what that name has. `TooLong` never comes.
    fn write(&mut self, name: &str, bytes: &[u8]) -> Result<(), FileRefusal>
        // `Failed` comes exactly where the failed calls gain this write.
        ensures failed { failed_calls self.new ≡ calls_after (Write name.now) result (failed_calls self.old) }
        ensures not_too_long { result ≢ Err FileRefusal.TooLong }

        ensures written { OnOk result (IsKnownAs (contents self.new) name.now bytes.now) }
        ensures others { LeavesOthers name.now (contents self.old) (contents self.new) };
}
