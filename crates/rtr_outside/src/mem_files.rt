//! Files in memory that expose their bytes, and of which chosen calls fail.

ghost use Rattle.std.specs.Prelude.{◌≡◌, ◌≢◌, ◌≤◌, ◌↔◌, [], ◌∷◌, ◌++◌, Some, if◌then◌else◌, is_ok, length, IsTrue, OnOk, OnErr, IfOk, IsErrOf};
ghost use Rattle.std.specs.Option.{option_copied};
ghost use Rattle.rtr_outside.specs.Files.{Read, Write, calls_after, IsKnownLonger};
ghost use Rattle.rtr_outside.specs.Named.{bytes_of, with_file, file_map};
ghost use Rattle.rtr_outside.specs.Calls.{call};
ghost use Rattle.rtr_outside.specs.Counts.{one_more};
ghost use Rattle.rtr_outside.specs.MemFiles.{IsToFail, ReadFails, FailsExactlyWhere, number_after};

use crate::calls::{CallKind, FailedCalls};
use crate::files::{FILE_LIMIT, FileRefusal, Files};
use crate::named::NamedFiles;
use rtr_bytes::NoMemory;
use std::alloc::Global;
use std::marker::Model;

/// Files in memory. They expose the bytes of each name.
///
/// Calls are numbered from 0, reads and writes together. A call that finds no memory changes nothing, and
/// the next one has its number.
#[derive(Drop)]
pub struct MemFiles {
    alloc: Global,
    files: NamedFiles,
    fails: Vec<u32>,
    calls: u64,
    failed: FailedCalls,
}

impl Model for MemFiles {
    ghost use Rattle.rtr_outside.specs.MemFiles.{FilesInMemory, files_code};

    ghost Value = { FilesInMemory };

    ghost coded = { files_code };

    ghost view = { λ m. record {
      files = m.files;
      fails = m.fails.items;
      calls = m.calls;
      failed = m.failed;
    } };
}

impl MemFiles {
    /// The files of these names, of which the calls with the numbers in `fails` fail. Of two files of one name
    /// the first counts. It takes no memory; later calls take theirs from `alloc`.
    pub fn new(alloc: Global, files: Vec<(String, Vec<u8>)>, fails: Vec<u32>) -> MemFiles
        ensures { result ≡ record {
          files = file_map files.items;
          fails = fails.items;
          calls = 0;
          failed = [];
        } }
    {
        MemFiles {
            alloc,
            files: NamedFiles::from_vec(files),
            fails,
            calls: 0,
            failed: FailedCalls::new(alloc),
        }
    }

    /// The bytes of a name. `None` exactly where there is no such name. It is no call that could fail, and
    /// isn't counted.
    pub fn get(&self, name: &str) -> Option<&[u8]>
        ensures { option_copied result ≡ bytes_of self.now.files name.now }
    {
        self.files.get(name)
    }

    /// Whether the next call is one of those that fail.
    fn is_to_fail(&self) -> bool
        ensures { IsTrue result ↔ IsToFail self.now }
    {
        let next = self.calls;
        self.fails.iter().any(|number| u64::from(*number) == next)
    }

    /// Counts a call that fails, and records it. Without memory it changes nothing.
    fn fail(&mut self, kind: CallKind, name: &str) -> Result<(), NoMemory>
        ensures ok { OnOk result (self.new ≡ record self.old {
          calls = one_more self.old.calls;
          failed = self.old.failed ++ call kind name.now ∷ [];
        }) }
        ensures err { OnErr result (self.new ≡ self.old) }
    {
        self.failed.enter(self.alloc, kind, name)?;
        self.calls = self.calls.saturating_add(1);
        Ok(())
    }
}

impl Files for MemFiles {
    ghost contents = { λ m. Some (bytes_of m.files) };

    ghost failed_calls = { λ m. m.failed };

    /// The bytes of a name. `NoMemory` comes where memory is refused. Else `Failed` comes exactly where the call's
    /// number is one of those that fail or there is no such name, and `TooLong` where it has more than [`FILE_LIMIT`]
    /// bytes.
    fn read(&mut self, name: &str) -> Result<Vec<u8>, FileRefusal>
        ensures fails { FailsExactlyWhere (ReadFails self.old name.now) result }
        ensures bytes { IfOk result (λ bytes. bytes_of self.old.files name.now ≡ Some bytes.items) }
        ensures bounded { IfOk result (λ bytes. length bytes.items ≤ FILE_LIMIT) }
        ensures too_long { IsErrOf result FileRefusal.TooLong →
            IsKnownLonger FILE_LIMIT (Some (bytes_of self.old.files)) name.now }

        // It is counted, and recorded where it fails. The files are as before.
        ensures after { self.new ≡ record self.old {
          calls = number_after result self.old.calls;
          failed = calls_after (Read name.now) result self.old.failed;
        } }
    {
        let found = if self.is_to_fail() {
            None
        } else {
            self.files.get(name)
        };
        let Some(bytes) = found else {
            self.fail(CallKind::Read, name)?;
            return Err(FileRefusal::Failed);
        };
        if bytes.len() > FILE_LIMIT {
            self.calls = self.calls.saturating_add(1);
            return Err(FileRefusal::TooLong);
        }
        let bytes = Vec::from_slice(self.alloc, bytes)?;
        self.calls = self.calls.saturating_add(1);
        Ok(bytes)
    }

    /// Gives a name these bytes. `NoMemory` comes where memory is refused; else `Failed` comes exactly where the call's
    /// number is one of those that fail. After a refusal every name has what it had.
    fn write(&mut self, name: &str, bytes: &[u8]) -> Result<(), FileRefusal>
        ensures fails { FailsExactlyWhere (IsToFail self.old) result }
        ensures not_too_long { result ≢ Err FileRefusal.TooLong }

        // It is counted, and recorded where it fails. Only where it succeeds a name has other bytes.
        ensures after { self.new ≡ record self.old {
          files = if is_ok result then with_file self.old.files name.now bytes.now else self.old.files;
          calls = number_after result self.old.calls;
          failed = calls_after (Write name.now) result self.old.failed;
        } }
    {
        if self.is_to_fail() {
            self.fail(CallKind::Write, name)?;
            return Err(FileRefusal::Failed);
        }
        self.files.set(self.alloc, name, bytes)?;
        self.calls = self.calls.saturating_add(1);
        Ok(())
    }
}
