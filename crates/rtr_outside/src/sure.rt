//! Files and a sink that never fail, and expose no bytes.

ghost use Rattle.std.specs.Prelude.{◌≡◌, ◌≢◌, ◌≤◌, ◌<◌, [], None, if◌then◌else◌, is_ok, length, IfOk, IsErrOf, IsOkUnless};
ghost use Rattle.rtr_outside.specs.Named.{with_file, file_map};
ghost use Rattle.rtr_outside.specs.Sure.{read_of};

use crate::files::{FILE_LIMIT, FileRefusal, Files};
use crate::named::NamedFiles;
use crate::sink::{Sink, SinkFailed};
use std::alloc::Global;
use std::marker::Model;

/// Files in memory of which no call fails. They expose no bytes to code that is generic over [`Files`].
#[derive(Drop)]
pub struct SureFiles {
    alloc: Global,
    files: NamedFiles,
}

impl Model for SureFiles {
    ghost use Rattle.rtr_outside.specs.Named.{FileMap, file_map_code};

    ghost Value = { FileMap };

    ghost coded = { file_map_code };

    ghost view = { λ s. s.files };
}

impl SureFiles {
    /// The files of these names. Of two files of one name the first counts. It takes no memory; later calls
    /// take theirs from `alloc`.
    pub fn new(alloc: Global, files: Vec<(String, Vec<u8>)>) -> SureFiles
        ensures { result ≡ file_map files.items }
    {
        SureFiles {
            alloc,
            files: NamedFiles::from_vec(files),
        }
    }
}

impl Files for SureFiles {
    ghost contents = { λ _. None };

    ghost failed_calls = { λ _. [] };

    /// The bytes of a name, and none where there is no such name. `TooLong` comes only where they are more than
    /// [`FILE_LIMIT`], and such bytes are never answered; `NoMemory` comes where memory is refused.
    fn read(&mut self, name: &str) -> Result<Vec<u8>, FileRefusal>
        ensures never_fails { result ≢ Err FileRefusal.Failed }
        ensures bytes { IfOk result (λ bytes. bytes.items ≡ read_of self.old name.now) }
        ensures bounded { IfOk result (λ bytes. length bytes.items ≤ FILE_LIMIT) }
        ensures too_long { IsErrOf result FileRefusal.TooLong → FILE_LIMIT < length (read_of self.old name.now) }
        ensures same { self.new ≡ self.old }
    {
        let bytes = self.files.get(name).unwrap_or(&[]);
        if bytes.len() > FILE_LIMIT {
            return Err(FileRefusal::TooLong);
        }
        Ok(Vec::from_slice(self.alloc, bytes)?)
    }

    /// Gives a name these bytes. `NoMemory` comes where memory is refused, and then every name has what it had.
    fn write(&mut self, name: &str, bytes: &[u8]) -> Result<(), FileRefusal>
        ensures only_memory { IsOkUnless result FileRefusal.NoMemory }
        ensures after { self.new ≡ (if is_ok result then with_file self.old name.now bytes.now else self.old) }
    {
        self.files.set(self.alloc, name, bytes)?;
        Ok(())
    }
}

/// A sink that takes whatever comes, drops it and never fails.
#[derive(Clone, Copy, Debug, Default)]
pub struct SureSink;

impl SureSink {
    /// A sink that never fails. It has no state.
    pub fn new() -> SureSink
        ensures { result ≡ record {} }
    {
        SureSink
    }
}

impl Sink for SureSink {
    ghost written = { λ _. None };

    ghost faults = { λ _. 0 };

    /// Takes the whole piece.
    fn write(&mut self, bytes: &[u8]) -> Result<usize, SinkFailed>
        ensures { result ≡ Ok (length bytes.now) }
    {
        Ok(bytes.len())
    }
}
