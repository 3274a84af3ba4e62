//! The files of the system.

ghost use Rattle.std.specs.Prelude.{◌≡◌, ◌≢◌, ◌≤◌, [], None, length, IfOk};
ghost use Rattle.rtr_outside.specs.Files.{Read as read_call, Write as write_call, calls_after};

use crate::calls::{CallKind, FailedCalls};
use crate::files::{FILE_LIMIT, FileRefusal, Files};
use crate::transfer::{read_all, refusal_of, write_all};
use std::alloc::Global;
use std::marker::Model;
use std::{fs, rt};

/// The files of the system, by their paths. They expose no contents.
///
/// An error of the system is a failed call, except where its kind is `std::io::ErrorKind::OutOfMemory`: that is
/// want of memory, and no call failed. An interruption is a failed call too.
#[derive(Drop)]
pub struct RealFiles<R> {
    alloc: Global,
    system: R,
    failed: FailedCalls,
}

impl<R> Model for RealFiles<R> {
    ghost use Rattle.std.specs.Prelude.{List};
    ghost use Rattle.rtr_outside.specs.Files.{Call};

    ghost Value = { List Call };

    ghost view = { λ r. r.failed };
}

impl<R> RealFiles<R> {
    /// The files that `system` reaches, with no failed call. It takes no memory; later calls take theirs from
    /// `alloc`.
    pub fn new(alloc: Global, system: R) -> Self
        ensures { result ≡ [] }
    {
        RealFiles {
            alloc,
            system,
            failed: FailedCalls::new(alloc),
        }
    }
}

impl<R: rt::Files> Files for RealFiles<R> {
    ghost contents = { λ _. None };

    ghost failed_calls = { λ r. r };

    /// The bytes of a file, of which at most one more than [`FILE_LIMIT`] is read. `Failed` comes where the system
    /// refuses to open or to read it, `TooLong` where it has more bytes than the limit, and `NoMemory` where memory is
    /// refused. The system is called only once the record of failed calls has room for this one.
    fn read(&mut self, name: &str) -> Result<Vec<u8>, FileRefusal>
        ensures failed { self.new ≡ calls_after (read_call name.now) result self.old }
        ensures bounded { IfOk result (λ bytes. length bytes.items ≤ FILE_LIMIT) }
    {
        self.failed.enter(self.alloc, CallKind::Read, name)?;
        let answer = read_file(&self.system, self.alloc, name);
        if !matches!(answer, Err(FileRefusal::Failed)) {
            self.failed.strike();
        }
        answer
    }

    /// Makes the file, or cuts it, and writes all bytes. `Failed` comes where the system refuses to make or to write
    /// it, or a write takes nothing, and `NoMemory` where memory is refused. The system is called only once the record
    /// of failed calls has room for this one.
    fn write(&mut self, name: &str, bytes: &[u8]) -> Result<(), FileRefusal>
        ensures failed { self.new ≡ calls_after (write_call name.now) result self.old }
        ensures not_too_long { result ≢ Err FileRefusal.TooLong }
    {
        self.failed.enter(self.alloc, CallKind::Write, name)?;
        let answer = write_file(&self.system, name, bytes);
        if !matches!(answer, Err(FileRefusal::Failed)) {
            self.failed.strike();
        }
        answer
    }
}

fn read_file<R: rt::Files>(system: &R, alloc: Global, name: &str) -> Result<Vec<u8>, FileRefusal>
    ensures bounded { IfOk result (λ bytes. length bytes.items ≤ FILE_LIMIT) }
{
    let mut file = fs::open(system, name).map_err(refusal_of)?;
    read_all(alloc, &mut file)
}

fn write_file<R: rt::Files>(system: &R, name: &str, bytes: &[u8]) -> Result<(), FileRefusal>
    ensures not_too_long { result ≢ Err FileRefusal.TooLong }
{
    let mut file = fs::create(system, name).map_err(refusal_of)?;
    write_all(&mut file, bytes)
}
