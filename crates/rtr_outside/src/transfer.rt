//! Whole files, read from a reader and written to a writer.

ghost use Rattle.std.specs.Prelude.{◌≡◌, ◌≢◌, ◌≤◌, ◌<◌, ◌+◌, length, Ok, IfOk, IfSome, OnOk, IsErrOf};
ghost use Rattle.std.specs.Io.KnownBytes.{Appends, IsAtEnd};
ghost use Rattle.std.specs.IoError.{error_kind};
ghost use Rattle.rtr_outside.specs.Transfer.{AppendsRead, ConsumesAtMost, read_of, refusal_of, taken_of};

use crate::files::{FILE_LIMIT, FileRefusal};
use std::alloc::Global;
use std::io;
use std::io::{ErrorKind, Read, Write};

/// How many bytes are read at a time, at most.
const PIECE: usize = 65_536;

/// What an error of the system is to a call on a file: want of memory exactly where its kind is
/// [`ErrorKind::OutOfMemory`], and else a failed call.
pub(crate) fn refusal_of(error: io::Error) -> FileRefusal
    ensures refusal { result ≡ refusal_of (error_kind error) }
    ensures not_too_long { result ≢ FileRefusal.TooLong }
{
    if error.kind() == ErrorKind::OutOfMemory {
        FileRefusal::NoMemory
    } else {
        FileRefusal::Failed
    }
}

/// All that a reader has left, where that is at most [`FILE_LIMIT`] bytes. It reads at most one byte more.
pub(crate) fn read_all<F: Read>(alloc: Global, file: &mut F) -> Result<Vec<u8>, FileRefusal>
    ensures bytes { IfOk result (λ bytes. IfSome (F.remaining file.old) (λ left. bytes.items ≡ left)) }
    ensures bounded { IfOk result (λ bytes. length bytes.items ≤ FILE_LIMIT) }
    ensures too_long { IsErrOf result FileRefusal.TooLong →
        IfSome (F.remaining file.old) (λ left. FILE_LIMIT < length left) }
    ensures consumed { ConsumesAtMost (FILE_LIMIT + 1) (F.remaining file.old) (F.remaining file.new) }
{
    let mut piece = [0; PIECE];
    let mut bytes = Vec::new(alloc);
    while bytes.len() <= FILE_LIMIT {
        let most = PIECE.min(FILE_LIMIT + 1 - bytes.len());
        if read_piece(file, &mut piece[..most], &mut bytes)? == 0 {
            return Ok(bytes);
        }
    }
    Err(FileRefusal::TooLong)
}

/// Reads once, and appends what came. It answers how many bytes that is, 0 at the end alone.
fn read_piece<F: Read>(
    file: &mut F,
    piece: &mut [u8],
    bytes: &mut Vec<u8>,
) -> Result<usize, FileRefusal>
    requires { 0 < length piece.old }
    ensures bytes { IfOk result (λ n.
        AppendsRead n bytes.old.items bytes.new.items (F.remaining file.old) (F.remaining file.new)) }
    ensures bound { IfOk result (λ n. n ≤ length piece.old) }
    ensures end { IfOk result (λ n. n ≡ 0 → IsAtEnd (F.remaining file.new)) }
    ensures consumed { ConsumesAtMost (length piece.old) (F.remaining file.old) (F.remaining file.new) }
    ensures not_too_long { result ≢ Err FileRefusal.TooLong }
{
    let taken = read_of(file.read(piece))?;
    bytes.extend_from_slice(&piece[..taken])?;
    Ok(taken)
}

/// How many bytes a read gave, by its answer. `NoMemory` comes where its error's kind is [`ErrorKind::OutOfMemory`], and
/// `Failed` where it is another.
fn read_of(answer: io::Result<usize>) -> Result<usize, FileRefusal>
    ensures read { result ≡ read_of answer }
    ensures given { IfOk result (λ given. answer ≡ Ok given) }
    ensures not_too_long { result ≢ Err FileRefusal.TooLong }
{
    match answer {
        Ok(given) => Ok(given),
        Err(error) => Err(refusal_of(error)),
    }
}

/// Writes all bytes, as many at a time as the writer takes. A write that takes nothing is a failed call.
pub(crate) fn write_all<F: Write>(file: &mut F, bytes: &[u8]) -> Result<(), FileRefusal>
    ensures bytes { OnOk result (Appends (F.contents file.old) (F.contents file.new) bytes.now) }
    ensures not_too_long { result ≢ Err FileRefusal.TooLong }
{
    let mut rest = bytes;
    while !rest.is_empty() {
        let taken = taken_of(file.write(rest))?;
        rest = &rest[taken..];
    }
    Ok(())
}

/// How many bytes a write of some bytes took, by its answer. `Failed` comes where it took none, and where its error
/// is a failed call; `NoMemory` where the error's kind is [`ErrorKind::OutOfMemory`].
fn taken_of(answer: io::Result<usize>) -> Result<usize, FileRefusal>
    ensures taken { result ≡ taken_of answer }
    ensures some { IfOk result (λ taken. (answer ≡ Ok taken) × (0 < taken)) }
    ensures not_too_long { result ≢ Err FileRefusal.TooLong }
{
    match answer {
        Ok(0) => Err(FileRefusal::Failed),
        Ok(taken) => Ok(taken),
        Err(error) => Err(refusal_of(error)),
    }
}
