//! Examples of each call of `rtr_outside`, and what no clause shows: what real files and real outputs keep, what they answer to the
//! system's errors, and how much is read.

use rtr_outside::{
    FILE_LIMIT, FileRefusal, Files, Gate, MemFiles, MemSink, OpenGate, RealFiles, RealSink, Sink,
    SinkFailed, SureFiles, SureSink, Text,
};
use std::alloc::{AllocError, Allocator, Global};
use std::cell::Cell;
use std::fs::{Metadata, OpenFile, OpenOptions};
use std::process::Abort;
use std::test::Fail;
use std::{fs, io, rt};

/// Files of these names and bytes.
fn entries(alloc: Global, files: &[(&str, &[u8])]) -> Result<Vec<(String, Vec<u8>)>, AllocError> {
    let mut entries = Vec::new(alloc);
    for (name, bytes) in files {
        entries.push((
            String::from_str(alloc, name)?,
            Vec::from_slice(alloc, bytes)?,
        ))?;
    }
    Ok(entries)
}

/// Reads a file, and expects these bytes or this refusal.
fn reads<F: Files>(rt: &impl Abort, files: &mut F, name: &str, wanted: Result<&[u8], FileRefusal>) {
    let same = match (files.read(name), wanted) {
        (Ok(bytes), Ok(wanted)) => bytes.as_slice() == wanted,
        (Err(refusal), Err(wanted)) => refusal == wanted,
        _ => false,
    };
    assert!(rt; same, "reading {name}");
}

/// Writes a file, and expects this answer.
fn writes<F: Files>(
    rt: &impl Abort,
    files: &mut F,
    name: &str,
    bytes: &[u8],
    wanted: Result<(), FileRefusal>,
) {
    assert!(rt; files.write(name, bytes) == wanted, "writing {name}");
}

/// Writes a piece, and expects this answer.
fn puts<S: Sink>(rt: &impl Abort, sink: &mut S, piece: &[u8], wanted: Result<usize, SinkFailed>) {
    assert!(rt; sink.write(piece) == wanted, "at {piece:?}");
}

#[test]
fn files_in_memory(rt: HostRuntime) -> Result<(), Fail> {
    let alloc = rt.alloc();
    let files = entries(alloc, &[("a", b"one"), ("b", b"")])?;
    let mut files = MemFiles::new(alloc, files, vec![in alloc; 3u32, 4]?);
    reads(&rt, &mut files, "a", Ok(b"one"));
    reads(&rt, &mut files, "c", Err(FileRefusal::Failed));
    writes(&rt, &mut files, "b", b"two", Ok(()));
    writes(&rt, &mut files, "b", b"three", Err(FileRefusal::Failed));
    reads(&rt, &mut files, "a", Err(FileRefusal::Failed));
    writes(&rt, &mut files, "c", b"four", Ok(()));
    for (name, bytes) in [("a", b"one".as_slice()), ("b", b"two"), ("c", b"four")] {
        reads(&rt, &mut files, name, Ok(bytes));
        assert!(rt; files.get(name) == Some(bytes));
    }
    assert!(rt; files.get("").is_none());
    Ok(())
}

#[test]
fn files_that_never_fail(rt: HostRuntime) -> Result<(), Fail> {
    let mut files = SureFiles::new(rt.alloc(), entries(rt.alloc(), &[("a", b"one")])?);
    reads(&rt, &mut files, "b", Ok(b""));
    writes(&rt, &mut files, "b", b"two", Ok(()));
    reads(&rt, &mut files, "a", Ok(b"one"));
    reads(&rt, &mut files, "b", Ok(b"two"));
    Ok(())
}

#[test]
fn sinks_in_memory(rt: HostRuntime) -> Result<(), Fail> {
    let alloc = rt.alloc();
    let mut sink = MemSink::new(alloc, 10, vec![in alloc; 1u32, 2]?)?;
    for (piece, answer) in [
        (b"abcdefg".as_slice(), Ok(7)),
        (b"h", Err(SinkFailed)),
        (b"", Ok(0)),
        (b"hijkl", Ok(3)),
        (b"kl", Err(SinkFailed)),
        (b"", Ok(0)),
    ] {
        puts(&rt, &mut sink, piece, answer);
    }
    assert!(rt; sink.bytes() == b"abcdefghij".as_slice());
    puts(&rt, &mut SureSink::new(), b"abc", Ok(3));
    OpenGate.before_bind(0);
    Ok(())
}

/// A writer that takes at most two bytes of a piece, nothing of `-`, fails at `!`, finds no memory at `~`, and fails to
/// flush `?`.
#[derive(Drop)]
struct Narrow {
    last: u8,
}

impl io::Write for Narrow {
    fn write(&mut self, buf: &[u8]) -> io::Result<usize> {
        self.last = buf.first().copied().unwrap_or(0);
        match self.last {
            b'-' => Ok(0),
            b'!' => Err(io::Error::from(io::ErrorKind::BrokenPipe)),
            b'~' => Err(io::Error::from(io::ErrorKind::OutOfMemory)),
            _ => Ok(buf.len().min(2)),
        }
    }

    fn flush(&mut self) -> io::Result<()> {
        if self.last == b'?' {
            return Err(io::Error::from(io::ErrorKind::BrokenPipe));
        }
        Ok(())
    }
}

#[test]
fn sinks_of_the_system(rt: HostRuntime) {
    let mut sink = RealSink::new(Narrow { last: 0 });
    for (piece, answer) in [
        (b"".as_slice(), Ok(0)),
        (b"a", Ok(1)),
        (b"abc", Ok(2)),
        (b"-", Err(SinkFailed)),
        (b"!", Err(SinkFailed)),
        (b"~", Err(SinkFailed)),
        (b"?", Err(SinkFailed)),
    ] {
        puts(&rt, &mut sink, piece, answer);
    }
    puts(&rt, &mut RealSink::new(io::writer(&rt)), b"\n", Ok(1));
}

#[test]
fn files_of_the_system(rt: HostRuntime) -> Result<(), Fail> {
    let (folder, name) = ("rtr_outside_test", "rtr_outside_test/one");
    let _ = fs::remove_dir_all(&rt, folder);
    fs::create_dir(&rt, folder)?;
    let mut files = RealFiles::new(rt.alloc(), &rt);
    reads(&rt, &mut files, name, Err(FileRefusal::Failed));
    reads(&rt, &mut files, folder, Err(FileRefusal::Failed));
    writes(&rt, &mut files, folder, b"one", Err(FileRefusal::Failed));
    writes(&rt, &mut files, name, b"longer", Ok(()));
    writes(&rt, &mut files, name, b"one", Ok(()));
    reads(&rt, &mut files, name, Ok(b"one"));
    let long = vec![in rt.alloc(); 7u8; FILE_LIMIT + 1]?;
    writes(&rt, &mut files, name, &long, Ok(()));
    reads(&rt, &mut files, name, Err(FileRefusal::TooLong));
    writes(&rt, &mut files, name, &long[1..], Ok(()));
    reads(&rt, &mut files, name, Ok(&long[1..]));
    fs::remove_dir_all(&rt, folder)?;
    Ok(())
}

/// A file that reads as some bytes, and counts those that it gave, or fails with an error of a kind; it is written as [`Narrow`] is.
#[derive(Drop)]
struct Odd<'a> {
    left: usize,
    fails: Option<io::ErrorKind>,
    given: &'a Cell<usize>,
    narrow: Narrow,
}

impl io::Read for Odd<'_> {
    fn read(&mut self, buf: &mut [u8]) -> io::Result<usize> {
        if let Some(kind) = self.fails {
            return Err(io::Error::from(kind));
        }
        let taken = buf.len().min(self.left);
        self.left -= taken;
        self.given.set(self.given.get().saturating_add(taken));
        Ok(taken)
    }
}

impl io::Write for Odd<'_> {
    fn write(&mut self, buf: &[u8]) -> io::Result<usize> {
        self.narrow.write(buf)
    }

    fn flush(&mut self) -> io::Result<()> {
        self.narrow.flush()
    }
}

impl io::Seek for Odd<'_> {
    fn seek(&mut self, _to: io::SeekFrom) -> io::Result<u64> {
        unsupported()
    }
}

impl OpenFile for Odd<'_> {
    fn metadata(&self) -> io::Result<Metadata> {
        unsupported()
    }

    fn set_len(&self, _size: u64) -> io::Result<()> {
        unsupported()
    }

    fn sync_all(&self) -> io::Result<()> {
        unsupported()
    }

    fn sync_data(&self) -> io::Result<()> {
        unsupported()
    }
}

/// A system whose files are [`Odd`], each as its name says, which counts the calls that open one, and the bytes that are read.
#[derive(Drop)]
struct System<'a> {
    tries: &'a Cell<u32>,
    given: &'a Cell<usize>,
}

/// The answer of a call that no test makes.
fn unsupported<T>() -> io::Result<T> {
    Err(io::Error::from(io::ErrorKind::Unsupported))
}

/// How many bytes a file of this name has, and the kind of the error of its reads.
fn reading_of(name: &str) -> Option<(usize, Option<io::ErrorKind>)> {
    match name {
        "limit" => Some((FILE_LIMIT, None)),
        "above" => Some((FILE_LIMIT + 1, None)),
        "endless" => Some((usize::MAX, None)),
        "full" => Some((0, Some(io::ErrorKind::OutOfMemory))),
        "broken" => Some((0, Some(io::ErrorKind::BrokenPipe))),
        _ => None,
    }
}

impl<'a> rt::Files for System<'a> {
    type File = Odd<'a>;

    type Dir = fs::File;

    /// A file is there where its name has a reading. The name `memory` finds no memory, any other is interrupted.
    fn open_file(&self, _how: &OpenOptions, path: &str) -> io::Result<Odd<'a>> {
        self.tries.set(self.tries.get().saturating_add(1));
        match reading_of(path) {
            Some((left, fails)) => Ok(Odd {
                left,
                fails,
                given: self.given,
                narrow: Narrow { last: 0 },
            }),
            None if path == "memory" => Err(io::Error::from(io::ErrorKind::OutOfMemory)),
            None => Err(io::Error::from(io::ErrorKind::Interrupted)),
        }
    }

    fn open_dir(&self, _path: &str) -> io::Result<fs::File> {
        unsupported()
    }

    fn metadata(&self, _path: &str) -> io::Result<Metadata> {
        unsupported()
    }

    fn symlink_metadata(&self, _path: &str) -> io::Result<Metadata> {
        unsupported()
    }

    fn copy(&self, _from: &str, _to: &str) -> io::Result<u64> {
        unsupported()
    }

    fn rename(&self, _from: &str, _to: &str) -> io::Result<()> {
        unsupported()
    }

    fn remove_file(&self, _path: &str) -> io::Result<()> {
        unsupported()
    }

    fn create_dir(&self, _path: &str) -> io::Result<()> {
        unsupported()
    }

    fn remove_dir(&self, _path: &str) -> io::Result<()> {
        unsupported()
    }

    fn remove_dir_all<B: Allocator>(&self, _alloc: B, _path: &str) -> io::Result<()> {
        unsupported()
    }
}

/// What a read of a file answers: the length of its bytes, or the refusal.
fn length_read(files: &mut impl Files, name: &str) -> Result<usize, FileRefusal> {
    match files.read(name) {
        Ok(bytes) => Ok(bytes.len()),
        Err(refusal) => Err(refusal),
    }
}

/// Names, each with what a read answers and how many bytes it took: up to one byte above the limit are read, errors of the kind
/// OutOfMemory are want of memory, and all others failed calls.
#[test]
fn reads_of_a_system(rt: HostRuntime) {
    for (name, answer, taken) in [
        ("limit", Ok(FILE_LIMIT), FILE_LIMIT),
        ("above", Err(FileRefusal::TooLong), FILE_LIMIT + 1),
        ("endless", Err(FileRefusal::TooLong), FILE_LIMIT + 1),
        ("full", Err(FileRefusal::NoMemory), 0),
        ("broken", Err(FileRefusal::Failed), 0),
        ("memory", Err(FileRefusal::NoMemory), 0),
        ("a", Err(FileRefusal::Failed), 0),
    ] {
        let (tries, given) = (Cell::new(0), Cell::new(0));
        let system = System {
            tries: &tries,
            given: &given,
        };
        let mut files = RealFiles::new(rt.alloc(), system);
        assert!(rt; length_read(&mut files, name) == answer, "{name}");
        assert_eq!(rt; given.get(), taken, "{name}");
        assert_eq!(rt; tries.get(), 1, "{name}");
    }
}

/// Names, each with bytes and what a write of them answers.
#[test]
fn writes_of_a_system(rt: HostRuntime) {
    let (tries, given) = (Cell::new(0), Cell::new(0));
    let system = System {
        tries: &tries,
        given: &given,
    };
    let mut files = RealFiles::new(rt.alloc(), system);
    for (name, bytes, answer) in [
        ("limit", b"".as_slice(), Ok(())),
        ("limit", b"abcde", Ok(())),
        ("limit", b"ab-", Err(FileRefusal::Failed)),
        ("limit", b"!", Err(FileRefusal::Failed)),
        ("limit", b"ab~", Err(FileRefusal::NoMemory)),
        ("memory", b"one", Err(FileRefusal::NoMemory)),
        ("a", b"one", Err(FileRefusal::Failed)),
    ] {
        writes(&rt, &mut files, name, bytes, answer);
    }
    assert_eq!(rt; tries.get(), 7);
}

/// The room for a call's record is taken before the call: where there is none, the system was not called. Run it with
/// `rt try --test --fail-alloc N -- room`, for N from 1 on, as scripts/check-program does.
#[test]
fn room_is_taken_before_the_call(rt: HostRuntime) {
    let (opened, given) = (Cell::new(0), Cell::new(0));
    let system = System {
        tries: &opened,
        given: &given,
    };
    let mut files = RealFiles::new(rt.alloc(), system);
    let mut tries = 0;
    if !matches!(files.read("a"), Err(FileRefusal::NoMemory)) {
        tries += 1;
    }
    assert_eq!(rt; opened.get(), tries);
    if !matches!(files.write("a", b"one"), Err(FileRefusal::NoMemory)) {
        tries += 1;
    }
    assert_eq!(rt; opened.get(), tries);
}

#[test]
fn text_in_the_making(rt: HostRuntime) -> Result<(), Fail> {
    let alloc = rt.alloc();
    let mut text = Text::new(alloc);
    text.words("words")?;
    text.byte(b',')?;
    text.bytes(b" bytes")?;
    text.decimal(" ", 18_446_744_073_709_551_615)?;
    text.hex16(" ", 0xA)?;
    text.hex32(" ", 0xB00)?;
    text.hex(alloc, " ", &[0, 0xFE])?;
    text.name(" ", "a\tname\u{7f}")?;
    let wanted = "words, bytes 18446744073709551615 000a 00000b00 00fe a?name?";
    assert_eq!(rt; text.as_slice(), wanted.as_bytes());
    Ok(())
}
