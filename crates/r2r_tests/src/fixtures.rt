//! Files that are made from texts, and what commands over them come to.

use r2r_commands::r2r;
use rtr_outside::{MemFiles, MemSink, OpenGate};
use std::alloc::Global;
use std::process::Abort;
use std::str;
use std::test::Fail;
use std::thread::Threads;
use test_files::{file_of, put_piece};

/// The room of an output that nothing is cut short in.
pub(crate) const ROOM: u32 = 4_000;

/// The words of a command line.
pub(crate) fn words_of(alloc: Global, line: &str) -> Result<Vec<String>, Fail> {
    let mut words = Vec::new(alloc);
    for word in line.split_whitespace() {
        words.push(String::from_str(alloc, word)?)?;
    }
    Ok(words)
}

/// Files with one of this name.
pub(crate) fn one_file(alloc: Global, name: &str, bytes: Vec<u8>) -> Result<MemFiles, Fail> {
    let mut files = Vec::new(alloc);
    files.push((String::from_str(alloc, name)?, bytes))?;
    Ok(MemFiles::new(alloc, files, Vec::new(alloc)))
}

/// The status of a command line over files, and after it what is written to an output of this room.
pub(crate) fn answer_of<R: Threads + Sync>(
    rt: &R,
    alloc: Global,
    files: &mut MemFiles,
    room: u32,
    line: &str,
) -> Result<String, Fail> {
    let words = words_of(alloc, line)?;
    let mut out = MemSink::new(alloc, room, Vec::new(alloc))?;
    let status = r2r(rt, alloc, &words, files, &mut out, &OpenGate);
    let text = str::from_utf8(out.bytes())?;
    Ok(format!(in alloc; "{status} {text}")?)
}

/// Runs a command line over a file T, and expects a status and what is written.
pub(crate) fn expect<R: Threads + Sync + Abort>(
    rt: &R,
    alloc: Global,
    line: &str,
    bytes: Vec<u8>,
    answer: &str,
) -> Result<(), Fail> {
    let mut files = one_file(alloc, "T", bytes)?;
    let found = answer_of(rt, alloc, &mut files, ROOM, line)?;
    assert_eq!(rt; found.as_str(), answer, "{line}");
    Ok(())
}

/// Runs each line of a transcript that begins with `>`, and expects the transcript: after such a line is the status, and then what the
/// command writes.
pub(crate) fn expect_transcript<R: Threads + Sync + Abort>(
    rt: &R,
    alloc: Global,
    files: &mut MemFiles,
    room: u32,
    transcript: &str,
) -> Result<(), Fail> {
    let mut found = String::new(alloc);
    for line in transcript.lines() {
        if let Some(command) = line.strip_prefix('>') {
            let answer = answer_of(rt, alloc, files, room, command)?;
            found.push_str(&format!(in alloc; "{line}\n{answer}")?)?;
        }
    }
    assert_eq!(rt; found.as_str(), transcript);
    Ok(())
}

/// The answer of a dump of a file with these pieces. A row is the file's length, and what is written over the pieces.
fn dumped<R: Threads + Sync>(
    rt: &R,
    alloc: Global,
    pieces: &[&str],
    row: &str,
) -> Result<String, Fail> {
    let (len, changes) = row.split_once(' ').unwrap_or((row, ""));
    let mut bytes = file_of(alloc, len.parse::<usize>()?, pieces)?;
    put_piece(alloc, &mut bytes, changes)?;
    let mut files = one_file(alloc, "T", bytes)?;
    answer_of(rt, alloc, &mut files, ROOM, "dump T")
}

/// Dumps the files of a transcript: each line that begins with `> ` is a row of [`dumped`], and after it is the answer, with `..` for
/// these last lines.
pub(crate) fn expect_dumps<R: Threads + Sync + Abort>(
    rt: &R,
    alloc: Global,
    pieces: &[&str],
    last: &str,
    transcript: &str,
) -> Result<(), Fail> {
    let mut found = String::new(alloc);
    for line in transcript.lines() {
        if let Some(row) = line.strip_prefix("> ") {
            let answer = dumped(rt, alloc, pieces, row)?;
            match answer.strip_suffix(last) {
                Some(text) => found.push_str(&format!(in alloc; "{line}\n{text}..\n")?)?,
                None => found.push_str(&format!(in alloc; "{line}\n{answer}")?)?,
            }
        }
    }
    assert_eq!(rt; found.as_str(), transcript);
    Ok(())
}
