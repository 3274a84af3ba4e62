//! Files from bytes at places.

ghost use Rattle.std.specs.Prelude.{◌≡◌, IfOk, length};

use std::alloc::Global;
use std::test::Fail;

/// A number in hexadecimal.
pub fn number(word: &str) -> Result<u32, Fail> {
    Ok(u32::from_str_radix(word, 16)?)
}

/// A file of `len` zeros with pieces written over it in order (see [`put_piece`]).
pub fn file_of(alloc: Global, len: usize, pieces: &[&str]) -> Result<Vec<u8>, Fail>
    ensures long { IfOk result (λ bytes. length bytes.items ≡ len) }
{
    let mut bytes = vec![in alloc; 0u8; len]?;
    for piece in pieces {
        put_piece(alloc, &mut bytes, piece)?;
    }
    Ok(bytes)
}

/// Writes a piece over a file. Its words are places, in decimal after `@`, and bytes in hexadecimal that are written from the last
/// place on, as often as a number after `*` says. Bytes after the end of the file are dropped.
pub fn put_piece(alloc: Global, bytes: &mut [u8], piece: &str) -> Result<(), Fail>
    ensures long { length bytes.new ≡ length bytes.old }
{
    let mut at = 0;
    for word in piece.split_whitespace() {
        match word.strip_prefix('@') {
            Some(place) => at = place.parse::<usize>()?,
            None => at = put_word(alloc, bytes, at, word)?,
        }
    }
    Ok(())
}

/// Writes bytes from a place on, as often as a word says, and gives the place after them.
fn put_word(alloc: Global, bytes: &mut [u8], at: usize, word: &str) -> Result<usize, Fail>
    ensures long { length bytes.new ≡ length bytes.old }
{
    let Some((piece, times)) = word.split_once('*') else {
        return put_hex(alloc, bytes, at, word);
    };
    let mut place = at;
    for _ in 0..times.parse::<usize>()? {
        place = put_hex(alloc, bytes, place, piece)?;
    }
    Ok(place)
}

/// Writes bytes from a place on, and gives the place after them.
fn put_hex(alloc: Global, bytes: &mut [u8], mut at: usize, word: &str) -> Result<usize, Fail>
    ensures long { length bytes.new ≡ length bytes.old }
{
    for byte in &hex::decode(alloc, word)? {
        if let Some(old) = bytes.get_mut(at) {
            *old = *byte;
        }
        at = at.saturating_add(1);
    }
    Ok(at)
}
