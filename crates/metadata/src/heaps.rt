//! Heaps by place: texts, blobs and user strings (ECMA-335 II.24.2.3 and II.24.2.4).

ghost use Rattle.std.specs.Prelude.{◌≡◌, ◌≤◌, ◌^◌, ◌==◌, length, drop, take, position, option_copied};
ghost use Rattle.metadata.specs.Heaps.{blob_in, front_if, heap_bytes, text_in, text_of, without_last};

use rtr_bytes::{Span, compressed_at};

/// The bytes from an offset on.
fn rest_of(bytes: &[u8], at: u32) -> &[u8]
    ensures { result.now ≡ drop at bytes.now }
{
    bytes.get(at as usize..).unwrap_or(&[])
}

/// The first bytes, as far as they are there.
fn front_of(bytes: &[u8], len: usize) -> &[u8]
    ensures { result.now ≡ take len bytes.now }
{
    bytes.get(..len).unwrap_or(bytes)
}

/// The first bytes, where they are all there.
fn front_if(bytes: &[u8], len: u32) -> Option<&[u8]>
    ensures { option_copied result ≡ front_if len bytes.now }
{
    let len = len as usize;
    if len <= bytes.len() {
        Some(front_of(bytes, len))
    } else {
        None
    }
}

/// The bytes of a heap, as far as they are there.
pub(crate) fn heap_of(bytes: &[u8], span: Span) -> &[u8]
    ensures { result.now ≡ heap_bytes bytes.now span }
{
    front_of(rest_of(bytes, span.start), span.len as usize)
}

/// Where the first zero is.
fn zero_in(bytes: &[u8]) -> Option<usize>
    ensures { result ≡ position (λ b. b == 0) bytes.now }
{
    bytes.iter().position(|byte| *byte == 0)
}

/// The bytes as a text, where they are UTF-8.
#[tactic(auto, using(crate::proofs::Text::utf8_so, crate::proofs::Text::utf8_not))]
fn text_of(bytes: &[u8]) -> Option<&str>
    ensures { option_copied result ≡ text_of bytes.now }
{
    match str::from_utf8(bytes) {
        Ok(text) => Some(text),
        Err(_) => None,
    }
}

/// The text at an offset of a heap.
pub(crate) fn text_at(heap: &[u8], at: u32) -> Option<&str>
    ensures { option_copied result ≡ text_in (drop at heap.now) }
{
    let rest = rest_of(heap, at);
    let len = zero_in(rest)?;
    text_of(front_of(rest, len))
}

/// The blob at an offset of a heap.
pub(crate) fn blob_at(heap: &[u8], at: u32) -> Option<&[u8]>
    requires { length heap.now ≤ 2 ^ 31 }
    ensures { option_copied result ≡ blob_in (drop at heap.now) }
{
    let (len, next) = compressed_at(heap, at)?;
    front_if(rest_of(heap, next), len)
}

/// The bytes but for the last, where their number is odd.
pub(crate) fn without_last(bytes: &[u8]) -> Option<&[u8]>
    ensures { option_copied result ≡ without_last bytes.now }
{
    let len = bytes.len();
    if len % 2 == 1 {
        Some(&bytes[..len - 1])
    } else {
        None
    }
}
