//! The headers of method bodies (ECMA-335 II.25.4.1 to II.25.4.3).

ghost use Rattle.std.specs.Prelude.{◌≡◌, ◌≤◌, ◌<◌, ◌^◌, ◌+◌, length};
ghost use Rattle.pe_image.specs.Headers.{headers_of};
ghost use Rattle.cli_assembly.specs.Bodies.{body_at, fat_at, fat_header_at, header_at, has_cil, tiny_at};

use crate::body::Body;
use pe_image::Pe;
use rtr_bytes::{Span, u8_or_zero, u16_or_zero, u32_or_zero};

/// The two low bits of a tiny header.
const TINY_FORMAT: u8 = 2;
/// The two low bits of a fat header.
const FAT_FORMAT: u8 = 3;
/// MaxStack of a tiny header.
const TINY_MAX_STACK: u16 = 8;
/// The bytes of a fat header.
const FAT_SIZE: u32 = 12;
/// The size of a fat header in words, as it says itself.
const FAT_WORDS: u16 = 3;
/// CorILMethod_MoreSects, a flag of a fat header.
const MORE_SECTS: u16 = 0x08;
/// The low bits of ImplFlags that are the code type and whether it is unmanaged (ECMA-335 II.23.1.11).
const CODE_TYPES: u32 = 8;

/// What is at the RVA of a method.
#[derive(Clone, Copy, Debug, PartialEq, Eq)]
pub(crate) enum BodyAt {
    /// A body, with its header and its code in a section.
    Placed(Body),
    /// A header at a file offset that is neither tiny nor fat of 3 words.
    Malformed(u32),
    /// The header or the code is not in a section.
    Unplaced,
}

/// Whether a row of MethodDef has CIL: its RVA isn't 0, and its code is IL and managed.
pub(crate) fn has_cil(rva: u32, impl_flags: u32) -> bool
    ensures { result ≡ has_cil rva impl_flags }
{
    rva != 0 && impl_flags % CODE_TYPES == 0
}

/// What is at the RVA of a tiny header, by its byte.
#[tactic(auto, unfolding(crate::specs::Bodies::tiny_at))]
fn tiny_at(bytes: &[u8], pe: &Pe, rva: u32, first: u8) -> BodyAt
    requires pe { pe.now ≡ headers_of bytes.now }
    ensures { result ≡ tiny_at bytes.now rva first }
{
    let len = u32::from(first / 4);
    let Some(at) = pe.slice_of_rva(rva, 1 + len) else {
        return BodyAt::Unplaced;
    };
    BodyAt::Placed(Body {
        max_stack: TINY_MAX_STACK,
        locals: 0,
        code: Span { start: at + 1, len },
        more: false,
    })
}

/// What is at the RVA of a fat header, by the file offset of its 12 bytes.
fn fat_header_at(bytes: &[u8], pe: &Pe, rva: u32, header: u32) -> BodyAt
    requires small { length bytes.now ≤ 2 ^ 31 }
    requires pe { pe.now ≡ headers_of bytes.now }
    requires some { 0 < rva }
    requires fits { header + 12 < 2 ^ 32 }
    ensures { result ≡ fat_header_at bytes.now rva header }
{
    let flags = u16_or_zero(bytes, header);
    if flags / 0x1000 != FAT_WORDS {
        return BodyAt::Malformed(header);
    }
    let len = u32_or_zero(bytes, header + 4);
    let Some(whole) = FAT_SIZE.checked_add(len) else {
        return BodyAt::Unplaced;
    };
    let Some(at) = pe.slice_of_rva(rva, whole) else {
        return BodyAt::Unplaced;
    };
    BodyAt::Placed(Body {
        max_stack: u16_or_zero(bytes, header + 2),
        locals: u32_or_zero(bytes, header + 8),
        code: Span {
            start: at + FAT_SIZE,
            len,
        },
        more: flags / MORE_SECTS % 2 == 1,
    })
}

/// What is at the RVA of a fat header.
#[tactic(auto, unfolding(crate::specs::Bodies::fat_at))]
fn fat_at(bytes: &[u8], pe: &Pe, rva: u32) -> BodyAt
    requires small { length bytes.now ≤ 2 ^ 31 }
    requires pe { pe.now ≡ headers_of bytes.now }
    requires some { 0 < rva }
    ensures { result ≡ fat_at bytes.now rva }
{
    match pe.slice_of_rva(rva, FAT_SIZE) {
        Some(header) => fat_header_at(bytes, pe, rva, header),
        None => BodyAt::Unplaced,
    }
}

/// What is at an RVA that isn't 0.
#[tactic(auto, unfolding(crate::specs::Bodies::body_at))]
pub(crate) fn body_at(bytes: &[u8], pe: &Pe, rva: u32) -> BodyAt
    requires small { length bytes.now ≤ 2 ^ 31 }
    requires pe { pe.now ≡ headers_of bytes.now }
    requires some { 0 < rva }
    ensures { result ≡ body_at bytes.now rva }
{
    let Some(at) = pe.slice_of_rva(rva, 1) else {
        return BodyAt::Unplaced;
    };
    let first = u8_or_zero(bytes, at);
    match first % 4 {
        TINY_FORMAT => tiny_at(bytes, pe, rva, first),
        FAT_FORMAT => fat_at(bytes, pe, rva),
        _ => BodyAt::Malformed(at),
    }
}
