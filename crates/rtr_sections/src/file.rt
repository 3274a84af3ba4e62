//! A file with its PE headers.

ghost use Rattle.std.specs.Prelude.{◌≡◌, ◌+◌, ◌≤◌, ◌<◌, ◌^◌, ℕ, List, length, drop, slice_index, IfSome, unwrap_or};
ghost use Rattle.rtr_bytes.specs.Field.{field_at, u16_of, u32_of};
ghost use Rattle.pe_image.specs.Headers.{cli_at, headers_of, machine_of, native_of, place_of};
ghost use Rattle.rtr_sections.specs.Entries.{bytes_in};

use pe_image::Pe;
use rtr_bytes::{Span, u8_or_zero, u16_or_zero, u32_or_zero, u64_at};
use std::marker::Model;

/// A file's bytes and its PE headers, which are those of these bytes. Contracts see the bytes.
#[derive(Drop)]
pub(crate) struct File<'a> {
    bytes: &'a [u8],
    pe: &'a Pe,
}

impl<'a> Model for File<'a> {
    ghost Value = { List ℕ };

    ghost view = { λ f. f.bytes.now };

    ghost invariant = { λ f. (length f.bytes.now ≤ 2 ^ 31) × (f.pe.now ≡ headers_of f.bytes.now) };
}

impl<'a> File<'a> {
    pub(crate) fn new(bytes: &'a [u8], pe: &'a Pe) -> File<'a>
        requires small { length bytes.now ≤ 2 ^ 31 }
        requires pe { pe.now ≡ headers_of bytes.now }
        ensures { result ≡ bytes.now }
    {
        File { bytes, pe }
    }

    /// All of its bytes.
    pub(crate) fn bytes(&self) -> &[u8]
        ensures bytes { result.now ≡ self.now }
        ensures small { length result.now ≤ 2 ^ 31 }
    {
        self.bytes
    }

    /// The bytes from a file offset on, none after the end.
    pub(crate) fn tail(&self, at: u32) -> &[u8]
        ensures bytes { result.now ≡ drop at self.now }
        ensures small { length result.now ≤ 2 ^ 31 }
    {
        let at = at as usize;
        if at <= self.bytes.len() {
            &self.bytes[at..]
        } else {
            &[]
        }
    }

    /// The bytes of a part.
    pub(crate) fn part(&self, part: Span) -> &[u8]
        ensures bytes { result.now ≡ bytes_in self.now part }
        ensures small { length result.now ≤ 2 ^ 31 }
    {
        let tail = self.tail(part.start);
        let len = part.len as usize;
        if len <= tail.len() {
            &tail[..len]
        } else {
            tail
        }
    }

    /// The byte at a file offset, and 0 after the end.
    pub(crate) fn u8_or_zero(&self, at: u32) -> u8
        ensures { result ≡ slice_index self.now at }
    {
        u8_or_zero(self.bytes, at)
    }

    /// The 16-bit number at a file offset, and 0 where it passes the end.
    pub(crate) fn u16_or_zero(&self, at: u32) -> u16
        ensures { result ≡ u16_of self.now at }
    {
        u16_or_zero(self.bytes, at)
    }

    /// The 32-bit number at a file offset, and 0 where it passes the end.
    pub(crate) fn u32_or_zero(&self, at: u32) -> u32
        ensures { result ≡ u32_of self.now at }
    {
        u32_or_zero(self.bytes, at)
    }

    /// The 64-bit number at a file offset, and 0 where it passes the end.
    pub(crate) fn u64_or_zero(&self, at: u32) -> u64
        ensures { result ≡ unwrap_or (field_at 8 self.now at) 0 }
    {
        u64_at(self.bytes, at).unwrap_or(0)
    }

    /// The file offset of a range of RVAs, `None` where no section of the file has it.
    pub(crate) fn place_of(&self, rva: u32, len: u32) -> Option<u32>
        ensures place { result ≡ place_of self.now rva len }
        // It ends at a file offset of 32 bits.
        ensures in_reach { IfSome result (λ at. at + len < 2 ^ 32) }
    {
        self.pe.slice_of_rva(rva, len)
    }

    /// Machine of the COFF header.
    pub(crate) fn machine(&self) -> u16
        ensures { result ≡ machine_of self.now }
    {
        self.pe.machine()
    }

    /// The file offset of the CLI header.
    pub(crate) fn cli_at(&self) -> u32
        ensures place { result ≡ cli_at self.now }
        ensures in_reach { result + 72 < 2 ^ 32 }
    {
        self.pe.cli().start
    }

    /// ManagedNativeHeader of the CLI header, an RVA and a size.
    pub(crate) fn native(&self) -> Option<Span>
        ensures { result ≡ native_of self.now }
    {
        self.pe.native()
    }
}
