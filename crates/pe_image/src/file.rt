//! A file's bytes, and the numbers in them by their place.

ghost use Rattle.std.specs.Prelude.{◌≡◌, ◌+◌, ◌≤◌, ◌^◌, length, take, drop};
ghost use Rattle.rtr_bytes.specs.Field.{u16_of, u32_of};

use rtr_bytes::{u16_or_zero, u32_or_zero};
use std::marker::Model;

/// A file's bytes. There are at most 2^31, so that each place in them, and each place one header after their end, is a `u32`.
#[derive(Drop)]
pub(crate) struct FileBytes<'a> {
    bytes: &'a [u8],
}

impl<'a> Model for FileBytes<'a> {
    ghost use Rattle.std.specs.Prelude.{ℕ, List, ◌≤◌, ◌^◌, length};

    ghost Value = { List ℕ };

    ghost view = { λ f. f.bytes.now };

    ghost invariant = { λ f. length f.bytes.now ≤ 2 ^ 31 };
}

impl<'a> FileBytes<'a> {
    /// The bytes of a file.
    pub(crate) fn new(bytes: &'a [u8]) -> FileBytes<'a>
        requires { length bytes.now ≤ 2 ^ 31 }
        ensures { result ≡ bytes.now }
    {
        FileBytes { bytes }
    }

    /// How many bytes there are.
    pub(crate) fn len(&self) -> u32
        ensures length { result ≡ length self.now }
        ensures small { length self.now ≤ 2 ^ 31 }
    {
        self.bytes.len() as u32
    }

    /// The 16-bit number at a place, and 0 where its bytes pass the end.
    pub(crate) fn u16(&self, at: u32) -> u16
        ensures { result ≡ u16_of self.now at }
    {
        u16_or_zero(self.bytes, at)
    }

    /// The 32-bit number at a place, and 0 where its bytes pass the end.
    pub(crate) fn u32(&self, at: u32) -> u32
        ensures number { result ≡ u32_of self.now at }
        ensures small { length self.now ≤ 2 ^ 31 }
    {
        u32_or_zero(self.bytes, at)
    }

    /// The eight bytes at a place.
    pub(crate) fn eight(&self, at: u32) -> [u8; 8]
        requires { at + 8 ≤ length self.now }
        ensures bytes { result ≡ take 8 (drop at self.now) }
        ensures small { length self.now ≤ 2 ^ 31 }
    {
        let mut eight = [0; 8];
        let place = at as usize;
        eight.copy_from_slice(&self.bytes[place..place + 8]);
        eight
    }
}
