//! Compressed numbers at the front of a signature's bytes, and the shape of an array (ECMA-335 II.23.2.13).

ghost use Rattle.std.specs.Prelude.{◌≡◌, ◌≤◌, ◌<◌, ◌^◌, length, option_copied, IfSome};
ghost use Rattle.std.specs.Option.{option_map};
ghost use Rattle.rtr_bytes.specs.Compressed.{number_in};
ghost use Rattle.cli_assembly.specs.Types.{after_counted, after_items, after_number, after_shape};

use rtr_bytes::compressed_at;

/// The compressed number that bytes begin with, and the bytes after it.
pub(crate) fn number_in(bytes: &[u8]) -> Option<(u32, &[u8])>
    requires small { length bytes.now ≤ 2 ^ 31 }
    ensures found { option_map (λ found. (found.0, found.1.now)) result ≡ number_in bytes.now }
    ensures bounded { IfSome result (λ found. found.0 < 2 ^ 29) }
    ensures shorter { IfSome result (λ found. length found.1.now < length bytes.now) }
{
    let (value, next) = compressed_at(bytes, 0)?;
    Some((value, bytes.get(next as usize..)?))
}

/// The bytes after a compressed number.
pub(crate) fn after_number(bytes: &[u8]) -> Option<&[u8]>
    requires small { length bytes.now ≤ 2 ^ 31 }
    ensures after { option_copied result ≡ after_number bytes.now }
    ensures shorter { IfSome result (λ rest. length rest.now < length bytes.now) }
{
    let (_, rest) = number_in(bytes)?;
    Some(rest)
}

/// The bytes after so many compressed numbers.
fn after_numbers(bytes: &[u8], count: u32) -> Option<&[u8]>
    requires small { length bytes.now ≤ 2 ^ 31 }
    ensures after { option_copied result ≡ after_items after_number count bytes.now }
    ensures no_longer { IfSome result (λ rest. length rest.now ≤ length bytes.now) }
{
    let mut rest = bytes;
    for _ in 0..count {
        rest = after_number(rest)?;
    }
    Some(rest)
}

/// The bytes after a compressed count and so many compressed numbers.
fn after_counted_numbers(bytes: &[u8]) -> Option<&[u8]>
    requires small { length bytes.now ≤ 2 ^ 31 }
    ensures after { option_copied result ≡ after_counted after_number bytes.now }
    ensures shorter { IfSome result (λ rest. length rest.now < length bytes.now) }
{
    let (count, rest) = number_in(bytes)?;
    after_numbers(rest, count)
}

/// The bytes after the shape of an array: its rank, its sizes and its lower bounds.
pub(crate) fn after_shape(bytes: &[u8]) -> Option<&[u8]>
    requires small { length bytes.now ≤ 2 ^ 31 }
    ensures after { option_copied result ≡ after_shape bytes.now }
    ensures shorter { IfSome result (λ rest. length rest.now < length bytes.now) }
{
    let sizes = after_number(bytes)?;
    let bounds = after_counted_numbers(sizes)?;
    after_counted_numbers(bounds)
}
