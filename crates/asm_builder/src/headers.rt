//! Numbers in a row, and the headers of a built file (PE/COFF 2 to 4, ECMA-335 II.24.2.1 and II.25.3.3).

ghost use Rattle.std.specs.Prelude.{◌≡◌, ◌+◌, ◌^◌, ◌++◌, ◌<◌, ◌≤◌, IsTrue, OnOk};
ghost use Rattle.byteorder.specs.Endian.{little_bytes};
ghost use Rattle.pe_image.specs.Places.{aligned};
ghost use Rattle.pe_image.specs.Pieces.{fields_bytes, section_bytes};
ghost use Rattle.asm_builder.specs.Numbers.{are_narrow, numbers_bytes};
ghost use Rattle.asm_builder.specs.File.{characteristics, coff_fields, directory_fields, image_size, optional_fields, root_bytes, text_section};

use rtr_bytes::NoMemory;

/// Where the section is in the file, and the unit of raw bytes.
pub(crate) const SECTION_AT: u32 = 512;
/// Where the section is in the image, and the unit of sections there.
pub(crate) const SECTION_RVA: u32 = 0x2000;
/// The bytes of the CLI header.
pub(crate) const CLI_HEADER_SIZE: u32 = 72;
/// How far the first stream is from the metadata root.
pub(crate) const FIRST_STREAM: u32 = 108;

/// A number, and in how many bytes it is written.
#[derive(Clone, Copy)]
pub(crate) struct Number {
    width: u8,
    value: u64,
}

pub(crate) fn one(value: u8) -> Number
    ensures { result ≡ record { width = 1; value = value } }
{
    Number {
        width: 1,
        value: u64::from(value),
    }
}

pub(crate) fn two(value: u16) -> Number
    ensures { result ≡ record { width = 2; value = value } }
{
    Number {
        width: 2,
        value: u64::from(value),
    }
}

pub(crate) fn four(value: u32) -> Number
    ensures { result ≡ record { width = 4; value = value } }
{
    Number {
        width: 4,
        value: u64::from(value),
    }
}

pub(crate) fn eight(value: u64) -> Number
    ensures { result ≡ record { width = 8; value = value } }
{
    Number { width: 8, value }
}

/// Appends the low bytes of a number, lowest first.
pub(crate) fn put_number(out: &mut Vec<u8>, width: u8, value: u64) -> Result<(), NoMemory>
    requires { width ≤ 8 }
    ensures { OnOk result (out.new.items ≡ out.old.items ++ little_bytes width value) }
{
    out.extend_from_slice(&value.to_le_bytes()[..usize::from(width)])?;
    Ok(())
}

/// Appends numbers one after the other.
pub(crate) fn put_numbers(out: &mut Vec<u8>, numbers: &[Number]) -> Result<(), NoMemory>
    requires { IsTrue (are_narrow numbers.now) }
    ensures { OnOk result (out.new.items ≡ out.old.items ++ numbers_bytes numbers.now) }
{
    for n in numbers {
        put_number(out, n.width, n.value)?;
    }
    Ok(())
}

/// A size as a multiple of a unit.
pub(crate) fn aligned(unit: u32, size: u32) -> u32
    requires unit { 0 < unit }
    requires small { size + unit < 2 ^ 32 }
    ensures { result ≡ aligned unit size }
{
    size.next_multiple_of(unit)
}

/// Characteristics: an executable image of 32 bits, and a library where there is no entry (PE/COFF 3.3.2).
fn characteristics(entry: u32) -> u16
    ensures { result ≡ characteristics entry }
{
    if entry == 0 { 0x2102 } else { 0x0102 }
}

/// SizeOfImage, for a section of some size.
fn image_size(size: u32) -> u32
    requires { size ≤ 2 ^ 26 }
    ensures { result ≡ image_size size }
{
    SECTION_RVA + aligned(SECTION_RVA, size)
}

/// Appends the MS-DOS header, the PE signature and the COFF header.
pub(crate) fn put_coff(out: &mut Vec<u8>, entry: u32) -> Result<(), NoMemory>
    ensures { OnOk result (out.new.items ≡ out.old.items ++ fields_bytes (coff_fields entry)) }
{
    put_numbers(
        out,
        &[
            two(0x5A4D),
            two(0),
            eight(0),
            eight(0),
            eight(0),
            eight(0),
            eight(0),
            eight(0),
            eight(0),
            four(64),
            four(0x4550),
            two(0x014C),
            two(1),
            four(0),
            four(0),
            four(0),
            two(224),
            two(characteristics(entry)),
        ],
    )
}

/// Appends the optional header up to its data directories, for a section of some size.
pub(crate) fn put_optional(out: &mut Vec<u8>, size: u32) -> Result<(), NoMemory>
    requires { size ≤ 2 ^ 26 }
    ensures { OnOk result (out.new.items ≡ out.old.items ++ fields_bytes (optional_fields size)) }
{
    put_numbers(
        out,
        &[
            two(0x10B),
            one(8),
            one(0),
            four(aligned(SECTION_AT, size)),
            four(0),
            four(0),
            four(0),
            four(SECTION_RVA),
            four(0),
            four(0x40_0000),
            four(SECTION_RVA),
            four(SECTION_AT),
            two(4),
            two(0),
            two(0),
            two(0),
            two(4),
            two(0),
            four(0),
            four(image_size(size)),
            four(SECTION_AT),
            four(0),
            two(3),
            two(0x8540),
            four(0x10_0000),
            four(0x1000),
            four(0x10_0000),
            four(0x1000),
            four(0),
            four(16),
        ],
    )
}

/// Appends the sixteen data directories.
pub(crate) fn put_directories(out: &mut Vec<u8>) -> Result<(), NoMemory>
    ensures { OnOk result (out.new.items ≡ out.old.items ++ fields_bytes directory_fields) }
{
    let zero = eight(0);
    put_numbers(
        out,
        &[
            zero,
            zero,
            zero,
            zero,
            zero,
            zero,
            zero,
            zero,
            zero,
            zero,
            zero,
            zero,
            zero,
            zero,
            four(SECTION_RVA),
            four(CLI_HEADER_SIZE),
            zero,
        ],
    )
}

/// Appends the header of the one section.
pub(crate) fn put_section(out: &mut Vec<u8>, size: u32) -> Result<(), NoMemory>
    requires { size ≤ 2 ^ 26 }
    ensures { OnOk result (out.new.items ≡ out.old.items ++ section_bytes (text_section size)) }
{
    out.extend_from_slice(b".text\0\0\0")?;
    put_numbers(
        out,
        &[
            four(size),
            four(SECTION_RVA),
            four(aligned(SECTION_AT, size)),
            four(SECTION_AT),
            four(0),
            four(0),
            two(0),
            two(0),
            four(0x6000_0020),
        ],
    )
}

/// Appends the metadata root up to its stream headers.
pub(crate) fn put_root(out: &mut Vec<u8>) -> Result<(), NoMemory>
    ensures { OnOk result (out.new.items ≡ out.old.items ++ root_bytes) }
{
    put_numbers(out, &[four(0x424A_5342), two(1), two(1), four(0), four(12)])?;
    out.extend_from_slice(b"v4.0.30319\0\0")?;
    put_numbers(out, &[two(0), two(5)])
}
