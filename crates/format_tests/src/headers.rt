//! PE files, read and written (`pe_image`).

use pe_image::{Pe, PeSection, can_write_pe, cod_rva, dat_rva, write_pe};
use rtr_bytes::{Fault, ReadRefusal, Span};
use std::alloc::Global;
use std::process::Abort;
use std::test::Fail;
use test_files::file_of;

/// A file of 1,792 bytes, zeros but for these: a place, and the bytes from there on. PE32 with two sections that overlap, a CLI
/// header and 20 bytes of metadata.
const NARROW: &str =
    "@0 4d 5a @60 40 @64 50 45 00 00 4c 01 02 @84 e0 00 00 00 0b 01 @121 10 @180 10 @200 34 12 00 00 08
@296 00 10 00 00 48 @312 2e 74 65 78 74 00 00 00 00 02 00 00 00 10 00 00 00 02 00 00 00 02 @348 20 00 00 60
@352 2e 6d 6f 72 65 00 00 00 00 03 00 00 00 11 00 00 00 03 00 00 00 04
@512 48 00 00 00 02 00 05 00 48 10 00 00 14 00 00 00 03 00 00 00 07 00 00 06 @576 01";

/// The second section without raw bytes, at a raw place after the file's end.
const EMPTY: &str = "@369 00 @374 01";

/// What the reader says of a file.
#[derive(Clone, Copy, PartialEq, Eq)]
struct Summary {
    machine: u16,
    wide: bool,
    cli: Span,
    metadata: Span,
    cli_flags: u32,
    entry_token: u32,
    native: Option<Span>,
    last_section: Option<PeSection>,
}

fn summary_of(pe: &Pe) -> Summary {
    Summary {
        machine: pe.machine(),
        wide: pe.wide(),
        cli: pe.cli(),
        metadata: pe.metadata(),
        cli_flags: pe.cli_flags(),
        entry_token: pe.entry_token(),
        native: pe.native(),
        last_section: pe.sections().last().copied(),
    }
}

fn read(alloc: Global, bytes: &[u8]) -> Result<Pe, ReadRefusal> {
    if bytes.len() > 1 << 31 {
        return Err(ReadRefusal::NoMemory);
    }
    Pe::read(alloc, bytes)
}

/// Expects the file places of ranges of RVAs: each row has an RVA, a length and the place, in decimal.
fn expect_places<R: Abort>(rt: &R, pe: &Pe, rows: &str) -> Result<(), Fail> {
    for row in rows.lines() {
        let mut words = row.split_whitespace();
        let rva = words.next().unwrap_or("").parse::<u32>()?;
        let len = words.next().unwrap_or("").parse::<u32>()?;
        let place = match words.next() {
            Some(word) => Some(word.parse::<u32>()?),
            None => None,
        };
        assert!(rt; pe.slice_of_rva(rva, len) == place, "{row}");
    }
    Ok(())
}

#[test]
fn reads_headers_and_finds_ranges(rt: HostRuntime) -> Result<(), Fail> {
    let bytes = file_of(rt.alloc(), 1792, &[NARROW])?;
    let pe = read(rt.alloc(), &bytes)
        .ok()
        .ok_or("the file is well formed")?;
    let expected = Summary {
        machine: 0x14C,
        wide: false,
        cli: Span {
            start: 512,
            len: 72,
        },
        metadata: Span {
            start: 584,
            len: 20,
        },
        cli_flags: 3,
        entry_token: 0x0600_0007,
        native: Some(Span { start: 1, len: 0 }),
        last_section: Some(PeSection {
            name: *b".more\0\0\0",
            virtual_size: 0x300,
            rva: 0x1100,
            raw_size: 0x300,
            raw_at: 0x400,
            flags: 0,
        }),
    };
    assert!(rt; summary_of(&pe) == expected);
    // In the first section, in both, in the second alone, at its end, after it, before all, and past 2^32.
    let rows = "4096 512 512
4352 256 768
4352 257 1024
5120 0 1792
5120 1
4095 1
4294967295 2";
    expect_places(&rt, &pe, rows)
}

#[test]
fn finds_ranges_in_a_long_table(rt: HostRuntime) -> Result<(), Fail> {
    let mut bytes = file_of(rt.alloc(), 0x8000, &[NARROW, LONG])?;
    // Sections of 256 bytes, one after the other, and the 21st lies over all but the first.
    for i in 0..40usize {
        let header = 312 + 40 * i;
        let (rva, size, place) = if i == 20 {
            (0x1100, 0x3000u32, 0x1000)
        } else {
            (0x1000 + 0x100 * i as u32, 0x100, 0x800 + i as u32)
        };
        put(&mut bytes, header + 12, rva);
        put(&mut bytes, header + 16, size);
        put(&mut bytes, header + 20, place);
    }
    let pe = read(rt.alloc(), &bytes)
        .ok()
        .ok_or("the file is well formed")?;
    assert_eq!(rt; pe.sections().len(), 40);
    // The 2nd section and the 21st hold it, the 21st and the 31st, the 21st alone, at its end, none.
    let rows = "4368 8 2065
11792 8 11536
4480 256 4224
16640 0 16384
16640 1";
    expect_places(&rt, &pe, rows)
}

/// Forty sections, with the CLI header in the first of them.
const LONG: &str =
    "@70 28 @512 00 00 00 00 00 00 00 00 00 00 00 00 00 00 00 00 00 00 00 00 00 00 00 00 @576 00 @2048 48 00 00 00 02 00 05 00 48 10 00 00 14";

/// Writes a number at a place.
fn put(bytes: &mut [u8], at: usize, value: u32) {
    for (i, byte) in value.to_le_bytes().iter().enumerate() {
        if let Some(old) = bytes.get_mut(at.saturating_add(i)) {
            *old = *byte;
        }
    }
}

#[test]
fn refuses_a_cut_file(rt: HostRuntime) -> Result<(), Fail> {
    let bytes = file_of(rt.alloc(), 1791, &[NARROW])?;
    let fault = Fault {
        check: 11,
        place: 372,
    };
    assert!(rt; read(rt.alloc(), &bytes).err() == Some(ReadRefusal::Malformed(fault)));
    Ok(())
}

/// The CLI header of the written file at 8, for metadata at RVA 0x1048.
const DAT: &str = "@0 ee ee ee ee ee ee ee ee 48 00 00 00 02 00 05 00 48 10 00 00 14 00 00 00 04";

/// The written file: headers, section headers, the first section's raw bytes, and the two new parts.
const WRITTEN: &str =
    "@0 4d 5a @60 40 @64 50 45 00 00 64 aa 04 @84 f0 00 22 20 0b 02 0e 00 00 02 @97 02 @110 02 @115 80 01
@121 10 @125 02 @128 06 00 02 @136 06 00 02 @145 10 02 @149 02 @156 03 00 60 81 @162 10 @169 10 @178 10 @185 10 @196 10
@216 34 12 00 00 08 @312 08 00 01 00 48
@328 2e 74 65 78 74 00 00 00 00 02 00 00 00 10 00 00 00 02 00 00 00 02 @364 20 00 00 60
@368 2e 6d 6f 72 65 00 00 00 00 03 00 00 00 11 00 00 00 00 00 00 00 04
@408 2e 72 32 72 64 61 74 00 50 00 00 00 00 00 01 00 00 02 00 00 00 04 @444 40 00 00 c0
@448 2e 72 32 72 63 6f 64 00 04 00 00 00 00 00 02 00 00 02 00 00 00 06 @484 20 00 00 60
@512 48 00 00 00 02 00 05 00 48 10 00 00 14 00 00 00 03 00 00 00 07 00 00 06 @576 01
@1024 ee ee ee ee ee ee ee ee 48 00 00 00 02 00 05 00 48 10 00 00 14 00 00 00 04 @1536 c0 03 5f d6";

#[test]
fn writes_a_file_that_reads_back(rt: HostRuntime) -> Result<(), Fail> {
    let alloc = rt.alloc();
    let bytes = file_of(alloc, 1792, &[NARROW, EMPTY])?;
    let dat = file_of(alloc, 80, &[DAT])?;
    let cod = [0xC0, 0x03, 0x5F, 0xD6];
    assert_eq!(rt; bytes.len(), 1792);
    let Ok(pe) = Pe::read(alloc, &bytes) else {
        return Err("the file is well formed")?;
    };
    assert!(rt; dat_rva(&pe) == 0x10000 && cod_rva(&pe, 80) == 0x20000);
    assert!(rt; !can_write_pe(&pe, &dat, &cod, 0x10009));
    assert!(rt; can_write_pe(&pe, &dat, &cod, 0x10008));
    let Ok(out) = write_pe(alloc, &pe, &bytes, &dat, &cod, 0x10008) else {
        return Err("memory is ample")?;
    };
    assert!(rt; out == file_of(alloc, 2048, &[WRITTEN])?);
    let back = read(alloc, &out)
        .ok()
        .ok_or("the written file is well formed")?;
    let rows = "4352 256 768
4352 257
65544 72 1032
131072 4 1536";
    expect_places(&rt, &back, rows)
}
