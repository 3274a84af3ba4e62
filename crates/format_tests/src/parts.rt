//! The ReadyToRun part of an image (`rtr_sections`), read.

use pe_image::Pe;
use rtr_bytes::ReadRefusal;
use rtr_sections::{EntryPoint, Image, read_rtr};
use std::alloc::Global;
use std::test::Fail;
use test_files::file_of;

/// An image of this compiler, of 1,024 bytes, zeros but for these: a place after `@`, and from there on bytes in
/// hexadecimal, as often as a number after `*` says. PE32+ for A64 with one section, at file offset 512 and RVA 0x1000; a
/// CLI header; the ReadyToRun header; and the part: one import section with one slot, two functions, and two entries, the
/// second with a list.
const OWN: &str = "@60 40 @0 4d5a @64 5045000064aa01 @84 f000 @88 0b02 @196 10 @312 0010000048
    @328 2e74657874 @336 0002 @340 0010 @344 0002 @348 0002 @512 48 @520 4810000014 @576 801000004c
    @640 52545200 0500 0000 00000000 05000000
    64000000 d0100000 0e000000 65000000 e0100000 14000000 66000000 18110000 10000000
    67000000 30110000 0a000000 6a000000 50110000 04000000
    @720 7232722070726f66696c65203100
    @736 10110000 08000000 0100 00 08 08110000 00000000 @757 10 @767 08 @769 10
    @776 0c110000 1a080000 0102030405060708
    @792 40110000 28110000 48110000 2c110000 08000000 04000000
    @816 10 01 02 02 02 16 00 0a0000";

/// The image with 512 bytes more and four entries. The first three share a long list of one slot, the last has its own.
const SHARED: &str = "@337 04 @345 04 @696 b0110000 0f @832 88*100 0000 @936 88*4 0000
    @944 20 01 02 02 36 1e 06 ee 06 f2 1e 06 f8 06 2c";

/// The image with 1,024 bytes more: 11 import records that all have the same 192 cells and the same array of signatures, so
/// that the slots are more than the file's bytes.
const MANY: &str = "@337 06 @345 06 @672 00120000 dc
    @1024 0010000000060000000000080013000000000000*11 @1280 0c110000*192";

/// The image with 512 bytes more and 496 entries, which all share a list of 102 bytes: together 50,592 bytes, which are more than
/// 32 times 1,536.
const LONG: &str =
    "@337 04 @345 04 @696 b0110000 28 @832 88*100 0000 @944 01 1f 1f*31 0e*4 06 5902";

/// Images, each by its rows of MethodDef, its length, what is written over [`OWN`], and further changes; after it is what is read of it,
/// as [`image_text`] has it, or why it is refused.
///
/// The image itself; the list of the second entry 10 bytes before the integer after its id; a block with a single element, which is none of the
/// two; four entries that share a list. Then images of other compilers: without the identifier; of another version, with a slot, a function and
/// entries that no image of this compiler may have; for another machine, with an unknown section that is in no section of the file;
/// with a section 101 of two records. Then lists that are too long together, and 16 entries fewer, whose lists have 48,960 bytes. Then the
/// array counts more elements than there are rows; a word of an array that records share names no fixup; records share cells; the
/// last of four entries has a list of a slot that does not exist, and the three before share one that is good; all four share a long list of
/// such a slot. (Every check is broken once in the tests of the program.)
const IMAGES: &str = "> 4 1024 OWN
true 640 5.0 0
5 Some(RtrSection { kind: 106, rva: 4432, size: 4 })
1 Some(ImportSection { rva: 4368, size: 8, flags: 1, kind: 0, entry_size: 8, signatures: 4360, auxiliary: 0 })
1 Some(Slot { fixup: Helper { number: 8 }, word: 578437695752307201 })
2 Some(Function { begin: 4424, length: 4 })
2 1 0 [] 2 1 [SlotRef { section: 0, slot: 0 }]
> 4 1024 OWN @823 0e14
true 640 5.0 0
5 Some(RtrSection { kind: 106, rva: 4432, size: 4 })
1 Some(ImportSection { rva: 4368, size: 8, flags: 1, kind: 0, entry_size: 8, signatures: 4360, auxiliary: 0 })
1 Some(Slot { fixup: Helper { number: 8 }, word: 578437695752307201 })
2 Some(Function { begin: 4424, length: 4 })
2 1 0 [] 2 1 [SlotRef { section: 0, slot: 0 }]
> 4 1024 OWN @818 20
true 640 5.0 0
5 Some(RtrSection { kind: 106, rva: 4432, size: 4 })
1 Some(ImportSection { rva: 4368, size: 8, flags: 1, kind: 0, entry_size: 8, signatures: 4360, auxiliary: 0 })
1 Some(Slot { fixup: Helper { number: 8 }, word: 578437695752307201 })
2 Some(Function { begin: 4424, length: 4 })
0
> 4 1536 SHARED
true 640 5.0 0
5 Some(RtrSection { kind: 106, rva: 4432, size: 4 })
1 Some(ImportSection { rva: 4368, size: 8, flags: 1, kind: 0, entry_size: 8, signatures: 4360, auxiliary: 0 })
1 Some(Slot { fixup: Helper { number: 8 }, word: 578437695752307201 })
2 Some(Function { begin: 4424, length: 4 })
4 1 0 [SlotRef { section: 0, slot: 0 }] 2 0 [SlotRef { section: 0, slot: 0 }] 3 0 [SlotRef { section: 0, slot: 0 }] 4 0 [SlotRef { section: 0, slot: 0 }]
> 4 1024 OWN @720 6f74686572 @747 04
false 640 5.0 0
5 Some(RtrSection { kind: 106, rva: 4432, size: 4 })
1 Some(ImportSection { rva: 4368, size: 8, flags: 1, kind: 0, entry_size: 4, signatures: 4360, auxiliary: 0 })
0 None
0 None
0
> 4 1024 OWN @644 06 @780 13 @792 42 @816 16
false 640 6.0 0
5 Some(RtrSection { kind: 106, rva: 4432, size: 4 })
1 Some(ImportSection { rva: 4368, size: 8, flags: 1, kind: 0, entry_size: 8, signatures: 4360, auxiliary: 0 })
0 None
0 None
0
> 4 1024 OWN @68 6486 @704 76000000 01020304 05060708
false 640 5.0 0
5 Some(RtrSection { kind: 118, rva: 67305985, size: 134678021 })
1 Some(ImportSection { rva: 4368, size: 8, flags: 1, kind: 0, entry_size: 8, signatures: 4360, auxiliary: 0 })
0 None
0 None
0
> 4 1024 OWN @664 0d @676 28 @746 0210
false 640 5.0 0
5 Some(RtrSection { kind: 106, rva: 4432, size: 4 })
2 Some(ImportSection { rva: 4368, size: 8, flags: 1, kind: 2, entry_size: 16, signatures: 4360, auxiliary: 0 })
0 None
0 None
0
> 496 1536 LONG
out of memory
> 496 1536 LONG @945 1e
true 640 5.0 0
5 Some(RtrSection { kind: 106, rva: 4432, size: 4 })
1 Some(ImportSection { rva: 4368, size: 8, flags: 1, kind: 0, entry_size: 8, signatures: 4360, auxiliary: 0 })
1 Some(Slot { fixup: Helper { number: 8 }, word: 578437695752307201 })
2 Some(Function { begin: 4424, length: 4 })
480 1 0 [SlotRef { section: 0, slot: 0 }] 2 0 [SlotRef { section: 0, slot: 0 }] 3 0 [SlotRef { section: 0, slot: 0 }] 4 0 [SlotRef { section: 0, slot: 0 }]
> 1 1024 OWN
check 63 fails at 816
> 2 2048 MANY @1680 0c50
check 61 fails at 1680
> 2 2048 MANY
check 66 fails at 1044
> 4 1536 SHARED @940 10
check 65 fails at 957
> 4 1536 SHARED @832 88*112
check 65 fails at 950
";

/// What `read_rtr` answers, where it may be asked.
fn read(alloc: Global, bytes: &[u8], rows: u32) -> Option<Result<Image, ReadRefusal>> {
    if bytes.len() > 1 << 31 {
        return None;
    }
    let pe = Pe::read(alloc, bytes).ok()?;
    pe.native()?;
    Some(read_rtr(alloc, &pe, bytes, rows))
}

/// The first entries, each with its row, its function and its slots.
fn entries_text(alloc: Global, entries: &[EntryPoint]) -> Result<String, Fail> {
    let mut text = String::new(alloc);
    for entry in entries.iter().take(4) {
        let slots = entry.fixups.as_slice();
        text.push_str(&format!(in alloc; " {} {} {slots:?}", entry.row, entry.function)?)?;
    }
    Ok(text)
}

/// An image: whether it is of this compiler, the place, version and flags of its header, and how many sections, import records, slots,
/// functions and entries it has, each with the last of them, the first import record, the first slot, the last function and the
/// first entries.
fn image_text(alloc: Global, image: &Image) -> Result<String, Fail> {
    let header = &image.header;
    let (sections, imports) = (header.sections.as_slice(), image.imports.as_slice());
    let (slots, functions) = (image.slots.as_slice(), image.functions.as_slice());
    let entries = image.entries.as_slice();
    Ok(format!(in alloc;
        "{} {} {}.{} {}\n{} {:?}\n{} {:?}\n{} {:?}\n{} {:?}\n{}{}",
        image.own(),
        header.at,
        header.major,
        header.minor,
        header.flags,
        sections.len(),
        sections.last(),
        imports.len(),
        imports.first(),
        slots.len(),
        slots.first(),
        functions.len(),
        functions.last(),
        entries.len(),
        entries_text(alloc, entries)?
    )?)
}

/// The answer of a row of [`IMAGES`].
fn answer_of(alloc: Global, row: &str) -> Result<String, Fail> {
    let (rows, rest) = row.split_once(' ').ok_or("a length")?;
    let (len, rest) = rest.split_once(' ').ok_or("a table")?;
    let (table, changes) = rest.split_once(' ').unwrap_or((rest, ""));
    let table = match table {
        "MANY" => MANY,
        "SHARED" => SHARED,
        "LONG" => LONG,
        _ => "",
    };
    let bytes = file_of(alloc, len.parse::<usize>()?, &[OWN, table, changes])?;
    match read(alloc, &bytes, rows.parse::<u32>()?) {
        Some(Ok(image)) => image_text(alloc, &image),
        Some(Err(refusal)) => Ok(format!(in alloc; "{refusal}")?),
        None => Err("it has a native header")?,
    }
}

#[test]
fn images(rt: HostRuntime) -> Result<(), Fail> {
    let alloc = rt.alloc();
    let mut found = String::new(alloc);
    for line in IMAGES.lines() {
        if let Some(row) = line.strip_prefix("> ") {
            let answer = answer_of(alloc, row)?;
            found.push_str(&format!(in alloc; "{line}\n{answer}\n")?)?;
        }
    }
    assert_eq!(rt; found.as_str(), IMAGES);
    Ok(())
}
