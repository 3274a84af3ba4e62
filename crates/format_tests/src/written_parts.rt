//! The ReadyToRun part of an image (`rtr_sections`), written.

use fixup_sigs::{FieldToken, Fixup, SigType};
use native_format::SlotRef;
use rtr_bytes::{Sequence, Span};
use rtr_sections::{
    EntryPoint, Function, Image, ImportSection, RtrHeader, RtrSection, Slot, can_write_rtr,
    write_rtr, written_len,
};
use std::alloc::{AllocError, Global};
use std::test::Fail;

/// Where the part is.
const AT: u32 = 0x10000;

/// The parts, one after the other: the cells' words, the header with its section records, the import records, the arrays
/// of the signatures' RVAs, the functions, their unwind words, the identifier, the signatures and the array of entries.
const PARTS: [&[u8]; 9] = [
    b"\x01\x02\x03\x04\x05\x06\x07\x08\0\0\0\0\0\0\0\0\xFF\xFF\xFF\xFF\xFF\xFF\xFF\xFF\0\0\0\0\0\0\0\0",
    b"RTR\0\x05\0\0\0\x03\0\0\0\x05\0\0\0\
      \x64\0\0\0\xDC\0\x01\0\x0E\0\0\0\
      \x65\0\0\0\x6C\0\x01\0\x3C\0\0\0\
      \x66\0\0\0\xB8\0\x01\0\x18\0\0\0\
      \x67\0\0\0\xF6\0\x01\0\x15\0\0\0\
      \x6A\0\0\0\x20\0\x02\0\x28\0\0\0",
    b"\0\0\x01\0\x10\0\0\0\x01\0\0\x08\xA8\0\x01\0\0\0\0\0\
      \x10\0\x01\0\x08\0\0\0\0\0\0\x08\xB0\0\x01\0\0\0\0\0\
      \x18\0\x01\0\x08\0\0\0\0\0\0\x08\xB4\0\x01\0\0\0\0\0",
    b"\xEA\0\x01\0\xEC\0\x01\0\xEF\0\x01\0\xF2\0\x01\0",
    b"\0\0\x02\0\xD0\0\x01\0\x08\0\x02\0\xD4\0\x01\0\x10\0\x02\0\xD8\0\x01\0",
    b"\x08\0\0\0\x04\0\0\0\x0C\0\0\0",
    b"r2r profile 1\0",
    b"\x1A\x08\x14\x80\x80\x1C\x12\x11\x2B\x10\x10\x03",
    b"\x24\x04\0\0\0\x02\x02\x46\x16\0\x0A\x10\x10\0\0\x0C\x12\x10\x20\0\0",
];

/// A section record of a type, with a range that a plan has for it.
fn section(kind: u32, rva: u32, size: u32) -> RtrSection {
    RtrSection { kind, rva, size }
}

/// An import record of some cells. Its places aren't read.
fn import(size: u32, flags: u16) -> ImportSection {
    ImportSection {
        rva: 7,
        size,
        flags,
        kind: 0,
        entry_size: 8,
        signatures: 9,
        auxiliary: 0,
    }
}

fn span(start: u32, len: u32) -> Span {
    Span { start, len }
}

fn slot(fixup: Fixup, word: u64) -> Slot {
    Slot { fixup, word }
}

fn entry(
    alloc: Global,
    row: u32,
    function: u32,
    slots: &[SlotRef],
) -> Result<EntryPoint, AllocError> {
    Ok(EntryPoint {
        row,
        function,
        fixups: Sequence::from_vec(slots.to_vec(alloc)?),
    })
}

fn header(alloc: Global) -> Result<RtrHeader, AllocError> {
    let sections = [
        section(100, 1, 2),
        section(101, 0, 0),
        section(102, 0, 0),
        section(103, 3, 4),
        section(106, 0x20020, 40),
    ];
    Ok(RtrHeader {
        at: 5,
        major: 5,
        minor: 0,
        flags: 3,
        sections: Sequence::from_vec(sections.to_vec(alloc)?),
    })
}

/// Four slots in three sections, of which the first is eager.
fn slots(alloc: Global) -> Result<Vec<Slot>, AllocError> {
    let class = SigType::Class(0x11);
    let field = FieldToken {
        member_ref: true,
        row: 3,
    };
    let slots = [
        slot(Fixup::Helper { number: 8 }, 0x0807_0605_0403_0201),
        slot(Fixup::MethodEntryDefToken { row: 0x80 }, 0),
        slot(Fixup::NewObject { of: class }, u64::MAX),
        slot(Fixup::CheckFieldOffset { offset: 16, field }, 0),
    ];
    slots.to_vec(alloc)
}

/// Three functions, and the entries of rows 1, 2 and 4. The last two share a slot.
fn plan(alloc: Global) -> Result<Image, Fail> {
    let functions = [(0x20000, 8), (0x20008, 4), (0x20010, 12)].map(|(begin, length)| Function {
        begin,
        length,
    });
    let shared = SlotRef {
        section: 0,
        slot: 1,
    };
    let second = SlotRef {
        section: 1,
        slot: 0,
    };
    let third = SlotRef {
        section: 2,
        slot: 0,
    };
    let mut entries = Vec::new(alloc);
    entries.push(entry(alloc, 1, 0, &[])?)?;
    entries.push(entry(alloc, 2, 1, &[shared, second])?)?;
    entries.push(entry(alloc, 4, 2, &[shared, third])?)?;
    Ok(Image {
        header: header(alloc)?,
        imports: Sequence::from_vec([import(16, 1), import(8, 0), import(8, 0)].to_vec(alloc)?),
        slots: Sequence::from_vec(slots(alloc)?),
        functions: Sequence::from_vec(functions.to_vec(alloc)?),
        entries: Sequence::from_vec(entries),
        own: false,
    })
}

#[test]
fn writes_a_plan(rt: HostRuntime) -> Result<(), Fail> {
    let plan = plan(rt.alloc())?;
    assert!(rt; can_write_rtr(&plan, AT));
    let written = write_rtr(rt.alloc(), &plan, AT)?;
    let mut expected = Vec::new(rt.alloc());
    for part in PARTS {
        expected.extend_from_slice(part)?;
    }
    assert_eq!(rt; written.bytes.as_slice(), expected.as_slice());
    assert_eq!(rt; written_len(&plan), written.bytes.len() as u64);
    assert_eq!(rt; written.header, span(0x10020, 76));
    let cells = [span(0x10000, 16), span(0x10010, 8), span(0x10018, 8)];
    assert_eq!(rt; written.cells.as_slice(), cells.as_slice());
    Ok(())
}

#[test]
fn refuses_a_plan(rt: HostRuntime) -> Result<(), Fail> {
    let mut plan = plan(rt.alloc())?;
    assert!(rt; can_write_rtr(&plan, 1 << 31));
    assert!(rt; !can_write_rtr(&plan, (1 << 31) + 1));
    plan.functions = Sequence::from_vec(Vec::new(rt.alloc()));
    assert!(rt; !can_write_rtr(&plan, AT));
    Ok(())
}
