//! Texts of dumps (`r2rdump`).

use r2rdump::{DumpRefusal, dump_text};
use rtr_bytes::Fault;
use rtr_outside::MemSink;
use std::alloc::Global;
use std::process::Abort;
use std::test::Fail;
use test_files::file_of;

/// A file of 1,536 bytes, zeros but for these: a place, and from there on bytes in hexadecimal. PE32+ for A64, one
/// section and a CLI header.
const HEADERS: &str = "@0 4d5a @60 40 @64 50450000 64aa01 @84 f000 @88 0b02 @196 10 @312 0010000048
@328 2e74657874 @336 0002 @340 0010 @344 0002 @348 0002 @512 48 @520 4810000014 @528 01";

/// An assembly A: A.C with a method F, and D with G, which has no signature, and H, whose name begins with 7F.
const ASSEMBLY: &str =
    "@337 04 @345 04 @520 00120000fc @1024 42534a42010001 @1036 0c00000076342e302e3330333139 @1054
03005000000090000000237e0000e00000001000000023537472696e6773 @1088 f00000000c00000023426c6f62 @1108
020000014500000001 @1128 01000000020000000300000001 @1146 01 @1154 01001000030001000000010001000100100005 @1178
01000200fc12 @1188 96000700010001 @1202 86000900000001 @1216 86000b00060001 @1242 01 @1249 410043004400460047007f48
@1265 04000108080320000100000a022a";

const ASSEMBLY_LINES: &str = "assembly A
type 02000001 A.C
method 06000001 F 00010808
type 02000002 D
method 06000002 G 
method 06000003 ?H 200001
";

/// The ReadyToRun part: two import sections with two slots and one, two functions, and two entries, of which the
/// second has a list of a slot of each section.
const IMAGE: &str = "@576 801000004c @640 52545200 05000000 00000000 05000000
@656 64000000 d0100000 0e000000 65000000 e0100000 28000000 66000000 38110000 10000000
@692 67000000 48110000 0c000000 6a000000 6c110000 04000000 @720 7232722070726f66696c65203100
@736 18110000 10000000 01000008 08110000 00000000 28110000 08000000 00000008 10110000 00000000
@776 30110000 32110000 35110000 @816 1a08 1c1205 1403
@824 60110000 58110000 68110000 5c110000 @840 100102020216000a10100000 @856 08000000 04000000";

const TEXT: &str = "file T 1536
machine aa64 magic 020b
.text rva 00001000 size 00000400 file 00000200 raw 00000400
cli flags 00000001 entry 00000000
native own 5.0 flags 00000000 sections 5
rtr 100 rva 000010d0 size 0000000e
rtr 101 rva 000010e0 size 00000028
rtr 102 rva 00001138 size 00000010
rtr 103 rva 00001148 size 0000000c
rtr 106 rva 0000116c size 00000004
import 0 rva 00001118 size 00000010 flags 0001 type 0 entry 8 slots 2
slot 0 1a08
slot 1 1c1205
import 1 rva 00001128 size 00000008 flags 0000 type 0 entry 8 slots 1
slot 0 1403
entry 06000001 function 0 begin 00001160 length 8 fixups
entry 06000002 function 1 begin 00001168 length 4 fixups 0.1 1.0
";

/// Another identifier, and cells of 4 bytes in one record and of no size in the other.
const FOREIGN: &str = "@720 52 @744 03020104 @764 00000300";

const FOREIGN_TEXT: &str = "file T 1536
machine aa64 magic 020b
.text rva 00001000 size 00000400 file 00000200 raw 00000400
cli flags 00000001 entry 00000000
native foreign 5.0 flags 00000000 sections 5
rtr 100 rva 000010d0 size 0000000e
rtr 101 rva 000010e0 size 00000028
rtr 102 rva 00001138 size 00000010
rtr 103 rva 00001148 size 0000000c
rtr 106 rva 0000116c size 00000004
import 0 rva 00001118 size 00000010 flags 0203 type 1 entry 4 slots 4
import 1 rva 00001128 size 00000008 flags 0000 type 3 entry 0 slots 0
";

/// Dumps the file with some bytes written over it to a sink with room for so many, and expects an answer and what
/// was written.
fn expect<R: Abort>(
    rt: &R,
    alloc: Global,
    changes: &str,
    room: u32,
    answer: Result<(), DumpRefusal>,
    text: &str,
) -> Result<(), Fail> {
    let bytes = file_of(alloc, 1536, &[HEADERS, ASSEMBLY, IMAGE, changes])?;
    let mut out = MemSink::new(alloc, room, Vec::new(alloc))?;
    let answered = dump_text(alloc, "T", &bytes, &mut out);
    assert!(rt; answered == answer, "{changes}");
    assert_eq!(rt; out.bytes(), text.as_bytes(), "{changes}");
    Ok(())
}

#[test]
fn whole_texts(rt: HostRuntime) -> Result<(), Fail> {
    let alloc = rt.alloc();
    for (changes, text) in [("", TEXT), (FOREIGN, FOREIGN_TEXT)] {
        let text = format!(in alloc; "{text}{ASSEMBLY_LINES}")?;
        expect(&rt, alloc, changes, 2_000, Ok(()), text.as_str())?;
    }
    Ok(())
}

#[test]
fn refusals(rt: HostRuntime) -> Result<(), Fail> {
    let alloc = rt.alloc();
    expect(
        &rt,
        alloc,
        "",
        10,
        Err(DumpRefusal::SinkFailed),
        "file T 153",
    )?;
    let fault = Fault {
        check: 61,
        place: 776,
    };
    expect(
        &rt,
        alloc,
        "@816 13",
        2_000,
        Err(DumpRefusal::Malformed(fault)),
        "",
    )
}
