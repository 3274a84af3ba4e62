//! Images that are written from plans, laid into a PE file after an assembly's sections, and dumped.

ghost use Rattle.std.specs.Prelude.{◌≡◌, ◌≤◌, ◌^◌, length, None};
ghost use Rattle.rtr_bytes.specs.Checks.{first_fault};
ghost use Rattle.pe_image.specs.Checks.{pe_checks};
ghost use Rattle.pe_image.specs.Headers.{headers_of};

use crate::fixtures::expect;
use crate::plans::plan_of;
use crate::tests::LEAST;
use pe_image::{Pe, can_write_pe, dat_rva, write_pe};
use rtr_sections::{Image, Written, can_write_rtr, write_rtr};
use std::alloc::Global;
use std::process::Abort;
use std::test::Fail;
use std::thread::Threads;
use test_files::file_of;

/// An assembly A over the least file, which has 1,536 bytes then: 40 methods without a name, and no type.
const ROWS: &str =
    "@337 04 @345 04 @524 cc02 @584 42534a42010001 @596 0c00000076342e302e3330333139 @614
03005000000074020000237e0000c40200000400000023537472696e6773 @648 c80200000400000023426c6f62 @668 020000014100000001
@688 010000002800000001 @702 01 @1288 01 @1293 41";

/// One eager section with a slot, no function and no entry.
const SLOT: &str = "import 8 1
slot 0 1a08";

/// Its image.
const WRITTEN: &str =
    "@0 4d5a @60 400000005045000064aa03 @84 f00022200b020e @97 02 @110 02 @115 8001 @125 020000060002 @136 060002 @146
02000002 @156 03006081000010 @169 10 @178 10 @185 10 @196 10 @312 7d00010048 @328 2e74657874 @341 10 @349 02 @368
2e72327264617400c5 @382 0100000200000006 @404 400000c02e723272636f64 @422 02 @429 08 @444 20000060 @512 48 @520 4810
@528 01 @1544 5254520005 @1556 05000000640000006c0001000e000000650000005400010014000000660000006c0001 @1596
670000007c000100010000006a @1622 01000800000001000008680001 @1640 7a0001007232722070726f66696c652031001a080448 @1669
48100000cc02000004 @1725 080001004c";

const WRITTEN_TEXT: &str = "0 file T 2048
machine aa64 magic 020b
.text rva 00001000 size 00000400 file 00000200 raw 00000400
.r2rdat rva 00010000 size 000000c5 file 00000600 raw 00000200
.r2rcod rva 00020000 size 00000000 file 00000800 raw 00000000
cli flags 00000004 entry 00000000
native own 5.0 flags 00000000 sections 5
rtr 100 rva 0001006c size 0000000e
rtr 101 rva 00010054 size 00000014
rtr 102 rva 0001006c size 00000000
rtr 103 rva 0001007c size 00000001
rtr 106 rva 00000000 size 00000000
import 0 rva 00010000 size 00000008 flags 0001 type 0 entry 8 slots 1
slot 0 1a08
assembly A
";

/// No import section, and an entry, whose array is the one-element array `0c 04000000 02020202 0c`.
const ELEMENT: &str = "function 20000 0
function 20000 0
function 20000 0
function 20000 4
entry 1 3";

const WRITTEN_ARRAY: &str =
    "@0 4d5a @60 400000005045000064aa03 @84 f00022200b020e00000200000002 @110 02 @115 8001 @125 020000060002 @136 060002
@144 040002000002 @156 03006081000010 @169 10 @178 10 @185 10 @196 10 @312 9400010048 @328 2e74657874 @341 10 @349 02
@368 2e72327264617400dc @382 0100000200000006 @404 400000c02e723272636f640004 @422 0200000200000008 @444 20000060 @512
48 @520 4810 @528 01 @1536 5254520005 @1548 05000000640000007c0001000e000000650000004c0001 @1576
660000004c00010020000000670000008a0001000a0000006a @1614 02006c0001000000020070000100000002007400010000000200780001
@1656 040000007232722070726f66696c652031000c04000000020202020c48 @1692 48100000cc02000004 @1750 01004c @2048 c0035fd6";

const WRITTEN_ARRAY_TEXT: &str = "0 file T 2560
machine aa64 magic 020b
.text rva 00001000 size 00000400 file 00000200 raw 00000400
.r2rdat rva 00010000 size 000000dc file 00000600 raw 00000200
.r2rcod rva 00020000 size 00000004 file 00000800 raw 00000200
cli flags 00000004 entry 00000000
native own 5.0 flags 00000000 sections 5
rtr 100 rva 0001007c size 0000000e
rtr 101 rva 0001004c size 00000000
rtr 102 rva 0001004c size 00000020
rtr 103 rva 0001008a size 0000000a
rtr 106 rva 00000000 size 00000000
entry 06000001 function 3 begin 00020000 length 4 fixups
assembly A
";

/// Three import sections, the first eager; entries with and without lists, which share slots, in three blocks of the array.
const SECTIONS: &str = "import 18 1
import 20 0
import 10 0
slot 0 1a08
slot 0 1a22
slot 1122334455667788 1a8200
slot 0 1b01
slot 0 270002
slot 0 2b101005
slot 0 1c1205
slot 2000c 1403
slot 20010 17812c
function 20000 4
function 20004 8
function 2000c 0
function 2000c 4
entry 1 0
entry 2 1 1.0 1.2
entry 3 3 1.0 1.3 2.1
entry 12 2
entry 28 1 0.2
thunks 20010 8";

const WRITTEN_WHOLE: &str =
    "@0 4d5a @60 400000005045000064aa03 @84 f00022200b020e00000200000002 @110 02 @115 8001 @125 020000060002 @136 060002
@144 180002000002 @156 03006081000010 @169 10 @178 10 @185 10 @196 10 @312 7301010048 @328 2e74657874 @341 10 @349 02
@368 2e72327264617400bb01 @382 0100000200000006 @404 400000c02e723272636f640018 @422 0200000200000008 @444 20000060
@512 48 @520 4810 @528 01 @1552 8877665544332211 @1592 0c0002 @1600 100002 @1608 5254520005 @1620
0500000064000000240101000e00000065000000940001003c00000066000000f400010020000000670000004a010100290000006a0000001000020008
@1686 01001800000001000008d00001 @1704 1800010020 @1715 08dc0001 @1724 3800010010 @1735 08ec0001 @1744
320101003401010036010100390101003b0101003e010100420101004501010047010100000002001401010004000200180101000c0002001c0101000c000200200101000400000008
@1824
040000007232722070726f66696c652031001a081a221a82001b012700022b1010051c1205140317812c89020c0000001b0000002000000002023e16000a010200021a010311000202020c08020c0c0c0a200048
@1915 48100000cc02000004 @1971 480001004c @2049 0102030405060708090a0b0c0d0e0f1011121314151617";

const WRITTEN_WHOLE_TEXT: &str = "0 file T 2560
machine aa64 magic 020b
.text rva 00001000 size 00000400 file 00000200 raw 00000400
.r2rdat rva 00010000 size 000001bb file 00000600 raw 00000200
.r2rcod rva 00020000 size 00000018 file 00000800 raw 00000200
cli flags 00000004 entry 00000000
native own 5.0 flags 00000000 sections 5
rtr 100 rva 00010124 size 0000000e
rtr 101 rva 00010094 size 0000003c
rtr 102 rva 000100f4 size 00000020
rtr 103 rva 0001014a size 00000029
rtr 106 rva 00020010 size 00000008
import 0 rva 00010000 size 00000018 flags 0001 type 0 entry 8 slots 3
slot 0 1a08
slot 1 1a22
slot 2 1a8200
import 1 rva 00010018 size 00000020 flags 0000 type 0 entry 8 slots 4
slot 0 1b01
slot 1 270002
slot 2 2b101005
slot 3 1c1205
import 2 rva 00010038 size 00000010 flags 0000 type 0 entry 8 slots 2
slot 0 1403
slot 1 17812c
entry 06000001 function 0 begin 00020000 length 4 fixups
entry 06000002 function 1 begin 00020004 length 8 fixups 1.0 1.2
entry 06000003 function 3 begin 0002000c length 4 fixups 1.0 1.3 2.1
entry 06000012 function 2 begin 0002000c length 0 fixups
entry 06000028 function 1 begin 00020004 length 8 fixups 0.2
assembly A
";

/// What `.r2rdat` has: the part, and after it the input's CLI header, for an image that isn't of CIL alone, with the
/// part's header.
fn dat(alloc: Global, bytes: &[u8], input: &Pe, written: &Written) -> Result<Vec<u8>, Fail> {
    let start = input.cli().start as usize;
    let cli = bytes.get(start..).ok_or("it is in the file")?;
    let flags = input.cli_flags() & !1 | 4;
    let mut dat = Vec::new(alloc);
    dat.extend_from_slice(&written.bytes)?;
    dat.extend_from_slice(cli.get(..16).ok_or("it has 72 bytes")?)?;
    dat.extend_from_slice(&flags.to_le_bytes())?;
    dat.extend_from_slice(cli.get(20..64).ok_or("it has 72 bytes")?)?;
    dat.extend_from_slice(&written.header.start.to_le_bytes())?;
    dat.extend_from_slice(&written.header.len.to_le_bytes())?;
    Ok(dat)
}

/// The image of a plan and some code, after an input's sections.
fn image_after(
    alloc: Global,
    input: &Pe,
    bytes: &[u8],
    plan: &Image,
    cod: &[u8],
) -> Result<Vec<u8>, Fail>
    requires small { length bytes.now ≤ 2 ^ 31 }
    requires read { input.now ≡ headers_of bytes.now }
    requires well_formed { first_fault pe_checks bytes.now ≡ None }
{
    let at = u32::try_from(dat_rva(input))?;
    if !can_write_rtr(plan, at) {
        return Err("the plan can be written")?;
    }
    let written = write_rtr(alloc, plan, at)?;
    let dat = dat(alloc, bytes, input, &written)?;
    let cli_at = at.saturating_add(written.bytes.len() as u32);
    if !can_write_pe(input, &dat, cod, cli_at) {
        return Err("the file can be written")?;
    }
    Ok(write_pe(alloc, input, bytes, &dat, cod, cli_at)?)
}

/// The image of a plan and some code, after the sections of the assembly.
fn image(alloc: Global, plan: &Image, cod: &[u8]) -> Result<Vec<u8>, Fail> {
    let input = file_of(alloc, 1536, &[LEAST, ROWS])?;
    let bytes = input.as_slice();
    if bytes.len() > 1 << 31 {
        return Err("it has 1,536 bytes")?;
    }
    match Pe::read(alloc, bytes) {
        Ok(pe) => image_after(alloc, &pe, bytes, plan, cod),
        Err(_) => Err("it is well formed")?,
    }
}

/// Writes a plan and some code, and expects the file's length, its bytes beside the assembly's rows, and its dump.
fn expect_written<R: Threads + Sync + Abort>(
    rt: &R,
    alloc: Global,
    plan: &str,
    code: &str,
    written: (usize, &str),
    text: &str,
) -> Result<(), Fail> {
    let plan = plan_of(alloc, plan)?;
    let out = image(alloc, &plan, &hex::decode(alloc, code)?)?;
    let file = file_of(alloc, written.0, &[ROWS, written.1])?;
    assert_eq!(rt; out.as_slice(), file.as_slice());
    expect(rt, alloc, "dump T", out, text)
}

#[test]
fn plans_are_written(rt: HostRuntime) -> Result<(), Fail> {
    let alloc = rt.alloc();
    expect_written(&rt, alloc, SLOT, "", (2048, WRITTEN), WRITTEN_TEXT)?;
    expect_written(
        &rt,
        alloc,
        ELEMENT,
        "c0035fd6",
        (2560, WRITTEN_ARRAY),
        WRITTEN_ARRAY_TEXT,
    )?;
    let code = "000102030405060708090a0b0c0d0e0f1011121314151617";
    expect_written(
        &rt,
        alloc,
        SECTIONS,
        code,
        (2560, WRITTEN_WHOLE),
        WRITTEN_WHOLE_TEXT,
    )
}
