//! Dumps of files, a broken file for each check, and the arguments of the program.

use crate::fixtures::{
    ROOM, answer_of, expect, expect_dumps, expect_transcript, one_file, words_of,
};
use r2r_commands::{program, r2r};
use rtr_outside::{MemSink, OpenGate, SureFiles, SureSink};
use std::alloc::Global;
use std::io::ErrorKind;
use std::process::{Abort, ExitCode};
use std::test::Fail;
use std::thread::Threads;
use std::{env, io, str};
use test_files::file_of;

/// A file of 1,024 bytes, zeros but for these: a place, and from there on bytes in hexadecimal. PE32+ for A64, one
/// section and a CLI header. What should be its metadata are zeros.
pub(crate) const LEAST: &str =
    "@0 4d5a @60 40 @64 50450000 64aa01 @84 f000 @88 0b02 @196 10 @312 0010000048
@328 2e74657874 @336 0002 @340 0010 @344 0002 @348 0002 @512 48 @520 4810000014 @528 01";

/// An assembly A over it, which has 1,536 bytes then: A.C with a method F, and D with G, which has no signature, and H, whose
/// name begins with 7F.
const ASSEMBLY: &str =
    "@337 04 @345 04 @520 00120000fc @1024 42534a42010001 @1036 0c00000076342e302e3330333139 @1054
03005000000090000000237e0000e00000001000000023537472696e6773 @1088 f00000000c00000023426c6f62 @1108
020000014500000001 @1128 01000000020000000300000001 @1146 01 @1154 01001000030001000000010001000100100005 @1178
01000200fc12 @1188 96000700010001 @1202 86000900000001 @1216 86000b00060001 @1242 01 @1249 410043004400460047007f48
@1265 04000108080320000100000a022a";

/// What a dump of it ends with.
const ASSEMBLY_LINES: &str = "assembly A
type 02000001 A.C
method 06000001 F 00010808
type 02000002 D
method 06000002 G 
method 06000003 ?H 200001
";

/// Files with the assembly, each with its length and the bytes that are written over it, where `..` is for [`ASSEMBLY_LINES`]: the
/// assembly alone; a MethodList of 0, which begins at row 1; a native header of version 5.0 without section records, and a section's
/// name with odd bytes; a native header of this compiler, with two section records; a MethodList after the last row, so that all
/// methods are those of the type before; a first MethodList of 2, so that row 1 is a method of no type, and no CLI flag.
const PLAIN: &str = "> 1536
0 file T 1536
machine aa64 magic 020b
.text rva 00001000 size 00000400 file 00000200 raw 00000400
cli flags 00000001 entry 00000000
native none
..
> 1536 @1166 00
0 file T 1536
machine aa64 magic 020b
.text rva 00001000 size 00000400 file 00000200 raw 00000400
cli flags 00000001 entry 00000000
native none
..
> 1536 @576 0011000010 @768 525452000500 @328 0020747f00
0 file T 1536
machine aa64 magic 020b
??t? rva 00001000 size 00000400 file 00000200 raw 00000400
cli flags 00000001 entry 00000000
native foreign 5.0 flags 00000000 sections 0
..
> 1536 @576 0011000010 @768 5254520005000000070000000200000064000000501100000e000000760000000102030405060708 @848 7232722070726f66696c65203100
0 file T 1536
machine aa64 magic 020b
.text rva 00001000 size 00000400 file 00000200 raw 00000400
cli flags 00000001 entry 00000000
native own 5.0 flags 00000007 sections 2
rtr 100 rva 00001150 size 0000000e
rtr 118 rva 04030201 size 08070605
..
> 1536 @1180 04
0 file T 1536
machine aa64 magic 020b
.text rva 00001000 size 00000400 file 00000200 raw 00000400
cli flags 00000001 entry 00000000
native none
assembly A
type 02000001 A.C
method 06000001 F 00010808
method 06000002 G 
method 06000003 ?H 200001
type 02000002 D
> 1536 @1166 02 @528 00
0 file T 1536
machine aa64 magic 020b
.text rva 00001000 size 00000400 file 00000200 raw 00000400
cli flags 00000000 entry 00000000
native none
assembly A
type 02000001 A.C
type 02000002 D
method 06000002 G 
method 06000003 ?H 200001
";

/// An image of this compiler: two import sections with two slots and one, two functions, and two entries, of which
/// the second has a list of a slot of each section.
const IMAGE: &str = "@576 801000004c @640 52545200 05000000 00000000 05000000
@656 64000000 d0100000 0e000000 65000000 e0100000 28000000 66000000 38110000 10000000
@692 67000000 48110000 0c000000 6a000000 6c110000 04000000 @720 7232722070726f66696c65203100
@736 18110000 10000000 01000008 08110000 00000000 28110000 08000000 00000008 10110000 00000000
@776 30110000 32110000 35110000 @816 1a08 1c1205 1403
@824 60110000 58110000 68110000 5c110000 @840 100102020216000a10100000 @856 08000000 04000000";

/// The image; another identifier; another version, and section types up to 118, of which those from 107 on are in no section; another
/// machine, and three import records with cells of 4, of 16 and of no bytes.
const IMAGES: &str = "> 1536
0 file T 1536
machine aa64 magic 020b
.text rva 00001000 size 00000400 file 00000200 raw 00000400
cli flags 00000001 entry 00000000
native own 5.0 flags 00000000 sections 5
rtr 100 rva 000010d0 size 0000000e
rtr 101 rva 000010e0 size 00000028
rtr 102 rva 00001138 size 00000010
rtr 103 rva 00001148 size 0000000c
rtr 106 rva 0000116c size 00000004
import 0 rva 00001118 size 00000010 flags 0001 type 0 entry 8 slots 2
slot 0 1a08
slot 1 1c1205
import 1 rva 00001128 size 00000008 flags 0000 type 0 entry 8 slots 1
slot 0 1403
entry 06000001 function 0 begin 00001160 length 8 fixups
entry 06000002 function 1 begin 00001168 length 4 fixups 0.1 1.0
..
> 1536 @720 52
0 file T 1536
machine aa64 magic 020b
.text rva 00001000 size 00000400 file 00000200 raw 00000400
cli flags 00000001 entry 00000000
native foreign 5.0 flags 00000000 sections 5
rtr 100 rva 000010d0 size 0000000e
rtr 101 rva 000010e0 size 00000028
rtr 102 rva 00001138 size 00000010
rtr 103 rva 00001148 size 0000000c
rtr 106 rva 0000116c size 00000004
import 0 rva 00001118 size 00000010 flags 0001 type 0 entry 8 slots 2
import 1 rva 00001128 size 00000008 flags 0000 type 0 entry 8 slots 1
..
> 1536 @644 06000200 03 @680 6d @692 73 @696 ffffffff @704 76 @708 ffffffff
0 file T 1536
machine aa64 magic 020b
.text rva 00001000 size 00000400 file 00000200 raw 00000400
cli flags 00000001 entry 00000000
native foreign 6.2 flags 00000003 sections 5
rtr 100 rva 000010d0 size 0000000e
rtr 101 rva 000010e0 size 00000028
rtr 109 rva 00001138 size 00000010
rtr 115 rva ffffffff size 0000000c
rtr 118 rva ffffffff size 00000004
import 0 rva 00001118 size 00000010 flags 0001 type 0 entry 8 slots 2
import 1 rva 00001128 size 00000008 flags 0000 type 0 entry 8 slots 1
..
> 1536 @68 6486 @676 3c @744 03020104 @760 28 @764 04000210 @776 00100000 08000000 0000ff00 00000000 00000000
0 file T 1536
machine 8664 magic 020b
.text rva 00001000 size 00000400 file 00000200 raw 00000400
cli flags 00000001 entry 00000000
native foreign 5.0 flags 00000000 sections 5
rtr 100 rva 000010d0 size 0000000e
rtr 101 rva 000010e0 size 0000003c
rtr 102 rva 00001138 size 00000010
rtr 103 rva 00001148 size 0000000c
rtr 106 rva 0000116c size 00000004
import 0 rva 00001118 size 00000010 flags 0203 type 1 entry 4 slots 4
import 1 rva 00001128 size 00000028 flags 0004 type 2 entry 16 slots 2
import 2 rva 00001000 size 00000008 flags 0000 type 255 entry 0 slots 0
..
";

/// The longest file that is read, and one that is a byte longer.
const AROUND_THE_LIMIT: &str = "> 16777216
0 file T 16777216
machine aa64 magic 020b
.text rva 00001000 size 00000400 file 00000200 raw 00000400
cli flags 00000001 entry 00000000
native none
..
> 16777217
4 refused: TooLong T
";

#[test]
fn well_formed_files(rt: HostRuntime) -> Result<(), Fail> {
    let alloc = rt.alloc();
    expect_dumps(&rt, alloc, &[LEAST, ASSEMBLY], ASSEMBLY_LINES, PLAIN)?;
    expect_dumps(
        &rt,
        alloc,
        &[LEAST, ASSEMBLY, IMAGE],
        ASSEMBLY_LINES,
        IMAGES,
    )?;
    expect_dumps(
        &rt,
        alloc,
        &[LEAST, ASSEMBLY],
        ASSEMBLY_LINES,
        AROUND_THE_LIMIT,
    )
}

/// Changes of the assembly, each with the check that fails then and its place.
const BROKEN: &str = "> 1536 @0 4e
3 malformed: T check 2 at 0
> 1536 @60 e905
3 malformed: T check 3 at 60
> 1536 @67 50
3 malformed: T check 4 at 64
> 1536 @84 a905
3 malformed: T check 6 at 84
> 1536 @88 0b03
3 malformed: T check 7 at 88
> 1536 @84 e7
3 malformed: T check 8 at 84
> 1536 @196 0e
3 malformed: T check 9 at 196
> 1536 @70 1f
3 malformed: T check 10 at 70
> 1536 @344 0104
3 malformed: T check 11 at 348
> 1536 @316 47
3 malformed: T check 12 at 312
> 1536 @313 30
3 malformed: T check 12 at 312
> 1536 @512 47
3 malformed: T check 13 at 512
> 1536 @521 30
3 malformed: T check 14 at 520
> 1536 @576 0050000010
3 malformed: T check 16 at 576
> 1536 @580 01
3 malformed: T check 16 at 576
> 1536 @576 0011000010
3 malformed: T check 17 at 768
> 1536 @576 0011000010 @768 525452000500 @780 64
3 malformed: T check 18 at 780
> 1536 @576 0011000010 @768 525452000500 @780 02 @784 05 @796 05
3 malformed: T check 19 at 796
> 1536 @576 0011000010 @768 525452000500 @780 02 @784 05 @796 65 @800 0090000001
3 malformed: T check 20 at 800
> 1536 @344 0104 @512 47
3 malformed: T check 11 at 348
> 1536 @1024 43
3 malformed: T check 30 at 1024
> 1536 @1036 0d
3 malformed: T check 31 at 1036
> 1536 @1096 4141414141414141414141414141414141414141414141414141414141414141
3 malformed: T check 32 at 1088
> 1536 @1092 ff
3 malformed: T check 33 at 1088
> 1536 @1096 237e0000
3 malformed: T check 34 at 1088
> 1536 @1065 2d
3 malformed: T check 35 at 1024
> 1536 @1060 17
3 malformed: T check 36 at 1104
> 1536 @1110 08
3 malformed: T check 37 at 1110
> 1536 @1119 80
3 malformed: T check 38 at 1112
> 1536 @1131 01
3 malformed: T check 39 at 1128
> 1536 @1132 ff
3 malformed: T check 40 at 1104
> 1536 @1128 00
3 malformed: T check 41 at 1112
> 1536 @1140 00
3 malformed: T check 41 at 1112
> 1536 @1146 ff
3 malformed: T check 42 at 1146
> 1536 @1180 05
3 malformed: T check 42 at 1180
> 1536 @1166 03
3 malformed: T check 43 at 1180
> 1536 @1183 50
3 malformed: T check 50 at 1182
> 1536 @1276 08
3 malformed: T check 51 at 1276
> 1536 @1276 03
3 malformed: T check 51 at 1276
> 1536 @576 0050000010 @1024 43
3 malformed: T check 16 at 576
";

/// Changes of the image, each with the check that fails then and its place.
const BROKEN_IMAGES: &str = "> 1536 @676 29
3 malformed: T check 21 at 676
> 1536 @737 50
3 malformed: T check 22 at 736
> 1536 @746 01
3 malformed: T check 60 at 736
> 1536 @767 04
3 malformed: T check 60 at 756
> 1536 @740 0f
3 malformed: T check 60 at 736
> 1536 @752 01
3 malformed: T check 60 at 736
> 1536 @749 50
3 malformed: T check 60 at 736
> 1536 @816 13
3 malformed: T check 61 at 776
> 1536 @819 11
3 malformed: T check 61 at 780
> 1536 @785 50
3 malformed: T check 61 at 784
> 1536 @688 11
3 malformed: T check 62 at 824
> 1536 @824 62
3 malformed: T check 62 at 824
> 1536 @829 50
3 malformed: T check 62 at 824
> 1536 @856 09
3 malformed: T check 62 at 824
> 1536 @833 50
3 malformed: T check 62 at 832
> 1536 @832 64
3 malformed: T check 62 at 832
> 1536 @840 16
3 malformed: T check 63 at 840
> 1536 @840 0f00000004
3 malformed: T check 63 at 840
> 1536 @840 20
3 malformed: T check 63 at 840
> 1536 @841 ff
3 malformed: T check 64 at 841
> 1536 @845 f6
3 malformed: T check 64 at 845
> 1536 @846 08
3 malformed: T check 65 at 846
> 1536 @847 12
3 malformed: T check 65 at 847
> 1536 @848 30
3 malformed: T check 65 at 847
> 1536 @847 0e0f
3 malformed: T check 65 at 847
> 1536 @847 0efdff
3 malformed: T check 65 at 847
> 1536 @756 20
3 malformed: T check 66 at 756
> 1536 @756 20 @846 08
3 malformed: T check 65 at 846
> 1536 @737 50 @1024 43
3 malformed: T check 22 at 736
> 1536 @746 01 @1024 43
3 malformed: T check 30 at 1024
";

/// Files without an assembly. The first four are cut; the fourth is PE32, and its three section headers end after the cut.
const CUT: &str = "> 0
3 malformed: T check 1 at 0
> 63
3 malformed: T check 1 at 63
> 100
3 malformed: T check 6 at 84
> 400 @60 80 @128 50450000 @134 03 @148 e0 @152 0b01 @244 10
3 malformed: T check 10 at 134
> 1024
3 malformed: T check 30 at 584
> 1024 @576 0011000010
3 malformed: T check 17 at 768
> 1024 @576 0011000010 @768 525452000500
3 malformed: T check 30 at 584
";

#[test]
fn broken_files(rt: HostRuntime) -> Result<(), Fail> {
    let alloc = rt.alloc();
    expect_dumps(&rt, alloc, &[LEAST, ASSEMBLY], ASSEMBLY_LINES, BROKEN)?;
    expect_dumps(
        &rt,
        alloc,
        &[LEAST, ASSEMBLY, IMAGE],
        ASSEMBLY_LINES,
        BROKEN_IMAGES,
    )?;
    expect_dumps(&rt, alloc, &[LEAST], ASSEMBLY_LINES, CUT)
}

const USAGE_LINE: &str =
    "usage: r2r compile IN -o OUT [--ref F].. [--fields cell|burn] | run IMAGE [--ref F].. [--entry T::M] [--worker A,B].. [--ticks N] [--cells] | dump FILE | big N\n";

/// Command lines, with a bar after each. The last has 17 workers.
const NO_COMMANDS: &str =
    "|run|run A B|run A --cells|run A --entry Main|run A --worker|run A --ticks 01|dump|dump A B|dump -x|DUMP T|big 3|
run A --worker - --worker - --worker - --worker - --worker - --worker - --worker - --worker - --worker -
--worker - --worker - --worker - --worker - --worker - --worker - --worker - --worker -";

#[test]
fn words_that_are_no_command(rt: HostRuntime) -> Result<(), Fail> {
    let alloc = rt.alloc();
    let usage = format!(in alloc; "1 {USAGE_LINE}")?;
    let mut lines = NO_COMMANDS.split('|');
    for line in &mut lines {
        expect(&rt, alloc, line, Vec::new(alloc), usage.as_str())?;
    }
    expect(
        &rt,
        alloc,
        "dump a\u{1}b",
        Vec::new(alloc),
        "2 read failed: a?b\n",
    )
}

#[test]
fn outputs_that_fail(rt: HostRuntime) -> Result<(), Fail> {
    let alloc = rt.alloc();
    let mut files = one_file(alloc, "T", file_of(alloc, 1536, &[LEAST, ASSEMBLY])?)?;
    expect_transcript(&rt, alloc, &mut files, 10, "> dump T\n5 file T 153")?;
    // A refusal keeps its status.
    expect_transcript(&rt, alloc, &mut files, 4, "> dump U\n2 read")?;
    // Files that expose nothing read a missing name as empty.
    let mut sure = SureFiles::new(alloc, Vec::new(alloc));
    let words = words_of(alloc, "dump T")?;
    let status = r2r(
        &rt,
        alloc,
        &words,
        &mut sure,
        &mut SureSink::new(),
        &OpenGate,
    );
    assert_eq!(rt; status, 3);
    Ok(())
}

/// Runs the program with these arguments over a file T, expects an exit code, and appends what is written.
fn expect_exit<R: Threads + Sync + Abort>(
    rt: &R,
    alloc: Global,
    args: io::Result<env::Args>,
    code: u8,
    text: &mut String,
) -> Result<(), Fail> {
    let mut files = one_file(alloc, "T", file_of(alloc, 1536, &[LEAST, ASSEMBLY])?)?;
    let mut out = MemSink::new(alloc, ROOM, Vec::new(alloc))?;
    let ended = program::run(rt, alloc, args, &mut files, &mut out, &OpenGate);
    assert_eq!(rt; ended, ExitCode::from(code));
    text.push_str(str::from_utf8(out.bytes())?)?;
    Ok(())
}

/// Arguments of the program after the code with which it ends.
const ARGUMENTS: &str = "0 r2r dump T|2 r2r dump U|1 r2r dump T T|1 r2r|1 ";

#[test]
fn arguments_of_the_program(rt: HostRuntime) -> Result<(), Fail> {
    let alloc = rt.alloc();
    let mut text = String::new(alloc);
    for row in ARGUMENTS.split('|') {
        let (code, line) = row.split_once(' ').ok_or("a row has two parts")?;
        let args = words_of(alloc, line)?.into_iter();
        expect_exit(&rt, alloc, Ok(args), code.parse::<u8>()?, &mut text)?;
    }
    let no_text = Err(io::Error::from(ErrorKind::InvalidData));
    expect_exit(&rt, alloc, no_text, 1, &mut text)?;
    let no_memory = Err(io::Error::from(ErrorKind::OutOfMemory));
    expect_exit(&rt, alloc, no_memory, 7, &mut text)?;
    let mut files = one_file(alloc, "T", file_of(alloc, 1536, &[LEAST, ASSEMBLY])?)?;
    let dumped = answer_of(&rt, alloc, &mut files, ROOM, "dump T")?;
    let lines = "read failed: U\n";
    let wanted = format!(in alloc;
        "{dumped}{lines}{USAGE_LINE}{USAGE_LINE}{USAGE_LINE}{USAGE_LINE}"
    )?;
    assert_eq!(rt; format!(in alloc; "0 {text}")?, wanted);
    Ok(())
}
