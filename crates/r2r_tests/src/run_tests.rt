//! Runs of assemblies that are made with a draft.

use crate::assembly_tests::PROGRAM;
use crate::fixtures::{ROOM, expect_transcript};
use rtr_outside::MemFiles;
use std::alloc::Global;
use std::test::Fail;
use test_files::{assembly_of, put_piece};

/// An assembly A with a class A.C, whose methods loop (`br.s` to itself), divide, call themselves, give -1 in several types, and call a
/// method of L.
///
/// R is ldarg.0; brtrue.s +2; ldc.i4.0; ret; ldarg.0; ldc.i4.1; sub; call R; ldc.i4.1; add; ret. Mixed is ldc.i4.0; ldc.i8 0; add; ret,
/// which has no typing.
const METHODS: &str = "A
assembly_ref L
type_ref 23000001 L P
member_ref 01000001 Say 000001
type_def 0 A C 0
method 10 Loop 2bfe void
method 10 Q 02035b2a int32 int32 int32
method 10 R 022d02162a021759280300000617582a int32 int32
method 10 Boolean 152a bool
method 10 Char 152a char
method 10 I1 152a int8
method 10 U4 152a uint32
method 10 U8 156a2a uint64
method 10 Say 280100000a2a void
method 10 Mixed 16210000000000000000582a int32
entry 06000001";

/// An assembly L with a class L.P, whose method prints 1.
const LIBRARY: &str = "L
assembly_ref System.Console
type_ref 23000001 System Console
member_ref 01000001 WriteLine 00010108
type_def 0 L P 0
method 10 Say 17280100000a2a void
entry 0";

/// The same, but it prints 2.
const SERVICED: &str = "L
assembly_ref System.Console
type_ref 23000001 System Console
member_ref 01000001 WriteLine 00010108
type_def 0 L P 0
method 10 Say 18280100000a2a void
entry 0";

/// Names of files, each with an assembly and what is written over it: the program; the same as an image of another compiler, with the flag
/// of a library of IL; the methods; two libraries; an assembly without a flag of IL. The CLI header is at 512.
const FILES: [(&str, &str, &str); 6] = [
    ("P", PROGRAM, ""),
    ("F", PROGRAM, "@528 04 @576 a022000010 @1184 525452000500"),
    ("A", METHODS, ""),
    ("L", LIBRARY, ""),
    ("M", SERVICED, ""),
    ("N", "N\nentry 0", "@528 00"),
];

/// These files, and one without bytes.
fn files(alloc: Global) -> Result<MemFiles, Fail> {
    let mut files = Vec::new(alloc);
    for (name, text, piece) in FILES {
        let mut file = assembly_of(alloc, text)?;
        put_piece(alloc, &mut file, piece)?;
        files.push((String::from_str(alloc, name)?, file))?;
    }
    files.push((String::from_str(alloc, "E")?, Vec::new(alloc)))?;
    Ok(MemFiles::new(alloc, files, Vec::new(alloc)))
}

/// Command lines, each with the status and the lines that are written.
const RUNS: &str = "> run P
0 == worker 0
42
-- Return
> run P --ref L
0 == worker 0
42
-- Return
> run F
0 == worker 0
42
-- Return
> run A --ref L --entry A.C::Say
0 == worker 0
1
-- Return
> run A --ref M --entry A.C::Say
0 == worker 0
2
-- Return
> run A --entry A.C::Say
6 == worker 0
-- Missing
> run A --entry A.C::Mixed
6 == worker 0
-- Unsupported
> run P --ticks 0
6 == worker 0
-- OutOfTicks
> run P --ticks 2
6 == worker 0
42
-- OutOfTicks
> run P --ticks 3 --worker -
0 == worker 0
42
-- Return
> run A --ticks 5
6 == worker 0
-- OutOfTicks
> run A --entry A.C::Q --worker -2147483648,-1
6 == worker 0
-- Overflow
> run --worker 5,0 A --worker -7,2 --entry A.C::Q
6 == worker 0
-- DivideByZero
== worker 1
-- Return -3
> run A --entry A.C::R --worker 1023
0 == worker 0
-- Return 1023
> run A --entry A.C::R --worker 1024
6 == worker 0
-- DepthLimit
> run A --entry A.C::Boolean
0 == worker 0
-- Return 255
> run A --entry A.C::Char
0 == worker 0
-- Return 65535
> run A --entry A.C::I1
0 == worker 0
-- Return -1
> run A --entry A.C::U4
0 == worker 0
-- Return 4294967295
> run A --entry A.C::U8
0 == worker 0
-- Return 18446744073709551615
> run A --ref B
2 read failed: B
> run A --ref E --ref B
2 read failed: B
> run A --ref E
3 malformed: E check 1 at 0
> run A --ref L --ref M
4 refused: DuplicateName 1 2
> run A --ref N --ref L --ref M
4 refused: DuplicateName 2 3
> run A --ref N --entry A.C::Nope
4 refused: NotIlOnly N
> run A --entry A.C::Nope
4 refused: NoEntry
> run A --entry C::Loop
4 refused: NoEntry
> run L
4 refused: NoEntry
> run A --worker 1
4 refused: BadArguments 0
> run A --entry A.C::R --worker 1 --worker 1,2
4 refused: BadArguments 1
> run A --entry A.C::R --worker 2147483648
4 refused: BadArguments 0
> run A --entry A.C::R --worker -2147483649
4 refused: BadArguments 0
";

#[test]
fn runs(rt: HostRuntime) -> Result<(), Fail> {
    let alloc = rt.alloc();
    let mut files = files(alloc)?;
    expect_transcript(&rt, alloc, &mut files, ROOM, RUNS)?;
    // What is cut short: a refusal keeps its status.
    expect_transcript(&rt, alloc, &mut files, 5, "> run L\n4 refus")?;
    expect_transcript(&rt, alloc, &mut files, 10, "> run P\n5 == worker ")?;
    let cut = "> run P\n5 == worker 0\n42\n-- Return";
    expect_transcript(&rt, alloc, &mut files, 24, cut)?;
    // More files than are read.
    let mut many = String::from_str(alloc, "> run A")?;
    for _ in 0..64 {
        many.push_str(" --ref L")?;
    }
    many.push_str("\n4 refused: TooMany 65\n")?;
    expect_transcript(&rt, alloc, &mut files, ROOM, many.as_str())
}
