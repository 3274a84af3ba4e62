//! Dumps of assemblies that are made with a draft.

use crate::fixtures::expect;
use std::test::Fail;
use test_files::assembly_of;

/// An assembly A with a class A.C, which has a static method F that gives what it takes.
const CLASS: &str = "A
type_def 0 A C 0
method 10 F 022a int32 int32
entry 0";

const CLASS_TEXT: &str = "0 file T 1024
machine 014c magic 010b
.text rva 00002000 size 00000150 file 00000200 raw 00000200
cli flags 00000001 entry 00000000
native none
assembly A
type 02000001 A.C
method 06000001 F 00010808
";

#[test]
fn a_class_with_a_method(rt: HostRuntime) -> Result<(), Fail> {
    let alloc = rt.alloc();
    expect(&rt, alloc, "dump T", assembly_of(alloc, CLASS)?, CLASS_TEXT)?;
    let mut file = assembly_of(alloc, CLASS)?;
    // The tables' stream is at 708: a bit of Valid for a table that the standard does not have.
    if let Some(valid) = file.get_mut(723) {
        *valid |= 0x80;
    }
    expect(
        &rt,
        alloc,
        "dump T",
        file,
        "3 malformed: T check 38 at 716\n",
    )
}

/// A program as csc writes it: `class Program { static void Main() => System.Console.WriteLine(42); }`.
///
/// Main is `ldc.i4.s 42; call WriteLine; ret`, and the constructor is `ldarg.0; call Object::.ctor; ret`.
pub(crate) const PROGRAM: &str = "Hello
assembly_ref System.Runtime
assembly_ref System.Console
type_ref 23000001 System Object
type_ref 23000001 System.Security UnverifiableCodeAttribute
type_ref 23000002 System Console
member_ref 01000002 .ctor 200001
member_ref 01000003 WriteLine 00010108
member_ref 01000001 .ctor 200001
attribute 20000001 0a000001 01000000
type_def 0 - <Module> 0
type_def 100001 - Program 01000001
method 96 Main 1f2a280200000a2a void
method 1886 .ctor 02280300000a2a void
entry 06000001";

const PROGRAM_TEXT: &str = "0 file T 1536
machine 014c magic 010b
.text rva 00002000 size 00000294 file 00000200 raw 00000400
cli flags 00000001 entry 06000001
native none
assembly Hello
type 02000001 <Module>
type 02000002 Program
method 06000001 Main 000001
method 06000002 .ctor 200001
";

#[test]
fn a_program(rt: HostRuntime) -> Result<(), Fail> {
    let alloc = rt.alloc();
    expect(
        &rt,
        alloc,
        "dump T",
        assembly_of(alloc, PROGRAM)?,
        PROGRAM_TEXT,
    )
}
