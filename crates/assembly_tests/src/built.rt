//! Assemblies that are made from a text with a line a call, and read back (`asm_builder`).

use crate::shown::{has_bytes, strings_text, text_of};
use asm_builder::{Draft, DraftRefusal};
use cli_assembly::{Assembly, METHOD_STATIC, MethodSig, TypeSig};
use rtr_bytes::Sequence;
use std::alloc::Global;
use std::process::Abort;
use std::test::Fail;
use test_files::assembly_of;

/// A program as csc writes it: `class Program { static void Main() => System.Console.WriteLine(42); }`. Main is ldc.i4.s 42; call
/// WriteLine; ret. The constructor is ldarg.0; call Object::.ctor; ret.
const PROGRAM: &str = "Hello
assembly_ref System.Runtime
assembly_ref System.Console
type_ref 23000001 System Object
type_ref 23000001 System.Runtime.CompilerServices CompilationRelaxationsAttribute
type_ref 23000002 System Console
member_ref 01000002 .ctor 20010108
member_ref 01000003 WriteLine 00010108
member_ref 01000001 .ctor 200001
attribute 20000001 0a000001 0100080000000000
type_def 0 - <Module> 0
type_def 100001 - Program 01000001
method 96 Main 1f2a280200000a2a void
method 1886 .ctor 02280300000a2a void
entry 06000001";

/// The length of its file, and the assembly, read back.
const PROGRAM_READ: &str = "1536 Hello 06000001 1
Module 0 'Hello' 1 0 0
TypeRef 23000001 'Object' 'System'
TypeRef 23000001 'CompilationRelaxationsAttribute' 'System.Runtime.CompilerServices'
TypeRef 23000002 'Console' 'System'
TypeDef 0 '<Module>' '' 02000000 1 1
TypeDef 100001 'Program' '' 01000001 1 1
MethodDef 2048 0 96 'Main' (000001) 1 false Void [] 8 0 1f2a280200000a2a
MethodDef 205c 0 1886 '.ctor' (200001) 1 true Void [] 8 0 02280300000a2a
MemberRef 01000002 '.ctor' (20010108)
MemberRef 01000003 'WriteLine' (00010108)
MemberRef 01000001 '.ctor' (200001)
CustomAttribute 20000001 0a000001 (0100080000000000)
Assembly 8004 0 0 0 0 0 () 'Hello' ''
AssemblyRef 0 0 0 0 0 () 'System.Runtime' '' ()
AssemblyRef 0 0 0 0 0 () 'System.Console' '' ()";

/// An interface, a class with fields and methods, and a class over it. The codes are ldc.i4.0; conv.i8; ret, then ldarg.0; call
/// Object::.ctor; ret, and ldnull; pop; ret.
const SHAPES: &str = "Shapes
assembly_ref mscorlib
type_ref 23000001 System Object
member_ref 01000001 .ctor 200001
type_def a1 Geometry IShape 0
method_with 0 - 5c6 Area - int64 int32
type_def 100001 Geometry Квадрат 01000001
field 6 side int32
field 56 Left uint8
field 0 名 char[]
method_with 3 class:02000002,object c6 Area 166a2a int64 int32
method 1886 .ctor 02280100000a2a void
type_def 0 - Last 02000002
field 16 Greeting string
method_with 1 string 16 Hail 14262a void class:02000002
attribute 04000001 06000003 01000000
entry 0";

/// The length of its file, and the assembly, read back.
const SHAPES_READ: &str = "1536 Shapes 00000000 1
Module 0 'Shapes' 1 0 0
TypeRef 23000001 'Object' 'System'
TypeDef a1 'IShape' 'Geometry' 02000000 1 1
TypeDef 100001 'Квадрат' 'Geometry' 01000001 1 2
TypeDef 0 'Last' '' 02000002 4 4
Field 6 'side' (0608) Some(Int(I4))
Field 56 'Left' (0605) Some(Int(U1))
Field 0 '名' (061d03) Some(Array(Char))
Field 16 'Greeting' (060e) Some(Str)
MethodDef 0 0 5c6 'Area' (20010a08) 1 true Int(I8) [Int(I4)] no body
MethodDef 2048 0 c6 'Area' (20010a08) 1 true Int(I8) [Int(I4)] 3 11000001 166a2a
MethodDef 2058 0 1886 '.ctor' (200001) 1 true Void [] 8 0 02280100000a2a
MethodDef 206c 0 16 'Hail' (0001011208) 1 false Void [Class(33554434)] 1 11000002 14262a
MemberRef 01000001 '.ctor' (200001)
CustomAttribute 04000001 06000003 (01000000)
StandAloneSig (070212081c) Some([Class(33554434), Object])
StandAloneSig (07010e) Some([Str])
Assembly 8004 0 0 0 0 0 () 'Shapes' ''
AssemblyRef 0 0 0 0 0 () 'mscorlib' '' ()";

/// User strings: no unit, `abc`, four Hebrew letters, and `it's`.
const STRINGS: &str = "Strings
user_string
user_string 61 62 63
user_string 5e9 5dc 5d5 5dd
user_string 69 74 27 73
entry 0";

/// The length of the file, and the strings by their tokens.
const STRINGS_READ: &str = "1024
70000001 ()
70000003 (610062006300)
7000000b (e905dc05d505dd05)
70000015 (6900740027007300)";

/// The heap of these, with each length and each last byte.
const USER_STRINGS: &str = "0001000761006200630000\
    09e905dc05d505dd0501\
    09690074002700730001";

/// Makes an assembly, and expects what is read of it.
fn expect<R: Abort>(rt: &R, alloc: Global, text: &str, read: &str) -> Result<(), Fail> {
    let file = assembly_of(alloc, text)?;
    let length = file.len();
    let assembly = Assembly::read(alloc, file)?;
    let found = format!(in alloc; "{length} {}", text_of(alloc, &assembly)?)?;
    assert_eq!(rt; found.as_str(), read);
    Ok(())
}

#[test]
fn assemblies_are_read_back(rt: HostRuntime) -> Result<(), Fail> {
    let alloc = rt.alloc();
    expect(&rt, alloc, PROGRAM, PROGRAM_READ)?;
    expect(&rt, alloc, SHAPES, SHAPES_READ)
}

#[test]
fn strings_are_read_back(rt: HostRuntime) -> Result<(), Fail> {
    let alloc = rt.alloc();
    let file = assembly_of(alloc, STRINGS)?;
    let length = file.len();
    let assembly = Assembly::read(alloc, file)?;
    let tokens = [0x7000_0001, 0x7000_0003, 0x7000_000B, 0x7000_0015];
    let found = format!(in alloc; "{length}{}", strings_text(alloc, &assembly, &tokens)?)?;
    assert_eq!(rt; found.as_str(), STRINGS_READ);
    assert!(rt; has_bytes(assembly.bytes(), &hex::decode(alloc, USER_STRINGS)?));
    Ok(())
}

#[test]
fn refuses_a_token_of_no_row(rt: HostRuntime) -> Result<(), Fail> {
    let mut draft = Draft::new(rt.alloc(), "A")?;
    let outcome = draft.type_ref(0x2300_0001, "System", "Object");
    assert!(rt; matches!(outcome, Err(DraftRefusal::Unsound)));
    Ok(())
}

/// The most bytes that a file has.
const FILE_LIMIT: usize = 16_777_216;

/// An assembly with a method of this code.
fn with_code(alloc: Global, code: &[u8]) -> Result<Draft, DraftRefusal> {
    let nothing = MethodSig {
        has_this: false,
        params: Sequence::from_vec(Vec::new(alloc)),
        ret: TypeSig::Void,
    };
    let mut draft = Draft::new(alloc, "Long")?;
    draft.type_def(0x0010_0001, "", "C", 0)?;
    draft.method(METHOD_STATIC, "M", &nothing, 0, &[], code)?;
    Ok(draft)
}

/// The length of its file, or why there is none.
fn length_of(alloc: Global, code: &[u8]) -> Result<usize, DraftRefusal> {
    Ok(with_code(alloc, code)?.finish(0)?.len())
}

/// Codes of `nop`s, of which the second makes a file of the limit's length. A file's length is a multiple of 512.
#[test]
fn a_file_above_the_limit_is_too_long(rt: HostRuntime) -> Result<(), Fail> {
    let alloc = rt.alloc();
    let step = vec![in alloc; 0u8; 512]?;
    let short = length_of(alloc, &step)?;
    let mut code = vec![in alloc; 0u8; (512 + FILE_LIMIT).saturating_sub(short)]?;
    assert!(rt; length_of(alloc, &code)? == FILE_LIMIT);
    code.extend_from_slice(&step)?;
    assert!(rt; matches!(length_of(alloc, &code), Err(DraftRefusal::TooLong)));
    Ok(())
}
