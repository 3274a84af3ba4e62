//! A small assembly that is read whole, and the checks of its bodies.

ghost use Rattle.std.specs.Prelude.{◌≡◌, IfOk, length};

use crate::shown::sig_text;
use cli_assembly::{Assembly, Body, MethodSig};
use metadata::{CodedKind, Table};
use std::alloc::Global;
use std::test::Fail;
use test_files::file_of;

/// The headers: PE32 with one section, which has the CLI header at 344, a tiny body at 416, a fat one with locals at 420 and a
/// fat one with more sections at 436.
const HEADERS: &str =
    "@0 4d5a0000 @60 40000000 50450000 4c010100 @84 d8000000 0b010000 @180 10000000
@296 00100000 48000000 2e746578 74000000 f8010000 00100000 f8010000 58010000
@344 48000000 02000500 6c100000 8c010000 01000000 01000006
@416 062a0000 13300200 02000000 01000011 062a0000 1b300100 01000000 00000000 2a000000";

/// The root of the metadata and four streams, and the header of the tables.
const ROOT: &str = "@452 42534a42 01000100 @464 04000000 76310000 00000400
54000000 d8000000 237e0000 2c010000 28000000 23537472 696e6773 @508 54010000 08000000 23555300
5c010000 30000000 23426c6f 62000000 @540 02000001 55040200 01000000 @556 00000000
01000000 02000000 03000000 05000000 02000000 02000000 01000000";

/// One row of Module, two of TypeDef, three of Field, five of MethodDef, two of MemberRef, two of StandAloneSig and one of
/// Assembly; then the heaps.
const TABLES: &str =
    "@588 00000100 @598 00000000 03000000 00000100 0100 @612 01000000 0c000e00 00000100 0100
@626 06001000 0100 16001200 0400 06001400 0800
@644 48100000 00001600 16000a00 0100 4c100000 00001600 18000f00 0100 00000000 0000c605 1a001600 0100
@686 5c100000 00000600 1c001b00 0100 48100000 04000600 1e002000 0100
@714 10001000 0100 10001a00 1600 @726 24002800 @730 04800000 01000100 01000100 00000000 00002000 0000
@752 006d003c 4d6f6475 6c653e00 54004e00 66006700 68006100 62006300 64006500 4e616d65 @792 00036100
@800 00020608 03060f08 01070400 01080806 2002010e 1d0a0420 00120804 30010001 03000001 03070108 04070108 08000000";

/// What is written over the file, and what is answered.
const CHECKS: &str = "@344 47 = check 13 fails at 344
@452 43 = check 30 fails at 452
@642 ff = check 42 fails at 642
@416 04 = check 51 fails at 416
@421 20 = check 51 fails at 420
@421 20 @416 04 = check 51 fails at 416
@688 01 = check 50 fails at 686
@416 04 @688 01 = check 50 fails at 686
@424 ffff = check 50 fails at 658
@442 01 = check 50 fails at 686";

/// The file's own record: the name, the entry token and the flags, and by row the method, field, member as a method, member as a
/// field, locals, and the body by MaxStack, locals, code and whether more sections follow.
const WHOLE: &str = "Name 6000001 1
0: none; None; none; None; None; none
1: false Int(I4) [Int(I4)]; Some(Int(I4)); none; Some(Int(I4)); Some([Int(I4)]); 8 0 417+1 false
2: true Void [Str, Array(I8)]; Some(Outside); true Class(33554434) []; None; None; 2 285212673 432+2 false
3: true Class(33554434) []; None; none; None; None; none
4: none; None; none; None; None; 1 0 448+1 true
5: false Void []; None; none; None; None; none
6: none; None; none; None; None; none";

/// What is looked up: rows, a column, a text, a blob, a user string, a token, a type's fields and methods, and a code.
const LOOKED_UP: &str =
    "5 12 Some(\"T\") Some([6, 8]) Some([97, 0]) Some(33554434) 1..4 1..6 Some([6, 42])";

/// The file with some bytes written over it.
pub(crate) fn file_with(alloc: Global, changes: &str) -> Result<Vec<u8>, Fail>
    ensures long { IfOk result (λ bytes. length bytes.items ≡ 848) }
{
    file_of(alloc, 848, &[HEADERS, ROOT, TABLES, changes])
}

#[test]
fn checks(rt: HostRuntime) -> Result<(), Fail> {
    let alloc = rt.alloc();
    for row in CHECKS.split('\n') {
        let (changes, expected) = row.split_once(" = ").ok_or("a row has two parts")?;
        let bytes = file_with(alloc, changes)?;
        let answer = match Assembly::read(alloc, bytes) {
            Ok(_) => format!(in alloc; "ok")?,
            Err(refusal) => format!(in alloc; "{refusal}")?,
        };
        assert_eq!(rt; answer.as_str(), expected, "{changes}");
    }
    Ok(())
}

/// A signature of a method as one text.
fn method_text(alloc: Global, sig: Option<&MethodSig>) -> Result<String, Fail> {
    match sig {
        Some(sig) => sig_text(alloc, sig),
        None => Ok(format!(in alloc; "none")?),
    }
}

/// A body as one text.
fn body_text(alloc: Global, body: Option<Body>) -> Result<String, Fail> {
    let Some(body) = body else {
        return Ok(format!(in alloc; "none")?);
    };
    let code = body.code;
    Ok(format!(in alloc;
        "{} {} {}+{} {}",
        body.max_stack, body.locals, code.start, code.len, body.more
    )?)
}

/// What an assembly answers for a row.
fn row_text(alloc: Global, assembly: &Assembly, row: u32) -> Result<String, Fail> {
    let method = method_text(alloc, assembly.method_sig(row))?;
    let member = method_text(alloc, assembly.member_method_sig(row))?;
    let body = body_text(alloc, assembly.body(row))?;
    let field = assembly.field_sig(row);
    let member_field = assembly.member_field_sig(row);
    let locals = assembly.local_sig(row);
    Ok(format!(in alloc;
        "{row}: {method}; {field:?}; {member}; {member_field:?}; {locals:?}; {body}"
    )?)
}

#[test]
fn reads_whole(rt: HostRuntime) -> Result<(), Fail> {
    let alloc = rt.alloc();
    let bytes = file_with(alloc, "")?;
    let assembly = Assembly::read(alloc, bytes)?;
    let pe = assembly.pe();
    let (name, token, flags) = (assembly.name(), pe.entry_token(), pe.cli_flags());
    let mut text = format!(in alloc; "{name} {token:x} {flags}")?;
    for row in 0..7 {
        text.push_str("\n")?;
        text.push_str(row_text(alloc, &assembly, row)?.as_str())?;
    }
    assert_eq!(rt; text.as_str(), WHOLE);
    Ok(())
}

#[test]
fn looks_up(rt: HostRuntime) -> Result<(), Fail> {
    let alloc = rt.alloc();
    let bytes = file_with(alloc, "")?;
    let assembly = Assembly::read(alloc, bytes)?;
    let rows = assembly.rows(Table::MethodDef);
    let name = assembly.column(Table::TypeDef, 2, 1);
    let text = assembly.string(name);
    let blob = assembly.blob(1);
    let string = assembly.user_string(1);
    let token = assembly.coded(CodedKind::TypeDefOrRef, 8);
    let (fields, methods) = (assembly.fields(2), assembly.methods(2));
    let code = assembly.code(2);
    let all = format!(in alloc;
        "{rows} {name} {text:?} {blob:?} {string:?} {token:?} {}..{} {}..{} {code:?}",
        fields.start, fields.end, methods.start, methods.end
    )?;
    assert_eq!(rt; all.as_str(), LOOKED_UP);
    Ok(())
}
