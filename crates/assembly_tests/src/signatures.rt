//! Signatures, read and written.

use crate::assemblies::file_with;
use crate::shown::sig_text;
use cli_assembly::{
    Assembly, Elem, MethodSig, TypeSig, write_field_sig, write_local_sig, write_method_sig,
};
use rtr_bytes::Sequence;
use std::alloc::Global;
use std::process::Abort;
use std::test::Fail;
use test_files::assembly_of;

/// A blob in hexadecimal; then HASTHIS, the result and the parameters of a method, or the type of a field.
const SIGNATURES: &str = "00010808 = false Int(I4) [Int(I4)]
200001 = true Void []
0002010e1d0a = false Void [Str, Array(I8)]
0080010101 = false Void [Void]
00020115120502080e08 = false Void [Outside, Int(I4)]
 = None
00000100 = None
000101 = None
00010100 = None
10010001 = None
050001 = None
600001 = None
061c = Object
061209 = Class(16777218)
06128009 = Class(16777218)
06128084 = Class(33554465)
061207 = Outside
061d0e = Outside
061105 = Outside
061f0508 = Outside
06140802010300 = Outside
061b00010108 = Outside
061408020103 = None
060808 = None
06 = None";

/// A blob of locals in hexadecimal, with its length before it, and the types.
const LOCALS: &str = "05070208450e = [Int(I4), Outside]
020700 = []
0407010808 = None
020702 = None";

/// An assembly whose members have these blobs, in hexadecimal, in their order.
fn members(alloc: Global, blobs: &str) -> Result<Assembly, Fail> {
    let mut text = String::from_str(alloc, "A\nassembly_ref L\ntype_ref 23000001 L C\n")?;
    for blob in blobs.lines() {
        let blob = if blob.is_empty() { "-" } else { blob };
        text.push_str(&format!(in alloc; "member_ref 01000001 M {blob}\n")?)?;
    }
    text.push_str("entry 0")?;
    Ok(Assembly::read(alloc, assembly_of(alloc, text.as_str())?)?)
}

/// The blobs of a table, a line each.
fn blobs_of(alloc: Global, rows: &str) -> Result<String, Fail> {
    let mut blobs = String::new(alloc);
    for row in rows.lines() {
        let (blob, _) = row.split_once(" = ").ok_or("a row has two parts")?;
        blobs.push_str(&format!(in alloc; "{blob}\n")?)?;
    }
    Ok(blobs)
}

/// What is read of a method's signature. One that can be written is not longer when it is written.
fn method_text<R: Abort>(
    rt: &R,
    alloc: Global,
    blob: &str,
    sig: Option<&MethodSig>,
) -> Result<String, Fail> {
    let Some(sig) = sig else {
        return Ok(format!(in alloc; "None")?);
    };
    if sig.is_writable() {
        let back = write_method_sig(alloc, sig)?;
        assert!(rt; back.len() <= blob.len() / 2, "{blob}");
    }
    sig_text(alloc, sig)
}

#[test]
fn signatures(rt: HostRuntime) -> Result<(), Fail> {
    let alloc = rt.alloc();
    let assembly = members(alloc, blobs_of(alloc, SIGNATURES)?.as_str())?;
    let mut text = String::new(alloc);
    for (row, line) in (1..100).zip(SIGNATURES.lines()) {
        let (blob, _) = line.split_once(" = ").ok_or("a row has two parts")?;
        let sig = match (blob.starts_with("06"), assembly.member_field_sig(row)) {
            (true, Some(of)) => format!(in alloc; "{of:?}")?,
            _ => method_text(&rt, alloc, blob, assembly.member_method_sig(row))?,
        };
        text.push_str(&format!(in alloc; "{blob} = {sig}\n")?)?;
    }
    assert_eq!(rt; text.trim_end(), SIGNATURES);
    Ok(())
}

#[test]
fn locals(rt: HostRuntime) -> Result<(), Fail> {
    let alloc = rt.alloc();
    for row in LOCALS.lines() {
        let (bytes, expected) = row.split_once(" = ").ok_or("a row has two parts")?;
        let changes = format!(in alloc; "@728 2400 @836 {bytes}")?;
        let assembly = Assembly::read(alloc, file_with(alloc, changes.as_str())?)?;
        let text = match assembly.local_sig(1) {
            Some(locals) => format!(in alloc; "{:?}", locals)?,
            None => format!(in alloc; "None")?,
        };
        assert_eq!(rt; text.as_str(), expected, "{bytes}");
    }
    Ok(())
}

#[test]
fn written(rt: HostRuntime) -> Result<(), Fail> {
    let alloc = rt.alloc();
    let int = TypeSig::Int(Elem::I4);
    let sig = MethodSig {
        has_this: true,
        params: Sequence::from_vec(Vec::from_array(alloc, [int])?),
        ret: TypeSig::Void,
    };
    let method = write_method_sig(alloc, &sig)?;
    assert_eq!(rt; method.as_slice(), [0x20, 0x01, 0x01, 0x08].as_slice());
    let field = write_field_sig(alloc, TypeSig::Array(Elem::Char))?;
    assert_eq!(rt; field.as_slice(), [0x06, 0x1D, 0x03].as_slice());
    let locals = write_local_sig(alloc, &[int])?;
    assert_eq!(rt; locals.as_slice(), [0x07, 0x01, 0x08].as_slice());
    Ok(())
}

/// The type of a field whose signature is this blob.
fn field_of(alloc: Global, blob: &[u8]) -> Result<Option<TypeSig>, Fail> {
    let text = hex::encode(alloc, blob)?;
    Ok(members(alloc, text.as_str())?.member_field_sig(1))
}

/// Generic instances that are one in another take no stack.
#[test]
fn nested(rt: HostRuntime) -> Result<(), Fail> {
    let alloc = rt.alloc();
    let mut blob = Vec::new(alloc);
    blob.push(0x06)?;
    for _ in 0..100_000 {
        blob.extend_from_slice(&[0x15, 0x12, 0x05, 0x02, 0x08])?;
    }
    blob.push(0x08)?;
    assert!(rt; field_of(alloc, &blob)? == Some(TypeSig::Outside));
    blob.push(0x08)?;
    assert!(rt; field_of(alloc, &blob)?.is_none());
    Ok(())
}
