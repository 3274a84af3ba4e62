//! Tables and heaps (`metadata`).

use metadata::{CODED_KINDS, COLUMNS, Heap, Metadata};
use rtr_bytes::Span;
use std::alloc::Global;
use std::test::Fail;
use test_files::file_of;

/// Where the metadata is in the file.
const SPAN: Span = Span { start: 4, len: 244 };

/// Metadata at 4: its root and five streams.
const ROOT: &str = "@4 42534a42 01000100 00000000 04000000 76310000 00000500
@28 64000000 6a000000 237e0000 d0000000 08000000 23537472 696e6773 00000000
@60 d8000000 08000000 23555300 e0000000 10000000 23475549 44000000 f0000000 04000000 23426c6f 62000000";

/// The tables: one row of Module, two of TypeDef, one of Field and one of Assembly; then the heaps.
const TABLES: &str =
    "@104 00000000 02000001 15000000 01000000 @128 01000000 02000000 01000000 01000000
@144 0000 0100 0100 0000 0000 @154 00000000 0300 0000 0000 0100 0100 @168 00000000 0300 0000 0400 0200 0100
@182 0600 0300 0100 @188 00000000 0000 0000 0000 0000 00000000 0000 0100 0000
@212 004d0054 00000000 @220 00036100 00 @228 01020304 @244 00020608";

/// What is written over the file, and what is answered.
const CHECKS: &str = " = ok
@4 43 = check 30 fails at 4
@16 05 = check 31 fails at 16
@16 fc = check 31 fails at 16
@96 23232323 23232323 23232323 23232323 23232323 23232323 23232323 23232323 = check 32 fails at 88
@88 f1 = check 33 fails at 88
@68 237e0000 = check 34 fails at 60
@36 2378 = check 35 fails at 4
@32 17 = check 36 fails at 104
@110 08 = check 37 fails at 110
@112 0f = check 38 fails at 112
@135 01 = check 39 fails at 132
@135 01 @112 0f = check 38 fails at 112
@172 04 = ok
@136 c8 = check 40 fails at 104
@110 02 = check 40 fails at 104
@128 00 = check 41 fails at 112
@148 02 = check 42 fails at 148
@215 ff = check 42 fails at 158
@172 09 = check 42 fails at 172
@172 09 @158 09 = check 42 fails at 158
@176 07 = check 42 fails at 176
@176 0c = check 42 fails at 176
@178 03 = check 42 fails at 178
@186 02 = check 42 fails at 186
@178 00 = check 43 fails at 178
@178 00 @186 02 = check 42 fails at 186";

#[test]
fn checks(rt: HostRuntime) -> Result<(), Fail> {
    let alloc = rt.alloc();
    for row in CHECKS.split('\n') {
        let (changes, expected) = row.split_once(" = ").ok_or("a row has two parts")?;
        let bytes = file_of(alloc, 248, &[ROOT, TABLES, changes])?;
        let answer = match Metadata::read(alloc, &bytes, SPAN) {
            Ok(_) => format!(in alloc; "ok")?,
            Err(refusal) => format!(in alloc; "{refusal}")?,
        };
        assert_eq!(rt; answer.as_str(), expected, "{changes}");
    }
    Ok(())
}

#[test]
fn reads(rt: HostRuntime) -> Result<(), Fail> {
    let alloc = rt.alloc();
    let bytes = file_of(alloc, 248, &[ROOT, TABLES])?;
    let metadata = Metadata::read(alloc, &bytes, SPAN)?;
    assert_eq!(rt; metadata.rows(2), 2);
    assert_eq!(rt; metadata.rows(64), 0);
    assert_eq!(rt; metadata.column(&bytes, 2, 2, 1), Some(3));
    assert_eq!(rt; metadata.column(&bytes, 0x20, 1, 7), Some(1));
    assert_eq!(rt; metadata.column(&bytes, 2, 3, 0), None);
    assert_eq!(rt; metadata.column(&bytes, 2, 0, 0), None);
    assert_eq!(rt; metadata.column(&bytes, 2, 1, 6), None);
    assert_eq!(rt; metadata.coded(0, 4), Some(0x0200_0001));
    assert_eq!(rt; metadata.coded(0, 7), None);
    assert_eq!(rt; metadata.coded(10, 0), None);
    assert_eq!(rt; metadata.coded(13, 0), None);
    assert_eq!(rt; metadata.string(&bytes, 3), Some("T"));
    assert_eq!(rt; metadata.string(&bytes, 8), None);
    assert!(rt; metadata.blob(&bytes, 1) == Some(&[6, 8]));
    assert!(rt; metadata.blob(&bytes, 2).is_none());
    assert!(rt; metadata.user_string(&bytes, 1) == Some(&[0x61, 0]));
    assert!(rt; metadata.user_string(&bytes, 0).is_none());
    Ok(())
}

/// The root and two streams, the header of the tables with one row of Module, 50,000 of TypeRef and one of Assembly,
/// and the row of Module.
const MANY_ROWS: &str = "42534a420100010000000000040000007631000000000200\
380000000a280900237e0000422809000109 3d0023537472696e677300000000\
0000000002000100030000000100000000000000000000000100000050c3000001000000\
000000000000000000000000";

/// Metadata at 0 whose 100,000 names are the ends of one text of 4 MB, which a byte ends.
fn suffixes(alloc: Global, last: u8) -> Result<Vec<u8>, Fail> {
    let mut head = String::new(alloc);
    for word in MANY_ROWS.split_whitespace() {
        head.push_str(word)?;
    }
    let mut bytes = hex::decode(alloc, head.as_str())?;
    for row in 0u32..50_000 {
        let name = 80 * row + 1;
        bytes.extend_from_slice(&[0, 0, 0, 0])?;
        bytes.extend_from_slice(&name.to_le_bytes())?;
        bytes.extend_from_slice(&(name + 40).to_le_bytes())?;
    }
    bytes.extend_from_slice(&[0; 27])?;
    let heap = vec![in alloc; b'a'; 3_999_999]?;
    bytes.extend_from_slice(&heap)?;
    bytes.push(last)?;
    Ok(bytes)
}

#[test]
fn one_long_text(rt: HostRuntime) -> Result<(), Fail> {
    let alloc = rt.alloc();
    for (last, expected) in [(0, "ok"), (0xFF, "check 42 fails at 108")] {
        let bytes = suffixes(alloc, last)?;
        assert_eq!(rt; bytes.len(), 4_600_131);
        let span = Span {
            start: 0,
            len: 4_600_131,
        };
        let answer = match Metadata::read(alloc, &bytes, span) {
            Ok(_) => format!(in alloc; "ok"),
            Err(refusal) => format!(in alloc; "{refusal}"),
        };
        assert_eq!(rt; answer?.as_str(), expected);
    }
    Ok(())
}

/// Each table by its number with the kinds of its columns (ECMA-335 II.22). Then each kind of coded index with the bits
/// of its tag and the number of the table that each tag names, in hexadecimal (II.24.2.6).
const SCHEMA: &str = "
00 Module UInt16 Heap(Strings) Heap(Guids) Heap(Guids) Heap(Guids)
01 TypeRef Coded(ResolutionScope) Heap(Strings) Heap(Strings)
02 TypeDef UInt32 Heap(Strings) Heap(Strings) Coded(TypeDefOrRef) List(Field) List(MethodDef)
04 Field UInt16 Heap(Strings) Heap(Blobs)
06 MethodDef UInt32 UInt16 UInt16 Heap(Strings) Heap(Blobs) List(Param)
08 Param UInt16 UInt16 Heap(Strings)
09 InterfaceImpl Row(TypeDef) Coded(TypeDefOrRef)
0a MemberRef Coded(MemberRefParent) Heap(Strings) Heap(Blobs)
0b Constant UInt16 Coded(HasConstant) Heap(Blobs)
0c CustomAttribute Coded(HasCustomAttribute) Coded(CustomAttributeType) Heap(Blobs)
0d FieldMarshal Coded(HasFieldMarshal) Heap(Blobs)
0e DeclSecurity UInt16 Coded(HasDeclSecurity) Heap(Blobs)
0f ClassLayout UInt16 UInt32 Row(TypeDef)
10 FieldLayout UInt32 Row(Field)
11 StandAloneSig Heap(Blobs)
12 EventMap Row(TypeDef) List(Event)
14 Event UInt16 Heap(Strings) Coded(TypeDefOrRef)
15 PropertyMap Row(TypeDef) List(Property)
17 Property UInt16 Heap(Strings) Heap(Blobs)
18 MethodSemantics UInt16 Row(MethodDef) Coded(HasSemantics)
19 MethodImpl Row(TypeDef) Coded(MethodDefOrRef) Coded(MethodDefOrRef)
1a ModuleRef Heap(Strings)
1b TypeSpec Heap(Blobs)
1c ImplMap UInt16 Coded(MemberForwarded) Heap(Strings) Row(ModuleRef)
1d FieldRVA UInt32 Row(Field)
20 Assembly UInt32 UInt16 UInt16 UInt16 UInt16 UInt32 Heap(Blobs) Heap(Strings) Heap(Strings)
21 AssemblyProcessor UInt32
22 AssemblyOS UInt32 UInt32 UInt32
23 AssemblyRef UInt16 UInt16 UInt16 UInt16 UInt32 Heap(Blobs) Heap(Strings) Heap(Strings) Heap(Blobs)
24 AssemblyRefProcessor UInt32 Row(AssemblyRef)
25 AssemblyRefOS UInt32 UInt32 UInt32 Row(AssemblyRef)
26 File UInt32 Heap(Strings) Heap(Blobs)
27 ExportedType UInt32 UInt32 Heap(Strings) Heap(Strings) Coded(Implementation)
28 ManifestResource UInt32 UInt32 Heap(Strings) Coded(Implementation)
29 NestedClass Row(TypeDef) Row(TypeDef)
2a GenericParam UInt16 UInt16 Coded(TypeOrMethodDef) Heap(Strings)
2b MethodSpec Coded(MethodDefOrRef) Heap(Blobs)
2c GenericParamConstraint Row(GenericParam) Coded(TypeDefOrRef)
TypeDefOrRef 2 02 01 1b --
HasConstant 2 04 08 17 --
HasCustomAttribute 5 06 04 01 02 08 09 0a 00 0e 17 14 11 1a 1b 20 23 26 27 28 2a 2c 2b -- -- -- -- -- -- -- -- -- --
HasFieldMarshal 1 04 08
HasDeclSecurity 2 02 06 20 --
MemberRefParent 3 02 01 1a 06 1b -- -- --
HasSemantics 1 14 17
MethodDefOrRef 1 06 0a
MemberForwarded 1 04 06
Implementation 2 26 23 27 --
CustomAttributeType 3 -- -- 06 0a -- -- -- --
ResolutionScope 2 00 1a 23 01
TypeOrMethodDef 1 02 06";

/// The tables and the coded indexes, as the text of [`SCHEMA`]. A coded index whose row is 0 has its tag alone.
fn schema_text(alloc: Global, metadata: &Metadata) -> Result<String, Fail> {
    let mut text = String::new(alloc);
    let mut last = None;
    for column in &COLUMNS {
        let table = column.table;
        if last != Some(table) {
            let line = format!(in alloc; "\n{:02x} {table:?}", table.number())?;
            text.push_str(line.as_str())?;
            last = Some(table);
        }
        let kind = format!(in alloc; " {:?}", column.kind)?;
        text.push_str(kind.as_str())?;
    }
    for kind in CODED_KINDS {
        let bits = kind.tag_bits();
        let line = format!(in alloc; "\n{kind:?} {bits}")?;
        text.push_str(line.as_str())?;
        for tag in 0..1u32 << bits {
            let table = match metadata.coded(kind.number(), tag) {
                Some(token) => format!(in alloc; " {:02x}", token >> 24)?,
                None => format!(in alloc; " --")?,
            };
            text.push_str(table.as_str())?;
        }
    }
    Ok(text)
}

#[test]
fn schema(rt: HostRuntime) -> Result<(), Fail> {
    let alloc = rt.alloc();
    let bytes = file_of(alloc, 248, &[ROOT, TABLES])?;
    let metadata = Metadata::read(alloc, &bytes, SPAN)?;
    let text = schema_text(alloc, &metadata)?;
    assert_eq!(rt; text.as_str(), SCHEMA);
    Ok(())
}
