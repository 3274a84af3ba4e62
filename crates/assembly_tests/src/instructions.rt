//! Every opcode, and codes that are refused.

use cil_decode::{BodyRefusal, OPCODES, Targets, decode_body, encode_body, opcode_of};
use std::alloc::Global;
use std::process::Abort;
use std::test::Fail;

/// A code of each opcode: its bytes in hexadecimal; then of each instruction its offset, form, operation and operand.
const EACH_OPCODE: &str = "00 = 0 0000 Nop Nothing;
02 = 0 0002 LoadArgument(0) Nothing;
03 = 0 0003 LoadArgument(1) Nothing;
04 = 0 0004 LoadArgument(2) Nothing;
05 = 0 0005 LoadArgument(3) Nothing;
06 = 0 0006 LoadLocal(0) Nothing;
07 = 0 0007 LoadLocal(1) Nothing;
08 = 0 0008 LoadLocal(2) Nothing;
09 = 0 0009 LoadLocal(3) Nothing;
0a = 0 000a StoreLocal(0) Nothing;
0b = 0 000b StoreLocal(1) Nothing;
0c = 0 000c StoreLocal(2) Nothing;
0d = 0 000d StoreLocal(3) Nothing;
0ec8 = 0 000e LoadArgument(200) Num(200);
10c8 = 0 0010 StoreArgument(200) Num(200);
11c8 = 0 0011 LoadLocal(200) Num(200);
13c8 = 0 0013 StoreLocal(200) Num(200);
14 = 0 0014 LoadNull Nothing;
15 = 0 0015 LoadInt32(-1) Nothing;
16 = 0 0016 LoadInt32(0) Nothing;
17 = 0 0017 LoadInt32(1) Nothing;
18 = 0 0018 LoadInt32(2) Nothing;
19 = 0 0019 LoadInt32(3) Nothing;
1a = 0 001a LoadInt32(4) Nothing;
1b = 0 001b LoadInt32(5) Nothing;
1c = 0 001c LoadInt32(6) Nothing;
1d = 0 001d LoadInt32(7) Nothing;
1e = 0 001e LoadInt32(8) Nothing;
1ffe = 0 001f LoadInt32(-2) Num(-2);
2088a9cbed = 0 0020 LoadInt32(-305419896) Num(-305419896);
211021436587a9cbed = 0 0021 LoadInt64(-1311768467463790320) Num(-1311768467463790320);
25 = 0 0025 Duplicate Nothing;
26 = 0 0026 Pop Nothing;
280201000a = 0 0028 Call Token(167772418);
2a = 0 002a Return Nothing;
2bfe = 0 002b Jump Target(0);
2cfe = 0 002c BranchFalse Target(0);
2dfe = 0 002d BranchTrue Target(0);
2efe = 0 002e Branch(Equal) Target(0);
2ffe = 0 002f Branch(GreaterOrEqual) Target(0);
30fe = 0 0030 Branch(Greater) Target(0);
31fe = 0 0031 Branch(LessOrEqual) Target(0);
32fe = 0 0032 Branch(Less) Target(0);
33fe = 0 0033 Branch(NotEqual) Target(0);
34fe = 0 0034 Branch(GreaterOrEqualUnsigned) Target(0);
35fe = 0 0035 Branch(GreaterUnsigned) Target(0);
36fe = 0 0036 Branch(LessOrEqualUnsigned) Target(0);
37fe = 0 0037 Branch(LessUnsigned) Target(0);
38fbffffff = 0 0038 Jump Target(0);
39fbffffff = 0 0039 BranchFalse Target(0);
3afbffffff = 0 003a BranchTrue Target(0);
3bfbffffff = 0 003b Branch(Equal) Target(0);
3cfbffffff = 0 003c Branch(GreaterOrEqual) Target(0);
3dfbffffff = 0 003d Branch(Greater) Target(0);
3efbffffff = 0 003e Branch(LessOrEqual) Target(0);
3ffbffffff = 0 003f Branch(Less) Target(0);
40fbffffff = 0 0040 Branch(NotEqual) Target(0);
41fbffffff = 0 0041 Branch(GreaterOrEqualUnsigned) Target(0);
42fbffffff = 0 0042 Branch(GreaterUnsigned) Target(0);
43fbffffff = 0 0043 Branch(LessOrEqualUnsigned) Target(0);
44fbffffff = 0 0044 Branch(LessUnsigned) Target(0);
4502000000f3fffffff3ffffff = 0 0045 Switch Targets(Sequence { items: [0, 0] });
58 = 0 0058 Binary(Add) Nothing;
59 = 0 0059 Binary(Subtract) Nothing;
5a = 0 005a Binary(Multiply) Nothing;
5b = 0 005b Binary(Divide) Nothing;
5c = 0 005c Binary(DivideUnsigned) Nothing;
5d = 0 005d Binary(Remainder) Nothing;
5e = 0 005e Binary(RemainderUnsigned) Nothing;
5f = 0 005f Binary(And) Nothing;
60 = 0 0060 Binary(Or) Nothing;
61 = 0 0061 Binary(Xor) Nothing;
62 = 0 0062 Shift(Left) Nothing;
63 = 0 0063 Shift(Right) Nothing;
64 = 0 0064 Shift(RightUnsigned) Nothing;
65 = 0 0065 Negate Nothing;
66 = 0 0066 Not Nothing;
67 = 0 0067 Convert(I1) Nothing;
68 = 0 0068 Convert(I2) Nothing;
69 = 0 0069 Convert(I4) Nothing;
6a = 0 006a Convert(I8) Nothing;
6d = 0 006d Convert(U4) Nothing;
6e = 0 006e Convert(U8) Nothing;
6f0201000a = 0 006f CallVirtual Token(167772418);
720201000a = 0 0072 LoadString Token(167772418);
730201000a = 0 0073 NewObject Token(167772418);
740201000a = 0 0074 CastClass Token(167772418);
750201000a = 0 0075 IsInstance Token(167772418);
7b0201000a = 0 007b LoadField Token(167772418);
7d0201000a = 0 007d StoreField Token(167772418);
7e0201000a = 0 007e LoadStaticField Token(167772418);
800201000a = 0 0080 StoreStaticField Token(167772418);
8d0201000a = 0 008d NewArray Token(167772418);
8e = 0 008e LoadLength Nothing;
90 = 0 0090 LoadElement(I1) Nothing;
91 = 0 0091 LoadElement(U1) Nothing;
92 = 0 0092 LoadElement(I2) Nothing;
93 = 0 0093 LoadElement(U2) Nothing;
94 = 0 0094 LoadElement(I4) Nothing;
95 = 0 0095 LoadElement(U4) Nothing;
96 = 0 0096 LoadElement(I8) Nothing;
9c = 0 009c StoreElement(I1) Nothing;
9d = 0 009d StoreElement(I2) Nothing;
9e = 0 009e StoreElement(I4) Nothing;
9f = 0 009f StoreElement(I8) Nothing;
d1 = 0 00d1 Convert(U2) Nothing;
d2 = 0 00d2 Convert(U1) Nothing;
d6 = 0 00d6 Checked(Add) Nothing;
d7 = 0 00d7 Checked(AddUnsigned) Nothing;
d8 = 0 00d8 Checked(Multiply) Nothing;
d9 = 0 00d9 Checked(MultiplyUnsigned) Nothing;
da = 0 00da Checked(Subtract) Nothing;
db = 0 00db Checked(SubtractUnsigned) Nothing;
fe01 = 0 fe01 Compare(Equal) Nothing;
fe02 = 0 fe02 Compare(Greater) Nothing;
fe03 = 0 fe03 Compare(GreaterUnsigned) Nothing;
fe04 = 0 fe04 Compare(Less) Nothing;
fe05 = 0 fe05 Compare(LessUnsigned) Nothing;
fe09dcfe = 0 fe09 LoadArgument(65244) Num(65244);
fe0bdcfe = 0 fe0b StoreArgument(65244) Num(65244);
fe0cdcfe = 0 fe0c LoadLocal(65244) Num(65244);
fe0edcfe = 0 fe0e StoreLocal(65244) Num(65244);";

/// Codes with their instructions, or why they have none.
const CODES: &str = "2b05 = BadTarget(0)
200102 = Cut(0)
167a = OutOfProfile(1)
 = Cut(0)
162a = 0 0016 LoadInt32(0) Nothing;1 002a Return Nothing;
fe = Cut(0)
00fe = Cut(1)
fe00 = OutOfProfile(0)
fe06 = OutOfProfile(0)
01 = OutOfProfile(0)
24 = OutOfProfile(0)
2b = Cut(0)
2b00 = BadTarget(0)
2b01 = BadTarget(0)
2b002a = 0 002b Jump Target(2);2 002a Return Nothing;
2b80 = BadTarget(0)
2bff = BadTarget(0)
2bff7a = OutOfProfile(2)
2bff20 = Cut(2)
2b032bff002a = BadTarget(2)
002bfd2a = 0 0000 Nop Nothing;1 002b Jump Target(0);3 002a Return Nothing;
2d042b0220000000002a = BadTarget(0)
2d0216002a = 0 002d BranchTrue Target(4);2 0016 LoadInt32(0) Nothing;3 0000 Nop Nothing;4 002a Return Nothing;
38000000802a = BadTarget(0)
4500000000 = 0 0045 Switch Targets(Sequence { items: [] });
4501000000 = Cut(0)
45ffffffff00000000 = Cut(0)
4501000000000000 = Cut(0)
4501000000000000002a = 0 0045 Switch Targets(Sequence { items: [9] });9 002a Return Nothing;
450100000001000000 = BadTarget(0)
210000000000000080 = 0 0021 LoadInt64(-9223372036854775808) Num(-9223372036854775808);
1f80 = 0 001f LoadInt32(-128) Num(-128);
20ffffff7f = 0 0020 LoadInt32(2147483647) Num(2147483647);";

/// The instructions of a code as a text, or its refusal. The instructions are encoded back.
fn text_of<R: Abort>(rt: &R, alloc: Global, code: &[u8]) -> Result<String, Fail> {
    assert!(rt; code.len() < 1_000);
    let list = match decode_body(alloc, code) {
        Ok(list) => list,
        Err(refusal) => return Ok(format!(in alloc; "{refusal:?}")?),
    };
    let back = encode_body(alloc, &list)?;
    assert_eq!(rt; back.as_slice(), code);
    let mut text = String::new(alloc);
    for instr in &list {
        let operation = instr.operation().ok_or("no operation")?;
        let line = format!(in alloc;
            "{} {:04x} {operation:?} {:?};",
            instr.at, instr.form, instr.arg
        )?;
        text.push_str(line.as_str())?;
    }
    Ok(text)
}

#[test]
fn codes(rt: HostRuntime) -> Result<(), Fail> {
    let alloc = rt.alloc();
    for rows in [EACH_OPCODE, CODES] {
        for row in rows.split('\n') {
            let (bytes, expected) = row.split_once(" = ").ok_or("a row has two parts")?;
            let code = hex::decode(alloc, bytes)?;
            let text = text_of(&rt, alloc, &code)?;
            assert_eq!(rt; text.as_str(), expected, "{bytes}");
        }
    }
    Ok(())
}

/// The forms that have an opcode are those of the table, each with its own row.
#[test]
fn forms(rt: HostRuntime) {
    let mut count = 0usize;
    for page in [0u16, 0xFE00] {
        for byte in 0..=255u16 {
            let form = page + byte;
            match opcode_of(form) {
                Some(opcode) => {
                    assert_eq!(rt; opcode.form, form);
                    count = count.saturating_add(1);
                }
                None => assert!(rt; OPCODES.iter().all(|opcode| opcode.form != form)),
            }
        }
    }
    assert_eq!(rt; count, OPCODES.len());
}

#[test]
fn long_switch(rt: HostRuntime) -> Result<(), Fail> {
    let alloc = rt.alloc();
    let count: u32 = 100_000;
    let mut code = Vec::new(alloc);
    code.push(0x45)?;
    code.extend_from_slice(&count.to_le_bytes())?;
    for _ in 0..count {
        code.extend_from_slice(&0u32.to_le_bytes())?;
    }
    assert!(rt; code.len() < 1 << 20);
    assert!(rt; matches!(decode_body(alloc, &code), Err(BodyRefusal::BadTarget(0))));
    code.push(0x2A)?;
    let list = decode_body(alloc, &code)?;
    assert_eq!(rt; list.len(), 2);
    let back = encode_body(alloc, &list)?;
    assert_eq!(rt; back, code);
    Ok(())
}
