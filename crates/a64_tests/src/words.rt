//! Words from another assembler, with the fields that another decoder gave, and words beside the rows (`a64_code`).

use a64_code::{Inst, decode, encode};
use std::test::Fail;

/// A word a line, and its instruction.
const WORDS: &str = "8b020020 AddRegister { base: 1, rd: 0, rn: 1, imm6: 0, rm: 2, shift: 0 }
1aca0d29 Divide { base: 0, rd: 9, rn: 9, rm: 10 }
d65f03c0 BranchRegister { base: 2, rn: 30 }
11000400 AddImmediate { base: 0, rd: 0, rn: 0, imm12: 1, sh: 0 }
11000800 AddImmediate { base: 0, rd: 0, rn: 0, imm12: 2, sh: 0 }
14000000 Branch { base: 0, imm26: 0 }
d17fffff SubImmediate { base: 1, rd: 31, rn: 31, imm12: 4095, sh: 1 }
31048c83 AddImmediate { base: 2, rd: 3, rn: 4, imm12: 291, sh: 0 }
eb8afd3f SubRegister { base: 3, rd: 31, rn: 9, imm6: 63, rm: 10, shift: 2 }
0ac37c41 LogicalRegister { base: 0, rd: 1, rn: 2, imm6: 31, rm: 3, shift: 3 }
ca1cffbe LogicalRegister { base: 5, rd: 30, rn: 29, imm6: 63, rm: 28, shift: 0 }
2a2603e5 OrNotRegister { base: 0, rd: 5, rn: 31, imm6: 0, rm: 6, shift: 0 }
9b039041 MultiplyAdd { base: 3, rd: 1, rn: 2, ra: 4, rm: 3 }
9ba37c41 MultiplyLong { base: 1, rd: 1, rn: 2, rm: 3 }
9b497d07 MultiplyHigh { base: 0, rd: 7, rn: 8, rm: 9 }
1ac32841 ShiftVariable { base: 4, rd: 1, rn: 2, rm: 3 }
937ff841 Bitfield { base: 1, rd: 1, rn: 2, imms: 62, immr: 63 }
531f7841 Bitfield { base: 2, rd: 1, rn: 2, imms: 30, immr: 31 }
f2f579a9 MoveWide { base: 5, rd: 9, imm16: 43981, hw: 3 }
12a00029 MoveWide { base: 0, rd: 9, imm16: 1, hw: 1 }
793ffc41 StoreImmediate { base: 1, rt: 1, rn: 2, imm12: 4095 }
f97fffeb LoadImmediate { base: 3, rt: 11, rn: 31, imm12: 4095 }
b9800441 LoadSignedImmediate64 { base: 2, rt: 1, rn: 2, imm12: 1 }
79c00441 LoadSignedImmediate32 { base: 1, rt: 1, rn: 2, imm12: 1 }
f8237841 StoreRegister { base: 3, rt: 1, rn: 2, s: 1, rm: 3 }
38636be1 LoadRegister { base: 0, rt: 1, rn: 31, s: 0, rm: 3 }
38e37841 LoadSignedRegister { base: 3, rt: 1, rn: 2, s: 1, rm: 3 }
b8a36841 LoadSignedRegister { base: 2, rt: 1, rn: 2, s: 0, rm: 3 }
a9bf7bfd Pair { base: 0, rt: 29, rn: 31, rt2: 30, imm7: 126 }
a8df7bfd Pair { base: 1, rt: 29, rn: 31, rt2: 30, imm7: 62 }
10ffffe1 PcRelative { base: 0, rd: 1, immhi: 524287, immlo: 0 }
90000002 PcRelative { base: 1, rd: 2, immhi: 0, immlo: 0 }
97ffffff Branch { base: 1, imm26: 67108863 }
5400004d BranchConditional { base: 0, cond: 13, imm19: 2 }
b5800003 CompareAndBranch { base: 3, rt: 3, imm19: 262144 }
d63f0200 BranchRegister { base: 1, rn: 16 }
1a838041 ConditionalSelect { base: 0, rd: 1, rn: 2, cond: 8, rm: 3 }
9a82b43f ConditionalSelect { base: 3, rd: 31, rn: 1, cond: 11, rm: 2 }
a9800020 Pair { base: 0, rt: 0, rn: 1, rt2: 0, imm7: 0 }
a8c007e0 Pair { base: 1, rt: 0, rn: 31, rt2: 1, imm7: 0 }
f2e00020 MoveWide { base: 5, rd: 0, imm16: 1, hw: 3 }
d3400000 Bitfield { base: 3, rd: 0, rn: 0, imms: 0, immr: 0 }
00000000 outside
0bc20020 outside
0b028020 outside
0a028020 outside
9b207820 outside
1b208000 outside
1ac21020 outside
53408000 outside
53208000 outside
53008000 outside
52c00020 outside
b9c00000 outside
b8e06820 outside
38204820 outside
a9800400 outside
a8c00000 outside
a8c07fff outside
54000010 outside
d61f0001 outside
d65f0bff outside
1a800800 outside
36000000 outside
d3000000 outside
a9a00020 Pair { base: 0, rt: 0, rn: 1, rt2: 0, imm7: 64 }
";

#[test]
fn words(rt: HostRuntime) -> Result<(), Fail> {
    for line in WORDS.lines() {
        let (word, text) = line.split_once(' ').ok_or("no word")?;
        let word = u32::from_str_radix(word, 16)?;
        match decode(word) {
            Some(inst) => {
                assert_eq!(rt; format!(in rt.alloc(); "{inst:?}")?.as_str(), text);
                assert_eq!(rt; encode(inst), word);
                assert!(rt; inst.is_in_range());
            }
            None => assert_eq!(rt; "outside", text),
        }
    }
    Ok(())
}

#[test]
fn out_of_range(rt: HostRuntime) {
    let no_base = Inst::BranchRegister { base: 3, rn: 30 };
    assert!(rt; !no_base.is_in_range());
    let wide = Inst::Branch {
        base: 0,
        imm26: 0x400_0000,
    };
    assert!(rt; !wide.is_in_range());
    let same = Inst::Pair {
        base: 1,
        rt: 9,
        rn: 31,
        rt2: 9,
        imm7: 0,
    };
    assert!(rt; !same.is_in_range());
}
