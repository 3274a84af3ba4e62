//! The instructions, one variant for each row of the table.

ghost use Rattle.std.specs.Prelude.{◌≡◌};
ghost use Rattle.a64_code.specs.Words.{is_allowed, pair_allowed, width as width_of};

/// An instruction. `base` is the place, from 0, of its base among those of its row, in the order in which each variant
/// lists them; `w` is an operation of 32 bits and `x` one of 64. The other fields have the names of the Arm
/// Architecture Reference Manual (C6.2) and are as they are in the word, lowest first.
#[derive(Clone, Copy, Debug)]
pub enum Inst {
    /// Add (immediate): ADD w, ADD x, ADDS w, ADDS x.
    AddImmediate {
        base: u8,
        rd: u8,
        rn: u8,
        imm12: u32,
        sh: u32,
    },
    /// Subtract (immediate): SUB w, SUB x, SUBS w, SUBS x.
    SubImmediate {
        base: u8,
        rd: u8,
        rn: u8,
        imm12: u32,
        sh: u32,
    },
    /// Add (shifted register): ADD w, ADD x, ADDS w, ADDS x.
    AddRegister {
        base: u8,
        rd: u8,
        rn: u8,
        imm6: u32,
        rm: u8,
        shift: u32,
    },
    /// Subtract (shifted register): SUB w, SUB x, SUBS w, SUBS x.
    SubRegister {
        base: u8,
        rd: u8,
        rn: u8,
        imm6: u32,
        rm: u8,
        shift: u32,
    },
    /// Logical (shifted register): AND w, AND x, ORR w, ORR x, EOR w, EOR x.
    LogicalRegister {
        base: u8,
        rd: u8,
        rn: u8,
        imm6: u32,
        rm: u8,
        shift: u32,
    },
    /// Or of the complement (shifted register): ORN w, ORN x.
    OrNotRegister {
        base: u8,
        rd: u8,
        rn: u8,
        imm6: u32,
        rm: u8,
        shift: u32,
    },
    /// Multiply and add or subtract: MADD w, MADD x, MSUB w, MSUB x.
    MultiplyAdd {
        base: u8,
        rd: u8,
        rn: u8,
        ra: u8,
        rm: u8,
    },
    /// Multiply two 32-bit registers to 64 bits: SMULL, UMULL.
    MultiplyLong {
        base: u8,
        rd: u8,
        rn: u8,
        rm: u8,
    },
    /// The upper 64 bits of a product: SMULH, UMULH.
    MultiplyHigh {
        base: u8,
        rd: u8,
        rn: u8,
        rm: u8,
    },
    /// Divide: SDIV w, SDIV x, UDIV w, UDIV x.
    Divide {
        base: u8,
        rd: u8,
        rn: u8,
        rm: u8,
    },
    /// Shift by a register: LSLV w, LSLV x, LSRV w, LSRV x, ASRV w, ASRV x.
    ShiftVariable {
        base: u8,
        rd: u8,
        rn: u8,
        rm: u8,
    },
    /// Move a bit field: SBFM w, SBFM x, UBFM w, UBFM x.
    Bitfield {
        base: u8,
        rd: u8,
        rn: u8,
        imms: u32,
        immr: u32,
    },
    /// Move a 16-bit number: MOVN w, MOVN x, MOVZ w, MOVZ x, MOVK w, MOVK x.
    MoveWide {
        base: u8,
        rd: u8,
        imm16: u32,
        hw: u32,
    },
    /// Store (unsigned immediate): STRB, STRH, STR w, STR x.
    StoreImmediate {
        base: u8,
        rt: u8,
        rn: u8,
        imm12: u32,
    },
    /// Load (unsigned immediate): LDRB, LDRH, LDR w, LDR x.
    LoadImmediate {
        base: u8,
        rt: u8,
        rn: u8,
        imm12: u32,
    },
    /// Load and extend the sign to 64 bits (unsigned immediate): LDRSB x, LDRSH x, LDRSW.
    LoadSignedImmediate64 {
        base: u8,
        rt: u8,
        rn: u8,
        imm12: u32,
    },
    /// Load and extend the sign to 32 bits (unsigned immediate): LDRSB w, LDRSH w.
    LoadSignedImmediate32 {
        base: u8,
        rt: u8,
        rn: u8,
        imm12: u32,
    },
    /// Store (register offset): STRB, STRH, STR w, STR x.
    StoreRegister {
        base: u8,
        rt: u8,
        rn: u8,
        s: u32,
        rm: u8,
    },
    /// Load (register offset): LDRB, LDRH, LDR w, LDR x.
    LoadRegister {
        base: u8,
        rt: u8,
        rn: u8,
        s: u32,
        rm: u8,
    },
    /// Load and extend the sign (register offset): LDRSB x, LDRSH x, LDRSW, LDRSB w, LDRSH w.
    LoadSignedRegister {
        base: u8,
        rt: u8,
        rn: u8,
        s: u32,
        rm: u8,
    },
    /// Store or load two registers, with writeback: STP x pre-index, LDP x post-index.
    Pair {
        base: u8,
        rt: u8,
        rn: u8,
        rt2: u8,
        imm7: u32,
    },
    /// Address relative to the PC, or to its page of 4,096 bytes: ADR, ADRP.
    PcRelative {
        base: u8,
        rd: u8,
        immhi: u32,
        immlo: u32,
    },
    /// Branch: B, BL.
    Branch {
        base: u8,
        imm26: u32,
    },
    /// Branch on a condition: B.cond.
    BranchConditional {
        base: u8,
        cond: u32,
        imm19: u32,
    },
    /// Branch on a register that is 0, or is not: CBZ w, CBZ x, CBNZ w, CBNZ x.
    CompareAndBranch {
        base: u8,
        rt: u8,
        imm19: u32,
    },
    /// Branch to a register: BR, BLR, RET.
    BranchRegister {
        base: u8,
        rn: u8,
    },
    /// Select on a condition: CSEL w, CSEL x, CSINC w, CSINC x.
    ConditionalSelect {
        base: u8,
        rd: u8,
        rn: u8,
        cond: u32,
        rm: u8,
    },
}

impl Inst {
    /// Whether the row's own condition holds: the amount of a shift and the numbers of a bit field are below the width,
    /// ADD and SUB have no ROR, the place of a 16-bit number is in the register, and the registers of a pair differ.
    pub(crate) fn is_allowed(self) -> bool
        ensures { result ≡ is_allowed self }
    {
        match self {
            Inst::AddRegister {
                base,
                imm6,
                shift,
                ..
            }
            | Inst::SubRegister {
                base,
                imm6,
                shift,
                ..
            } => shift < 3 && imm6 < width(base),
            Inst::LogicalRegister { base, imm6, .. } | Inst::OrNotRegister { base, imm6, .. } => {
                imm6 < width(base)
            }
            Inst::Bitfield {
                base,
                imms,
                immr,
                ..
            } => imms < width(base) && immr < width(base),
            Inst::MoveWide { base, hw, .. } => hw < width(base) / 16,
            Inst::Pair {
                base,
                rt,
                rn,
                rt2,
                ..
            } => pair_is_allowed(base, rt, rn, rt2),
            _ => true,
        }
    }
}

/// How many bits an operation has, in rows whose bases alternate, 32 first.
fn width(base: u8) -> u32
    ensures { result ≡ width_of base }
{
    if base % 2 == 0 { 32 } else { 64 }
}

/// The stack pointer, as the base of an address.
const SP: u8 = 31;

/// The base of LDP among those of its row.
const LDP: u8 = 1;

/// Whether a pair with writeback does not use its base as a register of data, and LDP loads two registers.
fn pair_is_allowed(base: u8, rt: u8, rn: u8, rt2: u8) -> bool
    ensures { result ≡ pair_allowed base rt rn rt2 }
{
    (rn == SP || rn != rt && rn != rt2) && (base != LDP || rt != rt2)
}
