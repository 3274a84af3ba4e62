//! The instruction of a word.

ghost use Rattle.std.specs.Prelude.{◌≡◌, ◌≢◌, ◌↔◌, ◌∷◌, [], IfSome, IsNone};
ghost use Rattle.a64_code.specs.Table as table;
ghost use Rattle.a64_code.specs.Words.{InRange, IsWord, allowed as allowed_of, by_rows, instruction, word_of};
ghost use Rattle.a64_code.specs.declared.inst.Inst.{Inst};

use crate::fields::{
    BRANCH_COND, GROUP, HW, IMM6, IMM7, IMM12, IMM16, IMM19, IMM26, IMMHI, IMMLO, IMMR, IMMS, RA,
    RD, RM, RN, RT, RT2, S, SELECT_COND, SH, SHIFT,
};
use crate::inst::Inst;
use crate::laws::words_read_back;
use crate::rows;

/// The instruction of a word (Arm Architecture Reference Manual, C4.1). `None` exactly where the word is outside the
/// table: where it is that of no instruction in range. What it answers is in range, and [`encode`](crate::encode) gives
/// the word.
pub fn decode(word: u32) -> Option<Inst>
    ensures value { result ≡ instruction word }
    // Its fields are in range, and the word is its own.
    ensures written_back { IfSome result (λ inst. IsWord inst word) }
    // Outside are the words of no instruction.
    ensures outside { IsNone result ↔ ((inst : Inst) → InRange inst → word_of inst ≢ word) }
{
    words_read_back();
    by_group(word)
}

/// What a word has in bits 24 to 28 leaves few rows that it can have.
fn by_group(word: u32) -> Option<Inst>
    ensures { result ≡ instruction word }
{
    match GROUP.number(word) {
        0x08 | 0x09 => pairs(word),
        0x0A => logical(word),
        0x0B => add_subtract_register(word),
        0x10 => pc_relative(word),
        0x11 => add_subtract_immediate(word),
        0x12 => move_wide(word),
        0x13 => bitfield(word),
        0x14..=0x17 => branches(word),
        0x18 => register_offset(word),
        0x19 => unsigned_offset(word),
        0x1A => two_sources(word),
        0x1B => three_sources(word),
        _ => None,
    }
}

/// The instruction, if its row's own condition allows it.
fn allowed(inst: Inst) -> Option<Inst>
    ensures { result ≡ allowed_of inst }
{
    if inst.is_allowed() { Some(inst) } else { None }
}

/// Load and store of a register pair.
fn pairs(word: u32) -> Option<Inst>
    ensures { result ≡ by_rows (table.pair ∷ []) word }
{
    let rt = RT.register(word);
    let rn = RN.register(word);
    let rt2 = RT2.register(word);
    let imm7 = IMM7.number(word);
    let base = rows::PAIR.base_of(word)?;
    allowed(Inst::Pair {
        base,
        rt,
        rn,
        rt2,
        imm7,
    })
}

/// Logical (shifted register).
fn logical(word: u32) -> Option<Inst>
    ensures { result ≡ by_rows (table.logical_register ∷ table.or_not_register ∷ []) word }
{
    let rd = RD.register(word);
    let rn = RN.register(word);
    let imm6 = IMM6.number(word);
    let rm = RM.register(word);
    let shift = SHIFT.number(word);
    if let Some(base) = rows::LOGICAL_REGISTER.base_of(word) {
        return allowed(Inst::LogicalRegister {
            base,
            rd,
            rn,
            imm6,
            rm,
            shift,
        });
    }
    let base = rows::OR_NOT_REGISTER.base_of(word)?;
    allowed(Inst::OrNotRegister {
        base,
        rd,
        rn,
        imm6,
        rm,
        shift,
    })
}

/// Add and subtract (shifted register).
fn add_subtract_register(word: u32) -> Option<Inst>
    ensures { result ≡ by_rows (table.add_register ∷ table.sub_register ∷ []) word }
{
    let rd = RD.register(word);
    let rn = RN.register(word);
    let imm6 = IMM6.number(word);
    let rm = RM.register(word);
    let shift = SHIFT.number(word);
    if let Some(base) = rows::ADD_REGISTER.base_of(word) {
        return allowed(Inst::AddRegister {
            base,
            rd,
            rn,
            imm6,
            rm,
            shift,
        });
    }
    let base = rows::SUB_REGISTER.base_of(word)?;
    allowed(Inst::SubRegister {
        base,
        rd,
        rn,
        imm6,
        rm,
        shift,
    })
}

/// PC-relative addressing.
fn pc_relative(word: u32) -> Option<Inst>
    ensures { result ≡ by_rows (table.pc_relative ∷ []) word }
{
    let rd = RD.register(word);
    let immhi = IMMHI.number(word);
    let immlo = IMMLO.number(word);
    let base = rows::PC_RELATIVE.base_of(word)?;
    Some(Inst::PcRelative {
        base,
        rd,
        immhi,
        immlo,
    })
}

/// Add and subtract (immediate).
fn add_subtract_immediate(word: u32) -> Option<Inst>
    ensures { result ≡ by_rows (table.add_immediate ∷ table.sub_immediate ∷ []) word }
{
    let rd = RD.register(word);
    let rn = RN.register(word);
    let imm12 = IMM12.number(word);
    let sh = SH.number(word);
    if let Some(base) = rows::ADD_IMMEDIATE.base_of(word) {
        return Some(Inst::AddImmediate {
            base,
            rd,
            rn,
            imm12,
            sh,
        });
    }
    let base = rows::SUB_IMMEDIATE.base_of(word)?;
    Some(Inst::SubImmediate {
        base,
        rd,
        rn,
        imm12,
        sh,
    })
}

/// Move wide (immediate).
fn move_wide(word: u32) -> Option<Inst>
    ensures { result ≡ by_rows (table.move_wide ∷ []) word }
{
    let rd = RD.register(word);
    let imm16 = IMM16.number(word);
    let hw = HW.number(word);
    let base = rows::MOVE_WIDE.base_of(word)?;
    allowed(Inst::MoveWide {
        base,
        rd,
        imm16,
        hw,
    })
}

/// Bitfield.
fn bitfield(word: u32) -> Option<Inst>
    ensures { result ≡ by_rows (table.bitfield ∷ []) word }
{
    let rd = RD.register(word);
    let rn = RN.register(word);
    let imms = IMMS.number(word);
    let immr = IMMR.number(word);
    let base = rows::BITFIELD.base_of(word)?;
    allowed(Inst::Bitfield {
        base,
        rd,
        rn,
        imms,
        immr,
    })
}

/// Branches: to an offset, on a condition, on a register, to a register.
fn branches(word: u32) -> Option<Inst>
    ensures { result ≡ by_rows (table.branch ∷ table.branch_conditional
        ∷ table.compare_and_branch ∷ table.branch_register ∷ []) word }
{
    let imm19 = IMM19.number(word);
    if let Some(base) = rows::BRANCH.base_of(word) {
        return Some(Inst::Branch {
            base,
            imm26: IMM26.number(word),
        });
    }
    if let Some(base) = rows::BRANCH_CONDITIONAL.base_of(word) {
        return Some(Inst::BranchConditional {
            base,
            cond: BRANCH_COND.number(word),
            imm19,
        });
    }
    if let Some(base) = rows::COMPARE_AND_BRANCH.base_of(word) {
        return Some(Inst::CompareAndBranch {
            base,
            rt: RT.register(word),
            imm19,
        });
    }
    let base = rows::BRANCH_REGISTER.base_of(word)?;
    Some(Inst::BranchRegister {
        base,
        rn: RN.register(word),
    })
}

/// Load and store (register offset).
fn register_offset(word: u32) -> Option<Inst>
    ensures { result ≡ by_rows (table.store_register ∷ table.load_register ∷ table.load_signed_register ∷ []) word }
{
    let rt = RT.register(word);
    let rn = RN.register(word);
    let s = S.number(word);
    let rm = RM.register(word);
    if let Some(base) = rows::STORE_REGISTER.base_of(word) {
        return Some(Inst::StoreRegister {
            base,
            rt,
            rn,
            s,
            rm,
        });
    }
    if let Some(base) = rows::LOAD_REGISTER.base_of(word) {
        return Some(Inst::LoadRegister {
            base,
            rt,
            rn,
            s,
            rm,
        });
    }
    let base = rows::LOAD_SIGNED_REGISTER.base_of(word)?;
    Some(Inst::LoadSignedRegister {
        base,
        rt,
        rn,
        s,
        rm,
    })
}

/// Load and store (unsigned immediate).
fn unsigned_offset(word: u32) -> Option<Inst>
    ensures { result ≡ by_rows (table.store_immediate ∷ table.load_immediate
        ∷ table.load_signed_immediate_64 ∷ table.load_signed_immediate_32 ∷ []) word }
{
    let rt = RT.register(word);
    let rn = RN.register(word);
    let imm12 = IMM12.number(word);
    if let Some(base) = rows::STORE_IMMEDIATE.base_of(word) {
        return Some(Inst::StoreImmediate {
            base,
            rt,
            rn,
            imm12,
        });
    }
    if let Some(base) = rows::LOAD_IMMEDIATE.base_of(word) {
        return Some(Inst::LoadImmediate {
            base,
            rt,
            rn,
            imm12,
        });
    }
    if let Some(base) = rows::LOAD_SIGNED_IMMEDIATE_64.base_of(word) {
        return Some(Inst::LoadSignedImmediate64 {
            base,
            rt,
            rn,
            imm12,
        });
    }
    let base = rows::LOAD_SIGNED_IMMEDIATE_32.base_of(word)?;
    Some(Inst::LoadSignedImmediate32 {
        base,
        rt,
        rn,
        imm12,
    })
}

/// Data processing (2 source) and conditional select.
fn two_sources(word: u32) -> Option<Inst>
    ensures { result ≡ by_rows (table.divide ∷ table.shift_variable ∷ table.conditional_select ∷ []) word }
{
    let rd = RD.register(word);
    let rn = RN.register(word);
    let rm = RM.register(word);
    if let Some(base) = rows::DIVIDE.base_of(word) {
        return Some(Inst::Divide { base, rd, rn, rm });
    }
    if let Some(base) = rows::SHIFT_VARIABLE.base_of(word) {
        return Some(Inst::ShiftVariable { base, rd, rn, rm });
    }
    let base = rows::CONDITIONAL_SELECT.base_of(word)?;
    Some(Inst::ConditionalSelect {
        base,
        rd,
        rn,
        cond: SELECT_COND.number(word),
        rm,
    })
}

/// Data processing (3 source).
fn three_sources(word: u32) -> Option<Inst>
    ensures { result ≡ by_rows (table.multiply_add ∷ table.multiply_long ∷ table.multiply_high ∷ []) word }
{
    let rd = RD.register(word);
    let rn = RN.register(word);
    let rm = RM.register(word);
    if let Some(base) = rows::MULTIPLY_ADD.base_of(word) {
        return Some(Inst::MultiplyAdd {
            base,
            rd,
            rn,
            ra: RA.register(word),
            rm,
        });
    }
    if let Some(base) = rows::MULTIPLY_LONG.base_of(word) {
        return Some(Inst::MultiplyLong { base, rd, rn, rm });
    }
    let base = rows::MULTIPLY_HIGH.base_of(word)?;
    Some(Inst::MultiplyHigh { base, rd, rn, rm })
}
