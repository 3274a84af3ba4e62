//! The word of an instruction.

ghost use Rattle.std.specs.Prelude.{◌≡◌, ◌∷◌, []};
ghost use Rattle.a64_code.specs.Table as table;
ghost use Rattle.a64_code.specs.Words.{Fit, InRange, instruction, spread, word_of};

use crate::fields::{
    BRANCH_COND, HW, IMM6, IMM7, IMM12, IMM16, IMM19, IMM26, IMMHI, IMMLO, IMMR, IMMS, RA, RD, RM,
    RN, RT, RT2, S, SELECT_COND, SH, SHIFT,
};
use crate::inst::Inst;
use crate::laws::words_read_back;
use crate::rows;

/// The word of an instruction (Arm Architecture Reference Manual, C6.2). Its fields must be in range, which
/// [`Inst::is_in_range`] tests. [`decode`](crate::decode) gives the instruction of the word.
pub fn encode(inst: Inst) -> u32
    requires { InRange inst }
    ensures value { result ≡ word_of inst }
    // It is decoded to the instruction.
    ensures read_back { instruction result ≡ Some inst }
{
    words_read_back();
    word(inst)
}

/// The base and the fields at their places.
fn word(inst: Inst) -> u32
    requires { InRange inst }
    ensures { result ≡ word_of inst }
{
    match inst {
        Inst::AddImmediate {
            base,
            rd,
            rn,
            imm12,
            sh,
        } => rows::ADD_IMMEDIATE.base(base) + add_subtract_immediate(rd, rn, imm12, sh),
        Inst::SubImmediate {
            base,
            rd,
            rn,
            imm12,
            sh,
        } => rows::SUB_IMMEDIATE.base(base) + add_subtract_immediate(rd, rn, imm12, sh),
        Inst::AddRegister {
            base,
            rd,
            rn,
            imm6,
            rm,
            shift,
        } => rows::ADD_REGISTER.base(base) + shifted_register(rd, rn, imm6, rm, shift),
        Inst::SubRegister {
            base,
            rd,
            rn,
            imm6,
            rm,
            shift,
        } => rows::SUB_REGISTER.base(base) + shifted_register(rd, rn, imm6, rm, shift),
        Inst::LogicalRegister {
            base,
            rd,
            rn,
            imm6,
            rm,
            shift,
        } => rows::LOGICAL_REGISTER.base(base) + shifted_register(rd, rn, imm6, rm, shift),
        Inst::OrNotRegister {
            base,
            rd,
            rn,
            imm6,
            rm,
            shift,
        } => rows::OR_NOT_REGISTER.base(base) + shifted_register(rd, rn, imm6, rm, shift),
        Inst::MultiplyAdd {
            base,
            rd,
            rn,
            ra,
            rm,
        } => rows::MULTIPLY_ADD.base(base) + four_registers(rd, rn, ra, rm),
        Inst::MultiplyLong { base, rd, rn, rm } => rows::MULTIPLY_LONG.base(base)
            + three_registers(rd, rn, rm),
        Inst::MultiplyHigh { base, rd, rn, rm } => rows::MULTIPLY_HIGH.base(base)
            + three_registers(rd, rn, rm),
        Inst::Divide { base, rd, rn, rm } => rows::DIVIDE.base(base) + three_registers(rd, rn, rm),
        Inst::ShiftVariable { base, rd, rn, rm } => rows::SHIFT_VARIABLE.base(base)
            + three_registers(rd, rn, rm),
        Inst::Bitfield {
            base,
            rd,
            rn,
            imms,
            immr,
        } => rows::BITFIELD.base(base) + bitfield(rd, rn, imms, immr),
        Inst::MoveWide {
            base,
            rd,
            imm16,
            hw,
        } => rows::MOVE_WIDE.base(base) + move_wide(rd, imm16, hw),
        Inst::StoreImmediate {
            base,
            rt,
            rn,
            imm12,
        } => rows::STORE_IMMEDIATE.base(base) + unsigned_offset(rt, rn, imm12),
        Inst::LoadImmediate {
            base,
            rt,
            rn,
            imm12,
        } => rows::LOAD_IMMEDIATE.base(base) + unsigned_offset(rt, rn, imm12),
        Inst::LoadSignedImmediate64 {
            base,
            rt,
            rn,
            imm12,
        } => rows::LOAD_SIGNED_IMMEDIATE_64.base(base) + unsigned_offset(rt, rn, imm12),
        Inst::LoadSignedImmediate32 {
            base,
            rt,
            rn,
            imm12,
        } => rows::LOAD_SIGNED_IMMEDIATE_32.base(base) + unsigned_offset(rt, rn, imm12),
        Inst::StoreRegister {
            base,
            rt,
            rn,
            s,
            rm,
        } => rows::STORE_REGISTER.base(base) + register_offset(rt, rn, s, rm),
        Inst::LoadRegister {
            base,
            rt,
            rn,
            s,
            rm,
        } => rows::LOAD_REGISTER.base(base) + register_offset(rt, rn, s, rm),
        Inst::LoadSignedRegister {
            base,
            rt,
            rn,
            s,
            rm,
        } => rows::LOAD_SIGNED_REGISTER.base(base) + register_offset(rt, rn, s, rm),
        Inst::Pair {
            base,
            rt,
            rn,
            rt2,
            imm7,
        } => rows::PAIR.base(base) + pair(rt, rn, rt2, imm7),
        Inst::PcRelative {
            base,
            rd,
            immhi,
            immlo,
        } => rows::PC_RELATIVE.base(base) + pc_relative(rd, immhi, immlo),
        Inst::Branch { base, imm26 } => rows::BRANCH.base(base) + IMM26.put(imm26),
        Inst::BranchConditional { base, cond, imm19 } => rows::BRANCH_CONDITIONAL.base(base)
            + conditional_branch(cond, imm19),
        Inst::CompareAndBranch { base, rt, imm19 } => rows::COMPARE_AND_BRANCH.base(base)
            + compare_and_branch(rt, imm19),
        Inst::BranchRegister { base, rn } => rows::BRANCH_REGISTER.base(base) + RN.put(rn as u32),
        Inst::ConditionalSelect {
            base,
            rd,
            rn,
            cond,
            rm,
        } => rows::CONDITIONAL_SELECT.base(base) + conditional_select(rd, rn, cond, rm),
    }
}

/// Add and subtract (immediate).
fn add_subtract_immediate(rd: u8, rn: u8, imm12: u32, sh: u32) -> u32
    requires { Fit table.add_immediate.fields (rd ∷ rn ∷ imm12 ∷ sh ∷ []) }
    ensures { result ≡ spread table.add_immediate.fields (rd ∷ rn ∷ imm12 ∷ sh ∷ []) }
{
    RD.put(rd as u32) + RN.put(rn as u32) + IMM12.put(imm12) + SH.put(sh)
}

/// Operations on a shifted register.
fn shifted_register(rd: u8, rn: u8, imm6: u32, rm: u8, shift: u32) -> u32
    requires { Fit table.add_register.fields (rd ∷ rn ∷ imm6 ∷ rm ∷ shift ∷ []) }
    ensures { result ≡ spread table.add_register.fields (rd ∷ rn ∷ imm6 ∷ rm ∷ shift ∷ []) }
{
    RD.put(rd as u32) + RN.put(rn as u32) + IMM6.put(imm6) + RM.put(rm as u32) + SHIFT.put(shift)
}

/// Operations with four registers.
fn four_registers(rd: u8, rn: u8, ra: u8, rm: u8) -> u32
    requires { Fit table.multiply_add.fields (rd ∷ rn ∷ ra ∷ rm ∷ []) }
    ensures { result ≡ spread table.multiply_add.fields (rd ∷ rn ∷ ra ∷ rm ∷ []) }
{
    RD.put(rd as u32) + RN.put(rn as u32) + RA.put(ra as u32) + RM.put(rm as u32)
}

/// Operations with three registers.
fn three_registers(rd: u8, rn: u8, rm: u8) -> u32
    requires { Fit table.multiply_long.fields (rd ∷ rn ∷ rm ∷ []) }
    ensures { result ≡ spread table.multiply_long.fields (rd ∷ rn ∷ rm ∷ []) }
{
    RD.put(rd as u32) + RN.put(rn as u32) + RM.put(rm as u32)
}

/// Bit fields.
fn bitfield(rd: u8, rn: u8, imms: u32, immr: u32) -> u32
    requires { Fit table.bitfield.fields (rd ∷ rn ∷ imms ∷ immr ∷ []) }
    ensures { result ≡ spread table.bitfield.fields (rd ∷ rn ∷ imms ∷ immr ∷ []) }
{
    RD.put(rd as u32) + RN.put(rn as u32) + IMMS.put(imms) + IMMR.put(immr)
}

/// Moves of a 16-bit number.
fn move_wide(rd: u8, imm16: u32, hw: u32) -> u32
    requires { Fit table.move_wide.fields (rd ∷ imm16 ∷ hw ∷ []) }
    ensures { result ≡ spread table.move_wide.fields (rd ∷ imm16 ∷ hw ∷ []) }
{
    RD.put(rd as u32) + IMM16.put(imm16) + HW.put(hw)
}

/// Loads and stores (unsigned immediate).
fn unsigned_offset(rt: u8, rn: u8, imm12: u32) -> u32
    requires { Fit table.store_immediate.fields (rt ∷ rn ∷ imm12 ∷ []) }
    ensures { result ≡ spread table.store_immediate.fields (rt ∷ rn ∷ imm12 ∷ []) }
{
    RT.put(rt as u32) + RN.put(rn as u32) + IMM12.put(imm12)
}

/// Loads and stores (register offset).
fn register_offset(rt: u8, rn: u8, s: u32, rm: u8) -> u32
    requires { Fit table.store_register.fields (rt ∷ rn ∷ s ∷ rm ∷ []) }
    ensures { result ≡ spread table.store_register.fields (rt ∷ rn ∷ s ∷ rm ∷ []) }
{
    RT.put(rt as u32) + RN.put(rn as u32) + S.put(s) + RM.put(rm as u32)
}

/// Loads and stores of a pair.
fn pair(rt: u8, rn: u8, rt2: u8, imm7: u32) -> u32
    requires { Fit table.pair.fields (rt ∷ rn ∷ rt2 ∷ imm7 ∷ []) }
    ensures { result ≡ spread table.pair.fields (rt ∷ rn ∷ rt2 ∷ imm7 ∷ []) }
{
    RT.put(rt as u32) + RN.put(rn as u32) + RT2.put(rt2 as u32) + IMM7.put(imm7)
}

/// Addresses relative to the PC.
fn pc_relative(rd: u8, immhi: u32, immlo: u32) -> u32
    requires { Fit table.pc_relative.fields (rd ∷ immhi ∷ immlo ∷ []) }
    ensures { result ≡ spread table.pc_relative.fields (rd ∷ immhi ∷ immlo ∷ []) }
{
    RD.put(rd as u32) + IMMHI.put(immhi) + IMMLO.put(immlo)
}

/// Branches on a condition.
fn conditional_branch(cond: u32, imm19: u32) -> u32
    requires { Fit table.branch_conditional.fields (cond ∷ imm19 ∷ []) }
    ensures { result ≡ spread table.branch_conditional.fields (cond ∷ imm19 ∷ []) }
{
    BRANCH_COND.put(cond) + IMM19.put(imm19)
}

/// Branches on a register.
fn compare_and_branch(rt: u8, imm19: u32) -> u32
    requires { Fit table.compare_and_branch.fields (rt ∷ imm19 ∷ []) }
    ensures { result ≡ spread table.compare_and_branch.fields (rt ∷ imm19 ∷ []) }
{
    RT.put(rt as u32) + IMM19.put(imm19)
}

/// Selects on a condition.
fn conditional_select(rd: u8, rn: u8, cond: u32, rm: u8) -> u32
    requires { Fit table.conditional_select.fields (rd ∷ rn ∷ cond ∷ rm ∷ []) }
    ensures { result ≡ spread table.conditional_select.fields (rd ∷ rn ∷ cond ∷ rm ∷ []) }
{
    RD.put(rd as u32) + RN.put(rn as u32) + SELECT_COND.put(cond) + RM.put(rm as u32)
}
