//! Whether an instruction's fields are in range.

ghost use Rattle.std.specs.Prelude.{◌≡◌, ◌∷◌, ◌↔◌, [], IsTrue};
ghost use Rattle.a64_code.specs.Table as table;
ghost use Rattle.a64_code.specs.Words.{InRange, fit, parts_fit};

use crate::fields::{
    BRANCH_COND, HW, IMM6, IMM7, IMM12, IMM16, IMM19, IMM26, IMMHI, IMMLO, IMMR, IMMS, RA, RD, RM,
    RN, RT, RT2, S, SELECT_COND, SH, SHIFT,
};
use crate::inst::Inst;
use crate::rows;

impl Inst {
    /// Whether the instruction has a word: there is such a base, each value fits its field, and the row's own condition
    /// holds.
    pub fn is_in_range(self) -> bool
        ensures { IsTrue result ↔ InRange self }
    {
        self.parts_fit() && self.is_allowed()
    }

    /// Whether there is such a base, and each value fits its field.
    fn parts_fit(self) -> bool
        ensures { result ≡ parts_fit self }
    {
        match self {
            Inst::AddImmediate {
                base,
                rd,
                rn,
                imm12,
                sh,
            } => rows::ADD_IMMEDIATE.has(base) && add_subtract_immediate(rd, rn, imm12, sh),
            Inst::SubImmediate {
                base,
                rd,
                rn,
                imm12,
                sh,
            } => rows::SUB_IMMEDIATE.has(base) && add_subtract_immediate(rd, rn, imm12, sh),
            Inst::AddRegister {
                base,
                rd,
                rn,
                imm6,
                rm,
                shift,
            } => rows::ADD_REGISTER.has(base) && shifted_register(rd, rn, imm6, rm, shift),
            Inst::SubRegister {
                base,
                rd,
                rn,
                imm6,
                rm,
                shift,
            } => rows::SUB_REGISTER.has(base) && shifted_register(rd, rn, imm6, rm, shift),
            Inst::LogicalRegister {
                base,
                rd,
                rn,
                imm6,
                rm,
                shift,
            } => rows::LOGICAL_REGISTER.has(base) && shifted_register(rd, rn, imm6, rm, shift),
            Inst::OrNotRegister {
                base,
                rd,
                rn,
                imm6,
                rm,
                shift,
            } => rows::OR_NOT_REGISTER.has(base) && shifted_register(rd, rn, imm6, rm, shift),
            Inst::MultiplyAdd {
                base,
                rd,
                rn,
                ra,
                rm,
            } => rows::MULTIPLY_ADD.has(base) && four_registers(rd, rn, ra, rm),
            Inst::MultiplyLong { base, rd, rn, rm } => rows::MULTIPLY_LONG.has(base)
                && three_registers(rd, rn, rm),
            Inst::MultiplyHigh { base, rd, rn, rm } => rows::MULTIPLY_HIGH.has(base)
                && three_registers(rd, rn, rm),
            Inst::Divide { base, rd, rn, rm } => rows::DIVIDE.has(base)
                && three_registers(rd, rn, rm),
            Inst::ShiftVariable { base, rd, rn, rm } => rows::SHIFT_VARIABLE.has(base)
                && three_registers(rd, rn, rm),
            Inst::Bitfield {
                base,
                rd,
                rn,
                imms,
                immr,
            } => rows::BITFIELD.has(base) && bitfield(rd, rn, imms, immr),
            Inst::MoveWide {
                base,
                rd,
                imm16,
                hw,
            } => rows::MOVE_WIDE.has(base) && move_wide(rd, imm16, hw),
            Inst::StoreImmediate {
                base,
                rt,
                rn,
                imm12,
            } => rows::STORE_IMMEDIATE.has(base) && unsigned_offset(rt, rn, imm12),
            Inst::LoadImmediate {
                base,
                rt,
                rn,
                imm12,
            } => rows::LOAD_IMMEDIATE.has(base) && unsigned_offset(rt, rn, imm12),
            Inst::LoadSignedImmediate64 {
                base,
                rt,
                rn,
                imm12,
            } => rows::LOAD_SIGNED_IMMEDIATE_64.has(base) && unsigned_offset(rt, rn, imm12),
            Inst::LoadSignedImmediate32 {
                base,
                rt,
                rn,
                imm12,
            } => rows::LOAD_SIGNED_IMMEDIATE_32.has(base) && unsigned_offset(rt, rn, imm12),
            Inst::StoreRegister {
                base,
                rt,
                rn,
                s,
                rm,
            } => rows::STORE_REGISTER.has(base) && register_offset(rt, rn, s, rm),
            Inst::LoadRegister {
                base,
                rt,
                rn,
                s,
                rm,
            } => rows::LOAD_REGISTER.has(base) && register_offset(rt, rn, s, rm),
            Inst::LoadSignedRegister {
                base,
                rt,
                rn,
                s,
                rm,
            } => rows::LOAD_SIGNED_REGISTER.has(base) && register_offset(rt, rn, s, rm),
            Inst::Pair {
                base,
                rt,
                rn,
                rt2,
                imm7,
            } => rows::PAIR.has(base) && pair(rt, rn, rt2, imm7),
            Inst::PcRelative {
                base,
                rd,
                immhi,
                immlo,
            } => rows::PC_RELATIVE.has(base) && pc_relative(rd, immhi, immlo),
            Inst::Branch { base, imm26 } => rows::BRANCH.has(base) && IMM26.fits(imm26),
            Inst::BranchConditional { base, cond, imm19 } => rows::BRANCH_CONDITIONAL.has(base)
                && conditional_branch(cond, imm19),
            Inst::CompareAndBranch { base, rt, imm19 } => rows::COMPARE_AND_BRANCH.has(base)
                && compare_and_branch(rt, imm19),
            Inst::BranchRegister { base, rn } => rows::BRANCH_REGISTER.has(base)
                && RN.fits(rn as u32),
            Inst::ConditionalSelect {
                base,
                rd,
                rn,
                cond,
                rm,
            } => rows::CONDITIONAL_SELECT.has(base) && conditional_select(rd, rn, cond, rm),
        }
    }
}

/// Add and subtract (immediate).
fn add_subtract_immediate(rd: u8, rn: u8, imm12: u32, sh: u32) -> bool
    ensures { result ≡ fit table.add_immediate.fields (rd ∷ rn ∷ imm12 ∷ sh ∷ []) }
{
    RD.fits(rd as u32) && RN.fits(rn as u32) && IMM12.fits(imm12) && SH.fits(sh)
}

/// Operations on a shifted register.
fn shifted_register(rd: u8, rn: u8, imm6: u32, rm: u8, shift: u32) -> bool
    ensures { result ≡ fit table.add_register.fields (rd ∷ rn ∷ imm6 ∷ rm ∷ shift ∷ []) }
{
    RD.fits(rd as u32)
        && RN.fits(rn as u32)
        && IMM6.fits(imm6)
        && RM.fits(rm as u32)
        && SHIFT.fits(shift)
}

/// Operations with four registers.
fn four_registers(rd: u8, rn: u8, ra: u8, rm: u8) -> bool
    ensures { result ≡ fit table.multiply_add.fields (rd ∷ rn ∷ ra ∷ rm ∷ []) }
{
    RD.fits(rd as u32) && RN.fits(rn as u32) && RA.fits(ra as u32) && RM.fits(rm as u32)
}

/// Operations with three registers.
fn three_registers(rd: u8, rn: u8, rm: u8) -> bool
    ensures { result ≡ fit table.multiply_long.fields (rd ∷ rn ∷ rm ∷ []) }
{
    RD.fits(rd as u32) && RN.fits(rn as u32) && RM.fits(rm as u32)
}

/// Bit fields.
fn bitfield(rd: u8, rn: u8, imms: u32, immr: u32) -> bool
    ensures { result ≡ fit table.bitfield.fields (rd ∷ rn ∷ imms ∷ immr ∷ []) }
{
    RD.fits(rd as u32) && RN.fits(rn as u32) && IMMS.fits(imms) && IMMR.fits(immr)
}

/// Moves of a 16-bit number.
fn move_wide(rd: u8, imm16: u32, hw: u32) -> bool
    ensures { result ≡ fit table.move_wide.fields (rd ∷ imm16 ∷ hw ∷ []) }
{
    RD.fits(rd as u32) && IMM16.fits(imm16) && HW.fits(hw)
}

/// Loads and stores (unsigned immediate).
fn unsigned_offset(rt: u8, rn: u8, imm12: u32) -> bool
    ensures { result ≡ fit table.store_immediate.fields (rt ∷ rn ∷ imm12 ∷ []) }
{
    RT.fits(rt as u32) && RN.fits(rn as u32) && IMM12.fits(imm12)
}

/// Loads and stores (register offset).
fn register_offset(rt: u8, rn: u8, s: u32, rm: u8) -> bool
    ensures { result ≡ fit table.store_register.fields (rt ∷ rn ∷ s ∷ rm ∷ []) }
{
    RT.fits(rt as u32) && RN.fits(rn as u32) && S.fits(s) && RM.fits(rm as u32)
}

/// Loads and stores of a pair.
fn pair(rt: u8, rn: u8, rt2: u8, imm7: u32) -> bool
    ensures { result ≡ fit table.pair.fields (rt ∷ rn ∷ rt2 ∷ imm7 ∷ []) }
{
    RT.fits(rt as u32) && RN.fits(rn as u32) && RT2.fits(rt2 as u32) && IMM7.fits(imm7)
}

/// Addresses relative to the PC.
fn pc_relative(rd: u8, immhi: u32, immlo: u32) -> bool
    ensures { result ≡ fit table.pc_relative.fields (rd ∷ immhi ∷ immlo ∷ []) }
{
    RD.fits(rd as u32) && IMMHI.fits(immhi) && IMMLO.fits(immlo)
}

/// Branches on a condition.
fn conditional_branch(cond: u32, imm19: u32) -> bool
    ensures { result ≡ fit table.branch_conditional.fields (cond ∷ imm19 ∷ []) }
{
    BRANCH_COND.fits(cond) && IMM19.fits(imm19)
}

/// Branches on a register.
fn compare_and_branch(rt: u8, imm19: u32) -> bool
    ensures { result ≡ fit table.compare_and_branch.fields (rt ∷ imm19 ∷ []) }
{
    RT.fits(rt as u32) && IMM19.fits(imm19)
}

/// Selects on a condition.
fn conditional_select(rd: u8, rn: u8, cond: u32, rm: u8) -> bool
    ensures { result ≡ fit table.conditional_select.fields (rd ∷ rn ∷ cond ∷ rm ∷ []) }
{
    RD.fits(rd as u32) && RN.fits(rn as u32) && SELECT_COND.fits(cond) && RM.fits(rm as u32)
}
