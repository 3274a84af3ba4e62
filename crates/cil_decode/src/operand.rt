//! Reading an operand.

ghost use Rattle.std.specs.Prelude.{◌≡◌, ◌+◌, ◌*◌, ◌≤◌, ◌^◌, length, map, IfOk};
ghost use Rattle.std.specs.List.{range_with_len};
ghost use Rattle.rtr_bytes.specs.Field.{field_at};
ghost use Rattle.cil_decode.specs.Instructions.{fixed_operand_at, operand_at, signed_at, switch_operand_at, switch_target, target};

use crate::instr::Arg;
use crate::opcode::Operand;
use byteorder::{ByteOrder, LittleEndian};
use rtr_bytes::{NoMemory, Sequence, u16_at, u32_at, u32_or_zero};
use std::alloc::Global;

/// The byte at an offset. `None` where it passes the end.
fn u8_at(code: &[u8], at: u32) -> Option<u8>
    ensures { result ≡ field_at 1 code.now at }
{
    code.get(at as usize).copied()
}

/// The signed number in some bytes at an offset. `None` where they pass the end.
fn signed_at(code: &[u8], at: u32, size: usize) -> Option<i64>
    requires some { 1 ≤ size }
    requires most { size ≤ 8 }
    ensures { result ≡ signed_at code.now at size }
{
    let at = at as usize;
    if at + size <= code.len() {
        Some(LittleEndian::read_int(&code[at..], size))
    } else {
        None
    }
}

/// The offset that a distance of one byte names, counted from the next instruction.
fn short_target(next: u32, distance: u8) -> u32
    ensures { result ≡ target 1 next distance }
{
    let distance = u32::from(distance);
    let extended = if distance < 0x80 {
        distance
    } else {
        distance + 0xFFFF_FF00
    };
    next.wrapping_add(extended)
}

/// The offset that a distance of four bytes names, counted from the next instruction.
fn far_target(next: u32, distance: u32) -> u32
    ensures { result ≡ target 4 next distance }
{
    next.wrapping_add(distance)
}

/// An operand whose size depends on its kind alone.
fn fixed_operand_at(code: &[u8], at: u32, operand: Operand) -> Option<Arg>
    requires small { length code.now ≤ 2 ^ 31 }
    requires within { at ≤ length code.now }
    ensures { result ≡ fixed_operand_at code.now at operand }
{
    match operand {
        Operand::Nothing => Some(Arg::Nothing),
        Operand::UInt8 => Some(Arg::Num(i64::from(u8_at(code, at)?))),
        Operand::UInt16 => Some(Arg::Num(i64::from(u16_at(code, at)?))),
        Operand::Int8 => Some(Arg::Num(signed_at(code, at, 1)?)),
        Operand::Int32 => Some(Arg::Num(signed_at(code, at, 4)?)),
        Operand::Int64 => Some(Arg::Num(signed_at(code, at, 8)?)),
        Operand::Token => Some(Arg::Token(u32_at(code, at)?)),
        Operand::ShortTarget => Some(Arg::Target(short_target(at + 1, u8_at(code, at)?))),
        Operand::Target => Some(Arg::Target(far_target(at + 4, u32_at(code, at)?))),
        Operand::Targets => None,
    }
}

/// So many targets of a `switch`, whose distances begin at an offset and end before the next instruction.
fn targets_at(alloc: Global, code: &[u8], at: u32, count: u32) -> Result<Vec<u32>, NoMemory>
    requires small { length code.now ≤ 2 ^ 31 }
    requires within { at + 4 + 4 * count ≤ length code.now }
    ensures { IfOk result (λ targets. targets.items ≡ map (switch_target code.now at count) (range_with_len 0 count)) }
{
    let next = at + 4 + 4 * count;
    let mut targets = Vec::with_capacity(alloc, count as usize)?;
    for i in 0..count {
        targets.push(far_target(next, u32_or_zero(code, at + 4 + 4 * i)))?;
    }
    Ok(targets)
}

/// The targets of a `switch`.
fn switch_operand_at(alloc: Global, code: &[u8], at: u32) -> Result<Option<Arg>, NoMemory>
    requires small { length code.now ≤ 2 ^ 31 }
    requires within { at ≤ length code.now }
    ensures { IfOk result (λ arg. arg ≡ switch_operand_at code.now at) }
{
    let Some(count) = u32_at(code, at) else {
        return Ok(None);
    };
    if u64::from(at) + 4 + 4 * u64::from(count) > code.len() as u64 {
        return Ok(None);
    }
    let targets = targets_at(alloc, code, at, count)?;
    Ok(Some(Arg::Targets(Sequence::from_vec(targets))))
}

/// The operand at an offset. `None` where it passes the end.
#[tactic(auto, unfolding(crate::specs::Instructions::operand_at))]
pub(crate) fn operand_at(
    alloc: Global,
    code: &[u8],
    at: u32,
    operand: Operand,
) -> Result<Option<Arg>, NoMemory>
    requires small { length code.now ≤ 2 ^ 31 }
    requires within { at ≤ length code.now }
    ensures { IfOk result (λ arg. arg ≡ operand_at code.now at operand) }
{
    match operand {
        Operand::Targets => switch_operand_at(alloc, code, at),
        _ => Ok(fixed_operand_at(code, at, operand)),
    }
}
