//! A method's code from its instructions.

ghost use Rattle.std.specs.Prelude.{◌≡◌, ◌+◌, ◌++◌, ◌≤◌, ◌<◌, ◌^◌, ℕ, List, All, IfOk, OnOk};
ghost use Rattle.byteorder.specs.Endian.{little_bytes};
ghost use Rattle.cil_decode.specs.Bodies.{AreBytes, IsBody, IsDecoded};
ghost use Rattle.cil_decode.specs.Encoding.{arg_bytes, code_bytes, distance, distances, form_bytes, instr_bytes};
ghost use Rattle.cil_decode.specs.Instructions.{instr_size};

use crate::instr::{Arg, Instr};
use crate::opcode::operand_of;
use rtr_bytes::NoMemory;
use std::alloc::Global;

/// Appends an opcode.
fn put_form(out: &mut Vec<u8>, form: u16) -> Result<(), NoMemory>
    ensures { OnOk result (out.new.items ≡ out.old.items ++ form_bytes form) }
{
    let low = (form % 0x100) as u8;
    if form < 0x100 {
        out.push(low)?;
    } else {
        out.extend_from_slice(&[0xFE, low])?;
    }
    Ok(())
}

/// Appends the lowest bytes of a number, the lowest first.
fn put_number(out: &mut Vec<u8>, size: u32, number: u64) -> Result<(), NoMemory>
    requires { size ≤ 8 }
    ensures { OnOk result (out.new.items ≡ out.old.items ++ little_bytes size number) }
{
    out.extend_from_slice(&number.to_le_bytes()[..size as usize])?;
    Ok(())
}

/// How far a target is from the next instruction, modulo 2^32.
fn distance(next: u32, at: u32) -> u32
    ensures { result ≡ distance next at }
{
    at.wrapping_sub(next)
}

/// Appends the targets of a `switch`, each as its distance from the next instruction.
fn put_distances(out: &mut Vec<u8>, next: u32, targets: &[u32]) -> Result<(), NoMemory>
    ensures { OnOk result (out.new.items ≡ out.old.items ++ distances next targets.now) }
{
    for at in targets {
        out.extend_from_slice(&distance(next, *at).to_le_bytes())?;
    }
    Ok(())
}

/// Appends an operand of a size, after which the next instruction begins at an offset.
fn put_arg(out: &mut Vec<u8>, size: u32, next: u32, arg: &Arg) -> Result<(), NoMemory>
    requires { size ≤ 8 }
    ensures { OnOk result (out.new.items ≡ out.old.items ++ arg_bytes size next arg.now) }
{
    match arg {
        Arg::Nothing => Ok(()),
        Arg::Num(number) => put_number(out, size, number.cast_unsigned()),
        Arg::Token(token) => put_number(out, size, u64::from(*token)),
        Arg::Target(at) => put_number(out, size, u64::from(distance(next, *at))),
        Arg::Targets(targets) => {
            put_number(out, size, targets.len() as u64)?;
            put_distances(out, next, targets.as_slice())
        }
    }
}

/// Appends an instruction.
#[tactic(auto, unfolding(crate::specs::Encoding::instr_bytes))]
fn put_instr(out: &mut Vec<u8>, instr: &Instr) -> Result<(), NoMemory>
    requires { instr.now.at + instr_size instr.now ≤ 2 ^ 31 }
    ensures { OnOk result (out.new.items ≡ out.old.items ++ instr_bytes instr.now) }
{
    put_form(out, instr.form)?;
    match operand_of(instr.form) {
        Some(operand) => {
            let next = instr.at + instr.size();
            put_arg(out, operand.fixed_size(), next, &instr.arg)
        }
        None => Ok(()),
    }
}

/// How many bytes the code of instructions has: where the last one ends.
fn code_len(list: &[Instr]) -> u32
    requires { All (λ i. i.at + instr_size i ≤ 2 ^ 31) list.now }
{
    match list.last() {
        Some(last) => last.at + last.size(),
        None => 0,
    }
}

/// Appends instructions.
fn put_all(out: &mut Vec<u8>, list: &[Instr]) -> Result<(), NoMemory>
    requires { All (λ i. i.at + instr_size i ≤ 2 ^ 31) list.now }
    ensures { OnOk result (out.new.items ≡ out.old.items ++ code_bytes list.now) }
{
    for instr in list {
        put_instr(out, instr)?;
    }
    Ok(())
}

/// The code of instructions (ECMA-335 III.1.2 and III.1.7). They are all the instructions of some code, as
/// [`decode_body`](crate::decode_body) gives them. The answer is that code: no other one decodes to them.
/// `NoMemory` comes where memory is refused.
pub fn encode_body(alloc: Global, list: &[Instr]) -> Result<Vec<u8>, NoMemory>
    requires { IsDecoded list.now }
    ensures code { IfOk result (λ code. IsBody code.items list.now) }
    ensures only_code { IfOk result (λ code. (other : List ℕ) → AreBytes other → IsBody other list.now → code.items ≡ other) }
{
    let mut code = Vec::with_capacity(alloc, code_len(list) as usize)?;
    put_all(&mut code, list)?;
    Ok(code)
}
