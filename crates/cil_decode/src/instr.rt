//! Instructions.

ghost use Rattle.std.specs.Prelude.{◌≡◌, ◌≤◌, ◌<◌, ◌^◌, length, drop, ◌+◌, IfOk, IfErr, IfSome};
ghost use Rattle.cil_decode.specs.Instructions.{IsRefusedAt, form_in, form_size, instr_at, instr_size, operand_size};

use crate::body::BodyRefusal;
use crate::opcode::{Operand, operand_of};
use crate::operand::operand_at;
use rtr_bytes::Sequence;
use std::alloc::Global;

/// The targets of a `switch`, in order. Contracts see them as a list.
pub type Targets = Sequence<u32>;

/// The operand of an instruction.
#[derive(Debug, Drop)]
pub enum Arg {
    /// No operand.
    Nothing,
    /// A number: an index, or a constant.
    Num(i64),
    /// A metadata token.
    Token(u32),
    /// A branch target, as an offset in the code.
    Target(u32),
    /// The targets of a `switch`, as offsets in the code.
    Targets(Targets),
}

/// One instruction.
#[derive(Debug, Drop)]
pub struct Instr {
    /// Its offset in the code, in bytes.
    pub at: u32,
    /// Its opcode: one byte, or 0xFE00 and the second byte of two.
    pub form: u16,
    /// Its operand.
    pub arg: Arg,
}

/// The opcode that begins at an offset, as a form. `None` where it passes the end.
fn form_at(code: &[u8], at: u32) -> Option<u16>
    ensures form { result ≡ form_in (drop at code.now) }
    ensures within { IfSome result (λ form. at + form_size form ≤ length code.now) }
{
    match code.get(at as usize..)? {
        [] | [0xFE] => None,
        [0xFE, second, ..] => Some(0xFE00 + u16::from(*second)),
        [first, ..] => Some(u16::from(*first)),
    }
}

/// How many bytes an opcode has.
fn form_size(form: u16) -> u32
    ensures { result ≡ form_size form }
{
    if form < 0x100 { 1 } else { 2 }
}

impl Instr {
    /// The instruction at an offset of a code. Refused are one that passes the end, and one whose opcode is outside
    /// the profile.
    #[tactic(auto, unfolding(crate::specs::Instructions::instr_at))]
    pub(crate) fn read(alloc: Global, code: &[u8], at: u32) -> Result<Instr, BodyRefusal>
        requires small { length code.now ≤ 2 ^ 31 }
        requires within { at < length code.now }
        ensures read { IfOk result (λ i. instr_at code.now at ≡ Ok i) }
        ensures refused { IfErr result (λ e. IsRefusedAt code.now at e) }
        ensures inside { IfOk result (λ i. at + instr_size i ≤ length code.now) }
    {
        let Some(form) = form_at(code, at) else {
            return Err(BodyRefusal::Cut(at));
        };
        let Some(operand) = operand_of(form) else {
            return Err(BodyRefusal::OutOfProfile(at));
        };
        match operand_at(alloc, code, at + form_size(form), operand)? {
            Some(arg) => Ok(Instr { at, form, arg }),
            None => Err(BodyRefusal::Cut(at)),
        }
    }

    /// How many bytes it has.
    #[tactic(auto, unfolding(crate::specs::Instructions::instr_size))]
    pub(crate) fn size(&self) -> u32
        requires { instr_size self.now ≤ 2 ^ 31 }
        ensures { result ≡ instr_size self.now }
    {
        let Some(operand) = operand_of(self.form) else {
            return form_size(self.form);
        };
        form_size(self.form) + operand_size(operand, &self.arg)
    }
}

/// How many bytes an operand has.
fn operand_size(operand: Operand, arg: &Arg) -> u32
    requires { operand_size operand arg.now ≤ 2 ^ 31 }
    ensures { result ≡ operand_size operand arg.now }
{
    match (operand, arg) {
        (Operand::Targets, Arg::Targets(targets)) => 4 + 4 * targets.len() as u32,
        _ => operand.fixed_size(),
    }
}
