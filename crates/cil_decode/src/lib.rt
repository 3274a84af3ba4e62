//! The instructions of a method's code (ECMA-335 III), read and written.
//!
//! [`decode_body`] gives the instructions of a code, or the first one that it refuses. [`encode_body`] gives the code
//! of such instructions again. One table, [`OPCODES`], has the opcodes of the profile with their operands and operations;
//! [`Instr::operation`] gives what an instruction does.
#![tactic(auto)]

mod body;
mod encode;
mod instr;
mod opcode;
mod operand;
mod operation;
mod starts;

pub use body::{BodyRefusal, decode_body};
pub use encode::encode_body;
pub use instr::{Arg, Instr, Targets};
pub use opcode::{OPCODES, Opcode, Operand, opcode_of, operand_of};
pub use operation::{
    BinaryOperator, CheckedOperator, Comparison, IntegerType, Operation, ShiftOperator,
};
