//! What instructions do, above their opcodes (ECMA-335 III.3 and III.4).

ghost use Rattle.std.specs.Prelude.{◌≡◌, is_some};
ghost use Rattle.cil_decode.specs.Opcodes.{operand_of};
ghost use Rattle.cil_decode.specs.Operations.{operation_of, with_number};

use crate::instr::{Arg, Instr};
use crate::opcode::opcode_of;

/// How two values are compared.
#[derive(Clone, Copy, Debug, PartialEq, Eq)]
pub enum Comparison {
    /// Equal.
    Equal,
    /// Not equal.
    NotEqual,
    /// Greater or equal, as signed numbers.
    GreaterOrEqual,
    /// Greater, as signed numbers.
    Greater,
    /// Less or equal, as signed numbers.
    LessOrEqual,
    /// Less, as signed numbers.
    Less,
    /// Greater or equal, as unsigned numbers.
    GreaterOrEqualUnsigned,
    /// Greater, as unsigned numbers.
    GreaterUnsigned,
    /// Less or equal, as unsigned numbers.
    LessOrEqualUnsigned,
    /// Less, as unsigned numbers.
    LessUnsigned,
}

/// An operation of two numbers of one width.
#[derive(Clone, Copy, Debug, PartialEq, Eq)]
pub enum BinaryOperator {
    /// The sum, which wraps.
    Add,
    /// The difference, which wraps.
    Subtract,
    /// The product, which wraps.
    Multiply,
    /// The quotient of signed numbers, toward zero.
    Divide,
    /// The quotient of unsigned numbers.
    DivideUnsigned,
    /// The remainder of signed numbers.
    Remainder,
    /// The remainder of unsigned numbers.
    RemainderUnsigned,
    /// The bits that both have.
    And,
    /// The bits that one of them has.
    Or,
    /// The bits that exactly one of them has.
    Xor,
}

/// An operation of two numbers of one width that throws where the exact result is out of range.
#[derive(Clone, Copy, Debug, PartialEq, Eq)]
pub enum CheckedOperator {
    /// The sum of signed numbers.
    Add,
    /// The sum of unsigned numbers.
    AddUnsigned,
    /// The product of signed numbers.
    Multiply,
    /// The product of unsigned numbers.
    MultiplyUnsigned,
    /// The difference of signed numbers.
    Subtract,
    /// The difference of unsigned numbers.
    SubtractUnsigned,
}

/// A shift.
#[derive(Clone, Copy, Debug, PartialEq, Eq)]
pub enum ShiftOperator {
    /// To the left.
    Left,
    /// To the right, with copies of the sign.
    Right,
    /// To the right, with zeros.
    RightUnsigned,
}

/// A type of integers: its sign and how many bytes it has.
#[derive(Clone, Copy, Debug, PartialEq, Eq)]
pub enum IntegerType {
    /// Signed, one byte.
    I1,
    /// Unsigned, one byte.
    U1,
    /// Signed, two bytes.
    I2,
    /// Unsigned, two bytes.
    U2,
    /// Signed, four bytes.
    I4,
    /// Unsigned, four bytes.
    U4,
    /// Signed, eight bytes.
    I8,
    /// Unsigned, eight bytes.
    U8,
}

/// What an instruction does. The short forms of an opcode are one operation. Tokens and branch targets stay in the
/// instruction's operand.
#[derive(Clone, Copy, Debug, PartialEq, Eq)]
pub enum Operation {
    /// Nothing: `nop`.
    Nop,
    /// Pushes the argument of an index: `ldarg`.
    LoadArgument(u16),
    /// Pops the argument of an index: `starg`.
    StoreArgument(u16),
    /// Pushes the local of an index: `ldloc`.
    LoadLocal(u16),
    /// Pops the local of an index: `stloc`.
    StoreLocal(u16),
    /// Pushes null: `ldnull`.
    LoadNull,
    /// Pushes a number of four bytes: `ldc.i4`.
    LoadInt32(i32),
    /// Pushes a number of eight bytes: `ldc.i8`.
    LoadInt64(i64),
    /// Pushes the top again: `dup`.
    Duplicate,
    /// Pops the top: `pop`.
    Pop,
    /// Calls a method: `call`.
    Call,
    /// Calls the method that the object's type has: `callvirt`.
    CallVirtual,
    /// Creates an object and calls its constructor: `newobj`.
    NewObject,
    /// Returns: `ret`.
    Return,
    /// Jumps: `br`.
    Jump,
    /// Jumps on zero or null: `brfalse`.
    BranchFalse,
    /// Jumps where the value is neither zero nor null: `brtrue`.
    BranchTrue,
    /// Jumps where two values compare so: `beq`, `bge` and the others.
    Branch(Comparison),
    /// Jumps to the target of an index: `switch`.
    Switch,
    /// Replaces two numbers by the result of an operator: `add`, `sub` and the others.
    Binary(BinaryOperator),
    /// The same, and throws where the result is out of range: `add.ovf` and the others.
    Checked(CheckedOperator),
    /// Shifts a number: `shl`, `shr`, `shr.un`.
    Shift(ShiftOperator),
    /// Negates a number: `neg`.
    Negate,
    /// Inverts all bits: `not`.
    Not,
    /// Compares two values: `ceq`, `cgt` and the others.
    Compare(Comparison),
    /// Converts a number: `conv`.
    Convert(IntegerType),
    /// Pushes a string: `ldstr`.
    LoadString,
    /// Casts an object to a type, and throws where it has another: `castclass`.
    CastClass,
    /// Casts an object to a type, and gives null where it has another: `isinst`.
    IsInstance,
    /// Pushes an instance field: `ldfld`.
    LoadField,
    /// Pops an instance field: `stfld`.
    StoreField,
    /// Pushes a static field: `ldsfld`.
    LoadStaticField,
    /// Pops a static field: `stsfld`.
    StoreStaticField,
    /// Creates an array: `newarr`.
    NewArray,
    /// The length of an array: `ldlen`.
    LoadLength,
    /// Pushes an element: `ldelem`.
    LoadElement(IntegerType),
    /// Pops an element: `stelem`.
    StoreElement(IntegerType),
}

/// The operation with a number, where it has one.
fn with_number(operation: Operation, number: i64) -> Operation
    ensures { result ≡ with_number operation number }
{
    let bits = number.cast_unsigned();
    let index = (bits % 0x1_0000) as u16;
    match operation {
        Operation::LoadArgument(_) => Operation::LoadArgument(index),
        Operation::StoreArgument(_) => Operation::StoreArgument(index),
        Operation::LoadLocal(_) => Operation::LoadLocal(index),
        Operation::StoreLocal(_) => Operation::StoreLocal(index),
        Operation::LoadInt32(_) => Operation::LoadInt32(
            ((bits % 0x1_0000_0000) as u32).cast_signed(),
        ),
        Operation::LoadInt64(_) => Operation::LoadInt64(number),
        _ => operation,
    }
}

/// What an instruction does.
fn operation_of(instr: &Instr) -> Option<Operation>
    ensures { result ≡ operation_of instr.now }
{
    let opcode = opcode_of(instr.form)?;
    match &instr.arg {
        Arg::Num(number) => Some(with_number(opcode.operation, *number)),
        _ => Some(opcode.operation),
    }
}

impl Instr {
    /// What the instruction does, with the number of its operand (ECMA-335 III.3 and III.4): an index modulo 2^16, of a
    /// constant of four bytes the low 32 bits. `None` exactly where its opcode is outside the profile.
    pub fn operation(&self) -> Option<Operation>
        ensures operation { result ≡ operation_of self.now }
        ensures known { is_some result ≡ is_some (operand_of self.now.form) }
    {
        operation_of(self)
    }
}
