//! The opcodes of the profile, with the operand and the operation of each (ECMA-335 III.1.2, III.3 and III.4).

ghost use Rattle.std.specs.Prelude.{◌≡◌, ◌≤◌};
ghost use Rattle.cil_decode.specs.Instructions.{fixed_size};
ghost use Rattle.cil_decode.specs.Opcodes.{find_opcode, has_form, opcode_of, operand_of};

use crate::operation::{
    BinaryOperator, CheckedOperator, Comparison, IntegerType, Operation, ShiftOperator,
};

/// The operand that follows an opcode, by its bytes.
#[derive(Clone, Copy, Debug, PartialEq, Eq)]
pub enum Operand {
    /// No operand.
    Nothing,
    /// An unsigned number of one byte: the index of an argument or a local.
    UInt8,
    /// An unsigned number of two bytes: the index of an argument or a local.
    UInt16,
    /// A signed number of one byte.
    Int8,
    /// A signed number of four bytes.
    Int32,
    /// A signed number of eight bytes.
    Int64,
    /// A metadata token.
    Token,
    /// A branch target, as a signed distance of one byte from the next instruction.
    ShortTarget,
    /// A branch target, as a signed distance of four bytes from the next instruction.
    Target,
    /// The number of targets, and then each as a signed distance of four bytes from the next instruction.
    Targets,
}

impl Operand {
    /// How many bytes it has in a code. The targets of a `switch` are not counted.
    pub(crate) fn fixed_size(self) -> u32
        ensures size { result ≡ fixed_size self }
        ensures few { result ≤ 8 }
    {
        match self {
            Operand::Nothing => 0,
            Operand::UInt8 | Operand::Int8 | Operand::ShortTarget => 1,
            Operand::UInt16 => 2,
            Operand::Int32 | Operand::Token | Operand::Target | Operand::Targets => 4,
            Operand::Int64 => 8,
        }
    }
}

/// An opcode of the profile.
#[derive(Clone, Copy, Debug, PartialEq, Eq)]
pub struct Opcode {
    /// Its form: one byte, or 0xFE00 and the second byte of two.
    pub form: u16,
    /// The operand that follows it.
    pub operand: Operand,
    /// What it does. Where the operand is a number, the number here is 0, and the operand's takes its place.
    pub operation: Operation,
}

/// A row of the table.
macro_rules! opcode {
    ($form:literal => $operand:ident, $operation:expr) => {
        Opcode {
            form: $form,
            operand: Operand::$operand,
            operation: $operation,
        }
    };
}

/// The opcodes of the profile, ascending.
pub const OPCODES: [Opcode; 122] = [
    opcode!(0x00 => Nothing, Operation::Nop), // nop
    opcode!(0x02 => Nothing, Operation::LoadArgument(0)), // ldarg.0
    opcode!(0x03 => Nothing, Operation::LoadArgument(1)), // ldarg.1
    opcode!(0x04 => Nothing, Operation::LoadArgument(2)), // ldarg.2
    opcode!(0x05 => Nothing, Operation::LoadArgument(3)), // ldarg.3
    opcode!(0x06 => Nothing, Operation::LoadLocal(0)), // ldloc.0
    opcode!(0x07 => Nothing, Operation::LoadLocal(1)), // ldloc.1
    opcode!(0x08 => Nothing, Operation::LoadLocal(2)), // ldloc.2
    opcode!(0x09 => Nothing, Operation::LoadLocal(3)), // ldloc.3
    opcode!(0x0A => Nothing, Operation::StoreLocal(0)), // stloc.0
    opcode!(0x0B => Nothing, Operation::StoreLocal(1)), // stloc.1
    opcode!(0x0C => Nothing, Operation::StoreLocal(2)), // stloc.2
    opcode!(0x0D => Nothing, Operation::StoreLocal(3)), // stloc.3
    opcode!(0x0E => UInt8, Operation::LoadArgument(0)), // ldarg.s
    opcode!(0x10 => UInt8, Operation::StoreArgument(0)), // starg.s
    opcode!(0x11 => UInt8, Operation::LoadLocal(0)), // ldloc.s
    opcode!(0x13 => UInt8, Operation::StoreLocal(0)), // stloc.s
    opcode!(0x14 => Nothing, Operation::LoadNull), // ldnull
    opcode!(0x15 => Nothing, Operation::LoadInt32(-1)), // ldc.i4.m1
    opcode!(0x16 => Nothing, Operation::LoadInt32(0)), // ldc.i4.0
    opcode!(0x17 => Nothing, Operation::LoadInt32(1)), // ldc.i4.1
    opcode!(0x18 => Nothing, Operation::LoadInt32(2)), // ldc.i4.2
    opcode!(0x19 => Nothing, Operation::LoadInt32(3)), // ldc.i4.3
    opcode!(0x1A => Nothing, Operation::LoadInt32(4)), // ldc.i4.4
    opcode!(0x1B => Nothing, Operation::LoadInt32(5)), // ldc.i4.5
    opcode!(0x1C => Nothing, Operation::LoadInt32(6)), // ldc.i4.6
    opcode!(0x1D => Nothing, Operation::LoadInt32(7)), // ldc.i4.7
    opcode!(0x1E => Nothing, Operation::LoadInt32(8)), // ldc.i4.8
    opcode!(0x1F => Int8, Operation::LoadInt32(0)), // ldc.i4.s
    opcode!(0x20 => Int32, Operation::LoadInt32(0)), // ldc.i4
    opcode!(0x21 => Int64, Operation::LoadInt64(0)), // ldc.i8
    opcode!(0x25 => Nothing, Operation::Duplicate), // dup
    opcode!(0x26 => Nothing, Operation::Pop), // pop
    opcode!(0x28 => Token, Operation::Call), // call
    opcode!(0x2A => Nothing, Operation::Return), // ret
    opcode!(0x2B => ShortTarget, Operation::Jump), // br.s
    opcode!(0x2C => ShortTarget, Operation::BranchFalse), // brfalse.s
    opcode!(0x2D => ShortTarget, Operation::BranchTrue), // brtrue.s
    opcode!(0x2E => ShortTarget, Operation::Branch(Comparison::Equal)), // beq.s
    opcode!(0x2F => ShortTarget, Operation::Branch(Comparison::GreaterOrEqual)), // bge.s
    opcode!(0x30 => ShortTarget, Operation::Branch(Comparison::Greater)), // bgt.s
    opcode!(0x31 => ShortTarget, Operation::Branch(Comparison::LessOrEqual)), // ble.s
    opcode!(0x32 => ShortTarget, Operation::Branch(Comparison::Less)), // blt.s
    opcode!(0x33 => ShortTarget, Operation::Branch(Comparison::NotEqual)), // bne.un.s
    opcode!(0x34 => ShortTarget, Operation::Branch(Comparison::GreaterOrEqualUnsigned)), // bge.un.s
    opcode!(0x35 => ShortTarget, Operation::Branch(Comparison::GreaterUnsigned)), // bgt.un.s
    opcode!(0x36 => ShortTarget, Operation::Branch(Comparison::LessOrEqualUnsigned)), // ble.un.s
    opcode!(0x37 => ShortTarget, Operation::Branch(Comparison::LessUnsigned)), // blt.un.s
    opcode!(0x38 => Target, Operation::Jump), // br
    opcode!(0x39 => Target, Operation::BranchFalse), // brfalse
    opcode!(0x3A => Target, Operation::BranchTrue), // brtrue
    opcode!(0x3B => Target, Operation::Branch(Comparison::Equal)), // beq
    opcode!(0x3C => Target, Operation::Branch(Comparison::GreaterOrEqual)), // bge
    opcode!(0x3D => Target, Operation::Branch(Comparison::Greater)), // bgt
    opcode!(0x3E => Target, Operation::Branch(Comparison::LessOrEqual)), // ble
    opcode!(0x3F => Target, Operation::Branch(Comparison::Less)), // blt
    opcode!(0x40 => Target, Operation::Branch(Comparison::NotEqual)), // bne.un
    opcode!(0x41 => Target, Operation::Branch(Comparison::GreaterOrEqualUnsigned)), // bge.un
    opcode!(0x42 => Target, Operation::Branch(Comparison::GreaterUnsigned)), // bgt.un
    opcode!(0x43 => Target, Operation::Branch(Comparison::LessOrEqualUnsigned)), // ble.un
    opcode!(0x44 => Target, Operation::Branch(Comparison::LessUnsigned)), // blt.un
    opcode!(0x45 => Targets, Operation::Switch), // switch
    opcode!(0x58 => Nothing, Operation::Binary(BinaryOperator::Add)), // add
    opcode!(0x59 => Nothing, Operation::Binary(BinaryOperator::Subtract)), // sub
    opcode!(0x5A => Nothing, Operation::Binary(BinaryOperator::Multiply)), // mul
    opcode!(0x5B => Nothing, Operation::Binary(BinaryOperator::Divide)), // div
    opcode!(0x5C => Nothing, Operation::Binary(BinaryOperator::DivideUnsigned)), // div.un
    opcode!(0x5D => Nothing, Operation::Binary(BinaryOperator::Remainder)), // rem
    opcode!(0x5E => Nothing, Operation::Binary(BinaryOperator::RemainderUnsigned)), // rem.un
    opcode!(0x5F => Nothing, Operation::Binary(BinaryOperator::And)), // and
    opcode!(0x60 => Nothing, Operation::Binary(BinaryOperator::Or)), // or
    opcode!(0x61 => Nothing, Operation::Binary(BinaryOperator::Xor)), // xor
    opcode!(0x62 => Nothing, Operation::Shift(ShiftOperator::Left)), // shl
    opcode!(0x63 => Nothing, Operation::Shift(ShiftOperator::Right)), // shr
    opcode!(0x64 => Nothing, Operation::Shift(ShiftOperator::RightUnsigned)), // shr.un
    opcode!(0x65 => Nothing, Operation::Negate), // neg
    opcode!(0x66 => Nothing, Operation::Not), // not
    opcode!(0x67 => Nothing, Operation::Convert(IntegerType::I1)), // conv.i1
    opcode!(0x68 => Nothing, Operation::Convert(IntegerType::I2)), // conv.i2
    opcode!(0x69 => Nothing, Operation::Convert(IntegerType::I4)), // conv.i4
    opcode!(0x6A => Nothing, Operation::Convert(IntegerType::I8)), // conv.i8
    opcode!(0x6D => Nothing, Operation::Convert(IntegerType::U4)), // conv.u4
    opcode!(0x6E => Nothing, Operation::Convert(IntegerType::U8)), // conv.u8
    opcode!(0x6F => Token, Operation::CallVirtual), // callvirt
    opcode!(0x72 => Token, Operation::LoadString), // ldstr
    opcode!(0x73 => Token, Operation::NewObject), // newobj
    opcode!(0x74 => Token, Operation::CastClass), // castclass
    opcode!(0x75 => Token, Operation::IsInstance), // isinst
    opcode!(0x7B => Token, Operation::LoadField), // ldfld
    opcode!(0x7D => Token, Operation::StoreField), // stfld
    opcode!(0x7E => Token, Operation::LoadStaticField), // ldsfld
    opcode!(0x80 => Token, Operation::StoreStaticField), // stsfld
    opcode!(0x8D => Token, Operation::NewArray), // newarr
    opcode!(0x8E => Nothing, Operation::LoadLength), // ldlen
    opcode!(0x90 => Nothing, Operation::LoadElement(IntegerType::I1)), // ldelem.i1
    opcode!(0x91 => Nothing, Operation::LoadElement(IntegerType::U1)), // ldelem.u1
    opcode!(0x92 => Nothing, Operation::LoadElement(IntegerType::I2)), // ldelem.i2
    opcode!(0x93 => Nothing, Operation::LoadElement(IntegerType::U2)), // ldelem.u2
    opcode!(0x94 => Nothing, Operation::LoadElement(IntegerType::I4)), // ldelem.i4
    opcode!(0x95 => Nothing, Operation::LoadElement(IntegerType::U4)), // ldelem.u4
    opcode!(0x96 => Nothing, Operation::LoadElement(IntegerType::I8)), // ldelem.i8
    opcode!(0x9C => Nothing, Operation::StoreElement(IntegerType::I1)), // stelem.i1
    opcode!(0x9D => Nothing, Operation::StoreElement(IntegerType::I2)), // stelem.i2
    opcode!(0x9E => Nothing, Operation::StoreElement(IntegerType::I4)), // stelem.i4
    opcode!(0x9F => Nothing, Operation::StoreElement(IntegerType::I8)), // stelem.i8
    opcode!(0xD1 => Nothing, Operation::Convert(IntegerType::U2)), // conv.u2
    opcode!(0xD2 => Nothing, Operation::Convert(IntegerType::U1)), // conv.u1
    opcode!(0xD6 => Nothing, Operation::Checked(CheckedOperator::Add)), // add.ovf
    opcode!(0xD7 => Nothing, Operation::Checked(CheckedOperator::AddUnsigned)), // add.ovf.un
    opcode!(0xD8 => Nothing, Operation::Checked(CheckedOperator::Multiply)), // mul.ovf
    opcode!(0xD9 => Nothing, Operation::Checked(CheckedOperator::MultiplyUnsigned)), // mul.ovf.un
    opcode!(0xDA => Nothing, Operation::Checked(CheckedOperator::Subtract)), // sub.ovf
    opcode!(0xDB => Nothing, Operation::Checked(CheckedOperator::SubtractUnsigned)), // sub.ovf.un
    opcode!(0xFE01 => Nothing, Operation::Compare(Comparison::Equal)), // ceq
    opcode!(0xFE02 => Nothing, Operation::Compare(Comparison::Greater)), // cgt
    opcode!(0xFE03 => Nothing, Operation::Compare(Comparison::GreaterUnsigned)), // cgt.un
    opcode!(0xFE04 => Nothing, Operation::Compare(Comparison::Less)), // clt
    opcode!(0xFE05 => Nothing, Operation::Compare(Comparison::LessUnsigned)), // clt.un
    opcode!(0xFE09 => UInt16, Operation::LoadArgument(0)), // ldarg
    opcode!(0xFE0B => UInt16, Operation::StoreArgument(0)), // starg
    opcode!(0xFE0C => UInt16, Operation::LoadLocal(0)), // ldloc
    opcode!(0xFE0E => UInt16, Operation::StoreLocal(0)), // stloc
];

impl Opcode {
    /// Whether it has a form.
    fn has_form(&self, form: u16) -> bool
        ensures { result ≡ has_form form self.now }
    {
        self.form == form
    }
}

/// The first opcode of a table with a form.
fn find_opcode(table: &[Opcode], form: u16) -> Option<Opcode>
    ensures { result ≡ find_opcode table.now form }
{
    table.iter().copied().find(|opcode| opcode.has_form(form))
}

/// The opcode of a form: one byte, or 0xFE00 and the second byte of two (ECMA-335 III.1.2). `None` exactly where the
/// form is outside the profile.
#[tactic(auto, unfolding(crate::specs::Opcodes::opcode_of))]
pub fn opcode_of(form: u16) -> Option<Opcode>
    ensures { result ≡ opcode_of form }
{
    find_opcode(&OPCODES, form)
}

/// The operand of the opcode of a form. `None` exactly where the form is outside the profile.
#[tactic(auto, unfolding(crate::specs::Opcodes::operand_of))]
pub fn operand_of(form: u16) -> Option<Operand>
    ensures { result ≡ operand_of form }
{
    Some(opcode_of(form)?.operand)
}
