//! Numbers on the stack (ECMA-335 III.1.1.1 and III.1.5).

ghost use Rattle.std.specs.Prelude.{◌≡◌, ◌<◌, ◌^◌, Ok, Err};
ghost use Rattle.std.specs.Int.{w32, w64};
ghost use Rattle.cil_meaning.specs.Arithmetic.{binary, checked_binary, compares, inverted, narrowed, negated, shifted};
ghost use Rattle.cil_interp.specs.Words.{bits_of, converted, exact_of, kept_word, number, result_of};

use crate::code::Width;
use cil_decode::{BinaryOperator, CheckedOperator, Comparison, IntegerType, ShiftOperator};
use cil_meaning::Ending;

/// The low bits of a word, as a number of 32 bits.
fn low(word: u64) -> u32
    ensures { result ≡ number Width.Int32 word }
{
    (word % 0x1_0000_0000) as u32
}

/// The number that a word stands for.
pub(crate) fn number(width: Width, word: u64) -> u64
    ensures { result ≡ number width word }
{
    match width {
        Width::Int32 => word % 0x1_0000_0000,
        Width::Int64 => word,
    }
}

/// Two numbers of 32 bits by an operator that wraps. Division by zero ends the run, and so does that of the least number by -1.
#[tactic(auto, unfolding(cil_meaning::specs::Arithmetic::binary, crate::specs::Words::result_of))]
fn binary_u32(operator: BinaryOperator, x: u32, y: u32) -> Result<u32, Ending>
    ensures { result ≡ result_of (binary w32 operator x y) }
{
    Ok(match operator {
        BinaryOperator::Add => x.wrapping_add(y),
        BinaryOperator::Subtract => x.wrapping_sub(y),
        BinaryOperator::Multiply => x.wrapping_mul(y),
        BinaryOperator::Divide => return divided_u32(x, y),
        BinaryOperator::DivideUnsigned => return x.checked_div(y).ok_or(Ending::DivideByZero),
        BinaryOperator::Remainder => return remainder_u32(x, y),
        BinaryOperator::RemainderUnsigned => return x.checked_rem(y).ok_or(Ending::DivideByZero),
        BinaryOperator::And => x & y,
        BinaryOperator::Or => x | y,
        BinaryOperator::Xor => x ^ y,
    })
}

/// The quotient of signed numbers, toward zero.
#[tactic(auto, unfolding(cil_meaning::specs::Arithmetic::binary, crate::specs::Words::result_of))]
fn divided_u32(x: u32, y: u32) -> Result<u32, Ending>
    ensures { result ≡ result_of (binary w32 BinaryOperator.Divide x y) }
{
    if y == 0 {
        return Err(Ending::DivideByZero);
    }
    if x == 0x8000_0000 && y == u32::MAX {
        return Err(Ending::Overflow);
    }
    Ok((x.cast_signed() / y.cast_signed()).cast_unsigned())
}

/// The remainder of signed numbers.
#[tactic(auto, unfolding(cil_meaning::specs::Arithmetic::binary, crate::specs::Words::result_of))]
fn remainder_u32(x: u32, y: u32) -> Result<u32, Ending>
    ensures { result ≡ result_of (binary w32 BinaryOperator.Remainder x y) }
{
    if y == 0 {
        return Err(Ending::DivideByZero);
    }
    if x == 0x8000_0000 && y == u32::MAX {
        return Err(Ending::Overflow);
    }
    Ok((x.cast_signed() % y.cast_signed()).cast_unsigned())
}

/// Signed numbers by an operator, where the exact result is in range.
fn exact_u32(z: Option<i32>) -> Result<u32, Ending>
    ensures { result ≡ exact_of w32 z }
{
    match z {
        Some(z) => Ok(z.cast_unsigned()),
        None => Err(Ending::Overflow),
    }
}

/// Two numbers of 32 bits by an operator that ends the run where the exact result is out of range.
#[tactic(auto, unfolding(cil_meaning::specs::Arithmetic::checked_binary, crate::specs::Words::result_of))]
fn checked_u32(operator: CheckedOperator, x: u32, y: u32) -> Result<u32, Ending>
    ensures { result ≡ result_of (checked_binary w32 operator x y) }
{
    match operator {
        CheckedOperator::Add => exact_u32(x.cast_signed().checked_add(y.cast_signed())),
        CheckedOperator::AddUnsigned => x.checked_add(y).ok_or(Ending::Overflow),
        CheckedOperator::Multiply => exact_u32(x.cast_signed().checked_mul(y.cast_signed())),
        CheckedOperator::MultiplyUnsigned => x.checked_mul(y).ok_or(Ending::Overflow),
        CheckedOperator::Subtract => exact_u32(x.cast_signed().checked_sub(y.cast_signed())),
        CheckedOperator::SubtractUnsigned => x.checked_sub(y).ok_or(Ending::Overflow),
    }
}

/// A number of 32 bits, shifted by a count modulo 32.
#[tactic(auto, unfolding(cil_meaning::specs::Arithmetic::shifted))]
fn shifted_u32(operator: ShiftOperator, x: u32, count: u32) -> u32
    ensures { result ≡ shifted w32 operator x count }
{
    match operator {
        ShiftOperator::Left => x.wrapping_shl(count),
        ShiftOperator::Right => x.cast_signed().wrapping_shr(count).cast_unsigned(),
        ShiftOperator::RightUnsigned => x.wrapping_shr(count),
    }
}

/// Whether two numbers of 32 bits compare so.
#[tactic(auto, unfolding(cil_meaning::specs::Arithmetic::compares))]
fn compares_u32(comparison: Comparison, x: u32, y: u32) -> bool
    ensures { result ≡ compares w32 comparison x y }
{
    match comparison {
        Comparison::Equal => x == y,
        Comparison::NotEqual => x != y,
        Comparison::GreaterOrEqual => x.cast_signed() >= y.cast_signed(),
        Comparison::Greater => x.cast_signed() > y.cast_signed(),
        Comparison::LessOrEqual => x.cast_signed() <= y.cast_signed(),
        Comparison::Less => x.cast_signed() < y.cast_signed(),
        Comparison::GreaterOrEqualUnsigned => x >= y,
        Comparison::GreaterUnsigned => x > y,
        Comparison::LessOrEqualUnsigned => x <= y,
        Comparison::LessUnsigned => x < y,
    }
}

/// Two numbers of 64 bits by an operator that wraps. Division by zero ends the run, and so does that of the least number by -1.
#[tactic(auto, unfolding(cil_meaning::specs::Arithmetic::binary, crate::specs::Words::result_of))]
fn binary_u64(operator: BinaryOperator, x: u64, y: u64) -> Result<u64, Ending>
    ensures { result ≡ result_of (binary w64 operator x y) }
{
    Ok(match operator {
        BinaryOperator::Add => x.wrapping_add(y),
        BinaryOperator::Subtract => x.wrapping_sub(y),
        BinaryOperator::Multiply => x.wrapping_mul(y),
        BinaryOperator::Divide => return divided_u64(x, y),
        BinaryOperator::DivideUnsigned => return x.checked_div(y).ok_or(Ending::DivideByZero),
        BinaryOperator::Remainder => return remainder_u64(x, y),
        BinaryOperator::RemainderUnsigned => return x.checked_rem(y).ok_or(Ending::DivideByZero),
        BinaryOperator::And => x & y,
        BinaryOperator::Or => x | y,
        BinaryOperator::Xor => x ^ y,
    })
}

/// The quotient of signed numbers, toward zero.
#[tactic(auto, unfolding(cil_meaning::specs::Arithmetic::binary, crate::specs::Words::result_of))]
fn divided_u64(x: u64, y: u64) -> Result<u64, Ending>
    ensures { result ≡ result_of (binary w64 BinaryOperator.Divide x y) }
{
    if y == 0 {
        return Err(Ending::DivideByZero);
    }
    if x == 0x8000_0000_0000_0000 && y == u64::MAX {
        return Err(Ending::Overflow);
    }
    Ok((x.cast_signed() / y.cast_signed()).cast_unsigned())
}

/// The remainder of signed numbers.
#[tactic(auto, unfolding(cil_meaning::specs::Arithmetic::binary, crate::specs::Words::result_of))]
fn remainder_u64(x: u64, y: u64) -> Result<u64, Ending>
    ensures { result ≡ result_of (binary w64 BinaryOperator.Remainder x y) }
{
    if y == 0 {
        return Err(Ending::DivideByZero);
    }
    if x == 0x8000_0000_0000_0000 && y == u64::MAX {
        return Err(Ending::Overflow);
    }
    Ok((x.cast_signed() % y.cast_signed()).cast_unsigned())
}

/// Signed numbers by an operator, where the exact result is in range.
fn exact_u64(z: Option<i64>) -> Result<u64, Ending>
    ensures { result ≡ exact_of w64 z }
{
    match z {
        Some(z) => Ok(z.cast_unsigned()),
        None => Err(Ending::Overflow),
    }
}

/// Two numbers of 64 bits by an operator that ends the run where the exact result is out of range.
#[tactic(auto, unfolding(cil_meaning::specs::Arithmetic::checked_binary, crate::specs::Words::result_of))]
fn checked_u64(operator: CheckedOperator, x: u64, y: u64) -> Result<u64, Ending>
    ensures { result ≡ result_of (checked_binary w64 operator x y) }
{
    match operator {
        CheckedOperator::Add => exact_u64(x.cast_signed().checked_add(y.cast_signed())),
        CheckedOperator::AddUnsigned => x.checked_add(y).ok_or(Ending::Overflow),
        CheckedOperator::Multiply => exact_u64(x.cast_signed().checked_mul(y.cast_signed())),
        CheckedOperator::MultiplyUnsigned => x.checked_mul(y).ok_or(Ending::Overflow),
        CheckedOperator::Subtract => exact_u64(x.cast_signed().checked_sub(y.cast_signed())),
        CheckedOperator::SubtractUnsigned => x.checked_sub(y).ok_or(Ending::Overflow),
    }
}

/// A number of 64 bits, shifted by a count modulo 64.
#[tactic(auto, unfolding(cil_meaning::specs::Arithmetic::shifted))]
fn shifted_u64(operator: ShiftOperator, x: u64, count: u32) -> u64
    ensures { result ≡ shifted w64 operator x count }
{
    match operator {
        ShiftOperator::Left => x.wrapping_shl(count),
        ShiftOperator::Right => x.cast_signed().wrapping_shr(count).cast_unsigned(),
        ShiftOperator::RightUnsigned => x.wrapping_shr(count),
    }
}

/// Whether two numbers of 64 bits compare so.
#[tactic(auto, unfolding(cil_meaning::specs::Arithmetic::compares))]
fn compares_u64(comparison: Comparison, x: u64, y: u64) -> bool
    ensures { result ≡ compares w64 comparison x y }
{
    match comparison {
        Comparison::Equal => x == y,
        Comparison::NotEqual => x != y,
        Comparison::GreaterOrEqual => x.cast_signed() >= y.cast_signed(),
        Comparison::Greater => x.cast_signed() > y.cast_signed(),
        Comparison::LessOrEqual => x.cast_signed() <= y.cast_signed(),
        Comparison::Less => x.cast_signed() < y.cast_signed(),
        Comparison::GreaterOrEqualUnsigned => x >= y,
        Comparison::GreaterUnsigned => x > y,
        Comparison::LessOrEqualUnsigned => x <= y,
        Comparison::LessUnsigned => x < y,
    }
}

/// Two numbers by an operator that wraps.
pub(crate) fn binary(width: Width, operator: BinaryOperator, x: u64, y: u64) -> Result<u64, Ending>
    ensures { result ≡ result_of (binary (bits_of width) operator (number width x) (number width y)) }
{
    match width {
        Width::Int32 => Ok(u64::from(binary_u32(operator, low(x), low(y))?)),
        Width::Int64 => binary_u64(operator, x, y),
    }
}

/// Two numbers by an operator that ends the run where the exact result is out of range.
pub(crate) fn checked(
    width: Width,
    operator: CheckedOperator,
    x: u64,
    y: u64,
) -> Result<u64, Ending>
    ensures { result ≡ result_of (checked_binary (bits_of width) operator (number width x) (number width y)) }
{
    match width {
        Width::Int32 => Ok(u64::from(checked_u32(operator, low(x), low(y))?)),
        Width::Int64 => checked_u64(operator, x, y),
    }
}

/// A number, shifted by a count modulo its width.
pub(crate) fn shifted(width: Width, operator: ShiftOperator, x: u64, count: u64) -> u64
    ensures { result ≡ shifted (bits_of width) operator (number width x) (number Width.Int32 count) }
{
    match width {
        Width::Int32 => u64::from(shifted_u32(operator, low(x), low(count))),
        Width::Int64 => shifted_u64(operator, x, low(count)),
    }
}

/// Whether two numbers compare so.
pub(crate) fn compares(width: Width, comparison: Comparison, x: u64, y: u64) -> bool
    ensures { result ≡ compares (bits_of width) comparison (number width x) (number width y) }
{
    match width {
        Width::Int32 => compares_u32(comparison, low(x), low(y)),
        Width::Int64 => compares_u64(comparison, x, y),
    }
}

/// Zero less a number, which wraps.
pub(crate) fn negated(width: Width, x: u64) -> u64
    ensures { result ≡ negated (bits_of width) (number width x) }
{
    match width {
        Width::Int32 => u64::from(0u32.wrapping_sub(low(x))),
        Width::Int64 => 0u64.wrapping_sub(x),
    }
}

/// All bits of a number inverted.
pub(crate) fn inverted(width: Width, x: u64) -> u64
    ensures { result ≡ inverted (bits_of width) (number width x) }
{
    match width {
        Width::Int32 => u64::from(u32::MAX - low(x)),
        Width::Int64 => u64::MAX - x,
    }
}

/// A number of 8 bits with a sign, in 32 bits.
#[tactic(auto, unfolding(cil_meaning::specs::Arithmetic::narrowed))]
fn signed_byte(word: u64) -> u64
    ensures { result ≡ narrowed IntegerType.I1 word }
{
    let n = word % 0x100;
    if n < 0x80 { n } else { 0xFFFF_FF00 + n }
}

/// A number of 16 bits with a sign, in 32 bits.
#[tactic(auto, unfolding(cil_meaning::specs::Arithmetic::narrowed))]
fn signed_short(word: u64) -> u64
    ensures { result ≡ narrowed IntegerType.I2 word }
{
    let n = word % 0x1_0000;
    if n < 0x8000 { n } else { 0xFFFF_0000 + n }
}

/// The low bits of a number that an integer type keeps, widened again.
#[tactic(auto, unfolding(cil_meaning::specs::Arithmetic::narrowed))]
fn narrowed(of: IntegerType, word: u64) -> u64
    ensures { result ≡ narrowed of word }
{
    match of {
        IntegerType::I1 => signed_byte(word),
        IntegerType::U1 => word % 0x100,
        IntegerType::I2 => signed_short(word),
        IntegerType::U2 => word % 0x1_0000,
        IntegerType::I4 | IntegerType::U4 => word % 0x1_0000_0000,
        IntegerType::I8 | IntegerType::U8 => word,
    }
}

/// A word as a place of an integer type keeps it.
#[tactic(auto, unfolding(cil_meaning::specs::Arithmetic::narrowed, crate::specs::Words::kept_word))]
pub(crate) fn kept_word(of: IntegerType, word: u64) -> u64
    ensures { result ≡ kept_word of word }
{
    match of {
        IntegerType::I8 | IntegerType::U8 => word,
        _ => narrowed(of, word % 0x1_0000_0000),
    }
}

/// A number of 32 bits with a sign, in 64 bits.
#[tactic(auto, unfolding(crate::specs::Words::converted))]
fn signed_word(word: u64) -> u64
    ensures { result ≡ converted Width.Int32 IntegerType.I8 word }
{
    let n = word % 0x1_0000_0000;
    if n < 0x8000_0000 {
        n
    } else {
        0xFFFF_FFFF_0000_0000 + n
    }
}

/// A number converted to an integer type (ECMA-335 III.3.27).
#[tactic(auto, unfolding(cil_meaning::specs::Arithmetic::narrowed, crate::specs::Words::converted))]
pub(crate) fn converted(width: Width, to: IntegerType, word: u64) -> u64
    ensures { result ≡ converted width to word }
{
    match width {
        Width::Int32 => match to {
            IntegerType::I8 => signed_word(word),
            IntegerType::U8 => word % 0x1_0000_0000,
            _ => narrowed(to, word % 0x1_0000_0000),
        },
        Width::Int64 => match to {
            IntegerType::I8 | IntegerType::U8 => word,
            _ => narrowed(to, word),
        },
    }
}
