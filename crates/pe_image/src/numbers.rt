//! Numbers in a row, as the headers of a written file have them.

ghost use Rattle.std.specs.Prelude.{◌≡◌, ◌++◌, OnOk};
ghost use Rattle.pe_image.specs.Pieces.{number_bytes, numbers_bytes};

use rtr_bytes::NoMemory;

/// A number of so many bytes.
#[derive(Clone, Copy)]
pub(crate) enum Number {
    One(u8),
    Two(u16),
    Four(u32),
    Eight(u64),
}

/// Appends a number, lowest byte first. After an `Err` there may be a part of it.
fn put_number(out: &mut Vec<u8>, number: Number) -> Result<(), NoMemory>
    ensures { OnOk result (out.new.items ≡ out.old.items ++ number_bytes number) }
{
    match number {
        Number::One(x) => out.push(x)?,
        Number::Two(x) => out.extend_from_slice(&x.to_le_bytes())?,
        Number::Four(x) => out.extend_from_slice(&x.to_le_bytes())?,
        Number::Eight(x) => out.extend_from_slice(&x.to_le_bytes())?,
    }
    Ok(())
}

/// Appends numbers one after the other. After an `Err` there may be a part of them.
pub(crate) fn put_numbers(out: &mut Vec<u8>, numbers: &[Number]) -> Result<(), NoMemory>
    ensures { OnOk result (out.new.items ≡ out.old.items ++ numbers_bytes numbers.now) }
{
    for number in numbers {
        put_number(out, *number)?;
    }
    Ok(())
}
