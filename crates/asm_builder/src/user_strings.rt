//! The heap of user strings (ECMA-335 II.24.2.4).

ghost use Rattle.std.specs.Prelude.{◌≡◌, ◌+◌, ◌*◌, ◌<◌, ◌^◌, ◌++◌, length, IfOk, OnOk};
ghost use Rattle.std.specs.List.{list_any};
ghost use Rattle.asm_builder.specs.Cells.{is_special, unit_bytes, user_heap, user_string_bytes, user_string_end};

use rtr_bytes::{NoMemory, Sequence, put_compressed};
use std::alloc::Global;

/// Whether a unit of a user string makes its last byte 1 (ECMA-335 II.24.2.4).
fn is_special(unit: u16) -> bool
    ensures { result ≡ is_special unit }
{
    matches!(unit, 0x01..=0x08 | 0x0E..=0x1F | 0x27 | 0x2D | 0x7F) || unit > 0xFF
}

/// Whether one of the units is special.
fn has_special(units: &[u16]) -> bool
    ensures { result ≡ list_any is_special units.now }
{
    units.iter().any(|unit| is_special(*unit))
}

/// The last byte of a user string.
fn user_string_end(units: &[u16]) -> u8
    ensures { result ≡ user_string_end units.now }
{
    if has_special(units) { 1 } else { 0 }
}

/// Appends units of two bytes.
fn put_units(out: &mut Vec<u8>, units: &[u16]) -> Result<(), NoMemory>
    ensures { OnOk result (out.new.items ≡ out.old.items ++ unit_bytes units.now) }
{
    for unit in units {
        out.extend_from_slice(&unit.to_le_bytes())?;
    }
    Ok(())
}

/// Appends a user string.
fn put_user_string(out: &mut Vec<u8>, units: &[u16]) -> Result<(), NoMemory>
    requires { 2 * length units.now + 1 < 2 ^ 29 }
    ensures { OnOk result (out.new.items ≡ out.old.items ++ user_string_bytes units.now) }
{
    put_compressed(out, units.len() as u32 * 2 + 1)?;
    put_units(out, units)?;
    out.push(user_string_end(units))?;
    Ok(())
}

/// The heap of user strings.
pub(crate) fn user_heap(alloc: Global, strings: &[Sequence<u16>]) -> Result<Vec<u8>, NoMemory>
    requires { length (user_heap strings.now) < 2 ^ 24 }
    ensures { IfOk result (λ bytes. bytes.items ≡ user_heap strings.now) }
{
    let mut out = Vec::new(alloc);
    out.push(0)?;
    for units in strings {
        put_user_string(&mut out, units.as_slice())?;
    }
    Ok(out)
}
