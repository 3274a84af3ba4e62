//! What only a dump prints: signatures of fixups, and names of PE sections.

ghost use Rattle.std.specs.Prelude.{◌≡◌, ◌++◌, OnOk};
ghost use Rattle.hex.specs.Hex.{encode_lower};
ghost use Rattle.fixup_sigs.specs.Shortest.{IsSpellable, fixup_bytes};
ghost use Rattle.r2rdump.specs.Text.{section_name, trimmed};

use fixup_sigs::{Fixup, write_fixup};
use rtr_bytes::NoMemory;
use rtr_outside::Text;
use std::alloc::Global;

/// Adds words, and a fixup's signature in its shortest spelling, in lower-case hexadecimal. The fixup is one that
/// has a signature.
pub(crate) fn signature(
    alloc: Global,
    text: &mut Text,
    words: &str,
    fixup: &Fixup,
) -> Result<(), NoMemory>
    requires { IsSpellable fixup.now }
    ensures { OnOk result (text.new ≡ text.old ++ words.now ++ encode_lower (fixup_bytes fixup.now)) }
{
    let mut signature = Vec::new(alloc);
    write_fixup(&mut signature, fixup)?;
    text.hex(alloc, words, &signature)
}

/// Adds the name of a PE section without its trailing zeros, with a question mark for each byte outside 0x21 to
/// 0x7E.
pub(crate) fn section_name(text: &mut Text, name: &[u8]) -> Result<(), NoMemory>
    ensures { OnOk result (text.new ≡ text.old ++ section_name name.now) }
{
    for byte in without_padding(name) {
        let visible = matches!(*byte, 0x21..=0x7E);
        text.byte(if visible { *byte } else { b'?' })?;
    }
    Ok(())
}

/// The bytes before the trailing zeros.
fn without_padding(name: &[u8]) -> &[u8]
    ensures { result.now ≡ trimmed name.now }
{
    let mut len = name.len();
    while len > 0 && name[len - 1] == 0 {
        len -= 1;
    }
    &name[..len]
}
