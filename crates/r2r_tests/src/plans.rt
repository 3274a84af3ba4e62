//! Plans of images, each from a text.

use fixup_sigs::{Fixup, read_fixup};
use native_format::SlotRef;
use rtr_bytes::Sequence;
use rtr_sections::{EntryPoint, Function, Image, ImportSection, RtrHeader, RtrSection, Slot};
use std::alloc::{AllocError, Global};
use std::test::Fail;
use test_files::number;

/// The plan of a text, whose lines are `import SIZE FLAGS`, `slot WORD SIGNATURE`, `function BEGIN LENGTH`, `entry ROW FUNCTION` with
/// its slots after it, and `thunks RVA SIZE`. Numbers are hexadecimal.
pub(crate) fn plan_of(alloc: Global, text: &str) -> Result<Image, Fail> {
    Ok(Image {
        header: header(alloc, text)?,
        imports: imports(alloc, text)?,
        slots: slots(alloc, text)?,
        functions: functions(alloc, text)?,
        entries: entries(alloc, text)?,
        own: true,
    })
}

/// Two numbers.
fn pair(words: &str) -> Result<(u32, u32), Fail> {
    let (first, second) = words.split_once(' ').ok_or("two numbers")?;
    Ok((number(first)?, number(second)?))
}

/// A section record with a range that is not asked for.
fn section(kind: u32) -> RtrSection {
    RtrSection {
        kind,
        rva: 1,
        size: 2,
    }
}

/// The range of the thunks; an empty one where the text has none.
fn thunks(text: &str) -> Result<RtrSection, Fail> {
    let mut range = (0, 0);
    for line in text.lines() {
        if let Some(words) = line.strip_prefix("thunks ") {
            range = pair(words)?;
        }
    }
    Ok(RtrSection {
        kind: 106,
        rva: range.0,
        size: range.1,
    })
}

/// A header with the sections that are written.
fn header(alloc: Global, text: &str) -> Result<RtrHeader, Fail> {
    let mut sections = Vec::new(alloc);
    for kind in 100..104 {
        sections.push(section(kind))?;
    }
    sections.push(thunks(text)?)?;
    Ok(RtrHeader {
        at: 0,
        major: 5,
        minor: 0,
        flags: 0,
        sections: Sequence::from_vec(sections),
    })
}

/// An import section of some bytes of cells.
fn import(size: u32, flags: u16) -> ImportSection {
    ImportSection {
        rva: 3,
        size,
        flags,
        kind: 0,
        entry_size: 8,
        signatures: 4,
        auxiliary: 0,
    }
}

fn imports(alloc: Global, text: &str) -> Result<Sequence<ImportSection>, Fail> {
    let mut imports = Vec::new(alloc);
    for line in text.lines() {
        if let Some(words) = line.strip_prefix("import ") {
            let (size, flags) = pair(words)?;
            imports.push(import(size, u16::try_from(flags)?))?;
        }
    }
    Ok(Sequence::from_vec(imports))
}

/// The fixup of a signature in hexadecimal.
fn fixup_of(alloc: Global, signature: &str) -> Result<Fixup, Fail> {
    let bytes = hex::decode(alloc, signature)?;
    if bytes.len() > 10 {
        return Err("a signature has at most 10 bytes")?;
    }
    let (fixup, _) = read_fixup(&bytes, 0).ok_or("it is a fixup")?;
    Ok(fixup)
}

fn slots(alloc: Global, text: &str) -> Result<Sequence<Slot>, Fail> {
    let mut slots = Vec::new(alloc);
    for line in text.lines() {
        if let Some(words) = line.strip_prefix("slot ") {
            let (word, signature) = words.split_once(' ').ok_or("a word and a signature")?;
            slots.push(Slot {
                fixup: fixup_of(alloc, signature)?,
                word: u64::from_str_radix(word, 16)?,
            })?;
        }
    }
    Ok(Sequence::from_vec(slots))
}

fn functions(alloc: Global, text: &str) -> Result<Sequence<Function>, Fail> {
    let mut functions = Vec::new(alloc);
    for line in text.lines() {
        if let Some(words) = line.strip_prefix("function ") {
            let (begin, length) = pair(words)?;
            functions.push(Function { begin, length })?;
        }
    }
    Ok(Sequence::from_vec(functions))
}

/// An entry's slots, each a section and a slot with a dot between them.
fn slot_refs(alloc: Global, words: &[&str]) -> Result<Sequence<SlotRef>, Fail> {
    let mut slots = Vec::new(alloc);
    for word in words {
        let (section, slot) = word.split_once('.').ok_or("a section and a slot")?;
        slots.push(SlotRef {
            section: number(section)?,
            slot: number(slot)?,
        })?;
    }
    Ok(Sequence::from_vec(slots))
}

fn entry(alloc: Global, words: &str) -> Result<EntryPoint, Fail> {
    let words: Vec<&str> = words.split_whitespace().collect(alloc)?;
    match words.as_slice() {
        [row, function, slots @ ..] => Ok(EntryPoint {
            row: number(row)?,
            function: number(function)?,
            fixups: slot_refs(alloc, slots)?,
        }),
        _ => Err("a row and a function")?,
    }
}

fn entries(alloc: Global, text: &str) -> Result<Sequence<EntryPoint>, Fail> {
    let mut entries = Vec::new(alloc);
    for line in text.lines() {
        if let Some(words) = line.strip_prefix("entry ") {
            entries.push(entry(alloc, words)?)?;
        }
    }
    Ok(Sequence::from_vec(entries))
}
