//! The text of a dump, made and written.

ghost use Rattle.std.specs.Prelude.{◌≡◌, ◌≤◌, ◌*◌, ◌^◌, length, None, Some, IfOk, IfErr, IfSome, OnOk, All, true};
ghost use Rattle.rtr_bytes.specs.Checks.{first_fault, RefusedBy};
ghost use Rattle.rtr_outside.specs.Sink.{Appends};
ghost use Rattle.pe_image.specs.Checks.{pe_checks};
ghost use Rattle.pe_image.specs.Headers.{headers_of};
ghost use Rattle.fixup_sigs.specs.Shortest.{IsSpellable};
ghost use Rattle.rtr_sections.specs.Image.{rtr_checks};
ghost use Rattle.cli_assembly.specs.Assemblies.{assembly_of};
ghost use Rattle.cli_assembly.specs.Checks.{assembly_checks};
ghost use Rattle.r2rdump.specs.OnePass.{text_in_one_pass};
ghost use Rattle.r2rdump.specs.Types.{assembly_lines};
ghost use Rattle.r2rdump.specs.Dump.{file_fault, lower, native_image_of, dump_text, IsRefused};

use crate::headers::{file_line, header_lines};
use crate::image::native_lines;
use crate::types::assembly_lines;
use cli_assembly::Assembly;
use metadata::Table;
use pe_image::Pe;
use rtr_bytes::{Fault, NoMemory, ReadRefusal};
use rtr_outside::{Sink, SinkFailed, Text, write_all};
use rtr_sections::{Image, read_rtr};
use std::alloc::Global;
use thiserror::Error;

/// The MethodDef rows that an image's entries may name, where the assembly is refused: a row has 24 bits.
const METHOD_ROWS: u32 = 0xFF_FFFF;

/// Why a file was not dumped.
#[derive(Clone, Copy, Debug, PartialEq, Eq, Error)]
pub enum DumpRefusal {
    /// The bytes fail a check. It is the first that they fail, with its first place. Nothing was written.
    #[error("check {} fails at {}", .0.check, .0.place)]
    Malformed(Fault),
    /// The sink had a fault, and has the text up to some byte.
    #[error("the write failed")]
    SinkFailed,
    /// Memory was refused, or the file asks for too much of it ([`dump_text`]). Nothing was written.
    #[error("out of memory")]
    NoMemory,
}

/// The ReadyToRun part of a file, where it has one, whose assembly has so many MethodDef rows.
fn read_image(alloc: Global, pe: &Pe, bytes: &[u8], rows: u32) -> Result<Option<Image>, ReadRefusal>
    requires small { length bytes.now ≤ 2 ^ 31 }
    requires pe { pe.now ≡ headers_of bytes.now }
    requires placed { first_fault pe_checks bytes.now ≡ None }
    ensures malformed { IfErr result (λ e. RefusedBy (first_fault (rtr_checks rows) bytes.now) e) }
    ensures well_formed { OnOk result (first_fault (rtr_checks rows) bytes.now ≡ None) }
    ensures image { IfOk result (λ image. image ≡ native_image_of bytes.now) }
    ensures spellable { IfOk result (λ image. IfSome image (λ image. All (λ slot. IsSpellable slot.fixup) image.slots)) }
{
    match pe.native() {
        None => Ok(None),
        Some(_) => {
            let image = read_rtr(alloc, pe, bytes, rows)?;
            Ok(Some(image))
        }
    }
}

/// A copy of bytes, for the reader of an assembly, which takes them.
fn copy_of(alloc: Global, bytes: &[u8]) -> Result<Vec<u8>, NoMemory>
    ensures { IfOk result (λ copy. copy.items ≡ bytes.now) }
{
    let mut copy = Vec::new(alloc);
    copy.extend_from_slice(bytes)?;
    Ok(copy)
}

/// The fault of the lower number.
fn lower(of_assembly: Fault, of_image: Fault) -> Fault
    ensures { Some result ≡ lower (Some of_assembly) (Some of_image) }
{
    if of_image.check < of_assembly.check {
        of_image
    } else {
        of_assembly
    }
}

/// The refusal of a file whose assembly is refused: the ReadyToRun header and the import records have checks of lower
/// numbers.
fn refusal_of(alloc: Global, pe: &Pe, bytes: &[u8], of_assembly: ReadRefusal) -> ReadRefusal
    requires small { length bytes.now ≤ 2 ^ 31 }
    requires pe { pe.now ≡ headers_of bytes.now }
    requires placed { first_fault pe_checks bytes.now ≡ None }
    requires refused { RefusedBy (first_fault (assembly_checks bytes.now) bytes.now) of_assembly }
    ensures { RefusedBy (file_fault bytes.now) result }
{
    let ReadRefusal::Malformed(fault) = of_assembly else {
        return ReadRefusal::NoMemory;
    };
    match read_image(alloc, pe, bytes, METHOD_ROWS) {
        Ok(_) => ReadRefusal::Malformed(fault),
        Err(ReadRefusal::Malformed(of_image)) => ReadRefusal::Malformed(lower(fault, of_image)),
        Err(ReadRefusal::NoMemory) => ReadRefusal::NoMemory,
    }
}

/// The assembly of a file's bytes, of which a copy is made. `Malformed` names the first check of the file that fails.
fn read_assembly(alloc: Global, pe: &Pe, bytes: &[u8]) -> Result<Assembly, ReadRefusal>
    requires small { length bytes.now ≤ 2 ^ 31 }
    requires pe { pe.now ≡ headers_of bytes.now }
    requires placed { first_fault pe_checks bytes.now ≡ None }
    ensures malformed { IfErr result (λ e. RefusedBy (file_fault bytes.now) e) }
    ensures well_formed { OnOk result (first_fault (assembly_checks bytes.now) bytes.now ≡ None) }
    ensures bytes { IfOk result (λ assembly. assembly ≡ bytes.now) }
{
    match Assembly::read(alloc, copy_of(alloc, bytes)?) {
        Ok(assembly) => Ok(assembly),
        Err(refusal) => Err(refusal_of(alloc, pe, bytes, refusal)),
    }
}

/// The assembly of a file's bytes, of which there are at most 2^31, where they pass each check. `Malformed` names the first of the checks
/// of [`dump_text`] that fails, with its place.
pub fn read_file(alloc: Global, bytes: &[u8]) -> Result<Assembly, ReadRefusal>
    requires { length bytes.now ≤ 2 ^ 31 }
    ensures malformed { IfErr result (λ e. RefusedBy (file_fault bytes.now) e) }
    ensures well_formed { OnOk result (file_fault bytes.now ≡ None) }
    ensures bytes { IfOk result (λ assembly. assembly ≡ bytes.now) }
{
    let pe = Pe::read(alloc, bytes)?;
    let assembly = read_assembly(alloc, &pe, bytes)?;
    let _image = read_image(alloc, &pe, bytes, assembly.rows(Table::MethodDef))?;
    Ok(assembly)
}

/// The text of a file of a name and a length that has these headers, this ReadyToRun part and this assembly.
fn printed(
    alloc: Global,
    name: &str,
    pe: &Pe,
    image: &Option<Image>,
    assembly: &Assembly,
) -> Result<Text, NoMemory>
    requires spellable { IfSome image.now (λ image. All (λ slot. IsSpellable slot.fixup) image.slots) }
    ensures text { IfOk result (λ text. text ≡ text_in_one_pass name.now (length assembly.now) pe.now image.now (assembly_of assembly.now)) }
    ensures room { OnOk result (length (assembly_lines (assembly_of assembly.now)) ≤ 32 * length assembly.now) }
{
    let mut text = Text::new(alloc);
    file_line(&mut text, name, assembly.bytes().len())?;
    header_lines(&mut text, pe)?;
    native_lines(alloc, &mut text, image)?;
    assembly_lines(alloc, &mut text, assembly)?;
    Ok(text)
}

/// The text for a file's bytes. `Malformed` names the first check that fails, with its place.
fn text_of(alloc: Global, name: &str, bytes: &[u8]) -> Result<Text, ReadRefusal>
    requires { length bytes.now ≤ 2 ^ 31 }
    ensures malformed { IfErr result (λ e. RefusedBy (file_fault bytes.now) e) }
    ensures well_formed { OnOk result (file_fault bytes.now ≡ None) }
    ensures text { IfOk result (λ text. text ≡ dump_text name.now bytes.now) }
    ensures room { OnOk result (length (assembly_lines (assembly_of bytes.now)) ≤ 32 * length bytes.now) }
{
    let pe = Pe::read(alloc, bytes)?;
    let assembly = read_assembly(alloc, &pe, bytes)?;
    let image = read_image(alloc, &pe, bytes, assembly.rows(Table::MethodDef))?;
    let text = printed(alloc, name, &pe, &image, &assembly)?;
    Ok(text)
}

/// Prints the records of a file, given its name and its bytes, of which there are at most 2^31. The text is made whole
/// before any of it is written. `Malformed` names the first of the checks 1 to 14, 16 to 22, 30 to 43, 50, 51 and, of an
/// image of this compiler, 60 to 66 that fails, with its file offset; `SinkFailed` comes where the sink has a fault, and
/// `NoMemory` where memory is refused, where the assembly's signatures ([`Assembly::read`]) or the lists of the image's entries
/// are too long together, or its import records have too many slots ([`read_rtr`](rtr_sections::read_rtr)), and where the lines
/// of the assembly have more than 32 times the bytes of the file.
pub fn dump_text<S: Sink>(
    alloc: Global,
    name: &str,
    bytes: &[u8],
    out: &mut S,
) -> Result<(), DumpRefusal>
    requires { length bytes.now ≤ 2 ^ 31 }
    ensures well_formed { OnOk result (file_fault bytes.now ≡ None) }
    ensures printed { OnOk result (Appends (dump_text name.now bytes.now) (S.written out.old) (S.written out.new)) }
    ensures refused { IfErr result (λ e. IsRefused S.written S.faults name.now bytes.now out.old out.new e) }
    // The lines of the assembly are bounded by the file.
    ensures room { OnOk result (length (assembly_lines (assembly_of bytes.now)) ≤ 32 * length bytes.now) }
    ensures never_falls { S.faults out.old ≤ S.faults out.new }
{
    let text = match text_of(alloc, name, bytes) {
        Ok(text) => text,
        Err(ReadRefusal::Malformed(fault)) => return Err(DumpRefusal::Malformed(fault)),
        Err(ReadRefusal::NoMemory) => return Err(DumpRefusal::NoMemory),
    };
    match write_all(out, text.as_slice()) {
        Ok(()) => Ok(()),
        Err(SinkFailed) => Err(DumpRefusal::SinkFailed),
    }
}
