//! The lines of the file, its PE headers and its CLI header.

ghost use Rattle.std.specs.Prelude.{◌≡◌, ◌++◌, OnOk};
ghost use Rattle.std.specs.List.{flat_map};
ghost use Rattle.r2rdump.specs.Text.{file_line, machine_line, section_line, cli_line, header_lines};

use crate::text::section_name;
use pe_image::{Pe, PeSection};
use rtr_bytes::NoMemory;
use rtr_outside::Text;

/// Adds the line of the file's name and length.
pub(crate) fn file_line(text: &mut Text, name: &str, len: usize) -> Result<(), NoMemory>
    ensures { OnOk result (text.new ≡ text.old ++ file_line name.now len) }
{
    text.name("file ", name)?;
    text.decimal(" ", len as u64)?;
    text.words("\n")
}

fn machine_line(text: &mut Text, pe: &Pe) -> Result<(), NoMemory>
    ensures { OnOk result (text.new ≡ text.old ++ machine_line pe.now) }
{
    text.hex16("machine ", pe.machine())?;
    text.hex16(" magic ", if pe.wide() { 0x20B } else { 0x10B })?;
    text.words("\n")
}

fn section_line(text: &mut Text, section: &PeSection) -> Result<(), NoMemory>
    ensures { OnOk result (text.new ≡ text.old ++ section_line section.now) }
{
    section_name(text, &section.name)?;
    text.hex32(" rva ", section.rva)?;
    text.hex32(" size ", section.virtual_size)?;
    text.hex32(" file ", section.raw_at)?;
    text.hex32(" raw ", section.raw_size)?;
    text.words("\n")
}

fn section_lines(text: &mut Text, sections: &[PeSection]) -> Result<(), NoMemory>
    ensures { OnOk result (text.new ≡ text.old ++ flat_map section_line sections.now) }
{
    for section in sections {
        section_line(text, section)?;
    }
    Ok(())
}

fn cli_line(text: &mut Text, pe: &Pe) -> Result<(), NoMemory>
    ensures { OnOk result (text.new ≡ text.old ++ cli_line pe.now) }
{
    text.hex32("cli flags ", pe.cli_flags())?;
    text.hex32(" entry ", pe.entry_token())?;
    text.words("\n")
}

/// Adds the lines of the PE headers and of the CLI header.
pub(crate) fn header_lines(text: &mut Text, pe: &Pe) -> Result<(), NoMemory>
    ensures { OnOk result (text.new ≡ text.old ++ header_lines pe.now) }
{
    machine_line(text, pe)?;
    section_lines(text, pe.sections())?;
    cli_line(text, pe)
}
