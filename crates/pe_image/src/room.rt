//! Whether a file can be written, and where its new sections begin.

ghost use Rattle.std.specs.Prelude.{◌≡◌, ◌+◌, ◌*◌, ◌≤◌, ◌<◌, ◌^◌, ◌↔◌, IsTrue, length, All, sum_by};
ghost use Rattle.pe_image.specs.Places.{headers_end, dat_rva, cod_rva};
ghost use Rattle.pe_image.specs.Written.{IsWritable};

use crate::cli::CLI_HEADER_SIZE;
use crate::pe::Pe;
use crate::places::{
    ALIGNMENT_ROOM, FILE_ALIGNMENT, NEW_SECTION_ALIGNMENT, NEW_SECTIONS, aligned, headers_end,
    highest_end,
};
use crate::section::PeSection;

/// The most sections that an input may have: a written file has two more, and their count has 16 bits.
const MOST_SECTIONS: usize = 65535 - NEW_SECTIONS;

/// The RVA of `.r2rdat` in a file that is written from an input: the first multiple of 65,536 at or after the highest
/// end of a section. It may be above 32 bits, and then no file can be written.
pub fn dat_rva(input: &Pe) -> u64
    ensures value { result ≡ dat_rva input.now.sections }
    ensures small { result < 2 ^ 34 }
{
    aligned(highest_end(input.sections()), NEW_SECTION_ALIGNMENT)
}

/// The RVA of `.r2rcod` after `dat_len` bytes of `.r2rdat`: the first multiple of 65,536 at or after their end. It may
/// be above 32 bits, and then no file can be written.
pub fn cod_rva(input: &Pe, dat_len: u32) -> u64
    ensures { result ≡ cod_rva input.now.sections dat_len }
{
    aligned(dat_rva(input) + u64::from(dat_len), NEW_SECTION_ALIGNMENT)
}

/// Whether the headers of these sections and two more end at or below each VirtualAddress.
fn has_room_for_headers(sections: &[PeSection]) -> bool
    requires { length sections.now ≤ 65533 }
    ensures { IsTrue result ↔ All (λ s. headers_end (length sections.now + 2) ≤ s.rva) sections.now }
{
    let headers_end = headers_end((sections.len() + NEW_SECTIONS) as u16) as u32;
    sections.iter().all(|section| headers_end <= section.rva)
}

/// All raw sizes together.
fn raw_total(sections: &[PeSection]) -> u64
    requires { length sections.now ≤ 65533 }
    ensures value { result ≡ sum_by (λ s. s.raw_size) sections.now }
    ensures small { result < 2 ^ 48 }
{
    let mut total = 0;
    for section in sections {
        total += u64::from(section.raw_size);
    }
    total
}

/// Whether [`write_pe`](crate::write_pe) can be called: the input has at most 65,533 sections, the headers end at or
/// below each VirtualAddress, the sums that bound the RVAs and the file offsets are below 2^32 (docs/FORMATS.md, "The
/// written file"), and the 72 bytes of the CLI header at the RVA `cli_at` are within `dat`.
pub fn can_write_pe(input: &Pe, dat: &[u8], cod: &[u8], cli_at: u32) -> bool
    ensures { IsTrue result ↔ IsWritable input.now.sections (length dat.now) (length cod.now) cli_at }
{
    let sections = input.sections();
    if sections.len() > MOST_SECTIONS || dat.len() >= 1 << 32 || cod.len() >= 1 << 32 {
        return false;
    }
    let count = sections.len() + NEW_SECTIONS;
    let new = dat.len() as u64 + cod.len() as u64;
    let padding = FILE_ALIGNMENT * (count as u64 + 1);
    let dat_rva = dat_rva(input);
    let cli_at = u64::from(cli_at);
    has_room_for_headers(sections)
        && highest_end(sections) + new + ALIGNMENT_ROOM < 1 << 32
        && headers_end(count as u16) + raw_total(sections) + new + padding < 1 << 32
        && dat_rva <= cli_at
        && cli_at + u64::from(CLI_HEADER_SIZE) <= dat_rva + dat.len() as u64
}
