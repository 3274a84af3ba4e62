//! What holds of written ReadyToRun parts, whatever file has them. A law's call does nothing when it runs.

ghost use Rattle.std.specs.Prelude.{ℕ, ◌≤◌, List, All, IsSome, length};
ghost use Rattle.pe_image.specs.declared.section.PeSection.{PeSection as SectionHeader};
ghost use Rattle.pe_image.specs.Headers.{place_of};
ghost use Rattle.pe_image.specs.Places.{dat_rva};
ghost use Rattle.rtr_sections.specs.declared.image.Image.{Image as Plan};
ghost use Rattle.rtr_sections.specs.Bounds.{HasWords, length_bound};
ghost use Rattle.rtr_sections.specs.Parts.{highest_row, part_bytes, thunks_of};
ghost use Rattle.rtr_sections.specs.Written.{Carries, IsPlaced, IsWrittenAfter};

use fixup_sigs::shortest_fixup;
use native_format::lengths_are_bounded;

/// The law of files that `write_pe` writes: where `.r2rdat` begins with a plan's bytes and its CLI header names their
/// header, the file carries the plan's part, once code and thunks are in sections and the assembly has the entries' rows.
/// What is read in a file that carries a part is said by `write_rtr`.
pub fn written_files_carry_the_part()
    ensures { (sections : List SectionHeader) (bytes dat cod : List ℕ) (cli : ℕ) (plan : Plan) (file : List ℕ) (rows : ℕ)
        → IsWrittenAfter sections bytes dat cod cli plan file
        → All (λ f. IsSome (place_of file f.begin f.length)) plan.functions
        → IsPlaced file (thunks_of plan.header.sections)
        → highest_row plan.entries ≤ rows
        → Carries file plan (dat_rva sections) rows }
{}

/// The law of a part's length, which [`written_len`](crate::written_len) answers exactly: whatever the RVA, it is at most a sum
/// of the counts of the plan's slots, import records, functions, entries and the entries' slots, and of its highest row. The
/// numbers of the entries' slots have 32 bits, as those of every value of the type have.
pub fn parts_are_bounded()
    ensures { (plan : Plan) (at : ℕ) → All HasWords plan.entries → length (part_bytes plan at) ≤ length_bound plan }
{
    lengths_are_bounded();
    shortest_fixup();
}
