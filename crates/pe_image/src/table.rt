//! The section table, and the file place of an RVA in it.

ghost use Rattle.std.specs.Prelude.{◌≡◌, ◌+◌, ◌<◌, ◌^◌, IfOk, IfErr, OnOk, IfSome};
ghost use Rattle.rtr_bytes.specs.Checks.{first_fault, RefusedBy};
ghost use Rattle.pe_image.specs.Headers.{sections_of};
ghost use Rattle.pe_image.specs.Checks.{section_checks};
ghost use Rattle.pe_image.specs.Sections.{slice_of_rva};

use crate::finder::Finder;
use crate::layout::Layout;
use crate::section::PeSection;
use rtr_bytes::ReadRefusal;
use std::alloc::Global;
use std::marker::Model;

/// The section headers of a file, and what finds a range of RVAs among them. Contracts see the headers.
#[derive(Debug, Drop)]
pub(crate) struct SectionTable {
    sections: Vec<PeSection>,
    finder: Finder,
}

impl Model for SectionTable {
    ghost use Rattle.std.specs.Prelude.{List, All};
    ghost use Rattle.pe_image.specs.declared.section.PeSection.{PeSection};
    ghost use Rattle.pe_image.specs.Sections.{IsInReach};
    ghost use Rattle.pe_image.specs.Finder.{IsFinder};

    ghost Value = { List PeSection };

    ghost view = { λ t. t.sections.items };

    ghost invariant = { λ t. All IsInReach t.sections.items × IsFinder t.finder t.sections.items };
}

impl SectionTable {
    /// The section table of a file, once each raw range ends in the file.
    pub(crate) fn read(alloc: Global, layout: &Layout<'_>) -> Result<SectionTable, ReadRefusal>
        ensures fault { IfErr result (λ e. RefusedBy (first_fault section_checks layout.now) e) }
        ensures ok { OnOk result (first_fault section_checks layout.now ≡ None) }
        ensures sections { IfOk result (λ table. table ≡ sections_of layout.now) }
    {
        let sections = layout.sections(alloc)?;
        let finder = Finder::of(alloc, &sections)?;
        Ok(SectionTable { sections, finder })
    }

    /// The section headers, in their order.
    pub(crate) fn as_slice(&self) -> &[PeSection]
        ensures { result.now ≡ self.now }
    {
        self.sections.as_slice()
    }

    /// The file place of a range of RVAs.
    pub(crate) fn slice_of_rva(&self, rva: u32, len: u32) -> Option<u32>
        ensures place { result ≡ slice_of_rva self.now rva len }
        ensures in_reach { IfSome result (λ at. at + len < 2 ^ 32) }
    {
        self.finder.slice_in(&self.sections, rva, len)
    }
}
