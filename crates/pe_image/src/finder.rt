//! The section that holds a range of RVAs, found in a long table without a look at each section.

ghost use Rattle.std.specs.Prelude.{◌≡◌, ◌+◌, ◌≤◌, ◌<◌, ◌^◌, length, take, drop, IfOk, IfSome, All, find};
ghost use Rattle.std.specs.List.{list_any};
ghost use Rattle.pe_image.specs.Sections.{has_range, slice_of_rva, IsInReach};
ghost use Rattle.pe_image.specs.Finder.{holds, IsRising, IsStairs, IsLevel, IsFinder};

use crate::section::{PeSection, slice_in};
use rtr_bytes::NoMemory;
use std::alloc::Global;

/// A step of the stairs of a run of sections: how far those sections reach that begin at or before an RVA.
#[derive(Clone, Copy, Debug)]
pub(crate) struct Step {
    /// VirtualAddress of a section of the run.
    pub rva: u32,
    /// The highest end, in RVAs, of the raw bytes of the run's sections that begin at or before it.
    pub reach: u64,
}

/// The stairs of a run of sections: a step for each, in the order of their RVAs.
fn stairs(alloc: Global, run: &[PeSection]) -> Result<Vec<Step>, NoMemory>
    ensures { IfOk result (λ stairs. IsStairs stairs.items run.now) }
{
    let mut sorted = Vec::from_slice(alloc, run)?;
    sorted.sort_by_key(|section| section.rva)?;
    let mut stairs = Vec::new(alloc);
    let mut reach = 0;
    for section in &sorted {
        reach = reach.max(u64::from(section.rva) + u64::from(section.raw_size));
        let rva = section.rva;
        stairs.push(Step { rva, reach })?;
    }
    Ok(stairs)
}

/// Whether a section of the run with these stairs holds a range: the last step at or before `rva` decides it.
fn has_step(stairs: &[Step], rva: u32, end: u64) -> bool
    requires { IsRising stairs.now }
    ensures { result ≡ list_any (holds rva end) stairs.now }
{
    let count = stairs.partition_point(|step| step.rva <= rva);
    count > 0 && end <= stairs[count - 1].reach
}

/// A level: the table in runs of a width, and the stairs of every second of them from the first on, one after the other. Those of
/// the run at a place are at half of that place.
#[derive(Debug, Drop)]
struct Level {
    steps: Vec<Step>,
}

impl Level {
    /// The level of a width, with the runs that have more sections after them: no other is asked for.
    fn of(alloc: Global, sections: &[PeSection], width: usize) -> Result<Level, NoMemory>
        requires some { 0 < width }
        requires fits { width < length sections.now }
        ensures { IfOk result (λ level. IsLevel width level.steps.items sections.now) }
    {
        let mut steps = Vec::new(alloc);
        let mut at = 0;
        while at + width < sections.len() {
            let run = stairs(alloc, &sections[at..at + width])?;
            steps.extend_from_slice(&run)?;
            at += 2 * width;
        }
        Ok(Level { steps })
    }
}

/// The most sections that are looked at one by one.
const RUN: usize = 16;

/// What finds the first section that holds a range, by halves: levels whose runs are half as long as those of the one before, from
/// half of the first width down to [`RUN`]. A table of at most [`RUN`] sections has none.
#[derive(Debug, Drop)]
pub(crate) struct Finder {
    width: usize,
    levels: Vec<Level>,
}

impl Finder {
    /// The finder of a section table.
    pub(crate) fn of(alloc: Global, sections: &[PeSection]) -> Result<Finder, NoMemory>
        ensures { IfOk result (λ finder. IsFinder finder sections.now) }
    {
        let mut width = RUN;
        let mut levels = Vec::new(alloc);
        while width < sections.len() {
            levels.insert(0, Level::of(alloc, sections, width)?)?;
            width *= 2;
        }
        Ok(Finder { width, levels })
    }

    /// Where a run of at most 16 sections begins whose first section that holds the range is the first of all. Each level halves the
    /// run: to its first half where a section there holds the range, or nothing is after it, and else to its second.
    fn run_of(&self, sections: &[PeSection], rva: u32, len: u32) -> usize
        requires { IsFinder self.now sections.now }
        ensures inside { result ≤ length sections.now }
        ensures first { find (has_range rva len) (take 16 (drop result sections.now)) ≡ find (has_range rva len) sections.now }
    {
        let end = u64::from(rva) + u64::from(len);
        let mut width = self.width;
        let mut at = 0;
        for level in &self.levels {
            width /= 2;
            let from = at / 2;
            if width < sections.len() - at
                && !has_step(&level.steps[from..from + width], rva, end)
            {
                at += width;
            }
        }
        at
    }

    /// The file place of a range of RVAs in the table that the finder is of.
    pub(crate) fn slice_in(&self, sections: &[PeSection], rva: u32, len: u32) -> Option<u32>
        requires finder { IsFinder self.now sections.now }
        requires in_reach { All IsInReach sections.now }
        ensures place { result ≡ slice_of_rva sections.now rva len }
        ensures in_reach { IfSome result (λ at. at + len < 2 ^ 32) }
    {
        let run = &sections[self.run_of(sections, rva, len)..];
        slice_in(&run[..run.len().min(RUN)], rva, len)
    }
}
