//! What is known of each cell before the workers start.

ghost use Rattle.std.specs.Prelude.{◌≡◌, ◌∷◌, map, IfOk, IsTrue, ◌↔◌};
ghost use Rattle.import_cells.specs.Plan.{IsPlan, IsSound, can_bind, is_ready, opening_in};

use rtr_bytes::{NoMemory, Sequence};
use std::alloc::Global;

/// One cell of a plan. A plan is a list of them, and a cell's number is its index there.
#[derive(Debug, Drop)]
pub struct CellPlan {
    /// The word that the cell holds until it is bound.
    pub initial: u64,
    /// The word that binding gives the cell. A cell with `None` is never bound.
    pub bound: Option<u64>,
    /// An eager cell that has a bound value holds it from the start.
    pub eager: bool,
    /// The numbers of the cells that are bound before this one.
    pub first: Sequence<u32>,
}

impl CellPlan {
    // The cell is bound from the start.
    fn is_ready(&self) -> bool
        ensures { result ≡ is_ready self.now }
    {
        self.eager && self.bound.is_some()
    }

    // The word that the cell holds before any worker starts.
    fn opening(&self) -> u64
        ensures { result ≡ opening_in self.now }
    {
        match self.bound {
            Some(value) if self.eager => value,
            _ => self.initial,
        }
    }

    fn copied(&self, alloc: Global) -> Result<CellPlan, NoMemory>
        ensures { IfOk result (λ copy. copy ≡ self.now) }
    {
        let mut first = Vec::new(alloc);
        first.extend_from_slice(self.first.as_slice())?;
        Ok(CellPlan {
            initial: self.initial,
            bound: self.bound,
            eager: self.eager,
            first: Sequence::from_vec(first),
        })
    }
}

/// Whether each cell is bound from the start.
pub(crate) fn ready_flags(alloc: Global, plan: &[CellPlan]) -> Result<Vec<bool>, NoMemory>
    ensures { IfOk result (λ flags. flags.items ≡ map is_ready plan.now) }
{
    let mut flags = Vec::with_capacity(alloc, plan.len())?;
    for cell in plan {
        flags.push(cell.is_ready())?;
    }
    Ok(flags)
}

/// The words at first: one that is no cell, and then one for each cell.
pub(crate) fn opening_words(alloc: Global, plan: &[CellPlan]) -> Result<Vec<u64>, NoMemory>
    ensures { IfOk result (λ words. words.items ≡ 0 ∷ map opening_in plan.now) }
{
    let mut words = Vec::with_capacity(alloc, plan.len() + 1)?;
    words.push(0)?;
    for cell in plan {
        words.push(cell.opening())?;
    }
    Ok(words)
}

/// The same plan once more.
pub(crate) fn copied_plan(alloc: Global, plan: &[CellPlan]) -> Result<Vec<CellPlan>, NoMemory>
    ensures { IfOk result (λ copies. copies.items ≡ plan.now) }
{
    let mut copies = Vec::with_capacity(alloc, plan.len())?;
    for cell in plan {
        copies.push(cell.copied(alloc)?)?;
    }
    Ok(copies)
}

/// Whether cells can be made of a plan: it has fewer than 2^32 - 1 cells, each cell that is bound before another has a
/// bound value, and no cell is bound before an eager one.
pub fn is_plan(plan: &[CellPlan]) -> bool
    ensures { IsTrue result ↔ IsPlan plan.now }
{
    plan.len() < u32::MAX as usize && plan.iter().all(|cell| is_sound(plan, cell))
}

// The cells before a cell have a bound value, and an eager cell has none before it.
fn is_sound(plan: &[CellPlan], cell: &CellPlan) -> bool
    ensures { IsTrue result ↔ IsSound plan.now cell.now }
{
    let first = cell.first.as_slice();
    let bindable = first.iter().all(|number| can_bind(plan, *number));
    bindable && !(cell.eager && !first.is_empty())
}

fn can_bind(plan: &[CellPlan], number: u32) -> bool
    ensures { result ≡ can_bind plan.now number }
{
    match plan.get(number as usize) {
        Some(cell) => cell.bound.is_some(),
        None => false,
    }
}
