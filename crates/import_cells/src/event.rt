//! The events of workers at cells, and what is known to one of them.

use crate::plan::CellPlan;

/// What a worker did at a cell. A cell's number is its index in the plan.
#[derive(Clone, Copy, Debug, PartialEq, Eq)]
pub enum CellEvent {
    /// It loaded the word of this cell, and found this.
    Loaded(u32, u64),
    /// It asked for this cell to be bound.
    Asked(u32),
}

/// What clauses say of a seat. No value of it is made; a clause reads the arrays as lists, of any length.
pub struct SeatView {
    /// The plan of the seat's cells.
    pub plan: [CellPlan; 0],
    /// The seat's part of 65,536. All seats over the same cells have 65,536 together.
    pub share: u64,
    /// The cells that were asked with this seat or with one that was joined into it. The eager cells that
    /// have a bound value count as asked with the first seat.
    pub asked: [u32; 0],
    /// The cells that the seat knows to be bound.
    pub seen: [u32; 0],
    /// The seat's own events, the newest first.
    pub log: [CellEvent; 0],
}
