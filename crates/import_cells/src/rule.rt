//! The rule under which the words change, and the steps on them.

ghost use Rattle.import_cells.specs.Seats.{first_view, kept_half, given_half, joined, spent_view};
ghost use Rattle.import_cells.specs.Shared.{Kept, loaded, asked};

use crate::event::SeatView;
use crate::plan::CellPlan;
use atomic_table::{Join, Play, Split, Table, TableRule};
use std::alloc::Global;
use std::snapshot::Snapshot;

/// The rule gets the plan when the table is made.
pub type PlanKey = Snapshot<Vec<CellPlan>>;

/// The words of the cells, and no slots.
pub type Words = Table<(), SeatView, PlanKey, BoundOnce, Global>;

/// A cell's word changes only from its initial to its bound value, after those of its `first` cells.
pub struct BoundOnce;

impl TableRule<(), SeatView, PlanKey> for BoundOnce {
    ghost holds = { λ key. Kept key.value.items };

    ghost first = { λ key. first_view key.value.items };
}

/// A load of a cell.
pub struct Loads;

impl Play<(), SeatView> for Loads {
    ghost then = { loaded };
}

/// An exchange that binds a cell.
pub struct Asks;

impl Play<(), SeatView> for Asks {
    ghost then = { asked };
}

/// A seat gives half of its share away.
pub struct Halves;

impl Split<SeatView> for Halves {
    ghost left = { kept_half };

    ghost right = { given_half };
}

/// A seat takes another one in.
pub struct Unites;

impl Join<SeatView> for Unites {
    ghost both = { joined };

    ghost spent = { spent_view };
}
