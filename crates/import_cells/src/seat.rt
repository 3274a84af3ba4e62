//! The seat of a worker: with it the worker reads and binds the cells.

use crate::event::SeatView;
use atomic_table::Seat as Place;
use std::marker::Model;

/// A worker's seat at some cells. It remembers which cells were asked with it.
#[derive(Drop)]
pub struct Seat {
    pub(crate) asked: Vec<bool>,
    pub(crate) place: Place<(), SeatView>,
}

impl Model for Seat {
    ghost use Rattle.import_cells.specs.Seats.{SeatState};
    ghost use Rattle.import_cells.specs.Seated.{IsSeat};

    ghost Value = { SeatState };

    ghost view = { λ s. record { table = s.place.table_id; view = s.place.me.0 } };

    ghost invariant = { λ s. IsSeat s.asked.items s.place };
}
