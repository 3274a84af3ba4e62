//! The import cells that the workers of an image share.
//!
//! A cell is one word. It holds its initial value until some worker binds it, and its bound value from then
//! on. Workers read and bind the cells by single atomic steps; nothing else that they share changes.
#![tactic(auto)]

mod cells;
mod event;
mod laws;
mod plan;
mod rule;
mod seat;

pub use cells::Cells;
pub use event::{CellEvent, SeatView};
pub use laws::{
    answers_are_allowed, seats_answers_are_allowed, what_a_seat_knows, what_the_rule_says,
    words_change_once,
};
pub use plan::{CellPlan, is_plan};
pub use seat::Seat;
