//! The cells themselves.

ghost use Rattle.std.specs.Prelude.{◌≡◌, ℕ, ◌<◌, ◌||◌, true, false, length, slice_index_or, replicate, IfOk, OnErr, OnOk};
ghost use Rattle.import_cells.specs.Plan.{In, Marks, IsReady, IsPlan};
ghost use Rattle.import_cells.specs.Core.{asked_after};
ghost use Rattle.import_cells.specs.Seats.{IsSeatOf, HasCell, IsBoundValue, HasSeenFirst, CanSplit, IsAlone, first_view, after_event, kept_half, given_half, joined, IsNext, Answer, Run};
ghost use Rattle.import_cells.specs.declared.event.CellEvent.TheVariants.{Loaded, Asked};

use crate::plan::{CellPlan, copied_plan, opening_words, ready_flags};
use crate::rule::{Asks, Halves, Loads, Unites, Words};
use crate::seat::Seat;
use rtr_bytes::NoMemory;
use std::alloc::Global;
use std::marker::Model;
use std::snapshot::Snapshot;

/// The cells of a plan, which any number of workers read and bind, each with a seat of its own.
#[derive(Drop)]
pub struct Cells {
    plan: Vec<CellPlan>,
    words: Words,
}

impl Model for Cells {
    ghost use Rattle.import_cells.specs.Seats.{CellsState};
    ghost use Rattle.import_cells.specs.Seated.{IsTableOf};

    ghost Value = { CellsState };

    ghost view = { λ s. record { table = s.words.shared.table_id; plan = s.plan.items } };

    ghost invariant = { λ s. IsTableOf s.plan.items s.words.shared.key.value.items s.words.shared.table_id };
}

impl Cells {
    /// The cells of a plan, each with its initial value, or with its bound value if it is eager and has one, and the
    /// first seat, which has the whole share, 65,536. [`is_plan`](crate::is_plan) tests that cells can be made of the
    /// plan. It takes the memory of the cells, of that seat and of the answer of [`Cells::close`]; `NoMemory` comes
    /// where it is refused.
    pub fn new(alloc: Global, plan: &[CellPlan]) -> Result<(Cells, Seat), NoMemory>
        requires { IsPlan plan.now }
        ensures plan { IfOk result (λ r. r.0.plan ≡ plan.now) }
        ensures seat { IfOk result (λ r. IsSeatOf r.0 r.1) }
        ensures view { IfOk result (λ r. r.1.view ≡ first_view plan.now) }
    {
        let asked = ready_flags(alloc, plan)?;
        let words = opening_words(alloc, plan)?;
        let plan = copied_plan(alloc, plan)?;
        let (words, place) = Words::of_words(alloc, words.as_slice(), &Snapshot::of(&plan))?;
        Ok((Cells { plan, words }, Seat { asked, place }))
    }

    /// A second seat, with half of the share of the first, rounded down. It knows what that one has seen, and has asked
    /// nothing. The first is a seat of these cells, with a share of at least 2. `NoMemory` comes where memory is
    /// refused, and then the seat is as before.
    pub fn split(&self, alloc: Global, seat: &mut Seat) -> Result<Seat, NoMemory>
        requires seat { IsSeatOf self.now seat.old }
        requires share { CanSplit seat.old }
        ensures table { seat.new.table ≡ seat.old.table }
        ensures kept { OnOk result (seat.new.view ≡ kept_half seat.old.view) }
        ensures given { IfOk result (λ other. (other.table ≡ self.now.table) × (other.view ≡ given_half seat.old.view)) }
        ensures err { OnErr result (seat.new.view ≡ seat.old.view) }
    {
        let asked = no_flags(alloc, self.plan.len())?;
        let place = self.words.shared.split_seat::<Halves>(&mut seat.place);
        Ok(Seat { asked, place })
    }

    /// The cell's word, by one atomic load. The seat is one of these cells, and there is a cell of that number, from 0.
    pub fn read(&self, seat: &mut Seat, cell: u32) -> u64
        requires seat { IsSeatOf self.now seat.old }
        requires cell { HasCell self.now cell }
        ensures table { seat.new.table ≡ seat.old.table }
        // A new answer shows that the cell and its `first` cells are bound.
        ensures view { seat.new.view ≡ after_event seat.old.view (Loaded cell result) }
        ensures answer { Answer seat.old.view cell result }
        ensures event { IsNext seat.old.view (Loaded cell result) }
    {
        self.words
            .shared
            .load::<Loads>(&mut seat.place, cell as usize + 1)
    }

    /// Gives the cell its bound value by one compare-and-exchange, and answers that value. It changes no word
    /// where the cell is bound already. The seat is one of these cells and knows the cell's `first` cells to be bound,
    /// and `value` is the bound value that the plan has for that number, from 0.
    pub fn bind(&self, seat: &mut Seat, cell: u32, value: u64) -> u64
        requires seat { IsSeatOf self.now seat.old }
        requires cell { HasCell self.now cell }
        requires value { IsBoundValue self.now cell value }
        requires first { HasSeenFirst self.now seat.old cell }
        ensures value { result ≡ value }
        ensures table { seat.new.table ≡ seat.old.table }
        ensures view { seat.new.view ≡ after_event seat.old.view (Asked cell) }
        ensures event { IsNext seat.old.view (Asked cell) }
    {
        let number = cell as usize;
        let initial = self.plan[number].initial;
        self.words
            .shared
            .compare_exchange::<Asks>(&mut seat.place, number + 1, initial, value);
        seat.asked[number] = true;
        value
    }

    /// Joins a seat into another one, which then has the shares of both and what both asked and saw. Both are seats of
    /// these cells.
    pub fn join(&self, seat: &mut Seat, other: Seat)
        requires seat { IsSeatOf self.now seat.old }
        requires other { IsSeatOf self.now other }
        ensures table { seat.new.table ≡ seat.old.table }
        ensures view { seat.new.view ≡ joined seat.old.view other.view }
    {
        let Seat { asked, place } = other;
        unite(seat.asked.as_mut_slice(), asked.as_slice());
        self.words
            .shared
            .join_seat::<Unites>(&mut seat.place, place);
    }

    /// Ends the cells, with the seat into which all others were joined: it is one of these cells and has the whole
    /// share, 65,536. The answer says for each cell, by its number, whether it was asked with any seat, or is eager and
    /// has a bound value.
    pub fn close(self, seat: Seat) -> Vec<bool>
        requires seat { IsSeatOf self seat }
        requires share { IsAlone seat }
        ensures count { length result.items ≡ length self.plan }
        ensures asked { Marks result.items (length self.plan) seat.view.asked }
        ensures seen { (c : ℕ) → In seat.view.seen c → slice_index_or result.items c false ≡ true }
        ensures ready { (c : ℕ) → IsReady self.plan c → slice_index_or result.items c false ≡ true }
        // The seat has asked what the events of a run that fits its view ask.
        ensures all { (r : Run seat.view) × Marks result.items (length self.plan) (asked_after self.plan r.events) }
    {
        let Cells { plan: _, words } = self;
        let Seat { asked, place } = seat;
        words.close_with(place).free();
        asked
    }
}

// A flag for each cell, none of which is set.
fn no_flags(alloc: Global, count: usize) -> Result<Vec<bool>, NoMemory>
    ensures { IfOk result (λ flags. flags.items ≡ replicate count false) }
{
    let mut flags = Vec::with_capacity(alloc, count)?;
    for _ in 0..count {
        flags.push(false)?;
    }
    Ok(flags)
}

// Sets each flag that is set among the others.
fn unite(flags: &mut [bool], others: &[bool])
    requires { length flags.old ≡ length others.now }
    ensures { (c : ℕ) → c < length others.now → slice_index_or flags.new c false ≡ (slice_index_or flags.old c false || slice_index_or others.now c false) }
{
    for (number, other) in others.iter().enumerate() {
        if *other {
            flags[number] = true;
        }
    }
}
