//! Cells that several workers read and bind (`import_cells`).

ghost use Rattle.std.specs.Prelude.{◌≡◌, ℕ, ◌≤◌, ◌-◌, ◌/◌, ◌^◌, IsTrue};
ghost use Rattle.std.specs.Thread.{IsSync};
ghost use Rattle.import_cells.specs.Plan.{In};
ghost use Rattle.import_cells.specs.Seats.{IsSeatOf};

use import_cells::{CellPlan, Cells, Seat, is_plan};
use rtr_bytes::{NoMemory, Sequence};
use std::alloc::Global;
use std::test::Fail;
use std::thread::{Threads, join_mut};

const MANY_CELLS: usize = 1 << 20;

fn cell(alloc: Global, initial: u64, bound: Option<u64>, eager: bool) -> CellPlan {
    CellPlan {
        initial,
        bound,
        eager,
        first: Sequence::from_vec(Vec::new(alloc)),
    }
}

fn call_cell(
    alloc: Global,
    initial: u64,
    bound: u64,
    first: [u32; 2],
) -> Result<CellPlan, NoMemory> {
    Ok(CellPlan {
        initial,
        bound: Some(bound),
        eager: false,
        first: Sequence::from_vec(Vec::from_slice(alloc, &first)?),
    })
}

/// Two cells and the call cell that comes after them, an eager cell, one whose initial value is its bound
/// value, and one that is never bound.
fn six_cells(alloc: Global) -> Result<Vec<CellPlan>, NoMemory> {
    let mut plan = Vec::new(alloc);
    plan.push(cell(alloc, 0, Some(100), false))?;
    plan.push(cell(alloc, 0, Some(101), false))?;
    plan.push(call_cell(alloc, 0x1_0000_2000, 200, [0, 1])?)?;
    plan.push(cell(alloc, 0, Some(300), true))?;
    plan.push(cell(alloc, 0, Some(0), false))?;
    plan.push(cell(alloc, 9, None, false))?;
    Ok(plan)
}

/// Binds a cell that comes after no other, and answers whether there is one.
fn bind_leaf(cells: &Cells, plan: &[CellPlan], seat: &mut Seat, number: u32) -> bool
    requires plan { plan.now ≡ cells.now.plan }
    requires seat { IsSeatOf cells.now seat.old }
    ensures seat { IsSeatOf cells.now seat.new }
    ensures share { seat.new.view.share ≡ seat.old.view.share }
    ensures keeps { (d : ℕ) → In seat.old.view.seen d → In seat.new.view.seen d }
    ensures seen { IsTrue result → In seat.new.view.seen number }
{
    if number as usize >= plan.len() {
        return false;
    }
    let cell = &plan[number as usize];
    match cell.bound {
        Some(value) if cell.first.as_slice().is_empty() => {
            cells.bind(seat, number, value);
            true
        }
        _ => false,
    }
}

/// Binds a call cell after the two cells before it, and answers whether there is one.
fn bind_call(cells: &Cells, plan: &[CellPlan], seat: &mut Seat, number: u32) -> bool
    requires plan { plan.now ≡ cells.now.plan }
    requires seat { IsSeatOf cells.now seat.old }
    ensures seat { IsSeatOf cells.now seat.new }
    ensures share { seat.new.view.share ≡ seat.old.view.share }
{
    if number as usize >= plan.len() {
        return false;
    }
    let cell = &plan[number as usize];
    let Some(value) = cell.bound else {
        return false;
    };
    let [one, other] = cell.first.as_slice() else {
        return false;
    };
    if bind_leaf(cells, plan, seat, *one) && bind_leaf(cells, plan, seat, *other) {
        cells.bind(seat, number, value) == value
    } else {
        false
    }
}

/// What one worker does at six cells: it reads and binds them, the callee's cells first.
fn work(cells: &Cells, plan: &[CellPlan], seat: &mut Seat) -> bool
    requires plan { plan.now ≡ cells.now.plan }
    requires seat { IsSeatOf cells.now seat.old }
    ensures seat { IsSeatOf cells.now seat.new }
    ensures share { seat.new.view.share ≡ seat.old.view.share }
{
    if plan.len() != 6 {
        return false;
    }
    let before = cells.read(seat, 2);
    let own = cells.read(seat, 0);
    let known = before != 200 || own == 100;
    let bound = bind_call(cells, plan, seat, 2) && bind_leaf(cells, plan, seat, 4);
    let after = [
        cells.read(seat, 0),
        cells.read(seat, 1),
        cells.read(seat, 2),
        cells.read(seat, 3),
        cells.read(seat, 4),
        cells.read(seat, 5),
    ];
    known && bound && after == [100, 101, 200, 300, 0, 9]
}

/// So many workers, each with a seat of its own.
fn work_in_threads<R: Threads + Sync>(
    rt: &R,
    alloc: Global,
    cells: &Cells,
    plan: &[CellPlan],
    seat: &mut Seat,
    workers: u32,
) -> bool
    requires plan { plan.now ≡ cells.now.plan }
    requires seat { IsSeatOf cells.now seat.old }
    requires share { workers ≤ seat.old.view.share }
    ensures seat { IsSeatOf cells.now seat.new }
    ensures share { IsTrue result → seat.new.view.share ≡ seat.old.view.share }
{
    if workers < 2 {
        return work(cells, plan, seat);
    }
    let Ok(mut other) = cells.split(alloc, seat) else {
        return false;
    };
    let there = &mut other;
    let (left, right) = join_mut(
        rt,
        &mut || -> bool
            requires { IsSync R.row × (plan.now ≡ cells.now.plan) × IsSeatOf cells.now seat.now × (workers - workers / 2 ≤ seat.now.view.share) }
            ensures { IsSeatOf cells.entry.now seat.exit.now × (IsTrue result → seat.exit.now.view.share ≡ seat.entry.now.view.share) }
        { work_in_threads(rt, alloc, cells, plan, seat, workers - workers / 2) },
        &mut || -> bool
            requires { IsSync R.row × (plan.now ≡ cells.now.plan) × IsSeatOf cells.now there.now × (workers / 2 ≤ there.now.view.share) }
            ensures { IsSeatOf cells.entry.now there.exit.now × (IsTrue result → there.exit.now.view.share ≡ there.entry.now.view.share) }
        { work_in_threads(rt, alloc, cells, plan, there, workers / 2) },
    );
    cells.join(seat, other);
    left && right
}

/// Splits so many seats off one, one after another, and joins them again.
fn split_and_join(cells: &Cells, alloc: Global, seat: &mut Seat, splits: u32) -> bool
    requires seat { IsSeatOf cells.now seat.old }
    requires share { 2 ^ splits ≤ seat.old.view.share }
    ensures seat { IsSeatOf cells.now seat.new }
    ensures share { IsTrue result → seat.new.view.share ≡ seat.old.view.share }
{
    if splits == 0 {
        return true;
    }
    let Ok(other) = cells.split(alloc, seat) else {
        return false;
    };
    let rest = split_and_join(cells, alloc, seat, splits - 1);
    cells.join(seat, other);
    rest
}

#[test]
fn sixteen_workers_ask_every_cell(rt: HostRuntime) -> Result<(), Fail> {
    let plan = six_cells(rt.alloc())?;
    let plan = plan.as_slice();
    assert!(rt; is_plan(plan));
    let (cells, mut seat) = Cells::new(rt.alloc(), plan)?;
    assert!(rt; work_in_threads(&rt, rt.alloc(), &cells, plan, &mut seat, 16));
    assert_eq!(rt;
        cells.close(seat).as_slice(),
        [true, true, true, true, true, false].as_slice()
    );
    Ok(())
}

#[test]
fn one_seat_is_split_fifteen_times(rt: HostRuntime) -> Result<(), Fail> {
    let plan = six_cells(rt.alloc())?;
    let plan = plan.as_slice();
    assert!(rt; is_plan(plan));
    let (cells, mut seat) = Cells::new(rt.alloc(), plan)?;
    assert!(rt; split_and_join(&cells, rt.alloc(), &mut seat, 15));
    assert!(rt; bind_leaf(&cells, plan, &mut seat, 1));
    assert_eq!(rt;
        cells.close(seat).as_slice(),
        [false, true, false, true, false, false].as_slice()
    );
    Ok(())
}

#[test]
fn no_cell_and_many(rt: HostRuntime) -> Result<(), Fail> {
    let (cells, seat) = Cells::new(rt.alloc(), &[])?;
    assert!(rt; cells.close(seat).is_empty());
    let mut plan = Vec::with_capacity(rt.alloc(), MANY_CELLS)?;
    for number in 0..MANY_CELLS {
        plan.push(cell(rt.alloc(), number as u64, None, false))?;
    }
    let plan = plan.as_slice();
    assert!(rt; plan.len() == MANY_CELLS && is_plan(plan));
    let (cells, mut seat) = Cells::new(rt.alloc(), plan)?;
    assert_eq!(rt;
        cells.read(&mut seat, MANY_CELLS as u32 - 1),
        MANY_CELLS as u64 - 1
    );
    assert!(rt; cells.close(seat).iter().all(|asked| !asked));
    Ok(())
}
