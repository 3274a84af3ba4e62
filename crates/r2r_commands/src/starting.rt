//! The entry of a run, and its workers.

ghost use Rattle.std.specs.Prelude.{◌≡◌, ◌<◌, ◌≤◌, [], IfOk, IfSome, Some, length, map, option_map, vec_items};
ghost use Rattle.type_world.specs.Loading.{world_of};
ghost use Rattle.r2r_commands.specs.Refusals.{BadArguments};
ghost use Rattle.r2r_commands.specs.RunRefusals.{bad_arguments, entry_in, not_started};
ghost use Rattle.r2r_commands.specs.Running.{result_of};
ghost use Rattle.r2r_commands.specs.Loaded.{IsUnlessRefused, first_of, new_workers};
ghost use Rattle.r2r_commands.specs.Values.{entry_meaning};

use crate::refusals::{Refusal, Stop};
use crate::values::Entry;
use cli_assembly::TypeSig;
use rtr_bytes::NoMemory;
use rtr_runner::Worker;
use std::alloc::Global;
use type_world::{BUILT_IN, MethodId, World};

/// The method that is named, or the entry point of the image.
fn entry_in(world: &World, named: Option<Entry<'_>>) -> Option<MethodId>
    ensures entry { result ≡ entry_in (world_of world.now) (option_map entry_meaning named.entry) }
    ensures row { IfSome result (λ entry. entry.asm < BUILT_IN) }
{
    match named {
        None => world.entry_point(),
        Some(named) => world.entry_named(named.type_name, named.method),
    }
}

/// The number of the first worker whose arguments the entry does not take.
fn first_bad(world: &World, entry: MethodId, workers: &[Vec<i128>]) -> Option<u32>
    requires row { entry.asm < BUILT_IN }
    requires few { length workers.now ≤ 16 }
    ensures { option_map (λ worker. BadArguments worker) result
        ≡ first_of (bad_arguments (world_of world.now) entry 0 (map vec_items workers.now)) }
{
    for i in 0..workers.len() {
        if !world.can_start(entry, workers[i].as_slice()) {
            return Some(i as u32);
        }
    }
    None
}

/// The entry, which takes the arguments of each worker.
pub(crate) fn started<'a>(
    world: &World,
    named: Option<Entry<'_>>,
    workers: &[Vec<i128>],
) -> Result<MethodId, Stop<'a>>
    requires few { length workers.now ≤ 16 }
    ensures refused { IsUnlessRefused (not_started (world_of world.now) (map vec_items workers.now)
        (entry_in (world_of world.now) (option_map entry_meaning named.entry)))
        (λ entry. entry_in (world_of world.now) (option_map entry_meaning named.entry) ≡ Some entry) result }
    ensures row { IfOk result (λ entry. entry.asm < BUILT_IN) }
{
    match entry_in(world, named) {
        None => Err(Stop::Refused(Refusal::NoEntry)),
        Some(entry) => match first_bad(world, entry, workers) {
            None => Ok(entry),
            Some(worker) => Err(Stop::Refused(Refusal::BadArguments(worker))),
        },
    }
}

/// A worker for the arguments of each.
pub(crate) fn new_workers(
    alloc: Global,
    world: &World,
    entry: MethodId,
    ticks: u64,
    workers: &[Vec<i128>],
) -> Result<Vec<Worker>, NoMemory>
    requires row { entry.asm < BUILT_IN }
    requires few { length workers.now ≤ 16 }
    requires start { bad_arguments (world_of world.now) entry 0 (map vec_items workers.now) ≡ [] }
    ensures { IfOk result (λ made. made.items ≡ new_workers entry ticks 0 (map vec_items workers.now)) }
{
    let mut made = Vec::new(alloc);
    for i in 0..workers.len() {
        let worker = Worker::plain(alloc, world, i as u32, entry, workers[i].as_slice(), ticks)?;
        made.push(worker)?;
    }
    Ok(made)
}

/// The type of the result of a row of MethodDef; void where there is no such row.
pub(crate) fn result_of(world: &World, entry: MethodId) -> TypeSig
    requires row { entry.asm < BUILT_IN }
    ensures { result ≡ result_of (world_of world.now) entry }
{
    match world.method_sig(entry) {
        Some(sig) => sig.ret,
        None => TypeSig::Void,
    }
}
