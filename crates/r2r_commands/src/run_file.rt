//! The run of a file, beside others.

ghost use Rattle.std.specs.Prelude.{◌≡◌, ◌≤◌, ◌^◌, ◌∷◌, All, length, map, vec_items};
ghost use Rattle.type_world.specs.Loading.{world_of};
ghost use Rattle.r2r_commands.specs.Command.{Run, inputs};
ghost use Rattle.r2r_commands.specs.Ending.{Ends, refusals};
ghost use Rattle.r2r_commands.specs.Outside.{seen};
ghost use Rattle.r2r_commands.specs.Reading.{AllRead};
ghost use Rattle.r2r_commands.specs.RunRefusals.{start_refusals};
ghost use Rattle.r2r_commands.specs.Loaded.{IsUnlessRefused};
ghost use Rattle.r2r_commands.specs.Ready.{IsReadyRun, PrintsReply, PrintsRun};
ghost use Rattle.r2r_commands.specs.Status.{code_of};

use crate::checked::checked_files;
use crate::inputs::read_inputs;
use crate::loading::loaded_world;
use crate::output::refuse;
use crate::printing::{all_returned, write_workers};
use crate::refusals::Stop;
use crate::run_words::RunWords;
use crate::starting::{new_workers, result_of, started};
use crate::status::Status;
use cli_assembly::TypeSig;
use rtr_bytes::NoMemory;
use rtr_outside::{Files, Sink, SinkFailed};
use rtr_runner::{Bodies, Worker, run_all, runs_end};
use std::alloc::Global;
use type_world::World;

/// A run before its first worker starts. No memory is taken after that.
#[derive(Drop)]
struct Ready {
    world: World,
    bodies: Bodies,
    /// The type of the entry's result.
    ret: TypeSig,
    workers: Vec<Worker>,
}

/// The run in a world, where its entry takes the arguments of each worker.
fn ready_in<'a>(alloc: Global, words: &RunWords<'_>, world: World) -> Result<Ready, Stop<'a>>
    ensures { IsUnlessRefused (start_refusals words.now (world_of world)) (λ ready. IsReadyRun words.now world ready) result }
{
    let numbers = words.workers(alloc)?;
    let entry = started(&world, words.entry(), &numbers)?;
    let bodies = Bodies::prepare(alloc, &world)?;
    let workers = new_workers(alloc, &world, entry, words.ticks(), &numbers)?;
    let ret = result_of(&world, entry);
    Ok(Ready {
        world,
        bodies,
        ret,
        workers,
    })
}

/// The run of files, where nothing refuses it.
fn prepared<'a>(
    alloc: Global,
    words: &RunWords<'_>,
    names: &[&'a str],
    files: &[Vec<u8>],
) -> Result<Ready, Stop<'a>>
    requires names { map (λ name. name.now) names.now ≡ words.now.image ∷ words.now.refs }
    requires each { length names.now ≡ length files.now }
    requires most { length names.now ≤ 64 }
    requires small { All (λ file. length file.items ≤ 2 ^ 31) files.now }
    ensures { IsUnlessRefused (refusals (Run words.now) (AllRead (map vec_items files.now)))
        (λ ready. IsReadyRun words.now (map vec_items files.now) ready) result }
{
    let assemblies = checked_files(alloc, names, files)?;
    let world = loaded_world(alloc, names, assemblies)?;
    ready_in(alloc, words, world)
}

/// Runs each worker, and writes what it printed and how it ended.
fn run_ready<S: Sink>(words: &RunWords<'_>, ready: Ready, out: &mut S) -> Status
    requires ready { IsReadyRun words.now ready.world ready }
    ensures printed { PrintsRun S.written S.faults words.now ready.world out.old out.new (code_of result) }
    ensures never_falls { S.faults out.old ≤ S.faults out.new }
{
    let Ready {
        world,
        bodies,
        ret,
        mut workers,
    } = ready;
    runs_end();
    run_all(&world, &bodies, &mut workers);
    match write_workers(out, ret, &workers) {
        Ok(()) => {
            if all_returned(&workers) {
                Status::Done
            } else {
                Status::NotReturned
            }
        }
        Err(SinkFailed) => Status::WriteFault,
    }
}

/// Runs files that were read, or prints the line of the refusal.
fn run_files<S: Sink>(
    alloc: Global,
    words: &RunWords<'_>,
    names: &[&str],
    files: &[Vec<u8>],
    out: &mut S,
) -> Status
    requires names { map (λ name. name.now) names.now ≡ words.now.image ∷ words.now.refs }
    requires each { length names.now ≡ length files.now }
    requires most { length names.now ≤ 64 }
    requires small { All (λ file. length file.items ≤ 2 ^ 31) files.now }
    ensures printed { PrintsReply S.written S.faults (Run words.now) (map vec_items files.now) out.old out.new (code_of result) }
    ensures never_falls { S.faults out.old ≤ S.faults out.new }
{
    match prepared(alloc, words, names, files) {
        Ok(ready) => run_ready(words, ready, out),
        Err(Stop::Refused(refusal)) => refuse(alloc, refusal, out),
        Err(Stop::NoMemory) => Status::NoMemory,
    }
}

/// Runs a file, beside others, from its CIL; or prints the line of the refusal.
pub(crate) fn run_file<F: Files, S: Sink>(
    alloc: Global,
    words: &RunWords<'_>,
    files: &mut F,
    out: &mut S,
) -> Status
    ensures ends { Ends (Run words.now) (seen F.contents F.failed_calls S.written S.faults files.old out.old)
        (seen F.contents F.failed_calls S.written S.faults files.new out.new) (code_of result) }
    ensures contents { F.contents files.new ≡ F.contents files.old }
    ensures never_falls { S.faults out.old ≤ S.faults out.new }
{
    let names = match words.inputs(alloc) {
        Ok(names) => names,
        Err(NoMemory) => return Status::NoMemory,
    };
    match read_inputs(alloc, &names, files) {
        Ok(inputs) => run_files(alloc, words, &names, &inputs, out),
        Err(Stop::Refused(refusal)) => refuse(alloc, refusal, out),
        Err(Stop::NoMemory) => Status::NoMemory,
    }
}
