//! Runs of methods (`cil_interp`).

ghost use Rattle.std.specs.Prelude.{IsTrue};
ghost use Rattle.cil_interp.specs.Frames.{PassesAll};
ghost use Rattle.type_world.specs.Loading.{world_of};

use cil_interp::{Bodies, CilFrames, Event, Meter};
use cil_meaning::Ending;
use cli_assembly::Assembly;
use rtr_heap::Memory;
use std::alloc::Global;
use std::test::Fail;
use test_files::assembly_of;
use type_world::{MethodId, World};

/// A class with four methods of an `int`: the Fibonacci number, by two calls; one that calls itself with one less until its `int` is
/// zero, and gives zero; a loop that adds the numbers below it to a `long`; and the least `int` divided by it.
const METHODS: &str = "A
assembly_ref mscorlib
type_ref 23000001 System Object
type_def 100001 - C 01000001
method_with 3 - 16 Fib 02182f02022a02175928010000060218592801000006582a int32 int32
method_with 3 - 16 Depth 022c0902175928020000062a162a int32 int32
method_with 3 int64,int32 16 Sum 166a0a160b2b0906076a580a0717580b070232f3062a int64 int32
method_with 3 - 16 Least 2000000080025b2a int32 int32
entry 0";

/// A method by its row, its argument and its ticks, and how it ends.
const RUNS: &str = "1 20 100000 = Return(6765)
2 1023 2048 = Return(0)
2 1024 1025 = DepthLimit
2 1024 1024 = OutOfTicks
3 100000000 1000000000 = Return(4999999950000000)
4 2 9 = Return(3221225472)
4 0 9 = DivideByZero
4 4294967295 9 = Overflow";

/// Whether there is a word for each argument of a method.
fn passes_all(world: &World, target: MethodId, arguments: &[u64]) -> bool
    ensures all { IsTrue result → PassesAll (world_of world.now) target arguments.now }
{
    match world.shape_of(target) {
        Some(shape) => shape.arguments.len() == arguments.len(),
        None => true,
    }
}

/// How a run of a method in the profile ends.
fn run(alloc: Global, world: &World, row: u32, argument: u64, ticks: u64) -> Result<Ending, Fail> {
    let target = MethodId { asm: 0, row };
    let bodies = Bodies::prepare(alloc, world)?;
    let mut memory = Memory::reserve(alloc, world)?;
    let mut frames = CilFrames::reserve(alloc, world)?;
    let mut meter = Meter {
        ticks_left: ticks,
        depth: 0,
    };
    let arguments = [argument];
    if !passes_all(world, target, &arguments) {
        return Ok(Ending::Missing);
    }
    match frames.enter(world, &bodies, target, &arguments, &mut meter) {
        Event::Next => Ok(frames.run(world, &bodies, &mut memory, &mut meter)),
        Event::End(ending) => Ok(ending),
        _ => Ok(Ending::Missing),
    }
}

/// The ending of a row.
fn ending_of(alloc: Global, world: &World, row: &str) -> Result<Ending, Fail> {
    let (method, rest) = row.split_once(' ').ok_or("a row")?;
    let (argument, ticks) = rest.split_once(' ').ok_or("ticks")?;
    let (row, argument) = (method.parse::<u32>()?, argument.parse::<u64>()?);
    run(alloc, world, row, argument, ticks.parse::<u64>()?)
}

#[test]
fn runs(rt: HostRuntime) -> Result<(), Fail> {
    let alloc = rt.alloc();
    let assembly = Assembly::read(alloc, assembly_of(alloc, METHODS)?)?;
    let world = World::new(alloc, vec![in alloc; assembly]?)?;
    let mut found = String::new(alloc);
    for line in RUNS.lines() {
        let (row, _) = line.split_once(" = ").ok_or("a row has two parts")?;
        let ending = ending_of(alloc, &world, row)?;
        found.push_str(&format!(in alloc; "{row} = {ending:?}\n")?)?;
    }
    assert_eq!(rt; found.trim_end(), RUNS);
    Ok(())
}
