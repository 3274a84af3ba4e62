//! Calls and returns, followed.

ghost use Rattle.std.specs.Prelude.{◌≡◌, ◌≤◌, ◌<◌, ℕ, List, None, length, take};
ghost use Rattle.type_world.specs.Loading.{world_of};
ghost use Rattle.cil_meaning.specs.State.{Begun, Going, Run, no_objects};
ghost use Rattle.cil_meaning.specs.Run.{enter};
ghost use Rattle.cil_interp.specs.Frames.{AreSome, Called, Comes, Gave, GivesTo, PassesAll, Runs, Waits};
ghost use Rattle.cil_interp.specs.Frames.{frames_are, next_result, outgoing, passed, state_of, waiting_in};
ghost use Rattle.cil_interp.specs.Means.{CodesAreInstructions, TypingsMeetTheirRules};
ghost use Rattle.cil_interp.specs.Ran.{CameTo, Falls, GoesOrEnds, RunEnds, Takes};
ghost use Rattle.cil_interp.specs.Table.{IsTable};

use crate::bodies::Bodies;
use crate::meter::{Event, Meter};
use crate::printing::built_in;
use crate::run::run_frame;
use crate::running::{enter_method, give_last, leave};
use crate::stack::Stack;
use cil_meaning::{Ending, typings_meet_their_rules};
use rtr_heap::Memory;
use type_world::{BUILT_IN, MethodId, World, codes_are_instructions};

/// The words that the last frame's call passes, in a place of their own.
fn copied(stack: &Stack, words: &[u64], passed: &mut [u64]) -> usize
    requires few { length (outgoing (frames_are stack.now words.now)) ≤ length passed.old }
    requires some { AreSome stack.now }
    ensures count { result ≡ length (outgoing (frames_are stack.now words.now)) }
    ensures words { take result passed.new ≡ outgoing (frames_are stack.now words.now) }
{
    let Some(a) = stack.last() else {
        return 0;
    };
    let end = words.len().min(a.end as usize);
    let last = words.len().min(end + a.passes as usize);
    let outgoing = &words[end..last];
    let count = outgoing.len();
    passed[..count].copy_from_slice(outgoing);
    count
}

/// Follows a return: the last frame goes on with the word, or the run is over where none waits.
fn returned(world: &World, stack: &mut Stack, words: &mut [u64], word: u64) -> Option<Ending>
    requires waits { Waits (world_of world.now) stack.old }
    requires size { length words.old ≡ 278529 }
    ensures goes { (output : List ℕ) (ticks : ℕ) (begun : List Begun) (run : Run (Unit {0}) (List ℕ))
        → Gave (world_of world.now) (frames_are stack.old words.old) word output ticks begun run
        → GoesOrEnds (world_of world.now) (frames_are stack.new words.new) output ticks result run }
    ensures depth { length stack.new ≡ length stack.old }
{
    if stack.len() == 0 {
        return Some(Ending::Return(word));
    }
    give_last(world, stack, words, word);
    None
}

/// Follows a call of a method that is no built-in one.
fn called_method(
    world: &World,
    bodies: &Bodies,
    target: MethodId,
    arguments: &[u64],
    stack: &mut Stack,
    words: &mut [u64],
    meter: &mut Meter,
) -> Option<Ending>
    requires table { IsTable (world_of world.now) bodies.now }
    requires row { target.asm < BUILT_IN }
    requires waits { Waits (world_of world.now) stack.old }
    requires depth { meter.old.depth ≡ length stack.old }
    requires arguments { PassesAll (world_of world.now) target arguments.now }
    requires result { GivesTo (world_of world.now) stack.old target }
    requires size { length words.old ≡ 278529 }
    ensures goes { (output : List ℕ) (begun : List Begun)
        → GoesOrEnds (world_of world.now) (frames_are stack.new words.new) output meter.new.ticks_left result
        (enter no_objects (world_of world.now) (waiting_in (world_of world.now) (frames_are stack.old words.old)) target
        (passed (world_of world.now) target arguments.now) output meter.old.ticks_left begun) }
    ensures depth { meter.new.depth ≡ length stack.new }
    ensures ticks { result ≡ None → meter.new.ticks_left < meter.old.ticks_left }
{
    match enter_method(world, bodies, target, arguments, stack, words, meter) {
        Event::Next => None,
        Event::End(ending) => Some(ending),
        Event::Call(_) => None,
        Event::Returned(_) => None,
    }
}

/// Follows a call of a built-in method.
fn called_built_in(
    world: &World,
    row: u32,
    arguments: &[u64],
    stack: &mut Stack,
    words: &mut [u64],
    memory: &mut Memory,
    meter: &mut Meter,
) -> Option<Ending>
    requires first { 2 ≤ row }
    requires last { row ≤ 6 }
    requires arguments { PassesAll (world_of world.now) (record { asm = BUILT_IN; row = row }) arguments.now }
    requires waits { Waits (world_of world.now) stack.old }
    requires some { AreSome stack.old }
    requires result { next_result stack.old ≡ None }
    requires size { length words.old ≡ 278529 }
    ensures goes { (begun : List Begun)
        → GoesOrEnds (world_of world.now) (frames_are stack.new words.new) memory.new meter.new.ticks_left result
        (enter no_objects (world_of world.now) (waiting_in (world_of world.now) (frames_are stack.old words.old))
        (record { asm = BUILT_IN; row = row }) (passed (world_of world.now) (record { asm = BUILT_IN; row = row }) arguments.now)
        memory.old meter.old.ticks_left begun) }
    ensures frames { length stack.new ≡ length stack.old }
    ensures depth { meter.new.depth ≡ meter.old.depth }
    ensures ticks { result ≡ None → meter.new.ticks_left < meter.old.ticks_left }
{
    match built_in(world, row, arguments, memory, meter) {
        Event::Returned(_) => {
            give_last(world, stack, words, 0);
            None
        }
        Event::End(ending) => Some(ending),
        Event::Call(_) => None,
        Event::Next => None,
    }
}

/// Follows a call: the method is entered, or a built-in one prints its line.
fn called(
    world: &World,
    bodies: &Bodies,
    target: MethodId,
    stack: &mut Stack,
    words: &mut [u64],
    memory: &mut Memory,
    meter: &mut Meter,
) -> Option<Ending>
    requires table { IsTable (world_of world.now) bodies.now }
    requires called { (ticks : ℕ) × (begun : List Begun) × (run : Run (Unit {0}) (List ℕ))
        × Called (world_of world.now) (frames_are stack.old words.old) target (outgoing (frames_are stack.old words.old))
        memory.old ticks begun run }
    requires depth { meter.old.depth ≡ length stack.old }
    requires size { length words.old ≡ 278529 }
    ensures goes { (begun : List Begun) (run : Run (Unit {0}) (List ℕ))
        → Called (world_of world.now) (frames_are stack.old words.old) target (outgoing (frames_are stack.old words.old)) memory.old
        meter.old.ticks_left begun run
        → GoesOrEnds (world_of world.now) (frames_are stack.new words.new) memory.new meter.new.ticks_left result run }
    ensures depth { meter.new.depth ≡ length stack.new }
    ensures ticks { result ≡ None → meter.new.ticks_left < meter.old.ticks_left }
{
    let _count = world.count();
    let mut passed = [0u64; 16];
    let count = copied(stack, words, &mut passed);
    let arguments = &passed[..count];
    if target.asm == BUILT_IN {
        called_built_in(world, target.row, arguments, stack, words, memory, meter)
    } else {
        called_method(world, bodies, target, arguments, stack, words, meter)
    }
}

/// Follows an event.
pub(crate) fn follow(
    world: &World,
    bodies: &Bodies,
    event: Event,
    stack: &mut Stack,
    words: &mut [u64],
    memory: &mut Memory,
    meter: &mut Meter,
) -> Option<Ending>
    requires table { IsTable (world_of world.now) bodies.now }
    requires came { (ticks : ℕ) × (begun : List Begun) × (run : Run (Unit {0}) (List ℕ))
        × Comes (world_of world.now) (frames_are stack.old words.old) (outgoing (frames_are stack.old words.old))
        memory.old ticks begun event run }
    requires depth { meter.old.depth ≡ length stack.old }
    requires size { length words.old ≡ 278529 }
    ensures goes { (begun : List Begun) (run : Run (Unit {0}) (List ℕ))
        → Comes (world_of world.now) (frames_are stack.old words.old) (outgoing (frames_are stack.old words.old)) memory.old
        meter.old.ticks_left begun event run
        → GoesOrEnds (world_of world.now) (frames_are stack.new words.new) memory.new meter.new.ticks_left result run }
    ensures depth { meter.new.depth ≡ length stack.new }
    ensures ticks { result ≡ None → Falls event meter.new.ticks_left meter.old.ticks_left }
{
    match event {
        Event::Next => None,
        Event::End(ending) => Some(ending),
        Event::Returned(word) => returned(world, stack, words, word),
        Event::Call(target) => called(world, bodies, target, stack, words, memory, meter),
    }
}

/// Runs the last frame up to a call, a return or the end of the run.
fn run_last(
    world: &World,
    bodies: &Bodies,
    stack: &mut Stack,
    words: &mut [u64],
    meter: &mut Meter,
) -> Event
    requires instructions { CodesAreInstructions }
    requires typings { TypingsMeetTheirRules }
    requires world { length (world_of world.now) ≤ 64 }
    requires table { IsTable (world_of world.now) bodies.now }
    requires runs { Runs (world_of world.now) stack.old }
    requires depth { meter.old.depth ≡ length stack.old }
    requires size { length words.old ≡ 278529 }
    ensures came { (output : List ℕ) (begun : List Begun)
        → CameTo (world_of world.now) (frames_are stack.old words.old) output meter.old.ticks_left begun
        (frames_are stack.new words.new) meter.new.ticks_left result }
    ensures depth { meter.new.depth ≡ length stack.new }
    ensures takes { Takes result meter.new.ticks_left meter.old.ticks_left }
{
    let Some(mut a) = stack.pop() else {
        return Event::End(Ending::Unsupported);
    };
    let Some(body) = bodies.body_of(a.method) else {
        return Event::End(Ending::Unsupported);
    };
    let codes = body.codes();
    let effect = run_frame(world, codes, body.fused(), &mut a, words, meter);
    leave(stack, a, effect, meter)
}

/// Runs the frames until the run is over.
pub(crate) fn run_all(
    world: &World,
    bodies: &Bodies,
    stack: &mut Stack,
    words: &mut [u64],
    memory: &mut Memory,
    meter: &mut Meter,
) -> Ending
    requires table { IsTable (world_of world.now) bodies.now }
    requires runs { Runs (world_of world.now) stack.old }
    requires depth { meter.old.depth ≡ length stack.old }
    requires size { length words.old ≡ 278529 }
    ensures ends { (begun : List Begun) → RunEnds (world_of world.now)
        (Going (state_of (world_of world.now) (frames_are stack.old words.old) memory.old meter.old.ticks_left begun)) memory.new result }
{
    codes_are_instructions();
    typings_meet_their_rules();
    let _count = world.count();
    loop {
        let event = run_last(world, bodies, stack, words, meter);
        if let Some(ending) = follow(world, bodies, event, stack, words, memory, meter) {
            return ending;
        }
    }
}
