//! What the calls on frames do, over the frames and their words apart.

ghost use Rattle.std.specs.Prelude.{◌≡◌, ◌≤◌, ◌<◌, ◌+◌, ◌^◌, ℕ, List, length, [], ◌∷◌, IsTrue, false, if◌then◌else◌};
ghost use Rattle.cil_meaning.specs.declared.ending.Ending.TheVariants as endings;
ghost use Rattle.type_world.specs.Loading.{world_of};
ghost use Rattle.type_world.specs.Profile.{is_abstract};
ghost use Rattle.cil_meaning.specs.State.{Begun, Frame, no_objects};
ghost use Rattle.cil_meaning.specs.Run.{enter, give, step};
ghost use Rattle.cil_interp.specs.Entered.{given_at, given_words};
ghost use Rattle.cil_interp.specs.Frames.{AreSome, Comes, GivesTo, GoesOn, PassesAll, Runs, Waits};
ghost use Rattle.cil_interp.specs.Frames.{frames_are, given_to, left, next_base, outgoing, passed, state_of, waiting_in};
ghost use Rattle.cil_interp.specs.Ran.{IsEntry};
ghost use Rattle.cil_interp.specs.Table.{IsTable};

use crate::act::{Activation, Effect};
use crate::arithmetic::kept_word;
use crate::bodies::Bodies;
use crate::enter::{begin, write};
use crate::instruction::advance;
use crate::meter::{Event, Meter, tick};
use crate::stack::{FRAMES, Stack};
use cil_meaning::{Ending, typings_meet_their_rules};
use type_world::{BUILT_IN, MethodId, World, codes_are_instructions};

/// How entering a method that is not in the profile ends the run.
fn absent(world: &World, target: MethodId) -> Ending
    ensures { result ≡ (if is_abstract (world_of world.now) target then endings.Missing else endings.Unsupported) }
{
    if world.is_abstract(target) {
        Ending::Missing
    } else {
        Ending::Unsupported
    }
}

/// Ends the call at which a frame waits.
#[tactic(auto, unfolding(crate::specs::Entered::given_words))]
fn give_to(a: &mut Activation, words: &mut [u64], word: u64)
    requires place { a.old.place < 2 ^ 16 }
    requires room { a.old.end < length words.old }
    requires few { length words.old < 2 ^ 31 }
    ensures activation { a.new ≡ given_at a.old }
    ensures words { words.new ≡ given_words a.old words.old word }
{
    a.place += 1;
    if let Some(of) = a.result {
        words[a.end as usize] = kept_word(of, word);
        a.end += 1;
    }
}

/// What comes of an effect: the frame stays, or it is gone after a return.
#[tactic(auto, unfolding(crate::specs::Frames::left))]
pub(crate) fn leave(stack: &mut Stack, a: Activation, effect: Effect, meter: &mut Meter) -> Event
    requires few { length stack.old < 1024 }
    ensures event { result ≡ (left effect a stack.old meter.old.ticks_left meter.old.depth).event }
    ensures frames { stack.new ≡ (left effect a stack.old meter.old.ticks_left meter.old.depth).frames }
    ensures ticks { meter.new.ticks_left ≡ (left effect a stack.old meter.old.ticks_left meter.old.depth).ticks }
    ensures depth { meter.new.depth ≡ (left effect a stack.old meter.old.ticks_left meter.old.depth).depth }
{
    match effect {
        Effect::Returns(word) if tick(meter) => {
            meter.depth = meter.depth.saturating_sub(1);
            return Event::Returned(word);
        }
        _ => {}
    }
    stack.push(a);
    match effect {
        Effect::Next => Event::Next,
        Effect::Calls(call) => Event::Call(call.target),
        Effect::Ends(ending) => Event::End(ending),
        Effect::Returns(_) => Event::End(Ending::OutOfTicks),
        Effect::Jumped => {
            if tick(meter) {
                Event::Next
            } else {
                Event::End(Ending::OutOfTicks)
            }
        }
    }
}

/// One step of the last frame, which runs.
pub(crate) fn step_last(
    world: &World,
    bodies: &Bodies,
    stack: &mut Stack,
    words: &mut [u64],
    meter: &mut Meter,
) -> Event
    requires table { IsTable (world_of world.now) bodies.now }
    requires runs { Runs (world_of world.now) stack.old }
    requires size { length words.old ≡ 278529 }
    ensures stepped { (output : List ℕ) (begun : List Begun)
        → Comes (world_of world.now) (frames_are stack.new words.new) (outgoing (frames_are stack.new words.new)) output
        meter.new.ticks_left begun result (step no_objects (world_of world.now)
        (state_of (world_of world.now) (frames_are stack.old words.old) output meter.old.ticks_left begun)) }
    ensures depth { meter.old.depth ≡ length stack.old → meter.new.depth ≡ length stack.new }
{
    codes_are_instructions();
    typings_meet_their_rules();
    let _count = world.count();
    let Some(mut a) = stack.pop() else {
        return Event::End(Ending::Unsupported);
    };
    let Some(body) = bodies.body_of(a.method) else {
        return Event::End(Ending::Unsupported);
    };
    let codes = body.codes();
    let effect = advance(world, codes, &mut a, words);
    leave(stack, a, effect, meter)
}

/// Enters a method that is no built-in one, with one word for each argument: the tick, the depth, and the entry.
pub(crate) fn enter_method(
    world: &World,
    bodies: &Bodies,
    target: MethodId,
    arguments: &[u64],
    stack: &mut Stack,
    words: &mut [u64],
    meter: &mut Meter,
) -> Event
    requires table { IsTable (world_of world.now) bodies.now }
    requires row { target.asm < BUILT_IN }
    requires waits { Waits (world_of world.now) stack.old }
    requires depth { meter.old.depth ≡ length stack.old }
    requires arguments { PassesAll (world_of world.now) target arguments.now }
    requires result { GivesTo (world_of world.now) stack.old target }
    requires size { length words.old ≡ 278529 }
    ensures entered { (output : List ℕ) (begun : List Begun)
        → Comes (world_of world.now) (frames_are stack.new words.new) [] output meter.new.ticks_left begun result
        (enter no_objects (world_of world.now) (waiting_in (world_of world.now) (frames_are stack.old words.old)) target
        (passed (world_of world.now) target arguments.now) output meter.old.ticks_left begun) }
    ensures depth { meter.new.depth ≡ length stack.new }
    ensures entry { IsEntry result }
    ensures ticks { result ≡ Event.Next → meter.new.ticks_left < meter.old.ticks_left }
{
    codes_are_instructions();
    typings_meet_their_rules();
    let _count = world.count();
    if !tick(meter) {
        return Event::End(Ending::OutOfTicks);
    }
    if meter.depth >= FRAMES {
        return Event::End(Ending::DepthLimit);
    }
    match bodies.body_of(target) {
        None => Event::End(absent(world, target)),
        Some(body) => {
            let base = base_after(stack);
            write(arguments, words, base as usize);
            let begun = begin(body, target, words, base);
            stack.push(begun);
            meter.depth += 1;
            Event::Next
        }
    }
}

/// Where the words of the next frame begin.
fn base_after(stack: &Stack) -> u32
    ensures { result ≡ next_base stack.now }
{
    match stack.last() {
        Some(a) => a.end,
        None => 0,
    }
}

/// Ends the call at which the last frame waits.
pub(crate) fn give_last(_world: &World, stack: &mut Stack, words: &mut [u64], word: u64)
    requires waits { Waits (world_of _world.now) stack.old }
    requires some { AreSome stack.old }
    requires size { length words.old ≡ 278529 }
    ensures given { (output : List ℕ) (ticks : ℕ) (begun : List Begun)
        → GoesOn (world_of _world.now) (frames_are stack.new words.new) output ticks begun
        (give no_objects (world_of _world.now) (waiting_in (world_of _world.now) (frames_are stack.old words.old))
        (given_to stack.old word) output ticks begun) }
    ensures depth { length stack.new ≡ length stack.old }
{
    codes_are_instructions();
    typings_meet_their_rules();
    let _count = _world.count();
    if let Some(mut a) = stack.pop() {
        give_to(&mut a, words, word);
        stack.push(a);
    }
}
