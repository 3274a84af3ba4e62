//! The stacks of the offsets that are reached, each with an answer without a search.

ghost use Rattle.std.specs.Prelude.{ℕ, ◌≡◌, ◌++◌, ◌<◌, [], ◌∷◌, None, false, length, get_or, option_copied};
ghost use Rattle.std.specs.Prelude.{option_to_list, IfOk, OnOk};
ghost use Rattle.cil_decode.specs.Bodies.{targets_of};
ghost use Rattle.type_world.specs.Loading.{world_of};
ghost use Rattle.cil_meaning.specs.Typing.{stack_at, widen_all, with_stack};
ghost use Rattle.cil_verify.specs.Flows.{offsets_after};
ghost use Rattle.cil_verify.specs.Places.{place_of, with_stacks};

use crate::flow::Leaves;
use crate::stack::widen_stack;
use cil_decode::Arg;
use cil_meaning::Kind;
use rtr_bytes::NoMemory;
use std::alloc::Global;
use std::marker::Model;
use type_world::World;

/// An offset that is reached, and the stack there. Contracts see them as a pair.
#[derive(Drop)]
pub(crate) struct Reached {
    at: u32,
    stack: Vec<Kind>,
}

impl Model for Reached {
    ghost use Rattle.std.specs.Prelude.{ℕ, List};
    ghost use Rattle.cil_meaning.specs.declared.kind.Kind.{Kind};

    ghost Value = { ℕ × List Kind };

    ghost view = { λ r. (r.at, r.stack.items) };
}

impl Reached {
    /// An offset with a stack.
    fn new(alloc: Global, at: u32, stack: &[Kind]) -> Result<Reached, NoMemory>
        ensures { IfOk result (λ reached. reached ≡ (at, stack.now)) }
    {
        let mut kinds = Vec::with_capacity(alloc, stack.len())?;
        kinds.extend_from_slice(stack)?;
        Ok(Reached { at, stack: kinds })
    }

    /// The stack.
    fn stack(&self) -> &[Kind]
        ensures { result.now ≡ self.now.1 }
    {
        self.stack.as_slice()
    }

    /// Widens the stack by another one. `false` where it is as before.
    fn widen(&mut self, world: &World, stack: &[Kind]) -> bool
        ensures widened { self.new ≡ (self.old.0, widen_all (world_of world.now) self.old.1 stack.now) }
        ensures unchanged { result ≡ false → self.new ≡ self.old }
    {
        widen_stack(world, &mut self.stack, stack)
    }
}

/// The place that an index has for an offset.
fn place_in(places: &[Option<u32>], at: u32) -> Option<usize>
    ensures { result ≡ get_or places.now at None }
{
    match places.get(at as usize) {
        Some(Some(place)) => Some(*place as usize),
        _ => None,
    }
}

/// Makes an index long enough for an offset.
fn make_room(places: &mut Vec<Option<u32>>, at: u32) -> Result<(), NoMemory>
    ensures same { (k : ℕ) → get_or places.new.items k None ≡ get_or places.old.items k None }
    ensures room { OnOk result (at < length places.new.items) }
{
    let size = at as usize + 1;
    if places.len() < size {
        places.resize(size, None)?;
    }
    Ok(())
}

/// The stacks of some offsets, in the order in which they were reached. Contracts see them as a typing.
#[derive(Drop)]
pub(crate) struct Stacks {
    reached: Vec<Reached>,
    places: Vec<Option<u32>>,
}

impl Model for Stacks {
    ghost use Rattle.cil_meaning.specs.Typing.{Typing};
    ghost use Rattle.cil_verify.specs.Places.{IndexedBy};

    ghost Value = { Typing };

    ghost view = { λ s. s.reached.items };

    ghost invariant = { λ s. IndexedBy s.reached.items s.places.items };
}

impl Stacks {
    /// No stack at all.
    fn new(alloc: Global) -> Stacks
        ensures { result ≡ [] }
    {
        Stacks {
            reached: Vec::new(alloc),
            places: Vec::new(alloc),
        }
    }

    /// The empty stack at offset 0.
    pub(crate) fn at_start(alloc: Global) -> Result<Stacks, NoMemory>
        ensures { IfOk result (λ stacks. stacks ≡ (0, []) ∷ []) }
    {
        let mut stacks = Stacks::new(alloc);
        stacks.append(alloc, &[], 0)?;
        Ok(stacks)
    }

    /// The stack at an offset. `None` where it isn't reached.
    pub(crate) fn stack_at(&self, at: u32) -> Option<&[Kind]>
        ensures { option_copied result ≡ stack_at self.now at }
    {
        match place_in(self.places.as_slice(), at) {
            Some(place) => Some(self.reached[place].stack()),
            None => None,
        }
    }

    /// Adds an offset that isn't reached yet.
    fn append(&mut self, alloc: Global, stack: &[Kind], at: u32) -> Result<(), NoMemory>
        requires { place_of self.old at ≡ None }
        ensures { OnOk result (self.new ≡ self.old ++ (at, stack.now) ∷ []) }
    {
        let Ok(place) = u32::try_from(self.reached.len()) else {
            return Err(NoMemory);
        };
        let reached = Reached::new(alloc, at, stack)?;
        self.reached.reserve(1)?;
        make_room(&mut self.places, at)?;
        self.places[at as usize] = Some(place);
        self.reached.push(reached)?;
        Ok(())
    }

    /// Widens the stack at an offset by another one, or adds the offset. `false` where nothing changed.
    pub(crate) fn add(
        &mut self,
        alloc: Global,
        world: &World,
        stack: &[Kind],
        at: u32,
    ) -> Result<bool, NoMemory>
        ensures added { OnOk result (self.new ≡ with_stack (world_of world.now) stack.now at self.old) }
        ensures unchanged { IfOk result (λ changed. changed ≡ false → self.new ≡ self.old) }
    {
        match place_in(self.places.as_slice(), at) {
            Some(place) => Ok(self.reached[place].widen(world, stack)),
            None => {
                self.append(alloc, stack, at)?;
                Ok(true)
            }
        }
    }
}

/// Adds a stack at an offset, where there is one. `false` where nothing changed.
fn add_some(
    alloc: Global,
    world: &World,
    stacks: &mut Stacks,
    stack: &[Kind],
    at: Option<u32>,
) -> Result<bool, NoMemory>
    ensures added { OnOk result (stacks.new ≡ with_stacks (world_of world.now) stack.now (option_to_list at) stacks.old) }
    ensures unchanged { IfOk result (λ changed. changed ≡ false → stacks.new ≡ stacks.old) }
{
    match at {
        Some(at) => stacks.add(alloc, world, stack, at),
        None => Ok(false),
    }
}

/// Adds a stack at each of some offsets. `false` where nothing changed.
fn add_each(
    alloc: Global,
    world: &World,
    stacks: &mut Stacks,
    stack: &[Kind],
    to: &[u32],
) -> Result<bool, NoMemory>
    ensures added { OnOk result (stacks.new ≡ with_stacks (world_of world.now) stack.now to.now stacks.old) }
    ensures unchanged { IfOk result (λ changed. changed ≡ false → stacks.new ≡ stacks.old) }
{
    let mut changed = false;
    for at in to {
        if stacks.add(alloc, world, stack, *at)? {
            changed = true;
        }
    }
    Ok(changed)
}

/// Adds a stack at each target of an operand. `false` where nothing changed.
fn add_targets(
    alloc: Global,
    world: &World,
    stacks: &mut Stacks,
    stack: &[Kind],
    arg: &Arg,
) -> Result<bool, NoMemory>
    ensures added { OnOk result (stacks.new ≡ with_stacks (world_of world.now) stack.now (targets_of arg.now) stacks.old) }
    ensures unchanged { IfOk result (λ changed. changed ≡ false → stacks.new ≡ stacks.old) }
{
    match arg {
        Arg::Target(to) => stacks.add(alloc, world, stack, *to),
        Arg::Targets(targets) => add_each(alloc, world, stacks, stack, targets.as_slice()),
        _ => Ok(false),
    }
}

/// Adds a stack at the offsets that follow an instruction. `false` where nothing changed.
pub(crate) fn add_all(
    alloc: Global,
    world: &World,
    stacks: &mut Stacks,
    stack: &[Kind],
    leaves: Leaves,
    arg: &Arg,
) -> Result<bool, NoMemory>
    ensures added { OnOk result
        (stacks.new ≡ with_stacks (world_of world.now) stack.now (offsets_after leaves arg.now) stacks.old) }
    ensures unchanged { IfOk result (λ changed. changed ≡ false → stacks.new ≡ stacks.old) }
{
    let next = add_some(alloc, world, stacks, stack, leaves.next)?;
    if leaves.targets {
        let targets = add_targets(alloc, world, stacks, stack, arg)?;
        Ok(next || targets)
    } else {
        Ok(next)
    }
}
