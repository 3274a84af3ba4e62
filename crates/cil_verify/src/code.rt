//! A method of the profile with its instructions.

ghost use Rattle.std.specs.Prelude.{◌≡◌, ◌≤◌, ◌<◌, ◌^◌, ℕ, false, get_or, length, slice_get, IfOk, OnOk};
ghost use Rattle.std.specs.Option.{option_map_or};
ghost use Rattle.cli_assembly.specs.Assemblies.{assembly_of, row_count};
ghost use Rattle.cil_decode.specs.Bodies.{IsCode, Marks, is_start};
ghost use Rattle.metadata.specs.declared.schema.Table.TheVariants as tables;
ghost use Rattle.type_world.specs.Loading.{as_method, world_of};
ghost use Rattle.type_world.specs.World.{rows_of_world};
ghost use Rattle.cil_verify.specs.Subjects.{rounds_of, subject};

use crate::step::{Step, steps_of};
use cil_decode::Instr;
use metadata::Table;
use rtr_bytes::NoMemory;
use std::alloc::Global;
use std::marker::Model;
use type_world::{ProfileMethod, World};

/// Makes marks long enough for an offset.
fn make_room(marks: &mut Vec<bool>, at: u32) -> Result<(), NoMemory>
    ensures same { (k : ℕ) → get_or marks.new.items k false ≡ get_or marks.old.items k false }
    ensures room { OnOk result (at < length marks.new.items) }
{
    let size = at as usize + 1;
    if marks.len() < size {
        marks.resize(size, false)?;
    }
    Ok(())
}

/// The marks of the offsets at which instructions begin.
fn starts_of(alloc: Global, instrs: &[Instr]) -> Result<Vec<bool>, NoMemory>
    ensures { IfOk result (λ marks. Marks marks.items instrs.now) }
{
    let mut marks = Vec::new(alloc);
    for instr in instrs {
        make_room(&mut marks, instr.at)?;
        marks[instr.at as usize] = true;
    }
    Ok(marks)
}

/// How many rows of TypeDef the assembly at a position has; none where there is no assembly.
fn rows_at(world: &World, asm: u8) -> u32
    ensures rows { result ≡ option_map_or (λ file. row_count (assembly_of file) tables.TypeDef) (slice_get world.now asm) 0 }
    ensures few { result < 2 ^ 24 }
{
    match world.assembly(asm) {
        Some(assembly) => assembly.rows(Table::TypeDef),
        None => 0,
    }
}

/// How many rows of TypeDef all assemblies have.
fn type_rows(world: &World) -> u32
    ensures rows { result ≡ rows_of_world (world_of world.now) tables.TypeDef }
    ensures few { result ≤ 2 ^ 30 }
{
    let mut rows = 0;
    for asm in 0..world.count() {
        rows += rows_at(world, asm);
    }
    rows
}

/// A method of the profile with its instructions. Contracts see the method as the definitions have it.
#[derive(Drop)]
pub(crate) struct Code<'a> {
    world: &'a World,
    method: &'a ProfileMethod<'a>,
    steps: Vec<Step<'a>>,
    starts: Vec<bool>,
}

impl<'a> Model for Code<'a> {
    ghost use Rattle.std.specs.Prelude.{◌≤◌, length};
    ghost use Rattle.cil_decode.specs.Bodies.{Marks};
    ghost use Rattle.type_world.specs.Loading.{as_method, world_of};
    ghost use Rattle.cil_verify.specs.Subjects.{Subject, subject};

    ghost Value = { Subject };

    ghost view = { λ c. subject (world_of c.world.now) (as_method c.method.now) c.steps.items };

    ghost invariant = { λ c. Marks c.starts.items c.steps.items × (length c.steps.items ≤ 65536) };
}

impl<'a> Code<'a> {
    /// A method with the instructions of its code.
    pub(crate) fn new(
        alloc: Global,
        world: &'a World,
        method: &'a ProfileMethod<'a>,
        instrs: &'a [Instr],
    ) -> Result<Code<'a>, NoMemory>
        requires code { IsCode method.now.code.now instrs.now }
        requires small { length method.now.code.now ≤ 65536 }
        ensures { IfOk result (λ code. code ≡ subject (world_of world.now) (as_method method.now) instrs.now) }
    {
        let steps = steps_of(alloc, method.code, instrs)?;
        let starts = starts_of(alloc, instrs)?;
        Ok(Code {
            world,
            method,
            steps,
            starts,
        })
    }

    /// The world.
    pub(crate) fn world(&self) -> &World
        ensures { world_of result.now ≡ self.now.world }
    {
        self.world
    }

    /// The method.
    pub(crate) fn method(&self) -> &ProfileMethod<'a>
        ensures { as_method result.now ≡ self.now.method }
    {
        self.method
    }

    /// The instructions.
    pub(crate) fn steps(&self) -> &[Step<'a>]
        ensures { result.now ≡ self.now.instrs }
    {
        self.steps.as_slice()
    }

    /// Whether an instruction begins at an offset.
    pub(crate) fn is_start(&self, at: u32) -> bool
        ensures { result ≡ is_start self.now.instrs at }
    {
        self.starts.get(at as usize).copied().unwrap_or(false)
    }

    /// How many rounds there are at most.
    pub(crate) fn rounds(&self) -> u64
        ensures { result ≡ rounds_of self.now }
    {
        let rows = u64::from(type_rows(self.world));
        let max_stack = u64::from(self.method.max_stack);
        self.steps.len() as u64 * (1 + max_stack * (rows + 2))
    }
}
