//! Typings of methods, and why there is none (`cil_verify`).

use cil_verify::{Typed, verify};
use cli_assembly::Assembly;
use std::alloc::Global;
use std::test::Fail;
use test_files::assembly_of;
use type_world::{MethodId, World};

/// A class before its one method.
const CLASS: &str = "A
assembly_ref mscorlib
type_ref 23000001 System Object
type_def 100001 - C 01000001";

/// A method by its MaxStack, its flags and its code; it takes an `int` and a `long`, and gives an `int`. Then how many
/// offsets are reached, and each with its stack, or why there is no typing.
///
/// The codes are: a loop (ldarg.0; L: ldc.i4.1; sub; dup; brtrue.s L; ret); two flows that differ where they meet, of which the later
/// one is named (ldarg.0; brtrue.s W; ldc.i4.0; br.s R; W: ldarg.1; R: ret); ldarg.0; ldarg.0; ret; then ldarg.0; ldarg.0; pop; ret, with
/// a MaxStack of 1, of 2, and in a method that isn't static; ldc.i4.0; ldc.i8 0; add; ret; ldc.i4.0; ret; and an abstract method.
const TYPINGS: &str = "2 16 021759252dfb2a = 6: 0 [] 1 [I4] 2 [I4, I4] 3 [I4] 4 [I4, I4] 6 [I4]
2 16 022d03162b01032a = NoTyping(6)
2 16 02022a = NoTyping(2)
1 16 0202262a = NoTyping(1)
2 16 0202262a = 4: 0 [] 1 [I4] 2 [I4, I4] 3 [I4]
2 6 0202262a = NotInProfile
2 16 16210000000000000000582a = NoTyping(10)
1 16 162a = 2: 0 [] 1 [I4]
0 446 - = NotInProfile";

/// The world of a class with such a method.
fn world_of(alloc: Global, method: &str) -> Result<World, Fail> {
    let (before, code) = method.rsplit_once(' ').ok_or("a code")?;
    let (max_stack, flags) = before.split_once(' ').ok_or("flags")?;
    let text = format!(in alloc;
        "{CLASS}\nmethod_with {max_stack} - {flags} M {code} int32 int32 int64\nentry 0"
    )?;
    let assembly = Assembly::read(alloc, assembly_of(alloc, text.as_str())?)?;
    Ok(World::new(alloc, vec![in alloc; assembly]?)?)
}

/// How many offsets have a stack, and then the instructions that are reached, each with its offset and stack.
fn shown(alloc: Global, typed: &Typed) -> Result<String, Fail> {
    let mut count = 0u32;
    for at in 0..16 {
        if typed.stack_at(at).is_some() {
            count = count.saturating_add(1);
        }
    }
    let mut text = format!(in alloc; "{count}:")?;
    for instr in typed.instrs() {
        if let Some(stack) = typed.stack_at(instr.at) {
            text.push_str(&format!(in alloc; " {} {stack:?}", instr.at)?)?;
        }
    }
    Ok(text)
}

/// What is said of the one method of a world.
fn answer_of(alloc: Global, world: &World) -> Result<String, Fail> {
    let method = MethodId { asm: 0, row: 1 };
    match verify(alloc, world, method) {
        Ok(typed) => {
            if typed.method() != method {
                return Err("another method")?;
            }
            shown(alloc, &typed)
        }
        Err(refusal) => Ok(format!(in alloc; "{refusal:?}")?),
    }
}

#[test]
fn typings(rt: HostRuntime) -> Result<(), Fail> {
    let alloc = rt.alloc();
    let mut found = String::new(alloc);
    for line in TYPINGS.lines() {
        let (method, _) = line.split_once(" = ").ok_or("a row has two parts")?;
        let world = world_of(alloc, method)?;
        let answer = answer_of(alloc, &world)?;
        found.push_str(&format!(in alloc; "{method} = {answer}\n")?)?;
    }
    assert_eq!(rt; found.trim_end(), TYPINGS);
    Ok(())
}
