//! Lines with ample memory, up to the last byte that fits (`rtr_heap`).

use cli_assembly::Assembly;
use rtr_heap::Memory;
use std::alloc::Global;
use std::test::Fail;
use test_files::assembly_of;
use type_world::World;

/// A world of one assembly without members.
fn world(alloc: Global) -> Result<World, Fail> {
    let assembly = Assembly::read(alloc, assembly_of(alloc, "A\nentry 0")?)?;
    Ok(World::new(alloc, vec![in alloc; assembly]?)?)
}

#[test]
fn prints_up_to_the_limit(rt: HostRuntime) -> Result<(), Fail> {
    let alloc = rt.alloc();
    let mut memory = Memory::reserve(alloc, &world(alloc)?)?;
    assert!(rt; memory.output().is_empty());
    assert!(rt; memory.print(b"").is_ok());
    assert!(rt; memory.print(b"-42").is_ok());
    assert!(rt; memory.output() == b"\n-42\n".as_slice());
    // 1,048,571 bytes are left: a line of so many has no room for its line feed.
    let line = vec![in alloc; b'x'; 1_048_571]?;
    assert!(rt; memory.print(&line).is_err());
    assert!(rt; memory.output() == b"\n-42\n".as_slice());
    assert!(rt; memory.print(&line[1..]).is_ok());
    assert!(rt; memory.output().len() == 1_048_576);
    assert!(rt; memory.print(b"").is_err());
    assert!(rt; memory.output().ends_with(b"xx\n"));
    Ok(())
}
