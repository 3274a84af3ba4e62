//! Native integers, sparse arrays and nibble lists (`native_format`).

ghost use Rattle.std.specs.Prelude.{◌≡◌, ◌<◌, IfOk, length};
ghost use Rattle.native_format.specs.Nibbles.{IsSlotList, at_slot};

use native_format::{
    Element, ListRefusal, MalformedList, SlotReader, SlotRef, SparseArray, SparseLength,
    nibbles_len, read_nibbles, read_uint, uint_len, write_nibbles, write_sparse, write_uint,
};
use rtr_bytes::{Fault, Sequence};
use std::alloc::{AllocError, Global};
use std::process::Abort;
use std::test::Fail;

/// A number and its spelling, which is written and read back. 6 and 13 are the ids of two entries: function 3 without fixups, and with a list
/// after the id.
const INTEGERS: &str = "0 00
6 0c
13 1a
12 18
127 fe
128 0102
16383 fdff
16384 030002
2097152 07000002
268435456 0f00000010";

/// Writes a number, and reads it back.
fn spells<R: Abort>(rt: &R, alloc: Global, value: u32, bytes: &[u8]) -> Result<(), Fail>
    requires { length bytes.now < 16 }
{
    let mut out = Vec::new(alloc);
    write_uint(&mut out, value).ok().ok_or("memory")?;
    let len = uint_len(u64::from(value));
    let found = format!(in alloc; "{:?} {len} {:?}", out.as_slice(), read_uint(bytes, 0))?;
    let wanted = format!(in alloc;
        "{bytes:?} {} Some(({value}, {}))",
        bytes.len(),
        bytes.len()
    )?;
    assert_eq!(rt; found, wanted);
    Ok(())
}

#[test]
fn integers(rt: HostRuntime) -> Result<(), Fail> {
    let alloc = rt.alloc();
    for row in INTEGERS.lines() {
        let (value, spelling) = row.split_once(' ').ok_or("a row has two parts")?;
        let bytes = hex::decode(alloc, spelling)?;
        assert!(rt; bytes.len() < 16);
        spells(&rt, alloc, value.parse::<u32>()?, &bytes)?;
    }
    let longer = read_uint(&[0x00, 0xFF, 0x01, 0x00, 0x00, 0x00], 1);
    let rest = format!(in alloc;
        "{:?} {:?} {longer:?}",
        read_uint(&[0x01], 0),
        read_uint(&[0x18], 1)
    )?;
    assert_eq!(rt; rest.as_str(), "None None Some((1, 6))");
    Ok(())
}

fn at(section: u32, slot: u32) -> SlotRef
    ensures { result ≡ at_slot section slot }
{
    SlotRef { section, slot }
}

/// Reads a list from a place on.
fn reads<R: Abort>(
    rt: &R,
    alloc: Global,
    bytes: &[u8],
    place: u32,
    list: &[SlotRef],
) -> Result<(), Fail>
    requires { length bytes.now < 16 }
{
    let slots = read_nibbles(alloc, bytes, place).ok().ok_or("a list")?;
    assert_eq!(rt; slots.as_slice(), list);
    Ok(())
}

/// Writes a list, and reads it back.
fn lists<R: Abort>(rt: &R, alloc: Global, list: &[SlotRef], bytes: &[u8]) -> Result<(), Fail>
    requires list { IsSlotList list.now }
    requires small { length bytes.now < 16 }
{
    let written = write_nibbles(alloc, list).ok().ok_or("memory")?;
    assert_eq!(rt; written.as_slice(), bytes);
    assert_eq!(rt; nibbles_len(list), bytes.len() as u64);
    reads(rt, alloc, bytes, 0, list)
}

/// Reads no list.
fn refuses<R: Abort>(rt: &R, alloc: Global, bytes: &[u8])
    requires { length bytes.now < 16 }
{
    assert_eq!(rt;
        read_nibbles(alloc, bytes, 0).err(),
        Some(ListRefusal::Malformed)
    );
}

#[test]
fn slot_lists(rt: HostRuntime) -> Result<(), Fail> {
    let alloc = rt.alloc();
    let one = [at(1, 0), at(1, 3), at(1, 10)];
    lists(&rt, alloc, &one, &[0x01, 0x73, 0x00])?;
    // After an entry's id.
    reads(&rt, alloc, &[0x1A, 0x01, 0x73, 0x00], 1, &one)?;
    lists(&rt, alloc, &[at(2, 10)], &[0x92, 0x02, 0x00])?;
    let wide = [0xB0, 0xFF, 0xFF, 0xFF, 0xFF, 0x7F, 0x10, 0x07, 0x00];
    lists(&rt, alloc, &[at(0, 4294967295), at(1, 7)], &wide)?;
    // Leading zero groups.
    reads(&rt, alloc, &[0xFF, 0x98, 0x00, 0x00], 1, &[at(8, 0)])?;
    refuses(&rt, alloc, &[0x01]);
    refuses(&rt, alloc, &[0xB0, 0xFF, 0xFF, 0xFF, 0xFF, 0x7F, 0x01]);
    refuses(&rt, alloc, &[]);
    refuses(&rt, alloc, &[0x88, 0x88, 0x88]);
    Ok(())
}

/// What an array has at an index.
fn found(bytes: &[u8], index: u32) -> Result<Option<u32>, Fault>
    requires { length bytes.now < 16 }
{
    SparseArray::read(bytes, 0)?.get(index)
}

/// An array, an index, and what the array has there. The third is the array of one element that the writer gives. Of the last three
/// the first has a count that is more than its bytes can hold, an entry of the second names the end, which is within, and its node is cut
/// there; one further it names a place outside.
const ARRAYS: &str = "0801000c 0 = Ok(Some(3))
0801000c 1 = Ok(None)
0c04000000020202020c 0 = Ok(Some(9))
880203800008 16 = Ok(Some(5))
880203800008 0 = Ok(None)
880203800008 17 = Ok(None)
 0 = Err(Fault { check: 63, place: 0 })
0e00000000 0 = Err(Fault { check: 63, place: 0 })
fffffffffc 0 = Err(Fault { check: 63, place: 0 })
0801 0 = Err(Fault { check: 64, place: 2 })
0802 0 = Err(Fault { check: 64, place: 1 })";

#[test]
fn sparse_arrays_read(rt: HostRuntime) -> Result<(), Fail> {
    let alloc = rt.alloc();
    for row in ARRAYS.lines() {
        let (array, answer) = row.split_once(" = ").ok_or("a row has two parts")?;
        let (bytes, index) = array.split_once(' ').ok_or("an index")?;
        let bytes = hex::decode(alloc, bytes)?;
        assert!(rt; bytes.len() < 16);
        let found = format!(in alloc; "{:?}", found(&bytes, index.parse::<u32>()?))?;
        assert_eq!(rt; found.as_str(), answer, "{row}");
    }
    let array = SparseArray::read(&[0x88, 0x02, 0x03, 0x80, 0x00, 0x08], 0);
    assert_eq!(rt; array.ok().ok_or("an array")?.count(), 17);
    Ok(())
}

fn element(alloc: Global, index: u32, content: &[u8]) -> Result<Element, AllocError>
    ensures { IfOk result (λ e. e ≡ record { index = index; content = content.now }) }
{
    let content = Sequence::from_vec(content.to_vec(alloc)?);
    Ok(Element { index, content })
}

#[test]
fn sparse_arrays_written(rt: HostRuntime) -> Result<(), Fail> {
    let alloc = rt.alloc();
    let one = [element(alloc, 0, &[0x0C])?];
    let bytes = write_sparse(alloc, 1, &one).ok().ok_or("one")?;
    assert_eq!(rt;
        bytes.as_slice(),
        [0x0C, 4, 0, 0, 0, 2, 2, 2, 2, 0x0C].as_slice()
    );
    // A node with both children.
    let two = [
        element(alloc, 0, &[0x0C])?,
        element(alloc, 3, &[0x0D, 0x0E])?,
    ];
    let bytes = write_sparse(alloc, 4, &two).ok().ok_or("two")?;
    let expected = [0x24, 4, 0, 0, 0, 2, 2, 0x1E, 2, 0x0C, 0x0C, 0x0D, 0x0E];
    assert_eq!(rt; bytes.as_slice(), expected.as_slice());
    // An empty block before another.
    let late = [element(alloc, 16, &[0x08])?];
    let bytes = write_sparse(alloc, 17, &late).ok().ok_or("late")?;
    let expected = [0x8C, 8, 0, 0, 0, 9, 0, 0, 0, 0x80, 2, 2, 2, 2, 0x08];
    assert_eq!(rt; bytes.as_slice(), expected.as_slice());
    Ok(())
}

#[test]
fn lengths_of_sparse_arrays(rt: HostRuntime) -> Result<(), Fail> {
    let mut one = SparseLength::new(1);
    one.add(0, 1);
    // A node with both children.
    let mut two = SparseLength::new(4);
    two.add(0, 1);
    two.add(3, 2);
    // Empty blocks before and after another.
    let mut late = SparseLength::new(u32::MAX);
    late.add(16, 1);
    // More than a number of 64 bits counts.
    let mut long = SparseLength::new(2);
    long.add(0, u64::MAX);
    long.add(1, 1);
    let text = format!(in rt.alloc();
        "{} {} {} {} {} {}",
        SparseLength::new(0).bytes(),
        SparseLength::new(1).bytes(),
        one.bytes(),
        two.bytes(),
        late.bytes(),
        long.bytes()
    )?;
    assert_eq!(rt; text.as_str(), "1 6 10 13 1342177289 18446744073709551615");
    Ok(())
}

/// Slots 2 and 5 of section 1, and how far the list was read; then a list that is cut after its first slot.
const SLOTS: &str =
    "Ok(Some(SlotRef { section: 1, slot: 2 })) Ok(Some(SlotRef { section: 1, slot: 5 })) 5 Ok(None) Ok(None) 7
Ok(Some(SlotRef { section: 1, slot: 2 })) Err(MalformedList) Err(MalformedList)";

#[test]
fn slots_one_by_one(rt: HostRuntime) -> Result<(), Fail> {
    let alloc = rt.alloc();
    let mut list = SlotReader::new(&[9, 0x21, 0x03, 0], 1);
    let (first, second, reached) = (list.next_slot(), list.next_slot(), list.reached());
    let (third, fourth) = (list.next_slot(), list.next_slot());
    let mut cut = SlotReader::new(&[0x21], 0);
    let answers = (cut.next_slot(), cut.next_slot(), cut.next_slot());
    let whole = format!(in alloc;
        "{first:?} {second:?} {reached} {third:?} {fourth:?} {}",
        list.reached()
    )?;
    let text = format!(in alloc; "{whole}\n{:?} {:?} {:?}", answers.0, answers.1, answers.2)?;
    assert_eq!(rt; text.as_str(), SLOTS);
    Ok(())
}
