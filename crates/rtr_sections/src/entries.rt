//! Entries: which function belongs to a MethodDef row, and the slots that it needs.

ghost use Rattle.std.specs.Prelude.{◌≡◌, ◌+◌, ◌*◌, ◌≤◌, true, ◌<◌, ◌^◌, length, Some, None, IfErr, IfOk, IfSome, OnOk};
ghost use Rattle.std.specs.Option.{option_and_then};
ghost use Rattle.rtr_bytes.specs.Checks.{fault_or, RefusedBy};
ghost use Rattle.native_format.specs.Sparse.{array_at, element_of};
ghost use Rattle.rtr_sections.specs.Numbered.{first_bad, present};
ghost use Rattle.rtr_sections.specs.Entries.{array_in, bad_array, bytes_in, content_place, cut_place, entries_in, entry_of, first_cut, function_of_id, list_place};
ghost use Rattle.rtr_sections.specs.EntryHeads.{HasRoom, asked_more, entry_of_head, first_unlinked_in, head_at, head_of_id, is_linked_at, is_linked_head};
ghost use Rattle.rtr_sections.specs.EntryHeads.{list_len_at, list_len_of, lists_len, lists_len_of, slots_of_head, unlinked_index};

use crate::check::Check;
use crate::file::File;
use crate::imports::ImportSection;
use crate::slot_lists::SlotLists;
use native_format::{ListRefusal, SlotRef, SparseArray, read_nibbles, read_uint};
use rtr_bytes::{Fault, NoMemory, ReadRefusal, Sequence, Span, ensure};
use std::alloc::Global;

/// The entry of a compiled method (ReadyToRun File Format, "READYTORUN_SECTION_METHODDEF_ENTRYPOINTS").
#[derive(Debug, Drop)]
pub struct EntryPoint {
    /// Its MethodDef row, from 1.
    pub row: u32,
    /// Its function, as an index of RuntimeFunctions from 0.
    pub function: u32,
    /// The slots that it needs before its code runs, ascending by section and then by slot.
    pub fixups: Sequence<SlotRef>,
}

/// What is in an entry but its list of slots itself.
#[derive(Clone, Copy)]
pub(crate) struct EntryHead {
    /// Its function, as an index of RuntimeFunctions from 0.
    pub function: u32,
    /// The file offset of its list of slots, `None` where it needs no slot.
    pub list: Option<u32>,
}

/// The function that an entry's id names.
fn function_of_id(id: u32) -> u32
    ensures { result ≡ function_of_id id }
{
    if id % 2 == 0 { id / 2 } else { id / 4 }
}

/// The file offset of an entry's list, by the id and the place after it.
fn list_place(slice: &[u8], start: u32, id: u32, next: u32) -> Option<u32>
    requires small { length slice.now ≤ 2 ^ 31 }
    requires in_reach { start + next < 2 ^ 32 }
    ensures { result ≡ list_place slice.now start id next }
{
    if id / 2 % 2 == 0 {
        return Some(start + next);
    }
    let (distance, _) = read_uint(slice, next)?;
    (start + next).checked_sub(distance)
}

impl EntryHead {
    /// The head of an entry, by its id and the place after it. `None` where the distance of its list is cut, or passes
    /// the file's start.
    fn of_id(slice: &[u8], start: u32, id: u32, next: u32) -> Option<EntryHead>
        requires small { length slice.now ≤ 2 ^ 31 }
        requires in_reach { start + next < 2 ^ 32 }
        ensures { result ≡ head_of_id slice.now start id next }
    {
        let function = function_of_id(id);
        if id % 2 == 0 {
            return Some(EntryHead {
                function,
                list: None,
            });
        }
        let list = list_place(slice, start, id, next)?;
        Some(EntryHead {
            function,
            list: Some(list),
        })
    }

    /// The head of the entry whose content is at a place of a part, `None` where it is cut.
    #[tactic(auto, unfolding(crate::specs::EntryHeads::head_at))]
    fn read(file: &File<'_>, part: Span, at: u32) -> Option<EntryHead>
        requires in_reach { part.start + part.len < 2 ^ 32 }
        ensures { result ≡ head_at file.now part at }
    {
        let slice = file.part(part);
        let (id, next) = read_uint(slice, at)?;
        EntryHead::of_id(slice, part.start, id, next)
    }

    /// Whether it names a function and slots that exist.
    fn is_linked(&self, lists: &mut SlotLists<'_>, functions: u32) -> Result<bool, NoMemory>
        requires room { HasRoom lists.old }
        ensures linked { IfOk result (λ linked. linked ≡ is_linked_head lists.old.bytes lists.old.imports functions self.now) }
        ensures asked { IfOk result (λ linked. linked ≡ true → lists.new ≡ asked_more (list_len_of lists.old.bytes self.now) lists.old) }
        ensures room { IfOk result (λ linked. linked ≡ true → HasRoom lists.new) }
    {
        if self.function >= functions {
            return Ok(false);
        }
        match self.list {
            Some(at) => lists.links_at(at),
            None => Ok(true),
        }
    }

    /// Its slots, `None` where its list isn't whole.
    fn slots(&self, alloc: Global, file: &File<'_>) -> Result<Option<Sequence<SlotRef>>, NoMemory>
        ensures { IfOk result (λ slots. slots ≡ slots_of_head file.now self.now) }
    {
        let Some(at) = self.list else {
            return Ok(Some(Sequence::from_vec(Vec::new(alloc))));
        };
        match read_nibbles(alloc, file.bytes(), at) {
            Ok(list) => Ok(Some(Sequence::from_vec(list))),
            Err(ListRefusal::Malformed) => Ok(None),
            Err(ListRefusal::NoMemory) => Err(NoMemory),
        }
    }
}

impl EntryPoint {
    /// The entry of a row, whose content is at a place of a part, `None` where it isn't whole.
    fn read(
        alloc: Global,
        file: &File<'_>,
        part: Span,
        row: u32,
        at: u32,
    ) -> Result<Option<EntryPoint>, NoMemory>
        requires in_reach { part.start + part.len < 2 ^ 32 }
        ensures { IfOk result (λ entry. entry ≡ option_and_then (entry_of_head file.now row) (head_at file.now part at)) }
    {
        let Some(head) = EntryHead::read(file, part, at) else {
            return Ok(None);
        };
        match head.slots(alloc, file)? {
            Some(fixups) => Ok(Some(EntryPoint {
                row,
                function: head.function,
                fixups,
            })),
            None => Ok(None),
        }
    }
}

/// No index of an array has a path that is cut.
fn check_paths(array: &SparseArray<'_>, part: Span) -> Result<(), Fault>
    requires in_reach { part.start + part.len < 2 ^ 32 }
    requires within { length array.now.bytes ≤ part.len }
    ensures fault { IfErr result (λ f. fault_or 64 (first_bad (cut_place part.start array.now) 0 array.now.count) None ≡ Some f) }
    ensures ok { OnOk result (first_bad (cut_place part.start array.now) 0 array.now.count ≡ None) }
{
    for index in 0..array.count() {
        if let Err(cut) = array.get(index) {
            return Err(Fault {
                check: Check::EntryPath as u16,
                place: part.start + cut.place,
            });
        }
    }
    Ok(())
}

/// The place of an index's content.
fn content_at(array: &SparseArray<'_>, index: u32) -> Option<u32>
    ensures place { result ≡ content_place (element_of array.now index) }
    ensures within { IfSome result (λ at. at ≤ length array.now.bytes) }
{
    match array.get(index) {
        Ok(place) => place,
        Err(_) => None,
    }
}

/// Whether the entry whose content is at a place of a part is whole, and names a function and slots that exist.
fn is_linked_at(
    lists: &mut SlotLists<'_>,
    functions: u32,
    file: &File<'_>,
    part: Span,
    at: u32,
) -> Result<bool, NoMemory>
    requires in_reach { part.start + part.len < 2 ^ 32 }
    requires lists { lists.old.bytes ≡ file.now }
    requires room { HasRoom lists.old }
    ensures linked { IfOk result (λ linked. linked ≡ is_linked_at file.now part lists.old.imports functions at) }
    ensures asked { IfOk result (λ linked. linked ≡ true → lists.new ≡ asked_more (list_len_at file.now part at) lists.old) }
    ensures room { IfOk result (λ linked. linked ≡ true → HasRoom lists.new) }
{
    match EntryHead::read(file, part, at) {
        Some(head) => head.is_linked(lists, functions),
        None => Ok(false),
    }
}

/// Each entry of an array is whole, and names a function and slots that exist. No entry is kept. `NoMemory` where the lists
/// of entries are too long together.
fn check_links(
    lists: &mut SlotLists<'_>,
    functions: u32,
    file: &File<'_>,
    part: Span,
    array: &SparseArray<'_>,
) -> Result<(), ReadRefusal>
    requires in_reach { part.start + part.len < 2 ^ 32 }
    requires within { length array.now.bytes ≤ part.len }
    requires lists { lists.old.bytes ≡ file.now }
    requires none_asked { lists.old.asked ≡ 0 }
    ensures fault { IfErr result (λ e. RefusedBy (fault_or 65 (first_bad (unlinked_index file.now part lists.old.imports functions array.now) 0 array.now.count) None) e) }
    ensures ok { OnOk result (first_bad (unlinked_index file.now part lists.old.imports functions array.now) 0 array.now.count ≡ None) }
    ensures room { OnOk result (lists_len_of file.now part (Some array.now) ≤ 32 * length file.now) }
{
    for index in 0..array.count() {
        if let Some(at) = content_at(array, index) {
            let linked = is_linked_at(lists, functions, file, part, at)?;
            ensure(linked, Check::EntryContent as u16, part.start + at)?;
        }
    }
    Ok(())
}

/// The array of a part that has bytes, with at most so many elements.
#[tactic(auto, unfolding(crate::specs::Entries::bad_array))]
fn read_array<'a>(file: &'a File<'_>, part: Span, rows: u32) -> Result<SparseArray<'a>, Fault>
    requires some { 0 < part.len }
    ensures fault { IfErr result (λ f. fault_or 63 (bad_array rows file.now part) None ≡ Some f) }
    ensures ok { OnOk result (bad_array rows file.now part ≡ None) }
    ensures array { IfOk result (λ array. array_at (bytes_in file.now part) 0 ≡ Some array) }
    ensures bytes { IfOk result (λ array. array.bytes ≡ bytes_in file.now part) }
{
    match SparseArray::read(file.part(part), 0) {
        Ok(array) if array.count() <= rows => Ok(array),
        _ => Err(Fault {
            check: Check::EntryArray as u16,
            place: part.start,
        }),
    }
}

/// The entries of a part, for an assembly of so many MethodDef rows: its array is there, none of the array's paths is
/// cut, and each entry is whole and names one of so many functions and slots of the import records. The answer for a
/// list is remembered by its place, since entries may share lists; nothing else is kept. `NoMemory` comes also where the
/// lists of the entries have together more than 32 times the bytes of the file, a list that entries share as often as they
/// name it.
#[tactic(auto, unfolding(crate::specs::Entries::bad_array, crate::specs::Entries::first_cut, crate::specs::EntryHeads::first_unlinked_in, crate::specs::EntryHeads::lists_len))]
pub(crate) fn check_entries(
    alloc: Global,
    file: &File<'_>,
    part: Span,
    rows: u32,
    imports: &[ImportSection],
    functions: u32,
) -> Result<(), ReadRefusal>
    requires in_reach { part.start + part.len < 2 ^ 32 }
    ensures fault { IfErr result (λ e. RefusedBy (fault_or 63 (bad_array rows file.now part) (fault_or 64 (first_cut file.now part) (fault_or 65 (first_unlinked_in file.now part imports.now functions) None))) e) }
    ensures array { OnOk result (bad_array rows file.now part ≡ None) }
    ensures paths { OnOk result (first_cut file.now part ≡ None) }
    ensures linked { OnOk result (first_unlinked_in file.now part imports.now functions ≡ None) }
    ensures room { OnOk result (lists_len file.now part ≤ 32 * length file.now) }
{
    if part.len == 0 {
        return Ok(());
    }
    let array = read_array(file, part, rows)?;
    check_paths(&array, part)?;
    let mut lists = SlotLists::new(alloc, file, imports)?;
    check_links(&mut lists, functions, file, part, &array)?;
    Ok(())
}

/// The entries of an array that are whole.
fn read_all(
    alloc: Global,
    file: &File<'_>,
    part: Span,
    array: &SparseArray<'_>,
) -> Result<Vec<EntryPoint>, NoMemory>
    requires in_reach { part.start + part.len < 2 ^ 32 }
    ensures { IfOk result (λ entries. entries.items ≡ present (entry_of file.now part array.now) 0 array.now.count) }
{
    let mut entries = Vec::new(alloc);
    for index in 0..array.count() {
        if let Some(at) = content_at(array, index) {
            if let Some(entry) = EntryPoint::read(alloc, file, part, index + 1, at)? {
                entries.push(entry)?;
            }
        }
    }
    Ok(entries)
}

/// The entries of a part that are whole, each with its own copy of its list.
#[tactic(auto, unfolding(crate::specs::Entries::entries_in))]
pub(crate) fn read_entries(
    alloc: Global,
    file: &File<'_>,
    part: Span,
) -> Result<Vec<EntryPoint>, NoMemory>
    requires in_reach { part.start + part.len < 2 ^ 32 }
    ensures { IfOk result (λ entries. entries.items ≡ entries_in file.now part) }
{
    if part.len == 0 {
        return Ok(Vec::new(alloc));
    }
    match SparseArray::read(file.part(part), 0) {
        Ok(array) => read_all(alloc, file, part, &array),
        Err(_) => Ok(Vec::new(alloc)),
    }
}
