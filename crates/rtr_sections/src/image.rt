//! The ReadyToRun part of an image, by its records.

ghost use Rattle.std.specs.Prelude.{◌≡◌, ◌*◌, ◌≤◌, ◌^◌, length, None, All, IfErr, IfOk, OnOk, is_some, sum_by, true};
ghost use Rattle.rtr_bytes.specs.Checks.{first_fault, RefusedBy};
ghost use Rattle.pe_image.specs.Headers.{headers_of, native_of};
ghost use Rattle.pe_image.specs.Checks.{pe_checks};
ghost use Rattle.fixup_sigs.specs.Shortest.{IsSpellable};
ghost use Rattle.rtr_sections.specs.Header.{is_own, part_of, rtr_header_of};
ghost use Rattle.rtr_sections.specs.Imports.{imports_in, slot_count};
ghost use Rattle.rtr_sections.specs.Functions.{functions_in};
ghost use Rattle.rtr_sections.specs.EntryHeads.{lists_len};
ghost use Rattle.rtr_sections.specs.Image.{own_checks, own_image_of, own_lists_len, own_slot_count, foreign_image_of, image_of, rtr_checks};

use crate::bad_words::check_slots;
use crate::entries::{EntryPoint, check_entries, read_entries};
use crate::file::File;
use crate::functions::{ENTRY_SIZE, Function, read_functions};
use crate::header::{IMPORT_SECTIONS, METHOD_DEF_ENTRY_POINTS, RUNTIME_FUNCTIONS, RtrHeader};
use crate::imports::{ImportSection, check_cells_order, check_forms, read_imports};
use crate::slots::{Slot, read_slots};
use fixup_sigs::read_fixup_is_spellable;
use pe_image::Pe;
use rtr_bytes::{NoMemory, ReadRefusal, Sequence};
use std::alloc::Global;

/// The ReadyToRun part of an image. Of a foreign image, which this compiler didn't write, it has the header and
/// the import records alone: another compiler's slots, functions and entries aren't looked at.
#[derive(Debug, Drop)]
pub struct Image {
    /// The header, with its section records.
    pub header: RtrHeader,
    /// The import records, in their order.
    pub imports: Sequence<ImportSection>,
    /// The slots of all import sections, by section and then by slot.
    pub slots: Sequence<Slot>,
    /// The functions, in their order.
    pub functions: Sequence<Function>,
    /// The entries, by their MethodDef rows.
    pub entries: Sequence<EntryPoint>,
    /// Whether this compiler wrote the image.
    pub own: bool,
}

impl Image {
    /// Whether this compiler wrote the image: it is for A64 and of version 5.0, and its compiler identifier is
    /// `r2r profile 1` with a zero after it.
    pub fn own(&self) -> bool
        ensures { result ≡ self.now.own }
    {
        self.own
    }
}

/// The checks of an image of this compiler after those of its header and its import records' cells, with its functions.
/// No slot and no entry is kept.
fn check_own(
    alloc: Global,
    file: &File<'_>,
    method_rows: u32,
    header: &RtrHeader,
    imports: &[ImportSection],
) -> Result<Vec<Function>, ReadRefusal>
    requires native { is_some (native_of file.now) ≡ true }
    requires own { is_own file.now ≡ true }
    requires header { header.now ≡ rtr_header_of file.now }
    requires imports { imports.now ≡ imports_in file.now (part_of file.now 101) }
    ensures malformed { IfErr result (λ e. RefusedBy (first_fault (own_checks method_rows) file.now) e) }
    ensures well_formed { OnOk result (first_fault (own_checks method_rows) file.now ≡ None) }
    ensures functions { IfOk result (λ functions. functions.items ≡ functions_in file.now (part_of file.now 102)) }
    ensures room { OnOk result (lists_len file.now (part_of file.now 103) ≤ 32 * length file.now) }
{
    let import_part = header.part(file, IMPORT_SECTIONS);
    let function_part = header.part(file, RUNTIME_FUNCTIONS);
    let entry_part = header.part(file, METHOD_DEF_ENTRY_POINTS);
    check_forms(file, imports, import_part.start)?;
    check_slots(alloc, file, imports)?;
    let functions = read_functions(alloc, file, function_part)?;
    let count = function_part.len / ENTRY_SIZE;
    check_entries(alloc, file, entry_part, method_rows, imports, count)?;
    check_cells_order(imports, import_part.start)?;
    Ok(functions)
}

/// An image of this compiler by its records, of which the header, the import records and the functions were read.
#[tactic(auto, unfolding(crate::specs::Image::own_image_of))]
fn read_own(
    alloc: Global,
    file: &File<'_>,
    header: RtrHeader,
    imports: Vec<ImportSection>,
    functions: Vec<Function>,
) -> Result<Image, NoMemory>
    requires own { is_own file.now ≡ true }
    requires header { header ≡ rtr_header_of file.now }
    requires imports { imports.items ≡ imports_in file.now (part_of file.now 101) }
    requires functions { functions.items ≡ functions_in file.now (part_of file.now 102) }
    ensures image { IfOk result (λ image. image ≡ own_image_of file.now) }
    ensures few_slots { OnOk result (sum_by slot_count (imports_in file.now (part_of file.now 101)) ≤ 4 * length file.now) }
{
    let slots = read_slots(alloc, file, &imports)?;
    let entry_part = header.part(file, METHOD_DEF_ENTRY_POINTS);
    let entries = read_entries(alloc, file, entry_part)?;
    Ok(Image {
        header,
        imports: Sequence::from_vec(imports),
        slots: Sequence::from_vec(slots),
        functions: Sequence::from_vec(functions),
        entries: Sequence::from_vec(entries),
        own: true,
    })
}

/// The ReadyToRun part of a file, whose assembly has so many MethodDef rows.
#[tactic(auto, unfolding(crate::specs::Image::image_of, crate::specs::Image::foreign_image_of, crate::specs::Image::own_lists_len, crate::specs::Image::own_slot_count))]
fn read_image(alloc: Global, file: &File<'_>, method_rows: u32) -> Result<Image, ReadRefusal>
    requires native { is_some (native_of file.now) ≡ true }
    ensures malformed { IfErr result (λ e. RefusedBy (first_fault (rtr_checks method_rows) file.now) e) }
    ensures well_formed { OnOk result (first_fault (rtr_checks method_rows) file.now ≡ None) }
    ensures image { IfOk result (λ image. image ≡ image_of file.now) }
    ensures room { OnOk result (own_lists_len file.now ≤ 32 * length file.now) }
    ensures few_slots { OnOk result (own_slot_count file.now ≤ 4 * length file.now) }
{
    let header = RtrHeader::read(alloc, file)?;
    let import_part = header.part(file, IMPORT_SECTIONS);
    let imports = read_imports(alloc, file, import_part)?;
    if header.is_own(file) {
        let functions = check_own(alloc, file, method_rows, &header, &imports)?;
        let image = read_own(alloc, file, header, imports, functions)?;
        return Ok(image);
    }
    Ok(Image {
        header,
        imports: Sequence::from_vec(imports),
        slots: Sequence::from_vec(Vec::new(alloc)),
        functions: Sequence::from_vec(Vec::new(alloc)),
        entries: Sequence::from_vec(Vec::new(alloc)),
        own: false,
    })
}

/// The ReadyToRun part of a file with a native header, whose PE headers are `pe` and whose assembly has so many
/// MethodDef rows. `Malformed` names the first of the checks 16 to 22 and, of an image that this compiler wrote,
/// 60 to 66 that fails, with its first place. While it checks it takes memory in proportion to the file, and keeps no
/// slot and no entry; those of an image that passes are read after all checks. `NoMemory` comes where memory is refused, and
/// also where the lists of slots of all entries together, a list as often as entries name it, have more than 32 times the bytes
/// of the file, which may then fail a check that comes after, and, once all checks have passed, where the import records have
/// together more than four slots for each byte of the file.
pub fn read_rtr(
    alloc: Global,
    pe: &Pe,
    bytes: &[u8],
    method_rows: u32,
) -> Result<Image, ReadRefusal>
    requires small { length bytes.now ≤ 2 ^ 31 }
    requires pe { pe.now ≡ headers_of bytes.now }
    requires placed { first_fault pe_checks bytes.now ≡ None }
    requires native { is_some (native_of bytes.now) ≡ true }
    ensures malformed { IfErr result (λ e. RefusedBy (first_fault (rtr_checks method_rows) bytes.now) e) }
    ensures well_formed { OnOk result (first_fault (rtr_checks method_rows) bytes.now ≡ None) }
    ensures image { IfOk result (λ image. image ≡ image_of bytes.now) }
    ensures own { IfOk result (λ image. image.own ≡ is_own bytes.now) }
    // The lists of slots of all entries are bounded by the file.
    ensures room { OnOk result (own_lists_len bytes.now ≤ 32 * length bytes.now) }
    // So are the slots of all import records.
    ensures few_slots { OnOk result (own_slot_count bytes.now ≤ 4 * length bytes.now) }
    // Each slot's fixup has a signature that can be written.
    ensures spellable { IfOk result (λ image. All (λ slot. IsSpellable slot.fixup) image.slots) }
{
    read_fixup_is_spellable();
    let file = File::new(bytes, pe);
    read_image(alloc, &file, method_rows)
}
