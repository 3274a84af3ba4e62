//! The tables and heaps that spell what was asked for (ECMA-335 II.24.2): each column's number, and the bytes of each heap.

ghost use Rattle.std.specs.Prelude.{◌≡◌, ◌+◌, ◌-◌, ◌<◌, ◌^◌, [], ◌∷◌, ◌++◌, unwrap_or, map, replicate, length, IfOk, OnOk, IsTrue};
ghost use Rattle.std.specs.List.{list_all};
ghost use Rattle.pe_image.specs.Places.{aligned};
ghost use Rattle.asm_builder.specs.Cells.{has_locals, body_size, Text, Blob, assembly_cells, assembly_ref_cells, attribute_cells, field_cells, locals_cells, locals_of, member_ref_cells, method_cells, method_rows, module_cells, type_def_cells, type_ref_cells};
ghost use Rattle.cli_assembly.specs.Shortest.{is_writable_type};
ghost use Rattle.asm_builder.specs.Room.{AreShort, begins_early, rows_in};
ghost use Rattle.asm_builder.specs.Sound.{are_writable_locals, code_size, is_writable_field, is_writable_method, is_writable_sig};
ghost use Rattle.asm_builder.specs.Content.{body_header, locals_after, locals_token, no_heaps, tag_in, bodies_from, body_bytes, coded_index, content_of, heaps_after, number_of, padded4, row_after, row_numbers, table_after, table_numbers};

use crate::asked::{Attribute, Field, MemberRef, Method, TypeDef, TypeRef};
use crate::builder::Builder;
use crate::tokens::TOKEN_ROWS;
use crate::user_strings::user_heap;
use cli_assembly::{write_field_sig, write_local_sig, write_method_sig};
use metadata::{CODED_TABLES, CodedKind, CodedTable, Table};
use rtr_bytes::{NoMemory, Sequence, put_compressed};
use std::alloc::Global;
use std::marker::Model;

/// The numbers of a row's columns.
pub(crate) type Row = Sequence<u32>;
/// The rows of a table.
pub(crate) type Rows = Sequence<Row>;

/// How many tables there are, by number.
pub(crate) const TABLES: u8 = 64;
/// The RVA of the first body, after the CLI header.
const BODIES_RVA: u32 = 0x2048;
/// A fat header's flags and size (ECMA-335 II.25.4.3): 3 words, InitLocals, and the format.
const FAT_HEADER: u16 = 3 << 12 | 0x10 | 0x03;
/// The bytes of a fat header.
const FAT_HEADER_SIZE: usize = 12;
/// The token of the row 1 of StandAloneSig.
const FIRST_LOCALS: u32 = 0x1100_0001;
/// HashAlgId of an Assembly row: SHA1 (ECMA-335 II.23.1.1).
const HASH_SHA1: u32 = 0x8004;

/// The tag of a table among those of a kind, by the tables of tags; 0 where it has none.
fn tag_in(tagged: &[CodedTable], kind: CodedKind, table: u32) -> u32
    ensures { result ≡ unwrap_or (tag_in tagged.now kind table) 0 }
{
    tagged
        .iter()
        .find(|t| t.kind.number() == kind.number() && u32::from(t.table.number()) == table)
        .map_or(0, |t| u32::from(t.tag))
}

/// The coded index of a token.
pub(crate) fn coded_index(kind: CodedKind, token: u32) -> u32
    ensures { result ≡ coded_index kind token }
{
    (token % TOKEN_ROWS << kind.tag_bits()) + tag_in(&CODED_TABLES, kind, token / TOKEN_ROWS)
}

/// How many zeros follow so many bytes, up to a multiple of 4.
pub(crate) fn padding4(len: usize) -> usize
    ensures padding { result ≡ aligned 4 len - len }
    ensures few { result < 4 }
{
    (4 - len % 4) % 4
}

/// Appends so many zeros.
pub(crate) fn put_zeros(out: &mut Vec<u8>, len: usize) -> Result<(), NoMemory>
    requires { len < 512 }
    ensures { OnOk result (out.new.items ≡ out.old.items ++ replicate len 0) }
{
    out.extend_from_slice(&[0; 512][..len])?;
    Ok(())
}

/// Appends zeros up to a multiple of 4.
pub(crate) fn pad4(out: &mut Vec<u8>) -> Result<(), NoMemory>
    ensures { OnOk result (out.new.items ≡ padded4 out.old.items) }
{
    let len = padding4(out.len());
    put_zeros(out, len)
}

/// The numbers as a row.
fn row(alloc: Global, numbers: &[u32]) -> Result<Row, NoMemory>
    ensures { IfOk result (λ row. row ≡ numbers.now) }
{
    let mut list = Vec::new(alloc);
    list.extend_from_slice(numbers)?;
    Ok(Sequence::from_vec(list))
}

/// The heaps that grow as rows are spelled. They are seen as their bytes.
#[derive(Drop)]
pub(crate) struct Heaps {
    strings: Vec<u8>,
    blobs: Vec<u8>,
}

impl Model for Heaps {
    ghost use Rattle.asm_builder.specs.Content.{Heaps as HeapBytes};

    ghost Value = { HeapBytes };

    ghost view = { λ h. record { strings = h.strings.items; blobs = h.blobs.items } };
}

impl Heaps {
    /// Each with what index 0 names.
    fn new(alloc: Global) -> Result<Heaps, NoMemory>
        ensures { IfOk result (λ heaps. heaps ≡ no_heaps) }
    {
        let mut strings = Vec::new(alloc);
        strings.push(0)?;
        let mut blobs = Vec::new(alloc);
        blobs.push(0)?;
        Ok(Heaps { strings, blobs })
    }

    /// Appends a text, and gives its index.
    fn text(&mut self, text: &[u8]) -> Result<u32, NoMemory>
        requires { AreShort (heaps_after self.old (Text text.now)) }
        ensures index { IfOk result (λ index. index ≡ number_of self.old (Text text.now)) }
        ensures added { OnOk result (self.new ≡ heaps_after self.old (Text text.now)) }
    {
        if text.is_empty() {
            return Ok(0);
        }
        let index = self.strings.len() as u32;
        self.strings.extend_from_slice(text)?;
        self.strings.push(0)?;
        Ok(index)
    }

    /// Appends a blob, and gives its index.
    fn blob(&mut self, blob: &[u8]) -> Result<u32, NoMemory>
        requires { AreShort (heaps_after self.old (Blob blob.now)) }
        ensures index { IfOk result (λ index. index ≡ number_of self.old (Blob blob.now)) }
        ensures added { OnOk result (self.new ≡ heaps_after self.old (Blob blob.now)) }
    {
        if blob.is_empty() {
            return Ok(0);
        }
        let index = self.blobs.len() as u32;
        put_compressed(&mut self.blobs, blob.len() as u32)?;
        self.blobs.extend_from_slice(blob)?;
        Ok(index)
    }

    fn module(&mut self, alloc: Global, name: &[u8]) -> Result<Row, NoMemory>
        requires short { AreShort (row_after self.old (module_cells name.now)) }
        ensures row { IfOk result (λ row. row ≡ row_numbers self.old (module_cells name.now)) }
        ensures heaps { OnOk result (self.new ≡ row_after self.old (module_cells name.now)) }
    {
        let name = self.text(name)?;
        row(alloc, &[0, name, 1, 0, 0])
    }

    fn assembly(&mut self, alloc: Global, name: &[u8]) -> Result<Row, NoMemory>
        requires short { AreShort (row_after self.old (assembly_cells name.now)) }
        ensures row { IfOk result (λ row. row ≡ row_numbers self.old (assembly_cells name.now)) }
        ensures heaps { OnOk result (self.new ≡ row_after self.old (assembly_cells name.now)) }
    {
        let name = self.text(name)?;
        row(alloc, &[HASH_SHA1, 0, 0, 0, 0, 0, 0, name, 0])
    }

    fn assembly_ref(&mut self, alloc: Global, name: &[u8]) -> Result<Row, NoMemory>
        requires short { AreShort (row_after self.old (assembly_ref_cells name.now)) }
        ensures row { IfOk result (λ row. row ≡ row_numbers self.old (assembly_ref_cells name.now)) }
        ensures heaps { OnOk result (self.new ≡ row_after self.old (assembly_ref_cells name.now)) }
    {
        let name = self.text(name)?;
        row(alloc, &[0, 0, 0, 0, 0, 0, name, 0, 0])
    }

    fn type_ref(&mut self, alloc: Global, t: &TypeRef) -> Result<Row, NoMemory>
        requires short { AreShort (row_after self.old (type_ref_cells t.now)) }
        ensures row { IfOk result (λ row. row ≡ row_numbers self.old (type_ref_cells t.now)) }
        ensures heaps { OnOk result (self.new ≡ row_after self.old (type_ref_cells t.now)) }
    {
        let name = self.text(t.name.as_slice())?;
        let space = self.text(t.space.as_slice())?;
        row(
            alloc,
            &[
                coded_index(CodedKind::ResolutionScope, t.parent),
                name,
                space,
            ],
        )
    }

    fn type_def(&mut self, alloc: Global, t: &TypeDef) -> Result<Row, NoMemory>
        requires short { AreShort (row_after self.old (type_def_cells t.now)) }
        requires early { IsTrue (begins_early t.now) }
        ensures row { IfOk result (λ row. row ≡ row_numbers self.old (type_def_cells t.now)) }
        ensures heaps { OnOk result (self.new ≡ row_after self.old (type_def_cells t.now)) }
    {
        let name = self.text(t.name.as_slice())?;
        let space = self.text(t.space.as_slice())?;
        let base = if t.base == 0 {
            0
        } else {
            coded_index(CodedKind::TypeDefOrRef, t.base)
        };
        row(
            alloc,
            &[
                t.flags,
                name,
                space,
                base,
                t.fields_before + 1,
                t.methods_before + 1,
            ],
        )
    }

    fn field(&mut self, alloc: Global, f: &Field) -> Result<Row, NoMemory>
        requires short { AreShort (row_after self.old (field_cells f.now)) }
        requires sig { IsTrue (is_writable_type f.now.sig) }
        ensures row { IfOk result (λ row. row ≡ row_numbers self.old (field_cells f.now)) }
        ensures heaps { OnOk result (self.new ≡ row_after self.old (field_cells f.now)) }
    {
        let name = self.text(f.name.as_slice())?;
        let sig = write_field_sig(alloc, f.sig)?;
        let sig = self.blob(&sig)?;
        row(alloc, &[u32::from(f.flags), name, sig])
    }

    /// The row of a method whose body, where it has one, is at an RVA.
    fn method(&mut self, alloc: Global, rva: u32, m: &Method) -> Result<Row, NoMemory>
        requires short { AreShort (row_after self.old (method_cells rva m.now)) }
        requires sig { IsTrue (is_writable_sig m.now.sig) }
        ensures row { IfOk result (λ row. row ≡ row_numbers self.old (method_cells rva m.now)) }
        ensures heaps { OnOk result (self.new ≡ row_after self.old (method_cells rva m.now)) }
    {
        let rva = if m.code.is_empty() { 0 } else { rva };
        let name = self.text(m.name.as_slice())?;
        let sig = write_method_sig(alloc, &m.sig)?;
        let sig = self.blob(&sig)?;
        row(alloc, &[rva, 0, u32::from(m.flags), name, sig, 1])
    }

    fn member_ref(&mut self, alloc: Global, m: &MemberRef) -> Result<Row, NoMemory>
        requires short { AreShort (row_after self.old (member_ref_cells m.now)) }
        ensures row { IfOk result (λ row. row ≡ row_numbers self.old (member_ref_cells m.now)) }
        ensures heaps { OnOk result (self.new ≡ row_after self.old (member_ref_cells m.now)) }
    {
        let name = self.text(m.name.as_slice())?;
        let sig = self.blob(m.sig.as_slice())?;
        row(
            alloc,
            &[coded_index(CodedKind::MemberRefParent, m.parent), name, sig],
        )
    }

    fn attribute(&mut self, alloc: Global, a: &Attribute) -> Result<Row, NoMemory>
        requires short { AreShort (row_after self.old (attribute_cells a.now)) }
        ensures row { IfOk result (λ row. row ≡ row_numbers self.old (attribute_cells a.now)) }
        ensures heaps { OnOk result (self.new ≡ row_after self.old (attribute_cells a.now)) }
    {
        let value = self.blob(a.value.as_slice())?;
        row(
            alloc,
            &[
                coded_index(CodedKind::HasCustomAttribute, a.parent),
                coded_index(CodedKind::CustomAttributeType, a.constructor),
                value,
            ],
        )
    }

    fn locals(&mut self, alloc: Global, m: &Method) -> Result<Row, NoMemory>
        requires short { AreShort (row_after self.old (locals_cells m.now)) }
        requires locals { IsTrue (are_writable_locals m.now.locals) }
        ensures row { IfOk result (λ row. row ≡ row_numbers self.old (locals_cells m.now)) }
        ensures heaps { OnOk result (self.new ≡ row_after self.old (locals_cells m.now)) }
    {
        let sig = write_local_sig(alloc, m.locals.as_slice())?;
        let sig = self.blob(&sig)?;
        row(alloc, &[sig])
    }

    /// Appends the row of a method's locals, where it has one.
    fn put_locals(&mut self, alloc: Global, rows: &mut Vec<Row>, m: &Method) -> Result<(), NoMemory>
        requires short { AreShort (table_after self.old (map locals_cells (locals_of (m.now ∷ [])))) }
        requires locals { IsTrue (are_writable_locals m.now.locals) }
        ensures rows { OnOk result (rows.new.items ≡ rows.old.items ++ table_numbers self.old (map locals_cells (locals_of (m.now ∷ [])))) }
        ensures heaps { OnOk result (self.new ≡ table_after self.old (map locals_cells (locals_of (m.now ∷ [])))) }
    {
        if has_locals(m) {
            rows.push(self.locals(alloc, m)?)?;
        }
        Ok(())
    }

    fn assembly_refs(&mut self, alloc: Global, names: &[Sequence<u8>]) -> Result<Rows, NoMemory>
        requires short { AreShort (table_after self.old (map assembly_ref_cells names.now)) }
        ensures rows { IfOk result (λ rows. rows ≡ table_numbers self.old (map assembly_ref_cells names.now)) }
        ensures heaps { OnOk result (self.new ≡ table_after self.old (map assembly_ref_cells names.now)) }
    {
        let mut rows = Vec::new(alloc);
        for name in names {
            rows.push(self.assembly_ref(alloc, name.as_slice())?)?;
        }
        Ok(Sequence::from_vec(rows))
    }

    fn type_refs(&mut self, alloc: Global, types: &[TypeRef]) -> Result<Rows, NoMemory>
        requires short { AreShort (table_after self.old (map type_ref_cells types.now)) }
        ensures rows { IfOk result (λ rows. rows ≡ table_numbers self.old (map type_ref_cells types.now)) }
        ensures heaps { OnOk result (self.new ≡ table_after self.old (map type_ref_cells types.now)) }
    {
        let mut rows = Vec::new(alloc);
        for t in types {
            rows.push(self.type_ref(alloc, t)?)?;
        }
        Ok(Sequence::from_vec(rows))
    }

    fn type_defs(&mut self, alloc: Global, types: &[TypeDef]) -> Result<Rows, NoMemory>
        requires short { AreShort (table_after self.old (map type_def_cells types.now)) }
        requires early { IsTrue (list_all begins_early types.now) }
        ensures rows { IfOk result (λ rows. rows ≡ table_numbers self.old (map type_def_cells types.now)) }
        ensures heaps { OnOk result (self.new ≡ table_after self.old (map type_def_cells types.now)) }
    {
        let mut rows = Vec::new(alloc);
        for t in types {
            rows.push(self.type_def(alloc, t)?)?;
        }
        Ok(Sequence::from_vec(rows))
    }

    fn fields(&mut self, alloc: Global, fields: &[Field]) -> Result<Rows, NoMemory>
        requires short { AreShort (table_after self.old (map field_cells fields.now)) }
        requires sigs { IsTrue (list_all is_writable_field fields.now) }
        ensures rows { IfOk result (λ rows. rows ≡ table_numbers self.old (map field_cells fields.now)) }
        ensures heaps { OnOk result (self.new ≡ table_after self.old (map field_cells fields.now)) }
    {
        let mut rows = Vec::new(alloc);
        for f in fields {
            rows.push(self.field(alloc, f)?)?;
        }
        Ok(Sequence::from_vec(rows))
    }

    fn methods(&mut self, alloc: Global, methods: &[Method]) -> Result<Rows, NoMemory>
        requires short { AreShort (table_after self.old (method_rows 0x2048 methods.now)) }
        requires sigs { IsTrue (list_all is_writable_method methods.now) }
        requires few { length methods.now < 2 ^ 24 }
        requires codes { code_size methods.now < 2 ^ 24 }
        ensures rows { IfOk result (λ rows. rows ≡ table_numbers self.old (method_rows 0x2048 methods.now)) }
        ensures heaps { OnOk result (self.new ≡ table_after self.old (method_rows 0x2048 methods.now)) }
    {
        let mut rows = Vec::new(alloc);
        let mut rva = BODIES_RVA;
        for m in methods {
            rows.push(self.method(alloc, rva, m)?)?;
            rva += body_size(m);
        }
        Ok(Sequence::from_vec(rows))
    }

    fn member_refs(&mut self, alloc: Global, members: &[MemberRef]) -> Result<Rows, NoMemory>
        requires short { AreShort (table_after self.old (map member_ref_cells members.now)) }
        ensures rows { IfOk result (λ rows. rows ≡ table_numbers self.old (map member_ref_cells members.now)) }
        ensures heaps { OnOk result (self.new ≡ table_after self.old (map member_ref_cells members.now)) }
    {
        let mut rows = Vec::new(alloc);
        for m in members {
            rows.push(self.member_ref(alloc, m)?)?;
        }
        Ok(Sequence::from_vec(rows))
    }

    fn attributes(&mut self, alloc: Global, attributes: &[Attribute]) -> Result<Rows, NoMemory>
        requires short { AreShort (table_after self.old (map attribute_cells attributes.now)) }
        ensures rows { IfOk result (λ rows. rows ≡ table_numbers self.old (map attribute_cells attributes.now)) }
        ensures heaps { OnOk result (self.new ≡ table_after self.old (map attribute_cells attributes.now)) }
    {
        let mut rows = Vec::new(alloc);
        for a in attributes {
            rows.push(self.attribute(alloc, a)?)?;
        }
        Ok(Sequence::from_vec(rows))
    }

    fn all_locals(&mut self, alloc: Global, methods: &[Method]) -> Result<Rows, NoMemory>
        requires short { AreShort (table_after self.old (map locals_cells (locals_of methods.now))) }
        requires locals { IsTrue (list_all is_writable_method methods.now) }
        ensures rows { IfOk result (λ rows. rows ≡ table_numbers self.old (map locals_cells (locals_of methods.now))) }
        ensures heaps { OnOk result (self.new ≡ table_after self.old (map locals_cells (locals_of methods.now))) }
    {
        let mut rows = Vec::new(alloc);
        for m in methods {
            self.put_locals(alloc, &mut rows, m)?;
        }
        Ok(Sequence::from_vec(rows))
    }
}

/// A list of one row.
fn one(alloc: Global, row: Row) -> Result<Rows, NoMemory>
    ensures { IfOk result (λ rows. rows ≡ row ∷ []) }
{
    let mut rows = Vec::new(alloc);
    rows.push(row)?;
    Ok(Sequence::from_vec(rows))
}

/// Whether a method has a row of StandAloneSig.
pub(crate) fn has_locals(m: &Method) -> bool
    ensures { result ≡ has_locals m.now }
{
    !m.code.is_empty() && !m.locals.is_empty()
}

/// The token of a method's locals, where so many rows of StandAloneSig are before its own.
fn locals_token(before: u32, m: &Method) -> u32
    requires { before < 2 ^ 24 }
    ensures { result ≡ locals_token before m.now }
{
    if has_locals(m) {
        FIRST_LOCALS + before
    } else {
        0
    }
}

/// How many rows of StandAloneSig there are after a method's own.
fn locals_after(before: u32, m: &Method) -> u32
    requires { before < 2 ^ 24 }
    ensures { result ≡ locals_after before m.now }
{
    if has_locals(m) { before + 1 } else { before }
}

/// How many bytes a method's body has.
fn body_size(m: &Method) -> u32
    requires { length m.now.code < 2 ^ 24 }
    ensures { result ≡ body_size m.now }
{
    if m.code.is_empty() {
        return 0;
    }
    let len = FAT_HEADER_SIZE + m.code.len();
    (len + padding4(len)) as u32
}

/// Appends a fat header, with the token of the locals.
fn put_body_header(out: &mut Vec<u8>, locals: u32, m: &Method) -> Result<(), NoMemory>
    requires { length m.now.code < 2 ^ 24 }
    ensures { OnOk result (out.new.items ≡ out.old.items ++ body_header locals m.now) }
{
    out.extend_from_slice(&FAT_HEADER.to_le_bytes())?;
    out.extend_from_slice(&m.max_stack.to_le_bytes())?;
    out.extend_from_slice(&(m.code.len() as u32).to_le_bytes())?;
    out.extend_from_slice(&locals.to_le_bytes())?;
    Ok(())
}

/// Appends a method's body, with the token of its locals.
fn put_body(out: &mut Vec<u8>, locals: u32, m: &Method) -> Result<(), NoMemory>
    requires { length m.now.code < 2 ^ 24 }
    ensures { OnOk result (out.new.items ≡ out.old.items ++ body_bytes locals m.now) }
{
    if m.code.is_empty() {
        return Ok(());
    }
    put_body_header(out, locals, m)?;
    out.extend_from_slice(m.code.as_slice())?;
    let padding = padding4(FAT_HEADER_SIZE + m.code.len());
    put_zeros(out, padding)?;
    Ok(())
}

/// The bodies of methods, one after the other.
fn bodies(alloc: Global, methods: &[Method]) -> Result<Vec<u8>, NoMemory>
    requires few { length methods.now < 2 ^ 24 }
    requires codes { code_size methods.now < 2 ^ 24 }
    ensures { IfOk result (λ bytes. bytes.items ≡ bodies_from 0 methods.now) }
{
    let mut out = Vec::new(alloc);
    let mut before = 0;
    for m in methods {
        put_body(&mut out, locals_token(before, m), m)?;
        before = locals_after(before, m);
    }
    Ok(out)
}

impl Builder {
    /// The rows of a table, by its number, with what they add to the heaps.
    #[tactic(auto, unfolding(crate::specs::Room::rows_in))]
    fn rows(&self, heaps: &mut Heaps, table: u8) -> Result<Rows, NoMemory>
        requires short { AreShort (table_after heaps.old (rows_in self.now table)) }
        ensures rows { IfOk result (λ rows. rows ≡ table_numbers heaps.old (rows_in self.now table)) }
        ensures heaps { OnOk result (heaps.new ≡ table_after heaps.old (rows_in self.now table)) }
    {
        let alloc = self.alloc;
        match table {
            0x00 => {
                let row = heaps.module(alloc, self.name.as_slice())?;
                one(alloc, row)
            }
            0x01 => heaps.type_refs(alloc, &self.type_refs),
            0x02 => heaps.type_defs(alloc, &self.type_defs),
            0x04 => heaps.fields(alloc, &self.fields),
            0x06 => heaps.methods(alloc, &self.methods),
            0x0A => heaps.member_refs(alloc, &self.member_refs),
            0x0C => heaps.attributes(alloc, &self.attributes),
            0x11 => heaps.all_locals(alloc, &self.methods),
            0x20 => {
                let row = heaps.assembly(alloc, self.name.as_slice())?;
                one(alloc, row)
            }
            0x23 => heaps.assembly_refs(alloc, &self.assembly_refs),
            _ => Ok(Sequence::from_vec(Vec::new(alloc))),
        }
    }
}

/// What a built file has. Each heap has zeros at its end, up to a multiple of 4.
#[derive(Drop)]
pub(crate) struct Content {
    /// 64 tables, by number.
    pub tables: Sequence<Rows>,
    /// `#Strings`.
    pub strings: Sequence<u8>,
    /// `#US`.
    pub user_strings: Sequence<u8>,
    /// `#GUID`.
    pub guids: Sequence<u8>,
    /// `#Blob`.
    pub blobs: Sequence<u8>,
    /// The bodies, one after the other.
    pub bodies: Sequence<u8>,
}

/// The module's GUID.
const MODULE_GUID: [u8; 16] = [0x22; 16];

impl Content {
    /// What spells all that a builder was asked for.
    pub(crate) fn of(builder: &Builder) -> Result<Content, NoMemory>
        ensures { IfOk result (λ content. content ≡ content_of builder.now) }
    {
        let alloc = builder.alloc;
        let mut heaps = Heaps::new(alloc)?;
        let mut tables = Vec::new(alloc);
        for table in 0..TABLES {
            tables.push(builder.rows(&mut heaps, table)?)?;
        }
        let mut user_strings = user_heap(alloc, &builder.user_strings)?;
        pad4(&mut user_strings)?;
        let Heaps {
            mut strings,
            mut blobs,
        } = heaps;
        pad4(&mut strings)?;
        pad4(&mut blobs)?;
        let mut guids = Vec::new(alloc);
        guids.extend_from_slice(&MODULE_GUID)?;
        Ok(Content {
            tables: Sequence::from_vec(tables),
            strings: Sequence::from_vec(strings),
            user_strings: Sequence::from_vec(user_strings),
            guids: Sequence::from_vec(guids),
            blobs: Sequence::from_vec(blobs),
            bodies: Sequence::from_vec(bodies(alloc, &builder.methods)?),
        })
    }
}
