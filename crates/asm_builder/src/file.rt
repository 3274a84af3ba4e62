//! The bytes of a built file, by their parts.

ghost use Rattle.std.specs.Prelude.{◌≡◌, ℕ, List, All, ◌++◌, ◌+◌, ◌-◌, ◌<◌, ◌≤◌, ◌^◌, ◌↔◌, IsTrue, length, IfOk, OnOk};
ghost use Rattle.std.specs.List.{flat_map};
ghost use Rattle.byteorder.specs.Endian.{little_bytes};
ghost use Rattle.pe_image.specs.Pieces.{fields_bytes};
ghost use Rattle.pe_image.specs.Places.{aligned};
ghost use Rattle.pe_image.specs.Raw.{padded};
ghost use Rattle.asm_builder.specs.declared.content.Content.{Content as ContentOf};
ghost use Rattle.asm_builder.specs.File.{AreSmall, cli_fields, counts_bytes, file_of, metadata_bytes, row_bytes, tables_from, tables_stream, valid_bits};

use crate::content::{Content, Row, Rows, pad4, put_zeros};
use crate::headers::{
    CLI_HEADER_SIZE, FIRST_STREAM, SECTION_AT, SECTION_RVA, eight, four, put_coff, put_directories,
    put_number, put_numbers, put_optional, put_root, put_section, two,
};
use crate::layout::Sizes;
use rtr_bytes::{NoMemory, Sequence};
use std::alloc::Global;

/// Appends a row, each number in its column's width.
fn put_row(out: &mut Vec<u8>, widths: &[u8], numbers: &[u32]) -> Result<(), NoMemory>
    requires { All (λ w. w ≤ 8) widths.now }
    ensures { OnOk result (out.new.items ≡ out.old.items ++ row_bytes widths.now numbers.now) }
{
    for (width, number) in widths.iter().zip(numbers) {
        put_number(out, *width, u64::from(*number))?;
    }
    Ok(())
}

/// Appends the rows of a table.
fn put_table(out: &mut Vec<u8>, widths: &[u8], rows: &[Row]) -> Result<(), NoMemory>
    requires { All (λ w. w ≤ 8) widths.now }
    ensures { OnOk result (out.new.items ≡ out.old.items ++ flat_map (row_bytes widths.now) rows.now) }
{
    for row in rows {
        put_row(out, widths, row.as_slice())?;
    }
    Ok(())
}

/// Appends the rows of all tables.
fn put_tables(
    alloc: Global,
    out: &mut Vec<u8>,
    sizes: &Sizes,
    tables: &[Rows],
) -> Result<(), NoMemory>
    requires { length tables.now ≤ 64 }
    ensures { OnOk result (out.new.items ≡ out.old.items ++ tables_from sizes.now 0 tables.now) }
{
    for (table, rows) in tables.iter().enumerate() {
        let widths = sizes.widths(alloc, table as u8)?;
        put_table(out, widths.as_slice(), rows.as_slice())?;
    }
    Ok(())
}

/// A bit for each table that has rows.
fn valid_bits(tables: &[Rows]) -> u64
    requires { length tables.now ≤ 64 }
    ensures { result ≡ valid_bits tables.now }
{
    let mut valid = 0;
    for (table, rows) in tables.iter().enumerate() {
        if !rows.is_empty() {
            valid |= 1 << table;
        }
    }
    valid
}

/// Appends the number of rows of each table that has some.
fn put_counts(out: &mut Vec<u8>, tables: &[Rows]) -> Result<(), NoMemory>
    ensures { OnOk result (out.new.items ≡ out.old.items ++ counts_bytes tables.now) }
{
    for rows in tables {
        if !rows.is_empty() {
            put_number(out, 4, rows.len() as u64)?;
        }
    }
    Ok(())
}

/// The tables' stream.
fn tables_stream(alloc: Global, content: &Content) -> Result<Vec<u8>, NoMemory>
    requires few { All (λ (rows : List (List ℕ)). length rows < 2 ^ 24) content.now.tables }
    requires count { length content.now.tables ≡ 64 }
    ensures { IfOk result (λ bytes. bytes.items ≡ tables_stream content.now) }
{
    let sizes = Sizes::of(alloc, content)?;
    let tables = content.tables.as_slice();
    let mut out = Vec::new(alloc);
    put_numbers(&mut out, &[four(0), two(2)])?;
    out.extend_from_slice(&[sizes.heap_sizes(), 1])?;
    put_numbers(&mut out, &[eight(valid_bits(tables)), eight(0)])?;
    put_counts(&mut out, tables)?;
    put_tables(alloc, &mut out, &sizes, tables)?;
    pad4(&mut out)?;
    Ok(out)
}

/// Appends a stream header: offset, size, and the name with zeros up to a multiple of 4. It gives the offset of the next stream.
fn put_stream_header(
    out: &mut Vec<u8>,
    offset: u64,
    size: usize,
    name: &[u8],
) -> Result<u64, NoMemory>
    requires { offset + size < 2 ^ 64 }
    ensures next { IfOk result (λ next. next ≡ offset + size) }
    ensures header { OnOk result (out.new.items ≡ out.old.items ++ little_bytes 4 offset ++ little_bytes 4 size ++ name.now) }
{
    let size = size as u64;
    put_number(out, 4, offset)?;
    put_number(out, 4, size)?;
    out.extend_from_slice(name)?;
    Ok(offset + size)
}

/// The metadata.
fn metadata(alloc: Global, content: &Content) -> Result<Vec<u8>, NoMemory>
    requires few { All (λ (rows : List (List ℕ)). length rows < 2 ^ 24) content.now.tables }
    requires count { length content.now.tables ≡ 64 }
    requires heaps { AreSmall content.now }
    ensures { IfOk result (λ bytes. bytes.items ≡ metadata_bytes content.now) }
{
    let tables = tables_stream(alloc, content)?;
    let mut out = Vec::new(alloc);
    put_root(&mut out)?;
    let at = put_stream_header(&mut out, u64::from(FIRST_STREAM), tables.len(), b"#~\0\0")?;
    let at = put_stream_header(&mut out, at, content.strings.len(), b"#Strings\0\0\0\0")?;
    let at = put_stream_header(&mut out, at, content.user_strings.len(), b"#US\0")?;
    let at = put_stream_header(&mut out, at, content.guids.len(), b"#GUID\0\0\0")?;
    let _end = put_stream_header(&mut out, at, content.blobs.len(), b"#Blob\0\0\0")?;
    out.extend_from_slice(&tables)?;
    out.extend_from_slice(content.strings.as_slice())?;
    out.extend_from_slice(content.user_strings.as_slice())?;
    out.extend_from_slice(content.guids.as_slice())?;
    out.extend_from_slice(content.blobs.as_slice())?;
    Ok(out)
}

/// How many zeros follow so many bytes, up to a multiple of 512.
fn padding512(len: usize) -> usize
    ensures padding { result ≡ aligned 512 len - len }
    ensures few { result < 512 }
{
    (512 - len % 512) % 512
}

/// How many bytes a file has whose section has so many: the headers, the section, and zeros up to a multiple of 512.
fn file_len(size: usize) -> usize
    requires { size < 2 ^ 32 }
    ensures { result ≡ 512 + aligned 512 size }
{
    SECTION_AT as usize + size + padding512(size)
}

/// Appends zeros up to a multiple of 512.
#[tactic(auto, unfolding(pe_image::specs::Raw::padded))]
fn pad512(out: &mut Vec<u8>) -> Result<(), NoMemory>
    ensures { OnOk result (out.new.items ≡ padded out.old.items) }
{
    let len = padding512(out.len());
    put_zeros(out, len)
}

/// Appends the CLI header, for bodies and metadata of so many bytes.
fn put_cli_header(out: &mut Vec<u8>, bodies: u32, metadata: u32, entry: u32) -> Result<(), NoMemory>
    requires { bodies < 2 ^ 31 }
    ensures { OnOk result ((content : ContentOf) → bodies ≡ length content.bodies → metadata ≡ length (metadata_bytes content)
        → out.new.items ≡ out.old.items ++ fields_bytes (cli_fields content entry)) }
{
    put_numbers(
        out,
        &[
            four(CLI_HEADER_SIZE),
            two(2),
            two(5),
            four(SECTION_RVA + CLI_HEADER_SIZE + bodies),
            four(metadata),
            four(1),
            four(entry),
            eight(0),
            eight(0),
            eight(0),
            eight(0),
            eight(0),
            four(0),
            four(0),
        ],
    )
}

/// The most bytes of bodies and metadata: with 72 of the CLI header and 512 before them they make the longest file, of 16,777,216.
const CONTENT_LIMIT: usize = 16_776_632;

/// What a file is joined from: the bodies and the metadata.
#[derive(Drop)]
pub(crate) struct Section {
    bodies: Sequence<u8>,
    metadata: Vec<u8>,
}

impl Section {
    /// That of a content.
    pub(crate) fn of(alloc: Global, content: Content) -> Result<Section, NoMemory>
        requires few { All (λ (rows : List (List ℕ)). length rows < 2 ^ 24) content.tables }
        requires count { length content.tables ≡ 64 }
        requires heaps { AreSmall content }
        ensures bodies { IfOk result (λ section. section.bodies ≡ content.bodies) }
        ensures metadata { IfOk result (λ section. section.metadata.items ≡ metadata_bytes content) }
    {
        let metadata = metadata(alloc, &content)?;
        Ok(Section {
            bodies: content.bodies,
            metadata,
        })
    }

    /// How many bytes it has, before zeros up to a multiple of 512.
    fn size(&self) -> u32
        requires bodies { length self.now.bodies ≤ 2 ^ 24 }
        requires metadata { length self.now.metadata.items ≤ 2 ^ 24 }
        ensures { result ≡ 72 + length self.now.bodies + length self.now.metadata.items }
    {
        CLI_HEADER_SIZE + self.bodies.len() as u32 + self.metadata.len() as u32
    }

    /// Whether its file has at most so many bytes as a file may have.
    pub(crate) fn fits(&self) -> bool
        ensures { IsTrue result ↔ (512 + aligned 512 (72 + length self.now.bodies + length self.now.metadata.items) ≤ 16_777_216) }
    {
        self.bodies.len().saturating_add(self.metadata.len()) <= CONTENT_LIMIT
    }

    /// The file.
    pub(crate) fn file(&self, alloc: Global, entry: u32) -> Result<Vec<u8>, NoMemory>
        requires bodies { length self.now.bodies ≤ 2 ^ 24 }
        requires metadata { length self.now.metadata.items ≤ 2 ^ 24 }
        ensures { IfOk result (λ bytes. (content : ContentOf) → self.now.bodies ≡ content.bodies
            → self.now.metadata.items ≡ metadata_bytes content → bytes.items ≡ file_of content entry) }
    {
        let size = self.size();
        let mut out = Vec::with_capacity(alloc, file_len(size as usize))?;
        put_coff(&mut out, entry)?;
        put_optional(&mut out, size)?;
        put_directories(&mut out)?;
        put_section(&mut out, size)?;
        pad512(&mut out)?;
        put_cli_header(
            &mut out,
            self.bodies.len() as u32,
            self.metadata.len() as u32,
            entry,
        )?;
        out.extend_from_slice(self.bodies.as_slice())?;
        out.extend_from_slice(&self.metadata)?;
        pad512(&mut out)?;
        Ok(out)
    }
}
