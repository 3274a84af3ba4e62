//! The method bodies that the rows of MethodDef name, with their checks.

ghost use Rattle.std.specs.Prelude.{◌≡◌, ◌≤◌, ◌<◌, ◌^◌, None, Some, length, unwrap_or, IfErr, IfOk, OnOk};
ghost use Rattle.std.specs.Option.{option_and_then};
ghost use Rattle.rtr_bytes.specs.Checks.{RefusedBy};
ghost use Rattle.pe_image.specs.Headers.{headers_of};
ghost use Rattle.metadata.specs.declared.schema.Table.TheVariants as tables;
ghost use Rattle.metadata.specs.Checks.{or_else};
ghost use Rattle.metadata.specs.Schema.{table_number};
ghost use Rattle.metadata.specs.Tables.{column_of, rows_of};
ghost use Rattle.cli_assembly.specs.Assemblies.{placed_in};
ghost use Rattle.cli_assembly.specs.Bodies.{placed_body};
ghost use Rattle.cli_assembly.specs.Checks.{malformed_header, place_if_malformed, place_if_unplaced, unplaced_body};
ghost use Rattle.cli_assembly.specs.Kept.{body_fault, by_row, row_header};

use crate::body::Body;
use crate::check::Check;
use crate::header::{BodyAt, body_at, has_cil};
use metadata::{Metadata, Table};
use pe_image::Pe;
use rtr_bytes::{Fault, ReadRefusal};
use std::alloc::Global;

/// RVA of MethodDef, the first column (ECMA-335 II.22.26).
const RVA: u8 = 0;
/// ImplFlags of MethodDef.
const IMPL_FLAGS: u8 = 1;

/// What a row of MethodDef has.
#[derive(Clone, Copy)]
struct RowBody {
    /// Its body, where it has CIL, and the header is one.
    body: Option<Body>,
    /// The file offset of its header, where that is neither tiny nor fat of 3 words.
    malformed: Option<u32>,
}

/// The number in a column of a row of MethodDef; 0 where there is no such row.
fn method_column(bytes: &[u8], metadata: &Metadata, row: u32, column: u8) -> u32
    requires small { length bytes.now ≤ 2 ^ 31 }
    ensures { result ≡ unwrap_or (column_of bytes.now metadata.now (table_number tables.MethodDef) row column) 0 }
{
    metadata
        .column(bytes, Table::MethodDef.number(), row, column)
        .unwrap_or(0)
}

/// What is at the RVA of a row of MethodDef. `None` exactly where it has no CIL.
fn row_header(bytes: &[u8], pe: &Pe, metadata: &Metadata, row: u32) -> Option<BodyAt>
    requires small { length bytes.now ≤ 2 ^ 31 }
    requires pe { pe.now ≡ headers_of bytes.now }
    requires first { 1 ≤ row }
    requires last { row ≤ rows_of metadata.now (table_number tables.MethodDef) }
    ensures { result ≡ row_header bytes.now metadata.now row }
{
    let rva = method_column(bytes, metadata, row, RVA);
    if has_cil(rva, method_column(bytes, metadata, row, IMPL_FLAGS)) {
        Some(body_at(bytes, pe, rva))
    } else {
        None
    }
}

/// What a row has by its header, whose RVA is in a column at a file offset.
fn body_by(header: Option<BodyAt>, column: u32) -> Result<RowBody, Fault>
    ensures fault { IfErr result (λ f. (f.check ≡ 50) × (option_and_then (place_if_unplaced column) header ≡ Some f.place)) }
    ensures placed { OnOk result (option_and_then (place_if_unplaced column) header ≡ None) }
    ensures body { IfOk result (λ row. row.body ≡ option_and_then placed_body header) }
    ensures malformed { IfOk result (λ row. row.malformed ≡ option_and_then place_if_malformed header) }
{
    let (body, malformed) = match header {
        None => (None, None),
        Some(BodyAt::Placed(body)) => (Some(body), None),
        Some(BodyAt::Malformed(at)) => (None, Some(at)),
        Some(BodyAt::Unplaced) => {
            return Err(Fault {
                check: Check::Body as u16,
                place: column,
            });
        }
    };
    Ok(RowBody { body, malformed })
}

/// What a row of MethodDef has, where its body is in a section.
fn row_body(bytes: &[u8], pe: &Pe, metadata: &Metadata, row: u32) -> Result<RowBody, Fault>
    requires small { length bytes.now ≤ 2 ^ 31 }
    requires pe { pe.now ≡ headers_of bytes.now }
    requires first { 1 ≤ row }
    requires last { row ≤ rows_of metadata.now (table_number tables.MethodDef) }
    ensures fault { IfErr result (λ f. (f.check ≡ 50) × (unplaced_body bytes.now metadata.now row ≡ Some f.place)) }
    ensures placed { OnOk result (unplaced_body bytes.now metadata.now row ≡ None) }
    ensures body { IfOk result (λ found. found.body ≡ placed_in bytes.now metadata.now row) }
    ensures malformed { IfOk result (λ found. found.malformed ≡ malformed_header bytes.now metadata.now row) }
{
    let header = row_header(bytes, pe, metadata, row);
    let column = metadata.column_place(Table::MethodDef.number(), row, RVA);
    body_by(header, column.unwrap_or(0))
}

/// The first place, where one is known before.
fn first_known(before: Option<u32>, found: Option<u32>) -> Option<u32>
    ensures { result ≡ or_else before found }
{
    match before {
        Some(place) => Some(place),
        None => found,
    }
}

/// The bodies of the rows of MethodDef, one for each row. `Malformed` names check 50 where a body of any row is not in a section,
/// and else check 51 where a header of any row is malformed, each with the place of the first such row.
pub(crate) fn read_bodies(
    alloc: Global,
    bytes: &[u8],
    pe: &Pe,
    metadata: &Metadata,
) -> Result<Vec<Option<Body>>, ReadRefusal>
    requires small { length bytes.now ≤ 2 ^ 31 }
    requires pe { pe.now ≡ headers_of bytes.now }
    ensures malformed { IfErr result (λ e. RefusedBy (body_fault bytes.now metadata.now) e) }
    ensures well_formed { OnOk result (body_fault bytes.now metadata.now ≡ None) }
    ensures bodies { IfOk result (λ bodies. bodies.items ≡ by_row metadata.now tables.MethodDef (placed_in bytes.now metadata.now)) }
{
    let mut bodies = Vec::new(alloc);
    let mut malformed = None;
    for index in 0..metadata.rows(Table::MethodDef.number()) {
        let row = row_body(bytes, pe, metadata, index + 1)?;
        malformed = first_known(malformed, row.malformed);
        bodies.push(row.body)?;
    }
    match malformed {
        None => Ok(bodies),
        Some(place) => Err(ReadRefusal::Malformed(Fault {
            check: Check::BodyHeader as u16,
            place,
        })),
    }
}
