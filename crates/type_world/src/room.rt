//! How much is read of the methods and the names of all rows together. Rows may share a body, a signature of locals or a name.

use cli_assembly::Assembly;
use metadata::Table;

/// What the rows of a file share comes to at most so many times its bytes, each as often as rows have it.
const MAX_SHARED: u64 = 32;
/// TypeName, a column of TypeDef and of TypeRef (ECMA-335 II.22.37 and II.22.38).
const TYPE_NAME: u8 = 1;
/// TypeNamespace, a column of TypeDef and of TypeRef.
const TYPE_NAMESPACE: u8 = 2;
/// Name, a column of MemberRef (ECMA-335 II.22.25).
const MEMBER_NAME: u8 = 1;
/// NestedClass, a column of the table of that name (ECMA-335 II.22.32).
const NESTED: u8 = 0;
/// Name, a column of MethodDef (ECMA-335 II.22.26).
const METHOD_NAME: u8 = 3;

/// How many bytes the text of a column of a row has.
fn length_of_text(assembly: &Assembly, table: Table, row: u32, number: u8) -> u64 {
    match assembly.string(assembly.column(table, row, number)) {
        Some(text) => text.len() as u64,
        None => 0,
    }
}

/// How many locals a row of StandAloneSig has; 0 where it isn't one of locals.
fn locals_of_row(assembly: &Assembly, row: u32) -> u64 {
    match assembly.local_sig(row) {
        Some(types) => types.len() as u64,
        None => 0,
    }
}

/// How many bytes the code of a row of MethodDef has, and how many locals; 0 for a row without CIL.
fn size_of_body(assembly: &Assembly, row: u32) -> u64 {
    match assembly.body(row) {
        Some(body) => {
            let locals = locals_of_row(assembly, body.locals % (1 << 24));
            (body.code.len as u64).saturating_add(locals)
        }
        None => 0,
    }
}

/// Whether the names and bodies of the rows of MethodDef have at most so many bytes and locals.
fn methods_have_room(assembly: &Assembly, most: u64) -> bool {
    let mut size: u64 = 0;
    for index in 0..assembly.rows(Table::MethodDef) {
        let row = index + 1;
        size = size.saturating_add(size_of_body(assembly, row));
        size = size.saturating_add(length_of_text(assembly, Table::MethodDef, row, METHOD_NAME));
        if most < size {
            return false;
        }
    }
    true
}

/// Whether the names of the rows of TypeDef or of TypeRef have at most so many bytes.
fn types_have_room(assembly: &Assembly, table: Table, most: u64) -> bool {
    let mut size: u64 = 0;
    for index in 0..assembly.rows(table) {
        let row = index + 1;
        size = size.saturating_add(length_of_text(assembly, table, row, TYPE_NAME));
        size = size.saturating_add(length_of_text(assembly, table, row, TYPE_NAMESPACE));
        if most < size {
            return false;
        }
    }
    true
}

/// Whether the names of the rows of MemberRef have at most so many bytes.
fn members_have_room(assembly: &Assembly, most: u64) -> bool {
    let mut size: u64 = 0;
    for index in 0..assembly.rows(Table::MemberRef) {
        let row = index + 1;
        size = size.saturating_add(length_of_text(assembly, Table::MemberRef, row, MEMBER_NAME));
        if most < size {
            return false;
        }
    }
    true
}

/// Whether the names of the types that the rows of NestedClass name as nested have at most so many bytes.
fn nestings_have_room(assembly: &Assembly, most: u64) -> bool {
    let mut size: u64 = 0;
    for index in 0..assembly.rows(Table::NestedClass) {
        let nested = assembly.column(Table::NestedClass, index + 1, NESTED);
        size = size.saturating_add(length_of_text(assembly, Table::TypeDef, nested, TYPE_NAME));
        if most < size {
            return false;
        }
    }
    true
}

/// Whether what the rows of an assembly share, each as often as rows have it, is not too large for its file.
fn has_room(assembly: &Assembly) -> bool {
    let most = MAX_SHARED * assembly.bytes().len() as u64;
    methods_have_room(assembly, most)
        && types_have_room(assembly, Table::TypeDef, most)
        && types_have_room(assembly, Table::TypeRef, most)
        && members_have_room(assembly, most)
        && nestings_have_room(assembly, most)
}

/// Whether what the rows of each assembly share, each as often as rows have it, is not too large for its file.
pub(crate) fn have_room(assemblies: &[Assembly]) -> bool {
    for assembly in assemblies {
        if !has_room(assembly) {
            return false;
        }
    }
    true
}
