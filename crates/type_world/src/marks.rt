//! Rows that other tables name, found in one pass each: classes and methods with generic parameters (ECMA-335 II.22.20), and classes with
//! rows of MethodImpl (ECMA-335 II.22.27).

ghost use Rattle.std.specs.Prelude.{◌≡◌, ℕ, ◌<◌, ◌==◌, ◌||◌, ◌^◌, false, get_or, length, IfOk};
ghost use Rattle.std.specs.Option.{option_map_or};
ghost use Rattle.metadata.specs.declared.schema.Table.TheVariants as tables;
ghost use Rattle.metadata.specs.Heaps.{token};
ghost use Rattle.metadata.specs.Schema.{table_number};
ghost use Rattle.cli_assembly.specs.Assemblies.{row_count};
ghost use Rattle.type_world.specs.Loading.{world_of};
ghost use Rattle.type_world.specs.Profile.{is_owner};
ghost use Rattle.type_world.specs.Profiled.{generic_in, is_row, overriding_in};
ghost use Rattle.type_world.specs.World.{assembly_in, column_in};

use crate::assemblies::Assemblies;
use metadata::{CodedKind, Table};
use rtr_bytes::NoMemory;
use std::alloc::Global;

/// Owner, a column of GenericParam (ECMA-335 II.22.20).
const OWNER: u8 = 2;
/// Class, a column of MethodImpl (ECMA-335 II.22.27).
const CLASS: u8 = 0;

/// The row of a table that a token names.
fn row_of_token(found: Option<u32>, table: Table) -> Option<u32>
    ensures { (k : ℕ) → k < 2 ^ 24 → is_row result k ≡ option_map_or (λ found. found == token (table_number table) k) found false }
{
    match found {
        Some(found) => {
            if found / (1 << 24) == table.number() as u32 {
                Some(found % (1 << 24))
            } else {
                None
            }
        }
        None => None,
    }
}

/// Marks a row, where there is a mark for it.
pub(crate) fn mark_at(marks: &mut [bool], row: usize)
    ensures { (k : ℕ) → k < length marks.old → get_or marks.new k false ≡ (get_or marks.old k false || row == k) }
{
    if marks.len() <= row {
        return;
    }
    marks[row] = true;
}

/// Marks a row that was found, where there is a mark for it.
fn mark(marks: &mut [bool], row: Option<u32>)
    ensures { (k : ℕ) → k < length marks.old → get_or marks.new k false ≡ (get_or marks.old k false || is_row row k) }
{
    match row {
        Some(row) => mark_at(marks, row as usize),
        None => {}
    }
}

/// Whether a row is marked; one that has no mark isn't.
pub(crate) fn is_marked(marks: &[bool], row: u32) -> bool
    ensures { result ≡ get_or marks.now row false }
{
    match marks.get(row as usize) {
        Some(marked) => *marked,
        None => false,
    }
}

impl Assemblies {
    /// The row of a table that a row of GenericParam is of. There are rows of GenericParam.
    fn owner_row(&self, asm: u8, table: Table, param: u32) -> Option<u32>
        requires { 0 < row_count (assembly_in (world_of self.now) asm) tables.GenericParam }
        ensures { (k : ℕ) → k < 2 ^ 24 → is_row result k ≡ is_owner (world_of self.now) asm table k (column_in (world_of self.now) asm tables.GenericParam param 2) }
    {
        match self.assembly(asm) {
            Some(assembly) => {
                let owner = assembly.column(Table::GenericParam, param, OWNER);
                row_of_token(assembly.coded(CodedKind::TypeOrMethodDef, owner), table)
            }
            None => None,
        }
    }

    /// Which rows of TypeDef or of MethodDef have generic parameters, by row; row 0 is the first.
    pub(crate) fn generic_rows(
        &self,
        alloc: Global,
        asm: u8,
        table: Table,
    ) -> Result<Vec<bool>, NoMemory>
        ensures { IfOk result (λ marks. marks.items ≡ generic_in (world_of self.now) asm table) }
    {
        let mut marks = vec![in alloc; false; self.rows_at(table, asm) as usize + 1]?;
        for before in 0..self.rows_at(Table::GenericParam, asm) {
            mark(&mut marks, self.owner_row(asm, table, before + 1));
        }
        Ok(marks)
    }

    /// Which rows of TypeDef have rows of MethodImpl, by row; row 0 is the first.
    pub(crate) fn overriding_rows(&self, alloc: Global, asm: u8) -> Result<Vec<bool>, NoMemory>
        ensures { IfOk result (λ marks. marks.items ≡ overriding_in (world_of self.now) asm) }
    {
        let mut marks = vec![in alloc; false; self.rows_at(Table::TypeDef, asm) as usize + 1]?;
        for before in 0..self.rows_at(Table::MethodImpl, asm) {
            let class = self.column_at(Table::MethodImpl, asm, before + 1, CLASS);
            mark_at(&mut marks, class as usize);
        }
        Ok(marks)
    }
}
