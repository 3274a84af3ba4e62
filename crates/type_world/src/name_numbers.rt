//! The types of an assembly by the numbers of their names, so that a search reads few names.

ghost use Rattle.std.specs.Prelude.{◌≡◌, ◌<◌, ◌≤◌, ◌+◌, ◌^◌, IfOk, get_or, false};
ghost use Rattle.cli_assembly.specs.Assemblies.{assembly_of, column, row_count};
ghost use Rattle.metadata.specs.declared.schema.Table.TheVariants as tables;
ghost use Rattle.type_world.specs.Loading.{world_of};
ghost use Rattle.type_world.specs.NameNumbers.{nested_number, nested_rows, nesting_numbers, number_from, number_of_nesting, outermost_by};
ghost use Rattle.type_world.specs.NameNumbers.{outermost_number, outermost_numbers, type_numbers, world_numbers};
ghost use Rattle.type_world.specs.World.{text_at};

use crate::marks::{is_marked, mark_at};
use crate::row_index::RowIndex;
use cli_assembly::Assembly;
use metadata::Table;
use rtr_bytes::NoMemory;
use std::alloc::Global;
use std::marker::Model;

/// TypeName, a column of TypeDef (ECMA-335 II.22.37).
const TYPE_NAME: u8 = 1;
/// TypeNamespace, a column of TypeDef.
const TYPE_NAMESPACE: u8 = 2;
/// NestedClass, a column of the table of that name (ECMA-335 II.22.32).
const NESTED: u8 = 0;
/// EnclosingClass, a column of NestedClass.
const ENCLOSING: u8 = 1;
/// A prime below 2^24.
const PRIME: u32 = 16_777_213;

/// The number of some bytes that follow those of a number.
fn number_from(start: u32, bytes: &[u8]) -> u32
    requires { start < 16777213 }
    ensures number { result ≡ number_from start bytes.now }
    ensures below { result < 16777213 }
{
    let mut number = start;
    for byte in bytes {
        number = (number * 31 + u32::from(*byte)) % PRIME;
    }
    number
}

/// The number of a namespace and a name.
#[tactic(auto, unfolding(crate::specs::NameNumbers::outermost_number))]
pub(crate) fn outermost_number(namespace: &str, name: &str) -> u32
    ensures { result ≡ outermost_number namespace.now name.now }
{
    number_from(number_from(0, namespace.as_bytes()), name.as_bytes()) + 1
}

/// The number of a name in an enclosing type.
#[tactic(auto, unfolding(crate::specs::NameNumbers::nested_number))]
pub(crate) fn nested_number(enclosing: u32, name: &str) -> u32
    ensures { result ≡ nested_number enclosing name.now }
{
    number_from(enclosing % PRIME, name.as_bytes())
}

/// The text of a column of a row of TypeDef; empty where there is none.
fn type_text(assembly: &Assembly, row: u32, number: u8) -> &str
    ensures { result.now ≡ text_at (assembly_of assembly.now) tables.TypeDef row number }
{
    assembly
        .string(assembly.column(Table::TypeDef, row, number))
        .unwrap_or("")
}

/// The number of a row of TypeDef: 0 where it is nested.
fn number_of_type(assembly: &Assembly, row: u32, nested: bool) -> u32
    ensures { result ≡ outermost_by nested (assembly_of assembly.now) row }
{
    if nested {
        return 0;
    }
    let namespace = type_text(assembly, row, TYPE_NAMESPACE);
    outermost_number(namespace, type_text(assembly, row, TYPE_NAME))
}

/// The number of a row of NestedClass.
fn number_of_nesting(assembly: &Assembly, nesting: u32) -> u32
    ensures { result ≡ number_of_nesting (assembly_of assembly.now) nesting }
{
    let nested = assembly.column(Table::NestedClass, nesting, NESTED);
    let enclosing = assembly.column(Table::NestedClass, nesting, ENCLOSING);
    nested_number(enclosing, type_text(assembly, nested, TYPE_NAME))
}

/// Which rows of TypeDef are nested, in one pass over NestedClass; row 0 is the first.
fn nested_rows(alloc: Global, assembly: &Assembly) -> Result<Vec<bool>, NoMemory>
    ensures { IfOk result (λ marks. marks.items ≡ nested_rows (assembly_of assembly.now)) }
{
    let mut marks = vec![in alloc; false; assembly.rows(Table::TypeDef) as usize + 1]?;
    for before in 0..assembly.rows(Table::NestedClass) {
        let nested = assembly.column(Table::NestedClass, before + 1, NESTED);
        mark_at(&mut marks, nested as usize);
    }
    Ok(marks)
}

/// The numbers of the rows of TypeDef.
#[tactic(auto, unfolding(crate::specs::NameNumbers::outermost_numbers))]
fn outermost_numbers(alloc: Global, assembly: &Assembly) -> Result<Vec<u32>, NoMemory>
    ensures { IfOk result (λ numbers. numbers.items ≡ outermost_numbers (assembly_of assembly.now)) }
{
    let nested = nested_rows(alloc, assembly)?;
    let marks = nested.as_slice();
    let mut numbers = Vec::new(alloc);
    for before in 0..assembly.rows(Table::TypeDef) {
        let row = before + 1;
        numbers.push(number_of_type(assembly, row, is_marked(marks, row)))?;
    }
    Ok(numbers)
}

/// The numbers of the rows of NestedClass.
#[tactic(auto, unfolding(crate::specs::NameNumbers::nesting_numbers))]
fn nesting_numbers(alloc: Global, assembly: &Assembly) -> Result<Vec<u32>, NoMemory>
    ensures { IfOk result (λ numbers. numbers.items ≡ nesting_numbers (assembly_of assembly.now)) }
{
    let mut numbers = Vec::new(alloc);
    for before in 0..assembly.rows(Table::NestedClass) {
        numbers.push(number_of_nesting(assembly, before + 1))?;
    }
    Ok(numbers)
}

/// The types of an assembly by the numbers of their names. Contracts see the numbers.
#[derive(Debug, Drop)]
pub(crate) struct TypeNames {
    outermost: RowIndex,
    nestings: RowIndex,
}

impl Model for TypeNames {
    ghost use Rattle.type_world.specs.NameNumbers.{TypeNumbers};

    ghost Value = { TypeNumbers };

    ghost view = { λ t. record { outermost = t.outermost; nestings = t.nestings } };
}

impl TypeNames {
    /// Those of an assembly.
    fn of(alloc: Global, assembly: &Assembly) -> Result<TypeNames, NoMemory>
        ensures { IfOk result (λ names. names ≡ type_numbers (assembly_of assembly.now)) }
    {
        // `rows` is called for its clause that there are few.
        assembly.rows(Table::TypeDef);
        assembly.rows(Table::NestedClass);
        let outermost = RowIndex::of(alloc, outermost_numbers(alloc, assembly)?)?;
        let nestings = RowIndex::of(alloc, nesting_numbers(alloc, assembly)?)?;
        Ok(TypeNames {
            outermost,
            nestings,
        })
    }

    /// The rows of TypeDef, by the number of the namespace and the name where they are not nested.
    pub(crate) fn outermost(&self) -> &RowIndex
        ensures { result.now ≡ self.now.outermost }
    {
        &self.outermost
    }

    /// The rows of NestedClass, by the number of the enclosing type and the name of the nested one.
    pub(crate) fn nestings(&self) -> &RowIndex
        ensures { result.now ≡ self.now.nestings }
    {
        &self.nestings
    }
}

/// The types of all assemblies by the numbers of their names, by position.
pub(crate) fn name_all(alloc: Global, assemblies: &[Assembly]) -> Result<Vec<TypeNames>, NoMemory>
    ensures { IfOk result (λ all. all.items ≡ world_numbers (world_of assemblies.now)) }
{
    let mut all = Vec::new(alloc);
    for assembly in assemblies {
        all.push(TypeNames::of(alloc, assembly)?)?;
    }
    Ok(all)
}
