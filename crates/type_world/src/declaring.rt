//! The type that declares a method (ECMA-335 II.22.37).

ghost use Rattle.std.specs.Prelude.{◌≡◌, ◌≤◌, ◌<◌, ◌==◌, Some, None, if◌then◌else◌, slice_get, map, IfOk};
ghost use Rattle.cli_assembly.specs.Assemblies.{assembly_of, list_end, list_start, row_count};
ghost use Rattle.metadata.specs.declared.schema.Table.TheVariants as tables;
ghost use Rattle.type_world.specs.Loading.{world_of};
ghost use Rattle.type_world.specs.Resolution.{class_in, method_class};
ghost use Rattle.type_world.specs.World.{rows_at};

use crate::assemblies::Assemblies;
use crate::identity::TypeId;
use cli_assembly::{Assembly, lists_ascend};
use metadata::Table;
use rtr_bytes::NoMemory;
use std::alloc::Global;

/// The first type, from one that begins at a row of MethodDef or before, whose list ends after that row. Row 0 of TypeDef has what is before
/// the first type's list.
fn lister_from(assembly: &Assembly, class: u32, row: u32) -> u32
    requires begins { list_start (assembly_of assembly.now) class 5 ≤ row }
    requires there { row ≤ row_count (assembly_of assembly.now) tables.MethodDef }
    requires few { class ≤ row_count (assembly_of assembly.now) tables.TypeDef }
    ensures begins { list_start (assembly_of assembly.now) result 5 ≤ row }
    ensures ends { row < list_end (assembly_of assembly.now) tables.MethodDef result 5 }
    ensures few { result ≤ row_count (assembly_of assembly.now) tables.TypeDef }
{
    let last = assembly.rows(Table::TypeDef);
    for of in class..last {
        if row < assembly.methods(of).end {
            return of;
        }
    }
    last
}

/// The class of a row of TypeDef; none for row 0.
fn class_of(asm: u8, row: u32) -> Option<TypeId>
    ensures { result ≡ class_in asm (if row == 0 then None else Some row) }
{
    if row == 0 {
        None
    } else {
        Some(TypeId::Class(asm, row))
    }
}

impl Assemblies {
    /// The types that declare the rows of MethodDef of an assembly, one for each row. The lists ascend, so one pass over both tables does.
    fn classes_in(
        &self,
        alloc: Global,
        assembly: &Assembly,
        asm: u8,
    ) -> Result<Vec<Option<TypeId>>, NoMemory>
        requires { slice_get self.now asm ≡ Some assembly.now }
        ensures { IfOk result (λ classes. classes.items ≡ map (method_class (world_of self.now) asm) (rows_at (world_of self.now) asm tables.MethodDef)) }
    {
        lists_ascend();
        assembly.bytes();
        let mut classes = Vec::new(alloc);
        let mut class = 0;
        for index in 0..assembly.rows(Table::MethodDef) {
            class = lister_from(assembly, class, index + 1);
            classes.push(class_of(asm, class))?;
        }
        Ok(classes)
    }

    /// The types that declare the rows of MethodDef of the assembly at a position, one for each row. There is none where no type's list has
    /// the row.
    pub(crate) fn method_classes(
        &self,
        alloc: Global,
        asm: u8,
    ) -> Result<Vec<Option<TypeId>>, NoMemory>
        ensures { IfOk result (λ classes. classes.items ≡ map (method_class (world_of self.now) asm) (rows_at (world_of self.now) asm tables.MethodDef)) }
    {
        match self.assembly(asm) {
            Some(assembly) => self.classes_in(alloc, assembly, asm),
            None => Ok(Vec::new(alloc)),
        }
    }
}
