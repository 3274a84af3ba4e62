//! Types and methods by their numbers, found by the row counts of the assemblies.

ghost use Rattle.std.specs.Prelude.{◌≡◌, ◌≤◌, length};
ghost use Rattle.type_world.specs.Loading.{world_of};
ghost use Rattle.type_world.specs.Numbers.{method_numbered, type_numbered};
ghost use Rattle.type_world.specs.Placed.{fixed_type, row_placed};

use crate::assemblies::Assemblies;
use crate::identity::{BUILT_IN, MethodId, TypeId};
use crate::numbers::{BUILT_IN_METHODS, FIRST_CLASS};
use cli_assembly::ELEMS;
use metadata::Table;

/// The built-in type, or the array, of a number.
fn fixed_type(number: u32) -> Option<TypeId>
    ensures { result ≡ fixed_type number }
{
    if number == 0 {
        Some(TypeId::Object)
    } else if number == 1 {
        Some(TypeId::Str)
    } else if number < 12 {
        Some(TypeId::Array(ELEMS[number as usize - 2]))
    } else if number == 12 {
        Some(TypeId::Console)
    } else {
        None
    }
}

impl Assemblies {
    /// The row of a table that has a place among those of all assemblies, after the position of its assembly. `None` exactly where there
    /// are not so many rows. It asks each assembly for its count at most once, and goes over no rows.
    fn row_placed(&self, table: Table, place: u32) -> Option<(u8, u32)>
        ensures placed { result ≡ row_placed (world_of self.now) table place }
        ensures few { length self.now ≤ 64 }
    {
        let mut left = place;
        for asm in 0..self.count() {
            let rows = self.rows_at(table, asm);
            if left < rows {
                return Some((asm, left + 1));
            }
            left -= rows;
        }
        None
    }

    /// The method of a number. `None` exactly where no method has it.
    pub(crate) fn method_of(&self, number: u32) -> Option<MethodId>
        ensures { result ≡ method_numbered (world_of self.now) number }
    {
        if number < BUILT_IN_METHODS {
            return Some(MethodId {
                asm: BUILT_IN,
                row: number + 1,
            });
        }
        match self.row_placed(Table::MethodDef, number - BUILT_IN_METHODS) {
            Some(at) => Some(MethodId {
                asm: at.0,
                row: at.1,
            }),
            None => None,
        }
    }

    /// The type of a number. `None` exactly where no type has it.
    pub(crate) fn type_of(&self, number: u32) -> Option<TypeId>
        ensures { result ≡ type_numbered (world_of self.now) number }
    {
        if number < FIRST_CLASS {
            return fixed_type(number);
        }
        match self.row_placed(Table::TypeDef, number - FIRST_CLASS) {
            Some(at) => Some(TypeId::Class(at.0, at.1)),
            None => None,
        }
    }
}
