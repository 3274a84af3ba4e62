//! Numbers of types and methods. Each kind is numbered through the whole world: by assembly, and then by row.

ghost use Rattle.std.specs.Prelude.{◌≡◌, ◌≤◌, ◌<◌, ◌+◌, ◌*◌, ◌^◌, length, IfSome};
ghost use Rattle.type_world.specs.Loading.{world_of};
ghost use Rattle.std.specs.Option.{option_map};
ghost use Rattle.type_world.specs.World.{rows_of_world};
ghost use Rattle.type_world.specs.Numbers.{method_number, place_among, type_number};

use crate::assemblies::Assemblies;
use crate::identity::{BUILT_IN, MethodId, TypeId};
use cli_assembly::Assembly;
use metadata::Table;

/// How many built-in methods there are.
pub(crate) const BUILT_IN_METHODS: u32 = 8;
/// The number of the first row of TypeDef.
pub(crate) const FIRST_CLASS: u32 = 16;

/// How many rows a table has in some assemblies.
pub(crate) fn rows_of(assemblies: &[Assembly], table: Table) -> u32
    requires { length assemblies.now ≤ 64 }
    ensures rows { result ≡ rows_of_world (world_of assemblies.now) table }
    ensures few { result ≤ length assemblies.now * 2 ^ 24 }
{
    let mut rows = 0;
    for assembly in assemblies {
        rows += assembly.rows(table);
    }
    rows
}

/// A number that is so far after a place.
fn after(first: u32, place: Option<u32>) -> Option<u32>
    requires first { first < 2 ^ 31 }
    requires few { IfSome place (λ n. n < 2 ^ 31) }
    ensures { result ≡ option_map (λ n. first + n) place }
{
    match place {
        Some(n) => Some(first + n),
        None => None,
    }
}

impl Assemblies {
    /// How many rows a table has in all assemblies.
    pub(crate) fn rows_of_all(&self, table: Table) -> u32
        ensures rows { result ≡ rows_of_world (world_of self.now) table }
        ensures few { result ≤ 2 ^ 30 }
    {
        rows_of(self.assemblies_before(self.count()), table)
    }

    /// The place of a row among those of all assemblies, from 0.
    fn place_among(&self, table: Table, asm: u8, row: u32) -> Option<u32>
        ensures place { result ≡ place_among (world_of self.now) table asm row }
        ensures few { IfSome result (λ place. place < 2 ^ 31) }
    {
        if self.has_row(table, asm, row) {
            Some(rows_of(self.assemblies_before(asm), table) + (row - 1))
        } else {
            None
        }
    }

    /// The number of a method: the built-in ones have 0 to 7, and the rows of MethodDef follow. `None` exactly where there is no such
    /// method.
    #[tactic(auto, unfolding(crate::specs::Numbers::method_number))]
    pub(crate) fn method_number(&self, method: MethodId) -> Option<u32>
        ensures { result ≡ method_number (world_of self.now) method }
    {
        if method.asm != BUILT_IN {
            return after(
                BUILT_IN_METHODS,
                self.place_among(Table::MethodDef, method.asm, method.row),
            );
        }
        if 1 <= method.row && method.row <= BUILT_IN_METHODS {
            Some(method.row - 1)
        } else {
            None
        }
    }

    /// The number of a type: `System.Object` 0, `System.String` 1, `System.Console` 12, an array that of its element type, and a row of
    /// TypeDef 16 and its place. `None` exactly where there is no such row.
    #[tactic(auto, unfolding(crate::specs::Numbers::type_number))]
    pub(crate) fn type_number(&self, of: TypeId) -> Option<u32>
        ensures { result ≡ type_number (world_of self.now) of }
    {
        match of {
            TypeId::Object => Some(0),
            TypeId::Str => Some(1),
            TypeId::Console => Some(12),
            TypeId::Array(elem) => Some(elem.number() as u32),
            TypeId::Class(asm, row) => after(
                FIRST_CLASS,
                self.place_among(Table::TypeDef, asm, row),
            ),
        }
    }
}
