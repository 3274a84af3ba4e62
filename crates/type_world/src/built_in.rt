//! The built-in methods, by row from 1.

ghost use Rattle.std.specs.Prelude.{◌≡◌, ◌≤◌, Some};
ghost use Rattle.std.specs.Option.{option_map};
ghost use Rattle.type_world.specs.BuiltIns.{as_built_in};
ghost use Rattle.type_world.specs.Members.{built_in, write_line};

use crate::identity::TypeId;
use cli_assembly::{Elem, TypeSig};

/// A built-in method.
#[derive(Clone, Copy)]
pub(crate) struct BuiltInMethod {
    /// The type that declares it.
    pub of: TypeId,
    /// Its name.
    pub name: &'static str,
    /// Whether it takes `this`.
    pub has_this: bool,
    /// Its result.
    pub ret: TypeSig,
    /// Its parameters, without `this`.
    pub params: &'static [TypeSig],
}

/// The parameters of `System.Console.WriteLine` of a row.
fn written(row: u32) -> &'static [TypeSig]
    requires first { 2 ≤ row }
    requires last { row ≤ 7 }
    ensures { Some (write_line result.now) ≡ built_in row }
{
    if row == 2 {
        &[]
    } else if row == 3 {
        &[TypeSig::Int(Elem::I4)]
    } else if row == 4 {
        &[TypeSig::Int(Elem::U4)]
    } else if row == 5 {
        &[TypeSig::Int(Elem::I8)]
    } else if row == 6 {
        &[TypeSig::Int(Elem::U8)]
    } else {
        &[TypeSig::Str]
    }
}

/// The built-in method of a row, from 1. `None` exactly where there is no such row.
pub(crate) fn built_in(row: u32) -> Option<BuiltInMethod>
    ensures { option_map as_built_in result ≡ built_in row }
{
    if row < 1 {
        None
    } else if row < 2 {
        Some(BuiltInMethod {
            of: TypeId::Object,
            name: ".ctor",
            has_this: true,
            ret: TypeSig::Void,
            params: &[],
        })
    } else if row < 8 {
        Some(BuiltInMethod {
            of: TypeId::Console,
            name: "WriteLine",
            has_this: false,
            ret: TypeSig::Void,
            params: written(row),
        })
    } else if row < 9 {
        Some(BuiltInMethod {
            of: TypeId::Str,
            name: "get_Length",
            has_this: true,
            ret: TypeSig::Int(Elem::I4),
            params: &[],
        })
    } else {
        None
    }
}
