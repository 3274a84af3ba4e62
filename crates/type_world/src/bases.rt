//! What types extend (ECMA-335 II.22.37).

ghost use Rattle.std.specs.Prelude.{◌≡◌, ◌⊎◌, ◌<◌, ◌^◌, Some, slice_get};
ghost use Rattle.std.specs.List.{list_any};
ghost use Rattle.type_world.specs.declared.identity.TypeId.TheVariants as types;
ghost use Rattle.type_world.specs.Loading.{world_of};
ghost use Rattle.type_world.specs.Resolution.{base_by_token, base_of, base_of_class, base_type, chain_of, type_eq};

use crate::base::Base;
use crate::identity::TypeId;
use crate::types::Types;
use cli_assembly::Assembly;
use metadata::{CodedKind, Table};

/// Extends, a column of TypeDef (ECMA-335 II.22.37).
const EXTENDS: u8 = 3;
/// How many tags a coded TypeDefOrRef has (ECMA-335 II.24.2.6).
const TAGS: u32 = 4;

/// Whether two types are one.
pub(crate) fn is_type(of: TypeId, other: TypeId) -> bool
    ensures { result ≡ type_eq of other }
{
    of == other
}

/// The mark after a step of a walk: it is set anew at the steps 0, 1, 3, 7 and so on, so that a walk that comes back to a type meets a mark
/// soon.
pub(crate) fn mark_after(step: u32, mark: TypeId, base: TypeId) -> TypeId
    requires { step < 2 ^ 31 }
    ensures { (result ≡ mark) ⊎ (result ≡ base) }
{
    if step & (step + 1) == 0 { base } else { mark }
}

/// A type as a base, or what doesn't resolve.
fn base_type(of: Option<TypeId>) -> Base
    ensures { result ≡ base_type of }
{
    match of {
        Some(of) => Base::Extends(of),
        None => Base::UnresolvedBase,
    }
}

impl Types {
    /// The base that a token of an assembly names.
    fn base_by_token(&self, asm: u8, token: Option<u32>) -> Base
        ensures { result ≡ base_by_token (world_of self.now) asm token }
    {
        match token {
            Some(token) => base_type(self.resolve_type(asm, token)),
            None => Base::UnresolvedBase,
        }
    }

    /// The base that the coded TypeDefOrRef of a class names. Row 0 is null, of which nothing is extended.
    fn base_in(&self, assembly: &Assembly, asm: u8, extends: u32) -> Base
        requires { slice_get self.now asm ≡ Some assembly.now }
        ensures { result ≡ base_of_class (world_of self.now) asm extends }
    {
        if extends / TAGS == 0 {
            return Base::NoBase;
        }
        self.base_by_token(asm, assembly.coded(CodedKind::TypeDefOrRef, extends))
    }

    /// What a row of TypeDef extends.
    pub(crate) fn class_base(&self, asm: u8, row: u32) -> Base
        ensures { result ≡ base_of (world_of self.now) (types.Class asm row) }
    {
        match self.assemblies().assembly(asm) {
            Some(assembly) => self.base_in(
                assembly,
                asm,
                assembly.column(Table::TypeDef, row, EXTENDS),
            ),
            None => Base::NoBase,
        }
    }

    /// Whether a type is another one, or one of those that it extends. The chain is walked once, to its end or until it comes
    /// back to one of its types.
    pub(crate) fn extends(&self, of: TypeId, to: TypeId) -> bool
        ensures { result ≡ list_any (type_eq to) (chain_of (world_of self.now) of) }
    {
        let mut base = of;
        let mut mark = of;
        for step in 0..self.longest_chain() {
            if is_type(to, base) {
                return true;
            }
            match self.base_of(base) {
                Base::Extends(next) => base = next,
                Base::NoBase => return false,
                Base::UnresolvedBase => return false,
            }
            if is_type(base, mark) {
                return false;
            }
            mark = mark_after(step, mark, base);
        }
        false
    }
}
