//! The methods that rows of MemberRef name (ECMA-335 II.22.25): by name and signature, in the parent and then up its base chain.

ghost use Rattle.std.specs.Prelude.{◌≡◌, ◌<◌, find, option_copied};
ghost use Rattle.cli_assembly.specs.Assemblies.{assembly_of, coded_token, column, member_method_signature, methods_of, rows_between};
ghost use Rattle.std.specs.Option.{option_and_then};
ghost use Rattle.metadata.specs.declared.schema.CodedKind.TheVariants as kinds;
ghost use Rattle.metadata.specs.declared.schema.Table.TheVariants as tables;
ghost use Rattle.type_world.specs.Loading.{world_of};
ghost use Rattle.type_world.specs.Members.{built_in_rows, first_in, has_signature, member_method, member_parent, where_looked};
ghost use Rattle.type_world.specs.MethodRefs.{is_wanted, is_wanted_built_in, wanted_in};
ghost use Rattle.type_world.specs.Resolution.{chain_of, resolve_type};
ghost use Rattle.type_world.specs.World.{assembly_in};

use crate::assemblies::Assemblies;
use crate::base::Base;
use crate::built_in::built_in;
use crate::identity::{BUILT_IN, MethodId, TypeId};
use crate::numbers::BUILT_IN_METHODS;
use crate::signatures::{same_class, same_id};
use crate::types::Types;
use cli_assembly::{Assembly, MethodSig};
use metadata::{CodedKind, Table};
use std::ops::Range;

/// Name, a column of MethodDef (ECMA-335 II.22.26).
const METHOD_NAME: u8 = 3;
/// Class, a column of MemberRef (ECMA-335 II.22.25).
const MEMBER_CLASS: u8 = 0;
/// Name, a column of MemberRef.
const MEMBER_NAME: u8 = 1;

/// A reference to a method: its name, and its signature, whose tokens are those of the assembly at a position.
#[derive(Clone, Copy)]
pub(crate) struct MethodRef<'a> {
    /// The position of the assembly.
    pub asm: u8,
    /// The name.
    pub name: &'a str,
    /// The signature.
    pub sig: &'a MethodSig,
}

/// The token of the parent of a row of MemberRef.
fn class_token(assembly: &Assembly, row: u32) -> Option<u32>
    ensures { result ≡ coded_token (assembly_of assembly.now) kinds.MemberRefParent (column (assembly_of assembly.now) tables.MemberRef row 0) }
{
    let class = assembly.column(Table::MemberRef, row, MEMBER_CLASS);
    assembly.coded(CodedKind::MemberRefParent, class)
}

impl Assemblies {
    /// The signature of a method that a row of MemberRef names, in the assembly at a position. `None` exactly where there is no such row,
    /// or it has no signature of the form.
    fn member_sig(&self, asm: u8, row: u32) -> Option<&MethodSig>
        ensures { option_copied result ≡ member_method_signature (assembly_in (world_of self.now) asm) row }
    {
        match self.assembly(asm) {
            Some(assembly) => assembly.member_method_sig(row),
            None => None,
        }
    }
}

impl Types {
    /// Whether a row of MethodDef has a signature that equals the one that is asked for.
    fn has_signature(&self, wanted: &MethodRef<'_>, method: MethodId) -> bool
        requires { method.asm < BUILT_IN }
        ensures { result ≡ has_signature (world_of self.now) wanted.now.asm wanted.now.sig.now method }
    {
        match self.assemblies().signature_of(method) {
            Some(sig) => self.same_signature(wanted.asm, wanted.sig, method.asm, sig),
            None => false,
        }
    }

    /// Whether a row of MethodDef has the name and the signature that are asked for.
    fn is_method(&self, wanted: &MethodRef<'_>, asm: u8, row: u32) -> bool
        requires { asm < BUILT_IN }
        ensures { result ≡ is_wanted (world_of self.now) wanted.now asm row }
    {
        self.assemblies()
            .names_text(Table::MethodDef, asm, row, METHOD_NAME, wanted.name)
            && self.has_signature(wanted, MethodId { asm, row })
    }

    /// The first of some rows of MethodDef with the name and the signature that are asked for.
    fn first_method(&self, wanted: &MethodRef<'_>, asm: u8, rows: Range<u32>) -> Option<u32>
        requires { asm < BUILT_IN }
        ensures { result ≡ find (is_wanted (world_of self.now) wanted.now asm) (rows_between rows.start rows.end) }
    {
        for row in rows.start..rows.end {
            if self.is_method(wanted, asm, row) {
                return Some(row);
            }
        }
        None
    }

    /// The first row in the list of a class with the name and the signature that are asked for.
    fn method_of_class(&self, wanted: &MethodRef<'_>, asm: u8, class: u32) -> Option<u32>
        ensures { result ≡ find (is_wanted (world_of self.now) wanted.now asm) (methods_of (assembly_in (world_of self.now) asm) class) }
    {
        if self.assemblies().count() <= asm {
            return None;
        }
        self.first_method(wanted, asm, self.assemblies().methods_at(asm, class))
    }

    /// Whether a built-in method is of a type, and has the name and the signature that are asked for.
    fn is_built_in_method(&self, wanted: &MethodRef<'_>, of: TypeId, row: u32) -> bool
        ensures { result ≡ is_wanted_built_in (world_of self.now) wanted.now of row }
    {
        match built_in(row) {
            Some(method) => {
                same_id(method.of, of)
                    && method.name == wanted.name
                    && self.same_built_in(wanted.asm, wanted.sig, method)
            }
            None => false,
        }
    }

    /// The first built-in method of a type with the name and the signature that are asked for, by its row.
    fn built_in_method(&self, wanted: &MethodRef<'_>, of: TypeId) -> Option<u32>
        ensures { result ≡ find (is_wanted_built_in (world_of self.now) wanted.now of) built_in_rows }
    {
        for before in 0..BUILT_IN_METHODS {
            if self.is_built_in_method(wanted, of, before + 1) {
                return Some(before + 1);
            }
        }
        None
    }

    /// The first method of a type with the name and the signature that are asked for. It goes through the methods that the type lists.
    #[tactic(auto, unfolding(crate::specs::Members::method_in))]
    fn method_in(&self, wanted: &MethodRef<'_>, of: TypeId) -> Option<MethodId>
        ensures { result ≡ wanted_in (world_of self.now) wanted.now of }
    {
        match of {
            TypeId::Class(asm, class) => match self.method_of_class(wanted, asm, class) {
                Some(row) => Some(MethodId { asm, row }),
                None => None,
            },
            _ => match self.built_in_method(wanted, of) {
                Some(row) => Some(MethodId { asm: BUILT_IN, row }),
                None => None,
            },
        }
    }

    /// The first method with the name and the signature that are asked for, in a type and then up its base chain. It goes through the
    /// methods that the types of that chain list; where the chain comes back to one of its types, it goes through each list at most twice.
    fn method_up(&self, wanted: &MethodRef<'_>, of: TypeId) -> Option<MethodId>
        ensures { result ≡ first_in (wanted_in (world_of self.now) wanted.now) (chain_of (world_of self.now) of) }
    {
        let repeated = self.repeated(of);
        let mut at = of;
        let mut remembered = of;
        for steps in 0..self.longest_chain() {
            if let Some(method) = self.method_in(wanted, at) {
                return Some(method);
            }
            match self.base_of(at) {
                Base::Extends(base) => at = base,
                _ => return None,
            }
            if same_id(at, remembered) {
                return None;
            }
            if same_class(repeated, Some(at)) {
                remembered = at;
            }
        }
        None
    }

    /// The method that is asked for of a type: a constructor in the type alone, any other up the base chain.
    fn method_with(&self, wanted: &MethodRef<'_>, of: TypeId) -> Option<MethodId>
        ensures { result ≡ first_in (wanted_in (world_of self.now) wanted.now) (where_looked (world_of self.now) wanted.now.name.now of) }
    {
        if wanted.name == ".ctor" {
            self.method_in(wanted, of)
        } else {
            self.method_up(wanted, of)
        }
    }

    /// The type that a token names, where there is a token.
    fn type_named_by(&self, asm: u8, token: Option<u32>) -> Option<TypeId>
        ensures { result ≡ option_and_then (resolve_type (world_of self.now) asm) token }
    {
        match token {
            Some(token) => self.resolve_type(asm, token),
            None => None,
        }
    }

    /// The parent of a row of MemberRef: a TypeDef, or a TypeRef that resolves. `None` exactly where it is none of these.
    pub(crate) fn member_parent(&self, asm: u8, row: u32) -> Option<TypeId>
        ensures { result ≡ member_parent (world_of self.now) asm row }
    {
        match self.assemblies().assembly(asm) {
            Some(assembly) => self.type_named_by(asm, class_token(assembly, row)),
            None => None,
        }
    }

    /// The method that a row of MemberRef names. `None` exactly where there is no such row, its signature is not that of a method, its
    /// parent doesn't resolve, or no method is found.
    #[tactic(auto, unfolding(crate::specs::Members::member_method))]
    pub(crate) fn member_method(&self, asm: u8, row: u32) -> Option<MethodId>
        ensures { result ≡ member_method (world_of self.now) asm row }
    {
        let sig = self.assemblies().member_sig(asm, row)?;
        let parent = self.member_parent(asm, row)?;
        let name = self
            .assemblies()
            .text_at(Table::MemberRef, asm, row, MEMBER_NAME);
        self.method_with(&MethodRef { asm, name, sig }, parent)
    }
}
