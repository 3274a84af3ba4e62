//! An assembly, read whole.

ghost use Rattle.std.specs.Prelude.{◌≡◌, ◌≤◌, ◌+◌, ◌^◌, None, Some, length, option_copied, IfErr, IfOk, IfSome, OnOk};
ghost use Rattle.std.specs.Option.{option_map};
ghost use Rattle.rtr_bytes.specs.Checks.{RefusedBy, first_fault};
ghost use Rattle.pe_image.specs.Headers.{headers_of};
ghost use Rattle.metadata.specs.declared.schema.Table.TheVariants as tables;
ghost use Rattle.cli_assembly.specs.Assemblies.{
  assembly_name,
  assembly_of,
  body_of,
  field_signature,
  local_signature,
  member_field_signature,
  member_method_signature,
  method_signature,
  placed_in,
};
ghost use Rattle.cli_assembly.specs.Bodies.{with_code};
ghost use Rattle.cli_assembly.specs.Checks.{assembly_checks};
ghost use Rattle.cli_assembly.specs.Kept.{answer_of, by_row, file_layout, nth_row};
ghost use Rattle.cli_assembly.specs.Named.{IsWellFormed};

use crate::body::Body;
use crate::parts::Parts;
use crate::signature::{MethodSig, TypeSig};
use metadata::{Metadata, Table};
use pe_image::Pe;
use rtr_bytes::{ReadRefusal, Sequence};
use std::alloc::Global;
use std::marker::Model;

/// The column of Assembly that has its Name (ECMA-335 II.22.2).
const ASSEMBLY_NAME: u8 = 7;

/// The item of a row, from 1.
#[tactic(auto, unfolding(crate::specs::Kept::nth_row))]
fn nth_row<T>(items: &[T], row: u32) -> Option<&T>
    ensures { option_copied result ≡ nth_row items.now row }
{
    if row == 0 {
        None
    } else {
        items.get(row as usize - 1)
    }
}

/// The answer of a row, from 1, where it has one.
fn answer_of<T>(items: &[Option<T>], row: u32) -> Option<&T>
    ensures { option_copied result ≡ answer_of items.now row }
{
    nth_row(items, row)?.as_ref()
}

/// The types of the locals of a row, from 1, where it has some.
fn types_of(locals: &[Option<Sequence<TypeSig>>], row: u32) -> Option<&[TypeSig]>
    ensures { option_copied result ≡ answer_of locals.now row }
{
    Some(answer_of(locals, row)?.as_slice())
}

/// An assembly: a file's bytes, with what is read in them. It is seen as the bytes; what they stand for is the record
/// `assembly_of`. After reading no call takes memory, and each but `name` takes constant time.
#[derive(Debug, Drop)]
pub struct Assembly {
    bytes: Vec<u8>,
    parts: Parts,
}

impl Model for Assembly {
    ghost use Rattle.std.specs.Prelude.{ℕ, List};
    ghost use Rattle.cli_assembly.specs.Kept.{IsReadFrom};

    ghost Value = { List ℕ };

    ghost view = { λ a. a.bytes.items };

    ghost invariant = { λ a. IsReadFrom a.bytes.items a.parts };
}

impl Assembly {
    /// The assembly of a file's bytes, of which there are at most 2^31. `Malformed` names the first of the checks 1 to 14, 30 to 43,
    /// 50 and 51 that fails, with its place; the bytes are dropped then. `NoMemory` comes where memory is refused, and where the blobs
    /// of all signatures together, each as often as rows name it and those of MemberRef twice, have more than 32 times the bytes of the file.
    pub fn read(alloc: Global, bytes: Vec<u8>) -> Result<Assembly, ReadRefusal>
        requires small { length bytes.items ≤ 2 ^ 31 }
        ensures malformed { IfErr result (λ e. RefusedBy (first_fault (assembly_checks bytes.items) bytes.items) e) }
        ensures well_formed { OnOk result (first_fault (assembly_checks bytes.items) bytes.items ≡ None) }
        ensures bytes { IfOk result (λ assembly. assembly ≡ bytes.items) }
    {
        let parts = Parts::read(alloc, &bytes)?;
        Ok(Assembly { bytes, parts })
    }

    /// The file's bytes. There are at most 2^31, and they pass all checks.
    pub fn bytes(&self) -> &[u8]
        ensures bytes { result.now ≡ self.now }
        ensures small { length self.now ≤ 2 ^ 31 }
        ensures well_formed { IsWellFormed self.now }
    {
        &self.bytes
    }

    /// The PE headers and the CLI header.
    pub fn pe(&self) -> &Pe
        ensures { result.now ≡ headers_of self.now }
    {
        &self.parts.pe
    }

    /// Where the tables and the heaps are.
    pub fn metadata(&self) -> &Metadata
        ensures layout { result.now ≡ file_layout self.now }
        ensures well_formed { IsWellFormed self.now }
    {
        &self.parts.metadata
    }

    /// The simple name: Name of the one row of Assembly (ECMA-335 II.22.2).
    pub fn name(&self) -> &str
        ensures { Some result.now ≡ assembly_name (assembly_of self.now) }
    {
        let at = self.column(Table::Assembly, 1, ASSEMBLY_NAME);
        let text = self.metadata().string(self.bytes(), at);
        text.unwrap_or("")
    }

    /// The signature of the method of a MethodDef row, from 1. `None` exactly where there is no such row, or its blob spells no
    /// signature of a method.
    pub fn method_sig(&self, row: u32) -> Option<&MethodSig>
        ensures { option_copied result ≡ method_signature (assembly_of self.now) row }
    {
        answer_of(&self.parts.methods, row)
    }

    /// The type of the field of a Field row, from 1. `None` exactly where there is no such row, or its blob spells no signature of
    /// a field.
    pub fn field_sig(&self, row: u32) -> Option<TypeSig>
        ensures { result ≡ field_signature (assembly_of self.now) row }
    {
        answer_of(&self.parts.fields, row).copied()
    }

    /// The body of the method of a MethodDef row, from 1, with its code as a range that is in the file. `None` exactly where there
    /// is no such row, its RVA is 0, or its low three ImplFlags are not 0.
    pub fn body(&self, row: u32) -> Option<Body>
        ensures body { option_map (with_code self.now) result ≡ body_of (assembly_of self.now) row }
        ensures placed { result ≡ answer_of (by_row (file_layout self.now) tables.MethodDef (placed_in self.now (file_layout self.now))) row }
        ensures inside { IfSome result (λ body. body.code.start + body.code.len ≤ length self.now) }
    {
        answer_of(&self.parts.bodies, row).copied()
    }

    /// The types of the locals that a StandAloneSig row names, from 1. `None` exactly where there is no such row, or its blob spells
    /// no signature of locals.
    pub fn local_sig(&self, row: u32) -> Option<&[TypeSig]>
        ensures { option_copied result ≡ local_signature (assembly_of self.now) row }
    {
        types_of(&self.parts.locals, row)
    }

    /// The signature of a method that a MemberRef row names, from 1. `None` exactly where there is no such row, or its blob spells
    /// no signature of a method.
    pub fn member_method_sig(&self, row: u32) -> Option<&MethodSig>
        ensures { option_copied result ≡ member_method_signature (assembly_of self.now) row }
    {
        answer_of(&self.parts.member_methods, row)
    }

    /// The type of a field that a MemberRef row names, from 1. `None` exactly where there is no such row, or its blob spells no
    /// signature of a field.
    pub fn member_field_sig(&self, row: u32) -> Option<TypeSig>
        ensures { result ≡ member_field_signature (assembly_of self.now) row }
    {
        answer_of(&self.parts.member_fields, row).copied()
    }
}
