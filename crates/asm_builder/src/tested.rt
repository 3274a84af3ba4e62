//! The tests of a draft: each answers whether the same call leaves a sound record.

ghost use Rattle.std.specs.Prelude.{◌≡◌, ◌↔◌, ◌<◌, ◌+◌, ◌^◌, ◌&&◌, not, length, IsTrue, if◌then◌else◌};
ghost use Rattle.std.specs.List.{list_all};
ghost use Rattle.cli_assembly.specs.Shortest.{is_writable_type, local_sig_bytes, method_sig_bytes};
ghost use Rattle.metadata.specs.declared.schema.Table.TheVariants as tables;
ghost use Rattle.asm_builder.specs.Asked.{method, only_name, with_assembly_ref, with_attribute, with_field, with_member_ref, with_method, with_type_def, with_type_ref, with_user_string};
ghost use Rattle.asm_builder.specs.Cells.{is_empty, user_string_bytes};
ghost use Rattle.asm_builder.specs.Sound.{IsSound, are_bytes, are_writable_locals, code_size, is_writable_sig};
ghost use Rattle.asm_builder.specs.Tested.{FitsAssemblyRef, FitsAttribute, FitsField, FitsMemberRef, FitsMethod, FitsName, FitsTypeDef, FitsTypeRef, FitsUserString, HasRoom, blob_room, capped, text_room};

use crate::builder::user_string_len;
use crate::draft::Draft;
use crate::room::{
    blob_room, bytes_room, capped, field_room, local_sig_len, method_sig_len, text_room,
};
use crate::tokens::is_name;
use cli_assembly::{MethodSig, TypeSig};
use metadata::{CodedKind, Table};

/// Each heap, and all codes together, stay below this size, and so does the number of rows of a table.
const LIMIT: u64 = 1 << 24;
/// A signature has fewer types than this.
const TYPES: usize = 1 << 29;

/// Whether a type has a spelling in a signature.
#[tactic(auto, using(crate::proofs::Booleans::same_tests))]
fn is_writable(of: TypeSig) -> bool
    ensures { result ≡ is_writable_type of }
{
    of.is_writable()
}

/// Whether each type has one.
fn are_writable(types: &[TypeSig]) -> bool
    ensures { result ≡ list_all is_writable_type types.now }
{
    types.iter().all(|of| is_writable(*of))
}

/// Whether a method's signature has a spelling.
fn is_writable_sig(sig: &MethodSig) -> bool
    ensures { result ≡ is_writable_sig sig.now }
{
    sig.params.len() < TYPES && is_writable(sig.ret) && are_writable(sig.params.as_slice())
}

/// Whether the signature of locals has a spelling.
fn are_writable_locals(locals: &[TypeSig]) -> bool
    ensures { result ≡ are_writable_locals locals.now }
{
    locals.len() < TYPES && are_writable(locals)
}

/// Whether each byte is one. Contracts see bytes as numbers; the type has no others.
fn are_bytes(code: &[u8]) -> bool
    ensures { result ≡ are_bytes code.now }
{
    code.iter().all(|b| u32::from(*b) < 256)
}

/// What a method with these locals and this code takes for the signature of its locals.
fn locals_room(locals: &[TypeSig], code: &[u8]) -> u32
    requires { length locals.now < 2 ^ 29 }
    ensures { result ≡ (if not (is_empty code.now) && not (is_empty locals.now) then blob_room (local_sig_bytes locals.now) else 0) }
{
    if code.is_empty() || locals.is_empty() {
        0
    } else {
        blob_room(local_sig_len(locals))
    }
}

/// What a method's signatures take.
pub(crate) fn method_blobs(sig: &MethodSig, locals: &[TypeSig], code: &[u8]) -> u32
    requires params { length sig.now.params < 2 ^ 29 }
    requires locals { length locals.now < 2 ^ 29 }
    ensures { result ≡ blob_room (method_sig_bytes sig.now)
        + (if not (is_empty code.now) && not (is_empty locals.now) then blob_room (local_sig_bytes locals.now) else 0) }
{
    blob_room(method_sig_len(sig)) + locals_room(locals, code)
}

/// What a user string takes, with its length and its last byte.
#[tactic(auto, using(crate::proofs::Booleans::string_len))]
fn user_string_room(units: &[u16]) -> u32
    ensures { result ≡ capped (length (user_string_bytes units.now)) }
{
    if units.len() < LIMIT as usize {
        capped(user_string_len(units.len()) as usize)
    } else {
        LIMIT as u32
    }
}

/// Whether [`Draft::new`] takes a name: it has no zero, and there is room for it twice.
pub fn can_new(name: &str) -> bool
    ensures { IsTrue result ↔ IsSound (only_name name.now) }
{
    fits_name(name)
}

fn fits_name(name: &str) -> bool
    ensures { IsTrue result ↔ FitsName name.now }
{
    is_name(name) && u64::from(text_room(name)) + u64::from(text_room(name)) + 1 < LIMIT
}

impl Draft {
    /// Whether there is room for one row more in a table, and for so many bytes more in the heaps.
    #[tactic(auto, using(crate::proofs::CountsWith::rows_in_is))]
    fn has_room(&self, table: Table, strings: u32, blobs: u32) -> bool
        ensures { IsTrue result ↔ HasRoom self.now table strings blobs }
    {
        let rows = self.builder.rows_len(table.number());
        rows < LIMIT as usize - 1
            && u64::from(self.strings) + u64::from(strings) < LIMIT
            && u64::from(self.blobs) + u64::from(blobs) < LIMIT
    }

    fn fits_assembly_ref(&self, name: &str) -> bool
        ensures fits { IsTrue result ↔ FitsAssemblyRef self.now name.now }
        ensures sound { IsSound self.now }
    {
        let _strings = self.strings;
        is_name(name) && self.has_room(Table::AssemblyRef, text_room(name), 0)
    }

    /// Whether [`Draft::assembly_ref`] takes this.
    pub fn can_assembly_ref(&self, name: &str) -> bool
        ensures { IsTrue result ↔ IsSound (with_assembly_ref self.now name.now) }
    {
        self.fits_assembly_ref(name)
    }

    fn fits_type_ref(&self, parent: u32, space: &str, name: &str) -> bool
        ensures fits { IsTrue result ↔ FitsTypeRef self.now parent space.now name.now }
        ensures sound { IsSound self.now }
    {
        let room = text_room(name) + text_room(space);
        self.builder
            .takes(Table::TypeRef, CodedKind::ResolutionScope, parent)
            && is_name(space)
            && is_name(name)
            && self.has_room(Table::TypeRef, room, 0)
    }

    /// Whether [`Draft::type_ref`] takes these.
    pub fn can_type_ref(&self, parent: u32, space: &str, name: &str) -> bool
        ensures { IsTrue result ↔ IsSound (with_type_ref self.now parent space.now name.now) }
    {
        self.fits_type_ref(parent, space, name)
    }

    fn fits_type_def(&self, space: &str, name: &str, base: u32) -> bool
        ensures fits { IsTrue result ↔ FitsTypeDef self.now space.now name.now base }
        ensures sound { IsSound self.now }
    {
        let room = text_room(name) + text_room(space);
        (base == 0
            || self
                .builder
                .takes(Table::TypeDef, CodedKind::TypeDefOrRef, base))
            && is_name(space)
            && is_name(name)
            && self.builder.can_number()
            && self.has_room(Table::TypeDef, room, 0)
    }

    /// Whether [`Draft::type_def`] takes these.
    pub fn can_type_def(&self, flags: u32, space: &str, name: &str, base: u32) -> bool
        ensures { IsTrue result ↔ IsSound (with_type_def self.now flags space.now name.now base) }
    {
        self.fits_type_def(space, name, base)
    }

    fn fits_field(&self, name: &str, sig: TypeSig) -> bool
        ensures fits { IsTrue result ↔ FitsField self.now name.now sig }
        ensures sound { IsSound self.now }
    {
        self.builder.has_type()
            && is_name(name)
            && is_writable(sig)
            && self.has_room(Table::Field, text_room(name), field_room(sig))
    }

    /// Whether [`Draft::field`] takes these.
    pub fn can_field(&self, flags: u16, name: &str, sig: TypeSig) -> bool
        ensures { IsTrue result ↔ IsSound (with_field self.now flags name.now sig) }
    {
        self.fits_field(name, sig)
    }

    /// Whether there is room for so many bytes of code.
    fn has_code_room(&self, len: usize) -> bool
        ensures { IsTrue result ↔ (code_size self.now.methods + capped len < 2 ^ 24) }
    {
        u64::from(self.code) + u64::from(capped(len)) < LIMIT
    }

    /// Whether there is room for a method's row, and for that of its locals.
    fn has_method_room(&self, name: &str, sig: &MethodSig, locals: &[TypeSig], code: &[u8]) -> bool
        requires params { length sig.now.params < 2 ^ 29 }
        requires locals { length locals.now < 2 ^ 29 }
        ensures { IsTrue result ↔ HasRoom self.now tables.MethodDef (text_room name.now) (blob_room (method_sig_bytes sig.now)
            + (if not (is_empty code.now) && not (is_empty locals.now) then blob_room (local_sig_bytes locals.now) else 0)) }
    {
        let blobs = method_blobs(sig, locals, code);
        self.has_room(Table::MethodDef, text_room(name), blobs)
    }

    #[tactic(auto, using(crate::proofs::Booleans::sig_few, crate::proofs::Booleans::locals_few))]
    fn fits_method(
        &self,
        flags: u16,
        name: &str,
        sig: &MethodSig,
        max_stack: u16,
        locals: &[TypeSig],
        code: &[u8],
    ) -> bool
        ensures fits { IsTrue result ↔ FitsMethod self.now (method flags name.now sig.now max_stack locals.now code.now) }
        ensures sound { IsSound self.now }
    {
        let _code = self.code;
        self.builder.has_type()
            && is_name(name)
            && is_writable_sig(sig)
            && are_writable_locals(locals)
            && are_bytes(code)
            && self.has_code_room(code.len())
            && self.has_method_room(name, sig, locals, code)
    }

    /// Whether [`Draft::method`] takes these.
    pub fn can_method(
        &self,
        flags: u16,
        name: &str,
        sig: &MethodSig,
        max_stack: u16,
        locals: &[TypeSig],
        code: &[u8],
    ) -> bool
        ensures signatures { IsTrue result → (length sig.now.params < 2 ^ 29) × (length locals.now < 2 ^ 29) }
        ensures sound { IsTrue result ↔ IsSound (with_method self.now (method flags name.now sig.now max_stack locals.now code.now)) }
    {
        self.fits_method(flags, name, sig, max_stack, locals, code)
    }

    fn fits_member_ref(&self, parent: u32, name: &str, sig: &[u8]) -> bool
        ensures fits { IsTrue result ↔ FitsMemberRef self.now parent name.now sig.now }
        ensures sound { IsSound self.now }
    {
        self.builder
            .takes(Table::MemberRef, CodedKind::MemberRefParent, parent)
            && is_name(name)
            && self.has_room(Table::MemberRef, text_room(name), bytes_room(sig))
    }

    /// Whether [`Draft::member_ref`] takes these.
    pub fn can_member_ref(&self, parent: u32, name: &str, sig: &[u8]) -> bool
        ensures { IsTrue result ↔ IsSound (with_member_ref self.now parent name.now sig.now) }
    {
        self.fits_member_ref(parent, name, sig)
    }

    fn fits_user_string(&self, units: &[u16]) -> bool
        ensures fits { IsTrue result ↔ FitsUserString self.now units.now }
        ensures sound { IsSound self.now }
    {
        u64::from(self.builder.user_heap_len()) + u64::from(user_string_room(units)) < LIMIT
    }

    /// Whether [`Draft::user_string`] takes this.
    pub fn can_user_string(&self, units: &[u16]) -> bool
        ensures { IsTrue result ↔ IsSound (with_user_string self.now units.now) }
    {
        self.fits_user_string(units)
    }

    fn fits_attribute(&self, parent: u32, constructor: u32, value: &[u8]) -> bool
        ensures fits { IsTrue result ↔ FitsAttribute self.now parent constructor value.now }
        ensures sound { IsSound self.now }
    {
        self.builder.takes(
            Table::CustomAttribute,
            CodedKind::HasCustomAttribute,
            parent,
        ) && self.builder.takes(
            Table::CustomAttribute,
            CodedKind::CustomAttributeType,
            constructor,
        ) && self.has_room(Table::CustomAttribute, 0, bytes_room(value))
    }

    /// Whether [`Draft::attribute`] takes these.
    pub fn can_attribute(&self, parent: u32, constructor: u32, value: &[u8]) -> bool
        ensures { IsTrue result ↔ IsSound (with_attribute self.now parent constructor value.now) }
    {
        self.fits_attribute(parent, constructor, value)
    }
}
