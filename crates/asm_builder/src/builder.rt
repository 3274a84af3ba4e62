//! The builder and its calls.

ghost use Rattle.std.specs.Prelude.{◌≡◌, ◌+◌, ◌*◌, ◌^◌, ◌<◌, ◌≤◌, length, IfOk, OnOk, OnErr};
ghost use Rattle.metadata.specs.declared.schema.Table.TheVariants as tables;
ghost use Rattle.rtr_bytes.specs.Compressed.{compressed_bytes};
ghost use Rattle.metadata.specs.Heaps.{token};
ghost use Rattle.metadata.specs.Schema.{table_number};
ghost use Rattle.asm_builder.specs.Asked.{last_token, method, only_name, with_assembly_ref, with_attribute, with_field, with_member_ref, with_method, with_type_def, with_type_ref, with_user_string};
ghost use Rattle.asm_builder.specs.Cells.{user_heap};
ghost use Rattle.asm_builder.specs.Sound.{IsSound};

use crate::asked::{Attribute, Field, MemberRef, Method, TypeDef, TypeRef};
use crate::tokens::TOKEN_ROWS;
use cli_assembly::{MethodSig, Params, TypeSig};
use metadata::Table;
use rtr_bytes::{NoMemory, Sequence};
use std::alloc::Global;
use std::marker::Model;

/// The token of the user string at offset 0 (ECMA-335 III.1.9).
const USER_STRINGS: u32 = 0x7000_0000;

/// The token of the last of so many rows of a table.
fn last_token(table: Table, rows: usize) -> u32
    requires { rows < 2 ^ 24 }
    ensures { result ≡ token (table_number table) rows }
{
    u32::from(table.number()) * TOKEN_ROWS + rows as u32
}

/// How many bytes the shortest spelling of a length has.
pub(crate) fn compressed_len(value: u32) -> u32
    ensures len { result ≡ length (compressed_bytes value) }
    ensures few { result ≤ 4 }
{
    if value < 0x80 {
        1
    } else if value < 0x4000 {
        2
    } else {
        4
    }
}

/// How many bytes a user string has in its heap.
pub(crate) fn user_string_len(units: usize) -> u32
    requires { units < 2 ^ 28 }
    ensures { result ≡ length (compressed_bytes (2 * units + 1)) + (2 * units + 1) }
{
    let len = units as u32 * 2 + 1;
    compressed_len(len) + len
}

/// The same signature, with a list of its own.
fn copy_sig(alloc: Global, sig: &MethodSig) -> Result<MethodSig, NoMemory>
    ensures { IfOk result (λ copy. copy ≡ sig.now) }
{
    Ok(MethodSig {
        has_this: sig.has_this,
        params: copy_types(alloc, sig.params.as_slice())?,
        ret: sig.ret,
    })
}

/// A list of the same types.
fn copy_types(alloc: Global, types: &[TypeSig]) -> Result<Params, NoMemory>
    ensures { IfOk result (λ copy. copy ≡ types.now) }
{
    let mut list = Vec::new(alloc);
    list.extend_from_slice(types)?;
    Ok(Sequence::from_vec(list))
}

/// A list of the same bytes.
fn copy_bytes(alloc: Global, bytes: &[u8]) -> Result<Sequence<u8>, NoMemory>
    ensures { IfOk result (λ copy. copy ≡ bytes.now) }
{
    let mut list = Vec::new(alloc);
    list.extend_from_slice(bytes)?;
    Ok(Sequence::from_vec(list))
}

/// An assembly in the making. It is seen as what was asked of it, in order.
///
/// A row's token is the table's number above 24 bits of its row, from 1. After an `Err` the builder is as before.
///
/// What may be asked for (`IsSound` of `specs/Sound.antt`): each token names a row that is there, in a table that its column takes;
/// a name has no zero byte; a type in a signature is not `Outside`, and a class has the token of a TypeDef, a TypeRef or a TypeSpec;
/// fields and methods come after a type. There are fewer than 2^24 rows in a table, and fewer than 2^24 bytes in `#Strings`, in
/// `#Blob`, in `#US`, and in all codes together. Each name and each blob that is not empty is in its heap once for each time that it
/// was asked for; the assembly's name is there twice.
#[derive(Drop)]
pub struct Builder {
    pub(crate) alloc: Global,
    pub(crate) name: Sequence<u8>,
    pub(crate) assembly_refs: Vec<Sequence<u8>>,
    pub(crate) type_refs: Vec<TypeRef>,
    pub(crate) type_defs: Vec<TypeDef>,
    pub(crate) fields: Vec<Field>,
    pub(crate) methods: Vec<Method>,
    pub(crate) member_refs: Vec<MemberRef>,
    pub(crate) user_strings: Vec<Sequence<u16>>,
    /// How many bytes the user strings have in their heap.
    pub(crate) user_heap_len: u32,
    pub(crate) attributes: Vec<Attribute>,
}

impl Model for Builder {
    ghost use Rattle.std.specs.Prelude.{◌≡◌, length};
    ghost use Rattle.asm_builder.specs.Asked.{Asked};
    ghost use Rattle.asm_builder.specs.Cells.{user_heap};
    ghost use Rattle.asm_builder.specs.Sound.{IsSound};

    ghost Value = { Asked };

    ghost view = { λ b. record {
      name = b.name;
      assembly_refs = b.assembly_refs.items;
      type_refs = b.type_refs.items;
      type_defs = b.type_defs.items;
      fields = b.fields.items;
      methods = b.methods.items;
      member_refs = b.member_refs.items;
      user_strings = b.user_strings.items;
      attributes = b.attributes.items;
    } };

    ghost invariant = { λ b. (b.user_heap_len ≡ length (user_heap b.user_strings.items)) × IsSound (record {
      name = b.name;
      assembly_refs = b.assembly_refs.items;
      type_refs = b.type_refs.items;
      type_defs = b.type_defs.items;
      fields = b.fields.items;
      methods = b.methods.items;
      member_refs = b.member_refs.items;
      user_strings = b.user_strings.items;
      attributes = b.attributes.items;
    }) };
}

impl Builder {
    /// An assembly of this name, with its one row of Module and of Assembly. Its module has the same name.
    pub fn new(alloc: Global, name: &str) -> Result<Builder, NoMemory>
        requires sound { IsSound (only_name name.now) }
        ensures { IfOk result (λ builder. builder ≡ only_name name.now) }
    {
        Ok(Builder {
            alloc,
            name: copy_bytes(alloc, name.as_bytes())?,
            assembly_refs: Vec::new(alloc),
            type_refs: Vec::new(alloc),
            type_defs: Vec::new(alloc),
            fields: Vec::new(alloc),
            methods: Vec::new(alloc),
            member_refs: Vec::new(alloc),
            user_strings: Vec::new(alloc),
            user_heap_len: 1,
            attributes: Vec::new(alloc),
        })
    }

    /// A row of AssemblyRef (ECMA-335 II.22.5), of version 0.0.0.0.
    pub fn assembly_ref(&mut self, name: &str) -> Result<u32, NoMemory>
        requires sound { IsSound (with_assembly_ref self.old name.now) }
        ensures added { OnOk result (self.new ≡ with_assembly_ref self.old name.now) }
        ensures token { IfOk result (λ token. token ≡ last_token tables.AssemblyRef self.new.assembly_refs) }
        ensures err { OnErr result (self.new ≡ self.old) }
    {
        let row = copy_bytes(self.alloc, name.as_bytes())?;
        self.assembly_refs.push(row)?;
        Ok(last_token(Table::AssemblyRef, self.assembly_refs.len()))
    }

    /// A row of TypeRef (ECMA-335 II.22.38). `parent` is the token of its ResolutionScope.
    pub fn type_ref(&mut self, parent: u32, space: &str, name: &str) -> Result<u32, NoMemory>
        requires sound { IsSound (with_type_ref self.old parent space.now name.now) }
        ensures added { OnOk result (self.new ≡ with_type_ref self.old parent space.now name.now) }
        ensures token { IfOk result (λ token. token ≡ last_token tables.TypeRef self.new.type_refs) }
        ensures err { OnErr result (self.new ≡ self.old) }
    {
        let row = TypeRef {
            parent,
            space: copy_bytes(self.alloc, space.as_bytes())?,
            name: copy_bytes(self.alloc, name.as_bytes())?,
        };
        self.type_refs.push(row)?;
        Ok(last_token(Table::TypeRef, self.type_refs.len()))
    }

    /// A row of TypeDef (ECMA-335 II.22.37). `base` is the token of the type that it extends, or 0. The fields and methods that are
    /// asked for after it are its own, up to the next type. After just 65,535 fields or 65,535 methods no type can be asked for: the
    /// number of the next one has more than the two bytes of its column.
    pub fn type_def(
        &mut self,
        flags: u32,
        space: &str,
        name: &str,
        base: u32,
    ) -> Result<u32, NoMemory>
        requires sound { IsSound (with_type_def self.old flags space.now name.now base) }
        ensures added { OnOk result (self.new ≡ with_type_def self.old flags space.now name.now base) }
        ensures token { IfOk result (λ token. token ≡ last_token tables.TypeDef self.new.type_defs) }
        ensures err { OnErr result (self.new ≡ self.old) }
    {
        let row = TypeDef {
            flags,
            space: copy_bytes(self.alloc, space.as_bytes())?,
            name: copy_bytes(self.alloc, name.as_bytes())?,
            base,
            fields_before: self.fields.len() as u32,
            methods_before: self.methods.len() as u32,
        };
        self.type_defs.push(row)?;
        Ok(last_token(Table::TypeDef, self.type_defs.len()))
    }

    /// A row of Field (ECMA-335 II.22.15), of the last type.
    pub fn field(&mut self, flags: u16, name: &str, sig: TypeSig) -> Result<u32, NoMemory>
        requires sound { IsSound (with_field self.old flags name.now sig) }
        ensures added { OnOk result (self.new ≡ with_field self.old flags name.now sig) }
        ensures token { IfOk result (λ token. token ≡ last_token tables.Field self.new.fields) }
        ensures err { OnErr result (self.new ≡ self.old) }
    {
        let row = Field {
            flags,
            name: copy_bytes(self.alloc, name.as_bytes())?,
            sig,
        };
        self.fields.push(row)?;
        Ok(last_token(Table::Field, self.fields.len()))
    }

    /// A row of MethodDef (ECMA-335 II.22.26), of the last type, with its body. Without code it has no body, and RVA 0.
    pub fn method(
        &mut self,
        flags: u16,
        name: &str,
        sig: &MethodSig,
        max_stack: u16,
        locals: &[TypeSig],
        code: &[u8],
    ) -> Result<u32, NoMemory>
        requires sound { IsSound (with_method self.old (method flags name.now sig.now max_stack locals.now code.now)) }
        ensures added { OnOk result (self.new ≡ with_method self.old (method flags name.now sig.now max_stack locals.now code.now)) }
        ensures token { IfOk result (λ token. token ≡ last_token tables.MethodDef self.new.methods) }
        ensures err { OnErr result (self.new ≡ self.old) }
    {
        let row = Method {
            flags,
            name: copy_bytes(self.alloc, name.as_bytes())?,
            sig: copy_sig(self.alloc, sig)?,
            max_stack,
            locals: copy_types(self.alloc, locals)?,
            code: copy_bytes(self.alloc, code)?,
        };
        self.methods.push(row)?;
        Ok(last_token(Table::MethodDef, self.methods.len()))
    }

    /// A row of MemberRef (ECMA-335 II.22.25). `parent` is the token of its Class, and `sig` its signature's blob.
    pub fn member_ref(&mut self, parent: u32, name: &str, sig: &[u8]) -> Result<u32, NoMemory>
        requires sound { IsSound (with_member_ref self.old parent name.now sig.now) }
        ensures added { OnOk result (self.new ≡ with_member_ref self.old parent name.now sig.now) }
        ensures token { IfOk result (λ token. token ≡ last_token tables.MemberRef self.new.member_refs) }
        ensures err { OnErr result (self.new ≡ self.old) }
    {
        let row = MemberRef {
            parent,
            name: copy_bytes(self.alloc, name.as_bytes())?,
            sig: copy_bytes(self.alloc, sig)?,
        };
        self.member_refs.push(row)?;
        Ok(last_token(Table::MemberRef, self.member_refs.len()))
    }

    /// A string of UTF-16 units in `#US`. Its token is 0x70000000 and its offset (ECMA-335 III.1.9).
    pub fn user_string(&mut self, units: &[u16]) -> Result<u32, NoMemory>
        requires sound { IsSound (with_user_string self.old units.now) }
        ensures added { OnOk result (self.new ≡ with_user_string self.old units.now) }
        ensures token { IfOk result (λ token. token ≡ 0x7000_0000 + length (user_heap self.old.user_strings)) }
        ensures err { OnErr result (self.new ≡ self.old) }
    {
        let mut list = Vec::new(self.alloc);
        list.extend_from_slice(units)?;
        let offset = self.user_heap_len;
        self.user_strings.push(Sequence::from_vec(list))?;
        self.user_heap_len = offset + user_string_len(units.len());
        Ok(USER_STRINGS + offset)
    }

    /// A row of CustomAttribute (ECMA-335 II.22.10): the tokens of what it is on and of the constructor, and its value's blob.
    pub fn attribute(
        &mut self,
        parent: u32,
        constructor: u32,
        value: &[u8],
    ) -> Result<u32, NoMemory>
        requires sound { IsSound (with_attribute self.old parent constructor value.now) }
        ensures added { OnOk result (self.new ≡ with_attribute self.old parent constructor value.now) }
        ensures token { IfOk result (λ token. token ≡ last_token tables.CustomAttribute self.new.attributes) }
        ensures err { OnErr result (self.new ≡ self.old) }
    {
        let row = Attribute {
            parent,
            constructor,
            value: copy_bytes(self.alloc, value)?,
        };
        self.attributes.push(row)?;
        Ok(last_token(Table::CustomAttribute, self.attributes.len()))
    }
}
