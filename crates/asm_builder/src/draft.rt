//! A builder whose calls are tested: no call has a condition that its caller proves.

ghost use Rattle.std.specs.Prelude.{◌≡◌, ◌≤◌, ◌<◌, ◌+◌, ◌↔◌, false, None, length, IfOk, IfErr, OnOk, OnErr};
ghost use Rattle.metadata.specs.declared.schema.Table.TheVariants as tables;
ghost use Rattle.rtr_bytes.specs.Checks.{first_fault};
ghost use Rattle.pe_image.specs.Headers.{is_wide, native_of};
ghost use Rattle.cli_assembly.specs.Assemblies.{assembly_of};
ghost use Rattle.cli_assembly.specs.Checks.{assembly_checks};
ghost use Rattle.asm_builder.specs.declared.draft.DraftRefusal.TheVariants as refusals;
ghost use Rattle.asm_builder.specs.Asked.{last_token, method, only_name, with_assembly_ref, with_attribute, with_field, with_member_ref, with_method, with_type_def, with_type_ref, with_user_string};
ghost use Rattle.asm_builder.specs.Built.{IsBuilt};
ghost use Rattle.asm_builder.specs.Cells.{user_heap};
ghost use Rattle.asm_builder.specs.Content.{content_of};
ghost use Rattle.asm_builder.specs.File.{file_of};
ghost use Rattle.asm_builder.specs.Refusals.{IsRefused};
ghost use Rattle.asm_builder.specs.Sound.{IsEntry, IsSound};

use crate::builder::Builder;
use crate::finish::BuildRefusal;
use crate::room::{bytes_room, capped, field_room, grown, text_room};
use crate::tested::{can_new, method_blobs};
use cli_assembly::{MethodSig, TypeSig};
use rtr_bytes::NoMemory;
use std::alloc::Global;
use std::marker::Model;
use thiserror::Error;

/// Why a call of a draft did nothing, or no file was built.
#[derive(Clone, Copy, Debug, PartialEq, Eq, Error)]
pub enum DraftRefusal {
    /// The condition of the same call of [`Builder`] does not hold: a token names no row that is there, a name has a zero, and so on.
    #[error("what was asked for is not sound")]
    Unsound,
    /// The file would have more than 16,777,216 bytes.
    #[error("the file would be too long")]
    TooLong,
    /// Memory was refused.
    #[error("out of memory")]
    NoMemory,
}

impl From<NoMemory> for DraftRefusal {
    ghost from_gives = { λ _ e. e ≡ refusals.NoMemory };

    fn from(_e: NoMemory) -> DraftRefusal {
        DraftRefusal::NoMemory
    }
}

/// A [`Builder`] whose calls are tested. It is seen as what was asked of it, in order.
///
/// Each call answers `Unsound` exactly where the condition of the same call of `Builder` does not hold, and else what that call
/// answers. After an `Err` the draft is as before. So a caller needs no proof, and ends a call with `?`.
#[derive(Drop)]
pub struct Draft {
    pub(crate) builder: Builder,
    /// How many bytes `#Strings` has, before its end is padded.
    pub(crate) strings: u32,
    /// The same of `#Blob`.
    pub(crate) blobs: u32,
    /// How many bytes all codes have together.
    pub(crate) code: u32,
}

impl Model for Draft {
    ghost use Rattle.asm_builder.specs.Asked.{Asked};
    ghost use Rattle.asm_builder.specs.Tested.{IsCounted};

    ghost Value = { Asked };

    ghost view = { λ d. d.builder };

    ghost invariant = { λ d. IsCounted d.builder d.strings d.blobs d.code };
}

impl Draft {
    /// An assembly of this name. See [`Builder::new`].
    pub fn new(alloc: Global, name: &str) -> Result<Draft, DraftRefusal>
        ensures refused { IfErr result (IsRefused (IsSound (only_name name.now))) }
        ensures sound { OnOk result (IsSound (only_name name.now)) }
        ensures draft { IfOk result (λ draft. draft ≡ only_name name.now) }
    {
        if !can_new(name) {
            return Err(DraftRefusal::Unsound);
        }
        let builder = Builder::new(alloc, name)?;
        let strings = grown(1, text_room(name) + text_room(name));
        Ok(Draft {
            builder,
            strings,
            blobs: 1,
            code: 0,
        })
    }

    /// A row of AssemblyRef. See [`Builder::assembly_ref`].
    pub fn assembly_ref(&mut self, name: &str) -> Result<u32, DraftRefusal>
        ensures refused { IfErr result (IsRefused (IsSound (with_assembly_ref self.old name.now))) }
        ensures sound { OnOk result (IsSound (with_assembly_ref self.old name.now)) }
        ensures added { OnOk result (self.new ≡ with_assembly_ref self.old name.now) }
        ensures token { IfOk result (λ token. token ≡ last_token tables.AssemblyRef self.new.assembly_refs) }
        ensures err { OnErr result (self.new ≡ self.old) }
    {
        if !self.can_assembly_ref(name) {
            return Err(DraftRefusal::Unsound);
        }
        let token = self.builder.assembly_ref(name)?;
        self.strings = grown(self.strings, text_room(name));
        Ok(token)
    }

    /// A row of TypeRef. See [`Builder::type_ref`].
    pub fn type_ref(&mut self, parent: u32, space: &str, name: &str) -> Result<u32, DraftRefusal>
        ensures refused { IfErr result (IsRefused (IsSound (with_type_ref self.old parent space.now name.now))) }
        ensures sound { OnOk result (IsSound (with_type_ref self.old parent space.now name.now)) }
        ensures added { OnOk result (self.new ≡ with_type_ref self.old parent space.now name.now) }
        ensures token { IfOk result (λ token. token ≡ last_token tables.TypeRef self.new.type_refs) }
        ensures err { OnErr result (self.new ≡ self.old) }
    {
        if !self.can_type_ref(parent, space, name) {
            return Err(DraftRefusal::Unsound);
        }
        let token = self.builder.type_ref(parent, space, name)?;
        self.strings = grown(self.strings, text_room(name) + text_room(space));
        Ok(token)
    }

    /// A row of TypeDef. See [`Builder::type_def`].
    pub fn type_def(
        &mut self,
        flags: u32,
        space: &str,
        name: &str,
        base: u32,
    ) -> Result<u32, DraftRefusal>
        ensures refused { IfErr result (IsRefused (IsSound (with_type_def self.old flags space.now name.now base))) }
        ensures sound { OnOk result (IsSound (with_type_def self.old flags space.now name.now base)) }
        ensures added { OnOk result (self.new ≡ with_type_def self.old flags space.now name.now base) }
        ensures token { IfOk result (λ token. token ≡ last_token tables.TypeDef self.new.type_defs) }
        ensures err { OnErr result (self.new ≡ self.old) }
    {
        if !self.can_type_def(flags, space, name, base) {
            return Err(DraftRefusal::Unsound);
        }
        let token = self.builder.type_def(flags, space, name, base)?;
        self.strings = grown(self.strings, text_room(name) + text_room(space));
        Ok(token)
    }

    /// A row of Field, of the last type. See [`Builder::field`].
    pub fn field(&mut self, flags: u16, name: &str, sig: TypeSig) -> Result<u32, DraftRefusal>
        ensures refused { IfErr result (IsRefused (IsSound (with_field self.old flags name.now sig))) }
        ensures sound { OnOk result (IsSound (with_field self.old flags name.now sig)) }
        ensures added { OnOk result (self.new ≡ with_field self.old flags name.now sig) }
        ensures token { IfOk result (λ token. token ≡ last_token tables.Field self.new.fields) }
        ensures err { OnErr result (self.new ≡ self.old) }
    {
        if !self.can_field(flags, name, sig) {
            return Err(DraftRefusal::Unsound);
        }
        let token = self.builder.field(flags, name, sig)?;
        self.strings = grown(self.strings, text_room(name));
        self.blobs = grown(self.blobs, field_room(sig));
        Ok(token)
    }

    /// A row of MethodDef, of the last type, with its body. See [`Builder::method`].
    pub fn method(
        &mut self,
        flags: u16,
        name: &str,
        sig: &MethodSig,
        max_stack: u16,
        locals: &[TypeSig],
        code: &[u8],
    ) -> Result<u32, DraftRefusal>
        ensures refused { IfErr result (IsRefused (IsSound (with_method self.old (method flags name.now sig.now max_stack locals.now code.now)))) }
        ensures sound { OnOk result (IsSound (with_method self.old (method flags name.now sig.now max_stack locals.now code.now))) }
        ensures added { OnOk result (self.new ≡ with_method self.old (method flags name.now sig.now max_stack locals.now code.now)) }
        ensures token { IfOk result (λ token. token ≡ last_token tables.MethodDef self.new.methods) }
        ensures err { OnErr result (self.new ≡ self.old) }
    {
        if !self.can_method(flags, name, sig, max_stack, locals, code) {
            return Err(DraftRefusal::Unsound);
        }
        let blobs = method_blobs(sig, locals, code);
        let token = self
            .builder
            .method(flags, name, sig, max_stack, locals, code)?;
        self.strings = grown(self.strings, text_room(name));
        self.blobs = grown(self.blobs, blobs);
        self.code = grown(self.code, capped(code.len()));
        Ok(token)
    }

    /// A row of MemberRef. See [`Builder::member_ref`].
    pub fn member_ref(&mut self, parent: u32, name: &str, sig: &[u8]) -> Result<u32, DraftRefusal>
        ensures refused { IfErr result (IsRefused (IsSound (with_member_ref self.old parent name.now sig.now))) }
        ensures sound { OnOk result (IsSound (with_member_ref self.old parent name.now sig.now)) }
        ensures added { OnOk result (self.new ≡ with_member_ref self.old parent name.now sig.now) }
        ensures token { IfOk result (λ token. token ≡ last_token tables.MemberRef self.new.member_refs) }
        ensures err { OnErr result (self.new ≡ self.old) }
    {
        if !self.can_member_ref(parent, name, sig) {
            return Err(DraftRefusal::Unsound);
        }
        let token = self.builder.member_ref(parent, name, sig)?;
        self.strings = grown(self.strings, text_room(name));
        self.blobs = grown(self.blobs, bytes_room(sig));
        Ok(token)
    }

    /// A string of UTF-16 units in `#US`. See [`Builder::user_string`].
    pub fn user_string(&mut self, units: &[u16]) -> Result<u32, DraftRefusal>
        ensures refused { IfErr result (IsRefused (IsSound (with_user_string self.old units.now))) }
        ensures sound { OnOk result (IsSound (with_user_string self.old units.now)) }
        ensures added { OnOk result (self.new ≡ with_user_string self.old units.now) }
        ensures token { IfOk result (λ token. token ≡ 0x7000_0000 + length (user_heap self.old.user_strings)) }
        ensures err { OnErr result (self.new ≡ self.old) }
    {
        if !self.can_user_string(units) {
            return Err(DraftRefusal::Unsound);
        }
        let token = self.builder.user_string(units)?;
        Ok(token)
    }

    /// A row of CustomAttribute. See [`Builder::attribute`].
    pub fn attribute(
        &mut self,
        parent: u32,
        constructor: u32,
        value: &[u8],
    ) -> Result<u32, DraftRefusal>
        ensures refused { IfErr result (IsRefused (IsSound (with_attribute self.old parent constructor value.now))) }
        ensures sound { OnOk result (IsSound (with_attribute self.old parent constructor value.now)) }
        ensures added { OnOk result (self.new ≡ with_attribute self.old parent constructor value.now) }
        ensures token { IfOk result (λ token. token ≡ last_token tables.CustomAttribute self.new.attributes) }
        ensures err { OnErr result (self.new ≡ self.old) }
    {
        if !self.can_attribute(parent, constructor, value) {
            return Err(DraftRefusal::Unsound);
        }
        let token = self.builder.attribute(parent, constructor, value)?;
        self.blobs = grown(self.blobs, bytes_room(value));
        Ok(token)
    }

    /// The file. See [`Builder::finish`]. `entry` is the token of a MethodDef row, or 0 for none; `Unsound` comes exactly where it is
    /// neither.
    pub fn finish(self, entry: u32) -> Result<Vec<u8>, DraftRefusal>
        ensures refused { IfErr result (λ e. (e ≡ refusals.Unsound) ↔ ¬ (IsEntry self entry)) }
        ensures entry { OnOk result (IsEntry self entry) }
        ensures bytes { IfOk result (λ bytes. bytes.items ≡ file_of (content_of self) entry) }
        // It passes every check of an assembly, and it has the rows of the builder and no others.
        ensures well_formed { IfOk result (λ bytes. first_fault (assembly_checks bytes.items) bytes.items ≡ None) }
        ensures built { IfOk result (λ bytes. IsBuilt self entry (assembly_of bytes.items)) }
        ensures pe32 { IfOk result (λ bytes. is_wide bytes.items ≡ false) }
        ensures plain { IfOk result (λ bytes. native_of bytes.items ≡ None) }
        ensures length { IfOk result (λ bytes. length bytes.items ≤ 16_777_216) }
        ensures too_long { IfErr result (λ e. e ≡ refusals.TooLong → 16_777_216 < length (file_of (content_of self) entry)) }
    {
        let builder = self.builder;
        if !builder.is_entry(entry) {
            return Err(DraftRefusal::Unsound);
        }
        match builder.finish(entry) {
            Ok(bytes) => Ok(bytes),
            Err(BuildRefusal::TooLong) => Err(DraftRefusal::TooLong),
            Err(BuildRefusal::NoMemory) => Err(DraftRefusal::NoMemory),
        }
    }
}
