//! Rows of TypeRef: the type that each names by its scope (ECMA-335 II.22.38).

ghost use Rattle.std.specs.Prelude.{◌≡◌, IsTrue, Some, slice_get, map, IfOk};
ghost use Rattle.std.specs.Option.{option_and_then};
ghost use Rattle.cli_assembly.specs.Assemblies.{assembly_name, assembly_of, coded_token};
ghost use Rattle.cli_assembly.specs.Kept.{answer_of};
ghost use Rattle.metadata.specs.declared.schema.Table.TheVariants as tables;
ghost use Rattle.type_world.specs.Kept.{next_ref};
ghost use Rattle.type_world.specs.Loading.{world_of};
ghost use Rattle.type_world.specs.Resolution.{by_scope, in_reference, in_type, resolve_ref, resolve_ref_within, scope_of, scope_of_token};
ghost use Rattle.type_world.specs.World.{assembly_in, assembly_named, is_text, rows_at};

use crate::answers::answer_of;
use crate::assemblies::Assemblies;
use crate::bases::is_type;
use crate::identity::TypeId;
use crate::scope::Scope;
use cli_assembly::Assembly;
use metadata::{CodedKind, Table};
use rtr_bytes::NoMemory;
use std::alloc::Global;

/// ResolutionScope, a column of TypeRef (ECMA-335 II.22.38).
const RESOLUTION_SCOPE: u8 = 0;
/// TypeName, a column of TypeRef.
const TYPE_NAME: u8 = 1;
/// TypeNamespace, a column of TypeRef.
const TYPE_NAMESPACE: u8 = 2;
/// Name, a column of AssemblyRef (ECMA-335 II.22.5).
const REFERENCE_NAME: u8 = 6;

/// Whether an assembly has a simple name.
fn has_name(assembly: &Assembly, name: &str) -> bool
    ensures { result ≡ is_text name.now (assembly_name (assembly_of assembly.now)) }
{
    name == assembly.name()
}

/// Whether two answers are one.
fn is_answer(answer: Option<TypeId>, other: Option<TypeId>) -> bool
    ensures { IsTrue result → answer ≡ other }
{
    match answer {
        Some(of) => match other {
            Some(found) => is_type(of, found),
            None => false,
        },
        None => other.is_none(),
    }
}

/// Whether two lists of answers are equal.
fn are_equal(answers: &[Option<TypeId>], others: &[Option<TypeId>]) -> bool
    ensures { IsTrue result → answers.now ≡ others.now }
{
    if answers.len() != others.len() {
        return false;
    }
    for index in 0..answers.len() {
        if !is_answer(answers[index], others[index]) {
            return false;
        }
    }
    true
}

impl Assemblies {
    /// Whether the assembly at a position has a simple name.
    fn is_assembly_named(&self, asm: u8, name: &str) -> bool
        ensures { result ≡ is_text name.now (assembly_name (assembly_in (world_of self.now) asm)) }
    {
        match self.assembly(asm) {
            Some(assembly) => has_name(assembly, name),
            None => name == "",
        }
    }

    /// The position of the assembly of a simple name, whatever its version.
    #[tactic(auto, unfolding(crate::specs::World::assembly_named))]
    fn assembly_named(&self, name: &str) -> Option<u8>
        ensures { result ≡ assembly_named (world_of self.now) name.now }
    {
        for asm in 0..self.count() {
            if self.is_assembly_named(asm, name) {
                return Some(asm);
            }
        }
        None
    }

    /// The outermost type of a namespace and a name in the assembly that a row of AssemblyRef names.
    fn in_reference(&self, asm: u8, namespace: &str, name: &str, reference: u32) -> Option<TypeId>
        ensures { result ≡ in_reference (world_of self.now) asm namespace.now name.now reference }
    {
        let assembly = self.text_at(Table::AssemblyRef, asm, reference, REFERENCE_NAME);
        self.in_assembly(namespace, name, self.assembly_named(assembly))
    }

    /// The type of a name that is nested in an enclosing type, where there is one.
    fn in_enclosing(&self, name: &str, enclosing: Option<TypeId>) -> Option<TypeId>
        ensures { result ≡ option_and_then (in_type (world_of self.now) name.now) enclosing }
    {
        match enclosing {
            Some(of) => self.in_type(name, of),
            None => None,
        }
    }

    /// The scope that a token names, by its table.
    fn scope_by(&self, asm: u8, token: u32) -> Scope
        ensures { result ≡ scope_of_token (assembly_in (world_of self.now) asm) (Some token) }
    {
        if self.row_of(Table::Module, asm, token).is_some() {
            return Scope::Module;
        }
        if let Some(reference) = self.row_of(Table::AssemblyRef, asm, token) {
            return Scope::Reference(reference);
        }
        match self.row_of(Table::TypeRef, asm, token) {
            Some(enclosing) => Scope::Enclosing(enclosing),
            None => Scope::Unresolved,
        }
    }

    /// The scope of a row of TypeRef of an assembly.
    #[tactic(auto, unfolding(crate::specs::Resolution::scope_of))]
    fn scope_in(&self, assembly: &Assembly, asm: u8, row: u32) -> Scope
        requires { slice_get self.now asm ≡ Some assembly.now }
        ensures { result ≡ scope_of (assembly_in (world_of self.now) asm) row }
    {
        let scope = assembly.column(Table::TypeRef, row, RESOLUTION_SCOPE);
        match assembly.coded(CodedKind::ResolutionScope, scope) {
            Some(token) => self.scope_by(asm, token),
            None => Scope::Unresolved,
        }
    }

    /// The scope of a row of TypeRef. It is unresolved where there is no such row.
    fn scope_of(&self, asm: u8, row: u32) -> Scope
        ensures { result ≡ scope_of (assembly_in (world_of self.now) asm) row }
    {
        match self.assembly(asm) {
            Some(assembly) => self.scope_in(assembly, asm, row),
            None => Scope::Unresolved,
        }
    }

    /// The type that a row of TypeRef names by its scope, where it is known which types the enclosing rows name.
    fn by_scope(&self, asm: u8, row: u32, known: &[Option<TypeId>]) -> Option<TypeId>
        ensures { result ≡ by_scope (world_of self.now) asm (answer_of known.now) row }
    {
        let namespace = self.text_at(Table::TypeRef, asm, row, TYPE_NAMESPACE);
        let name = self.text_at(Table::TypeRef, asm, row, TYPE_NAME);
        match self.scope_of(asm, row) {
            Scope::Module => self.in_assembly(namespace, name, Some(asm)),
            Scope::Reference(reference) => self.in_reference(asm, namespace, name, reference),
            Scope::Enclosing(enclosing) => {
                self.in_enclosing(name, answer_of(known, enclosing).copied())
            },
            Scope::Unresolved => None,
        }
    }

    /// The answer of a row of TypeRef after one more round, by the answers so far.
    fn next_ref(&self, asm: u8, row: u32, known: &[Option<TypeId>]) -> Option<TypeId>
        ensures { result ≡ next_ref (world_of self.now) asm known.now row }
    {
        match answer_of(known, row) {
            Some(of) => Some(*of),
            None => self.by_scope(asm, row, known),
        }
    }

    /// One more round over the rows of TypeRef.
    fn next_refs(
        &self,
        alloc: Global,
        asm: u8,
        known: &[Option<TypeId>],
    ) -> Result<Vec<Option<TypeId>>, NoMemory>
        ensures { IfOk result (λ refs. refs.items ≡ map (next_ref (world_of self.now) asm known.now) (rows_at (world_of self.now) asm tables.TypeRef)) }
    {
        let mut refs = Vec::new(alloc);
        for index in 0..self.rows_at(Table::TypeRef, asm) {
            refs.push(self.next_ref(asm, index + 1, known))?;
        }
        Ok(refs)
    }

    /// No answer for each row of TypeRef.
    fn no_refs(&self, alloc: Global, asm: u8) -> Result<Vec<Option<TypeId>>, NoMemory>
        ensures { IfOk result (λ refs. refs.items ≡ map (resolve_ref_within 0 (world_of self.now) asm) (rows_at (world_of self.now) asm tables.TypeRef)) }
    {
        let mut refs = Vec::new(alloc);
        for index in 0..self.rows_at(Table::TypeRef, asm) {
            refs.push(None)?;
        }
        Ok(refs)
    }

    /// The types that the rows of TypeRef of an assembly name, one for each row. A round goes through all rows, and resolves those that have
    /// no answer yet; the first round that changes nothing is the last. Where types are nested n deep there are at most n + 2 rounds. A
    /// file whose scopes are one long chain takes as many rounds as it has rows, so its time is the square of their number.
    pub(crate) fn type_refs(&self, alloc: Global, asm: u8) -> Result<Vec<Option<TypeId>>, NoMemory>
        ensures { IfOk result (λ refs. refs.items ≡ map (resolve_ref (world_of self.now) asm) (rows_at (world_of self.now) asm tables.TypeRef)) }
    {
        let mut refs = self.no_refs(alloc, asm)?;
        for round in 0..self.rows_at(Table::TypeRef, asm) {
            let next = self.next_refs(alloc, asm, &refs)?;
            if are_equal(refs.as_slice(), next.as_slice()) {
                return Ok(refs);
            }
            refs = next;
        }
        Ok(refs)
    }
}
