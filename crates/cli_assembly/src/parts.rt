//! What is read of an assembly's bytes, once.

ghost use Rattle.std.specs.Prelude.{◌≡◌, ◌≤◌, ◌^◌, None, length, IfErr, IfOk, OnOk};
ghost use Rattle.rtr_bytes.specs.Checks.{RefusedBy, first_fault};
ghost use Rattle.pe_image.specs.Checks.{pe_checks};
ghost use Rattle.pe_image.specs.Headers.{headers_of};
ghost use Rattle.metadata.specs.Checks.{metadata_checks};
ghost use Rattle.metadata.specs.Tables.{layout_of};
ghost use Rattle.cli_assembly.specs.Checks.{assembly_checks, metadata_of};
ghost use Rattle.cli_assembly.specs.Kept.{IsReadFrom};

use crate::bodies::read_bodies;
use crate::body::Body;
use crate::room::SignatureRoom;
use crate::signature::{MethodSig, TypeSig};
use crate::signatures::{
    FIELD_SIGNATURE, LOCAL_SIGNATURE, MEMBER_SIGNATURE, METHOD_SIGNATURE, read_field_sigs,
    read_local_sigs, read_method_sigs,
};
use metadata::Metadata;
use pe_image::Pe;
use rtr_bytes::{ReadRefusal, Sequence};
use std::alloc::Global;

/// What is read of a file's bytes, beside them.
#[derive(Debug, Drop)]
pub(crate) struct Parts {
    /// The PE headers and the CLI header.
    pub pe: Pe,
    /// Where the tables and the heaps are.
    pub metadata: Metadata,
    /// The signatures of MethodDef, by row.
    pub methods: Vec<Option<MethodSig>>,
    /// The types of Field, by row.
    pub fields: Vec<Option<TypeSig>>,
    /// The types of locals of StandAloneSig, by row.
    pub locals: Vec<Option<Sequence<TypeSig>>>,
    /// The signatures of MemberRef as methods, by row.
    pub member_methods: Vec<Option<MethodSig>>,
    /// The types of MemberRef as fields, by row.
    pub member_fields: Vec<Option<TypeSig>>,
    /// The bodies of MethodDef, by row.
    pub bodies: Vec<Option<Body>>,
}

/// The metadata of a file whose headers pass their checks.
fn read_metadata(alloc: Global, bytes: &[u8], pe: &Pe) -> Result<Metadata, ReadRefusal>
    requires small { length bytes.now ≤ 2 ^ 31 }
    requires pe { pe.now ≡ headers_of bytes.now }
    requires passes { first_fault pe_checks bytes.now ≡ None }
    ensures malformed { IfErr result (λ e. RefusedBy (first_fault (metadata_checks (metadata_of bytes.now)) bytes.now) e) }
    ensures well_formed { OnOk result (first_fault (metadata_checks (metadata_of bytes.now)) bytes.now ≡ None) }
    ensures layout { IfOk result (λ m. m ≡ layout_of bytes.now (metadata_of bytes.now)) }
{
    Metadata::read(alloc, bytes, pe.metadata())
}

impl Parts {
    /// The parts of a file's bytes. `Malformed` names the first check that fails, with its place.
    pub(crate) fn read(alloc: Global, bytes: &[u8]) -> Result<Parts, ReadRefusal>
        requires small { length bytes.now ≤ 2 ^ 31 }
        ensures malformed { IfErr result (λ e. RefusedBy (first_fault (assembly_checks bytes.now) bytes.now) e) }
        ensures parts { IfOk result (λ parts. IsReadFrom bytes.now parts) }
    {
        let pe = Pe::read(alloc, bytes)?;
        let metadata = read_metadata(alloc, bytes, &pe)?;
        let bodies = read_bodies(alloc, bytes, &pe, &metadata)?;
        let mut room = SignatureRoom::of(bytes);
        let methods = read_method_sigs(alloc, bytes, &metadata, METHOD_SIGNATURE, &mut room)?;
        let fields = read_field_sigs(alloc, bytes, &metadata, FIELD_SIGNATURE, &mut room)?;
        let locals = read_local_sigs(alloc, bytes, &metadata, LOCAL_SIGNATURE, &mut room)?;
        let member_methods = read_method_sigs(
            alloc,
            bytes,
            &metadata,
            MEMBER_SIGNATURE,
            &mut room,
        )?;
        let member_fields = read_field_sigs(alloc, bytes, &metadata, MEMBER_SIGNATURE, &mut room)?;
        Ok(Parts {
            pe,
            metadata,
            methods,
            fields,
            locals,
            member_methods,
            member_fields,
            bodies,
        })
    }
}
