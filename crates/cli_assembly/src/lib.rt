//! Assemblies (ECMA-335 II): their rows, signatures and method bodies.
//!
//! What a file's bytes stand for is one record, `Assembly` of `specs/Assemblies.antt`: the tables as lists of rows, the heaps, the
//! bodies, the flags of the CLI header and the entry token. Signatures are read by `specs/Signatures.antt`, and written by
//! `specs/Shortest.antt`.
#![tactic(auto)]

mod assembly;
mod bodies;
mod body;
mod check;
mod column_laws;
mod element;
mod element_types;
mod flags;
mod header;
mod laws;
mod lookups;
mod parts;
mod pending;
mod reading;
mod room;
mod shape;
mod signature;
mod signatures;
mod token;
mod writable;
mod writing;

pub use assembly::Assembly;
pub use body::Body;
pub use column_laws::{columns_are_named, lists_ascend, one_module_and_manifest};
pub use element::{ELEMS, Elem};
pub use flags::{
    FIELD_LITERAL, FIELD_STATIC, METHOD_ABSTRACT, METHOD_NEW_SLOT, METHOD_STATIC, METHOD_VIRTUAL,
    TYPE_ABSTRACT, TYPE_EXPLICIT_LAYOUT, TYPE_INTERFACE,
};
pub use laws::{signatures_are_read_back, signatures_are_shortest};
pub use signature::{MethodSig, Params, TypeSig};
pub use writing::{write_field_sig, write_local_sig, write_method_sig};
