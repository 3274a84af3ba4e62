//! How much room rows take in the heaps (ECMA-335 II.24.2), counted without their bytes. Sizes that reach 2^24 count as 2^24.

ghost use Rattle.std.specs.Prelude.{◌≡◌, ◌≤◌, ◌<◌, ◌+◌, ◌*◌, ◌^◌, ◌∷◌, ℕ, List, length, flat_map};
ghost use Rattle.cli_assembly.specs.Shortest.{field_sig_bytes, local_sig_bytes, method_sig_bytes, type_bytes};
ghost use Rattle.asm_builder.specs.Tested.{blob_room, capped, text_room};

use crate::builder::compressed_len;
use crate::content::coded_index;
use cli_assembly::{MethodSig, TypeSig};
use metadata::CodedKind;

/// Each heap, and all codes together, stay below this size.
const LIMIT: usize = 1 << 24;

/// A size, or 2^24 where it is more.
pub(crate) fn capped(size: usize) -> u32
    ensures { result ≡ capped size }
{
    size.min(LIMIT) as u32
}

/// A size with so much more: exact where that stays below 2^24.
pub(crate) fn grown(size: u32, more: u32) -> u32
    ensures { size + more < 2 ^ 24 → result ≡ size + more }
{
    size.saturating_add(more)
}

/// What a text takes, with its zero.
pub(crate) fn text_room(text: &str) -> u32
    ensures { result ≡ text_room text.now }
{
    if text.is_empty() {
        0
    } else {
        capped(text.len()).min(LIMIT as u32 - 1) + 1
    }
}

/// What a blob of so many bytes takes, with its length.
pub(crate) fn blob_room(len: usize) -> u32
    ensures { (blob : List ℕ) → length blob ≡ len → result ≡ blob_room blob }
{
    if len == 0 {
        0
    } else if len >= LIMIT {
        LIMIT as u32
    } else {
        capped(len + compressed_len(len as u32) as usize)
    }
}

/// What a blob takes, with its length.
pub(crate) fn bytes_room(blob: &[u8]) -> u32
    ensures { result ≡ blob_room blob.now }
{
    blob_room(blob.len())
}

/// How many bytes a type has in a signature.
fn type_len(of: TypeSig) -> u32
    ensures len { result ≡ length (type_bytes of) }
    ensures few { result ≤ 5 }
{
    match of {
        TypeSig::Void | TypeSig::Int(_) | TypeSig::Str | TypeSig::Object => 1,
        TypeSig::Class(token) => 1 + compressed_len(coded_index(CodedKind::TypeDefOrRef, token)),
        TypeSig::Array(_) => 2,
        TypeSig::Outside => 0,
    }
}

/// How many bytes types have, one after the other.
#[tactic(auto, using(crate::proofs::TypesLen::types_step))]
fn types_len(types: &[TypeSig]) -> usize
    requires { length types.now < 2 ^ 29 }
    ensures len { result ≡ length (flat_map type_bytes types.now) }
    ensures few { result ≤ 5 * length types.now }
{
    let mut len = 0;
    for of in types {
        len += type_len(*of) as usize;
    }
    len
}

/// What the signature of a field takes.
pub(crate) fn field_room(of: TypeSig) -> u32
    ensures { result ≡ blob_room (field_sig_bytes of) }
{
    blob_room(field_sig_len(of))
}

/// How many bytes the signature of a field has.
fn field_sig_len(of: TypeSig) -> usize
    ensures { result ≡ length (field_sig_bytes of) }
{
    1 + type_len(of) as usize
}

/// How many bytes the signature of a method has.
#[tactic(auto, unfolding(cli_assembly::specs::Shortest::method_sig_bytes))]
pub(crate) fn method_sig_len(sig: &MethodSig) -> usize
    requires { length sig.now.params < 2 ^ 29 }
    ensures { result ≡ length (method_sig_bytes sig.now) }
{
    let count = compressed_len(sig.params.len() as u32) as usize;
    1 + count + type_len(sig.ret) as usize + types_len(sig.params.as_slice())
}

/// How many bytes the signature of locals has.
#[tactic(auto, unfolding(cli_assembly::specs::Shortest::local_sig_bytes))]
pub(crate) fn local_sig_len(locals: &[TypeSig]) -> usize
    requires { length locals.now < 2 ^ 29 }
    ensures { result ≡ length (local_sig_bytes locals.now) }
{
    1 + compressed_len(locals.len() as u32) as usize + types_len(locals)
}
