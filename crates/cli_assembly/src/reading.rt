//! Reading the signatures of methods, fields and locals (ECMA-335 II.23.2).

ghost use Rattle.std.specs.Prelude.{◌≡◌, ◌≤◌, ◌^◌, length, IfOk, IfSome};
ghost use Rattle.std.specs.Option.{option_and_then, option_map, option_map_or};
ghost use Rattle.cli_assembly.specs.declared.signature.TypeSig.TheVariants as types;
ghost use Rattle.cli_assembly.specs.Elements.{element_in, element_of};
ghost use Rattle.cli_assembly.specs.Types.{array_in, class_in, coded_type, type_in, type_of, types_in};
ghost use Rattle.cli_assembly.specs.Signatures.{counted_types_in, field_sig_of, has_this_of, local_sig_of, method_after, method_sig_of};

use crate::element::{ELEMS, Elem};
use crate::element_types::{
    CLASS, DEFAULT, FIELD, HAS_THIS, LOCAL_SIG, OBJECT, STRING, SZARRAY, VOID,
};
use crate::pending::after_type;
use crate::shape::number_in;
use crate::signature::{MethodSig, TypeSig};
use crate::token::coded_type;
use rtr_bytes::{NoMemory, Sequence, compressed_at};
use std::alloc::Global;

/// The integer type of an element type, by the list of them.
fn element_in(elems: &[Elem], e: u8) -> Option<Elem>
    ensures { result ≡ element_in elems.now e }
{
    elems.iter().copied().find(|elem| elem.number() == e)
}

/// The integer type of an element type, where it is one.
#[tactic(auto, unfolding(crate::specs::Elements::element_of))]
fn element_of(e: u8) -> Option<Elem>
    ensures { result ≡ element_of e }
{
    element_in(&ELEMS, e)
}

/// The type after CLASS, by the coded type that was found.
fn class_of(found: Option<(u32, u32)>) -> TypeSig
    ensures { result ≡ option_map_or types.Class (option_and_then (λ found. coded_type found.0) found) types.Outside }
{
    match found {
        Some((value, _)) => match coded_type(value) {
            Some(token) => TypeSig::Class(token),
            None => TypeSig::Outside,
        },
        None => TypeSig::Outside,
    }
}

/// The type after CLASS.
fn class_in(bytes: &[u8]) -> TypeSig
    requires small { length bytes.now ≤ 2 ^ 31 }
    ensures { result ≡ class_in bytes.now }
{
    class_of(compressed_at(bytes, 0))
}

/// The type after SZARRAY.
fn array_in(bytes: &[u8]) -> TypeSig
    ensures { result ≡ array_in bytes.now }
{
    match bytes {
        [] => TypeSig::Outside,
        [e, ..] => match element_of(*e) {
            Some(elem) => TypeSig::Array(elem),
            None => TypeSig::Outside,
        },
    }
}

/// The type of another element type.
fn integer_of(e: u8) -> TypeSig
    ensures { result ≡ option_map_or types.Int (element_of e) types.Outside }
{
    match element_of(e) {
        Some(elem) => TypeSig::Int(elem),
        None => TypeSig::Outside,
    }
}

/// The type that bytes begin with, where they begin with one.
#[tactic(auto, unfolding(crate::specs::Types::type_of))]
fn type_of(bytes: &[u8]) -> TypeSig
    requires small { length bytes.now ≤ 2 ^ 31 }
    ensures { result ≡ type_of bytes.now }
{
    let Some((e, rest)) = bytes.split_first() else {
        return TypeSig::Outside;
    };
    let e = *e;
    if e == VOID {
        TypeSig::Void
    } else if e == STRING {
        TypeSig::Str
    } else if e == OBJECT {
        TypeSig::Object
    } else if e == CLASS {
        class_in(rest)
    } else if e == SZARRAY {
        array_in(rest)
    } else {
        integer_of(e)
    }
}

/// The type that bytes begin with, and the bytes after it.
#[tactic(auto, unfolding(crate::specs::Types::type_in))]
fn type_in(alloc: Global, bytes: &[u8]) -> Result<Option<(TypeSig, &[u8])>, NoMemory>
    requires small { length bytes.now ≤ 2 ^ 31 }
    ensures found { IfOk result (λ found. option_map (λ x. (x.0, x.1.now)) found ≡ type_in bytes.now) }
    ensures no_longer { IfOk result (λ found. IfSome found (λ x. length x.1.now ≤ length bytes.now)) }
{
    let Some(rest) = after_type(alloc, bytes)? else {
        return Ok(None);
    };
    Ok(Some((type_of(bytes), rest)))
}

/// So many types, and the bytes after them.
fn types_in(
    alloc: Global,
    count: u32,
    bytes: &[u8],
) -> Result<Option<(Sequence<TypeSig>, &[u8])>, NoMemory>
    requires small { length bytes.now ≤ 2 ^ 31 }
    ensures { IfOk result (λ found. option_map (λ x. (x.0, x.1.now)) found ≡ types_in count bytes.now) }
{
    let mut types = Vec::new(alloc);
    let mut rest = bytes;
    for _ in 0..count {
        let Some((of, after)) = type_in(alloc, rest)? else {
            return Ok(None);
        };
        types.push(of)?;
        rest = after;
    }
    Ok(Some((Sequence::from_vec(types), rest)))
}

/// A compressed count and so many types, and the bytes after them.
fn counted_types_in(
    alloc: Global,
    bytes: &[u8],
) -> Result<Option<(Sequence<TypeSig>, &[u8])>, NoMemory>
    requires small { length bytes.now ≤ 2 ^ 31 }
    ensures { IfOk result (λ found. option_map (λ x. (x.0, x.1.now)) found ≡ counted_types_in bytes.now) }
{
    let Some((count, rest)) = number_in(bytes) else {
        return Ok(None);
    };
    types_in(alloc, count, rest)
}

/// HASTHIS of a convention, where it is the default one.
fn has_this_of(convention: u8) -> Option<bool>
    ensures { result ≡ has_this_of convention }
{
    if convention == DEFAULT {
        Some(false)
    } else if convention == HAS_THIS {
        Some(true)
    } else {
        None
    }
}

/// The signature of a method after its convention, and the bytes after it.
fn method_after(
    alloc: Global,
    bytes: &[u8],
    has_this: bool,
) -> Result<Option<(MethodSig, &[u8])>, NoMemory>
    requires small { length bytes.now ≤ 2 ^ 31 }
    ensures { IfOk result (λ found. option_map (λ x. (x.0, x.1.now)) found ≡ method_after bytes.now has_this) }
{
    let Some((count, rest)) = number_in(bytes) else {
        return Ok(None);
    };
    let Some((ret, rest)) = type_in(alloc, rest)? else {
        return Ok(None);
    };
    let Some((params, rest)) = types_in(alloc, count, rest)? else {
        return Ok(None);
    };
    let sig = MethodSig {
        has_this,
        params,
        ret,
    };
    Ok(Some((sig, rest)))
}

/// The signature of a method that a blob spells, if it spells one (ECMA-335 II.23.2.1).
#[tactic(auto, unfolding(crate::specs::Signatures::method_sig_of))]
pub(crate) fn method_sig(alloc: Global, blob: &[u8]) -> Result<Option<MethodSig>, NoMemory>
    requires small { length blob.now ≤ 2 ^ 31 }
    ensures { IfOk result (λ sig. sig ≡ method_sig_of blob.now) }
{
    let Some((convention, rest)) = blob.split_first() else {
        return Ok(None);
    };
    let Some(has_this) = has_this_of(*convention) else {
        return Ok(None);
    };
    let Some((sig, rest)) = method_after(alloc, rest, has_this)? else {
        return Ok(None);
    };
    if rest.is_empty() {
        Ok(Some(sig))
    } else {
        Ok(None)
    }
}

/// The type of a field that a blob spells, if it spells one (ECMA-335 II.23.2.4).
#[tactic(auto, unfolding(crate::specs::Signatures::field_sig_of))]
pub(crate) fn field_sig(alloc: Global, blob: &[u8]) -> Result<Option<TypeSig>, NoMemory>
    requires small { length blob.now ≤ 2 ^ 31 }
    ensures { IfOk result (λ sig. sig ≡ field_sig_of blob.now) }
{
    let Some((first, rest)) = blob.split_first() else {
        return Ok(None);
    };
    if *first != FIELD {
        return Ok(None);
    }
    let Some((of, end)) = type_in(alloc, rest)? else {
        return Ok(None);
    };
    if end.is_empty() {
        Ok(Some(of))
    } else {
        Ok(None)
    }
}

/// The types of locals that a blob spells, if it spells them (ECMA-335 II.23.2.6).
#[tactic(auto, unfolding(crate::specs::Signatures::local_sig_of))]
pub(crate) fn local_sig(alloc: Global, blob: &[u8]) -> Result<Option<Sequence<TypeSig>>, NoMemory>
    requires small { length blob.now ≤ 2 ^ 31 }
    ensures { IfOk result (λ sig. sig ≡ local_sig_of blob.now) }
{
    let Some((first, rest)) = blob.split_first() else {
        return Ok(None);
    };
    if *first != LOCAL_SIG {
        return Ok(None);
    }
    let Some((types, end)) = counted_types_in(alloc, rest)? else {
        return Ok(None);
    };
    if end.is_empty() {
        Ok(Some(types))
    } else {
        Ok(None)
    }
}
