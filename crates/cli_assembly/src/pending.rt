//! The bytes after a type, whatever is in it. One loop keeps what is still to come, so that types which are one in another
//! take no stack.

ghost use Rattle.std.specs.Prelude.{◌≡◌, ◌≤◌, ◌<◌, ◌+◌, ◌^◌, ◌++◌, length, option_copied, vec_len, IfOk, IfSome, OnOk};
ghost use Rattle.std.specs.Option.{option_map};
ghost use Rattle.cli_assembly.specs.Types.{after_type, is_alone, is_modifier, is_numbered, is_prefix};
ghost use Rattle.cli_assembly.specs.Heads.{function_in, head_in, instance_in, is_nothing, kept, shape_if};

use crate::element_types::{
    ARRAY, BYREF, CLASS, CMOD_OPT, CMOD_REQD, FNPTR, GENERICINST, I, MVAR, OBJECT, PINNED, PTR,
    SENTINEL, STRING, SZARRAY, TYPEDBYREF, U, VALUETYPE, VAR, VOID,
};
use crate::shape::{after_number, after_shape, number_in};
use rtr_bytes::NoMemory;
use std::alloc::Global;

/// What is still to come of a type: so many types, and then, where there is one, the shape of an array.
#[derive(Clone, Copy, Debug, PartialEq, Eq)]
pub(crate) struct Pending {
    pub(crate) types: u32,
    pub(crate) shape: bool,
}

impl Pending {
    /// Whether nothing is to come.
    fn is_nothing(self) -> bool
        ensures { result ≡ is_nothing self }
    {
        if self.shape { false } else { self.types == 0 }
    }
}

/// Nothing is to come.
const NOTHING: Pending = Pending {
    types: 0,
    shape: false,
};
/// One type is to come.
const ONE_TYPE: Pending = Pending {
    types: 1,
    shape: false,
};
/// The type of the elements is to come, and the shape of the array.
const ELEMENTS: Pending = Pending {
    types: 1,
    shape: true,
};

/// Whether nothing belongs to an element type and no type is to come: VOID to STRING, TYPEDBYREF, I, U and OBJECT.
fn is_alone(e: u8) -> bool
    ensures { result ≡ is_alone e }
{
    matches!(e, VOID..=STRING | TYPEDBYREF | I | U | OBJECT)
}

/// Whether a compressed number belongs to an element type and no type is to come: VALUETYPE, CLASS, VAR and MVAR.
fn is_numbered(e: u8) -> bool
    ensures { result ≡ is_numbered e }
{
    matches!(e, VALUETYPE | CLASS | VAR | MVAR)
}

/// Whether a type is to come after an element type: PTR, BYREF, SZARRAY, SENTINEL and PINNED.
fn is_prefix(e: u8) -> bool
    ensures { result ≡ is_prefix e }
{
    matches!(e, PTR | BYREF | SZARRAY | SENTINEL | PINNED)
}

/// Whether a coded type belongs to an element type and a type is to come: CMOD_REQD and CMOD_OPT.
fn is_modifier(e: u8) -> bool
    ensures { result ≡ is_modifier e }
{
    matches!(e, CMOD_REQD | CMOD_OPT)
}

/// What is to come after GENERICINST: the arguments.
fn instance_in(bytes: &[u8]) -> Option<(Pending, &[u8])>
    requires small { length bytes.now ≤ 2 ^ 31 }
    ensures found { option_map (λ found. (found.0, found.1.now)) result ≡ instance_in bytes.now }
    ensures shorter { IfSome result (λ found. length found.1.now < length bytes.now) }
{
    let (e, rest) = bytes.split_first()?;
    if *e == CLASS || *e == VALUETYPE {
        let (types, rest) = number_in(after_number(rest)?)?;
        Some((
            Pending {
                types,
                shape: false,
            },
            rest,
        ))
    } else {
        None
    }
}

/// What is to come after FNPTR: the type of the result, and those of the parameters.
fn function_in(bytes: &[u8]) -> Option<(Pending, &[u8])>
    requires small { length bytes.now ≤ 2 ^ 31 }
    ensures found { option_map (λ found. (found.0, found.1.now)) result ≡ function_in bytes.now }
    ensures shorter { IfSome result (λ found. length found.1.now < length bytes.now) }
{
    let (convention, rest) = bytes.split_first()?;
    let rest = if *convention / 0x10 % 2 == 1 {
        after_number(rest)?
    } else {
        rest
    };
    let (params, rest) = number_in(rest)?;
    Some((
        Pending {
            types: params + 1,
            shape: false,
        },
        rest,
    ))
}

/// What is to come after the element type that bytes begin with, and the bytes after what belongs to it.
#[tactic(auto, unfolding(crate::specs::Heads::head_in))]
fn head_in(bytes: &[u8]) -> Option<(Pending, &[u8])>
    requires small { length bytes.now ≤ 2 ^ 31 }
    ensures found { option_map (λ found. (found.0, found.1.now)) result ≡ head_in bytes.now }
    ensures shorter { IfSome result (λ found. length found.1.now < length bytes.now) }
{
    let (e, rest) = bytes.split_first()?;
    let e = *e;
    if is_alone(e) {
        Some((NOTHING, rest))
    } else if is_numbered(e) {
        Some((NOTHING, after_number(rest)?))
    } else if is_prefix(e) {
        Some((ONE_TYPE, rest))
    } else if is_modifier(e) {
        Some((ONE_TYPE, after_number(rest)?))
    } else if e == ARRAY {
        Some((ELEMENTS, rest))
    } else if e == GENERICINST {
        instance_in(rest)
    } else if e == FNPTR {
        function_in(rest)
    } else {
        None
    }
}

/// The bytes after the shape, where there is one.
fn after_shape_if(shape: bool, bytes: &[u8]) -> Option<&[u8]>
    requires small { length bytes.now ≤ 2 ^ 31 }
    ensures after { option_copied result ≡ shape_if shape bytes.now }
    ensures no_longer { IfSome result (λ rest. length rest.now ≤ length bytes.now) }
{
    if shape {
        after_shape(bytes)
    } else {
        Some(bytes)
    }
}

/// Keeps what is still to come, unless it is nothing.
fn keep(outer: &mut Vec<Pending>, pending: Pending) -> Result<(), NoMemory>
    ensures kept { OnOk result (outer.new.items ≡ outer.old.items ++ kept pending) }
    ensures one { OnOk result (vec_len outer.new ≤ vec_len outer.old + 1) }
{
    if !pending.is_nothing() {
        outer.push(pending)?;
    }
    Ok(())
}

/// The bytes after the type that bytes begin with. It takes a step for each element type, and no memory where no type has
/// several others in it.
pub(crate) fn after_type(alloc: Global, bytes: &[u8]) -> Result<Option<&[u8]>, NoMemory>
    requires small { length bytes.now ≤ 2 ^ 31 }
    ensures after { IfOk result (λ rest. option_copied rest ≡ after_type bytes.now) }
    ensures no_longer { IfOk result (λ found. IfSome found (λ rest. length rest.now ≤ length bytes.now)) }
{
    let mut outer = Vec::new(alloc);
    let mut inner = ONE_TYPE;
    let mut rest = bytes;
    loop {
        if inner.types > 0 {
            let Some((head, after)) = head_in(rest) else {
                return Ok(None);
            };
            rest = after;
            inner.types -= 1;
            keep(&mut outer, inner)?;
            inner = head;
        } else {
            let Some(after) = after_shape_if(inner.shape, rest) else {
                return Ok(None);
            };
            rest = after;
            let Some(next) = outer.pop() else {
                return Ok(Some(rest));
            };
            inner = next;
        }
    }
}
