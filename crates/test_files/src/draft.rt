//! Assemblies that are made with a draft, each from a text.

ghost use Rattle.std.specs.Prelude.{◌≤◌, IfOk, length};

use crate::pieces::number;
use asm_builder::Draft;
use cli_assembly::{Elem, METHOD_STATIC, MethodSig, TypeSig};
use rtr_bytes::Sequence;
use std::alloc::Global;
use std::test::Fail;

/// The assembly of a text. Its first line is the assembly's name, each other line is a call of [`Draft`], and the last call's token is
/// the entry point.
pub fn assembly_of(alloc: Global, text: &str) -> Result<Vec<u8>, Fail>
    ensures bounded { IfOk result (λ bytes. length bytes.items ≤ 16_777_216) }
{
    let mut lines = text.lines();
    let mut draft = Draft::new(alloc, lines.next().unwrap_or(""))?;
    let mut last = 0;
    for line in lines {
        last = call(alloc, &mut draft, line)?;
    }
    Ok(draft.finish(last)?)
}

/// The call of a line: its name and its arguments, tokens and flags in hexadecimal, `-` for an empty name. `entry` is a token alone.
fn call(alloc: Global, draft: &mut Draft, line: &str) -> Result<u32, Fail> {
    let (name, rest) = line.split_once(' ').unwrap_or((line, ""));
    let words: Vec<&str> = rest.split_whitespace().collect(alloc)?;
    match name {
        "entry" => number(rest),
        "assembly_ref" => Ok(draft.assembly_ref(rest)?),
        "type_ref" => type_ref(draft, &words),
        "member_ref" => member_ref(alloc, draft, &words),
        "attribute" => attribute(alloc, draft, &words),
        "type_def" => type_def(draft, &words),
        "field" => field(draft, &words),
        "method" => method(alloc, draft, &words),
        "method_with" => method_with(alloc, draft, &words),
        "user_string" => user_string(alloc, draft, &words),
        _ => Err("a call of a draft")?,
    }
}

/// A name; `-` is the empty one.
fn named(word: &str) -> &str {
    if word == "-" { "" } else { word }
}

/// `type_ref PARENT NAMESPACE NAME`.
fn type_ref(draft: &mut Draft, words: &[&str]) -> Result<u32, Fail> {
    match words {
        [parent, space, name] => Ok(draft.type_ref(number(parent)?, named(space), name)?),
        _ => Err("three words")?,
    }
}

/// `member_ref PARENT NAME SIGNATURE`.
fn member_ref(alloc: Global, draft: &mut Draft, words: &[&str]) -> Result<u32, Fail> {
    match words {
        [parent, name, sig] => {
            let sig = bytes_of(alloc, sig)?;
            Ok(draft.member_ref(number(parent)?, name, &sig)?)
        }
        _ => Err("three words")?,
    }
}

/// `attribute PARENT CONSTRUCTOR VALUE`.
fn attribute(alloc: Global, draft: &mut Draft, words: &[&str]) -> Result<u32, Fail> {
    match words {
        [parent, constructor, value] => {
            let value = bytes_of(alloc, value)?;
            Ok(draft.attribute(number(parent)?, number(constructor)?, &value)?)
        }
        _ => Err("three words")?,
    }
}

/// `type_def FLAGS NAMESPACE NAME BASE`.
fn type_def(draft: &mut Draft, words: &[&str]) -> Result<u32, Fail> {
    match words {
        [flags, space, name, base] => {
            Ok(draft.type_def(number(flags)?, named(space), name, number(base)?)?)
        }
        _ => Err("four words")?,
    }
}

/// `field FLAGS NAME TYPE`.
fn field(draft: &mut Draft, words: &[&str]) -> Result<u32, Fail> {
    match words {
        [flags, name, of] => {
            let flags = u16::try_from(number(flags)?)?;
            Ok(draft.field(flags, name, type_of(of)?)?)
        }
        _ => Err("three words")?,
    }
}

/// `user_string UNIT ..`.
fn user_string(alloc: Global, draft: &mut Draft, words: &[&str]) -> Result<u32, Fail> {
    let mut units = Vec::new(alloc);
    for word in words {
        units.push(u16::try_from(number(word)?)?)?;
    }
    Ok(draft.user_string(&units)?)
}

/// `method FLAGS NAME CODE RESULT PARAMETER ..`, without locals and with a MaxStack of 8.
fn method(alloc: Global, draft: &mut Draft, words: &[&str]) -> Result<u32, Fail> {
    match words {
        [flags, name, code, ret, params @ ..] => {
            let flags = u16::try_from(number(flags)?)?;
            let sig = signature(alloc, flags, ret, params)?;
            let code = bytes_of(alloc, code)?;
            Ok(draft.method(flags, name, &sig, 8, &[], &code)?)
        }
        _ => Err("four words or more")?,
    }
}

/// `method_with MAXSTACK LOCALS FLAGS NAME CODE RESULT PARAMETER ..`, the types of the locals with commas between them.
fn method_with(alloc: Global, draft: &mut Draft, words: &[&str]) -> Result<u32, Fail> {
    match words {
        [max_stack, locals, flags, name, code, ret, params @ ..] => {
            let max_stack = u16::try_from(number(max_stack)?)?;
            let locals = locals_of(alloc, locals)?;
            let flags = u16::try_from(number(flags)?)?;
            let sig = signature(alloc, flags, ret, params)?;
            let code = bytes_of(alloc, code)?;
            Ok(draft.method(flags, name, &sig, max_stack, &locals, &code)?)
        }
        _ => Err("six words or more")?,
    }
}

/// Types with commas between them; `-` are none.
fn locals_of(alloc: Global, names: &str) -> Result<Vec<TypeSig>, Fail> {
    if names == "-" {
        return Ok(Vec::new(alloc));
    }
    let names: Vec<&str> = names.split(',').collect(alloc)?;
    types(alloc, &names)
}

/// Bytes in hexadecimal; `-` are none.
fn bytes_of(alloc: Global, hex: &str) -> Result<Vec<u8>, Fail> {
    Ok(hex::decode(alloc, named(hex))?)
}

/// A signature of a method, which takes `this` where the flags are not those of a static method.
fn signature(alloc: Global, flags: u16, ret: &str, params: &[&str]) -> Result<MethodSig, Fail> {
    Ok(MethodSig {
        has_this: flags & METHOD_STATIC == 0,
        params: Sequence::from_vec(types(alloc, params)?),
        ret: type_of(ret)?,
    })
}

/// Types by their names.
fn types(alloc: Global, names: &[&str]) -> Result<Vec<TypeSig>, Fail> {
    let mut types = Vec::new(alloc);
    for name in names {
        types.push(type_of(name)?)?;
    }
    Ok(types)
}

/// A type by its name in ILAsm, an array of integers with `[]` after the name of these, or a class by its token after `class:`.
fn type_of(name: &str) -> Result<TypeSig, Fail> {
    if let Some(of) = name.strip_suffix("[]") {
        return Ok(TypeSig::Array(integer_of(of).ok_or("an integer")?));
    }
    if let Some(token) = name.strip_prefix("class:") {
        return Ok(TypeSig::Class(number(token)?));
    }
    match name {
        "void" => Ok(TypeSig::Void),
        "object" => Ok(TypeSig::Object),
        "string" => Ok(TypeSig::Str),
        _ => Ok(TypeSig::Int(integer_of(name).ok_or("a type")?)),
    }
}

/// A type of integers by its name in ILAsm.
fn integer_of(name: &str) -> Option<Elem> {
    match name {
        "bool" => Some(Elem::Boolean),
        "char" => Some(Elem::Char),
        "int8" => Some(Elem::I1),
        "uint8" => Some(Elem::U1),
        "int16" => Some(Elem::I2),
        "uint16" => Some(Elem::U2),
        "int32" => Some(Elem::I4),
        "uint32" => Some(Elem::U4),
        "int64" => Some(Elem::I8),
        "uint64" => Some(Elem::U8),
        _ => None,
    }
}
