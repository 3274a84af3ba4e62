//! Writing the signatures of methods, fields and locals (ECMA-335 II.23.2).

ghost use Rattle.std.specs.Prelude.{◌≡◌, ◌≤◌, ◌<◌, ◌^◌, ◌++◌, Some, All, flat_map, length, IfOk, OnOk};
ghost use Rattle.cli_assembly.specs.Signatures.{field_sig_of, local_sig_of, method_sig_of};
ghost use Rattle.cli_assembly.specs.Shortest.{IsWritable, IsWritableType, convention_of, field_sig_bytes, local_sig_bytes, method_sig_bytes, type_bytes};

use crate::element_types::{
    CLASS, DEFAULT, FIELD, HAS_THIS, LOCAL_SIG, OBJECT, STRING, SZARRAY, VOID,
};
use crate::signature::{MethodSig, TypeSig};
use crate::token::coded_of_token;
use rtr_bytes::{NoMemory, put_compressed};
use std::alloc::Global;

/// Appends a type.
fn put_type(out: &mut Vec<u8>, of: TypeSig) -> Result<(), NoMemory>
    requires { IsWritableType of }
    ensures { OnOk result (out.new.items ≡ out.old.items ++ type_bytes of) }
{
    match of {
        TypeSig::Void => out.push(VOID)?,
        TypeSig::Int(elem) => out.push(elem.number())?,
        TypeSig::Str => out.push(STRING)?,
        TypeSig::Object => out.push(OBJECT)?,
        TypeSig::Class(token) => {
            out.push(CLASS)?;
            put_compressed(out, coded_of_token(token))?;
        }
        TypeSig::Array(elem) => out.extend_from_slice(&[SZARRAY, elem.number()])?,
        TypeSig::Outside => {}
    }
    Ok(())
}

/// Appends types one after the other.
fn put_types(out: &mut Vec<u8>, types: &[TypeSig]) -> Result<(), NoMemory>
    requires { All IsWritableType types.now }
    ensures { OnOk result (out.new.items ≡ out.old.items ++ flat_map type_bytes types.now) }
{
    for of in types {
        put_type(out, *of)?;
    }
    Ok(())
}

/// The bytes of a method's signature.
#[tactic(auto, unfolding(crate::specs::Shortest::method_sig_bytes))]
fn method_bytes(alloc: Global, sig: &MethodSig) -> Result<Vec<u8>, NoMemory>
    requires { IsWritable sig.now }
    ensures { IfOk result (λ bytes. bytes.items ≡ method_sig_bytes sig.now) }
{
    let mut out = Vec::new(alloc);
    out.push(if sig.has_this { HAS_THIS } else { DEFAULT })?;
    put_compressed(&mut out, sig.params.len() as u32)?;
    put_type(&mut out, sig.ret)?;
    put_types(&mut out, sig.params.as_slice())?;
    Ok(out)
}

/// The bytes of a field's signature.
fn field_bytes(alloc: Global, of: TypeSig) -> Result<Vec<u8>, NoMemory>
    requires { IsWritableType of }
    ensures { IfOk result (λ bytes. bytes.items ≡ field_sig_bytes of) }
{
    let mut out = Vec::new(alloc);
    out.push(FIELD)?;
    put_type(&mut out, of)?;
    Ok(out)
}

/// The bytes of a signature of locals.
#[tactic(auto, unfolding(crate::specs::Shortest::local_sig_bytes))]
fn local_bytes(alloc: Global, locals: &[TypeSig]) -> Result<Vec<u8>, NoMemory>
    requires few { length locals.now < 2 ^ 29 }
    requires writable { All IsWritableType locals.now }
    ensures { IfOk result (λ bytes. bytes.items ≡ local_sig_bytes locals.now) }
{
    let mut out = Vec::new(alloc);
    out.push(LOCAL_SIG)?;
    put_compressed(&mut out, locals.len() as u32)?;
    put_types(&mut out, locals)?;
    Ok(out)
}

/// The shortest spelling of a method's signature (ECMA-335 II.23.2.1). There are fewer than 2^29 parameters, no type is
/// `Outside`, and each class has the token of a TypeDef, TypeRef or TypeSpec.
pub fn write_method_sig(alloc: Global, sig: &MethodSig) -> Result<Vec<u8>, NoMemory>
    requires { IsWritable sig.now }
    ensures bytes { IfOk result (λ bytes. bytes.items ≡ method_sig_bytes sig.now) }
    // It is read as the same signature.
    ensures read_back { IfOk result (λ bytes. method_sig_of bytes.items ≡ Some sig.now) }
{
    let bytes = method_bytes(alloc, sig)?;
    Ok(bytes)
}

/// The shortest spelling of a field's signature (ECMA-335 II.23.2.4). The type is not `Outside`, and a class has the token of a
/// TypeDef, TypeRef or TypeSpec.
pub fn write_field_sig(alloc: Global, of: TypeSig) -> Result<Vec<u8>, NoMemory>
    requires { IsWritableType of }
    ensures bytes { IfOk result (λ bytes. bytes.items ≡ field_sig_bytes of) }
    // It is read as the same type.
    ensures read_back { IfOk result (λ bytes. field_sig_of bytes.items ≡ Some of) }
{
    let bytes = field_bytes(alloc, of)?;
    Ok(bytes)
}

/// The shortest spelling of a signature of locals (ECMA-335 II.23.2.6). There are fewer than 2^29 locals, no type is `Outside`,
/// and each class has the token of a TypeDef, TypeRef or TypeSpec.
pub fn write_local_sig(alloc: Global, locals: &[TypeSig]) -> Result<Vec<u8>, NoMemory>
    requires few { length locals.now < 2 ^ 29 }
    requires writable { All IsWritableType locals.now }
    ensures bytes { IfOk result (λ bytes. bytes.items ≡ local_sig_bytes locals.now) }
    // They are read as the same types.
    ensures read_back { IfOk result (λ bytes. local_sig_of bytes.items ≡ Some locals.now) }
{
    let bytes = local_bytes(alloc, locals)?;
    Ok(bytes)
}
