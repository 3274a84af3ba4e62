//! Entries of a run: which numbers a method takes.

ghost use Rattle.std.specs.Prelude.{◌≡◌, ◌<◌, length, option_copied};
ghost use Rattle.std.specs.Cmp.Lexicographic.{pointwise};
ghost use Rattle.type_world.specs.Loading.{world_of};
ghost use Rattle.type_world.specs.Entries.{can_start, in_range, is_printable, takes_number, takes_numbers};
ghost use Rattle.type_world.specs.Members.{signature_of};

use crate::assemblies::Assemblies;
use crate::identity::{BUILT_IN, MethodId};
use cli_assembly::{Elem, MethodSig, TypeSig};

/// Whether a number is in the range of an integer type.
#[tactic(auto, unfolding(crate::specs::Entries::in_range))]
fn in_range(elem: Elem, number: i128) -> bool
    ensures { result ≡ in_range elem number }
{
    match elem {
        Elem::Boolean => 0 <= number && number < 2,
        Elem::Char => 0 <= number && number < 0x1_0000,
        Elem::I1 => -0x80 <= number && number < 0x80,
        Elem::U1 => 0 <= number && number < 0x100,
        Elem::I2 => -0x8000 <= number && number < 0x8000,
        Elem::U2 => 0 <= number && number < 0x1_0000,
        Elem::I4 => -0x8000_0000 <= number && number < 0x8000_0000,
        Elem::U4 => 0 <= number && number < 0x1_0000_0000,
        Elem::I8 => -0x8000_0000_0000_0000 <= number && number < 0x8000_0000_0000_0000,
        Elem::U8 => 0 <= number && number < 0x1_0000_0000_0000_0000,
    }
}

/// Whether a parameter takes a number: it has an integer type, in whose range the number is.
fn takes_number(param: TypeSig, number: i128) -> bool
    ensures { result ≡ takes_number param number }
{
    match param {
        TypeSig::Int(elem) => in_range(elem, number),
        _ => false,
    }
}

/// Whether parameters take numbers, one each.
fn take_numbers(params: &[TypeSig], numbers: &[i128]) -> bool
    ensures { result ≡ pointwise takes_number params.now numbers.now }
{
    if params.len() != numbers.len() {
        return false;
    }
    for i in 0..params.len() {
        if !takes_number(params[i], numbers[i]) {
            return false;
        }
    }
    true
}

/// Whether a result is void or an integer.
fn is_printable(ret: TypeSig) -> bool
    ensures { result ≡ is_printable ret }
{
    matches!(ret, TypeSig::Void | TypeSig::Int(_))
}

/// Whether a method of a signature takes numbers.
fn takes_numbers(sig: &MethodSig, numbers: &[i128]) -> bool
    ensures { result ≡ takes_numbers sig.now numbers.now }
{
    !sig.has_this && is_printable(sig.ret) && take_numbers(sig.params.as_slice(), numbers)
}

impl Assemblies {
    /// Whether a run can begin at a row of MethodDef with some numbers: it is static, it has no `this`, its result is void or an integer, and
    /// each parameter has an integer type in whose range its number is.
    #[tactic(auto, unfolding(crate::specs::Entries::can_start, crate::specs::Members::signature_of))]
    pub(crate) fn can_start(&self, entry: MethodId, numbers: &[i128]) -> bool
        requires { entry.asm < BUILT_IN }
        ensures { result ≡ can_start (world_of self.now) entry numbers.now }
    {
        if !self.is_static(entry) {
            return false;
        }
        match self.signature_of(entry) {
            Some(sig) => takes_numbers(sig, numbers),
            None => false,
        }
    }

    /// The signature of a row of MethodDef. `None` exactly where there is no such row, or it has no signature of the form.
    pub(crate) fn signature_of(&self, method: MethodId) -> Option<&MethodSig>
        requires { method.asm < BUILT_IN }
        ensures { option_copied result ≡ signature_of (world_of self.now) method }
    {
        match self.assembly(method.asm) {
            Some(assembly) => assembly.method_sig(method.row),
            None => None,
        }
    }
}
