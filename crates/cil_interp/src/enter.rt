//! A method's frame as it begins.

ghost use Rattle.std.specs.Prelude.{◌≡◌, ◌≤◌, ◌<◌, ◌+◌, ◌^◌, length};
ghost use Rattle.cil_interp.specs.Entered.{cleared, entered_at, entered_words, kept_from, written};

use crate::act::Activation;
use crate::arithmetic::kept_word;
use crate::body::Body;
use cil_decode::IntegerType;
use type_world::MethodId;

/// Words from a place on, each as its place keeps it.
#[tactic(auto, using(crate::proofs::Begun::keep_step, crate::proofs::Begun::keep_end))]
fn keep(places: &[IntegerType], words: &mut [u64], base: usize)
    requires { base + length places.now ≤ length words.old }
    ensures { words.new ≡ kept_from places.now words.old base }
{
    for i in 0..places.len() {
        words[base + i] = kept_word(places[i], words[base + i]);
    }
}

/// So many zeros from a place on.
#[tactic(auto, using(crate::proofs::Begun::clear_step, crate::proofs::Begun::clear_end))]
fn clear(words: &mut [u64], base: usize, count: u32)
    requires { base + count ≤ length words.old }
    ensures { words.new ≡ cleared count words.old base }
{
    for i in 0..count as usize {
        words[base + i] = 0;
    }
}

/// Some words from a place on.
#[tactic(auto, using(crate::proofs::Begun::write_step, crate::proofs::Begun::write_end))]
pub(crate) fn write(values: &[u64], words: &mut [u64], base: usize)
    requires { base + length values.now ≤ length words.old }
    ensures { words.new ≡ written values.now words.old base }
{
    for i in 0..values.len() {
        words[base + i] = values[i];
    }
}

/// Begins a method whose arguments are the words from a place on.
pub(crate) fn begin(body: &Body, target: MethodId, words: &mut [u64], base: u32) -> Activation
    requires room { base + length body.now.arguments + body.now.locals ≤ length words.old }
    requires few { length words.old < 2 ^ 31 }
    ensures activation { result ≡ entered_at body.now target base }
    ensures words { words.new ≡ entered_words body.now words.old base }
{
    let arguments = body.arguments();
    let count = arguments.len() as u32;
    keep(arguments, words, base as usize);
    clear(words, base as usize + count as usize, body.locals());
    Activation {
        method: target,
        place: 0,
        base,
        end: base + count + body.locals(),
        passes: 0,
        result: None,
    }
}
