//! Writing the text of a run. It takes no memory, since workers have run by then.

ghost use Rattle.std.specs.Prelude.{◌≡◌, ◌≤◌};
ghost use Rattle.std.specs.List.{flat_map, list_all};
ghost use Rattle.r2r_commands.specs.Printing.{IsWritten, has_returned, state_text, states_text, value_text};
ghost use Rattle.r2r_commands.specs.RunText.{ending_line, ending_name, ending_value, value_of};

use cil_meaning::Ending;
use cli_assembly::{Elem, TypeSig};
use itoa::Buffer;
use rtr_outside::{Sink, SinkFailed, write_all};
use rtr_runner::Worker;

/// Writes pieces, one after another.
fn write_pieces<S: Sink>(out: &mut S, pieces: &[&[u8]]) -> Result<(), SinkFailed>
    ensures written { IsWritten S.written S.faults (flat_map (λ piece. piece.now) pieces.now) out.old out.new result }
    ensures never_falls { S.faults out.old ≤ S.faults out.new }
{
    for piece in pieces {
        write_all(out, piece)?;
    }
    Ok(())
}

/// The value of an integer type that the low bits of a word are.
#[tactic(auto, unfolding(crate::specs::RunText::value_of))]
fn value_of(elem: Elem, word: u64) -> i128
    ensures { result ≡ value_of elem word }
{
    match elem {
        Elem::Boolean | Elem::U1 => i128::from(word % 0x100),
        Elem::Char | Elem::U2 => i128::from(word % 0x1_0000),
        Elem::I1 => i128::from(((word % 0x100) as u8).cast_signed()),
        Elem::I2 => i128::from(((word % 0x1_0000) as u16).cast_signed()),
        Elem::I4 => i128::from(((word % 0x1_0000_0000) as u32).cast_signed()),
        Elem::U4 => i128::from(word % 0x1_0000_0000),
        Elem::I8 => i128::from(word.cast_signed()),
        Elem::U8 => i128::from(word),
    }
}

/// The name of an ending.
#[tactic(auto, unfolding(crate::specs::RunText::ending_name))]
fn ending_name(ending: Ending) -> &'static str
    ensures { result.now ≡ ending_name ending }
{
    match ending {
        Ending::Return(_) => "Return",
        Ending::NullReference => "NullReference",
        Ending::DivideByZero => "DivideByZero",
        Ending::Overflow => "Overflow",
        Ending::IndexOutOfRange => "IndexOutOfRange",
        Ending::InvalidCast => "InvalidCast",
        Ending::NegativeSize => "NegativeSize",
        Ending::Missing => "Missing",
        Ending::Unsupported => "Unsupported",
        Ending::DepthLimit => "DepthLimit",
        Ending::HeapFull => "HeapFull",
        Ending::OutputFull => "OutputFull",
        Ending::OutOfTicks => "OutOfTicks",
        Ending::BadCode(_) => "BadCode",
        Ending::BadAccess(_) => "BadAccess",
        Ending::Runaway => "Runaway",
    }
}

/// What is after the name of an ending.
#[derive(Clone, Copy)]
enum Value {
    /// Nothing.
    None,
    /// The value that was returned.
    Returned(i128),
    /// An address.
    Address(u64),
}

/// What is after the name of an ending, for an entry whose result has this type.
fn value_after(ret: TypeSig, ending: Ending) -> Value
    ensures { value_text result ≡ ending_value ret ending }
{
    match ending {
        Ending::Return(word) => match ret {
            TypeSig::Int(elem) => Value::Returned(value_of(elem, word)),
            _ => Value::None,
        },
        Ending::BadCode(address) | Ending::BadAccess(address) => Value::Address(address),
        _ => Value::None,
    }
}

/// Writes the line of an ending, for an entry whose result has this type.
fn write_ending<S: Sink>(out: &mut S, ret: TypeSig, ending: Ending) -> Result<(), SinkFailed>
    ensures written { IsWritten S.written S.faults (ending_line ret ending) out.old out.new result }
    ensures never_falls { S.faults out.old ≤ S.faults out.new }
{
    let name = ending_name(ending).as_bytes();
    match value_after(ret, ending) {
        Value::None => write_pieces(out, &["-- ".as_bytes(), name, "\n".as_bytes()]),
        Value::Returned(value) => {
            let mut digits = Buffer::new();
            let value = digits.format(value).as_bytes();
            write_pieces(
                out,
                &[
                    "-- ".as_bytes(),
                    name,
                    " ".as_bytes(),
                    value,
                    "\n".as_bytes(),
                ],
            )
        }
        Value::Address(address) => {
            let mut digits = [0; 16];
            let _ = hex::encode_to_slice(address.to_be_bytes(), &mut digits);
            write_pieces(
                out,
                &[
                    "-- ".as_bytes(),
                    name,
                    " ".as_bytes(),
                    &digits,
                    "\n".as_bytes(),
                ],
            )
        }
    }
}

/// Writes the number of a worker that has run, the lines that it printed, and its ending.
fn write_worker<S: Sink>(out: &mut S, ret: TypeSig, worker: &Worker) -> Result<(), SinkFailed>
    ensures written { IsWritten S.written S.faults (state_text ret worker.now) out.old out.new result }
    ensures never_falls { S.faults out.old ≤ S.faults out.new }
{
    let Some(ending) = worker.ending() else {
        return Ok(());
    };
    let mut digits = Buffer::new();
    let number = digits.format(worker.number()).as_bytes();
    write_pieces(
        out,
        &[
            "== worker ".as_bytes(),
            number,
            "\n".as_bytes(),
            worker.output(),
        ],
    )?;
    write_ending(out, ret, ending)
}

/// Writes each worker, one after another.
pub(crate) fn write_workers<S: Sink>(
    out: &mut S,
    ret: TypeSig,
    workers: &[Worker],
) -> Result<(), SinkFailed>
    ensures written { IsWritten S.written S.faults (states_text ret workers.now) out.old out.new result }
    ensures never_falls { S.faults out.old ≤ S.faults out.new }
{
    for worker in workers {
        write_worker(out, ret, worker)?;
    }
    Ok(())
}

/// Whether a worker that has run returned.
fn has_returned(worker: &Worker) -> bool
    ensures { result ≡ has_returned worker.now }
{
    match worker.ending() {
        None | Some(Ending::Return(_)) => true,
        Some(_) => false,
    }
}

/// Whether each worker that has run returned.
pub(crate) fn all_returned(workers: &[Worker]) -> bool
    ensures { result ≡ list_all has_returned workers.now }
{
    for worker in workers {
        if !has_returned(worker) {
            return false;
        }
    }
    true
}
