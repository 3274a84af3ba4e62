//! Fixup signatures, read and written (ReadyToRun File Format, "Fixups"; ECMA-335 II.23.2).
//!
//! A fixup says what a cell of a ReadyToRun image stands for: a method's entry, a type, the place of a field.
//! Its signature is one byte of its kind and the kind's payload. [`read_fixup`] reads one at a file offset,
//! [`write_fixup`] appends the shortest spelling, and [`Fixup::signature_len`] gives its length.
#![tactic(auto)]

mod element;
mod fixup;
mod kind;
mod laws;
mod length;
mod reading;
mod signature;
mod spellable;
mod writing;

pub use fixup::{FieldToken, Fixup, SigType};
pub use laws::{
    no_fixup_begins_another, read_fixup_is_spellable, shortest_fixup, written_fixup_is_read,
};
pub use reading::read_fixup;
pub use writing::write_fixup;
