//! The ReadyToRun part of an image, read and written by records (ReadyToRun File Format).
//!
//! [`read_rtr`] gives what is in a file's bytes: the header, its section records and the import records,
//! and of an image that this compiler wrote the slots, the functions and the entries too. [`write_rtr`] writes such
//! records as the part of an image of this compiler, where [`can_write_rtr`] says that it can.
#![tactic(auto)]

mod bad_words;
mod check;
mod entries;
mod entry_writer;
mod file;
mod functions;
mod header;
mod image;
mod imports;
mod laws;
mod length;
mod pieces;
mod plan;
mod slot_lists;
mod slots;
mod written;

pub use entries::EntryPoint;
pub use functions::Function;
pub use header::{RtrHeader, RtrSection};
pub use image::{Image, read_rtr};
pub use imports::ImportSection;
pub use laws::{parts_are_bounded, written_files_carry_the_part};
pub use length::written_len;
pub use plan::{can_write_rtr, is_well_planned};
pub use slots::Slot;
pub use written::{Written, write_rtr};
