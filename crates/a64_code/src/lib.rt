//! The words of A64 that are compiled and run, both ways (Arm Architecture Reference Manual, C4.1 and C6.2).
//!
//! An [`Inst`] is an instruction as its row in a table and the fields of its word. [`decode`] gives the instruction of
//! a word, and [`encode`] the word of an instruction.
#![tactic(auto)]

mod decoding;
mod encoding;
mod fields;
mod inst;
mod laws;
mod range;
mod rows;

pub use decoding::decode;
pub use encoding::encode;
pub use inst::Inst;
pub use laws::{rows_fix_bits, words_read_back};
